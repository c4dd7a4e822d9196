//! How a thread waits for the others: it lets them run a few times before its actor tries again, and never spins.

ghost use Rattle.std.specs.Prelude.{◌≡◌, ◌≤◌, ◌↔◌, true};

use outside::{Actor, Gate, On, Turn};
use std::thread;

/// How many times a thread lets others run before its actor tries again, by what it waits for: once, if more times gain
/// nothing, since each may take some milliseconds on a machine whose processors are all busy. A recorder that waits longer finds
/// a batch of records, of which there is room for 1,024. A board that looks for the motion takes the count of ticks from the
/// processor of the pulse, which writes it for each event; five pieces that are not finished last longer than three such times.
fn yields(on: On) -> u32
    ensures some { (1 ≤ result) × (result ≤ 8) }
{
    match on {
        On::Records => 8,
        On::SegmentRoom | On::Motion | On::Halt => 3,
        On::Byte
        | On::Answer
        | On::ReplyRoom
        | On::Resume
        | On::Piece
        | On::RecordRoom
        | On::Reset => 1,
    }
}

/// Lets other threads run.
fn yield_for(on: On) {
    for _ in 0..yields(on) {
        thread::yield_now();
    }
}

/// Whether a turn is its actor's last. If the turn has to wait, the gate hears of it, and other threads run first.
#[inline]
pub fn is_last<G: Gate>(turn: Turn, actor: Actor, gate: &G) -> bool
    ensures { (result ≡ true) ↔ (turn ≡ Turn.Done) }
{
    match turn {
        Turn::Did => false,
        Turn::Wait(on) => {
            gate.wait(actor, on);
            yield_for(on);
            false
        }
        Turn::Done => true,
    }
}
