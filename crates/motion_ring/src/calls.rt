//! What the two ends do.
ghost use Rattle.std.specs.Prelude.{◌≡◌, ◌+◌, ◌-◌, ◌%◌, ◌<◌, ◌≤◌, ◌↔◌, ◌++◌, true, false, List, [], ◌∷◌, length, IfOk, OnOk, OnErr, IfErr, IfSome, IfNone, OnSome, None};
ghost use Rattle.step_line.specs.declared.Piece.{Piece};
ghost use Rattle.step_line.specs.Ordering.{ComesNext, has_ended};
ghost use Rattle.step_line.specs.Finishing.{tick_count, most_unfinished};
ghost use Rattle.motion_ring.specs.Sides.{MayPublish, MayStop, unfinished_in, ticks_published, with_piece, with_stop, with_halt, with_got, with_tick, halted_with, passed_in};
ghost use Rattle.units.specs.Truths.{one_if};
ghost use Rattle.motion_ring.specs.Ticks.{slots};
ghost use Rattle.motion_ring.specs.Rule.{PiecesAreTied, IsOfRing, MayDrop, MayHalt, none_sent, none_taken, skipped_piece, with_dropped, empty_slots};
ghost use Rattle.motion_ring.specs.Ends.{ring_of_out, ring_of_in, sent_by, stop_of, known_by, done_loads_of, heard_by, halt_loads_of, taken_by, passed_by, halted_by, shown_to, head_loads_of, asked_by, stop_loads_of, counted_by, left_in};

use crate::ends::{SegIn, SegOut};
use crate::plays::{
    Ask, Finish, Grasp, Halting, Heed, Publish, Reach, Recall, See, Sides, Skip, Stop, Tick, Tie,
};
use crate::view::{Common, Place, Ring};
use atomic_table::Table;
use outside::OutOfMemory;
use shared_rings::place_behind;
use std::alloc::Global;
use std::sync::Arc;
use step_line::{Piece, tick_count};

/// The word that counts the pieces published.
const HEAD: usize = 0;
/// The word that counts the ticks done, 256 bytes behind the head: each side writes one of them.
const DONE: usize = 32;
/// The words of the last stop and of the last halt, 256 bytes behind both: the stop is loaded each turn and stored seldom.
const STOP: usize = 64;

const HALTED: usize = 65;

const WORDS: usize = 66;

/// How many pieces have a slot.
pub const PIECE_ROOM: usize = 6;

/// A ring with no piece in it, and its two ends.
pub fn motion(alloc: Global) -> Result<(SegOut, SegIn), OutOfMemory>
    ensures ring { IfOk result (λ r. ring_of_out r.0 ≡ ring_of_in r.1) }
    ensures fresh { IfOk result (λ r. (sent_by r.0 ≡ none_sent) × (known_by r.0 ≡ 0) × (done_loads_of r.0 ≡ 0) × (halt_loads_of r.0 ≡ 0)) }
    ensures idle { IfOk result (λ r. (taken_by r.1 ≡ none_taken) × (head_loads_of r.1 ≡ 0) × (stop_loads_of r.1 ≡ 0) × (asked_by r.1 ≡ 0)) }
{
    let (table, mut seat): (Ring, Place) = Table::vacant(alloc, &[0; WORDS], PIECE_ROOM, &())?;
    let far = table.shared.split_seat::<Sides>(&mut seat);
    let ring = Arc::new(alloc, table)?;
    let other = Arc::try_clone(&ring)?;
    let out = SegOut {
        ring: other,
        seat: far,
        head: 0,
        slot: 0,
        ticks: 0,
        before: [0; 4],
    };
    let into = SegIn {
        ring,
        seat,
        taken: 0,
        slot: 0,
        counted: 0,
        left: 0,
        halted: 0,
    };
    Ok((out, into))
}

impl SegOut {
    /// Publishes a piece, or hands it back: exactly where the done count that it loads, once, shows five
    /// unfinished pieces. Then nothing was published.
    pub fn publish(&mut self, p: Piece) -> Result<(), Piece>
        requires { MayPublish (sent_by self.old) p }
        ensures ok { OnOk result (sent_by self.new ≡ with_piece (sent_by self.old) p) }
        ensures room { OnOk result (unfinished_in (sent_by self.old) (known_by self.new) < most_unfinished) }
        ensures full { OnErr result ((unfinished_in (sent_by self.old) (known_by self.new) ≡ most_unfinished) × (sent_by self.new ≡ sent_by self.old)) }
        ensures back { IfErr result (λ handed. handed ≡ p) }
        ensures load { done_loads_of self.new ≡ done_loads_of self.old + 1 }
        ensures halts { halt_loads_of self.new ≡ halt_loads_of self.old }
        ensures known { (known_by self.old ≤ known_by self.new) × (known_by self.new ≤ ticks_published (sent_by self.old)) }
        ensures ring { ring_of_out self.new ≡ ring_of_out self.old }
    {
        let shared = &self.ring.shared;
        let done = shared.load::<Reach>(&mut self.seat, DONE);
        if done < self.before[3] {
            return Err(p);
        }
        shared.exchange(&mut self.seat, self.slot, Some(p));
        shared.store::<Publish>(&mut self.seat, HEAD, self.head + 1);
        self.head += 1;
        self.slot = place_behind(self.slot, PIECE_ROOM);
        self.before = [self.ticks, self.before[0], self.before[1], self.before[2]];
        self.ticks += tick_count(&p) as u64;
        Ok(())
    }

    /// How many ticks are done, as it loads: no fewer than this end was told before, and no more than were
    /// published. At most five published pieces are unfinished then.
    pub fn done(&mut self) -> u64
        ensures loaded { result ≡ known_by self.new }
        ensures load { done_loads_of self.new ≡ done_loads_of self.old + 1 }
        ensures halts { halt_loads_of self.new ≡ halt_loads_of self.old }
        ensures known { (known_by self.old ≤ result) × (result ≤ ticks_published (sent_by self.old)) }
        ensures few { unfinished_in (sent_by self.old) result ≤ most_unfinished }
        ensures sent { sent_by self.new ≡ sent_by self.old }
        ensures ring { ring_of_out self.new ≡ ring_of_out self.old }
    {
        self.ring.shared.load::<See>(&mut self.seat, DONE)
    }

    /// Asks the other end to halt: stores the number of pieces published. None may be published until the halt is seen.
    pub fn stop(&mut self)
        requires { MayStop (sent_by self.old) }
        ensures sent { sent_by self.new ≡ with_stop (sent_by self.old) }
        ensures known { known_by self.new ≡ known_by self.old }
        ensures loads { (done_loads_of self.new ≡ done_loads_of self.old) × (halt_loads_of self.new ≡ halt_loads_of self.old) }
        ensures ring { ring_of_out self.new ≡ ring_of_out self.old }
    {
        self.ring
            .shared
            .store::<Stop>(&mut self.seat, STOP, self.head);
    }

    /// How many ticks are done once the other end has halted. Then every piece is finished, and the ticks published are
    /// those. None exactly where the halted word that it loads, once, is below the stop that was stored last.
    pub fn halted(&mut self) -> Option<u64>
        requires { (sent_by self.old).waits ≡ true }
        ensures some { IfSome result (λ done. (sent_by self.new ≡ with_halt (sent_by self.old) done) × (known_by self.new ≡ done) × (stop_of self.old ≤ heard_by self.new)) }
        ensures within { IfSome result (λ done. (done ≤ ticks_published (sent_by self.old)) × (unfinished_in (sent_by self.old) done ≤ most_unfinished)) }
        ensures none { IfNone result ((heard_by self.new < stop_of self.old) × (sent_by self.new ≡ sent_by self.old) × (known_by self.new ≡ known_by self.old)) }
        ensures load { halt_loads_of self.new ≡ halt_loads_of self.old + 1 }
        ensures loaded { (OnSome result (done_loads_of self.new ≡ done_loads_of self.old + 1)) × IfNone result (done_loads_of self.new ≡ done_loads_of self.old) }
        ensures known { known_by self.old ≤ known_by self.new }
        ensures ring { ring_of_out self.new ≡ ring_of_out self.old }
    {
        let shared = &self.ring.shared;
        if shared.load::<Heed>(&mut self.seat, HALTED) < self.head {
            return None;
        }
        let done = shared.load::<See>(&mut self.seat, DONE);
        self.ticks = done;
        self.before = [done; 4];
        Some(done)
    }
}

impl SegIn {
    /// The next piece, which may come after those got since the last halt; None exactly where the head that it loads,
    /// once, is the number of pieces got or dropped. Each tick of these has to be counted, but for those that a halt cut.
    pub fn piece(&mut self) -> Option<Piece>
        requires { left_in self.old ≡ 0 }
        ensures load { head_loads_of self.new ≡ head_loads_of self.old + 1 }
        ensures some { IfSome result (λ p. taken_by self.new ≡ with_got (taken_by self.old) p) }
        ensures there { IfSome result (λ p. length (passed_by self.old) < shown_to self.new) }
        ensures next { IfSome result (λ p. ComesNext (taken_by self.old).fresh p × (has_ended (passed_by self.old) ≡ false)) }
        ensures none { IfNone result ((shown_to self.new ≡ length (passed_by self.old)) × (taken_by self.new ≡ taken_by self.old)) }
        ensures stops { (asked_by self.new ≡ asked_by self.old) × (stop_loads_of self.new ≡ stop_loads_of self.old) }
        ensures ring { ring_of_in self.new ≡ ring_of_in self.old }
    {
        let shared = &self.ring.shared;
        let head = shared.load::<Grasp>(&mut self.seat, HEAD);
        if head == self.taken {
            return None;
        }
        let piece = shared.exchange(&mut self.seat, self.slot, None).unwrap();
        self.taken += 1;
        self.slot = place_behind(self.slot, PIECE_ROOM);
        self.left = tick_count(&piece) as u64;
        Some(piece)
    }

    /// Counts a tick of the piece that was got last, of which one has to be left, by one store of the done
    /// count. With its last tick its slot is given back. A piece that a halt cut has none left.
    pub fn tick_done(&mut self)
        requires { 0 < left_in self.old }
        ensures taken { taken_by self.new ≡ with_tick (taken_by self.old) }
        ensures loads { (head_loads_of self.new ≡ head_loads_of self.old) × (stop_loads_of self.new ≡ stop_loads_of self.old) }
        ensures shown { (shown_to self.new ≡ shown_to self.old) × (asked_by self.new ≡ asked_by self.old) }
        ensures ring { ring_of_in self.new ≡ ring_of_in self.old }
    {
        let shared = &self.ring.shared;
        if self.left == 1 {
            shared.store::<Finish>(&mut self.seat, DONE, self.counted + 1);
        } else {
            shared.store::<Tick>(&mut self.seat, DONE, self.counted + 1);
        }
        self.counted += 1;
        self.left -= 1;
    }

    /// Whether a stop waits for its halt: exactly where the stop word that it loads, once, is above the halt that was
    /// stored last.
    #[inline]
    pub fn stopped(&mut self) -> bool
        ensures above { (result ≡ true) ↔ (halted_by self.new < asked_by self.new) }
        ensures load { stop_loads_of self.new ≡ stop_loads_of self.old + 1 }
        ensures taken { taken_by self.new ≡ taken_by self.old }
        ensures shown { (shown_to self.new ≡ shown_to self.old) × (head_loads_of self.new ≡ head_loads_of self.old) }
        ensures ring { ring_of_in self.new ≡ ring_of_in self.old }
    {
        self.ring.shared.load::<Ask>(&mut self.seat, STOP) > self.halted
    }

    /// Halts where the stop says: takes the slots up to it without tracing their pieces, which are dropped, and stores the
    /// halt, which gives all slots back. The piece that was got last is cut after the ticks that are counted.
    pub fn halt(&mut self)
        requires { halted_by self.old < asked_by self.old }
        ensures halted { (dropped : List Piece) × (taken_by self.new ≡ halted_with (taken_by self.old) dropped) }
        ensures whole { (halted_by self.new ≡ asked_by self.old) × (asked_by self.new ≡ asked_by self.old) }
        ensures loads { (head_loads_of self.new ≡ head_loads_of self.old) × (stop_loads_of self.new ≡ stop_loads_of self.old) }
        ensures shown { shown_to self.new ≡ shown_to self.old }
        ensures ring { ring_of_in self.new ≡ ring_of_in self.old }
    {
        let shared = &self.ring.shared;
        let stop = shared.load::<Recall>(&mut self.seat, STOP);
        self.slot = drop_pieces(shared, &mut self.seat, self.slot, self.taken, stop);
        shared.store::<Halting>(&mut self.seat, HALTED, stop);
        self.taken = stop;
        self.halted = stop;
        self.left = 0;
    }
}

/// Takes the slot of the next piece, which is not traced, and empties it. The slot goes behind those that are out.
fn drop_piece(shared: &Common, seat: &mut Place, slot: usize)
    requires table { IsOfRing seat.old.table_id shared.now.table_id }
    requires may { MayDrop seat.old.me.0 slot }
    ensures dropped { (p : Piece) × (seat.new.me ≡ (skipped_piece seat.old.me.0 p, seat.old.me.1 ++ (slot, None) ∷ [])) }
    ensures same { (seat.new.table_id ≡ seat.old.table_id) × (seat.new.id ≡ seat.old.id) }
{
    shared.load::<Skip>(seat, STOP);
    shared.exchange(seat, slot, None);
    seat.turn();
}

/// Takes the slots of the pieces from one number to the stop, none of which is traced. The slot behind them.
fn drop_pieces(shared: &Common, seat: &mut Place, first: usize, from: u64, stop: u64) -> usize
    requires table { IsOfRing seat.old.table_id shared.now.table_id }
    requires may { MayHalt seat.old.me first from stop }
    ensures dropped { (ps : List Piece) × (seat.new.me ≡ (with_dropped seat.old.me.0 ps, empty_slots (from - one_if seat.old.me.0.busy) (one_if seat.old.me.0.busy + length ps))) × (length ps + from ≡ stop) }
    ensures same { (seat.new.table_id ≡ seat.old.table_id) × (seat.new.id ≡ seat.old.id) }
    ensures place { result ≡ stop % slots }
{
    let mut slot = first;
    for piece in from..stop {
        let _ = piece;
        drop_piece(shared, seat, slot);
        slot = place_behind(slot, PIECE_ROOM);
    }
    slot
}

/// Ends the ring of these two ends. The pieces got or dropped are the first of those published; the done count is that of
/// the ticks counted, which are ticks of the pieces got; no load showed more; at most five pieces are unfinished; the halts
/// seen are the first of those stored, and these the first of the stops.
pub fn join_motion(out: SegOut, into: SegIn)
    requires { ring_of_out out ≡ ring_of_in into }
    ensures { PiecesAreTied (sent_by out) (known_by out) (taken_by into) }
{
    let SegOut {
        ring,
        seat: far,
        head: _,
        slot: _,
        ticks: _,
        before: _,
    } = out;
    let SegIn {
        ring: _,
        mut seat,
        taken: _,
        slot: _,
        counted: _,
        left: _,
        halted: _,
    } = into;
    let shared = &ring.shared;
    shared.join_seat::<Sides>(&mut seat, far);
    shared.load::<Tie>(&mut seat, DONE);
}
