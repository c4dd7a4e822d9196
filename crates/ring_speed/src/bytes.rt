//! Bytes from a host to a board.

ghost use Rattle.std.specs.Prelude.{◌≡◌, false, []};
ghost use Rattle.serial_ring.specs.Ends.{closed_by, stored_by};

use crate::places::Apart;
use crate::poll;
use serial_ring::{BoardEnd, ByteIn, HostEnd, Stored, link};
use std::alloc::Global;
use std::sync::Wait;
use std::thread::{Threads, join_mut};

/// Stores so many bytes, and closes.
fn store_all<R: Wait>(rt: &R, host: &mut HostEnd<128>, count: u32)
    requires { (closed_by host.old ≡ false) × (stored_by host.old ≡ []) }
{
    let mut stored = 0_u32;
    let mut polls = 0_u32;
    for _ in rt.forever() {
        if stored >= count || stored >= 2_000_000_000 {
            break;
        }
        match host.store((stored % 256) as u8) {
            Stored::Stored => stored += 1,
            Stored::Dropped => polls = poll(polls),
        }
    }
    host.close();
}

/// Takes bytes until the link is closed, and counts them.
fn take_all<R: Wait>(rt: &R, board: &mut BoardEnd<128>) -> u32 {
    let mut taken = 0_u32;
    let mut polls = 0_u32;
    for _ in rt.forever() {
        match board.byte() {
            ByteIn::Byte(_) => taken = taken.saturating_add(1),
            ByteIn::Empty => polls = poll(polls),
            ByteIn::Closed => break,
        }
    }
    taken
}

/// Sends so many bytes, and answers how many came.
pub(crate) fn send_apart<R: Threads + Wait + Sync>(
    rt: &R,
    alloc: Global,
    count: u32,
) -> Option<u32> {
    let (host, board) = link::<128>(alloc).ok()?;
    let mut host = Apart::new(host);
    let mut board = Apart::new(board);
    let ((), taken) = join_mut(
        rt,
        &mut ||
            requires { (closed_by host.end ≡ false) × (stored_by host.end ≡ []) }
        { store_all(rt, &mut host.end, count) },
        &mut || take_all(rt, &mut board.end),
    );
    Some(taken)
}

/// The same, with the ends side by side.
pub(crate) fn send_beside<R: Threads + Wait + Sync>(
    rt: &R,
    alloc: Global,
    count: u32,
) -> Option<u32> {
    let (mut host, mut board) = link::<128>(alloc).ok()?;
    let ((), taken) = join_mut(
        rt,
        &mut ||
            requires { (closed_by host ≡ false) × (stored_by host ≡ []) }
        { store_all(rt, &mut host, count) },
        &mut || take_all(rt, &mut board),
    );
    Some(taken)
}
