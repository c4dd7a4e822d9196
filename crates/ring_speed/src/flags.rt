//! Flags from a host to a board.

use crate::places::Apart;
use bitflags::Flags;
use code_table::Exec;
use realtime_flags::{Raiser, Taker, flag_table};
use std::alloc::Global;
use std::sync::Wait;
use std::thread::{Threads, join_mut};

/// Raises a hold so many times, and at last a reset.
fn raise_all(raiser: &mut Raiser, count: u32) {
    for _ in 0..count {
        raiser.raise(b'!');
    }
    raiser.raise(0x18);
}

/// Takes requests until the reset is among them.
fn take_all<R: Wait>(rt: &R, taker: &mut Taker) {
    for _ in rt.forever() {
        if taker.take_exec().contains(Exec::RESET) {
            break;
        }
    }
}

/// Raises so many flags.
pub(crate) fn send_apart<R: Threads + Wait + Sync>(
    rt: &R,
    alloc: Global,
    count: u32,
) -> Option<u32> {
    let (raiser, taker) = flag_table(alloc).ok()?;
    let mut raiser = Apart::new(raiser);
    let mut taker = Apart::new(taker);
    join_mut(
        rt,
        &mut || raise_all(&mut raiser.end, count),
        &mut || take_all(rt, &mut taker.end),
    );
    Some(count)
}

/// The same, with the ends side by side.
pub(crate) fn send_beside<R: Threads + Wait + Sync>(
    rt: &R,
    alloc: Global,
    count: u32,
) -> Option<u32> {
    let (mut raiser, mut taker) = flag_table(alloc).ok()?;
    join_mut(
        rt,
        &mut || raise_all(&mut raiser, count),
        &mut || take_all(rt, &mut taker),
    );
    Some(count)
}
