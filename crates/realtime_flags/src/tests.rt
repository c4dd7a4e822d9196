//! The first takes of a fresh table, and two threads.

use super::*;
use bitflags::Flags;
use code_table::{Exec, Ovr};
use std::process::Abort;
use std::sync::Wait;
use std::thread::{self, join};

#[test]
fn report_raised_twice_is_taken_once(rt: HostRuntime) {
    let (mut raiser, mut taker) = flag_table(rt.alloc()).expect(&rt, "memory");
    assert_eq!(rt; raiser.raise(b'?'), Raised::Exec);
    assert_eq!(rt; raiser.raise(b'?'), Raised::Exec);
    assert_eq!(rt; taker.take_exec(), Exec::REPORT);
    assert_eq!(rt; taker.take_exec().bits(), 0);
    assert_eq!(rt; raiser.raise(0x91), Raised::Override);
    assert_eq!(rt; taker.take_exec().bits(), 0);
    assert_eq!(rt; taker.take_override(), Ovr::FEED_UP_10);
    assert_eq!(rt; raiser.raise(b'G'), Raised::Plain);
    assert_eq!(rt; raiser.raise(0x84), Raised::Ignored);
    assert_eq!(rt; taker.take_override().bits(), 0);
    join_flags(raiser, taker);
}

/// Makes the words where memory suffices.
#[test]
fn refused_memory_is_told(rt: HostRuntime) {
    if let Ok((raiser, mut taker)) = flag_table(rt.alloc()) {
        assert_eq!(rt; taker.take_exec().bits(), 0);
        join_flags(raiser, taker);
    }
}

/// Raises a hold again and again, and at last a reset.
fn raise_all(mut raiser: Raiser) -> Raiser {
    for _ in 0..1_000_000 {
        raiser.raise(b'!');
    }
    raiser.raise(0x18);
    raiser
}

/// Takes requests until the reset is among them, and counts the holds.
fn take_all<R: Wait>(rt: &R, mut taker: Taker) -> (Taker, u32) {
    let mut holds = 0_u32;
    for _ in rt.forever() {
        let taken = taker.take_exec();
        if taken.contains(Exec::HOLD) {
            holds = holds.saturating_add(1);
        }
        if taken.contains(Exec::RESET) {
            break;
        }
        if taken.bits() == 0 {
            thread::yield_now();
        }
    }
    (taker, holds)
}

#[test]
fn million_raises_in_two_threads(rt: HostRuntime) {
    let (raiser, taker) = flag_table(rt.alloc()).expect(&rt, "memory");
    let (_raiser, (mut taker, holds)) = join(&rt, || raise_all(raiser), || take_all(&rt, taker));
    assert!(rt; 1 <= holds && holds <= 1_000_000);
    assert_eq!(rt; taker.take_exec().bits(), 0);
}
