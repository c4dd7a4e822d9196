//! A board that tells its pulse to stop, and goes on.

ghost use Rattle.std.specs.Prelude.{◌≡◌, ◌+◌, ◌<◌, true, [], OnSome, IfNone};
ghost use Rattle.list_ports.specs.Joining.{Joined};
ghost use Rattle.list_ports.specs.Standing.{HasPublished, AwaitsHalt};

use super::*;
use board_journal::BoardPort;
use pulse_engine::PulsePort;
use std::alloc::Global;
use std::process::Abort;
use step_line::{Mark, Piece};

/// Lists in which nothing is on its way.
fn fresh<R: Abort>(rt: &R, alloc: Global) -> Lists<128>
    ensures { Joined result [] [] [] }
{
    Lists::new(alloc).expect(rt, "memory")
}

/// Publishes a mark behind so many ticks. Whether there was room.
fn publish(lists: &mut Lists<128>, ticks: u32) -> bool
    requires { HasPublished ticks lists.old }
    ensures { result ≡ true → HasPublished (ticks + 1) lists.new }
{
    match lists.publish(Piece::Mark(Mark::Dwell(1))) {
        Ok(()) => true,
        Err(_) => false,
    }
}

/// Publishes a mark behind so many ticks, and tells the pulse to stop behind it. Whether there was room.
fn publish_and_stop(lists: &mut Lists<128>, ticks: u32) -> bool
    requires { HasPublished ticks lists.old }
    ensures { result ≡ true → AwaitsHalt (ticks + 1) lists.new }
{
    match lists.publish(Piece::Mark(Mark::Dwell(1))) {
        Ok(()) => {
            lists.stop();
            true
        }
        Err(_) => false,
    }
}

/// Gets a mark, and counts its tick. Whether one was there.
fn trace(lists: &mut Lists<128>, ticks: u32) -> bool
    requires { HasPublished ticks lists.old }
    ensures { result ≡ true → HasPublished ticks lists.new }
{
    let Some(piece) = lists.piece() else {
        return false;
    };
    if let Piece::Mark(_) = piece {
        lists.tick_done();
        return true;
    }
    false
}

/// Halts, if a stop waits. Whether one did.
fn halt(lists: &mut Lists<128>, ticks: u32) -> bool
    requires { AwaitsHalt ticks lists.old }
    ensures { result ≡ true → AwaitsHalt ticks lists.new }
{
    if lists.stopped() {
        lists.halt();
        return true;
    }
    false
}

/// Looks for the halt of the stop that waits.
fn look(lists: &mut Lists<128>, ticks: u32) -> Option<u64>
    requires { AwaitsHalt ticks lists.old }
    ensures some { OnSome result (HasPublished ticks lists.new) }
    ensures none { IfNone result (AwaitsHalt ticks lists.new) }
{
    lists.halted()
}

/// Publishes marks behind so many ticks until there is no room, and counts them, up to six.
fn fill(lists: &mut Lists<128>, ticks: u32) -> u32
    requires few { ticks < 1000 }
    requires published { HasPublished ticks lists.old }
{
    if !publish(lists, ticks) {
        return 0;
    }
    if !publish(lists, ticks + 1) {
        return 1;
    }
    if !publish(lists, ticks + 2) {
        return 2;
    }
    if !publish(lists, ticks + 3) {
        return 3;
    }
    if !publish(lists, ticks + 4) {
        return 4;
    }
    if !publish(lists, ticks + 5) {
        return 5;
    }
    6
}

/// Of three marks one is traced before a stop, and the others are dropped by its halt; then there is room for five more.
#[test]
fn board_that_was_halted_publishes_again(rt: HostRuntime) {
    let mut lists = fresh(&rt, rt.alloc());
    if !publish(&mut lists, 0) || !publish(&mut lists, 1) {
        panic!(rt; "no room for a piece");
    }
    if !trace(&mut lists, 2) {
        panic!(rt; "no mark");
    }
    if !publish_and_stop(&mut lists, 2) {
        panic!(rt; "no room for a third piece");
    }
    let None = look(&mut lists, 3) else {
        panic!(rt; "a halt that was not stored");
    };
    if !halt(&mut lists, 3) {
        panic!(rt; "no stop");
    }
    let Some(done) = look(&mut lists, 3) else {
        panic!(rt; "no halt");
    };
    assert_eq!(rt; done, 1);
    assert!(rt; lists.has_no_stop());
    assert_eq!(rt; fill(&mut lists, 3), 5);
    assert_eq!(rt; lists.done(), 1);
}
