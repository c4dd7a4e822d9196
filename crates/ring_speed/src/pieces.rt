//! Pieces of 20 ticks from a board to a pulse.

ghost use Rattle.std.specs.Prelude.{◌≡◌};
ghost use Rattle.step_line.specs.declared.Piece.{Piece};
ghost use Rattle.motion_ring.specs.Rule.{none_sent};
ghost use Rattle.motion_ring.specs.Ends.{sent_by, left_in};
ghost use Rattle.ring_speed.specs.Moves.{twenty_events};

use crate::places::Apart;
use crate::poll;
use motion_ring::{SegIn, SegOut, motion};
use std::alloc::Global;
use std::sync::Wait;
use std::thread::{Threads, join_mut};
use step_line::{Piece, Segment};
use units::{Move, Steps3};

/// The events of a move along the first axis.
fn twenty_events() -> Piece
    ensures { result ≡ Piece.Segment twenty_events }
{
    let from = Steps3 { x: 0, y: 0, z: 0 };
    let to = Steps3 { x: 20, y: 0, z: 0 };
    Piece::Segment(Segment {
        line: 1,
        mv: Move { from, to },
        first: 0,
        n: 20,
        w_in: 0,
        w_out: 0,
        cycles: 500,
    })
}

/// Publishes so many pieces.
fn publish_all<R: Wait>(rt: &R, out: &mut SegOut, count: u32)
    requires { sent_by out.old ≡ none_sent }
{
    let piece = twenty_events();
    let mut published = 0_u32;
    let mut polls = 0_u32;
    for _ in rt.forever() {
        if published >= count {
            break;
        }
        match out.publish(piece) {
            Ok(()) => published += 1,
            Err(_) => polls = poll(polls),
        }
    }
}

/// Counts the ticks of a piece.
fn count_ticks(into: &mut SegIn, ticks: u32)
    requires { left_in into.old ≡ ticks }
    ensures { left_in into.new ≡ 0 }
{
    for tick in 0..ticks {
        into.tick_done();
    }
}

/// Gets so many pieces, and counts their ticks.
fn get_all<R: Wait>(rt: &R, into: &mut SegIn, count: u32) -> u32
    requires { left_in into.old ≡ 0 }
{
    let mut got = 0_u32;
    let mut polls = 0_u32;
    for _ in rt.forever() {
        if got >= count {
            break;
        }
        match into.piece() {
            Some(Piece::Segment(segment)) => {
                count_ticks(into, segment.n);
                got += 1;
            }
            Some(_) => break,
            None => polls = poll(polls),
        }
    }
    got
}

/// Sends so many pieces, and answers how many came.
pub(crate) fn send_apart<R: Threads + Wait + Sync>(
    rt: &R,
    alloc: Global,
    count: u32,
) -> Option<u32> {
    let (out, into) = motion(alloc).ok()?;
    let mut out = Apart::new(out);
    let mut into = Apart::new(into);
    let ((), got) = join_mut(
        rt,
        &mut ||
            requires { sent_by out.end ≡ none_sent }
        { publish_all(rt, &mut out.end, count) },
        &mut || -> u32
            requires { left_in into.end ≡ 0 }
        { get_all(rt, &mut into.end, count) },
    );
    Some(got)
}

/// The same, with the ends side by side.
pub(crate) fn send_beside<R: Threads + Wait + Sync>(
    rt: &R,
    alloc: Global,
    count: u32,
) -> Option<u32> {
    let (mut out, mut into) = motion(alloc).ok()?;
    let ((), got) = join_mut(
        rt,
        &mut ||
            requires { sent_by out ≡ none_sent }
        { publish_all(rt, &mut out, count) },
        &mut || -> u32
            requires { left_in into ≡ 0 }
        { get_all(rt, &mut into, count) },
    );
    Some(got)
}
