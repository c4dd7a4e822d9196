//! The first calls on a fresh ring, and two threads.

ghost use Rattle.std.specs.Prelude.{◌≡◌, ◌<◌, ◌≤◌, ◌*◌, true, false, pos, length};
ghost use Rattle.step_line.specs.declared.Piece.{Piece};
ghost use Rattle.motion_ring.specs.Rule.{none_sent};
ghost use Rattle.step_line.specs.Ordering.{has_ended};
ghost use Rattle.motion_ring.specs.Sides.{ticks_published};
ghost use Rattle.motion_ring.specs.Ends.{ring_of_out, sent_by, published_by, left_in};

use super::*;
use std::process::Abort;
use std::sync::Wait;
use std::thread::{self, join};
use step_line::{Mark, Piece, Segment};
use units::{Move, Steps3};

/// How many of six marks are published.
fn marks_taken(out: &mut SegOut) -> u32
    requires open { ((sent_by out.old).waits ≡ false) × (has_ended (published_by out.old) ≡ false) }
    requires few { (ticks_published (sent_by out.old) < 100) × (length (published_by out.old) < 100) }
    ensures open { ((sent_by out.new).waits ≡ false) × (has_ended (published_by out.new) ≡ false) }
    ensures few { (ticks_published (sent_by out.new) < 200) × (length (published_by out.new) < 200) }
    ensures ring { ring_of_out out.new ≡ ring_of_out out.old }
{
    let mut taken = 0;
    for tried in 0..6_u32 {
        if out.publish(Piece::Mark(Mark::Dwell(1))).is_ok() {
            taken += 1;
        }
    }
    taken
}

#[test]
fn fresh_ring_takes_five_marks(rt: HostRuntime) {
    let (mut out, mut into) = motion(rt.alloc()).expect(&rt, "memory");
    assert_eq!(rt; out.done(), 0);
    let None = into.piece() else {
        panic!(rt; "a piece on a fresh ring");
    };
    assert_eq!(rt; marks_taken(&mut out), 5);
    assert_eq!(rt; out.publish(Piece::End), Err(Piece::End));
    assert_eq!(rt; into.piece(), Some(Piece::Mark(Mark::Dwell(1))));
    assert_eq!(rt; out.publish(Piece::End), Err(Piece::End));
    into.tick_done();
    assert_eq!(rt; out.publish(Piece::End), Ok(()));
}

/// The three events of a move from the origin.
fn three_events() -> Piece
    ensures { result ≡ Piece.Segment (record { line = 7; mv = record { from = record { x = pos 0; y = pos 0; z = pos 0 }; to = record { x = pos 3; y = pos 2; z = pos 0 } }; first = 0; n = 3; w_in = 40000; w_out = 90000; cycles = 500 }) }
{
    let from = Steps3 { x: 0, y: 0, z: 0 };
    let to = Steps3 { x: 3, y: 2, z: 0 };
    Piece::Segment(Segment {
        line: 7,
        mv: Move { from, to },
        first: 0,
        n: 3,
        w_in: 40_000,
        w_out: 90_000,
        cycles: 500,
    })
}

#[test]
fn each_tick_of_a_segment_is_counted(rt: HostRuntime) {
    let (mut out, mut into) = motion(rt.alloc()).expect(&rt, "memory");
    let three = three_events();
    assert_eq!(rt; out.publish(three), Ok(()));
    assert_eq!(rt; out.done(), 0);
    assert_eq!(rt; into.piece(), Some(three));
    into.tick_done();
    assert_eq!(rt; out.done(), 1);
    into.tick_done();
    assert_eq!(rt; out.done(), 2);
    into.tick_done();
    assert_eq!(rt; out.done(), 3);
    join_motion(out, into);
}

#[test]
fn halt_cuts_a_segment_and_frees_all_slots(rt: HostRuntime) {
    let (mut out, mut into) = motion(rt.alloc()).expect(&rt, "memory");
    let three = three_events();
    assert_eq!(rt; out.publish(three), Ok(()));
    assert_eq!(rt; into.piece(), Some(three));
    into.tick_done();
    out.stop();
    assert_eq!(rt; out.halted(), None);
    assert!(rt; into.stopped());
    into.halt();
    assert_eq!(rt; out.halted(), Some(1));
    assert!(rt; !into.stopped());
    assert_eq!(rt; marks_taken(&mut out), 5);
    assert_eq!(rt; into.piece(), Some(Piece::Mark(Mark::Dwell(1))));
    join_motion(out, into);
}

#[test]
fn halt_drops_pieces_that_were_not_got(rt: HostRuntime) {
    let (mut out, mut into) = motion(rt.alloc()).expect(&rt, "memory");
    let mark = Piece::Mark(Mark::Dwell(1));
    assert_eq!(rt; out.publish(mark), Ok(()));
    assert_eq!(rt; out.publish(mark), Ok(()));
    assert_eq!(rt; out.publish(mark), Ok(()));
    assert_eq!(rt; into.piece(), Some(mark));
    into.tick_done();
    out.stop();
    assert!(rt; into.stopped());
    into.halt();
    let None = into.piece() else {
        panic!(rt; "a dropped piece was got");
    };
    assert_eq!(rt; out.halted(), Some(1));
    assert_eq!(rt; out.publish(Piece::End), Ok(()));
    assert_eq!(rt; into.piece(), Some(Piece::End));
}

/// Makes a ring where memory suffices.
#[test]
fn refused_memory_is_told(rt: HostRuntime) {
    if let Ok((mut out, into)) = motion(rt.alloc()) {
        assert_eq!(rt; out.done(), 0);
        join_motion(out, into);
    }
}

/// Lets other threads run after so many polls that found nothing.
fn poll(polls: u32) -> u32 {
    if polls % 1024 == 0 {
        thread::yield_now();
    }
    polls.wrapping_add(1)
}

/// Publishes a million marks.
fn publish_all<R: Wait>(rt: &R, mut out: SegOut) -> SegOut
    requires { sent_by out ≡ none_sent }
{
    let mut published = 0_u32;
    let mut polls = 0_u32;
    for _ in rt.forever() {
        if published >= 1_000_000 {
            break;
        }
        match out.publish(Piece::Mark(Mark::Dwell(1))) {
            Ok(()) => published += 1,
            Err(_) => polls = poll(polls),
        }
    }
    out
}

/// Gets a million marks, and counts the tick of each.
fn get_all<R: Wait>(rt: &R, mut into: SegIn) -> (SegIn, u32)
    requires { left_in into ≡ 0 }
{
    let mut got = 0_u32;
    let mut polls = 0_u32;
    for _ in rt.forever() {
        if got >= 1_000_000 {
            break;
        }
        match into.piece() {
            Some(Piece::Mark(_)) => {
                into.tick_done();
                got += 1;
            }
            Some(_) => break,
            None => polls = poll(polls),
        }
    }
    (into, got)
}

#[test]
fn million_pieces_in_two_threads(rt: HostRuntime) {
    let (out, into) = motion(rt.alloc()).expect(&rt, "memory");
    let (mut out, (_into, got)) = join(
        &rt,
        || -> SegOut
            requires { sent_by out ≡ none_sent }
        { publish_all(&rt, out) },
        || -> (SegIn, u32)
            requires { left_in into ≡ 0 }
        { get_all(&rt, into) },
    );
    assert_eq!(rt; got, 1_000_000);
    assert_eq!(rt; out.done(), 1_000_000);
}

/// How many times one thread stops the other.
const STOPS: u32 = 10_000;

/// Publishes segments of three ticks, and stops the other end behind a number of tries that is drawn, up to 64.
#[derive(Drop)]
struct Stopper {
    out: SegOut,
    // the random number that was drawn last
    seed: u32,
    // how often it tries to publish before it stops
    tries: u32,
    // how many segments it has published, in all and since the last halt
    published: u32,
    since: u32,
    halts: u32,
    waits: bool,
    ghost open: { ((sent_by out).waits ≡ waits) × (has_ended (published_by out) ≡ false) },
    ghost ticks: { ticks_published (sent_by out) ≤ 3 * published },
    ghost pieces: { (length (published_by out) ≡ published) × (length (sent_by out).since ≡ since) },
    ghost few: { (since ≤ published) × (published ≤ 1000000) },
}

impl Stopper {
    fn new(out: SegOut) -> Stopper
        requires { sent_by out ≡ none_sent }
    {
        Stopper {
            out,
            seed: 1,
            tries: 0,
            published: 0,
            since: 0,
            halts: 0,
            waits: false,
        }
    }

    /// Looks for the halt. Whether it is there.
    fn look(&mut self) -> bool
        requires { self.old.waits ≡ true }
    {
        let halted = self.out.halted().is_some();
        if halted {
            self.waits = false;
            self.since = 0;
            self.halts = self.halts.saturating_add(1);
            self.seed = self
                .seed
                .wrapping_mul(1_664_525)
                .wrapping_add(1_013_904_223);
            self.tries = self.seed >> 26;
        }
        halted
    }

    /// Tries to publish a segment. Whether there was room.
    fn publish(&mut self) -> bool
        requires { (self.old.waits ≡ false) × (self.old.published < 1000000) }
    {
        self.tries = self.tries.saturating_sub(1);
        let room = self.out.publish(three_events()).is_ok();
        if room {
            self.published += 1;
            self.since += 1;
        }
        room
    }

    /// Looks for the halt that it waits for, or stops, or tries to publish. Whether that did something.
    fn turn(&mut self) -> bool {
        if self.waits {
            self.look()
        } else if self.tries == 0 && self.since > 0 {
            self.out.stop();
            self.waits = true;
            true
        } else if self.published < 1_000_000 {
            self.publish()
        } else {
            false
        }
    }
}

/// Stops the other thread so many times. How many ticks were done then, and how many segments were published.
fn stop_often<R: Wait>(rt: &R, out: SegOut) -> (u64, u32)
    requires { sent_by out ≡ none_sent }
{
    let mut stopper = Stopper::new(out);
    let mut polls = 0_u32;
    for _ in rt.forever() {
        if stopper.halts >= STOPS {
            break;
        }
        polls = if stopper.turn() { 1 } else { poll(polls) };
    }
    (stopper.out.done(), stopper.published)
}

/// Counts the ticks of the pieces that it gets, and halts wherever it is asked to, so many times. How many ticks it counted.
fn halt_often<R: Wait>(rt: &R, mut into: SegIn) -> u64
    requires { left_in into ≡ 0 }
{
    let mut left = 0_u32;
    let mut counted = 0_u64;
    let mut halts = 0_u32;
    let mut polls = 0_u32;
    for _ in rt.forever() {
        if halts >= STOPS {
            break;
        }
        if into.stopped() {
            into.halt();
            left = 0;
            halts = halts.saturating_add(1);
            polls = 1;
        } else if left > 0 {
            into.tick_done();
            left -= 1;
            counted = counted.saturating_add(1);
        } else {
            match into.piece() {
                Some(Piece::Segment(segment)) => {
                    left = segment.n;
                    polls = 1;
                }
                Some(_) => break,
                None => polls = poll(polls),
            }
        }
    }
    counted
}

#[test]
fn halts_in_two_threads(rt: HostRuntime) {
    let (out, into) = motion(rt.alloc()).expect(&rt, "memory");
    let ((done, published), counted) = join(
        &rt,
        || -> (u64, u32)
            requires { sent_by out ≡ none_sent }
        { stop_often(&rt, out) },
        || -> u64
            requires { left_in into ≡ 0 }
        { halt_often(&rt, into) },
    );
    assert_eq!(rt; done, counted);
    assert!(rt; published >= STOPS);
    assert!(rt; counted <= 3 * published as u64);
}
