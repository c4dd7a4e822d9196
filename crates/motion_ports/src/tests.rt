//! The ring of records, in one thread and in two, and a pulse between both rings.

ghost use Rattle.std.specs.Prelude.{◌≡◌, ◌≤◌, false, [], length};
ghost use Rattle.rtrb.specs.Ring.{sent};
ghost use Rattle.step_line.specs.Ordering.{has_ended};
ghost use Rattle.step_line.specs.Records.{IsMark};
ghost use Rattle.motion_ring.specs.Sides.{ticks_published};
ghost use Rattle.motion_ring.specs.Rule.{none_sent, none_taken};
ghost use Rattle.motion_ring.specs.Ends.{sent_by, published_by, taken_by, head_loads_of, stop_loads_of, asked_by};

use super::*;
use motion_ring::{SegIn, SegOut, motion};
use outside::Turn;
use pulse_engine::{Pulse, TickOut};
use std::marker::Model;
use std::process::Abort;
use std::sync::Wait;
use std::thread::{self, join};
use step_line::{Bits, Mark, Piece, Record};
use step_record::RecordIn;

/// Makes a ring where memory suffices.
#[test]
fn refused_memory_is_told(rt: HostRuntime) {
    if let Ok((_records, mut taken)) = record_ring(rt.alloc()) {
        assert_eq!(rt; taken.take(), None);
    }
}

/// Puts records until there is no room, and counts them.
fn fill<R: Wait>(rt: &R, records: &mut RecordOut) -> u32 {
    let mut put = 0_u32;
    for _ in rt.forever() {
        if put >= 2000 {
            break;
        }
        match records.put(Record::End) {
            Ok(()) => put = put.saturating_add(1),
            Err(_) => break,
        }
    }
    put
}

#[test]
fn room_for_1024_records(rt: HostRuntime) {
    let (mut records, _taken) = record_ring(rt.alloc()).expect(&rt, "memory");
    assert_eq!(rt; fill(&rt, &mut records), 1024);
}

/// An end that has found the ring empty, or full, looks again: it takes what was put since, and puts where one was taken.
#[test]
fn each_end_looks_again(rt: HostRuntime) {
    let (mut records, mut taken) = record_ring(rt.alloc()).expect(&rt, "memory");
    assert_eq!(rt; taken.take(), None);
    assert_eq!(rt; fill(&rt, &mut records), 1024);
    assert_eq!(rt; taken.take(), Some(Record::End));
    assert_eq!(rt; fill(&rt, &mut records), 1);
}

/// Puts a million events.
fn put_all<R: Wait>(rt: &R, mut records: RecordOut) -> RecordOut {
    let mut put = 0_u32;
    for _ in rt.forever() {
        if put >= 1_000_000 {
            break;
        }
        match records.put(Record::Event(Bits { x: 1, y: 0, z: 0 })) {
            Ok(()) => put = put.saturating_add(1),
            Err(_) => thread::yield_now(),
        }
    }
    records
}

/// Takes a million events.
fn take_all<R: Wait>(rt: &R, mut records: RecordPort) -> (RecordPort, u32) {
    let mut taken = 0_u32;
    for _ in rt.forever() {
        if taken >= 1_000_000 {
            break;
        }
        match records.take() {
            Some(Record::Event(_)) => taken = taken.saturating_add(1),
            Some(_) => break,
            None => thread::yield_now(),
        }
    }
    (records, taken)
}

#[test]
fn million_records_in_two_threads(rt: HostRuntime) {
    let (records, into) = record_ring(rt.alloc()).expect(&rt, "memory");
    let (_records, (_into, taken)) = join(&rt, || put_all(&rt, records), || take_all(&rt, into));
    assert_eq!(rt; taken, 1_000_000);
}

/// Lets other threads run after so many polls that found nothing.
fn poll(polls: u32) -> u32 {
    if polls % 1024 == 0 {
        thread::yield_now();
    }
    polls.wrapping_add(1)
}

/// A pulse at its ends of both rings.
#[derive(Drop)]
struct Line {
    pulse: Pulse,
    pieces: PiecePort,
    records: RecordOut,
}

impl Model for Line {
    ghost use Rattle.motion_ports.specs.Ports.{IsAtWork};

    ghost Value = { Unit {0} };

    ghost view = { λ _. tt };

    ghost invariant = { λ l. IsAtWork l.pulse l.pieces.end l.records.end };
}

impl Line {
    fn new(end: SegIn, records: RecordOut) -> Line
        requires idle { (taken_by end ≡ none_taken) × (head_loads_of end ≡ 0) × (stop_loads_of end ≡ 0) × (asked_by end ≡ 0) }
        requires fresh { sent records.end ≡ [] }
    {
        Line {
            pulse: Pulse::new(),
            pieces: PiecePort { end },
            records,
        }
    }

    fn turn(&mut self) -> Turn {
        self.pulse.turn(&mut self.pieces, &mut self.records)
    }
}

/// Turns until the end is put.
fn trace_all<R: Wait>(rt: &R, mut line: Line) -> Line {
    let mut polls = 0_u32;
    for _ in rt.forever() {
        match line.turn() {
            Turn::Did => {}
            Turn::Wait(_) => polls = poll(polls),
            Turn::Done => break,
        }
    }
    line
}

/// The k-th mark that is sent.
fn mark(k: u32) -> Mark
    ensures { IsMark result }
{
    Mark::Dwell((k % 100) as u64)
}

/// Publishes fifty thousand marks, and counts the records that come in their order meanwhile.
fn publish_all<R: Wait>(rt: &R, out: &mut SegOut, taken: &mut RecordPort) -> u32
    requires { sent_by out.old ≡ none_sent }
    ensures open { ((sent_by out.new).waits ≡ false) × (has_ended (published_by out.new) ≡ false) }
    ensures few { (ticks_published (sent_by out.new) ≤ 50000) × (length (published_by out.new) ≤ 50000) }
{
    let mut published = 0_u32;
    let mut recorded = 0_u32;
    let mut polls = 0_u32;
    for _ in rt.forever() {
        if published >= 50_000 {
            break;
        }
        match out.publish(Piece::Mark(mark(published))) {
            Ok(()) => published += 1,
            Err(_) => polls = poll(polls),
        }
        if taken.take() == Some(Record::Mark(mark(recorded))) {
            recorded = recorded.saturating_add(1);
        }
    }
    recorded
}

/// Publishes the end, and counts on until its record comes.
fn take_rest<R: Wait>(rt: &R, out: &mut SegOut, taken: &mut RecordPort, before: u32) -> u32
    requires open { ((sent_by out.old).waits ≡ false) × (has_ended (published_by out.old) ≡ false) }
    requires few { (ticks_published (sent_by out.old) ≤ 50000) × (length (published_by out.old) ≤ 50000) }
{
    let mut recorded = before;
    let mut ended = false;
    let mut polls = 0_u32;
    for _ in rt.forever() {
        if !ended {
            ended = out.publish(Piece::End).is_ok();
        }
        match taken.take() {
            Some(Record::Mark(next)) if next == mark(recorded) => recorded =
                recorded.saturating_add(1),
            Some(Record::End) => break,
            Some(_) => {}
            None => polls = poll(polls),
        }
    }
    recorded
}

/// A board that publishes, and a recorder that counts.
fn send_all<R: Wait>(rt: &R, mut out: SegOut, mut taken: RecordPort) -> (SegOut, u32)
    requires { sent_by out ≡ none_sent }
{
    let before = publish_all(rt, &mut out, &mut taken);
    let recorded = take_rest(rt, &mut out, &mut taken, before);
    (out, recorded)
}

#[test]
fn pieces_through_a_pulse_are_recorded_in_order(rt: HostRuntime) {
    let (out, into) = motion(rt.alloc()).expect(&rt, "memory");
    let (records, taken) = record_ring(rt.alloc()).expect(&rt, "memory");
    let line = Line::new(into, records);
    let (_line, (mut out, recorded)) = join(
        &rt,
        || trace_all(&rt, line),
        || -> (SegOut, u32)
            requires { sent_by out ≡ none_sent }
        { send_all(&rt, out, taken) },
    );
    assert_eq!(rt; recorded, 50_000);
    assert_eq!(rt; out.done(), 50_000);
}
