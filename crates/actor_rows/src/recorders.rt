//! A recorder over records in memory.

use outside::{MemSink, On, OutOfMemory, Sink, Turn};
use std::alloc::{AllocError, Global};
use std::process::Abort;
use std::test::Fail;
use step_line::{Bits, Head, Mark, Record, SpindleCode};
use step_record::{Form, RecordIn, Recorder, has_line};

/// Records to be taken.
#[derive(Drop)]
pub(crate) struct Tape<'a> {
    pub(crate) rest: &'a [Record],
}

impl RecordIn for Tape<'_> {
    ghost Rest = { Unit {0} };

    ghost stands = { λ _ _ _. Unit {0} };

    fn take(&mut self) -> Option<Record> {
        let (first, rest) = self.rest.split_first()?;
        if !has_line(*first) {
            return None;
        }
        self.rest = rest;
        Some(*first)
    }
}

/// A record, its line without the end of it, and how often it comes.
type Row<'a> = (Record, &'a str, u32);

/// The records of some rows, and their lines.
fn job(alloc: Global, rows: &[Row]) -> Result<(Vec<Record>, Vec<u8>), AllocError> {
    let mut records = Vec::new(alloc);
    let mut text = Vec::new(alloc);
    for (record, line, count) in rows {
        for _ in 0..*count {
            records.push(*record)?;
            text.extend_from_slice(line.as_bytes())?;
            text.push(b'\n')?;
        }
    }
    Ok((records, text))
}

/// The last turn's answer, how many records are left, and whether a write failed.
type Ran = (Turn, usize, bool);

/// Lets a new recorder take turns until one answers other than `Did`, at most so many.
fn run<S: Sink>(records: &[Record], sink: &mut S, most: u32) -> Ran {
    let mut recorder = Recorder::new(Form::One);
    let mut tape = Tape { rest: records };
    let mut last = Turn::Did;
    for _ in 0..most {
        last = recorder.turn(&mut tape, sink);
        if last != Turn::Did {
            break;
        }
    }
    (last, tape.rest.len(), recorder.failed())
}

/// A slanting move of three events.
const SLANT: &[Row] = &[
    (
        Record::Head(Head {
            line: 1,
            n: 1,
            w: 0,
            cycles: 226_895,
        }),
        "s 1 1 0 226895",
        1,
    ),
    (Record::Event(Bits { x: 1, y: 1, z: 0 }), "X+Y+", 1),
    (
        Record::Head(Head {
            line: 1,
            n: 1,
            w: 115_549,
            cycles: 184_898,
        }),
        "s 1 1 115549 184898",
        1,
    ),
    (Record::Event(Bits { x: 1, y: 0, z: 0 }), "X+", 1),
    (
        Record::Head(Head {
            line: 1,
            n: 1,
            w: 115_549,
            cycles: 226_895,
        }),
        "s 1 1 115549 226895",
        1,
    ),
    (Record::Event(Bits { x: 1, y: 1, z: 0 }), "X+Y+", 1),
    (Record::End, "E", 1),
];

/// The marks and the events of a pocket.
const POCKET: &[Row] = &[
    (
        Record::Mark(Mark::Spindle(SpindleCode::M3, 1000)),
        "M3 1000",
        1,
    ),
    (Record::Event(Bits { x: 1, y: 1, z: 0 }), "X+Y+", 1250),
    (Record::Event(Bits { x: 0, y: 0, z: -1 }), "Z-", 250),
    (Record::Event(Bits { x: 1, y: 0, z: 0 }), "X+", 1250),
    (Record::Event(Bits { x: 0, y: 1, z: 0 }), "Y+", 1250),
    (Record::Event(Bits { x: -1, y: 0, z: 0 }), "X-", 1250),
    (Record::Event(Bits { x: 0, y: -1, z: 0 }), "Y-", 1250),
    (Record::Event(Bits { x: 0, y: 0, z: 1 }), "Z+", 1500),
    (Record::Mark(Mark::Spindle(SpindleCode::M5, 0)), "M5 0", 1),
    (Record::End, "E", 1),
];

/// Nine hundred slanting events.
const SLANTS: &[Row] = &[(Record::Event(Bits { x: 1, y: 1, z: 0 }), "X+Y+", 900)];

/// A job, how many bytes are written at once at most, the writes that fail, how many turns are taken at most, how the recorder
/// stands then, and how many bytes of the job's lines the sink holds.
type Try = (
    &'static [Row<'static>],
    usize,
    &'static [u64],
    u32,
    Ran,
    usize,
);

/// Tries what a row says.
fn expect(rt: &impl Abort, alloc: Global, row: &Try) -> Result<(), OutOfMemory> {
    let (rows, piece, fails, turns, ran, written) = *row;
    let (records, text) = job(alloc, rows)?;
    let mut sink = MemSink::short(alloc, 40_000, piece.max(1), fails)?;
    assert_eq!(rt; run(records.as_slice(), &mut sink, turns), ran);
    assert!(rt; written <= text.len());
    assert!(rt; sink.held() == &text.as_slice()[..written]);
    Ok(())
}

const WHOLE: &[Try] = &[
    (SLANT, 40_000, &[], 10_000, (Turn::Done, 0, false), 70),
    (SLANT, 1, &[], 50_000, (Turn::Done, 0, false), 70),
    (POCKET, 40_000, &[], 10_000, (Turn::Done, 0, false), 26_515),
    (POCKET, 1, &[], 50_000, (Turn::Done, 0, false), 26_515),
];

#[test]
fn records_come_to_the_sink_as_their_lines(rt: HostRuntime) -> Result<(), Fail> {
    for row in WHOLE {
        expect(&rt, rt.alloc(), row)?;
    }
    Ok(())
}

const WAITS: Turn = Turn::Wait(On::Records);

const FULL: &[Try] = &[
    (SLANTS, 40_000, &[], 780, (Turn::Did, 120, false), 0),
    (SLANTS, 40_000, &[], 781, (Turn::Did, 119, false), 0),
    (SLANTS, 40_000, &[], 782, (Turn::Did, 119, false), 3905),
    (SLANTS, 40_000, &[], 783, (Turn::Did, 118, false), 3905),
    (SLANTS, 40_000, &[], 901, (Turn::Did, 0, false), 3905),
    (SLANTS, 40_000, &[], 902, (WAITS, 0, false), 3905),
];

#[test]
fn text_is_written_once_fewer_than_192_bytes_are_free(rt: HostRuntime) -> Result<(), Fail> {
    for row in FULL {
        expect(&rt, rt.alloc(), row)?;
    }
    Ok(())
}

const BEGUN: &[Try] = &[
    (SLANTS, 1, &[], 782, (Turn::Did, 119, false), 1),
    (SLANTS, 1, &[], 4686, (Turn::Did, 119, false), 3905),
    (SLANTS, 1, &[], 4687, (Turn::Did, 118, false), 3905),
];

#[test]
fn what_is_begun_is_written_before_a_record_is_taken(rt: HostRuntime) -> Result<(), Fail> {
    for row in BEGUN {
        expect(&rt, rt.alloc(), row)?;
    }
    Ok(())
}

const FAILED: &[Try] = &[
    (POCKET, 40_000, &[1], 10_000, (Turn::Done, 0, true), 0),
    (POCKET, 40_000, &[2], 10_000, (Turn::Done, 0, true), 3908),
];

#[test]
fn a_sink_that_failed_holds_a_front_and_is_given_nothing_more(rt: HostRuntime) -> Result<(), Fail> {
    for row in FAILED {
        expect(&rt, rt.alloc(), row)?;
    }
    Ok(())
}
