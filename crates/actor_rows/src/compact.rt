//! Texts of form 2: what a recorder writes, and what is read of them.

use crate::recorders::Tape;
use outside::{MemSink, Turn};
use std::alloc::{AllocError, Global};
use std::process::Abort;
use std::test::Fail;
use step_line::{Bits, Head, Mark, Record};
use step_record::{BadRecord, Form, Line, Recorder, next_line};

const FORWARD: Record = Record::Event(Bits { x: 1, y: 0, z: 0 });

const SLANTING: Record = Record::Event(Bits { x: 1, y: -1, z: 0 });

/// A head of three events.
const HEAD: Record = Record::Head(Head {
    line: 1,
    n: 3,
    w: 0,
    cycles: 5,
});

/// Records, each so often, and their text in form 2.
type Row = (&'static [(Record, u32)], &'static str);

const ROWS: &[Row] = &[
    (
        &[(HEAD, 1), (FORWARD, 3), (Record::End, 1)],
        "V 2\ns 1 3 0 5\nR 3 X+\nE\n",
    ),
    (
        &[(HEAD, 1), (FORWARD, 1), (Record::End, 1)],
        "V 2\ns 1 3 0 5\nX+\nE\n",
    ),
    (
        &[
            (HEAD, 1),
            (FORWARD, 2),
            (HEAD, 1),
            (FORWARD, 2),
            (Record::End, 1),
        ],
        "V 2\ns 1 3 0 5\nR 2 X+\ns 1 3 0 5\nR 2 X+\nE\n",
    ),
    (
        &[
            (FORWARD, 1),
            (SLANTING, 1),
            (FORWARD, 1),
            (SLANTING, 900),
            (Record::Mark(Mark::Dwell(7)), 2),
            (FORWARD, 2),
            (Record::Mark(Mark::Cut(3)), 1),
            (FORWARD, 1),
            (Record::Mark(Mark::Reset(4)), 1),
            (Record::End, 1),
        ],
        "V 2\nX+\nX+Y-\nX+\nR 900 X+Y-\nD 7\nD 7\nR 2 X+\nX 3\nX+\nZ 4\nE\n",
    ),
    (&[(Record::End, 1)], "V 2\nE\n"),
];

/// The records of a row, one after the other.
fn records_of(alloc: Global, row: &[(Record, u32)]) -> Result<Vec<Record>, AllocError> {
    let mut records = Vec::new(alloc);
    for (record, count) in row {
        for _ in 0..*count {
            records.push(*record)?;
        }
    }
    Ok(records)
}

/// The records of the lines of a text of form 2, whose first is the version.
fn read(rt: &impl Abort, alloc: Global, text: &[u8]) -> Result<Vec<Record>, AllocError> {
    let mut records = Vec::new(alloc);
    let mut at = 0;
    for _ in 0..100 {
        assert!(rt; at <= text.len());
        match next_line(text, at) {
            Ok(None) => break,
            Ok(Some((line, end))) => {
                assert!(rt; (line == Line::Version) == (at == 0));
                match line {
                    Line::Version => {}
                    Line::One(record) => records.push(record)?,
                    Line::Run(count, bits) => {
                        for _ in 0..count {
                            records.push(Record::Event(bits))?;
                        }
                    }
                }
                at = end;
            }
            Err(_) => assert!(rt; false, "a line is not read"),
        }
    }
    Ok(records)
}

#[test]
fn equal_events_come_to_the_sink_as_one_line(rt: HostRuntime) -> Result<(), Fail> {
    for (row, text) in ROWS {
        let records = records_of(rt.alloc(), row)?;
        let mut sink = MemSink::short(rt.alloc(), 40_000, 40_000, &[])?;
        let mut recorder = Recorder::new(Form::Two);
        let mut tape = Tape {
            rest: records.as_slice(),
        };
        let mut last = Turn::Did;
        for _ in 0..5_000 {
            last = recorder.turn(&mut tape, &mut sink);
            if last != Turn::Did {
                break;
            }
        }
        assert_eq!(rt; last, Turn::Done);
        assert!(rt; sink.held() == text.as_bytes(), "{text:?}");
        let read = read(&rt, rt.alloc(), sink.held())?;
        assert!(rt; read.as_slice() == records.as_slice(), "{text:?}");
    }
    Ok(())
}

/// A text, a place in it, and the line that is read there with the place behind it.
const LINES: &[(&str, usize, Line, usize)] = &[
    ("V 2\nE\n", 0, Line::Version, 4),
    ("V 2\nE\n", 4, Line::One(Record::End), 6),
    (
        "R 2 X+\nR 3 X+\n",
        0,
        Line::Run(2, Bits { x: 1, y: 0, z: 0 }),
        7,
    ),
    (
        "R 2 X+\nR 3 X+\n",
        7,
        Line::Run(3, Bits { x: 1, y: 0, z: 0 }),
        14,
    ),
    (
        "R 4294967295 X-Y+Z-\n?",
        0,
        Line::Run(u32::MAX, Bits { x: -1, y: 1, z: -1 }),
        20,
    ),
];

/// A text, and a place at which no line begins.
const NO_LINES: &[(&str, usize)] = &[
    ("R 1 X+\n", 0),
    ("R 0 X+\n", 0),
    ("R 02 X+\n", 0),
    ("R 4294967296 X+\n", 0),
    ("R 2  X+\n", 0),
    ("R 2 \n", 0),
    ("R 2 E\n", 0),
    ("R 2 Y+X+\n", 0),
    ("R 2 X+", 0),
    ("R 2X+\n", 0),
    ("V 1\n", 0),
    ("V 2", 0),
    ("V 2\nV 2\n", 4),
    ("E\nV 2\n", 2),
];

#[test]
fn lines_of_form_two_are_read(rt: HostRuntime) {
    for (text, at, line, end) in LINES {
        let bytes = text.as_bytes();
        assert!(rt; *at <= bytes.len());
        assert!(rt;
            next_line(bytes, *at) == Ok(Some((*line, *end))),
            "{text:?}"
        );
    }
    for (text, at) in NO_LINES {
        let (bytes, at) = (text.as_bytes(), *at);
        assert!(rt; at <= bytes.len());
        assert!(rt; next_line(bytes, at) == Err(BadRecord { at }), "{text:?}");
    }
}
