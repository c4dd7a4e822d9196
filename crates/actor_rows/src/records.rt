//! Records as text, and back.

use arrayvec::ArrayVec;
use std::test::Fail;
use step_line::{Bits, Head, Mark, Record, SpindleCode};
use step_record::{BadRecord, has_line, next_record, push_record, put_record};

/// A record, and its line.
const LINES: &[(Record, &str)] = &[
    (
        Record::Head(Head {
            line: 7,
            n: 12,
            w: 250_000,
            cycles: 320_000,
        }),
        "s 7 12 250000 320000\n",
    ),
    (
        Record::Head(Head {
            line: 1,
            n: 1,
            w: 0,
            cycles: 0,
        }),
        "s 1 1 0 0\n",
    ),
    (
        Record::Head(Head {
            line: u32::MAX,
            n: u32::MAX,
            w: u64::MAX,
            cycles: u64::MAX,
        }),
        "s 4294967295 4294967295 18446744073709551615 18446744073709551615\n",
    ),
    (Record::Event(Bits { x: 1, y: 0, z: 0 }), "X+\n"),
    (Record::Event(Bits { x: 0, y: -1, z: 0 }), "Y-\n"),
    (Record::Event(Bits { x: -1, y: 1, z: -1 }), "X-Y+Z-\n"),
    (Record::Mark(Mark::Dwell(0)), "D 0\n"),
    (
        Record::Mark(Mark::Dwell(u64::MAX)),
        "D 18446744073709551615\n",
    ),
    (
        Record::Mark(Mark::Spindle(SpindleCode::M3, 1000)),
        "M3 1000\n",
    ),
    (
        Record::Mark(Mark::Spindle(SpindleCode::M4, u32::MAX)),
        "M4 4294967295\n",
    ),
    (Record::Mark(Mark::Spindle(SpindleCode::M5, 0)), "M5 0\n"),
    (Record::Mark(Mark::Coolant(true)), "M8 0\n"),
    (Record::Mark(Mark::Coolant(false)), "M9 0\n"),
    (Record::Mark(Mark::Cut(0)), "X 0\n"),
    (Record::Mark(Mark::Cut(u32::MAX)), "X 4294967295\n"),
    (Record::End, "E\n"),
];

#[test]
fn each_record_is_put_and_read_back(rt: HostRuntime) {
    for (record, line) in LINES {
        let record = *record;
        assert!(rt; has_line(record), "{line:?}");
        let mut text = ArrayVec::new();
        put_record(&record, &mut text);
        assert!(rt; text.as_slice() == line.as_bytes(), "{line:?}");
        push_record(&record, &mut text);
        let place = line.len();
        assert!(rt; place <= text.len());
        assert!(rt;
            next_record(text.as_slice(), 0) == Ok(Some((record, place))),
            "{line:?}"
        );
        assert!(rt;
            next_record(text.as_slice(), place) == Ok(Some((record, 2 * place))),
            "{line:?}"
        );
        assert!(rt; next_record(text.as_slice(), text.len()) == Ok(None));
    }
}

/// A text, and a place at which no record begins.
const NO_LINES: &[(&str, usize)] = &[
    ("X\n", 0),
    ("X+X+\n", 0),
    ("s 0 1 0 1\n", 0),
    ("M8 1\n", 0),
    ("\n", 0),
    ("Y+X+\n", 0),
    ("X+", 0),
    ("X+ \n", 0),
    ("x+\n", 0),
    ("X \n", 0),
    ("X -1\n", 0),
    ("X 4294967296\n", 0),
    ("s 1 0 0 1\n", 0),
    ("s 1 01 0 1\n", 0),
    ("s 1 1 0\n", 0),
    ("s  1 1 0 1\n", 0),
    ("s 4294967296 1 0 1\n", 0),
    ("s 1 1 18446744073709551616 1\n", 0),
    ("D +5\n", 0),
    ("D 00\n", 0),
    ("D 99999999999999999999999\n", 0),
    ("M3\n", 0),
    ("M5 7\n", 0),
    ("M9 0\r\n", 0),
    ("E", 0),
    ("E\nX+\n\nE\n", 5),
    ("X+\n", 1),
];

#[test]
fn no_other_line_is_read(rt: HostRuntime) {
    for (text, at) in NO_LINES {
        let at = *at;
        let bytes = text.as_bytes();
        assert!(rt; at <= bytes.len());
        assert!(rt; next_record(bytes, at) == Err(BadRecord { at }), "{text:?}");
    }
}

#[test]
fn a_fault_is_told_by_its_place(rt: HostRuntime) -> Result<(), Fail> {
    for (at, want) in [
        (0, "no step record at byte 0"),
        (4096, "no step record at byte 4096"),
    ] {
        let fault = BadRecord { at };
        let text = format!(in rt.alloc(); "{fault}")?;
        assert!(rt; text.as_str() == want);
    }
    Ok(())
}
