//! What a reset keeps and what it drops. A read gives one byte, so what stands before a reset is answered, and where the machine
//! stands there a run leaves the same in any order of turns.

use crate::jogs::left_by;
use crate::realtime::WORDS;
use crate::runs::{BANNER, Row, Run, expect, text_of};
use crate::system::LATER_SETTINGS;
use grbl_app::Status;
use std::alloc::Global;
use std::process::Abort;
use std::sync::Wait;
use std::thread::Threads;

const OK: &[u8] = b"ok\r\n";

const AT_ZERO: &[u8] =
    b"<Idle|MPos:0.000,0.000,0.000|FS:0,0|WCO:0.000,0.000,0.000|Ov:100,100,100>\r\n";

const AT_ONE: &[u8] =
    b"<Idle|MPos:1.000,0.000,0.000|FS:0,0|WCO:0.000,0.000,0.000|Ov:100,100,100>\r\n";

const OPENING_MODES: &[u8] = b"[GC:G0 G54 G17 G21 G90 G94 M5 M9 T0 F0 S0]\r\n";

const OFFSETS: &[u8] =
    b"[G54:0.000,0.000,0.000]\r\n[G55:0.000,2.000,0.000]\r\n[G56:0.000,0.000,0.000]\r\n[G57:0.000,0.000,0.000]\r\n[G58:0.000,0.000,0.000]\r\n[G59:0.000,0.000,0.000]\r\n[G28:0.000,0.000,0.000]\r\n[G30:0.000,0.000,0.000]\r\n[G92:0.000,0.000,0.000]\r\n[TLO:0.000]\r\n[PRB:0.000,0.000,0.000:0]\r\n";

/// A text, in pieces of which each stands so many times.
type Text<'a> = &'a [(&'a [u8], usize)];

/// Runs jobs of one byte a read, each with its answers, its steps and its status.
fn expect_each<R: Threads + Wait + Sync + Abort>(
    rt: &R,
    alloc: Global,
    rows: &[(&[u8], Text, Text, Status)],
) {
    for &(job, answers, steps, status) in rows {
        let answers = text_of(rt, alloc, answers);
        let steps = text_of(rt, alloc, steps);
        let row = Row {
            job,
            answers: answers.as_slice(),
            steps: steps.as_slice(),
            status,
        };
        for words in WORDS {
            let left = left_by(rt, alloc, words, job, 1);
            assert!(rt; left.is(&row), "{words:?} {job:?}");
        }
    }
}

#[test]
fn each_reset_has_a_banner_and_a_record(rt: HostRuntime) {
    const ROWS: &[(&[u8], Text, Text, Status)] = &[
        (
            b"\x18",
            &[(BANNER, 1), (OK, 1)],
            &[(b"Z 0\nE\n", 1)],
            Status::Done,
        ),
        (
            b"\x18\x18",
            &[(BANNER, 2), (OK, 1)],
            &[(b"Z 0\nZ 0\nE\n", 1)],
            Status::Done,
        ),
        (
            b"\x18\n\x18M5\n",
            &[(BANNER, 1), (OK, 1), (BANNER, 1), (OK, 1)],
            &[(b"Z 0\nZ 1\nE\n", 1)],
            Status::Done,
        ),
        (
            b"\x18\n\n\n\x18\x18\n",
            &[(BANNER, 1), (OK, 3), (BANNER, 2), (OK, 1)],
            &[(b"Z 0\nZ 3\nZ 3\nE\n", 1)],
            Status::Done,
        ),
        // In a comment it is no reset.
        (b"(\x18)\n;\x18\n", &[(OK, 2)], &[(b"E\n", 1)], Status::Done),
        // Each report is told before the next banner.
        (
            b"?\x18?\x18?",
            &[
                (AT_ZERO, 1),
                (BANNER, 1),
                (AT_ZERO, 1),
                (BANNER, 1),
                (AT_ZERO, 1),
                (OK, 1),
            ],
            &[(b"Z 0\nZ 0\nE\n", 1)],
            Status::Done,
        ),
    ];
    expect_each(&rt, rt.alloc(), ROWS);
}

#[test]
fn a_reset_keeps_place_settings_offsets_and_points(rt: HostRuntime) {
    const ROWS: &[(&[u8], Text, Text, Status)] = &[
        // The next move begins where the machine stands, at each reset in which it does.
        (
            b"G0X1\nG4P0\n\x18?\nG91X-1\n",
            &[(OK, 2), (BANNER, 1), (AT_ONE, 1), (OK, 2)],
            &[
                (b"X+\n", 250),
                (b"D 0\nZ 2\n", 1),
                (b"X-\n", 250),
                (b"E\n", 1),
            ],
            Status::Done,
        ),
        (
            b"G0X1\nG4P0\n\x18G91X1\nG4P0\n\x18G0X0\n",
            &[(OK, 2), (BANNER, 1), (OK, 2), (BANNER, 1), (OK, 1)],
            &[
                (b"X+\n", 250),
                (b"D 0\nZ 2\n", 1),
                (b"X+\n", 250),
                (b"D 0\nZ 4\n", 1),
                (b"X-\n", 500),
                (b"E\n", 1),
            ],
            Status::Done,
        ),
        (
            b"$11=0.5\n\x18$$\n",
            &[
                (OK, 1),
                (BANNER, 1),
                (b"$10=1\r\n$11=0.500\r\n", 1),
                (LATER_SETTINGS, 1),
            ],
            &[(b"Z 1\nE\n", 1)],
            Status::Done,
        ),
        // The shift of `G92` is dropped, and the system is `G54`.
        (
            b"G10L2P2Y2\nG55G92X5\n\x18?\n$#\n",
            &[
                (OK, 2),
                (BANNER, 1),
                (AT_ZERO, 1),
                (OK, 1),
                (OFFSETS, 1),
                (OK, 1),
            ],
            &[(b"Z 2\nE\n", 1)],
            Status::Done,
        ),
        (
            b"G0X1\nG28.1\nX0\nG4P0\n\x18G28\n",
            &[(OK, 4), (BANNER, 1), (OK, 1)],
            &[
                (b"X+\n", 250),
                (b"X-\n", 250),
                (b"D 0\nZ 4\n", 1),
                (b"X+\n", 250),
                (b"E\n", 1),
            ],
            Status::Done,
        ),
    ];
    expect_each(&rt, rt.alloc(), ROWS);
}

#[test]
fn a_reset_drops_modes_overrides_and_its_own_line(rt: HostRuntime) {
    const ROWS: &[(&[u8], Text, Text, Status)] = &[
        (
            b"G1G55G18G20G91F10T5\n\x18$G\n",
            &[(OK, 1), (BANNER, 1), (OPENING_MODES, 1), (OK, 1)],
            &[(b"Z 1\nE\n", 1)],
            Status::Done,
        ),
        // The spindle and the coolant are off, with no mark of their own.
        (
            b"M3S1000\nM8\n\x18$G\nM5M9\n",
            &[(OK, 2), (BANNER, 1), (OPENING_MODES, 1), (OK, 2)],
            &[(b"M3 1000\nM8 0\nZ 2\nE\n", 1)],
            Status::Done,
        ),
        (
            b"\x91\x97\x9a\n\x18?\n",
            &[(OK, 1), (BANNER, 1), (AT_ZERO, 1), (OK, 1)],
            &[(b"Z 1\nE\n", 1)],
            Status::Done,
        ),
        // What of its line was scanned before it.
        (
            b"G0X1\x18\nG0Y\x18G0X0.004\n",
            &[(BANNER, 1), (OK, 1), (BANNER, 1), (OK, 1)],
            &[(b"Z 0\nZ 1\nX+\nE\n", 1)],
            Status::Done,
        ),
    ];
    expect_each(&rt, rt.alloc(), ROWS);
}

#[test]
fn lines_are_numbered_and_counted_on_behind_a_reset(rt: HostRuntime) {
    let alloc = rt.alloc();
    const ROWS: &[(&[u8], Text, Text, Status)] = &[
        (
            b"G1X1\n\x18G1X1\n",
            &[(b"error:22\r\n", 1), (BANNER, 1), (b"error:22\r\n", 1)],
            &[(b"Z 1\nE\n", 1)],
            Status::LineErrors(2),
        ),
        (
            b"M5\n\x18\n$20=1\nG0X1\n",
            &[
                (OK, 1),
                (BANNER, 1),
                (OK, 2),
                (b"ALARM:2\r\n[MSG:Reset to continue]\r\n", 1),
            ],
            &[(b"Z 1\nE\n", 1)],
            Status::Alarm(4),
        ),
    ];
    expect_each(&rt, alloc, ROWS);
    // 127 bytes are kept before a reset, and behind it; 128 are too many, also where a reset would drop them.
    let few = text_of(
        &rt,
        alloc,
        &[(b"N", 1), (b"0", 126), (b"\x18N", 1), (b"0", 78)],
    );
    let many = text_of(&rt, alloc, &[(b"N", 1), (b"0", 127), (b"\x18\n", 1)]);
    let behind = text_of(&rt, alloc, &[(b"M5\n\x18N", 1), (b"0", 127)]);
    let rows: [(&[u8], Text, Text, Status); 3] = [
        (
            few.as_slice(),
            &[(BANNER, 1), (OK, 1)],
            &[(b"Z 0\nE\n", 1)],
            Status::Done,
        ),
        (many.as_slice(), &[], &[(b"E\n", 1)], Status::LongLine(1)),
        (
            behind.as_slice(),
            &[(OK, 1), (BANNER, 1)],
            &[(b"Z 1\nE\n", 1)],
            Status::LongLine(2),
        ),
    ];
    expect_each(&rt, alloc, &rows);
}

#[test]
fn a_device_that_fails_is_told_behind_a_reset(rt: HostRuntime) {
    let alloc = rt.alloc();
    let front = text_of(&rt, alloc, &[(BANNER, 2)]);
    let whole = text_of(&rt, alloc, &[(BANNER, 2), (OK, 2)]);
    for words in WORDS {
        let well = Run {
            words,
            job: b"\x18G0X0.004\nX0",
            piece: 1,
            source_fails: &[],
            console_fails: &[],
            steps_fails: &[],
        };
        // The read behind the reset's own, the write of its banner, and the only write of the steps.
        let run = Run {
            source_fails: &[2],
            ..well
        };
        expect(
            &rt,
            alloc,
            &run,
            front.as_slice(),
            b"Z 0\nE\n",
            Status::SourceFault,
        );
        let run = Run {
            console_fails: &[2],
            ..well
        };
        expect(
            &rt,
            alloc,
            &run,
            BANNER,
            b"Z 0\nX+\nX-\nE\n",
            Status::ConsoleFault,
        );
        let run = Run {
            steps_fails: &[1],
            ..well
        };
        expect(&rt, alloc, &run, whole.as_slice(), b"", Status::StepsFault);
    }
}
