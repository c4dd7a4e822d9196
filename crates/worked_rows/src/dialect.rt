//! Lines of G-code: what they are refused with, how they are cut, and what they record.

use crate::runs::{Row, append_times, expect_answers, expect_done, expect_row, text_of};
use grbl_app::Status;

#[test]
fn a_refused_line_of_code_is_answered_with_its_number(rt: HostRuntime) {
    const ROWS: &[(&[u8], &[u8])] = &[
        (b"1X", b"error:1\r\n"),
        (b"%", b"error:1\r\n"),
        (b"X", b"error:2\r\n"),
        (b"G0Y", b"error:2\r\n"),
        (b"F-1", b"error:4\r\n"),
        (b"G61.1", b"error:20\r\n"),
        (b"G28.25", b"error:20\r\n"),
        (b"G2X1Y1I1J0", b"error:20\r\n"),
        (b"G17G18", b"error:21\r\n"),
        (b"G20G21", b"error:21\r\n"),
        (b"M3M4", b"error:21\r\n"),
        (b"G1X1", b"error:22\r\n"),
        (b"G1.25", b"error:23\r\n"),
        (b"G0.5", b"error:23\r\n"),
        (b"G0G1X1", b"error:24\r\n"),
        (b"X1X2", b"error:25\r\n"),
        (b"G92", b"error:26\r\n"),
        (b"G10L2P1", b"error:26\r\n"),
        (b"N10000001", b"error:27\r\n"),
        (b"G4", b"error:28\r\n"),
        (b"G10X0", b"error:28\r\n"),
        (b"G10L2P7X0", b"error:29\r\n"),
        (b"G10L3P1X0", b"error:20\r\n"),
        (b"G53G80X1", b"error:30\r\n"),
        (b"G80X1", b"error:31\r\n"),
        (b"X10001", b"error:33\r\n"),
        (b"G92X-10000.001", b"error:33\r\n"),
        (b"P1", b"error:36\r\n"),
        (b"L2", b"error:36\r\n"),
        (b"G0I1", b"error:36\r\n"),
        (b"T256", b"error:38\r\n"),
        (b"T1T256", b"error:38\r\n"),
    ];
    expect_answers(&rt, rt.alloc(), ROWS, Status::LineErrors(1));
}

#[test]
fn modes_and_units_shape_the_moves_of_later_lines(rt: HostRuntime) {
    const ROWS: &[(&[u8], &[u8], &[u8])] = &[
        // Relative moves.
        (b"G91G1X0.004F100\nX0.004", b"ok\r\nok\r\n", b"X+\nX+\nE\n"),
        // 0.0001 inches are 2,540 nm, which are 0.635 steps.
        (b"G20\nG0X0.0001", b"ok\r\nok\r\n", b"X+\nE\n"),
        // A feed in inches stands for the moves in mm behind it.
        (b"G20F1\nG21G1X0.004", b"ok\r\nok\r\n", b"X+\nE\n"),
        // A point in machine coordinates, and then the mode that stood.
        (
            b"G1F100\nG53G0X0.004\nX0",
            b"ok\r\nok\r\nok\r\n",
            b"X+\nX-\nE\n",
        ),
        // A cancelled motion mode.
        (b"G80\nG0X0.004", b"ok\r\nok\r\n", b"X+\nE\n"),
    ];
    expect_done(&rt, rt.alloc(), ROWS);
}

#[test]
fn spindle_coolant_and_dwell_are_recorded_where_they_change(rt: HostRuntime) {
    const ROWS: &[(&[u8], &[u8], &[u8])] = &[
        (b"M8\nM9", b"ok\r\nok\r\n", b"M8 0\nM9 0\nE\n"),
        (
            b"M8\nM8\nM9\nM9",
            b"ok\r\nok\r\nok\r\nok\r\n",
            b"M8 0\nM9 0\nE\n",
        ),
        // A speed counts only while the spindle is on.
        (
            b"S50\nM3\nS60\nM4\nM5\nS70",
            b"ok\r\nok\r\nok\r\nok\r\nok\r\nok\r\n",
            b"M3 50\nM3 60\nM4 60\nM5 0\nE\n",
        ),
        (b"G4P1.5\nG4P0", b"ok\r\nok\r\n", b"D 1500\nD 0\nE\n"),
        // A mark stands before the move of its line.
        (b"G0X0.004M3S9M8", b"ok\r\n", b"M3 9\nM8 0\nX+\nE\n"),
        // A pause goes on once the machine is at rest.
        (b"G0X0.004\nM0\nX0", b"ok\r\nok\r\nok\r\n", b"X+\nX-\nE\n"),
    ];
    expect_done(&rt, rt.alloc(), ROWS);
}

#[test]
fn the_end_of_the_program_turns_off_what_is_on(rt: HostRuntime) {
    const ROWS: &[(&[u8], &[u8], &[u8])] = &[
        (
            b"M3S100M8\nM2",
            b"ok\r\n[MSG:Pgm End]\r\nok\r\n",
            b"M3 100\nM8 0\nM5 0\nM9 0\nE\n",
        ),
        (b"M2M3S9", b"[MSG:Pgm End]\r\nok\r\n", b"M3 9\nM5 0\nE\n"),
        (b"M30", b"[MSG:Pgm End]\r\nok\r\n", b"E\n"),
        // The motion mode behind the end is G1, with absolute points; the feed stays.
        (
            b"F100G91\nG0X0.004M30\n$G\nX0",
            b"ok\r\n[MSG:Pgm End]\r\nok\r\n[GC:G1 G54 G17 G21 G90 G94 M5 M9 T0 F100 S0]\r\nok\r\nok\r\n",
            b"X+\nX-\nE\n",
        ),
        // Lines behind the end are answered too.
        (
            b"M2\nG0X0.004",
            b"[MSG:Pgm End]\r\nok\r\nok\r\n",
            b"X+\nE\n",
        ),
    ];
    expect_done(&rt, rt.alloc(), ROWS);
}

#[test]
fn a_long_comment_with_realtime_bytes_is_no_part_of_its_line(rt: HostRuntime) {
    let alloc = rt.alloc();
    let job = text_of(
        &rt,
        alloc,
        &[(b"g21(", 1), (b"?!c", 100), (b")\r\nG90\r\n", 1)],
    );
    expect_done(&rt, alloc, &[(job.as_slice(), b"ok\r\nok\r\n", b"E\n")]);
}

#[test]
fn a_line_number_may_have_seventy_eight_digits(rt: HostRuntime) {
    let alloc = rt.alloc();
    const ROWS: &[(usize, &[u8], Status)] = &[
        (78, b"ok\r\n", Status::Done),
        (79, b"error:11\r\n", Status::LineErrors(1)),
        (126, b"error:11\r\n", Status::LineErrors(1)),
        (127, b"", Status::LongLine(1)),
    ];
    for &(digits, answers, status) in ROWS {
        let job = text_of(&rt, alloc, &[(b"N", 1), (b"0", digits)]);
        let row = Row {
            job: job.as_slice(),
            answers,
            steps: b"E\n",
            status,
        };
        expect_row(&rt, alloc, &row);
    }
}

#[test]
fn a_pocket_is_cut_in_eight_thousand_events(rt: HostRuntime) {
    let alloc = rt.alloc();
    let job =
        b"(Pocket 1)\nG90 G94 G17 G21\nM3 S1000\nG0 X5 Y5\nG1 Z-1 F200\nX10\nY10\nX5\nY5\nG0 Z5\nM5\nM30\n";
    let answers = text_of(
        &rt,
        alloc,
        &[(b"ok\r\n", 11), (b"[MSG:Pgm End]\r\nok\r\n", 1)],
    );
    let steps = text_of(
        &rt,
        alloc,
        &[
            (b"M3 1000\n", 1),
            (b"X+Y+\n", 1250),
            (b"Z-\n", 250),
            (b"X+\n", 1250),
            (b"Y+\n", 1250),
            (b"X-\n", 1250),
            (b"Y-\n", 1250),
            (b"Z+\n", 1500),
            (b"M5 0\nE\n", 1),
        ],
    );
    expect_done(&rt, alloc, &[(job, answers.as_slice(), steps.as_slice())]);
}

#[test]
fn a_job_with_every_code_of_the_dialect_is_done(rt: HostRuntime) {
    let alloc = rt.alloc();
    const LINES: &[&[u8]] = &[
        b"",
        b"(only a comment)",
        b"N1",
        b"T255",
        b"F100",
        b"G17",
        b"G18",
        b"G19",
        b"G91",
        b"G90",
        b"G91.1",
        b"G94",
        b"G20",
        b"G21",
        b"G40",
        b"G49",
        b"G55",
        b"G56",
        b"G57",
        b"G58",
        b"G59",
        b"G54",
        b"G61",
        b"G80",
        b"G1",
        b"G0",
        b"G4P0",
        b"G10L2P1X0",
        b"G10L20P0Y0",
        b"G28.1",
        b"G30.1",
        b"G28",
        b"G30",
        b"G53",
        b"G92X0",
        b"G92.1",
        b"M0",
        b"M1",
        b"M3",
        b"M4",
        b"M5",
        b"M8",
        b"M9",
    ];
    let mut job = Vec::new(alloc);
    for line in LINES {
        append_times(&rt, &mut job, line, 1);
        append_times(&rt, &mut job, b"\n", 1);
    }
    let answers = text_of(&rt, alloc, &[(b"ok\r\n", LINES.len())]);
    let steps = b"D 0\nM3 0\nM4 0\nM5 0\nM8 0\nM9 0\nE\n";
    expect_done(&rt, alloc, &[(job.as_slice(), answers.as_slice(), steps)]);
}
