//! Worked texts: a job, a console and steps, and what is found of them.

use crate::audits::audit_of;
use run_audit::Audit;
use std::alloc::Global;
use std::process::Abort;
use std::test::Fail;

/// Three texts, what is found of them, and what is printed.
struct Row<'a> {
    job: &'a [u8],
    console: &'a [u8],
    steps: &'a [u8],
    found: Audit,
    said: &'a [u8],
}

/// Consoles with no answer, with one, and with others.
const BANNER: &[u8] = b"\r\nGrbl 1.1h ['$' for help]\r\n";

const ONE_OK: &[u8] = b"\r\nGrbl 1.1h ['$' for help]\r\nok\r\n";

const TWO_OK: &[u8] = b"\r\nGrbl 1.1h ['$' for help]\r\nok\r\nok\r\n";

const REFUSED: &[u8] = b"\r\nGrbl 1.1h ['$' for help]\r\nerror:20\r\n";

const REPORTED: &[u8] =
    b"\r\nGrbl 1.1h ['$' for help]\r\n<Idle|MPos:0.000,0.000,0.000|FS:0,0|WCO:0.000,0.000,0.000|Ov:100,100,100>\r\nok\r\n";

const RESET: &[u8] =
    b"\r\nGrbl 1.1h ['$' for help]\r\nok\r\n\r\nGrbl 1.1h ['$' for help]\r\nok\r\n";

const TWO_BANNERS: &[u8] = b"\r\nGrbl 1.1h ['$' for help]\r\n\r\nGrbl 1.1h ['$' for help]\r\n";

/// Consoles of a reset with its alarm, behind no answer, one and two.
const ALARM: &[u8] =
    b"\r\nGrbl 1.1h ['$' for help]\r\nALARM:3\r\n\r\nGrbl 1.1h ['$' for help]\r\n[MSG:'$H'|'$X' to unlock]\r\nok\r\n";

const OK_ALARM: &[u8] =
    b"\r\nGrbl 1.1h ['$' for help]\r\nok\r\nALARM:3\r\n\r\nGrbl 1.1h ['$' for help]\r\n[MSG:'$H'|'$X' to unlock]\r\nok\r\n";

const TWO_OK_ALARM: &[u8] =
    b"\r\nGrbl 1.1h ['$' for help]\r\nok\r\nok\r\nALARM:3\r\n\r\nGrbl 1.1h ['$' for help]\r\n[MSG:'$H'|'$X' to unlock]\r\nok\r\n";

/// One step, and the text of its run.
const STEP: &[u8] = b"G0X0.004";

const STEPS: &[u8] = b"s 1 1 0 320000\nX+\nE\n";

#[test]
fn texts_fit_or_the_first_record_is_told_that_breaks_a_rule(rt: HostRuntime) -> Result<(), Fail> {
    const ROWS: &[Row] = &[
        Row {
            job: STEP,
            console: ONE_OK,
            steps: STEPS,
            found: Audit::Fits { events: 1 },
            said: b"fits: 1 events\n",
        },
        Row {
            job: b"",
            console: BANNER,
            steps: b"E\n",
            found: Audit::Fits { events: 0 },
            said: b"fits: 0 events\n",
        },
        // The same steps in form 2.
        Row {
            job: STEP,
            console: ONE_OK,
            steps: b"V 2\ns 1 1 0 320000\nX+\nE\n",
            found: Audit::Fits { events: 1 },
            said: b"fits: 1 events\n",
        },
        // The step goes the other way.
        Row {
            job: STEP,
            console: ONE_OK,
            steps: b"s 1 1 0 320000\nX-\nE\n",
            found: Audit::Misfit { at: 15 },
            said: b"misfit at byte 15\n",
        },
        // The text has no end, or something behind it.
        Row {
            job: STEP,
            console: ONE_OK,
            steps: b"s 1 1 0 320000\nX+\n",
            found: Audit::Misfit { at: 18 },
            said: b"misfit at byte 18\n",
        },
        Row {
            job: STEP,
            console: ONE_OK,
            steps: b"s 1 1 0 320000\nX+\nE\n\n",
            found: Audit::Misfit { at: 20 },
            said: b"misfit at byte 20\n",
        },
        // The machine begins at a speed, or gets one that it can't have, and a head is of another line. The cycles of a head, its
        // pace, are not audited.
        Row {
            job: STEP,
            console: ONE_OK,
            steps: b"s 1 1 1 320000\nX+\nE\n",
            found: Audit::Misfit { at: 0 },
            said: b"misfit at byte 0\n",
        },
        Row {
            job: b"G0X0.008",
            console: ONE_OK,
            steps: b"s 1 1 0 226951\nX+\ns 1 1 80001 226951\nX+\nE\n",
            found: Audit::Misfit { at: 18 },
            said: b"misfit at byte 18\n",
        },
        Row {
            job: b"G0X0.008",
            console: ONE_OK,
            steps: b"s 1 1 0 226951\nX+\ns 1 1 80000 999999\nX+\nE\n",
            found: Audit::Fits { events: 2 },
            said: b"fits: 2 events\n",
        },
        Row {
            job: STEP,
            console: ONE_OK,
            steps: b"s 2 1 0 320000\nX+\nE\n",
            found: Audit::Misfit { at: 0 },
            said: b"misfit at byte 0\n",
        },
        // A step is missing, and one is too many.
        Row {
            job: STEP,
            console: ONE_OK,
            steps: b"E\n",
            found: Audit::Misfit { at: 0 },
            said: b"misfit at byte 0\n",
        },
        Row {
            job: b"G0X0",
            console: ONE_OK,
            steps: STEPS,
            found: Audit::Misfit { at: 0 },
            said: b"misfit at byte 0\n",
        },
        // A mark is missing, or comes before the step.
        Row {
            job: b"M8",
            console: ONE_OK,
            steps: b"E\n",
            found: Audit::Misfit { at: 0 },
            said: b"misfit at byte 0\n",
        },
        Row {
            job: b"G0X0.004\nM8",
            console: TWO_OK,
            steps: b"M8 0\ns 1 1 0 320000\nX+\nE\n",
            found: Audit::Misfit { at: 0 },
            said: b"misfit at byte 0\n",
        },
        // In form 2 a run has two events at least, and equal events are one run.
        Row {
            job: STEP,
            console: ONE_OK,
            steps: b"V 2\ns 1 1 0 320000\nR 1 X+\nE\n",
            found: Audit::Misfit { at: 19 },
            said: b"misfit at byte 19\n",
        },
        Row {
            job: b"$J=G91X0.012F500",
            console: ONE_OK,
            steps: b"V 2\ns 1 3 0 226951\nX+\nR 2 X+\nE\n",
            found: Audit::Misfit { at: 22 },
            said: b"misfit at byte 22\n",
        },
        // A jog is cut where no byte cancels it; and where one does.
        Row {
            job: b"$J=G91X0.012F500",
            console: ONE_OK,
            steps: b"s 1 1 0 226951\nX+\nX 1\nE\n",
            found: Audit::Misfit { at: 22 },
            said: b"misfit at byte 22\n",
        },
        Row {
            job: b"$J=G91X0.012F500\n\x85",
            console: TWO_OK,
            steps: b"s 1 1 0 226951\nX+\nX 1\nE\n",
            found: Audit::Fits { events: 1 },
            said: b"fits: 1 events\n",
        },
        // A reset has its record, and a number.
        Row {
            job: b"M8\n\x18M8",
            console: RESET,
            steps: b"M8 0\nM8 0\nE\n",
            found: Audit::Misfit { at: 5 },
            said: b"misfit at byte 5\n",
        },
        Row {
            job: b"M8\n\x18M8",
            console: RESET,
            steps: b"M8 0\nZ 1\nM8 0\nE\n",
            found: Audit::Fits { events: 0 },
            said: b"fits: 0 events\n",
        },
        Row {
            job: b"M8\n\x18M8",
            console: RESET,
            steps: b"M8 0\nZ 3\nM8 0\nE\n",
            found: Audit::Misfit { at: 5 },
            said: b"misfit at byte 5\n",
        },
    ];
    expect_found(&rt, rt.alloc(), ROWS)
}

#[test]
fn bad_replies_and_lines_that_are_not_audited_are_told(rt: HostRuntime) -> Result<(), Fail> {
    const ROWS: &[Row] = &[
        Row {
            job: STEP,
            console: REFUSED,
            steps: STEPS,
            found: Audit::BadReplies { line: 1 },
            said: b"replies differ at line 1\n",
        },
        // A line is answered that is refused, and one is refused that is refused.
        Row {
            job: b"G2",
            console: ONE_OK,
            steps: b"E\n",
            found: Audit::BadReplies { line: 1 },
            said: b"replies differ at line 1\n",
        },
        Row {
            job: b"G2",
            console: REFUSED,
            steps: b"E\n",
            found: Audit::Fits { events: 0 },
            said: b"fits: 0 events\n",
        },
        // An answer is missing, one is too many, and there is no banner.
        Row {
            job: b"G0X0.004\n\n",
            console: ONE_OK,
            steps: STEPS,
            found: Audit::BadReplies { line: 2 },
            said: b"replies differ at line 2\n",
        },
        Row {
            job: STEP,
            console: TWO_OK,
            steps: STEPS,
            found: Audit::BadReplies { line: 2 },
            said: b"replies differ at line 2\n",
        },
        Row {
            job: STEP,
            console: b"ok\r\n",
            steps: STEPS,
            found: Audit::BadReplies { line: 1 },
            said: b"replies differ at line 1\n",
        },
        // A report is passed over.
        Row {
            job: b"?G0X0.004",
            console: REPORTED,
            steps: STEPS,
            found: Audit::Fits { events: 1 },
            said: b"fits: 1 events\n",
        },
        // Homing and probes are not audited, whatever the texts are; in a comment they are no lines.
        Row {
            job: b"$H",
            console: b"",
            steps: b"",
            found: Audit::Foreign { line: 1 },
            said: b"line 1 isn't audited\n",
        },
        Row {
            job: b"G0X0.004\nG38.2Z-1F60",
            console: TWO_OK,
            steps: STEPS,
            found: Audit::Foreign { line: 2 },
            said: b"line 2 isn't audited\n",
        },
        // Behind a line that raises an alarm no line is sent, if the console tells the alarm.
        Row {
            job: b"$20=1\nG0X1\nG38.2X1\n",
            console: b"\r\nGrbl 1.1h ['$' for help]\r\nok\r\nALARM:2\r\n[MSG:Reset to continue]\r\n",
            steps: b"E\n",
            found: Audit::Fits { events: 0 },
            said: b"fits: 0 events\n",
        },
        Row {
            job: b"$20=1\nG0X1\nG38.2X1\n",
            console: TWO_OK,
            steps: b"E\n",
            found: Audit::Foreign { line: 3 },
            said: b"line 3 isn't audited\n",
        },
        Row {
            job: b"G0X0.004 ($H G38.2)",
            console: ONE_OK,
            steps: STEPS,
            found: Audit::Fits { events: 1 },
            said: b"fits: 1 events\n",
        },
    ];
    expect_found(&rt, rt.alloc(), ROWS)
}

#[test]
fn replies_are_judged_where_no_record_counts(rt: HostRuntime) -> Result<(), Fail> {
    const ROWS: &[Row] = &[
        // A line was begun, no reset comes of the job, and another line waits.
        Row {
            job: b"G0X1\nG0X2\n",
            console: TWO_BANNERS,
            steps: b"s 1 250 0 0\nX+\nE\n",
            found: Audit::BadReplies { line: 1 },
            said: b"replies differ at line 1\n",
        },
        // A reset has its alarm, and nothing has moved that it could have stopped: at once, and behind a line that settles.
        Row {
            job: b"\x18\n",
            console: ALARM,
            steps: b"Z 0\nE\n",
            found: Audit::BadReplies { line: 1 },
            said: b"replies differ at line 1\n",
        },
        Row {
            job: b"G0X0.004\nM3S100\n\x18\n",
            console: TWO_OK_ALARM,
            steps: b"s 1 1 0 0\nX-\nZ 2\nE\n",
            found: Audit::BadReplies { line: 3 },
            said: b"replies differ at line 3\n",
        },
        // The line that waits may have been begun, and moves none; that behind it can't have been.
        Row {
            job: b"M8\n\x18\n",
            console: ALARM,
            steps: b"Z 0\nE\n",
            found: Audit::BadReplies { line: 1 },
            said: b"replies differ at line 1\n",
        },
        Row {
            job: b"M8\nM9\nG0X0.004\n\x18\n",
            console: OK_ALARM,
            steps: b"X-\nE\n",
            found: Audit::BadReplies { line: 2 },
            said: b"replies differ at line 2\n",
        },
        // It may have been begun, and moves.
        Row {
            job: b"G0X0.004\n\x18\n",
            console: ALARM,
            steps: b"Z 0\nE\n",
            found: Audit::Misfit { at: 0 },
            said: b"misfit at byte 0\n",
        },
        Row {
            job: b"M8\nG0X0.004\n\x18\n",
            console: OK_ALARM,
            steps: b"X-\nE\n",
            found: Audit::Misfit { at: 0 },
            said: b"misfit at byte 0\n",
        },
    ];
    expect_found(&rt, rt.alloc(), ROWS)
}

/// Audits each row's texts, a byte at a time and in large pieces.
fn expect_found<R: Abort>(rt: &R, alloc: Global, rows: &[Row]) -> Result<(), Fail> {
    for row in rows {
        for piece in [1usize, 4096] {
            let (found, said) = audit_of(alloc, row.job, row.console, row.steps, piece)?;
            assert_eq!(rt; found, row.found);
            assert!(rt; said.as_slice() == row.said);
        }
    }
    Ok(())
}
