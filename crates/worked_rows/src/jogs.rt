//! Jogs, and what lines are answered in them.

use crate::realtime::WORDS;
use crate::runs::{BANNER, Row, expect_answers, run_over, text_of, without_heads};
use crate::system::LATER_SETTINGS;
use grbl_app::Status;
use outside::{MemSink, MemSource};
use std::alloc::Global;
use std::process::Abort;
use std::sync::Wait;
use std::thread::Threads;

/// What a run leaves: the console behind the banner, the steps without heads, and the status.
#[derive(Drop)]
pub(crate) struct Left {
    pub(crate) answers: Vec<u8>,
    pub(crate) steps: Vec<u8>,
    pub(crate) status: Status,
}

impl Left {
    pub(crate) fn is(&self, row: &Row) -> bool {
        self.answers.as_slice() == row.answers
            && self.steps.as_slice() == row.steps
            && self.status == row.status
    }
}

/// Runs a job of which a read gives so many bytes. It is read on once what was read is answered.
pub(crate) fn left_by<R: Threads + Wait + Sync + Abort>(
    rt: &R,
    alloc: Global,
    words: &[&str],
    job: &[u8],
    piece: usize,
) -> Left {
    let mut source = MemSource::new(job, piece.max(1), &[]);
    let mut console = MemSink::new(alloc, 10_000, &[]).expect(rt, "memory");
    let mut steps = MemSink::new(alloc, 1_000_000, &[]).expect(rt, "memory");
    let status = run_over(rt, alloc, words, &mut source, &mut console, &mut steps);
    let answers = console.held().strip_prefix(BANNER).expect(rt, "a banner");
    Left {
        answers: Vec::from_slice(alloc, answers).expect(rt, "memory"),
        steps: without_heads(rt, alloc, steps.held()),
        status,
    }
}

/// Runs a job of accepted lines, in threads and in lockstep: it leaves the same in each order of turns.
fn expect_each<R: Threads + Wait + Sync + Abort>(
    rt: &R,
    alloc: Global,
    job: &[u8],
    piece: usize,
    answers: &[u8],
    steps: &[u8],
) {
    let row = Row {
        job,
        answers,
        steps,
        status: Status::Done,
    };
    for words in WORDS {
        assert!(rt; left_by(rt, alloc, words, job, piece).is(&row));
    }
}

#[test]
fn jogs_start_at_once_and_move_the_position(rt: HostRuntime) {
    const ROWS: &[(&[u8], &[u8], &[u8])] = &[
        (b"$J=G91X0.012F500", b"ok\r\n", b"X+\nX+\nX+\nE\n"),
        // Each jog begins where the one before ends, while that is carried out or behind it.
        (
            b"$J=G91X0.004F500\n$J=G91X0.004Y0.004F500\n$J=X0.004F9",
            b"ok\r\nok\r\nok\r\n",
            b"X+\nX+Y+\nX-\nE\n",
        ),
        // One that has no step is not carried out, and so G-code may follow.
        (b"$J=G91X0F100\nG0X0.004", b"ok\r\nok\r\n", b"X+\nE\n"),
        // Its modes are its own: the lines behind it are in mm and absolute, and so is the next jog.
        (
            b"$J=G20G91X0F9\n$J=X0.004F9\n$J=G91X0.004F9",
            b"ok\r\nok\r\nok\r\n",
            b"X+\nX+\nE\n",
        ),
        (
            b"G20G91\n$J=Y-0.0001F1\n$J=G21Z0.004F1",
            b"ok\r\nok\r\nok\r\n",
            b"Y-\nZ+\nE\n",
        ),
        // Offsets count, and machine coordinates have none.
        (
            b"G92X1\n$J=X1.004F9\n$J=G53X0F9",
            b"ok\r\nok\r\nok\r\n",
            b"X+\nX-\nE\n",
        ),
        // Behind a line that waits until the machine stands.
        (
            b"G0X0.008\nG4P0\n$J=X0F500",
            b"ok\r\nok\r\nok\r\n",
            b"X+\nX+\nD 0\nX-\nX-\nE\n",
        ),
        (
            b"G80\n$J=N7G90G53G21Z0.004F0.5\n\n(in it)\n$X",
            b"ok\r\nok\r\nok\r\nok\r\nok\r\n",
            b"Z+\nE\n",
        ),
        // Realtime bytes come off it, and small letters and blanks are no matter.
        (
            b"$ j = g91 x0.0\x85(\x18)04 f5\x97 ; out",
            b"ok\r\n",
            b"X+\nE\n",
        ),
    ];
    for &(job, answers, steps) in ROWS {
        expect_each(&rt, rt.alloc(), job, 7, answers, steps);
    }
}

#[test]
fn lists_are_served_in_a_jog(rt: HostRuntime) {
    let alloc = rt.alloc();
    let there = text_of(&rt, alloc, &[(b"X+\n", 250), (b"E\n", 1)]);
    let settings = text_of(
        &rt,
        alloc,
        &[(b"ok\r\n$10=1\r\n$11=0.010\r\n", 1), (LATER_SETTINGS, 1)],
    );
    // A jog changes no mode and no feed.
    let modes = b"ok\r\n[GC:G0 G54 G17 G21 G90 G94 M5 M9 T0 F0 S0]\r\nok\r\n";
    let rows: [(&[u8], &[u8]); 2] = [
        (b"$J=G91X1F500\n$$", settings.as_slice()),
        (b"$J=G91X1F500\n$G", modes.as_slice()),
    ];
    for (job, answers) in rows {
        expect_each(&rt, alloc, job, 7, answers, there.as_slice());
    }
}

#[test]
fn a_refused_jog_is_answered_with_its_number(rt: HostRuntime) {
    const ROWS: &[(&[u8], &[u8])] = &[
        (b"$J", b"error:3\r\n"),
        (b"$JX1F10", b"error:3\r\n"),
        (b"$J=1", b"error:1\r\n"),
        (b"$J=X", b"error:2\r\n"),
        (b"$J=X1F1000000000", b"error:2\r\n"),
        // The first word that is refused by itself.
        (b"$J=X1F-1", b"error:4\r\n"),
        (b"$J=G2X1F10", b"error:20\r\n"),
        (b"$J=A1", b"error:20\r\n"),
        (b"$J=G90G91X1F10", b"error:21\r\n"),
        (b"$J=G1.5X1F10", b"error:23\r\n"),
        (b"$J=G0G28X1F10", b"error:24\r\n"),
        (b"$J=X1X2F10", b"error:25\r\n"),
        (b"$J=T256X1F10", b"error:38\r\n"),
        // Then the line, in this order.
        (b"$J=N10000001X1", b"error:27\r\n"),
        (b"$J=", b"error:22\r\n"),
        (b"$J=X1", b"error:22\r\n"),
        (b"$J=F0", b"error:22\r\n"),
        (b"$J=F10", b"error:26\r\n"),
        (b"$J=G91F10", b"error:26\r\n"),
        (b"$J=G1X1F10S5", b"error:36\r\n"),
        (b"$J=X1F10T1", b"error:36\r\n"),
        (b"$J=G10L2P1X1F10", b"error:36\r\n"),
        (b"$J=G1X1F10", b"error:16\r\n"),
        (b"$J=G54X1F10", b"error:16\r\n"),
        (b"$J=G92X10001F10", b"error:16\r\n"),
        (b"$J=M3X1F10", b"error:16\r\n"),
        (b"$J=X10000.0001F10", b"error:33\r\n"),
        (b"$J=G20X400F10", b"error:33\r\n"),
        // The parser's feed is no feed of a jog.
        (b"F100\n$J=X1", b"ok\r\nerror:22\r\n"),
    ];
    expect_answers(&rt, rt.alloc(), ROWS, Status::LineErrors(1));
}

#[test]
fn seventy_nine_kept_bytes_are_a_jog_and_eighty_are_not(rt: HostRuntime) {
    let alloc = rt.alloc();
    for (zeros, answers, status) in [
        (68usize, b"ok\r\n".as_slice(), Status::Done),
        (69, b"error:11\r\n", Status::LineErrors(1)),
    ] {
        let job = text_of(&rt, alloc, &[(b"$J=G91X0F1.", 1), (b"0", zeros)]);
        expect_answers(&rt, alloc, &[(job.as_slice(), answers)], status);
    }
}

/// A line behind one that moves for long: what it is answered while the machine is in motion, in lockstep surely, and
/// what it is answered where the machine stands already, as it may in threads; and the steps that it adds then.
#[derive(Clone, Copy)]
struct Behind {
    first: &'static [u8],
    line: &'static [u8],
    moving: &'static [u8],
    standing: &'static [u8],
    adds: &'static [u8],
}

/// The fields of such a line, in their order.
type Said = (
    &'static [u8],
    &'static [u8],
    &'static [u8],
    &'static [u8],
    &'static [u8],
);

/// A jog of 2,500 events.
pub(crate) const LONG_JOG: &[u8] = b"$J=G91X10F500\n";

/// A move of as many.
const LONG_MOVE: &[u8] = b"G0X10\n";

fn expect_behind<R: Threads + Wait + Sync + Abort>(rt: &R, alloc: Global, behind: &Behind) {
    let job = text_of(rt, alloc, &[(behind.first, 1), (behind.line, 1)]);
    let answers = text_of(rt, alloc, &[(b"ok\r\n", 1), (behind.standing, 1)]);
    let refused = text_of(rt, alloc, &[(b"ok\r\n", 1), (behind.moving, 1)]);
    let there = text_of(rt, alloc, &[(b"X+\n", 2_500), (b"E\n", 1)]);
    let more = text_of(
        rt,
        alloc,
        &[(b"X+\n", 2_500), (behind.adds, 1), (b"E\n", 1)],
    );
    let moving = Row {
        job: job.as_slice(),
        answers: refused.as_slice(),
        steps: there.as_slice(),
        status: Status::LineErrors(1),
    };
    let standing = Row {
        answers: answers.as_slice(),
        steps: more.as_slice(),
        status: if behind.standing == b"ok\r\n".as_slice() {
            Status::Done
        } else {
            Status::LineErrors(1)
        },
        ..moving
    };
    for words in WORDS {
        let left = left_by(rt, alloc, words, moving.job, 4096);
        assert!(rt; left.is(&moving) || words.len() == 1 && left.is(&standing));
    }
}

#[test]
fn lines_are_refused_by_what_the_machine_does(rt: HostRuntime) {
    const ROWS: &[Said] = &[
        // G-code in a jog, whatever it says.
        (LONG_JOG, b"G0X10.004", b"error:9\r\n", b"ok\r\n", b"X+\n"),
        (LONG_JOG, b"G4P0", b"error:9\r\n", b"ok\r\n", b"D 0\n"),
        (LONG_JOG, b"M0", b"error:9\r\n", b"ok\r\n", b""),
        (LONG_JOG, b"G21", b"error:9\r\n", b"ok\r\n", b""),
        (LONG_JOG, b"X", b"error:9\r\n", b"error:2\r\n", b""),
        // Settings in a jog, whether or not they can be read.
        (LONG_JOG, b"$110=600", b"error:8\r\n", b"ok\r\n", b""),
        (LONG_JOG, b"$5=1", b"error:8\r\n", b"error:3\r\n", b""),
        // Jogs while G-code runs.
        (
            LONG_MOVE,
            b"$J=X10.004F9",
            b"error:8\r\n",
            b"ok\r\n",
            b"X+\n",
        ),
        (LONG_MOVE, b"$J=X1", b"error:8\r\n", b"error:22\r\n", b""),
        (LONG_MOVE, b"$J", b"error:8\r\n", b"error:3\r\n", b""),
        (LONG_MOVE, b"$110=600", b"error:8\r\n", b"ok\r\n", b""),
    ];
    for &(first, line, moving, standing, adds) in ROWS {
        let behind = Behind {
            first,
            line,
            moving,
            standing,
            adds,
        };
        expect_behind(&rt, rt.alloc(), &behind);
    }
}

#[test]
fn a_dwell_behind_a_short_jog_is_made_or_refused(rt: HostRuntime) {
    let alloc = rt.alloc();
    let job = b"$J=G91X0.004F500\nG4P0";
    let rows = [
        Row {
            job,
            answers: b"ok\r\nok\r\n",
            steps: b"X+\nD 0\nE\n",
            status: Status::Done,
        },
        Row {
            job,
            answers: b"ok\r\nerror:9\r\n",
            steps: b"X+\nE\n",
            status: Status::LineErrors(1),
        },
    ];
    for words in WORDS {
        let left = left_by(&rt, alloc, words, job, 4096);
        assert!(rt; rows.iter().any(|row| left.is(row)));
    }
}

#[test]
fn many_jogs_come_behind_one_another(rt: HostRuntime) {
    let alloc = rt.alloc();
    // More than the plan has room for; between them lines that a jog does not refuse.
    let job = text_of(
        &rt,
        alloc,
        &[(b"$J=G91X0.4F500\n$J=G91X-0.2Y0.2F300\n$X\n", 20)],
    );
    let answers = text_of(&rt, alloc, &[(b"ok\r\n", 60)]);
    let mut steps = Vec::new(alloc);
    for _ in 0..20 {
        let both = text_of(&rt, alloc, &[(b"X+\n", 100), (b"X-Y+\n", 50)]);
        steps
            .extend_from_slice(both.as_slice())
            .expect(&rt, "memory");
    }
    steps.extend_from_slice(b"E\n").expect(&rt, "memory");
    expect_each(
        &rt,
        alloc,
        job.as_slice(),
        4096,
        answers.as_slice(),
        steps.as_slice(),
    );
}

#[test]
fn reports_say_that_the_machine_jogs(rt: HostRuntime) {
    let alloc = rt.alloc();
    // The `?` is sent once the jog is answered; in threads the jog may be done by then.
    const JOBS: &[&[u8]] = &[
        b"$J=G91X10F500\n?\n",
        b"$J=G91X10F500\n!?\n",
        b"$J=G91X10F500\n$J=G91X10F500\n$X?\n",
    ];
    for &job in JOBS {
        for words in WORDS {
            let left = left_by(&rt, alloc, words, job, LONG_JOG.len());
            let mut reports = left
                .answers
                .as_slice()
                .split(|byte| *byte == b'\n')
                .filter(|line| line.starts_with(b"<"));
            let report = reports.next().expect(&rt, "a report");
            let stands = report.starts_with(b"<Idle|") || report.starts_with(b"<Hold:0|");
            assert!(rt; report.starts_with(b"<Jog|MPos:") || words.len() == 1 && stands);
            assert!(rt; reports.next().is_none());
            assert_eq!(rt; left.status, Status::Done);
        }
    }
}
