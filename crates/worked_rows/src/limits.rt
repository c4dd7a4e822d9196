//! Soft limits: lines whose target leaves the travel, while the machine stands and while it runs, and jogs that would leave it.

use crate::jogs::left_by;
use crate::realtime::{WORDS, changes_gradually, head_of};
use crate::runs::{BANNER, Row, Run, expect, run_over, text_of, without_heads};
use grbl_app::Status;
use outside::{MemSink, MemSource};
use std::alloc::Global;
use std::process::Abort;
use std::sync::Wait;
use std::thread::Threads;

/// What is told in the place of an answer, and behind it nothing.
const ALARM: &[u8] = b"ALARM:2\r\n[MSG:Reset to continue]\r\n";

/// Runs a job in threads and in lockstep, in pieces: it leaves the same in each order of turns.
fn expect_each<R: Threads + Wait + Sync + Abort>(rt: &R, alloc: Global, row: &Row) {
    for words in WORDS {
        for piece in [5usize, 4096] {
            assert!(rt; left_by(rt, alloc, words, row.job, piece).is(row));
        }
    }
}

/// The number of the line behind so many.
fn line_behind(lines: usize) -> u32 {
    u32::try_from(lines).unwrap_or(u32::MAX).saturating_add(1)
}

/// A job of which so many lines are answered `ok`, and the next one raises an alarm.
fn expect_alarm<R: Threads + Wait + Sync + Abort>(
    rt: &R,
    alloc: Global,
    job: &[u8],
    lines: usize,
    steps: &[u8],
) {
    let answers = text_of(rt, alloc, &[(b"ok\r\n", lines), (ALARM, 1)]);
    let row = Row {
        job,
        answers: answers.as_slice(),
        steps,
        status: Status::Alarm(line_behind(lines)),
    };
    expect_each(rt, alloc, &row);
}

#[test]
fn a_line_that_leaves_the_travel_ends_the_run(rt: HostRuntime) {
    const ROWS: &[(&[u8], usize, &[u8])] = &[
        (b"$20=1\nG0X1", 1, b"E\n"),
        // Nothing behind it is answered or done.
        (b"$20=1\nG0X1\nG0X-1\n\n$G\n$X\nX\n", 1, b"E\n"),
        (b"$20=1\nG0X1\n$20=0\nG0X1", 1, b"E\n"),
        // Nor is any of its items: no mark, and no move but the one outside.
        (b"$20=1\nM3S5X1", 1, b"E\n"),
        (b"$20=1\nM8G4P1Y0.004", 1, b"E\n"),
        (b"$20=1\nG0X1M2", 1, b"E\n"),
        (b"$20=1\nM0G0X1", 1, b"E\n"),
        // Both ends of the travel are inside, and what is farther is not, though it has no step more.
        (b"$20=1\nG0X-200.004", 1, b"E\n"),
        (b"$20=1\nG0X-200.0001", 1, b"E\n"),
        (b"$20=1\nG0Y0.0001", 1, b"E\n"),
        (b"$132=1\n$20=1\nG0Z-1.0001", 2, b"E\n"),
        // Behind a move that is over.
        (b"$20=1\nG0Z-0.004\nG4P0\nZ0.004", 3, b"Z-\nD 0\nE\n"),
        // An axis that the line does not name counts with its position, and so do both targets of a stored point.
        (
            b"G0X0.004\nG4P0\n$20=1\nG92X-5\nY-0.004",
            4,
            b"X+\nD 0\nE\n",
        ),
        (b"$130=1\n$20=1\nG28X-2", 2, b"E\n"),
        (
            b"G0X0.004\nG28.1\nX0\nG4P0\n$20=1\nG28",
            5,
            b"X+\nX-\nD 0\nE\n",
        ),
        // Offsets count, and machine coordinates have none.
        (b"$20=255\nG10L2P1X1\nG0X-0.5", 2, b"E\n"),
        (b"$20=1.5\nG92X-1\nG53G0X0.004", 2, b"E\n"),
        (b"$20=1\nG20G91G1F9Z0.0001", 1, b"E\n"),
    ];
    for &(job, lines, steps) in ROWS {
        expect_alarm(&rt, rt.alloc(), job, lines, steps);
    }
}

#[test]
fn lines_inside_the_travel_and_without_limits_are_accepted(rt: HostRuntime) {
    let alloc = rt.alloc();
    const ROWS: &[(&[u8], usize, &[u8])] = &[
        (b"$130=1\n$20=0\nG0X0.004", 3, b"X+\nE\n"),
        (b"$20=1\nG0X0Y0Z0\nG28\nG30X0", 4, b"E\n"),
        (b"$20=0\nG0X0.004", 2, b"X+\nE\n"),
        (b"$20=0.9\nG0X0.004", 2, b"X+\nE\n"),
        (b"$20=1\n$20=0\nG0X0.004", 3, b"X+\nE\n"),
        // A line without a move is never outside.
        (
            b"G0X0.004\nG4P0\n$20=1\nG92X5\nG28.1\nG10L2P1X5\nG4P0\nG53G0X0",
            8,
            b"X+\nD 0\nD 0\nX-\nE\n",
        ),
        (b"$20=1\nG10L2P1X-1\nG0X0.996", 3, b"X-\nE\n"),
    ];
    for &(job, lines, steps) in ROWS {
        let answers = text_of(&rt, alloc, &[(b"ok\r\n", lines)]);
        let row = Row {
            job,
            answers: answers.as_slice(),
            steps,
            status: Status::Done,
        };
        expect_each(&rt, alloc, &row);
    }
}

#[test]
fn a_move_to_the_far_end_of_the_travel_is_whole(rt: HostRuntime) {
    let alloc = rt.alloc();
    let steps = text_of(&rt, alloc, &[(b"X-\n", 50_000), (b"E\n", 1)]);
    let row = Row {
        job: b"$20=1\nG0X-200",
        answers: b"ok\r\nok\r\n",
        steps: steps.as_slice(),
        status: Status::Done,
    };
    for words in WORDS {
        assert!(rt; left_by(&rt, alloc, words, row.job, 4096).is(&row));
    }
}

#[test]
fn jogs_outside_and_errors_are_refused_and_the_run_goes_on(rt: HostRuntime) {
    const ROWS: &[(&[u8], &[u8], &[u8], u32)] = &[
        (b"$20=1\n$J=X1F10", b"ok\r\nerror:15\r\n", b"E\n", 1),
        (
            b"$20=1\n$J=X1F10\nG0X-0.004",
            b"ok\r\nerror:15\r\nok\r\n",
            b"X-\nE\n",
            1,
        ),
        (
            b"$20=1\n$J=X-0.004F10\n$J=G91X1F10\n$J=X0F10",
            b"ok\r\nok\r\nerror:15\r\nok\r\n",
            b"X-\nX+\nE\n",
            1,
        ),
        (b"$20=1\n$J=X-200.0001F9", b"ok\r\nerror:15\r\n", b"E\n", 1),
        // Each error comes before a limit.
        (b"$20=1\n$J=X10001F10", b"ok\r\nerror:33\r\n", b"E\n", 1),
        (b"$20=1\n$J=X1", b"ok\r\nerror:22\r\n", b"E\n", 1),
        (b"$20=1\nG0X1F-1", b"ok\r\nerror:4\r\n", b"E\n", 1),
        (b"$20=1\nG1X1", b"ok\r\nerror:22\r\n", b"E\n", 1),
        (
            b"$20=1\nX10001\nG0X1I1\n$20=256\n$20=-1",
            b"ok\r\nerror:33\r\nerror:36\r\nerror:3\r\nerror:4\r\n",
            b"E\n",
            4,
        ),
    ];
    for &(job, answers, steps, errors) in ROWS {
        let row = Row {
            job,
            answers,
            steps,
            status: Status::LineErrors(errors),
        };
        expect_each(&rt, rt.alloc(), &row);
    }
}

/// Runs a job whose console and status must be these. Answers its steps, with their heads.
fn steps_by<R: Threads + Wait + Sync + Abort>(
    rt: &R,
    alloc: Global,
    words: &[&str],
    job: &[u8],
    answers: &[u8],
    status: Status,
) -> Vec<u8> {
    let mut source = MemSource::new(job, 4096, &[]);
    let mut console = MemSink::new(alloc, 10_000, &[]).expect(rt, "memory");
    let mut steps = MemSink::new(alloc, 400_000, &[]).expect(rt, "memory");
    let got = run_over(rt, alloc, words, &mut source, &mut console, &mut steps);
    assert_eq!(rt; got, status);
    assert!(rt; console.held().strip_prefix(BANNER) == Some(answers));
    Vec::from_slice(alloc, steps.held()).expect(rt, "memory")
}

/// Whether the speed changes gradually up to the end, where the machine stands: over the events of the last segment it can
/// stop.
fn comes_to_rest(steps: &[u8]) -> bool {
    let mut last: (u64, u64) = (0, 0);
    for line in steps.split(|byte| *byte == b'\n') {
        last = head_of(line).unwrap_or(last);
    }
    let (events, speed) = last;
    changes_gradually(steps) && speed <= events.saturating_mul(80_000)
}

/// Whether a text is the first lines of another, and the end.
fn is_front(text: &[u8], whole: &[u8]) -> bool {
    let Some(front) = text.strip_suffix(b"E\n") else {
        return false;
    };
    whole.starts_with(front)
}

/// A job that is stopped in motion: how many of its lines are answered `ok`; the ticks that are recorded before those moves
/// that may be dropped, and all that its lines ask for.
#[derive(Clone, Copy)]
struct Moving<'a> {
    job: &'a [u8],
    lines: usize,
    least: &'a [u8],
    all: &'a [u8],
}

fn expect_moving<R: Threads + Wait + Sync + Abort>(rt: &R, alloc: Global, moving: &Moving) {
    let answers = text_of(rt, alloc, &[(b"ok\r\n", moving.lines), (ALARM, 1)]);
    let status = Status::Alarm(line_behind(moving.lines));
    for words in WORDS {
        let steps = steps_by(rt, alloc, words, moving.job, answers.as_slice(), status);
        assert!(rt; comes_to_rest(steps.as_slice()));
        let ticks = without_heads(rt, alloc, steps.as_slice());
        assert!(rt; is_front(ticks.as_slice(), moving.all));
        assert!(rt; ticks.as_slice().starts_with(moving.least));
        // In lockstep a move of ten millimetres is not over by then.
        let is_whole = ticks.len() == moving.all.len().saturating_add(2);
        assert!(rt; words.len() == 1 || !is_whole);
    }
}

#[test]
fn a_machine_that_runs_slows_down_to_rest(rt: HostRuntime) {
    let alloc = rt.alloc();
    let there = text_of(&rt, alloc, &[(b"X-\n", 2_500)]);
    let marked = text_of(&rt, alloc, &[(b"X-\n", 250), (b"M3 5\n", 1)]);
    let behind = text_of(
        &rt,
        alloc,
        &[(b"X-\n", 250), (b"M3 5\n", 1), (b"X-\n", 2_500)],
    );
    const ROWS: &[(&[u8], usize)] = &[
        // In the middle of a long move.
        (b"$20=1\nG0X-10\nX1\n", 2),
        (b"$20=1\nG0X-10\nY0.004", 2),
        // With lines behind it, and between them.
        (b"$20=1\nF500\nG1X-10\nX1\nX-10\nX0\n", 3),
        (b"$20=1\nG0X-10\n(empty)\n\nG91X11\n\n", 4),
        // Bytes that come while it slows down change nothing.
        (b"$20=1\nG0X-10\nX1\n!\n~\n", 2),
        (b"$20=1\nG0X-10\nX1!\n\x85\n", 2),
        (b"$20=1\nG0X-10\nX1\n!!~\x92\x95\x9a\n", 2),
    ];
    for &(job, lines) in ROWS {
        let moving = Moving {
            job,
            lines,
            least: b"",
            all: there.as_slice(),
        };
        expect_moving(&rt, alloc, &moving);
    }
    // What a line asks for that settles is whole.
    let moving = Moving {
        job: b"$20=1\nG0X-1\nM3S5\nX-11\nX1\n",
        lines: 4,
        least: marked.as_slice(),
        all: behind.as_slice(),
    };
    expect_moving(&rt, alloc, &moving);
}

#[test]
fn blocks_that_are_queued_are_dropped(rt: HostRuntime) {
    let alloc = rt.alloc();
    // As many as the plan has room for, or fewer, and then more than it has.
    for count in [1usize, 3, 7, 8, 20] {
        let job = text_of(
            &rt,
            alloc,
            &[
                (b"$20=1\nG1F500Z-1\nG4P0\n", 1),
                (b"X-0.4\nX0\n", count),
                (b"X-10\n", 1),
                (b"Z0.5\nX-1\n", 1),
            ],
        );
        let least = text_of(&rt, alloc, &[(b"Z-\n", 250), (b"D 0\n", 1)]);
        let mut all = text_of(&rt, alloc, &[(b"Z-\n", 250), (b"D 0\n", 1)]);
        for _ in 0..count {
            let both = text_of(&rt, alloc, &[(b"X-\n", 100), (b"X+\n", 100)]);
            all.extend_from_slice(both.as_slice()).expect(&rt, "memory");
        }
        let last = text_of(&rt, alloc, &[(b"X-\n", 2_500)]);
        all.extend_from_slice(last.as_slice()).expect(&rt, "memory");
        let moving = Moving {
            job: job.as_slice(),
            lines: count.saturating_mul(2).saturating_add(4),
            least: least.as_slice(),
            all: all.as_slice(),
        };
        expect_moving(&rt, alloc, &moving);
    }
}

#[test]
fn holes_are_whole_up_to_the_last_dwell(rt: HostRuntime) {
    let alloc = rt.alloc();
    // Each hole has a dwell at its ground. Behind the last the tool goes far away, and is then lifted too far.
    let hole = b"X-0.2\nG1Z-0.4F300\nG4P0\nG0Z0.4\n";
    let job = text_of(
        &rt,
        alloc,
        &[
            (b"$20=1\nG91G0Z-0.4\n", 1),
            (hole, 3),
            (b"X-10\nZ1\nX1\n", 1),
        ],
    );
    let (down, up) = (
        text_of(&rt, alloc, &[(b"Z-\n", 100)]),
        text_of(&rt, alloc, &[(b"Z+\n", 100)]),
    );
    let mut least = Vec::from_slice(alloc, down.as_slice()).expect(&rt, "memory");
    for _ in 0..3 {
        let to_ground = text_of(&rt, alloc, &[(b"X-\n", 50), (b"Z-\n", 100), (b"D 0\n", 1)]);
        if least.len() > 300 {
            least.extend_from_slice(up.as_slice()).expect(&rt, "memory");
        }
        least
            .extend_from_slice(to_ground.as_slice())
            .expect(&rt, "memory");
    }
    let away = text_of(&rt, alloc, &[(b"Z+\n", 100), (b"X-\n", 2_500)]);
    let mut all = Vec::from_slice(alloc, least.as_slice()).expect(&rt, "memory");
    all.extend_from_slice(away.as_slice()).expect(&rt, "memory");
    let moving = Moving {
        job: job.as_slice(),
        lines: 15,
        least: least.as_slice(),
        all: all.as_slice(),
    };
    expect_moving(&rt, alloc, &moving);
}

#[test]
fn what_ends_the_sending_behind_a_limit_is_found_or_not(rt: HostRuntime) {
    let alloc = rt.alloc();
    let long = text_of(&rt, alloc, &[(b"$20=1\nG0X1\nN", 1), (b"0", 127)]);
    // The host scans on until it has the alarm. A byte that waits for an answer has it scan no more.
    let rows: [(&[u8], Status, bool); 4] = [
        (long.as_slice(), Status::LongLine(3), true),
        (b"$20=1\nG0X1\n?\x18", Status::Alarm(2), false),
        (b"$20=1\nG0X1\n\x85\n\x18", Status::Alarm(2), false),
        (b"$20=1\nG0X1\n(\x18)\n;\x18", Status::Alarm(2), false),
    ];
    let whole = text_of(&rt, alloc, &[(b"ok\r\n", 1), (ALARM, 1)]);
    for (job, status, may_be) in rows {
        for words in WORDS {
            let left = left_by(&rt, alloc, words, job, 4096);
            assert!(rt; left.status == status || may_be && left.status == Status::Alarm(2));
            assert!(rt; left.steps.as_slice() == b"E\n".as_slice());
            assert!(rt; left.answers.as_slice() == whole.as_slice());
        }
    }
}

#[test]
fn reports_tell_of_a_limit_in_its_line_alone(rt: HostRuntime) {
    let alloc = rt.alloc();
    // The first report comes before the line is begun. No line behind it has one.
    let job = b"$20=1\nG0X-10\n??Y1\n?\n";
    for words in WORDS {
        let left = left_by(&rt, alloc, words, job, 4096);
        assert_eq!(rt; left.status, Status::Alarm(3));
        let mut count: usize = 0;
        for line in left.answers.as_slice().split(|byte| *byte == b'\n') {
            if !line.starts_with(b"<") {
                continue;
            }
            let moves = line.starts_with(b"<Run|") || line.starts_with(b"<Idle|");
            let stops = line.starts_with(b"<Hold:1|") || line.starts_with(b"<Alarm|");
            assert!(rt; moves || stops && count == 1);
            count = count.saturating_add(1);
        }
        assert!(rt; count == 1 || count == 2);
    }
}

#[test]
fn a_device_that_fails_is_told_before_a_limit(rt: HostRuntime) {
    let alloc = rt.alloc();
    let console = text_of(&rt, alloc, &[(BANNER, 1), (b"ok\r\n", 1), (ALARM, 1)]);
    for words in WORDS {
        let well = Run {
            words,
            job: b"$20=1\nG0X1\nX-1",
            piece: 4096,
            source_fails: &[],
            console_fails: &[],
            steps_fails: &[],
        };
        let run = Run {
            console_fails: &[1],
            ..well
        };
        expect(&rt, alloc, &run, b"", b"E\n", Status::ConsoleFault);
        let run = Run {
            steps_fails: &[1],
            ..well
        };
        expect(
            &rt,
            alloc,
            &run,
            console.as_slice(),
            b"",
            Status::StepsFault,
        );
    }
}
