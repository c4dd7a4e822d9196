//! Paced runs: what they leave is what any order leaves, and their plan is kept full; and the orders of two seeds.

use crate::jogs::left_by;
use crate::realtime::head_of;
use crate::runs::{Row, append_times, run_over, text_of};
use grbl_app::Status;
use outside::{MemSink, MemSource};
use std::alloc::Global;
use std::process::Abort;
use std::sync::Wait;
use std::thread::Threads;

const PACED: &[&str] = &["stream", "--paced"];

/// Runs a job paced, in pieces: what it leaves is what any order leaves.
fn expect_paced<R: Threads + Wait + Sync + Abort>(rt: &R, alloc: Global, row: &Row) {
    for piece in [1usize, 7, 4096] {
        assert!(rt; left_by(rt, alloc, PACED, row.job, piece).is(row));
    }
}

#[test]
fn paced_jobs_give_their_answers_and_their_events(rt: HostRuntime) {
    const ROWS: &[Row] = &[
        Row {
            job: b"",
            answers: b"",
            steps: b"E\n",
            status: Status::Done,
        },
        Row {
            job: b"G0X0.004",
            answers: b"ok\r\n",
            steps: b"X+\nE\n",
            status: Status::Done,
        },
        Row {
            job: b"G0X0.004\nM0\n!\nX0\n~G4P0\nM0\n",
            answers: b"ok\r\nok\r\nok\r\nok\r\nok\r\nok\r\n",
            steps: b"X+\nX-\nD 0\nE\n",
            status: Status::Done,
        },
        Row {
            job: b"$20=1\nG0X-0.004\nG4P0\nX0.004\nX0\n",
            answers: b"ok\r\nok\r\nok\r\nALARM:2\r\n[MSG:Reset to continue]\r\n",
            steps: b"X-\nD 0\nE\n",
            status: Status::Alarm(4),
        },
    ];
    for row in ROWS {
        expect_paced(&rt, rt.alloc(), row);
    }
}

/// Runs the pocket paced.
fn expect_pocket<R: Threads + Wait + Sync + Abort>(
    rt: &R,
    alloc: Global,
    job: &[u8],
    answers: &[u8],
    steps: &[u8],
) {
    let row = Row {
        job,
        answers,
        steps,
        status: Status::Done,
    };
    expect_paced(rt, alloc, &row);
}

#[test]
fn a_paced_pocket_is_cut_in_eight_thousand_events(rt: HostRuntime) {
    let alloc = rt.alloc();
    let job =
        b"(Pocket 1)\nG90 G94 G17 G21\nM3 S1000\nG0 X5 Y5\nG1 Z-1 F200\nX10\nY10\nX5\nY5\nG0 Z5\nM5\nM30\n";
    let answers = text_of(
        &rt,
        alloc,
        &[(b"ok\r\n", 11), (b"[MSG:Pgm End]\r\nok\r\n", 1)],
    );
    let steps = text_of(
        &rt,
        alloc,
        &[
            (b"M3 1000\n", 1),
            (b"X+Y+\n", 1250),
            (b"Z-\n", 250),
            (b"X+\n", 1250),
            (b"Y+\n", 1250),
            (b"X-\n", 1250),
            (b"Y-\n", 1250),
            (b"Z+\n", 1500),
            (b"M5 0\nE\n", 1),
        ],
    );
    expect_pocket(&rt, alloc, job, answers.as_slice(), steps.as_slice());
}

/// So many moves of one step.
const SHORT_MOVES: usize = 100;

/// The squared speed at which a move of one step begins where the plan is full: behind so many moves and before so many more, by
/// 80,000 a move, and 1,000,000 at the feed.
fn full_speed(behind: u64, ahead: u64) -> u64 {
    behind.min(ahead).saturating_mul(80_000).min(1_000_000)
}

/// Whether each of the moves begins as fast as a full plan lets it.
fn is_full(steps: &[u8], moves: usize) -> bool {
    let mut done: u64 = 0;
    for line in steps.split(|byte| *byte == b'\n') {
        let Some((_, speed)) = head_of(line) else {
            continue;
        };
        let left = (moves as u64).saturating_sub(done);
        if speed != full_speed(done, left) {
            return false;
        }
        done = done.saturating_add(1);
    }
    done == moves as u64
}

/// The steps of a job of short moves, with their heads.
fn steps_of<R: Threads + Wait + Sync + Abort>(
    rt: &R,
    alloc: Global,
    words: &[&str],
    piece: usize,
) -> Vec<u8> {
    let mut job = text_of(rt, alloc, &[(b"G1G91F60\n", 1)]);
    append_times(rt, &mut job, b"X0.004\n", SHORT_MOVES);
    let mut source = MemSource::new(job.as_slice(), piece.max(1), &[]);
    let mut console = MemSink::new(alloc, 1_000, &[]).expect(rt, "memory");
    let mut steps = MemSink::new(alloc, 20_000, &[]).expect(rt, "memory");
    let status = run_over(rt, alloc, words, &mut source, &mut console, &mut steps);
    assert_eq!(rt; status, Status::Done);
    Vec::from_slice(alloc, steps.held()).expect(rt, "memory")
}

#[test]
fn paced_moves_are_run_with_a_full_plan(rt: HostRuntime) {
    let alloc = rt.alloc();
    // Of shorter pieces, the first moves start as soon as no more is there, each from rest.
    for piece in [300usize, 4096] {
        let steps = steps_of(&rt, alloc, PACED, piece);
        assert!(rt; is_full(steps.as_slice(), SHORT_MOVES));
    }
    // By a seed the plan runs short.
    let steps = steps_of(&rt, alloc, &["stream", "--lockstep", "0"], 4096);
    assert!(rt; !is_full(steps.as_slice(), SHORT_MOVES));
}

#[test]
fn two_seeds_give_two_orders(rt: HostRuntime) {
    let alloc = rt.alloc();
    let first = steps_of(&rt, alloc, &["stream", "--lockstep", "0"], 4096);
    let again = steps_of(&rt, alloc, &["stream", "--lockstep", "0"], 4096);
    let other = steps_of(&rt, alloc, &["stream", "--lockstep", "7"], 4096);
    assert!(rt; first.as_slice() == again.as_slice());
    assert!(rt; first.as_slice() != other.as_slice());
}

#[test]
fn asks_until_the_machine_stands(rt: HostRuntime) {
    let alloc = rt.alloc();
    // Each read gives one `?`: the motion goes on behind each fourth.
    let mut job = text_of(&rt, alloc, &[(b"$J=G91X0.040F500\n", 1)]);
    append_times(&rt, &mut job, b"?", 80);
    append_times(&rt, &mut job, b"\nG0X0\n", 1);
    let left = left_by(&rt, alloc, PACED, job.as_slice(), 1);
    assert_eq!(rt; left.status, Status::Done);
    assert!(rt; left.answers.as_slice().ends_with(b"0>\r\nok\r\nok\r\n"));
}
