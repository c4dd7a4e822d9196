//! Runs in memory, and what is compared.

use crate::realtime::WORDS;
use grbl_app::{Status, run_grbl};
use outside::{MemSink, MemSource, OpenGate};
use std::alloc::Global;
use std::process::Abort;
use std::sync::Wait;
use std::thread::Threads;

/// A job, and what its run must give: the console behind the banner, the steps, and the status.
#[derive(Clone, Copy)]
pub(crate) struct Row<'a> {
    pub(crate) job: &'a [u8],
    pub(crate) answers: &'a [u8],
    pub(crate) steps: &'a [u8],
    pub(crate) status: Status,
}

/// A run in memory: the words, the job, how many bytes a read gives, and which calls fail.
#[derive(Clone, Copy)]
pub(crate) struct Run<'a> {
    pub(crate) words: &'a [&'a str],
    pub(crate) job: &'a [u8],
    pub(crate) piece: usize,
    pub(crate) source_fails: &'a [u64],
    pub(crate) console_fails: &'a [u64],
    pub(crate) steps_fails: &'a [u64],
}

/// What the console of every run begins with.
pub(crate) const BANNER: &[u8] = b"\r\nGrbl 1.1h ['$' for help]\r\n";

/// A steps text without the heads of its segments.
pub(crate) fn without_heads<R: Abort>(rt: &R, alloc: Global, text: &[u8]) -> Vec<u8> {
    let mut rest = Vec::new(alloc);
    for line in text.split_inclusive(|byte| *byte == b'\n') {
        if line.first() != Some(&b's') {
            rest.extend_from_slice(line).expect(rt, "memory");
        }
    }
    rest
}

/// Runs over devices in memory, with an open gate. Most rows call `run_grbl` by this, since the proof of each function that calls it
/// goes over all that it promises.
pub(crate) fn run_over<R: Threads + Wait + Sync + Abort>(
    rt: &R,
    alloc: Global,
    words: &[&str],
    source: &mut MemSource,
    console: &mut MemSink,
    steps: &mut MemSink,
) -> Status {
    run_grbl(rt, alloc, words, source, console, steps, &OpenGate)
}

/// Makes a run, and compares what the sinks hold, but for heads, and the status.
pub(crate) fn expect<R: Threads + Wait + Sync + Abort>(
    rt: &R,
    alloc: Global,
    run: &Run,
    console: &[u8],
    steps: &[u8],
    status: Status,
) {
    let mut source = MemSource::new(run.job, run.piece.max(1), run.source_fails);
    let mut out = MemSink::new(alloc, 200_000, run.console_fails).expect(rt, "memory");
    let mut recorder = MemSink::new(alloc, 200_000, run.steps_fails).expect(rt, "memory");
    let got = run_over(rt, alloc, run.words, &mut source, &mut out, &mut recorder);
    assert_eq!(rt; got, status);
    assert!(rt; out.held() == console);
    assert!(rt; without_heads(rt, alloc, recorder.held()).as_slice() == steps);
}

/// Runs a row's job in pieces of seven bytes, in threads, in lockstep and paced.
pub(crate) fn expect_row<R: Threads + Wait + Sync + Abort>(rt: &R, alloc: Global, row: &Row) {
    let console = text_of(rt, alloc, &[(BANNER, 1), (row.answers, 1)]);
    for words in WORDS {
        let run = Run {
            words,
            ..plain_run(row.job)
        };
        expect(rt, alloc, &run, console.as_slice(), row.steps, row.status);
    }
}

/// A run in pieces of seven bytes in which nothing fails.
pub(crate) fn plain_run<'a>(job: &'a [u8]) -> Run<'a> {
    Run {
        words: &["stream"],
        job,
        piece: 7,
        source_fails: &[],
        console_fails: &[],
        steps_fails: &[],
    }
}

/// Appends a piece so many times.
pub(crate) fn append_times<R: Abort>(rt: &R, text: &mut Vec<u8>, piece: &[u8], count: usize) {
    for _ in 0..count {
        text.extend_from_slice(piece).expect(rt, "memory");
    }
}

/// The text in which each piece stands so many times, one after another.
pub(crate) fn text_of<R: Abort>(rt: &R, alloc: Global, pieces: &[(&[u8], usize)]) -> Vec<u8> {
    let mut text = Vec::new(alloc);
    for &(piece, count) in pieces {
        append_times(rt, &mut text, piece, count);
    }
    text
}

/// Runs jobs that record nothing but the end, each with its answers, and with so many refused lines.
pub(crate) fn expect_answers<R: Threads + Wait + Sync + Abort>(
    rt: &R,
    alloc: Global,
    rows: &[(&[u8], &[u8])],
    status: Status,
) {
    for &(job, answers) in rows {
        let row = Row {
            job,
            answers,
            steps: b"E\n",
            status,
        };
        expect_row(rt, alloc, &row);
    }
}

/// Runs jobs of accepted lines, each with its answers and its steps.
pub(crate) fn expect_done<R: Threads + Wait + Sync + Abort>(
    rt: &R,
    alloc: Global,
    rows: &[(&[u8], &[u8], &[u8])],
) {
    for &(job, answers, steps) in rows {
        let row = Row {
            job,
            answers,
            steps,
            status: Status::Done,
        };
        expect_row(rt, alloc, &row);
    }
}
