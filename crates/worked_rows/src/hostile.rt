//! Damaged jobs, and devices of which one call fails.

use crate::realtime::WORDS;
use crate::runs::{BANNER, append_times, run_over, text_of, without_heads};
use grbl_app::Status;
use outside::{MemSink, MemSource};
use std::alloc::Global;
use std::process::Abort;
use std::sync::Wait;
use std::thread::Threads;

/// Which calls of each device fail.
#[derive(Clone, Copy, Default)]
struct Failing<'a> {
    source: &'a [u64],
    console: &'a [u64],
    steps: &'a [u64],
}

/// What a run leaves.
#[derive(Drop)]
struct Left {
    console: Vec<u8>,
    steps: Vec<u8>,
    status: Status,
}

/// Runs a job with reads of three bytes at most, and writes of so many.
fn run_job<R: Threads + Wait + Sync + Abort>(
    rt: &R,
    alloc: Global,
    words: &[&str],
    job: &[u8],
    piece: usize,
    failing: Failing,
) -> Left {
    let mut source = MemSource::new(job, 3, failing.source);
    let mut console = MemSink::short(alloc, 1_000, piece.max(1), failing.console).expect(
        rt, "memory",
    );
    let mut steps = MemSink::short(alloc, 100_000, piece.max(1), failing.steps).expect(
        rt, "memory",
    );
    let status = run_over(rt, alloc, words, &mut source, &mut console, &mut steps);
    Left {
        console: Vec::from_slice(alloc, console.held()).expect(rt, "memory"),
        steps: Vec::from_slice(alloc, steps.held()).expect(rt, "memory"),
        status,
    }
}

/// A short move.
const SHORT: &[u8] = b"G0X0.012Y0.008";

/// What the short move records.
const SHORT_STEPS: &[u8] =
    b"s 1 1 0 226895\nX+Y+\ns 1 1 115549 184898\nX+\ns 1 1 115549 226895\nX+Y+\nE\n";

/// The jobs of which each device's calls fail in turn: a short move, and a pocket.
const JOBS: [&[u8]; 2] = [
    SHORT,
    b"(Pocket 1)\nG90 G94 G17 G21\nM3 S1000\nG0 X5 Y5\nG1 Z-1 F200\nX10\nY10\nX5\nY5\nG0 Z5\nM5\nM30\n",
];

#[test]
fn a_call_that_fails_is_its_devices_fault(rt: HostRuntime) {
    let alloc = rt.alloc();
    for job in JOBS {
        for words in WORDS {
            let whole = run_job(&rt, alloc, words, job, 4, Failing::default());
            assert_eq!(rt; whole.status, Status::Done);
            let ticks = without_heads(&rt, alloc, whole.steps.as_slice());
            // No device is called a millionth time.
            for n in [1, 2, 3, 4, 5, 6, 1_000_000] {
                let fails: &[u64] = &[n];
                let made = n < 1_000_000;

                // A read: the lines before it are answered, and their events made.
                let run = run_job(
                    &rt,
                    alloc,
                    words,
                    job,
                    4,
                    Failing {
                        source: fails,
                        ..Failing::default()
                    },
                );
                assert_eq!(rt;
                    run.status,
                    if made {
                        Status::SourceFault
                    } else {
                        Status::Done
                    }
                );
                assert!(rt; whole.console.as_slice().starts_with(run.console.as_slice()));
                let front = without_heads(&rt, alloc, run.steps.as_slice());
                let front = front.as_slice().strip_suffix(b"E\n").expect(&rt, "an end");
                assert!(rt; ticks.as_slice().starts_with(front));

                // A write of the console: it holds what was written before, and all events are made.
                let run = run_job(
                    &rt,
                    alloc,
                    words,
                    job,
                    4,
                    Failing {
                        console: fails,
                        ..Failing::default()
                    },
                );
                assert_eq!(rt;
                    run.status,
                    if made {
                        Status::ConsoleFault
                    } else {
                        Status::Done
                    }
                );
                assert_eq!(rt; run.console.len() < whole.console.len(), made);
                assert!(rt; whole.console.as_slice().starts_with(run.console.as_slice()));
                assert!(rt;
                    without_heads(&rt, alloc, run.steps.as_slice()).as_slice() == ticks.as_slice()
                );

                // A write of the steps: they hold what was written before, and all lines are answered.
                let run = run_job(
                    &rt,
                    alloc,
                    words,
                    job,
                    4,
                    Failing {
                        steps: fails,
                        ..Failing::default()
                    },
                );
                assert_eq!(rt;
                    run.status,
                    if made {
                        Status::StepsFault
                    } else {
                        Status::Done
                    }
                );
                assert!(rt; run.console.as_slice() == whole.console.as_slice());
                // In threads heads may differ from run to run.
                if words.len() > 1 {
                    assert_eq!(rt; run.steps.len() < whole.steps.len(), made);
                    assert!(rt; whole.steps.as_slice().starts_with(run.steps.as_slice()));
                }
            }
        }
    }
}

#[test]
fn a_call_that_is_not_made_fails_nothing(rt: HostRuntime) {
    let alloc = rt.alloc();
    for words in WORDS {
        for n in [1, 2, 3, 4, 5, 6] {
            let fails: &[u64] = &[n];
            let run = run_job(
                &rt,
                alloc,
                words,
                SHORT,
                1_000,
                Failing {
                    steps: fails,
                    ..Failing::default()
                },
            );
            // The steps are one write.
            let (status, steps): (Status, &[u8]) = if n == 1 {
                (Status::StepsFault, b"")
            } else {
                (Status::Done, SHORT_STEPS)
            };
            assert_eq!(rt; run.status, status);
            assert!(rt; run.steps.as_slice() == steps);
        }
    }
}

#[test]
fn devices_that_take_a_byte_a_call_get_the_same_texts(rt: HostRuntime) {
    let alloc = rt.alloc();
    for job in JOBS {
        for words in WORDS {
            let once = run_job(&rt, alloc, words, job, 1_000_000, Failing::default());
            let each = run_job(&rt, alloc, words, job, 1, Failing::default());
            assert_eq!(rt; each.status, Status::Done);
            assert!(rt; each.console.as_slice() == once.console.as_slice());
            let ticks = without_heads(&rt, alloc, once.steps.as_slice());
            assert!(rt;
                without_heads(&rt, alloc, each.steps.as_slice()).as_slice() == ticks.as_slice()
            );
            if job == SHORT {
                assert!(rt; each.steps.as_slice() == SHORT_STEPS);
            }
        }
    }
}

#[test]
fn a_damaged_job_is_answered_line_by_line(rt: HostRuntime) {
    let alloc = rt.alloc();
    let there = text_of(&rt, alloc, &[(b"X+\n", 250), (b"E\n", 1)]);
    let long = text_of(
        &rt,
        alloc,
        &[(b"G0X1\n", 1), (b"N", 1), (b"0", 127), (b"\nG0X2\n", 1)],
    );
    let rows: [(&[u8], &[u8], &[u8], Status); 6] = [
        // A comment without an end.
        (b"(G0X1", b"ok\r\n", b"E\n", Status::Done),
        // A letter without a number.
        (b"G0X", b"error:2\r\n", b"E\n", Status::LineErrors(1)),
        // A CR ends no line.
        (
            b"G0X1\rG0X2",
            b"error:24\r\n",
            b"E\n",
            Status::LineErrors(1),
        ),
        // Bytes of a letter beyond ASCII.
        (b"G0X0.004\xc3\xa9", b"ok\r\n", b"X+\nE\n", Status::Done),
        // A NUL, and a blank that is none in ASCII.
        (b"G0\0X1\xa0", b"ok\r\n", there.as_slice(), Status::Done),
        // 128 kept bytes.
        (
            long.as_slice(),
            b"ok\r\n",
            there.as_slice(),
            Status::LongLine(2),
        ),
    ];
    for (job, answers, steps, status) in rows {
        let mut console = Vec::from_slice(alloc, BANNER).expect(&rt, "memory");
        append_times(&rt, &mut console, answers, 1);
        for words in WORDS {
            let run = run_job(&rt, alloc, words, job, 1_000, Failing::default());
            assert_eq!(rt; run.status, status);
            assert!(rt; run.console.as_slice() == console.as_slice());
            let ticks = without_heads(&rt, alloc, run.steps.as_slice());
            assert!(rt; ticks.as_slice() == steps);
        }
    }
}

#[test]
fn bytes_beyond_ascii_change_no_head(rt: HostRuntime) {
    let alloc = rt.alloc();
    for words in WORDS {
        let run = run_job(
            &rt,
            alloc,
            words,
            b"G0X0.004\xc3\xa9",
            1_000,
            Failing::default(),
        );
        assert!(rt; run.steps.as_slice() == b"s 1 1 0 320000\nX+\nE\n".as_slice());
    }
}

#[test]
fn a_flood_of_questions_is_answered_with_reports(rt: HostRuntime) {
    let alloc = rt.alloc();
    for words in WORDS {
        expect_flood(&rt, alloc, words);
    }
    expect_flood(&rt, alloc, &["stream", "--lockstep", "5"]);
}

/// Runs a flood of `?`: at least one is answered, and each answer is the report of a machine that stands at zero.
fn expect_flood<R: Threads + Wait + Sync + Abort>(rt: &R, alloc: Global, words: &[&str]) {
    let job = text_of(rt, alloc, &[(b"?", 4096), (b"\n", 1)]);
    let report: &[u8] =
        b"<Idle|MPos:0.000,0.000,0.000|FS:0,0|WCO:0.000,0.000,0.000|Ov:100,100,100>\r\n";
    let mut source = MemSource::new(job.as_slice(), 4096, &[]);
    let mut console = MemSink::new(alloc, 400_000, &[]).expect(rt, "memory");
    let mut steps = MemSink::new(alloc, 100, &[]).expect(rt, "memory");
    let status = run_over(rt, alloc, words, &mut source, &mut console, &mut steps);
    assert_eq!(rt; status, Status::Done);
    assert!(rt; steps.held() == b"E\n".as_slice());
    let rest = console.held().strip_prefix(BANNER).expect(rt, "a banner");
    let reports = rest.strip_suffix(b"ok\r\n").expect(rt, "an answer");
    assert!(rt; !reports.is_empty());
    assert!(rt; reports.len() <= report.len().saturating_mul(4096));
    for line in reports.split_inclusive(|byte| *byte == b'\n') {
        assert!(rt; line == report);
    }
}
