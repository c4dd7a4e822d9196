//! Steps in form 2: the text of a run with `--compact`, beside that of the same run without.

use crate::runs::run_over;
use grbl_app::Status;
use outside::{MemSink, MemSource};
use std::alloc::Global;
use std::process::Abort;
use std::sync::Wait;
use std::thread::Threads;

/// The words of compact runs: in threads, in lockstep and paced, with the flag before and behind.
const COMPACT: [&[&str]; 5] = [
    &["stream", "--compact"],
    &["stream", "--compact", "--lockstep", "7"],
    &["stream", "--lockstep=18446744073709551615", "--compact"],
    &["stream", "--compact", "--paced"],
    &["stream", "--paced", "--compact"],
];

/// A run of a job: its status, and what its steps hold.
fn run_of<R: Threads + Wait + Sync + Abort>(
    rt: &R,
    alloc: Global,
    words: &[&str],
    job: &[u8],
    steps_fails: &[u64],
) -> (Status, Vec<u8>) {
    let mut source = MemSource::new(job, 7, &[]);
    let mut console = MemSink::new(alloc, 1_000, &[]).expect(rt, "memory");
    let mut steps = MemSink::new(alloc, 60_000, steps_fails).expect(rt, "memory");
    let status = run_over(rt, alloc, words, &mut source, &mut console, &mut steps);
    let text = Vec::from_slice(alloc, steps.held()).expect(rt, "memory");
    (status, text)
}

/// The text in form 1 of the records of a text in form 2, whose lines are no longer than `R 99999` and an event.
fn in_form_one<R: Abort>(rt: &R, alloc: Global, text: &[u8]) -> Vec<u8> {
    let mut out = Vec::new(alloc);
    for line in text.split_inclusive(|byte| *byte == b'\n').skip(1) {
        let mut fields = line.split(|byte| *byte == b' ');
        let (Some(b"R"), Some(digits), Some(event)) = (fields.next(), fields.next(), fields.next())
        else {
            out.extend_from_slice(line).expect(rt, "memory");
            continue;
        };
        let mut count: usize = 0;
        for digit in digits {
            count = count
                .saturating_mul(10)
                .saturating_add(digit.saturating_sub(b'0') as usize);
        }
        for _ in 0..count.min(99_999) {
            out.extend_from_slice(event).expect(rt, "memory");
        }
    }
    out
}

#[test]
fn compact_steps_have_their_version_and_their_runs(rt: HostRuntime) {
    let alloc = rt.alloc();
    const ROWS: &[(&[u8], &[u8])] = &[
        (b"", b"V 2\nE\n"),
        (b"G0X0.004", b"V 2\ns 1 1 0 320000\nX+\nE\n"),
        (b"M3S7\nG4P0.2\nM5", b"V 2\nM3 7\nD 200\nM5 0\nE\n"),
        // A head parts equal events.
        (
            b"G0X0.004\nM8\nX0.008",
            b"V 2\ns 1 1 0 320000\nX+\nM8 0\ns 3 1 0 320000\nX+\nE\n",
        ),
    ];
    for words in COMPACT {
        for &(job, wanted) in ROWS {
            let (status, steps) = run_of(&rt, alloc, words, job, &[]);
            assert_eq!(rt; status, Status::Done);
            assert_eq!(rt; steps.as_slice(), wanted);
        }
    }
}

#[test]
fn compact_steps_are_of_the_same_records(rt: HostRuntime) {
    let alloc = rt.alloc();
    let job = b"G1F600X1\nX0Y0.4\nM3S20\nG0X0.5Y0.25Z0.1\nZ0\nG4P0.1\nX0Y0";
    for (plain, compact) in [
        (
            ["stream", "--lockstep=7"].as_slice(),
            ["stream", "--lockstep=7", "--compact"].as_slice(),
        ),
        (
            ["stream", "--paced"].as_slice(),
            ["stream", "--compact", "--paced"].as_slice(),
        ),
    ] {
        let (_, whole) = run_of(&rt, alloc, plain, job, &[]);
        let (status, steps) = run_of(&rt, alloc, compact, job, &[]);
        assert_eq!(rt; status, Status::Done);
        assert!(rt; steps.starts_with(b"V 2\n") && steps.len() < whole.len());
        assert!(rt; in_form_one(&rt, alloc, steps.as_slice()).as_slice() == whole.as_slice());
    }
}

#[test]
fn compact_steps_that_fail_are_a_front_of_the_text(rt: HostRuntime) {
    let alloc = rt.alloc();
    // Events of two kinds by turns, of which no two stand together.
    let job = b"G0X4Y2\nX0Y0";
    let words = &["stream", "--compact", "--paced"];
    let (_, whole) = run_of(&rt, alloc, words, job, &[]);
    assert!(rt; whole.len() > 8_192);
    // The first three calls of the sink, one each time.
    for fails in 1..4u64 {
        let (status, front) = run_of(&rt, alloc, words, job, &[fails]);
        assert_eq!(rt; status, Status::StepsFault);
        assert!(rt; whole.starts_with(front.as_slice()) && front.len() < whole.len());
    }
}

#[test]
fn the_demo_is_in_form_one(rt: HostRuntime) {
    let alloc = rt.alloc();
    let (status, steps) = run_of(&rt, alloc, &["demo", "1"], b"", &[]);
    assert_eq!(rt; status, Status::Done);
    assert!(rt; steps.starts_with(b"s "));
    for words in [
        ["demo", "1", "--compact"].as_slice(),
        ["stream", "--compact", "--compact"].as_slice(),
    ] {
        let (status, steps) = run_of(&rt, alloc, words, b"", &[]);
        assert_eq!(rt; status, Status::Usage);
        assert!(rt; steps.is_empty());
    }
}
