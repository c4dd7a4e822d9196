//! The texts of worked runs fit.

use crate::audits::audit_of;
use grbl_app::{Status, run_grbl};
use outside::{MemSink, MemSource, OpenGate};
use run_audit::Audit;
use std::alloc::Global;
use std::process::Abort;
use std::sync::Wait;
use std::thread::Threads;

/// The words of the runs: in lockstep by three numbers, one of them with steps in form 2, paced, and in threads.
const WORDS: [&[&str]; 5] = [
    &["stream", "--lockstep", "0"],
    &["stream", "--lockstep", "7", "--compact"],
    &["stream", "--lockstep", "18446744073709551615"],
    &["stream", "--paced"],
    &["stream"],
];

/// A run of a job over devices in memory. The proof of each function that calls `run_grbl` goes over all that it promises.
fn run_over<R: Threads + Wait + Sync + Abort>(
    rt: &R,
    alloc: Global,
    words: &[&str],
    job: &[u8],
    console: &mut MemSink,
    steps: &mut MemSink,
) -> Status {
    let mut source = MemSource::new(job, 7, &[]);
    run_grbl(rt, alloc, words, &mut source, console, steps, &OpenGate)
}

/// Runs jobs and audits what they leave: the texts of each run fit, and a run that leaves so many events has so many.
fn expect_fits<R: Threads + Wait + Sync + Abort>(rt: &R, alloc: Global, jobs: &[&[u8]]) {
    for job in jobs {
        for words in WORDS {
            let mut console = MemSink::new(alloc, 10_000, &[]).expect(rt, "memory");
            let mut steps = MemSink::new(alloc, 400_000, &[]).expect(rt, "memory");
            let status = run_over(rt, alloc, words, job, &mut console, &mut steps);
            assert!(rt; status != Status::ConsoleFault && status != Status::StepsFault);
            let (found, _said) = audit_of(alloc, job, console.held(), steps.held(), 100).expect(
                rt, "memory",
            );
            // Of steps in form 2 a line may be many events.
            let is_compact = words.contains(&"--compact");
            match found {
                Audit::Fits { events } => {
                    assert!(rt; is_compact || events == events_in(steps.held()));
                }
                _ => assert!(rt; false),
            }
        }
    }
}

/// How many lines of a step text in form 1 are events.
fn events_in(steps: &[u8]) -> u64 {
    let mut count: u64 = 0;
    for line in steps.split(|byte| *byte == b'\n') {
        let first = line.first().copied().unwrap_or(b' ');
        let second = line.get(1).copied().unwrap_or(b' ');
        if (b'X'..=b'Z').contains(&first) && (second == b'+' || second == b'-') {
            count = count.saturating_add(1);
        }
    }
    count
}

#[test]
fn moves_and_refused_lines_fit(rt: HostRuntime) {
    let jobs: [&[u8]; 12] = [
        b"",
        b"G0X0.004",
        b"G0X0.012Y0.008",
        b"G0X0.008Y0.004",
        b"G1X1",
        b"G2X1Y1I1J0",
        b"G0X0",
        b"G20\nG0X0.0001",
        b"g21(?!)\r\nG90\r\n",
        b"G1X1F100\n!\n~",
        b"G1X10F500\n\x92\x92\x92\x92\x92\x92\nG1X0",
        b"G1X1F100\nG4P0\n?",
    ];
    expect_fits(&rt, rt.alloc(), &jobs);
}

#[test]
fn long_lines_and_many_lines_fit(rt: HostRuntime) {
    let alloc = rt.alloc();
    for zeros in [78usize, 79, 126, 127] {
        let mut job = Vec::from_slice(alloc, b"N").expect(&rt, "memory");
        for _ in 0..zeros {
            job.push(b'0').expect(&rt, "memory");
        }
        expect_fits(&rt, alloc, &[job.as_slice()]);
    }
    let mut job = Vec::from_slice(alloc, b"(300 bytes of a comment ?!").expect(&rt, "memory");
    for _ in 0..274 {
        job.push(b' ').expect(&rt, "memory");
    }
    job.extend_from_slice(b")\r\n").expect(&rt, "memory");
    for _ in 0..40 {
        job.extend_from_slice(b"G1X1.000F10\n")
            .expect(&rt, "memory");
    }
    expect_fits(&rt, alloc, &[job.as_slice()]);
}

#[test]
fn jogs_and_limits_fit(rt: HostRuntime) {
    let jobs: [&[u8]; 11] = [
        b"$J=G91X10F500\n$J=G91X10F500\n\x85\nG90\nG0X0",
        b"$20=1\nG0X1",
        b"$20=1\nG0X-200",
        b"$20=1\nG0X-200.004",
        b"$20=1\nG1X-20F500\nX1\n!\nX2",
        b"$J=G91X0.012F500",
        b"$J=X1",
        b"$J=G1X1F10",
        b"$J=F10",
        b"$J",
        b"$20=1\n$J=X1F10",
    ];
    expect_fits(&rt, rt.alloc(), &jobs);
}

#[test]
fn marks_and_resets_fit(rt: HostRuntime) {
    let jobs: [&[u8]; 7] = [
        b"(Pocket 1)\nG90 G94 G17 G21\nM3 S1000\nG0 X5 Y5\nG1 Z-1 F200\nX10\nY10\nX5\nY5\nG0 Z5\nM5\nM30",
        b"G4",
        b"G0X100\n\x18",
        b"G10L2P1X1\nG92X5\nG4P0\n?\n\x18\n?",
        b"$$\n$#\n$G\nM3S500\nM0\nM9",
        b"G0X1\nG28.1\nG0X3\nG28X2",
        b"G0X100\n\x18$X\nG0X0",
    ];
    expect_fits(&rt, rt.alloc(), &jobs);
}
