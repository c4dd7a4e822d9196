//! Runs by subticks: the texts are those of the same runs event by event, and `pins` counts.

use crate::runs::run_over;
use grbl_app::Status;
use outside::{MemSink, MemSource};
use std::alloc::Global;
use std::process::Abort;
use std::sync::Wait;
use std::thread::Threads;

/// The words of smooth runs: in threads, in lockstep, paced and wide, with the flag before and behind.
const SMOOTH: [&[&str]; 5] = [
    &["stream", "--smooth"],
    &["stream", "--smooth", "--lockstep", "7"],
    &["stream", "--lockstep=18446744073709551615", "--smooth"],
    &["stream", "--paced", "--smooth"],
    &["stream", "--smooth", "--paced", "--wide"],
];

/// A run of a job: its status, its console, and what its steps hold.
fn run_of<R: Threads + Wait + Sync + Abort>(
    rt: &R,
    alloc: Global,
    words: &[&str],
    job: &[u8],
) -> (Status, Vec<u8>, Vec<u8>) {
    let mut source = MemSource::new(job, 7, &[]);
    let mut console = MemSink::new(alloc, 1_000, &[]).expect(rt, "memory");
    let mut steps = MemSink::new(alloc, 60_000, &[]).expect(rt, "memory");
    let status = run_over(rt, alloc, words, &mut source, &mut console, &mut steps);
    let told = Vec::from_slice(alloc, console.held()).expect(rt, "memory");
    let text = Vec::from_slice(alloc, steps.held()).expect(rt, "memory");
    (status, told, text)
}

/// A number in digits, up to some nine of them.
fn number_of(digits: &[u8]) -> u64 {
    let mut number: u64 = 0;
    for digit in digits {
        number = number
            .saturating_mul(10)
            .saturating_add(digit.saturating_sub(b'0') as u64);
    }
    number
}

/// How many subticks an event has at a pace.
fn subticks_at(cycles: u64) -> u64 {
    match cycles {
        0..2_000 => 1,
        2_000..4_000 => 2,
        4_000..8_000 => 4,
        _ => 8,
    }
}

/// The subticks of a head, by its line of a steps text, and none of another line.
fn subticks_of(line: &[u8]) -> u64 {
    let mut fields = line.split(|byte| *byte == b' ');
    let (Some(b"s"), Some(_), Some(n), Some(_), Some(cycles)) = (
        fields.next(),
        fields.next(),
        fields.next(),
        fields.next(),
        fields.next(),
    ) else {
        return 0;
    };
    number_of(n).saturating_mul(subticks_at(number_of(cycles)))
}

/// The sum over the heads of a steps text.
fn subticks_in(steps: &[u8]) -> u64 {
    let mut total: u64 = 0;
    for line in steps.split(|byte| *byte == b'\n') {
        total = total.saturating_add(subticks_of(line));
    }
    total
}

#[test]
fn smooth_runs_have_the_same_texts(rt: HostRuntime) {
    let alloc = rt.alloc();
    const ROWS: &[(&[u8], &[u8])] = &[
        (b"", b"E\n"),
        (b"G0X0.004", b"s 1 1 0 320000\nX+\nE\n"),
        (
            b"G0X0.012Y0.008",
            b"s 1 1 0 226895\nX+Y+\ns 1 1 115549 184898\nX+\ns 1 1 115549 226895\nX+Y+\nE\n",
        ),
        (
            b"G0X0.008Y0.004",
            b"s 1 1 0 226431\nX+\ns 1 1 99993 226431\nX+Y+\nE\n",
        ),
        (b"M3S7\nG4P0.2\nM5", b"M3 7\nD 200\nM5 0\nE\n"),
    ];
    for words in SMOOTH {
        for &(job, wanted) in ROWS {
            let (status, _, steps) = run_of(&rt, alloc, words, job);
            assert_eq!(rt; status, Status::Done);
            assert_eq!(rt; steps.as_slice(), wanted);
        }
    }
}

#[test]
fn a_flag_changes_no_text(rt: HostRuntime) {
    let alloc = rt.alloc();
    let job =
        b"G1F600X1\nX0Y0.4\nM3S20\nG0X0.5Y0.25Z0.1\nZ0\nG4P0.1\n\x18G0X0.3Y0\n$J=G91X2F100\n\x85X0";
    for (plain, smooth) in [
        (
            ["stream", "--lockstep=7"].as_slice(),
            ["stream", "--lockstep=7", "--smooth"].as_slice(),
        ),
        (
            ["stream", "--paced", "--compact"].as_slice(),
            ["stream", "--smooth", "--paced", "--compact"].as_slice(),
        ),
    ] {
        let (status, console, steps) = run_of(&rt, alloc, plain, job);
        let other = run_of(&rt, alloc, smooth, job);
        assert!(rt; other.0 == status);
        assert!(rt; other.1.as_slice() == console.as_slice());
        assert!(rt; other.2.as_slice() == steps.as_slice());
    }
}

/// The line on a run of `pins N` tells the sum over the heads of its steps, which are those of `demo N`.
fn expect_pins<R: Threads + Wait + Sync + Abort>(rt: &R, alloc: Global, moves: &str, place: &str) {
    let (_, _, wanted) = run_of(rt, alloc, &["demo", moves], b"");
    let (status, console, steps) = run_of(rt, alloc, &["pins", moves], b"");
    assert_eq!(rt; status, Status::Done);
    assert!(rt; steps.as_slice() == wanted.as_slice());
    let subticks = subticks_in(steps.as_slice());
    let line = format!(in alloc; "pins {moves} words {subticks} at {place}\n").expect(rt, "memory");
    assert!(rt; subticks > 0 && console.as_slice() == line.as_bytes());
}

#[test]
fn pins_are_counted(rt: HostRuntime) {
    let alloc = rt.alloc();
    for (moves, place) in [
        ("1", "0.700,1.100,0.000"),
        ("3", "2.100,0.300,0.000"),
        ("8", "0.600,2.800,0.000"),
    ] {
        expect_pins(&rt, alloc, moves, place);
    }
}

#[test]
fn wrong_words_of_pins_are_usage(rt: HostRuntime) {
    let alloc = rt.alloc();
    const ROWS: &[&[&str]] = &[
        &["pins"],
        &["pins", "0"],
        &["pins", "100001"],
        &["pins", "1", "--smooth"],
        &["demo", "1", "--smooth"],
        &["stream", "--smooth", "--smooth"],
    ];
    for &words in ROWS {
        let (status, console, steps) = run_of(&rt, alloc, words, b"G0X1");
        assert_eq!(rt; status, Status::Usage);
        assert!(rt; console.is_empty() && steps.is_empty());
    }
}
