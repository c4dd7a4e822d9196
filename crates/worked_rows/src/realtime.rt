//! Realtime bytes: holds, resumes, pauses and overrides. None of them changes an answer, an event or a mark.

use crate::runs::{BANNER, Run, append_times, expect, run_over, text_of};
use grbl_app::Status;
use outside::{MemSink, MemSource};
use std::alloc::Global;
use std::process::Abort;
use std::sync::Wait;
use std::thread::Threads;

/// The words of a run in threads, of runs in lockstep, and of a paced one.
pub(crate) const WORDS: [&[&str]; 5] = [
    &["stream"],
    &["stream", "--lockstep", "0"],
    &["stream", "--lockstep", "7"],
    &["stream", "--lockstep", "18446744073709551615"],
    &["stream", "--paced"],
];

/// How many heads a steps text has that begin at rest.
fn starts(text: &[u8]) -> usize {
    let mut count: usize = 0;
    for line in text.split(|byte| *byte == b'\n') {
        let mut fields = line.split(|byte| *byte == b' ');
        if fields.next() == Some(b"s") && fields.nth(2) == Some(b"0") {
            count = count.saturating_add(1);
        }
    }
    count
}

/// How many heads of a job's run begin at rest: how often the machine starts.
fn starts_of<R: Threads + Wait + Sync + Abort>(
    rt: &R,
    alloc: Global,
    words: &[&str],
    job: &[u8],
) -> usize {
    let mut source = MemSource::new(job, 4096, &[]);
    let mut console = MemSink::new(alloc, 10_000, &[]).expect(rt, "memory");
    let mut steps = MemSink::new(alloc, 200_000, &[]).expect(rt, "memory");
    let status = run_over(rt, alloc, words, &mut source, &mut console, &mut steps);
    assert_eq!(rt; status, Status::Done);
    starts(steps.held())
}

#[test]
fn realtime_bytes_change_no_answer_and_no_event(rt: HostRuntime) {
    let alloc = rt.alloc();
    let there = text_of(&rt, alloc, &[(b"X+\n", 250), (b"E\n", 1)]);
    let back = text_of(&rt, alloc, &[(b"X+\n", 250), (b"X-\n", 250), (b"E\n", 1)]);
    let none = text_of(&rt, alloc, &[(b"E\n", 1)]);
    let slow = text_of(&rt, alloc, &[(b"X+\n", 2500), (b"X-\n", 2500), (b"E\n", 1)]);
    let rows: [(&[u8], usize, &[u8]); 17] = [
        // A pause is over by the host's own resume, or by one of the job.
        (b"G0X1\nM0\nG0X0", 3, back.as_slice()),
        (b"G0X1\nM0\n~G0X0", 3, back.as_slice()),
        (b"G0X1\nM0\n~\n\nG0X0", 5, back.as_slice()),
        (b"M0\nM1\nM0", 3, none.as_slice()),
        // Holds, with their resumes or without, in a line and alone.
        (b"!\n", 1, none.as_slice()),
        (b"~\n", 1, none.as_slice()),
        (b"!G0X1", 1, there.as_slice()),
        (b"G0!X1~", 1, there.as_slice()),
        (b"G0X1\n!\nX0\n~", 4, back.as_slice()),
        (b"G0X1\n!~!\nX0\n!!!!", 4, back.as_slice()),
        (b"G1X1F100\n!\n~\n", 3, there.as_slice()),
        // Overrides.
        (
            b"\x91\x95G0X1\n\x96\n\x97\x9a\nX0\n\x90",
            5,
            back.as_slice(),
        ),
        (
            b"G1X10F500\n\x92\x92\x92\x92\x92\x92\nG1X0\n",
            3,
            slow.as_slice(),
        ),
        (b"F100\nG1X1\n\x92\x92\n\x94\n\x93X0", 5, back.as_slice()),
        // In a comment, and those without effect.
        (b"(!)G0X1;!\nX0(\x97)", 2, back.as_slice()),
        (b"G0X1\n\x85X0\n", 2, back.as_slice()),
        (b"\x84\xa0\xff\x98G0X1", 1, there.as_slice()),
    ];
    for (job, lines, steps) in rows {
        let mut console = Vec::from_slice(alloc, BANNER).expect(&rt, "memory");
        append_times(&rt, &mut console, b"ok\r\n", lines);
        for words in WORDS {
            let run = Run {
                words,
                job,
                piece: 5,
                source_fails: &[],
                console_fails: &[],
                steps_fails: &[],
            };
            expect(&rt, alloc, &run, console.as_slice(), steps, Status::Done);
        }
    }
}

/// A number in decimal digits.
fn number_of(digits: &[u8]) -> u64 {
    let mut number: u64 = 0;
    for digit in digits {
        number = number
            .saturating_mul(10)
            .saturating_add(digit.wrapping_sub(b'0') as u64);
    }
    number
}

/// The events and the squared speed of a head; None of another line.
pub(crate) fn head_of(line: &[u8]) -> Option<(u64, u64)> {
    let mut fields = line.split(|byte| *byte == b' ');
    if fields.next() != Some(b"s") {
        return None;
    }
    let events = fields.nth(1)?;
    let speed = fields.next()?;
    Some((number_of(events), number_of(speed)))
}

/// Whether the squared speed changes by no more than 80,000 for each event between two heads: as much as an axis with the
/// generic settings may speed up or slow down.
pub(crate) fn changes_gradually(steps: &[u8]) -> bool {
    let mut last: Option<(u64, u64)> = None;
    for line in steps.split(|byte| *byte == b'\n') {
        let Some((events, speed)) = head_of(line) else {
            continue;
        };
        let (passed, before) = last.unwrap_or((0, 0));
        let most = passed.saturating_mul(80_000);
        if speed > before.saturating_add(most) || before > speed.saturating_add(most) {
            return false;
        }
        last = Some((events, speed));
    }
    true
}

#[test]
fn overrides_change_no_speed_at_once(rt: HostRuntime) {
    let alloc = rt.alloc();
    for words in WORDS {
        let mut source = MemSource::new(b"G1X10F500\n\x92\x92\x92\x92\x92\x92\nG1X0\n", 4096, &[]);
        let mut console = MemSink::new(alloc, 1_000, &[]).expect(&rt, "memory");
        let mut steps = MemSink::new(alloc, 200_000, &[]).expect(&rt, "memory");
        let status = run_over(&rt, alloc, words, &mut source, &mut console, &mut steps);
        assert_eq!(rt; status, Status::Done);
        assert!(rt; changes_gradually(steps.held()));
    }
}

#[test]
fn a_hold_stops_the_machine_in_a_move(rt: HostRuntime) {
    let alloc = rt.alloc();
    // The move is started, and while it runs lines come that do nothing; then the machine is held. The host resumes it.
    let rows: [(&[u8], usize); 3] = [(b"\n", 1), (b"!\n", 2), (b"(!)\n", 1)];
    for (last, times) in rows {
        let mut job = Vec::from_slice(alloc, b"F500\nG1X10\n~\n").expect(&rt, "memory");
        append_times(&rt, &mut job, b"G21G90G94G54G17G40\n", 60);
        job.extend_from_slice(last).expect(&rt, "memory");
        for words in WORDS {
            let made = starts_of(&rt, alloc, words, job.as_slice());
            // In threads the move may be over before the hold comes.
            assert!(rt; made == times || words.len() == 1 && made == 1);
        }
    }
}
