//! Runs in which a device fails.

use crate::realtime::WORDS;
use crate::runs::{BANNER, Run, expect, plain_run, text_of};
use grbl_app::Status;
use std::alloc::Global;
use std::process::Abort;

/// The banner, and `ok` so many times.
fn oks<R: Abort>(rt: &R, alloc: Global, count: usize) -> Vec<u8> {
    text_of(rt, alloc, &[(BANNER, 1), (b"ok\r\n", count)])
}

#[test]
fn a_console_that_fails_at_once_keeps_no_event_back(rt: HostRuntime) {
    let alloc = rt.alloc();
    let steps = text_of(&rt, alloc, &[(b"X+\n", 2500), (b"E\n", 1)]);
    for words in WORDS {
        let run = Run {
            words,
            console_fails: &[1],
            ..plain_run(b"G0X10")
        };
        expect(
            &rt,
            alloc,
            &run,
            b"",
            steps.as_slice(),
            Status::ConsoleFault,
        );
    }
}

#[test]
fn steps_that_fail_at_once_keep_no_answer_back(rt: HostRuntime) {
    let alloc = rt.alloc();
    let run = Run {
        steps_fails: &[1],
        ..plain_run(b"G0X10\nX1\n$X")
    };
    let console = oks(&rt, alloc, 3);
    expect(
        &rt,
        alloc,
        &run,
        console.as_slice(),
        b"",
        Status::StepsFault,
    );
}

#[test]
fn lines_before_a_failed_read_are_answered_and_made(rt: HostRuntime) {
    let alloc = rt.alloc();
    let job = text_of(&rt, alloc, &[(b"G0X1\n", 8)]);
    let console = oks(&rt, alloc, 8);
    let steps = text_of(&rt, alloc, &[(b"X+\n", 250), (b"E\n", 1)]);
    for words in WORDS {
        let run = Run {
            words,
            piece: 8,
            source_fails: &[6],
            ..plain_run(job.as_slice())
        };
        expect(
            &rt,
            alloc,
            &run,
            console.as_slice(),
            steps.as_slice(),
            Status::SourceFault,
        );
    }
}

#[test]
fn what_is_told_of_several_causes_is_the_first(rt: HostRuntime) {
    let alloc = rt.alloc();
    let bad = Run {
        piece: 8,
        ..plain_run(b"G1X1\nG0X0\nX")
    };
    let all = text_of(
        &rt,
        alloc,
        &[(BANNER, 1), (b"error:22\r\nok\r\nerror:2\r\n", 1)],
    );
    let front = text_of(&rt, alloc, &[(BANNER, 1), (b"error:22\r\n", 1)]);
    // Two refused lines; and then a read that fails behind the first of them.
    expect(
        &rt,
        alloc,
        &bad,
        all.as_slice(),
        b"E\n",
        Status::LineErrors(2),
    );
    let run = Run {
        source_fails: &[2],
        ..bad
    };
    expect(
        &rt,
        alloc,
        &run,
        front.as_slice(),
        b"E\n",
        Status::SourceFault,
    );
    let run = Run {
        console_fails: &[1],
        ..run
    };
    expect(&rt, alloc, &run, b"", b"E\n", Status::ConsoleFault);
}
