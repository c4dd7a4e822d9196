//! Whole runs over a source and sinks in memory.

use crate::realtime::WORDS;
use crate::runs::{BANNER, Row, Run, expect, expect_row, run_over, text_of, without_heads};
use grbl_app::Status;
use outside::{MemSink, MemSource};

#[test]
fn jobs_give_their_answers_and_their_events(rt: HostRuntime) {
    const ROWS: &[Row] = &[
        Row {
            job: b"",
            answers: b"",
            steps: b"E\n",
            status: Status::Done,
        },
        Row {
            job: b"G0X0.004",
            answers: b"ok\r\n",
            steps: b"X+\nE\n",
            status: Status::Done,
        },
        Row {
            job: b"G1X0.004F100",
            answers: b"ok\r\n",
            steps: b"X+\nE\n",
            status: Status::Done,
        },
        Row {
            job: b"G0X0.004\nX0",
            answers: b"ok\r\nok\r\n",
            steps: b"X+\nX-\nE\n",
            status: Status::Done,
        },
        Row {
            job: b"G0X0.012Y0.008",
            answers: b"ok\r\n",
            steps: b"X+Y+\nX+\nX+Y+\nE\n",
            status: Status::Done,
        },
        Row {
            job: b"G0X0.008Y0.004",
            answers: b"ok\r\n",
            steps: b"X+\nX+Y+\nE\n",
            status: Status::Done,
        },
        Row {
            job: b"G1X1",
            answers: b"error:22\r\n",
            steps: b"E\n",
            status: Status::LineErrors(1),
        },
        Row {
            job: b"G2X1Y1I1J0",
            answers: b"error:20\r\n",
            steps: b"E\n",
            status: Status::LineErrors(1),
        },
        Row {
            job: b"G0X0",
            answers: b"ok\r\n",
            steps: b"E\n",
            status: Status::Done,
        },
        // A refused line changes neither the mode nor the position.
        Row {
            job: b"G1\nX0.004\nG0\n\nX0.004\n",
            answers: b"error:22\r\nok\r\nok\r\nok\r\nok\r\n",
            steps: b"X+\nE\n",
            status: Status::LineErrors(1),
        },
        Row {
            job: b"G1X0.004F100\nG0X0.012F-1\nX0",
            answers: b"ok\r\nerror:4\r\nok\r\n",
            steps: b"X+\nX-\nE\n",
            status: Status::LineErrors(1),
        },
        // A move starts at the steps that were made: 0.006 mm is 1.5 steps, rounded to 2.
        Row {
            job: b"G0X0.006\nX0.014",
            answers: b"ok\r\nok\r\n",
            steps: b"X+\nX+\nX+\nX+\nE\n",
            status: Status::Done,
        },
        // Comments, blanks, small letters, realtime bytes, CR LF.
        Row {
            job: b"g0 x0.0(in ?! 1)04 ; out !\r\n/y-.004~\r\n\x85X0\n",
            answers: b"ok\r\nok\r\nok\r\n",
            steps: b"X+\nY-\nX-\nE\n",
            status: Status::Done,
        },
        Row {
            job: b"X10000.001\nG0X-10000.0001\nG0G0\nN1\nG\n1X\nG0.5",
            answers: b"error:33\r\nerror:33\r\nerror:24\r\nok\r\nerror:2\r\nerror:1\r\nerror:23\r\n",
            steps: b"E\n",
            status: Status::LineErrors(6),
        },
    ];
    for row in ROWS {
        expect_row(&rt, rt.alloc(), row);
    }
}

#[test]
fn seventy_nine_kept_bytes_are_a_line_and_eighty_are_not(rt: HostRuntime) {
    let zeros = [b'0'; 79];
    for (count, answers, status) in [
        (78usize, b"ok\r\n".as_slice(), Status::Done),
        (79, b"error:11\r\n", Status::LineErrors(1)),
    ] {
        let mut job = Vec::from_slice(rt.alloc(), b"( a comment is not kept ) F").expect(
            &rt, "memory",
        );
        job.extend_from_slice(&zeros[..count]).expect(&rt, "memory");
        expect_row(
            &rt,
            rt.alloc(),
            &Row {
                job: job.as_slice(),
                answers,
                steps: b"E\n",
                status,
            },
        );
    }
}

#[test]
fn other_words_than_stream_touch_nothing(rt: HostRuntime) {
    let lists: [&[&str]; 4] = [&[], &["stream", "x"], &["--help"], &["strea"]];
    for words in lists {
        let run = Run {
            words,
            job: b"G0X1\n",
            piece: 7,
            source_fails: &[],
            console_fails: &[],
            steps_fails: &[],
        };
        expect(&rt, rt.alloc(), &run, b"", b"", Status::Usage);
    }
}

/// The events of the move to 0.004 mm and back, line by line.
const THERE_AND_BACK: &[u8] = b"G0X0.004\nX0\nX0.004";

#[test]
fn a_device_that_fails_is_told_and_the_others_go_on(rt: HostRuntime) {
    let all = b"\r\nGrbl 1.1h ['$' for help]\r\nok\r\nok\r\nok\r\n";
    let well = Run {
        words: &["stream"],
        job: THERE_AND_BACK,
        piece: 4096,
        source_fails: &[],
        console_fails: &[],
        steps_fails: &[],
    };
    let alloc = rt.alloc();
    // The first read fails: no line is answered.
    let run = Run {
        source_fails: &[1],
        ..well
    };
    expect(&rt, alloc, &run, BANNER, b"E\n", Status::SourceFault);
    // The second read fails: the line that an LF ended is answered, the rest is not.
    let run = Run {
        source_fails: &[2],
        piece: 10,
        ..well
    };
    let one = b"\r\nGrbl 1.1h ['$' for help]\r\nok\r\n";
    expect(&rt, alloc, &run, one, b"X+\nE\n", Status::SourceFault);
    // The console fails at its first write, the steps at theirs, and both.
    let run = Run {
        console_fails: &[1],
        ..well
    };
    expect(
        &rt,
        alloc,
        &run,
        b"",
        b"X+\nX-\nX+\nE\n",
        Status::ConsoleFault,
    );
    let run = Run {
        steps_fails: &[1],
        ..well
    };
    expect(&rt, alloc, &run, all, b"", Status::StepsFault);
    let run = Run {
        steps_fails: &[1],
        console_fails: &[1],
        source_fails: &[2],
        ..well
    };
    expect(&rt, alloc, &run, b"", b"", Status::StepsFault);
}

#[test]
fn steps_that_fail_in_mid_stream_hold_a_front_of_their_text(rt: HostRuntime) {
    let alloc = rt.alloc();
    let answered = text_of(&rt, alloc, &[(BANNER, 1), (b"ok\r\n", 1)]);
    for words in WORDS {
        let mut source = MemSource::new(b"G0X10", 7, &[]);
        let mut console = MemSink::new(alloc, 100, &[]).expect(&rt, "memory");
        let mut steps = MemSink::new(alloc, 10_000, &[2]).expect(&rt, "memory");
        let status = run_over(&rt, alloc, words, &mut source, &mut console, &mut steps);
        assert_eq!(rt; status, Status::StepsFault);
        assert!(rt; console.held() == answered.as_slice());
        // The first write comes once fewer than 192 of 4,096 bytes are free.
        let held = steps.held().len();
        assert!(rt; held > 3_904 && held <= 4_096);
        let events = without_heads(&rt, alloc, steps.held());
        assert!(rt;
            events
                .as_slice()
                .chunks(3)
                .all(|event| b"X+\n".starts_with(event))
        );
    }
}

#[test]
fn a_job_of_one_byte_too_many_is_cut_there(rt: HostRuntime) {
    let alloc = rt.alloc();
    let job = vec![in alloc; b' '; 16_777_217].expect(&rt, "memory");
    let run = Run {
        words: &["stream"],
        job: job.as_slice(),
        piece: 4096,
        source_fails: &[],
        console_fails: &[],
        steps_fails: &[],
    };
    expect(&rt, alloc, &run, BANNER, b"E\n", Status::TooLarge);
}

#[test]
fn a_job_of_as_many_bytes_as_there_may_be_is_read(rt: HostRuntime) {
    let alloc = rt.alloc();
    let job = vec![in alloc; b' '; 16_777_216].expect(&rt, "memory");
    let run = Run {
        words: &["stream"],
        job: job.as_slice(),
        piece: 4096,
        source_fails: &[],
        console_fails: &[],
        steps_fails: &[],
    };
    let console: &[u8] = b"\r\nGrbl 1.1h ['$' for help]\r\nok\r\n";
    expect(&rt, alloc, &run, console, b"E\n", Status::Done);
}
