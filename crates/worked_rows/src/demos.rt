//! The generated job, run in lockstep, and the line on it; a job in threads and in lockstep.

use crate::realtime::WORDS;
use crate::runs::{run_over, without_heads};
use grbl_app::Status;
use outside::{MemSink, MemSource};

#[test]
fn demos_are_summed_up_and_leave_the_source(rt: HostRuntime) {
    let alloc = rt.alloc();
    const ROWS: &[(&str, &[u8], usize)] = &[
        (
            "1",
            b"demo 1 lines 4 ok 4 error 0 events 275 at 0.700,1.100,0.000\n",
            275,
        ),
        (
            "3",
            b"demo 3 lines 6 ok 6 error 0 events 1025 at 2.100,0.300,0.000\n",
            1025,
        ),
        (
            "8",
            b"demo 8 lines 11 ok 11 error 0 events 3400 at 0.600,2.800,0.000\n",
            3400,
        ),
    ];
    for &(moves, summary, events) in ROWS {
        let mut source = MemSource::new(b"G0X1", 4, &[]);
        let mut console = MemSink::new(alloc, 100, &[]).expect(&rt, "memory");
        let mut steps = MemSink::new(alloc, 100_000, &[]).expect(&rt, "memory");
        let words = ["demo", moves];
        let status = run_over(&rt, alloc, &words, &mut source, &mut console, &mut steps);
        assert_eq!(rt; status, Status::Done);
        assert_eq!(rt; console.held(), summary);
        let recorded = without_heads(&rt, alloc, steps.held());
        let lines = recorded.as_slice().split(|byte| *byte == b'\n').count();
        // One line an event, the end, and nothing behind its LF.
        assert_eq!(rt; lines, events + 2);
    }
}

#[test]
fn wrong_numbers_are_usage(rt: HostRuntime) {
    let alloc = rt.alloc();
    const ROWS: &[&[&str]] = &[
        &["demo"],
        &["demo", "0"],
        &["demo", "100001"],
        &["stream", "--lockstep"],
        &["stream", "--lockstep", "-1"],
        &["stream", "--lockstep", "18446744073709551616"],
    ];
    for &words in ROWS {
        let mut source = MemSource::new(b"G0X1", 4, &[]);
        let mut console = MemSink::new(alloc, 100, &[]).expect(&rt, "memory");
        let mut steps = MemSink::new(alloc, 100, &[]).expect(&rt, "memory");
        let status = run_over(&rt, alloc, words, &mut source, &mut console, &mut steps);
        assert_eq!(rt; status, Status::Usage);
        assert!(rt; console.held().is_empty() && steps.held().is_empty());
    }
}

#[test]
fn threads_and_every_seed_give_the_same_texts(rt: HostRuntime) {
    let alloc = rt.alloc();
    let job = b"G21G90\nM3S1000\nG1X0.1F500\nY0.1\nM5\nG0X0Y0\n";
    for words in WORDS {
        let mut source = MemSource::new(job, 5, &[]);
        let mut console = MemSink::new(alloc, 100, &[]).expect(&rt, "memory");
        let mut steps = MemSink::new(alloc, 10_000, &[]).expect(&rt, "memory");
        let status = run_over(&rt, alloc, words, &mut source, &mut console, &mut steps);
        assert_eq!(rt; status, Status::Done);
        assert!(rt;
            console
                .held()
                .ends_with(b"ok\r\nok\r\nok\r\nok\r\nok\r\nok\r\n")
        );
        let recorded = without_heads(&rt, alloc, steps.held());
        // Two marks, 25 events each of X and Y, 25 of both, and the end.
        let lines = recorded.as_slice().split(|byte| *byte == b'\n').count();
        assert_eq!(rt; lines, 2 + 25 + 25 + 25 + 2);
    }
}
