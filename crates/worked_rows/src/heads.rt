//! Whole steps texts, with the heads of their segments.

use crate::runs::{plain_run, run_over};
use grbl_app::Status;
use outside::{MemSink, MemSource};

#[test]
fn segments_are_told_with_their_speeds_and_cycles(rt: HostRuntime) {
    let alloc = rt.alloc();
    const ROWS: &[(&[u8], &[u8])] = &[
        (b"G0X0.004", b"s 1 1 0 320000\nX+\nE\n"),
        (
            b"G0X0.012Y0.008",
            b"s 1 1 0 226895\nX+Y+\ns 1 1 115549 184898\nX+\ns 1 1 115549 226895\nX+Y+\nE\n",
        ),
        (
            b"G0X0.008Y0.004",
            b"s 1 1 0 226431\nX+\ns 1 1 99993 226431\nX+Y+\nE\n",
        ),
        (
            b"$J=G91X0.012F500",
            b"s 1 1 0 226951\nX+\ns 1 1 80000 184972\nX+\ns 1 1 80000 226951\nX+\nE\n",
        ),
        // A jog goes at its own feed, whatever that of the lines before, in its own units, and by no override.
        (
            b"F1\n$J=G91X0.012F500",
            b"s 2 1 0 226951\nX+\ns 2 1 80000 184972\nX+\ns 2 1 80000 226951\nX+\nE\n",
        ),
        (
            b"$J=X0.008F6",
            b"s 1 1 0 640000\nX+\ns 1 1 10000 640000\nX+\nE\n",
        ),
        (
            b"\x91\x91\x97$J=X0.008F6",
            b"s 1 1 0 640000\nX+\ns 1 1 10000 640000\nX+\nE\n",
        ),
        (
            b"F500\n$J=G20X0.0005F0.3",
            b"s 2 1 0 503938\nX+\ns 2 1 16129 503938\nX+\ns 2 1 16129 503938\nX+\nE\n",
        ),
        (b"G0X0", b"E\n"),
        (b"G20\nG0X0.0001", b"s 2 1 0 320000\nX+\nE\n"),
        // A mark parts stretches: each begins and ends at rest.
        (
            b"G0X0.004\nM3S100\nX0.008",
            b"s 1 1 0 320000\nX+\nM3 100\ns 3 1 0 320000\nX+\nE\n",
        ),
        (
            b"G0X0.004\nM8\nM2\n(empty)\nX0",
            b"s 1 1 0 320000\nX+\nM8 0\nM9 0\nE\n",
        ),
        // The end of a program and a pause bring the machine to rest.
        (
            b"G0X0.004\nM2\nG0X0.008",
            b"s 1 1 0 320000\nX+\ns 3 1 0 320000\nX+\nE\n",
        ),
        (
            b"G0X0.004\nM30\nG0X0.008",
            b"s 1 1 0 320000\nX+\ns 3 1 0 320000\nX+\nE\n",
        ),
        (
            b"G0X0.004\nM0\nX0.008",
            b"s 1 1 0 320000\nX+\ns 3 1 0 320000\nX+\nE\n",
        ),
    ];
    for &(job, steps) in ROWS {
        let run = plain_run(job);
        let mut source = MemSource::new(run.job, run.piece.max(1), &[]);
        let mut console = MemSink::new(alloc, 1_000, &[]).expect(&rt, "memory");
        let mut recorder = MemSink::new(alloc, 1_000, &[]).expect(&rt, "memory");
        run_over(
            &rt,
            alloc,
            run.words,
            &mut source,
            &mut console,
            &mut recorder,
        );
        assert_eq!(rt; recorder.held(), steps);
    }
}
