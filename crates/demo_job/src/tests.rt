//! The generated job, line by line and as a source, and its summary.

use super::{Answers, DemoJob, NoConsole, demo_line, put_pins, put_summary};
use gcode_words::LineBuf;
use outside::{Sink, Source};
use units::Text;

#[test]
fn lines_are_those_of_the_job(rt: HostRuntime) {
    let rows: [(u32, u32, &[u8]); 7] = [
        (3, 1, b"G21G90G94"),
        (3, 2, b"F600"),
        (3, 3, b"G1X0.7Y1.1"),
        (3, 4, b"G1X1.4Y2.2"),
        (3, 5, b"G1X2.1Y0.3"),
        (3, 6, b"M2"),
        (100_000, 100_002, b"G1X0.0Y2.0"),
    ];
    let mut line = LineBuf::new();
    for (n, i, wanted) in rows {
        assert!(rt; 1 <= n && n <= 100_000 && 1 <= i && i <= n + 3);
        demo_line(n, i, &mut line);
        assert!(rt; line.as_slice() == wanted);
    }
}

#[test]
fn job_is_given_in_pieces(rt: HostRuntime) {
    let mut job = DemoJob::new(1);
    let mut buf = [b'-'; 6];
    for (count, piece) in [
        (6, b"G21G90"),
        (4, b"G94\n90"),
        (5, b"F600\n0"),
        (6, b"G1X0.7"),
        (5, b"Y1.1\n7"),
        (3, b"M2\n1\n7"),
        (0, b"M2\n1\n7"),
    ] {
        assert_eq!(rt; job.read(&mut buf), Ok(count));
        assert_eq!(rt; buf, *piece);
    }
    assert_eq!(rt; NoConsole.write(b"ok"), Ok(2));
}

#[test]
fn summaries_count_lines_and_events(rt: HostRuntime) {
    let rows: [(u32, &[u8]); 4] = [
        (
            1,
            b"demo 1 lines 4 ok 4 error 0 events 275 at 0.700,1.100,0.000\n",
        ),
        (
            3,
            b"demo 3 lines 6 ok 6 error 0 events 1025 at 2.100,0.300,0.000\n",
        ),
        (
            8,
            b"demo 8 lines 11 ok 11 error 0 events 3400 at 0.600,2.800,0.000\n",
        ),
        (
            100_000,
            b"demo 100000 lines 100003 ok 100003 error 0 events 44966600 at 0.000,2.000,0.000\n",
        ),
    ];
    let mut text = Text::new();
    for (n, wanted) in rows {
        assert!(rt; 1 <= n && n <= 100_000);
        put_summary(
            n,
            Answers {
                ok: n + 3,
                error: 0,
            },
            &mut text,
        );
        assert!(rt; text.as_slice() == wanted);
    }
}

#[test]
fn pins_are_told_by_their_number(rt: HostRuntime) {
    let rows: [(u32, u64, &[u8]); 3] = [
        (1, 0, b"pins 1 words 0 at 0.700,1.100,0.000\n"),
        (3, 8200, b"pins 3 words 8200 at 2.100,0.300,0.000\n"),
        (
            100_000,
            u64::MAX,
            b"pins 100000 words 18446744073709551615 at 0.000,2.000,0.000\n",
        ),
    ];
    let mut text = Text::new();
    for (n, subticks, wanted) in rows {
        assert!(rt; 1 <= n && n <= 100_000);
        put_pins(n, subticks, &mut text);
        assert!(rt; text.as_slice() == wanted);
    }
}
