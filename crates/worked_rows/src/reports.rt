//! Status reports of a machine that stands, with all that a report tells.

use crate::realtime::WORDS;
use crate::runs::{BANNER, Run, append_times, expect, text_of};
use grbl_app::Status;

#[test]
fn a_report_tells_where_the_machine_is_and_what_lines_left(rt: HostRuntime) {
    let alloc = rt.alloc();
    const ROWS: &[(&[u8], &[u8], &[(&[u8], usize)])] = &[
        // Before anything else.
        (
            b"?",
            b"<Idle|MPos:0.000,0.000,0.000|FS:0,0|WCO:0.000,0.000,0.000|Ov:100,100,100>\r\nok\r\n",
            &[],
        ),
        // Behind a mark, so that the motion is over.
        (
            b"G1X1F100\nG4P0\n?",
            b"ok\r\nok\r\n<Idle|MPos:1.000,0.000,0.000|FS:0,0|WCO:0.000,0.000,0.000|Ov:100,100,100>\r\nok\r\n",
            &[(b"X+\n", 250), (b"D 0\n", 1)],
        ),
        // The offset of the work: that of the system, and the shift.
        (
            b"G10L2P1X10\nG0X0\nG92X5\nG0X0\nG4P0\n?",
            b"ok\r\nok\r\nok\r\nok\r\nok\r\n<Idle|MPos:5.000,0.000,0.000|FS:0,0|WCO:5.000,0.000,0.000|Ov:100,100,100>\r\nok\r\n",
            &[(b"X+\n", 2500), (b"X-\n", 1250), (b"D 0\n", 1)],
        ),
        // The report mask: the place of the work, and free room.
        (
            b"$10=0\nG10L2P1X-0.5Y0.5\nG0X0\nG4P0\n?\n",
            b"ok\r\nok\r\nok\r\nok\r\n<Idle|WPos:0.000,-0.500,0.000|FS:0,0|WCO:-0.500,0.500,0.000|Ov:100,100,100>\r\nok\r\n",
            &[(b"X-\n", 125), (b"D 0\n", 1)],
        ),
        (
            b"$10=3\n?\n",
            b"ok\r\n<Idle|MPos:0.000,0.000,0.000|Bf:15,128|FS:0,0|WCO:0.000,0.000,0.000|Ov:100,100,100>\r\nok\r\n",
            &[],
        ),
        // The spindle, by its override; and off.
        (
            b"M3S1000\n\x9a\n?\nM5\n?",
            b"ok\r\nok\r\n<Idle|MPos:0.000,0.000,0.000|FS:0,1100|WCO:0.000,0.000,0.000|Ov:100,100,110>\r\nok\r\nok\r\n<Idle|MPos:0.000,0.000,0.000|FS:0,0|WCO:0.000,0.000,0.000|Ov:100,100,110>\r\nok\r\n",
            &[(b"M3 1000\n", 1), (b"M5 0\n", 1)],
        ),
        // Overrides stay behind a mark, and end with the program.
        (
            b"\x91\nG0X1\nG4P0\n?",
            b"ok\r\nok\r\nok\r\n<Idle|MPos:1.000,0.000,0.000|FS:0,0|WCO:0.000,0.000,0.000|Ov:110,100,100>\r\nok\r\n",
            &[(b"X+\n", 250), (b"D 0\n", 1)],
        ),
        (
            b"\x91\x97\nM2\n?",
            b"ok\r\n[MSG:Pgm End]\r\nok\r\n<Idle|MPos:0.000,0.000,0.000|FS:0,0|WCO:0.000,0.000,0.000|Ov:100,100,100>\r\nok\r\n",
            &[],
        ),
        // A report comes before its own line is carried out.
        (
            b"?M3S50",
            b"<Idle|MPos:0.000,0.000,0.000|FS:0,0|WCO:0.000,0.000,0.000|Ov:100,100,100>\r\nok\r\n",
            &[(b"M3 50\n", 1)],
        ),
        // Steps of a machine with other steps per mm.
        (
            b"$100=157.480\nG0X1\nG4P0\n?",
            b"ok\r\nok\r\nok\r\n<Idle|MPos:0.997,0.000,0.000|FS:0,0|WCO:0.000,0.000,0.000|Ov:100,100,100>\r\nok\r\n",
            &[(b"X+\n", 157), (b"D 0\n", 1)],
        ),
        // In a comment it asks for nothing.
        (
            b"(?)G0X1;?\nG4P0",
            b"ok\r\nok\r\n",
            &[(b"X+\n", 250), (b"D 0\n", 1)],
        ),
    ];
    for &(job, answers, ticks) in ROWS {
        let mut steps = text_of(&rt, alloc, ticks);
        append_times(&rt, &mut steps, b"E\n", 1);
        let mut console = Vec::from_slice(alloc, BANNER).expect(&rt, "memory");
        append_times(&rt, &mut console, answers, 1);
        for words in WORDS {
            let run = Run {
                words,
                job,
                piece: 5,
                source_fails: &[],
                console_fails: &[],
                steps_fails: &[],
            };
            expect(
                &rt,
                alloc,
                &run,
                console.as_slice(),
                steps.as_slice(),
                Status::Done,
            );
        }
    }
}
