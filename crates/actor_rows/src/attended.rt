//! A host whose sender stands by, over a board that is a plain list.

use crate::list_board::Line;
use outside::{On, Turn};
use std::test::Fail;

const NEVER: u32 = u32::MAX;

/// The job, the polls before each reply, and what the board has then.
const RAISED: &[(&[u8], u32, &[u8])] = &[
    (b"?\n", 0, b"?<\n="),
    (b"G0\n?G1\n", 20, b"G0\n?<G1\n=="),
    (b"G0\n\x85G1\n", 20, b"G0\n\x85G1\n=="),
    (b"G0\n!\x85?G1\n", 20, b"G0\n!\x85?<G1\n=="),
    (b"G0\nM2\x85?", 20, b"G0\n\x85?<=M2\n="),
];

/// A `?` and a cancel are raised as they are scanned, whatever line has no answer. The line with a `?` goes out behind a report.
#[test]
fn bytes_wait_for_no_answer(rt: HostRuntime) -> Result<(), Fail> {
    for (i, (bytes, pause, taken)) in RAISED.iter().enumerate() {
        let mut line = Line::attended(rt.alloc(), bytes, 4096, *pause)?;
        line.board.marked = true;
        assert_eq!(rt; line.run(Turn::Done, 400), Turn::Done, "row {i}");
        assert!(rt; line.taken() == *taken, "row {i}");
    }
    Ok(())
}

/// The job, the size of its pieces, the polls before each reply, how many turns are taken, and what the board has then.
const READ_ON: &[(&[u8], usize, u32, u32, &[u8])] = &[
    (b"G0\nG1\n", 3, 10, 100, b"G0\nG1\n"),
    (b"G0\nG1\n", 3, NEVER, 60000, b"G0\n"),
    (b"!\n?~\n", 2, NEVER, 2051, b"!\n?"),
    (b"!\n?~\n", 2, NEVER, 2053, b"!\n?~"),
    (b"M0\n~\nG1\n", 3, NEVER, 32000, b"M0\n~\n"),
    (b"M0\n~\nG1\n", 4, NEVER, 32000, b"M0\n~"),
    (b"M0\n~\nG1\n", 5, NEVER, 32000, b"M0\n~\n"),
    (b"M0\n~\nG1\n", 5, NEVER, 33000, b"M0\n~\nG1\n"),
];

/// A job is read on as in any run. Behind a `~` that may have come too early, 32,768 polls that find no reply are enough; nothing
/// is resumed while the link is open.
#[test]
fn attended_jobs_are_read_on(rt: HostRuntime) -> Result<(), Fail> {
    for (i, (bytes, piece, pause, turns, taken)) in READ_ON.iter().enumerate() {
        let mut line = Line::attended(rt.alloc(), bytes, *piece, *pause)?;
        line.run(Turn::Done, *turns);
        assert!(rt; line.taken() == *taken, "row {i}");
    }
    Ok(())
}

/// The job, the size of its pieces, what the board has when it falls silent, and what it has 33,000 turns later.
const SILENT: &[(&[u8], usize, &[u8], &[u8])] = &[
    (b"M0\n~G1\nG2\n", 4, b"M0\n~=", b"M0\n~=G1\n"),
    (b"!~G0\nG1\n", 5, b"!~", b"!~G0\nG1\n"),
    (b"!~G0\nG1\nG2\n", 5, b"!~G0\n=", b"!~G0\n=G1\n"),
    (b"G0\n!~G1\nG2\n", 5, b"G0\n!~=", b"G0\n!~=G1\nG2\n"),
    (b"~G0\nG1\n", 4, b"~", b"~G0\n"),
    (b"!~G0\n~G1\nG2\nG3\n", 6, b"!~G0\n~=", b"!~G0\n~=G1\nG2\n"),
    (b"!~\x18G1\nG2\n", 6, b"!~|\x18&", b"!~|\x18&G1\n"),
];

/// Behind a `~` the job is read on only as long as no answer shows that the hold is over: that of the pause's line, or behind a `!` of
/// the first line that is sent behind both. A `~` where nothing is held asks for none, nor does one before a banner.
#[test]
fn answers_show_a_resume(rt: HostRuntime) -> Result<(), Fail> {
    for (i, (bytes, piece, first, last)) in SILENT.iter().enumerate() {
        let mut line = Line::attended(rt.alloc(), bytes, *piece, 30)?;
        line.board.marked = true;
        line.board.begins = true;
        for _ in 0..400 {
            if line.taken() == *first {
                break;
            }
            line.turn();
        }
        assert!(rt; line.taken() == *first, "row {i} is silent");
        line.board.pause = NEVER;
        line.run(Turn::Done, 33000);
        assert!(rt; line.taken() == *last, "row {i}");
    }
    Ok(())
}

/// A line that has no answer, and no end of the job: no poll resumes the machine. Once the link is closed, each 4,096th does.
#[test]
fn machines_stay_held(rt: HostRuntime) -> Result<(), Fail> {
    let mut line = Line::attended(rt.alloc(), b"G1\nG2\n", 3, NEVER)?;
    assert_eq!(rt; line.run(Turn::Done, 100000), Turn::Did);
    assert_eq!(rt; line.turn(), Turn::Wait(On::Answer));
    assert!(rt; line.taken() == b"G1\n".as_slice());
    let mut line = Line::attended(rt.alloc(), b"", 4096, NEVER)?;
    for (turns, taken) in [(4099, ""), (1, "~"), (4095, "~"), (1, "~~")] {
        line.run(Turn::Done, turns);
        assert!(rt; line.taken() == taken.as_bytes(), "{taken}");
    }
    Ok(())
}
