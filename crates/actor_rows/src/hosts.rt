//! A host over a board that is a plain list.

use crate::list_board::{Line, RoomyLine};
use outside::{MemSink, MemSource, On, OutOfMemory, Turn};
use std::alloc::Global;
use std::process::Abort;
use std::test::Fail;
use stream_host::Stop;

/// What a host shows of the board's greeting.
const BANNER: &str = "\r\nGrbl 1.1h ['$' for help]\r\n";

/// A job and what becomes of it.
struct Row<'a> {
    job: &'a str,
    /// So many bytes are read at once at most, and written to the console.
    piece: usize,
    strict: bool,
    pause: u32,
    /// The numbers of the reads that fail, and of the writes.
    bad_reads: &'a [u64],
    bad_writes: &'a [u64],
    taken: &'a str,
    console: &'a str,
    stop: Stop,
    answered: u32,
    errors: u32,
}

/// Runs of which each goes well but for what is named.
const ROWS: &[Row] = &[
    Row {
        job: "",
        piece: 4096,
        strict: false,
        pause: 0,
        bad_reads: &[],
        bad_writes: &[],
        taken: "",
        console: "\r\nGrbl 1.1h ['$' for help]\r\n",
        stop: Stop::End,
        answered: 0,
        errors: 0,
    },
    Row {
        job: "G0 X1 (go)\n\ng1y2f100 ; on\n",
        piece: 4096,
        strict: false,
        pause: 0,
        bad_reads: &[],
        bad_writes: &[],
        taken: "G0X1\n\nG1Y2F100\n",
        console: "\r\nGrbl 1.1h ['$' for help]\r\nok\r\nok\r\nok\r\n",
        stop: Stop::End,
        answered: 3,
        errors: 0,
    },
    Row {
        job: "G1\n\nM2",
        piece: 3,
        strict: true,
        pause: 2,
        bad_reads: &[],
        bad_writes: &[],
        taken: "G1\n\nM2\n",
        console: "\r\nGrbl 1.1h ['$' for help]\r\nok\r\nerror:20\r\nok\r\n",
        stop: Stop::End,
        answered: 3,
        errors: 1,
    },
    Row {
        job: "G1\nXXXXXXXXXXXXXXXXXXXXXXXXXXXXXXXXXXXXXXXXXXXXXXXXXXXXXXXXXXXXXXXXXXXXXXXXXXXXXXXXXXXXXXXXXXXXXXXXXXXXXXXXXXXXXXXXXXXXXXXXXXXXXXX\n",
        piece: 4096,
        strict: false,
        pause: 0,
        bad_reads: &[],
        bad_writes: &[],
        taken: "G1\nXXXXXXXXXXXXXXXXXXXXXXXXXXXXXXXXXXXXXXXXXXXXXXXXXXXXXXXXXXXXXXXXXXXXXXXXXXXXXXXXXXXXXXXXXXXXXXXXXXXXXXXXXXXXXXXXXXXXXXXXXXXXXXX\n",
        console: "\r\nGrbl 1.1h ['$' for help]\r\nok\r\nok\r\n",
        stop: Stop::End,
        answered: 2,
        errors: 0,
    },
    Row {
        job: "G1\nXXXXXXXXXXXXXXXXXXXXXXXXXXXXXXXXXXXXXXXXXXXXXXXXXXXXXXXXXXXXXXXXXXXXXXXXXXXXXXXXXXXXXXXXXXXXXXXXXXXXXXXXXXXXXXXXXXXXXXXXXXXXXXXX\nG2\n",
        piece: 4096,
        strict: false,
        pause: 0,
        bad_reads: &[],
        bad_writes: &[],
        taken: "G1\n",
        console: "\r\nGrbl 1.1h ['$' for help]\r\nok\r\n",
        stop: Stop::LongLine(2),
        answered: 1,
        errors: 0,
    },
    Row {
        job: "G1\nG2\n",
        piece: 4,
        strict: false,
        pause: 0,
        bad_reads: &[2],
        bad_writes: &[],
        taken: "G1\n",
        console: "\r\nGrbl 1.1h ['$' for help]\r\nok\r\n",
        stop: Stop::End,
        answered: 1,
        errors: 0,
    },
    Row {
        job: "G1\nG2\n",
        piece: 4096,
        strict: false,
        pause: 1,
        bad_reads: &[],
        bad_writes: &[2],
        taken: "G1\nG2\n",
        console: "\r\nGrbl 1.1h ['$' for help]\r\n",
        stop: Stop::End,
        answered: 2,
        errors: 0,
    },
    Row {
        job: "G1\nG2\n",
        piece: 4096,
        strict: true,
        pause: 0,
        bad_reads: &[],
        bad_writes: &[1],
        taken: "G1\nG2\n",
        console: "",
        stop: Stop::End,
        answered: 2,
        errors: 1,
    },
];

/// The run of a row.
fn line_of<'a>(alloc: Global, row: &Row<'a>) -> Result<Line<'a>, OutOfMemory> {
    let taken = MemSink::new(alloc, 400, &[])?;
    let piece = row.piece.max(1);
    let job = MemSource::new(row.job.as_bytes(), piece, row.bad_reads);
    let console = MemSink::short(alloc, 400, piece, row.bad_writes)?;
    let mut line = Line::over(taken, job, console, row.pause, false);
    line.board.strict = row.strict;
    Ok(line)
}

/// A host tells what the row says.
fn expect_told(rt: &impl Abort, line: &Line, row: &Row, i: usize) {
    assert!(rt; line.taken() == row.taken.as_bytes(), "row {i}");
    assert!(rt; line.console.held() == row.console.as_bytes(), "row {i}");
    assert_eq!(rt; line.host.stop(), row.stop, "row {i}");
    assert_eq!(rt; line.host.answered(), row.answered, "row {i}");
    assert_eq!(rt; line.host.errors(), row.errors, "row {i}");
    let bad_reads = row.bad_reads.len() > 0;
    assert_eq!(rt; line.host.source_failed(), bad_reads, "row {i}");
    let bad_writes = row.bad_writes.len() > 0;
    assert_eq!(rt; line.host.console_failed(), bad_writes, "row {i}");
}

#[test]
fn jobs_are_sent_and_answered(rt: HostRuntime) -> Result<(), Fail> {
    for (i, row) in ROWS.iter().enumerate() {
        let mut line = line_of(rt.alloc(), row)?;
        assert_eq!(rt; line.run(Turn::Done, 2000), Turn::Done, "row {i}");
        expect_told(&rt, &line, row, i);
    }
    Ok(())
}

/// The job, and what the board has then.
const RAISED: &[(&[u8], &[u8])] = &[
    (b"!G0X1~\n", b"!~G0X1\n"),
    (b"G0!X1\n~M2\n!", b"!G0X1\n~M2\n!\n"),
    (b"G0(!)X1;~\n(~", b"G0X1\n\n"),
    (b"?G0X1\x85\n", b"?\x85G0X1\n"),
    (b"X1\n~G0\x18X2\n!", b"X1\n~\x18"),
    (b"\xA0G0\x91\n", b"\xA0\x91G0\n"),
    (b"!!!!\n", b"!!!!\n"),
    (b"\n~", b"\n~\n"),
];

/// Turns a hundred times, of which each gives the board at most one byte, and gives the last one's answer.
fn byte_by_byte(rt: &impl Abort, line: &mut Line, i: usize) -> Turn {
    let mut last = Turn::Did;
    for _ in 0..100 {
        let before = line.taken().len();
        last = line.turn();
        assert!(rt; line.taken().len() <= before.saturating_add(1), "row {i}");
    }
    last
}

/// Realtime bytes are raised as they are scanned, before the text of their line, and one a turn.
#[test]
fn realtime_bytes_are_raised(rt: HostRuntime) -> Result<(), Fail> {
    for (i, (bytes, taken)) in RAISED.iter().enumerate() {
        let mut line = Line::new(rt.alloc(), bytes, 4096, 0)?;
        let last = byte_by_byte(&rt, &mut line, i);
        assert_eq!(rt; last, Turn::Done, "row {i}");
        assert!(rt; line.taken() == *taken, "row {i}");
    }
    Ok(())
}

/// The job, the polls before each reply, what the board has then, and how many lines are answered.
const EPOCHS: &[(&[u8], u32, &[u8], u32)] = &[
    (b"G0\x18X1\n", 0, b"|\x18&X1\n=", 1),
    (b"G0\nG1\n\x18M2\n", 30, b"G0\nG1\n|\x18&M2\n=", 1),
    (b"\x18\x18X1\n", 0, b"|\x18&|\x18&X1\n=", 1),
    (
        b"G0\x18(\x18)X1;\x18\nM2\x18\n",
        0,
        b"|\x18&X1\n=|\x18&\n=",
        2,
    ),
    (b"G0\n\x18?X1\n", 30, b"G0\n|\x18&?<X1\n=", 1),
    (b"G0\n\x18\x85X1\n", 30, b"G0\n|\x18&\x85X1\n=", 1),
    (b"G0\n\x18", 30, b"G0\n|\x18&\n=", 1),
    (
        b"XXXXXXXXXXXXXXXXXXXXXXXXXXXXXXXXXXXXXXXXXXXXXXXXXXXXXXXXXXXXXXXXXXXXXXXXXXXXXXXXXXXXXXXXXXXXXXXXXXXXXXXXXXXXXXXXXXXXXXXXXXXXXXX\x18XXXXXXXXXXXXXXXXXXXXXXXXXXXXXXXXXXXXXXXXXXXXXXXXXXXXXXXXXXXXXXXXXXXXXXXXXXXXXXXXXXXXXXXXXXXXXXXXXXXXXXXXXXXXXXXXXXXXXXXXXXXXXXX\n",
        0,
        b"|\x18&XXXXXXXXXXXXXXXXXXXXXXXXXXXXXXXXXXXXXXXXXXXXXXXXXXXXXXXXXXXXXXXXXXXXXXXXXXXXXXXXXXXXXXXXXXXXXXXXXXXXXXXXXXXXXXXXXXXXXXXXXXXXXXX\n=",
        1,
    ),
];

/// Before a reset goes its mark, in a turn of its own, and nothing more goes before the banner. Then the lines without an answer
/// are forgotten, what is kept of its line so far is dropped, and a `?` and a cancel wait for no line before it.
#[test]
fn resets_begin_epochs(rt: HostRuntime) -> Result<(), Fail> {
    for (i, (bytes, pause, taken, answered)) in EPOCHS.iter().enumerate() {
        let mut line = Line::new(rt.alloc(), bytes, 4096, *pause)?;
        line.board.marked = true;
        line.board.begins = true;
        assert_eq!(rt; line.run(Turn::Done, 1000), Turn::Done, "row {i}");
        assert!(rt; line.taken() == *taken, "row {i}");
        assert_eq!(rt; line.host.answered(), *answered, "row {i}");
        assert_eq!(rt; line.host.stop(), Stop::End, "row {i}");
    }
    Ok(())
}

/// Nine lines of 14 bytes are all that may have no answer; as many may behind a reset.
#[test]
fn epochs_count_anew(rt: HostRuntime) -> Result<(), Fail> {
    let lines =
        "XXXXXXXXXXXXX\nXXXXXXXXXXXXX\nXXXXXXXXXXXXX\nXXXXXXXXXXXXX\nXXXXXXXXXXXXX\nXXXXXXXXXXXXX\nXXXXXXXXXXXXX\nXXXXXXXXXXXXX\nXXXXXXXXXXXXX\n\u{18}";
    let job = many(rt.alloc(), lines, 2)?;
    let mut line = Line::new(rt.alloc(), job.as_slice(), 4096, 300)?;
    line.board.begins = true;
    assert_eq!(rt; line.run(Turn::Done, 3000), Turn::Done);
    assert_eq!(rt; line.taken().len(), 255);
    assert_eq!(rt; line.host.answered(), 1);
    Ok(())
}

/// The 128th byte that is kept behind a reset ends the sending.
#[test]
fn sending_ends_behind_a_reset(rt: HostRuntime) -> Result<(), Fail> {
    let long =
        b"XXXXXXXXXXXXXXXXXXXXXXXXXXXXXXXXXXXXXXXXXXXXXXXXXXXXXXXXXXXXXXXXXXXXXXXXXXXXXXXXXXXXXXXXXXXXXXXXXXXXXXXXXXXXXXXXXXXXXXXXXXXXXXX\x18XXXXXXXXXXXXXXXXXXXXXXXXXXXXXXXXXXXXXXXXXXXXXXXXXXXXXXXXXXXXXXXXXXXXXXXXXXXXXXXXXXXXXXXXXXXXXXXXXXXXXXXXXXXXXXXXXXXXXXXXXXXXXXXX\n";
    let mut line = Line::new(rt.alloc(), long, 4096, 0)?;
    line.board.begins = true;
    assert_eq!(rt; line.run(Turn::Done, 1000), Turn::Done);
    assert!(rt; line.taken() == b"\x18".as_slice());
    assert_eq!(rt; line.host.stop(), Stop::LongLine(1));
    Ok(())
}

const WAITS: Turn = Turn::Wait(On::Answer);

/// The job, the polls before each reply, the reads that fail, what the board has then, and the last turn's answer.
const AWAITED: &[(&[u8], u32, &[u64], &[u8], Turn)] = &[
    (b"?\n", 0, &[], b"?<\n=", Turn::Done),
    (b"G0\n?G1?\n", 0, &[], b"G0\n=?<?<G1\n=", Turn::Done),
    (b"G0\n?G1?\n", 6, &[], b"G0\n=??<G1\n=", Turn::Done),
    (b"?G0\n?G1", 2, &[], b"?<G0\n=?<G1\n=", Turn::Done),
    (b"G0(?)X1;?\nM2\n", 6, &[], b"G0X1\nM2\n==", Turn::Done),
    (b"G0\nM2?\n", u32::MAX, &[], b"G0\n", WAITS),
    (b"?G0\nM2\n", u32::MAX, &[], b"?", WAITS),
    (b"G0\nM2?", 6, &[2], b"G0\n=?<", Turn::Done),
    (b"G0\nM2?", 0, &[2], b"G0\n=?<", Turn::Done),
    (b"\x85\n", 20, &[], b"\x85\n=", Turn::Done),
    (
        b"G0\n\x85G1\x85\n",
        20,
        &[],
        b"G0\n=\x85\x85G1\n=",
        Turn::Done,
    ),
    (b"G0\n!\x85?G1\n", 20, &[], b"G0\n!=\x85?<G1\n=", Turn::Done),
    (b"G0\n!M2\x85\n", u32::MAX, &[], b"G0\n!", WAITS),
];

/// A `?` is raised once each line before its own is answered, and its line is stored once something is reported. One in a
/// comment is not raised, and one in a rest that is never sent holds nothing up. A cancel is raised once the lines before
/// its own are answered too, and its line waits for nothing more; a `!` waits for no answer.
#[test]
fn queries_and_cancels_wait_for_lines(rt: HostRuntime) -> Result<(), Fail> {
    for (i, (bytes, pause, bad_reads, taken, last)) in AWAITED.iter().enumerate() {
        let mut line = Line::new(rt.alloc(), bytes, 4096, *pause)?;
        line.job = MemSource::new(bytes, 4096, bad_reads);
        line.board.marked = true;
        let mut answer = Turn::Did;
        for _ in 0..200 {
            answer = line.turn();
        }
        assert_eq!(rt; answer, *last, "row {i}");
        assert!(rt; line.taken() == *taken, "row {i}");
        assert!(rt; !line.host.console_failed(), "row {i}");
    }
    Ok(())
}

/// The banner is told, and nothing more: the 4,096th poll behind it, and each 4,096th from there on, resumes the machine.
#[test]
fn machines_are_resumed(rt: HostRuntime) -> Result<(), Fail> {
    let mut line = Line::new(rt.alloc(), b"", 4096, u32::MAX)?;
    for (turns, taken) in [(4096, ""), (1, "~"), (4095, "~"), (1, "~~")] {
        line.run(Turn::Done, turns);
        assert!(rt; line.taken() == taken.as_bytes(), "{taken}");
    }
    Ok(())
}

const NEVER: u32 = u32::MAX;

/// The job, the size of its pieces, the polls before each reply, how many turns are taken, and what the board has then.
const READ_ON: &[(&[u8], usize, u32, u32, &[u8])] = &[
    (b"G0\nG1\n", 3, 10, 100, b"G0\nG1\n"),
    (b"G0\nG1\n", 3, NEVER, 4000, b"G0\n"),
    (b"G0\nG1\n", 3, NEVER, 6000, b"G0\n~"),
    (b"!\n~\n", 2, NEVER, 2050, b"!\n"),
    (b"!\n~\n", 2, NEVER, 2051, b"!\n~"),
    (b"M0\nG1\n", 3, NEVER, 2050, b"M0\n"),
    (b"M0\nG1\n", 3, NEVER, 2051, b"M0\nG"),
    (b"M03\nG1\n", 4, NEVER, 4000, b"M03\n"),
    (b"M0\nM3\nG1\n", 6, 10, 100, b"M0\nM3\nG1\n"),
    (b"!~\nG1\n", 3, NEVER, 4000, b"!~\n"),
    (b"?~\n", 1, NEVER, 4000, b"?"),
    (b"!?~\n", 2, NEVER, 4000, b"!?"),
    (b"M0\n~\nG1\n", 3, NEVER, 4000, b"M0\n~\n"),
];

/// A job is read on once nothing is awaited. Where the machine may be held, 2,048 polls that find no reply are enough. The
/// 2,048th behind the banner comes in turn 2,049; the next turn scans what is read then, and the one behind it raises or
/// stores its first byte.
#[test]
fn jobs_are_read_on_once_all_is_answered(rt: HostRuntime) -> Result<(), Fail> {
    for (i, (bytes, piece, pause, turns, taken)) in READ_ON.iter().enumerate() {
        let mut line = Line::new(rt.alloc(), bytes, *piece, *pause)?;
        line.run(Turn::Done, *turns);
        assert!(rt; line.taken() == *taken, "row {i}");
    }
    Ok(())
}

/// The job, the size of its pieces, the polls before each reply, the line that raises the alarm, what the board has, how
/// many lines are answered, and the stop.
const ALARMED: &[(&[u8], usize, u32, u32, &[u8], u32, Stop)] = &[
    (b"G1\nG2\nG3\n", 3, 0, 1, b"G1\n#", 0, Stop::Alarm(1)),
    (b"G1\nG2\nG3\n", 3, 0, 2, b"G1\n=G2\n#", 1, Stop::Alarm(2)),
    (
        b"G1\nG2\nG3\n",
        9,
        5,
        2,
        b"G1\nG2\n=G3\n#",
        1,
        Stop::Alarm(2),
    ),
    (b"G1\nG2\n!G3\n", 99, 8, 1, b"G1\nG#", 0, Stop::Alarm(1)),
    (b"G1\n!~G2X1\n", 99, 2, 1, b"G1\n!#", 0, Stop::Alarm(1)),
    (b"G1\n?\x85G2\n", 99, 4, 1, b"G1\n#", 0, Stop::Alarm(1)),
    (b"G1\nG2", 99, 20, 2, b"G1\n=G2\n#", 1, Stop::Alarm(2)),
    (
        b"G0\nXXXXXXXXXXXXXXXXXXXXXXXXXXXXXXXXXXXXXXXXXXXXXXXXXXXXXXXXXXXXXXXXXXXXXXXXXXXXXXXXXXXXXXXXXXXXXXXXXXXXXXXXXXXXXXXXXXXXXXXXXXXXXXXX",
        999,
        20,
        1,
        b"G0\n#",
        0,
        Stop::LongLine(2),
    ),
];

/// Behind an alarm nothing more is read, stored or raised, not even the rest of a line: the link is closed, and what is told
/// is shown. The stop is the first line that has no answer, unless the job gives a cause before.
#[test]
fn alarms_end_the_sending(rt: HostRuntime) -> Result<(), Fail> {
    let alarm = "ALARM:2\r\n[MSG:Reset to continue]\r\n";
    for (i, (bytes, piece, pause, limit, taken, answered, stop)) in ALARMED.iter().enumerate() {
        let mut line = Line::new(rt.alloc(), bytes, *piece, *pause)?;
        line.board.marked = true;
        line.board.limit = *limit;
        assert_eq!(rt; line.run(Turn::Done, 400), Turn::Done, "row {i}");
        assert!(rt; line.taken() == *taken, "row {i}");
        assert!(rt; line.board.shut, "row {i}");
        assert!(rt; line.console.held().ends_with(alarm.as_bytes()), "row {i}");
        assert_eq!(rt; line.host.answered(), *answered, "row {i}");
        assert_eq!(rt; line.host.errors(), 0, "row {i}");
        assert_eq!(rt; line.host.stop(), *stop, "row {i}");
    }
    Ok(())
}

/// Whether what stands behind a line is read before the line has an answer, within 4,000 turns.
fn is_read_on(alloc: Global, text: &str) -> Result<bool, OutOfMemory> {
    let mut lines = Vec::new(alloc);
    lines.extend_from_slice(text.as_bytes())?;
    lines.extend_from_slice(b"\nG1\n")?;
    let mut line = Line::new(alloc, lines.as_slice(), text.len().saturating_add(1), NEVER)?;
    line.run(Turn::Done, 4000);
    Ok(line.taken() == lines.as_slice())
}

const PAUSES: &[&str] = &[
    "M0",
    "M00",
    "M000X1",
    "M0.",
    "M.0",
    "M+0",
    "M-0",
    "M-.00",
    "M0.0000009",
    "G0X0M0",
    "M30M0",
    "M3M0F0",
];

const NO_PAUSES: &[&str] = &[
    "",
    "M",
    "0",
    "M03",
    "M30",
    "M003",
    "M1",
    "X0M",
    "MM3",
    "MX0",
    "M.",
    "M-",
    "M+-0",
    "M..0",
    "M0.1",
    "M-.000001",
];

/// The number 0 is a pause behind an `M` alone, however it is written: the job is read on behind a line that has one, though it has no
/// answer.
#[test]
fn pauses_are_found(rt: HostRuntime) -> Result<(), Fail> {
    for text in PAUSES {
        assert!(rt; is_read_on(rt.alloc(), text)?, "{text}");
    }
    for text in NO_PAUSES {
        assert!(rt; !is_read_on(rt.alloc(), text)?, "{text}");
    }
    Ok(())
}

/// A line, how many of it the job has, and how many bytes the board has of them.
const UNANSWERED: &[(&str, u32, usize)] = &[
    ("G1X1\n", 30, 125),
    ("G1X1Y10\n", 20, 128),
    ("\n", 200, 128),
    (
        "XXXXXXXXXXXXXXXXXXXXXXXXXXXXXXXXXXXXXXXXXXXXXXXXXXXXXXXXXXXXXXXXXXXXXXXXXXXXXXXXXXXXXXXXXXXXXXXXXXXXXXXXXXXXXXXXXXXXXXXXXXXXXXX\n",
        2,
        128,
    ),
    ("G1X1Y1\n", 18, 126),
    ("G1X1.000F10\n", 40, 120),
];

/// So many of a line.
fn many(alloc: Global, text: &str, count: u32) -> Result<Vec<u8>, OutOfMemory> {
    let mut lines = Vec::new(alloc);
    for _ in 0..count {
        lines.extend_from_slice(text.as_bytes())?;
    }
    Ok(lines)
}

/// The same where the link has room for 255 bytes.
const UNANSWERED_WIDE: &[(&str, u32, usize)] = &[
    ("G1X1.000F10\n", 40, 252),
    ("\n", 300, 255),
    ("G1X1Y1\n", 40, 252),
    ("G1X1\n", 60, 255),
];

/// The banner is told, and no line is answered: the host waits once as many bytes as may stand on the link are stored, and
/// what was told is on the console by then.
#[test]
fn bytes_without_an_answer_are_counted(rt: HostRuntime) -> Result<(), Fail> {
    for (text, count, taken) in UNANSWERED {
        let lines = many(rt.alloc(), text, *count)?;
        let mut line = Line::new(rt.alloc(), lines.as_slice(), 4096, NEVER)?;
        assert_eq!(rt; line.run(WAITS, 2000), WAITS, "{text}");
        assert_eq!(rt; line.turn(), WAITS, "{text}");
        assert_eq!(rt; line.taken().len(), *taken, "{text}");
        assert!(rt; line.console.held() == BANNER.as_bytes(), "{text}");
    }
    Ok(())
}

/// Where the link has room for 255 bytes, the host counts to these.
#[test]
fn wide_link_is_filled(rt: HostRuntime) -> Result<(), Fail> {
    for (text, count, taken) in UNANSWERED_WIDE {
        let lines = many(rt.alloc(), text, *count)?;
        let mut line = RoomyLine::<255>::new(rt.alloc(), lines.as_slice(), 4096, NEVER)?;
        assert_eq!(rt; line.run(WAITS, 2000), WAITS, "{text}");
        assert_eq!(rt; line.turn(), WAITS, "{text}");
        assert_eq!(rt; line.taken().len(), *taken, "{text}");
    }
    Ok(())
}
