//! Resets: the machine stops at once, what was sent and not begun is dropped, and the job goes on behind the reset.

use crate::jogs::{Left, left_by};
use crate::realtime::WORDS;
use crate::runs::{BANNER, text_of};
use crate::system::LATER_SETTINGS;
use grbl_app::Status;
use std::alloc::Global;
use std::process::Abort;
use std::sync::Wait;
use std::thread::Threads;

const OK: &[u8] = b"ok\r\n";

const ALARM: &[u8] = b"ALARM:3\r\n";

const LOCKED: &[u8] = b"[MSG:'$H'|'$X' to unlock]\r\n";

/// A job with one reset, and what stands before it: how many lines, each answered `ok` or dropped; how many events X+ at most; and the
/// records that may follow these, each with whether it stands behind all of them.
///
/// Behind the reset's banner: what is told where the machine is free, and where it is locked; how many lines are refused then; and how
/// many events X+ it makes where it is not refused, or None for as many X- as X+ stand before.
#[derive(Clone, Copy)]
struct Row<'a> {
    job: &'a [u8],
    before: u64,
    most: usize,
    records: &'a [(&'a [u8], bool)],
    free: &'a [u8],
    locked: &'a [u8],
    refused: u32,
    further: Option<usize>,
}

/// A row whose job ends with a rapid move to zero behind the reset.
const BACK: Row = Row {
    job: b"",
    before: 0,
    most: 0,
    records: &[],
    free: OK,
    locked: b"error:9\r\n",
    refused: 1,
    further: None,
};

/// How often a piece, which is not empty, stands at the beginning of a text, and what is behind that.
fn times_of<'a>(text: &'a [u8], piece: &[u8]) -> (usize, &'a [u8]) {
    let mut rest = text;
    let mut count: usize = 0;
    for _ in 0..text.len() {
        let Some(behind) = rest.strip_prefix(piece) else {
            break;
        };
        rest = behind;
        count = count.saturating_add(1);
    }
    (count, rest)
}

/// Whether a piece stands at the beginning of a text, and what is behind it.
fn behind<'a>(text: &'a [u8], piece: &[u8]) -> (bool, &'a [u8]) {
    match text.strip_prefix(piece) {
        Some(rest) => (true, rest),
        None => (false, text),
    }
}

/// The number of the reset with whose record a text begins, and what is behind it.
fn behind_reset(text: &[u8]) -> Option<(u64, &[u8])> {
    let mut rest = text.strip_prefix(b"Z ")?;
    let mut number: u64 = 0;
    for _ in 0..text.len() {
        let (digit, behind) = rest.split_first()?;
        if *digit == b'\n' {
            return Some((number, behind));
        }
        number = number
            .saturating_mul(10)
            .saturating_add(digit.wrapping_sub(b'0') as u64);
        rest = behind;
    }
    None
}

/// The events are a front of the moves before the reset, its record follows, and what is moved behind it.
fn expect_steps<R: Abort>(rt: &R, row: &Row, steps: &[u8], is_locked: bool) {
    let (there, rest) = times_of(steps, b"X+\n");
    assert!(rt; there <= row.most);
    let mut rest = rest;
    for &(record, is_last) in row.records {
        let (is_there, behind) = behind(rest, record);
        assert!(rt; !is_there || !is_last || there == row.most);
        rest = behind;
    }
    let (number, rest) = behind_reset(rest).expect(rt, "a reset");
    assert!(rt; number <= row.before);
    let (back, rest) = times_of(rest, b"X-\n");
    let (further, rest) = times_of(rest, b"X+\n");
    assert!(rt; rest == b"E\n".as_slice());
    let right = match row.further {
        _ if is_locked && row.refused > 0 => (0, 0),
        None => (there, 0),
        Some(count) => (0, count),
    };
    assert_eq!(rt; (back, further), right);
}

/// A run of a row tells the answers of the first lines, `ALARM:3` or nothing, the banner, that the machine is locked exactly where an
/// alarm is told, and what the row has for that. Answers whether it is locked.
fn expect_row<R: Abort>(rt: &R, row: &Row, left: &Left) -> bool {
    let (answered, rest) = times_of(left.answers.as_slice(), OK);
    assert!(rt; answered as u64 <= row.before);
    let (is_locked, rest) = behind(rest, ALARM);
    let rest = rest.strip_prefix(BANNER).expect(rt, "a second banner");
    let (is_told, rest) = behind(rest, LOCKED);
    assert_eq!(rt; is_told, is_locked);
    assert!(rt; rest == if is_locked { row.locked } else { row.free });
    let right = if is_locked && row.refused > 0 {
        Status::LineErrors(row.refused)
    } else {
        Status::Done
    };
    assert_eq!(rt; left.status, right);
    expect_steps(rt, row, left.steps.as_slice(), is_locked);
    is_locked
}

/// Runs a row, in pieces of three bytes and whole. Answers in how many of these runs the machine is locked.
fn expect_each<R: Threads + Wait + Sync + Abort>(rt: &R, alloc: Global, row: &Row) -> usize {
    let mut locked: usize = 0;
    for words in WORDS {
        for piece in [3usize, 4096] {
            let left = left_by(rt, alloc, words, row.job, piece);
            locked = locked.saturating_add(usize::from(expect_row(rt, row, &left)));
        }
    }
    locked
}

#[test]
fn a_job_goes_on_behind_a_reset(rt: HostRuntime) {
    let alloc = rt.alloc();
    // The reset may come before a line is begun, while it is, in the move, and behind it. A 0x85 before it waits until the
    // lines before are answered.
    let far = Row {
        before: 1,
        most: 25_000,
        ..BACK
    };
    let rows = [
        Row {
            job: b"G0X100\n\x18",
            locked: OK,
            refused: 0,
            further: Some(0),
            ..far
        },
        // Where it is locked `$X` unlocks it. It moves back from where it stands.
        Row {
            job: b"G0X100\n\x18\n$X\nG0X0\n",
            free: b"ok\r\nok\r\nok\r\n",
            locked: b"ok\r\n[MSG:Caution: Unlocked]\r\nok\r\nok\r\n",
            refused: 0,
            ..far
        },
        Row {
            job: b"G0X100\n\x85\x18\n$X\nG0X0\n",
            free: b"ok\r\nok\r\nok\r\n",
            locked: b"ok\r\n[MSG:Caution: Unlocked]\r\nok\r\nok\r\n",
            refused: 0,
            ..far
        },
        // A locked machine moves nowhere.
        Row {
            job: b"G0X100\n\x18\nG0X0\n",
            free: b"ok\r\nok\r\n",
            locked: b"ok\r\nerror:9\r\n",
            ..far
        },
        Row {
            job: b"G0X100\n\x18\n$J=X0F500\n",
            free: b"ok\r\nok\r\n",
            locked: b"ok\r\nerror:8\r\n",
            ..far
        },
        Row {
            job: b"G0X100\n\x85\x18G0X0\nG0X0\n",
            free: b"ok\r\nok\r\n",
            locked: b"error:9\r\nerror:9\r\n",
            refused: 2,
            ..far
        },
        // What stands before it in its line is dropped. It sets the modes to those of the opening.
        Row {
            job: b"G91G20G1X1F100\nX9\x18G91\nX1\n",
            free: b"ok\r\nok\r\n",
            locked: b"error:9\r\nerror:9\r\n",
            refused: 2,
            further: Some(250),
            ..far
        },
    ];
    let mut locked: usize = 0;
    for row in rows {
        locked = locked.saturating_add(expect_each(&rt, alloc, &row));
    }
    assert!(rt; locked > 0);
}

#[test]
fn a_reset_drops_what_is_planned_held_cut_or_waits(rt: HostRuntime) {
    let alloc = rt.alloc();
    let many = text_of(
        &rt,
        alloc,
        &[(b"G91\n", 1), (b"X1\n", 60), (b"\x18G0X0", 1)],
    );
    let jogs = text_of(&rt, alloc, &[(b"$J=G91X1F500\n", 20), (b"\x18G0X0", 1)]);
    let jog = Row {
        before: 2,
        most: 25_000,
        records: &[(b"X 1\n", false), (b"X 2\n", false)],
        ..BACK
    };
    let rows = [
        // In a hold and in a pause.
        Row {
            job: b"F100\nG1X10\n!\n\x18G0X0",
            before: 3,
            most: 2_500,
            ..BACK
        },
        Row {
            job: b"G0X1\nM0\n\x18G0X0",
            before: 2,
            most: 250,
            ..BACK
        },
        // In a dwell, which waits for the move before it.
        Row {
            job: b"G0X1\nG4P1\n\x18G0X0",
            before: 2,
            most: 250,
            records: &[(b"D 1000\n", true)],
            ..BACK
        },
        // In a jog, and in one that is being cut.
        Row {
            job: b"$J=G91X100F6000\n\x18G0X0",
            before: 1,
            most: 25_000,
            ..BACK
        },
        Row {
            job: b"$J=G91X100F6000\n\x85\n\x18G0X0",
            ..jog
        },
        Row {
            job: b"$J=G91X100F6000\n!\n\x18G0X0",
            ..jog
        },
        // Where the plan is full, and lines wait.
        Row {
            job: many.as_slice(),
            before: 61,
            most: 15_000,
            ..BACK
        },
        Row {
            job: jogs.as_slice(),
            before: 20,
            most: 5_000,
            ..BACK
        },
    ];
    let mut locked: usize = 0;
    for row in rows {
        locked = locked.saturating_add(expect_each(&rt, alloc, &row));
    }
    assert!(rt; locked > 0);
}

#[test]
fn a_line_is_answered_whole_or_not_at_all(rt: HostRuntime) {
    let alloc = rt.alloc();
    // Each list has as many replies as may wait for the host, so those of the next line wait for room.
    let list = text_of(
        &rt,
        alloc,
        &[(b"$10=1\r\n$11=0.010\r\n", 1), (LATER_SETTINGS, 1)],
    );
    for words in WORDS {
        for piece in [3usize, 4096] {
            let left = left_by(&rt, alloc, words, b"$$\n$$\n$$\n\x18G0X0.004", piece);
            let (lists, rest) = times_of(left.answers.as_slice(), list.as_slice());
            let rest = rest.strip_prefix(BANNER).expect(&rt, "a second banner");
            assert!(rt; rest == OK);
            let (number, rest) = behind_reset(left.steps.as_slice()).expect(&rt, "a reset");
            assert!(rt; number <= 3 && lists as u64 <= number);
            assert!(rt; rest == b"X+\nE\n".as_slice());
            assert_eq!(rt; left.status, Status::Done);
        }
    }
}

#[test]
fn a_lock_stays_until_it_is_ended(rt: HostRuntime) {
    let alloc = rt.alloc();
    // A read gives one byte, so each report is told before the next reset. The machine stands.
    for words in WORDS {
        let left = left_by(&rt, alloc, words, b"G0X100\n\x18?\n\x18?\n$X\n?", 1);
        assert_eq!(rt; left.status, Status::Done);
        let rest = left
            .answers
            .as_slice()
            .strip_prefix(OK)
            .expect(&rt, "an answer");
        let (is_locked, rest) = behind(rest, ALARM);
        let state: &[u8] = if is_locked { b"<Alarm" } else { b"<Idle" };
        let (rest, first) = behind_banner(&rt, rest, is_locked, state);
        let (rest, second) = behind_banner(&rt, rest, is_locked, state);
        let (is_unlocked, rest) = behind(rest, b"[MSG:Caution: Unlocked]\r\n");
        assert_eq!(rt; is_unlocked, is_locked);
        let rest = rest.strip_prefix(OK).expect(&rt, "an answer");
        let (last, rest) = told_by(&rt, rest, b"<Idle");
        assert!(rt; first == second && second == last && rest == OK);
        let (there, rest) = times_of(left.steps.as_slice(), b"X+\n");
        assert!(rt; there <= 25_000 && rest == b"Z 1\nZ 2\nE\n".as_slice());
    }
}

/// What the report with which a text begins tells behind its state, and what is behind the report.
fn told_by<'a, R: Abort>(rt: &R, text: &'a [u8], state: &[u8]) -> (&'a [u8], &'a [u8]) {
    let rest = text.strip_prefix(state).expect(rt, "a state");
    let told = rest
        .split(|byte| *byte == b'\n')
        .next()
        .expect(rt, "a report");
    let rest = rest.strip_prefix(told).expect(rt, "a report");
    (told, rest.strip_prefix(b"\n").expect(rt, "an end"))
}

/// What is behind a banner, a lock or none, a report in a state, and `ok`; and what the report tells.
fn behind_banner<'a, R: Abort>(
    rt: &R,
    text: &'a [u8],
    is_locked: bool,
    state: &[u8],
) -> (&'a [u8], &'a [u8]) {
    let rest = text.strip_prefix(BANNER).expect(rt, "a banner");
    let (is_told, rest) = behind(rest, LOCKED);
    assert_eq!(rt; is_told, is_locked);
    let (told, rest) = told_by(rt, rest, state);
    (rest.strip_prefix(OK).expect(rt, "an answer"), told)
}

#[test]
fn a_reset_comes_before_a_limit_or_is_dropped(rt: HostRuntime) {
    let alloc = rt.alloc();
    let alarm: &[(&[u8], usize)] = &[(OK, 1), (b"ALARM:2\r\n[MSG:Reset to continue]\r\n", 1)];
    let ways: [(&[(&[u8], usize)], &[u8], Status); 3] = [
        (alarm, b"E\n", Status::Alarm(2)),
        (&[(OK, 1), (BANNER, 1), (OK, 1)], b"Z 1\nE\n", Status::Done),
        (&[(BANNER, 1), (OK, 1)], b"Z 0\nE\n", Status::Done),
    ];
    for words in WORDS {
        let left = left_by(&rt, alloc, words, b"$20=1\nG0X1\n\x18", 3);
        let mut is_found = false;
        for (told, steps, status) in ways {
            let told = text_of(&rt, alloc, told);
            is_found = is_found
                || left.status == status
                    && left.answers.as_slice() == told.as_slice()
                    && left.steps.as_slice() == steps;
        }
        assert!(rt; is_found);
    }
}

/// The offset of the work in the last report that a console has.
fn last_offset(console: &[u8]) -> Option<&[u8]> {
    let mut last = None;
    for field in console.split(|byte| *byte == b'|') {
        last = field.strip_prefix(b"WCO:").or(last);
    }
    last
}

#[test]
fn a_reset_keeps_offsets_but_that_of_g92(rt: HostRuntime) {
    let alloc = rt.alloc();
    let mut all: usize = 0;
    for words in WORDS {
        let left = left_by(
            &rt,
            alloc,
            words,
            b"G10L2P1X1\nG92X5\nG4P0\n?\n\x18\n?\n",
            3,
        );
        assert_eq!(rt; left.status, Status::Done);
        let (answered, _) = times_of(left.answers.as_slice(), OK);
        if answered >= 3 {
            all = all.saturating_add(1);
            assert!(rt;
                last_offset(left.answers.as_slice()) == Some(b"1.000,0.000,0.000".as_slice())
            );
        }
    }
    assert!(rt; all > 0);
}
