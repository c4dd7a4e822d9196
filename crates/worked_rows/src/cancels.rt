//! Jogs that are cancelled, by 0x85 or by `!`: where they are cut, and what comes after it.

use crate::jogs::{LONG_JOG, Left, left_by};
use crate::realtime::WORDS;
use crate::runs::text_of;
use grbl_app::Status;
use std::alloc::Global;
use std::process::Abort;
use std::sync::Wait;
use std::thread::Threads;

/// A cut: its number, and the place at which it was made, in steps of X.
#[derive(Clone, Copy, PartialEq, Eq)]
struct Cut {
    number: u64,
    place: i64,
}

/// Where a run that moves along X alone goes: its first cut and its last, how many it has, the place farthest from where it
/// began, and the one where it ends, in steps.
#[derive(Clone, Copy)]
struct Way {
    first: Option<Cut>,
    last: Option<Cut>,
    cuts: usize,
    farthest: i64,
    end: i64,
}

/// A number in decimal digits; what is no digit is passed over.
fn number_of(digits: &[u8]) -> u64 {
    let mut number: u64 = 0;
    for digit in digits {
        if digit.is_ascii_digit() {
            number = number
                .saturating_mul(10)
                .saturating_add(digit.wrapping_sub(b'0') as u64);
        }
    }
    number
}

fn way_of(steps: &[u8]) -> Way {
    let mut way = Way {
        first: None,
        last: None,
        cuts: 0,
        farthest: 0,
        end: 0,
    };
    for line in steps.split(|byte| *byte == b'\n') {
        if line == b"X+".as_slice() {
            way.end = way.end.saturating_add(1);
            way.farthest = way.farthest.max(way.end);
        }
        if line == b"X-".as_slice() {
            way.end = way.end.saturating_sub(1);
        }
        if let Some(digits) = line.strip_prefix(b"X ") {
            let cut = Cut {
                number: number_of(digits),
                place: way.end,
            };
            way.first = way.first.or(Some(cut));
            way.last = Some(cut);
            way.cuts = way.cuts.saturating_add(1);
        }
    }
    way
}

/// Runs a job of accepted lines whose console is so many `ok`. Answers its way.
fn way_by<R: Threads + Wait + Sync + Abort>(
    rt: &R,
    alloc: Global,
    words: &[&str],
    job: &[u8],
    piece: usize,
    lines: usize,
) -> Way {
    let left = left_by(rt, alloc, words, job, piece);
    let answers = text_of(rt, alloc, &[(b"ok\r\n", lines)]);
    assert!(rt; left.answers.as_slice() == answers.as_slice());
    assert_eq!(rt; left.status, Status::Done);
    way_of(left.steps.as_slice())
}

/// The place of X that each report of a console tells, in steps, and whether it says `Jog`.
fn reports_of<R: Abort>(rt: &R, alloc: Global, left: &Left) -> Vec<(bool, i64)> {
    let mut told = Vec::new(alloc);
    for line in left.answers.as_slice().split(|byte| *byte == b'\n') {
        let jogs = line.strip_prefix(b"<Jog|MPos:");
        let Some(rest) = jogs.or(line.strip_prefix(b"<Idle|MPos:")) else {
            continue;
        };
        let place = rest.split(|byte| *byte == b',').next().unwrap_or(rest);
        // A step is 4 thousandths of a mm.
        let steps = number_of(place) / 4;
        told.push((jogs.is_some(), steps as i64))
            .expect(rt, "memory");
    }
    told
}

#[test]
fn a_cancel_cuts_jogs_where_the_machine_is(rt: HostRuntime) {
    let alloc = rt.alloc();
    let job = text_of(&rt, alloc, &[(LONG_JOG, 2), (b"\x85\nG90\nG0X0\n", 1)]);
    for words in WORDS {
        let way = way_by(&rt, alloc, words, job.as_slice(), 4096, 5);
        let Some(cut) = way.first else {
            // In threads the jogs may be over before the cancel comes.
            assert!(rt; words.len() == 1 && way.farthest == 5_000 && way.end == 0);
            continue;
        };
        assert_eq!(rt; cut.number, 2);
        assert!(rt; way.cuts == 1 && cut.place <= 5_000 && cut.place == way.farthest);
        assert_eq!(rt; way.end, 0);
    }
}

#[test]
fn a_hold_cuts_a_jog_too(rt: HostRuntime) {
    let alloc = rt.alloc();
    // The `!` is read once the jog is answered. What counts from the position counts from the cut.
    const ROWS: &[(&[u8], usize, i64)] = &[
        (b"$J=G91X10F500\n!\nG91\nG0X1\n", 4, 250),
        (b"$J=G91X10F500\n!~\nG91X1\n", 3, 250),
        (b"$J=G91X10F500\n!\x85\nG91X1\n", 3, 250),
        (b"$J=G91X10F500\n!\n$J=G91X-0.4F500\n", 3, -100),
        (b"$J=G91X10F500\n!\n$10=1\nG10L20P1X7\nX7.004\n", 5, 1),
    ];
    for &(job, lines, behind) in ROWS {
        for words in WORDS {
            let way = way_by(&rt, alloc, words, job, LONG_JOG.len(), lines);
            let cut = way.first.unwrap_or(Cut {
                number: 1,
                place: 2_500,
            });
            // In threads the jog may be over, and then the machine is held until the host resumes it.
            assert!(rt; words.len() == 1 || way.cuts == 1);
            assert!(rt; way.cuts <= 1 && cut.number == 1 && cut.place <= 2_500);
            assert_eq!(rt; way.end, cut.place.saturating_add(behind));
        }
    }
}

#[test]
fn a_cancel_without_a_jog_does_nothing(rt: HostRuntime) {
    let alloc = rt.alloc();
    const ROWS: &[(&[u8], usize, i64)] = &[
        (b"\x85", 1, 0),
        (b"\x85\n", 1, 0),
        (b"\x85\x85G0X1\x85\n\x85", 2, 250),
        (b"G1X1F100\n\x85\nX0.5", 3, 125),
        (b"G1X1F100\n!\n\x85\n~\nX0.5", 5, 125),
        (b"M0\n\x85~\nG0X1", 3, 250),
        (b"$J=G91X0F100\n\x85\nG0X0.004", 3, 1),
        // In a comment it is none.
        (b"$J=G91X10F500\n(\x85)\n;\x85!", 3, 2_500),
    ];
    for &(job, lines, end) in ROWS {
        for words in WORDS {
            let way = way_by(&rt, alloc, words, job, 4096, lines);
            assert!(rt; way.cuts == 0 && way.end == end);
        }
    }
}

#[test]
fn each_cancel_has_a_cut_of_its_own(rt: HostRuntime) {
    let alloc = rt.alloc();
    let job = b"$J=G91X10F500\n\x85\n$J=G91X-20F500\n\n\x85\nG10L20P1X0\n$J=X10F500\n\x85G0X0\n";
    for words in WORDS {
        let way = way_by(&rt, alloc, words, job, 4096, 8);
        let last = way.last.map(|cut| cut.number);
        assert!(rt; words.len() == 1 || way.cuts == 3 && last == Some(7));
        if way.cuts == 3 {
            // The last line goes back to the place of the second cut.
            assert!(rt; way.first.map(|cut| cut.number) == Some(1) && way.end < way.farthest);
        }
    }
}

#[test]
fn a_jog_that_waits_for_room_is_dropped(rt: HostRuntime) {
    let alloc = rt.alloc();
    // The sixteenth jog waits for room in the plan. Two lines behind it fill the link, the second once the fifteenth is
    // answered; so the `!` is scanned while the sixteenth waits. All are answered, and so is the dropped one.
    let job = text_of(
        &rt,
        alloc,
        &[
            (LONG_JOG, 1),
            (b"$J=G91X1F500\n", 15),
            (b"$J=G91X0F1.", 1),
            (b"0", 59),
            (b"\n$J=G91X0F1.", 1),
            (b"0", 28),
            (b"\n!\nG91\nG0X0.004\n", 1),
        ],
    );
    for words in WORDS {
        let way = way_by(&rt, alloc, words, job.as_slice(), 4096, 21);
        let whole = Cut {
            number: 18,
            place: 6_250,
        };
        let cut = way.first.unwrap_or(whole);
        assert!(rt; words.len() == 1 || cut.number == 16 && cut.place < 2_500);
        assert!(rt; way.cuts <= 1 && cut.number <= 18 && cut.place <= 6_250);
        // Jogs that are begun behind an early cut are carried out.
        assert!(rt; cut.number < 16 || way.end == cut.place.saturating_add(1));
    }
}

#[test]
fn reports_say_jog_until_the_machine_is_idle_at_the_cut(rt: HostRuntime) {
    let alloc = rt.alloc();
    // Read in pieces of a line, each once all before it is answered.
    const JOBS: &[&[u8]] = &[
        b"$J=G91X10F500\n\x85          ??\n?             \nG4P0?         \n?",
        b"$J=G91X10F500\n!?            \n?             \nG4P0          \n?",
        b"$J=G91X10F500\n\x85?\n?\n?\n?\n?\n?\n?\n?\n?\n?\n?\n?\n?\n?\n?\n?\nG4P0\n?",
    ];
    for &job in JOBS {
        for words in WORDS {
            let left = left_by(&rt, alloc, words, job, LONG_JOG.len());
            assert_eq!(rt; left.status, Status::Done);
            let way = way_of(left.steps.as_slice());
            assert!(rt; words.len() == 1 || way.cuts == 1);
            let told = reports_of(&rt, alloc, &left);
            let mut jogs = true;
            let mut place: i64 = 0;
            for &(still, at) in told.as_slice() {
                // The state never goes back to Jog, nor does the place.
                assert!(rt; (jogs || !still) && place <= at && (still || at == way.end));
                jogs = still;
                place = at;
            }
            // In threads a machine that has done the jog may be held by the `!`.
            assert!(rt; words.len() == 1 || !jogs && place == way.end);
        }
    }
}
