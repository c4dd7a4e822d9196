//! Jobs with resets, by schedules, in lockstep and in threads.

use crate::runs::{Left, ROOM, in_lockstep, in_order, in_rounds, in_threads};
use outside::{Actor, MemSink, MemSource, On, Turn};
use run_core::{Form, PLAN_SLOTS, RECEIVE_ROOM, RunEnd, World, run_schedule};
use std::alloc::Global;
use std::process::Abort;
use std::test::Fail;
use stream_host::Stop;

/// A job, and what its run must give: the console behind the banner, the steps, how many lines are answered, how many of these with an
/// error, and how it ends.
#[derive(Clone, Copy, Debug)]
struct Row<'a> {
    job: &'a str,
    console: &'a str,
    steps: &'a str,
    answered: u32,
    errors: u32,
    stop: Stop,
}

/// A row that ends with its job.
const ENDS: Row = Row {
    job: "",
    console: "",
    steps: "",
    answered: 1,
    errors: 0,
    stop: Stop::End,
};

/// A read gives seven bytes, so the lines before each reset are answered, but for those of its own line.
const ROWS: &[Row] = &[
    Row {
        job: "\x18",
        console: "\r\nGrbl 1.1h ['$' for help]\r\n\r\nGrbl 1.1h ['$' for help]\r\nok\r\n",
        steps: "Z 0\nE\n",
        ..ENDS
    },
    Row {
        job: "\x18\x18",
        console: "\r\nGrbl 1.1h ['$' for help]\r\n\r\nGrbl 1.1h ['$' for help]\r\n\r\nGrbl 1.1h ['$' for help]\r\nok\r\n",
        steps: "Z 0\nZ 0\nE\n",
        ..ENDS
    },
    Row {
        job: "G4P0.0\n\x18G0X0.004\n",
        console: "\r\nGrbl 1.1h ['$' for help]\r\nok\r\n\r\nGrbl 1.1h ['$' for help]\r\nok\r\n",
        steps: "D 0\nZ 1\ns 2 1 0 320000\nX+\nE\n",
        answered: 2,
        ..ENDS
    },
    Row {
        job: "G1X009\nG\x18G1X1",
        console: "\r\nGrbl 1.1h ['$' for help]\r\nerror:22\r\n\r\nGrbl 1.1h ['$' for help]\r\nerror:22\r\n",
        steps: "Z 1\nE\n",
        answered: 2,
        errors: 2,
        ..ENDS
    },
    Row {
        job: "$20=01\n\x18G0X1\n",
        console: "\r\nGrbl 1.1h ['$' for help]\r\nok\r\n\r\nGrbl 1.1h ['$' for help]\r\nALARM:2\r\n[MSG:Reset to continue]\r\n",
        steps: "Z 1\nE\n",
        stop: Stop::Alarm(2),
        ..ENDS
    },
];

/// A run leaves what its row says.
fn expect(rt: &impl Abort, left: &Left, row: &Row) {
    assert!(rt; left.console.held() == row.console.as_bytes(), "{row:?}");
    assert!(rt; left.steps.held() == row.steps.as_bytes(), "{row:?}");
    let end = RunEnd {
        stop: row.stop,
        answered: row.answered,
        errors: row.errors,
        source_failed: false,
        console_failed: false,
        steps_failed: false,
    };
    assert_eq!(rt; left.end, end, "{row:?}");
}

#[test]
fn jobs_go_on_behind_resets(rt: HostRuntime) -> Result<(), Fail> {
    for row in ROWS {
        expect(&rt, &in_rounds(rt.alloc(), row.job)?, row);
        for seed in [0, 1, u64::MAX] {
            expect(&rt, &in_lockstep(&rt, rt.alloc(), row.job, 7, seed)?, row);
        }
        for _ in 0..5 {
            expect(&rt, &in_threads(&rt, rt.alloc(), row.job, ROOM)?, row);
        }
    }
    Ok(())
}

/// Resets in motion, in a hold, in a dwell and twice in a line: what a run leaves depends on the order of the turns.
const MIXED: &str =
    "F100\nG1X0.1\n\x18?\n$X\nG1F50X0Y0.02\n!\n\x18?\n$X\n$J=G91X0.1F500\n\u{85}\n\x18\x18$X\nG0X0\nG4P1\n\x18?\n$X\n";

/// Turns in which nothing would change may be passed over; so it must leave the same as turns that are taken one by one.
#[test]
fn lockstep_is_turn_by_turn_over_resets(rt: HostRuntime) -> Result<(), Fail> {
    for seed in [0, 1, 2, 3, 99, u64::MAX] {
        let left = in_lockstep(&rt, rt.alloc(), MIXED, 7, seed)?;
        let one_by_one = in_order(rt.alloc(), MIXED, seed)?;
        assert!(rt; left.console.held() == one_by_one.console.held(), "{seed}");
        assert!(rt; left.steps.held() == one_by_one.steps.held(), "{seed}");
        assert_eq!(rt; left.end, one_by_one.end, "{seed}");
        assert!(rt; left.steps.held().ends_with(b"E\n"), "{seed}");
    }
    Ok(())
}

/// Two lists of as many replies as may wait for the host, and a reset.
const LISTS: &str = "$$\n$$\n\x18";

/// What a list tells.
const LIST: &str =
    "$10=1\r\n$11=0.010\r\n$20=0\r\n$100=250.000\r\n$101=250.000\r\n$102=250.000\r\n$110=500.000\r\n$111=500.000\r\n$112=500.000\r\n$120=10.000\r\n$121=10.000\r\n$122=10.000\r\n$130=200.000\r\n$131=200.000\r\n$132=200.000\r\nok\r\n";

/// The banner.
const BANNER: &str = "\r\nGrbl 1.1h ['$' for help]\r\n";

/// How many lists stand between the two banners of a console, if it ends with one `ok` behind them.
fn lists_in(console: &[u8]) -> Option<usize> {
    let mut rest = console.strip_prefix(BANNER.as_bytes())?;
    let mut count = 0usize;
    for _ in 0..2 {
        if let Some(behind) = rest.strip_prefix(LIST.as_bytes()) {
            rest = behind;
            count = count.saturating_add(1);
        }
    }
    let rest = rest.strip_prefix(BANNER.as_bytes())?;
    if rest == b"ok\r\n".as_slice() {
        Some(count)
    } else {
        None
    }
}

/// Runs the lists: the banner goes to the host, which takes so many turns alone, and the board many. Then the host raises the reset
/// unless it has done so, and all take turns. Answers what is told and recorded, and whether the board had no room for a reply before.
fn lists_behind(alloc: Global, turns: usize) -> Result<(bool, Left<'static>), Fail> {
    let mut console = MemSink::new(alloc, 4000, &[])?;
    let mut steps = MemSink::new(alloc, 400, &[])?;
    let mut job = MemSource::new(LISTS.as_bytes(), 7, &[]);
    let mut world = World::<RECEIVE_ROOM, PLAN_SLOTS>::new(alloc, Form::One)?;
    world.turn(Actor::Board, &mut job, &mut console, &mut steps);
    for _ in 0..turns {
        world.turn(Actor::Host, &mut job, &mut console, &mut steps);
    }
    let boards = [Actor::Board; 100];
    run_schedule(&mut world, &boards, &mut job, &mut console, &mut steps);
    let mut is_full = false;
    for _ in 0..4 {
        let turn = world.turn(Actor::Board, &mut job, &mut console, &mut steps);
        is_full = is_full || turn == Turn::Wait(On::ReplyRoom);
    }
    let hosts = [Actor::Host; 60];
    run_schedule(&mut world, &hosts, &mut job, &mut console, &mut steps);
    let everyone = [Actor::Host, Actor::Board, Actor::Pulse, Actor::Record];
    for _ in 0..400 {
        run_schedule(&mut world, &everyone, &mut job, &mut console, &mut steps);
    }
    let end = world.end();
    Ok((
        is_full,
        Left {
            console,
            steps,
            end,
        },
    ))
}

/// A reset that comes while the replies of a line wait for room is worked once the line is answered.
#[test]
fn full_replies_keep_a_reset_back(rt: HostRuntime) -> Result<(), Fail> {
    let mut full = 0usize;
    for turns in 0..30 {
        let (is_full, left) = lists_behind(rt.alloc(), turns)?;
        let lists = lists_in(left.console.held());
        assert!(rt; lists.is_some(), "{turns}");
        let steps = left.steps.held();
        if is_full {
            full = full.saturating_add(1);
            assert_eq!(rt; lists, Some(2), "{turns}");
            assert!(rt; steps == b"Z 2\nE\n".as_slice(), "{turns}");
        }
        assert!(rt;
            steps.starts_with(b"Z ") && steps.ends_with(b"\nE\n"),
            "{turns}"
        );
    }
    assert!(rt; full > 0);
    Ok(())
}
