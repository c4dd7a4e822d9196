//! Whole jobs, by a schedule and in lockstep, and a host alone.

ghost use Rattle.serial_ring.specs.Lists.{IsRoom};

use crate::runs::{Left, in_lockstep, in_order, in_rounds};
use outside::{Actor, MemSink, MemSource, On, OutOfMemory, Turn};
use run_core::{Form, PLAN_SLOTS, RECEIVE_ROOM, RunEnd, World, run_schedule};
use std::alloc::Global;
use std::process::Abort;
use std::test::Fail;
use stream_host::Stop;

/// A job, and what its run must give: the console behind the banner, the steps, and how it ends.
#[derive(Clone, Copy, Debug)]
struct Row<'a> {
    job: &'a str,
    console: &'a str,
    steps: &'a str,
    answered: u32,
    errors: u32,
    stop: Stop,
}

/// Worked rows. The last two end in a line that a soft limit stops.
const ROWS: &[Row] = &[
    Row {
        job: "",
        console: "\r\nGrbl 1.1h ['$' for help]\r\n",
        steps: "E\n",
        answered: 0,
        errors: 0,
        stop: Stop::End,
    },
    Row {
        job: "G0X0.004",
        console: "\r\nGrbl 1.1h ['$' for help]\r\nok\r\n",
        steps: "s 1 1 0 320000\nX+\nE\n",
        answered: 1,
        errors: 0,
        stop: Stop::End,
    },
    Row {
        job: "G1X1",
        console: "\r\nGrbl 1.1h ['$' for help]\r\nerror:22\r\n",
        steps: "E\n",
        answered: 1,
        errors: 1,
        stop: Stop::End,
    },
    Row {
        job: "G0X0\n\nG4P0\n",
        console: "\r\nGrbl 1.1h ['$' for help]\r\nok\r\nok\r\nok\r\n",
        steps: "D 0\nE\n",
        answered: 3,
        errors: 0,
        stop: Stop::End,
    },
    Row {
        job: "G20\nG0X0.0001",
        console: "\r\nGrbl 1.1h ['$' for help]\r\nok\r\nok\r\n",
        steps: "s 2 1 0 320000\nX+\nE\n",
        answered: 2,
        errors: 0,
        stop: Stop::End,
    },
    Row {
        job: "$20=1\nG0X0.004\nG0X0\n",
        console: "\r\nGrbl 1.1h ['$' for help]\r\nok\r\nALARM:2\r\n[MSG:Reset to continue]\r\n",
        steps: "E\n",
        answered: 1,
        errors: 0,
        stop: Stop::Alarm(2),
    },
    Row {
        job: "$20=1\nG0X-0.004\nG4P0\nG0X-200.004\nG0X-0.008\n",
        console: "\r\nGrbl 1.1h ['$' for help]\r\nok\r\nok\r\nok\r\nALARM:2\r\n[MSG:Reset to continue]\r\n",
        steps: "s 2 1 0 320000\nX-\nD 0\nE\n",
        answered: 3,
        errors: 0,
        stop: Stop::Alarm(4),
    },
];

/// What a run of a row ends with.
fn end_of(row: &Row) -> RunEnd {
    RunEnd {
        stop: row.stop,
        answered: row.answered,
        errors: row.errors,
        source_failed: false,
        console_failed: false,
        steps_failed: false,
    }
}

/// A run leaves what its row says.
fn expect(rt: &impl Abort, left: &Left, row: &Row) {
    assert!(rt; left.console.held() == row.console.as_bytes(), "{row:?}");
    assert!(rt; left.steps.held() == row.steps.as_bytes(), "{row:?}");
    assert_eq!(rt; left.end, end_of(row), "{row:?}");
}

#[test]
fn jobs_are_done_by_a_schedule(rt: HostRuntime) -> Result<(), Fail> {
    for row in ROWS {
        expect(&rt, &in_rounds(rt.alloc(), row.job)?, row);
    }
    Ok(())
}

#[test]
fn jobs_are_done_in_lockstep(rt: HostRuntime) -> Result<(), Fail> {
    for row in ROWS {
        for seed in [0, 1, u64::MAX] {
            expect(&rt, &in_lockstep(&rt, rt.alloc(), row.job, 7, seed)?, row);
        }
    }
    Ok(())
}

/// Lines that move nothing between moves, a rest, a hold, reports and a list: what a run leaves depends on the order of the turns.
const MIXED: &str =
    "F100\nG1X0.1\nF200\n?\nF300\nX0\nG4P0\n?\n!\n~\n$G\nF400\nX0.02Y0.02\nX0\nG91\nX0.004\n\n\nY0.01\n?\nF5\n";

/// Turns in which nothing would change may be passed over; so it must leave the same as turns that are taken one by one.
#[test]
fn lockstep_is_turn_by_turn(rt: HostRuntime) -> Result<(), Fail> {
    for seed in [0, 1, 2, 3, 99, u64::MAX] {
        let left = in_lockstep(&rt, rt.alloc(), MIXED, 7, seed)?;
        let one_by_one = in_order(rt.alloc(), MIXED, seed)?;
        assert!(rt; left.console.held() == one_by_one.console.held(), "{seed}");
        assert!(rt; left.steps.held() == one_by_one.steps.held(), "{seed}");
        assert_eq!(rt; left.end, one_by_one.end, "{seed}");
        assert!(rt; left.steps.held().ends_with(b"E\n"), "{seed}");
    }
    Ok(())
}

/// A line of two `?` has one report, or two where the board takes the first before the host raises the second.
#[test]
fn line_of_two_queries_has_one_report_or_two(rt: HostRuntime) -> Result<(), Fail> {
    let (mut least, mut most) = (9, 0);
    for seed in 0..8 {
        let left = in_lockstep(&rt, rt.alloc(), "\n??\n\n", 7, seed)?;
        let reports = left.console.held().iter().filter(|b| **b == b'<').count();
        least = least.min(reports);
        most = most.max(reports);
    }
    assert_eq!(rt; (least, most), (1, 2));
    Ok(())
}

/// A job, and its steps.
const HELD: &[(&str, &str)] = &[
    ("M0\nG0X0.004\n", "s 2 1 0 320000\nX+\nE\n"),
    ("!G0X0.004\n\n", "s 1 1 0 320000\nX+\nE\n"),
    ("M0\n~G0X0.004\n", "s 2 1 0 320000\nX+\nE\n"),
];

/// Nobody resumes the machine but the host by itself.
#[test]
fn held_machines_are_resumed(rt: HostRuntime) -> Result<(), Fail> {
    for (text, records) in HELD {
        let left = in_lockstep(&rt, rt.alloc(), text, 3, 0)?;
        assert!(rt; left.steps.held() == records.as_bytes(), "{text}");
        assert_eq!(rt; left.end.answered, 2, "{text}");
        assert_eq!(rt; left.end.errors, 0, "{text}");
    }
    Ok(())
}

/// A host that nobody tells anything reads on after 2,048 polls, and sends lines of twenty bytes until no more stand on the link. How
/// many these are: a board that takes all finds as many, and has answered no other once the host has every answer.
fn lines_sent_alone<R: Abort, const RX: usize>(rt: &R, alloc: Global) -> Result<u32, OutOfMemory>
    requires { IsRoom RX }
{
    let mut text = Vec::new(alloc);
    for _ in 0..40 {
        text.extend_from_slice(b"G1X1.0000Y1.0000F10\n")?;
    }
    let mut job = MemSource::new(text.as_slice(), 4096, &[]);
    let mut console = MemSink::new(alloc, 400, &[])?;
    let mut steps = MemSink::new(alloc, 400, &[])?;
    let mut world = World::<RX, PLAN_SLOTS>::new(alloc, Form::One)?;
    let hosts = [Actor::Host; 2_400];
    run_schedule(&mut world, &hosts, &mut job, &mut console, &mut steps);
    let last = world.turn(Actor::Host, &mut job, &mut console, &mut steps);
    assert_eq!(rt; last, Turn::Wait(On::Answer));
    let boards = [Actor::Board; 2_000];
    run_schedule(&mut world, &boards, &mut job, &mut console, &mut steps);
    run_schedule(&mut world, &hosts, &mut job, &mut console, &mut steps);
    Ok(world.end().answered)
}

#[test]
fn host_alone_sends_six_of_forty_lines(rt: HostRuntime) -> Result<(), Fail> {
    let answered = lines_sent_alone::<_, RECEIVE_ROOM>(&rt, rt.alloc())?;
    assert_eq!(rt; answered, 6);
    Ok(())
}

#[test]
fn host_alone_sends_twelve_of_them_over_a_wide_link(rt: HostRuntime) -> Result<(), Fail> {
    let answered = lines_sent_alone::<_, 255>(&rt, rt.alloc())?;
    assert_eq!(rt; answered, 12);
    Ok(())
}
