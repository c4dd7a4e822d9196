//! The demo: the generated job is run in lockstep, and one line tells of it.

ghost use Rattle.std.specs.Prelude.{◌≡◌, ◌≤◌, ◌+◌, not, is_ok, IfOk, OnErr};
ghost use Rattle.outside.specs.Writing.{Took};
ghost use Rattle.run_status.specs.Demos.{IsDemo, demo_text};
ghost use Rattle.grbl_app.specs.Orders.{IsOrderedDemo};

use actor_turns::{CountedEnd, count_in_lockstep};
use controller::PLAN_SLOTS;
use demo_job::{Answers, DemoJob, NoConsole, tell_pins, tell_summary};
use motion_pulse::Stepping;
use outside::{Failed, OutOfMemory, Sink};
use run_law::RunEnd;
use run_status::{Status, status_of};
use serial_ring::RECEIVE_ROOM;
use std::alloc::Global;
use std::sync::Wait;
use step_record::Form;

/// Gives the console the line on a run of the generated job: all of it, or a front of it if the console fails.
fn tell_run<Co: Sink>(
    moves: u32,
    stepping: Stepping,
    counted: &CountedEnd,
    console: &mut Co,
) -> Result<(), Failed>
    requires moves { (1 ≤ moves) × (moves ≤ 100000) }
    ensures { counted.now.end.answered ≡ moves + 3 → counted.now.end.errors ≡ 0 →
        Took (Co.state console.old) (Co.state console.new) (not (is_ok result)) (demo_text stepping moves counted.now.pins) }
{
    match stepping {
        Stepping::Events => {
            let answers = Answers {
                ok: counted.end.answered.saturating_sub(counted.end.errors),
                error: counted.end.errors,
            };
            tell_summary(moves, answers, console)
        }
        Stepping::Subticks => tell_pins(moves, counted.pins, console),
    }
}

/// Runs the generated job of so many moves in lockstep, with that number as the seed, event by event or by subticks. What its lines are
/// answered is not shown: the console takes one line on the run. The steps take those of the job. Where there is no room, neither is
/// touched.
pub(crate) fn run_demo<R: Wait, Co: Sink, St: Sink>(
    rt: &R,
    alloc: Global,
    moves: u32,
    stepping: Stepping,
    console: &mut Co,
    steps: &mut St,
) -> Result<Status, OutOfMemory>
    requires moves { (1 ≤ moves) × (moves ≤ 100000) }
    ensures run { IfOk result (λ status. IsDemo moves stepping (Co.state console.old) (Co.state console.new) (St.state steps.old) (St.state steps.new) status) }
    ensures order { IfOk result (λ status. IsOrderedDemo moves stepping (Co.state console.old) (Co.state console.new) (St.state steps.old) (St.state steps.new) status) }
    ensures untouched { OnErr result ((console.new ≡ console.old) × (steps.new ≡ steps.old)) }
{
    let mut job = DemoJob::new(moves);
    let counted = count_in_lockstep::<_, _, _, _, RECEIVE_ROOM, PLAN_SLOTS>(
        rt,
        alloc,
        Form::One,
        stepping,
        false,
        moves as u64,
        &mut job,
        &mut NoConsole,
        steps,
    )?;
    let console_failed = tell_run(moves, stepping, &counted, console).is_err();
    Ok(status_of(&RunEnd {
        console_failed,
        ..counted.end
    }))
}
