//! A run of a job by four actors that take turns: in lockstep, or at a pace.

ghost use Rattle.serial_ring.specs.Lists.{IsRoom};
ghost use Rattle.std.specs.Prelude.{◌≡◌, ◌≤◌, ◌-◌, IfOk, OnErr};
ghost use Rattle.actor_turns.specs.Worlds.{History, Holds, Stands, AreDone, Devices, devices, HasRun, HasRunAlone, HasRunCounted, end_after, pins_in};
ghost use Rattle.step_record.specs.declared.forms.Form.{Form};
ghost use Rattle.actor_turns.specs.Orders.{IsCountedRun, IsLockstepRun, IsPacedRun};

use crate::{World, run_lockstep, run_paced};
use motion_pulse::Stepping;
use outside::{OutOfMemory, Sink, Source};
use run_law::RunEnd;
use std::alloc::Global;
use std::sync::Wait;
use step_record::Form;

/// How a run ends, and how many subticks were handed out in it.
#[derive(Clone, Copy, Debug, PartialEq, Eq)]
pub struct CountedEnd {
    pub end: RunEnd,
    /// Up to the largest number that 64 bits hold.
    pub pins: u64,
}

/// How the run of a world ends. The world is dropped here, so that the caller's proof need not follow its fields.
fn end_of<const RX: usize, const N: usize>(world: World<RX, N>) -> CountedEnd
    ensures tells { (hist : History) → Holds world.entry hist → result.end ≡ end_after world.entry hist }
    ensures pins { (hist : History) → Holds world.entry hist → result.pins ≡ pins_in hist }
    ensures whole { (form : Form) (was now : Devices) (hist : History) → Stands form was now world.entry hist → AreDone world.entry → HasRun world.entry.host.attended RX (N - 1) form was now result.end }
    ensures alone { (form : Form) (was now : Devices) (hist : History) → Stands form was now world.entry hist → AreDone world.entry → HasRunAlone world.entry.host.attended RX (N - 1) form was now result.end }
    ensures counted { (form : Form) (was now : Devices) (hist : History) → Stands form was now world.entry hist → AreDone world.entry → HasRunCounted world.entry.host.attended RX (N - 1) form was now result.end hist.stepping result.pins }
{
    CountedEnd {
        end: world.end(),
        pins: world.pins(),
    }
}

/// Runs a job on this thread, in the order of turns that a seed gives, with steps of a form and a pulse of a kind, for a sender that
/// stands by or not, over a link of `RX` bytes and a plan of `N` - 1 blocks. Answers how the run ends, and how many subticks were handed
/// out. All room is taken before the first turn; where there is none, no device is touched.
pub fn count_in_lockstep<R: Wait, So: Source, Co: Sink, St: Sink, const RX: usize, const N: usize>(
    rt: &R,
    alloc: Global,
    form: Form,
    stepping: Stepping,
    attended: bool,
    seed: u64,
    job: &mut So,
    console: &mut Co,
    steps: &mut St,
) -> Result<CountedEnd, OutOfMemory>
    requires room { IsRoom RX }
    requires slots { (2 ≤ N) × (N ≤ 64) }
    ensures run { IfOk result (λ counted. HasRun attended RX (N - 1) form (devices (So.state job.old) (Co.state console.old) (St.state steps.old)) (devices (So.state job.new) (Co.state console.new) (St.state steps.new)) counted.end) }
    ensures order { IfOk result (λ counted. IsCountedRun attended RX N form stepping seed (devices (So.state job.old) (Co.state console.old) (St.state steps.old)) (devices (So.state job.new) (Co.state console.new) (St.state steps.new)) counted.end counted.pins) }
    ensures untouched { OnErr result ((job.new ≡ job.old) × (console.new ≡ console.old) × (steps.new ≡ steps.old)) }
{
    let mut world = World::<RX, N>::stepping(alloc, form, stepping, attended)?;
    run_lockstep(rt, &mut world, seed, job, console, steps);
    Ok(end_of(world))
}

/// Does the same, and answers only how the run ends.
pub fn run_in_lockstep<R: Wait, So: Source, Co: Sink, St: Sink, const RX: usize, const N: usize>(
    rt: &R,
    alloc: Global,
    form: Form,
    stepping: Stepping,
    attended: bool,
    seed: u64,
    job: &mut So,
    console: &mut Co,
    steps: &mut St,
) -> Result<RunEnd, OutOfMemory>
    requires room { IsRoom RX }
    requires slots { (2 ≤ N) × (N ≤ 64) }
    ensures run { IfOk result (λ end. HasRun attended RX (N - 1) form (devices (So.state job.old) (Co.state console.old) (St.state steps.old)) (devices (So.state job.new) (Co.state console.new) (St.state steps.new)) end) }
    ensures order { IfOk result (λ end. IsLockstepRun attended RX N form stepping seed (devices (So.state job.old) (Co.state console.old) (St.state steps.old)) (devices (So.state job.new) (Co.state console.new) (St.state steps.new)) end) }
    ensures untouched { OnErr result ((job.new ≡ job.old) × (console.new ≡ console.old) × (steps.new ≡ steps.old)) }
{
    let counted = count_in_lockstep::<_, _, _, _, RX, N>(
        rt, alloc, form, stepping, attended, seed, job, console, steps,
    )?;
    Ok(counted.end)
}

/// Runs a job on this thread at its pace, host and board first, the motion where both wait, with steps of a form
/// and a pulse of a kind, for a sender that stands by or not. Answers how the run ends. All room is taken before the first turn; where
/// there is none, no device is touched.
pub fn run_at_a_pace<R: Wait, So: Source, Co: Sink, St: Sink, const RX: usize, const N: usize>(
    rt: &R,
    alloc: Global,
    form: Form,
    stepping: Stepping,
    attended: bool,
    job: &mut So,
    console: &mut Co,
    steps: &mut St,
) -> Result<RunEnd, OutOfMemory>
    requires room { IsRoom RX }
    requires slots { (2 ≤ N) × (N ≤ 64) }
    ensures run { IfOk result (λ end. HasRun attended RX (N - 1) form (devices (So.state job.old) (Co.state console.old) (St.state steps.old)) (devices (So.state job.new) (Co.state console.new) (St.state steps.new)) end) }
    ensures order { IfOk result (λ end. IsPacedRun attended RX N form stepping (devices (So.state job.old) (Co.state console.old) (St.state steps.old)) (devices (So.state job.new) (Co.state console.new) (St.state steps.new)) end) }
    ensures untouched { OnErr result ((job.new ≡ job.old) × (console.new ≡ console.old) × (steps.new ≡ steps.old)) }
{
    let mut world = World::<RX, N>::stepping(alloc, form, stepping, attended)?;
    run_paced(rt, &mut world, job, console, steps);
    Ok(end_of(world).end)
}
