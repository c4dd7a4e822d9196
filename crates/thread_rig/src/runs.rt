//! A run of a job by four actors, each in a thread of its own.

ghost use Rattle.serial_ring.specs.Lists.{IsRoom};
ghost use Rattle.std.specs.Prelude.{◌≡◌, ◌≤◌, ◌-◌, IfOk, OnErr};
ghost use Rattle.run_law.specs.Devices.{devices};
ghost use Rattle.epoch_law.specs.Devices.{HasRun};

use crate::{Rig, rigs_run, run_threads};
use motion_pulse::Stepping;
use outside::{Gate, OutOfMemory, Sink, Source};
use run_law::RunEnd;
use std::alloc::Global;
use std::sync::Wait;
use std::thread::Threads;
use step_record::Form;

/// Runs a job in four threads, one for each actor, with steps of a form and a pulse of a kind, for a sender that stands by or not, over a
/// link of `RX` bytes and a plan of `N` - 1 blocks, and answers how the run ends. Each turn is taken once the gate is passed. All room is
/// taken before the first turn; where there is none, no device is touched.
pub fn run_in_threads<
    R: Threads + Wait + Sync,
    So: Source + Send,
    Co: Sink + Send,
    St: Sink + Send,
    G: Gate + Sync,
    const RX: usize,
    const N: usize,
>(
    rt: &R,
    alloc: Global,
    form: Form,
    stepping: Stepping,
    attended: bool,
    job: &mut So,
    console: &mut Co,
    steps: &mut St,
    gate: &G,
) -> Result<RunEnd, OutOfMemory>
    requires room { IsRoom RX }
    requires slots { (2 ≤ N) × (N ≤ 64) }
    ensures run { IfOk result (λ end. HasRun attended RX (N - 1) form (devices (So.state job.old) (Co.state console.old) (St.state steps.old)) (devices (So.state job.new) (Co.state console.new) (St.state steps.new)) end) }
    ensures untouched { OnErr result ((job.new ≡ job.old) × (console.new ≡ console.old) × (steps.new ≡ steps.old)) }
{
    let mut rig = Rig::<RX, N>::stepping(alloc, form, stepping, attended)?;
    let end = run_threads(rt, &mut rig, job, console, steps, gate);
    rig.join();
    rigs_run();
    Ok(end)
}
