//! A run of a job, as the command asks for it.

ghost use Rattle.std.specs.Prelude.{◌≡◌, ◌≤◌, ◌-◌, IfOk, OnErr};
ghost use Rattle.serial_ring.specs.Lists.{IsRoom};
ghost use Rattle.epoch_law.specs.Devices.{devices, HasRun};
ghost use Rattle.grbl_app.specs.Orders.{GoesBy};
ghost use Rattle.grbl_app.specs.Sizes.{room_of, slots_of};

use actor_turns::{run_at_a_pace, run_in_lockstep};
use command_line::{Buffers, Order, StreamOptions};
use controller::PLAN_SLOTS;
use outside::{Gate, OutOfMemory, Sink, Source};
use run_law::RunEnd;
use serial_ring::RECEIVE_ROOM;
use std::alloc::Global;
use std::sync::Wait;
use std::thread::Threads;
use thread_rig::run_in_threads;

/// How many bytes may be unread on a wide link.
const WIDE_ROOM: usize = 255;

/// How many slots a wide plan has.
const WIDE_SLOTS: usize = 36;

/// Runs a job as the options say, over a link of `RX` bytes and a plan of `N` - 1 blocks: in lockstep where a seed gives the order of the
/// turns, at a pace, or in four threads.
fn run_sized<
    R: Threads + Wait + Sync,
    So: Source + Send,
    Co: Sink + Send,
    St: Sink + Send,
    G: Gate + Sync,
    const RX: usize,
    const N: usize,
>(
    rt: &R,
    alloc: Global,
    options: StreamOptions,
    job: &mut So,
    console: &mut Co,
    steps: &mut St,
    gate: &G,
) -> Result<RunEnd, OutOfMemory>
    requires room { IsRoom RX }
    requires slots { (2 ≤ N) × (N ≤ 64) }
    ensures run { IfOk result (λ end. HasRun options.attended RX (N - 1) options.form (devices (So.state job.old) (Co.state console.old) (St.state steps.old)) (devices (So.state job.new) (Co.state console.new) (St.state steps.new)) end) }
    ensures order { IfOk result (λ end. GoesBy RX N options (devices (So.state job.old) (Co.state console.old) (St.state steps.old)) (devices (So.state job.new) (Co.state console.new) (St.state steps.new)) end) }
    ensures untouched { OnErr result ((job.new ≡ job.old) × (console.new ≡ console.old) × (steps.new ≡ steps.old)) }
{
    let form = options.form;
    let stepping = options.stepping;
    let attended = options.attended;
    match options.order {
        Order::Lockstep(seed) => {
            run_in_lockstep::<_, _, _, _, RX, N>(
                rt, alloc, form, stepping, attended, seed, job, console, steps,
            )
        }
        Order::Paced => {
            run_at_a_pace::<_, _, _, _, RX, N>(
                rt, alloc, form, stepping, attended, job, console, steps,
            )
        }
        Order::Threads => run_in_threads::<_, _, _, _, _, RX, N>(
            rt, alloc, form, stepping, attended, job, console, steps, gate,
        ),
    }
}

/// Runs a job as the options say, over a link and a plan of the sizes that they name.
pub(crate) fn run_job<
    R: Threads + Wait + Sync,
    So: Source + Send,
    Co: Sink + Send,
    St: Sink + Send,
    G: Gate + Sync,
>(
    rt: &R,
    alloc: Global,
    options: StreamOptions,
    job: &mut So,
    console: &mut Co,
    steps: &mut St,
    gate: &G,
) -> Result<RunEnd, OutOfMemory>
    ensures run { IfOk result (λ end. HasRun options.attended (room_of options.buffers) (slots_of options.buffers - 1) options.form (devices (So.state job.old) (Co.state console.old) (St.state steps.old)) (devices (So.state job.new) (Co.state console.new) (St.state steps.new)) end) }
    ensures order { IfOk result (λ end. GoesBy (room_of options.buffers) (slots_of options.buffers) options (devices (So.state job.old) (Co.state console.old) (St.state steps.old)) (devices (So.state job.new) (Co.state console.new) (St.state steps.new)) end) }
    ensures untouched { OnErr result ((job.new ≡ job.old) × (console.new ≡ console.old) × (steps.new ≡ steps.old)) }
{
    match options.buffers {
        Buffers::Standard => run_sized::<_, _, _, _, _, RECEIVE_ROOM, PLAN_SLOTS>(
            rt, alloc, options, job, console, steps, gate,
        ),
        Buffers::Wide => run_sized::<_, _, _, _, _, WIDE_ROOM, WIDE_SLOTS>(
            rt, alloc, options, job, console, steps, gate,
        ),
    }
}
