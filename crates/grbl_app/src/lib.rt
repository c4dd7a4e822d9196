//! The program: a job is streamed, its lines are answered, and its step events are written.
#![tactic(auto)]

ghost use Rattle.std.specs.Prelude.{◌≡◌, ◌⊎◌, ℕ, List, Some, IfOk, OnErr, map};
ghost use Rattle.outside.specs.Causes.{Rose};
ghost use Rattle.run_status.specs.Complete.{IsAcceptedJob};
ghost use Rattle.command_line.specs.Command.{Asks, IsNamed, Refuses};
ghost use Rattle.command_line.specs.declared.Task.TheVariants as tasks;
ghost use Rattle.motion_pulse.specs.declared.pulse.Stepping.{Stepping};
ghost use Rattle.epoch_law.specs.Devices.{devices};
ghost use Rattle.run_status.specs.Demos.{IsDemo};
ghost use Rattle.grbl_app.specs.Sizes.{setup_of};
ghost use Rattle.grbl_app.specs.Orders.{EndsInOrder, IsOrderedDemo};
ghost use Rattle.run_status.specs.Statuses.{HasItsCause, CanFail, AreOne, TellsFaults};
ghost use Rattle.run_status.specs.Ends.{EndsWith, IsWhole, IsFaultless, HasNotBegun, JobWasRun, HasCauses};

mod demo;
mod runs;

pub use command_line::accepted_words;
use command_line::{StreamOptions, Task, WordsFault, read_words};
use demo::run_demo;
pub use demo_job::demo_line;
use outside::{Gate, OutOfMemory, Sink, Source};
use run_status::status_of;
pub use run_status::{Status, exit_number, put_fault, statuses_have_their_causes};
use runs::run_job;
use std::alloc::Global;
use std::sync::Wait;
use std::thread::Threads;

/// Streams a job as the options say: in lockstep where a seed gives the order of the turns, at a pace, or in four threads. Where
/// there is no room, no device is touched.
fn stream<
    R: Threads + Wait + Sync,
    So: Source + Send,
    Co: Sink + Send,
    St: Sink + Send,
    G: Gate + Sync,
>(
    rt: &R,
    alloc: Global,
    options: StreamOptions,
    job: &mut So,
    console: &mut Co,
    steps: &mut St,
    gate: &G,
) -> Result<Status, OutOfMemory>
    ensures run { IfOk result (λ status. EndsWith (setup_of options) (So.state job.old) (So.state job.new)
        (record { console = Co.state console.old; steps = St.state steps.old })
        (record { console = Co.state console.new; steps = St.state steps.new }) status) }
    ensures causes { IfOk result (λ status. HasCauses (setup_of options) (So.state job.old) (So.state job.new)
        (record { console = Co.state console.old; steps = St.state steps.old })
        (record { console = Co.state console.new; steps = St.state steps.new }) status) }
    ensures its_cause { IfOk result (λ status. HasItsCause (setup_of options) (So.state job.old) (So.state job.new)
        (record { console = Co.state console.old; steps = St.state steps.old })
        (record { console = Co.state console.new; steps = St.state steps.new }) status) }
    ensures order { IfOk result (λ status. EndsInOrder options (devices (So.state job.old) (Co.state console.old) (St.state steps.old)) (devices (So.state job.new) (Co.state console.new) (St.state steps.new)) status) }
    ensures untouched { OnErr result ((job.new ≡ job.old) × (console.new ≡ console.old) × (steps.new ≡ steps.old)) }
{
    let end = run_job(rt, alloc, options, job, console, steps, gate)?;
    Ok(status_of(&end))
}

/// Runs the command that the words name; they do not hold the program's own name.
///
/// `stream`: the job is read to its end, or up to its first 16,777,216 bytes. The banner, and what each line tells and
/// is answered, go to the console; the step events and the marks of the lines answered `ok`, and `E`, to the steps: all of them
/// where no reset, alarm or record fault occurs, and no jog is cancelled. A reset stops the machine at once, drops the lines
/// before it that have no answer, and begins a new epoch where the machine stands. A line beyond a soft limit raises an alarm:
/// nothing of it is done, the machine comes to a stop, and the run ends. A sink that fails is given nothing more, and the run goes on
/// to its end. Each of the four actors has a thread of its own, and passes the gate before each turn. Where a thread can't be
/// started, its actor goes before or behind another one, and such a run may wait for ever. With `--lockstep SEED` the four
/// take turns on this thread, in an order that the seed gives, and pass no gate. With `--paced` they do so too, the host and the
/// board first, and the motion where these two wait, so that its plan is kept full. With `--wide` the link has room for 255 bytes, and
/// the plan for 35 blocks; else, as for `demo`, for 128 and 15. With `--compact` the steps are in form 2, in which equal events that
/// stand together are one line; else, as for `demo`, each record has its line. With `--smooth` the pulse hands out the subticks of each
/// event, so that slow axes step in between; the texts are the same.
///
/// `demo N`: the generated job of N moves is run in lockstep, with N as the seed. The console takes one line on the run, and the
/// job is left as it is. `pins N` does the same by subticks, and its line tells how many there were.
pub fn run_grbl<
    R: Threads + Wait + Sync,
    So: Source + Send,
    Co: Sink + Send,
    St: Sink + Send,
    G: Gate + Sync,
>(
    rt: &R,
    alloc: Global,
    words: &[&str],
    job: &mut So,
    console: &mut Co,
    steps: &mut St,
    gate: &G,
) -> Status
    // Words that the command line refuses are no run, and then nothing is read or written; so it is where there is no
    // memory.
    ensures refused { Refuses (map (λ w. w.now) words.now) → HasNotBegun result }
    ensures usage { result ≡ Status.Usage → Refuses (map (λ w. w.now) words.now) }
    ensures told { ¬ IsNamed (map (λ w. w.now) words.now) → result ≡ Status.Usage }
    ensures untouched { HasNotBegun result →
        (So.state job.new ≡ So.state job.old) × (Co.state console.new ≡ Co.state console.old) × (St.state steps.new ≡ St.state steps.old) }

    // A fault of console or steps comes only where its device's count of faults rose, in the demo too.
    ensures console_fault { result ≡ Status.ConsoleFault → Rose (Co.state console.old).faults (Co.state console.new).faults }
    ensures steps_fault { result ≡ Status.StepsFault → Rose (St.state steps.old).faults (St.state steps.new).faults }

    // A run ends with the first status of the table whose cause there is, and with no other. Words that are refused end with
    // Usage, or, as any words may, with OutOfMemory.
    ensures its_cause { (options : _) → Asks (tasks.Stream options) (map (λ w. w.now) words.now) → JobWasRun result → HasItsCause (setup_of options) (So.state job.old) (So.state job.new)
        (record { console = Co.state console.old; steps = St.state steps.old })
        (record { console = Co.state console.new; steps = St.state steps.new }) result }
    ensures no_other { (options : _) (bytes : List ℕ) (status : Status) → Asks (tasks.Stream options) (map (λ w. w.now) words.now) → JobWasRun result → (So.state job.old).left ≡ Some bytes →
        CanFail (So.state job.old) (record { console = Co.state console.old; steps = St.state steps.old }) →
        HasItsCause (setup_of options) (So.state job.old) (So.state job.new)
        (record { console = Co.state console.old; steps = St.state steps.old })
        (record { console = Co.state console.new; steps = St.state steps.new }) status → AreOne result status }
    ensures first_fault { JobWasRun result → CanFail (So.state job.old) (record { console = Co.state console.old; steps = St.state steps.old }) →
        TellsFaults (So.state job.old) (So.state job.new)
        (record { console = Co.state console.old; steps = St.state steps.old })
        (record { console = Co.state console.new; steps = St.state steps.new }) result }

    // For every job and every interleaving of the threads' atomic steps, in each epoch the recorded step events are, in order and
    // each once, a prefix of the Bresenham events of its lines answered `ok`, and all of them where no reset, alarm or record fault
    // ends it; cancels keep a prefix of the jogs; after a cancel or reset moves start there; holds, resumes and overrides change
    // no event. What that says of a status is the law `statuses_have_their_causes`: a whole run, an alarm's, a job that is cut.
    ensures run { (options : _) → Asks (tasks.Stream options) (map (λ w. w.now) words.now) → JobWasRun result → EndsWith (setup_of options) (So.state job.old) (So.state job.new)
        (record { console = Co.state console.old; steps = St.state steps.old })
        (record { console = Co.state console.new; steps = St.state steps.new }) result }

    // Nothing hides a fault: with `Done` and `LineErrors` no count of faults rose.
    ensures faultless { IsWhole result → IsFaultless (So.state job.old) (So.state job.new)
        (record { console = Co.state console.old; steps = St.state steps.old })
        (record { console = Co.state console.new; steps = St.state steps.new }) }

    // A job whose lines are all accepted is done, where no device fails.
    ensures complete { (options : _) → Asks (tasks.Stream options) (map (λ w. w.now) words.now) → ¬ Refuses (map (λ w. w.now) words.now) → IsAcceptedJob (So.state job.old) →
        ¬ Rose (So.state job.old).faults (So.state job.new).faults →
        ¬ Rose (Co.state console.old).faults (Co.state console.new).faults →
        ¬ Rose (St.state steps.old).faults (St.state steps.new).faults →
        (result ≡ Status.Done) ⊎ (result ≡ Status.OutOfMemory) }

    // The turns are those of the order that the words name, of the seed or at a pace, and the steps are of their form. On one thread
    // the pulse is of the kind that they name.
    ensures order { (options : _) → Asks (tasks.Stream options) (map (λ w. w.now) words.now) → JobWasRun result →
        EndsInOrder options (devices (So.state job.old) (Co.state console.old) (St.state steps.old)) (devices (So.state job.new) (Co.state console.new) (St.state steps.new)) result }

    // The demo runs the generated job, all of whose lines are accepted, in the order of its number, by a pulse of the kind that the
    // words name, and leaves the source as it is. The line on it tells how many subticks that pulse handed out, where it hands out
    // some: the sum over the heads of the records, each n times 2 to the power of its level.
    ensures demo { (n : ℕ) (stepping : Stepping) → Asks (tasks.Demo n stepping) (map (λ w. w.now) words.now) → JobWasRun result →
        IsDemo n stepping (Co.state console.old) (Co.state console.new) (St.state steps.old) (St.state steps.new) result × (So.state job.new ≡ So.state job.old) }
    ensures demo_order { (n : ℕ) (stepping : Stepping) → Asks (tasks.Demo n stepping) (map (λ w. w.now) words.now) → JobWasRun result →
        IsOrderedDemo n stepping (Co.state console.old) (Co.state console.new) (St.state steps.old) (St.state steps.new) result }
{
    let task = match read_words(alloc, words) {
        Ok(task) => task,
        Err(WordsFault::Refused) => return Status::Usage,
        Err(WordsFault::OutOfMemory) => return Status::OutOfMemory,
    };
    match task {
        Task::Stream(options) => {
            match stream(rt, alloc, options, job, console, steps, gate) {
                Ok(status) => status,
                Err(OutOfMemory) => Status::OutOfMemory,
            }
        }
        Task::Demo(moves, stepping) => match run_demo(rt, alloc, moves, stepping, console, steps) {
            Ok(status) => status,
            Err(OutOfMemory) => Status::OutOfMemory,
        },
    }
}
