//! The Grbl interpreter: a job from standard input, replies to standard output, step events to `steps.out`.
#![tactic(auto)]

ghost use Rattle.std.specs.Prelude.{◌≡◌, ◌↔◌, Bool, map, IfOk, IfErr};
ghost use Rattle.std.specs.IoError.{error_kind};
ghost use Rattle.std.specs.Process.{exit_status};
ghost use Rattle.std.specs.String.{string_bytes};
ghost use Rattle.command_line.specs.Command.{Asks, Refuses};
ghost use Rattle.command_line.specs.declared.Task.TheVariants as tasks;
ghost use Rattle.grbl_app.specs.Ends.{EndsWith, HasNotBegun, JobWasRun};
ghost use Rattle.grbl_app.specs.Faults.{exit_number_of, fault_text};
ghost use Rattle.grbl_app.specs.Sizes.{setup_of};
ghost use Rattle.outside.specs.Writing.{Took};

use grbl_app::{Status, exit_number, put_fault, run_grbl};
use outside::{Gate, ReadSource, Sink, Source, WriteSink, write_text};
use std::alloc::{AllocError, Global};
use std::fs;
use std::io::{self, ErrorKind};
use std::process::ExitCode;
use std::sync::Wait;
use std::thread::Threads;
use system_io::{Limited, RestingGate, StepsFile, as_strs, read_words};
use units::Text;

/// How a run ends whose words could not be read. Words that are no text are no command.
fn words_fault(error: &io::Error) -> Status
    ensures memory { result ≡ Status.OutOfMemory ↔ error_kind error.now ≡ ErrorKind.OutOfMemory }
    ensures refused { (error_kind error.now ≡ ErrorKind.OutOfMemory → ⊥) → result ≡ Status.Usage }
{
    match error.kind() {
        ErrorKind::OutOfMemory => Status::OutOfMemory,
        _ => Status::Usage,
    }
}

/// Runs the command that the words name, where they could be read: the job is its source, the replies go to the console, and the
/// step events to the steps.
fn run<
    R: Threads + Wait + Sync,
    So: Source + Send,
    Co: Sink + Send,
    St: Sink + Send,
    G: Gate + Sync,
>(
    rt: &R,
    alloc: Global,
    words: io::Result<Vec<String>>,
    job: &mut So,
    console: &mut Co,
    steps: &mut St,
    gate: &G,
) -> Status
    ensures unread { IfErr words (λ error. HasNotBegun result) }
    ensures refused { IfOk words (λ owned. Refuses (map (λ w. string_bytes w) owned.items) → HasNotBegun result) }
    ensures usage { IfOk words (λ owned. result ≡ Status.Usage → Refuses (map (λ w. string_bytes w) owned.items)) }
    ensures untouched { HasNotBegun result →
        (So.state job.new ≡ So.state job.old) × (Co.state console.new ≡ Co.state console.old) × (St.state steps.new ≡ St.state steps.old) }
    ensures run { IfOk words (λ owned. (options : _) → Asks (tasks.Stream options) (map (λ w. string_bytes w) owned.items) → JobWasRun result → EndsWith (setup_of options) (So.state job.old) (So.state job.new)
        (record { console = Co.state console.old; steps = St.state steps.old })
        (record { console = Co.state console.new; steps = St.state steps.new }) result) }
{
    let owned = match words {
        Ok(owned) => owned,
        Err(error) => return words_fault(&error),
    };
    match as_strs(alloc, owned.as_slice()) {
        Ok(words) => run_grbl(rt, alloc, words.as_slice(), job, console, steps, gate),
        Err(AllocError) => Status::OutOfMemory,
    }
}

/// Tells on standard error what did not go well, as far as that can be written, and answers with the number that the program ends
/// with.
fn end<E: Sink>(status: &Status, errors: &mut E) -> ExitCode
    ensures number { exit_status result ≡ exit_number_of status.now }
    ensures told { (failed : Bool) × Took (E.state errors.old) (E.state errors.new) failed (fault_text status.now) }
{
    let mut text = Text::new();
    put_fault(status, &mut text);
    let _ = write_text(text.as_slice(), errors);
    ExitCode::from(exit_number(status))
}

fn main(rt: HostRuntime) -> ExitCode {
    // Standard input, output or error that is closed is a folder from here on, so that no file takes its place: what is
    // read of it or written to it fails.
    let _first = fs::open(&rt, "/");
    let _second = fs::open(&rt, "/");
    let _third = fs::open(&rt, "/");
    let mut job = ReadSource::new(rt.stdin());
    let mut console = WriteSink::new(Limited::stdout(&rt));
    let mut steps = WriteSink::new(StepsFile::new(&rt));
    let mut errors = WriteSink::new(Limited::stderr(&rt));
    let gate = RestingGate::new(&rt);
    let status = run(
        &rt,
        rt.alloc(),
        read_words(&rt),
        &mut job,
        &mut console,
        &mut steps,
        &gate,
    );
    end(&status, &mut errors)
}
