//! Whole runs in four threads and in lockstep, for `bench/run` to time.
//!
//! Its words are the job (long: moves of 100,000 events; short: moves of one to three; still: lines that move nothing), how
//! its actors run (threads or lockstep), and how many times the job's text of some 4,000 bytes is repeated. With no words, a
//! little of each runs in threads. It tells how many events the steps and how many answers the console came to.
#![tactic(auto)]

mod devices;

use devices::{Count, Repeats};
use outside::{OpenGate, OutOfMemory};
use run_core::{Form, PLAN_SLOTS, RECEIVE_ROOM, Rig, RunEnd, World, run_lockstep, run_threads};
use std::alloc::Global;
use std::process::ExitCode;
use std::sync::Wait;
use std::thread::Threads;
use std::{env, io};

/// The words that the program was called with, without its own name.
fn read_words(rt: &HostRuntime) -> io::Result<Vec<String>> {
    let mut words = Vec::new(rt.alloc());
    for word in env::args(rt)?.skip(1) {
        words.push(word)?;
    }
    Ok(words)
}

/// Some lines of a job, and how many times they stand in its text.
fn lines_of(job: &str) -> Option<(&'static str, u32)> {
    match job {
        "long" => Some(("G1F1000X400Y3\nX0Y0\n", 1)),
        "short" => Some(("G1F1000X0.004\nX0.012\nX0.024\nX0.012\nX0.004\nX0\n", 80)),
        "still" => Some(("G1F100\nG1F200\nG1F300\nG1F400\n", 140)),
        _ => None,
    }
}

/// Runs a job in four threads.
fn in_threads<R: Threads + Wait + Sync>(
    rt: &R,
    alloc: Global,
    job: &mut Repeats,
    console: &mut Count,
    steps: &mut Count,
) -> Result<RunEnd, OutOfMemory> {
    let mut rig = Rig::<RECEIVE_ROOM, PLAN_SLOTS>::new(alloc, Form::One)?;
    let end = run_threads(rt, &mut rig, job, console, steps, &OpenGate);
    rig.join();
    Ok(end)
}

/// Runs it in lockstep.
fn in_lockstep<R: Wait>(
    rt: &R,
    alloc: Global,
    job: &mut Repeats,
    console: &mut Count,
    steps: &mut Count,
) -> Result<RunEnd, OutOfMemory> {
    let mut world = World::<RECEIVE_ROOM, PLAN_SLOTS>::new(alloc, Form::One)?;
    run_lockstep(rt, &mut world, 5, job, console, steps);
    Ok(world.end())
}

/// Runs a job, and tells what came of it.
fn tell<R: Threads + Wait + Sync + Print>(
    rt: &R,
    alloc: Global,
    job: &str,
    how: &str,
    times: u32,
) -> bool {
    let Some((lines, repeated)) = lines_of(job) else {
        return false;
    };
    let Ok(mut source) = Repeats::new(alloc, lines, repeated, times) else {
        return false;
    };
    let mut console = Count::new();
    let mut steps = Count::new();
    let end = match how {
        "threads" => in_threads(rt, alloc, &mut source, &mut console, &mut steps),
        "lockstep" => in_lockstep(rt, alloc, &mut source, &mut console, &mut steps),
        _ => return false,
    };
    match end {
        Ok(end) => {
            println!(rt;
                "{job}: {} answered, {} errors, {} events",
                end.answered,
                end.errors,
                steps.events()
            )
            .is_ok()
        }
        Err(OutOfMemory) => false,
    }
}

/// Runs what the words say.
fn obey<R: Threads + Wait + Sync + Print>(rt: &R, alloc: Global, words: &[String]) -> bool {
    match words {
        [] => {
            tell(rt, alloc, "long", "threads", 1)
                && tell(rt, alloc, "short", "threads", 1)
                && tell(rt, alloc, "still", "threads", 1)
        }
        [job, how, times] => match times.as_str().parse::<u32>() {
            Ok(times) => tell(rt, alloc, job.as_str(), how.as_str(), times),
            Err(_) => false,
        },
        _ => false,
    }
}

fn main(rt: HostRuntime) -> ExitCode {
    let words = read_words(&rt).unwrap_or(Vec::new(rt.alloc()));
    if obey(&rt, rt.alloc(), words.as_slice()) {
        ExitCode::SUCCESS
    } else {
        ExitCode::FAILURE
    }
}
