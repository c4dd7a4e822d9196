//! Jobs in four threads, against the same in lockstep.

use crate::runs::{Left, ROOM, by_subticks, by_subticks_in_threads, in_lockstep, in_threads};
use outside::{Actor, Failed, Gate, MemSink, MemSource, OpenGate, OutOfMemory, Source};
use run_core::{Form, PLAN_SLOTS, RECEIVE_ROOM, Rig, run_threads};
use std::alloc::Global;
use std::process::Abort;
use std::sync::Wait;
use std::sync::atomic::{AtomicU64, Ordering};
use std::test::Fail;
use std::thread::Threads;
use stream_host::Stop;

/// Jobs with moves that begin and end at rest, and no `$` line behind one, so that all that they give is the same in any order of
/// turns; one has words that are refused, and one a line that a soft limit stops.
const JOBS: &[&str] = &[
    "",
    "G0X0.004",
    "G1X1\n\nG0X0.02\nG4P0\n",
    "M3S1000\nG0X0.012Y0.008\nM5\n(a comment)\nG0X0Y0\nM2\n",
    "$$\n$#\nG20\nG10L2P1X0.005\nG54\nG0X0.0001\n",
    "G0X0.004\nG4P0\n$10=1\nX0X1\nG0X0.02\nM30\n",
    "$20=1\nG0X-0.004\nG4P0\nG0X-200.004\nG0X-0.008\n",
];

/// A job with a pause that its host resumes: 4,096 of its polls in a row find no reply before, and each lets other threads run,
/// which takes a while where all processors are busy.
const PAUSED: &str = "G0X0.004\nM0\n~G0X0.02\nM30\n";

/// Two runs of a job leave the same.
fn expect_same(rt: &impl Abort, one: &Left, other: &Left, text: &str) {
    assert!(rt; one.console.held() == other.console.held(), "{text}");
    assert!(rt; one.steps.held() == other.steps.held(), "{text}");
    assert_eq!(rt; one.end, other.end, "{text}");
}

/// A run of a job in threads leaves what one in lockstep does.
fn expect_as_in_lockstep<R: Threads + Wait + Sync + Abort>(
    rt: &R,
    alloc: Global,
    text: &str,
) -> Result<(), Fail> {
    let threads = in_threads(rt, alloc, text, ROOM)?;
    let lockstep = in_lockstep(rt, alloc, text, 7, 5)?;
    expect_same(rt, &threads, &lockstep, text);
    Ok(())
}

#[test]
fn threads_do_what_lockstep_does(rt: HostRuntime) -> Result<(), Fail> {
    for _ in 0..3 {
        for text in JOBS {
            expect_as_in_lockstep(&rt, rt.alloc(), text)?;
        }
    }
    expect_as_in_lockstep(&rt, rt.alloc(), PAUSED)
}

/// Runs by subticks leave the same, in threads and in lockstep, for three seeds.
#[test]
fn subticks_change_no_text(rt: HostRuntime) -> Result<(), Fail> {
    for text in JOBS {
        let plain = in_lockstep(&rt, rt.alloc(), text, 7, 5)?;
        for seed in 0..3u64 {
            let (smooth, _) = by_subticks(&rt, rt.alloc(), text, seed)?;
            expect_same(&rt, &smooth, &plain, text);
        }
        let smooth = by_subticks_in_threads(&rt, rt.alloc(), text)?;
        expect_same(&rt, &smooth, &plain, text);
    }
    Ok(())
}

/// Of a job and the heads of its moves, how many subticks were handed out: 2, 4 or 8 for each event that is slow, one for one that
/// is fast.
const SUBTICKS: &[(&str, u64)] = &[
    ("", 0),
    ("G4P0\n", 0),
    ("G0X0.004", 8),
    ("G0X0.004\nG4P0\nX0\n", 16),
    ("G1X0.008F10\n", 16),
];

#[test]
fn subticks_are_counted(rt: HostRuntime) -> Result<(), Fail> {
    for &(text, subticks) in SUBTICKS {
        for seed in 0..3u64 {
            let (_, counted) = by_subticks(&rt, rt.alloc(), text, seed)?;
            assert_eq!(rt; counted, subticks, "{text}");
        }
    }
    Ok(())
}

/// A console that can't be written ends no run: the steps are whole.
#[test]
fn failing_console_is_told(rt: HostRuntime) -> Result<(), Fail> {
    let left = in_threads(&rt, rt.alloc(), "G0X0.004\n", 0)?;
    assert!(rt; left.steps.held() == b"s 1 1 0 320000\nX+\nE\n".as_slice());
    let end = left.end;
    assert!(rt; end.console_failed && !end.steps_failed && !end.source_failed);
    assert_eq!(rt; end.stop, Stop::End);
    Ok(())
}

/// A gate that counts the passes of the board.
#[derive(Drop)]
struct Passes {
    board: AtomicU64,
}

impl Gate for Passes {
    fn pass(&self, actor: Actor) {
        if actor == Actor::Board {
            self.board.fetch_add(1, Ordering::SeqCst);
        }
    }
}

/// Whether the board passes twice while so many loads are made.
fn passes_twice(passes: &Passes) -> bool {
    let before = passes.board.load(Ordering::SeqCst);
    for _ in 0..100_000_000_u32 {
        if passes.board.load(Ordering::SeqCst).wrapping_sub(before) >= 2 {
            return true;
        }
    }
    false
}

/// A job with one line, at whose first read the board has to pass twice.
#[derive(Drop)]
struct Watching<'a> {
    passes: &'a Passes,
    reads: u64,
    missed: bool,
}

impl Source for Watching<'_> {
    ghost use Rattle.std.specs.Prelude.{None};

    ghost state = { λ s. record { left = None; faults = 0 } };

    fn read(&mut self, buf: &mut [u8]) -> Result<usize, Failed> {
        self.reads = self.reads.wrapping_add(1);
        if self.reads == 1 {
            self.missed = !passes_twice(self.passes);
        }
        let (1, Some(first)) = (self.reads, buf.first_mut()) else {
            return Ok(0);
        };
        *first = b'\n';
        Ok(1)
    }
}

/// Two actors take turns at once: no lock stands round them, and they are in threads of their own.
#[test]
fn gate_two_at_once(rt: HostRuntime) -> Result<(), Fail> {
    let passes = Passes {
        board: AtomicU64::new(0),
    };
    let mut job = Watching {
        passes: &passes,
        reads: 0,
        missed: false,
    };
    let mut console = MemSink::new(rt.alloc(), 400, &[])?;
    let mut steps = MemSink::new(rt.alloc(), 400, &[])?;
    let mut rig = Rig::<RECEIVE_ROOM, PLAN_SLOTS>::new(rt.alloc(), Form::One)?;
    let end = run_threads(&rt, &mut rig, &mut job, &mut console, &mut steps, &passes);
    rig.join();
    assert!(rt; !job.missed);
    assert_eq!(rt; end.answered, 1);
    Ok(())
}

#[test]
fn refused_memory_is_told(rt: HostRuntime) {
    match Rig::<RECEIVE_ROOM, PLAN_SLOTS>::new(rt.alloc(), Form::One) {
        Ok(rig) => rig.join(),
        Err(OutOfMemory) => {}
    }
}

/// More lines than have their place on a link of 255 bytes, in a rig that has such a link.
#[test]
fn wide_rig_runs_a_job(rt: HostRuntime) -> Result<(), Fail> {
    let mut text = Vec::new(rt.alloc());
    for _ in 0..40 {
        text.extend_from_slice(b"G0X0.004\n")?;
    }
    let mut job = MemSource::new(text.as_slice(), 4096, &[]);
    let mut console = MemSink::new(rt.alloc(), 400, &[])?;
    let mut steps = MemSink::new(rt.alloc(), 400, &[])?;
    let mut rig = Rig::<255, 36>::new(rt.alloc(), Form::One)?;
    let end = run_threads(&rt, &mut rig, &mut job, &mut console, &mut steps, &OpenGate);
    rig.join();
    assert_eq!(rt; end.answered, 40);
    assert_eq!(rt; end.errors, 0);
    assert!(rt; steps.held() == b"s 1 1 0 320000\nX+\nE\n".as_slice());
    Ok(())
}
