//! What the gate hears of each actor in threads, against its turns.

use outside::{Actor, Failed, Gate, MemSource, On, OutOfMemory, Sink, Turn};
use run_core::{Form, PLAN_SLOTS, RECEIVE_ROOM, Rig, World, run_threads};
use std::alloc::Global;
use std::process::Abort;
use std::sync::Wait;
use std::sync::atomic::{AtomicU64, Ordering};
use std::test::Fail;
use std::thread::{self, Threads};

const ACTORS: [Actor; 4] = [Actor::Host, Actor::Board, Actor::Pulse, Actor::Record];

/// Jobs for which each actor does as many things in any order of turns, but for its writes. A read gives one byte, so what stands before
/// a reset is answered, and done. A piece stands before the first: a ring whose pulse got none is not told to halt.
const JOBS: &[&str] = &[
    "",
    "G4P0",
    "G0X0.004\n",
    "M3S5\nG0X0.004Y0.004\nM5\n$20=1\n",
    "M3S5\n\x18G0X0.004\nG4P0\n\x18\x18M5\n",
];

/// What a gate has heard of one actor: passes, waits, and those waits that came behind no pass of their own.
#[derive(Drop)]
struct Heard {
    passes: AtomicU64,
    waits: AtomicU64,
    stray: AtomicU64,
    in_turn: AtomicU64,
}

impl Heard {
    fn new() -> Heard {
        Heard {
            passes: AtomicU64::new(0),
            waits: AtomicU64::new(0),
            stray: AtomicU64::new(0),
            in_turn: AtomicU64::new(0),
        }
    }

    fn pass(&self) {
        self.passes.fetch_add(1, Ordering::SeqCst);
        self.in_turn.store(1, Ordering::SeqCst);
    }

    fn wait(&self) {
        self.waits.fetch_add(1, Ordering::SeqCst);
        if self.in_turn.swap(0, Ordering::SeqCst) == 0 {
            self.stray.fetch_add(1, Ordering::SeqCst);
        }
    }
}

/// A gate that writes down what it hears.
#[derive(Drop)]
struct Listening {
    host: Heard,
    board: Heard,
    pulse: Heard,
    recorder: Heard,
}

impl Listening {
    fn new() -> Listening {
        Listening {
            host: Heard::new(),
            board: Heard::new(),
            pulse: Heard::new(),
            recorder: Heard::new(),
        }
    }

    fn of(&self, actor: Actor) -> &Heard {
        match actor {
            Actor::Host => &self.host,
            Actor::Board => &self.board,
            Actor::Pulse => &self.pulse,
            Actor::Record => &self.recorder,
        }
    }
}

impl Gate for Listening {
    fn pass(&self, actor: Actor) {
        self.of(actor).pass();
    }

    fn wait(&self, actor: Actor, _on: On) {
        self.of(actor).wait();
    }
}

/// A sink that counts the calls that write to it.
#[derive(Drop)]
struct Writes {
    calls: u64,
}

impl Sink for Writes {
    ghost use Rattle.std.specs.Prelude.{None};

    ghost state = { λ _. record { held = None; faults = 0 } };

    fn write(&mut self, piece: &[u8]) -> Result<usize, Failed> {
        self.calls = self.calls.saturating_add(1);
        Ok(piece.len())
    }
}

/// Where the host and the recorder write.
#[derive(Drop)]
struct Outputs {
    console: Writes,
    steps: Writes,
}

impl Outputs {
    fn new() -> Outputs {
        Outputs {
            console: Writes { calls: 0 },
            steps: Writes { calls: 0 },
        }
    }

    /// How many turns of an actor have written.
    fn of(&self, actor: Actor) -> u64 {
        match actor {
            Actor::Host => self.console.calls,
            Actor::Record => self.steps.calls,
            Actor::Board | Actor::Pulse => 0,
        }
    }
}

/// How many turns an actor has behind each that waits which look whether something has come, and do nothing else: the board
/// takes its two words of flags.
fn looks(actor: Actor) -> u64 {
    match actor {
        Actor::Board => 2,
        Actor::Host | Actor::Pulse | Actor::Record => 0,
    }
}

/// How many turns of an actor do something else than look and write, if all take turns one by one.
fn turns_that_do(alloc: Global, text: &str, which: Actor) -> Result<u64, OutOfMemory> {
    let mut outputs = Outputs::new();
    let mut job = MemSource::new(text.as_bytes(), 1, &[]);
    let mut world = World::<RECEIVE_ROOM, PLAN_SLOTS>::new(alloc, Form::One)?;
    let (mut did, mut looked) = (0u64, 0u64);
    for _ in 0..1_000 {
        for actor in ACTORS {
            let Outputs { console, steps } = &mut outputs;
            match world.turn(actor, &mut job, console, steps) {
                Turn::Did if actor == which => did = did.saturating_add(1),
                Turn::Wait(_) if actor == which => looked = looked.saturating_add(looks(actor)),
                _ => {}
            }
        }
    }
    Ok(did.saturating_sub(looked).saturating_sub(outputs.of(which)))
}

/// Runs a job in threads, past a gate.
fn listen<R: Threads + Wait + Sync>(
    rt: &R,
    alloc: Global,
    text: &str,
    gate: &Listening,
) -> Result<Outputs, OutOfMemory> {
    let mut outputs = Outputs::new();
    let mut job = MemSource::new(text.as_bytes(), 1, &[]);
    let mut rig = Rig::<RECEIVE_ROOM, PLAN_SLOTS>::new(alloc, Form::One)?;
    let Outputs { console, steps } = &mut outputs;
    let _end = run_threads(rt, &mut rig, &mut job, console, steps, gate);
    rig.join();
    Ok(outputs)
}

/// How many turns an actor may have taken that did something and are not taken where all take turns one by one: a host resumes the
/// machine by itself once 4,096 polls in a row have found no reply.
fn resumes(actor: Actor, waits: u64) -> u64 {
    match actor {
        Actor::Host => waits / 4_096,
        Actor::Board | Actor::Pulse | Actor::Record => 0,
    }
}

/// An actor has passed the gate before each of its turns: those that did something, those that waited or looked, and its last,
/// which is done. The gate has heard of each that waited, and of no other.
fn expect_turns(rt: &impl Abort, actor: Actor, heard: &Heard, did: u64, text: &str) {
    let passes = heard.passes.load(Ordering::SeqCst);
    let waits = heard.waits.load(Ordering::SeqCst);
    let idle = waits.saturating_mul(looks(actor).saturating_add(1));
    let turns = did.saturating_add(idle).saturating_add(1);
    let most = turns.saturating_add(resumes(actor, waits));
    assert!(rt;
        turns <= passes && passes <= most,
        "{actor:?} {turns} {passes} {text}"
    );
    assert_eq!(rt; heard.stray.load(Ordering::SeqCst), 0, "{actor:?} {text}");
}

#[test]
fn gate_hears_of_each_turn_and_of_each_that_waits(rt: HostRuntime) -> Result<(), Fail> {
    for _ in 0..3 {
        for text in JOBS {
            let gate = Listening::new();
            let outputs = listen(&rt, rt.alloc(), text, &gate)?;
            for actor in ACTORS {
                let did = turns_that_do(rt.alloc(), text, actor)?;
                let wrote = outputs.of(actor);
                let did = did.saturating_add(wrote);
                expect_turns(&rt, actor, gate.of(actor), did, text);
            }
        }
    }
    Ok(())
}

/// A gate that lets a board take its second turn once the console was written, or has been waited for in vain.
#[derive(Drop)]
struct Greeting {
    board: AtomicU64,
    wrote: AtomicU64,
    missed: AtomicU64,
}

impl Greeting {
    fn new() -> Greeting {
        Greeting {
            board: AtomicU64::new(0),
            wrote: AtomicU64::new(0),
            missed: AtomicU64::new(0),
        }
    }

    /// Whether the console is written while so many other turns can be taken.
    fn is_written(&self) -> bool {
        for _ in 0..10_000_000_u32 {
            if self.wrote.load(Ordering::SeqCst) > 0 {
                return true;
            }
            thread::yield_now();
        }
        false
    }
}

impl Gate for Greeting {
    fn pass(&self, actor: Actor) {
        let misses = match actor {
            Actor::Host => self.board.load(Ordering::SeqCst) == 0,
            Actor::Board => self.board.fetch_add(1, Ordering::SeqCst) == 1 && !self.is_written(),
            Actor::Pulse | Actor::Record => false,
        };
        if misses {
            self.missed.store(1, Ordering::SeqCst);
        }
    }
}

/// A console that tells the gate that it was written.
#[derive(Drop)]
struct Noticed<'a> {
    gate: &'a Greeting,
}

impl Sink for Noticed<'_> {
    ghost use Rattle.std.specs.Prelude.{None};

    ghost state = { λ _. record { held = None; faults = 0 } };

    fn write(&mut self, piece: &[u8]) -> Result<usize, Failed> {
        self.gate.wrote.store(1, Ordering::SeqCst);
        Ok(piece.len())
    }
}

/// The board has its first turn before the host has any, and tells the banner in it: the host shows that before the board's second.
#[test]
fn banner_is_told_in_the_boards_first_turn(rt: HostRuntime) -> Result<(), Fail> {
    let gate = Greeting::new();
    let mut console = Noticed { gate: &gate };
    let mut steps = Writes { calls: 0 };
    let mut job = MemSource::new(b"", 1, &[]);
    let mut rig = Rig::<RECEIVE_ROOM, PLAN_SLOTS>::new(rt.alloc(), Form::One)?;
    let _end = run_threads(&rt, &mut rig, &mut job, &mut console, &mut steps, &gate);
    rig.join();
    assert_eq!(rt; gate.missed.load(Ordering::SeqCst), 0);
    Ok(())
}
