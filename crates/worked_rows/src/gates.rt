//! The gate, which the actors pass in threads.

use grbl_app::{Status, run_grbl};
use outside::{Actor, Failed, Gate, MemSink, MemSource, Source};
use std::sync::atomic::{AtomicU64, Ordering};

/// A gate that counts how often each actor passes.
#[derive(Drop)]
struct Passes {
    host: AtomicU64,
    board: AtomicU64,
    pulse: AtomicU64,
    recorder: AtomicU64,
}

impl Passes {
    fn new() -> Passes {
        Passes {
            host: AtomicU64::new(0),
            board: AtomicU64::new(0),
            pulse: AtomicU64::new(0),
            recorder: AtomicU64::new(0),
        }
    }

    /// Where an actor's passes are counted.
    fn count_of(&self, actor: Actor) -> &AtomicU64 {
        match actor {
            Actor::Host => &self.host,
            Actor::Board => &self.board,
            Actor::Pulse => &self.pulse,
            Actor::Record => &self.recorder,
        }
    }
}

impl Gate for Passes {
    fn pass(&self, actor: Actor) {
        self.count_of(actor).fetch_add(1, Ordering::SeqCst);
    }
}

#[test]
fn gate_is_passed_by_each_actor_in_threads_alone(rt: HostRuntime) {
    let alloc = rt.alloc();
    const ROWS: &[(&[&str], bool)] = &[
        (&["stream"], true),
        (&["stream", "--lockstep", "0"], false),
        (&["demo", "1"], false),
    ];
    for &(words, passed) in ROWS {
        let passes = Passes::new();
        let mut source = MemSource::new(b"G0X0.004\n", 4, &[]);
        let mut console = MemSink::new(alloc, 100, &[]).expect(&rt, "memory");
        let mut steps = MemSink::new(alloc, 10_000, &[]).expect(&rt, "memory");
        let status = run_grbl(
            &rt,
            alloc,
            words,
            &mut source,
            &mut console,
            &mut steps,
            &passes,
        );
        assert_eq!(rt; status, Status::Done);
        for actor in [Actor::Host, Actor::Board, Actor::Pulse, Actor::Record] {
            let count = passes.count_of(actor).load(Ordering::SeqCst);
            assert_eq!(rt; count > 0, passed);
        }
    }
}

/// Whether the board passes twice while so many loads are made.
fn passes_twice(passes: &Passes) -> bool {
    let before = passes.board.load(Ordering::SeqCst);
    for _ in 0..100_000_000_u32 {
        if passes.board.load(Ordering::SeqCst).wrapping_sub(before) >= 2 {
            return true;
        }
    }
    false
}

/// A job with one line, at whose first read the board has to pass twice.
#[derive(Drop)]
struct Watching<'a> {
    passes: &'a Passes,
    reads: u64,
    missed: bool,
}

impl Source for Watching<'_> {
    ghost use Rattle.std.specs.Prelude.{None};

    ghost state = { λ s. record { left = None; faults = 0 } };

    fn read(&mut self, buf: &mut [u8]) -> Result<usize, Failed> {
        self.reads = self.reads.wrapping_add(1);
        if self.reads == 1 {
            self.missed = !passes_twice(self.passes);
        }
        let (1, Some(first)) = (self.reads, buf.first_mut()) else {
            return Ok(0);
        };
        *first = b'\n';
        Ok(1)
    }
}

/// While the host is within a turn the board takes turns: `stream` runs them in threads of their own, and no lock stands round
/// a turn.
#[test]
fn gate_two_at_once(rt: HostRuntime) {
    let alloc = rt.alloc();
    let passes = Passes::new();
    let mut source = Watching {
        passes: &passes,
        reads: 0,
        missed: false,
    };
    let mut console = MemSink::new(alloc, 100, &[]).expect(&rt, "memory");
    let mut steps = MemSink::new(alloc, 100, &[]).expect(&rt, "memory");
    let words = ["stream"];
    let status = run_grbl(
        &rt,
        alloc,
        &words,
        &mut source,
        &mut console,
        &mut steps,
        &passes,
    );
    assert_eq!(rt; status, Status::Done);
    assert!(rt; source.reads > 0 && !source.missed);
    assert!(rt; console.held().ends_with(b"ok\r\n"));
}
