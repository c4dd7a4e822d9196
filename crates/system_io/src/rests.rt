//! How the actors rest while they wait, so that a run that waits for its sender keeps no processor busy.

ghost use Rattle.std.specs.Prelude.{◌≡◌, ℕ, ◌*◌, ◌≤◌};
ghost use Rattle.std.specs.Duration.{as_nanos};
ghost use Rattle.outside.specs.declared.Actor.{Actor};
ghost use Rattle.system_io.specs.Rests.{busy_before, longest_rest, rest_behind, rests_of};

use crossbeam_utils::CachePadded;
use outside::{Actor, Gate, On};
use std::sync::atomic::{AtomicU64, Ordering};
use std::thread;
use std::time::{Clock, Duration};

/// Behind so many waits in a row an actor looks again at once. The host reads on behind 2,048, where the machine may be held.
fn busy_waits(actor: Actor) -> u64
    ensures { result ≡ busy_before actor }
{
    match actor {
        Actor::Host => 2_500,
        Actor::Board | Actor::Pulse | Actor::Record => 1_000,
    }
}

/// Behind each further one it rests by so many microseconds longer.
const LONGER: u64 = 20;

/// How many microseconds an actor rests at most. The host rests for less, since it resumes a held machine by the number of
/// its waits.
fn longest(actor: Actor) -> u64
    ensures { result ≡ longest_rest actor }
{
    match actor {
        Actor::Host => 100,
        Actor::Board => 3_000,
        Actor::Pulse => 4_000,
        Actor::Record => 5_000,
    }
}

/// How long an actor rests behind so many waits in a row.
fn rest(actor: Actor, waits: u64) -> Duration
    ensures { as_nanos result ≡ 1_000 * rest_behind actor waits }
{
    let longer = waits
        .saturating_sub(busy_waits(actor))
        .saturating_mul(LONGER);
    Duration::from_micros(longer.min(longest(actor)))
}

/// An actor looks again at once behind its first waits in a row; then it rests, longer and longer, for five milliseconds at
/// most. All rests of a host that waits 4,096 times in a row take less than a fifth of a second.
pub fn rests_grow()
    ensures at_once { (actor : Actor) (k : ℕ) → k ≤ busy_before actor → rest_behind actor k ≡ 0 }
    ensures longer { (actor : Actor) (j k : ℕ) → j ≤ k → rest_behind actor j ≤ rest_behind actor k }
    ensures short { (actor : Actor) (k : ℕ) → rest_behind actor k ≤ 5_000 }
    ensures host { rests_of Actor.Host 4096 ≤ 200_000 }
{}

/// How many turns of an actor behind one that waits are part of the wait: the board takes its two words of flags in turns of
/// their own.
fn looks(actor: Actor) -> u64 {
    match actor {
        Actor::Board => 2,
        Actor::Host | Actor::Pulse | Actor::Record => 0,
    }
}

/// A row of waits: how many there were, and how many turns have begun since the last one. The thread of one actor writes it,
/// and no other.
#[derive(Drop)]
struct Row {
    waits: AtomicU64,
    begun: AtomicU64,
}

impl Row {
    fn new() -> CachePadded<Row> {
        CachePadded::new(Row {
            waits: AtomicU64::new(0),
            begun: AtomicU64::new(0),
        })
    }

    /// A turn begins. If those since the last wait were more than looks, the row is over; where there is none, one word is read.
    fn begin_turn(&self, looks: u64) {
        if self.waits.load(Ordering::SeqCst) == 0 {
            return;
        }
        let begun = self.begun.load(Ordering::SeqCst);
        if begun <= looks {
            self.begun.store(begun.saturating_add(1), Ordering::SeqCst);
        } else {
            self.waits.store(0, Ordering::SeqCst);
            self.begun.store(0, Ordering::SeqCst);
        }
    }

    /// A turn has waited: how many did so in a row.
    fn end_wait(&self) -> u64 {
        let waits = self.waits.load(Ordering::SeqCst).saturating_add(1);
        self.waits.store(waits, Ordering::SeqCst);
        self.begun.store(0, Ordering::SeqCst);
        waits
    }
}

/// A gate that is always open, at which an actor rests that has waited for long.
#[derive(Drop)]
pub struct RestingGate<'a, R> {
    clock: &'a R,
    host: CachePadded<Row>,
    board: CachePadded<Row>,
    pulse: CachePadded<Row>,
    recorder: CachePadded<Row>,
}

impl<'a, R> RestingGate<'a, R> {
    pub fn new(clock: &'a R) -> RestingGate<'a, R> {
        RestingGate {
            clock,
            host: Row::new(),
            board: Row::new(),
            pulse: Row::new(),
            recorder: Row::new(),
        }
    }

    fn row_of(&self, actor: Actor) -> &Row {
        match actor {
            Actor::Host => &self.host,
            Actor::Board => &self.board,
            Actor::Pulse => &self.pulse,
            Actor::Record => &self.recorder,
        }
    }
}

impl<R: Clock> Gate for RestingGate<'_, R> {
    fn pass(&self, actor: Actor) {
        self.row_of(actor).begin_turn(looks(actor));
    }

    fn wait(&self, actor: Actor, _on: On) {
        let waits = self.row_of(actor).end_wait();
        if waits > busy_waits(actor) {
            thread::sleep(self.clock, rest(actor, waits));
        }
    }
}

#[cfg(test)]
mod tests {
    use super::*;
    use std::io;

    /// A clock that adds up the microseconds that are slept.
    #[derive(Drop)]
    struct Slept {
        micros: AtomicU64,
    }

    impl Slept {
        /// How many were slept since this was asked last.
        fn since(&self) -> u64 {
            self.micros.swap(0, Ordering::SeqCst)
        }
    }

    impl Clock for Slept {
        fn monotonic(&self) -> io::Result<Duration> {
            Ok(Duration::ZERO)
        }

        fn since_1970(&self) -> io::Result<Duration> {
            Ok(Duration::ZERO)
        }

        fn sleep(&self, duration: Duration) {
            let micros = u64::from(duration.subsec_nanos()) / 1_000;
            self.micros.fetch_add(micros, Ordering::SeqCst);
        }
    }

    // So many turns of an actor are no waits.
    fn take_turns<G: Gate + Sync>(gate: &G, actor: Actor, count: u64) {
        for _ in 0..count {
            gate.pass(actor);
        }
    }

    // So many turns of an actor wait, with no more than looks between.
    fn wait_in_a_row<G: Gate + Sync>(gate: &G, actor: Actor, count: u64) {
        for _ in 0..count {
            take_turns(gate, actor, looks(actor));
            gate.pass(actor);
            gate.wait(actor, On::Byte);
        }
    }

    // Each actor, how many of its waits have no rest, and its longest rest.
    const ROWS: &[(Actor, u64, u64)] = &[
        (Actor::Host, 2_500, 100),
        (Actor::Board, 1_000, 3_000),
        (Actor::Pulse, 1_000, 4_000),
        (Actor::Record, 1_000, 5_000),
    ];

    #[test]
    fn rests_come_behind_many_waits_in_a_row_and_grow(rt: HostRuntime) {
        let clock = Slept {
            micros: AtomicU64::new(0),
        };
        let gate = RestingGate::new(&clock);
        for &(actor, busy, most) in ROWS {
            wait_in_a_row(&gate, actor, busy);
            assert_eq!(rt; clock.since(), 0);
            wait_in_a_row(&gate, actor, 1);
            assert_eq!(rt; clock.since(), 20);
            wait_in_a_row(&gate, actor, 3);
            assert_eq!(rt; clock.since(), 40 + 60 + 80);
            wait_in_a_row(&gate, actor, 300);
            let _ = clock.since();
            wait_in_a_row(&gate, actor, 1);
            assert_eq!(rt; clock.since(), most);
        }
    }

    #[test]
    fn a_turn_that_does_something_ends_the_row(rt: HostRuntime) {
        let clock = Slept {
            micros: AtomicU64::new(0),
        };
        let gate = RestingGate::new(&clock);
        for &(actor, busy, _) in ROWS {
            for did in 1..4 {
                wait_in_a_row(&gate, actor, busy);
                take_turns(&gate, actor, did);
            }
            assert_eq!(rt; clock.since(), 0);
            wait_in_a_row(&gate, actor, busy);
            assert_eq!(rt; clock.since(), 0);
            wait_in_a_row(&gate, actor, 1);
            assert_eq!(rt; clock.since(), 20);
        }
    }
}
