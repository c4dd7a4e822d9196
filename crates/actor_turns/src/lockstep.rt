//! Lockstep: the actors take their turns in an order that one number gives, until each has answered Done.

ghost use Rattle.std.specs.Prelude.{◌≡◌, ◌≢◌, ◌↔◌, ◌≤◌, ◌<◌, ◌/◌, ◌^◌, ℕ, true, take};
ghost use Rattle.outside.specs.Causes.{SinkState};
ghost use Rattle.actor_turns.specs.Worlds.{devices, Devices, Seen, HasRunOn, AreDone, MotionRests};
ghost use Rattle.actor_turns.specs.Lockstep.{state_after, number_of, RunsInOrder, IsInOrder, Sifts, with_end, none_ended, AreEnded, HaveAllEnded};

use crate::World;
use outside::{Actor, Sink, Source, Turn};
use std::sync::Wait;

/// The multiplier of the generator.
const MULTIPLIER: u64 = 6_364_136_223_846_793_005;

/// What the generator adds.
const INCREMENT: u64 = 1_442_695_040_888_963_407;

/// The order of turns in lockstep, by a linear congruential generator of 64 bits.
#[derive(Clone, Copy, Debug, PartialEq, Eq)]
pub struct Order {
    pub state: u64,
}

impl Order {
    /// The actor whose turn is next: the state goes on by one step of the generator, and its two highest bits choose.
    #[inline]
    pub fn next(&mut self) -> Actor
        ensures state { self.new.state ≡ state_after self.old.state }
        ensures chosen { number_of result ≡ self.new.state / 2 ^ 62 }
    {
        self.advance();
        match self.state >> 62 {
            0 => Actor::Host,
            1 => Actor::Board,
            2 => Actor::Pulse,
            _ => Actor::Record,
        }
    }

    /// The generator makes one step.
    #[inline]
    fn advance(&mut self)
        ensures { self.new.state ≡ state_after self.old.state }
    {
        self.state = self.state.wrapping_mul(MULTIPLIER).wrapping_add(INCREMENT);
    }

    /// Makes the next 64 steps, and keeps the numbers that give the host or the board a turn, in order. Answers how many. None
    /// is kept by a branch, since a processor would take every other one wrongly.
    fn sift(&mut self, numbers: &mut [u64; AT_ONCE]) -> usize
        ensures sifted { Sifts self.old.state (take result numbers.new) self.new.state }
        ensures few { result ≤ 64 }
    {
        let mut count = 0;
        for _ in 0..AT_ONCE {
            self.advance();
            numbers[count] = self.state;
            count += usize::from(self.state >> 62 < 2);
        }
        count
    }
}

/// Whose turn a number gives that gives the host or the board one.
#[inline]
fn sender(number: u64) -> Actor
    requires { number / 2 ^ 62 < 2 }
    ensures { number_of result ≡ number / 2 ^ 62 }
{
    if number >> 62 == 0 {
        Actor::Host
    } else {
        Actor::Board
    }
}

/// Which actors have answered Done.
#[derive(Clone, Copy)]
pub(crate) struct Ended {
    host: bool,
    board: bool,
    pulse: bool,
    recorder: bool,
}

impl Ended {
    /// None has.
    pub(crate) fn none() -> Ended
        ensures { result ≡ none_ended }
    {
        Ended {
            host: false,
            board: false,
            pulse: false,
            recorder: false,
        }
    }

    /// An actor has answered Done.
    fn add(&mut self, actor: Actor)
        ensures { self.new ≡ with_end actor self.old }
    {
        match actor {
            Actor::Host => self.host = true,
            Actor::Board => self.board = true,
            Actor::Pulse => self.pulse = true,
            Actor::Record => self.recorder = true,
        }
    }

    /// Whether all have.
    fn all(&self) -> bool
        ensures { (result ≡ true) ↔ HaveAllEnded self.now }
    {
        self.host && self.board && self.pulse && self.recorder
    }

    /// An actor has answered so. Answers whether it is the last that has answered Done.
    #[inline(always)]
    pub(crate) fn learn(&mut self, actor: Actor, turn: Turn) -> bool
        ensures done { turn ≡ Turn.Done → self.new ≡ with_end actor self.old }
        ensures same { turn ≢ Turn.Done → self.new ≡ self.old }
        ensures all { result ≡ true → HaveAllEnded self.new }
    {
        if let Turn::Done = turn {
            self.add(actor);
            return self.all();
        }
        false
    }
}

/// So many turns are taken in one go, at most: a loop of a known length costs a turn less than one that may go on forever.
const AT_ONCE: usize = 64;

/// Lets the actors take some turns, in the order that is given, or fewer where all of them have ended then. Answers
/// whether they have.
#[inline(always)]
fn take_turns<J: Source, C: Sink, S: Sink, const RX: usize, const N: usize>(
    world: &mut World<RX, N>,
    order: &mut Order,
    ended: &mut Ended,
    job: &mut J,
    console: &mut C,
    steps: &mut S,
) -> bool
    ensures goes_on { (seed : ℕ) (before : Devices) (w : Seen N) → IsInOrder seed order.old.state before (devices (J.state job.old) (C.state console.old) (S.state steps.old)) w world.old
        → IsInOrder seed order.new.state before (devices (J.state job.new) (C.state console.new) (S.state steps.new)) w world.new }
    ensures ended { AreEnded ended.old world.old → AreEnded ended.new world.new }
    ensures all { result ≡ true → HaveAllEnded ended.new }
{
    for _ in 0..AT_ONCE {
        let actor = order.next();
        let turn = world.turn(actor, job, console, steps);
        if ended.learn(actor, turn) {
            return true;
        }
    }
    false
}

/// Does the same where nothing moves, until a stop or a piece is there: turns of the pulse and of the recorder would change nothing, and
/// are passed over.
fn take_turns_of_two<J: Source, C: Sink, const RX: usize, const N: usize>(
    world: &mut World<RX, N>,
    order: &mut Order,
    ended: &mut Ended,
    job: &mut J,
    console: &mut C,
) -> bool
    requires rests { MotionRests world.old }
    ensures goes_on { (seed : ℕ) (before : Devices) (w : Seen N) (steps : SinkState) → IsInOrder seed order.old.state before (devices (J.state job.old) (C.state console.old) steps) w world.old
        → IsInOrder seed order.new.state before (devices (J.state job.new) (C.state console.new) steps) w world.new }
    ensures ended { AreEnded ended.old world.old → AreEnded ended.new world.new }
    ensures all { result ≡ true → HaveAllEnded ended.new }
{
    let mut ahead = *order;
    let mut numbers = [0; AT_ONCE];
    let count = ahead.sift(&mut numbers);
    let chosen = &numbers[..count];
    for number in chosen {
        order.state = *number;
        let actor = sender(*number);
        let turn = world.turn_sender(actor, job, console);
        if ended.learn(actor, turn) {
            return true;
        }
        if !world.offers_nothing() {
            return false;
        }
    }
    *order = ahead;
    false
}

/// Lets the actors take some turns, in the order that is given. Answers whether all of them have ended.
#[inline(always)]
fn take_next_turns<J: Source, C: Sink, S: Sink, const RX: usize, const N: usize>(
    world: &mut World<RX, N>,
    order: &mut Order,
    ended: &mut Ended,
    job: &mut J,
    console: &mut C,
    steps: &mut S,
) -> bool
    ensures goes_on { (seed : ℕ) (before : Devices) (w : Seen N) → IsInOrder seed order.old.state before (devices (J.state job.old) (C.state console.old) (S.state steps.old)) w world.old
        → IsInOrder seed order.new.state before (devices (J.state job.new) (C.state console.new) (S.state steps.new)) w world.new }
    ensures ended { AreEnded ended.old world.old → AreEnded ended.new world.new }
    ensures all { result ≡ true → HaveAllEnded ended.new }
{
    if world.rests() {
        take_turns_of_two(world, order, ended, job, console)
    } else {
        take_turns(world, order, ended, job, console, steps)
    }
}

/// Lets the actors take turns, in the order that a seed gives, until each has answered Done.
pub fn run_lockstep<R: Wait, J: Source, C: Sink, S: Sink, const RX: usize, const N: usize>(
    rt: &R,
    world: &mut World<RX, N>,
    seed: u64,
    job: &mut J,
    console: &mut C,
    steps: &mut S,
)
    ensures goes_on { HasRunOn (devices (J.state job.old) (C.state console.old) (S.state steps.old)) (devices (J.state job.new) (C.state console.new) (S.state steps.new)) world.old world.new }
    ensures order { RunsInOrder seed (devices (J.state job.old) (C.state console.old) (S.state steps.old)) (devices (J.state job.new) (C.state console.new) (S.state steps.new)) world.old world.new }
    ensures done { AreDone world.new }
{
    let mut order = Order { state: seed };
    let mut ended = Ended::none();
    for _ in rt.forever() {
        if take_next_turns(world, &mut order, &mut ended, job, console, steps) {
            return;
        }
    }
    unreachable!()
}
