//! A paced run: host and board have their turns first, and the motion goes on where both wait, so that its plan is kept full.

ghost use Rattle.std.specs.Prelude.{◌≡◌, Bool, true, false, List, ℕ};
ghost use Rattle.outside.specs.declared.Actor.TheVariants as actors;
ghost use Rattle.pulse_engine.specs.Steps.{AwaitsPiece};
ghost use Rattle.actor_turns.specs.Worlds.{devices, Devices, Seen, History, HasRunOn, AreDone};
ghost use Rattle.actor_turns.specs.Pacing.{first_pace, pace_after, PacedTurns, RunsPaced, IsPaced, FoundNothing};
ghost use Rattle.actor_turns.specs.Lockstep.{AreEnded, HaveAllEnded};

use crate::World;
use crate::lockstep::Ended;
use outside::{Actor, On, Sink, Source, Turn};
use std::sync::Wait;

/// So many times a board that finds no byte is left to wait for the host alone; then the motion goes on for a piece.
const MOST_POLLS: u8 = 4;

/// Whose turn is next, by what was answered so far.
#[derive(Clone, Copy, Debug, PartialEq, Eq)]
pub(crate) struct Pace {
    pub(crate) next: Actor,
    /// The host has done something since the board's last turn.
    pub(crate) worked: bool,
    /// The pulse waits for room for a record.
    pub(crate) full: bool,
    /// So many times the board has found no byte since the last turn of the pulse.
    pub(crate) polls: u8,
}

impl Pace {
    /// Before the first turn, which is the board's: it tells the banner.
    fn new() -> Pace
        ensures { result ≡ first_pace }
    {
        Pace {
            next: Actor::Board,
            worked: false,
            full: false,
            polls: 0,
        }
    }

    /// The host goes on while it does something. Then the board is next, or, where the host did nothing, the motion.
    #[inline(always)]
    fn after_host(&mut self, turn: Turn)
        requires { self.old.next ≡ Actor.Host }
        ensures { (between : Bool) → self.new ≡ pace_after turn between self.old }
    {
        match turn {
            Turn::Did => self.worked = true,
            _ if self.worked => self.next = Actor::Board,
            _ => self.let_move(),
        }
    }

    /// The motion is next.
    #[inline(always)]
    fn let_move(&mut self)
        ensures { self.new ≡ record self.old { next = actors.Pulse; polls = 0 } }
    {
        self.next = Actor::Pulse;
        self.polls = 0;
    }

    /// The board goes on while it does something. Then the host is next, or, where the board has found no byte often enough, the
    /// motion.
    #[inline(always)]
    fn after_board(&mut self, turn: Turn)
        requires { self.old.next ≡ Actor.Board }
        ensures { (between : Bool) → self.new ≡ pace_after turn between self.old }
    {
        if let Turn::Did = turn {
            return;
        }
        if let Turn::Wait(On::Byte) = turn {
            if self.polls >= MOST_POLLS - 1 {
                self.let_move();
                return;
            }
            self.polls += 1;
        }
        self.next = Actor::Host;
        self.worked = false;
    }

    /// The pulse goes on up to the end of its piece; then the board is next. Where it waits, or is done, the recorder is.
    #[inline(always)]
    fn after_pulse(&mut self, turn: Turn, between: bool)
        requires { self.old.next ≡ Actor.Pulse }
        ensures { self.new ≡ pace_after turn between self.old }
    {
        match turn {
            Turn::Did if between => self.next = Actor::Board,
            Turn::Did => {}
            Turn::Wait(On::RecordRoom) => {
                self.next = Actor::Record;
                self.full = true;
            }
            _ => {
                self.next = Actor::Record;
                self.full = false;
            }
        }
    }

    /// The recorder goes on while it does something; then the pulse is next where it waits for room, and else the board.
    #[inline(always)]
    fn after_recorder(&mut self, turn: Turn)
        requires { self.old.next ≡ Actor.Record }
        ensures { (between : Bool) → self.new ≡ pace_after turn between self.old }
    {
        match turn {
            Turn::Did => {}
            _ if self.full => self.next = Actor::Pulse,
            _ => self.next = Actor::Board,
        }
    }

    /// The actor whose turn it was has answered so; the pulse is between two pieces, or not.
    #[inline(always)]
    fn follow(&mut self, turn: Turn, between: bool)
        ensures { self.new ≡ pace_after turn between self.old }
    {
        match self.next {
            Actor::Host => self.after_host(turn),
            Actor::Board => self.after_board(turn),
            Actor::Pulse => self.after_pulse(turn, between),
            Actor::Record => self.after_recorder(turn),
        }
    }
}

/// So many turns are taken in one go, at most.
const AT_ONCE: usize = 64;

/// Lets the actors take some turns at their pace, or fewer where all of them have ended then. Answers whether they have.
#[inline(always)]
fn take_paced_turns<J: Source, C: Sink, S: Sink, const RX: usize, const N: usize>(
    world: &mut World<RX, N>,
    pace: &mut Pace,
    ended: &mut Ended,
    job: &mut J,
    console: &mut C,
    steps: &mut S,
) -> bool
    ensures goes_on { (before : Devices) (w : Seen N) → IsPaced pace.old before (devices (J.state job.old) (C.state console.old) (S.state steps.old)) w world.old
        → IsPaced pace.new before (devices (J.state job.new) (C.state console.new) (S.state steps.new)) w world.new }
    ensures ended { AreEnded ended.old world.old → AreEnded ended.new world.new }
    ensures all { result ≡ true → HaveAllEnded ended.new }
{
    for _ in 0..AT_ONCE {
        let actor = pace.next;
        let turn = world.turn(actor, job, console, steps);
        let between = world.awaits_piece();
        pace.follow(turn, between);
        if ended.learn(actor, turn) {
            return true;
        }
    }
    false
}

/// Lets the actors take turns at their pace until each has answered Done: host and board first, and the motion piece by piece
/// where both wait, or where the board has found no byte four times, so that a sender that waits for the motion is served.
pub fn run_paced<R: Wait, J: Source, C: Sink, S: Sink, const RX: usize, const N: usize>(
    rt: &R,
    world: &mut World<RX, N>,
    job: &mut J,
    console: &mut C,
    steps: &mut S,
)
    ensures paced { RunsPaced (devices (J.state job.old) (C.state console.old) (S.state steps.old)) (devices (J.state job.new) (C.state console.new) (S.state steps.new)) world.old world.new }
    ensures done { AreDone world.new }
{
    let mut pace = Pace::new();
    let mut ended = Ended::none();
    for _ in rt.forever() {
        if take_paced_turns(world, &mut pace, &mut ended, job, console, steps) {
            return;
        }
    }
    unreachable!()
}

/// In a paced run the motion goes on only where the board's last turn answered that it waits, or is done, and so did the host's,
/// or the board had found no byte: whenever the turn is the pulse's, whether it begins a piece or goes on with one. So while host
/// and board have something to do, no segment is begun beside those that the pulse has got.
pub fn paced_motion_waits()
    ensures waits { (N : ℕ) (schedule : List Actor) (pace : Pace) (w w' : Seen N) (hist next : History) → PacedTurns schedule first_pace pace w w' hist next → pace.next ≡ Actor.Pulse → FoundNothing next }
    ensures any { (N : ℕ) (before after : Devices) (w w' : Seen N) → RunsPaced before after w w' → HasRunOn before after w w' }
{}
