//! The states of the motion: idle, run, hold, jog, cancel, stop at a limit, alarm.
#![tactic(auto)]

pub mod laws;
#[cfg(test)]
mod tests;

use bitflags::Flags;
use code_table::Exec;

/// What the motion is doing.
#[derive(Clone, Copy, Debug, PartialEq, Eq)]
pub enum Motion {
    /// Nothing moves, and queued moves wait for a start.
    Idle,
    /// Moves are carried out.
    Run,
    /// A hold slows the motion down.
    Holding,
    /// The motion is held, and a resume goes on with it.
    Held,
    /// Jogs are carried out.
    Jog,
    /// A cancel slows a jog down, and what is left of it will be dropped.
    Cancelling,
    /// The motion slows down because a line would leave the travel.
    Stopping,
    /// Locked, with nothing moving.
    Alarm,
}

impl Motion {
    ghost use Rattle.std.specs.Prelude.{◌≡◌};
    ghost use Rattle.feed_hold.specs.Motions.{after_hold, after_cancel, after_start};

    /// After `!`, if that was asked for.
    fn after_hold(self, asked: bool) -> Motion
        ensures { result ≡ after_hold asked self }
    {
        match self {
            Motion::Idle if asked => Motion::Held,
            Motion::Run if asked => Motion::Holding,
            Motion::Jog if asked => Motion::Cancelling,
            _ => self,
        }
    }

    /// After 0x85, if that was asked for.
    fn after_cancel(self, asked: bool) -> Motion
        ensures { result ≡ after_cancel asked self }
    {
        if asked && self == Motion::Jog {
            Motion::Cancelling
        } else {
            self
        }
    }

    /// After `~`, if that was asked for.
    fn after_start(self, asked: bool, queued: bool) -> Motion
        ensures { result ≡ after_start asked queued self }
    {
        match self {
            Motion::Idle | Motion::Held if asked && queued => Motion::Run,
            Motion::Held if asked => Motion::Idle,
            _ => self,
        }
    }
}

/// The state of the motion, and how each event changes it. Each call has a condition: that the table has a state for
/// it.
#[derive(Clone, Copy, Debug, PartialEq, Eq)]
pub struct Hold {
    pub motion: Motion,
}

impl Hold {
    ghost use Rattle.std.specs.Prelude.{◌≡◌, IsSome};
    ghost use Rattle.feed_hold.specs.declared.Motion.TheVariants.{Idle};
    ghost use Rattle.feed_hold.specs.Motions.{after, after_word, is_moving, behind_reset};
    ghost use Rattle.feed_hold.specs.Motions.Call.{on_start, on_limit, on_pause, on_stopped, on_drained, on_unlock};

    /// Nothing moves.
    pub fn new() -> Hold
        ensures { result.motion ≡ Idle }
    {
        Hold {
            motion: Motion::Idle,
        }
    }

    /// A word of requests was taken, with moves queued or not: applies a hold, then a cancel, then a start, each to the
    /// state that the one before left. A start has no effect in a word with a hold. Reports and resets aren't read.
    pub fn on_exec(&mut self, e: Exec, queued: bool)
        ensures { self.new.motion ≡ after_word e queued self.old.motion }
    {
        let hold = e.contains(Exec::HOLD);
        let start = e.contains(Exec::START) && !hold;
        self.motion = self
            .motion
            .after_hold(hold)
            .after_cancel(e.contains(Exec::CANCEL))
            .after_start(start, queued);
    }

    /// A move starts, or a jog.
    pub fn on_start(&mut self, jog: bool)
        requires { IsSome (after (on_start jog) self.old.motion) }
        ensures { after (on_start jog) self.old.motion ≡ Some self.new.motion }
    {
        if self.motion == Motion::Idle {
            self.motion = if jog { Motion::Jog } else { Motion::Run };
        }
    }

    /// A line would leave the travel. Called in the turn that begins the line.
    pub fn on_limit(&mut self)
        requires { IsSome (after on_limit self.old.motion) }
        ensures { after on_limit self.old.motion ≡ Some self.new.motion }
    {
        self.motion = if self.motion == Motion::Run {
            Motion::Stopping
        } else {
            Motion::Alarm
        };
    }

    /// A program pauses, once nothing moves.
    pub fn on_pause(&mut self)
        requires { IsSome (after on_pause self.old.motion) }
        ensures { after on_pause self.old.motion ≡ Some self.new.motion }
    {
        self.motion = Motion::Held;
    }

    /// The motion has slowed down to a stop. Called once each tick is done; after a cancel, once the cut is done too.
    pub fn on_stopped(&mut self)
        requires { IsSome (after on_stopped self.old.motion) }
        ensures { after on_stopped self.old.motion ≡ Some self.new.motion }
    {
        self.motion = match self.motion {
            Motion::Holding => Motion::Held,
            Motion::Cancelling => Motion::Idle,
            _ => Motion::Alarm,
        };
    }

    /// Nothing is left to run, and each step is made.
    pub fn on_drained(&mut self)
        requires { IsSome (after on_drained self.old.motion) }
        ensures { after on_drained self.old.motion ≡ Some self.new.motion }
    {
        self.motion = Motion::Idle;
    }

    /// A line unlocks a machine that is in alarm.
    pub fn on_unlock(&mut self)
        requires { IsSome (after on_unlock self.old.motion) }
        ensures { after on_unlock self.old.motion ≡ Some self.new.motion }
    {
        self.motion = Motion::Idle;
    }

    /// A reset has halted the machine: one that was moving is locked, and one in alarm stays so. Answers whether it was moving.
    pub fn on_reset(&mut self) -> bool
        ensures moving { result ≡ is_moving self.old.motion }
        ensures motion { self.new.motion ≡ behind_reset self.old.motion }
    {
        let moving = matches!(
            self.motion,
            Motion::Run | Motion::Holding | Motion::Jog | Motion::Cancelling
        );
        self.motion = match self.motion {
            Motion::Idle | Motion::Held => Motion::Idle,
            _ => Motion::Alarm,
        };
        moving
    }
}
