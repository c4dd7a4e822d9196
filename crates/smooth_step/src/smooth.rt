//! A move that is traced subtick by subtick.

ghost use Rattle.std.specs.Prelude.{◌≡◌, ◌*◌, ◌^◌, ◌≤◌, ◌<◌};
ghost use Rattle.smooth_step.specs.Subticks.{width_of};

use crate::Sub;
use crate::axes::Axes;
use std::marker::Model;
use units::{Counts, Move};

/// A move, and how many of its events are handed out.
#[derive(Drop)]
pub struct Smooth {
    mv: Move,
    n: u32,
    done: u32,
    axes: Axes,
}

impl Model for Smooth {
    ghost use Rattle.std.specs.Prelude.{◌≡◌, ◌*◌, ◌≤◌};
    ghost use Rattle.units.specs.Lengths.{IsMove};
    ghost use Rattle.units.specs.Counting.{events_of};
    ghost use Rattle.step_line.specs.Tracing.{Trace};
    ghost use Rattle.smooth_step.specs.Counters.{AreAxes, CanAllStep};

    ghost Value = { Trace };

    ghost view = { λ s. record { mv = s.mv; done = s.done } };

    ghost invariant = { λ s. IsMove s.mv × (s.n ≡ events_of s.mv) × (s.n ≤ 200000000) × (s.done ≤ s.n)
        × CanAllStep s.axes s.n × AreAxes s.axes s.mv (8 * s.done) };
}

/// How many eighths of an event a subtick of a level has.
fn width_of(level: u8) -> u32
    requires { level ≤ 3 }
    ensures width { result ≡ width_of level }
    ensures few { result ≤ 8 }
{
    8 >> level
}

/// How many pairs of subticks an event has at a level above 0.
fn pairs_at(level: u8) -> usize
    requires some { 0 < level }
    requires level { level ≤ 3 }
    ensures count { 2 * result ≡ 2 ^ level }
    ensures few { result ≤ 4 }
{
    1 << (level - 1)
}

impl Smooth {
    ghost use Rattle.std.specs.Prelude.{◌≡◌, ◌+◌, ◌<◌, ◌≤◌, Some, None};
    ghost use Rattle.units.specs.Lengths.{IsMove};
    ghost use Rattle.units.specs.Counting.{events_of};
    ghost use Rattle.smooth_step.specs.Subticks.{subticks_of};

    /// No event is handed out yet.
    #[tactic(auto, unfolding(units::specs::Counting::events_of))]
    pub fn new(mv: Move) -> Smooth
        requires { IsMove mv }
        ensures { result ≡ record { mv = mv; done = 0 } }
    {
        let counts = Counts::of(&mv);
        let n = counts.largest();
        let axes = Axes::new(&mv, &counts, n);
        Smooth {
            mv,
            n,
            done: 0,
            axes,
        }
    }

    /// The next event, at a level of 3 at most. One has to be left.
    #[inline]
    fn step(&mut self, level: u8) -> Sub
        requires left { self.old.done < events_of self.old.mv }
        requires level { level ≤ 3 }
        ensures subticks { result.items ≡ subticks_of self.old.mv level (self.old.done + 1) }
        ensures one_more { self.new ≡ record { mv = self.old.mv; done = self.old.done + 1 } }
    {
        self.done += 1;
        let mut parts = Sub::new();
        if level == 0 {
            let whole = self.axes.part(self.n, 8);
            parts.push(whole);
            return parts;
        }
        self.axes
            .pairs(self.n, width_of(level), pairs_at(level), &mut parts);
        parts
    }

    /// The subticks of the next event, in the direction of the move, at a level of 3 at most; it may change from event to
    /// event. None comes after the last event, and then nothing changes.
    #[inline]
    pub fn next(&mut self, level: u8) -> Option<Sub>
        requires { level ≤ 3 }
        ensures subticks { self.old.done < events_of self.old.mv → result ≡ Some (record { items = subticks_of self.old.mv level (self.old.done + 1) }) }
        ensures one_more { self.old.done < events_of self.old.mv → self.new ≡ record { mv = self.old.mv; done = self.old.done + 1 } }
        ensures none { events_of self.old.mv ≤ self.old.done → result ≡ None }
        ensures same { events_of self.old.mv ≤ self.old.done → self.new ≡ self.old }
        ensures within { self.old.done ≤ events_of self.old.mv }
    {
        if self.done == self.n {
            return None;
        }
        Some(self.step(level))
    }
}
