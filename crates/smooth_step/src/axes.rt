//! The counters of the three axes.

ghost use Rattle.std.specs.Prelude.{◌≡◌, ℕ, ◌+◌, ◌*◌, ◌^◌, ◌≤◌, ◌<◌, [], nat_abs};
ghost use Rattle.units.specs.declared.Move.{Move};
ghost use Rattle.units.specs.Lengths.{IsMove};
ghost use Rattle.units.specs.Counting.{way, events_of};
ghost use Rattle.smooth_step.specs.Subticks.{part_of, parts_after};
ghost use Rattle.smooth_step.specs.Counters.{AreAxes, CanAllStep};

use crate::Sub;
use crate::axis::Axis;
use step_line::Bits;
use units::{Counts, Move};

/// The three axes of a move.
#[derive(Clone, Copy)]
pub(crate) struct Axes {
    pub(crate) x: Axis,
    pub(crate) y: Axis,
    pub(crate) z: Axis,
}

impl Axes {
    /// The axes of a move of n events, before the first.
    #[tactic(auto, unfolding(units::specs::Counting::events_of))]
    pub(crate) fn new(mv: &Move, counts: &Counts, n: u32) -> Axes
        requires mv { IsMove mv.now }
        requires x { counts.now.x ≡ nat_abs (way mv.now).x }
        requires y { counts.now.y ≡ nat_abs (way mv.now).y }
        requires z { counts.now.z ≡ nat_abs (way mv.now).z }
        requires n { n ≡ events_of mv.now }
        requires few { n ≤ 200000000 }
        ensures axes { AreAxes result mv.now 0 }
        ensures can { CanAllStep result n }
    {
        Axes {
            x: Axis::new(counts.x, n, mv.from.x, mv.to.x),
            y: Axis::new(counts.y, n, mv.from.y, mv.to.y),
            z: Axis::new(counts.z, n, mv.from.z, mv.to.z),
        }
    }

    /// What some eighths of one of a move's n events do.
    #[inline]
    pub(crate) fn part(&mut self, n: u32, width: u32) -> Bits
        requires some { 0 < n }
        requires few { n ≤ 200000000 }
        requires width { width ≤ 8 }
        requires can { CanAllStep self.old n }
        ensures bits { (m : Move) (t : ℕ) → n ≡ events_of m → AreAxes self.old m t → result ≡ part_of m t (t + width) }
        ensures next { (m : Move) (t : ℕ) → n ≡ events_of m → AreAxes self.old m t → AreAxes self.new m (t + width) }
        ensures can { CanAllStep self.new n }
    {
        let x = self.x.next(n, width);
        let y = self.y.next(n, width);
        let z = self.z.next(n, width);
        Bits { x, y, z }
    }

    /// Adds to an empty list what some pairs of parts of one of a move's n events do, one after another, each part of the
    /// same width.
    #[inline]
    pub(crate) fn pairs(&mut self, n: u32, width: u32, count: usize, parts: &mut Sub)
        requires some { 0 < n }
        requires few { n ≤ 200000000 }
        requires width { width ≤ 8 }
        requires count { count ≤ 4 }
        requires can { CanAllStep self.old n }
        requires empty { parts.old.items ≡ [] }
        ensures parts { (m : Move) (t : ℕ) → n ≡ events_of m → AreAxes self.old m t → parts.new.items ≡ parts_after m t width (2 * count) }
        ensures next { (m : Move) (t : ℕ) → n ≡ events_of m → AreAxes self.old m t → AreAxes self.new m (t + width * (2 * count)) }
        ensures can { CanAllStep self.new n }
    {
        for _made in 0..count {
            let first = self.part(n, width);
            parts.push(first);
            let second = self.part(n, width);
            parts.push(second);
        }
    }
}
