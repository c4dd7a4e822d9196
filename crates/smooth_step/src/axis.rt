//! Bresenham's counters in eighths of events, one for each axis, which count down.

ghost use Rattle.std.specs.Prelude.{◌≡◌, ℕ, ℤ, ◌+◌, ◌*◌, ◌≤◌, ◌<◌, ◌-ℤ◌, nat_abs};
ghost use Rattle.units.specs.Lengths.{IsCoordinate};
ghost use Rattle.smooth_step.specs.Subticks.{part_bit};
ghost use Rattle.smooth_step.specs.Counters.{IsAxis, CanStep};

/// An axis of a number of steps, all of one sign. With each eighth of an event that number is taken from what is left; if
/// less is left, the axis steps, and eight times the move's events are added.
#[derive(Clone, Copy)]
pub(crate) struct Axis {
    pub(crate) count: u32,
    pub(crate) left: u32,
    pub(crate) step: i8,
}

impl Axis {
    /// An axis that goes from one place to another, before the first of n events.
    #[tactic(auto, using(crate::proofs::Fine::starts))]
    pub(crate) fn new(count: u32, n: u32, from: i64, to: i64) -> Axis
        requires from { IsCoordinate from }
        requires to { IsCoordinate to }
        requires few { n ≤ 200000000 }
        requires count { count ≡ nat_abs (to -ℤ from) }
        requires within { count ≤ n }
        ensures axis { IsAxis result (to -ℤ from) n 0 }
        ensures can { CanStep result n }
    {
        let step = if to < from { -1 } else { 1 };
        Axis {
            count,
            left: 4 * n,
            step,
        }
    }

    /// What some eighths of one of a move's n events do to the axis.
    #[inline]
    pub(crate) fn next(&mut self, n: u32, width: u32) -> i8
        requires some { 0 < n }
        requires few { n ≤ 200000000 }
        requires width { width ≤ 8 }
        requires can { CanStep self.old n }
        ensures bit { (d : ℤ) (t : ℕ) → IsAxis self.old d n t → result ≡ part_bit d n t (t + width) }
        ensures next { (d : ℤ) (t : ℕ) → IsAxis self.old d n t → IsAxis self.new d n (t + width) }
        ensures can { CanStep self.new n }
    {
        let part = width * self.count;
        if part <= self.left {
            self.left -= part;
            return 0;
        }
        self.left = self.left + 8 * n - part;
        self.step
    }
}
