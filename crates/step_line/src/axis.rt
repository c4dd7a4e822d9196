//! Grbl's counters, one for each axis.

ghost use Rattle.std.specs.Prelude.{◌≡◌, ℕ, ℤ, ◌+◌, ◌*◌, ◌≤◌, ◌<◌, ◌-ℤ◌, nat_abs};
ghost use Rattle.units.specs.Lengths.{IsCoordinate};
ghost use Rattle.units.specs.Rounding.{with_sign_of};
ghost use Rattle.step_line.specs.Events.{bit_at};
ghost use Rattle.step_line.specs.Tracing.{IsCounter};

/// An axis of a number of steps, all of one sign. Its counter rises by twice that number at each event; if it is over
/// twice the move's events, the axis steps and that is subtracted. Twice either number is kept, so that no event doubles it.
#[derive(Clone, Copy)]
pub(crate) struct Axis {
    pub(crate) rise: u32,
    pub(crate) at: u32,
    pub(crate) step: i8,
}

impl Axis {
    /// An axis that goes from one place to another, before the first of n events.
    #[tactic(auto, using(crate::proofs::Counters::starts))]
    pub(crate) fn new(count: u32, n: u32, from: i64, to: i64) -> Axis
        requires from { IsCoordinate from }
        requires to { IsCoordinate to }
        requires within { count ≤ n }
        requires few { n ≤ 200000000 }
        ensures rise { result.rise ≡ 2 * count }
        ensures step { result.step ≡ with_sign_of (to -ℤ from) 1 }
        ensures counter { IsCounter result.at count n 0 }
    {
        let step = if to < from { -1 } else { 1 };
        Axis {
            rise: 2 * count,
            at: n,
            step,
        }
    }

    /// What one event of a move does to the axis, where the move has half as many events as `twice`.
    #[inline]
    pub(crate) fn next(&mut self, twice: u32) -> i8
        requires some { 0 < twice }
        requires few { twice ≤ 400000000 }
        requires within { self.old.rise ≤ twice }
        requires at { self.old.at ≤ twice }
        ensures bit { (d : ℤ) (n k : ℕ) → self.old.rise ≡ 2 * nat_abs d → twice ≡ 2 * n → self.old.step ≡ with_sign_of d 1 → IsCounter self.old.at (nat_abs d) n k → result ≡ bit_at d n (k + 1) }
        ensures next { (count n k : ℕ) → self.old.rise ≡ 2 * count → twice ≡ 2 * n → IsCounter self.old.at count n k → IsCounter self.new.at count n (k + 1) }
        ensures rise { self.new.rise ≡ self.old.rise }
        ensures step { self.new.step ≡ self.old.step }
    {
        self.at += self.rise;
        if self.at <= twice {
            return 0;
        }
        self.at -= twice;
        self.step
    }
}
