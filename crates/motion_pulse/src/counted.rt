//! Pins that are only counted.

ghost use Rattle.motion_pulse.specs.Pulses.{capped};

use smooth_step::Pins;
use step_line::Bits;

/// How many subticks were handed out, up to the largest number that 64 bits hold.
#[derive(Clone, Copy, Debug, PartialEq, Eq, Drop)]
pub struct Counted {
    pub count: u64,
}

/// The pins stand for lists of so many subticks.
impl Pins for Counted {
    ghost use Rattle.std.specs.Prelude.{◌≡◌, length};
    ghost use Rattle.motion_pulse.specs.Pulses.{capped};

    ghost stands = { λ pins made. pins.count ≡ capped (length made) };

    #[inline]
    fn pins(&mut self, _subtick: Bits) {
        self.count = self.count.saturating_add(1);
    }
}
