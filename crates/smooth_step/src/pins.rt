//! The pins of the machine's drivers.

ghost use Rattle.std.specs.Prelude.{◌≡◌, ◌+◌, ◌<◌, ◌≤◌, ◌∷◌};
ghost use Rattle.step_line.specs.declared.Bits.{Bits};
ghost use Rattle.step_line.specs.Logs.{NewestFirst};
ghost use Rattle.units.specs.Counting.{events_of};
ghost use Rattle.smooth_step.specs.Pinned.{pinned};
ghost use Rattle.smooth_step.specs.Subticks.{subticks_of};

use crate::Smooth;
use step_line::Bits;

/// Where subticks go.
pub trait Pins {
    /// The pins were handed these, the latest first.
    ghost stands: { Self → NewestFirst Bits → Type 0 };

    /// Steps each axis as a subtick says.
    fn pins(&mut self, b: Bits)
        ensures { (made : NewestFirst Bits) → stands self.old made → stands self.new (b ∷ made) };
}

/// Hands out the subticks of the next event, one of which has to be left, at a level of 3 at most.
#[inline]
pub(crate) fn hand_out<O: Pins>(smooth: &mut Smooth, level: u8, pins: &mut O)
    requires level { level ≤ 3 }
    requires left { smooth.old.done < events_of smooth.old.mv }
    ensures one_more { smooth.new ≡ record { mv = smooth.old.mv; done = smooth.old.done + 1 } }
    ensures pins { (made : NewestFirst Bits) → O.stands pins.old made →
        O.stands pins.new (pinned (subticks_of smooth.old.mv level (smooth.old.done + 1)) made) }
{
    if let Some(sub) = smooth.next(level) {
        for bits in sub.as_slice() {
            pins.pins(*bits);
        }
    }
}
