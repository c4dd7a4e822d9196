//! The flags that realtime bytes raise.

ghost use Rattle.std.specs.Prelude.{◌≡◌};
ghost use Rattle.realtime_flags.specs.Bits.{IsNamed};
ghost use Rattle.list_ports.specs.Joining.{with_flag};

use crate::Lists;
use bitflags::Flags;
use code_table::{Exec, Ovr};
use realtime_flags::Flag;

impl<const RX: usize> Lists<RX> {
    /// Raises a flag in its word.
    pub(crate) fn raise_flag(&mut self, flag: Flag)
        requires named { IsNamed flag }
        ensures { self.new ≡ with_flag flag self.old }
    {
        match flag {
            Flag::Exec(place) => self.exec = Exec::from_bits_retain(self.exec.bits() | 1 << place),
            Flag::Override(place) => {
                self.overrides = Ovr::from_bits_retain(self.overrides.bits() | 1 << place);
            }
        }
    }
}
