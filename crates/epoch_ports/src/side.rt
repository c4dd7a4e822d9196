//! A port that counts on over all epochs, within one of them.

ghost use Rattle.std.specs.Prelude.{◌≡◌, ℕ};
ghost use Rattle.epoch_ports.specs.Serving.{Since, Serves};

use crate::port::EpochPort;
use board_journal::BoardPort;
use code_table::{Exec, Ovr};
use serial_ring::ByteIn;
use status_report::Reply;
use step_line::Piece;

/// A port within an epoch, before which so many ticks were made.
#[derive(Drop)]
pub struct EpochSide<'a, P> {
    pub port: &'a mut P,
    pub base: u64,
}

impl<P: BoardPort> EpochPort for EpochSide<'_, P> {
    ghost Rest = { Since P.Rest × ℕ };

    ghost room = { P.room };

    ghost stands = { λ side since first l. (side.port.ghost_name ≡ since.1) × Serves P.Rest (P.stands side.port.now) side.base since.0 first l };

    #[inline(always)]
    fn byte(&mut self) -> ByteIn {
        self.port.byte()
    }

    #[inline(always)]
    fn free(&mut self) -> u8 {
        self.port.free()
    }

    #[inline(always)]
    fn answer(&mut self, r: Reply) -> Result<(), Reply> {
        self.port.answer(r)
    }

    #[inline(always)]
    fn take_exec(&mut self) -> Exec {
        self.port.take_exec()
    }

    #[inline(always)]
    fn take_override(&mut self) -> Ovr {
        self.port.take_override()
    }

    #[inline(always)]
    fn publish(&mut self, p: Piece) -> Result<(), Piece> {
        self.port.publish(p)
    }

    #[inline(always)]
    fn done(&mut self) -> u64 {
        self.port.done() - self.base
    }
}
