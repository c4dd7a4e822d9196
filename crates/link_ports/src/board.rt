//! The port of a board.

use board_journal::BoardPort;
use code_table::{Exec, Ovr};
use motion_ring::SegOut;
use realtime_flags::Taker;
use serial_ring::{BoardEnd, ByteIn};
use status_report::Reply;
use step_line::Piece;

/// The board's ends of a link, of the flags, and of the ring of pieces.
#[derive(Drop)]
pub struct BoardLink<const RX: usize> {
    pub end: BoardEnd<RX>,
    pub flags: Taker,
    pub pieces: SegOut,
}

/// The port stands for what its ends took, answered and published, and its far side for the three tables.
impl<const RX: usize> BoardPort for BoardLink<RX> {
    ghost use Rattle.std.specs.Prelude.{◌≡◌};
    ghost use Rattle.atomic_table.specs.Seated.{TableId};
    ghost use Rattle.serial_ring.specs.Ends.{link_of_board, log_by, found_closed};
    ghost use Rattle.realtime_flags.specs.Ends.{taken_in, takes_by};
    ghost use Rattle.motion_ring.specs.Ends.{ring_of_out, sent_by, known_by};
    ghost use Rattle.link_ports.specs.Boards.{BoardDid, BoardLooked};

    ghost Rest = { TableId × TableId × TableId };

    ghost room = { RX };

    ghost stands = { λ port tables log. (link_of_board port.end ≡ tables.0) × (taken_in port.flags ≡ tables.1) × (ring_of_out port.pieces ≡ tables.2)
        × BoardDid (log_by port.end) (found_closed port.end) (takes_by port.flags) (sent_by port.pieces) (known_by port.pieces) log
        × BoardLooked port.end port.pieces log };

    #[inline]
    fn byte(&mut self) -> ByteIn {
        self.end.byte()
    }

    #[inline]
    fn free(&mut self) -> u8 {
        self.end.free()
    }

    #[inline]
    fn marked(&mut self) -> (u32, u32) {
        self.end.marked()
    }

    #[inline]
    fn answer(&mut self, r: Reply) -> Result<(), Reply> {
        self.end.answer(r)
    }

    #[inline]
    fn take_exec(&mut self) -> Exec {
        self.flags.take_exec()
    }

    #[inline]
    fn take_override(&mut self) -> Ovr {
        self.flags.take_override()
    }

    #[inline]
    fn publish(&mut self, p: Piece) -> Result<(), Piece> {
        self.pieces.publish(p)
    }

    #[inline]
    fn done(&mut self) -> u64 {
        self.pieces.done()
    }

    #[inline]
    fn stop(&mut self) {
        self.pieces.stop()
    }

    #[inline]
    fn halted(&mut self) -> Option<u64> {
        self.pieces.halted()
    }
}
