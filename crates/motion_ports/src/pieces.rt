//! Where the pulse gets its pieces.

use motion_ring::SegIn;
use pulse_engine::PulsePort;
use step_line::Piece;

/// The pulse's end of a ring of pieces.
#[derive(Drop)]
pub struct PiecePort {
    pub end: SegIn,
}

/// The port stands for the pieces that its end got or dropped, the ticks that it counted and its halts, and its far side for the ring.
impl PulsePort for PiecePort {
    ghost use Rattle.atomic_table.specs.Seated.{TableId};
    ghost use Rattle.motion_ports.specs.Ports.{HasGot};

    ghost Rest = { TableId };

    ghost stands = { λ port ring log. HasGot port.end ring log };

    #[inline]
    fn stopped(&mut self) -> bool {
        self.end.stopped()
    }

    fn halt(&mut self) {
        self.end.halt();
    }

    #[inline]
    fn piece(&mut self) -> Option<Piece> {
        self.end.piece()
    }

    #[inline]
    fn tick_done(&mut self) {
        self.end.tick_done();
    }
}
