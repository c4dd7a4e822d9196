//! What the thread of the board has, and what it does.

ghost use Rattle.thread_rig.specs.declared.board.BoardSide.{BoardSide};
ghost use Rattle.thread_rig.specs.BoardSides.{BoardIsNew, BoardRunsAt, BoardHasBegun, BoardRanAt};

use controller::Controller;
use link_ports::BoardLink;
use outside::{Actor, Gate};
use shared_rings::is_last;
use std::sync::Wait;

/// The board, and its ends of the link, of the flags and of the ring of pieces.
#[derive(Drop)]
pub(crate) struct BoardSide<const RX: usize, const N: usize> {
    pub(crate) board: Controller<N>,
    pub(crate) link: BoardLink<RX>,
}

/// A board's first turn, which tells the banner. It is taken before the host's thread is started: a host that has found no
/// banner for a while reads on, and its sender may wait for the banner.
pub(crate) fn begin_board<G: Gate, const RX: usize, const N: usize>(
    side: &mut BoardSide<RX, N>,
    gate: &G,
)
    requires { BoardIsNew side.old }
    ensures runs { BoardRunsAt side.old side.new }
    ensures turned { BoardHasBegun side.old side.new }
{
    gate.pass(Actor::Board);
    side.board.turn(&mut side.link);
}

/// Runs a board, which has begun, until it is done.
pub(crate) fn run_board<R: Wait, G: Gate, const RX: usize, const N: usize>(
    rt: &R,
    side: &mut BoardSide<RX, N>,
    gate: &G,
)
    requires { (before : BoardSide RX N) × BoardRunsAt before side.old }
    ensures { (before : BoardSide RX N) → BoardRunsAt before side.old → BoardRanAt before side.new }
{
    for _ in rt.forever() {
        gate.pass(Actor::Board);
        if is_last(side.board.turn(&mut side.link), Actor::Board, gate) {
            return;
        }
    }
    unreachable!()
}
