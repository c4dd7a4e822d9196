//! What each step tells.
ghost use Rattle.motion_ring.specs.Rule.{reached, seen, published, stopped, heeded, grasped, ticked, finished, asked, recalled, skipped, halted, tied, without_getting, without_publishing, both_of, spent};

use crate::view::MotionSight;
use atomic_table::{Join, Play, Split};
use step_line::Piece;

/// The done count is loaded, and the next slot taken where there is room.
pub(crate) struct Reach;

impl Play<Option<Piece>, MotionSight> for Reach {
    ghost then = { reached };
}

/// The done count is loaded.
pub(crate) struct See;

impl Play<Option<Piece>, MotionSight> for See {
    ghost then = { seen };
}

/// The head is stored, and the slot given.
pub(crate) struct Publish;

impl Play<Option<Piece>, MotionSight> for Publish {
    ghost then = { published };
}

/// A stop is stored.
pub(crate) struct Stop;

impl Play<Option<Piece>, MotionSight> for Stop {
    ghost then = { stopped };
}

/// The halted word is loaded, and all slots taken back where it shows the halt.
pub(crate) struct Heed;

impl Play<Option<Piece>, MotionSight> for Heed {
    ghost then = { heeded };
}

/// The head is loaded, and the slot of the next piece taken.
pub(crate) struct Grasp;

impl Play<Option<Piece>, MotionSight> for Grasp {
    ghost then = { grasped };
}

/// A tick that is not the last of its piece is counted.
pub(crate) struct Tick;

impl Play<Option<Piece>, MotionSight> for Tick {
    ghost then = { ticked };
}

/// The last tick of a piece is counted, and its slot given back.
pub(crate) struct Finish;

impl Play<Option<Piece>, MotionSight> for Finish {
    ghost then = { finished };
}

/// The stop word is loaded.
pub(crate) struct Ask;

impl Play<Option<Piece>, MotionSight> for Ask {
    ghost then = { asked };
}

/// The stop word is loaded again, once it showed a stop.
pub(crate) struct Recall;

impl Play<Option<Piece>, MotionSight> for Recall {
    ghost then = { recalled };
}

/// The slot of the next piece is taken, which is not traced.
pub(crate) struct Skip;

impl Play<Option<Piece>, MotionSight> for Skip {
    ghost then = { skipped };
}

/// A halt is stored, and all slots given back.
pub(crate) struct Halting;

impl Play<Option<Piece>, MotionSight> for Halting {
    ghost then = { halted };
}

/// Both lists are brought together.
pub(crate) struct Tie;

impl Play<Option<Piece>, MotionSight> for Tie {
    ghost then = { tied };
}

/// One side publishes, the other gets.
pub(crate) struct Sides;

impl Split<MotionSight> for Sides {
    ghost left = { without_publishing };

    ghost right = { without_getting };
}

impl Join<MotionSight> for Sides {
    ghost both = { both_of };

    ghost spent = { spent };
}
