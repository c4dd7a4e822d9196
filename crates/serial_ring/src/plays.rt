//! What each step says.
ghost use Rattle.serial_ring.specs.Rule.{saw_tail, wrote, stored_byte, shut, set_mark, grasped, gave_back, saw_head, saw_mark, looked, took, reached, gave, tied, without_taking, without_storing, both_of, spent};

use crate::view::LinkSight;
use atomic_table::{Join, Play, Split};
use status_report::Reply;

/// The host loads the tail of the bytes.
pub(crate) struct SeeTail<const RX: usize>;

impl<const RX: usize> Play<Option<Reply>, LinkSight> for SeeTail<RX> {
    ghost then = { saw_tail RX };
}

/// The host stores a cell.
pub(crate) struct Write;

impl Play<Option<Reply>, LinkSight> for Write {
    ghost then = { wrote };
}

/// The host stores the head of the bytes.
pub(crate) struct StoreByte;

impl Play<Option<Reply>, LinkSight> for StoreByte {
    ghost then = { stored_byte };
}

/// The host closes the head of the bytes.
pub(crate) struct Shut;

impl Play<Option<Reply>, LinkSight> for Shut {
    ghost then = { shut };
}

/// The host stores the mark.
pub(crate) struct SetMark;

impl Play<Option<Reply>, LinkSight> for SetMark {
    ghost then = { set_mark };
}

/// The host loads the head of the replies, and takes the slot of the next.
pub(crate) struct Grasp;

impl Play<Option<Reply>, LinkSight> for Grasp {
    ghost then = { grasped };
}

/// The host stores the tail of the replies, and gives the slot back.
pub(crate) struct GiveBack;

impl Play<Option<Reply>, LinkSight> for GiveBack {
    ghost then = { gave_back };
}

/// The board loads the head of the bytes.
pub(crate) struct SeeHead<const RX: usize>;

impl<const RX: usize> Play<Option<Reply>, LinkSight> for SeeHead<RX> {
    ghost then = { saw_head RX };
}

/// The board loads the mark.
pub(crate) struct SeeMark;

impl Play<Option<Reply>, LinkSight> for SeeMark {
    ghost then = { saw_mark };
}

/// The board loads a cell.
pub(crate) struct Look;

impl Play<Option<Reply>, LinkSight> for Look {
    ghost then = { looked };
}

/// The board stores the tail of the bytes.
pub(crate) struct TakeByte;

impl Play<Option<Reply>, LinkSight> for TakeByte {
    ghost then = { took };
}

/// The board loads the tail of the replies, and takes the next slot if there is room.
pub(crate) struct Reach;

impl Play<Option<Reply>, LinkSight> for Reach {
    ghost then = { reached };
}

/// The board stores the head of the replies, and gives the slot.
pub(crate) struct Answer;

impl Play<Option<Reply>, LinkSight> for Answer {
    ghost then = { gave };
}

/// The lists of both ends are brought together.
pub(crate) struct Tie<const RX: usize>;

impl<const RX: usize> Play<Option<Reply>, LinkSight> for Tie<RX> {
    ghost then = { tied RX };
}

/// One side stores, the other takes.
pub(crate) struct Sides;

impl Split<LinkSight> for Sides {
    ghost left = { without_taking };

    ghost right = { without_storing };
}

impl Join<LinkSight> for Sides {
    ghost both = { both_of };

    ghost spent = { spent };
}
