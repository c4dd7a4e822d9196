//! The ring of pieces between the board, which publishes them, and the pulse, which traces them.
//!
//! A piece stands in one of six slots until the last of its ticks is counted; at most five are unfinished at
//! once. The board stores the head once a piece stands in its slot, and the pulse counts each tick by one
//! store of the done count. So the done count, which the board loads, says which ticks are recorded, and a
//! slot is free again once every tick of its piece is.
//!
//! The board may stop the pulse: it stores the number of pieces published. The pulse then drops what it has not traced,
//! stores that it has halted there, and with that gives all slots back. Once the board sees the halt, the done count stands.
#![tactic(auto)]

mod calls;
mod ends;
mod lists;
mod plays;
#[cfg(test)]
mod tests;
mod view;

pub use calls::{PIECE_ROOM, join_motion, motion};
pub use ends::{SegIn, SegOut};
pub use lists::{Halt, Passed, Sent, Taken};
pub use view::{Motion, MotionSight};
