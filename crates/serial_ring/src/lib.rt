//! The link between host and board: bytes one way, replies the other, shared by two threads.
//!
//! A byte is in a cell until it is taken, a reply in one of 16 slots; a link has 128 to 255 cells. The host stores the
//! head of the bytes once a byte is in its cell, and the top bit of the head closes the link; the board stores their
//! tail once a byte is read. The board answers a line only after it has taken the line's end, so that the host knows
//! from the answers that it got how many of its bytes are taken.
//!
//! The host stores a mark behind the bytes so far, and the board loads it. A board greets again only behind a new mark, once all
//! bytes before that are taken: so the Banner tells the host that these are, and what is said of the answers goes by that mark
//! and its Banner in place of the start.
#![tactic(auto)]

mod board;
mod ends;
mod host;
mod joined;
mod marks;
mod plays;
mod view;

pub use ends::{BoardEnd, HostEnd};
pub use joined::{REPLY_ROOM, join_link, link};
pub use marks::mark_is_read_back;
pub use view::{ByteIn, Link, LinkSight, LinkStep, Stored};

/// How many bytes may be unread on a link, where nothing else is asked for: as many as the receive buffer of Grbl holds.
pub const RECEIVE_ROOM: usize = 128;
