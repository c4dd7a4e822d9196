//! What the two sides of a ring have done, for the contracts. No value of these types is made.
use std::collections::LinkedList;
use step_line::Piece;

/// A halt: how many pieces were published up to it, and how many ticks were done then.
pub struct Halt {
    pub pieces: u64,
    pub done: u64,
}

/// What the side that publishes has done, the latest first.
pub struct Sent {
    /// The pieces published up to the last halt that was seen.
    pub older: LinkedList<Piece>,
    /// The pieces published since.
    pub since: LinkedList<Piece>,
    /// How many pieces were published at each stop.
    pub stops: LinkedList<u64>,
    /// The halts that were seen.
    pub halts: LinkedList<Halt>,
    /// A stop waits for its halt.
    pub waits: bool,
}

/// What became of a piece that is finished: all its ticks are counted, or a halt cut it after so many of them, or a halt
/// dropped it before it was got.
pub enum Passed {
    Whole(Piece),
    Cut(Piece, u64),
    Dropped(Piece),
}

/// What the side that gets has done, the latest first.
pub struct Taken {
    /// The pieces got or dropped up to the last halt that was stored.
    pub past: LinkedList<Passed>,
    /// The pieces got since.
    pub fresh: LinkedList<Piece>,
    /// How many ticks were counted.
    pub counted: u64,
    /// How many ticks of the piece that was got last are not counted.
    pub left: u64,
    /// The halts that were stored.
    pub halts: LinkedList<Halt>,
}
