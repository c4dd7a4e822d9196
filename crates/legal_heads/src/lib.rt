//! What legal heads are, by records and geometry alone, with no plan.
//!
//! Speeds are squared, in µm²/s².
#![tactic(auto)]

mod judging;
mod laws;
#[cfg(test)]
mod tests;

pub use judging::{are_legal, comes_next, latest};
pub use laws::{events_are_those_of_the_moves, wrong_heads_are_refused};
use step_line::{Head, Mark, PlannedMove};

/// A head with the move that its events are of, and how many of that move's events come before them.
#[derive(Clone, Copy, Debug, PartialEq, Eq)]
pub struct ToldHead {
    pub head: Head,
    pub planned: PlannedMove,
    pub first: u32,
}

/// What is recorded, without the events.
#[derive(Clone, Copy, Debug, PartialEq, Eq)]
pub enum Told {
    Head(ToldHead),
    Mark(Mark),
    End,
}
