//! The records of a part, judged one by one: whether each is the next that its lines ask for, at a legal speed.
//!
//! It is told item by item what is asked for, and then judges the records up to the next item, in fixed memory.
#![tactic(auto)]

mod judge;
mod laws;
mod traced;

pub use judge::PartJudge;
pub use laws::{parts_end_by_their_last_line, refused_records_are_never_made};
use step_line::{Mark, PlannedMove};

/// What a line asks for: a move, or a mark that ends no part.
#[derive(Clone, Copy, Debug, PartialEq, Eq)]
pub enum Item {
    Move(PlannedMove),
    Mark(Mark),
}
