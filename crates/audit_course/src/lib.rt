//! A course of a job, judged item by item: what becomes of its lines, where jogs are cut, and where resets end an epoch.
//!
//! It is told lines, replies and records in turn, and keeps what is known of the course by then, in fixed memory.
#![tactic(auto)]

mod ends;
mod judge;
mod lines;
mod machines;
mod tasks;
mod ticks;
mod valid;

pub use judge::{CourseJudge, Next};
use line_interpreter::Accepted;
pub(crate) use ticks::Ticks;

/// What is known of the line at hand, by how it was judged and by its tasks so far.
#[derive(Clone, Copy)]
pub(crate) struct Progress {
    /// What was accepted.
    pub(crate) accepted: Accepted,
    /// It moves.
    pub(crate) moves: bool,
    /// It asks for a move or a mark.
    pub(crate) asks: bool,
    /// The machine stands behind it: it has items, and the last is no move. A line that is not answered doesn't settle.
    pub(crate) settles: bool,
    /// It halts the machine: it raises the alarm of a soft limit.
    pub(crate) halts: bool,
}

/// The error that stands next on the console, if one does that the motion can cause.
#[derive(Clone, Copy, PartialEq, Eq)]
pub enum MotionError {
    None,
    /// Error 8.
    Busy,
    /// Error 9.
    Locked,
}
