//! What a board keeps of its lines, apart from what is left to do of them: the one that is not begun, the state behind those
//! that were answered, and whether the last that was accepted is a jog.
#![tactic(auto)]

mod answered;
mod input;
mod jogged;

pub use answered::Answered;
pub use input::Input;
pub use jogged::jogs_behind;
