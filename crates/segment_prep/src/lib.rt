//! The segments that a plan gives to the steppers.
//!
//! A segment is some events in a row of the plan's tail, those of about 10 ms, which begin and end at squared speeds in
//! µm²/s². The numbers of a block keep all in 64 bits: a speed is at most the block's rapid one, which is at most
//! 33,333,333 µm/s, and 16,000 times a length is below 2^63.
#![tactic(auto)]

mod pace;
mod rule;
mod taking;

pub use plan_rules::{Mode, laws};
pub use taking::next_segment;
