//! What a board moves: the plan, the piece in hand, and the state of the motion.
#![tactic(auto)]

mod machine;

pub use machine::{Machine, is_cut};
