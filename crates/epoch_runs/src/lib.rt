//! What the planner gave for the parts of a board's course are the pieces of its epochs.
#![tactic(auto)]

mod laws;

pub use laws::{epochs_are_run_for_their_course, epochs_are_those_of_the_port};
