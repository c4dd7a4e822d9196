//! The generated job: moves whose places follow from their numbers alone. It is given line by line, takes no memory,
//! and one line sums up its run.
#![tactic(auto)]

mod lines;
mod source;
mod summary;
mod telling;

pub use lines::demo_line;
pub use source::{DemoJob, NoConsole};
pub use summary::{Answers, put_pins, put_summary};
pub use telling::{tell_pins, tell_summary};

#[cfg(test)]
mod tests;
