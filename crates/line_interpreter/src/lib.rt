//! A line interpreter without devices: what a line asks for, is told and done, task by task.
//!
//! It keeps the parser and the settings, judges one line at a time by the bytes that are kept of it, and then says what
//! there is to do next, until nothing is left. Who drives it tells the replies and moves the machine.
#![tactic(auto)]

mod desk;
mod greetings;
mod interpreter;
mod kept;
mod reporting;
mod tasks;

pub use desk::{Accepted, Judged};
pub use interpreter::Interpreter;
pub use kept::KeptLine;
pub use reporting::Seen;
pub use tasks::Todo;
