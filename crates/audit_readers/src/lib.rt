//! Readers of the three texts of an audit, and the line that says what it found: in fixed memory.
#![tactic(auto)]

mod console;
mod findings;
mod holds;
mod job_line;
mod jobs;
mod laws;
mod reports;
mod steps;
mod texts;
mod window;

pub use console::ConsoleReader;
pub use findings::{exit_of, put_audit};
pub use job_line::JobLine;
pub use jobs::JobReader;
pub use laws::taken_replies_come_next;
pub use reports::report_in;
pub use steps::StepReader;
pub use texts::{behind_reply, is_foreign};
pub use window::Window;
