//! The three texts of an audit, each as its loop goes along it: lines and resets of the job, replies, records.
#![tactic(auto)]

mod listening;
mod recorded;
mod sending;

pub use listening::Listening;
pub use recorded::Recorded;
pub use sending::{Item, Sending};
