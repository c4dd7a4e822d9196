//! What the programs take from the system: their words, the files that they read and write, and the clock by which one rests.
#![tactic(auto)]

mod limited;
mod limits;
mod named_file;
mod rests;
mod steps_file;
mod words;

pub use limited::Limited;
pub use named_file::NamedFile;
pub use rests::{RestingGate, rests_grow};
pub use steps_file::StepsFile;
pub use words::{as_strs, read_words};
