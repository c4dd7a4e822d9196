//! Text on its way to a sink that may fail: it waits until much of it can be written at once.
#![tactic(auto)]

mod laws;
mod short_text;
#[cfg(test)]
mod tests;
mod writer;

pub use laws::{text_arrives, writes_leave_less};
pub use short_text::{ShortText, Waiting};
pub use writer::TextWriter;
