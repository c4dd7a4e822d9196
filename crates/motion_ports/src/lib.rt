//! The ports of the pulse and the recorder over what threads share.
//!
//! The pulse gets its pieces from an end of a ring of pieces, and puts its records into a ring of 1,024, from
//! whose other end the recorder takes them. Each port stands for the lists of its end.
#![tactic(auto)]

mod pieces;
mod records;
#[cfg(test)]
mod tests;

pub use pieces::PiecePort;
pub use records::{RecordOut, RecordPort, Recordable, join_records, record_ring};
