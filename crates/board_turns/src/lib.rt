//! The board: it takes the bytes of a job, carries out its lines, and answers them.
#![tactic(auto)]

mod board;
mod flags;
mod pieces;
mod reports;
mod resets;
mod stops;

pub use board::Board;
pub use epoch_ports::EpochPort;
