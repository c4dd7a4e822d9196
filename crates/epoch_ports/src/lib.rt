//! A board's port within one epoch, which counts from where that began.
#![tactic(auto)]

mod port;
mod side;

pub use port::EpochPort;
pub use side::EpochSide;
