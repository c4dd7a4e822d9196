//! Where the machine is, by how many ticks are done of the pieces that were published.
#![tactic(auto)]

mod flight;
mod laws;
#[cfg(test)]
mod tests;

pub use flight::Flight;
pub use laws::{halts_leave_the_machine, pieces_lead_the_machine};
