//! What is on its way between four actors on one thread, as plain lists that are the ports of each.
//!
//! Bytes and replies between a host and a board, the flags that realtime bytes raise, and pieces on their way to a pulse stand in
//! `Lists`; records go from a pulse to a recorder through `Records`. Each call of a port keeps one relation between what the
//! actors have done: what one side got is a front of what the other gave, and no flag is lost or taken twice.
#![tactic(auto)]

mod board_port;
mod flags;
mod host_port;
mod laws;
mod lists;
mod pulse_port;
mod records;
#[cfg(test)]
mod tests;

pub use laws::logs_of_lists_agree;
pub use lists::Lists;
pub use records::Records;
