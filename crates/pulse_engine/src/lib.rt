//! The pulse: traces pieces into step events, one step of work a turn.
//!
//! It gets pieces from one port and puts records into another. A segment is put as a head and its events, a mark and
//! the end as themselves. The events and marks are the ticks: each is put, and then it is counted, before the next is
//! put. So whoever waits until a tick is counted knows that it is recorded.
//!
//! The same pulse runs over plain slots on one thread and over rings that threads share. So its contracts speak of its
//! ports only by what they stand for: `stands port rest log` says that this side of the port has done what the log
//! says, and that the far side did what `rest` says.
#![tactic(auto)]

mod laws;
mod ports;
mod pulse;
#[cfg(test)]
mod tests;

pub use laws::{pieces_in_order, records_in_order};
pub use ports::{PulsePort, RECORD_ROOM, TickOut};
pub use pulse::Pulse;
