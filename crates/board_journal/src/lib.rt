//! What a board does, step by step: its journal, and the port by which it reaches a host and a pulse.
#![tactic(auto)]

mod ports;

pub use ports::BoardPort;
