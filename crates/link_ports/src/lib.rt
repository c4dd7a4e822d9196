//! The ports of host and board over what threads share: the link, the flags, and the ring of pieces.
//!
//! Each port stands for the lists of its ends: what was stored, raised and got, or taken, answered and
//! published. So the actors run over them as they run over plain lists, by the same contracts.
#![tactic(auto)]

mod board;
mod host;
mod laws;
#[cfg(test)]
mod tests;

pub use board::BoardLink;
pub use host::HostLink;
pub use laws::ports_of_a_link_agree;
