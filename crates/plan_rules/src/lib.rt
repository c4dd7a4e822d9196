//! What a plan is: its blocks, its speeds, and the segment that it gives next.
//!
//! Speeds are squared, in µm²/s².
#![tactic(auto)]

pub mod laws;

/// How a plan's next segment is taken: as fast as the plan allows, or so that it comes to a stop.
#[derive(Clone, Copy, Debug, PartialEq, Eq)]
pub enum Mode {
    Go,
    Hold,
}
