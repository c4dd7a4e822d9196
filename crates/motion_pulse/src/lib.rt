//! The pulse of a run: one that steps the machine event by event, or one that hands out the subticks of each event besides, and
//! counts them.
#![tactic(auto)]

mod counted;
mod laws;
mod pulse;

pub use counted::Counted;
pub use laws::pins_are_those_of_heads;
pub use pulse::{MotionPulse, Stepping};
