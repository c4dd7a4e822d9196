//! The work of a reset: what a board does between two epochs.
#![tactic(auto)]

mod counts;
mod laws;
mod reset;
mod stages;

pub use counts::Counts;
pub use laws::{
    resets_begin_with_known_numbers, resets_drop_what_is_before_their_mark,
    resets_halt_their_epoch, resets_part_epochs,
};
pub use reset::ResetWork;

#[cfg(test)]
mod tests;
