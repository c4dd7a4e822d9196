//! What a board does over a run in epochs, each ended by a reset.
#![tactic(auto)]

mod laws;

pub use laws::{
    boards_ask_their_port_over_epochs, closed_epochs_are_bounded, epochs_open_where_they_stand,
    ports_count_on_over_epochs, reports_tell_the_lock, resets_are_those_of_the_texts,
    resets_come_in_calm_epochs,
};
