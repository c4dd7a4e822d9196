//! What a run is over epochs, and the law that four actors make one.
#![tactic(auto)]

mod laws;

pub use laws::{
    actors_make_a_run, actors_make_a_run_so_far, actors_make_texts_that_fit,
    actors_that_end_make_a_run, boards_have_run, boards_run, hosts_are_sending, hosts_have_sent,
    linked_ends_are_connected, pulses_have_run, pulses_run, rings_pass_pieces_so_far,
    words_that_are_taken_were_raised,
};
