//! What words of flags have done over the epochs of a board: to its overrides, its speed, its jogs and its reports.
#![tactic(auto)]

mod laws;

pub use laws::{
    cuts_have_causes, lines_are_answered_once, lines_are_asked_in_turn, reports_fit_their_epochs,
    words_are_taken_once, words_do_what_they_ask,
};
