//! What a board has done over its epochs is a course of the texts.
#![tactic(auto)]

mod laws;

pub use laws::{
    epochs_are_a_course, epochs_ask_for_parts, epochs_fit_the_texts, epochs_tell_their_course,
};
