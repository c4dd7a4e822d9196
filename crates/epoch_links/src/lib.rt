//! What a host sent and what a board took are cut at the same places.
#![tactic(auto)]

mod laws;

pub use laws::{
    boards_end_epochs_for_marks, ends_of_a_link_are_linked, hosts_await_a_banner_of_each_mark,
    links_are_cut_at_the_same_places, links_carry_lines_and_resets, resets_drop_few_lines,
};
