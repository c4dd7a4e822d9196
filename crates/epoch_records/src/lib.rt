//! What the pulse puts of pieces, epoch by epoch, and that it is what texts say.
#![tactic(auto)]

mod laws;
mod rows;

pub use laws::{
    answered_lines_are_done, epochs_are_made_so_far, epochs_are_recorded, halts_cut_one_piece,
    halts_part_pieces_in_one_way, lines_ask_for_no_ending, machines_stand_where_records_lead,
    parts_are_recorded, published_pieces_are_epochs, pulses_put_epochs_so_far,
    pulses_put_stretches, pulses_record_parts, stretches_are_epochs,
};
pub use rows::{other_records_are_not_put, worked_epochs_are_put, worked_parts_are_run};
