//! What the words of a line say: which words pass, and what a line whose words pass says to a parser.
#![tactic(auto)]

mod axes;
pub mod commands;
mod index;
mod laws;
mod line;
mod modes;
mod slots;
mod words;

pub use axes::{Lengths, ORIGIN, Targets, line_offset, moves, named, replaced, target, targets};
pub use commands::Command;
pub use laws::{
    absolute_targets_are_fixed, groups_have_one_code, lines_without_axes_have_no_target,
    other_axes_stay,
};
pub use line::Line;
pub use modes::{
    exceeds, feed_of, flood_of, inch_of, length_given, line_number_out_of_range, motion_of,
    names_axis, plane_of, relative_of, rpm_of, spindle_of, system_of, tool_of, whole_given,
};
pub use words::is_code;
