//! Step records as text, and back.
//!
//! Each record is one line, ended by LF. Numbers are decimal, without leading zeros.
//!
//! - The head of a segment is `s line n w cycles`, parted by one blank: its line and how many events it has, both at
//!   least 1, the squared speed at which it begins, and its cycles.
//! - An event has for each axis that steps, in the order X, Y, Z, its letter and `+` or `-`. Some axis steps.
//! - A dwell is `D ms`, a spindle that turns `M3 speed` or `M4 speed`, one that stands `M5 0`, the coolant `M8 0` and
//!   `M9 0`, a cut `X line`, with a blank that no event has, and a reset `Z line`.
//! - The end is `E`.
//!
//! That is form 1. Form 2 begins with the line `V 2`; equal events that stand together are one line `R n event`, where n is at
//! least 2 and at most 4,294,967,295, more being full lines and a rest; and each other record has its line of form 1.
//!
//! A `Recorder` takes records, one a turn, and writes their lines to a sink.
#![tactic(auto)]

mod forms;
mod held_lines;
mod laws;
mod numbers;
mod reading;
mod recorder;
mod records;
mod writing;

pub use forms::{Form, Line};
pub use laws::{longest_lines, one_reading, one_reading_in_form_two, recorded, worked_text};
pub use numbers::number_at;
pub use reading::{next_line, next_record};
pub use recorder::{RecordIn, Recorder};
pub use records::has_line;
use thiserror::Error;
pub use writing::{LONGEST_EVENT, LONGEST_LINE, push_event, push_record, put_record};

/// No record's line begins at this place of a text.
#[derive(Clone, Copy, Debug, PartialEq, Eq, Error)]
#[error("no step record at byte {at}")]
pub struct BadRecord {
    pub at: usize,
}
