//! Laws of the texts that runs leave: they fit, as an audit means it.
#![tactic(auto)]

mod laws;

pub use laws::{
    audits_find_no_fault_of_runs, runs_leave_consoles, runs_leave_step_texts,
    runs_leave_texts_that_fit, runs_scan_the_cuts_of_their_lines, runs_send_a_front,
    runs_send_all_lines,
};
