//! What an audit of a job, a console and steps finds.
#![tactic(auto)]

mod laws;
mod rows;

pub use laws::{
    a_console_stands_by_the_lines_that_stand, a_console_stands_no_further_than_it_tells,
    a_course_stands_where_it_has_come_to, a_line_that_is_not_told_is_at_fault,
    a_reset_that_is_not_told_is_at_fault, a_text_tells_one_thing, bad_replies_stand_at_one_place,
    cuts_and_resets_come_behind_their_lines, each_fault_is_found,
    no_record_stands_where_nothing_is_told, one_line_has_the_bad_reply, one_line_raises_the_alarm,
    one_thing_is_found, records_stand_behind_a_course, records_stand_from_the_left,
    records_that_are_refused_do_not_stand, step_texts_go_on_line_by_line, step_texts_have_one_list,
    steps_break_behind_the_lines_that_stand, steps_that_were_read_stand_up_to_a_line,
    texts_are_found_to_fit_if_they_do, texts_that_fit_stand, who_tells_more_goes_on,
    written_texts_are_step_texts,
};
pub use rows::worked_findings;

/// What is found of three texts, or what keeps them from being read.
#[derive(Clone, Copy, Debug, PartialEq, Eq)]
pub enum Audit {
    /// They fit, and the steps have so many events.
    Fits { events: u64 },
    /// The console stands, and the record at this byte of the steps is the first that breaks a rule.
    Misfit { at: u64 },
    /// The words are not three.
    Usage,
    /// The job could not be read.
    JobFault,
    /// The console could not be read.
    ConsoleFault,
    /// The steps could not be read.
    StepsFault,
    /// The line that says what was found could not be written.
    OutFault,
    /// The reply to this line, or its absence, is the first that can't stand.
    BadReplies { line: u32 },
    /// This line of the job is not audited.
    Foreign { line: u32 },
    /// The console or the steps are too long.
    TooLong,
}
