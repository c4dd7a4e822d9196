//! What a board may do next, and what a board that keeps to it has done.
#![tactic(auto)]

mod laws;

pub use laws::{
    boards_answer_each_line_once, boards_do_a_bounded_amount, boards_end_well,
    boards_halt_at_alarms, boards_keep_the_pulse_busy, boards_keep_to_their_lines,
    boards_lead_the_machine, boards_move_by_their_lines, boards_refuse_only_while_they_move,
    boards_report_where_they_are, boards_run_their_plan, boards_stand_where_nothing_moved,
    boards_take_their_flags, boards_take_turns, boards_wait_for_a_cause, cuts_are_at_known_places,
    cuts_lose_jogs_alone, halts_drop_what_is_left, lines_follow_cuts,
    machines_are_unlocked_by_lines, runs_begin_from_an_opening,
};
