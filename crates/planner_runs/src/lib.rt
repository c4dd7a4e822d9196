//! What a planner run is, and that its speeds are legal and its ticks those asked for.
//!
//! Speeds are squared, in µm²/s².
#![tactic(auto)]

mod laws;

pub use laws::{
    cleared_runs_begin_anew, halted_runs_are_legal, overrides_are_asked_for, pieces_follow,
    planner_runs_are_driven, planner_runs_are_legal, planner_runs_begin_at_rest,
    planner_runs_go_on, planner_runs_grow, ticks_are_those_asked_for,
};
use overrides::Overrides;
use plan_rules::Mode;
use step_line::{Mark, PlannedMove};

/// What is done to a plan.
#[derive(Clone, Copy, Debug, PartialEq, Eq)]
pub enum Action {
    /// A move is put after the others.
    Add(PlannedMove),
    /// The next segment is taken.
    Take(Mode),
    /// The overrides change, and the plan is made anew.
    Override(Overrides),
    /// A mark is made when nothing is left to run.
    Mark(Mark),
    /// The board waited until nothing was left to run.
    Rest,
    /// All blocks are taken away when the machine stands: a jog is cut, or an alarm is raised.
    Clear,
    /// All blocks are taken away at any speed. Nothing comes after it.
    Reset,
}
