//! What a run of lines is: what becomes of each line, what is told of it, what it asks of the machine, and what it
//! leaves for the next.
#![tactic(auto)]

ghost use Rattle.std.specs.Prelude.{◌≡◌, ◌<◌};
ghost use Rattle.step_line.specs.Records.{IsMark};
ghost use Rattle.run_rules.specs.States.{IsOpening, IsState};
ghost use Rattle.run_rules.specs.Asks.{spindle_mark};

mod laws;
mod machine;

pub use laws::{
    alarms_end_the_run, errors_for_the_motion_have_causes, found_lines_become,
    jogs_change_the_place_alone, lines_are_of_a_kind, lines_are_pieces,
    lines_find_a_machine_that_stands, lines_have_one_answer, lines_pause_once, lines_settle,
    locked_machines_stand, run_goes_on, runs_are_determined,
};
pub use machine::Machine;
use modal_state::{Parser, SpindleMode};
use settings::Settings;
use step_line::{Mark, SpindleCode};

/// The number of the alarm that a soft limit raises.
pub const SOFT_LIMIT: u8 = 2;

/// What the lines answered so far leave for the next.
#[derive(Clone, Copy, Debug, PartialEq, Eq)]
pub struct State {
    pub parser: Parser,
    pub settings: Settings,
}

impl State {
    /// The state before the first line: the parser's opening state, and the settings of the generic machine.
    pub fn opening() -> State
        ensures opening { IsOpening result }
        ensures valid { IsState result }
    {
        State {
            parser: Parser::opening(),
            settings: Settings::generic(),
        }
    }
}

/// How a spindle mode is recorded, with its speed in turns per minute; after M5 it has none.
pub fn spindle_mark(mode: SpindleMode, speed: u32) -> Mark
    ensures mark { result ≡ spindle_mark mode speed }
    ensures valid { IsMark result }
{
    match mode {
        SpindleMode::Off => Mark::Spindle(SpindleCode::M5, 0),
        SpindleMode::Cw => Mark::Spindle(SpindleCode::M3, speed),
        SpindleMode::Ccw => Mark::Spindle(SpindleCode::M4, speed),
    }
}
