//! The state behind the answered lines.

ghost use Rattle.std.specs.Prelude.{◌≡◌};
ghost use Rattle.run_rules.specs.States.{IsState};

use line_interpreter::Interpreter;
use run_rules::State;
use std::marker::Model;

/// The state behind the answered lines. Contracts see that state; its fields are in range.
#[derive(Drop)]
pub struct Answered {
    state: State,
}

impl Model for Answered {
    ghost use Rattle.run_rules.specs.declared.State.{State as AnyState};
    ghost use Rattle.run_rules.specs.States.{IsState};

    ghost Value = { AnyState };

    ghost view = { λ a. a.state };

    ghost invariant = { λ a. IsState a.state };
}

impl Answered {
    /// All lines that were begun are answered.
    pub fn behind(lines: &Interpreter) -> Answered
        ensures { result ≡ lines.now.state }
    {
        Answered {
            state: lines.state(),
        }
    }

    /// The state itself.
    pub fn state(&self) -> State
        ensures is { result ≡ self.now }
        ensures valid { IsState result }
    {
        self.state
    }
}
