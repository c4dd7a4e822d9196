//! States that lines can leave.

ghost use Rattle.std.specs.Prelude.{◌≡◌};
ghost use Rattle.run_rules.specs.States.{IsState, IsOpening};
ghost use Rattle.modal_state.specs.Modes.{rebased};
ghost use Rattle.run_texts.specs.Courses.{reset_state};
ghost use Rattle.units.specs.Lengths.{IsPlace};

use modal_state::Parser;
use run_rules::State;
use std::marker::Model;
use units::{Nm3, Steps3};

/// A state that lines can leave. Contracts see the state.
#[derive(Drop)]
pub(crate) struct ValidState {
    state: State,
}

impl Model for ValidState {
    ghost use Rattle.run_rules.specs.States.{IsState};
    ghost use Rattle.run_rules.specs.declared.State.{State};

    ghost Value = { State };

    ghost view = { λ v. v.state };

    ghost invariant = { λ v. IsState v.state };
}

impl ValidState {
    /// Before the first line.
    pub(crate) fn opening() -> ValidState
        ensures { IsOpening result }
    {
        ValidState {
            state: State::opening(),
        }
    }

    /// That state.
    pub(crate) fn of(state: State) -> ValidState
        requires { IsState state }
        ensures { result ≡ state }
    {
        ValidState { state }
    }

    /// The state.
    pub(crate) fn state(&self) -> State
        ensures same { result ≡ self.now }
        ensures valid { IsState result }
    {
        self.state
    }

    /// Where a cut leaves the machine at a place.
    pub(crate) fn rebased(&self, at: Steps3) -> ValidState
        requires { IsPlace at }
        ensures { result ≡ record self.now { parser = rebased self.now.parser at self.now.settings.limits.per_mm } }
    {
        let mut state = self.state;
        state.parser.rebase(at, &self.state.settings.limits.per_mm);
        ValidState { state }
    }

    /// Behind a reset at a place.
    pub(crate) fn anew(&self, at: Steps3) -> ValidState
        requires { IsPlace at }
        ensures { result ≡ reset_state at self.now }
    {
        let mut parser = Parser::opening();
        parser.offsets = self.state.parser.offsets;
        parser.offsets.g92 = Nm3 { x: 0, y: 0, z: 0 };
        parser.rebase(at, &self.state.settings.limits.per_mm);
        ValidState {
            state: State {
                parser,
                settings: self.state.settings,
            },
        }
    }
}
