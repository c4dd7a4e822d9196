//! Laws of controllers.

ghost use Rattle.std.specs.Prelude.{◌-◌, ℕ, []};
ghost use Rattle.outside.specs.declared.Turn.{Turn};
ghost use Rattle.run_rules.specs.declared.State.{State};
ghost use Rattle.run_rules.specs.States.{IsOpening};
ghost use Rattle.board_epochs.specs.Epochs.{Epochs, AreEpochs};
ghost use Rattle.board_epochs.specs.Epochs.Epochs.{goes};
ghost use Rattle.controller.specs.Boards.{BoardFits, BoardRests, BoardTurned, GreetsFirst, HaveFinished, epoch_of};
ghost use Rattle.controller.specs.declared.controller.Controller.{Controller};

/// What a controller has done keeps to the rules of epochs, from an opening state on. Where nothing is left to do its open epoch is
/// finished: the run is closed.
pub fn controllers_keep_to_epochs()
    ensures { (N : ℕ) (c : Controller N) (e : Epochs) → BoardFits c e → (state : State) × IsOpening state × AreEpochs (N - 1) state e × (BoardRests c → HaveFinished (N - 1) state e) }
{}

/// A controller tells the banner in its first turn, before any other reply, unless its port hands that back for
/// want of room.
pub fn controllers_greet_first()
    ensures { (N : ℕ) (t : Turn) (was is : Controller N) (next : Epochs) → BoardFits was (goes [] []) → BoardFits is next → BoardTurned t was is (goes [] []) next → GreetsFirst (epoch_of next) }
{}
