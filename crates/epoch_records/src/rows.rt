//! Worked epochs.

ghost use Rattle.run_rules.specs.declared.State.{State};
ghost use Rattle.step_line.specs.declared.planned_move.PlannedMove.{PlannedMove as AnyMove};
ghost use Rattle.epoch_records.specs.Rows.{StoppedBehindTwo, StoppedBeforeAll, OneTooMany, NoMark, ThreePartsAreRun, EarlyAnswer};

/// Two segments of five events each are published, and a reset follows. Where two ticks were made, the first head and two of
/// its events are put, and nothing of the second segment; where none was, nothing is put.
pub fn worked_epochs_are_put()
    ensures two { StoppedBehindTwo }
    ensures none { StoppedBeforeAll }
{}

/// An event that is no tick made is not put, and the mark of the reset is not left out.
pub fn other_records_are_not_put()
    ensures tick { OneTooMany → ⊥ }
    ensures mark { NoMark → ⊥ }
{}

/// A jog is cut before its first step, the next line dwells and is answered, and a reset breaks off a jog that is begun: the pieces
/// are the marks of the cut and of the dwell, which are done. If the dwell were not done, its line could not be answered.
pub fn worked_parts_are_run()
    ensures done { (s : State) (m : AnyMove) → ThreePartsAreRun s m }
    ensures early { (s : State) (m : AnyMove) → EarlyAnswer s m → ⊥ }
{}
