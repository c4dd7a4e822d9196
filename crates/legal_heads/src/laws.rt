//! What holds of all legal heads.

ghost use Rattle.std.specs.Prelude.{◌≡◌, ◌∷◌, ◌++◌, List, []};
ghost use Rattle.std.specs.List.{flat_map};
ghost use Rattle.step_line.specs.declared.Head.{Head as AnyHead};
ghost use Rattle.step_line.specs.declared.Record.{Record as AnyRecord};
ghost use Rattle.step_line.specs.declared.Record.TheVariants as kinds;
ghost use Rattle.step_line.specs.declared.planned_move.PlannedMove.{PlannedMove as AnyMove};
ghost use Rattle.legal_heads.specs.Speeds.{HasLegalHeads};
ghost use Rattle.legal_heads.specs.Whole.{events_among, HasNoCut, move_events};

/// Whatever the records, a legal first head has the speed 0, and is of the first move; with no move planned no head is
/// legal.
pub fn wrong_heads_are_refused()
    ensures at_rest { (moves : List AnyMove) (h : AnyHead) (records : List AnyRecord) → HasLegalHeads moves (kinds.Head h ∷ records) → h.w ≡ 0 }
    ensures first { (m : AnyMove) (moves : List AnyMove) (h : AnyHead) (records : List AnyRecord) → HasLegalHeads (m ∷ moves) (kinds.Head h ∷ records) → h.line ≡ m.line }
    ensures moves { (h : AnyHead) (records : List AnyRecord) → HasLegalHeads [] (kinds.Head h ∷ records) → ⊥ }
{}

/// If no move is broken off, the events that legal heads tell are a front of those of their moves, in order: no move is
/// left before its end, and none is skipped.
pub fn events_are_those_of_the_moves()
    ensures { (moves : List AnyMove) (records : List AnyRecord) → HasLegalHeads moves records → HasNoCut records →
        (left : List AnyRecord) × (flat_map move_events moves ≡ events_among records ++ left) }
{}
