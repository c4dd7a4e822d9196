//! What the judge's answers say of the records of a part.

ghost use Rattle.std.specs.Prelude.{◌≡◌, ◌↔◌, ◌⊎◌, ◌≤◌, List, [], ◌∷◌, ◌++◌, length, true, false, None, Some};
ghost use Rattle.step_line.specs.declared.Record.{Record as AnyRecord};
ghost use Rattle.step_line.specs.declared.planned_move.PlannedMove.{PlannedMove as AnyMove};
ghost use Rattle.step_line.specs.Asking.{ticks_among};
ghost use Rattle.run_rules.specs.Cuts.{LosesJogsAlone};
ghost use Rattle.run_rules.specs.Reports.{settles};
ghost use Rattle.run_rules.specs.Work.{Outcome, accepted_jog};
ghost use Rattle.run_texts.specs.Recorded.{ticks_for_all, settled_ticks};
ghost use Rattle.run_texts.specs.Making.{Making, IsMade, nothing_yet};
ghost use Rattle.part_making.specs.declared.Item.{Item as AnyItem};
ghost use Rattle.part_making.specs.Judging.{Known, Goes, Refuses, nothing_known, making, item_ticks, item_moves};

/// A part begins with nothing. An item that is asked for is one of those behind the next item. A record that goes on is made,
/// and one that is refused is never made of these lines, whatever lines come behind them.
pub fn refused_records_are_never_made()
    ensures begins { making nothing_known [] [] ≡ nothing_yet }
    ensures asked { (k : Known) (item : AnyItem) (ticks : List AnyRecord) (moves : List AnyMove) → k.next ≡ None →
        making k (item_ticks item ++ ticks) (item_moves item ++ moves) ≡ making (record k { next = Some item }) ticks moves }
    ensures goes { (since : List Outcome) (made : List AnyRecord) (k now : Known) (ticks : List AnyRecord) (moves : List AnyMove) (r : AnyRecord) →
        IsMade since made (making k ticks moves) → Goes k r now → IsMade since (made ++ r ∷ []) (making now ticks moves) }
    ensures refused { (since more : List Outcome) (made : List AnyRecord) (k : Known) (ticks : List AnyRecord) (moves : List AnyMove) (r : AnyRecord) (n : Making) →
        IsMade since made (making k ticks moves) → Refuses k r → IsMade (since ++ more) (made ++ r ∷ []) n → ⊥ }
{}

/// Where a line is entered only when nothing is owed of those before it, a part may end by what is owed of its last line: a cut
/// loses jogs alone exactly if that line is an accepted jog or nothing is owed, and no tick of a line up to the last that
/// settles is left out exactly if that line does not settle or nothing is owed.
pub fn parts_end_by_their_last_line()
    ensures entered { (since : List Outcome) (made : List AnyRecord) (m : Making) → IsMade since made m → m.owed ≡ [] → length (ticks_for_all since) ≤ length (ticks_among made) }
    ensures cut { (before : List Outcome) (o : Outcome) (made : List AnyRecord) (m : Making) → IsMade (before ++ o ∷ []) made m →
        length (ticks_for_all before) ≤ length (ticks_among made) →
        LosesJogsAlone (length (ticks_among made)) (before ++ o ∷ []) ↔ ((accepted_jog o.kind ≡ true) ⊎ (m.owed ≡ [])) }
    ensures settled { (before : List Outcome) (o : Outcome) (made : List AnyRecord) (m : Making) → IsMade (before ++ o ∷ []) made m →
        length (ticks_for_all before) ≤ length (ticks_among made) →
        (settled_ticks (before ++ o ∷ []) ≤ length (ticks_among made)) ↔ ((settles o ≡ false) ⊎ (m.owed ≡ [])) }
    ensures made { (lines : List Outcome) (made : List AnyRecord) → length (ticks_for_all lines) ≤ length (ticks_among made) → settled_ticks lines ≤ length (ticks_among made) }
{}
