//! What holds of the events of every move.

ghost use Rattle.std.specs.Prelude.{◌≡◌, ℕ, ◌+◌, ◌<◌, [], ◌∷◌, ◌++◌, ◌≤◌, ◌↔◌, List, length, slice_get, Some};
ghost use Rattle.units.specs.declared.Move.{Move};
ghost use Rattle.units.specs.Lengths.{IsPlace, IsMove};
ghost use Rattle.step_line.specs.declared.Piece.{Piece};
ghost use Rattle.step_line.specs.Counting.{events_of};
ghost use Rattle.step_line.specs.Events.{event_of, events_after, line_events, IsEvent};
ghost use Rattle.step_line.specs.Places.{place_after, stepped_by};
ghost use Rattle.step_line.specs.Finishing.{tick_count, ticks_together, unfinished};

use crate::Piece;

/// A move's events are as many as its longest axis has steps, each steps some axis, and they may be taken
/// one by one or in parts.
pub fn events_in_order()
    ensures all { (m : Move) → length (line_events m) ≡ events_of m }
    ensures one { (m : Move) (k : ℕ) → k < events_of m → slice_get (line_events m) k ≡ Some (event_of m (k + 1)) }
    ensures parts { (m : Move) (k i j : ℕ) → events_after m k (i + j) ≡ events_after m k i ++ events_after m (k + i) j }
    ensures step { (m : Move) (k : ℕ) → k < events_of m → IsEvent (event_of m (k + 1)) }
{}

/// A move begins at its start and is at its end after all its events; between two moments it moves by the sum of the
/// events between them. It stays within the coordinates.
pub fn places_are_sums()
    ensures start { (m : Move) → place_after m 0 ≡ m.from }
    ensures end { (m : Move) → place_after m (events_of m) ≡ m.to }
    ensures sums { (m : Move) (k n : ℕ) → place_after m (k + n) ≡ stepped_by (place_after m k) (events_after m k n) }
    ensures within { (m : Move) (k : ℕ) → IsMove m → k ≤ events_of m → IsPlace (place_after m k) }
{}

/// How many pieces are unfinished while so many of their ticks are done: none exactly if all ticks are; one more with
/// each further piece whose last tick is not done. The end, which has no tick, never counts. The more ticks are done,
/// the fewer pieces are unfinished.
#[tactic(auto, using(crate::proofs::Finished::none_once_all_done, crate::proofs::Finished::one_more_behind, crate::proofs::Finished::end_is_finished, crate::proofs::Finished::fewer_later))]
pub fn pieces_are_finished_in_order()
    ensures none { (ps : List Piece) (done : ℕ) → (unfinished ps done ≡ 0) ↔ (ticks_together ps ≤ done) }
    ensures one_more { (ps : List Piece) (p : Piece) (done : ℕ) → 0 < tick_count p → done < ticks_together (ps ++ p ∷ []) → unfinished (ps ++ p ∷ []) done ≡ unfinished ps done + 1 }
    ensures end { (ps : List Piece) (done : ℕ) → unfinished (ps ++ Piece.End ∷ []) done ≡ unfinished ps done }
    ensures fewer { (ps : List Piece) (done later : ℕ) → done ≤ later → unfinished ps later ≤ unfinished ps done }
{}
