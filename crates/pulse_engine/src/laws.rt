//! What holds of the records of every pulse.

ghost use Rattle.std.specs.Prelude.{◌≡◌, ℕ, ◌+◌, ◌⊎◌, List, [], ◌∷◌, ◌++◌, reverse, map, true};
ghost use Rattle.std.specs.List.{All, flat_map};
ghost use Rattle.step_line.specs.declared.Segment.{Segment};
ghost use Rattle.step_line.specs.declared.Piece.{Piece};
ghost use Rattle.step_line.specs.declared.Record.{Record};
ghost use Rattle.step_line.specs.Pieces.{GoesOn, records_of, ticks_of};
ghost use Rattle.step_line.specs.Events.{events_after};
ghost use Rattle.step_line.specs.Records.{IsRecord};
ghost use Rattle.step_line.specs.Ordering.{InTurn, recorded};
ghost use Rattle.pulse_engine.specs.Logs.{PieceLog, RecordLog, pieces_of, got_since, halts_of, records_put, ticks_in, counted, uncounted, end_is_put, IsEndOf, IsRecorded};
ghost use Rattle.pulse_engine.specs.Steps.{Pulsing};
ghost use Rattle.pulse_engine.specs.Turns.{PulseFits};

use step_line::{Piece, Record};

/// What is recorded of pieces that came in turn: the records of each, in order, and each has a line. The events go on
/// over the segments of a move: two that join have together the events of their move from the first one's first event
/// on.
#[tactic(auto, using(crate::proofs::Whole::recorded_each, crate::proofs::Whole::goes_on, crate::proofs::Whole::all_have_lines))]
pub fn pieces_in_order()
    ensures each { (ps : List Piece) → recorded ps ≡ flat_map records_of (reverse ps) }
    ensures lines { (ps : List Piece) → InTurn ps → All IsRecord (recorded ps) }
    ensures runs_on { (s t : Segment) → GoesOn s t → ticks_of (Piece.Segment s) ++ ticks_of (Piece.Segment t) ≡ map Record.Event (events_after s.mv s.first (s.n + t.n)) }
{}

/// What a pulse has put begins what is recorded of the pieces that it got, up to the places where halts cut them, and is all of
/// it between pieces and once the end was put, which then is the last. The ticks that it put are those that it counted, or one
/// more. The ticks that are recorded are those that are counted, and those of the piece got last that are not.
#[tactic(auto, using(crate::proofs::Whole::front_put, crate::proofs::Whole::whole_put, crate::proofs::Whole::ticks_put, crate::proofs::Whole::all_counts, crate::proofs::Whole::done_put, crate::proofs::Whole::never_halted))]
pub fn records_in_order()
    ensures front { (p : Pulsing) (h : PieceLog) (k : RecordLog) → PulseFits p h k → (rest : List Record) × IsEndOf (got_since h) rest × IsRecorded h (records_put k ++ rest) }
    ensures whole { (p : Pulsing) (h : PieceLog) (k : RecordLog) → PulseFits p h k → p.waiting ≡ [] → IsRecorded h (records_put k) }
    ensures ticks { (p : Pulsing) (h : PieceLog) (k : RecordLog) → PulseFits p h k
        → (ticks_in (records_put k) ≡ counted h) ⊎ (ticks_in (records_put k) ≡ counted h + 1) }
    ensures counts { (p : Pulsing) (h : PieceLog) (k : RecordLog) → PulseFits p h k → (rest : List Record) × IsRecorded h (records_put k ++ rest) × (counted h + uncounted h ≡ ticks_in (records_put k ++ rest)) }
    ensures done { (p : Pulsing) (h : PieceLog) (k : RecordLog) → PulseFits p h k → end_is_put k ≡ true
        → IsRecorded h (records_put k) × ((before : List Piece) × (got_since h ≡ Piece.End ∷ before)) × ((rest : List Record) × (records_put k ≡ rest ++ Record.End ∷ [])) × (ticks_in (records_put k) ≡ counted h) }
    ensures unhalted { (h : PieceLog) (rs : List Record) → halts_of h ≡ [] → IsRecorded h rs → rs ≡ recorded (pieces_of h) }
{}
