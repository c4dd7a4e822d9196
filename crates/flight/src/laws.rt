//! What holds of every machine that runs pieces.

ghost use Rattle.std.specs.Prelude.{◌≡◌, ℕ, ◌+◌, ◌-◌, ◌≤◌, List, [], ◌∷◌, ◌++◌, take};
ghost use Rattle.std.specs.List.{flat_map};
ghost use Rattle.units.specs.declared.Steps3.{Steps3};
ghost use Rattle.step_line.specs.declared.Mark.{Mark};
ghost use Rattle.step_line.specs.declared.Segment.{Segment};
ghost use Rattle.step_line.specs.declared.Piece.{Piece};
ghost use Rattle.step_line.specs.Pieces.{GoesOn, ticks_of};
ghost use Rattle.step_line.specs.Places.{place_after};
ghost use Rattle.step_line.specs.Finishing.{tick_count, ticks_together};
ghost use Rattle.flight.specs.Places.{moved_by, machine_at, end_of};
ghost use Rattle.flight.specs.Halts.{Stretch, AreStretches, count_made, machine_after, halted_at, halted};
ghost use Rattle.flight.specs.Flights.{BeginsAt};

/// The place of the machine does not depend on later pieces; within a segment it is that of the segment's move, and no
/// mark moves it. So a segment begins where the ticks before it lead if it begins its move, which starts there, or goes
/// on with the segment before it.
#[tactic(auto, using(crate::proofs::Places::earlier, crate::proofs::Places::at_end_of, crate::proofs::Places::in_segment, crate::proofs::Places::ends, crate::proofs::Places::begins, crate::proofs::Places::goes_on, crate::proofs::Places::stays))]
pub fn pieces_lead_the_machine()
    ensures earlier { (ps qs : List Piece) (done : ℕ) → done ≤ ticks_together ps → machine_at (ps ++ qs) done ≡ machine_at ps done }
    ensures end { (ps : List Piece) → machine_at ps (ticks_together ps) ≡ end_of ps }
    ensures segment { (ps qs : List Piece) (s : Segment) (j : ℕ) → BeginsAt (end_of ps) (Piece.Segment s) → j ≤ s.n → machine_at (ps ++ Piece.Segment s ∷ qs) (ticks_together ps + j) ≡ place_after s.mv (s.first + j) }
    ensures after { (ps : List Piece) (s : Segment) → BeginsAt (end_of ps) (Piece.Segment s) → end_of (ps ++ Piece.Segment s ∷ []) ≡ place_after s.mv (s.first + s.n) }
    ensures mark { (ps : List Piece) (m : Mark) → end_of (ps ++ Piece.Mark m ∷ []) ≡ end_of ps }
    ensures begins { (place : Steps3) (s : Segment) → s.first ≡ 0 → s.mv.from ≡ place → BeginsAt place (Piece.Segment s) }
    ensures goes_on { (ps : List Piece) (s t : Segment) → BeginsAt (end_of ps) (Piece.Segment s) → GoesOn s t → BeginsAt (end_of (ps ++ Piece.Segment s ∷ [])) (Piece.Segment t) }
{}

/// A halt leaves the machine where it is: after the ticks that are done, in order, of the pieces between two halts the first
/// so many, which are those of the whole pieces and the first of the one that is cut. What is published behind a halt moves
/// it from there.
#[tactic(auto, using(crate::proofs::Halts::unhalted, crate::proofs::Halts::goes_from, crate::proofs::Halts::halts_well, crate::proofs::Halts::counts_all, crate::proofs::Halts::stays, crate::proofs::Halts::cut_ticks))]
pub fn halts_leave_the_machine()
    ensures none { (ps : List Piece) (done : ℕ) → machine_after [] ps done ≡ machine_at ps done }
    ensures halt { (ss : List Stretch) (ps : List Piece) (done : ℕ) → AreStretches ss → count_made ss ≤ done → halted_at (halted ss ps done) ≡ machine_after ss ps done }
    ensures well { (ss : List Stretch) (ps : List Piece) (done : ℕ) → AreStretches ss → done ≤ count_made ss + ticks_together ps → AreStretches (halted ss ps done) }
    ensures count { (ss : List Stretch) (ps : List Piece) (done : ℕ) → count_made ss ≤ done → count_made (halted ss ps done) ≡ done }
    ensures behind { (ss : List Stretch) (ps : List Piece) (done : ℕ) → AreStretches ss → count_made ss ≤ done → machine_after ss ps done ≡ moved_by (halted_at ss) (take (done - count_made ss) (flat_map ticks_of ps)) }
    ensures cut { (ps : List Piece) (p : Piece) (qs : List Piece) (m : ℕ) → m ≤ tick_count p → take (ticks_together ps + m) (flat_map ticks_of (ps ++ p ∷ qs)) ≡ flat_map ticks_of ps ++ take m (ticks_of p) }
{}
