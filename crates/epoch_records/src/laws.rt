//! Laws of epochs and their records.

ghost use Rattle.std.specs.Prelude.{◌≡◌, ℕ, ◌+◌, ◌≤◌, Bool, true, List, [], ◌∷◌, ◌++◌, length, reverse};
ghost use Rattle.std.specs.List.{sum};
ghost use Rattle.flight.specs.Halts.{Stretch};
ghost use Rattle.flight.specs.Places.{moved_by, machine_from, end_from};
ghost use Rattle.plan_rules.specs.Plans.{Planned};
ghost use Rattle.planner_runs.specs.Runs.{Plans, IsStart, all_records};
ghost use Rattle.planner_runs.specs.declared.Action.{Action as AnyAction};
ghost use Rattle.pulse_engine.specs.Logs.{PieceLog, RecordLog, pieces_of, halts_of, records_put, end_is_put, IsRecorded as IsRecordedBy};
ghost use Rattle.pulse_engine.specs.Steps.{Pulsing};
ghost use Rattle.pulse_engine.specs.Turns.{PulseFits};
ghost use Rattle.run_rules.specs.Cuts.{counts_asked};
ghost use Rattle.run_rules.specs.Reports.{fewest};
ghost use Rattle.run_rules.specs.Work.{Outcome};
ghost use Rattle.run_texts.specs.Courses.{Reset};
ghost use Rattle.run_texts.specs.Fronts.{BeginsWith};
ghost use Rattle.run_texts.specs.Making.{IsFinished};
ghost use Rattle.run_texts.specs.Parts.{Part};
ghost use Rattle.run_texts.specs.Parts.Ending.{by_cut, by_reset, by_end};
ghost use Rattle.run_texts.specs.Points.{Point, BecomesAt};
ghost use Rattle.run_texts.specs.Recorded.{IsRecorded, AreRecorded, settled_ticks};
ghost use Rattle.run_texts.specs.SoFar.{AreMadeSoFar};
ghost use Rattle.step_line.specs.Asking.{ticks_among};
ghost use Rattle.step_line.specs.Finishing.{ticks_together};
ghost use Rattle.step_line.specs.Logs.{NewestFirst};
ghost use Rattle.step_line.specs.declared.Mark.{Mark as AnyMark};
ghost use Rattle.step_line.specs.declared.Piece.{Piece as AnyPiece};
ghost use Rattle.step_line.specs.declared.Record.{Record as AnyRecord};
ghost use Rattle.units.specs.declared.Steps3.{Steps3};
ghost use Rattle.epoch_records.specs.Cutting.{HaveTicks, IsCutAmong};
ghost use Rattle.epoch_records.specs.Epochs.{Epoch, IsPut, ArePut};
ghost use Rattle.epoch_records.specs.Publishing.{published_in, halts_in, but_none, AreOver, AreSameHalts};
ghost use Rattle.epoch_records.specs.Runs.{AskForNoEnding, IsBrokenOff, IsCutOff, IsRunOut, AreRun};
ghost use Rattle.epoch_records.specs.SoFar.{AreRunSoFar, ArePutSoFar, IsPutSoFar, Phase, ArePublishedSoFar, HaltsUnseen};
ghost use Rattle.epoch_records.specs.Stretches.{stretches_in, pieces_since, pieces_of_all, EndStretches, ArePutOver, ArePutSince, AreEpochsOf};

/// What is put of a planner run that a reset has broken off, by a halt amid a piece, are records of its part: the first ticks that its
/// lines ask for, at least those up to the last answered line that settles, and legal heads, the last of which may miss
/// events. So are all records of one that a cut has ended, or the end, also behind an alarm. Each part stands where its events have
/// led.
pub fn parts_are_recorded()
    ensures reset { (place : Steps3) (p : Part) (r : Reset) (e : Epoch) (mine : List AnyRecord) → p.ending ≡ by_reset r →
        IsBrokenOff place p r.at e.pieces e.done → IsPut e mine → IsRecorded place p mine }
    ensures finished { (place : Steps3) (p : Part) (r : Reset) (e : Epoch) (mine : List AnyRecord) → p.ending ≡ by_reset r →
        IsBrokenOff place p r.at e.pieces e.done → IsPut e mine → IsFinished place p mine }
    ensures cut { (place : Steps3) (p : Part) (k : ℕ) (at : Steps3) (given : List AnyPiece) → p.ending ≡ by_cut k at →
        IsCutOff place p at given → IsRecorded place p (all_records given) }
    ensures end { (place : Steps3) (p : Part) (given : List AnyPiece) → p.ending ≡ by_end → IsRunOut p given → IsRecorded place p (all_records given) }
{}

/// Of an epoch's pieces, each with a tick of its own, the first are put whole, one is cut behind its first ticks, and of the others
/// nothing is put: that is what is put, no more and no less (`cut`, `first`, `ticks`). The pieces of a planner run have ticks.
pub fn halts_cut_one_piece()
    ensures cut { (e : Epoch) (mine : List AnyRecord) → HaveTicks e.pieces → IsPut e mine → IsCutAmong e.pieces e.done mine }
    ensures first { (pieces : List AnyPiece) (done : ℕ) (mine : List AnyRecord) → IsCutAmong pieces done mine → BeginsWith (all_records pieces) mine }
    ensures ticks { (pieces : List AnyPiece) (done : ℕ) (mine : List AnyRecord) → IsCutAmong pieces done mine → length (ticks_among mine) ≡ done }
    ensures runs { (most : ℕ) (start last : Planned) (actions : List AnyAction) (given : List AnyPiece) → IsStart start → Plans most start actions given last → HaveTicks given }
{}

/// Part by part, what is put of the epochs of a run is what its texts say.
pub fn epochs_are_recorded()
    ensures { (parts : List Part) (place : Steps3) (epochs : List Epoch) (records : List AnyRecord) → AreRun parts place epochs → ArePut epochs records →
        AreRecorded place parts records }
{}

/// The machine stands where the events that were put have led: at the ticks that were made. Behind a cut that is done it goes on from
/// where the pieces before it have led.
pub fn machines_stand_where_records_lead()
    ensures put { (place : Steps3) (e : Epoch) (mine : List AnyRecord) → IsPut e mine → moved_by place mine ≡ machine_from place e.pieces e.done }
    ensures behind { (place : Steps3) (given more : List AnyPiece) (m : AnyMark) (done : ℕ) →
        machine_from place (given ++ AnyPiece.Mark m ∷ more) (ticks_together given + 1 + done) ≡ machine_from (end_from place given) more done }
{}

/// Where so many ticks count of each line before a part, and of the part's lines all that they ask for, and those are done that are done
/// at least once the part's lines are answered (`fewest`), then of the part's ticks those up to its last answered line that settles are
/// done. So a reset may break it off.
pub fn answered_lines_are_done()
    ensures { (early lines begun : List Outcome) (counts : List ℕ) (done : ℕ) → length counts ≡ length early →
        fewest (length early + length lines) (early ++ (lines ++ begun)) (counts ++ counts_asked (lines ++ begun)) ≤ sum counts + done → settled_ticks lines ≤ done }
{}

/// No line asks for the mark of a cut or a reset.
pub fn lines_ask_for_no_ending()
    ensures { (runs : Bool) (p : Point) (kept : List ℕ) (o : Outcome) → BecomesAt runs p kept o → AskForNoEnding (o ∷ []) }
{}

/// What a pulse has put is, halt by halt, the first of the records of the pieces that it got or dropped since the halt before, up to
/// the ticks that it counted; and behind the last halt the first of the records of the pieces that it got, once the end is put all of them. These stretches have all its pieces, and end at
/// its halts.
pub fn pulses_put_stretches()
    ensures recorded { (h : PieceLog) (records : List AnyRecord) → IsRecordedBy h records → ArePutOver (stretches_in h) (pieces_since h) records }
    ensures done { (p : Pulsing) (h : PieceLog) (k : RecordLog) → PulseFits p h k → end_is_put k ≡ true → ArePutOver (stretches_in h) (pieces_since h) (records_put k) }
    ensures so_far { (p : Pulsing) (h : PieceLog) (k : RecordLog) → PulseFits p h k → ArePutSince (stretches_in h) (pieces_since h) (records_put k) }
    ensures pieces { (h : PieceLog) → pieces_of_all (stretches_in h) ++ pieces_since h ≡ reverse (pieces_of h) }
    ensures halts { (h : PieceLog) → EndStretches (halts_of h) (stretches_in h) }
{}

/// Where stretches are epochs, what is put of them is put of the epochs, each with the mark or the end that closes it.
pub fn stretches_are_epochs()
    ensures { (epochs : List Epoch) (stretches : List Stretch) (last : List AnyPiece) (records : List AnyRecord) → AreEpochsOf [] epochs stretches last →
        ArePutOver stretches last records → ArePut epochs records }
{}

/// Pieces are parted by halts in one way: who has the same pieces and the same halts has the same stretches.
pub fn halts_part_pieces_in_one_way()
    ensures { (halts : NewestFirst (ℕ × ℕ)) (stretches others : List Stretch) (last rest : List AnyPiece) → EndStretches halts stretches → EndStretches halts others →
        pieces_of_all stretches ++ last ≡ pieces_of_all others ++ rest → (stretches ≡ others) × (last ≡ rest) }
{}

/// Where a pulse got or dropped the pieces that were published of epochs, and halted where they halt, its stretches are these epochs
/// (`all`); also where it stored no halt at no pieces (`some`).
pub fn published_pieces_are_epochs()
    ensures all { (epochs : List Epoch) (h : PieceLog) → AreOver epochs → reverse (pieces_of h) ≡ published_in epochs → halts_of h ≡ reverse (halts_in 0 0 epochs) →
        AreEpochsOf [] epochs (stretches_in h) (pieces_since h) }
    ensures some { (epochs : List Epoch) (h : PieceLog) → AreOver epochs → reverse (pieces_of h) ≡ published_in epochs → halts_of h ≡ reverse (but_none (halts_in 0 0 epochs)) →
        AreEpochsOf [] epochs (stretches_in h) (pieces_since h) }
{}

/// So where the pieces that a pulse got or dropped, halt by halt, are those of epochs that were run for the parts of texts, what it has
/// put are the records of these parts (`stretches`): as where they are all that was published, and the halts are those of the epochs
/// (`all`), or those but for one at no pieces (`some`).
pub fn pulses_record_parts()
    ensures stretches { (parts : List Part) (place : Steps3) (epochs : List Epoch) (p : Pulsing) (h : PieceLog) (k : RecordLog) → AreRun parts place epochs →
        AreEpochsOf [] epochs (stretches_in h) (pieces_since h) → PulseFits p h k → end_is_put k ≡ true → AreRecorded place parts (records_put k) }
    ensures all { (parts : List Part) (place : Steps3) (epochs : List Epoch) (p : Pulsing) (h : PieceLog) (k : RecordLog) → AreRun parts place epochs →
        AreOver epochs → reverse (pieces_of h) ≡ published_in epochs → halts_of h ≡ reverse (halts_in 0 0 epochs) →
        PulseFits p h k → end_is_put k ≡ true → AreRecorded place parts (records_put k) }
    ensures some { (parts : List Part) (place : Steps3) (epochs : List Epoch) (p : Pulsing) (h : PieceLog) (k : RecordLog) → AreRun parts place epochs →
        AreOver epochs → reverse (pieces_of h) ≡ published_in epochs → halts_of h ≡ reverse (but_none (halts_in 0 0 epochs)) →
        PulseFits p h k → end_is_put k ≡ true → AreRecorded place parts (records_put k) }
{}

/// A run that goes on: what is put so far of its epochs is what is made of its parts, of which the last is not ended.
pub fn epochs_are_made_so_far()
    ensures { (parts : List Part) (place : Steps3) (epochs : List Epoch) (records : List AnyRecord) → AreRunSoFar parts place epochs → ArePutSoFar epochs records →
        AreMadeSoFar place parts records }
{}

/// At any moment a pulse has put what is put so far of the epochs of which pieces are published, where it has got or dropped the first of
/// these, and has halted where the halts were seen (`seen`), or once more (`unseen`). Of the open epoch so many ticks are made as are
/// put of it.
pub fn pulses_put_epochs_so_far()
    ensures seen { (number : ℕ) (phase : Phase) (closed : List Epoch) (now : Epoch) (published : List AnyPiece) (halts stored : NewestFirst (ℕ × ℕ)) (stretches : List Stretch) (last : List AnyPiece) (records : List AnyRecord) →
        ArePublishedSoFar number phase closed now (length (ticks_among records)) published halts → BeginsWith published (pieces_of_all stretches ++ last) → AreSameHalts halts stored →
        EndStretches stored stretches → ArePutSince stretches last records → IsPutSoFar number (closed ++ now ∷ []) records }
    ensures unseen { (number : ℕ) (phase : Phase) (closed : List Epoch) (now : Epoch) (published : List AnyPiece) (halts stored : NewestFirst (ℕ × ℕ)) (stretches : List Stretch) (last : List AnyPiece) (records : List AnyRecord) →
        ArePublishedSoFar number phase closed now (length (ticks_among records)) published halts → HaltsUnseen phase (length (ticks_among records)) published (pieces_of_all stretches ++ last) halts stored →
        EndStretches stored stretches → ArePutSince stretches last records → IsPutSoFar number (closed ++ now ∷ []) records }
{}
