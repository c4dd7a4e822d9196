//! Laws of the epochs of a board, as the pulse has them.

ghost use Rattle.std.specs.Prelude.{◌≡◌, ℕ, ◌≤◌, true, [], reverse};
ghost use Rattle.flight.specs.Places.{origin};
ghost use Rattle.motion_ring.specs.Sides.{ticks_published};
ghost use Rattle.run_rules.specs.declared.State.{State};
ghost use Rattle.run_texts.specs.Parts.{parts_of};
ghost use Rattle.step_line.specs.Finishing.{ticks_together};
ghost use Rattle.step_line.specs.Logs.{NewestFirst};
ghost use Rattle.board_rules.specs.Conduct.{IsFinished};
ghost use Rattle.board_journal.specs.Ports.{known_in, sent_in};
ghost use Rattle.board_journal.specs.Steps.{Journal, known_of, published_of};
ghost use Rattle.board_epochs.specs.Epochs.{Closed, Epochs, AreEpochs, closed_log, log_behind, log_of, opening_behind};
ghost use Rattle.board_epochs.specs.Epochs.Epochs.{goes, resets};
ghost use Rattle.board_epochs.specs.Work.{Work, stage_of};
ghost use Rattle.epoch_courses.specs.Course.{is_marked, with_reset, closed_course, course_of, open_journal};
ghost use Rattle.epoch_records.specs.Publishing.{published_in, halts_in, AreOver};
ghost use Rattle.epoch_records.specs.Runs.{AreRun};
ghost use Rattle.epoch_records.specs.SoFar.{AreRunSoFar, ArePublishedSoFar};
ghost use Rattle.epoch_records.specs.SoFar.Phase.{is_stopping};
ghost use Rattle.epoch_runs.specs.Epochs.{closed_of, epochs_of, epochs_so_far, made_of, number_of, open_epoch, phase_of, without_end, halts_seen, pieces_sent};

/// The epochs of a board that is done, as the pulse has them by their pieces and the ticks made of these, were run for the
/// parts of its course: so what the pulse puts of them are the records of these parts. So were its epochs so far, while so
/// many ticks of the open one are made, at least those that the board knows of, and no more than were published. And once
/// the mark of a reset is published, so were the epochs with the one that it ends, and one behind it in which nothing is done.
pub fn epochs_are_run_for_their_course()
    ensures run { (blocks : ℕ) (state : State) (made : ℕ) (es : NewestFirst Closed) (h : Journal) → AreEpochs blocks state (goes es h) → IsFinished (opening_behind blocks state es) h → known_of h ≤ made →
        AreRun (parts_of (course_of blocks state made (goes es h))) origin (epochs_of blocks state es h) }
    ensures so_far { (blocks : ℕ) (state : State) (made : ℕ) (es : Epochs) → AreEpochs blocks state es → known_of (open_journal es) ≤ made → made ≤ ticks_together (without_end (published_of (open_journal es))) →
        AreRunSoFar (parts_of (course_of blocks state made es)) origin (epochs_so_far blocks state made es) }
    ensures marked { (blocks : ℕ) (state : State) (es : NewestFirst Closed) (h : Journal) (w : Work) → AreEpochs blocks state (resets es h w) → is_marked (stage_of (log_behind (closed_log es) h) w) ≡ true →
        AreRunSoFar (parts_of (closed_course blocks state (with_reset es h w))) origin (epochs_so_far blocks state 0 (goes (with_reset es h w) [])) }
{}

/// These epochs are those of the board's port: their pieces, with the marks of the resets between them and the end behind
/// them, are those that it has published, and their halts are those that it has seen. Each but the last is ended by a mark,
/// and no more of its ticks are made than were published; and all of the last one. So it is at any moment while so many ticks are made in
/// all, at least those that the board knows of, and no more than it has published (`so_far`): of the open epoch no fewer are made than
/// its journal knows (`known`). A stop waits for its halt only where the reset of the open epoch has stored it (`stops`).
pub fn epochs_are_those_of_the_port()
    ensures over { (blocks : ℕ) (state : State) (es : NewestFirst Closed) (h : Journal) → AreEpochs blocks state (goes es h) → AreOver (epochs_of blocks state es h) }
    ensures pieces { (blocks : ℕ) (state : State) (es : NewestFirst Closed) (h : Journal) → AreEpochs blocks state (goes es h) → IsFinished (opening_behind blocks state es) h → pieces_sent (sent_in (log_of (goes es h))) ≡ published_in (epochs_of blocks state es h) }
    ensures halts { (blocks : ℕ) (state : State) (es : NewestFirst Closed) (h : Journal) → AreEpochs blocks state (goes es h) → halts_seen (sent_in (log_of (goes es h))) ≡ reverse (halts_in 0 0 (epochs_of blocks state es h)) }
    ensures so_far { (blocks : ℕ) (state : State) (ticks : ℕ) (es : Epochs) → AreEpochs blocks state es → known_in (log_of es) ≤ ticks → ticks ≤ ticks_published (sent_in (log_of es)) →
        ArePublishedSoFar (number_of blocks state es) (phase_of es) (closed_of blocks state es) (open_epoch (made_of ticks es) (open_journal es)) ticks (pieces_sent (sent_in (log_of es))) (halts_seen (sent_in (log_of es))) }
    ensures known { (blocks : ℕ) (state : State) (ticks : ℕ) (es : Epochs) → AreEpochs blocks state es → known_in (log_of es) ≤ ticks → ticks ≤ ticks_published (sent_in (log_of es)) →
        known_of (open_journal es) ≤ made_of ticks es }
    ensures stops { (blocks : ℕ) (state : State) (es : Epochs) → AreEpochs blocks state es → (sent_in (log_of es)).waits ≡ true → phase_of es ≡ is_stopping }
{}
