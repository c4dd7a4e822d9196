//! Laws of the courses of boards.

ghost use Rattle.std.specs.Prelude.{◌≡◌, ℕ, ◌≤◌, ◌⊎◌, true, false, List, [], ◌∷◌, ◌++◌};
ghost use Rattle.flight.specs.Places.{origin};
ghost use Rattle.planner_runs.specs.Runs.{fresh_plan};
ghost use Rattle.run_rules.specs.declared.State.{State};
ghost use Rattle.run_texts.specs.Courses.{Follows};
ghost use Rattle.run_texts.specs.Parts.{parts_of};
ghost use Rattle.run_texts.specs.Points.{opening};
ghost use Rattle.run_rules.specs.States.{IsOpening};
ghost use Rattle.run_texts.specs.Fits.{FitsTexts};
ghost use Rattle.run_texts.specs.Fronts.{BeginsWith};
ghost use Rattle.run_texts.specs.Recorded.{AreRecorded};
ghost use Rattle.run_texts.specs.SoFar.{LeadsTo, AreMadeSoFar, FitsSoFar};
ghost use Rattle.run_texts.specs.Told.{IsTold, told_in};
ghost use Rattle.status_report.specs.Answering.{without_reports};
ghost use Rattle.status_report.specs.declared.Reply.{Reply as AnyReply};
ghost use Rattle.step_line.specs.Logs.{NewestFirst};
ghost use Rattle.step_line.specs.declared.Record.{Record as AnyRecord};
ghost use Rattle.board_rules.specs.Conduct.{IsFinished};
ghost use Rattle.board_journal.specs.Ports.{cancel_words_in};
ghost use Rattle.board_journal.specs.Steps.{Journal, known_of};
ghost use Rattle.board_epochs.specs.Epochs.{Closed, Epochs, AreClosed, AreEpochs, closed_log, log_behind, log_of, opening_behind, point_of, ticks_made};
ghost use Rattle.board_epochs.specs.Epochs.Epochs.{goes, resets};
ghost use Rattle.board_epochs.specs.Work.{Work, stage_of};
ghost use Rattle.epoch_courses.specs.Course.{IsMadeAtHalt, is_marked, with_reset, closed_course, course_of, made_at_halt, open_journal, stands_at, point_behind};
ghost use Rattle.epoch_courses.specs.Drives.{AreDriven, drives_of};
ghost use Rattle.epoch_courses.specs.Taken.{closed_texts, sent_by, left_by};
ghost use Rattle.epoch_courses.specs.Told.{answered_by, without_byes, untold_by, closing_by};

/// What a board has done over its epochs is a course of what it has taken: line by line, cut by cut, reset by reset. It
/// leads to where the board stands, and what is left is what it has taken and not begun. Once the run is closed and all is
/// done, nothing is left. So many ticks of the open epoch are made, at least those that the board knows of; a cut is passed
/// once its mark is made, since nothing is begun behind it before. Once the mark of a reset is published, the course may go
/// on behind it (`marked`), since it may be recorded then.
pub fn epochs_are_a_course()
    ensures leads { (blocks : ℕ) (state : State) (made : ℕ) (es : Epochs) → AreEpochs blocks state es → known_of (open_journal es) ≤ made →
        LeadsTo (opening state) (sent_by es) (course_of blocks state made es) (stands_at blocks state made es) (left_by es) }
    ensures follows { (blocks : ℕ) (state : State) (made : ℕ) (es : NewestFirst Closed) (h : Journal) → AreEpochs blocks state (goes es h) → IsFinished (opening_behind blocks state es) h → known_of h ≤ made →
        Follows (opening state) (sent_by (goes es h)) (course_of blocks state made (goes es h)) (point_behind made (opening_behind blocks state es) h) }
    ensures marked { (blocks : ℕ) (state : State) (es : NewestFirst Closed) (h : Journal) (w : Work) → AreEpochs blocks state (resets es h w) → is_marked (stage_of (log_behind (closed_log es) h) w) ≡ true →
        LeadsTo (opening state) (closed_texts (with_reset es h w)) (closed_course blocks state (with_reset es h w)) (point_of (opening_behind blocks state (with_reset es h w))) [] }
    ensures halted { (blocks : ℕ) (state : State) (e : Closed) (es : NewestFirst Closed) → AreClosed blocks state (e ∷ es) → IsMadeAtHalt e.journal (made_at_halt (ticks_made es) e.work) }
{}

/// What a board has answered over its epochs, reports left out, and what it is to tell yet, is the banner, what its course
/// tells, and Bye once the run is being closed. So what is answered is at any time a front of what the course tells; and once
/// all is done it is all of it. It begins with the banner, and no report comes before that: it is a console that tells the course.
pub fn epochs_tell_their_course()
    ensures told { (blocks : ℕ) (state : State) (made : ℕ) (es : Epochs) → AreEpochs blocks state es → AnyReply.Banner ∷ (told_in (course_of blocks state made es) ++ closing_by es) ≡ without_reports (answered_by es) ++ untold_by blocks state es }
    ensures finished { (blocks : ℕ) (state : State) (made : ℕ) (es : NewestFirst Closed) (h : Journal) → AreEpochs blocks state (goes es h) → IsFinished (opening_behind blocks state es) h →
        without_reports (answered_by (goes es h)) ≡ AnyReply.Banner ∷ (told_in (course_of blocks state made (goes es h)) ++ AnyReply.Bye ∷ []) }
    ensures so_far { (blocks : ℕ) (state : State) (made : ℕ) (es : Epochs) → AreEpochs blocks state es → BeginsWith (AnyReply.Banner ∷ told_in (course_of blocks state made es)) (without_reports (without_byes (answered_by es))) }
    ensures marked { (blocks : ℕ) (state : State) (es : NewestFirst Closed) (h : Journal) (w : Work) → AreEpochs blocks state (resets es h w) →
        BeginsWith (AnyReply.Banner ∷ told_in (closed_course blocks state (with_reset es h w))) (without_reports (without_byes (answered_by (resets es h w)))) }
    ensures begins { (blocks : ℕ) (state : State) (es : Epochs) → AreEpochs blocks state es → (without_byes (answered_by es) ≡ []) ⊎ ((behind : List AnyReply) × (without_byes (answered_by es) ≡ AnyReply.Banner ∷ behind)) }
    ensures console { (blocks : ℕ) (state : State) (made : ℕ) (es : NewestFirst Closed) (h : Journal) → AreEpochs blocks state (goes es h) → IsFinished (opening_behind blocks state es) h →
        IsTold (course_of blocks state made (goes es h)) (without_byes (answered_by (goes es h))) }
{}

/// Part by part, what the lines of the course ask for is what the planner was given, and what was left to ask. Each part is a
/// planner run from where nothing was left to run: a cut comes where the machine stands, and leaves out ticks of jogs alone;
/// a reset takes away what is left, at any speed, and whichever first pieces are out their heads are legal up to its mark;
/// and once all is done, all of the last part was run, or an alarm has stopped the machine. Each part begins with the plan,
/// and a part behind a cut at the place, that the one before has left.
pub fn epochs_ask_for_parts()
    ensures parts { (blocks : ℕ) (state : State) (made : ℕ) (es : Epochs) → AreEpochs blocks state es → known_of (open_journal es) ≤ made →
        AreDriven blocks false origin fresh_plan (parts_of (course_of blocks state made es)) (drives_of blocks state made es) }
    ensures finished { (blocks : ℕ) (state : State) (made : ℕ) (es : NewestFirst Closed) (h : Journal) → AreEpochs blocks state (goes es h) → IsFinished (opening_behind blocks state es) h → known_of h ≤ made →
        AreDriven blocks true origin fresh_plan (parts_of (course_of blocks state made (goes es h))) (drives_of blocks state made (goes es h)) }
{}

/// What a board has done over its epochs fits the texts: what it has taken, with the words that may cut jogs, what it has
/// answered, and what is recorded of the parts of its course. So it does so far.
pub fn epochs_fit_the_texts()
    ensures fits { (blocks : ℕ) (state : State) (made : ℕ) (es : NewestFirst Closed) (h : Journal) (records : List AnyRecord) → IsOpening state → AreEpochs blocks state (goes es h) → IsFinished (opening_behind blocks state es) h → known_of h ≤ made →
        AreRecorded origin (parts_of (course_of blocks state made (goes es h))) records →
        FitsTexts (sent_by (goes es h)) (cancel_words_in (log_of (goes es h))) (without_byes (answered_by (goes es h))) records }
    ensures so_far { (blocks : ℕ) (state : State) (made : ℕ) (es : Epochs) (records : List AnyRecord) → IsOpening state → AreEpochs blocks state es → known_of (open_journal es) ≤ made →
        AreMadeSoFar origin (parts_of (course_of blocks state made es)) records →
        FitsSoFar (sent_by es) (cancel_words_in (log_of es)) (without_byes (answered_by es)) records }
    ensures marked { (blocks : ℕ) (state : State) (es : NewestFirst Closed) (h : Journal) (w : Work) (records : List AnyRecord) → IsOpening state → AreEpochs blocks state (resets es h w) → is_marked (stage_of (log_behind (closed_log es) h) w) ≡ true →
        AreMadeSoFar origin (parts_of (closed_course blocks state (with_reset es h w))) records →
        FitsSoFar (closed_texts (with_reset es h w)) (cancel_words_in (log_of (resets es h w))) (without_byes (answered_by (resets es h w))) records }
{}
