//! Laws of what words of flags do.

ghost use Rattle.std.specs.Prelude.{◌≡◌, ℕ, ◌+◌, ◌≤◌, false, List, [], ◌∷◌, length, map};
ghost use Rattle.std.specs.List.{AllByRecursion, flat_map};
ghost use Rattle.flight.specs.Places.{origin};
ghost use Rattle.run_rules.specs.declared.State.{State};
ghost use Rattle.run_texts.specs.Besides.{CutsHaveCauses};
ghost use Rattle.run_rules.specs.Told.{errors_among, errors_in, limits_in};
ghost use Rattle.run_texts.specs.Courses.{Passed, lines_in};
ghost use Rattle.run_texts.specs.Points.{Point, opening};
ghost use Rattle.run_texts.specs.Sent.{Sent};
ghost use Rattle.run_texts.specs.SoFar.{LeadsTo};
ghost use Rattle.run_texts.specs.Told.{told_in};
ghost use Rattle.status_report.specs.Answering.{answers_in};
ghost use Rattle.status_report.specs.declared.Reply.{Reply as AnyReply};
ghost use Rattle.step_line.specs.Logs.{NewestFirst};
ghost use Rattle.board_rules.specs.Conduct.{IsFinished};
ghost use Rattle.board_journal.specs.Steps.{Journal, known_of};
ghost use Rattle.board_epochs.specs.Epochs.{Closed, Epochs, AreEpochs, log_of, opening_behind};
ghost use Rattle.board_epochs.specs.Epochs.Epochs.{goes};
ghost use Rattle.epoch_courses.specs.Course.{course_of, open_journal};
ghost use Rattle.epoch_courses.specs.Drives.{drives_of};
ghost use Rattle.epoch_courses.specs.Taken.{sent_by};
ghost use Rattle.epoch_courses.specs.Told.{answered_by, untold_by};
ghost use Rattle.epoch_effects.specs.Asking.{AsksInTurn};
ghost use Rattle.epoch_effects.specs.Effects.{AreEffects};
ghost use Rattle.epoch_effects.specs.Greetings.{AreGreeted};
ghost use Rattle.epoch_effects.specs.Over.{effects_of};
ghost use Rattle.epoch_effects.specs.Pieces.{ArePublished};
ghost use Rattle.epoch_effects.specs.Reports.{HasReported, TellsLock, AreOpened, resets_of};
ghost use Rattle.epoch_effects.specs.Words.{AreTakenIn, words_taken};

/// Epoch by epoch, overrides begin at 100 percent, and each change sets them to that or is by a word that was taken in the
/// epoch; nothing slows the machine down but a hold, a cancel or a change of overrides for which a word was taken in it, and
/// an alarm behind the line that raised it; and jogs are cut as often at most as words for a hold or a cancel were taken.
pub fn words_do_what_they_ask()
    ensures { (blocks : ℕ) (state : State) (made : ℕ) (es : Epochs) → AreEpochs blocks state es → known_of (open_journal es) ≤ made →
        AreEffects (course_of blocks state made es) (drives_of blocks state made es) (effects_of blocks state made es) }
{}

/// What was taken in an epoch was taken at the port, and no word counts for two epochs.
pub fn words_are_taken_once()
    ensures { (blocks : ℕ) (state : State) (made : ℕ) (es : Epochs) → AreTakenIn (words_taken (log_of es)) (map (λ e. e.taken) (effects_of blocks state made es)) }
{}

/// Each cut has a cause: the last that was accepted of G-code and jogs in its epoch is a jog.
pub fn cuts_have_causes()
    ensures { (blocks : ℕ) (state : State) (made : ℕ) (es : Epochs) → AreEpochs blocks state es → known_of (open_journal es) ≤ made →
        CutsHaveCauses (opening state) (sent_by es) (course_of blocks state made es) }
{}

/// Each report can be told: its places are near enough, and its numbers as wide as their types. It fits the lines of its
/// epoch, as its opening and the ticks that were made in it have them: of an epoch that is closed those made at its halt. It
/// shows no more ticks than were found done, and there are as many reports at most as words that asked for one. All lines
/// that were begun in an epoch but the last are answered, and the ticks of those up to the last answered one that settles
/// were found done. While an epoch is locked its reports tell of an alarm, and behind the line that unlocks it only of one
/// that a line has raised. The pieces whose ticks these are were given for the parts of the epoch. What was answered in the
/// epochs is all that was answered; and each epoch opens as the reset before it says, the first as a run begins. What is
/// answered in an epoch begins with what greets it, up to the banner: no report comes before.
pub fn reports_fit_their_epochs()
    ensures fit { (blocks : ℕ) (state : State) (made : ℕ) (es : Epochs) → AreEpochs blocks state es → known_of (open_journal es) ≤ made → AllByRecursion HasReported (effects_of blocks state made es) }
    ensures locks { (blocks : ℕ) (state : State) (made : ℕ) (es : Epochs) → AreEpochs blocks state es → AllByRecursion TellsLock (effects_of blocks state made es) }
    ensures published { (blocks : ℕ) (state : State) (made : ℕ) (es : Epochs) → AreEpochs blocks state es → known_of (open_journal es) ≤ made → AllByRecursion ArePublished (effects_of blocks state made es) }
    ensures answered { (blocks : ℕ) (state : State) (made : ℕ) (es : Epochs) → AreEpochs blocks state es → answered_by es ≡ flat_map (λ e. e.answered) (effects_of blocks state made es) }
    ensures opened { (blocks : ℕ) (state : State) (made : ℕ) (es : Epochs) → AreEpochs blocks state es → AreOpened state origin false (resets_of (course_of blocks state made es)) (effects_of blocks state made es) }
    ensures greeted { (blocks : ℕ) (state : State) (made : ℕ) (es : Epochs) → AreEpochs blocks state es → AreGreeted (AnyReply.Banner ∷ []) (resets_of (course_of blocks state made es)) (effects_of blocks state made es) }
{}

/// Over all epochs each line that is passed has one answer, but for one that raises an alarm, and the errors are those of the
/// lines. A line that a reset keeps from its answer has none. So it is of a course; of a board what it has answered, and what
/// it is to tell yet; and of one that is done what it has answered.
pub fn lines_are_answered_once()
    ensures course { (p last : Point) (sent rest : List Sent) (course : List Passed) → LeadsTo p sent course last rest →
        (answers_in (told_in course) + limits_in (lines_in course) ≡ length (lines_in course)) × (errors_among (told_in course) ≡ errors_in (lines_in course)) }
    ensures so_far { (blocks : ℕ) (state : State) (made : ℕ) (es : Epochs) → AreEpochs blocks state es → known_of (open_journal es) ≤ made → let lines = lines_in (course_of blocks state made es) in
        (answers_in (answered_by es) + answers_in (untold_by blocks state es) + limits_in lines ≡ length lines) × (errors_among (answered_by es) + errors_among (untold_by blocks state es) ≡ errors_in lines) }
    ensures finished { (blocks : ℕ) (state : State) (made : ℕ) (es : NewestFirst Closed) (h : Journal) → AreEpochs blocks state (goes es h) → IsFinished (opening_behind blocks state es) h → known_of h ≤ made →
        let lines = lines_in (course_of blocks state made (goes es h)) in
        (answers_in (answered_by (goes es h)) + limits_in lines ≡ length lines) × (errors_among (answered_by (goes es h)) ≡ errors_in lines) }
{}

/// Of each part of an epoch all was asked of its plan that its lines but the last ask for. So nothing of a line waits while a
/// later one is begun.
pub fn lines_are_asked_in_turn()
    ensures { (blocks : ℕ) (state : State) (made : ℕ) (es : Epochs) → AreEpochs blocks state es → known_of (open_journal es) ≤ made → AllByRecursion AsksInTurn (effects_of blocks state made es) }
{}
