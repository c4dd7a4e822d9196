//! Laws of runs.

ghost use Rattle.std.specs.Prelude.{◌≡◌, ◌≢◌, ℕ, ◌+◌, ◌≤◌, ◌⊎◌, Bool, true, false, not, ◌||◌, List, [], ◌∷◌, ◌++◌, length, map, Ok};
ghost use Rattle.gcode_check.specs.declared.Accept.{Accept as Accepted};
ghost use Rattle.gcode_check.specs.declared.Item.{Item as AnyItem};
ghost use Rattle.gcode_check.specs.Items.{is_move};
ghost use Rattle.gcode_words.specs.declared.Word.{Word as AnyWord};
ghost use Rattle.jog.specs.declared.JogMove.{JogMove as AnyJog};
ghost use Rattle.jog.specs.Jogs.{jog_of, feed_said};
ghost use Rattle.units.specs.declared.Rate.TheVariants.{Jog};
ghost use Rattle.units.specs.declared.Steps3.{Steps3};
ghost use Rattle.run_rules.specs.declared.State.{State};
ghost use Rattle.run_rules.specs.States.{IsOpening};
ghost use Rattle.status_report.specs.declared.Reply.{Reply as AnyReply};
ghost use Rattle.system_lines.specs.Commands.{kind_of};
ghost use Rattle.status_report.specs.Answering.{is_answer, answers_in};
ghost use Rattle.run_rules.specs.Work.{Outcome, is_limit, soft_limit, tells, asks, pauses, closing_work};
ghost use Rattle.run_rules.specs.Asks.{planned, move_asked};
ghost use Rattle.run_rules.specs.Told.{replies_in, limits_in};
ghost use Rattle.run_rules.specs.Outcomes.{Before, Becomes, IsCut, IsLockedOut, limited, Passed, Follows, NeverFall, start, at_place, became_of, cuts_of, refused, executed, jogging, motion_error, begins_with_dollar, has_cause, most_kept, after};
ghost use Rattle.run_rules.specs.Outcomes.Passed.{a_line, a_cut};
ghost use Rattle.run_rules.specs.Finding.{Found, Fate};
ghost use Rattle.run_rules.specs.Locking.{BecomesLocked, BecomesIn, FollowsFrom, locked_behind};
ghost use Rattle.run_rules.specs.Work.Kind.{of_none};
ghost use Rattle.run_rules.specs.Limits.{IsBeyond};
ghost use Rattle.units.specs.Truths.{one_if};
ghost use Rattle.status_report.specs.declared.Message.TheVariants.{ResetToContinue};
ghost use Rattle.run_rules.specs.declared.machine.Machine.{Machine as AnyMachine};
ghost use Rattle.run_rules.specs.declared.machine.Machine.TheVariants.{Stands, Runs, Jogs, Locked};
ghost use Rattle.run_rules.specs.Lines.{CutsInto, lines_of, whole_lines};

/// A run of lines, none of which has raised an alarm, goes on by each line and what becomes of it, and by a cut, after
/// which the position is where the cut left the machine. Each line has one outcome, and lines are numbered one by one;
/// the numbers of cuts never fall. A run in which the machine is never found running is also one in which it may be.
pub fn run_goes_on()
    ensures goes_on { (runs : Bool) (first last : Before) (lines : List (List ℕ)) (passed : List Passed) (line : List ℕ) (outcome : Outcome) →
        Follows runs first lines passed last → last.alarmed ≡ false → Becomes runs last line outcome →
        Follows runs first (lines ++ line ∷ []) (passed ++ a_line outcome ∷ []) (after last outcome) }
    ensures cut { (runs : Bool) (first last : Before) (lines : List (List ℕ)) (passed : List Passed) (k : ℕ) (at : Steps3) →
        Follows runs first lines passed last → IsCut runs last k →
        Follows runs first lines (passed ++ a_cut k at ∷ []) (at_place at last) }
    ensures as_many { (runs : Bool) (first last : Before) (lines : List (List ℕ)) (passed : List Passed) →
        Follows runs first lines passed last → length (became_of passed) ≡ length lines }
    ensures numbered { (runs : Bool) (first last : Before) (lines : List (List ℕ)) (passed : List Passed) →
        Follows runs first lines passed last → last.number ≡ first.number + length lines }
    ensures cuts { (runs : Bool) (first : State) (last : Before) (lines : List (List ℕ)) (passed : List Passed) →
        Follows runs (start first) lines passed last → NeverFall 0 (cuts_of passed) (length lines) }
    ensures line { (runs other : Bool) (before : Before) (line : List ℕ) (outcome : Outcome) → (runs ≡ true → other ≡ true) →
        Becomes runs before line outcome → Becomes other before line outcome }
    ensures lines { (runs other : Bool) (first last : Before) (lines : List (List ℕ)) (passed : List Passed) → (runs ≡ true → other ≡ true) →
        Follows runs first lines passed last → Follows other first lines passed last }
{}

/// Each line has one answer, which is told last, unless it raises an alarm: an outcome of a line tells a body with no
/// answer, and then its answer. So as many lines are answered as were passed, less those that raised an alarm.
pub fn lines_have_one_answer()
    ensures last { (runs : Bool) (before : Before) (line : List ℕ) (outcome : Outcome) → Becomes runs before line outcome → is_limit outcome.answer ≡ false →
        (body : List AnyReply) × (tells outcome.work ≡ body ++ outcome.answer ∷ []) × (answers_in body ≡ 0) × (is_answer outcome.answer ≡ true) }
    ensures all { (runs : Bool) (first last : Before) (lines : List (List ℕ)) (passed : List Passed) →
        Follows runs first lines passed last → answers_in (replies_in (became_of passed)) + limits_in (became_of passed) ≡ length lines }
{}

/// A line raises an alarm exactly if it is G-code that can be read and is not refused, with a target outside the travel
/// while soft limits are on. Then nothing else is done of it: the machine is halted, the alarm is told with its
/// message, nothing is asked of the machine, and the state stays. After it nothing is passed, neither a line nor a cut,
/// so a run has one such line at most, its last.
pub fn alarms_end_the_run()
    ensures cause { (runs : Bool) (before : Before) (line : List ℕ) (outcome : Outcome) → Becomes runs before line outcome → is_limit outcome.answer ≡ true →
        IsBeyond before line × (outcome ≡ limited before) }
    ensures comes { (runs : Bool) (before : Before) (line : List ℕ) (outcome : Outcome) → IsBeyond before line → Becomes runs before line outcome →
        (outcome ≡ limited before) ⊎ IsLockedOut runs before outcome }
    ensures none { (before : Before) → let halted = limited before in
        (asks halted.work ≡ []) × (tells halted.work ≡ AnyReply.Alarm soft_limit ∷ AnyReply.Message ResetToContinue ∷ []) × (halted.next ≡ before.state) × ((after before halted).alarmed ≡ true) }
    ensures behind { (runs : Bool) (first last : Before) (lines : List (List ℕ)) (passed : List Passed) →
        Follows runs first lines passed last → first.alarmed ≡ true → (lines ≡ []) × (passed ≡ []) }
    ensures last { (runs : Bool) (first last : Before) (lines : List (List ℕ)) (passed : List Passed) (outcome : Outcome) (more : List Passed) →
        Follows runs first lines (passed ++ a_line outcome ∷ more) last → is_limit outcome.answer ≡ true → more ≡ [] }
    ensures one { (runs : Bool) (first : State) (last : Before) (lines : List (List ℕ)) (passed : List Passed) →
        Follows runs (start first) lines passed last → limits_in (became_of passed) ≡ one_if last.alarmed }
{}

/// The machine is held at most once in the work of a line, and not after the last line.
pub fn lines_pause_once()
    ensures line { (runs : Bool) (before : Before) (line : List ℕ) (outcome : Outcome) → Becomes runs before line outcome → pauses outcome.work ≤ 1 }
    ensures closing { pauses closing_work ≡ 0 }
{}

/// There is one state before the first line. Two outcomes of a line are the same, or one of them is that of a machine
/// which is found in motion: error 8 for a line that begins with `$`, and 9 for any other. So what becomes of lines is
/// determined if the machine never is found so: then no jog is cut either.
pub fn runs_are_determined()
    ensures opening { (s t : State) → IsOpening s → IsOpening t → s ≡ t }
    ensures line { (runs : Bool) (before : Before) (line : List ℕ) (a b : Outcome) →
        Becomes runs before line a → Becomes runs before line b → (a ≡ b) ⊎ ((a ≡ refused before (motion_error line)) ⊎ (b ≡ refused before (motion_error line))) }
    ensures still { (before : Before) (line : List ℕ) (a b : Outcome) → Becomes false before line a → Becomes false before line b → a ≡ b }
    ensures run { (first t u : Before) (lines : List (List ℕ)) (os ps : List Passed) →
        Follows false first lines os t → Follows false first lines ps u → (os ≡ ps) × (t ≡ u) }
{}

/// An accepted line settles exactly if it has items and the last is no move, and nothing has moved after one that does.
pub fn lines_settle()
    ensures last { (b : Before) (a : Accepted) (items : List AnyItem) (last : AnyItem) → a.items.items ≡ items ++ last ∷ [] → (executed b a).settles ≡ not (is_move last) }
    ensures none { (b : Before) (a : Accepted) → a.items.items ≡ [] → (executed b a).settles ≡ false }
    ensures still { (b : Before) (o : Outcome) → o.settles ≡ true → ((after b o).moved ≡ false) × ((after b o).jog_moved ≡ false) }
{}

/// A jog asks for one move, from the position and at its own feed, or for none if the move has no steps. Its target is
/// the position after it, where the next line begins. Nothing else changes, and no jog settles.
pub fn jogs_change_the_place_alone()
    ensures asks { (before : Before) (jog : AnyJog) →
        asks (jogging before jog).work ≡ move_asked (planned before.number before.state.settings jog.mv jog.rate) }
    ensures way { (before : Before) (words : List AnyWord) (jog : AnyJog) → jog_of before.state.parser before.state.settings words ≡ Ok jog →
        (jog.mv.from ≡ before.state.parser.pos_steps) × (jog.rate ≡ Jog (feed_said before.state.parser words)) }
    ensures place { (before : Before) (jog : AnyJog) → let next = (jogging before jog).next.parser in
        (next.pos_nm ≡ jog.target) × (next.pos_steps ≡ jog.mv.to) }
    ensures modes { (before : Before) (jog : AnyJog) → let was = before.state.parser in let next = (jogging before jog).next.parser in
        (next.modal ≡ was.modal) × (next.offsets ≡ was.offsets) × (next.feed ≡ was.feed) × (next.rpm ≡ was.rpm) × (next.tool ≡ was.tool) }
    ensures settings { (before : Before) (jog : AnyJog) → (jogging before jog).next.settings ≡ before.state.settings }
    ensures behind { (before : Before) (jog : AnyJog) → let behind = after before (jogging before jog) in
        (behind.jogged ≡ true) × (behind.moved ≡ before.moved) }
{}

/// If nothing has moved since the last line that settles, and the last that was accepted of G-code and jogs is no jog,
/// no machine is found in motion.
pub fn lines_find_a_machine_that_stands()
    ensures { (before : Before) (line : List ℕ) (outcome : Outcome) →
        before.moved ≡ false → before.jog_moved ≡ false → before.jogged ≡ false →
        Becomes true before line outcome → Becomes false before line outcome }
{}

/// `Found` says what becomes of a line: if the machine stands, as if none were found in motion; if it runs or jogs, as
/// if one may be; and if it is locked, as `BecomesLocked` says. While it runs a line of G-code must have moved since the last line that settles, and the last that
/// was accepted of G-code and jogs be no jog. In a jog it must be one, and it or one of those lines must have moved.
pub fn found_lines_become()
    ensures standing { (b : Before) (kept : List ℕ) (o : Outcome) → Found Stands b kept o → Becomes false b kept o }
    ensures running { (b : Before) (kept : List ℕ) (o : Outcome) → b.moved ≡ true → b.jogged ≡ false → Found Runs b kept o → Becomes true b kept o }
    ensures jogging { (b : Before) (kept : List ℕ) (o : Outcome) → (b.moved || b.jog_moved) ≡ true → b.jogged ≡ true → Found Jogs b kept o → Becomes true b kept o }
    ensures locked { (b : Before) (kept : List ℕ) (o : Outcome) → Found Locked b kept o → BecomesLocked b kept o }
{}

/// While the machine is locked a line asks nothing of it, raises no alarm, and changes neither parser nor position: a line of G-code is
/// refused with 9, and one that begins with `$J` with 8; so no jog is cut. Lines that are passed so, from where the
/// machine is locked until one unlocks it, are passed one by one, each with one answer, and number the lines; and where it
/// is not locked they follow as ever.
pub fn locked_machines_stand()
    ensures asks { (b : Before) (kept : List ℕ) (o : Outcome) → BecomesLocked b kept o → (asks o.work ≡ []) × (o.kind ≡ of_none) × (o.settles ≡ false) }
    ensures place { (b : Before) (kept : List ℕ) (o : Outcome) → BecomesLocked b kept o → o.next.parser ≡ b.state.parser }
    ensures alarm { (b : Before) (kept : List ℕ) (o : Outcome) → BecomesLocked b kept o → is_limit o.answer ≡ false }
    ensures code { (b : Before) (c : ℕ) (cs : List ℕ) (o : Outcome) → length (c ∷ cs) ≤ most_kept → begins_with_dollar (c ∷ cs) ≡ false → BecomesLocked b (c ∷ cs) o → o ≡ refused b 9 }
    ensures free { (runs : Bool) (b last : Before) (lines : List (List ℕ)) (passed : List Passed) → FollowsFrom false runs b lines passed last → Follows runs b lines passed last }
    ensures follows { (runs : Bool) (b last : Before) (lines : List (List ℕ)) (passed : List Passed) → Follows runs b lines passed last → FollowsFrom false runs b lines passed last }
    ensures goes_on { (locked runs : Bool) (first last : Before) (lines : List (List ℕ)) (passed : List Passed) (line : List ℕ) (outcome : Outcome) →
        FollowsFrom locked runs first lines passed last → last.alarmed ≡ false → BecomesIn (locked_behind locked lines) runs last line outcome →
        FollowsFrom locked runs first (lines ++ line ∷ []) (passed ++ a_line outcome ∷ []) (after last outcome) }
    ensures cut { (locked runs : Bool) (first last : Before) (lines : List (List ℕ)) (passed : List Passed) (k : ℕ) (at : Steps3) →
        FollowsFrom locked runs first lines passed last → IsCut runs last k →
        FollowsFrom locked runs first lines (passed ++ a_cut k at ∷ []) (at_place at last) }
{}

/// Errors 8 and 9 come from the motion alone. A line is refused with 8 only if it begins with `$` and lines before it
/// have a cause for its kind: for `$$`, and for lines that begin with `$J`, a line of G-code has moved since the last
/// line that settles, and the last that was accepted of G-code and jogs is no jog; for `$#` and setting lines such a
/// line has moved, or a jog. It is refused with 9 only if something is kept of it, no more than 79 bytes, and it does
/// not begin with `$`, and the last that was accepted of G-code and jogs is a jog.
pub fn errors_for_the_motion_have_causes()
    ensures eight { (runs : Bool) (before : Before) (line : List ℕ) (outcome : Outcome) → Becomes runs before line outcome → outcome.answer ≡ AnyReply.Error 8 →
        (begins_with_dollar line ≡ true) × (length line ≤ most_kept) × (has_cause before (kind_of line) ≡ true) }
    ensures nine { (runs : Bool) (before : Before) (line : List ℕ) (outcome : Outcome) → Becomes runs before line outcome → outcome.answer ≡ AnyReply.Error 9 →
        (line ≢ []) × (length line ≤ most_kept) × (begins_with_dollar line ≡ false) × (before.jogged ≡ true) }
{}

/// How the machine is found, and what becomes of a line then, says of which kind the line is: no line of G-code is
/// accepted in a jog, or stopped there by a soft limit, and no jog is accepted while the machine runs; what is none of
/// these asks nothing of the machine.
pub fn lines_are_of_a_kind()
    ensures { (machine : AnyMachine) (before : Before) (line : List ℕ) (outcome : Outcome) → Found machine before line outcome → Fate machine line outcome }
{}

/// The lines of a text are what lies between its LF bytes: those that LF ends, and a last one that is not empty.
pub fn lines_are_pieces()
    ensures whole { (text : List ℕ) (lines : List (List ℕ)) (rest : List ℕ) → CutsInto text lines rest → whole_lines text ≡ lines }
    ensures no_rest { (text : List ℕ) (lines : List (List ℕ)) → CutsInto text lines [] → lines_of text ≡ lines }
    ensures with_rest { (text : List ℕ) (lines : List (List ℕ)) (byte : ℕ) (rest : List ℕ) → CutsInto text lines (byte ∷ rest) → lines_of text ≡ lines ++ (byte ∷ rest) ∷ [] }
{}
