//! Laws of courses.

ghost use Rattle.std.specs.Prelude.{◌≡◌, ℕ, ◌+◌, ◌⊎◌, Bool, true, false, List, [], ◌∷◌, ◌++◌, map, take};
ghost use Rattle.std.specs.List.{list_any, filter};
ghost use Rattle.flight.specs.Places.{moved_by, origin};
ghost use Rattle.gcode_words.specs.Comments.{cut};
ghost use Rattle.gcode_words.specs.Stripping.{is_plain, capital, plain};
ghost use Rattle.legal_heads.specs.Whole.{events_among};
ghost use Rattle.run_rules.specs.Outcomes.{Before, Passed as RulesPassed, Follows as RulesFollow};
ghost use Rattle.run_rules.specs.Reports.{settled_to, raises_alarm};
ghost use Rattle.run_rules.specs.States.{IsOpening};
ghost use Rattle.run_rules.specs.Work.{Outcome, asks};
ghost use Rattle.run_rules.specs.declared.State.{State};
ghost use Rattle.status_report.specs.Answering.{without_reports, banners_in};
ghost use Rattle.status_report.specs.declared.Reply.{Reply as AnyReply};
ghost use Rattle.step_line.specs.Asking.{moves_of, ticks_among};
ghost use Rattle.step_line.specs.declared.Head.{Head as AnyHead};
ghost use Rattle.step_line.specs.declared.Record.{Record as AnyRecord};
ghost use Rattle.units.specs.declared.Steps3.{Steps3};
ghost use Rattle.run_texts.specs.Courses.{Passed, Reset, Follows, IsCut, IsReset, behind_cut, behind_the_reset, lines_in};
ghost use Rattle.run_texts.specs.Courses.Passed.{a_line, a_broken, a_cut, a_reset};
ghost use Rattle.run_texts.specs.Epochs.{CutsHaveLines, TakesCourse};
ghost use Rattle.run_texts.specs.Fits.{FitsTexts};
ghost use Rattle.run_texts.specs.Fronts.{BeginsWith};
ghost use Rattle.run_texts.specs.Left.{GoesOn, Next};
ghost use Rattle.run_texts.specs.Making.{Making, IsMade, Comes, MadeBefore, IsFinished, nothing_yet, with_line};
ghost use Rattle.run_texts.specs.Parts.{Part, parts_of, lines_counted, reset_marks_in};
ghost use Rattle.run_texts.specs.Parts.Ending.{by_reset, by_end};
ghost use Rattle.run_texts.specs.Places.{MovesJoin, PartsJoin, AreFronts, events_for, position};
ghost use Rattle.run_texts.specs.Points.{Point, BecomesAt, IsPassed, IsBroken, behind_line, behind_broken, opening};
ghost use Rattle.run_texts.specs.Recorded.{IsRecorded, IsWhere, AreRecorded, ticks_for_all};
ghost use Rattle.run_texts.specs.Sent.{Sent, is_reset, kept_of, has_reset, resets_in};
ghost use Rattle.run_texts.specs.Sent.Sent.{a_text, a_stop};
ghost use Rattle.run_texts.specs.SoFar.{LeadsTo, ComesBy, FitsSoFar};
ghost use Rattle.run_texts.specs.Told.{has_alarm};

/// A job, a console and steps have one course at most: what became of each line, where each cut and each reset stands,
/// and what they leave, is determined by the texts.
pub fn texts_have_one_course()
    ensures { (sent : List Sent) (cancels others : ℕ) (replies : List AnyReply) (records : List AnyRecord)
        (a : FitsTexts sent cancels replies records) (b : FitsTexts sent others replies records) →
        (a.first ≡ b.first) × (a.course ≡ b.course) × (a.last ≡ b.last) }
{}

/// The events of a part are, in order and each once, the first of those that its lines ask for: the lines that were
/// answered, and the one that a reset has kept from its answer. They are all of them if nothing has ended the part, and
/// at a reset they hold all events of the lines up to the last answered one that settles. So the events of all records
/// are, part by part, such fronts. Only lines that are answered `ok`, or would have been, ask for any.
pub fn parts_record_their_events()
    ensures answered { (runs : Bool) (p : Point) (kept : List ℕ) (o : Outcome) → BecomesAt runs p kept o → (o.answer ≡ AnyReply.Ok) ⊎ (asks o.work ≡ []) }
    ensures front { (place : Steps3) (p : Part) (mine : List AnyRecord) → IsRecorded place p mine →
        BeginsWith (events_for (lines_counted p)) (events_among mine) }
    ensures whole { (place : Steps3) (p : Part) (mine : List AnyRecord) → IsRecorded place p mine →
        p.ending ≡ by_end → list_any raises_alarm p.lines ≡ false → events_among mine ≡ events_for (lines_counted p) }
    ensures settled { (place : Steps3) (p : Part) (r : Reset) (mine : List AnyRecord) → IsRecorded place p mine →
        p.ending ≡ by_reset r → BeginsWith (events_among mine) (events_for (take (settled_to p.lines) p.lines)) }
    ensures all { (place : Steps3) (ps : List Part) (records : List AnyRecord) → AreRecorded place ps records →
        AreFronts ps (events_among records) }
{}

/// The moves of a line join, from the position before it to the one behind it; a cut and a reset leave the position
/// where they are, and that is where the events before them have led. So behind a cut or a reset moves start where the
/// events stopped, and if no line has raised an alarm the machine ends where the parser stands.
pub fn moves_start_where_events_stopped()
    ensures line { (runs : Bool) (p : Point) (kept : List ℕ) (o : Outcome) → BecomesAt runs p kept o →
        MovesJoin (position p) (moves_of (asks o.work)) o.next.parser.pos_steps }
    ensures cut { (p : Point) (at : Steps3) → position (behind_cut at p) ≡ at }
    ensures reset { (p : Point) (r : Reset) → position (behind_the_reset r p) ≡ r.at }
    ensures stopped { (place : Steps3) (p : Part) (mine : List AnyRecord) → IsRecorded place p mine →
        IsWhere p.ending (moved_by place mine) }
    ensures parts { (p last : Point) (sent : List Sent) (course : List Passed) → Follows p sent course last →
        PartsJoin (position p) (parts_of course) }
    ensures end { (sent : List Sent) (cancels : ℕ) (replies : List AnyReply) (records : List AnyRecord)
        (f : FitsTexts sent cancels replies records) → f.last.before.alarmed ≡ false →
        moved_by origin records ≡ position f.last }
{}

/// What is left of texts that fit goes on item by item: by a line, answered or not, a cut, a reset, or the end; and what goes on so is
/// left of texts that fit. So texts can be read from the left, by what is known at a point.
pub fn texts_go_on_item_by_item()
    ensures next { (p : Point) (since begun : List Outcome) (place : Steps3) (cuts : ℕ) (sent : List Sent) (replies : List AnyReply) (records : List AnyRecord) →
        GoesOn p since begun place cuts sent replies records → Next p since begun place cuts sent replies records }
    ensures back { (p : Point) (since begun : List Outcome) (place : Steps3) (cuts : ℕ) (sent : List Sent) (replies : List AnyReply) (records : List AnyRecord) →
        Next p since begun place cuts sent replies records → GoesOn p since begun place cuts sent replies records }
    ensures whole { (sent : List Sent) (cancels : ℕ) (replies : List AnyReply) (records : List AnyRecord) (f : FitsTexts sent cancels replies records) →
        GoesOn (opening f.first) [] [] origin cancels sent (without_reports f.told.behind) records }
    ensures fits { (sent : List Sent) (cancels : ℕ) (behind : List AnyReply) (records : List AnyRecord) (first : State) → IsOpening first →
        GoesOn (opening first) [] [] origin cancels sent (without_reports behind) records → FitsTexts sent cancels (AnyReply.Banner ∷ behind) records }
{}

/// Each reset of a job is told by a banner and recorded by a mark: a console has one banner more than the steps have marks
/// of resets, and if no alarm of a soft limit is told, the steps have one for each reset of the job.
pub fn resets_are_told_and_recorded()
    ensures told { (sent : List Sent) (cancels : ℕ) (replies : List AnyReply) (records : List AnyRecord) → FitsTexts sent cancels replies records →
        banners_in replies ≡ reset_marks_in records + 1 }
    ensures each { (sent : List Sent) (cancels : ℕ) (replies : List AnyReply) (records : List AnyRecord) → FitsTexts sent cancels replies records →
        has_alarm replies ≡ false → reset_marks_in records ≡ resets_in sent }
{}

/// If nothing may be cut, no reset comes and no alarm of a soft limit is told, the steps have all ticks of the lines, in order, and a job
/// and a console leave no choice of them.
pub fn undisturbed_texts_agree()
    ensures whole { (sent : List Sent) (replies : List AnyReply) (records : List AnyRecord) (f : FitsTexts sent 0 replies records) →
        has_reset sent ≡ false → has_alarm replies ≡ false → ticks_among records ≡ ticks_for_all (lines_in f.course) }
    ensures same { (sent : List Sent) (replies : List AnyReply) (records others : List AnyRecord) →
        FitsTexts sent 0 replies records → FitsTexts sent 0 replies others → has_reset sent ≡ false → has_alarm replies ≡ false →
        ticks_among records ≡ ticks_among others }
{}

/// A course goes on at its end: by a line that is passed where it stands, by a cut, and by a reset, which comes of the job
/// behind lines that wait, and may keep a line that was begun from its answer. And so it goes on by another course from
/// there.
pub fn courses_go_on()
    ensures line { (p last : Point) (sent : List Sent) (course : List Passed) (line : List ℕ) (o : Outcome) → Follows p sent course last → IsPassed last line o →
        Follows p (sent ++ a_text line ∷ []) (course ++ a_line o ∷ []) (behind_line last line o) }
    ensures cut { (p last : Point) (sent : List Sent) (course : List Passed) (k : ℕ) (at : Steps3) → Follows p sent course last → IsCut last k →
        Follows p sent (course ++ a_cut k at ∷ []) (behind_cut at last) }
    ensures reset { (p last : Point) (sent : List Sent) (course : List Passed) (lines : List (List ℕ)) (r : Reset) → Follows p sent course last →
        IsReset last (map a_text lines ++ a_stop ∷ []) r →
        Follows p (sent ++ (map a_text lines ++ a_stop ∷ [])) (course ++ a_reset r ∷ []) (behind_the_reset r last) }
    ensures broken { (p last : Point) (sent : List Sent) (course : List Passed) (line : List ℕ) (o : Outcome) (lines : List (List ℕ)) (r : Reset) → Follows p sent course last →
        IsBroken last line o → IsReset (behind_broken last o) (map a_text lines ++ a_stop ∷ []) r →
        Follows p (sent ++ a_text line ∷ (map a_text lines ++ a_stop ∷ [])) (course ++ a_broken o ∷ a_reset r ∷ []) (behind_the_reset r (behind_broken last o)) }
    ensures on { (p between last : Point) (sent more : List Sent) (course others : List Passed) → between.before.alarmed ≡ false →
        Follows p sent course between → Follows between more others last → Follows p (sent ++ more) (course ++ others) last }
{}

/// Lines and cuts that follow by the rules of lines alone, each cut behind a line of its part, take a course of one epoch.
pub fn epochs_follow_the_rules()
    ensures { (p : Point) (last : Before) (lines : List (List ℕ)) (passed : List RulesPassed) → p.locked ≡ false → p.unanswered ≡ false → CutsHaveLines p.has_line passed →
        RulesFollow true p.before lines passed last → TakesCourse p lines passed last }
{}

/// A part is made record by record. `IsMade` says what is recorded of some lines, and what is not yet: it begins with
/// nothing, goes on by a line and by a record that comes next, and each record that was made last came next. There is one
/// such for these lines and records. The records of a part are what is made of its lines when it may end.
pub fn parts_are_made_record_by_record()
    ensures begins { IsMade [] [] nothing_yet }
    ensures line { (since : List Outcome) (made : List AnyRecord) (m : Making) (o : Outcome) → IsMade since made m →
        IsMade (since ++ o ∷ []) made (with_line o m) }
    ensures next { (since : List Outcome) (made : List AnyRecord) (r : AnyRecord) (m n : Making) → IsMade since made m → Comes m r n →
        IsMade since (made ++ r ∷ []) n }
    ensures before { (since : List Outcome) (made : List AnyRecord) (r : AnyRecord) (n : Making) → IsMade since (made ++ r ∷ []) n →
        MadeBefore since made r n }
    ensures one { (since : List Outcome) (made : List AnyRecord) (m n : Making) → IsMade since made m → IsMade since made n → m ≡ n }
    ensures one_next { (m n o : Making) (r : AnyRecord) → Comes m r n → Comes m r o → n ≡ o }
    ensures finishes { (place : Steps3) (p : Part) (made : List AnyRecord) → IsFinished place p made → IsRecorded place p made }
    ensures finished { (place : Steps3) (p : Part) (made : List AnyRecord) → IsRecorded place p made → IsFinished place p made }
{}

/// Of a line all plain bytes outside its comments are kept, or those behind its last reset.
pub fn lines_are_kept_behind_resets()
    ensures without { (line : List ℕ) → list_any is_reset (cut line).outside ≡ false → kept_of line ≡ plain line }
    ensures behind { (line before after : List ℕ) → (cut line).outside ≡ before ++ 24 ∷ after → list_any is_reset after ≡ false →
        kept_of line ≡ map capital (filter is_plain after) }
{}

/// A part begins at rest: its first head has no speed.
pub fn parts_begin_at_rest()
    ensures { (place : Steps3) (p : Part) (h : AnyHead) (rest : List AnyRecord) → IsRecorded place p (AnyRecord.Head h ∷ rest) → h.w ≡ 0 }
{}

/// A course that leads to a point goes on by one from there, and a course in two halves comes by a point between them. So
/// texts that fit have fitted so far before their end was recorded.
pub fn texts_have_fitted_so_far()
    ensures on { (p between last : Point) (sent rest : List Sent) (course others : List Passed) → LeadsTo p sent course between rest →
        Follows between rest others last → Follows p sent (course ++ others) last }
    ensures between { (p last : Point) (sent : List Sent) (course others : List Passed) → Follows p sent (course ++ others) last →
        ComesBy p last sent course others }
    ensures fitted { (sent : List Sent) (cancels : ℕ) (replies : List AnyReply) (records : List AnyRecord) →
        FitsTexts sent cancels replies (records ++ AnyRecord.End ∷ []) → FitsSoFar sent cancels replies records }
{}
