//! Laws of audits.

ghost use Rattle.std.specs.Prelude.{◌≡◌, ◌↔◌, ◌≤◌, ◌<◌, ◌+◌, true, false, not, ℕ, List, [], ◌∷◌, ◌++◌, length, All};
ghost use Rattle.std.specs.List.{AllByRecursion};
ghost use Rattle.run_texts.specs.Points.{Point};
ghost use Rattle.run_texts.specs.Sent.{Sent, has_reset, kept_of};
ghost use Rattle.run_texts.specs.Sent.Sent.{a_text, a_stop};
ghost use Rattle.step_line.specs.declared.Mark.TheVariants.{Cut, Reset as ResetMark};
ghost use Rattle.step_line.specs.declared.Record.{Record as AnyRecord};
ghost use Rattle.step_line.specs.declared.Record.TheVariants as kinds;
ghost use Rattle.run_rules.specs.Reports.{raises_alarm};
ghost use Rattle.run_rules.specs.Work.{Outcome};
ghost use Rattle.run_texts.specs.Courses.{Passed, Reset, IsCut, IsReset};
ghost use Rattle.run_texts.specs.Left.{part_of};
ghost use Rattle.run_texts.specs.Making.{Making, IsMade};
ghost use Rattle.run_texts.specs.Parts.{is_ending};
ghost use Rattle.run_texts.specs.Parts.Ending.{by_cut, by_reset};
ghost use Rattle.run_texts.specs.Recorded.{IsRecorded};
ghost use Rattle.run_texts.specs.Told.{told_in, told_at_reset};
ghost use Rattle.status_report.specs.Answering.{is_banner};
ghost use Rattle.status_report.specs.Replies.{reply_text};
ghost use Rattle.status_report.specs.declared.Reply.{Reply};
ghost use Rattle.units.specs.declared.Steps3.{Steps3};
ghost use Rattle.audit_rules.specs.declared.Audit.{Audit as AnyAudit};
ghost use Rattle.audit_rules.specs.declared.Audit.TheVariants as audits;
ghost use Rattle.audit_rules.specs.Consoles.{GoesOnAnew, GoesOnWith, Tells, is_of_reset};
ghost use Rattle.audit_rules.specs.Faults.{BeginsWithNoReport, BreaksNoLine, ComesUpTo, FailsAt, PartCutsNot, PartMakesNot, PartResetsNot, ReadsUpTo, ResetRefused, StandsBetween, TellsLineShort, TellsResetShort, TellsShort};
ghost use Rattle.audit_rules.specs.Findings.{Finds, FitsWith, BreaksAt, IsForeign, HasForeign, IsTooLong, is_foreign, foreign_in, exit_of};
ghost use Rattle.audit_rules.specs.Onward.{GoesOnTo, HasCome, StandsBehind, IsOfLater, TellsNext, TellsNothing, TellsNoAlarm, TellsNoLine, TellsNoReset, begins_with_line};
ghost use Rattle.audit_rules.specs.Scanned.{scanned, sent_in};
ghost use Rattle.run_texts.specs.SoFar.{LeadsTo, RebasesNothing};
ghost use Rattle.audit_rules.specs.Standing.{MayWait, Stand, StandTo, StandRead, AreUpTo, place_behind};
ghost use Rattle.audit_rules.specs.StepTexts.{IsLineOf, FollowsLast, AreLinesOf, IsStepText, last_of, form_of, records_of};
ghost use Rattle.step_line.specs.Records.{IsRecord};
ghost use Rattle.step_record.specs.Forms.{line_text, text_in};
ghost use Rattle.step_record.specs.declared.forms.Form.{Form};
ghost use Rattle.step_record.specs.declared.forms.Line.{Line};
ghost use Rattle.step_record.specs.declared.forms.Line.TheVariants as line_kinds;
ghost use Rattle.audit_rules.specs.Telling.{StandsUpTo, ConsoleStands, StandsNoFurther, HasNoBanner, HasBadReply, HasAlarm, IsLineAtFault, IsOver, last_answered};

/// A text of steps is the lines of one list at most.
pub fn step_texts_have_one_list()
    ensures { (text : List ℕ) (lines others : List Line) → IsStepText text lines → IsStepText text others → lines ≡ others }
{}

/// What a recorder writes of records is a step text, in each form, and the lines of that stand for these records. And a step
/// text is what a recorder writes of its records in its form.
pub fn written_texts_are_step_texts()
    ensures written { (form : Form) (records : List AnyRecord) → All IsRecord records → (all : List Line) × IsStepText (text_in form records) all × (records_of all ≡ records) }
    ensures read { (text : List ℕ) (all : List Line) → IsStepText text all → text ≡ text_in (form_of text) (records_of all) }
{}

/// Lines of a step text are those before the last, and a last one that is a line and may follow.
pub fn step_texts_go_on_line_by_line()
    ensures { (form : Form) (done : List Line) (line : Line) → AreLinesOf form (done ++ line ∷ []) ↔ (AreLinesOf form done × IsLineOf form line × FollowsLast form (last_of done) line) }
{}

/// Records that stand have stood before the last of them. So there is one place up to which the lines of a step text stand.
pub fn records_stand_from_the_left()
    ensures before { (sent : List Sent) (console : List ℕ) (records : List AnyRecord) (r : AnyRecord) → Stand sent console (records ++ r ∷ []) → Stand sent console records }
    ensures place { (sent : List Sent) (console steps : List ℕ) (x y : StandTo sent console steps) → (x.done ≡ y.done) × (x.rest ≡ y.rest) }
{}

/// Where steps were read up to a record with which the records before it stand no more, the lines that stand are found: those
/// before the line that holds that record.
pub fn steps_that_were_read_stand_up_to_a_line()
    ensures { (sent : List Sent) (console steps : List ℕ) (lines : List Line) (rest : List ℕ) (records left : List AnyRecord) →
        StandRead sent console steps lines rest records left → (z : StandTo sent console steps) × AreUpTo z.done lines records left }
{}

/// Where a course has come so far, records stand that go on behind its own only by what goes on behind it. A record that ends no
/// part is made of the lines of the last part, with more lines (`part`); where these have no tick left, by a course that goes on
/// with a line (`line`). A cut and a reset of no earlier line stand by a course that goes on behind it (`cut`, `reset`).
pub fn records_stand_behind_a_course()
    ensures part { (sent : List Sent) (console : List ℕ) (records others made : List AnyRecord) (since begun : List Outcome) (r : AnyRecord) → HasCome sent console records since begun made → is_ending r ≡ false →
        Stand sent console (records ++ r ∷ others) → (more : List Outcome) × (m : Making) × IsMade ((since ++ begun) ++ more) (made ++ r ∷ []) m }
    ensures line { (sent : List Sent) (console : List ℕ) (records others made : List AnyRecord) (since begun : List Outcome) (r : AnyRecord) (c : HasCome sent console records since begun made) → c.making.owed ≡ [] → is_ending r ≡ false →
        Stand sent console (records ++ r ∷ others) → (b : StandsBehind c.reached.course c.point c.left c.rest (records ++ r ∷ others)) × (begins_with_line b.more ≡ true) }
    ensures cut { (sent : List Sent) (console : List ℕ) (records others made : List AnyRecord) (since begun : List Outcome) (k : ℕ) (c : HasCome sent console records since begun made) → c.point.before.number ≤ k + 1 →
        Stand sent console (records ++ kinds.Mark (Cut k) ∷ others) → StandsBehind c.reached.course c.point c.left c.rest (records ++ kinds.Mark (Cut k) ∷ others) }
    ensures reset { (sent : List Sent) (console : List ℕ) (records others made : List AnyRecord) (since begun : List Outcome) (k : ℕ) (c : HasCome sent console records since begun made) → c.point.before.number ≤ k + 1 →
        Stand sent console (records ++ kinds.Mark (ResetMark k) ∷ others) → StandsBehind c.reached.course c.point c.left c.rest (records ++ kinds.Mark (ResetMark k) ∷ others) }
{}

/// Where a cut or a reset is the next record, it comes at the point of a course that has passed the line of its number: the cut
/// there (`cut`), or a reset that the console tells next (`reset`), and the last part is recorded so far. Behind an earlier line
/// a course goes on with a line (`cut_later`, `reset_later`). The first reply of a reset says whether it has an alarm (`alarm`).
pub fn cuts_and_resets_come_behind_their_lines()
    ensures cut { (sent : List Sent) (console : List ℕ) (records others made : List AnyRecord) (since begun : List Outcome) (k : ℕ) (c : HasCome sent console records since begun made) → c.point.before.number ≡ k + 1 →
        Stand sent console (records ++ kinds.Mark (Cut k) ∷ others) → (at : Steps3) × IsCut c.point k × IsRecorded c.place (part_of since begun (by_cut k at)) made }
    ensures cut_later { (sent : List Sent) (console : List ℕ) (records others made : List AnyRecord) (since begun : List Outcome) (k : ℕ) (c : HasCome sent console records since begun made) → c.point.before.number ≤ k →
        Stand sent console (records ++ kinds.Mark (Cut k) ∷ others) → (b : StandsBehind c.reached.course c.point c.left c.rest (records ++ kinds.Mark (Cut k) ∷ others)) × (begins_with_line b.more ≡ true) }
    ensures reset { (sent : List Sent) (console : List ℕ) (records others made : List AnyRecord) (since begun : List Outcome) (k : ℕ) (c : HasCome sent console records since begun made) → c.point.before.number ≡ k + 1 →
        Stand sent console (records ++ kinds.Mark (ResetMark k) ∷ others) →
        (r : Reset) × (r.number ≡ k) × IsReset c.point c.left r × IsRecorded c.place (part_of since begun (by_reset r)) made × (told : List Reply) × (later : List ℕ) × TellsNext c.rest (told_at_reset r ++ told) later }
    ensures reset_later { (sent : List Sent) (console : List ℕ) (records others made : List AnyRecord) (since begun : List Outcome) (k : ℕ) (c : HasCome sent console records since begun made) → c.point.before.number ≤ k →
        Stand sent console (records ++ kinds.Mark (ResetMark k) ∷ others) → (b : StandsBehind c.reached.course c.point c.left c.rest (records ++ kinds.Mark (ResetMark k) ∷ others)) × (begins_with_line b.more ≡ true) }
    ensures alarm { (rest later : List ℕ) (told : List Reply) (r : Reset) (reply : Reply) → TellsNext rest (told_at_reset r ++ told) later → GoesOnWith rest reply → is_of_reset reply ≡ true → r.alarm ≡ not (is_banner reply) }
{}

/// Of texts that fit the console stands, no reply is bad and no record breaks a rule. If they end with the alarm of a soft
/// limit, the last line has raised it.
pub fn texts_that_fit_stand()
    ensures console { (job console steps : List ℕ) (events : ℕ) → FitsWith job console steps events → ConsoleStands (sent_in job) console steps }
    ensures replies { (job console steps : List ℕ) (events line : ℕ) → FitsWith job console steps events → HasBadReply (sent_in job) console steps line → ⊥ }
    ensures records { (job console steps : List ℕ) (events at : ℕ) → FitsWith job console steps events → BreaksAt job console steps at → ⊥ }
    ensures alarm { (job console steps : List ℕ) (events k : ℕ) (f : FitsWith job console steps events) → f.fit.fits.last.before.alarmed ≡ true →
        f.fit.fits.last.before.number ≡ k + 1 → HasAlarm (sent_in job) console steps k }
{}

/// A bad reply stands at one place of a console: without the banner it is that to line 1, and else what is left of the console,
/// where it stands no further, is one text.
pub fn bad_replies_stand_at_one_place()
    ensures no_banner { (sent : List Sent) (console steps : List ℕ) (line : ℕ) → HasNoBanner console → HasBadReply sent console steps line → line ≡ 1 }
    ensures rest { (sent : List Sent) (console steps : List ℕ) (line other : ℕ) (x : StandsNoFurther sent console steps line) (y : StandsNoFurther sent console steps other) → x.rest ≡ y.rest }
{}

/// Of two courses that stand on one console, of the same records and with their lines answered, the one that leaves less of it goes
/// on behind the other, without cuts and with resets that leave the position as it is (`course`). The last line that it answers is
/// the last that this course answers, or else that of the other (`last`).
pub fn who_tells_more_goes_on()
    ensures course { (sent : List Sent) (console : List ℕ) (records : List AnyRecord) (p q : Point) (left gone : List Sent) (rest later : List ℕ) →
        StandsUpTo sent console records p left rest → StandsUpTo sent console records q gone later → p.unanswered ≡ false → q.unanswered ≡ false →
        length later ≤ length rest → GoesOnTo p left rest q gone later }
    ensures last { (sent : List Sent) (console : List ℕ) (records : List AnyRecord) (p q : Point) (left gone : List Sent) (rest later : List ℕ)
        (x : StandsUpTo sent console records p left rest) (y : StandsUpTo sent console records q gone later) → p.unanswered ≡ false → q.unanswered ≡ false →
        length later ≤ length rest → (g : GoesOnTo p left rest q gone later) ×
        (last_answered 1 0 (y.course ++ y.others) ≡ last_answered p.before.number (last_answered 1 0 (x.course ++ x.others)) g.course) }
{}

/// A console's text leaves no choice of what became of the lines up to what is left of it where it stands no further. So one
/// line has the bad reply.
pub fn one_line_has_the_bad_reply()
    ensures { (sent : List Sent) (console steps : List ℕ) (k l : ℕ) → HasBadReply sent console steps k → HasBadReply sent console steps l → k ≡ l }
{}

/// Where a console stands up to a point, by the records that stand, and what is left of it tells nothing that may come there, it
/// stands no further. Unless that is all that is told of the job, the line at fault there has the bad reply (`bad`). No line raises
/// the alarm of a soft limit, if none has up to the point, and what is left does not go on with that of the next line (`alarm`).
pub fn a_console_stands_no_further_than_it_tells()
    ensures bad { (sent : List Sent) (console steps : List ℕ) (z : StandTo sent console steps) (p : Point) (left : List Sent) (rest : List ℕ) (s : StandsUpTo sent console (records_of z.done) p left rest) →
        TellsNothing p left rest → (rest ≡ [] → IsOver p left → ⊥) → (line : ℕ) → IsLineAtFault p left rest (last_answered 1 0 (s.course ++ s.others)) line → HasBadReply sent console steps line }
    ensures alarm { (sent : List Sent) (console steps : List ℕ) (z : StandTo sent console steps) (p : Point) (left : List Sent) (rest : List ℕ) → StandsUpTo sent console (records_of z.done) p left rest →
        TellsNothing p left rest → p.before.alarmed ≡ false → TellsNoAlarm p left rest → (k : ℕ) → HasAlarm sent console steps k → ⊥ }
{}

/// Behind the records of a course that has come to a point no more stand, if what is left of the console tells nothing there, and the
/// next one comes of a later line (`none`). A cut or a reset that comes behind a record of a line that begins there is of that line or
/// of a later one (`cut`, `reset`).
pub fn no_record_stands_where_nothing_is_told()
    ensures none { (sent : List Sent) (console : List ℕ) (records made : List AnyRecord) (since begun : List Outcome) (c : HasCome sent console records since begun made) → TellsNothing c.point c.left c.rest →
        (r : AnyRecord) → IsOfLater c.point.before.number c.making.owed r → Stand sent console (records ++ r ∷ []) → ⊥ }
    ensures cut { (sent : List Sent) (console : List ℕ) (records made : List AnyRecord) (since begun : List Outcome) (c : HasCome sent console records since begun made) → c.making.owed ≡ [] →
        (x : AnyRecord) → is_ending x ≡ false → (xs : List AnyRecord) → AllByRecursion (λ r. is_ending r ≡ false) xs → (k : ℕ) → Stand sent console (records ++ x ∷ (xs ++ kinds.Mark (Cut k) ∷ [])) → c.point.before.number ≤ k }
    ensures reset { (sent : List Sent) (console : List ℕ) (records made : List AnyRecord) (since begun : List Outcome) (c : HasCome sent console records since begun made) → c.making.owed ≡ [] →
        (x : AnyRecord) → is_ending x ≡ false → (xs : List AnyRecord) → AllByRecursion (λ r. is_ending r ≡ false) xs → (k : ℕ) → Stand sent console (records ++ x ∷ (xs ++ kinds.Mark (ResetMark k) ∷ [])) → c.point.before.number ≤ k }
{}

/// Where a course has come to, its records stand (`records`), and a console stands up to there (`here`), and as far as what goes on
/// behind it without records (`on`). Where all is told of the job, nothing more is (`nothing`), and no alarm (`alarm`).
pub fn a_course_stands_where_it_has_come_to()
    ensures records { (sent : List Sent) (console : List ℕ) (records made : List AnyRecord) (since begun : List Outcome) → HasCome sent console records since begun made → Stand sent console records }
    ensures here { (sent : List Sent) (console : List ℕ) (records made : List AnyRecord) (since begun : List Outcome) (c : HasCome sent console records since begun made) → StandsUpTo sent console records c.point c.left c.rest }
    ensures on { (sent : List Sent) (console : List ℕ) (records made : List AnyRecord) (since begun : List Outcome) (c : HasCome sent console records since begun made) (q : Point) (gone : List Sent) (later : List ℕ) (ps : List Passed) →
        LeadsTo c.point c.left ps q gone → RebasesNothing c.point c.left ps → TellsNext c.rest (told_in ps) later → MayWait q gone later → StandsUpTo sent console records q gone later }
    ensures nothing { (p : Point) (left : List Sent) → IsOver p left → TellsNothing p left [] }
    ensures alarm { (p : Point) (left : List Sent) → TellsNoAlarm p left [] }
{}

/// If a text tells some replies next, and then goes on otherwise than with a certain one, it does not tell that one behind them,
/// whatever follows (`short`). What a console tells in two halves has a place between them, where no report follows
/// (`between`). A text that begins with no report and with no reply of a reset does not go on anew (`anew`).
pub fn a_text_tells_one_thing()
    ensures short { (text later : List ℕ) (heard more : List Reply) (reply : Reply) → TellsShort text heard reply → TellsNext text (heard ++ reply ∷ more) later → ⊥ }
    ensures between { (console : List ℕ) (first second : List Reply) (rest : List ℕ) → Tells console (first ++ second) rest → BeginsWithNoReport rest → StandsBetween console first second rest }
    ensures anew { (text : List ℕ) → BeginsWithNoReport text → ((reply : Reply) (later : List ℕ) → is_of_reset reply ≡ true → text ≡ reply_text reply ++ later → ⊥) → GoesOnAnew text → ⊥ }
{}

/// A line is at hand, and of all that may become of it a console tells nothing whole. Then that line is at fault (`fails`). If what is
/// told of it begins with the alarm of a soft limit, and that was heard, the line has raised it (`alarm`); else no line raises it
/// there (`calm`).
pub fn a_line_that_is_not_told_is_at_fault()
    ensures fails { (p : Point) (kept : List ℕ) (more : List Sent) (rest : List ℕ) (t : TellsLineShort p kept rest) (last : ℕ) → FailsAt p (a_text kept ∷ more) rest last p.before.number }
    ensures calm { (p : Point) (kept : List ℕ) (more : List Sent) (rest : List ℕ) (t : TellsLineShort p kept rest) → (raises_alarm t.outcome ≡ true → t.heard ≡ []) → TellsNoAlarm p (a_text kept ∷ more) rest }
    ensures alarm { (p : Point) (kept : List ℕ) (more : List Sent) (rest : List ℕ) (t : TellsLineShort p kept rest) (sent : List Sent) (console steps : List ℕ) (z : StandTo sent console steps) →
        StandsUpTo sent console (records_of z.done) p (a_text kept ∷ more) rest → raises_alarm t.outcome ≡ true → (t.heard ≡ [] → ⊥) → HasAlarm sent console steps p.before.number }
{}

/// Nothing of a reset is told where what is told of it goes on otherwise (`short`), where none is left of the job (`none`), or where
/// none may come (`refused`). Then the line at fault, if a console goes on anew, is the one that `IsLineAtFault` says (`anew`). If a reset
/// is next of a job and it does not go on so, or if something is left behind all that may come, no line is (`stop`, `over`).
pub fn a_reset_that_is_not_told_is_at_fault()
    ensures short { (p : Point) (left : List Sent) (rest : List ℕ) → TellsResetShort p rest → TellsNoReset p left rest }
    ensures none { (p : Point) (left : List Sent) (rest : List ℕ) → has_reset left ≡ false → TellsNoReset p left rest }
    ensures refused { (p : Point) (left : List Sent) (rest : List ℕ) (first : Reply) → GoesOnWith rest first → is_of_reset first ≡ true → ResetRefused p left (not (is_banner first)) → TellsNoReset p left rest }
    ensures anew { (p : Point) (left : List Sent) (rest : List ℕ) → p.unanswered ≡ false → BeginsWithNoReport rest → GoesOnAnew rest → TellsNoReset p left rest → (last line : ℕ) → IsLineAtFault p left rest last line → FailsAt p left rest last line }
    ensures stop { (p : Point) (more : List Sent) (rest : List ℕ) → p.before.alarmed ≡ false → p.unanswered ≡ false → BeginsWithNoReport rest → (GoesOnAnew rest → ⊥) → (last : ℕ) → FailsAt p (a_stop ∷ more) rest last (last + 1) }
    ensures over { (p : Point) (left : List Sent) (rest : List ℕ) → IsOver p left → BeginsWithNoReport rest → (rest ≡ [] → ⊥) → (last : ℕ) → FailsAt p left rest last (last + 1) }
{}

/// A course has come to a point, and steps were read up to a record with which its records stand no more (`read`). Then a console stands
/// up to there by the records of the lines that stand (`here`), and as far as what goes on behind it without records (`on`). Where nothing
/// is told that may come, and the next record comes of a later line, the line at fault has the bad reply (`bad`), and no line
/// raises the alarm of a soft limit (`alarm`).
pub fn a_console_stands_by_the_lines_that_stand()
    ensures read { (sent : List Sent) (console steps : List ℕ) (records made : List AnyRecord) (since begun : List Outcome) (c : HasCome sent console records since begun made) (lines : List Line) (text : List ℕ) (left : List AnyRecord) →
        ReadsUpTo steps lines text records left (λ r. Stand sent console (records ++ r ∷ []) → ⊥) → StandRead sent console steps lines text records left }
    ensures here { (sent : List Sent) (console steps : List ℕ) (records made : List AnyRecord) (since begun : List Outcome) (c : HasCome sent console records since begun made) (lines : List Line) (text : List ℕ) (left : List AnyRecord) →
        StandRead sent console steps lines text records left → ComesUpTo sent console steps lines records left c.point c.left c.rest c.reached.course }
    ensures on { (sent : List Sent) (console steps : List ℕ) (records made : List AnyRecord) (since begun : List Outcome) (c : HasCome sent console records since begun made) (lines : List Line) (text : List ℕ) (left : List AnyRecord) →
        StandRead sent console steps lines text records left → (q : Point) (gone : List Sent) (later : List ℕ) (ps : List Passed) → LeadsTo c.point c.left ps q gone → RebasesNothing c.point c.left ps →
        TellsNext c.rest (told_in ps) later → MayWait q gone later → ComesUpTo sent console steps lines records left q gone later (c.reached.course ++ ps) }
    ensures bad { (sent : List Sent) (console steps : List ℕ) (records made : List AnyRecord) (since begun : List Outcome) (c : HasCome sent console records since begun made) (lines : List Line) (text : List ℕ) (left : List AnyRecord) →
        ReadsUpTo steps lines text records left (IsOfLater c.point.before.number c.making.owed) → (line : ℕ) → FailsAt c.point c.left c.rest (last_answered 1 0 c.reached.course) line → HasBadReply sent console steps line }
    ensures alarm { (sent : List Sent) (console steps : List ℕ) (records made : List AnyRecord) (since begun : List Outcome) (c : HasCome sent console records since begun made) (lines : List Line) (text : List ℕ) (left : List AnyRecord) →
        ReadsUpTo steps lines text records left (IsOfLater c.point.before.number c.making.owed) → TellsNothing c.point c.left c.rest → c.point.before.alarmed ≡ false → TellsNoAlarm c.point c.left c.rest → (k : ℕ) → HasAlarm sent console steps k → ⊥ }
{}

/// A record does not stand next where a course has come to a point: if the part at hand does not make it (`makes`), or may not be cut
/// there (`cuts`) or reset (`resets`), or if the console does not go on anew (`anew`); a cut or a reset of a later line, if none comes
/// (`later_cut`, `later_reset`); one of an earlier line, behind a record of a line that begins there (`early_cut`, `early_reset`).
pub fn records_that_are_refused_do_not_stand()
    ensures makes { (sent : List Sent) (console : List ℕ) (records made : List AnyRecord) (since begun : List Outcome) (c : HasCome sent console records since begun made) (r : AnyRecord) → is_ending r ≡ false → PartMakesNot since begun made r → Stand sent console (records ++ r ∷ []) → ⊥ }
    ensures cuts { (sent : List Sent) (console : List ℕ) (records made : List AnyRecord) (since begun : List Outcome) (c : HasCome sent console records since begun made) (k : ℕ) → c.point.before.number ≡ k + 1 → PartCutsNot c.point c.place since begun made k → Stand sent console (records ++ kinds.Mark (Cut k) ∷ []) → ⊥ }
    ensures resets { (sent : List Sent) (console : List ℕ) (records made : List AnyRecord) (since begun : List Outcome) (c : HasCome sent console records since begun made) (k : ℕ) (first : Reply) → c.point.before.number ≡ k + 1 →
        GoesOnWith c.rest first → is_of_reset first ≡ true → PartResetsNot c.point c.left c.place since begun made k (not (is_banner first)) → Stand sent console (records ++ kinds.Mark (ResetMark k) ∷ []) → ⊥ }
    ensures anew { (sent : List Sent) (console : List ℕ) (records made : List AnyRecord) (since begun : List Outcome) (c : HasCome sent console records since begun made) (k : ℕ) → c.point.before.number ≡ k + 1 → (GoesOnAnew c.rest → ⊥) → Stand sent console (records ++ kinds.Mark (ResetMark k) ∷ []) → ⊥ }
    ensures later_cut { (sent : List Sent) (console : List ℕ) (records made : List AnyRecord) (since begun : List Outcome) (c : HasCome sent console records since begun made) (k : ℕ) → c.point.before.number ≤ k →
        TellsNoLine c.point c.left c.rest → BreaksNoLine c.point c.left → Stand sent console (records ++ kinds.Mark (Cut k) ∷ []) → ⊥ }
    ensures later_reset { (sent : List Sent) (console : List ℕ) (records made : List AnyRecord) (since begun : List Outcome) (c : HasCome sent console records since begun made) (k : ℕ) → c.point.before.number ≤ k →
        TellsNoLine c.point c.left c.rest → BreaksNoLine c.point c.left → Stand sent console (records ++ kinds.Mark (ResetMark k) ∷ []) → ⊥ }
    ensures early_cut { (sent : List Sent) (console : List ℕ) (records made : List AnyRecord) (since begun : List Outcome) (c : HasCome sent console records since begun made) → c.making.owed ≡ [] →
        (x : AnyRecord) → is_ending x ≡ false → (xs : List AnyRecord) → AllByRecursion (λ r. is_ending r ≡ false) xs → (k : ℕ) → k < c.point.before.number → Stand sent console (records ++ x ∷ (xs ++ kinds.Mark (Cut k) ∷ [])) → ⊥ }
    ensures early_reset { (sent : List Sent) (console : List ℕ) (records made : List AnyRecord) (since begun : List Outcome) (c : HasCome sent console records since begun made) → c.making.owed ≡ [] →
        (x : AnyRecord) → is_ending x ≡ false → (xs : List AnyRecord) → AllByRecursion (λ r. is_ending r ≡ false) xs → (k : ℕ) → k < c.point.before.number → Stand sent console (records ++ x ∷ (xs ++ kinds.Mark (ResetMark k) ∷ [])) → ⊥ }
{}

/// Steps break a rule at the line that holds the next record (`before`), or behind all lines that were read (`all`), if another line
/// stands there than the end (`other`), or none (`none`). A console that is told to its end stands whole (`whole`).
pub fn steps_break_behind_the_lines_that_stand()
    ensures before { (done before : List Line) (last : Line) (records part others : List AnyRecord) (r : AnyRecord) → AreUpTo done (before ++ last ∷ []) records (r ∷ others) → records ≡ records_of before ++ part → done ≡ before }
    ensures all { (done lines : List Line) (records : List AnyRecord) → AreUpTo done lines records [] → done ≡ lines }
    ensures other { (job console steps : List ℕ) (z : StandTo (sent_in job) console steps) (line : Line) (more : List ℕ) → z.rest ≡ line_text line ++ more → IsLineOf (form_of steps) line → (line ≡ line_kinds.One kinds.End → ⊥) →
        BreaksAt job console steps (place_behind steps z.done) }
    ensures none { (job console steps : List ℕ) (z : StandTo (sent_in job) console steps) → ((line : Line) (more : List ℕ) → z.rest ≡ line_text line ++ more → AreLinesOf (form_of steps) (z.done ++ line ∷ []) → ⊥) →
        BreaksAt job console steps (place_behind steps z.done) }
    ensures whole { (sent : List Sent) (console steps : List ℕ) (lines : List Line) (records left : List AnyRecord) (q : Point) (gone : List Sent) (course : List Passed) → ComesUpTo sent console steps lines records left q gone [] course →
        IsOver q gone → ConsoleStands sent console steps }
{}

/// So of texts that are not too long the first line that is not audited is found, unless a line before it raises the alarm of a soft
/// limit (`foreign`), and none does if that line or a later one does (`late`). And of texts whose lines are audited a bad reply is
/// found, or, where the console stands whole, where the steps break a rule (`replies`, `records`).
pub fn each_fault_is_found()
    ensures foreign { (job console steps : List ℕ) (line : ℕ) (before : List (List ℕ)) (here : List ℕ) (behind : List (List ℕ)) → (IsTooLong console steps → ⊥) → (scanned job).lines ≡ before ++ here ∷ behind → line ≡ length before + 1 →
        foreign_in before ≡ false → is_foreign (kept_of here) ≡ true → ((k : ℕ) → k < line → HasAlarm (sent_in job) console steps k → ⊥) → Finds job console steps (audits.Foreign line) }
    ensures late { (sent : List Sent) (console steps : List ℕ) (line n : ℕ) → HasAlarm sent console steps n → line ≤ n → (k : ℕ) → k < line → HasAlarm sent console steps k → ⊥ }
    ensures replies { (job console steps : List ℕ) (line : ℕ) → (IsTooLong console steps → ⊥) → (HasForeign job console steps → ⊥) → HasBadReply (sent_in job) console steps line → Finds job console steps (audits.BadReplies line) }
    ensures records { (job console steps : List ℕ) (at : ℕ) → (IsTooLong console steps → ⊥) → (HasForeign job console steps → ⊥) → ConsoleStands (sent_in job) console steps → BreaksAt job console steps at → Finds job console steps (audits.Misfit at) }
{}

/// And one line raises the alarm of a soft limit.
pub fn one_line_raises_the_alarm()
    ensures { (sent : List Sent) (console steps : List ℕ) (k l : ℕ) → HasAlarm sent console steps k → HasAlarm sent console steps l → k ≡ l }
{}

/// One thing is found of three texts, with its number. So texts that fit have one number of events, steps break a rule at one
/// place, one line is the first that is not audited, and one has the bad reply.
pub fn one_thing_is_found()
    ensures one { (job console steps : List ℕ) (a b : AnyAudit) → Finds job console steps a → Finds job console steps b → a ≡ b }
    ensures events { (job console steps : List ℕ) (n m : ℕ) → FitsWith job console steps n → FitsWith job console steps m → n ≡ m }
    ensures place { (job console steps : List ℕ) (at other : ℕ) → BreaksAt job console steps at → BreaksAt job console steps other → at ≡ other }
    ensures foreign { (job console steps : List ℕ) (line other : ℕ) → IsForeign job console steps line → IsForeign job console steps other → line ≡ other }
    ensures replies { (job console steps : List ℕ) (line other : ℕ) → HasBadReply (sent_in job) console steps line → HasBadReply (sent_in job) console steps other → line ≡ other }
{}

/// So whoever finds something of texts that are not too long, and of which each sent line is audited, says that they fit
/// exactly if they do.
pub fn texts_are_found_to_fit_if_they_do()
    ensures { (job console steps : List ℕ) (found : AnyAudit) → Finds job console steps found → (IsTooLong console steps → ⊥) → (HasForeign job console steps → ⊥) →
        (exit_of found ≡ 0) ↔ ((events : ℕ) × FitsWith job console steps events) }
{}
