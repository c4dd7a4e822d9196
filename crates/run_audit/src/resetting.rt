//! The resets of an audit, and the lines that they keep from their answers.

ghost use Rattle.std.specs.Prelude.{◌≡◌, ◌<◌, ◌^◌, ◌↔◌, ◌+◌, ◌-◌, ◌∷◌, ◌++◌, ◌&&◌, ◌||◌, [], ℕ, List, Option, Some, None, MatchResult, IfOk, IfSome, IsTrue, true, false, not, length, map};
ghost use Rattle.outside.specs.Causes.{Rose, SourceState};
ghost use Rattle.step_line.specs.declared.Mark.TheVariants.{Reset as ResetMark};
ghost use Rattle.step_line.specs.declared.Record.TheVariants as kinds;
ghost use Rattle.run_texts.specs.Sent.Sent.{a_text, a_stop};
ghost use Rattle.audit_texts.specs.Reading.{KnowsJob, IsSame};
ghost use Rattle.audit_texts.specs.SoFar.{IsItem};
ghost use Rattle.run_audit.specs.UnderWay.{IsUnderWay, IsDropping, IsNext, GoesOn, mark_of};
ghost use Rattle.line_interpreter.specs.Lefts.{greeting};
ghost use Rattle.audit_course.specs.SoFar.{has_moved, left_to_tell};
ghost use Rattle.step_line.specs.declared.Record.{Record as AnyRecord};
ghost use Rattle.run_audit.specs.OnWay.{HasCause, IsLater, IsMarkBehind, MayBeOf, TellsReset, line_waiting};
ghost use Rattle.run_audit.specs.Finding.{LeadsOnIf, LooksAndHears, ReadsOnIf};
ghost use Rattle.run_audit.specs.Coming.{IsResetTold, MayBeOfLine, is_alarm};

use crate::auditor::{Auditor, Finding, Unread, is_ending};
use audit_texts::Item;
use outside::Source;
use status_report::Reply;
use step_line::{Mark, Record};

/// Whether it is an alarm that is known before it is told.
fn is_alarm(known: Option<Reply>) -> bool
    ensures { result ≡ is_alarm known }
{
    matches!(known, Some(Reply::Alarm(_)))
}

impl Auditor {
    /// What a reset tells comes next on the console.
    #[tactic(auto, using(crate::proofs::Known::rose_on, crate::proofs::Known::all_same_on, crate::proofs::Known::caused_on))]
    pub(crate) fn reset<J: Source>(
        &mut self,
        record: Option<Record>,
        job: &mut J,
    ) -> Result<Option<Finding>, Unread>
        requires known { KnowsJob self.old.sending.reader (J.state job.old) }
        requires next { IsNext self.old «record» }
        ensures read { MatchResult result (λ found. KnowsJob self.new.sending.reader (J.state job.new) × IsSame (J.state job.old) (J.state job.new)) (λ e. (e ≡ Unread.Job) × Rose (J.state job.old).faults (J.state job.new).faults) }
        ensures listening { self.new.listening.reader ≡ self.old.listening.reader }
        ensures recorded { self.new.recorded.reader ≡ self.old.recorded.reader }
        ensures goes_on { IfOk result (λ found. (console steps : SourceState) → GoesOn self.old self.new (J.state job.old) console steps (J.state job.new) console steps found) }
        ensures stands { IsLater self.old.course «record» → (not self.old.course.unanswered && self.old.course.line.halts) ≡ false → TellsReset self.old.listening.known → IfOk result (λ found. (console steps : SourceState) → LeadsOnIf (LooksAndHears self.old «record» self.old.listening.known) self.old self.new (J.state job.old) console steps (J.state job.new) console steps found) }
    {
        let Some(record) = record else {
            return self.reset_uncounted(job);
        };
        if let Some(k) = self.reset_behind(&record) {
            return self.reset_marked(k, job);
        }
        if self.may_be_begun(&record) {
            return self.begin_next(job);
        }
        self.break_off();
        Ok(None)
    }

    /// Whether the alarm of a reset is told next that has no cause yet: nothing has moved, and no line is begun that a reset keeps from
    /// its answer.
    fn lacks_cause(&self) -> bool
        ensures alarm { IsTrue result → is_alarm self.now.listening.known ≡ true }
        ensures none { IsTrue result → has_moved self.now.course ≡ false }
        ensures caused { result ≡ false → is_alarm self.now.listening.known ≡ true → self.now.course.unanswered ≡ false → has_moved self.now.course ≡ true }
        ensures answered { IsTrue result → self.now.course.unanswered ≡ false }
    {
        is_alarm(self.listening.known()) && !self.course.is_unanswered() && !self.course.has_moved()
    }

    /// What a reset tells comes next where records count no more. If its alarm has no cause yet, the line that waits may be it.
    #[tactic(auto, using(crate::proofs::Known::rose_on, crate::proofs::Known::all_same_on, crate::proofs::Known::caused_on))]
    fn reset_uncounted<J: Source>(&mut self, job: &mut J) -> Result<Option<Finding>, Unread>
        requires known { KnowsJob self.old.sending.reader (J.state job.old) }
        requires broken { self.old.broken ≡ None → ⊥ }
        ensures read { MatchResult result (λ found. KnowsJob self.new.sending.reader (J.state job.new) × IsSame (J.state job.old) (J.state job.new)) (λ e. (e ≡ Unread.Job) × Rose (J.state job.old).faults (J.state job.new).faults) }
        ensures listening { self.new.listening.reader ≡ self.old.listening.reader }
        ensures recorded { self.new.recorded.reader ≡ self.old.recorded.reader }
        ensures goes_on { IfOk result (λ found. (console steps : SourceState) → GoesOn self.old self.new (J.state job.old) console steps (J.state job.new) console steps found) }
        ensures stands { IsLater self.old.course None → (not self.old.course.unanswered && self.old.course.line.halts) ≡ false → TellsReset self.old.listening.known → IfOk result (λ found. (console steps : SourceState) → LeadsOnIf (LooksAndHears self.old None self.old.listening.known) self.old self.new (J.state job.old) console steps (J.state job.new) console steps found) }
    {
        if self.lacks_cause() {
            return self.begin_cause(job);
        }
        self.drop_lines(None, job)
    }

    /// The line that waits is begun, and not answered: what it moves may be the cause of an alarm. If none waits, that is bad.
    #[tactic(auto, using(crate::proofs::Known::rose_on, crate::proofs::Known::all_same_on, crate::proofs::Known::caused_on))]
    fn begin_cause<J: Source>(&mut self, job: &mut J) -> Result<Option<Finding>, Unread>
        requires known { KnowsJob self.old.sending.reader (J.state job.old) }
        ensures read { MatchResult result (λ found. KnowsJob self.new.sending.reader (J.state job.new) × IsSame (J.state job.old) (J.state job.new)) (λ e. (e ≡ Unread.Job) × Rose (J.state job.old).faults (J.state job.new).faults) }
        ensures listening { self.new.listening.reader ≡ self.old.listening.reader }
        ensures recorded { self.new.recorded.reader ≡ self.old.recorded.reader }
        ensures goes_on { IfOk result (λ found. (console steps : SourceState) → GoesOn self.old self.new (J.state job.old) console steps (J.state job.new) console steps found) }
        ensures stands { IsLater self.old.course None → (not self.old.course.unanswered && self.old.course.line.halts) ≡ false → self.old.course.unanswered ≡ false → has_moved self.old.course ≡ false → is_alarm self.old.listening.known ≡ true → TellsReset self.old.listening.known → IfOk result (λ found. (console steps : SourceState) → LeadsOnIf (LooksAndHears self.old None self.old.listening.known) self.old self.new (J.state job.old) console steps (J.state job.new) console steps found) }
    {
        match self.sending.look(job) {
            Err(_) => Err(Unread::Job),
            Ok(Item::Line) => {
                self.break_line();
                Ok(None)
            }
            Ok(Item::Stop) => Ok(Some(self.bad_behind())),
            Ok(Item::Nothing) => Ok(Some(self.bad_behind())),
        }
    }

    /// The mark of a reset behind the last line comes next, and what a reset tells. The mark breaks a rule if the alarm has no cause.
    #[tactic(auto, using(crate::proofs::Known::rose_on, crate::proofs::Known::all_same_on, crate::proofs::Known::caused_on))]
    fn reset_marked<J: Source>(&mut self, k: u32, job: &mut J) -> Result<Option<Finding>, Unread>
        requires known { KnowsJob self.old.sending.reader (J.state job.old) }
        requires next { IsNext self.old (mark_of (Some k)) }
        ensures read { MatchResult result (λ found. KnowsJob self.new.sending.reader (J.state job.new) × IsSame (J.state job.old) (J.state job.new)) (λ e. (e ≡ Unread.Job) × Rose (J.state job.old).faults (J.state job.new).faults) }
        ensures listening { self.new.listening.reader ≡ self.old.listening.reader }
        ensures recorded { self.new.recorded.reader ≡ self.old.recorded.reader }
        ensures goes_on { IfOk result (λ found. (console steps : SourceState) → GoesOn self.old self.new (J.state job.old) console steps (J.state job.new) console steps found) }
        ensures stands { IsLater self.old.course (mark_of (Some k)) → k + 1 ≡ self.old.course.work.number → (not self.old.course.unanswered && self.old.course.line.halts) ≡ false → TellsReset self.old.listening.known → IfOk result (λ found. (console steps : SourceState) → LeadsOnIf (LooksAndHears self.old (mark_of (Some k)) self.old.listening.known) self.old self.new (J.state job.old) console steps (J.state job.new) console steps found) }
    {
        if self.lacks_cause() {
            self.break_off();
            return Ok(None);
        }
        self.drop_lines(Some(k), job)
    }

    /// The number of the last line, if this is the mark of a reset behind it.
    fn reset_behind(&self, given: &Record) -> Option<u32>
        ensures some { IfSome result (λ k. (given.now ≡ kinds.Mark (ResetMark k)) × (k + 1 ≡ self.now.course.work.number)) }
        ensures none { result ≡ None → (k : ℕ) → given.now ≡ kinds.Mark (ResetMark k) → k + 1 ≡ self.now.course.work.number → ⊥ }
    {
        match given {
            Record::Mark(Mark::Reset(k)) if u64::from(*k) + 1 == u64::from(self.course.number()) =>
                { Some(*k) }
            _ => None,
        }
    }

    /// The next line is begun, and a reset keeps it from its answer.
    #[tactic(auto, using(crate::proofs::Known::rose_on, crate::proofs::Known::all_same_on, crate::proofs::Known::caused_on))]
    fn begin_next<J: Source>(&mut self, job: &mut J) -> Result<Option<Finding>, Unread>
        requires known { KnowsJob self.old.sending.reader (J.state job.old) }
        ensures read { MatchResult result (λ found. KnowsJob self.new.sending.reader (J.state job.new) × IsSame (J.state job.old) (J.state job.new)) (λ e. (e ≡ Unread.Job) × Rose (J.state job.old).faults (J.state job.new).faults) }
        ensures listening { self.new.listening.reader ≡ self.old.listening.reader }
        ensures recorded { self.new.recorded.reader ≡ self.old.recorded.reader }
        ensures goes_on { IfOk result (λ found. (console steps : SourceState) → GoesOn self.old self.new (J.state job.old) console steps (J.state job.new) console steps found) }
        ensures stands { (next : AnyRecord) → IsLater self.old.course (Some next) → MayBeOfLine self.old.course.work.number next → (not self.old.course.unanswered && self.old.course.line.halts) ≡ false → TellsReset self.old.listening.known → IfOk result (λ found. (console steps : SourceState) → LeadsOnIf (LooksAndHears self.old (Some next) self.old.listening.known) self.old self.new (J.state job.old) console steps (J.state job.new) console steps found) }
    {
        match self.sending.look(job) {
            Err(_) => Err(Unread::Job),
            Ok(item) => {
                self.begin_unanswered(item);
                Ok(None)
            }
        }
    }

    /// The line that waits is begun, and not answered, if one does.
    fn begin_unanswered(&mut self, item: Item)
        requires item { IsItem item self.old.sending }
        ensures so_far { (job console steps : SourceState) → GoesOn self.old self.new job console steps job console steps None }
        ensures sending { self.new.sending.reader ≡ self.old.sending.reader }
        ensures listening { self.new.listening.reader ≡ self.old.listening.reader }
        ensures recorded { self.new.recorded.reader ≡ self.old.recorded.reader }
        ensures stands { (next : AnyRecord) → IsLater self.old.course (Some next) → MayBeOfLine self.old.course.work.number next → (not self.old.course.unanswered && self.old.course.line.halts) ≡ false → TellsReset self.old.listening.known → (item ≡ Item.Nothing → self.old.sending.over ≡ true) → (job console steps : SourceState) → LeadsOnIf (LooksAndHears self.old (Some next) self.old.listening.known) self.old self.new job console steps job console steps None }
    {
        match item {
            Item::Line => self.break_line(),
            Item::Stop | Item::Nothing => self.break_off(),
        }
    }

    /// The line that waits is begun, and not answered.
    fn break_line(&mut self)
        requires line { IsItem Item.Line self.old.sending }
        ensures so_far { (job console steps : SourceState) → GoesOn self.old self.new job console steps job console steps None }
        ensures sending { self.new.sending.reader ≡ self.old.sending.reader }
        ensures listening { self.new.listening.reader ≡ self.old.listening.reader }
        ensures recorded { self.new.recorded.reader ≡ self.old.recorded.reader }
        ensures stands { (next : Option AnyRecord) → IsLater self.old.course next → MayBeOf self.old.course.work.number next → (next ≡ None → self.old.course.unanswered ≡ false) → (not self.old.course.unanswered && self.old.course.line.halts) ≡ false → TellsReset self.old.listening.known → (job console steps : SourceState) → LeadsOnIf (LooksAndHears self.old next self.old.listening.known) self.old self.new job console steps job console steps None }
    {
        let line = self.sending.kept();
        if self.course.begin_unanswered(&line) {
            self.sending.take_line();
            return;
        }
        self.break_off();
    }

    /// Whether this record asks for a line that is begun and not answered.
    fn may_be_begun(&self, given: &Record) -> bool
        ensures { IsTrue result ↔ MayBeOfLine self.now.course.work.number given.now }
    {
        match given {
            Record::Mark(Mark::Reset(k) | Mark::Cut(k)) => *k == self.course.number(),
            given => !is_ending(given),
        }
    }

    /// Lines are dropped up to the next reset, whose mark is behind this line if records count.
    #[tactic(auto, using(crate::proofs::Known::rose_on, crate::proofs::Known::all_same_on, crate::proofs::Known::caused_on))]
    fn drop_lines<J: Source>(
        &mut self,
        mark: Option<u32>,
        job: &mut J,
    ) -> Result<Option<Finding>, Unread>
        requires known { KnowsJob self.old.sending.reader (J.state job.old) }
        requires next { IsNext self.old (mark_of mark) }
        ensures read { MatchResult result (λ found. KnowsJob self.new.sending.reader (J.state job.new) × IsSame (J.state job.old) (J.state job.new)) (λ e. (e ≡ Unread.Job) × Rose (J.state job.old).faults (J.state job.new).faults) }
        ensures listening { self.new.listening.reader ≡ self.old.listening.reader }
        ensures recorded { self.new.recorded.reader ≡ self.old.recorded.reader }
        ensures goes_on { IfOk result (λ found. (console steps : SourceState) → GoesOn self.old self.new (J.state job.old) console steps (J.state job.new) console steps found) }
        ensures stands { IsLater self.old.course (mark_of mark) → IsMarkBehind mark self.old.course.work.number → HasCause self.old.course self.old.listening.known → (not self.old.course.unanswered && self.old.course.line.halts) ≡ false → TellsReset self.old.listening.known → IfOk result (λ found. (console steps : SourceState) → LeadsOnIf (LooksAndHears self.old (mark_of mark) self.old.listening.known) self.old self.new (J.state job.old) console steps (J.state job.new) console steps found) }
    {
        let alarm = is_alarm(self.listening.known());
        let mut dropped: u32 = 0;
        'lines: for _ in 0..16_777_217_u32 {
            match self.sending.look(job) {
                Err(_) => return Err(Unread::Job),
                Ok(Item::Line) => {
                    self.sending.take_line();
                    dropped = dropped.saturating_add(1);
                }
                Ok(Item::Stop) => {
                    self.sending.take_stop();
                    return Ok(self.make_reset(mark, dropped, alarm));
                }
                Ok(Item::Nothing) => {
                    return Ok(Some(self.none_comes(dropped)));
                }
            }
        }
        Ok(Some(self.bad_behind()))
    }

    /// No reset comes of the job: the line that waits has none of the replies that it may have. Where one was begun, to be kept from
    /// its answer, it is that line, whatever waits behind it.
    fn none_comes(&self, waiting: u32) -> Finding
        ensures bad { (line : ℕ) × (result ≡ Finding.BadReplies line) }
        ensures begun { self.now.course.unanswered ≡ true → result ≡ Finding.BadReplies (self.now.course.work.number - 1) }
        ensures line { self.now.course.work.number < 2 ^ 32 - 1 → self.now.answered < 2 ^ 32 - 1 → result ≡ Finding.BadReplies (line_waiting self.now.course waiting self.now.answered) }
    {
        if self.course.is_unanswered() {
            return Finding::BadReplies(self.course.number().saturating_sub(1));
        }
        if waiting == 0 {
            return self.bad_behind();
        }
        Finding::BadReplies(self.course.number())
    }

    /// A reset comes, with its mark if records count.
    fn make_reset(&mut self, mark: Option<u32>, dropped: u32, alarm: bool) -> Option<Finding>
        requires next { IsNext self.old (mark_of mark) }
        ensures bad { IfSome result (λ found. (line : ℕ) × (found ≡ Finding.BadReplies line)) }
        ensures so_far { (lines : List (List ℕ)) → dropped ≡ length lines → (job console steps : SourceState) (job_text console_text steps_text : List ℕ) →
            IsDropping self.old job console steps job_text console_text steps_text (map a_text lines ++ a_stop ∷ []) → IsUnderWay self.new job console steps job_text console_text steps_text }
        ensures sending { self.new.sending.reader ≡ self.old.sending.reader }
        ensures listening { self.new.listening.reader ≡ self.old.listening.reader }
        ensures recorded { self.new.recorded.reader ≡ self.old.recorded.reader }
        ensures stands { IsLater self.old.course (mark_of mark) → IsMarkBehind mark self.old.course.work.number → (not self.old.course.unanswered && self.old.course.line.halts) ≡ false → HasCause self.old.course self.old.listening.known → TellsReset self.old.listening.known → alarm ≡ is_alarm self.old.listening.known → (lines : List (List ℕ)) → dropped ≡ length lines → self.old.sending.last ≡ None → (job console steps : SourceState) → ReadsOnIf (map a_text lines ++ a_stop ∷ []) (LooksAndHears self.old (mark_of mark) self.old.listening.known) self.old self.new job console steps job console steps result }
    {
        match mark {
            Some(k) => self.take_reset(k, dropped, alarm),
            None => self.pass_reset(dropped, alarm),
        }
    }

    /// A reset comes, with this mark.
    fn take_reset(&mut self, k: u32, dropped: u32, alarm: bool) -> Option<Finding>
        requires next { IsNext self.old (mark_of (Some k)) }
        ensures bad { IfSome result (λ found. (line : ℕ) × (found ≡ Finding.BadReplies line)) }
        ensures so_far { (lines : List (List ℕ)) → dropped ≡ length lines → (job console steps : SourceState) (job_text console_text steps_text : List ℕ) →
            IsDropping self.old job console steps job_text console_text steps_text (map a_text lines ++ a_stop ∷ []) → IsUnderWay self.new job console steps job_text console_text steps_text }
        ensures sending { self.new.sending.reader ≡ self.old.sending.reader }
        ensures listening { self.new.listening.reader ≡ self.old.listening.reader }
        ensures recorded { self.new.recorded.reader ≡ self.old.recorded.reader }
        ensures stands { IsLater self.old.course (mark_of (Some k)) → IsMarkBehind (Some k) self.old.course.work.number → (not self.old.course.unanswered && self.old.course.line.halts) ≡ false → HasCause self.old.course self.old.listening.known → TellsReset self.old.listening.known → alarm ≡ is_alarm self.old.listening.known → (lines : List (List ℕ)) → dropped ≡ length lines → self.old.sending.last ≡ None → (job console steps : SourceState) → ReadsOnIf (map a_text lines ++ a_stop ∷ []) (LooksAndHears self.old (mark_of (Some k)) self.old.listening.known) self.old self.new job console steps job console steps result }
    {
        if self.course.reset(k, dropped, alarm) {
            self.recorded.take();
            return None;
        }
        self.break_off();
        self.pass_reset(dropped, alarm)
    }

    /// A reset comes where records count no more. If it may not, what it tells is bad.
    fn pass_reset(&mut self, dropped: u32, alarm: bool) -> Option<Finding>
        requires broken { self.old.broken ≡ None → ⊥ }
        ensures bad { IfSome result (λ found. (line : ℕ) × (found ≡ Finding.BadReplies line)) }
        ensures greets { result ≡ None → left_to_tell self.new.course ≡ greeting alarm (alarm || self.old.course.locked) }
        ensures sending { self.new.sending ≡ self.old.sending }
        ensures listening { self.new.listening ≡ self.old.listening }
        ensures recorded { self.new.recorded ≡ self.old.recorded }
        ensures broken { self.new.broken ≡ None → ⊥ }
        ensures stands { IsLater self.old.course None → (not self.old.course.unanswered && self.old.course.line.halts) ≡ false → HasCause self.old.course self.old.listening.known → TellsReset self.old.listening.known → alarm ≡ is_alarm self.old.listening.known → (lines : List (List ℕ)) → dropped ≡ length lines → self.old.sending.last ≡ None → (job console steps : SourceState) → ReadsOnIf (map a_text lines ++ a_stop ∷ []) (LooksAndHears self.old None self.old.listening.known) self.old self.new job console steps job console steps result }
    {
        if self.course.reset_unrecorded(dropped, alarm) {
            return None;
        }
        Some(self.bad_behind())
    }
}
