//! How an audit ends.

ghost use Rattle.std.specs.Prelude.{◌≡◌, ◌≤◌, ◌+◌, ◌&&◌, [], ℕ, List, length, Some, None, true, false, not, MatchResult, IfOk, IsTrue};
ghost use Rattle.status_report.specs.declared.Reply.TheVariants.{Alarm};
ghost use Rattle.run_rules.specs.Work.Task.{tell};
ghost use Rattle.line_interpreter.specs.Lefts.{IsNextOf};
ghost use Rattle.step_line.specs.declared.Record.TheVariants as kinds;
ghost use Rattle.outside.specs.Causes.{Rose, SourceState};
ghost use Rattle.audit_texts.specs.Reading.{KnowsJob, KnowsConsole, KnowsSteps, IsSame};
ghost use Rattle.run_audit.specs.Going.{AllKnown, AllSame, IsCaused, EndFails};
ghost use Rattle.audit_rules.specs.Findings.{Finds, IsTooLong};
ghost use Rattle.run_audit.specs.OnWay.{IsLater};
ghost use Rattle.run_audit.specs.Finding.{EndsSteps, IsFound, Looks, ReadsOnIf, alarm_next, audit_of, has_told_alarm};
ghost use Rattle.run_audit.specs.Ended.{EndStays, RefusesFit};
ghost use Rattle.audit_texts.specs.SoFar.{Halts, IsAllRead, IsItem, IsRead, StaysSent};
ghost use Rattle.run_audit.specs.declared.auditor.Finding.{Finding as AnyFinding};
ghost use Rattle.run_audit.specs.UnderWay.{IsUnderWay, OthersStay, JudgeStays, Finishes, FinishesSteps, MayFit, IsNext, CanBeRead, IsRight, IsSaid};

use crate::auditor::{Auditor, Finding, Unread};
use audit_course::Next;
use audit_texts::Item;
use outside::Source;
use status_report::Reply;
use step_line::Record;

impl Auditor {
    /// Counts the holds of the job behind a line that has raised an alarm.
    #[tactic(auto, using(crate::proofs::Known::rose_on, crate::proofs::Known::all_same_on, crate::proofs::Known::caused_on))]
    pub(crate) fn read_ahead<J: Source>(&mut self, job: &mut J) -> Result<(), Unread>
        requires known { KnowsJob self.old.sending.reader (J.state job.old) }
        ensures read { MatchResult result (λ found. KnowsJob self.new.sending.reader (J.state job.new) × IsSame (J.state job.old) (J.state job.new)) (λ e. (e ≡ Unread.Job) × Rose (J.state job.old).faults (J.state job.new).faults) }
        ensures others { JudgeStays self.old self.new }
        ensures ahead { IfOk result (λ done. (console steps : SourceState) (job_text console_text steps_text : List ℕ) →
            IsUnderWay self.old (J.state job.old) console steps job_text console_text steps_text → IsUnderWay self.new (J.state job.new) console steps job_text console_text steps_text) }
        ensures sent { IfOk result (λ done. StaysSent self.old.sending self.new.sending (J.state job.old) (J.state job.new)) }
        ensures halts { IfOk result (λ done. self.old.sending.over ≡ false → Halts self.old.sending self.new.sending) }
        ensures answered { self.new.answered ≡ self.old.answered }
    {
        match self.sending.halt(job) {
            Ok(()) => Ok(()),
            Err(_) => Err(Unread::Job),
        }
    }

    /// Nothing is left of the job, or a line has raised an alarm.
    #[tactic(auto, using(crate::proofs::Known::rose_on, crate::proofs::Known::all_same_on, crate::proofs::Known::caused_on))]
    pub(crate) fn finish<C: Source, S: Source>(
        &mut self,
        record: Option<Record>,
        console: &mut C,
        steps: &mut S,
    ) -> Result<Option<Finding>, Unread>
        requires console { KnowsConsole self.old.listening.reader (C.state console.old) }
        requires steps { KnowsSteps self.old.recorded.reader (S.state steps.old) }
        requires next { IsNext self.old «record» }
        ensures found { IfOk result (λ found. (job : SourceState) → Finishes self.old self.new job (C.state console.old) (S.state steps.old) (C.state console.new) (S.state steps.new) found) }
        ensures read { MatchResult result (λ found. KnowsConsole self.new.listening.reader (C.state console.new) × KnowsSteps self.new.recorded.reader (S.state steps.new) × IsSame (C.state console.old) (C.state console.new) × IsSame (S.state steps.old) (S.state steps.new))
            (λ e. EndFails e (C.state console.old) (S.state steps.old) (C.state console.new) (S.state steps.new)) }
        ensures sending { self.new.sending.reader ≡ self.old.sending.reader }
        ensures stands { IsLater self.old.course «record» → self.old.course.unanswered ≡ false → IsAllRead self.old.sending self.old.course.line.halts self.old.course.work.number → IfOk result (λ found. (job : SourceState) →
            ReadsOnIf [] (Looks self.old «record») self.old self.new job (C.state console.old) (S.state steps.old) job (C.state console.new) (S.state steps.new) found) }
    {
        match self.listening.ends(console) {
            Err(_) => Err(Unread::Console),
            Ok(false) => Ok(Some(self.bad_behind())),
            Ok(true) => self.finish_steps(record, steps),
        }
    }

    /// Nothing is left of the job and the console.
    #[tactic(auto, using(crate::proofs::Known::rose_on, crate::proofs::Known::all_same_on, crate::proofs::Known::caused_on))]
    fn finish_steps<S: Source>(
        &mut self,
        record: Option<Record>,
        steps: &mut S,
    ) -> Result<Option<Finding>, Unread>
        requires steps { KnowsSteps self.old.recorded.reader (S.state steps.old) }
        requires next { IsNext self.old «record» }
        ensures read { MatchResult result (λ found. KnowsSteps self.new.recorded.reader (S.state steps.new) × IsSame (S.state steps.old) (S.state steps.new)) (λ e. (e ≡ Unread.Steps) × Rose (S.state steps.old).faults (S.state steps.new).faults) }
        ensures sending { self.new.sending ≡ self.old.sending }
        ensures listening { self.new.listening ≡ self.old.listening }
        ensures found { IfOk result (λ found. FinishesSteps self.old self.new (S.state steps.old) (S.state steps.new) found) }
        ensures stands { IsLater self.old.course «record» → self.old.course.unanswered ≡ false → IsAllRead self.old.sending self.old.course.line.halts self.old.course.work.number → IfOk result (λ found. EndsSteps self.old self.new (S.state steps.old) «record» found) }
    {
        if let Some(at) = self.broken {
            return Ok(Some(Finding::Misfit(at)));
        }
        let events = self.course.events();
        if !self.may_end(record) {
            return Ok(Some(Finding::Misfit(self.recorded.at())));
        }
        self.recorded.take();
        match self.recorded.ends(steps) {
            Err(_) => Err(Unread::Steps),
            Ok(true) => Ok(Some(Finding::Fits(events))),
            Ok(false) => Ok(Some(Finding::Misfit(self.recorded.at()))),
        }
    }

    /// Whether the end comes next, and may.
    fn may_end(&mut self, record: Option<Record>) -> bool
        ensures next { IsTrue result → «record» ≡ Some kinds.End }
        ensures ends { IsTrue result → MayFit self.old self.new }
        ensures no { result ≡ false → «record» ≡ Some kinds.End → RefusesFit self.old }
        ensures course { EndStays self.old.course self.new.course }
        ensures sending { self.new.sending ≡ self.old.sending }
        ensures listening { self.new.listening ≡ self.old.listening }
        ensures recorded { self.new.recorded ≡ self.old.recorded }
    {
        match record {
            Some(Record::End) => self.ends_course(),
            _ => false,
        }
    }

    /// Whether the course may end here.
    fn ends_course(&mut self) -> bool
        ensures ends { IsTrue result → MayFit self.old self.new }
        ensures no { result ≡ false → RefusesFit self.old }
        ensures course { EndStays self.old.course self.new.course }
        ensures sending { self.new.sending ≡ self.old.sending }
        ensures listening { self.new.listening ≡ self.old.listening }
        ensures recorded { self.new.recorded ≡ self.old.recorded }
    {
        self.course.end() && self.may_fit()
    }

    /// Whether all is told that is sent of the job, up to an alarm, each line of it is audited, and there are no more cuts
    /// than bytes that may cut.
    fn may_fit(&self) -> bool
        ensures told { IsTrue result → IsAllRead self.now.sending self.now.course.line.halts self.now.course.work.number }
        ensures few { IsTrue result → self.now.course.cuts ≤ self.now.sending.cuts }
        ensures audited { IsTrue result → self.now.sending.foreign ≡ 0 }
        ensures no { result ≡ false → IsAllRead self.now.sending self.now.course.line.halts self.now.course.work.number → self.now.sending.foreign ≡ 0 → self.now.course.cuts ≤ self.now.sending.cuts → ⊥ }
    {
        self.sending
            .is_all_told(self.course.is_halted(), self.course.number())
            && self.sending.foreign().is_none()
            && u64::from(self.course.cuts()) <= self.sending.cuts()
    }

    /// Reads the job on to its end, for a line that is not audited.
    #[tactic(auto, using(crate::proofs::Known::rose_on, crate::proofs::Known::all_same_on, crate::proofs::Known::caused_on))]
    fn read_on<J: Source>(&mut self, job: &mut J) -> Result<(), Unread>
        requires known { KnowsJob self.old.sending.reader (J.state job.old) }
        ensures read { MatchResult result (λ found. KnowsJob self.new.sending.reader (J.state job.new) × IsSame (J.state job.old) (J.state job.new)) (λ e. (e ≡ Unread.Job) × Rose (J.state job.old).faults (J.state job.new).faults) }
        ensures listening { self.new.listening.reader ≡ self.old.listening.reader }
        ensures recorded { self.new.recorded.reader ≡ self.old.recorded.reader }
        ensures others { OthersStay self.old self.new }
        ensures read_on { IfOk result (λ done. (console steps : SourceState) (job_text console_text steps_text : List ℕ) →
            CanBeRead self.old (J.state job.old) console steps job_text console_text steps_text → CanBeRead self.new (J.state job.new) console steps job_text console_text steps_text) }
        ensures over { IfOk result (λ done. self.old.sending.over ≡ true → IsItem Item.Nothing self.old.sending → self.new.sending ≡ self.old.sending) }
        ensures ended { IfOk result (λ done. (console steps : SourceState) (job_text console_text steps_text : List ℕ) →
            CanBeRead self.old (J.state job.old) console steps job_text console_text steps_text → self.new.sending.over ≡ true) }
    {
        'rest: for _ in 0..33_554_432_u32 {
            if !self.read_one(job)? {
                return Ok(());
            }
        }
        Ok(())
    }

    /// Takes what comes next of the job, a line or a reset: whether something did.
    #[tactic(auto, using(crate::proofs::Known::rose_on, crate::proofs::Known::all_same_on, crate::proofs::Known::caused_on))]
    fn read_one<J: Source>(&mut self, job: &mut J) -> Result<bool, Unread>
        requires known { KnowsJob self.old.sending.reader (J.state job.old) }
        ensures read { MatchResult result (λ more. KnowsJob self.new.sending.reader (J.state job.new) × IsSame (J.state job.old) (J.state job.new)) (λ e. (e ≡ Unread.Job) × Rose (J.state job.old).faults (J.state job.new).faults) }
        ensures others { OthersStay self.old self.new }
        ensures reads { IfOk result (λ more. (console steps : SourceState) (job_text console_text steps_text : List ℕ) →
            CanBeRead self.old (J.state job.old) console steps job_text console_text steps_text → CanBeRead self.new (J.state job.new) console steps job_text console_text steps_text) }
        ensures over { IfOk result (λ more. self.old.sending.over ≡ true → IsItem Item.Nothing self.old.sending → self.new.sending ≡ self.old.sending) }
        ensures ended { IfOk result (λ more. more ≡ false → self.new.sending.over ≡ true) }
        ensures grows { IfOk result (λ more. more ≡ true → (console steps : SourceState) (job_text console_text steps_text : List ℕ) (r : CanBeRead self.old (J.state job.old) console steps job_text console_text steps_text) →
            (s : CanBeRead self.new (J.state job.new) console steps job_text console_text steps_text) × (length s.sent ≡ length r.sent + 1)) }
    {
        match self.sending.look(job) {
            Err(_) => Err(Unread::Job),
            Ok(Item::Nothing) => Ok(false),
            Ok(Item::Line) => {
                self.sending.take_line();
                Ok(true)
            }
            Ok(Item::Stop) => {
                self.sending.take_stop();
                Ok(true)
            }
        }
    }

    /// What was found, once all three texts are read.
    #[tactic(auto, using(crate::proofs::Known::rose_on, crate::proofs::Known::all_same_on, crate::proofs::Known::caused_on))]
    pub(crate) fn read_all<J: Source, C: Source, S: Source>(
        &mut self,
        found: Finding,
        job: &mut J,
        console: &mut C,
        steps: &mut S,
    ) -> Result<Finding, Unread>
        requires known { AllKnown self.old (J.state job.old) (C.state console.old) (S.state steps.old) }
        ensures known { MatchResult result (λ found. AllKnown self.new (J.state job.new) (C.state console.new) (S.state steps.new) × AllSame (J.state job.old) (C.state console.old) (S.state steps.old) (J.state job.new) (C.state console.new) (S.state steps.new))
            (λ e. IsCaused e (J.state job.old) (C.state console.old) (S.state steps.old) (J.state job.new) (C.state console.new) (S.state steps.new)) }
        ensures right { IfOk result (λ now. (job_text console_text steps_text : List ℕ) → CanBeRead self.old (J.state job.old) (C.state console.old) (S.state steps.old) job_text console_text steps_text →
            IsRight job_text console_text steps_text found → IsSaid job_text console_text steps_text now) }
        ensures finds { IfOk result (λ now. (job_text console_text steps_text : List ℕ) → CanBeRead self.old (J.state job.old) (C.state console.old) (S.state steps.old) job_text console_text steps_text →
            ((IsTooLong console_text steps_text → ⊥) → IsFound self.old job_text console_text steps_text found) → Finds job_text console_text steps_text (audit_of now)) }
    {
        self.read_job(job)?;
        self.read_texts(console, steps)?;
        Ok(self.said(found))
    }

    /// Whether an alarm is to be told next of the line at hand.
    fn tells_alarm(&self) -> bool
        ensures yes { (n : ℕ) → self.now.course.unanswered ≡ false → IsNextOf (tell (Alarm n)) self.now.course.work.left → result ≡ true }
        ensures no { self.now.course.work.left ≡ [] → result ≡ false }
        ensures is { self.now.course.unanswered ≡ false → result ≡ alarm_next self.now.course.work.left }
    {
        match self.course.next() {
            Next::Tell => matches!(self.course.reply(), Reply::Alarm(_)),
            Next::Work | Next::Nothing => false,
        }
    }

    /// Whether the last line has raised an alarm, and the console has told it.
    fn has_told_alarm(&self) -> bool
        ensures told { IsTrue result → (n : ℕ) → IsNextOf (tell (Alarm n)) self.now.course.work.left → ⊥ }
        ensures done { self.now.course.work.left ≡ [] → result ≡ (not self.now.course.unanswered && self.now.course.line.halts) }
        ensures is { result ≡ has_told_alarm self.now.course }
    {
        self.course.has_alarm() && !self.tells_alarm()
    }

    /// Reads the job to its end, unless a line has raised an alarm that was told: then it is read.
    #[tactic(auto, using(crate::proofs::Known::rose_on, crate::proofs::Known::all_same_on, crate::proofs::Known::caused_on))]
    fn read_job<J: Source>(&mut self, job: &mut J) -> Result<(), Unread>
        requires known { KnowsJob self.old.sending.reader (J.state job.old) }
        ensures read { MatchResult result (λ found. KnowsJob self.new.sending.reader (J.state job.new) × IsSame (J.state job.old) (J.state job.new)) (λ e. (e ≡ Unread.Job) × Rose (J.state job.old).faults (J.state job.new).faults) }
        ensures others { JudgeStays self.old self.new }
        ensures read_on { IfOk result (λ done. (console steps : SourceState) (job_text console_text steps_text : List ℕ) →
            CanBeRead self.old (J.state job.old) console steps job_text console_text steps_text → CanBeRead self.new (J.state job.new) console steps job_text console_text steps_text) }
        ensures told { IfOk result (λ done. has_told_alarm self.old.course ≡ true → self.new.sending ≡ self.old.sending) }
        ensures over { IfOk result (λ done. self.old.sending.over ≡ true → IsItem Item.Nothing self.old.sending → self.new.sending ≡ self.old.sending) }
        ensures last { self.new.sending.last ≡ self.old.sending.last }
        ensures ended { IfOk result (λ done. (console steps : SourceState) (job_text console_text steps_text : List ℕ) →
            CanBeRead self.old (J.state job.old) console steps job_text console_text steps_text → has_told_alarm self.old.course ≡ false → self.new.sending.over ≡ true) }
    {
        if self.has_told_alarm() {
            return Ok(());
        }
        self.read_on(job)
    }

    /// Reads the console and the steps to their ends.
    #[tactic(auto, using(crate::proofs::Known::rose_on, crate::proofs::Known::all_same_on, crate::proofs::Known::caused_on))]
    fn read_texts<C: Source, S: Source>(
        &mut self,
        console: &mut C,
        steps: &mut S,
    ) -> Result<(), Unread>
        requires console { KnowsConsole self.old.listening.reader (C.state console.old) }
        requires steps { KnowsSteps self.old.recorded.reader (S.state steps.old) }
        ensures read { MatchResult result (λ done. KnowsConsole self.new.listening.reader (C.state console.new) × KnowsSteps self.new.recorded.reader (S.state steps.new) × IsSame (C.state console.old) (C.state console.new) × IsSame (S.state steps.old) (S.state steps.new))
            (λ e. EndFails e (C.state console.old) (S.state steps.old) (C.state console.new) (S.state steps.new)) }
        ensures sending { self.new.sending ≡ self.old.sending }
        ensures course { self.new.course ≡ self.old.course }
        ensures over { IfOk result (λ done. IsRead self.new.listening.reader.window self.new.listening.reader.place × IsRead self.new.recorded.reader.window self.new.recorded.reader.place) }
        ensures read_on { IfOk result (λ done. (job : SourceState) (job_text console_text steps_text : List ℕ) →
            CanBeRead self.old job (C.state console.old) (S.state steps.old) job_text console_text steps_text → CanBeRead self.new job (C.state console.new) (S.state steps.new) job_text console_text steps_text) }
    {
        if self.listening.ends(console).is_err() {
            return Err(Unread::Console);
        }
        if self.recorded.take_rest(steps).is_err() {
            return Err(Unread::Steps);
        }
        Ok(())
    }

    /// What is said where this was found, of texts that are read to their ends.
    fn said(&self, found: Finding) -> Finding
        ensures right { (job console steps : SourceState) (job_text console_text steps_text : List ℕ) → CanBeRead self.now job console steps job_text console_text steps_text →
            KnowsConsole self.now.listening.reader console → KnowsSteps self.now.recorded.reader steps →
            IsRead self.now.listening.reader.window self.now.listening.reader.place → IsRead self.now.recorded.reader.window self.now.recorded.reader.place →
            IsRight job_text console_text steps_text found → IsSaid job_text console_text steps_text result }
        ensures finds { (job console steps : SourceState) (job_text console_text steps_text : List ℕ) → CanBeRead self.now job console steps job_text console_text steps_text →
            KnowsConsole self.now.listening.reader console → KnowsSteps self.now.recorded.reader steps →
            IsRead self.now.listening.reader.window self.now.listening.reader.place → IsRead self.now.recorded.reader.window self.now.recorded.reader.place →
            (has_told_alarm self.now.course ≡ false → self.now.sending.over ≡ true) → ((IsTooLong console_text steps_text → ⊥) → IsFound self.now job_text console_text steps_text found) → Finds job_text console_text steps_text (audit_of result) }
    {
        if self.listening.is_too_long() {
            return Finding::TooLong;
        }
        if self.recorded.is_too_long() {
            return Finding::TooLong;
        }
        match self.sending.foreign() {
            Some(line) => Finding::Foreign(line),
            None => found,
        }
    }
}
