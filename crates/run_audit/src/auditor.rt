//! The audit of three texts, in step.

ghost use Rattle.std.specs.Prelude.{◌≡◌, ◌<◌, ◌+◌, ◌-◌, ◌^◌, ◌&&◌, [], ℕ, List, Option, Some, None, MatchResult, IfOk, IsTrue, false, true, not};
ghost use Rattle.outside.specs.Causes.{Rose, SourceState};
ghost use Rattle.status_report.specs.Answering.{is_answer};
ghost use Rattle.status_report.specs.declared.Reply.{Reply as AnyReply};
ghost use Rattle.run_rules.specs.Work.Task.{tell};
ghost use Rattle.line_interpreter.specs.Lefts.{IsNextOf};
ghost use Rattle.step_line.specs.declared.Mark.TheVariants.{Cut as CutMark};
ghost use Rattle.step_line.specs.declared.Record.TheVariants as kinds;
ghost use Rattle.step_line.specs.declared.Record.{Record as AnyRecord};
ghost use Rattle.run_texts.specs.Parts.{is_ending};
ghost use Rattle.audit_course.specs.SoFar.{begins_epoch};
ghost use Rattle.run_audit.specs.Coming.{IsResetTold, Owes, FitsError};
ghost use Rattle.audit_texts.specs.Reading.{KnowsJob, KnowsConsole, KnowsSteps, IsSame};
ghost use Rattle.run_audit.specs.Going.{AllKnown, AllSame, IsCaused};
ghost use Rattle.audit_texts.specs.SoFar.{StepsSoFar, IsItem, looked_for};
ghost use Rattle.audit_rules.specs.Findings.{Finds};
ghost use Rattle.run_audit.specs.OnWay.{IsErrorBy, IsLater, IsUnowed, TellsNoReset};
ghost use Rattle.run_audit.specs.Finding.{LeadsOnIf, Looks, LooksAndHears, LooksOn, audit_of, is_greeting};
ghost use Rattle.run_audit.specs.UnderWay.{IsOpened, IsNext, GoesOn, IsSaid};

use audit_course::{CourseJudge, MotionError, Next};
use audit_texts::{Item, Listening, Recorded, Sending};
use outside::Source;
use status_report::{Message, Reply};
use step_line::{Mark, Record};

/// A text that could not be read.
#[derive(Clone, Copy, Debug, PartialEq, Eq)]
pub(crate) enum Unread {
    Job,
    Console,
    Steps,
}

/// What is found of three texts.
#[derive(Clone, Copy)]
pub(crate) enum Finding {
    /// They fit, with so many events.
    Fits(u64),
    /// At this byte of the steps stands the first record that breaks a rule.
    Misfit(u64),
    /// The reply to this line is bad, or missing.
    BadReplies(u32),
    /// This line is not audited.
    Foreign(u32),
    /// The console or the steps are too long.
    TooLong,
}

/// Goes through three texts.
#[derive(Drop)]
pub(crate) struct Auditor {
    pub(crate) course: CourseJudge,
    pub(crate) sending: Sending,
    pub(crate) listening: Listening,
    pub(crate) recorded: Recorded,
    /// Where the first record stands that breaks a rule. No record counts behind it.
    pub(crate) broken: Option<u64>,
    /// The last line that was answered.
    pub(crate) answered: u32,
}

/// Whether a record ends a part.
pub(crate) fn is_ending(record: &Record) -> bool
    ensures { result ≡ is_ending «record».now }
{
    matches!(
        record,
        Record::End | Record::Mark(Mark::Cut(_)) | Record::Mark(Mark::Reset(_))
    )
}

/// Whether a reply is told at a reset, and belongs to no line.
fn is_greeting(reply: &Reply) -> bool
    ensures { result ≡ is_greeting «reply».now }
{
    matches!(
        reply,
        Reply::Banner | Reply::Alarm(3) | Reply::Message(Message::Locked)
    )
}

/// Whether a reply answers a line.
fn is_answer(reply: &Reply) -> bool
    ensures { result ≡ is_answer «reply».now }
{
    matches!(reply, Reply::Ok | Reply::Error(_))
}

/// Whether the reply that is known before it is told is told at a reset.
#[tactic(auto, using(crate::proofs::LookedFor::reset_told_by, crate::proofs::LookedFor::no_reset_told))]
fn tells_reset(known: Option<Reply>) -> bool
    ensures yes { IsTrue result → (told : List AnyReply) → known ≡ looked_for told → IsResetTold known told }
    ensures no { result ≡ false → (told : List AnyReply) → known ≡ looked_for told → begins_epoch told ≡ false }
{
    matches!(known, Some(Reply::Alarm(_) | Reply::Banner))
}

/// The error of the motion that a line has, by the reply that is known before it is told.
fn error_of(known: Option<Reply>) -> MotionError
    ensures { (told : List AnyReply) → known ≡ looked_for told → begins_epoch told ≡ false → FitsError result told }
{
    match known {
        Some(Reply::Error(8)) => MotionError::Busy,
        Some(Reply::Error(9)) => MotionError::Locked,
        _ => MotionError::None,
    }
}

impl Auditor {
    pub(crate) fn new(recorded: Recorded) -> Auditor
        ensures job { (s : SourceState) → KnowsJob result.sending.reader s }
        ensures console { (s : SourceState) → KnowsConsole result.listening.reader s }
        ensures steps { result.recorded ≡ recorded }
        ensures opens { (job console steps : SourceState) (job_text console_text steps_text : List ℕ) → job.left ≡ Some job_text → console.left ≡ Some console_text → StepsSoFar recorded steps steps_text [] →
            IsOpened result job console steps job_text console_text steps_text }
    {
        Auditor {
            course: CourseJudge::new(),
            sending: Sending::new(),
            listening: Listening::new(),
            recorded,
            broken: None,
            answered: 0,
        }
    }

    /// The record that comes next breaks a rule.
    pub(crate) fn break_off(&mut self)
        ensures sending { self.new.sending ≡ self.old.sending }
        ensures listening { self.new.listening ≡ self.old.listening }
        ensures recorded { self.new.recorded ≡ self.old.recorded }
        ensures broken { self.new.broken ≡ None → ⊥ }
        ensures at { self.old.broken ≡ None → self.new.broken ≡ Some self.old.recorded.at }
        ensures others { (self.new.course ≡ self.old.course) × (self.new.answered ≡ self.old.answered) }
    {
        if self.broken.is_none() {
            self.broken = Some(self.recorded.at());
        }
    }

    /// What belongs to no line is bad behind the last line that was answered.
    pub(crate) fn bad_behind(&self) -> Finding
        ensures bad { (line : ℕ) × (result ≡ Finding.BadReplies line) }
        ensures line { self.now.answered < 2 ^ 32 - 1 → result ≡ Finding.BadReplies (self.now.answered + 1) }
    {
        Finding::BadReplies(self.answered.saturating_add(1))
    }

    /// The record that comes next, if records count.
    #[tactic(auto, using(crate::proofs::Known::rose_on, crate::proofs::Known::all_same_on, crate::proofs::Known::caused_on))]
    fn look<S: Source>(&mut self, steps: &mut S) -> Result<Option<Record>, Unread>
        requires known { KnowsSteps self.old.recorded.reader (S.state steps.old) }
        ensures read { MatchResult result (λ found. KnowsSteps self.new.recorded.reader (S.state steps.new) × IsSame (S.state steps.old) (S.state steps.new)) (λ e. (e ≡ Unread.Steps) × Rose (S.state steps.old).faults (S.state steps.new).faults) }
        ensures listening { self.new.listening.reader ≡ self.old.listening.reader }
        ensures sending { self.new.sending.reader ≡ self.old.sending.reader }
        ensures next { IfOk result (λ found. IsNext self.new found) }
        ensures so_far { IfOk result (λ found. (job console : SourceState) → GoesOn self.old self.new job console (S.state steps.old) job console (S.state steps.new) None) }
        ensures stands { IfOk result (λ found. LooksOn self.old self.new (S.state steps.old) (S.state steps.new) found) }
    {
        if self.broken.is_some() {
            return Ok(None);
        }
        match self.recorded.look(steps) {
            Err(_) => Err(Unread::Steps),
            Ok(Some(record)) => Ok(Some(record)),
            Ok(None) => {
                self.break_off();
                Ok(None)
            }
        }
    }

    /// Takes the record that comes next, if it is one of those that are owed.
    fn takes(&mut self, record: &Record) -> bool
        requires next { self.old.recorded.next ≡ Some «record».now }
        ensures sending { self.new.sending.reader ≡ self.old.sending.reader }
        ensures listening { self.new.listening.reader ≡ self.old.listening.reader }
        ensures recorded { self.new.recorded.reader ≡ self.old.recorded.reader }
        ensures same { result ≡ false → self.new ≡ self.old }
        ensures leaves { result ≡ false → Owes self.old.course → is_ending «record».now ≡ true }
        ensures so_far { (job console steps : SourceState) → GoesOn self.old self.new job console steps job console steps None }
        ensures stands { IsTrue result → (job console steps : SourceState) → LeadsOnIf (Looks self.old (Some «record».now)) self.old self.new job console steps job console steps None }
    {
        if !self.course.owes() || is_ending(record) {
            return false;
        }
        if self.course.take(record) {
            self.recorded.take();
        } else {
            self.break_off();
        }
        true
    }

    /// Where this reply of a line, or of none, is told, there stands another one, or none.
    fn bad_reply(&self, reply: &Reply, line: u32) -> Finding
        ensures bad { (at : ℕ) × (result ≡ Finding.BadReplies at) }
        ensures line { is_greeting «reply».now ≡ false → result ≡ Finding.BadReplies line }
        ensures behind { is_greeting «reply».now ≡ true → self.now.answered < 2 ^ 32 - 1 → result ≡ Finding.BadReplies (self.now.answered + 1) }
    {
        if is_greeting(reply) {
            return self.bad_behind();
        }
        Finding::BadReplies(line)
    }

    /// The reply of the line at hand that comes next.
    #[tactic(auto, using(crate::proofs::Known::rose_on, crate::proofs::Known::all_same_on, crate::proofs::Known::caused_on))]
    fn hear<C: Source>(&mut self, console: &mut C) -> Result<Option<Finding>, Unread>
        requires some { (r : AnyReply) × IsNextOf (tell r) self.old.course.work.left }
        requires answered { self.old.course.unanswered ≡ false }
        requires known { KnowsConsole self.old.listening.reader (C.state console.old) }
        ensures read { MatchResult result (λ found. KnowsConsole self.new.listening.reader (C.state console.new) × IsSame (C.state console.old) (C.state console.new)) (λ e. (e ≡ Unread.Console) × Rose (C.state console.old).faults (C.state console.new).faults) }
        ensures recorded { self.new.recorded.reader ≡ self.old.recorded.reader }
        ensures sending { self.new.sending.reader ≡ self.old.sending.reader }
        ensures goes_on { IfOk result (λ found. (job steps : SourceState) → GoesOn self.old self.new job (C.state console.old) steps job (C.state console.new) steps found) }
        ensures stands { IfOk result (λ found. (job steps : SourceState) → LeadsOnIf (λ jt ct st sent replies records. Unit {0}) self.old self.new job (C.state console.old) steps job (C.state console.new) steps found) }
    {
        let reply = self.course.reply();
        let line = self.course.number().saturating_sub(1);
        match self.listening.hears(&reply, console) {
            Err(_) => Err(Unread::Console),
            Ok(true) => {
                self.course.told();
                if is_answer(&reply) {
                    self.answered = line;
                }
                Ok(None)
            }
            Ok(false) => Ok(Some(self.bad_reply(&reply, line))),
        }
    }

    /// One step. It answers what was found, once something is.
    #[tactic(auto, using(crate::proofs::Known::rose_on, crate::proofs::Known::all_same_on, crate::proofs::Known::caused_on))]
    fn step<J: Source, C: Source, S: Source>(
        &mut self,
        job: &mut J,
        console: &mut C,
        steps: &mut S,
    ) -> Result<Option<Finding>, Unread>
        requires known { AllKnown self.old (J.state job.old) (C.state console.old) (S.state steps.old) }
        ensures known { MatchResult result (λ found. AllKnown self.new (J.state job.new) (C.state console.new) (S.state steps.new) × AllSame (J.state job.old) (C.state console.old) (S.state steps.old) (J.state job.new) (C.state console.new) (S.state steps.new))
            (λ e. IsCaused e (J.state job.old) (C.state console.old) (S.state steps.old) (J.state job.new) (C.state console.new) (S.state steps.new)) }
        ensures goes_on { IfOk result (λ found. GoesOn self.old self.new (J.state job.old) (C.state console.old) (S.state steps.old) (J.state job.new) (C.state console.new) (S.state steps.new) found) }
        ensures stands { IfOk result (λ found. LeadsOnIf (λ jt ct st sent replies records. Unit {0}) self.old self.new (J.state job.old) (C.state console.old) (S.state steps.old) (J.state job.new) (C.state console.new) (S.state steps.new) found) }
    {
        let record = self.look(steps)?;
        if self.takes_next(&record) {
            return Ok(None);
        }
        self.work(record, job, console, steps)
    }

    /// Takes the record that comes next, if records count and it is one of those that are owed.
    fn takes_next(&mut self, record: &Option<Record>) -> bool
        requires next { IsNext self.old «record».now }
        ensures sending { self.new.sending.reader ≡ self.old.sending.reader }
        ensures listening { self.new.listening.reader ≡ self.old.listening.reader }
        ensures recorded { self.new.recorded.reader ≡ self.old.recorded.reader }
        ensures same { result ≡ false → self.new ≡ self.old }
        ensures so_far { (job console steps : SourceState) → GoesOn self.old self.new job console steps job console steps None }
        ensures stands { IsTrue result → (job console steps : SourceState) → LeadsOnIf (Looks self.old «record».now) self.old self.new job console steps job console steps None }
        ensures owes { result ≡ false → IsUnowed self.old.course «record».now }
    {
        match record {
            Some(record) => self.takes(record),
            None => false,
        }
    }

    /// Goes on with the line at hand, where no record is taken.
    #[tactic(auto, using(crate::proofs::Known::rose_on, crate::proofs::Known::all_same_on, crate::proofs::Known::caused_on))]
    fn work<J: Source, C: Source, S: Source>(
        &mut self,
        record: Option<Record>,
        job: &mut J,
        console: &mut C,
        steps: &mut S,
    ) -> Result<Option<Finding>, Unread>
        requires known { AllKnown self.old (J.state job.old) (C.state console.old) (S.state steps.old) }
        requires next { IsNext self.old «record» }
        ensures known { MatchResult result (λ found. AllKnown self.new (J.state job.new) (C.state console.new) (S.state steps.new) × AllSame (J.state job.old) (C.state console.old) (S.state steps.old) (J.state job.new) (C.state console.new) (S.state steps.new))
            (λ e. IsCaused e (J.state job.old) (C.state console.old) (S.state steps.old) (J.state job.new) (C.state console.new) (S.state steps.new)) }
        ensures goes_on { IfOk result (λ found. GoesOn self.old self.new (J.state job.old) (C.state console.old) (S.state steps.old) (J.state job.new) (C.state console.new) (S.state steps.new) found) }
        ensures stands { IsUnowed self.old.course «record» → IfOk result (λ found. LeadsOnIf (Looks self.old «record») self.old self.new (J.state job.old) (C.state console.old) (S.state steps.old) (J.state job.new) (C.state console.new) (S.state steps.new) found) }
    {
        match self.course.next() {
            Next::Tell => self.hear(console),
            Next::Work => {
                self.course.work_on();
                Ok(None)
            }
            Next::Nothing => self.next_item(record, job, console, steps),
        }
    }

    /// The line at hand is done: a cut comes, or the mark of an earlier reset, which breaks a rule; else what comes next is entered.
    #[tactic(auto, using(crate::proofs::Known::rose_on, crate::proofs::Known::all_same_on, crate::proofs::Known::caused_on))]
    fn next_item<J: Source, C: Source, S: Source>(
        &mut self,
        record: Option<Record>,
        job: &mut J,
        console: &mut C,
        steps: &mut S,
    ) -> Result<Option<Finding>, Unread>
        requires known { AllKnown self.old (J.state job.old) (C.state console.old) (S.state steps.old) }
        requires next { IsNext self.old «record» }
        ensures known { MatchResult result (λ found. AllKnown self.new (J.state job.new) (C.state console.new) (S.state steps.new) × AllSame (J.state job.old) (C.state console.old) (S.state steps.old) (J.state job.new) (C.state console.new) (S.state steps.new))
            (λ e. IsCaused e (J.state job.old) (C.state console.old) (S.state steps.old) (J.state job.new) (C.state console.new) (S.state steps.new)) }
        ensures goes_on { IfOk result (λ found. GoesOn self.old self.new (J.state job.old) (C.state console.old) (S.state steps.old) (J.state job.new) (C.state console.new) (S.state steps.new) found) }
        ensures stands { IsUnowed self.old.course «record» → self.old.course.work.left ≡ [] → IfOk result (λ found. LeadsOnIf (Looks self.old «record») self.old self.new (J.state job.old) (C.state console.old) (S.state steps.old) (J.state job.new) (C.state console.new) (S.state steps.new) found) }
    {
        let number = self.course.number();
        match record {
            Some(Record::Mark(Mark::Cut(k))) if k < number => {
                self.cut(k);
                Ok(None)
            }
            Some(Record::Mark(Mark::Reset(k))) if k.saturating_add(1) < number => {
                self.break_off();
                Ok(None)
            }
            _ => self.enter(record, job, console, steps),
        }
    }

    /// The mark of a cut comes next.
    fn cut(&mut self, k: u32)
        requires next { self.old.recorded.next ≡ Some (kinds.Mark (CutMark k)) }
        ensures so_far { (job console steps : SourceState) → GoesOn self.old self.new job console steps job console steps None }
        ensures sending { self.new.sending.reader ≡ self.old.sending.reader }
        ensures listening { self.new.listening.reader ≡ self.old.listening.reader }
        ensures recorded { self.new.recorded.reader ≡ self.old.recorded.reader }
        ensures stands { IsUnowed self.old.course (Some (kinds.Mark (CutMark k))) → self.old.course.work.left ≡ [] → k < self.old.course.work.number → (job console steps : SourceState) → LeadsOnIf (Looks self.old (Some (kinds.Mark (CutMark k)))) self.old self.new job console steps job console steps None }
    {
        if self.course.cut(k) {
            self.recorded.take();
            return;
        }
        self.break_off();
    }

    /// The next line is begun, a reset comes, or nothing is left of the job.
    #[tactic(auto, using(crate::proofs::Known::rose_on, crate::proofs::Known::all_same_on, crate::proofs::Known::caused_on))]
    fn enter<J: Source, C: Source, S: Source>(
        &mut self,
        record: Option<Record>,
        job: &mut J,
        console: &mut C,
        steps: &mut S,
    ) -> Result<Option<Finding>, Unread>
        requires known { AllKnown self.old (J.state job.old) (C.state console.old) (S.state steps.old) }
        requires next { IsNext self.old «record» }
        ensures known { MatchResult result (λ found. AllKnown self.new (J.state job.new) (C.state console.new) (S.state steps.new) × AllSame (J.state job.old) (C.state console.old) (S.state steps.old) (J.state job.new) (C.state console.new) (S.state steps.new))
            (λ e. IsCaused e (J.state job.old) (C.state console.old) (S.state steps.old) (J.state job.new) (C.state console.new) (S.state steps.new)) }
        ensures goes_on { IfOk result (λ found. GoesOn self.old self.new (J.state job.old) (C.state console.old) (S.state steps.old) (J.state job.new) (C.state console.new) (S.state steps.new) found) }
        ensures stands { IsLater self.old.course «record» → IfOk result (λ found. LeadsOnIf (Looks self.old «record») self.old self.new (J.state job.old) (C.state console.old) (S.state steps.old) (J.state job.new) (C.state console.new) (S.state steps.new) found) }
    {
        if self.course.has_alarm() {
            return self.end_by_alarm(record, job, console, steps);
        }
        let known = match self.listening.look(console) {
            Err(_) => return Err(Unread::Console),
            Ok(known) => known,
        };
        if tells_reset(known) {
            return self.reset(record, job);
        }
        self.enter_line(error_of(known), record, job, console, steps)
    }

    /// The next line is begun, or nothing is left of the job.
    #[tactic(auto, using(crate::proofs::Known::rose_on, crate::proofs::Known::all_same_on, crate::proofs::Known::caused_on))]
    fn enter_line<J: Source, C: Source, S: Source>(
        &mut self,
        error: MotionError,
        record: Option<Record>,
        job: &mut J,
        console: &mut C,
        steps: &mut S,
    ) -> Result<Option<Finding>, Unread>
        requires known { AllKnown self.old (J.state job.old) (C.state console.old) (S.state steps.old) }
        requires next { IsNext self.old «record» }
        ensures known { MatchResult result (λ found. AllKnown self.new (J.state job.new) (C.state console.new) (S.state steps.new) × AllSame (J.state job.old) (C.state console.old) (S.state steps.old) (J.state job.new) (C.state console.new) (S.state steps.new))
            (λ e. IsCaused e (J.state job.old) (C.state console.old) (S.state steps.old) (J.state job.new) (C.state console.new) (S.state steps.new)) }
        ensures goes_on { IfOk result (λ found. GoesOn self.old self.new (J.state job.old) (C.state console.old) (S.state steps.old) (J.state job.new) (C.state console.new) (S.state steps.new) found) }
        ensures stands { IsLater self.old.course «record» → (not self.old.course.unanswered && self.old.course.line.halts) ≡ false → TellsNoReset self.old.listening.known → IsErrorBy error self.old.listening.known → IfOk result (λ found. LeadsOnIf (LooksAndHears self.old «record» self.old.listening.known) self.old self.new (J.state job.old) (C.state console.old) (S.state steps.old) (J.state job.new) (C.state console.new) (S.state steps.new) found) }
    {
        match self.sending.look(job) {
            Err(_) => Err(Unread::Job),
            Ok(Item::Stop) => Ok(Some(self.bad_behind())),
            Ok(Item::Nothing) => self.finish(record, console, steps),
            Ok(Item::Line) => Ok(self.begin(error)),
        }
    }

    /// The last line has raised an alarm. Of the job behind it holds alone count.
    #[tactic(auto, using(crate::proofs::Known::rose_on, crate::proofs::Known::all_same_on, crate::proofs::Known::caused_on))]
    fn end_by_alarm<J: Source, C: Source, S: Source>(
        &mut self,
        record: Option<Record>,
        job: &mut J,
        console: &mut C,
        steps: &mut S,
    ) -> Result<Option<Finding>, Unread>
        requires known { AllKnown self.old (J.state job.old) (C.state console.old) (S.state steps.old) }
        requires next { IsNext self.old «record» }
        ensures known { MatchResult result (λ found. AllKnown self.new (J.state job.new) (C.state console.new) (S.state steps.new) × AllSame (J.state job.old) (C.state console.old) (S.state steps.old) (J.state job.new) (C.state console.new) (S.state steps.new))
            (λ e. IsCaused e (J.state job.old) (C.state console.old) (S.state steps.old) (J.state job.new) (C.state console.new) (S.state steps.new)) }
        ensures goes_on { IfOk result (λ found. GoesOn self.old self.new (J.state job.old) (C.state console.old) (S.state steps.old) (J.state job.new) (C.state console.new) (S.state steps.new) found) }
        ensures stands { IsLater self.old.course «record» → (not self.old.course.unanswered && self.old.course.line.halts) ≡ true → IfOk result (λ found. LeadsOnIf (Looks self.old «record») self.old self.new (J.state job.old) (C.state console.old) (S.state steps.old) (J.state job.new) (C.state console.new) (S.state steps.new) found) }
    {
        self.read_ahead(job)?;
        self.finish(record, console, steps)
    }

    /// The line that waits is begun.
    fn begin(&mut self, error: MotionError) -> Option<Finding>
        requires line { IsItem Item.Line self.old.sending }
        ensures goes_on { (job console steps : SourceState) → GoesOn self.old self.new job console steps job console steps result }
        ensures sending { self.new.sending.reader ≡ self.old.sending.reader }
        ensures listening { self.new.listening.reader ≡ self.old.listening.reader }
        ensures recorded { self.new.recorded.reader ≡ self.old.recorded.reader }
        ensures stands { (next : Option AnyRecord) → IsLater self.old.course next → (not self.old.course.unanswered && self.old.course.line.halts) ≡ false → TellsNoReset self.old.listening.known → IsErrorBy error self.old.listening.known → (job console steps : SourceState) → LeadsOnIf (LooksAndHears self.old next self.old.listening.known) self.old self.new job console steps job console steps result }
    {
        let line = self.sending.kept();
        self.sending.take_line();
        if self.course.begin(&line, error) {
            return None;
        }
        Some(self.bad_behind())
    }

    /// Goes through all three texts.
    #[tactic(auto, using(crate::proofs::Known::rose_on, crate::proofs::Known::all_same_on, crate::proofs::Known::caused_on))]
    pub(crate) fn run<J: Source, C: Source, S: Source>(
        &mut self,
        job: &mut J,
        console: &mut C,
        steps: &mut S,
    ) -> Result<Finding, Unread>
        requires known { AllKnown self.old (J.state job.old) (C.state console.old) (S.state steps.old) }
        ensures known { MatchResult result (λ found. AllKnown self.new (J.state job.new) (C.state console.new) (S.state steps.new) × AllSame (J.state job.old) (C.state console.old) (S.state steps.old) (J.state job.new) (C.state console.new) (S.state steps.new))
            (λ e. IsCaused e (J.state job.old) (C.state console.old) (S.state steps.old) (J.state job.new) (C.state console.new) (S.state steps.new)) }
        ensures right { IfOk result (λ found. (job_text console_text steps_text : List ℕ) → IsOpened self.old (J.state job.old) (C.state console.old) (S.state steps.old) job_text console_text steps_text →
            IsSaid job_text console_text steps_text found) }
        ensures finds { IfOk result (λ found. (job_text console_text steps_text : List ℕ) → IsOpened self.old (J.state job.old) (C.state console.old) (S.state steps.old) job_text console_text steps_text → Finds job_text console_text steps_text (audit_of found)) }
    {
        match self.listening.begins(console) {
            Err(_) => return Err(Unread::Console),
            Ok(false) => return self.read_all(Finding::BadReplies(1), job, console, steps),
            Ok(true) => {}
        }
        'texts: for _ in 0..u64::MAX {
            if let Some(found) = self.step(job, console, steps)? {
                return self.read_all(found, job, console, steps);
            }
        }
        let at = self.recorded.at();
        self.read_all(Finding::Misfit(at), job, console, steps)
    }
}
