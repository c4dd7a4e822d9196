//! The records of steps, one by one.

ghost use Rattle.std.specs.Prelude.{◌≡◌, ◌↔◌, ◌≤◌, ◌∷◌, ◌++◌, [], ℕ, List, Some, None, true, MatchResult, IfOk, IfSome, IsTrue};
ghost use Rattle.outside.specs.Causes.{Rose, SourceState};
ghost use Rattle.step_line.specs.declared.Record.{Record as AnyRecord};
ghost use Rattle.audit_texts.specs.Reading.{KnowsSteps, IsSame};
ghost use Rattle.audit_texts.specs.SoFar.{StepsSoFar, StaysRecorded, StandsNow, IsPlaceBehind, KeepsLine, IsRead, IsReadOn, EndsSteps, FindsRecord, StepsGoOn};
ghost use Rattle.audit_readers.specs.Windows.{too_long};

use crate::listening::TOO_LONG;
use audit_readers::StepReader;
use outside::{Failed, Source};
use step_line::Record;
use step_record::Line;

/// A step text, record by record.
#[derive(Drop)]
pub struct Recorded {
    reader: StepReader,
    /// The record that comes next, how often, and where its line begins.
    next: Option<Record>,
    count: u32,
    at: u64,
}

impl Recorded {
    /// Reads the form.
    pub fn open<S: Source>(source: &mut S) -> Result<Recorded, Failed>
        ensures known { MatchResult result (λ r. KnowsSteps r.reader (S.state source.new) × IsSame (S.state source.old) (S.state source.new)) (λ e. Rose (S.state source.old).faults (S.state source.new).faults) }
        ensures opens { IfOk result (λ r. (text : List ℕ) → (S.state source.old).left ≡ Some text → StepsSoFar r (S.state source.new) text []) }
    {
        let reader = StepReader::open(source)?;
        let at = reader.place();
        Ok(Recorded {
            reader,
            next: None,
            count: 0,
            at,
        })
    }

    /// The record that comes next, if a line stands there that may.
    pub fn look<S: Source>(&mut self, source: &mut S) -> Result<Option<Record>, Failed>
        requires known { KnowsSteps self.old.reader (S.state source.old) }
        ensures known { MatchResult result (λ answer. KnowsSteps self.new.reader (S.state source.new) × IsSame (S.state source.old) (S.state source.new)) (λ e. Rose (S.state source.old).faults (S.state source.new).faults) }
        ensures next { IfOk result (λ found. found ≡ self.new.next) }
        ensures so_far { IfOk result (λ found. StaysRecorded self.old self.new (S.state source.old) (S.state source.new)) }
        ensures found { IfOk result (λ found. FindsRecord found self.old (S.state source.old)) }
        ensures stands { IfOk result (λ found. StandsNow found self.old self.new (S.state source.old)) }
    {
        if self.next.is_some() {
            return Ok(self.next);
        }
        self.at = self.reader.place();
        if self.at >= TOO_LONG {
            return Ok(None);
        }
        let line = self.reader.next(source)?;
        self.keep(line);
        Ok(self.next)
    }

    /// A line was read.
    fn keep(&mut self, line: Option<Line>)
        ensures reader { self.new.reader ≡ self.old.reader }
        ensures at { self.new.at ≡ self.old.at }
        ensures kept { IfSome line (λ l. KeepsLine self.new l) }
        ensures none { line ≡ None → self.new ≡ self.old }
    {
        match line {
            Some(Line::One(record)) => {
                self.next = Some(record);
                self.count = 1;
            }
            Some(Line::Run(count, bits)) => {
                self.next = Some(Record::Event(bits));
                self.count = count;
            }
            _ => {}
        }
    }

    /// The record is taken.
    pub fn take(&mut self)
        ensures reader { self.new.reader ≡ self.old.reader }
        ensures told { (r : AnyRecord) → self.old.next ≡ Some r → (source : SourceState) (text : List ℕ) (told : List AnyRecord) → StepsSoFar self.old source text told → StepsSoFar self.new source text (told ++ r ∷ []) }
    {
        self.count = self.count.saturating_sub(1);
        if self.count == 0 {
            self.next = None;
        }
    }

    /// Where the line begins that comes next.
    pub fn at(&self) -> u64
        ensures { result ≡ self.now.at }
    {
        self.at
    }

    /// Whether the text is at its end.
    pub fn ends<S: Source>(&mut self, source: &mut S) -> Result<bool, Failed>
        requires known { KnowsSteps self.old.reader (S.state source.old) }
        ensures known { MatchResult result (λ answer. KnowsSteps self.new.reader (S.state source.new) × IsSame (S.state source.old) (S.state source.new)) (λ e. Rose (S.state source.old).faults (S.state source.new).faults) }
        ensures ends { IfOk result (λ over. EndsSteps over self.old self.new (S.state source.old) (S.state source.new)) }
        ensures no { IfOk result (λ over. StepsGoOn over self.old (S.state source.old)) }
        ensures place { IfOk result (λ over. IsPlaceBehind self.old self.new (S.state source.old)) }
    {
        self.at = self.reader.place();
        let is_at_end = self.reader.is_at_end(source)?;
        Ok(is_at_end && self.next.is_none())
    }

    /// Takes all that follows.
    pub fn take_rest<S: Source>(&mut self, source: &mut S) -> Result<(), Failed>
        requires known { KnowsSteps self.old.reader (S.state source.old) }
        ensures known { MatchResult result (λ answer. KnowsSteps self.new.reader (S.state source.new) × IsSame (S.state source.old) (S.state source.new)) (λ e. Rose (S.state source.old).faults (S.state source.new).faults) }
        ensures read { IfOk result (λ done. IsReadOn self.old.reader.window self.new.reader.window (S.state source.old) (S.state source.new) self.old.reader.place self.new.reader.place) }
        ensures over { IfOk result (λ done. IsRead self.new.reader.window self.new.reader.place) }
    {
        if self.reader.place() >= TOO_LONG {
            return Ok(());
        }
        self.reader.take_rest(source)?;
        Ok(())
    }

    /// Whether the text is too long.
    pub fn is_too_long(&self) -> bool
        ensures { IsTrue result ↔ (too_long ≤ self.now.reader.place) }
    {
        self.reader.place() >= TOO_LONG
    }
}
