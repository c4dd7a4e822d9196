//! What comes to a board of a job, in order.

ghost use Rattle.std.specs.Prelude.{◌≡◌, ◌+◌, ◌≤◌, ◌<◌, ◌∷◌, ◌++◌, [], ℕ, List, Some, None, true, false, MatchResult, IfOk, IfSome, IsTrue};
ghost use Rattle.outside.specs.Causes.{Rose, SourceState};
ghost use Rattle.line_interpreter.specs.Keeping.{IsKept};
ghost use Rattle.run_texts.specs.Sent.{Sent};
ghost use Rattle.run_texts.specs.Sent.Sent.{a_text, a_stop};
ghost use Rattle.audit_texts.specs.Reading.{KnowsJob, IsSame};
ghost use Rattle.audit_texts.specs.SoFar.{JobSoFar, Counts, Halts, IsItem, IsAllRead, StaysSent, untold_of};
ghost use Rattle.audit_rules.specs.Scanned.{scanned};
ghost use Rattle.audit_texts.specs.Audited.{IsFirstForeign};

use audit_readers::{JobReader, is_foreign};
use line_interpreter::KeptLine;
use outside::{Failed, Source};

/// What comes next of a job.
#[derive(Clone, Copy, PartialEq, Eq)]
pub enum Item {
    /// A line.
    Line,
    /// A reset.
    Stop,
    Nothing,
}

/// The job, line by line, each behind its resets.
#[derive(Drop)]
pub struct Sending {
    reader: JobReader,
    stops: u32,
    /// A line was read that is not taken.
    waits: bool,
    /// No line is read any more.
    over: bool,
    lines: u32,
    cuts: u64,
    /// The first line that is not audited; 0 if none was read.
    foreign: u32,
    /// The line that has raised an alarm, if one has. No line behind it is read, and holds alone may cut there.
    last: Option<u32>,
}

impl Sending {
    pub fn new() -> Sending
        ensures known { (s : SourceState) → KnowsJob result.reader s }
        ensures opens { (source : SourceState) (text : List ℕ) → source.left ≡ Some text → JobSoFar result source text [] }
        ensures last { result.last ≡ None }
    {
        Sending {
            reader: JobReader::new(),
            stops: 0,
            waits: false,
            over: false,
            lines: 0,
            cuts: 0,
            foreign: 0,
            last: None,
        }
    }

    /// What waits.
    fn waiting(&self) -> Item
        ensures { IsItem result self.now }
    {
        if self.stops > 0 {
            return Item::Stop;
        }
        if self.waits {
            Item::Line
        } else {
            Item::Nothing
        }
    }

    /// The line that was read counts.
    fn count(&mut self, is_sent: bool)
        ensures { Counts self.old self.new is_sent }
    {
        let line = self.reader.line();
        self.stops = line.resets();
        self.cuts = self.cuts.saturating_add(u64::from(line.cuts()));
        let foreign = is_sent && self.foreign == 0 && is_foreign(line.kept());
        self.waits = is_sent;
        self.over = !is_sent;
        if is_sent {
            self.lines = self.lines.saturating_add(1);
        }
        if foreign {
            self.foreign = self.lines;
        }
    }

    /// What comes next. It is read, if nothing waits.
    #[tactic(auto, using(crate::proofs::JobRead::line_known))]
    pub fn look<S: Source>(&mut self, source: &mut S) -> Result<Item, Failed>
        requires known { KnowsJob self.old.reader (S.state source.old) }
        ensures known { MatchResult result (λ item. KnowsJob self.new.reader (S.state source.new) × IsSame (S.state source.old) (S.state source.new)) (λ e. Rose (S.state source.old).faults (S.state source.new).faults) }
        ensures item { IfOk result (λ item. IsItem item self.new) }
        ensures so_far { IfOk result (λ item. StaysSent self.old self.new (S.state source.old) (S.state source.new)) }
        ensures last { self.new.last ≡ self.old.last }
        ensures over { IfOk result (λ item. item ≡ Item.Nothing → self.new.over ≡ true) }
        ensures same { self.old.over ≡ true → self.new ≡ self.old }
    {
        if self.over || self.stops > 0 || self.waits {
            return Ok(self.waiting());
        }
        let is_sent = self.reader.next(source)?;
        self.count(is_sent);
        Ok(self.waiting())
    }

    /// The reset that comes next is taken.
    pub fn take_stop(&mut self)
        ensures reader { self.new.reader ≡ self.old.reader }
        ensures last { self.new.last ≡ self.old.last }
        ensures told { 0 < self.old.stops → (source : SourceState) (text : List ℕ) (told : List Sent) → JobSoFar self.old source text told → JobSoFar self.new source text (told ++ a_stop ∷ []) }
    {
        self.stops = self.stops.saturating_sub(1);
    }

    /// The line that comes next is taken.
    pub fn take_line(&mut self)
        ensures reader { self.new.reader ≡ self.old.reader }
        ensures last { self.new.last ≡ self.old.last }
        ensures over { self.new.over ≡ self.old.over }
        ensures untold { self.old.stops ≡ 0 → untold_of self.new ≡ [] }
        ensures told { self.old.stops ≡ 0 → self.old.waits ≡ true → (source : SourceState) (text : List ℕ) (told : List Sent) → JobSoFar self.old source text told → JobSoFar self.new source text (told ++ a_text self.old.reader.line.kept ∷ []) }
    {
        self.waits = false;
    }

    /// What is kept of the line that comes next.
    pub fn kept(&self) -> KeptLine
        ensures { IsKept result self.now.reader.line.kept }
    {
        let bytes = self.reader.line().kept();
        let mut kept = KeptLine::new();
        for byte in bytes {
            kept.push(*byte);
        }
        kept
    }

    /// How many bytes that may cut jogs were read.
    pub fn cuts(&self) -> u64
        ensures { result ≡ self.now.cuts }
    {
        self.cuts
    }

    /// The last line that was read has raised an alarm, unless the job was read to its end: the holds behind it are counted.
    pub fn halt<S: Source>(&mut self, source: &mut S) -> Result<(), Failed>
        requires known { KnowsJob self.old.reader (S.state source.old) }
        ensures known { MatchResult result (λ done. KnowsJob self.new.reader (S.state source.new) × IsSame (S.state source.old) (S.state source.new)) (λ e. Rose (S.state source.old).faults (S.state source.new).faults) }
        ensures so_far { IfOk result (λ done. StaysSent self.old self.new (S.state source.old) (S.state source.new)) }
        ensures halts { IfOk result (λ done. self.old.over ≡ false → Halts self.old self.new) }
    {
        if self.over {
            return Ok(());
        }
        let holds = self.reader.count_holds(source)?;
        self.cuts = self.cuts.saturating_add(u64::from(holds));
        self.last = Some(self.lines);
        self.over = true;
        Ok(())
    }

    /// Whether all that is sent is told, up to an alarm of the line before the one with this number, if one was raised.
    pub fn is_all_told(&self, halted: bool, number: u32) -> bool
        ensures yes { IsTrue result → IsAllRead self.now halted number }
        ensures no { result ≡ false → IsAllRead self.now halted number → ⊥ }
    {
        match self.last {
            Some(line) => halted && number > 0 && line == number - 1,
            None => !halted && self.over && self.stops == 0 && !self.waits,
        }
    }

    /// The first line that is not audited, of those that were read.
    pub fn foreign(&self) -> Option<u32>
        ensures first { IfSome result (λ line. (source : SourceState) (text : List ℕ) (told : List Sent) → JobSoFar self.now source text told → IsFirstForeign (scanned text).lines line) }
        ensures none { result ≡ None → self.now.foreign ≡ 0 }
        ensures zero { self.now.foreign ≡ 0 → result ≡ None }
    {
        if self.foreign == 0 {
            return None;
        }
        Some(self.foreign)
    }
}
