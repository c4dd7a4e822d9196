//! A job, line by line.

use crate::holds::Holds;
use crate::{JobLine, Window};
use outside::{Failed, Source};
use std::marker::Model;

/// What a job goes on with.
#[derive(Clone, Copy, PartialEq, Eq)]
pub(crate) enum Next {
    Byte(u8),
    /// Nothing follows.
    End,
    /// A byte follows that is one too many.
    TooLarge,
}

/// A reader of a job, line by line, in step with its source: of the first 16,777,216 bytes.
///
/// Contracts see the window on the text, the place behind what was read, and what has come of the line that was read last.
#[derive(Drop)]
pub struct JobReader {
    window: Window,
    place: u32,
    line: JobLine,
}

impl Model for JobReader {
    ghost use Rattle.audit_readers.specs.Jobs.{JobRead};

    ghost Value = { JobRead };

    ghost view = { λ r. record { window = r.window; place = r.place; line = r.line } };
}

impl JobReader {
    ghost use Rattle.std.specs.Prelude.{◌≡◌, ◌≢◌, ◌<◌, ◌≤◌, ◌+◌, ◌^◌, ◌++◌, ◌∷◌, ℕ, List, [], length, false, MatchResult};
    ghost use Rattle.audit_readers.specs.JobLines.{HasCome};
    ghost use Rattle.outside.specs.Causes.{Rose};
    ghost use Rattle.run_rules.specs.Readings.{largest_job};
    ghost use Rattle.audit_readers.specs.Jobs.{GoesOnBy, FailsToGoOn, ReadsLine, CountsHolds};
    ghost use Rattle.audit_readers.specs.Windows.{KnowsEnd};

    /// Nothing is read, and no line.
    pub fn new() -> JobReader
        ensures waiting { result.window.waiting ≡ [] }
        ensures going { result.window.ended ≡ false }
        ensures place { result.place ≡ 0 }
    {
        JobReader {
            window: Window::new(),
            place: 0,
            line: JobLine::new(),
        }
    }

    /// What has come of the line that was read last.
    pub fn line(&self) -> &JobLine
        ensures { result.now ≡ self.now.line }
    {
        &self.line
    }

    /// The next byte of the job.
    fn next_byte<S: Source>(&mut self, source: &mut S) -> Result<Next, Failed>
        requires known { KnowsEnd self.old.window (S.state source.old) }
        requires room { self.old.place ≤ largest_job }
        ensures { MatchResult result (λ next. GoesOnBy self.old self.new (S.state source.old) (S.state source.new) next) (λ e. FailsToGoOn self.old self.new (S.state source.old) (S.state source.new)) }
    {
        self.window.fill_if_none(source)?;
        let Some(byte) = self.window.waiting().first() else {
            return Ok(Next::End);
        };
        let byte = *byte;
        if self.place == 16_777_216 {
            return Ok(Next::TooLarge);
        }
        self.window.take(1);
        self.place += 1;
        Ok(Next::Byte(byte))
    }

    /// A byte of the line comes.
    fn feed(&mut self, byte: u8)
        requires inside { byte ≢ 10 }
        requires short { length self.old.line.kept < 128 }
        requires few { self.old.line.resets + 1 < 2 ^ 32 }
        requires few_cuts { self.old.line.cuts + 1 < 2 ^ 32 }
        ensures window { self.new.window ≡ self.old.window }
        ensures place { self.new.place ≡ self.old.place }
        ensures come { (line : List ℕ) → HasCome line self.old.line → HasCome (line ++ byte ∷ []) self.new.line }
        ensures resets { self.new.line.resets ≤ self.old.line.resets + 1 }
        ensures cuts { self.new.line.cuts ≤ self.old.line.cuts + 1 }
    {
        self.line.feed(byte);
    }

    /// Reads the next line: whether it is one that is sent. If none is, what was scanned besides has come. After that, and
    /// after a failed read, no line is read any more.
    pub fn next<S: Source>(&mut self, source: &mut S) -> Result<bool, Failed>
        requires known { KnowsEnd self.old.window (S.state source.old) }
        requires room { self.old.place ≤ largest_job }
        ensures { MatchResult result (λ sent. ReadsLine self.old self.new (S.state source.old) (S.state source.new) sent) (λ e. Rose (S.state source.old).faults (S.state source.new).faults) }
    {
        let start = self.place;
        self.line = JobLine::new();
        loop {
            match self.next_byte(source)? {
                Next::Byte(b'\n') => return Ok(true),
                Next::Byte(byte) => self.feed(byte),
                Next::End => return Ok(self.place > start),
                Next::TooLarge => return Ok(false),
            }
            if self.line.is_long() {
                return Ok(false);
            }
        }
    }

    /// Counts the holds of all that follows. No line of that is read any more.
    pub fn count_holds<S: Source>(&mut self, source: &mut S) -> Result<u32, Failed>
        requires known { KnowsEnd self.old.window (S.state source.old) }
        requires room { self.old.place ≤ largest_job }
        ensures { MatchResult result (λ count. CountsHolds self.old self.new (S.state source.old) (S.state source.new) count) (λ e. Rose (S.state source.old).faults (S.state source.new).faults) }
    {
        let mut holds = Holds::new();
        loop {
            match self.next_byte(source)? {
                Next::Byte(byte) => holds.feed(byte),
                Next::End | Next::TooLarge => return Ok(holds.count()),
            }
        }
    }
}
