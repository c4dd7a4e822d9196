//! A line of a job, byte by byte.

ghost use Rattle.std.specs.Prelude.{◌≡◌, ◌+◌, ℕ, ◌++◌, [], cond};
ghost use Rattle.std.specs.List.{list_any, count_by};
ghost use Rattle.gcode_words.specs.Stripping.{kept_by, taken_by};
ghost use Rattle.run_texts.specs.Sent.{is_reset};
ghost use Rattle.audit_rules.specs.Scanned.{may_cut};

use arrayvec::ArrayVec;
use gcode_words::realtime_bytes::{CANCEL, HOLD, RESET};
use gcode_words::{Stripped, Stripper};
use std::marker::Model;

/// What has come of a line: what is kept of it behind its last reset, up to the byte with which that is too much; and how
/// many resets, and bytes that may cut jogs.
#[derive(Drop)]
pub struct JobLine {
    stripper: Stripper,
    kept: ArrayVec<u8, 128>,
    resets: u32,
    cuts: u32,
}

impl Model for JobLine {
    ghost use Rattle.audit_readers.specs.JobLines.{SeenLine};

    ghost Value = { SeenLine };

    ghost view = { λ l. record { comment = l.stripper; kept = l.kept.items; resets = l.resets; cuts = l.cuts } };
}

impl JobLine {
    ghost use Rattle.std.specs.Prelude.{◌≡◌, ◌≢◌, ◌<◌, ◌≤◌, ◌+◌, ◌^◌, ◌++◌, ◌∷◌, ℕ, List, [], length, nat_lt};
    ghost use Rattle.audit_readers.specs.JobLines.{HasCome};

    /// Nothing has come.
    pub fn new() -> JobLine
        ensures come { HasCome [] result }
        ensures kept { result.kept ≡ [] }
        ensures resets { result.resets ≡ 0 }
        ensures cuts { result.cuts ≡ 0 }
    {
        JobLine {
            stripper: Stripper::new(),
            kept: ArrayVec::new(),
            resets: 0,
            cuts: 0,
        }
    }

    /// The next byte comes. It ends no line, and the line is not too long yet.
    pub fn feed(&mut self, byte: u8)
        requires inside { byte ≢ 10 }
        requires short { length self.old.kept < 128 }
        requires few { (self.old.resets + 1 < 2 ^ 32) }
        requires few_cuts { self.old.cuts + 1 < 2 ^ 32 }
        ensures come { (line : List ℕ) → HasCome line self.old → HasCome (line ++ byte ∷ []) self.new }
        ensures resets { self.new.resets ≤ self.old.resets + 1 }
        ensures cuts { self.new.cuts ≤ self.old.cuts + 1 }
    {
        match self.stripper.feed(byte) {
            Stripped::Keep(kept) => self.kept.push(kept),
            Stripped::Realtime(b) => self.take(b),
            Stripped::Nothing => {}
            Stripped::LineEnd => {}
        }
    }

    /// A realtime byte is taken off the line.
    fn take(&mut self, byte: u8)
        requires few { (self.old.resets + 1 < 2 ^ 32) }
        requires few_cuts { self.old.cuts + 1 < 2 ^ 32 }
        ensures comment { self.new.comment ≡ self.old.comment }
        ensures kept { self.new.kept ≡ cond (is_reset byte) [] self.old.kept }
        ensures resets { self.new.resets ≡ self.old.resets + count_by is_reset (byte ∷ []) }
        ensures cuts { self.new.cuts ≡ self.old.cuts + count_by may_cut (byte ∷ []) }
        ensures few_resets { self.new.resets ≤ self.old.resets + 1 }
        ensures few_taken { self.new.cuts ≤ self.old.cuts + 1 }
    {
        match byte {
            RESET => {
                self.kept.clear();
                self.resets += 1;
            }
            HOLD | CANCEL => self.cuts += 1,
            _ => {}
        }
    }

    /// Whether too much is kept of it: no byte is scanned behind the one with which that was so.
    pub fn is_long(&self) -> bool
        ensures { result ≡ nat_lt 127 (length self.now.kept) }
    {
        self.kept.len() > 127
    }

    /// What is kept of it.
    pub fn kept(&self) -> &[u8]
        ensures { result.now ≡ self.now.kept }
    {
        self.kept.as_slice()
    }

    /// How many resets have come.
    pub fn resets(&self) -> u32
        ensures { result ≡ self.now.resets }
    {
        self.resets
    }

    /// How many bytes that may cut jogs have come.
    pub fn cuts(&self) -> u32
        ensures { result ≡ self.now.cuts }
    {
        self.cuts
    }
}
