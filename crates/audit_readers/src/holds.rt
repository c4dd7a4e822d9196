//! The holds of a text.

ghost use Rattle.std.specs.Prelude.{◌≡◌, ◌<◌, ◌≤◌, ◌+◌, ◌^◌, ◌++◌, ◌∷◌, ℕ, List, []};
ghost use Rattle.std.specs.List.{count_by};
ghost use Rattle.gcode_words.specs.Stripping.{taken_by};
ghost use Rattle.audit_rules.specs.Scanned.{is_hold};
ghost use Rattle.audit_readers.specs.Jobs.{HaveCome};

use gcode_words::realtime_bytes::HOLD;
use gcode_words::{Stripped, Stripper};

/// How many holds of an answer to a byte there are: one, or none.
fn holds_in(answer: Stripped) -> u32
    ensures counted { result ≡ count_by is_hold (taken_by answer) }
    ensures few { result ≤ 1 }
{
    match answer {
        Stripped::Realtime(HOLD) => 1,
        Stripped::Realtime(_) | Stripped::Keep(_) | Stripped::Nothing | Stripped::LineEnd => 0,
    }
}

/// How many holds have come of a text, outside the comments of its lines.
#[derive(Drop)]
pub(crate) struct Holds {
    stripper: Stripper,
    count: u32,
}

impl Holds {
    /// Nothing has come.
    pub(crate) fn new() -> Holds
        ensures come { HaveCome [] result }
        ensures none { result.count ≡ 0 }
    {
        Holds {
            stripper: Stripper::new(),
            count: 0,
        }
    }

    /// The next byte comes.
    pub(crate) fn feed(&mut self, byte: u8)
        requires few { self.old.count + 1 < 2 ^ 32 }
        ensures come { (bytes : List ℕ) → HaveCome bytes self.old → HaveCome (bytes ++ byte ∷ []) self.new }
        ensures few { self.new.count ≤ self.old.count + 1 }
    {
        self.count += holds_in(self.stripper.feed(byte));
    }

    /// How many have come.
    pub(crate) fn count(&self) -> u32
        ensures { result ≡ self.now.count }
    {
        self.count
    }
}
