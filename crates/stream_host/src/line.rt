//! The line in hand: first it is scanned, then it is stored.

ghost use Rattle.std.specs.Prelude.{◌≡◌, ◌≢◌, ℕ, ◌+◌, ◌≤◌, ◌<◌, ◌++◌, ◌∷◌, [], List, take, drop, length, nat_lt, true, false, ◌||◌, option_to_list, None};
ghost use Rattle.std.specs.List.{list_any};
ghost use Rattle.gcode_words.specs.Stripping.{taken_by};
ghost use Rattle.host_journal.specs.Jobs.{is_reset};
ghost use Rattle.host_journal.specs.Steps.{more_served};
ghost use Rattle.stream_host.specs.Hosts.{HasLine, KeepsDue, is_too_long};

use arrayvec::ArrayVec;
use gcode_words::realtime_bytes::RESET;
use gcode_words::{Stripped, Stripper};

/// What has come of a line: where the stripper stands in it, the first 127 bytes kept behind its last reset, whether there were
/// ever more, and whether any byte came; the realtime byte that is to be raised before it goes on, if any; whether it is
/// whole, and how much of it is stored then.
#[derive(Drop)]
pub(crate) struct SentLine {
    pub(crate) stripper: Stripper,
    pub(crate) kept: ArrayVec<u8, 127>,
    pub(crate) long: bool,
    pub(crate) begun: bool,
    pub(crate) due: Option<u8>,
    pub(crate) whole: bool,
    pub(crate) place: usize,
}

/// The realtime byte that is to be raised, where a byte of a line is one.
fn due_in(stripped: Stripped) -> Option<u8>
    ensures { KeepsDue result (taken_by stripped) }
{
    match stripped {
        Stripped::Realtime(byte) => Some(byte),
        _ => None,
    }
}

/// Whether a byte of a line is a reset.
fn is_reset(stripped: Stripped) -> bool
    ensures { result ≡ list_any is_reset (taken_by stripped) }
{
    matches!(stripped, Stripped::Realtime(RESET))
}

impl SentLine {
    /// Nothing has come.
    pub(crate) fn new() -> SentLine
        ensures fresh { HasLine result [] }
        ensures due { result.due ≡ None }
        ensures scanned { result.whole ≡ false }
    {
        SentLine {
            stripper: Stripper::new(),
            kept: ArrayVec::new(),
            long: false,
            begun: false,
            due: None,
            whole: false,
            place: 0,
        }
    }

    /// The line is stored, and the next begins.
    fn clear(&mut self)
        ensures fresh { HasLine self.new [] }
        ensures due { self.new.due ≡ self.old.due }
        ensures scanned { self.new.whole ≡ false }
    {
        self.stripper = Stripper::new();
        self.kept.clear();
        self.long = false;
        self.begun = false;
        self.whole = false;
    }

    /// Whether it is too long, so that the sending ends in it.
    pub(crate) fn is_too_long(&self) -> bool
        ensures { result ≡ is_too_long self.now }
    {
        self.long
    }

    /// One kept byte more.
    fn keep(&mut self, byte: u8)
        ensures kept { (all : List ℕ) → self.old.kept.items ≡ take 127 all → self.new.kept.items ≡ take 127 (all ++ byte ∷ []) }
        ensures long { (all : List ℕ) → self.old.kept.items ≡ take 127 all → self.new.long ≡ (self.old.long || nat_lt 127 (length (all ++ byte ∷ []))) }
        ensures stripper { self.new.stripper ≡ self.old.stripper }
        ensures begun { self.new.begun ≡ self.old.begun }
        ensures due { self.new.due ≡ self.old.due }
        ensures whole { self.new.whole ≡ self.old.whole }
    {
        if self.kept.len() < 127 {
            self.kept.push(byte);
        } else {
            self.long = true;
        }
    }

    /// One byte more, no line feed. One that asks for what is done in real time is to be raised. A reset drops what is kept.
    pub(crate) fn feed(&mut self, byte: u8)
        requires text { byte ≢ 10 }
        requires none_due { self.old.due ≡ None }
        ensures fed { (raw : List ℕ) → HasLine self.old raw → HasLine self.new (raw ++ byte ∷ []) }
        ensures due { (raw : List ℕ) → HasLine self.old raw → KeepsDue self.new.due (more_served raw byte) }
        ensures whole { self.new.whole ≡ self.old.whole }
    {
        self.begun = true;
        let stripped = self.stripper.feed(byte);
        if let Stripped::Keep(kept) = stripped {
            self.keep(kept);
            return;
        }
        self.due = due_in(stripped);
        if is_reset(stripped) {
            self.kept.clear();
        }
    }

    /// The line is over, and is stored from its first byte on. Answers its length with LF.
    pub(crate) fn finish(&mut self) -> u8
        ensures length { result ≡ length self.old.kept.items + 1 }
        ensures kept { self.new.kept.items ≡ self.old.kept.items }
        ensures long { is_too_long self.new ≡ is_too_long self.old }
        ensures due { self.new.due ≡ self.old.due }
        ensures whole { self.new.whole ≡ true }
        ensures place { self.new.place ≡ 0 }
    {
        self.whole = true;
        self.place = 0;
        self.kept.len() as u8 + 1
    }

    /// The next byte that is to be stored.
    pub(crate) fn next_byte(&self) -> u8
        requires { self.now.place ≤ length self.now.kept.items }
        ensures { drop self.now.place (self.now.kept.items ++ 10 ∷ []) ≡ result ∷ drop (self.now.place + 1) (self.now.kept.items ++ 10 ∷ []) }
    {
        if self.place < self.kept.len() {
            self.kept[self.place]
        } else {
            b'\n'
        }
    }

    /// That byte is stored. Behind the line feed the next line begins.
    pub(crate) fn advance(&mut self)
        requires place { self.old.place ≤ length self.old.kept.items }
        requires whole { self.old.whole ≡ true }
        ensures more { self.old.place < length self.old.kept.items → self.new ≡ record self.old { place = self.old.place + 1 } }
        ensures last { self.old.place ≡ length self.old.kept.items → HasLine self.new [] × (self.new.whole ≡ false) }
        ensures due { self.new.due ≡ self.old.due }
    {
        if self.place < self.kept.len() {
            self.place += 1;
        } else {
            self.clear();
        }
    }
}
