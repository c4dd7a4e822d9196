//! How many lines are sent and answered.

ghost use Rattle.std.specs.Prelude.{◌≡◌, ◌+◌, ◌-◌, ◌^◌, ◌≤◌, ◌<◌, [], ◌∷◌, ◌++◌, length, drop, cond};
ghost use Rattle.stream_host.specs.Hosts.{lengths, IsSummed};

use crate::unanswered::Unanswered;

/// The lines without an answer, and the numbers of all lines sent, of those that are not forgotten, of answers got, and of those
/// that are errors; and the number of the last line that asks for a pause, among those that are not forgotten, or 0.
#[derive(Drop)]
pub(crate) struct Counts {
    pub(crate) unanswered: Unanswered,
    pub(crate) all: u32,
    pub(crate) lines: u32,
    pub(crate) answered: u32,
    pub(crate) errors: u32,
    pub(crate) pause_at: u32,
}

impl Counts {
    /// No line is sent.
    pub(crate) fn new() -> Counts
        ensures none { lengths result.unanswered ≡ [] }
        ensures summed { IsSummed result.unanswered }
        ensures all { result.all ≡ 0 }
        ensures lines { result.lines ≡ 0 }
        ensures answered { result.answered ≡ 0 }
        ensures errors { result.errors ≡ 0 }
        ensures pause { result.pause_at ≡ 0 }
    {
        Counts {
            unanswered: Unanswered::new(),
            all: 0,
            lines: 0,
            answered: 0,
            errors: 0,
            pause_at: 0,
        }
    }

    /// A line of this length is to be sent, which asks for a pause or not.
    pub(crate) fn add_line(&mut self, size: u8, pauses: bool)
        requires few { length (lengths self.old.unanswered) < 256 }
        requires small { self.old.unanswered.total ≤ 255 }
        requires summed { IsSummed self.old.unanswered }
        requires lines { self.old.lines + 1 < 2 ^ 32 }
        requires all { self.old.all + 1 < 2 ^ 32 }
        ensures more { lengths self.new.unanswered ≡ lengths self.old.unanswered ++ size ∷ [] }
        ensures summed { IsSummed self.new.unanswered }
        ensures same { self.new ≡ record self.old { unanswered = self.new.unanswered; all = self.old.all + 1; lines = self.old.lines + 1; pause_at = cond pauses (self.old.lines + 1) self.old.pause_at } }
    {
        self.unanswered.push(size);
        self.all += 1;
        self.lines += 1;
        if pauses {
            self.pause_at = self.lines;
        }
    }

    /// An epoch begins: the lines without an answer are forgotten, and so is a pause.
    pub(crate) fn forget(&mut self)
        ensures none { lengths self.new.unanswered ≡ [] }
        ensures summed { IsSummed self.new.unanswered }
        ensures same { self.new ≡ record self.old { unanswered = self.new.unanswered; lines = self.old.answered; pause_at = 0 } }
    {
        self.unanswered.clear();
        self.lines = self.answered;
        self.pause_at = 0;
    }

    /// The oldest line has its answer.
    pub(crate) fn add_answer(&mut self)
        requires summed { IsSummed self.old.unanswered }
        requires answered { self.old.answered + 1 < 2 ^ 32 }
        ensures fewer { lengths self.new.unanswered ≡ drop 1 (lengths self.old.unanswered) }
        ensures summed { IsSummed self.new.unanswered }
        ensures same { self.new ≡ record self.old { unanswered = self.new.unanswered; answered = self.old.answered + 1 } }
    {
        self.unanswered.pop();
        self.answered += 1;
    }

    /// How many lines are answered or forgotten.
    pub(crate) fn over(&self) -> u32
        ensures { self.now.lines ≤ self.now.all → self.now.answered ≤ self.now.lines → result ≡ self.now.answered + (self.now.all - self.now.lines) }
    {
        let waiting = self.lines.saturating_sub(self.answered);
        self.all.saturating_sub(waiting)
    }

    /// The oldest line has its answer, which is an error.
    pub(crate) fn add_error(&mut self)
        requires summed { IsSummed self.old.unanswered }
        requires answered { self.old.answered + 1 < 2 ^ 32 }
        requires errors { self.old.errors + 1 < 2 ^ 32 }
        ensures fewer { lengths self.new.unanswered ≡ drop 1 (lengths self.old.unanswered) }
        ensures summed { IsSummed self.new.unanswered }
        ensures same { self.new ≡ record self.old { unanswered = self.new.unanswered; answered = self.old.answered + 1; errors = self.old.errors + 1 } }
    {
        self.add_answer();
        self.errors += 1;
    }
}
