//! Lines of records, as they are given to a writer.

use crate::writing::push_run;
use crate::{push_event, push_record};
use arrayvec::ArrayVec;
use step_line::{Bits, Record};
use text_writer::{ShortText, Waiting};
use units::append;

/// The line of an event.
#[derive(Clone, Copy)]
pub(crate) struct EventLine {
    pub(crate) bits: Bits,
}

impl ShortText for EventLine {
    ghost use Rattle.step_record.specs.Texts.{event_text};
    ghost use Rattle.step_line.specs.Events.{IsEvent};

    ghost has_text = { λ l. IsEvent l.bits };

    ghost text = { λ l. event_text l.bits };

    #[inline]
    fn append_to(&self, waiting: &mut Waiting) {
        push_event(&self.bits, waiting);
    }
}

/// The line of a record.
#[derive(Clone, Copy)]
pub(crate) struct RecordLine {
    pub(crate) of: Record,
}

impl ShortText for RecordLine {
    ghost use Rattle.step_record.specs.Texts.{record_text};
    ghost use Rattle.step_line.specs.Records.{IsRecord};

    ghost has_text = { λ l. IsRecord l.of };

    ghost text = { λ l. record_text l.of };

    fn append_to(&self, waiting: &mut Waiting) {
        push_record(&self.of, waiting);
    }
}

/// Equal events that have no line yet.
#[derive(Clone, Copy)]
pub(crate) struct Hand {
    pub(crate) count: u32,
    pub(crate) bits: Bits,
}

impl Hand {
    ghost use Rattle.std.specs.Prelude.{◌≡◌, ◌+◌, ◌≤◌, ◌++◌};
    ghost use Rattle.arrayvec.specs.ArrayVec.{array_vec_len};
    ghost use Rattle.step_record.specs.Recording.{goes_on, hand_text};

    /// Whether one line can stand for them and one more.
    #[inline]
    pub(crate) fn goes_on(&self, bits: Bits) -> bool
        ensures { result ≡ goes_on self.now bits }
    {
        self.bits.x == bits.x
            && self.bits.y == bits.y
            && self.bits.z == bits.z
            && self.count < u32::MAX
    }

    /// Appends their line.
    #[inline]
    fn push<const N: usize>(&self, out: &mut ArrayVec<u8, N>)
        requires room { array_vec_len out.old + 20 ≤ N }
        ensures text { out.new.items ≡ out.old.items ++ hand_text self.now }
        ensures room { array_vec_len out.new ≤ array_vec_len out.old + 20 }
    {
        match self.count {
            0 => {}
            1 => push_event(&self.bits, out),
            _ => push_run(self.count, &self.bits, out),
        }
    }
}

impl ShortText for Hand {
    ghost use Rattle.step_record.specs.Recording.{hand_text};

    ghost has_text = { λ h. Unit {0} };

    ghost text = { λ h. hand_text h };

    #[inline]
    fn append_to(&self, waiting: &mut Waiting) {
        self.push(waiting);
    }
}

/// The line of events in hand, and that of the record behind them.
#[derive(Clone, Copy)]
pub(crate) struct LastLines {
    pub(crate) hand: Hand,
    pub(crate) of: Record,
}

impl ShortText for LastLines {
    ghost use Rattle.std.specs.Prelude.{◌++◌};
    ghost use Rattle.step_record.specs.Recording.{hand_text};
    ghost use Rattle.step_record.specs.Texts.{record_text};
    ghost use Rattle.step_line.specs.Records.{IsRecord};

    ghost has_text = { λ l. IsRecord l.of };

    ghost text = { λ l. hand_text l.hand ++ record_text l.of };

    fn append_to(&self, waiting: &mut Waiting) {
        self.hand.push(waiting);
        push_record(&self.of, waiting);
    }
}

/// The line that a text of form 2 begins with.
#[derive(Clone, Copy)]
pub(crate) struct VersionLine;

impl ShortText for VersionLine {
    ghost use Rattle.std.specs.Prelude.{codes};

    ghost has_text = { λ l. Unit {0} };

    ghost text = { λ l. codes "V 2\n" };

    fn append_to(&self, waiting: &mut Waiting) {
        append(b"V 2\n", waiting);
    }
}
