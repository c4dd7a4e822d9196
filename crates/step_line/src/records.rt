//! What kind a record is of.

ghost use Rattle.std.specs.Prelude.{◌≡◌};
ghost use Rattle.step_line.specs.Records.{is_tick, is_end};

use crate::Record;

impl Record {
    /// Whether it is a tick: an event or a mark.
    #[inline]
    pub fn is_tick(&self) -> bool
        ensures { result ≡ is_tick self.now }
    {
        match self {
            Record::Event(_) | Record::Mark(_) => true,
            Record::Head(_) | Record::End => false,
        }
    }

    /// Whether it is the end.
    #[inline]
    pub fn is_end(&self) -> bool
        ensures { result ≡ is_end self.now }
    {
        match self {
            Record::End => true,
            _ => false,
        }
    }
}
