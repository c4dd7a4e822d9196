//! How the ticks of lines stand.

ghost use Rattle.std.specs.Prelude.{◌≡◌, ◌&&◌, cond};
ghost use Rattle.audit_course.specs.Progressing.{is_whole, behind_record};

/// How the ticks of the first lines of a part stand.
#[derive(Clone, Copy)]
pub(crate) enum Ticks {
    /// All are recorded.
    Whole,
    /// The part owes the last of them.
    Owed,
    /// The last of them is not recorded before the part ends.
    Lost,
}

impl Ticks {
    /// Whether all are recorded.
    pub(crate) fn is_whole(&self) -> bool
        ensures { result ≡ is_whole self.now }
    {
        matches!(self, Ticks::Whole)
    }

    /// Behind one record more, where the part owes nothing or something.
    pub(crate) fn behind_record(self, idle: bool) -> Ticks
        ensures { result ≡ behind_record idle self }
    {
        match self {
            Ticks::Owed if idle => Ticks::Whole,
            _ => self,
        }
    }

    /// Behind a line, where all ticks up to it stand so, if it is one of those that count.
    pub(crate) fn behind_line(self, answered: bool, counts: bool, now: Ticks) -> Ticks
        ensures { result ≡ cond (answered && counts) now self }
    {
        if answered && counts { now } else { self }
    }
}
