//! Whether a line waits for a report.

ghost use Rattle.std.specs.Prelude.{◌≡◌, cond, nat_eq};
ghost use Rattle.code_table.specs.Tables.{query};
ghost use Rattle.status_report.specs.Answering.{is_report};
ghost use Rattle.host_journal.specs.Steps.{asked_more, got_one, is_asking};
ghost use Rattle.host_journal.specs.declared.asking.Asking.TheVariants.{Nothing};

use status_report::Reply;

/// Whether a line has asked for a report, and whether one was got since it first did, and since it last did.
#[derive(Clone, Copy, PartialEq, Eq)]
pub enum Asking {
    /// It has not asked for one.
    Nothing,
    /// It has, and none was got since it first did.
    Awaits,
    /// It has, and one was got since it last did.
    HasOne,
    /// It has again, behind one that was got.
    AsksAgain,
}

impl Asking {
    /// A byte is scanned. With its first one a line has not asked for a report.
    pub fn scan(&mut self, begun: bool)
        ensures { self.new ≡ cond begun self.old Nothing }
    {
        if !begun {
            *self = Asking::Nothing;
        }
    }

    /// A realtime byte is raised: a `?` asks for a report. The line waits for the first, the next read for each.
    pub fn raised(self, byte: u8) -> Asking
        ensures { result ≡ cond (nat_eq byte query) (asked_more self) self }
    {
        match (self, byte) {
            (Asking::Nothing, b'?') => Asking::Awaits,
            (Asking::HasOne, b'?') => Asking::AsksAgain,
            _ => self,
        }
    }

    /// Whether none was got since the line last asked for one.
    pub fn is_open(self) -> bool
        ensures { result ≡ is_asking self }
    {
        matches!(self, Asking::Awaits | Asking::AsksAgain)
    }

    /// A reply is got: one report is, where it is one.
    pub fn told(self, reply: &Reply) -> Asking
        ensures { result ≡ cond (is_report reply.now) (got_one self) self }
    {
        match (self, reply) {
            (Asking::Awaits | Asking::AsksAgain, Reply::Report(_)) => Asking::HasOne,
            _ => self,
        }
    }
}
