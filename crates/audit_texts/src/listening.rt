//! What a console tells.

ghost use Rattle.std.specs.Prelude.{◌≡◌, ◌↔◌, ◌≤◌, ◌<◌, ◌∷◌, ◌++◌, [], ℕ, List, Some, None, true, false, MatchResult, IfOk, IsTrue};
ghost use Rattle.outside.specs.Causes.{Rose, SourceState};
ghost use Rattle.status_report.specs.Replies.{IsReply};
ghost use Rattle.status_report.specs.Answering.{is_report, is_bye};
ghost use Rattle.status_report.specs.declared.Reply.{Reply as AnyReply};
ghost use Rattle.audit_rules.specs.Telling.{HasNoBanner};
ghost use Rattle.audit_readers.specs.Windows.{KnowsEnd, ahead, too_long};
ghost use Rattle.audit_texts.specs.Reading.{KnowsConsole, IsSame};
ghost use Rattle.audit_texts.specs.SoFar.{ConsoleSoFar, Opens, Hears, TakesReply, IsNotNext, StandsNext, StaysTold, BecomesKnown, IsRead, IsReadOn, EndsConsole, StandsSo, IsNextOn, IsHeardOn, IsMoreOn, FindsReply, HearsNot, EndsNot, is_looked_for};

use audit_readers::ConsoleReader;
use outside::{Failed, Source};
use status_report::Reply;

/// The first byte that is one too many.
pub(crate) const TOO_LONG: u64 = 9_223_372_036_854_775_808;

/// Whether a reply is that which was known before it is told.
fn is_same(known: &Reply, reply: &Reply) -> bool
    ensures same { IsTrue result → known.now ≡ reply.now }
    ensures other { result ≡ false → is_looked_for known.now ≡ true → known.now ≡ reply.now → ⊥ }
{
    match (known, reply) {
        (Reply::Banner, Reply::Banner) => true,
        (Reply::Error(code), Reply::Error(other)) => code == other,
        (Reply::Alarm(number), Reply::Alarm(other)) => number == other,
        _ => false,
    }
}

/// A console, reply by reply, of which one may be known before it is told.
#[derive(Drop)]
pub struct Listening {
    reader: ConsoleReader,
    known: Option<Reply>,
}

impl Listening {
    pub fn new() -> Listening
        ensures known { (s : SourceState) → KnowsConsole result.reader s }
        ensures opens { (s : SourceState) (text : List ℕ) → s.left ≡ Some text → Opens result s text }
    {
        Listening {
            reader: ConsoleReader::new(),
            known: None,
        }
    }

    /// Whether it begins with the banner, and no report before it.
    pub fn begins<S: Source>(&mut self, source: &mut S) -> Result<bool, Failed>
        requires known { KnowsConsole self.old.reader (S.state source.old) }
        ensures known { MatchResult result (λ answer. KnowsConsole self.new.reader (S.state source.new) × IsSame (S.state source.old) (S.state source.new)) (λ e. Rose (S.state source.old).faults (S.state source.new).faults) }
        ensures begins { IfOk result (λ yes. (text : List ℕ) → Opens self.old (S.state source.old) text → Hears yes self.new (S.state source.new) text []) }
        ensures no { IfOk result (λ yes. yes ≡ false → (text : List ℕ) → Opens self.old (S.state source.old) text → HasNoBanner text) }
    {
        self.reader.skip_reports(source)?;
        if self.reader.place() > 0 {
            return Ok(false);
        }
        Ok(self.takes(&Reply::Banner))
    }

    /// Looks whether an error of the motion comes next, or what is told at a reset.
    pub fn look<S: Source>(&mut self, source: &mut S) -> Result<Option<Reply>, Failed>
        requires known { KnowsConsole self.old.reader (S.state source.old) }
        ensures known { MatchResult result (λ answer. KnowsConsole self.new.reader (S.state source.new) × IsSame (S.state source.old) (S.state source.new)) (λ e. Rose (S.state source.old).faults (S.state source.new).faults) }
        ensures next { IfOk result (λ reply. reply ≡ self.new.known) }
        ensures so_far { IfOk result (λ reply. StaysTold self.old self.new (S.state source.old) (S.state source.new)) }
        ensures found { IfOk result (λ reply. FindsReply reply self.old (S.state source.old)) }
        ensures stands { IfOk result (λ reply. StandsSo (IsNextOn reply) self.old (S.state source.old)) }
    {
        if self.known.is_some() {
            return Ok(self.known);
        }
        self.reader.skip_reports(source)?;
        self.known = self.next_known();
        Ok(self.known)
    }

    /// The reply that is known before it is told, if one is.
    pub fn known(&self) -> Option<Reply>
        ensures { result ≡ self.now.known }
    {
        self.known
    }

    /// Takes the reply that comes next, if it is one of these.
    fn next_known(&mut self) -> Option<Reply>
        ensures ended { self.new.reader.window.ended ≡ self.old.reader.window.ended }
        ensures known { self.old.known ≡ None → BecomesKnown self.old self.new result }
        ensures found { self.old.reader.place < too_long → StandsNext self.old.reader result }
    {
        if self.takes(&Reply::Error(8)) {
            return Some(Reply::Error(8));
        }
        if self.takes(&Reply::Error(9)) {
            return Some(Reply::Error(9));
        }
        if self.takes(&Reply::Alarm(3)) {
            return Some(Reply::Alarm(3));
        }
        if self.takes(&Reply::Banner) {
            return Some(Reply::Banner);
        }
        None
    }

    /// Whether this reply stands next. If so it is taken. `Bye` has no text, and never stands.
    fn takes(&mut self, reply: &Reply) -> bool
        requires { IsReply reply.now }
        ensures ended { self.new.reader.window.ended ≡ self.old.reader.window.ended }
        ensures known { self.new.known ≡ self.old.known }
        ensures taken { IsTrue result → TakesReply self.old.reader self.new.reader reply.now }
        ensures same { result ≡ false → self.new ≡ self.old }
        ensures other { result ≡ false → self.old.reader.place < too_long → is_bye reply.now ≡ false → IsNotNext self.old.reader reply.now }
    {
        if self.reader.place() >= TOO_LONG || matches!(reply, Reply::Bye) {
            return false;
        }
        self.reader.take(reply)
    }

    /// Whether this reply comes next. If so it is taken.
    pub fn hears<S: Source>(&mut self, reply: &Reply, source: &mut S) -> Result<bool, Failed>
        requires known { KnowsConsole self.old.reader (S.state source.old) }
        requires reply { IsReply reply.now }
        requires plain { is_report reply.now ≡ false }
        ensures known { MatchResult result (λ answer. KnowsConsole self.new.reader (S.state source.new) × IsSame (S.state source.old) (S.state source.new)) (λ e. Rose (S.state source.old).faults (S.state source.new).faults) }
        ensures so_far { IfOk result (λ yes. (text : List ℕ) (told : List AnyReply) → ConsoleSoFar self.old (S.state source.old) text told → Hears yes self.new (S.state source.new) text (told ++ reply.now ∷ [])) }
        ensures no { IfOk result (λ yes. HearsNot yes self.old (S.state source.old) reply.now) }
        ensures stands { IfOk result (λ yes. StandsSo (IsHeardOn yes reply.now) self.old (S.state source.old)) }
    {
        if let Some(known) = self.known {
            self.known = None;
            return Ok(is_same(&known, reply));
        }
        self.reader.skip_reports(source)?;
        Ok(self.takes(reply))
    }

    /// Takes all that follows behind reports: whether there was nothing.
    pub fn ends<S: Source>(&mut self, source: &mut S) -> Result<bool, Failed>
        requires known { KnowsConsole self.old.reader (S.state source.old) }
        ensures known { MatchResult result (λ answer. KnowsConsole self.new.reader (S.state source.new) × IsSame (S.state source.old) (S.state source.new)) (λ e. Rose (S.state source.old).faults (S.state source.new).faults) }
        ensures read { IfOk result (λ none. IsReadOn self.old.reader.window self.new.reader.window (S.state source.old) (S.state source.new) self.old.reader.place self.new.reader.place) }
        ensures ends { IfOk result (λ none. EndsConsole none self.old (S.state source.old)) }
        ensures no { IfOk result (λ none. EndsNot none self.old (S.state source.old)) }
        ensures stands { IfOk result (λ none. StandsSo (IsMoreOn none) self.old (S.state source.old)) }
        ensures over { IfOk result (λ none. IsRead self.new.reader.window self.new.reader.place) }
    {
        let none = self.known.is_none();
        self.reader.skip_reports(source)?;
        let place = self.reader.place();
        if place >= TOO_LONG {
            return Ok(false);
        }
        self.reader.take_rest(source)?;
        Ok(none && self.reader.place() == place)
    }

    /// Whether the text is too long.
    pub fn is_too_long(&self) -> bool
        ensures { IsTrue result ↔ (too_long ≤ self.now.reader.place) }
    {
        self.reader.place() >= TOO_LONG
    }
}
