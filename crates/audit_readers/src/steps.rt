//! A step text, line by line.

ghost use Rattle.std.specs.Prelude.{◌≡◌, ◌<◌, ◌^◌, ◌↔◌, ◌++◌, ℕ, List, IsTrue, IfSome, Some, length, drop, option_copied};
ghost use Rattle.std.specs.Option.{is_some};
ghost use Rattle.step_record.specs.Forms.{IsLine, line_text};
ghost use Rattle.step_line.specs.declared.Bits.{Bits as AnyBits};
ghost use Rattle.step_record.specs.declared.forms.Line.{Line as AnyLine};
ghost use Rattle.audit_rules.specs.StepTexts.{IsLineOf, FollowsLast, event_in, is_full, heading, form_of};

use crate::Window;
use outside::{Failed, Source};
use std::marker::Model;
use step_line::{Bits, Record};
use step_record::{Form, Line, next_line};

/// The event that a line has once or more.
fn event_in(line: &Line) -> Option<Bits>
    ensures { result ≡ event_in line.now }
{
    match line {
        Line::One(Record::Event(bits)) => Some(*bits),
        Line::Run(_, bits) => Some(*bits),
        _ => None,
    }
}

/// Whether a line is a run that has as many events as one can have.
fn is_full(line: &Line) -> bool
    ensures { result ≡ is_full line.now }
{
    match line {
        Line::Run(count, _) => *count == 4_294_967_295,
        _ => false,
    }
}

/// Whether two lines have one event.
fn have_one_event(a: &Line, b: &Line) -> bool
    ensures { IsTrue result ↔ ((bits : AnyBits) × (event_in a.now ≡ Some bits) × (event_in b.now ≡ Some bits)) }
{
    match (event_in(a), event_in(b)) {
        (Some(bits), Some(other)) => bits == other,
        _ => false,
    }
}

/// Whether a line may come behind the last one.
fn follows_last(form: Form, last: &Option<Line>, line: &Line) -> bool
    ensures { IsTrue result ↔ FollowsLast form last.now line.now }
{
    match (form, last) {
        (Form::Two, Some(before)) => is_full(before) || !have_one_event(before, line),
        _ => true,
    }
}

/// Whether a line that can be written may stand behind the heading.
fn is_line_of(form: Form, line: &Line) -> bool
    ensures { (at : ℕ) → IsLine line.now at → (IsTrue result ↔ IsLineOf form line.now) }
{
    match line {
        Line::One(_) => true,
        Line::Run(_, _) => form == Form::Two,
        Line::Version => false,
    }
}

/// The line of a form that begins a text behind the last one, and its length.
fn line_in_front(form: Form, last: &Option<Line>, text: &[u8]) -> Option<(Line, usize)>
    ensures found { IfSome result (λ found. IsLineOf form found.0 × FollowsLast form last.now found.0 × (text.now ≡ line_text found.0 ++ drop found.1 text.now) × (found.1 ≡ length (line_text found.0))) }
    ensures each { (line : AnyLine) (rest : List ℕ) → IsLineOf form line → FollowsLast form last.now line → text.now ≡ line_text line ++ rest → result ≡ Some (line, length (line_text line)) }
{
    let Ok(Some((line, end))) = next_line(text, 0) else {
        return None;
    };
    if is_line_of(form, &line) && follows_last(form, last, &line) {
        return Some((line, end));
    }
    None
}

/// The form of a text that begins so.
fn form_of(text: &[u8]) -> Form
    ensures { result ≡ form_of text.now }
{
    if text.starts_with(b"V 2\n") {
        Form::Two
    } else {
        Form::One
    }
}

/// The length of a form's heading.
fn heading_len(form: Form) -> usize
    ensures { result ≡ length (heading form) }
{
    match form {
        Form::One => 0,
        Form::Two => 4,
    }
}

/// A reader of a step text, line by line, in step with its source.
///
/// Contracts see the window on the text, its form, the last line that was read, and the place behind that line.
#[derive(Drop)]
pub struct StepReader {
    window: Window,
    form: Form,
    last: Option<Line>,
    place: u64,
}

impl Model for StepReader {
    ghost use Rattle.audit_readers.specs.Steps.{StepsRead};

    ghost Value = { StepsRead };

    ghost view = { λ s. record { window = s.window; form = s.form; last = s.last; place = s.place } };
}

impl StepReader {
    ghost use Rattle.std.specs.Prelude.{◌≡◌, ◌<◌, ◌^◌, ◌↔◌, [], MatchResult, MatchOption, Some, OnOk, OnErr, IfOk, IsTrue, ℕ, List};
    ghost use Rattle.outside.specs.Causes.{Rose};
    ghost use Rattle.audit_readers.specs.Steps.{Opens, Reads, FailsToRead, IsWhereItWas};
    ghost use Rattle.audit_readers.specs.Windows.{KnowsEnd, TakesRest, FailsToTake, too_long, ahead};

    /// Reads the form of a text.
    pub fn open<S: Source>(source: &mut S) -> Result<StepReader, Failed>
        ensures { MatchResult result (λ reader. Opens reader (S.state source.old) (S.state source.new)) (λ e. Rose (S.state source.old).faults (S.state source.new).faults) }
    {
        let mut window = Window::new();
        window.fill_up(source)?;
        let form = form_of(window.waiting());
        let count = heading_len(form);
        window.take(count);
        Ok(StepReader {
            window,
            form,
            last: None,
            place: count as u64,
        })
    }

    /// Reads the next line. `None`: none stands there that may, or the text is at its end. After a failed read it may be
    /// called again.
    pub fn next<S: Source>(&mut self, source: &mut S) -> Result<Option<Line>, Failed>
        requires known { KnowsEnd self.old.window (S.state source.old) }
        requires place { self.old.place < 2 ^ 63 }
        ensures { MatchResult result (λ line. Reads self.old self.new (S.state source.old) (S.state source.new) line) (λ e. FailsToRead self.old self.new (S.state source.old) (S.state source.new)) }
    {
        self.window.fill_up(source)?;
        let found = line_in_front(self.form, &self.last, self.window.waiting());
        let Some((line, count)) = found else {
            return Ok(None);
        };
        self.window.take(count);
        self.place += count as u64;
        self.last = Some(line);
        Ok(Some(line))
    }

    /// The place behind the last line that was read, in bytes of the text.
    pub fn place(&self) -> u64
        ensures { result ≡ self.now.place }
    {
        self.place
    }

    /// Whether the text is at its end.
    pub fn is_at_end<S: Source>(&mut self, source: &mut S) -> Result<bool, Failed>
        requires known { KnowsEnd self.old.window (S.state source.old) }
        ensures { MatchResult result (λ over. IsWhereItWas self.old self.new (S.state source.old) (S.state source.new) × ((text : List ℕ) → ahead self.new.window (S.state source.new) ≡ Some text → (IsTrue over ↔ (text ≡ []))) × ((S.state source.new).faults ≡ (S.state source.old).faults)) (λ e. FailsToRead self.old self.new (S.state source.old) (S.state source.new)) }
    {
        self.window.fill_up(source)?;
        Ok(self.window.waiting().is_empty())
    }

    /// Takes all bytes that follow, or as many as are too many. No line is read any more.
    pub fn take_rest<S: Source>(&mut self, source: &mut S) -> Result<(), Failed>
        requires known { KnowsEnd self.old.window (S.state source.old) }
        requires short { self.old.place < too_long }
        ensures { MatchResult result (λ e. TakesRest self.old.window self.new.window (S.state source.old) (S.state source.new) self.old.place self.new.place) (λ e. FailsToTake self.old.window self.new.window (S.state source.old) (S.state source.new)) }
    {
        self.place = self.window.take_rest(source, self.place)?;
        Ok(())
    }
}
