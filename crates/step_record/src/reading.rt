//! Records, read from their lines.

ghost use Rattle.std.specs.Prelude.{◌≡◌, ◌≢◌, ℕ, ◌+◌, ◌<◌, ◌≤◌, ◌++◌, ◌↔◌, List, length, drop, Some, None, Ok, IsErr, IfOk, IfErr, IfSome};
ghost use Rattle.step_line.specs.declared.Record.{Record};
ghost use Rattle.step_line.specs.Records.{IsRecord};
ghost use Rattle.step_record.specs.Texts.{IsLineOf, record_text};
ghost use Rattle.step_record.specs.Reading.{seen, head_at, axis_at, event_at, dwell_at, turn_at, plain_at, cut_at, reset_at, mark_at, record_at, run_at, version_at, line_at};
ghost use Rattle.step_record.specs.declared.forms.Line.{Line};
ghost use Rattle.step_record.specs.Forms.{IsLine, StandsFrom, line_text};

use crate::numbers::{after, number_at, short_number_at};
use crate::{BadRecord, Line};
use step_line::{Bits, Head, Mark, Record, SpindleCode};

/// A segment's head.
#[tactic(auto, unfolding(crate::specs::Reading::head_at))]
fn head_at(text: &[u8]) -> Option<(Head, &[u8])>
    ensures { seen result ≡ head_at text.now }
{
    let rest = after(b"s ", text)?;
    let (line, rest) = short_number_at(rest, b' ')?;
    let (n, rest) = short_number_at(rest, b' ')?;
    let (w, rest) = number_at(rest, b' ')?;
    let (cycles, rest) = number_at(rest, b'\n')?;
    if line == 0 || n == 0 {
        return None;
    }
    let head = Head { line, n, w, cycles };
    Some((head, rest))
}

/// The step of an axis, 0 where its letter does not begin the text.
#[tactic(auto, unfolding(crate::specs::Reading::axis_at))]
fn axis_at(text: &[u8], letter: u8) -> (i8, &[u8])
    ensures { (result.0, result.1.now) ≡ axis_at text.now letter }
{
    match text {
        [first, b'+', rest @ ..] if *first == letter => (1, rest),
        [first, b'-', rest @ ..] if *first == letter => (-1, rest),
        _ => (0, text),
    }
}

/// An event.
#[tactic(auto, unfolding(crate::specs::Reading::event_at))]
fn event_at(text: &[u8]) -> Option<(Bits, &[u8])>
    ensures { seen result ≡ event_at text.now }
{
    let (x, rest) = axis_at(text, b'X');
    let (y, rest) = axis_at(rest, b'Y');
    let (z, rest) = axis_at(rest, b'Z');
    let rest = after(b"\n", rest)?;
    if x == 0 && y == 0 && z == 0 {
        return None;
    }
    Some((Bits { x, y, z }, rest))
}

/// A dwell.
#[tactic(auto, unfolding(crate::specs::Reading::dwell_at))]
fn dwell_at(text: &[u8]) -> Option<(Mark, &[u8])>
    ensures { seen result ≡ dwell_at text.now }
{
    let rest = after(b"D ", text)?;
    let (ms, rest) = number_at(rest, b'\n')?;
    Some((Mark::Dwell(ms), rest))
}

/// A spindle that turns.
#[tactic(auto, unfolding(crate::specs::Reading::turn_at))]
fn turn_at<'a>(name: &[u8], code: SpindleCode, text: &'a [u8]) -> Option<(Mark, &'a [u8])>
    ensures { seen result ≡ turn_at name.now code text.now }
{
    let rest = after(name, text)?;
    let (speed, rest) = short_number_at(rest, b'\n')?;
    Some((Mark::Spindle(code, speed), rest))
}

/// A mark that has no number.
#[tactic(auto, unfolding(crate::specs::Reading::plain_at))]
fn plain_at<'a>(name: &[u8], mark: Mark, text: &'a [u8]) -> Option<(Mark, &'a [u8])>
    ensures { seen result ≡ plain_at name.now mark text.now }
{
    let rest = after(name, text)?;
    Some((mark, rest))
}

/// A cut.
#[tactic(auto, unfolding(crate::specs::Reading::cut_at))]
fn cut_at(text: &[u8]) -> Option<(Mark, &[u8])>
    ensures { seen result ≡ cut_at text.now }
{
    let rest = after(b"X ", text)?;
    let (line, rest) = short_number_at(rest, b'\n')?;
    Some((Mark::Cut(line), rest))
}

/// A reset.
#[tactic(auto, unfolding(crate::specs::Reading::reset_at))]
fn reset_at(text: &[u8]) -> Option<(Mark, &[u8])>
    ensures { seen result ≡ reset_at text.now }
{
    let rest = after(b"Z ", text)?;
    let (line, rest) = short_number_at(rest, b'\n')?;
    Some((Mark::Reset(line), rest))
}

/// A mark.
#[tactic(auto, unfolding(crate::specs::Reading::mark_at))]
fn mark_at(text: &[u8]) -> Option<(Mark, &[u8])>
    ensures { seen result ≡ mark_at text.now }
{
    dwell_at(text)
        .or_else(|| turn_at(b"M3 ", SpindleCode::M3, text))
        .or_else(|| turn_at(b"M4 ", SpindleCode::M4, text))
        .or_else(|| plain_at(b"M5 0\n", Mark::Spindle(SpindleCode::M5, 0), text))
        .or_else(|| plain_at(b"M8 0\n", Mark::Coolant(true), text))
        .or_else(|| plain_at(b"M9 0\n", Mark::Coolant(false), text))
        .or_else(|| cut_at(text))
        .or_else(|| reset_at(text))
}

/// A record.
#[tactic(auto, unfolding(crate::specs::Reading::record_at))]
fn record_at(text: &[u8]) -> Option<(Record, &[u8])>
    ensures { seen result ≡ record_at text.now }
{
    if let Some((bits, rest)) = event_at(text) {
        return Some((Record::Event(bits), rest));
    }
    if let Some((head, rest)) = head_at(text) {
        return Some((Record::Head(head), rest));
    }
    if let Some((mark, rest)) = mark_at(text) {
        return Some((Record::Mark(mark), rest));
    }
    let rest = after(b"E\n", text)?;
    Some((Record::End, rest))
}

/// The record whose line begins at a place, and what follows the line.
fn record_from(text: &[u8], at: usize) -> Option<(Record, &[u8])>
    requires { at ≤ length text.now }
    ensures { seen result ≡ record_at (drop at text.now) }
{
    record_at(&text[at..])
}

/// The record whose line begins at `at`, and the place behind that line. `None` is the text's end. No line of another
/// form is read, and each line that `put_record` puts is, whatever follows it.
///
/// Errors: `BadRecord` with `at`, where no record's line begins there.
pub fn next_record(text: &[u8], at: usize) -> Result<Option<(Record, usize)>, BadRecord>
    requires { at ≤ length text.now }
    ensures found { IfOk result (λ next. IfSome next (λ found. IsLineOf found.0 text.now at found.1)) }
    ensures place { IfOk result (λ next. IfSome next (λ found. (at < found.1) × (found.1 ≤ length text.now))) }
    ensures each { (r : Record) (rest : List ℕ) → IsRecord r → drop at text.now ≡ record_text r ++ rest →
        result ≡ Ok (Some (r, at + length (record_text r))) }
    ensures end { (result ≡ Ok None) ↔ (at ≡ length text.now) }
    ensures bad { IsErr result ↔ ((at < length text.now) × ((r : Record) (rest : List ℕ) → IsRecord r → drop at text.now ≢ record_text r ++ rest)) }
    ensures bad_place { IfErr result (λ bad. bad.at ≡ at) }
{
    if at == text.len() {
        return Ok(None);
    }
    match record_from(text, at) {
        Some((record, rest)) => Ok(Some((record, text.len() - rest.len()))),
        None => Err(BadRecord { at }),
    }
}

/// Equal events that one line stands for.
#[tactic(auto, unfolding(crate::specs::Reading::run_at))]
fn run_at(text: &[u8]) -> Option<(Line, &[u8])>
    ensures { seen result ≡ run_at text.now }
{
    let rest = after(b"R ", text)?;
    let (n, rest) = short_number_at(rest, b' ')?;
    let (bits, rest) = event_at(rest)?;
    if n < 2 {
        return None;
    }
    Some((Line::Run(n, bits), rest))
}

/// The version.
#[tactic(auto, unfolding(crate::specs::Reading::version_at))]
fn version_at(text: &[u8], at: usize) -> Option<(Line, &[u8])>
    ensures { seen result ≡ version_at text.now at }
{
    if at != 0 {
        return None;
    }
    let rest = after(b"V 2\n", text)?;
    Some((Line::Version, rest))
}

/// A line of a text of either form.
#[tactic(auto, unfolding(crate::specs::Reading::line_at))]
fn line_at(text: &[u8], at: usize) -> Option<(Line, &[u8])>
    ensures { seen result ≡ line_at text.now at }
{
    if let Some((record, rest)) = record_at(text) {
        return Some((Line::One(record), rest));
    }
    if let Some((run, rest)) = run_at(text) {
        return Some((run, rest));
    }
    version_at(text, at)
}

/// The line that begins at a place, and what follows it.
fn line_from(text: &[u8], at: usize) -> Option<(Line, &[u8])>
    requires { at ≤ length text.now }
    ensures { seen result ≡ line_at (drop at text.now) at }
{
    line_at(&text[at..], at)
}

/// The line of form 1 or 2 that begins at `at`, and the place behind it; the version only where the text begins. `None` is the
/// text's end. Each line that a recorder writes is read, whatever follows it, and runs of equal events may stand together.
///
/// Errors: `BadRecord` with `at`, where none of these lines begins there.
pub fn next_line(text: &[u8], at: usize) -> Result<Option<(Line, usize)>, BadRecord>
    requires { at ≤ length text.now }
    ensures found { IfOk result (λ next. IfSome next (λ found. StandsFrom found.0 text.now at found.1)) }
    ensures place { IfOk result (λ next. IfSome next (λ found. (at < found.1) × (found.1 ≤ length text.now))) }
    ensures each { (l : Line) (rest : List ℕ) → IsLine l at → drop at text.now ≡ line_text l ++ rest →
        result ≡ Ok (Some (l, at + length (line_text l))) }
    ensures end { (result ≡ Ok None) ↔ (at ≡ length text.now) }
    ensures bad { IsErr result ↔ ((at < length text.now) × ((l : Line) (rest : List ℕ) → IsLine l at → drop at text.now ≢ line_text l ++ rest)) }
    ensures bad_place { IfErr result (λ bad. bad.at ≡ at) }
{
    if at == text.len() {
        return Ok(None);
    }
    match line_from(text, at) {
        Some((line, rest)) => Ok(Some((line, text.len() - rest.len()))),
        None => Err(BadRecord { at }),
    }
}
