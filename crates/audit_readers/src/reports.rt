//! Status reports, read from their texts.

ghost use Rattle.std.specs.Prelude.{◌≡◌, ◌↔◌, IsTrue, ◌≤◌, ◌*◌, ◌+◌, ◌+ℤ◌, ◌++◌, ℕ, nat_abs, List, IfSome, Some, None, option_map, length, drop};
ghost use Rattle.units.specs.declared.Nm3.{Nm3 as AnyPlace};
ghost use Rattle.modal_state.specs.Modes.{IsWithin};
ghost use Rattle.status_report.specs.declared.reports.Report.{Report as AnyReport};
ghost use Rattle.status_report.specs.declared.Reply.TheVariants as replies;
ghost use Rattle.status_report.specs.Reports.{IsReport, HasWidths, farthest_told};
ghost use Rattle.status_report.specs.Replies.{reply_text};
ghost use Rattle.step_record.specs.Reading.{seen};
ghost use Rattle.audit_readers.specs.Reports.{byte_at, fraction_at, magnitude_at, negative_at, fixed_at, place_at, named_at, state_at, machine_at, free_at, buffer_at, speeds_at, offset_at, overrides_at, machine_place, report_at};

use crate::texts::begins_with;
use overrides::Overrides;
use status_report::{Reply, Report, State};
use step_record::number_at;
use units::Nm3;

/// A number of one byte, which another byte ends.
#[tactic(auto, unfolding(crate::specs::Reports::byte_at))]
fn byte_at(text: &[u8], end: u8) -> Option<(u8, &[u8])>
    ensures { seen result ≡ byte_at text.now end }
{
    let (n, rest) = number_at(text, end)?;
    let n = u8::try_from(n).ok()?;
    Some((n, rest))
}

/// Three digits, which a byte ends.
#[tactic(auto, unfolding(crate::specs::Reports::fraction_at))]
fn fraction_at(text: &[u8], end: u8) -> Option<(u64, &[u8])>
    ensures value { seen result ≡ fraction_at text.now end }
    ensures small { IfSome result (λ found. found.0 ≤ 999) }
{
    let [a, b, c, e, rest @ ..] = text else {
        return None;
    };
    if a.is_ascii_digit() && b.is_ascii_digit() && c.is_ascii_digit() && *e == end {
        let value = (*a - b'0') as u64 * 100 + (*b - b'0') as u64 * 10 + (*c - b'0') as u64;
        return Some((value, rest));
    }
    None
}

/// Thousandths with three decimals, with no sign.
#[tactic(auto, unfolding(crate::specs::Reports::magnitude_at))]
fn magnitude_at(text: &[u8], end: u8) -> Option<(u64, &[u8])>
    ensures value { seen result ≡ magnitude_at text.now end }
    ensures small { IfSome result (λ found. found.0 ≤ 2000000000999) }
{
    let (whole, rest) = number_at(text, b'.')?;
    let (fraction, rest) = fraction_at(rest, end)?;
    if whole > 2_000_000_000 {
        return None;
    }
    Some((whole * 1000 + fraction, rest))
}

/// Thousandths with three decimals behind a minus.
#[tactic(auto, unfolding(crate::specs::Reports::negative_at))]
fn negative_at(text: &[u8], end: u8) -> Option<(i64, &[u8])>
    ensures value { seen result ≡ negative_at text.now end }
    ensures small { IfSome result (λ found. nat_abs found.0 ≤ 2000000000999) }
{
    let rest = text.strip_prefix(b"-")?;
    let (n, rest) = magnitude_at(rest, end)?;
    Some((0 - n as i64, rest))
}

/// Thousandths with three decimals.
#[tactic(auto, unfolding(crate::specs::Reports::fixed_at))]
fn fixed_at(text: &[u8], end: u8) -> Option<(i64, &[u8])>
    ensures value { seen result ≡ fixed_at text.now end }
    ensures small { IfSome result (λ found. nat_abs found.0 ≤ 2000000000999) }
{
    if let Some((n, rest)) = magnitude_at(text, end) {
        return Some((n as i64, rest));
    }
    negative_at(text, end)
}

/// A place in thousandths of a mm.
#[tactic(auto, unfolding(crate::specs::Reports::place_at))]
fn place_at(text: &[u8], end: u8) -> Option<(Nm3, &[u8])>
    ensures value { seen result ≡ place_at text.now end }
    ensures small { IfSome result (λ found. IsWithin 2000000000999 found.0) }
{
    let (x, rest) = fixed_at(text, b',')?;
    let (y, rest) = fixed_at(rest, b',')?;
    let (z, rest) = fixed_at(rest, end)?;
    Some((Nm3 { x, y, z }, rest))
}

/// The state, and the bar behind it.
#[tactic(auto, unfolding(crate::specs::Reports::state_at))]
fn state_at(text: &[u8]) -> Option<(State, &[u8])>
    ensures { seen result ≡ state_at text.now }
{
    if let Some(rest) = text.strip_prefix(b"<Idle|") {
        return Some((State::Idle, rest));
    }
    if let Some(rest) = text.strip_prefix(b"<Run|") {
        return Some((State::Run, rest));
    }
    if let Some(rest) = text.strip_prefix(b"<Hold:0|") {
        return Some((State::Hold0, rest));
    }
    if let Some(rest) = text.strip_prefix(b"<Hold:1|") {
        return Some((State::Hold1, rest));
    }
    if let Some(rest) = text.strip_prefix(b"<Jog|") {
        return Some((State::Jog, rest));
    }
    let rest = text.strip_prefix(b"<Alarm|")?;
    Some((State::Alarm, rest))
}

/// Whether the position is that of the machine.
#[tactic(auto, unfolding(crate::specs::Reports::machine_at))]
fn machine_at(text: &[u8]) -> Option<(bool, &[u8])>
    ensures { seen result ≡ machine_at text.now }
{
    if let Some(rest) = text.strip_prefix(b"MPos:") {
        return Some((true, rest));
    }
    let rest = text.strip_prefix(b"WPos:")?;
    Some((false, rest))
}

/// The free blocks and bytes.
#[tactic(auto, unfolding(crate::specs::Reports::free_at))]
fn free_at(text: &[u8]) -> Option<(Option<(u8, u8)>, &[u8])>
    ensures { seen result ≡ free_at text.now }
{
    let rest = text.strip_prefix(b"Bf:")?;
    let (blocks, rest) = byte_at(rest, b',')?;
    let (bytes, rest) = byte_at(rest, b'|')?;
    Some((Some((blocks, bytes)), rest))
}

/// The free blocks and bytes, if they are told.
#[tactic(auto, unfolding(crate::specs::Reports::buffer_at))]
fn buffer_at(text: &[u8]) -> Option<(Option<(u8, u8)>, &[u8])>
    ensures { seen result ≡ buffer_at text.now }
{
    if let Some(found) = free_at(text) {
        return Some(found);
    }
    Some((None, text))
}

/// The feed and the spindle speed.
#[tactic(auto, unfolding(crate::specs::Reports::speeds_at))]
fn speeds_at(text: &[u8]) -> Option<((u64, u64), &[u8])>
    ensures { seen result ≡ speeds_at text.now }
{
    let rest = text.strip_prefix(b"FS:")?;
    let (feed, rest) = number_at(rest, b',')?;
    let (speed, rest) = number_at(rest, b'|')?;
    Some(((feed, speed), rest))
}

/// The offset of the work.
#[tactic(auto, unfolding(crate::specs::Reports::offset_at))]
fn offset_at(text: &[u8]) -> Option<(Nm3, &[u8])>
    ensures value { seen result ≡ offset_at text.now }
    ensures small { IfSome result (λ found. IsWithin 2000000000999 found.0) }
{
    let rest = text.strip_prefix(b"WCO:")?;
    place_at(rest, b'|')
}

/// The overrides, and the end of a report.
#[tactic(auto, unfolding(crate::specs::Reports::overrides_at))]
fn overrides_at(text: &[u8]) -> Option<(Overrides, &[u8])>
    ensures { seen result ≡ overrides_at text.now }
{
    let rest = text.strip_prefix(b"Ov:")?;
    let (feed, rest) = byte_at(rest, b',')?;
    let (rapid, rest) = byte_at(rest, b',')?;
    let (spindle, rest) = byte_at(rest, b'>')?;
    let ov = Overrides {
        feed,
        rapid,
        spindle,
    };
    Some((ov, rest))
}

/// The sum of two lengths.
fn sum(a: i64, b: i64) -> i64
    requires a { nat_abs a ≤ 2000000000999 }
    requires b { nat_abs b ≤ 2000000000999 }
    ensures { result ≡ a +ℤ b }
{
    a + b
}

/// The position of the machine, by the one that is shown.
fn machine_place(machine: bool, shown: Nm3, wco: Nm3) -> Nm3
    requires shown { IsWithin 2000000000999 shown }
    requires wco { IsWithin 2000000000999 wco }
    ensures { result ≡ machine_place machine shown wco }
{
    if machine {
        return shown;
    }
    Nm3 {
        x: sum(shown.x, wco.x),
        y: sum(shown.y, wco.y),
        z: sum(shown.z, wco.z),
    }
}

/// A report, up to the bar that ends it, and what follows.
#[tactic(auto, unfolding(crate::specs::Reports::report_at))]
fn report_at(text: &[u8]) -> Option<(Report, &[u8])>
    ensures { seen result ≡ report_at text.now }
{
    let (state, rest) = state_at(text)?;
    let (machine, rest) = machine_at(rest)?;
    let (shown, rest) = place_at(rest, b'|')?;
    let (buffer, rest) = buffer_at(rest)?;
    let (speeds, rest) = speeds_at(rest)?;
    let (wco, rest) = offset_at(rest)?;
    let (ov, rest) = overrides_at(rest)?;
    let at = machine_place(machine, shown, wco);
    let report = Report {
        state,
        machine,
        at,
        buffer,
        f: speeds.0,
        s: speeds.1,
        wco,
        ov,
    };
    Some((report, rest))
}

/// A length that reports tell.
fn is_near(length: i64) -> bool
    ensures { IsTrue result ↔ (nat_abs length ≤ farthest_told) }
{
    length.unsigned_abs() <= 1_000_000_000_000
}

/// Whether a place is one that reports tell.
fn is_told(place: &Nm3) -> bool
    ensures { IsTrue result ↔ IsWithin farthest_told place.now }
{
    is_near(place.x) && is_near(place.y) && is_near(place.z)
}

/// Whether a report is one that a board can give.
fn is_report(report: &Report) -> bool
    ensures { IsTrue result ↔ IsReport report.now }
{
    is_told(&report.at) && is_told(&report.wco)
}

/// The report that can only be meant.
fn meant(text: &[u8]) -> Option<Report>
    ensures valid { IfSome result IsReport }
    ensures each { (report : AnyReport) (rest : List ℕ) → IsReport report → HasWidths report → text.now ≡ reply_text (replies.Report report) ++ rest → result ≡ Some report }
{
    let Some((report, _)) = report_at(text) else {
        return None;
    };
    if is_report(&report) {
        return Some(report);
    }
    None
}

/// A report's numbers are as wide as their types.
fn known_widths(report: Report) -> Report
    ensures same { result ≡ report }
    ensures widths { HasWidths report }
{
    report
}

/// The report whose text begins a text, if one that a board can give does.
pub fn report_in(text: &[u8]) -> Option<Report>
    ensures found { IfSome result (λ report. IsReport report × HasWidths report × (text.now ≡ reply_text (replies.Report report) ++ drop (length (reply_text (replies.Report report))) text.now)) }
    ensures each { (report : AnyReport) (rest : List ℕ) → IsReport report → HasWidths report → text.now ≡ reply_text (replies.Report report) ++ rest → result ≡ Some report }
{
    let Some(report) = meant(text) else {
        return None;
    };
    let report = known_widths(report);
    if begins_with(&Reply::Report(report), text) {
        return Some(report);
    }
    None
}
