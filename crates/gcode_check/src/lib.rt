//! What becomes of a line of G-code: the first error that refuses it, a soft limit, or what it does.
#![tactic(auto)]

ghost use Rattle.std.specs.Prelude.{◌≡◌, ℕ, ◌<◌, ◌≤◌, All, length, map, IfSome, IfErr, OnOk, OnErr, None, true, []};
ghost use Rattle.units.specs.Lengths.{IsPlace};
ghost use Rattle.gcode_words.specs.Words.{IsSmallWord};
ghost use Rattle.code_table.specs.Tables.{code};
ghost use Rattle.modal_state.specs.Modes.{IsParser};
ghost use Rattle.settings.specs.Numbers.{IsSettings};
ghost use Rattle.line_words.specs.Codes.{has_g};
ghost use Rattle.line_words.specs.WordRefusals.{words_refusal, refusal_at, IsFirstRefused};
ghost use Rattle.line_words.specs.Targets.{targets};
ghost use Rattle.gcode_check.specs.NewOffsets.{new_offset};
ghost use Rattle.travel_limits.specs.Reach.{IsNear};
ghost use Rattle.gcode_check.specs.Conditions.{line_refusal};
ghost use Rattle.gcode_check.specs.Verdicts.{verdict, verdict_of, unless_refused, IsSoundVerdict};
ghost use Rattle.gcode_check.specs.Items.{IsItem};

mod conditions;
mod effects;
mod items;
mod laws;
mod offsets;

use arrayvec::ArrayVec;
use code_table::Code;
use conditions::line_refusal;
use effects::{modal_after, stops, take_effects};
use gcode_words::Words;
use items::push_items;
pub use laws::{
    lines_without_axes_stay, moves_end_at_the_position, moves_join, offsets_read_as_said,
    refused_lines_change_nothing, verdicts_have_one_cause,
};
use line_words::{Line, targets};
use modal_state::{Parser, SpindleMode};
use settings::Settings;
use travel_limits::leave_travel;
use units::{Move, Rate};

/// What a line gives to do.
#[derive(Clone, Copy, Debug, PartialEq, Eq)]
pub enum Item {
    /// The spindle turns so, at a speed, which is 0 with M5.
    Spindle(SpindleMode, u32),
    /// The coolant flows or stops.
    Coolant(bool),
    /// A wait, in milliseconds.
    Dwell(u64),
    Move(Move, Rate),
    /// A feed hold behind what stands before it.
    Pause,
    ProgramEnd,
}

// What stands in the free room of a list of items: all its bytes are zero.
impl Default for Item {
    fn default() -> Item
        ensures { result ≡ Item.Spindle SpindleMode.Off 0 }
    {
        Item::Spindle(SpindleMode::Off, 0)
    }
}

/// What a line gives to do, in this order.
pub type Items = ArrayVec<Item, 5>;

/// What an accepted line leaves and gives.
#[derive(Clone, Debug, Drop, PartialEq, Eq)]
pub struct Accept {
    /// The state behind the line.
    pub next: Parser,
    /// What is to be done.
    pub items: Items,
}

/// What becomes of a line.
#[derive(Clone, Debug, Drop, PartialEq, Eq)]
pub enum Verdict {
    Accept(Accept),
    /// The number of the first error that holds.
    Refuse(Code),
    /// No error holds, and a soft limit forbids a target.
    Limit,
}

/// Whether the words of a line pass, from left to right, each by those before it: the error of the first that does not.
pub fn check_words(w: &Words) -> Result<(), Code>
    requires { All IsSmallWord w.now.items }
    ensures refusal { result ≡ unless_refused (words_refusal w.now.items) }
    ensures refused { IfErr result (λ code. IsFirstRefused w.now.items code) }
    ensures passed { OnOk result ((place : ℕ) → place < length w.now.items → refusal_at w.now.items place ≡ None) }
{
    match Line::read(w.as_slice()) {
        Ok(_) => Ok(()),
        Err(code) => Err(code),
    }
}

/// Why a line is not accepted.
#[derive(Clone, Copy)]
pub enum Refusal {
    /// The number of the first error that holds.
    Error(Code),
    /// No error holds, and a soft limit forbids a target.
    SoftLimit,
}

impl Refusal {
    /// The verdict on a line that is not accepted.
    fn verdict(self) -> Verdict
        ensures verdict { result ≡ verdict_of self }
        ensures valid { IsSoundVerdict result }
    {
        match self {
            Refusal::Error(code) => Verdict::Refuse(code),
            Refusal::SoftLimit => Verdict::Limit,
        }
    }
}

/// Takes a line: an accepted line leaves its state in the parser and gives its items. Where the error of the first word
/// that does not pass, or else the first error of the line, or else a soft limit refuses it, the parser stays as it was
/// and there are no items. Nothing is copied: a program that goes on with the state behind the line calls this.
pub fn take_line(p: &mut Parser, s: &Settings, w: &Words, items: &mut Items) -> Result<(), Refusal>
    requires words { All IsSmallWord w.now.items }
    requires parser { IsParser p.old }
    requires settings { IsSettings s.now }
    ensures accepted { OnOk result (verdict p.old s.now w.now.items ≡ Verdict.Accept (record { next = p.new; items = items.new })) }
    ensures refused { IfErr result (λ refusal. verdict p.old s.now w.now.items ≡ verdict_of refusal) }
    ensures same { OnErr result (p.new ≡ p.old) }
    ensures none { OnErr result (items.new.items ≡ []) }
    ensures valid { IsParser p.new }
    ensures sound { All IsItem items.new.items }
{
    items.clear();
    let line = match Line::read(w.as_slice()) {
        Ok(line) => line,
        Err(code) => return Err(Refusal::Error(code)),
    };
    let points = targets(p, &line);
    let points = points.as_slice();
    let modal = modal_after(p, &line);
    if let Some(code) = line_refusal(p, &line, modal.motion, points) {
        return Err(Refusal::Error(code));
    }
    if leave_travel(s, points) {
        return Err(Refusal::SoftLimit);
    }
    let stops = stops(points, &s.limits.per_mm);
    let stops = stops.as_slice();
    push_items(items, p, &line, &modal, stops);
    take_effects(p, &line, &modal, points, stops);
    Ok(())
}

/// What becomes of a line: the error of the first word that does not pass, or else the first error of the line, or else
/// a soft limit, or else what the line leaves and gives.
pub fn check(p: &Parser, s: &Settings, w: &Words) -> Verdict
    requires words { All IsSmallWord w.now.items }
    requires parser { IsParser p.now }
    requires settings { IsSettings s.now }
    ensures verdict { result ≡ verdict p.now s.now w.now.items }
    ensures valid { IsSoundVerdict result }
{
    let mut next = *p;
    let mut items = Items::new();
    match take_line(&mut next, s, w, &mut items) {
        Ok(()) => Verdict::Accept(Accept { next, items }),
        Err(refusal) => refusal.verdict(),
    }
}
