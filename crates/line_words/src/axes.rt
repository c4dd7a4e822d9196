//! Where the axis words of a line go.

ghost use Rattle.std.specs.Prelude.{◌≡◌, ◌≤◌, ◌<◌, ◌+ℤ◌, nat_abs, true, length, IfSome, unwrap_or, option_map};
ghost use Rattle.code_table.specs.Tables.{code};
ghost use Rattle.modal_state.specs.Modes.{IsParser, IsWithin, farthest, plus};
ghost use Rattle.line_words.specs.Codes.{has_g};
ghost use Rattle.line_words.specs.Targets.{named, replaced, shifted, picked, line_offset, datum, target, moves, targets_motion, targets_home, targets, longest, IsLength, AreLengths};

use crate::commands::{G0, G1, G10, G28, G30, G53, G92};
use crate::line::Line;
use crate::modes::{inch_of, length_given, names_axis, relative_of, system_of};
use arrayvec::ArrayVec;
use modal_state::Parser;
use units::Nm3;

/// A length for each axis that is named.
#[derive(Clone, Copy)]
pub struct Lengths {
    pub x: Option<i64>,
    pub y: Option<i64>,
    pub z: Option<i64>,
}

/// The lengths that a line names, in nm.
pub fn named(p: &Parser, line: &Line<'_>) -> Lengths
    ensures lengths { result ≡ named p.now line.now }
    ensures small { AreLengths result }
{
    let inch = inch_of(p, line);
    Lengths {
        x: length_given(b'X', inch, line),
        y: length_given(b'Y', inch, line),
        z: length_given(b'Z', inch, line),
    }
}

/// A length or else another.
fn or_length(named: Option<i64>, other: i64) -> i64
    ensures { result ≡ unwrap_or named other }
{
    match named {
        Some(length) => length,
        None => other,
    }
}

/// A point with the named axes replaced.
pub fn replaced(at: &Nm3, named: &Lengths) -> Nm3
    ensures { result ≡ replaced at.now named.now }
{
    Nm3 {
        x: or_length(named.x, at.x),
        y: or_length(named.y, at.y),
        z: or_length(named.z, at.z),
    }
}

/// A length further by another.
fn further(named: Option<i64>, by: i64) -> Option<i64>
    requires named { IfSome named IsLength }
    requires by { nat_abs by ≤ longest }
    ensures { result ≡ option_map (λ v. v +ℤ by) named }
{
    match named {
        Some(length) => Some(length + by),
        None => None,
    }
}

/// The named axes, each by so much further.
fn shifted(named: &Lengths, by: &Nm3) -> Lengths
    requires named { AreLengths named.now }
    requires by { IsWithin longest by.now }
    ensures { result ≡ shifted named.now by.now }
{
    Lengths {
        x: further(named.x, by.x),
        y: further(named.y, by.y),
        z: further(named.z, by.z),
    }
}

/// A coordinate where its axis is named.
fn pick(named: Option<i64>, at: i64) -> Option<i64>
    ensures { result ≡ option_map (λ v. at) named }
{
    match named {
        Some(_) => Some(at),
        None => None,
    }
}

/// A point on the named axes.
fn picked(named: &Lengths, at: &Nm3) -> Lengths
    ensures { result ≡ picked named.now at.now }
{
    Lengths {
        x: pick(named.x, at.x),
        y: pick(named.y, at.y),
        z: pick(named.z, at.z),
    }
}

/// A sum of two lengths.
fn sum(a: i64, b: i64) -> i64
    requires a { nat_abs a ≤ farthest }
    requires b { nat_abs b ≤ farthest }
    ensures sum { result ≡ a +ℤ b }
    ensures size { nat_abs result ≤ longest }
{
    a + b
}

/// A point and a way from it.
fn plus(a: &Nm3, b: &Nm3) -> Nm3
    requires a { IsWithin farthest a.now }
    requires b { IsWithin farthest b.now }
    ensures sum { result ≡ plus a.now b.now }
    ensures size { IsWithin longest result }
{
    Nm3 {
        x: sum(a.x, b.x),
        y: sum(a.y, b.y),
        z: sum(a.z, b.z),
    }
}

/// The offset of the line's system.
pub fn line_offset(p: &Parser, line: &Line<'_>) -> Nm3
    requires { IsParser p.now }
    ensures offset { result ≡ line_offset p.now line.now }
    ensures small { IsWithin farthest result }
{
    p.offsets.of_system(system_of(p, line))
}

/// The origin of the machine.
pub const ORIGIN: Nm3 = Nm3 { x: 0, y: 0, z: 0 };

/// From where the values of a line count.
fn datum(p: &Parser, line: &Line<'_>) -> Nm3
    requires { IsParser p.now }
    ensures datum { result ≡ datum p.now line.now }
    ensures small { IsWithin longest result }
{
    if line.has(G53) {
        ORIGIN
    } else if relative_of(p, line) {
        p.pos_nm
    } else {
        plus(&line_offset(p, line), &p.offsets.g92)
    }
}

/// Where the axis words of a line go, in machine coordinates: an axis that is not named keeps its position.
#[tactic(auto, unfolding(crate::specs::Targets::target))]
pub fn target(p: &Parser, line: &Line<'_>) -> Nm3
    requires { IsParser p.now }
    ensures { result ≡ target p.now line.now }
{
    replaced(&p.pos_nm, &shifted(&named(p, line), &datum(p, line)))
}

/// Whether the axis words of a line are the motion's.
pub fn moves(line: &Line<'_>) -> bool
    ensures { result ≡ moves line.now }
{
    let other = line.has(G10) || line.has(G28) || line.has(G30) || line.has(G92);
    !other && (line.has(G0) || line.has(G1) || names_axis(line))
}

/// The points that a line moves to.
pub type Targets = ArrayVec<Nm3, 2>;

/// The targets on the way to a stored point.
fn targets_home(p: &Parser, line: &Line<'_>, home: Nm3) -> Targets
    requires { IsParser p.now }
    ensures targets { result.items ≡ targets_home p.now line.now home }
    ensures two { length result.items ≤ 2 }
{
    let mut targets = ArrayVec::new();
    if names_axis(line) {
        let first = target(p, line);
        targets.push(first);
        targets.push(replaced(&first, &picked(&named(p, line), &home)));
    } else {
        targets.push(home);
    }
    targets
}

/// The target of a motion.
fn targets_motion(p: &Parser, line: &Line<'_>) -> Targets
    requires { IsParser p.now }
    ensures targets { result.items ≡ targets_motion p.now line.now }
    ensures one { length result.items ≤ 1 }
{
    let mut targets = ArrayVec::new();
    if moves(line) && names_axis(line) {
        targets.push(target(p, line));
    }
    targets
}

/// The points that a line moves to, in their order: at most two, and at most one beside a dwell.
#[tactic(auto, unfolding(crate::specs::Targets::targets))]
pub fn targets(p: &Parser, line: &Line<'_>) -> Targets
    requires { IsParser p.now }
    ensures targets { result.items ≡ targets p.now line.now }
    ensures two { length result.items ≤ 2 }
    ensures one { has_g (code 4 0) line.now ≡ true → length result.items ≤ 1 }
{
    if line.has(G28) {
        targets_home(p, line, p.offsets.home28)
    } else if line.has(G30) {
        targets_home(p, line, p.offsets.home30)
    } else {
        targets_motion(p, line)
    }
}
