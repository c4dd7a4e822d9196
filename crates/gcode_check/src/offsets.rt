//! The offsets that a line sets.

ghost use Rattle.std.specs.Prelude.{◌≡◌, ◌*◌, ◌≤◌, ◌<◌, ◌-ℤ◌, nat_abs, true, IfSome, option_map};
ghost use Rattle.units.specs.Lengths.{minus};
ghost use Rattle.units.specs.declared.Decimal.{Decimal};
ghost use Rattle.modal_state.specs.Modes.{IsParser, IsWithin, farthest, offset_of};
ghost use Rattle.line_words.specs.Targets.{longest, IsLength, AreLengths};
ghost use Rattle.gcode_check.specs.NewOffsets.{is_exactly, has_l, set_system, less, new_system_offset, new_g92, new_offset};

use line_words::commands::{G10, G92};
use line_words::{Lengths, Line, ORIGIN, line_offset, named, replaced, system_of, whole_given};
use modal_state::Parser;
use units::{Decimal, Nm3};

/// Whether a value is a whole number.
fn is_exactly(n: u64, value: Option<Decimal>) -> bool
    requires { n ≤ 100 }
    ensures { result ≡ is_exactly n value }
{
    match value {
        Some(value) => value.micro >= 0 && value.micro.unsigned_abs() == n * 1_000_000,
        None => false,
    }
}

/// Whether the value behind L is a whole number.
pub fn has_l(n: u64, line: &Line<'_>) -> bool
    requires { n ≤ 100 }
    ensures { result ≡ has_l n line.now }
{
    is_exactly(n, line.given(b'L'))
}

/// The system that G10 sets.
pub fn set_system(p: &Parser, line: &Line<'_>) -> u32
    requires { IsParser p.now }
    ensures system { result ≡ set_system p.now line.now }
    ensures some { 1 ≤ result }
{
    let selected = system_of(p, line) as u32;
    match whole_given(b'P', line) {
        Some(0) | None => selected,
        Some(system) => system,
    }
}

/// The offset of a system, by its number. A system that is not there has none.
fn old_offset(p: &Parser, system: u32) -> Nm3
    requires valid { IsParser p.now }
    requires some { 1 ≤ system }
    ensures { result ≡ offset_of p.now.offsets system }
{
    if system > 6 {
        return ORIGIN;
    }
    p.offsets.of_system(system as u8)
}

/// A difference of two lengths.
fn difference(a: i64, b: i64) -> i64
    requires a { nat_abs a ≤ farthest }
    requires b { nat_abs b ≤ farthest }
    ensures difference { result ≡ a -ℤ b }
    ensures size { nat_abs result ≤ longest }
{
    a - b
}

/// The way from one point to another.
fn minus(a: &Nm3, b: &Nm3) -> Nm3
    requires a { IsWithin farthest a.now }
    requires b { IsWithin farthest b.now }
    ensures difference { result ≡ minus a.now b.now }
    ensures size { IsWithin longest result }
{
    Nm3 {
        x: difference(a.x, b.x),
        y: difference(a.y, b.y),
        z: difference(a.z, b.z),
    }
}

/// A coordinate less the length of its axis, where it is named.
fn rest_of(from: i64, named: Option<i64>) -> Option<i64>
    requires from { nat_abs from ≤ longest }
    requires named { IfSome named IsLength }
    ensures { result ≡ option_map (λ v. from -ℤ v) named }
{
    match named {
        Some(length) => Some(from - length),
        None => None,
    }
}

/// A point less the lengths of the named axes.
fn less(from: &Nm3, named: &Lengths) -> Lengths
    requires from { IsWithin longest from.now }
    requires named { AreLengths named.now }
    ensures { result ≡ less from.now named.now }
{
    Lengths {
        x: rest_of(from.x, named.x),
        y: rest_of(from.y, named.y),
        z: rest_of(from.z, named.z),
    }
}

/// The new offset of a system by G10.
#[tactic(auto, unfolding(crate::specs::NewOffsets::new_system_offset))]
pub fn new_system_offset(p: &Parser, line: &Line<'_>) -> Nm3
    requires { IsParser p.now }
    ensures { result ≡ new_system_offset p.now line.now }
{
    let old = old_offset(p, set_system(p, line));
    let named = named(p, line);
    if has_l(2, line) {
        replaced(&old, &named)
    } else {
        replaced(&old, &less(&minus(&p.pos_nm, &p.offsets.g92), &named))
    }
}

/// The new offset by G92.
#[tactic(auto, unfolding(crate::specs::NewOffsets::new_g92))]
pub fn new_g92(p: &Parser, line: &Line<'_>) -> Nm3
    requires { IsParser p.now }
    ensures { result ≡ new_g92 p.now line.now }
{
    replaced(
        &p.offsets.g92,
        &less(&minus(&p.pos_nm, &line_offset(p, line)), &named(p, line)),
    )
}

/// The offset that a line sets.
pub fn new_offset(p: &Parser, line: &Line<'_>) -> Option<Nm3>
    requires { IsParser p.now }
    ensures { result ≡ new_offset p.now line.now }
{
    if line.has(G10) {
        Some(new_system_offset(p, line))
    } else if line.has(G92) {
        Some(new_g92(p, line))
    } else {
        None
    }
}
