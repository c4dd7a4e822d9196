//! How fast the machine may go from one move into the next, by Grbl's junction deviation, `$11`.
#![tactic(auto)]

ghost use Rattle.std.specs.Prelude.{◌≡◌, ◌+◌, ◌-◌, ◌*◌, ◌/◌, ◌≤◌, ◌<◌, min, nat_abs, ◌≤ℤ◌, pos, neg_ℤ, ◌-ℤ◌, ◌*ℤ◌, ◌+ℤ◌};
ghost use Rattle.std.specs.Int.{int_div_euclid};
ghost use Rattle.units.specs.Roots.{root_of};
ghost use Rattle.line_geom.specs.Junctions.{turn_of, corner_of, junction_of};

pub mod laws;

use line_geom::{Cap, Geom};
use units::isqrt;

/// Two units multiplied.
fn product(prev: i32, next: i32) -> i128
    ensures value { result ≡ prev *ℤ next }
    ensures small { nat_abs result ≤ 4611686018427387904 }
{
    prev as i128 * next as i128
}

/// Two directions multiplied.
fn dot(prev: &Geom, next: &Geom) -> i128
    ensures value { result ≡ prev.now.ux *ℤ next.now.ux +ℤ prev.now.uy *ℤ next.now.uy +ℤ prev.now.uz *ℤ next.now.uz }
    ensures small { nat_abs result ≤ 13835058055282163712 }
{
    let x = product(prev.ux, next.ux);
    let y = product(prev.uy, next.uy);
    let z = product(prev.uz, next.uz);
    x + y + z
}

/// A millionth of a number, rounded down. Divided in 64 bits if it fits.
#[inline]
fn millionth(number: i128) -> i128
    ensures { result ≡ int_div_euclid number (pos 1000000) }
{
    if number.unsigned_abs() < 1 << 62 {
        let small = number as i64;
        return small.div_euclid(1_000_000) as i128;
    }
    number.div_euclid(1_000_000)
}

/// The cosine of the turn from one move to the next, in millionths: -1,000,000 if the next goes on straight.
fn turn(prev: &Geom, next: &Geom) -> i128
    ensures { result ≡ turn_of prev.now next.now }
{
    let dot = dot(prev, next);
    millionth(-dot)
}

/// How far a turn is from going straight back, in millionths.
fn gap(turn: i128) -> u64
    requires back { turn ≤ℤ pos 999999 }
    requires on { neg_ℤ (pos 999999) ≤ℤ turn }
    ensures gap { result ≡ nat_abs (pos 1000000 -ℤ turn) }
    ensures some { 1 ≤ result }
    ensures small { result ≤ 1999999 }
{
    (1_000_000 - turn) as u64
}

/// The sine of half the angle between two moves, in millionths.
#[tactic(auto, using(units::proofs::Places::one_root))]
fn half_sine(gap: u64) -> u64
    requires { gap ≤ 1999999 }
    ensures sine { result ≡ root_of (gap * 1000000 / 2) }
    ensures small { result < 1000000 }
{
    isqrt((gap * 1_000_000 / 2) as u128)
}

/// The acceleration that both moves allow, in µm/s².
fn lesser_accel(prev: &Geom, next: &Geom) -> u64
    ensures { result ≡ min prev.now.accel next.now.accel }
{
    prev.accel.min(next.accel)
}

/// A quotient. Divided in 64 bits if the number fits.
#[inline]
fn quotient(number: u128, divisor: u64) -> u128
    requires { 0 < divisor }
    ensures { result ≡ number / divisor }
{
    if number < 1 << 64 {
        let small = number as u64;
        return (small / divisor) as u128;
    }
    number / divisor as u128
}

/// The squared speed, in µm²/s², at which a corner is rounded at an acceleration, at most the deviation off it.
fn corner(accel: u64, deviation: u32, sine: u64) -> u64
    requires { sine < 1000000 }
    ensures { result ≡ min (corner_of accel deviation sine) 18446744073709551615 }
{
    let product = accel as u128 * deviation as u128 * sine as u128;
    let squared = quotient(product, 1_000_000 - sine);
    squared.min(u64::MAX as u128) as u64
}

/// The cap on the squared speed where `prev` ends and `next` begins, for a deviation in µm.
///
/// With `c = -(upx * unx + upy * uny + upz * unz) div 10^6`, rounded down, the cap is `At(0)` if `c > 999999`, and
/// `Free` if `c < -999999`. Else it is `At(J)` with `J = a * d * s div (10^6 - s)`, at most `u64::MAX`, where a is
/// the lesser acceleration, d the deviation, and s the root of `(10^6 - c) * 10^6 div 2`, rounded down.
pub fn junction(prev: &Geom, next: &Geom, deviation: u32) -> Cap
    ensures { result ≡ junction_of prev.now next.now deviation }
{
    let turn = turn(prev, next);
    if turn > 999_999 {
        return Cap::At(0);
    }
    if turn < -999_999 {
        return Cap::Free;
    }
    let accel = lesser_accel(prev, next);
    Cap::At(corner(accel, deviation, half_sine(gap(turn))))
}
