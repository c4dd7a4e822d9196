//! How the geometry of a move is computed: every division is a floor, and the length a root rounded down.

ghost use Rattle.std.specs.Prelude.{◌≡◌, ◌+◌, ◌-◌, ◌*◌, ◌/◌, ◌<◌, ◌≤◌, ◌↔◌, max, min, nat_abs, ◌-ℤ◌, Some, IsNone, IfSome};
ghost use Rattle.units.specs.Rounding.{with_sign_of};
ghost use Rattle.units.specs.Lengths.{IsCoordinate, IsMove, IsScale};
ghost use Rattle.units.specs.Limits.{IsAxisCap, IsLimits, OnEachAxis};
ghost use Rattle.units.specs.Counting.{way, events_of};
ghost use Rattle.line_geom.specs.Geometry.{axis_length, line_length, length_of, unit_of, axis_cap, axis_caps, least, IsShare, geom_of, IsGeom, IsDirection, IsBounded};

use crate::Geom;
use units::{Counts, Limits, Move, Per3, events, isqrt};

/// A move as a line: its length in nm, and how far each axis goes in millionths of it.
#[derive(Clone, Copy)]
struct Line {
    length: u64,
    ux: i32,
    uy: i32,
    uz: i32,
}

/// How far an axis goes in a number of steps, in nm.
fn axis_nm(count: u32, per_mm: u32) -> u64
    requires few { count ≤ 200000000 }
    requires scale { IsScale per_mm }
    ensures nm { result ≡ axis_length count per_mm }
    ensures low { 100 * count ≤ result }
    ensures high { result ≤ 1000000 * count }
{
    count as u64 * 1_000_000_000 / per_mm as u64
}

/// A length times itself.
fn square(nm: u64) -> u128
    requires { nm ≤ 200000000000000 }
    ensures square { result ≡ nm * nm }
    ensures small { result ≤ 40000000000000000000000000000 }
{
    nm as u128 * nm as u128
}

/// The length of a line that goes so far along each axis, in nm, and at least 1 nm.
fn line_nm(x: u64, y: u64, z: u64) -> u64
    requires x { x ≤ 200000000000000 }
    requires y { y ≤ 200000000000000 }
    requires z { z ≤ 200000000000000 }
    ensures nm { result ≡ line_length x y z }
    ensures some { 1 ≤ result }
    ensures x { x ≤ result }
    ensures y { y ≤ result }
    ensures z { z ≤ result }
{
    isqrt(square(x) + square(y) + square(z)).max(1)
}

/// How far an axis goes along a line, in millionths of the line, with the move's sign.
fn unit(from: i64, to: i64, axis: u64, length: u64) -> i32
    requires from { IsCoordinate from }
    requires to { IsCoordinate to }
    requires some { 1 ≤ length }
    requires part { axis ≤ length }
    ensures unit { result ≡ with_sign_of (to -ℤ from) (axis * 1000000 / length) }
    ensures part { nat_abs result ≡ axis * 1000000 / length }
    ensures small { nat_abs result ≤ 1000000 }
{
    let part = (axis as u128 * 1_000_000 / length as u128) as i32;
    if to < from { -part } else { part }
}

/// What an axis's cap allows along a line, if the axis goes so many millionths of it: `u64::MAX` if it doesn't move.
fn along(cap: u32, part: u32) -> u64
    requires cap { IsAxisCap cap }
    requires part { part ≤ 1000000 }
    ensures share { IsShare result (axis_cap cap part) }
    ensures low { 1000 ≤ result }
    ensures high { 500000 ≤ part → result ≤ 2000000000 }
{
    if part == 0 {
        u64::MAX
    } else {
        cap as u64 * 1_000_000 / part as u64
    }
}

impl Line {
    /// The length and the direction of a move that has a step.
    fn of(mv: &Move, per_mm: &Per3) -> Line
        requires places { IsMove mv.now }
        requires moves { 0 < events_of mv.now }
        requires scale { OnEachAxis IsScale per_mm.now }
        ensures length { result.length ≡ length_of mv.now per_mm.now }
        ensures ux { result.ux ≡ unit_of (way mv.now).x per_mm.now.x result.length }
        ensures uy { result.uy ≡ unit_of (way mv.now).y per_mm.now.y result.length }
        ensures uz { result.uz ≡ unit_of (way mv.now).z per_mm.now.z result.length }
        ensures low { 100 * events_of mv.now ≤ result.length }
        ensures high { result.length ≤ 2000000 * events_of mv.now }
        ensures direction { IsDirection result.ux result.uy result.uz }
    {
        let counts = Counts::of(mv);
        let x = axis_nm(counts.x, per_mm.x);
        let y = axis_nm(counts.y, per_mm.y);
        let z = axis_nm(counts.z, per_mm.z);
        let length = line_nm(x, y, z);
        Line {
            length,
            ux: unit(mv.from.x, mv.to.x, x, length),
            uy: unit(mv.from.y, mv.to.y, y, length),
            uz: unit(mv.from.z, mv.to.z, z, length),
        }
    }

    /// The least that the caps of the axes that move allow along a line.
    fn least(&self, cap: &Per3) -> u64
        requires cap { OnEachAxis IsAxisCap cap.now }
        requires direction { IsDirection self.now.ux self.now.uy self.now.uz }
        ensures least { result ≡ least (axis_caps cap.now self.now.ux self.now.uy self.now.uz) }
        ensures low { 1000 ≤ result }
        ensures high { result ≤ 2000000000 }
    {
        let x = along(cap.x, self.ux.unsigned_abs());
        let y = along(cap.y, self.uy.unsigned_abs());
        let z = along(cap.z, self.uz.unsigned_abs());
        x.min(y).min(z)
    }
}

/// How much the squared speed may change over one of a move's n events, in µm²/s².
fn change(accel: u64, length: u64, n: u32) -> u64
    requires some { 1 ≤ n }
    requires accel { (1000 ≤ accel) × (accel ≤ 2000000000) }
    requires length { (100 * n ≤ length) × (length ≤ 2000000 * n) }
    ensures q { result ≡ 2 * accel * length / (1000 * n) }
    ensures low { 200 ≤ result }
    ensures high { result ≤ 8000000000000 }
{
    (2 * accel as u128 * length as u128 / (1000 * n as u128)) as u64
}

/// The geometry of a move under limits; none exactly if the move has no steps.
///
/// An axis that makes a steps at p thousandths of a step per mm goes `a * 10^9 div p` nm. The length is the root of
/// the sum of the squares of these, rounded down, and at least 1 nm. An axis's unit is `nm * 10^6 div length`, with
/// the move's sign. The acceleration is the least of `cap * 10^6 div unit` over the axes whose unit is not 0, and the
/// rapid speed is the least of the same with the rates, in µm per minute, div 60. One event may change the squared
/// speed by `2 * accel * length div (1000 * n)`.
pub fn geom(mv: &Move, l: &Limits) -> Option<Geom>
    requires places { IsMove mv.now }
    requires limits { IsLimits l.now }
    ensures geometry { result ≡ geom_of mv.now l.now }
    ensures none { IsNone result ↔ (events_of mv.now ≡ 0) }
    ensures fields { IfSome result (IsGeom mv.now l.now) }
    ensures bounds { IfSome result IsBounded }
{
    let n = events(mv);
    if n == 0 {
        return None;
    }
    let line = Line::of(mv, &l.per_mm);
    let accel = line.least(&l.accel);
    let rapid = line.least(&l.rate) / 60;
    let q = change(accel, line.length, n);
    let Line { length, ux, uy, uz } = line;
    Some(Geom {
        n,
        length,
        ux,
        uy,
        uz,
        accel,
        rapid,
        q,
    })
}

#[cfg(test)]
mod tests {
    use super::*;
    use units::Steps3;

    /// 250 steps per mm, 500 mm per minute and 10 mm per s² on each axis.
    fn generic() -> Limits
        ensures { IsLimits result }
    {
        let each = |n: u32| Per3 { x: n, y: n, z: n };
        Limits {
            per_mm: each(250_000),
            rate: each(500_000),
            accel: each(10_000),
        }
    }

    fn towards(x: i64, y: i64, z: i64) -> Move
        requires x { IsCoordinate x }
        requires y { IsCoordinate y }
        requires z { IsCoordinate z }
        ensures { IsMove result }
    {
        Move {
            from: Steps3 { x: 0, y: 0, z: 0 },
            to: Steps3 { x, y, z },
        }
    }

    #[test]
    fn measures_straight_and_slanting_moves(rt: HostRuntime) {
        let straight = Geom {
            n: 250,
            length: 1_000_000,
            ux: 1_000_000,
            uy: 0,
            uz: 0,
            accel: 10_000,
            rapid: 8333,
            q: 80_000,
        };
        let slanting = Geom {
            n: 1000,
            length: 5_000_000,
            ux: 600_000,
            uy: 800_000,
            uz: 0,
            accel: 12_500,
            rapid: 10_416,
            q: 125_000,
        };
        let back = Geom {
            ux: -1_000_000,
            ..straight
        };
        let limits = generic();
        assert_eq!(rt; geom(&towards(250, 0, 0), &limits), Some(straight));
        assert_eq!(rt; geom(&towards(750, 1000, 0), &limits), Some(slanting));
        assert_eq!(rt; geom(&towards(-250, 0, 0), &limits), Some(back));
        assert_eq!(rt; geom(&towards(0, 0, 0), &limits), None);
    }
}
