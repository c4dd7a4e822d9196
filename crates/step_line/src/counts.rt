//! Where a move is after some of its events, and how many ticks a piece has.

ghost use Rattle.std.specs.Prelude.{◌≡◌, ◌≤◌, ◌<◌, nat_abs, ◌-ℤ◌, ◌+ℤ◌};
ghost use Rattle.units.specs.Lengths.{IsCoordinate, IsPlace, IsMove};
ghost use Rattle.units.specs.Rounding.{with_sign_of};
ghost use Rattle.units.specs.Counting.{count, events_of};
ghost use Rattle.step_line.specs.Finishing.{tick_count};
ghost use Rattle.step_line.specs.Places.{axis_after, place_after};

use crate::Piece;
use units::{Counts, Move, Steps3};

/// How many of an axis's a steps are made after k of n events.
#[tactic(auto, using(crate::proofs::Counters::count_le), unfolding(units::specs::Counting::count))]
fn count_of(a: u32, n: u32, k: u32) -> u32
    requires few { n ≤ 200000000 }
    requires axis { a ≤ n }
    requires events { k ≤ n }
    ensures count { result ≡ count a n k }
    ensures few { result ≤ a }
{
    if n == 0 {
        return 0;
    }
    ((2 * a as u64 * k as u64 + n as u64 - 1) / (2 * n as u64)) as u32
}

/// The place of an axis after a number of steps from one place towards another.
fn axis_place(from: i64, to: i64, made: u32) -> i64
    requires from { IsCoordinate from }
    requires to { IsCoordinate to }
    requires within { made ≤ nat_abs (to -ℤ from) }
    ensures place { result ≡ from +ℤ with_sign_of (to -ℤ from) made }
    ensures within { IsCoordinate result }
{
    if to < from {
        from - made as i64
    } else {
        from + made as i64
    }
}

/// Where a move is after k of its events; it has at least k.
#[tactic(auto, unfolding(units::specs::Counting::events_of, crate::specs::Places::place_after, crate::specs::Places::axis_after))]
pub fn position_after(mv: &Move, k: u32) -> Steps3
    requires mv { IsMove mv.now }
    requires events { k ≤ events_of mv.now }
    ensures place { result ≡ place_after mv.now k }
    ensures within { IsPlace result }
{
    let counts = Counts::of(mv);
    let n = counts.largest();
    let x = axis_place(mv.from.x, mv.to.x, count_of(counts.x, n, k));
    let y = axis_place(mv.from.y, mv.to.y, count_of(counts.y, n, k));
    let z = axis_place(mv.from.z, mv.to.z, count_of(counts.z, n, k));
    Steps3 { x, y, z }
}

/// How many ticks a piece has: one for each event of a segment, and one for a mark.
#[inline]
pub fn tick_count(piece: &Piece) -> u32
    ensures { result ≡ tick_count piece.now }
{
    match piece {
        Piece::Segment(segment) => segment.n,
        Piece::Mark(_) => 1,
        Piece::End => 0,
    }
}
