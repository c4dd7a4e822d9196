//! The greatest speeds along a row of points: each point has a cap, and between two the speed may change by their gap.
//!
//! Speeds are squared, in µm²/s², and so is what changes them. A gap is what a block's events together may change: a
//! product that may be beyond 64 bits, while a speed is not.
#![tactic(auto)]

ghost use Rattle.std.specs.Prelude.{◌≡◌, ◌≢◌, ◌≤◌, ◌<◌, ◌↔◌, ℕ, List, ◌+◌, min, max, length, get_or, IsTrue};
ghost use Rattle.profile.specs.Profiles.{profile};
ghost use Rattle.profile.specs.Settled.{IsPlannedTo, IsHeldTo, IsLastOwn, RisesTo, IsSettled, IsLastSettled};

pub mod laws;
#[cfg(test)]
mod tests;

/// The speed at a point: at most its cap, and at most the gap above its neighbour's speed.
#[inline]
fn held(cap: u64, neighbour: u64, gap: u128) -> u64
    ensures { result ≡ min cap (neighbour + gap) }
{
    if gap < cap.saturating_sub(neighbour) as u128 {
        neighbour + gap as u64
    } else {
        cap
    }
}

/// The last of two points whose speed is its own cap: the earlier one if that is so there.
#[inline]
fn last_own(speed: u64, cap: u64, point: usize, own: usize) -> usize
    ensures own { speed ≡ cap → result ≡ max own point }
    ensures other { speed ≢ cap → result ≡ own }
    ensures among { result ≤ max own point }
{
    if speed == cap { own.max(point) } else { own }
}

/// The backward pass, from the end to the point after `from`: what its own cap and the later ones allow at each point.
/// Answers the last point before the end whose speed is its own cap, or `from` if there is none.
fn hold_ahead(speeds: &mut [u64], gaps: &[u128], from: usize) -> usize
    requires points { length speeds.old ≡ length gaps.now + 1 }
    requires before { from < length gaps.now }
    ensures held { (caps : List ℕ) → IsPlannedTo gaps.now caps from speeds.old → IsHeldTo gaps.now caps from speeds.new }
    ensures own { (caps : List ℕ) → IsPlannedTo gaps.now caps from speeds.old → IsLastOwn gaps.now caps from result }
    ensures before { result < length gaps.now }
    ensures points { length speeds.new ≡ length gaps.now + 1 }
{
    let mut own = from;
    for i in (from + 1..gaps.len()).rev() {
        let cap = speeds[i];
        let speed = held(cap, speeds[i + 1], gaps[i]);
        speeds[i] = speed;
        own = last_own(speed, cap, i, own);
    }
    own
}

/// The forward pass, after the backward one, from the point `from` on: what all caps allow at each point.
fn hold_behind(speeds: &mut [u64], gaps: &[u128], from: usize)
    requires points { length speeds.old ≡ length gaps.now + 1 }
    requires before { from < length gaps.now }
    ensures planned { (caps : List ℕ) → IsHeldTo gaps.now caps from speeds.old → speeds.new ≡ profile gaps.now caps }
    ensures points { length speeds.new ≡ length gaps.now + 1 }
{
    for i in from..gaps.len() {
        speeds[i + 1] = held(speeds[i + 1], speeds[i], gaps[i]);
    }
}

/// Whether a speed is the gap above another one.
#[inline]
fn is_risen(from: u64, to: u64, gap: u128) -> bool
    ensures { IsTrue result ↔ (to ≡ from + gap) }
{
    from <= to && (to - from) as u128 == gap
}

/// How far the speed rises by each gap, from a point on: up to the last point before the end.
fn rises_to(speeds: &[u64], gaps: &[u128], from: usize) -> usize
    requires points { length speeds.now ≡ length gaps.now + 1 }
    requires before { from < length gaps.now }
    requires smooth { (i : ℕ) → i < length gaps.now → get_or speeds.now (i + 1) 0 ≤ get_or speeds.now i 0 + get_or gaps.now i 0 }
    ensures { RisesTo gaps.now speeds.now from result }
{
    let last = gaps.len() - 1;
    for i in from..last {
        if !is_risen(speeds[i], speeds[i + 1], gaps[i]) {
            return i;
        }
    }
    last
}

/// Turns the caps of the points after `from`, in µm²/s², into their greatest speeds, for the gaps between all points,
/// if each point up to `from` has its greatest speed: no speed is above a cap, no two neighbours differ by more than
/// their gap, and no other such speeds are greater anywhere.
///
/// A point is settled if the caps up to it alone limit its speed. If `from` is, the answer is the last settled point
/// before the end.
pub fn plan_from(speeds: &mut [u64], gaps: &[u128], from: usize) -> usize
    requires before { from < length gaps.now }
    requires planned { (caps : List ℕ) × IsPlannedTo gaps.now caps from speeds.old }
    ensures planned { (caps : List ℕ) → IsPlannedTo gaps.now caps from speeds.old → speeds.new ≡ profile gaps.now caps }
    ensures settled { (caps : List ℕ) → IsPlannedTo gaps.now caps from speeds.old → IsSettled gaps.now caps from →
        IsLastSettled gaps.now caps result }
{
    let own = hold_ahead(speeds, gaps, from);
    hold_behind(speeds, gaps, from);
    rises_to(speeds, gaps, own)
}
