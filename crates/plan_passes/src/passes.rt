//! The plan from a settled point on: the caps of the points behind it, and then the two passes.

ghost use Rattle.std.specs.Prelude.{◌≡◌, ℕ, ◌≤◌, ◌<◌, ◌+◌, ◌-◌, ◌*◌, ◌^◌, max, length, get_or, take};
ghost use Rattle.profile.specs.Profiles.{place};
ghost use Rattle.profile.specs.Caps.{caps, planned};
ghost use Rattle.profile.specs.Settled.{IsLastSettled};
ghost use Rattle.plan_passes.specs.Tables.{IsOnward};

use crate::row::Row;

/// The cap of a junction that lies so far from the present place: its soft one, unless the speed can't fall so far.
#[inline]
fn cap(soft: u64, w: u64, place: u128) -> u64
    ensures { result ≡ max soft (w - place) }
{
    soft.max((w as u128).saturating_sub(place) as u64)
}

/// How much the squared speed may change over the first blocks.
fn place_of(count: usize, gaps: &[u128]) -> u128
    requires few { length gaps.now < 64 }
    requires within { count ≤ length gaps.now }
    requires small { (i : ℕ) → get_or gaps.now i 0 < 2 ^ 71 }
    ensures place { result ≡ place gaps.now count }
    ensures small { result ≤ count * 2 ^ 71 }
{
    let mut place = 0;
    for i in 0..count {
        place += gaps[i];
    }
    place
}

/// Writes down the present speed, and the cap of each point behind `from`: the junctions, and 0 at the end.
fn fill_caps(from: usize, w: u64, gaps: &[u128], softs: &[u64], speeds: &mut [u64])
    requires few { length gaps.now < 64 }
    requires junctions { length softs.now + 1 ≡ length gaps.now }
    requires room { length speeds.old ≡ length gaps.now + 1 }
    requires before { from < length gaps.now }
    requires small { (i : ℕ) → get_or gaps.now i 0 < 2 ^ 71 }
    ensures room { length speeds.new ≡ length gaps.now + 1 }
    ensures first { get_or speeds.new 0 0 ≡ w }
    ensures before { (j : ℕ) → 0 < j → j ≤ from → get_or speeds.new j 0 ≡ get_or speeds.old j 0 }
    ensures caps { (j : ℕ) → from < j → j ≤ length gaps.now → get_or speeds.new j 0 ≡ get_or (caps w gaps.now softs.now) j 0 }
{
    let last = softs.len();
    let mut place = place_of(from, gaps);
    speeds[0] = w;
    for i in from..last {
        place += gaps[i];
        speeds[i + 1] = cap(softs[i], w, place);
    }
    speeds[last + 1] = 0;
}

/// Writes down the planned speed at each point behind a settled one. Answers the last settled point before the end.
fn plan_points(from: usize, w: u64, gaps: &[u128], softs: &[u64], speeds: &mut [u64]) -> usize
    requires few { length gaps.now < 64 }
    requires junctions { length softs.now + 1 ≡ length gaps.now }
    requires room { length speeds.old ≡ length gaps.now + 1 }
    requires before { from < length gaps.now }
    requires small { (i : ℕ) → get_or gaps.now i 0 < 2 ^ 71 }
    requires onward { IsOnward w from gaps.now softs.now speeds.old }
    ensures room { length speeds.new ≡ length gaps.now + 1 }
    ensures planned { (j : ℕ) → 0 < j → j ≤ length gaps.now → get_or speeds.new j 0 ≡ planned w gaps.now softs.now j }
    ensures settled { IsLastSettled gaps.now (caps w gaps.now softs.now) result }
{
    fill_caps(from, w, gaps, softs, speeds);
    profile::plan_from(speeds, gaps, from)
}

/// Writes down the planned speed at each point behind a settled one, in a plan of so many blocks. Answers the last settled point
/// before its end, or 0 if there is no block.
pub(crate) fn plan_from<const N: usize>(
    from: usize,
    count: usize,
    w: u64,
    gaps: &Row<u128, N>,
    softs: &Row<u64, N>,
    speeds: &mut Row<u64, N>,
) -> usize
    requires few { N ≤ 64 }
    requires room { count < N }
    requires before { 0 < count → from < count }
    requires small { (i : ℕ) → get_or (take count gaps.now) i 0 < 2 ^ 71 }
    requires onward { 0 < count → IsOnward w from (take count gaps.now) (take (count - 1) softs.now) speeds.old }
    ensures planned { (j : ℕ) → 0 < j → j ≤ count →
        get_or speeds.new j 0 ≡ planned w (take count gaps.now) (take (count - 1) softs.now) j }
    ensures settled { 0 < count → IsLastSettled (take count gaps.now) (caps w (take count gaps.now) (take (count - 1) softs.now)) result }
    ensures none { count ≡ 0 → result ≡ 0 }
{
    if count == 0 {
        return 0;
    }
    let start = speeds.start;
    let points = &mut speeds.places[start..start + count + 1];
    plan_points(from, w, gaps.first(count), softs.first(count - 1), points)
}
