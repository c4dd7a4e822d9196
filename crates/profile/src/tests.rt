//! The two passes beside the definition of the greatest speeds, computed plainly.

ghost use Rattle.std.specs.Prelude.{◌≡◌, ◌+◌, ◌≤◌, ◌<◌, ◌^◌, length, get_or, sum};
ghost use Rattle.profile.specs.Profiles.{allowed_by, greatest, place};

use super::plan_from;

/// How much the speed may change from the first point to point j.
#[tactic(auto, unfolding(crate::specs::Profiles::place))]
fn place_of(gaps: &[u128], j: usize) -> u128
    requires within { j ≤ length gaps.now }
    requires small { place gaps.now j < 2 ^ 100 }
    ensures { result ≡ place gaps.now j }
{
    gaps[..j].iter().sum()
}

/// What the cap of point k allows at point j.
#[tactic(auto, using(crate::proofs::Places::place_le), unfolding(crate::specs::Profiles::allowed_by))]
fn allowed(gaps: &[u128], caps: &[u64], j: usize, k: usize) -> u128
    requires here { j ≤ length gaps.now }
    requires there { k ≤ length gaps.now }
    requires points { length caps.now ≡ length gaps.now + 1 }
    requires small { sum gaps.now < 2 ^ 100 }
    ensures { result ≡ allowed_by gaps.now caps.now j k }
{
    caps[k] as u128 + place_of(gaps, k).abs_diff(place_of(gaps, j))
}

/// The greatest speed at point j, as the definition says it: the least of what the cap of any point allows there.
#[tactic(auto, unfolding(crate::specs::Profiles::greatest, crate::specs::Profiles::least))]
fn greatest_by_definition(gaps: &[u128], caps: &[u64], j: usize) -> u128
    requires here { j ≤ length gaps.now }
    requires points { length caps.now ≡ length gaps.now + 1 }
    requires small { sum gaps.now < 2 ^ 100 }
    ensures { result ≡ greatest gaps.now caps.now j }
{
    let mut least = allowed(gaps, caps, j, 0);
    for k in 0..gaps.len() {
        least = least.min(allowed(gaps, caps, j, k + 1));
    }
    least
}

/// All plans of three blocks that stand still at first, with caps up to 4 and gaps up to 3, from their number.
fn small_plan(number: u64) -> ([u128; 3], [u64; 4])
    ensures small { sum result.0 < 2 ^ 100 }
    ensures still { get_or result.1 0 0 ≡ 0 }
{
    let gaps = [number % 4, number / 4 % 4, number / 16 % 4];
    let caps = number / 64;
    (
        [gaps[0] as u128, gaps[1] as u128, gaps[2] as u128],
        [0, caps % 5, caps / 5 % 5, caps / 25 % 5],
    )
}

/// The speeds of a plan that stands still at first.
#[tactic(auto, using(crate::proofs::Settled::still_first))]
fn speeds_of(gaps: &[u128; 3], caps: &[u64; 4]) -> [u64; 4]
    requires { get_or caps.now 0 0 ≡ 0 }
{
    let mut speeds = *caps;
    plan_from(&mut speeds, gaps, 0);
    speeds
}

#[test]
fn passes_give_the_minimum_by_definition(rt: HostRuntime) {
    for number in 0..8000 {
        let (gaps, caps) = small_plan(number);
        for (j, speed) in speeds_of(&gaps, &caps).iter().enumerate() {
            let least = greatest_by_definition(&gaps, &caps, j);
            assert_eq!(rt; *speed as u128, least, "at {j} of {number}");
        }
    }
}
