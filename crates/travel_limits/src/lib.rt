//! Where a target may lie: in reach of the machine's zero, and within travel while soft limits are on. And a target in
//! steps.
#![tactic(auto)]

ghost use Rattle.std.specs.Prelude.{◌≡◌, ◌*◌, ◌<◌, nat_abs, ◌||◌, ◌&&◌};
ghost use Rattle.std.specs.List.{list_any};
ghost use Rattle.units.specs.Lengths.{IsPlace, IsScale};
ghost use Rattle.units.specs.Limits.{OnEachAxis};
ghost use Rattle.travel_limits.specs.Reach.{IsNear, is_far, is_off_axis, is_outside, leave_travel, steps3};

use settings::Settings;
use units::{Nm3, Per3, Steps3, to_steps};

/// Whether a point is beyond 10,000 mm of the machine's zero on some axis, which is error 33 of a target.
pub fn is_far(at: &Nm3) -> bool
    ensures { result ≡ is_far at.now }
{
    at.x.unsigned_abs() > 10_000_000_000
        || at.y.unsigned_abs() > 10_000_000_000
        || at.z.unsigned_abs() > 10_000_000_000
}

/// Whether a coordinate is above 0 or below minus the travel, which is in µm.
fn is_off_axis(travel: u32, z: i64) -> bool
    ensures { result ≡ is_off_axis travel z }
{
    z > 0 || z < -(travel as i64 * 1000)
}

fn is_outside(travel: &Per3, at: &Nm3) -> bool
    ensures { result ≡ is_outside travel.now at.now }
{
    is_off_axis(travel.x, at.x) || is_off_axis(travel.y, at.y) || is_off_axis(travel.z, at.z)
}

fn any_outside(travel: &Per3, points: &[Nm3]) -> bool
    ensures { result ≡ list_any (is_outside travel.now) points.now }
{
    points.iter().any(|point| is_outside(travel, point))
}

/// Whether soft limits (`$20`) are on and one of these points is outside the travel (`$130` to `$132`): above 0 or
/// below minus the travel, on some axis.
pub fn leave_travel(s: &Settings, points: &[Nm3]) -> bool
    ensures { result ≡ leave_travel s.now points.now }
{
    s.soft && any_outside(&s.travel, points)
}

/// A point in steps: on each axis the nearest step.
pub fn steps3(at: &Nm3, per_mm: &Per3) -> Steps3
    requires near { IsNear at.now }
    requires scales { OnEachAxis IsScale per_mm.now }
    ensures steps { result ≡ steps3 per_mm.now at.now }
    ensures near { IsPlace result }
{
    Steps3 {
        x: to_steps(at.x, per_mm.x),
        y: to_steps(at.y, per_mm.y),
        z: to_steps(at.z, per_mm.z),
    }
}
