//! How many steps a straight move makes on each axis, and how many events it has.

ghost use Rattle.std.specs.Prelude.{◌≡◌, ◌≤◌, max, ◌-ℤ◌, nat_abs};
ghost use Rattle.units.specs.Lengths.{IsCoordinate, IsMove};
ghost use Rattle.units.specs.Counting.{events_of, way};

use crate::Move;

/// How many steps an axis makes from one place to another.
fn axis_count(from: i64, to: i64) -> u32
    requires from { IsCoordinate from }
    requires to { IsCoordinate to }
    ensures count { result ≡ nat_abs (to -ℤ from) }
    ensures few { result ≤ 200000000 }
{
    (to - from).unsigned_abs() as u32
}

/// How many steps a move makes on each axis.
#[derive(Clone, Copy)]
pub struct Counts {
    pub x: u32,
    pub y: u32,
    pub z: u32,
}

impl Counts {
    /// How many steps a move makes on each axis.
    pub fn of(mv: &Move) -> Counts
        requires { IsMove mv.now }
        ensures x { result.x ≡ nat_abs (way mv.now).x }
        ensures y { result.y ≡ nat_abs (way mv.now).y }
        ensures z { result.z ≡ nat_abs (way mv.now).z }
        ensures few { (result.x ≤ 200000000) × (result.y ≤ 200000000) × (result.z ≤ 200000000) }
    {
        Counts {
            x: axis_count(mv.from.x, mv.to.x),
            y: axis_count(mv.from.y, mv.to.y),
            z: axis_count(mv.from.z, mv.to.z),
        }
    }

    /// The largest count.
    pub fn largest(&self) -> u32
        ensures { result ≡ max self.now.x (max self.now.y self.now.z) }
    {
        self.x.max(self.y.max(self.z))
    }
}

/// How many events a move has: as many as its longest axis has steps.
#[tactic(auto, unfolding(crate::specs::Counting::events_of))]
pub fn events(mv: &Move) -> u32
    requires { IsMove mv.now }
    ensures events { result ≡ events_of mv.now }
    ensures few { result ≤ 200000000 }
{
    Counts::of(mv).largest()
}
