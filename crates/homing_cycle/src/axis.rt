//! The axes.

ghost use Rattle.std.specs.Prelude.{◌≡◌, ◌≤◌};
ghost use Rattle.homing_cycle.specs.Axes.{number_of, coordinate, with_coordinate, of_axis};

use units::{Per3, Steps3};

/// An axis.
#[derive(Clone, Copy, Debug, PartialEq, Eq)]
pub enum Axis {
    X,
    Y,
    Z,
}

impl Axis {
    /// 0 for X, 1 for Y, 2 for Z.
    pub(crate) fn number(self) -> u8
        ensures number { result ≡ number_of self }
        ensures few { result ≤ 2 }
    {
        match self {
            Axis::X => 0,
            Axis::Y => 1,
            Axis::Z => 2,
        }
    }

    /// The coordinate of a place on the axis.
    pub(crate) fn coordinate(self, at: &Steps3) -> i64
        ensures { result ≡ coordinate self at.now }
    {
        match self {
            Axis::X => at.x,
            Axis::Y => at.y,
            Axis::Z => at.z,
        }
    }

    /// A place with another coordinate on the axis.
    pub(crate) fn with_coordinate(self, n: i64, at: Steps3) -> Steps3
        ensures { result ≡ with_coordinate self n at }
    {
        match self {
            Axis::X => Steps3 { x: n, ..at },
            Axis::Y => Steps3 { y: n, ..at },
            Axis::Z => Steps3 { z: n, ..at },
        }
    }

    /// The number of the axis.
    pub(crate) fn of(self, numbers: &Per3) -> u32
        ensures { result ≡ of_axis self numbers.now }
    {
        match self {
            Axis::X => numbers.x,
            Axis::Y => numbers.y,
            Axis::Z => numbers.z,
        }
    }
}
