//! A move as it is put into a plan.

use units::{Limits, Move, Rate};

/// A move as it is put into a plan.
#[derive(Clone, Copy, Debug, PartialEq, Eq)]
pub struct PlannedMove {
    /// The line that it comes from, counted from 1.
    pub line: u32,
    pub mv: Move,
    /// How fast the line asks for it.
    pub rate: Rate,
    /// What bounds it on each axis.
    pub limits: Limits,
    /// How far off, in µm, the corner at its beginning may be rounded: `$11`.
    pub deviation: u32,
}
