//! The worked rows of the motion crates: corners, overrides, rings of blocks, plans, and the segments that plans give.
#![tactic(auto)]

#[cfg(test)]
mod corners;
#[cfg(test)]
mod fixtures;
#[cfg(test)]
mod percents;
#[cfg(test)]
mod plans;
#[cfg(test)]
mod rings;
#[cfg(test)]
mod segments;
