//! The worked rows of the four actors: over lists on one thread, in turns or in lockstep, and in threads.
#![tactic(auto)]

#[cfg(test)]
mod gates;
#[cfg(test)]
mod lists;
#[cfg(test)]
mod resets;
#[cfg(test)]
mod rigs;
#[cfg(test)]
mod runs;
#[cfg(test)]
mod worlds;
