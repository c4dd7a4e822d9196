//! The words of flags that the host raises and the board takes, shared by two threads.
//!
//! A realtime byte raises one bit of one of two words, and the board takes a word as a whole and clears it.
//! Both are single atomic steps, so no raise is lost and none is taken twice: for each bit, the raises that
//! found it down are as many as the takes that had it, and one more where it is up.
#![tactic(auto)]

mod calls;
mod ends;
mod plays;
#[cfg(test)]
mod tests;
mod words;

pub use calls::{flag_table, join_flags};
pub use ends::{Raiser, Taker};
pub use words::{Flag, FlagSight, Raise, Raised, Take, Words, flag_of_byte};
