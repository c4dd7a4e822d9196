//! The look-ahead plan of a few blocks: how fast each may end, so that all that comes can be met.
//!
//! Speeds are squared, in µm²/s². Over n events of a block the squared speed changes by at most `q * n`. A block has at
//! most 2 * 10^8 events and a `q` of at most 8 * 10^12, so all of it changes the squared speed by less than 2^71, and 63
//! blocks do by less than 2^77: sums over blocks are taken in 128 bits. A speed itself is at most the rapid of a block,
//! which is at most 33,333,333 µm/s, and its square is below 2^50.
#![tactic(auto)]

mod blocks;
mod passes;
mod plan;
mod row;
mod tables;

pub use plan::Plan;

/// What the segments of a block have in common while it goes at its nominal speed: how many events each has, the squared
/// speed in µm²/s², and the cycles of a clock of 16 MHz from one event to the next.
#[derive(Clone, Copy)]
pub struct Pace {
    pub n: u32,
    pub w: u64,
    pub cycles: u64,
}
