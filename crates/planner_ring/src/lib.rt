//! The blocks of a plan, in a ring that takes no memory.
#![tactic(auto)]

mod ring;

pub use line_geom::Block;
pub use ring::Ring;
