//! What a host does, step by step: its journal, and the port by which it reaches a board.
#![tactic(auto)]

mod asking;
mod pause;
mod ports;
mod realtime;

pub use asking::Asking;
pub use pause::has_pause;
pub use ports::HostPort;
pub use realtime::{is_held_after, pause_after, resumed_after};

/// How the reading of a job ended: at the source's end, at a read that failed, with a byte more than a job may have, or
/// at none of these, where no later byte was read.
#[derive(Clone, Copy)]
pub enum Reading {
    Ended,
    Failed,
    Large,
    Stopped,
}

/// Why a host sends no more: all is sent; a line has too many bytes, or the job has; an alarm that ends the run.
#[derive(Clone, Copy, Debug, PartialEq, Eq)]
pub enum Stop {
    End,
    LongLine(u32),
    TooLarge,
    Alarm(u32),
}
