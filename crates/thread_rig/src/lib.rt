//! Four actors, each in a thread of its own.
//!
//! `Rig` is a host, a board, a pulse and a recorder, each with its ends of the rings and words that threads share. `run_threads`
//! runs them until each is done; `Rig::join` then brings the ends together. Whatever the order in which the steps of the threads
//! came, a run of the job was done (`rigs_run`). `run_in_threads` runs a job from its first turn to its end.
#![tactic(auto)]

mod apart;
mod board;
mod host;
mod laws;
mod motion;
mod rig;
mod runs;

pub use laws::rigs_run;
pub use rig::{Rig, run_threads};
pub use runs::run_in_threads;
