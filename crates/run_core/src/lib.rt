//! A run of four actors: each in a thread of its own, or all in turns on one. This crate passes on the names of those below it.
//!
//! `Rig` is the four actors, each with its ends of the rings and words that threads share, and `run_threads` runs them
//! (`thread_rig`).
//!
//! On one thread bytes and replies between a host and a board, the flags that realtime bytes raise, and pieces on their way to a
//! pulse stand in `Lists`; records go from a pulse to a recorder through `Records` (`list_ports`). `World` is the four actors over
//! these lists. Its turns go by a schedule, or in lockstep by an order that a seed gives (`actor_turns`).
//!
//! Either has a pulse that steps the machine event by event (`new`), or one that hands out the subticks of each event (`smooth`,
//! `motion_pulse`).
//!
//! `run_in_threads` and `run_in_lockstep` run a job from its first turn to its end.
#![tactic(auto)]

pub use actor_turns::{
    CountedEnd, Order, World, count_in_lockstep, run_in_lockstep, run_lockstep, run_schedule,
    worlds_count_reports, worlds_run,
};
pub use controller::PLAN_SLOTS;
pub use list_ports::{Lists, Records};
pub use motion_pulse::{MotionPulse, Stepping};
pub use run_law::RunEnd;
pub use serial_ring::RECEIVE_ROOM;
pub use step_record::Form;
pub use thread_rig::{Rig, rigs_run, run_in_threads, run_threads};
