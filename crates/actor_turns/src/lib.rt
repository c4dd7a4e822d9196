//! Four actors that take turns on one thread, over plain lists.
//!
//! `World` is a host, a board, a pulse and a recorder, and the lists between them. Its turns go by a schedule (`run_schedule`),
//! in lockstep, by an order that a seed gives (`run_lockstep`), or at a pace, the motion behind all else (`run_paced`). Whatever
//! the order, each turn goes on as its actor's rules
//! allow, and once all four are done, a run of the job was done. `run_in_lockstep` and `run_at_a_pace` run a job from its first
//! turn to its end.
#![tactic(auto)]

mod laws;
mod lockstep;
mod pacing;
mod runs;
mod schedule;
mod world;

pub use laws::{worlds_count_reports, worlds_run};
pub use lockstep::{Order, run_lockstep};
pub use pacing::{paced_motion_waits, run_paced};
pub use runs::{CountedEnd, count_in_lockstep, run_at_a_pace, run_in_lockstep};
pub use schedule::run_schedule;
pub use world::World;
