//! The board over its run: it takes the bytes of a job, carries out its lines, and answers them, until the job ends. A reset begins
//! a new epoch.
#![tactic(auto)]

mod controller;
mod epochs;
mod laws;

pub use board_journal::BoardPort;
pub use controller::Controller;
pub use laws::{controllers_greet_first, controllers_keep_to_epochs};

/// How many slots a plan has, where nothing else is asked for. One stays free, and the others hold 15 blocks, as many as the plan of
/// Grbl.
pub const PLAN_SLOTS: usize = 16;
