//! What each step on the words tells.
ghost use Rattle.realtime_flags.specs.Rule.{raised, took_exec, took_override, balanced, without_taking, without_raising, both_of, spent};

use crate::words::FlagSight;
use atomic_table::{Join, Play, Split};

/// A bit is raised.
pub(crate) struct Raising;

impl Play<u64, FlagSight> for Raising {
    ghost then = { raised };
}

/// The word of requests is taken.
pub(crate) struct TakingExec;

impl Play<u64, FlagSight> for TakingExec {
    ghost then = { took_exec };
}

/// The word of changes of overrides is taken.
pub(crate) struct TakingOverride;

impl Play<u64, FlagSight> for TakingOverride {
    ghost then = { took_override };
}

/// Both lists are brought together.
pub(crate) struct Balancing;

impl Play<u64, FlagSight> for Balancing {
    ghost then = { balanced };
}

/// One side raises, the other takes.
pub(crate) struct Sides;

impl Split<FlagSight> for Sides {
    ghost left = { without_taking };

    ghost right = { without_raising };
}

impl Join<FlagSight> for Sides {
    ghost both = { both_of };

    ghost spent = { spent };
}
