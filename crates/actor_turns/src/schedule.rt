//! Turns one after the other.

ghost use Rattle.actor_turns.specs.Worlds.{devices, RunsOn};

use crate::World;
use outside::{Actor, Sink, Source};

/// The actors of a schedule take a turn each, in its order.
pub fn run_schedule<J: Source, C: Sink, S: Sink, const RX: usize, const N: usize>(
    world: &mut World<RX, N>,
    schedule: &[Actor],
    job: &mut J,
    console: &mut C,
    steps: &mut S,
)
    ensures goes_on { RunsOn schedule.now (devices (J.state job.old) (C.state console.old) (S.state steps.old)) (devices (J.state job.new) (C.state console.new) (S.state steps.new)) world.old world.new }
{
    for actor in schedule {
        world.turn(*actor, job, console, steps);
    }
}
