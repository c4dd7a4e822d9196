//! What the thread of the host has, and what it does: its host takes turns, each once the gate is passed, until it answers Done.

ghost use Rattle.thread_rig.specs.HostSides.{HostIsNew, HostRanAt};

use link_ports::HostLink;
use outside::{Actor, Gate, Sink, Source};
use shared_rings::is_last;
use std::sync::Wait;
use stream_host::Host;

/// The host, and its ends of the link and of the flags.
#[derive(Drop)]
pub(crate) struct HostSide<const RX: usize> {
    pub(crate) host: Host,
    pub(crate) link: HostLink<RX>,
}

/// Runs a host until it is done.
pub(crate) fn run_host<R: Wait, J: Source, C: Sink, G: Gate, const RX: usize>(
    rt: &R,
    side: &mut HostSide<RX>,
    job: &mut J,
    console: &mut C,
    gate: &G,
)
    requires { HostIsNew side.old }
    ensures { HostRanAt (J.state job.old) (J.state job.new) (C.state console.old) (C.state console.new) side.old side.new }
{
    for _ in rt.forever() {
        gate.pass(Actor::Host);
        if is_last(
            side.host.turn(&mut side.link, job, console),
            Actor::Host,
            gate,
        ) {
            return;
        }
    }
    unreachable!()
}
