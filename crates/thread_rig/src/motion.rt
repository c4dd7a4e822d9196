//! What the threads of the pulse and of the recorder have, and what they do: each actor takes turns, each once the gate is
//! passed, until it answers Done.

ghost use Rattle.thread_rig.specs.MotionSides.{PulseIsNew, PulseRanAt, RecorderIsNew, RecorderRanAt};

use motion_ports::{PiecePort, RecordOut, RecordPort};
use motion_pulse::MotionPulse;
use outside::{Actor, Gate, Sink};
use shared_rings::is_last;
use std::sync::Wait;
use std::thread::{Threads, join_mut};
use step_record::Recorder;

/// The pulse, and its ends of the ring of pieces and of the ring of records.
#[derive(Drop)]
pub(crate) struct PulseSide {
    pub(crate) pulse: MotionPulse,
    pub(crate) pieces: PiecePort,
    pub(crate) records: RecordOut,
}

/// The recorder, and its end of the ring of records.
#[derive(Drop)]
pub(crate) struct RecorderSide {
    pub(crate) recorder: Recorder,
    pub(crate) records: RecordPort,
}

/// Runs a pulse until it is done.
fn run_pulse<R: Wait, G: Gate>(rt: &R, side: &mut PulseSide, gate: &G)
    requires { PulseIsNew side.old }
    ensures { PulseRanAt side.old side.new }
{
    for _ in rt.forever() {
        gate.pass(Actor::Pulse);
        if is_last(
            side.pulse.turn(&mut side.pieces, &mut side.records),
            Actor::Pulse,
            gate,
        ) {
            return;
        }
    }
    unreachable!()
}

/// Runs a recorder until it is done.
fn run_recorder<R: Wait, S: Sink, G: Gate>(rt: &R, side: &mut RecorderSide, steps: &mut S, gate: &G)
    requires { RecorderIsNew side.old }
    ensures { RecorderRanAt (S.state steps.old) (S.state steps.new) side.old side.new }
{
    for _ in rt.forever() {
        gate.pass(Actor::Record);
        if is_last(
            side.recorder.turn(&mut side.records, steps),
            Actor::Record,
            gate,
        ) {
            return;
        }
    }
    unreachable!()
}

/// Runs a pulse and a recorder beside each other, each until it is done.
pub(crate) fn run_motion<R: Threads + Wait + Sync, S: Sink + Send, G: Gate + Sync>(
    rt: &R,
    pulse: &mut PulseSide,
    recorder: &mut RecorderSide,
    steps: &mut S,
    gate: &G,
)
    requires pulse { PulseIsNew pulse.old }
    requires recorder { RecorderIsNew recorder.old }
    ensures pulse { PulseRanAt pulse.old pulse.new }
    ensures recorder { RecorderRanAt (S.state steps.old) (S.state steps.new) recorder.old recorder.new }
{
    join_mut(
        rt,
        &mut ||
            requires { PulseIsNew pulse.now }
            ensures { PulseRanAt pulse.entry.now pulse.exit.now }
        { run_pulse(rt, pulse, gate) },
        &mut ||
            requires { RecorderIsNew recorder.now }
            ensures { RecorderRanAt (S.state steps.entry.now) (S.state steps.exit.now) recorder.entry.now recorder.exit.now }
        { run_recorder(rt, recorder, steps, gate) },
    );
}
