//! What holds of every pulse of a run.

ghost use Rattle.std.specs.Prelude.{◌≡◌, []};
ghost use Rattle.pulse_engine.specs.Logs.{PieceLog, RecordLog, halts_of, records_put};
ghost use Rattle.motion_pulse.specs.declared.pulse.MotionPulse.{MotionPulse};
ghost use Rattle.motion_pulse.specs.Pulses.{MotionFits, pins_of, pins_by_heads, seen_of, stepping_of};

use smooth_step::subticks_are_those_of_heads;

/// Where a pulse was not halted and has nothing to put, between two pieces or once the end was put, it has handed out the subticks of
/// the heads that it has put.
pub fn pins_are_those_of_heads()
    ensures { (p : MotionPulse) (h : PieceLog) (k : RecordLog) → MotionFits p h k → halts_of h ≡ [] → (seen_of p).waiting ≡ [] →
        pins_of (stepping_of p) k ≡ pins_by_heads (stepping_of p) (records_put k) }
{
    subticks_are_those_of_heads();
}
