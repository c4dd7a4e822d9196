//! What holds of the subticks of every move.

ghost use Rattle.std.specs.Prelude.{◌≡◌, ℕ, ◌+◌, ◌*◌, ◌^◌, ◌≤◌, ◌<◌, List, [], ◌∷◌, length, slice_get, Some, All};
ghost use Rattle.units.specs.declared.Move.{Move};
ghost use Rattle.units.specs.Counting.{count, events_of};
ghost use Rattle.step_line.specs.Events.{event_of, events_after};
ghost use Rattle.pulse_engine.specs.Logs.{PieceLog, RecordLog, halts_of, records_put};
ghost use Rattle.smooth_step.specs.Counts.{subticks_in, subticks_of_heads};
ghost use Rattle.smooth_step.specs.Pulses.{SmoothPulsing, SmoothFits, pulse_of};
ghost use Rattle.smooth_step.specs.Subticks.{fine, part_of, width_of, subticks_of, smoothed, IsParted, AreParted};

/// An event has 2 to the power of its level many subticks, and each steps what the fine count does in its part of the
/// event. At level 0 the only one is the event.
pub fn subticks_are_parts()
    ensures count { (m : Move) (level k : ℕ) → length (subticks_of m level (k + 1)) ≡ 2 ^ level }
    ensures one { (m : Move) (level k j : ℕ) → j < 2 ^ level →
        slice_get (subticks_of m level (k + 1)) j ≡ Some (part_of m (8 * k + j * width_of level) (8 * k + (j + 1) * width_of level)) }
    ensures whole { (m : Move) (k : ℕ) → subticks_of m 0 (k + 1) ≡ event_of m (k + 1) ∷ [] }
{}

/// The fine count at the end of an event is the count of the event. So the subticks of an event make its steps, each
/// once, whatever the levels are, also if they change from event to event.
pub fn subticks_part_events()
    ensures fine { (a N k : ℕ) → fine a N (8 * k) ≡ count a N k }
    ensures event { (m : Move) (level k : ℕ) → level ≤ 3 → IsParted (event_of m (k + 1)) (subticks_of m level (k + 1)) }
    ensures events { (m : Move) (k : ℕ) (levels : List ℕ) → All (λ level. level ≤ 3) levels →
        AreParted (events_after m k (length levels)) (smoothed m k levels) }
{}

/// Where a pulse was not halted and has nothing to put, between two pieces or once the end was put, it has handed out the subticks of
/// the heads that it has put: for a head of n events n times 2 to the power of its level.
pub fn subticks_are_those_of_heads()
    ensures { (p : SmoothPulsing) (h : PieceLog) (k : RecordLog) → SmoothFits p h k → halts_of h ≡ [] → (pulse_of p).waiting ≡ [] → subticks_in k ≡ subticks_of_heads (records_put k) }
{}
