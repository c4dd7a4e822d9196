//! The table of states, cell by cell.

ghost use Rattle.std.specs.Prelude.{IsSome};
ghost use Rattle.feed_hold.specs.Motions.{after};
ghost use Rattle.feed_hold.specs.Motions.Call.{on_start, on_limit, on_stopped, on_drained};

use super::*;
use Motion::{Alarm, Cancelling, Held, Holding, Idle, Jog, Run, Stopping};

/// What a word makes of a state.
fn after_word(motion: Motion, word: Exec, queued: bool) -> Motion {
    let mut hold = Hold { motion };
    hold.on_exec(word, queued);
    hold.motion
}

#[test]
fn each_byte_has_its_column(rt: HostRuntime) {
    for (was, hold, cancel, start, start_empty) in [
        (Idle, Held, Idle, Run, Idle),
        (Run, Holding, Run, Run, Run),
        (Holding, Holding, Holding, Holding, Holding),
        (Held, Held, Held, Run, Idle),
        (Jog, Cancelling, Cancelling, Jog, Jog),
        (Cancelling, Cancelling, Cancelling, Cancelling, Cancelling),
        (Stopping, Stopping, Stopping, Stopping, Stopping),
        (Alarm, Alarm, Alarm, Alarm, Alarm),
    ] {
        for queued in [false, true] {
            assert_eq!(rt; after_word(was, Exec::HOLD, queued), hold);
            assert_eq!(rt; after_word(was, Exec::CANCEL, queued), cancel);
            assert_eq!(rt; after_word(was, Exec::REPORT | Exec::RESET, queued), was);
            assert_eq!(rt; after_word(was, Exec::HOLD | Exec::START, queued), hold);
        }
        assert_eq!(rt; after_word(was, Exec::START, true), start);
        assert_eq!(rt; after_word(was, Exec::START, false), start_empty);
    }
}

/// What a start makes of a state.
fn begun(motion: Motion, jog: bool) -> Motion
    requires { IsSome (after (on_start jog) motion) }
{
    let mut hold = Hold { motion };
    hold.on_start(jog);
    hold.motion
}

/// What a limit makes of a state.
fn limited(motion: Motion) -> Motion
    requires { IsSome (after on_limit motion) }
{
    let mut hold = Hold { motion };
    hold.on_limit();
    hold.motion
}

/// What the stop makes of a state.
fn stopped(motion: Motion) -> Motion
    requires { IsSome (after on_stopped motion) }
{
    let mut hold = Hold { motion };
    hold.on_stopped();
    hold.motion
}

/// What it makes of a state that nothing is left to run.
fn drained(motion: Motion) -> Motion
    requires { IsSome (after on_drained motion) }
{
    let mut hold = Hold { motion };
    hold.on_drained();
    hold.motion
}

#[test]
fn each_event_has_its_column(rt: HostRuntime) {
    assert_eq!(rt; begun(Idle, false), Run);
    assert_eq!(rt; begun(Idle, true), Jog);
    for jog in [false, true] {
        assert_eq!(rt; begun(Run, jog), Run);
        assert_eq!(rt; begun(Jog, jog), Jog);
    }
    assert_eq!(rt; limited(Idle), Alarm);
    assert_eq!(rt; limited(Run), Stopping);
    assert_eq!(rt; stopped(Holding), Held);
    assert_eq!(rt; stopped(Cancelling), Idle);
    assert_eq!(rt; stopped(Stopping), Alarm);
    for motion in [drained(Idle), drained(Run), drained(Jog)] {
        assert_eq!(rt; motion, Idle);
    }
    let mut hold = Hold::new();
    hold.on_pause();
    assert_eq!(rt; hold.motion, Held);
}
