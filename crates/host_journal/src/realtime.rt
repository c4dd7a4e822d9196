//! What the realtime bytes of a job come to.

ghost use Rattle.std.specs.Prelude.{◌≡◌, ◌+◌, ◌^◌, ◌<◌, cond, nat_eq};
ghost use Rattle.host_journal.specs.Holding.{held_after, resumed_after};
ghost use Rattle.host_journal.specs.Jobs.{resume};

use gcode_words::realtime_bytes::{HOLD, RESUME};

/// Whether the machine may be held behind a realtime byte: a `!` holds it, a `~` resumes it.
pub fn is_held_after(byte: u8, held: bool) -> bool
    ensures { result ≡ held_after byte held }
{
    match byte {
        HOLD => true,
        RESUME => false,
        _ => held,
    }
}

/// The number of the line whose answer shows that each hold is over which a `~` was to end, behind a realtime byte. For a `~` behind a
/// `!` it is the first line that is stored behind both: the board takes them before it begins that line, and begins none while
/// it is held. For a `~` behind a pause it is the line of the pause.
pub fn resumed_after(byte: u8, held: bool, lines: u32, pause: u32, before: u32) -> u32
    requires { lines + 1 < 2 ^ 32 }
    ensures { result ≡ resumed_after byte held lines pause before }
{
    if byte != RESUME {
        return before;
    }
    if held {
        return lines + 1;
    }
    if pause == 0 { before } else { pause }
}

/// The number of the last line that asks for a pause, behind a realtime byte: a `~` ends all pauses before it.
pub fn pause_after(byte: u8, pause: u32) -> u32
    ensures { result ≡ cond (nat_eq byte resume) 0 pause }
{
    match byte {
        RESUME => 0,
        _ => pause,
    }
}
