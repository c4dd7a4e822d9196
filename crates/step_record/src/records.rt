//! Which records have a line.

ghost use Rattle.std.specs.Prelude.{◌≡◌, ◌≤◌, ◌↔◌, IsTrue};
ghost use Rattle.step_line.specs.Events.{IsEvent};
ghost use Rattle.step_line.specs.Records.{IsHead, IsMark, IsRecord};

use step_line::{Bits, Mark, Record, SpindleCode};

/// Whether an event steps each axis by one at most, and some axis.
fn is_event(bits: Bits) -> bool
    ensures { IsTrue result ↔ IsEvent bits }
{
    let small = bits.x.unsigned_abs() <= 1
        && bits.y.unsigned_abs() <= 1
        && bits.z.unsigned_abs() <= 1;
    small && (bits.x != 0 || bits.y != 0 || bits.z != 0)
}

/// Whether a mark has a line.
fn is_mark(mark: Mark) -> bool
    ensures { IsTrue result ↔ IsMark mark }
{
    match mark {
        Mark::Spindle(SpindleCode::M5, speed) => speed == 0,
        _ => true,
    }
}

/// Whether a record has a line: a head's line and its number of events are at least 1, an event steps each axis by
/// one at most, and some axis, and a spindle that stands has the speed 0.
pub fn has_line(r: Record) -> bool
    ensures { IsTrue result ↔ IsRecord r }
{
    match r {
        Record::Head(head) => head.line > 0 && head.n > 0,
        Record::Event(bits) => is_event(bits),
        Record::Mark(mark) => is_mark(mark),
        Record::End => true,
    }
}
