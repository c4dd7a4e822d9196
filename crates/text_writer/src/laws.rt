//! What a sink has of the texts that were put.

ghost use Rattle.std.specs.Prelude.{◌≡◌, ℕ, ◌<◌, ◌++◌, List, [], length, true};
ghost use Rattle.outside.specs.Causes.{SinkState};
ghost use Rattle.outside.specs.Writing.{Wrote, Took};
ghost use Rattle.text_writer.specs.Writers.{Writing, Writes, WroteOnce, fresh, is_done, with_text};

/// The sink has a front of the texts that were put, one after the other, and what is left waits, or the sink has
/// failed. This is so at first, after each text that is put, and after each call; and if all was asked for, and nothing
/// waits, the sink has all of it.
pub fn text_arrives()
    ensures first { (sink : SinkState) → Wrote sink sink fresh.failed fresh.waiting [] }
    ensures put { (v : Writing) (text more : List ℕ) (before now : SinkState) → Wrote before now v.failed v.waiting text
        → Wrote before now (with_text v more).failed (with_text v more).waiting (text ++ more) }
    ensures wrote { (v w : Writing) (text : List ℕ) (before now later : SinkState) → Writes v → WroteOnce v w now later
        → Wrote before now v.failed v.waiting text → Wrote before later w.failed w.waiting text }
    ensures done { (v : Writing) (text : List ℕ) (before now : SinkState) → is_done v ≡ true → Wrote before now v.failed v.waiting text → Took before now v.failed text }
{}

/// Each call of the sink leaves less that waits, so whoever writes until nothing is due comes to an end.
pub fn writes_leave_less()
    ensures { (v w : Writing) (before now : SinkState) → Writes v → WroteOnce v w before now → length w.waiting < length v.waiting }
{}
