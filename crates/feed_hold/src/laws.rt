//! How the states of the motion follow one another, as laws.

ghost use Rattle.std.specs.Prelude.{◌≡◌, ◌⊎◌, Bool, true, false, ◌||◌, if◌then◌else◌};
ghost use Rattle.code_table.specs.declared.flags.Exec.{Exec};
ghost use Rattle.feed_hold.specs.declared.Motion.{Motion};
ghost use Rattle.feed_hold.specs.declared.Motion.TheVariants.{Idle, Run, Held, Alarm};
ghost use Rattle.feed_hold.specs.Motions.{Call, Reached, AsksOnly, becomes, hold_byte, cancel_byte, start_byte, asks, after, after_word, is_stopping, is_moving, is_limited, behind_reset};
ghost use Rattle.feed_hold.specs.Motions.Call.{on_stopped, on_unlock};

/// What each byte makes of an idle motion: `!` holds it; 0x85 changes nothing; `~` runs it if moves are queued.
pub fn bytes_at_rest()
    ensures hold { (word : Exec) (queued : Bool) → AsksOnly hold_byte word → after_word word queued Idle ≡ Held }
    ensures cancel { (word : Exec) (queued : Bool) → AsksOnly cancel_byte word → after_word word queued Idle ≡ Idle }
    ensures start { (word : Exec) (queued : Bool) → AsksOnly start_byte word → after_word word queued Idle ≡ (if queued then Run else Idle) }
{}

/// A word with one request does what the table has in that request's column.
pub fn bytes_by_columns()
    ensures hold { (word : Exec) (queued : Bool) (was : Motion) → AsksOnly hold_byte word → after_word word queued was ≡ (becomes was).held }
    ensures cancel { (word : Exec) (queued : Bool) (was : Motion) → AsksOnly cancel_byte word → after_word word queued was ≡ (becomes was).cancelled }
    ensures start { (word : Exec) (was : Motion) → AsksOnly start_byte word → after_word word true was ≡ (becomes was).resumed }
    ensures start_empty { (word : Exec) (was : Motion) → AsksOnly start_byte word → after_word word false was ≡ (becomes was).resumed_empty }
{}

/// Nothing but the stop itself ends Holding, Cancelling and Stopping.
pub fn stops_are_awaited()
    ensures { (call : Call) (was now : Motion) → is_stopping was ≡ true → after call was ≡ Some now → (now ≡ was) ⊎ (call ≡ on_stopped) }
{}

/// Nothing leaves Alarm but an unlock, and nothing is unlocked but a machine in alarm, which stands idle then.
pub fn locks_stay()
    ensures stays { (call : Call) (now : Motion) → after call Alarm ≡ Some now → (now ≡ Alarm) ⊎ ((call ≡ on_unlock) × (now ≡ Idle)) }
    ensures unlocks { (was now : Motion) → after on_unlock was ≡ Some now → (was ≡ Alarm) × (now ≡ Idle) }
{}

/// Behind a reset the machine stands: it is locked if it was moving or in alarm, or stopped at a limit, and idle otherwise.
pub fn resets_lock_what_moves()
    ensures { (was : Motion) → behind_reset was ≡ (if is_moving was || is_limited was then Alarm else Idle) }
{}

/// How each state is reached from another: Holding by `!` in Run alone, Cancelling by `!` or 0x85 in Jog alone, and so
/// on.
pub fn states_are_reached()
    ensures { (call : Call) (was now : Motion) → after call was ≡ Some now → (now ≡ was) ⊎ Reached now call was }
{}

/// A word of requests without a hold, a cancel and a start changes nothing. The state after a word depends on the state
/// before, on these three requests, and on whether moves are queued.
pub fn silent_words_change_nothing()
    ensures { (word : Exec) (queued : Bool) (was : Motion) → asks word hold_byte ≡ false → asks word cancel_byte ≡ false → asks word start_byte ≡ false → after_word word queued was ≡ was }
{}
