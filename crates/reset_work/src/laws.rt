//! Laws of resets between epochs.

ghost use Rattle.std.specs.Prelude.{◌≡◌, ℕ, ◌+◌, ◌^◌, ◌<◌, [], ◌∷◌, length, max};
ghost use Rattle.run_rules.specs.declared.State.{State};
ghost use Rattle.step_line.specs.Logs.{NewestFirst};
ghost use Rattle.board_journal.specs.Ports.{taken_in, MayBeDone};
ghost use Rattle.board_journal.specs.Steps.{Journal, port_log};
ghost use Rattle.board_epochs.specs.Bounds.{loaded_mark};
ghost use Rattle.board_epochs.specs.Epochs.{Closed, AreEpochs, closed_log, last_line, log_behind, log_of, opening_behind, ticks_made};
ghost use Rattle.board_epochs.specs.Epochs.Epochs.{goes, resets};
ghost use Rattle.board_epochs.specs.Resets.{MayReset};
ghost use Rattle.board_epochs.specs.Work.{Work, IsWorked, halted_in, worked_in};

/// Where a reset may be worked, a work in which nothing is done goes on with the epochs; and once it is worked, the next epoch does, in
/// which nothing is done. Neither does anything at the port.
pub fn resets_part_epochs()
    ensures begins { (blocks : ℕ) (state : State) (es : NewestFirst Closed) (h : Journal) → AreEpochs blocks state (goes es h) → MayReset (opening_behind blocks state es) h →
        AreEpochs blocks state (resets es h []) × (log_of (resets es h []) ≡ log_of (goes es h)) }
    ensures ends { (blocks : ℕ) (state : State) (es : NewestFirst Closed) (h : Journal) (w : Work) → AreEpochs blocks state (resets es h w) → IsWorked (log_behind (closed_log es) h) w →
        AreEpochs blocks state (goes (record { journal = h; work = w } ∷ es) []) × (log_of (goes (record { journal = h; work = w } ∷ es) []) ≡ log_of (resets es h w)) }
{}

/// What a reset's work begins with fits its words. The host's mark that was worked last is the one that was loaded last for the reset
/// before, and has the number 0 in the first epoch.
pub fn resets_begin_with_known_numbers()
    ensures worked { (blocks : ℕ) (state : State) (es : NewestFirst Closed) (h : Journal) → AreEpochs blocks state (goes es h) → MayReset (opening_behind blocks state es) h → worked_in (log_of (goes es h)) ≡ (loaded_mark (closed_log es)).0 }
    ensures marks { (blocks : ℕ) (state : State) (es : NewestFirst Closed) (h : Journal) → AreEpochs blocks state (goes es h) → MayReset (opening_behind blocks state es) h → worked_in (log_of (goes es h)) < 2 ^ 32 }
    ensures lines { (blocks : ℕ) (state : State) (es : NewestFirst Closed) (h : Journal) → AreEpochs blocks state (goes es h) → last_line (opening_behind blocks state es) h < 2 ^ 32 }
    ensures bytes { (es : NewestFirst Closed) (h : Journal) (blocks : ℕ) (state : State) → AreEpochs blocks state (goes es h) → length (taken_in (log_of (goes es h))) < 2 ^ 32 }
{}

/// What a reset has halted is the motion of its epoch: so many ticks are done at the halt as the epoch's own journal may find done, behind
/// those that were made before it. One more is made then, that of the reset's mark, and the next epoch counts from there.
pub fn resets_halt_their_epoch()
    ensures halted { (blocks : ℕ) (state : State) (es : NewestFirst Closed) (h : Journal) (w : Work) → AreEpochs blocks state (resets es h w) → IsWorked (log_behind (closed_log es) h) w →
        (n : ℕ) × (halted_in w ≡ ticks_made es + n) × MayBeDone n (port_log h) }
    ensures made { (blocks : ℕ) (state : State) (es : NewestFirst Closed) (h : Journal) (w : Work) → AreEpochs blocks state (resets es h w) → IsWorked (log_behind (closed_log es) h) w →
        ticks_made (record { journal = h; work = w } ∷ es) ≡ halted_in w + 1 }
{}

/// Behind a reset the bytes before the host's mark are taken, and no others behind those that were taken before it: what the host
/// stored behind the mark belongs to the next epoch. The mark is new: its number is above that of the mark that was worked last.
pub fn resets_drop_what_is_before_their_mark()
    ensures bytes { (blocks : ℕ) (state : State) (es : NewestFirst Closed) (h : Journal) (w : Work) → AreEpochs blocks state (resets es h w) → IsWorked (log_behind (closed_log es) h) w →
        length (taken_in (log_of (resets es h w))) ≡ max (length (taken_in (log_of (goes es h)))) (loaded_mark (log_of (resets es h w))).1 }
    ensures marks { (blocks : ℕ) (state : State) (es : NewestFirst Closed) (h : Journal) (w : Work) → AreEpochs blocks state (resets es h w) → IsWorked (log_behind (closed_log es) h) w →
        worked_in (log_of (goes es h)) < (loaded_mark (log_of (resets es h w))).0 }
{}
