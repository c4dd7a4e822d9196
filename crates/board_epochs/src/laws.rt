//! Laws of epochs.

ghost use Rattle.std.specs.Prelude.{◌≡◌, ℕ, ◌+◌, ◌^◌, ◌≤◌, ◌<◌, ◌⊎◌, ◌||◌, true, false, [], ◌∷◌, length, reverse};
ghost use Rattle.feed_hold.specs.declared.Motion.TheVariants.{Stopping};
ghost use Rattle.feed_hold.specs.Motions.{behind_reset};
ghost use Rattle.motion_ring.specs.Sides.{ticks_published};
ghost use Rattle.modal_state.specs.Modes.{opening_parser, origin_nm};
ghost use Rattle.run_rules.specs.declared.State.{State};
ghost use Rattle.run_rules.specs.States.{IsOpening};
ghost use Rattle.run_rules.specs.Work.Task.{tell};
ghost use Rattle.run_texts.specs.Courses.{behind_the_reset};
ghost use Rattle.run_texts.specs.Fronts.{BeginsWith};
ghost use Rattle.run_texts.specs.Points.{Point, opening};
ghost use Rattle.run_texts.specs.Told.{told_at_reset};
ghost use Rattle.status_report.specs.Replies.{IsReply};
ghost use Rattle.status_report.specs.declared.Reply.{Reply as AnyReply};
ghost use Rattle.status_report.specs.declared.reports.Report.{Report as AnyReport};
ghost use Rattle.step_line.specs.declared.Mark.{Mark as AnyMark};
ghost use Rattle.step_line.specs.declared.Piece.{Piece as AnyPiece};
ghost use Rattle.step_line.specs.Logs.{NewestFirst};
ghost use Rattle.board_rules.specs.Conduct.{Conducted, MayOpen, IsInHand, IsNextTask};
ghost use Rattle.board_journal.specs.Openings.{Opening, IsPlaced, IsPlanSize, first_opening, up_to_banner};
ghost use Rattle.board_journal.specs.Ports.{taken_in, answered_in, known_in, sent_in, MayAnswer, MayPublish, MayStop, MayAskHalt, MayBeDone, LacksPieceRoom, HasTakenFew, HasFewReports};
ghost use Rattle.board_journal.specs.Steps.{Journal, port_log, has_limited, known_of, given_of, planned_of, plan_of, before_of, closed_tells, motion_of, lines_of, outcomes_of, answered_of};
ghost use Rattle.board_rules.specs.Turns.{is_alarm, is_limited};
ghost use Rattle.planner_runs.specs.Runs.{fresh_plan};
ghost use Rattle.board_epochs.specs.Bounds.{IsFew, AreMarked};
ghost use Rattle.board_epochs.specs.Greetings.{IsGreeted};
ghost use Rattle.board_epochs.specs.Reports.{TellLock};
ghost use Rattle.board_epochs.specs.Resets.{MayReset};
ghost use Rattle.board_epochs.specs.Work.{Work, stage_of};
ghost use Rattle.board_epochs.specs.Work.Stage.{stops, awaits_halt, publishes};
ghost use Rattle.board_epochs.specs.Epochs.{Closed, AreClosed, Epochs, AreEpochs, IsEpoch, answered_state, last_line, lines_dropped, reset_of, next_opening, opening_behind, point_of, closed_log, ticks_made, log_behind, log_of};
ghost use Rattle.board_epochs.specs.Epochs.Epochs.{goes, resets};

/// Each epoch opens where a journal may begin: the machine stands, idle or locked, one Banner greets, and the position is
/// where the machine was halted. The plan is empty, and overrides are 100 percent. Settings stay, and so do all offsets
/// but that of G92, which is zero; modes, feed, speed and tool are those of the opening. It is locked exactly where it
/// was moving, or in alarm. The plan holds as many blocks in each.
pub fn epochs_open_where_they_stand()
    ensures opens { (blocks : ℕ) (state : State) (es : NewestFirst Closed) → IsPlanSize blocks → MayOpen (opening_behind blocks state es) }
    ensures next { (base : ℕ) (first : Opening) (h : Journal) (w : Work) → Conducted first h → MayOpen (next_opening base first h w) }
    ensures placed { (blocks : ℕ) (state : State) (es : NewestFirst Closed) → IsOpening state → IsPlaced (opening_behind blocks state es) }
    ensures plan { plan_of [] ≡ fresh_plan }
    ensures blocks { (blocks : ℕ) (state : State) (es : NewestFirst Closed) → (opening_behind blocks state es).blocks ≡ blocks }
    ensures settings { (base : ℕ) (first : Opening) (h : Journal) (w : Work) → (next_opening base first h w).state.settings ≡ (answered_state first h).settings }
    ensures modes { (base : ℕ) (first : Opening) (h : Journal) (w : Work) → let p = (next_opening base first h w).state.parser in
        (p.modal ≡ opening_parser.modal) × (p.feed ≡ opening_parser.feed) × (p.rpm ≡ opening_parser.rpm) × (p.tool ≡ opening_parser.tool) }
    ensures offsets { (base : ℕ) (first : Opening) (h : Journal) (w : Work) → let was = (answered_state first h).parser.offsets in
        (next_opening base first h w).state.parser.offsets ≡ record was { g92 = origin_nm } }
    ensures locked { (base : ℕ) (first : Opening) (h : Journal) (w : Work) → (motion_of first h ≡ Stopping → ⊥) →
        (next_opening base first h w).motion ≡ behind_reset (motion_of first h) }
    ensures numbers { (base : ℕ) (first : Opening) (h : Journal) (w : Work) →
        ((reset_of base first h w).number ≡ last_line first h) × ((next_opening base first h w).lines ≡ last_line first h + lines_dropped h w) }
{}

/// A reset is worked only in an epoch in which no line has raised the alarm of a soft limit, whose run is not being closed,
/// and whose end is not made: so its mark may be published, and the machine is not stopping at a limit.
pub fn resets_come_in_calm_epochs()
    ensures calm { (first : Opening) (h : Journal) → IsEpoch first h → MayReset first h → has_limited h ≡ false }
    ensures going { (first : Opening) (h : Journal) → IsEpoch first h → MayReset first h → closed_tells h ≡ [] }
    ensures unended { (first : Opening) (h : Journal) → IsEpoch first h → MayReset first h → given_of h ≡ planned_of h }
    ensures motion { (first : Opening) (h : Journal) → IsEpoch first h → MayReset first h → motion_of first h ≡ Stopping → ⊥ }
{}

/// The port counts on over all epochs, and a journal from where its epoch began, when all ticks published were done: what
/// the port finds done, or promises of its room, its bytes and the words that ask for reports, is so much more than what
/// the journal's rules ask for.
pub fn ports_count_on_over_epochs()
    ensures begins { (blocks : ℕ) (state : State) (es : NewestFirst Closed) → AreClosed blocks state es → (ticks_published (sent_in (closed_log es)) ≡ ticks_made es) × ((sent_in (closed_log es)).waits ≡ false) }
    ensures known { (blocks : ℕ) (state : State) (es : NewestFirst Closed) (h : Journal) → AreClosed blocks state es → IsEpoch (opening_behind blocks state es) h →
        known_in (log_of (goes es h)) ≡ ticks_made es + known_of h }
    ensures done { (blocks : ℕ) (state : State) (es : NewestFirst Closed) (h : Journal) (k : ℕ) → AreClosed blocks state es → IsEpoch (opening_behind blocks state es) h → MayBeDone k (log_of (goes es h)) →
        (n : ℕ) × (k ≡ ticks_made es + n) × MayBeDone n (port_log h) }
    ensures room { (blocks : ℕ) (state : State) (es : NewestFirst Closed) (h : Journal) (k : ℕ) → AreClosed blocks state es → IsEpoch (opening_behind blocks state es) h → LacksPieceRoom k (log_of (goes es h)) →
        (n : ℕ) × (k ≡ ticks_made es + n) × LacksPieceRoom n (port_log h) }
    ensures bytes { (es : NewestFirst Closed) (h : Journal) → HasTakenFew (log_of (goes es h)) → HasTakenFew (port_log h) }
    ensures reports { (es : NewestFirst Closed) (h : Journal) → HasFewReports (log_of (goes es h)) → HasFewReports (port_log h) }
{}

/// Closed epochs are fewer than 2^32, since each has a mark of its own; of each byte taken so many ticks, pieces and replies
/// were made at most, and of each reset a few. The mark of a reset is new behind the last Banner, and the bytes before it
/// are taken.
pub fn closed_epochs_are_bounded()
    ensures epochs { (blocks : ℕ) (state : State) (es : NewestFirst Closed) → AreClosed blocks state es → length es < 2 ^ 32 }
    ensures few { (blocks : ℕ) (state : State) (es : NewestFirst Closed) → AreClosed blocks state es → IsFew (closed_log es) (length es) }
    ensures marked { (blocks : ℕ) (state : State) (es : NewestFirst Closed) → AreClosed blocks state es → ((length es ≡ 0) × (closed_log es ≡ [])) ⊎ AreMarked (closed_log es) (length es) }
    ensures numbers { (blocks : ℕ) (state : State) (es : NewestFirst Closed) (h : Journal) → AreClosed blocks state es → Conducted (opening_behind blocks state es) h →
        last_line (opening_behind blocks state es) h ≤ length (taken_in (log_behind (closed_log es) h)) }
{}

/// What a board does next by its rules it may ask of its port, over all epochs: to publish the piece in hand, to answer the
/// reply that is next, a Banner behind a reset among them, or a report; and in a reset's work to stop the pulse, to ask
/// whether it has halted, and to publish the reset's mark, for which there is room.
pub fn boards_ask_their_port_over_epochs()
    ensures publish { (blocks : ℕ) (state : State) (es : NewestFirst Closed) (h : Journal) (p : AnyPiece) → AreEpochs blocks state (goes es h) → IsInHand p h → MayPublish (log_of (goes es h)) p }
    ensures answer { (blocks : ℕ) (state : State) (es : NewestFirst Closed) (h : Journal) (r : AnyReply) → AreEpochs blocks state (goes es h) → IsNextTask (opening_behind blocks state es) (tell r) h → IsReply r →
        MayAnswer (log_of (goes es h)) r }
    ensures report { (blocks : ℕ) (state : State) (es : NewestFirst Closed) (h : Journal) (r : AnyReport) → AreEpochs blocks state (goes es h) → IsReply (AnyReply.Report r) → MayAnswer (log_of (goes es h)) (AnyReply.Report r) }
    ensures stop { (blocks : ℕ) (state : State) (es : NewestFirst Closed) (h : Journal) (w : Work) (n : ℕ) → AreEpochs blocks state (resets es h w) → stage_of (log_behind (closed_log es) h) w ≡ stops n →
        MayStop (log_of (resets es h w)) }
    ensures halt { (blocks : ℕ) (state : State) (es : NewestFirst Closed) (h : Journal) (w : Work) (n : ℕ) → AreEpochs blocks state (resets es h w) → stage_of (log_behind (closed_log es) h) w ≡ awaits_halt n →
        MayAskHalt (log_of (resets es h w)) }
    ensures mark { (blocks : ℕ) (state : State) (es : NewestFirst Closed) (h : Journal) (w : Work) → AreEpochs blocks state (resets es h w) → stage_of (log_behind (closed_log es) h) w ≡ publishes →
        MayPublish (log_of (resets es h w)) (AnyPiece.Mark (AnyMark.Reset (last_line (opening_behind blocks state es) h))) }
    ensures room { (blocks : ℕ) (state : State) (es : NewestFirst Closed) (h : Journal) (w : Work) (done : ℕ) → AreEpochs blocks state (resets es h w) → stage_of (log_behind (closed_log es) h) w ≡ publishes →
        LacksPieceRoom done (log_of (resets es h w)) → ⊥ }
{}

/// A reset is one of the texts: what is told first behind it is what stands between two epochs, and where a course stands
/// that has passed the answered lines, the next epoch begins as a course goes on behind the reset. Behind a run's first
/// opening it is as at a course's beginning.
pub fn resets_are_those_of_the_texts()
    ensures told { (base : ℕ) (first : Opening) (h : Journal) (w : Work) → (next_opening base first h w).tells ≡ told_at_reset (reset_of base first h w) }
    ensures point { (base : ℕ) (first : Opening) (h : Journal) (w : Work) (p : Point) → p.before.state ≡ answered_state first h →
        behind_the_reset (reset_of base first h w) p ≡ point_of (next_opening base first h w) }
    ensures begins { (blocks : ℕ) (state : State) → opening state ≡ point_of (first_opening blocks state) }
    ensures number { (base : ℕ) (first : Opening) (h : Journal) (w : Work) → Conducted first h → (reset_of base first h w).number + 1 ≡ (before_of first h).number }
    ensures locks { (base : ℕ) (first : Opening) (h : Journal) (w : Work) → (reset_of base first h w).locked ≡ ((reset_of base first h w).alarm || is_alarm (motion_of first h)) }
{}

/// What is answered in an epoch begins with what greets there, up to the banner, or is a front of that: no report comes before the
/// banner of its epoch. An epoch that a reset ends was greeted, since no reply is next then. So what is answered over all epochs
/// begins with the banner of the first.
pub fn epochs_are_greeted_first()
    ensures now { (first : Opening) (h : Journal) → Conducted first h → IsGreeted first.tells (answered_of h) }
    ensures reset { (first : Opening) (h : Journal) → Conducted first h → MayReset first h → BeginsWith (answered_of h) (up_to_banner first.tells) }
    ensures all { (blocks : ℕ) (state : State) (es : Epochs) → AreEpochs blocks state es → IsGreeted (AnyReply.Banner ∷ []) (answered_in (log_of es)) }
{}

/// A machine that is locked as an epoch begins is told in alarm until a line is begun that unlocks it; and once that line is
/// answered, only for an alarm that a line raises. An epoch begins locked exactly where the reset behind which it opens leaves
/// the machine so.
pub fn reports_tell_the_lock()
    ensures told { (first : Opening) (h : Journal) → Conducted first h → is_limited first.motion ≡ true → TellLock (lines_of h) (outcomes_of h) (reverse (answered_of h)) }
    ensures locked { (base : ℕ) (first : Opening) (h : Journal) (w : Work) → is_limited (next_opening base first h w).motion ≡ (reset_of base first h w).locked }
{}
