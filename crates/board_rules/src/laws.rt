//! Laws of boards.

ghost use Rattle.std.specs.Prelude.{◌≡◌, ◌↔◌, ℕ, ◌+◌, ◌*◌, ◌^◌, ◌≤◌, ◌<◌, ◌⊎◌, Bool, true, false, ◌&&◌, ◌||◌, cond, List, [], ◌∷◌, ◌++◌, length, map, reverse, Some};
ghost use Rattle.std.specs.List.{AllByRecursion, count_by, flat_map, list_any, sum};
ghost use Rattle.code_table.specs.declared.flags.Exec.{Exec as AnyExec};
ghost use Rattle.code_table.specs.declared.flags.Ovr.{Ovr as AnyOvr};
ghost use Rattle.feed_hold.specs.declared.Motion.{Motion as AnyMotion};
ghost use Rattle.feed_hold.specs.declared.Motion.TheVariants.{Idle, Run, Holding, Held, Jog, Cancelling, Stopping, Alarm};
ghost use Rattle.feed_hold.specs.Motions.{after, is_stopping};
ghost use Rattle.feed_hold.specs.Motions.{Call};
ghost use Rattle.feed_hold.specs.Motions.Call.{on_exec, on_start, on_stopped, on_unlock};
ghost use Rattle.flight.specs.Flights.{BeginsAt};
ghost use Rattle.flight.specs.Places.{machine_from, machine_at, end_from};
ghost use Rattle.outside.specs.declared.On.{On as AnyOn};
ghost use Rattle.outside.specs.declared.On.TheVariants as causes;
ghost use Rattle.outside.specs.declared.Turn.{Turn as AnyTurn};
ghost use Rattle.outside.specs.declared.Turn.TheVariants.{Wait};
ghost use Rattle.planner_runs.specs.declared.Action.TheVariants.{Take};
ghost use Rattle.planner_runs.specs.Runs.{IsPlannerRun, IsAtRest, Plans, IsStart, normal_overrides, all_asked, ticks_left};
ghost use Rattle.board_journal.specs.Openings.{Opening, IsPlaced, IsPlanSize, before_first, first_opening, up_to_banner};
ghost use Rattle.run_rules.specs.declared.State.{State};
ghost use Rattle.run_rules.specs.States.{IsOpening};
ghost use Rattle.run_rules.specs.Work.{Outcome, is_limit, tells, asks};
ghost use Rattle.run_rules.specs.Work.Task.{ask, tell};
ghost use Rattle.run_rules.specs.Told.{replies_after, replies_in, asked_in, limits_in};
ghost use Rattle.run_rules.specs.Outcomes.{Before, Becomes, Passed, Follows, start, became_of};
ghost use Rattle.run_rules.specs.Locking.{BecomesIn, FollowsFrom};
ghost use Rattle.run_rules.specs.Outcomes.Passed.{a_line};
ghost use Rattle.status_report.specs.declared.Reply.{Reply as AnyReply};
ghost use Rattle.status_report.specs.Replies.{IsReply};
ghost use Rattle.plan_rules.specs.declared.Mode.TheVariants.{Go, Hold};
ghost use Rattle.step_line.specs.Asking.{Asked, ticks_of_all};
ghost use Rattle.step_line.specs.Asking.Asked.{a_move};
ghost use Rattle.step_line.specs.declared.Mark.TheVariants.{Cut};
ghost use Rattle.step_line.specs.Pieces.{ticks_of};
ghost use Rattle.step_line.specs.Finishing.{tick_count, ticks_together, unfinished, most_unfinished};
ghost use Rattle.step_line.specs.declared.planned_move.PlannedMove.{PlannedMove as AnyMove};
ghost use Rattle.step_line.specs.Ordering.{InTurn, ComesNext};
ghost use Rattle.status_report.specs.Answering.{lfs_in, is_answer, answers_in, without_reports, reports_among};
ghost use Rattle.step_line.specs.declared.Piece.{Piece as AnyPiece};
ghost use Rattle.step_line.specs.declared.Segment.{Segment as AnySegment};
ghost use Rattle.step_line.specs.Places.{place_after};
ghost use Rattle.board_journal.specs.Steps.Step.{at_port, began, did, became, cut, halted, turned};
ghost use Rattle.units.specs.Truths.{one_if};
ghost use Rattle.board_rules.specs.Parts.{IsCutPart, IsAlarmedPart, IsSlowedOnlyBy, AreDisturbedOnlyBy, but_last, lines_in, actions_in, pieces_in, passed_in, plan_behind, AreJoined, AreNumbered};
ghost use Rattle.board_rules.specs.Cuts.{
  part_outcomes,
  part_actions,
  part_given,
  part_start,
  part_plan,
  has_halted,
  parts_of,
  passed_of,
  counts_of,
  has_cut,
  is_cancelling,
  cancels_of,
  pending,
};
ghost use Rattle.board_journal.specs.Ports.{MayAnswer, MayPublish, MayBeDone, asks_reset, sent_in, unstopped, has_held_in, has_slowed_in, has_changed_in, cancel_words_in, reports_in};
ghost use Rattle.board_rules.specs.Whole.{course_of};
ghost use Rattle.run_rules.specs.Reports.{Reported};
ghost use Rattle.board_journal.specs.Ports.PortStep.{answered, took_exec, took_ovr, reported, published, no_piece_room};
ghost use Rattle.status_report.specs.declared.reports.Report.{Report as AnyReport};
ghost use Rattle.status_report.specs.Reports.{CanBeTold};
ghost use Rattle.board_journal.specs.Steps.{
  Step,
  Journal,
  port_log,
  taken_of,
  answered_of,
  published_of,
  known_of,
  open_of,
  whole_of,
  lines_of,
  outcomes_of,
  has_limited,
  before_of,
  left_of,
  closed_tells,
  actions_of,
  planned_of,
  given_of,
  hand_of,
  plan_of,
  motion_of,
};
ghost use Rattle.board_rules.specs.Conduct.{Conducted, MayOpen, IsLocked, AreWaiting, IsDrained, HasSlowedDown, IsStopped, MayStop, MayHalt, IsInHand, IsNextTask, IsFinished, IsRoom, ticks_given, ticks_published};
ghost use Rattle.board_rules.specs.Turns.{
  this_turn,
  publishing,
  ends_turn,
  lacks_reply_room,
  tells_next,
  awaits_motion,
  is_held_up,
  takes_requests,
  obeys,
  unobeyed_of,
  owes_report,
  is_report_back,
  takes_changes,
  replans,
  asks_no_start,
  is_greeted,
  requests_taken,
  changes_taken,
  loads,
  is_full,
  halts_next,
  is_limited,
  is_locked,
  starts_cycle,
  has_jog_to_start,
  is_going,
  tries_of,
  most_tries,
  begun_while_due,
  waits_while_due,
};
ghost use Rattle.board_rules.specs.Whole.{AreLines, IsSpent, OneByOne, WorkRests, ComesToRest, IsFoundMoving, IsKnown, has_any_moved};

/// The bytes that a board has taken are its lines, and each line that it has begun becomes what the rules say. What it
/// has answered, reports left out, and has still to tell, is what the lines tell, and Bye, once, when the run is being
/// closed; what was asked of the plan, and has still to be asked, is what they ask: all that all but the last of them ask
/// for was asked (`added`). No byte of a line is taken while a task of the line before is left. If jogs are cut, what is asked is that since the last cut.
pub fn boards_keep_to_their_lines()
    ensures bytes { (first : Opening) (h : Journal) → Conducted first h → AreLines (taken_of h) (lines_of h) (open_of h) (whole_of h) }
    ensures follow { (first : Opening) (h : Journal) → Conducted first h → FollowsFrom (is_limited first.motion) true (before_first first) (lines_of h) (passed_of first h) (before_of first h) }
    ensures lines { (first : Opening) (h : Journal) → became_of (passed_of first h) ≡ outcomes_of h }
    ensures told { (first : Opening) (h : Journal) → Conducted first h → replies_after first.tells (outcomes_of h) ++ closed_tells h ≡ without_reports (answered_of h) ++ tells (left_of first h) }
    ensures bye { (first : Opening) (h : Journal) → Conducted first h → (closed_tells h ≡ []) ⊎ (closed_tells h ≡ AnyReply.Bye ∷ []) }
    ensures asked { (first : Opening) (h : Journal) → Conducted first h → asked_in (part_outcomes h) ≡ all_asked (part_actions h) ++ asks (left_of first h) }
    ensures added { (first : Opening) (h : Journal) → Conducted first h → (more : List Asked) × (all_asked (part_actions h) ≡ asked_in (but_last (part_outcomes h)) ++ more) }
    ensures one_by_one { (first : Opening) (h : Journal) → Conducted first h → closed_tells h ≡ [] → OneByOne (left_of first h) (open_of h) (whole_of h) }
{}

/// Each line has one answer, but for one that raises an alarm: what was answered, what is still to be answered, the
/// line that has raised an alarm, and the line that is taken whole and not begun, are the lines taken to their LF. So
/// an answer that is next may be given. A journal is greeted by one Banner, before any byte is taken; so at the port, too,
/// whose rule counts since the last Banner, the reply that is next may be answered.
pub fn boards_answer_each_line_once()
    ensures answers { (first : Opening) (h : Journal) → Conducted first h →
        answers_in (answered_of h) + answers_in (tells (left_of first h)) + one_if (has_limited h) + cond (whole_of h) 1 0 ≡ lfs_in (taken_of h) }
    ensures due { (first : Opening) (h : Journal) (r : AnyReply) → Conducted first h → IsNextTask first (tell r) h → is_answer r ≡ true →
        answers_in (answered_of h) < lfs_in (taken_of h) }
    ensures fits { (first : Opening) (h : Journal) (r : AnyReply) → Conducted first h → IsNextTask first (tell r) h → IsReply r → MayAnswer (port_log h) r }
{}

/// An epoch is greeted before all else. No word of flags is taken, and no report answered, before the banner is told; until then no
/// byte is taken and no line begun, and what was answered is a front of what greets, of which the rest is to be told. From then on
/// what was answered begins with what greets, up to the banner. Where no reply is next the banner is told.
pub fn boards_greet_first()
    ensures words { (first : Opening) (h : Journal) (word : AnyExec) → Conducted first (at_port (took_exec word) ∷ h) → is_greeted h ≡ true }
    ensures changes { (first : Opening) (h : Journal) (word : AnyOvr) → Conducted first (at_port (took_ovr word) ∷ h) → is_greeted h ≡ true }
    ensures reports { (first : Opening) (h : Journal) (r : AnyReport) → Conducted first (at_port (reported r) ∷ h) → is_greeted h ≡ true }
    ensures before { (first : Opening) (h : Journal) → Conducted first h → is_greeted h ≡ false → (taken_of h ≡ []) × ((outcomes_of h ≡ []) × (answered_of h ++ tells (left_of first h) ≡ first.tells)) }
    ensures behind { (first : Opening) (h : Journal) → Conducted first h → is_greeted h ≡ true → (behind : List AnyReply) × (answered_of h ≡ up_to_banner first.tells ++ behind) }
    ensures told { (first : Opening) (h : Journal) → Conducted first h → tells_next (left_of first h) ≡ false → is_greeted h ≡ true }
{}

/// A board begins 2^31 lines at most, since its port gives no more bytes; so it gives fewer than 2^62 ticks, and
/// answers fewer than 2^62 replies. Each line has a byte, and a bounded number of ticks and replies; so several journals,
/// whose bytes are 2^31 in all, are bounded together.
pub fn boards_do_a_bounded_amount()
    ensures lines { (first : Opening) (h : Journal) → Conducted first h → length (outcomes_of h) ≤ 2 ^ 31 }
    ensures ticks { (first : Opening) (h : Journal) → Conducted first h → ticks_given h < 2 ^ 62 }
    ensures bytes { (first : Opening) (h : Journal) → Conducted first h → length (outcomes_of h) ≤ length (taken_of h) }
    ensures ticks_of_lines { (first : Opening) (h : Journal) → Conducted first h → ticks_given h ≤ 400000006 * length (outcomes_of h) }
    ensures replies_of_lines { (first : Opening) (h : Journal) → Conducted first h → length (answered_of h) ≤ 64 * length (outcomes_of h) + 4 + reports_in (port_log h) }
    ensures piece { (first : Opening) (h : Journal) (p : AnyPiece) → Conducted first h → IsInHand p h → ticks_published h + tick_count p < 2 ^ 62 }
    ensures replies { (first : Opening) (h : Journal) → Conducted first h → length (answered_of h) < 2 ^ 62 }
{}

/// What a board does to its plan is a planner run; and so is what it has done since the last cut, from where nothing
/// was left to run, to the plan as it is, or to what a halt has dropped. The plan has no more blocks than it may hold
/// (`sized`). Only a word that asks for a hold or a cancel
/// slows it down, and behind the line that raised an alarm that alarm; and only a word that changes overrides plans it for others than 100 percent. Only cuts and halts take blocks away. Segments go on while the machine runs or
/// jogs, and slow it down while it is being held, a jog is cancelled, or an alarm stops it. While a word of requests waits to be
/// obeyed none goes on, and none is published. What was given is what the
/// plan gave, and the end after it if it was made; it is published, or in hand, and comes in turn, so that the piece in
/// hand may be published.
pub fn boards_run_their_plan()
    ensures run { (first : Opening) (h : Journal) → Conducted first h → IsPlannerRun first.blocks (actions_of h) (planned_of h) (plan_of h) }
    ensures sized { (first : Opening) (h : Journal) → Conducted first h → length (plan_of h).blocks ≤ first.blocks }
    ensures part { (first : Opening) (h : Journal) → Conducted first h → IsStart (part_start h) × Plans first.blocks (part_start h) (part_actions h) (part_given h) (part_plan h) }
    ensures disturbed { (first : Opening) (h : Journal) → Conducted first h →
        IsSlowedOnlyBy (has_slowed_in (port_log h)) (has_limited h) (has_changed_in (port_log h)) (asked_in (part_outcomes h)) (part_actions h) }
    ensures parts { (first : Opening) (h : Journal) → Conducted first h →
        AreDisturbedOnlyBy (has_slowed_in (port_log h)) (has_changed_in (port_log h)) (parts_of first h) }
    ensures overrides { (first : Opening) (h : Journal) → Conducted first h → has_changed_in (port_log h) ≡ false → (plan_of h).overrides ≡ normal_overrides }
    ensures held { (first : Opening) (h : Journal) → Conducted first h → motion_of first h ≡ Holding → has_held_in (port_log h) ≡ true }
    ensures cancelled { (first : Opening) (h : Journal) → Conducted first h → motion_of first h ≡ Cancelling → has_slowed_in (port_log h) ≡ true }
    ensures going { (first : Opening) (h : Journal) (ps : List AnyPiece) → Conducted first (did (Take Go) ps ∷ h) → is_going (motion_of first h) ≡ true }
    ensures obeyed { (first : Opening) (h : Journal) (ps : List AnyPiece) → Conducted first (did (Take Go) ps ∷ h) → unobeyed_of h ≡ [] }
    ensures obeyed_first { (first : Opening) (h : Journal) (s : AnySegment) → Conducted first (at_port (published (AnyPiece.Segment s)) ∷ h) → unobeyed_of h ≡ [] }
    ensures slowing { (first : Opening) (h : Journal) (ps : List AnyPiece) → Conducted first (did (Take Hold) ps ∷ h) →
        (motion_of first h ≡ Holding) ⊎ ((motion_of first h ≡ Cancelling) ⊎ ((motion_of first h ≡ Stopping) × (has_limited h ≡ true))) }
    ensures hand { (first : Opening) (h : Journal) → Conducted first h → given_of h ≡ published_of h ++ hand_of h }
    ensures end { (first : Opening) (h : Journal) → Conducted first h → (given_of h ≡ planned_of h) ⊎ (given_of h ≡ planned_of h ++ AnyPiece.End ∷ []) }
    ensures turns { (first : Opening) (h : Journal) → Conducted first h → InTurn (reverse (given_of h)) }
    ensures next { (first : Opening) (h : Journal) (p : AnyPiece) → Conducted first h → IsInHand p h → ComesNext (reverse (published_of h)) p }
{}

/// Each piece that is to be published begins where the ticks of the pieces before it lead, from the place of the
/// opening on, if the position is there: the
/// moves of the lines join, and so do the blocks of the plan and the segments that it gives; after a cut the next line
/// begins there. So once some ticks of a published segment are done, and all before it, the machine is at the place to
/// which so many events of the segment's move lead.
pub fn boards_lead_the_machine()
    ensures next { (first : Opening) (h : Journal) (p : AnyPiece) → IsPlaced first → Conducted first h → IsInHand p h → BeginsAt (end_from first.place (published_of h)) p }
    ensures within { (first : Opening) (h : Journal) (early late : List AnyPiece) (s : AnySegment) (j : ℕ) → IsPlaced first → Conducted first h →
        published_of h ≡ early ++ AnyPiece.Segment s ∷ late → j ≤ s.n → machine_from first.place (published_of h) (ticks_together early + j) ≡ place_after s.mv (s.first + j) }
{}

/// If no line, and no jog, has moved since the last line that settles, the machine stands or will be waited for; so if
/// nothing is left to do, each tick that was given is done, and a machine that does not stand then has moved. What
/// there is to do of a line brings the machine to rest if the line settles, and if it moves nothing it does so or gives
/// the machine nothing to do.
pub fn boards_stand_where_nothing_moved()
    ensures quiet { (first : Opening) (h : Journal) → Conducted first h → closed_tells h ≡ [] →
        has_any_moved (before_of first h) ≡ false → ComesToRest first h }
    ensures moved { (first : Opening) (h : Journal) → Conducted first h → closed_tells h ≡ [] →
        left_of first h ≡ [] → (IsDrained h → ⊥) → has_any_moved (before_of first h) ≡ true }
    ensures done { (first : Opening) (h : Journal) → Conducted first h → closed_tells h ≡ [] →
        left_of first h ≡ [] → has_any_moved (before_of first h) ≡ false → known_of h ≡ ticks_given h }
    ensures works { (runs : Bool) (before : Before) (kept : List ℕ) (outcome : Outcome) → Becomes runs before kept outcome → WorkRests outcome }
    ensures motion { (first : Opening) (h : Journal) → Conducted first h → has_limited h ≡ false → IsLocked first h ⊎ ((motion_of first h ≡ Idle) ⊎ ((motion_of first h ≡ Run) ⊎ ((motion_of first h ≡ Holding) ⊎ ((motion_of first h ≡ Held) ⊎ ((motion_of first h ≡ Jog) ⊎ (motion_of first h ≡ Cancelling)))))) }
{}

/// While the machine runs, the last that was accepted of G-code and jogs is no jog, and a line of G-code has moved
/// since the last line that settles, when a line is begun; in a jog it is one, and something has moved. So what becomes
/// of a line when the machine is found so has its cause in the lines before.
pub fn boards_move_by_their_lines()
    ensures running { (first : Opening) (h : Journal) → Conducted first h → motion_of first h ≡ Run → (before_of first h).jogged ≡ false }
    ensures jogging { (first : Opening) (h : Journal) → Conducted first h → motion_of first h ≡ Jog → (before_of first h).jogged ≡ true }
    ensures moved { (first : Opening) (h : Journal) (o : Outcome) → Conducted first (began o ∷ h) → motion_of first h ≡ Run → (before_of first h).moved ≡ true }
    ensures becomes { (first : Opening) (h : Journal) (o : Outcome) → Conducted first (began o ∷ h) → BecomesIn (is_locked first h) true (before_of first h) (open_of h) o }
{}

/// A line is refused for the machine's motion, with error 8 or 9, only if the machine was found moving. Unless the line
/// becomes the same while the machine stands, a load of the done ticks in the turn that begins it found fewer than are
/// published, or an event was left to run, in the plan or in hand.
pub fn boards_refuse_only_while_they_move()
    ensures moving { (first : Opening) (h : Journal) (o : Outcome) → Conducted first (began o ∷ h) →
        (BecomesIn (is_locked first h) false (before_of first h) (open_of h) o → ⊥) → IsFoundMoving first h }
{}

/// A board publishes one thing a turn at most, also in one that ends in a wait, and between two turns no more than five tries to publish come after
/// its last poll, of which one at most comes before a line is begun, not counting those in a wait: one for room behind each time that a report
/// or a reply was handed back; those for a machine that is held, or slows down for that; and those with what else is left to do of a line than
/// replies. A reply that is none of a line's last three takes a try back once it is told, where more than one was counted.
/// While a report is owed a piece is tried to be published only once behind each time that it was handed back.
/// Each word of requests that was taken, and asks for no reset, is obeyed once, in order, or is the
/// last one: between two turns it waits only for a report that is owed. One that asks for a reset is not obeyed. For each word that changes overrides the plan is made anew, once.
pub fn boards_take_turns()
    ensures once { (first : Opening) (h : Journal) → Conducted first h → this_turn h ≡ [] → count_by publishing h ≤ count_by ends_turn h }
    ensures each { (first : Opening) (h : Journal) (t : AnyTurn) → Conducted first (turned t ∷ h) → count_by publishing (this_turn h) ≤ 1 }
    ensures tries { (first : Opening) (h : Journal) → Conducted first h → this_turn h ≡ [] → tries_of first h ≤ most_tries }
    ensures begun { (first : Opening) (h : Journal) (o : Outcome) → Conducted first (began o ∷ h) → tries_of first h ≤ 1 }
    ensures owed { (first : Opening) (h : Journal) (p : AnyPiece) → Conducted first (at_port (published p) ∷ h) → owes_report h ≡ true → is_report_back h ≡ true }
    ensures owed_back { (first : Opening) (h : Journal) (done : ℕ) → Conducted first (at_port (no_piece_room done) ∷ h) → owes_report h ≡ true → is_report_back h ≡ true }
    ensures obeyed { (first : Opening) (h : Journal) → Conducted first h → count_by obeys h + length (unobeyed_of h) ≡ count_by takes_requests h }
    ensures one { (first : Opening) (h : Journal) → Conducted first h → length (unobeyed_of h) ≤ 1 }
    ensures waits { (first : Opening) (h : Journal) → Conducted first h → this_turn h ≡ [] → owes_report h ≡ false → unobeyed_of h ≡ [] }
    ensures changed { (first : Opening) (h : Journal) → Conducted first h → this_turn h ≡ [] → count_by replans h ≡ count_by takes_changes h }
{}

/// A line is begun once both words of flags were taken after its LF, what they ask for is done, and no report is owed.
/// When anything is waited for, both were taken since the last wait behind the banner, and obeyed. A word of requests lets a machine that
/// is held stay so if it asks for a reset, since it is not obeyed then, or asks for no start, or for a hold. A machine that slows down is held, or in alarm, once it has
/// stopped and each tick is done; and one whose jogs were cancelled stands then, once its jogs were cut. The board
/// looks for that before it obeys a word, so that a machine that has stopped is held by then, or its jogs are cut. A
/// word is obeyed while a report is owed only if there was no room for it in that turn.
pub fn boards_take_their_flags()
    ensures begun { (first : Opening) (h : Journal) (o : Outcome) → Conducted first (began o ∷ h) → (requests_taken h ≡ true) × (changes_taken h ≡ true) }
    ensures worked { (first : Opening) (h : Journal) (o : Outcome) → Conducted first (began o ∷ h) → (unobeyed_of h ≡ []) × (owes_report h ≡ false) }
    ensures waited { (first : Opening) (h : Journal) (o : AnyOn) → Conducted first (turned (Wait o) ∷ h) → (requests_taken h ≡ true) × ((changes_taken h ≡ true) × (unobeyed_of h ≡ [])) }
    ensures stays { (word : AnyExec) (queued : Bool) → (asks_no_start (at_port (took_exec word)) ≡ true) ↔ ((asks_reset word ≡ true) ⊎ (after (on_exec word queued) Held ≡ Some Held)) }
    ensures held { (first : Opening) (h : Journal) (m : AnyMotion) → Conducted first (became on_stopped m ∷ h) → MayStop first h }
    ensures reported { (first : Opening) (h : Journal) (word : AnyExec) (queued : Bool) (m : AnyMotion) → Conducted first (became (on_exec word queued) m ∷ h) →
        owes_report h ≡ true → list_any lacks_reply_room (this_turn h) ≡ true }
    ensures looked { (first : Opening) (h : Journal) (word : AnyExec) (queued : Bool) (m : AnyMotion) → Conducted first (became (on_exec word queued) m ∷ h) →
        HasSlowedDown first h → list_any loads (this_turn h) ≡ true }
    ensures stopped { (first : Opening) (h : Journal) (word : AnyExec) (queued : Bool) (m : AnyMotion) → Conducted first (became (on_exec word queued) m ∷ h) →
        IsStopped first h → ⊥ }
{}

/// Each report fits what was done before it: the place is that after the ticks that were found done in its turn, on all
/// axes, and all else is of the same moment. If it shows blocks, they are those for which the plan has room. A machine
/// that has run out is not reported as running, nor one that has
/// stopped as slowing down. So it fits the whole run: the ticks that reports show never fall, they are at least those
/// of the lines up to the last answered one that settles, and at most those of the next line; and a machine that
/// nothing moves stands. For each word that asks for a report there is one at most. Each report can be told: its places are
/// near enough, and its numbers as wide as their types.
pub fn boards_report_where_they_are()
    ensures fits { (first : Opening) (h : Journal) → Conducted first h → Reported (course_of first h) (reverse (answered_of h)) (known_of h) }
    ensures told { (first : Opening) (h : Journal) (r : AnyReport) → Conducted first (at_port (reported r) ∷ h) →
        (list_any loads (this_turn h) ≡ true) × ((IsDrained h → is_going (motion_of first h) ≡ false) × ((IsStopped first h → ⊥) × IsRoom first r.buffer h)) }
    ensures free { (first : Opening) (h : Journal) (r : AnyReport) (blocks bytes : ℕ) → Conducted first (at_port (reported r) ∷ h) → r.buffer ≡ Some (blocks, bytes) →
        blocks + length (plan_of h).blocks ≡ first.blocks }
    ensures few { (first : Opening) (h : Journal) → Conducted first h → reports_among (answered_of h) + cond (owes_report h) 1 0 ≤ reports_in (port_log h) }
    ensures valid { (first : Opening) (h : Journal) → Conducted first h → AllByRecursion CanBeTold (answered_of h) }
{}

/// A turn that ends in a wait has a cause. For a byte: none was found, nothing is left to do, and no report is owed.
/// For room for a reply: a reply is next, or a report is owed; and if one is owed, there was no room for it in that
/// turn. For room for a segment: five of the published pieces are unfinished, while so many ticks are done. For motion:
/// some of the published ticks were found not to be done, and what is next waits for them, or for the machine that is
/// being held. For a resume: the machine is held, the word of requests that was taken lets it stay so, and what is next
/// does not go on before. It waits for nothing else.
pub fn boards_wait_for_a_cause()
    ensures byte { (first : Opening) (h : Journal) → Conducted first (turned (Wait causes.Byte) ∷ h) → (left_of first h ≡ []) × (whole_of h ≡ false) × (owes_report h ≡ false) }
    ensures reply_room { (first : Opening) (h : Journal) → Conducted first (turned (Wait causes.ReplyRoom) ∷ h) → (tells_next (left_of first h) || owes_report h) ≡ true }
    ensures report { (first : Opening) (h : Journal) (o : AnyOn) → Conducted first (turned (Wait o) ∷ h) → owes_report h ≡ true → list_any lacks_reply_room (this_turn h) ≡ true }
    ensures segment_room { (first : Opening) (h : Journal) → Conducted first (turned (Wait causes.SegmentRoom) ∷ h) →
        (done : ℕ) × (unfinished (published_of h) done ≡ most_unfinished) }
    ensures motion { (first : Opening) (h : Journal) → Conducted first (turned (Wait causes.Motion) ∷ h) →
        (known_of h < ticks_published h) × ((awaits_motion (left_of first h) || (is_stopping (motion_of first h) && is_held_up first h)) ≡ true) }
    ensures resume { (first : Opening) (h : Journal) → Conducted first (turned (Wait causes.Resume) ∷ h) → (motion_of first h ≡ Held) × (is_held_up first h ≡ true) }
    ensures unasked { (first : Opening) (h : Journal) → Conducted first (turned (Wait causes.Resume) ∷ h) → list_any asks_no_start (this_turn h) ≡ true }
    ensures causes { (first : Opening) (h : Journal) (o : AnyOn) → Conducted first (turned (Wait o) ∷ h) →
        (o ≡ causes.Byte) ⊎ ((o ≡ causes.ReplyRoom) ⊎ ((o ≡ causes.SegmentRoom) ⊎ ((o ≡ causes.Motion) ⊎ (o ≡ causes.Resume)))) }
{}

/// Between two turns a move that is next is added, unless the plan is full, and no queued block waits for a start that
/// is called for: so a jog that a machine at rest was to carry out has started. While segments are due, one line at
/// most is begun, and four turns at most end in a wait, between two tries to publish a piece: so the pulse is not left
/// without segments by lines and replies.
pub fn boards_keep_the_pulse_busy()
    ensures adds { (first : Opening) (h : Journal) (m : AnyMove) → Conducted first h → this_turn h ≡ [] → IsNextTask first (ask (a_move m)) h → is_full first.blocks (plan_of h) ≡ true }
    ensures starts { (first : Opening) (h : Journal) → Conducted first h → this_turn h ≡ [] → AreWaiting first h → starts_cycle first h ≡ false }
    ensures jogs { (first : Opening) (h : Journal) → Conducted first h → this_turn h ≡ [] → has_jog_to_start first h ≡ false }
    ensures lines { (first : Opening) (h : Journal) → Conducted first h → begun_while_due first h ≤ 1 }
    ensures waits { (first : Opening) (h : Journal) → Conducted first h → length (waits_while_due first h) ≤ 4 }
{}

/// Each part that a cut has ended holds the first ticks of its lines, and leaves out those of jogs alone; it is a
/// planner run that has come to a stop, with legal heads; a cut may break a move off. Each begins with the plan that
/// the cut before it has cleared. The parts hold all lines, all that was done to the plan, and all pieces that it gave.
/// The number of each cut is that of the lines that were begun before it, and these numbers rise. Each cancel has one
/// cut, or has it to come, and each cut a word of its own that asks for a hold or a cancel. If nothing is left to do or
/// to run, all ticks are given of the lines after the last cut, unless a halt has dropped some. Of each line those
/// ticks count that it asks for, less those that a cut or a halt dropped; a cut counts with the last line before it.
/// Together they are those that were given, that are left in the plan, and that are to be asked.
pub fn cuts_lose_jogs_alone()
    ensures parts { (first : Opening) (h : Journal) → Conducted first h → AllByRecursion (λ p. IsCutPart first.blocks p) (parts_of first h) }
    ensures starts { (first : Opening) (h : Journal) → part_start h ≡ plan_behind (parts_of first h) }
    ensures joined { (first : Opening) (h : Journal) → AreJoined (parts_of first h) }
    ensures lines { (first : Opening) (h : Journal) → Conducted first h → outcomes_of h ≡ lines_in (parts_of first h) ++ part_outcomes h }
    ensures actions { (first : Opening) (h : Journal) → has_halted h ≡ false → actions_of h ≡ actions_in (parts_of first h) ++ part_actions h }
    ensures pieces { (first : Opening) (h : Journal) → Conducted first h → planned_of h ≡ pieces_in (parts_of first h) ++ part_given h }
    ensures numbers { (first : Opening) (h : Journal) → Conducted first h → AreNumbered first.lines (parts_of first h) }
    ensures cancels { (first : Opening) (h : Journal) → Conducted first h → cancels_of first h ≡ length (parts_of first h) + pending (is_cancelling (motion_of first h)) (has_cut h) }
    ensures words { (first : Opening) (h : Journal) → Conducted first h → length (parts_of first h) ≤ cancel_words_in (port_log h) }
    ensures last { (first : Opening) (h : Journal) → Conducted first h → asks (left_of first h) ≡ [] → (part_plan h).blocks ≡ [] →
        ticks_of_all (asked_in (part_outcomes h)) ≡ flat_map ticks_of (part_given h) }
    ensures counts { (first : Opening) (h : Journal) → Conducted first h → sum (counts_of first h) ≡ ticks_given h + length (ticks_left (plan_of h)) + length (ticks_of_all (asks (left_of first h))) }
{}

/// The lines that were begun, and the cuts, are passed part by part: each cut at the place to which all pieces before
/// it lead.
pub fn lines_follow_cuts()
    ensures { (first : Opening) (h : Journal) → Conducted first h → passed_of first h ≡ passed_in first.place (parts_of first h) ++ map a_line (part_outcomes h) }
{}

/// A cut is made, or published, and a cancel is over, only in a turn whose load gave all that is published as done; so
/// the position after a cut is where the machine is.
pub fn cuts_are_at_known_places()
    ensures made { (first : Opening) (h : Journal) (k : ℕ) → Conducted first (cut k ∷ h) → IsKnown first h }
    ensures published { (first : Opening) (h : Journal) (k : ℕ) → Conducted first (at_port (published (AnyPiece.Mark (Cut k))) ∷ h) →
        (list_any loads (this_turn h) ≡ true) × (known_of h ≡ ticks_published h) }
    ensures over { (first : Opening) (h : Journal) (call : Call) (m : AnyMotion) → Conducted first (became call m ∷ h) → motion_of first h ≡ Cancelling → is_cancelling m ≡ false →
        (has_cut h ≡ true) × IsKnown first h }
{}

/// A line that raises an alarm is the last that was passed: no line is begun after it, no jog is cut, no queued block
/// starts, and nothing more is asked of the machine. By the end of the turn, and before a word is obeyed, it slows down
/// for a limit, or stands in alarm, as for nothing else; and it is halted once it stands in alarm, with an empty hand,
/// and each tick that was given is done. Nothing is sent before but reports. It is halted once, and never if no line
/// has raised an alarm.
pub fn boards_halt_at_alarms()
    ensures alarms { (first : Opening) (h : Journal) → Conducted first h → limits_in (outcomes_of h) ≡ one_if (has_limited h) }
    ensures state { (first : Opening) (h : Journal) → (before_of first h).alarmed ≡ has_limited h }
    ensures last { (first : Opening) (h : Journal) → Conducted first h → has_limited h ≡ true →
        (early : List Passed) × (o : Outcome) × (passed_of first h ≡ early ++ a_line o ∷ []) × (is_limit o.answer ≡ true) }
    ensures begun { (first : Opening) (h : Journal) (o : Outcome) → Conducted first (began o ∷ h) → has_limited h ≡ false }
    ensures cut { (first : Opening) (h : Journal) (k : ℕ) → Conducted first (cut k ∷ h) → has_limited h ≡ false }
    ensures asked { (first : Opening) (h : Journal) → Conducted first h → has_limited h ≡ true → asks (left_of first h) ≡ [] }
    ensures limited { (first : Opening) (h : Journal) → Conducted first h → is_limited (motion_of first h) ≡ true → (has_limited h ≡ true) ⊎ IsLocked first h }
    ensures slows { (first : Opening) (h : Journal) → Conducted first h → this_turn h ≡ [] → halts_next (left_of first h) ≡ true → is_limited (motion_of first h) ≡ true }
    ensures starts { (first : Opening) (h : Journal) (jog : Bool) (m : AnyMotion) → Conducted first (became (on_start jog) m ∷ h) → has_limited h ≡ false }
    ensures obeys { (first : Opening) (h : Journal) (word : AnyExec) (queued : Bool) (m : AnyMotion) → Conducted first (became (on_exec word queued) m ∷ h) →
        has_limited h ≡ true → is_limited (motion_of first h) ≡ true }
    ensures halts { (first : Opening) (h : Journal) → Conducted first (halted ∷ h) → MayHalt first h × (has_limited h ≡ true) × (has_halted h ≡ false) }
    ensures told { (first : Opening) (h : Journal) (r : AnyReply) → Conducted first (at_port (answered r) ∷ h) → has_limited h ≡ true → has_halted h ≡ true }
    ensures calm { (first : Opening) (h : Journal) → Conducted first h → has_limited h ≡ false → (has_halted h ≡ false) × (part_plan h ≡ plan_of h) }
{}

/// If the machine was halted, the part after the last cut is a planner run that has come to a stop, with legal heads;
/// it holds the first ticks of its lines, and all of those up to the last that settles (`IsAlarmedPart`). Nothing is
/// left to run, the machine stands in alarm, and each tick that was given is done. No line is begun after it, and the
/// plan gives nothing more, so that only the end is given. A finished board, one of whose lines has raised an alarm,
/// was halted.
pub fn halts_drop_what_is_left()
    ensures part { (first : Opening) (h : Journal) → Conducted first h → has_halted h ≡ true →
        IsAlarmedPart first.blocks (part_outcomes h) (part_start h) (part_actions h) (part_given h) (part_plan h) }
    ensures stands { (first : Opening) (h : Journal) → Conducted first h → has_halted h ≡ true →
        IsAtRest (plan_of h) × (motion_of first h ≡ Alarm) × (known_of h ≡ ticks_given h) }
    ensures alarmed { (first : Opening) (h : Journal) → Conducted first h → has_halted h ≡ true → has_limited h ≡ true }
    ensures behind { (first : Opening) (s : Step) (h : Journal) → Conducted first (s ∷ h) → has_halted h ≡ true →
        (outcomes_of (s ∷ h) ≡ outcomes_of h) × (planned_of (s ∷ h) ≡ planned_of h) }
    ensures over { (first : Opening) (h : Journal) → Conducted first h → IsFinished first h → has_limited h ≡ true → has_halted h ≡ true }
{}

/// When a board is finished, nothing is left in its plan or in hand, all lines that were taken whole are begun, and the
/// link was found closed, or a line has raised an alarm.
pub fn boards_end_well()
    ensures { (first : Opening) (h : Journal) → Conducted first h → IsFinished first h → IsSpent h }
{}

/// A machine that was locked at the opening stands in alarm until a line is begun that unlocks it; it is unlocked after
/// that alone, once, and before anything else is told. A line that is begun while it is locked asks nothing of it.
pub fn machines_are_unlocked_by_lines()
    ensures stands { (first : Opening) (h : Journal) → Conducted first h → is_locked first h ≡ true → motion_of first h ≡ Alarm }
    ensures unlocked { (first : Opening) (h : Journal) (m : AnyMotion) → Conducted first (became on_unlock m ∷ h) →
        (motion_of first h ≡ Alarm) × (m ≡ Idle) × (is_locked first h ≡ false) × (has_limited h ≡ false) × (first.motion ≡ Alarm) }
    ensures told { (first : Opening) (h : Journal) (r : AnyReply) → Conducted first (at_port (answered r) ∷ h) →
        motion_of first h ≡ Alarm → has_limited h ≡ false → is_locked first h ≡ true }
    ensures asks { (first : Opening) (h : Journal) (o : Outcome) → Conducted first (began o ∷ h) → is_locked first h ≡ true →
        (asks o.work ≡ []) × (is_limit o.answer ≡ false) × (o.next.parser ≡ (before_of first h).state.parser) }
{}

/// A run may begin from its first opening: the next line is the first one, the position is where the machine stands, at
/// the origin, and it is not locked. So what holds of a journal from any opening holds of a run.
pub fn runs_begin_from_an_opening()
    ensures opens { (blocks : ℕ) (state : State) → IsPlanSize blocks → MayOpen (first_opening blocks state) }
    ensures before { (blocks : ℕ) (state : State) → before_first (first_opening blocks state) ≡ start state }
    ensures placed { (blocks : ℕ) (state : State) → IsOpening state → IsPlaced (first_opening blocks state) }
    ensures machine { (blocks : ℕ) (state : State) (ps : List AnyPiece) (done : ℕ) → machine_from (first_opening blocks state).place ps done ≡ machine_at ps done }
    ensures free { (blocks : ℕ) (state : State) (h : Journal) → IsLocked (first_opening blocks state) h → ⊥ }
    ensures unlocked { (blocks : ℕ) (state : State) (h : Journal) → is_locked (first_opening blocks state) h ≡ false }
    ensures follow { (blocks : ℕ) (state : State) (h : Journal) → Conducted (first_opening blocks state) h →
        Follows true (start state) (lines_of h) (passed_of (first_opening blocks state) h) (before_of (first_opening blocks state) h) }
    ensures told { (blocks : ℕ) (state : State) (outcomes : List Outcome) → replies_after (first_opening blocks state).tells outcomes ≡ replies_in outcomes }
{}

/// A journal tells the pulse of no stop and finds no halt: what went to it are the pieces that were published, and the ticks
/// published are those of these. So more may be published, and done, as long as their ticks allow it; a reset's work, behind a
/// journal, has stops and halts of its own.
pub fn journals_tell_of_no_stop()
    ensures sent { (first : Opening) (h : Journal) → Conducted first h → sent_in (port_log h) ≡ unstopped (reverse (published_of h)) }
    ensures piece { (first : Opening) (h : Journal) (p : AnyPiece) → Conducted first h → IsInHand p h → MayPublish (port_log h) p }
    ensures done { (first : Opening) (h : Journal) (n : ℕ) → Conducted first h → MayBeDone n (port_log h) → n ≤ ticks_published h }
{}
