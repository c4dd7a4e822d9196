//! What holds of every planner run, and of every part of one that begins when nothing is left to run.

ghost use Rattle.std.specs.Prelude.{◌≡◌, ◌≤◌, ◌∷◌, ◌++◌, ℕ, Bool, true, false, List, [], length, reverse};
ghost use Rattle.std.specs.List.{flat_map};
ghost use Rattle.step_line.specs.declared.Mark.{Mark as AnyMark};
ghost use Rattle.step_line.specs.declared.Mark.TheVariants.{Cut};
ghost use Rattle.step_line.specs.declared.Piece.{Piece as AnyPiece};
ghost use Rattle.step_line.specs.declared.Piece.TheVariants as pieces;
ghost use Rattle.step_line.specs.declared.Record.TheVariants as kinds;
ghost use Rattle.step_line.specs.declared.Segment.{Segment as AnySegment};
ghost use Rattle.step_line.specs.declared.planned_move.PlannedMove.{PlannedMove as AnyMove};
ghost use Rattle.step_line.specs.Asking.{ticks_among};
ghost use Rattle.step_line.specs.Records.{IsMark};
ghost use Rattle.step_line.specs.Pieces.{ticks_of, ComesBehind};
ghost use Rattle.line_geom.specs.Geometry.{IsGeom};
ghost use Rattle.line_geom.specs.declared.Block.{Block as AnyBlock};
ghost use Rattle.overrides.specs.declared.Overrides.{Overrides as AnyOverrides};
ghost use Rattle.overrides.specs.Percents.{IsOverrides};
ghost use Rattle.plan_rules.specs.Plans.{Planned, IsReached, added};
ghost use Rattle.plan_rules.specs.Segments.{advanced};
ghost use Rattle.plan_rules.specs.Taking.{IsNext};
ghost use Rattle.plan_rules.specs.declared.Mode.{Mode as AnyMode};
ghost use Rattle.legal_heads.specs.Speeds.{HasLegalHeads};
ghost use Rattle.planner_runs.specs.declared.Action.{Action as AnyAction};
ghost use Rattle.planner_runs.specs.declared.Action.TheVariants.{Add, Take, Override, Mark, Rest, Clear, Reset};
ghost use Rattle.planner_runs.specs.Runs.{
  Plans,
  RunsInParts,
  MayAdd,
  IsAtRest,
  IsStart,
  IsPlannerRun,
  fresh_plan,
  normal_overrides,
  cleared,
  all_asked,
  moves_added,
  ticks_asked,
  ticks_left,
  all_records,
  NeverClears,
  NeverResets,
  DisturbedOnlyBy,
  AllFollow,
};
ghost use Rattle.planner_runs.specs.Driven.{IsDriven, IsParted};
ghost use Rattle.planner_runs.specs.Halted.{HasHaltedHeads};

/// Unless it was reset, a run goes on by what is done to the plan that it leaves, and can be split again. So can what
/// is asked for, its moves and its ticks.
pub fn planner_runs_go_on()
    ensures goes_on { (most : ℕ) (from mid last : Planned) (actions more : List AnyAction) (given next : List AnyPiece) →
        NeverResets actions → Plans most from actions given mid → Plans most mid more next last →
        Plans most from (actions ++ more) (given ++ next) last }
    ensures parts { (most : ℕ) (from last : Planned) (actions more : List AnyAction) (given : List AnyPiece) →
        Plans most from (actions ++ more) given last → RunsInParts most from actions more given last }
    ensures asked { (actions more : List AnyAction) → all_asked (actions ++ more) ≡ all_asked actions ++ all_asked more }
    ensures moves { (actions more : List AnyAction) → moves_added (actions ++ more) ≡ moves_added actions ++ moves_added more }
    ensures ticks { (actions more : List AnyAction) → ticks_asked (actions ++ more) ≡ ticks_asked actions ++ ticks_asked more }
    ensures clears { (actions more : List AnyAction) → NeverClears actions → NeverClears more → NeverClears (actions ++ more) }
    ensures resets { (actions more : List AnyAction) → NeverResets actions → NeverResets more → NeverResets (actions ++ more) }
    ensures disturbed { (held changed : Bool) (actions more : List AnyAction) → DisturbedOnlyBy held changed actions → DisturbedOnlyBy held changed more →
        DisturbedOnlyBy held changed (actions ++ more) }
    ensures more { (held changed held_too changed_too : Bool) (actions : List AnyAction) → (held ≡ true → held_too ≡ true) → (changed ≡ true → changed_too ≡ true) →
        DisturbedOnlyBy held changed actions → DisturbedOnlyBy held_too changed_too actions }
    ensures keeps { (held changed : Bool) (actions : List AnyAction) → DisturbedOnlyBy held changed actions → NeverClears actions }
    ensures on { (actions : List AnyAction) → NeverClears actions → NeverResets actions }
{}

/// A run, or a part of one, begins with the fresh plan, or when nothing is left to run of one that began so. Each plan
/// of it can be slowed down to each corner ahead, and if no block is left the machine stands. None has more blocks than
/// the plan may have.
pub fn planner_runs_begin_at_rest()
    ensures fresh { IsStart fresh_plan }
    ensures reached { (most : ℕ) (from last : Planned) (actions : List AnyAction) (given : List AnyPiece) → IsStart from →
        Plans most from actions given last → IsReached last }
    ensures rests { (most : ℕ) (from last : Planned) (actions : List AnyAction) (given : List AnyPiece) → IsStart from →
        Plans most from actions given last → last.blocks ≡ [] → IsStart last }
    ensures cleared { (most : ℕ) (from last : Planned) (actions : List AnyAction) (given : List AnyPiece) → IsStart from →
        Plans most from actions given last → IsStart (cleared last) }
    ensures few { (most : ℕ) (from last : Planned) (actions : List AnyAction) (given : List AnyPiece) → length from.blocks ≤ most →
        Plans most from actions given last → length last.blocks ≤ most }
{}

/// What each action adds to a run that was not reset. A move is added as its block, whose entry cap is set then.
pub fn planner_runs_grow()
    ensures add { (most : ℕ) (from plan : Planned) (actions : List AnyAction) (given : List AnyPiece) (m : AnyMove) (b : AnyBlock) →
        NeverResets actions → Plans most from actions given plan → MayAdd most plan m → b.line ≡ m.line → b.mv ≡ m.mv → b.rate ≡ m.rate →
        IsGeom m.mv m.limits b.geom → b.prepared ≡ 0 →
        Plans most from (actions ++ Add m ∷ []) given (added plan b m.deviation plan.overrides) }
    ensures replan { (most : ℕ) (from plan : Planned) (actions : List AnyAction) (given : List AnyPiece) (o : AnyOverrides) →
        NeverResets actions → Plans most from actions given plan → IsOverrides o →
        Plans most from (actions ++ Override o ∷ []) given (record plan { overrides = o }) }
    ensures rest { (most : ℕ) (from plan : Planned) (actions : List AnyAction) (given : List AnyPiece) →
        NeverResets actions → Plans most from actions given plan → IsAtRest plan → Plans most from (actions ++ Rest ∷ []) given plan }
    ensures clear { (most : ℕ) (from plan : Planned) (actions : List AnyAction) (given : List AnyPiece) →
        NeverResets actions → Plans most from actions given plan → plan.speed ≡ 0 →
        Plans most from (actions ++ Clear ∷ []) given (cleared plan) }
    ensures reset { (most : ℕ) (from plan : Planned) (actions : List AnyAction) (given : List AnyPiece) →
        NeverResets actions → Plans most from actions given plan → Plans most from (actions ++ Reset ∷ []) given (cleared plan) }
    ensures take { (most : ℕ) (from plan : Planned) (actions : List AnyAction) (given : List AnyPiece) (mode : AnyMode) (s : AnySegment) →
        NeverResets actions → Plans most from actions given plan → IsNext plan mode s →
        Plans most from (actions ++ Take mode ∷ []) (given ++ pieces.Segment s ∷ []) (advanced plan s.n s.w_out) }
    ensures mark { (most : ℕ) (from plan : Planned) (actions : List AnyAction) (given : List AnyPiece) (m : AnyMark) →
        NeverResets actions → Plans most from actions given plan → IsMark m → IsAtRest plan →
        Plans most from (actions ++ Mark m ∷ []) (given ++ pieces.Mark m ∷ []) plan }
{}

/// The ticks of a run's pieces, and after them the events that its plan has left, are those that its actions ask for:
/// all events of each move that is added, and the marks, in order.
pub fn ticks_are_those_asked_for()
    ensures ticks { (most : ℕ) (from last : Planned) (actions : List AnyAction) (given : List AnyPiece) → IsStart from → NeverClears actions →
        Plans most from actions given last → ticks_asked actions ≡ flat_map ticks_of given ++ ticks_left last }
    ensures all { (most : ℕ) (from last : Planned) (actions : List AnyAction) (given : List AnyPiece) → IsStart from → NeverClears actions →
        Plans most from actions given last → last.blocks ≡ [] → ticks_asked actions ≡ flat_map ticks_of given }
    ensures on { (most : ℕ) (from last : Planned) (actions : List AnyAction) (given : List AnyPiece) → IsReached from → NeverClears actions →
        Plans most from actions given last → ticks_left from ++ ticks_asked actions ≡ flat_map ticks_of given ++ ticks_left last }
{}

/// Each piece of a run follows those before it, so that it can be traced and recorded. Of the pieces before, the latest
/// is first.
pub fn pieces_follow()
    ensures all { (most : ℕ) (before : List AnyPiece) (from last : Planned) (actions : List AnyAction) (given : List AnyPiece) → IsStart from →
        Plans most from actions given last → AllFollow before given }
    ensures next { (most : ℕ) (before later : List AnyPiece) (from plan : Planned) (actions : List AnyAction) (mode : AnyMode) (s : AnySegment) →
        IsStart from → NeverResets actions → Plans most from actions (reverse later) plan → IsNext plan mode s →
        ComesBehind (later ++ before) (pieces.Segment s) }
{}

/// The heads that a run records are legal, and they are of a front of the moves that are added. If nothing is left to
/// run, the end may come after them; and wherever the machine stands, a cut, which may break a move off.
pub fn planner_runs_are_legal()
    ensures heads { (most : ℕ) (from last : Planned) (actions : List AnyAction) (given : List AnyPiece) → IsStart from → NeverClears actions →
        Plans most from actions given last → HasLegalHeads (moves_added actions) (all_records given) }
    ensures closed { (most : ℕ) (from last : Planned) (actions : List AnyAction) (given : List AnyPiece) → IsStart from → NeverClears actions →
        Plans most from actions given last → last.blocks ≡ [] → HasLegalHeads (moves_added actions) (all_records given ++ kinds.End ∷ []) }
    ensures cut { (most : ℕ) (from last : Planned) (actions : List AnyAction) (given : List AnyPiece) (line : ℕ) → IsStart from → NeverClears actions →
        Plans most from actions given last → last.speed ≡ 0 → HasLegalHeads (moves_added actions) (all_records given ++ kinds.Mark (Cut line) ∷ []) }
{}

/// A run that was stopped may end wherever the machine stands, as an alarm ends it: its heads are legal up to the end,
/// which may break a move off, and the ticks that are recorded are the first of those that its actions ask for. The
/// others are the events that its plan has left.
pub fn halted_runs_are_legal()
    ensures heads { (most : ℕ) (from last : Planned) (actions : List AnyAction) (given : List AnyPiece) → IsStart from → NeverClears actions →
        Plans most from actions given last → last.speed ≡ 0 → HasHaltedHeads (moves_added actions) (all_records given ++ kinds.End ∷ []) }
    ensures ticks { (most : ℕ) (from last : Planned) (actions : List AnyAction) (given : List AnyPiece) → IsStart from → NeverClears actions →
        Plans most from actions given last → ticks_asked actions ≡ ticks_among (all_records given ++ kinds.End ∷ []) ++ ticks_left last }
{}

/// If a run is cleared, its part before is legal, and another part begins. So each run has parts that never clear.
pub fn cleared_runs_begin_anew()
    ensures { (most : ℕ) (from last : Planned) (actions more : List AnyAction) (given : List AnyPiece) → IsStart from → NeverClears actions →
        Plans most from (actions ++ Clear ∷ more) given last → IsParted most from actions more given last }
{}

/// Where no change of overrides was asked for, each plan of a run is planned for 100 percent, if the first one is: whatever
/// sets overrides then sets them so.
pub fn overrides_are_asked_for()
    ensures { (most : ℕ) (from last : Planned) (held : Bool) (actions : List AnyAction) (given : List AnyPiece) → from.overrides ≡ normal_overrides →
        DisturbedOnlyBy held false actions → Plans most from actions given last → last.overrides ≡ normal_overrides }
{}

/// A planner run that only holds and changes of overrides disturb, and that ends with nothing left to run, is
/// `IsDriven` of what it asks for.
pub fn planner_runs_are_driven()
    ensures { (most : ℕ) (held changed : Bool) (actions : List AnyAction) (given : List AnyPiece) (last : Planned) → IsPlannerRun most actions given last →
        DisturbedOnlyBy held changed actions → IsAtRest last → IsDriven most held changed (all_asked actions) (all_records given ++ kinds.End ∷ []) }
{}
