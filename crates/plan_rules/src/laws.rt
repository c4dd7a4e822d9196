//! How segments join on, as laws.

ghost use Rattle.std.specs.Prelude.{◌≡◌, ◌<◌, List, [], ◌∷◌, ◌++◌, ℕ};
ghost use Rattle.std.specs.List.{All};
ghost use Rattle.step_line.specs.declared.Segment.{Segment};
ghost use Rattle.step_line.specs.declared.Piece.{Piece};
ghost use Rattle.step_line.specs.Pieces.{GoesOn, JoinsOn};
ghost use Rattle.line_geom.specs.declared.Block.{Block};
ghost use Rattle.overrides.specs.declared.Overrides.{Overrides};
ghost use Rattle.plan_rules.specs.Blocks.{left_of};
ghost use Rattle.plan_rules.specs.Plans.{Planned, IsTail, added};
ghost use Rattle.plan_rules.specs.Segments.{advanced};
ghost use Rattle.plan_rules.specs.declared.Mode.{Mode};
ghost use Rattle.plan_rules.specs.Taking.{IsNext};
ghost use Rattle.plan_rules.specs.Joining.{IsFresh, BlocksJoin};

/// If segments are taken from a plan one after another, each joins on to the pieces before it. A block with some events
/// left goes on where its last segment ends; every other one begins its move.
pub fn segments_join()
    ensures fresh { (before : List Piece) (bs : List Block) → All IsFresh bs → BlocksJoin before bs }
    ensures added { (before : List Piece) (p : Planned) (b : Block) (deviation : ℕ) (o : Overrides) →
        BlocksJoin before p.blocks → IsFresh b → BlocksJoin before (added p b deviation o).blocks }
    ensures joins { (before : List Piece) (p : Planned) (mode : Mode) (s : Segment) →
        BlocksJoin before p.blocks → IsNext p mode s → JoinsOn before s }
    ensures advanced { (before : List Piece) (p : Planned) (mode : Mode) (s : Segment) →
        BlocksJoin before p.blocks → IsNext p mode s → BlocksJoin (Piece.Segment s ∷ before) (advanced p s.n s.w_out).blocks }
    ensures goes_on { (p : Planned) (b : Block) (mode again : Mode) (s t : Segment) → IsTail p b →
        IsNext p mode s → s.n < left_of b → IsNext (advanced p s.n s.w_out) again t → GoesOn s t }
{}
