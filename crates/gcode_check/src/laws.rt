//! What holds of every verdict.

ghost use Rattle.std.specs.Prelude.{◌≡◌, ◌↔◌, List, true, false, Some, None};
ghost use Rattle.gcode_words.specs.declared.Word.{Word};
ghost use Rattle.code_table.specs.declared.Code.{Code};
ghost use Rattle.code_table.specs.Tables.{code};
ghost use Rattle.modal_state.specs.declared.Parser.{Parser};
ghost use Rattle.modal_state.specs.Modes.{IsParser, offset_of};
ghost use Rattle.settings.specs.declared.Settings.{Settings};
ghost use Rattle.line_words.specs.Codes.{has_g};
ghost use Rattle.line_words.specs.Given.{names_axis};
ghost use Rattle.line_words.specs.LineModes.{system_of};
ghost use Rattle.line_words.specs.Targets.{named};
ghost use Rattle.gcode_check.specs.Conditions.{leaves_travel};
ghost use Rattle.travel_limits.specs.Reach.{steps3};
ghost use Rattle.gcode_check.specs.Verdicts.{verdict, refusal_of, accepted};
ghost use Rattle.gcode_check.specs.NewOffsets.{has_l, set_system};
ghost use Rattle.gcode_check.specs.Laws.{parser_behind, moves_axes, Join, reading, IsAsSaid};
ghost use Rattle.gcode_check.specs.declared.Accept.{Accept as Accepted};
ghost use Rattle.gcode_check.specs.declared.Verdict.TheVariants.{Accept, Refuse, Limit};

/// A line is refused exactly where an error holds, by the first; a soft limit stops it exactly where none holds and a
/// target lies outside travel; and else it is accepted.
pub fn verdicts_have_one_cause()
    ensures refused { (p : Parser) (s : Settings) (ws : List Word) (error : Code) →
        (verdict p s ws ≡ Refuse error) ↔ (refusal_of p ws ≡ Some error) }
    ensures limited { (p : Parser) (s : Settings) (ws : List Word) →
        (verdict p s ws ≡ Limit) ↔ ((refusal_of p ws ≡ None) × (leaves_travel p s ws ≡ true)) }
    ensures accepted { (p : Parser) (s : Settings) (ws : List Word) (a : Accepted) →
        (verdict p s ws ≡ Accept a) ↔ ((refusal_of p ws ≡ None) × (leaves_travel p s ws ≡ false) × (accepted p s ws ≡ a)) }
{}

/// A line that is not accepted leaves the state as it was.
pub fn refused_lines_change_nothing()
    ensures refused { (p : Parser) (s : Settings) (ws : List Word) (error : Code) →
        verdict p s ws ≡ Refuse error → parser_behind p (verdict p s ws) ≡ p }
    ensures limited { (p : Parser) (s : Settings) (ws : List Word) →
        verdict p s ws ≡ Limit → parser_behind p (verdict p s ws) ≡ p }
{}

/// A line with no axis word and neither G28 nor G30 makes no move, and the position stays.
pub fn lines_without_axes_stay()
    ensures moves { (p : Parser) (s : Settings) (ws : List Word) (a : Accepted) → names_axis ws ≡ false → has_g (code 28 0) ws ≡ false → has_g (code 30 0) ws ≡ false →
        verdict p s ws ≡ Accept a → moves_axes a.items.items ≡ false }
    ensures position { (p : Parser) (s : Settings) (ws : List Word) (a : Accepted) → names_axis ws ≡ false → has_g (code 28 0) ws ≡ false → has_g (code 30 0) ws ≡ false →
        verdict p s ws ≡ Accept a → (a.next.pos_nm ≡ p.pos_nm) × (a.next.pos_steps ≡ p.pos_steps) }
{}

/// Behind a line that moves, the position in steps is the position in nm rounded to steps, on each axis: also on axes
/// that the line does not name.
pub fn moves_end_at_the_position()
    ensures { (p : Parser) (s : Settings) (ws : List Word) (a : Accepted) → verdict p s ws ≡ Accept a →
        moves_axes a.items.items ≡ true → a.next.pos_steps ≡ steps3 s.limits.per_mm a.next.pos_nm }
{}

/// The moves of an accepted line join: the first begins at the position, each other where the one before ends, and the
/// last ends at the position behind the line.
pub fn moves_join()
    ensures { (p : Parser) (s : Settings) (ws : List Word) (a : Accepted) → verdict p s ws ≡ Accept a →
        Join p.pos_steps a.items.items a.next.pos_steps }
{}

/// An offset reads as its line says. Behind a G92 the position, less the offsets, is the value said on each named axis, in
/// the line's system; behind a G10 L20 it is so in the system that the line sets, that of P or else the line's; and behind
/// a G10 L2 the offset of that system has the values said.
pub fn offsets_read_as_said()
    ensures shift { (p : Parser) (s : Settings) (ws : List Word) (a : Accepted) → IsParser p → has_g (code 92 0) ws ≡ true →
        verdict p s ws ≡ Accept a → IsAsSaid (named p ws) (reading a.next (system_of p ws)) }
    ensures here { (p : Parser) (s : Settings) (ws : List Word) (a : Accepted) → IsParser p → has_g (code 10 0) ws ≡ true → has_l 20 ws ≡ true →
        verdict p s ws ≡ Accept a → IsAsSaid (named p ws) (reading a.next (set_system p ws)) }
    ensures there { (p : Parser) (s : Settings) (ws : List Word) (a : Accepted) → IsParser p → has_g (code 10 0) ws ≡ true → has_l 2 ws ≡ true →
        verdict p s ws ≡ Accept a → IsAsSaid (named p ws) (offset_of a.next.offsets (set_system p ws)) }
{}
