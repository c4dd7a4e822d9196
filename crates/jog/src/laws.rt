//! What holds of every jog.

ghost use Rattle.std.specs.Prelude.{◌≡◌, ◌↔◌, List, [], ◌∷◌, Some, None, Ok, Err};
ghost use Rattle.gcode_words.specs.declared.Word.{Word};
ghost use Rattle.code_table.specs.declared.Code.{Code};
ghost use Rattle.modal_state.specs.declared.Parser.{Parser};
ghost use Rattle.settings.specs.declared.Settings.{Settings};
ghost use Rattle.line_words.specs.Targets.{targets};
ghost use Rattle.travel_limits.specs.Reach.{steps3};
ghost use Rattle.jog.specs.Jogs.{jog_refusal, jog_move, jog_of, g1};
ghost use Rattle.jog.specs.declared.JogMove.{JogMove};

/// A jog is refused exactly if an error holds, by the first; and else it is the move of its words.
pub fn jogs_have_one_cause()
    ensures refused { (p : Parser) (s : Settings) (ws : List Word) (error : Code) →
        (jog_of p s ws ≡ Err error) ↔ (jog_refusal p s ws ≡ Some error) }
    ensures accepted { (p : Parser) (s : Settings) (ws : List Word) (jog : JogMove) →
        (jog_of p s ws ≡ Ok jog) ↔ ((jog_refusal p s ws ≡ None) × (jog_move p s ws ≡ jog)) }
{}

/// A jog begins at the position, and ends at the step nearest to its target.
pub fn jogs_begin_at_the_position()
    ensures { (p : Parser) (s : Settings) (ws : List Word) (jog : JogMove) → jog_of p s ws ≡ Ok jog →
        (jog.mv.from ≡ p.pos_steps) × (jog.mv.to ≡ steps3 s.limits.per_mm jog.target) }
{}

/// The target of a jog is the one that the same words have in a G1 line under the same modes.
pub fn jogs_go_where_lines_go()
    ensures { (p : Parser) (s : Settings) (ws : List Word) (jog : JogMove) → jog_of p s ws ≡ Ok jog →
        targets p (g1 ∷ ws) ≡ jog.target ∷ [] }
{}
