//! What holds of the codes and the target of every line.

ghost use Rattle.std.specs.Prelude.{◌≡◌, ◌≢◌, ℕ, List, true, false, [], Some, None};
ghost use Rattle.units.specs.declared.Nm3.{Nm3};
ghost use Rattle.gcode_words.specs.declared.Word.{Word};
ghost use Rattle.code_table.specs.Tables.{code, value_of};
ghost use Rattle.modal_state.specs.declared.Parser.{Parser};
ghost use Rattle.line_words.specs.Letters.{X, Y, Z};
ghost use Rattle.line_words.specs.Codes.{rows_of, has, has_g, code_in};
ghost use Rattle.line_words.specs.Given.{stands, names_axis};
ghost use Rattle.line_words.specs.WordRefusals.{words_refusal};
ghost use Rattle.line_words.specs.Targets.{target, targets};
ghost use Rattle.line_words.specs.Laws.{is_absolute, at};

/// Of words that pass, no two are different codes of one group; and the one that stands is the line's code of the group,
/// from which its mode comes.
pub fn groups_have_one_code()
    ensures alone { (ws : List Word) (letter key other_letter other_key group : ℕ) → words_refusal ws ≡ None
        → value_of key (rows_of letter) ≡ Some group → value_of other_key (rows_of other_letter) ≡ Some group → key ≢ other_key
        → has letter key ws ≡ true → has other_letter other_key ws ≡ false }
    ensures code { (ws : List Word) (letter key group : ℕ) → words_refusal ws ≡ None
        → value_of key (rows_of letter) ≡ Some group → has letter key ws ≡ true → code_in group ws ≡ Some key }
{}

/// An absolute target does not depend on the position, on the axes that are named.
pub fn absolute_targets_are_fixed()
    ensures x { (p : Parser) (point : Nm3) (ws : List Word) → is_absolute p ws ≡ true → stands X ws ≡ true → (target (at p point) ws).x ≡ (target p ws).x }
    ensures y { (p : Parser) (point : Nm3) (ws : List Word) → is_absolute p ws ≡ true → stands Y ws ≡ true → (target (at p point) ws).y ≡ (target p ws).y }
    ensures z { (p : Parser) (point : Nm3) (ws : List Word) → is_absolute p ws ≡ true → stands Z ws ≡ true → (target (at p point) ws).z ≡ (target p ws).z }
{}

/// An axis that is not named keeps its position.
pub fn other_axes_stay()
    ensures x { (p : Parser) (ws : List Word) → stands X ws ≡ false → (target p ws).x ≡ p.pos_nm.x }
    ensures y { (p : Parser) (ws : List Word) → stands Y ws ≡ false → (target p ws).y ≡ p.pos_nm.y }
    ensures z { (p : Parser) (ws : List Word) → stands Z ws ≡ false → (target p ws).z ≡ p.pos_nm.z }
{}

/// A line with no axis word and neither G28 nor G30 moves nowhere.
pub fn lines_without_axes_have_no_target()
    ensures { (p : Parser) (ws : List Word) → names_axis ws ≡ false → has_g (code 28 0) ws ≡ false → has_g (code 30 0) ws ≡ false → targets p ws ≡ [] }
{}
