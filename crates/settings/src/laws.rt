//! What holds of the rows of the settings.

ghost use Rattle.std.specs.Prelude.{◌≡◌, ◌≢◌, ℕ, ◌<◌, ◌^◌, ◌↔◌, map, Some, None};
ghost use Rattle.std.specs.List.{AllPass};
ghost use Rattle.std.specs.Map.{keys_of};
ghost use Rattle.units.specs.declared.Decimal.{Decimal};
ghost use Rattle.code_table.specs.Tables.{value_of, rows_of_settings};
ghost use Rattle.settings.specs.declared.Settings.{Settings};
ghost use Rattle.settings.specs.Numbers.{rows, values, set_refusal, value_set, with_value, can_have, IsSettings};

/// What was set is read back, and every other value is what it was.
pub fn what_is_set_is_read()
    ensures same { (old new : Settings) (n : ℕ) (v : Decimal) → set_refusal n v ≡ None → values new ≡ with_value n (value_set n v) old →
        value_of n (values new) ≡ Some (value_set n v) }
    ensures others { (old new : Settings) (n other value : ℕ) → other ≢ n → values new ≡ with_value n value old →
        value_of other (values new) ≡ value_of other (values old) }
{}

/// Settings are those that a machine can have exactly if each value is in the range of its row.
pub fn ranges_are_those_of_the_rows()
    ensures { (s : Settings) → s.report < 2 ^ 8 → IsSettings s ↔ AllPass (λ row. can_have row (row.value s)) rows }
{}

/// Settings with the same values are the same.
pub fn values_are_all()
    ensures { (s t : Settings) → values s ≡ values t → s ≡ t }
{}

/// The numbers of the settings are those of the table of settings, in its order.
pub fn numbers_are_in_order()
    ensures { map (λ row. row.number) rows ≡ keys_of rows_of_settings }
{}
