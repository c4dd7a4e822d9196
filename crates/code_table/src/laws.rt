//! What holds of every look-up, and of the rows of the four tables.

ghost use Rattle.std.specs.Prelude.{◌≡◌, ℕ, ◌<◌, ◌≤◌, ◌↔◌, ◌⊎◌, List, nat_eq, Some, IsNone, Contains};
ghost use Rattle.std.specs.List.{IsDistinct};
ghost use Rattle.std.specs.Map.{keys_of};
ghost use Rattle.code_table.specs.Tables.{Row, value_of, g_rows, m_rows, rows_of_settings, rows_of_bytes};

/// If no key comes twice, a look-up answers with a value exactly if there is a row of the key and that value, and with
/// none exactly if no row has the key.
pub fn rows_are_found()
    ensures row { (rows : List Row) (key value : ℕ) → IsDistinct nat_eq (keys_of rows) →
        (value_of key rows ≡ Some value) ↔ Contains rows (key, value) }
    ensures none { (rows : List Row) (key : ℕ) → IsNone (value_of key rows) ↔ (¬ Contains (keys_of rows) key) }
{}

/// No key of the four tables comes twice: no code has two groups, no setting two places, no byte two
/// bits.
pub fn codes_have_one_group()
    ensures g { IsDistinct nat_eq (keys_of g_rows) }
    ensures m { IsDistinct nat_eq (keys_of m_rows) }
    ensures settings { IsDistinct nat_eq (keys_of rows_of_settings) }
    ensures bytes { IsDistinct nat_eq (keys_of rows_of_bytes) }
{}

/// The values that the four tables have: the groups of G codes are at most 13, and those of M codes lie
/// from 20 to 22; a setting's place is below 15; a byte's bit is one of five or of thirteen.
pub fn values_are_small()
    ensures g { (key group : ℕ) → value_of key g_rows ≡ Some group → group ≤ 13 }
    ensures m { (key group : ℕ) → value_of key m_rows ≡ Some group → (20 ≤ group) × (group ≤ 22) }
    ensures settings { (key place : ℕ) → value_of key rows_of_settings ≡ Some place → place < 15 }
    ensures bytes { (key bit : ℕ) → value_of key rows_of_bytes ≡ Some bit → (bit < 5) ⊎ ((16 ≤ bit) × (bit < 29)) }
{}
