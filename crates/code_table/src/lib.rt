//! Tables that give the value of a key, the four tables of the controller, and the flags that realtime bytes raise.
#![tactic(auto)]

ghost use Rattle.std.specs.Prelude.{◌≡◌, List, zip, nat_eq, IsTrue, ◌↔◌, IsSome, IsNone, IfSome};
ghost use Rattle.std.specs.List.{IsDistinct};
ghost use Rattle.std.specs.Map.{keys_of, values_of};
ghost use Rattle.code_table.specs.Tables.{Row, value_of, rises, IsReordered, AnswersAs};

mod flags;
pub mod groups;
mod laws;
mod refusals;
mod standard;
#[cfg(test)]
mod tests;

pub use flags::{Exec, Ovr};
pub use laws::{codes_have_one_group, rows_are_found, values_are_small};
pub use standard::{g_codes, g_group, m_codes, m_group, realtime_rows, setting_rows};
use std::marker::Model;

/// The number of an error, as `error:20` prints it.
#[derive(Clone, Copy, Debug, PartialEq, Eq)]
pub struct Code(pub u8);

/// Rows of a key and a value, in which each key comes once. Contracts see the list of the rows.
///
/// The rows are kept in the order of their keys, so that a look-up is a binary search: five comparisons find one of 30
/// rows. The four tables of the controller are written in that order; `new` takes rows in any order and sorts them
/// once.
#[derive(Drop)]
pub struct Table<const N: usize> {
    keys: [u16; N],
    values: [u16; N],
}

impl<const N: usize> Model for Table<N> {
    ghost Value = { List Row };

    ghost view = { λ t. zip t.keys t.values };

    ghost invariant = { λ t. IsTrue (rises t.keys) };
}

/// Whether each key is below the next.
fn rises(keys: &[u16]) -> bool
    ensures { result ≡ rises keys.now }
{
    for place in 1..keys.len() {
        if keys[place] <= keys[place - 1] {
            return false;
        }
    }
    true
}

/// Each key beside its value.
fn rows_of<const N: usize>(keys: [u16; N], values: [u16; N]) -> [(u16, u16); N]
    ensures { result ≡ zip keys.entry values.entry }
{
    let mut rows = [(0, 0); N];
    for place in 0..N {
        rows[place] = (keys[place], values[place]);
    }
    rows
}

/// The keys of rows, and their values.
fn columns<const N: usize>(rows: [(u16, u16); N]) -> ([u16; N], [u16; N])
    ensures keys { result.0 ≡ keys_of rows.entry }
    ensures values { result.1 ≡ values_of rows.entry }
{
    let mut keys = [0; N];
    let mut values = [0; N];
    for place in 0..N {
        (keys[place], values[place]) = rows[place];
    }
    (keys, values)
}

/// The keys and the values of rows, in the order of the keys.
fn in_order<const N: usize>(mut rows: [(u16, u16); N]) -> ([u16; N], [u16; N])
    ensures { IsReordered rows.entry result.0 result.1 }
{
    rows.sort_unstable_by_key(|row| row.0);
    columns(rows)
}

impl<const N: usize> Table<N> {
    /// A table of rows that may come in any order; None exactly if a key comes twice.
    pub fn new(keys: [u16; N], values: [u16; N]) -> Option<Table<N>>
        ensures repeated { IsNone result ↔ (¬ IsDistinct nat_eq keys.entry) }
        ensures distinct { IsSome result → IsDistinct nat_eq keys.entry }
        ensures rows { IfSome result (λ t. AnswersAs t (zip keys.entry values.entry)) }
    {
        let (keys, values) = in_order(rows_of(keys, values));
        if rises(&keys) {
            Some(Table { keys, values })
        } else {
            None
        }
    }

    /// The value of the row with a key; None exactly if no row has it.
    #[inline]
    pub fn find(&self, key: u16) -> Option<u16>
        ensures { result ≡ value_of key self.now }
    {
        match self.keys.binary_search(&key) {
            Ok(place) => Some(self.values[place]),
            Err(_) => None,
        }
    }
}
