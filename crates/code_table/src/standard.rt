//! The four tables of the controller. Each is written as constants in the order of the keys, so that a
//! call copies them and sorts and compares nothing.

ghost use Rattle.std.specs.Prelude.{◌≡◌, ◌≤◌, IfSome};
ghost use Rattle.code_table.specs.Tables.{value_of, g_rows, m_rows, rows_of_settings, rows_of_bytes};

use crate::Table;
use crate::groups::{
    ARC_DISTANCE, COOLANT, CUTTER, DISTANCE, FEED_MODE, FLOW, MOTION, NOT_MODAL, PATH, PLANE,
    SPINDLE, SYSTEM, TOOL_LENGTH, UNITS,
};

/// A table of rows.
macro_rules! rows {
    ($($key:literal => $value:expr),+ $(,)?) => {
        Table {
            keys: [$($key),+],
            values: [$($value),+],
        }
    };
}

/// The value of the row with a key.
macro_rules! find {
    ($wanted:ident; $($key:literal => $value:expr),+ $(,)?) => {
        match $wanted {
            $($key => Some($value),)+
            _ => None,
        }
    };
}

/// The G codes: ten times the number of each, and its modal group. From this list come the table and the search in it.
macro_rules! g_rows {
    ($with:ident $($before:tt)*) => {
        $with! { $($before)*
            0 => MOTION, 10 => MOTION, 40 => NOT_MODAL, 100 => NOT_MODAL,
            170 => PLANE, 180 => PLANE, 190 => PLANE, 200 => UNITS, 210 => UNITS,
            280 => NOT_MODAL, 281 => NOT_MODAL, 300 => NOT_MODAL, 301 => NOT_MODAL,
            400 => CUTTER, 490 => TOOL_LENGTH, 530 => NOT_MODAL,
            540 => SYSTEM, 550 => SYSTEM, 560 => SYSTEM, 570 => SYSTEM, 580 => SYSTEM, 590 => SYSTEM,
            610 => PATH, 800 => MOTION,
            900 => DISTANCE, 910 => DISTANCE, 911 => ARC_DISTANCE, 920 => NOT_MODAL, 921 => NOT_MODAL, 940 => FEED_MODE,
        }
    };
}

/// The M codes, likewise.
macro_rules! m_rows {
    ($with:ident $($before:tt)*) => {
        $with! { $($before)*
            0 => FLOW, 10 => FLOW, 20 => FLOW,
            30 => SPINDLE, 40 => SPINDLE, 50 => SPINDLE,
            80 => COOLANT, 90 => COOLANT,
            300 => FLOW,
        }
    };
}

/// The G codes, by ten times their number, and the modal group of each.
#[inline]
pub fn g_codes() -> Table<30>
    ensures { result ≡ g_rows }
{
    g_rows!(rows)
}

/// The M codes, by ten times their number, and the group of each.
#[inline]
pub fn m_codes() -> Table<9>
    ensures { result ≡ m_rows }
{
    m_rows!(rows)
}

/// The modal group of the G code that is a tenth of a key; None if there is none.
#[inline]
pub fn g_group(key: u64) -> Option<u16>
    ensures group { result ≡ value_of key g_rows }
    ensures small { IfSome result (λ group. group ≤ 13) }
{
    g_rows!(find key;)
}

/// The group of the M code that is a tenth of a key; None if there is none.
#[inline]
pub fn m_group(key: u64) -> Option<u16>
    ensures group { result ≡ value_of key m_rows }
    ensures range { IfSome result (λ group. (20 ≤ group) × (group ≤ 22)) }
{
    m_rows!(find key;)
}

/// The numbers of the settings, and the place of each among them, from 0.
#[inline]
pub fn setting_rows() -> Table<15>
    ensures { result ≡ rows_of_settings }
{
    rows! {
        10 => 0, 11 => 1, 20 => 2,
        100 => 3, 101 => 4, 102 => 5,
        110 => 6, 111 => 7, 112 => 8,
        120 => 9, 121 => 10, 122 => 11,
        130 => 12, 131 => 13, 132 => 14,
    }
}

/// The realtime bytes, and the bit of each in its word of flags; 16 is added for the word of overrides.
#[inline]
pub fn realtime_rows() -> Table<18>
    ensures { result ≡ rows_of_bytes }
{
    rows! {
        0x18 => 3, 0x21 => 1, 0x3f => 0, 0x7e => 2, 0x85 => 4,
        0x90 => 16, 0x91 => 17, 0x92 => 18, 0x93 => 19, 0x94 => 20,
        0x95 => 21, 0x96 => 22, 0x97 => 23,
        0x99 => 24, 0x9a => 25, 0x9b => 26, 0x9c => 27, 0x9d => 28,
    }
}
