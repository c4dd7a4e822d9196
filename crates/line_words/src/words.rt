//! Tests on single words.

ghost use Rattle.std.specs.Prelude.{◌≡◌, ℕ, ◌+◌, ◌*◌, ◌/◌, ◌%◌, ◌≤◌, ◌<◌, ◌^◌, nat_abs, int_lt, pos, ◌==◌, ◌||◌, Some, None, is_some, [], ◌∷◌, IfSome};
ghost use Rattle.code_table.specs.Tables.{value_of, g_rows, m_rows, code};
ghost use Rattle.line_words.specs.Letters.{G};
ghost use Rattle.line_words.specs.Codes.{is_one_of, is_negative, is_whole, whole_part, key_of, is_command_letter, is_key, rows_of, group_of, is_code};
ghost use Rattle.line_words.specs.Index.{IsValueSlot};
ghost use Rattle.line_words.specs.WordRefusals.{is_lone_g_number, command_not_whole, unsupported_command, is_command, is_axis_command, tool_out_of_range, negative_value};

use crate::commands::Command;
use code_table::{g_group, m_group};
use gcode_words::Word;
use units::Decimal;

/// Whether a number is below zero.
fn is_negative(v: &Decimal) -> bool
    ensures { result ≡ is_negative v.now }
{
    v.micro < 0
}

/// Whether a number is whole.
fn is_whole(v: &Decimal) -> bool
    ensures { result ≡ is_whole v.now }
{
    v.micro.unsigned_abs() % 1_000_000 == 0
}

/// The whole part of a number, without its sign.
pub fn whole_part(v: &Decimal) -> u64
    ensures { result ≡ whole_part v.now }
{
    v.micro.unsigned_abs() / 1_000_000
}

/// Ten times a number, which is the key of a code.
fn key_of(v: &Decimal) -> Option<u64>
    ensures { result ≡ key_of v.now }
{
    let micro = v.micro.unsigned_abs();
    if !is_negative(v) && micro % 100_000 == 0 {
        Some(micro / 100_000)
    } else {
        None
    }
}

/// Whether a letter is that of commands.
fn is_command_letter(letter: u8) -> bool
    ensures { result ≡ is_command_letter letter }
{
    letter == b'G' || letter == b'M'
}

/// The group of the code with a letter and a key.
fn group_at(letter: u8, key: u64) -> Option<u16>
    ensures group { result ≡ value_of key (rows_of letter) }
    ensures small { IfSome result (λ group. group < 23) }
{
    match letter {
        b'G' => g_group(key),
        b'M' => m_group(key),
        _ => None,
    }
}

/// Whether a G code with such a number has neighbours behind a point.
fn has_neighbours(number: u64) -> bool
    ensures { result ≡ is_one_of (28 ∷ 30 ∷ 49 ∷ 61 ∷ 90 ∷ 91 ∷ 92 ∷ []) number }
{
    matches!(number, 28 | 30 | 49 | 61 | 90 | 91 | 92)
}

/// Whether a number is that of a G code.
fn is_g_number(number: u64) -> bool
    ensures { result ≡ is_some (value_of (10 * number) g_rows) }
{
    if number > 100 {
        return false;
    }
    g_group(10 * number).is_some()
}

/// Whether a number is behind a G that has no neighbours behind a point.
fn is_lone_g_number(v: &Decimal) -> bool
    ensures { result ≡ is_lone_g_number v.now }
{
    let number = whole_part(v);
    !is_negative(v) && is_g_number(number) && !has_neighbours(number)
}

/// Whether a command has a fraction where it has a whole number.
pub fn command_not_whole(word: &Word) -> bool
    ensures { result ≡ command_not_whole word.now }
{
    if !is_command_letter(word.letter) || is_whole(&word.value) {
        return false;
    }
    word.letter == b'M' || is_lone_g_number(&word.value)
}

/// Whether a tool is over 255.
pub fn tool_out_of_range(word: &Word) -> bool
    ensures { result ≡ tool_out_of_range word.now }
{
    word.letter == b'T' && word.value.micro > 255_000_000
}

/// Whether a value is below zero that may not be.
pub fn negative_value(word: &Word) -> bool
    ensures { result ≡ negative_value word.now }
{
    is_negative(&word.value) && matches!(word.letter, b'F' | b'N' | b'P' | b'S' | b'T')
}

/// The modal group of a word that is a command.
#[tactic(auto, unfolding(crate::specs::Codes::group_of))]
pub fn group_of(word: &Word) -> Option<u16>
    ensures group { result ≡ group_of word.now }
    ensures small { IfSome result (λ group. group < 23) }
{
    if !is_command_letter(word.letter) {
        return None;
    }
    match key_of(&word.value) {
        Some(key) => group_at(word.letter, key),
        None => None,
    }
}

/// Whether a word is a command in no table, or has a letter that begins no word.
pub fn unsupported_command(word: &Word, group: Option<u16>, slot: Option<usize>) -> bool
    requires group { group ≡ group_of word.now }
    requires slot { IsValueSlot word.now.letter slot }
    ensures { result ≡ unsupported_command word.now }
{
    let is_command = is_command_letter(word.letter);
    (is_command && group.is_none()) || !(is_command || slot.is_some())
}

/// Whether a word is a command that takes the axis words.
pub fn is_axis_command(word: &Word) -> bool
    ensures { result ≡ is_axis_command word.now }
{
    word.letter == b'G' && is_axis_number(&word.value)
}

/// Whether a word is a command.
pub fn is_code(word: &Word, command: Command) -> bool
    ensures { result ≡ is_code command.letter command.key word.now }
{
    if word.letter != command.letter {
        return false;
    }
    match key_of(&word.value) {
        Some(key) => key == command.key as u64,
        None => false,
    }
}

/// Whether a number is that of a command that takes the axis words.
fn is_axis_number(v: &Decimal) -> bool
    ensures { result ≡ (is_key (code 0 0) (key_of v.now) || is_key (code 1 0) (key_of v.now) || is_key (code 10 0) (key_of v.now)
        || is_key (code 28 0) (key_of v.now) || is_key (code 30 0) (key_of v.now) || is_key (code 92 0) (key_of v.now)) }
{
    matches!(
        v.micro,
        0 | 1_000_000 | 10_000_000 | 28_000_000 | 30_000_000 | 92_000_000
    )
}
