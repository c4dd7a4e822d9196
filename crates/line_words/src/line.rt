//! A line whose words pass.

ghost use Rattle.std.specs.Prelude.{◌≡◌, ◌≢◌, ℕ, ◌<◌, ◌≤◌, All, length, IfOk, IfErr, IfSome, OnOk, Some, None, List, true, false, is_some};
ghost use Rattle.gcode_words.specs.Words.{IsSmallWord};
ghost use Rattle.code_table.specs.Tables.{value_of};
ghost use Rattle.std.specs.List.{list_any};
ghost use Rattle.line_words.specs.Codes.{rows_of, has, is_of_group, code_in};
ghost use Rattle.line_words.specs.Given.{is_value_letter, stands, given, IsSoundValue};
ghost use Rattle.line_words.specs.Index.{is_number, key_held};
ghost use Rattle.line_words.specs.WordRefusals.{words_refusal, refusal_at, IsFirstRefused};

use crate::commands::Command;
use crate::index::{Index, group_slot, value_slot};
use crate::slots::Slots;
use code_table::Code;
use gcode_words::Word;
use std::marker::Model;
use units::Decimal;

/// Whether a slot holds a number.
fn is_number(held: Option<i64>, number: u64) -> bool
    ensures { result ≡ is_number number held }
{
    match held {
        Some(held) => held.unsigned_abs() == number,
        None => false,
    }
}

/// The key of the code whose value a slot holds, in millionths.
fn key_held(held: Option<i64>) -> Option<u64>
    ensures { result ≡ key_held held }
{
    match held {
        Some(held) => Some(held.unsigned_abs() / 100_000),
        None => None,
    }
}

/// The words of a line, each of which passes behind those before it. Contracts see the list of the words.
#[derive(Drop)]
pub struct Line<'a> {
    words: &'a [Word],
    slots: Slots,
}

impl<'a> Model for Line<'a> {
    ghost use Rattle.std.specs.Prelude.{List};
    ghost use Rattle.gcode_words.specs.declared.Word.{Word};
    ghost use Rattle.line_words.specs.Index.{IsIndex};

    ghost Value = { List Word };

    ghost view = { λ l. l.words.now };

    ghost invariant = { λ l. IsIndex l.slots l.words.now l.words.now };
}

impl<'a> Line<'a> {
    /// Reads words from the left. The first that does not pass behind those before it refuses the line.
    pub fn read(words: &'a [Word]) -> Result<Line<'a>, Code>
        requires few { length words.now ≤ 256 }
        requires small { All IsSmallWord words.now }
        ensures refusal { IfErr result (λ code. words_refusal words.now ≡ Some code) }
        ensures refused { IfErr result (λ code. IsFirstRefused words.now code) }
        ensures none { OnOk result (words_refusal words.now ≡ None) }
        ensures passed { OnOk result ((place : ℕ) → place < length words.now → refusal_at words.now place ≡ None) }
        ensures line { IfOk result (λ line. line ≡ words.now) }
    {
        let mut index = Index::new();
        for place in 0..words.len() {
            if let Some(code) = index.read(words, place) {
                return Err(code);
            }
        }
        Ok(Line {
            words,
            slots: index.slots,
        })
    }

    /// The words of the line.
    pub fn words(&self) -> &'a [Word]
        ensures { result.now ≡ self.now }
    {
        self.words
    }

    /// Whether a command stands in the line. No other command of its group does then.
    pub fn has(&self, command: Command) -> bool
        requires { value_of command.key (rows_of command.letter) ≡ Some command.group }
        ensures value { result ≡ has command.letter command.key self.now }
        ensures alone { result ≡ true → (letter key : ℕ) → value_of key (rows_of letter) ≡ Some command.group → key ≢ command.key →
            has letter key self.now ≡ false }
    {
        is_number(
            self.slots.get(self.words, group_slot(command.group)),
            command.key as u64 * 100_000,
        )
    }

    /// Whether a command of the group of this one stands in the line. Where none does, neither does any command of the
    /// group: so one test tells of all of them.
    pub fn has_group_of(&self, command: Command) -> bool
        requires { value_of command.key (rows_of command.letter) ≡ Some command.group }
        ensures group { result ≡ list_any (is_of_group command.group) self.now }
        ensures none { result ≡ false → (letter key : ℕ) → value_of key (rows_of letter) ≡ Some command.group → has letter key self.now ≡ false }
    {
        self.slots.is_filled(group_slot(command.group))
    }

    /// The key of the line's code of a modal group, which has one code at most; None where no code of the group stands.
    pub fn code_in(&self, group: u16) -> Option<u64>
        requires { group < 23 }
        ensures { result ≡ code_in group self.now }
    {
        key_held(self.slots.get(self.words, group_slot(group)))
    }

    /// Whether a value stands in the line.
    pub fn stands(&self, letter: u8) -> bool
        requires { is_value_letter letter ≡ true }
        ensures { result ≡ stands letter self.now }
    {
        match value_slot(letter) {
            Some(slot) => self.slots.is_filled(slot),
            None => false,
        }
    }

    /// The value behind a letter.
    pub fn given(&self, letter: u8) -> Option<Decimal>
        requires { is_value_letter letter ≡ true }
        ensures value { result ≡ given letter self.now }
        ensures sound { IfSome result (IsSoundValue letter) }
    {
        match self.slots.get(self.words, value_slot(letter)?) {
            Some(micro) => Some(Decimal { micro }),
            None => None,
        }
    }
}
