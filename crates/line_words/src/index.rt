//! Words by the slots that they fill.

ghost use Rattle.std.specs.Prelude.{◌≡◌, ℕ, ◌+◌, ◌<◌, ◌≤◌, List, [], ◌∷◌, ◌++◌, length, take, slice_get, Some, None, IfSome, All};
ghost use Rattle.gcode_words.specs.Words.{IsSmallWord};
ghost use Rattle.gcode_words.specs.declared.Word.{Word};
ghost use Rattle.line_words.specs.Codes.{group_of};
ghost use Rattle.line_words.specs.Given.{is_value_letter};
ghost use Rattle.line_words.specs.Index.{value_slot, group_slot, IsValueSlot};
ghost use Rattle.line_words.specs.WordRefusals.{second_axis_command, group_stands, repeated_word, word_refusal, refusal_at};

use crate::slots::Slots;
use crate::words::{
    command_not_whole, group_of, is_axis_command, negative_value, tool_out_of_range,
    unsupported_command,
};
use code_table::Code;
use gcode_words::Word;

/// The slot of a letter that is that of a value.
pub fn value_slot(letter: u8) -> Option<usize>
    ensures { IsValueSlot letter result }
{
    match letter {
        b'F' | b'I'..=b'L' | b'N' | b'P' | b'R'..=b'T' | b'X'..=b'Z' => {
            Some((letter - b'A') as usize)
        }
        _ => None,
    }
}

/// The slot of a modal group.
pub fn group_slot(group: u16) -> usize
    requires { group < 23 }
    ensures { result ≡ group_slot group }
{
    26 + group as usize
}

/// The words of a line that passed so far.
#[derive(Clone, Copy)]
pub struct Index {
    pub slots: Slots,
    pub axis_command: bool,
}

impl Index {
    ghost use Rattle.line_words.specs.Passing.{IsPassed};

    /// No words.
    pub fn new() -> Index
        ensures { (all : List Word) → IsPassed result all [] }
    {
        Index {
            slots: Slots::new(),
            axis_command: false,
        }
    }

    /// Whether a word takes the axis words, and a word that passed does.
    fn second_axis_command(&self, word: &Word) -> bool
        ensures { (all before : List Word) → IsPassed self.now all before → result ≡ second_axis_command before word.now }
    {
        is_axis_command(word) && self.axis_command
    }

    /// Whether a command of a modal group passed.
    fn group_stands(&self, group: Option<u16>) -> bool
        requires { IfSome group (λ g. g < 23) }
        ensures { (all before : List Word) → IsPassed self.now all before → result ≡ group_stands group before }
    {
        match group {
            Some(group) => self.slots.is_filled(group_slot(group)),
            None => false,
        }
    }

    /// Whether a value with the letter of a word passed.
    fn repeated_word(&self, word: &Word, slot: Option<usize>) -> bool
        requires { IsValueSlot word.now.letter slot }
        ensures { (all before : List Word) → IsPassed self.now all before → result ≡ repeated_word before word.now }
    {
        match slot {
            Some(slot) => self.slots.is_filled(slot),
            None => false,
        }
    }

    /// What refuses a word behind those that passed.
    fn refusal(&self, word: &Word, group: Option<u16>, slot: Option<usize>) -> Option<Code>
        requires slot { IsValueSlot word.now.letter slot }
        requires group { group ≡ group_of word.now }
        requires small { IfSome group (λ g. g < 23) }
        ensures { (all before : List Word) → IsPassed self.now all before → result ≡ word_refusal before word.now }
    {
        if command_not_whole(word) {
            return Some(Code::COMMAND_NOT_WHOLE);
        }
        if unsupported_command(word, group, slot) {
            return Some(Code::UNSUPPORTED_COMMAND);
        }
        if self.second_axis_command(word) {
            return Some(Code::AXIS_COMMAND_CONFLICT);
        }
        if self.group_stands(group) {
            return Some(Code::MODAL_GROUP_VIOLATION);
        }
        if tool_out_of_range(word) {
            return Some(Code::TOOL_OUT_OF_RANGE);
        }
        if self.repeated_word(word, slot) {
            return Some(Code::REPEATED_WORD);
        }
        if negative_value(word) {
            return Some(Code::NEGATIVE_VALUE);
        }
        None
    }

    /// Adds a command that passed.
    fn add_command(&mut self, word: &Word, group: u16, place: usize)
        requires group { Some group ≡ group_of word.now }
        requires small { group < 23 }
        requires place { place < 256 }
        ensures { (all before : List Word) → slice_get all place ≡ Some word.now → IsPassed self.old all before
            → word_refusal before word.now ≡ None → IsPassed self.new all (before ++ word.now ∷ []) }
    {
        self.slots.fill(group_slot(group), place);
        self.axis_command |= is_axis_command(word);
    }

    /// Adds a value that passed.
    fn add_value(&mut self, word: &Word, slot: Option<usize>, place: usize)
        requires slot { IsValueSlot word.now.letter slot }
        requires group { None ≡ group_of word.now }
        requires small { IsSmallWord word.now }
        requires place { place < 256 }
        ensures { (all before : List Word) → slice_get all place ≡ Some word.now → IsPassed self.old all before
            → word_refusal before word.now ≡ None → IsPassed self.new all (before ++ word.now ∷ []) }
    {
        match slot {
            Some(slot) => self.slots.fill(slot, place),
            None => {}
        }
    }

    /// Reads the word at a place, behind those before it, which passed: what refuses it, or else it has passed too.
    pub fn read(&mut self, words: &[Word], place: usize) -> Option<Code>
        requires place { place < length words.now }
        requires few { length words.now ≤ 256 }
        requires small { All IsSmallWord words.now }
        requires passed { IsPassed self.old words.now (take place words.now) }
        ensures refusal { result ≡ refusal_at words.now place }
        ensures passed { result ≡ None → IsPassed self.new words.now (take (place + 1) words.now) }
    {
        let word = &words[place];
        let group = group_of(word);
        let slot = value_slot(word.letter);
        if let Some(code) = self.refusal(word, group, slot) {
            return Some(code);
        }
        match group {
            Some(group) => self.add_command(word, group, place),
            None => self.add_value(word, slot, place),
        }
        None
    }
}
