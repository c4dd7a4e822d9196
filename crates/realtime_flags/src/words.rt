//! The two words, what is done to them, and what a realtime byte raises.

ghost use Rattle.std.specs.Prelude.{◌≡◌, IfSome};
ghost use Rattle.realtime_flags.specs.Bytes.{flag_of_byte};
ghost use Rattle.realtime_flags.specs.Bits.{word_of, place_of, IsNamed};

use atomic_table::{Seat, Table, TableRule};
use code_table::{Exec, Ovr, realtime_rows, values_are_small};
use std::alloc::Global;
use std::collections::LinkedList;

/// A bit of a word of flags, by its place in it, from 0.
#[derive(Clone, Copy, Debug, PartialEq, Eq)]
pub enum Flag {
    /// In the word of requests.
    Exec(u8),
    /// In the word of changes of overrides.
    Override(u8),
}

impl Flag {
    /// The number of its word in the table.
    pub(crate) fn word(self) -> usize
        ensures { result ≡ word_of self }
    {
        match self {
            Flag::Exec(_) => 0,
            Flag::Override(_) => 1,
        }
    }

    /// Its place in its word.
    pub(crate) fn place(self) -> u8
        ensures { result ≡ place_of self }
    {
        match self {
            Flag::Exec(place) | Flag::Override(place) => place,
        }
    }
}

/// What a byte did.
#[derive(Clone, Copy, Debug, PartialEq, Eq)]
pub enum Raised {
    /// It raised a bit of the word of requests.
    Exec,
    /// It raised a bit of the word of changes of overrides.
    Override,
    /// Nothing: it is one of the bytes from 0x80 on, and none that asks for something.
    Ignored,
    /// Nothing: it is a byte of text.
    Plain,
}

/// A flag that was raised, and whether it was found down.
#[derive(Clone, Copy, Debug, PartialEq, Eq)]
pub struct Raise {
    pub flag: Flag,
    pub down: bool,
}

/// A word that was taken, with the bits that stood.
#[derive(Clone, Copy, Debug, PartialEq, Eq)]
pub enum Take {
    Exec(Exec),
    Override(Ovr),
}

/// What a seat of the table knows: what its side did, the latest first. No value of it is made.
pub struct FlagSight {
    pub may_raise: bool,
    pub may_take: bool,
    pub raises: LinkedList<Raise>,
    pub takes: LinkedList<Take>,
}

/// The rule of the two words.
pub struct Words;

impl TableRule<u64, FlagSight, ()> for Words {
    ghost use Rattle.realtime_flags.specs.Rule.{Kept, beginning};

    ghost holds = { λ _. Kept };

    ghost first = { λ _. beginning };
}

pub(crate) type FlagTable = Table<u64, FlagSight, (), Words, Global>;

pub(crate) type Place = Seat<u64, FlagSight>;

/// The flag that a byte raises.
pub fn flag_of_byte(byte: u8) -> Option<Flag>
    ensures flag { result ≡ flag_of_byte byte }
    ensures named { IfSome result IsNamed }
{
    values_are_small();
    let bit = realtime_rows().find(byte as u16)?;
    let place = (bit % 16) as u8;
    if bit < 16 {
        Some(Flag::Exec(place))
    } else {
        Some(Flag::Override(place))
    }
}
