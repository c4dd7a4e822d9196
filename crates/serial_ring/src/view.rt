//! The table of the link.
use atomic_table::{Seat, Table, TableRule};
use status_report::Reply;
use std::alloc::Global;
use std::collections::LinkedList;

/// What became of a byte that was to be stored.
#[derive(Clone, Copy, Debug, PartialEq, Eq)]
pub enum Stored {
    /// It is stored.
    Stored,
    /// There was no room, and it is lost.
    Dropped,
}

/// What the board found.
#[derive(Clone, Copy, Debug, PartialEq, Eq)]
pub enum ByteIn {
    Byte(u8),
    /// No byte is there yet.
    Empty,
    /// No byte is there, and none will come.
    Closed,
}

/// What the board has done at the link, of which its bounds speak. No value of it is made.
pub enum LinkStep {
    Took(u8),
    /// The mark was loaded: its number, and how many bytes were stored before it.
    Marked(u32, u32),
    Answered(Reply),
}

/// What a seat of the table knows, the latest first. No value of it is made.
pub struct LinkSight {
    pub may_store: bool,
    pub may_take: bool,
    pub stored: LinkedList<u8>,
    pub closed: bool,
    /// The marks that were stored: how many bytes were before each.
    pub marks: LinkedList<u32>,
    /// How many bytes are taken, as it was loaded last, and how many times it was.
    pub tail: u64,
    pub tail_loads: u64,
    /// The byte that was written for the next place.
    pub cell: Option<u8>,
    pub got: LinkedList<Reply>,
    /// The marks of the Banners among them.
    pub greeted: LinkedList<(u32, u32)>,
    /// How many bytes were stored when each of these was got.
    pub moments: LinkedList<u64>,
    /// How many replies are answered, as it was loaded last, and how many times it was.
    pub reply_head: u64,
    pub reply_head_loads: u64,
    /// The slot of the reply that was got last is not given back yet.
    pub emptying: bool,
    /// The bytes taken, the marks loaded and the replies answered.
    pub log: LinkedList<LinkStep>,
    /// How many bytes are stored, as it was loaded last, and how many times it was.
    pub head: u64,
    pub head_loads: u64,
    /// The byte that was read of the next place.
    pub read: Option<u8>,
    /// The link was found closed, with every byte taken.
    pub over: bool,
    /// How many replies are taken, as it was loaded last, and how many times it was.
    pub reply_tail: u64,
    pub reply_tail_loads: u64,
    /// The next slot is out, to be filled.
    pub filling: bool,
}

/// The rule of a link with room for `RX` bytes.
pub struct Link<const RX: usize>;

impl<const RX: usize> TableRule<Option<Reply>, LinkSight, ()> for Link<RX> {
    ghost use Rattle.serial_ring.specs.Rule.{Kept, beginning};

    ghost holds = { λ _. Kept RX };

    ghost first = { λ _. beginning };
}

pub(crate) type LinkTable<const RX: usize> = Table<Option<Reply>, LinkSight, (), Link<RX>, Global>;

pub(crate) type Place = Seat<Option<Reply>, LinkSight>;
