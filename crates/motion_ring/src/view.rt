//! The table of the ring.
use crate::lists::{Sent, Taken};
use atomic_table::{Seat, Shared, Table, TableRule};
use std::alloc::Global;
use std::collections::LinkedList;
use step_line::Piece;

/// What a seat of the table knows. No value of it is made.
pub struct MotionSight {
    pub may_publish: bool,
    pub may_get: bool,
    pub sent: Sent,
    /// The done count, as it was loaded last.
    pub known: u64,
    /// How many times the done count was loaded.
    pub done_loads: u64,
    /// The halted word, as it was loaded last.
    pub heard: u64,
    /// How many times the halted word was loaded.
    pub halt_loads: u64,
    pub taken: Taken,
    /// The head, as it was loaded last.
    pub shown: u64,
    /// How many times the head was loaded.
    pub head_loads: u64,
    /// The stop word, as it was loaded last.
    pub asked: u64,
    /// How many times it was asked for a stop.
    pub stop_loads: u64,
    /// The pieces that were taken untraced for a halt that is not stored.
    pub dropping: LinkedList<Piece>,
    /// The next slot is out, to be filled.
    pub filling: bool,
    /// The slot of the piece that was got last is out.
    pub busy: bool,
}

/// The rule of the ring.
pub struct Motion;

impl TableRule<Option<Piece>, MotionSight, ()> for Motion {
    ghost use Rattle.motion_ring.specs.Rule.{Kept, beginning};

    ghost holds = { λ _. Kept };

    ghost first = { λ _. beginning };
}

pub(crate) type Ring = Table<Option<Piece>, MotionSight, (), Motion, Global>;

pub(crate) type Place = Seat<Option<Piece>, MotionSight>;

/// What the ends have of the table.
pub(crate) type Common = Shared<Option<Piece>, MotionSight, (), Motion>;
