//! The two ends of the link.
ghost use Rattle.std.specs.Prelude.{◌≡◌, ◌+◌, ◌%◌, ◌^◌, ◌<◌, ◌≤◌, true, false, [], length};
ghost use Rattle.std.specs.Arc.{arc_value};
ghost use Rattle.serial_ring.specs.Lists.{IsRoom};
ghost use Rattle.status_report.specs.Answering.{reply_room};
ghost use Rattle.serial_ring.specs.Logs.{taken_in, answered_in};
ghost use Rattle.serial_ring.specs.Rule.{all_words};

use crate::view::{LinkTable, Place};
use std::sync::Arc;

/// The host's end: it stores bytes and gets replies.
#[derive(Drop)]
pub struct HostEnd<const RX: usize> {
    pub(crate) table: Arc<LinkTable<RX>>,
    pub(crate) seat: Place,
    pub(crate) stored: u64,
    // how many bytes are taken, as it was loaded last
    pub(crate) taken: u64,
    // where the next byte stands among the cells
    pub(crate) cell: usize,
    // how many marks are stored
    pub(crate) marks: u32,
    pub(crate) got: u64,
    // where the next reply stands
    pub(crate) slot: usize,
    ghost seated: { seat.table_id ≡ (arc_value table).shared.table_id },
    ghost sized: { (seat.table_id.words ≡ all_words) × (seat.table_id.slots ≡ reply_room) },
    ghost roomy: { IsRoom RX },
    ghost bare: { seat.me.1 ≡ [] },
    ghost mine: { (seat.me.0.may_store ≡ true) × (seat.me.0.emptying ≡ false) },
    ghost bytes: { (stored ≡ length seat.me.0.stored) × (stored ≤ 2 ^ 31) },
    ghost shown: { (taken ≡ seat.me.0.tail) × (taken ≤ stored) × (stored ≤ taken + RX) },
    ghost celled: { (cell ≡ stored % RX) × (cell < RX) },
    ghost marked: { marks ≡ length seat.me.0.marks },
    ghost replies: { got ≡ length seat.me.0.got },
    ghost slotted: { slot ≡ got % reply_room },
}

/// The board's end: it takes bytes and answers.
#[derive(Drop)]
pub struct BoardEnd<const RX: usize> {
    pub(crate) table: Arc<LinkTable<RX>>,
    pub(crate) seat: Place,
    pub(crate) taken: u64,
    // how many bytes are stored, as it was loaded last
    pub(crate) stored: u64,
    // the link was found closed, with every byte taken
    pub(crate) over: bool,
    // where the next byte stands among the cells
    pub(crate) cell: usize,
    pub(crate) answered: u64,
    // where the next reply stands
    pub(crate) slot: usize,
    ghost seated: { seat.table_id ≡ (arc_value table).shared.table_id },
    ghost sized: { (seat.table_id.words ≡ all_words) × (seat.table_id.slots ≡ reply_room) },
    ghost roomy: { IsRoom RX },
    ghost bare: { seat.me.1 ≡ [] },
    ghost mine: { (seat.me.0.may_take ≡ true) × (seat.me.0.filling ≡ false) },
    ghost bytes: { taken ≡ length (taken_in seat.me.0.log) },
    ghost shown: { (stored ≡ seat.me.0.head) × (taken ≤ stored) × (stored ≤ taken + RX) × (stored ≤ 2 ^ 31) },
    ghost ended: { over ≡ seat.me.0.over },
    ghost celled: { (cell ≡ taken % RX) × (cell < RX) },
    ghost replies: { answered ≡ length (answered_in seat.me.0.log) },
    ghost slotted: { slot ≡ answered % reply_room },
}
