//! The two ends of the ring.
ghost use Rattle.std.specs.Prelude.{◌≡◌, ℕ, ◌+◌, ◌-◌, ◌%◌, ◌^◌, ◌<◌, ◌≤◌, true, false, [], ◌∷◌, length, None};
ghost use Rattle.std.specs.Arc.{arc_value};
ghost use Rattle.motion_ring.specs.Ticks.{slots, all_words};
ghost use Rattle.motion_ring.specs.Sides.{published_in, ticks_published, earlier_ticks, last_stop, passed_in};

use crate::view::{Place, Ring};
use std::sync::Arc;

/// The end that publishes pieces.
#[derive(Drop)]
pub struct SegOut {
    pub(crate) ring: Arc<Ring>,
    pub(crate) seat: Place,
    pub(crate) head: u64,
    // where the next piece stands
    pub(crate) slot: usize,
    // the ticks published
    pub(crate) ticks: u64,
    // the ticks of all but the last piece, all but the last two, and so on
    pub(crate) before: [u64; 4],
    ghost seated: { seat.table_id ≡ (arc_value ring).shared.table_id },
    ghost sized: { (seat.table_id.words ≡ all_words) × (seat.table_id.slots ≡ slots) },
    ghost bare: { seat.me.1 ≡ [] },
    ghost mine: { (seat.me.0.may_publish ≡ true) × (seat.me.0.filling ≡ false) },
    ghost counted: { head ≡ length (published_in seat.me.0.sent) },
    ghost placed: { slot ≡ head % slots },
    ghost summed: { (ticks ≡ ticks_published seat.me.0.sent) × (ticks < 2 ^ 62) },
    ghost sums: { before ≡ earlier_ticks seat.me.0.sent },
    ghost awaited: { seat.me.0.sent.waits ≡ true → last_stop seat.me.0.sent.stops ≡ head },
}

/// The end that gets pieces and counts their ticks.
#[derive(Drop)]
pub struct SegIn {
    pub(crate) ring: Arc<Ring>,
    pub(crate) seat: Place,
    pub(crate) taken: u64,
    // where the next piece stands
    pub(crate) slot: usize,
    pub(crate) counted: u64,
    pub(crate) left: u64,
    // the pieces up to the last halt
    pub(crate) halted: u64,
    ghost seated: { seat.table_id ≡ (arc_value ring).shared.table_id },
    ghost sized: { (seat.table_id.words ≡ all_words) × (seat.table_id.slots ≡ slots) },
    ghost mine: { (seat.me.0.may_get ≡ true) × (seat.me.0.dropping ≡ []) },
    ghost idle: { seat.me.0.busy ≡ false → (seat.me.1 ≡ []) × (seat.me.0.taken.left ≡ 0) },
    ghost at_work: { seat.me.0.busy ≡ true → (0 < length (passed_in seat.me.0.taken)) × (seat.me.1 ≡ ((length (passed_in seat.me.0.taken) - 1) % slots, None) ∷ []) },
    ghost gotten: { taken ≡ length (passed_in seat.me.0.taken) },
    ghost placed: { slot ≡ taken % slots },
    ghost sums: { (counted ≡ seat.me.0.taken.counted) × (left ≡ seat.me.0.taken.left) × (counted + left < 2 ^ 62) },
    ghost behind: { halted ≡ length seat.me.0.taken.past },
}
