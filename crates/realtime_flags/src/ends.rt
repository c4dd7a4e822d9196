//! The two ends of the words.
ghost use Rattle.std.specs.Prelude.{◌≡◌, true, []};
ghost use Rattle.std.specs.Arc.{arc_value};

use crate::words::{FlagTable, Place};
use std::sync::Arc;

/// The end that raises flags.
#[derive(Drop)]
pub struct Raiser {
    pub(crate) table: Arc<FlagTable>,
    pub(crate) seat: Place,
    ghost seated: { seat.table_id ≡ (arc_value table).shared.table_id },
    ghost sized: { seat.table_id.words ≡ 2 },
    ghost bare: { seat.me.1 ≡ [] },
    ghost mine: { seat.me.0.may_raise ≡ true },
}

/// The end that takes words.
#[derive(Drop)]
pub struct Taker {
    pub(crate) table: Arc<FlagTable>,
    pub(crate) seat: Place,
    ghost seated: { seat.table_id ≡ (arc_value table).shared.table_id },
    ghost sized: { seat.table_id.words ≡ 2 },
    ghost bare: { seat.me.1 ≡ [] },
    ghost mine: { seat.me.0.may_take ≡ true },
}
