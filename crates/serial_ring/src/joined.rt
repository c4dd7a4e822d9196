//! The beginning and the end of a link.
ghost use Rattle.std.specs.Prelude.{◌≡◌, false, [], IfOk};
ghost use Rattle.serial_ring.specs.Lists.{IsRoom};
ghost use Rattle.serial_ring.specs.Rule.{AreTied};
ghost use Rattle.serial_ring.specs.Ends.{link_of_host, link_of_board, stored_by, closed_by, marks_by, tail_loads_of, tail_shown, got_by, greeted_by, moments_by, reply_loads_of, log_by, found_closed, head_loads_of, bytes_shown, room_loads_of};

use crate::ends::{BoardEnd, HostEnd};
use crate::plays::{Sides, Tie};
use crate::view::{LinkTable, Place};
use atomic_table::Table;
use outside::OutOfMemory;
use std::alloc::Global;
use std::sync::Arc;

/// How many replies may be untaken.
pub const REPLY_ROOM: usize = 16;
/// The host writes these three words and the cells, the board the two between. Each stands 128 bytes or more from the next, since
/// what one side looks at each turn must not lie beside what the other writes each turn; and what the host writes stands 256
/// from what the board writes.
pub(crate) const HEAD: usize = 0;

pub(crate) const REPLY_TAIL: usize = 16;

pub(crate) const MARK: usize = 32;

pub(crate) const TAIL: usize = 64;

pub(crate) const REPLY_HEAD: usize = 80;
/// There are as many cells as the greatest link has.
pub(crate) const FIRST_CELL: usize = 112;

const WORDS: usize = 368;
/// The top bit of the head closes the link.
pub(crate) const CLOSED: u64 = 1 << 63;

/// An open link with no byte and no reply in it, and its two ends. It has room for `RX` bytes.
pub fn link<const RX: usize>(alloc: Global) -> Result<(HostEnd<RX>, BoardEnd<RX>), OutOfMemory>
    requires { IsRoom RX }
    ensures link { IfOk result (λ r. link_of_host r.0 ≡ link_of_board r.1) }
    ensures fresh_host { IfOk result (λ r. (stored_by r.0 ≡ []) × (closed_by r.0 ≡ false) × (marks_by r.0 ≡ []) × (got_by r.0 ≡ []) × (greeted_by r.0 ≡ [])) }
    ensures fresh_moments { IfOk result (λ r. moments_by r.0 ≡ []) }
    ensures idle_host { IfOk result (λ r. (tail_loads_of r.0 ≡ 0) × (tail_shown r.0 ≡ 0) × (reply_loads_of r.0 ≡ 0)) }
    ensures fresh_board { IfOk result (λ r. (log_by r.1 ≡ []) × (found_closed r.1 ≡ false)) }
    ensures idle_board { IfOk result (λ r. (head_loads_of r.1 ≡ 0) × (bytes_shown r.1 ≡ 0) × (room_loads_of r.1 ≡ 0)) }
{
    let (table, mut seat): (LinkTable<RX>, Place) = Table::vacant(
        alloc,
        &[0; WORDS],
        REPLY_ROOM,
        &(),
    )?;
    let far = table.shared.split_seat::<Sides>(&mut seat);
    let table = Arc::new(alloc, table)?;
    let other = Arc::try_clone(&table)?;
    let host = HostEnd {
        table,
        seat,
        stored: 0,
        taken: 0,
        cell: 0,
        marks: 0,
        got: 0,
        slot: 0,
    };
    let board = BoardEnd {
        table: other,
        seat: far,
        taken: 0,
        stored: 0,
        over: false,
        cell: 0,
        answered: 0,
        slot: 0,
    };
    Ok((host, board))
}

/// Ends the link of these two ends. The bytes taken are the first of those stored, at most the link's room fewer, and
/// all of them if the board found the link closed, as it then is; the replies got are the first of those answered, at
/// most 16 fewer, and so are the marks of their Banners, at each of which no more bytes were taken as it was answered than were
/// stored as it was got; each mark that was loaded was stored, but for the number 0; and each
/// reply was answered where it might be.
pub fn join_link<const RX: usize>(host: HostEnd<RX>, board: BoardEnd<RX>)
    requires { link_of_host host ≡ link_of_board board }
    ensures { AreTied RX (stored_by host.entry) (marks_by host.entry) (closed_by host.entry) (log_by board.entry) (found_closed board.entry) (got_by host.entry) (greeted_by host.entry) (moments_by host.entry) }
{
    let HostEnd {
        table,
        mut seat,
        stored: _,
        taken: _,
        cell: _,
        marks: _,
        got: _,
        slot: _,
    } = host;
    let BoardEnd {
        table: _,
        seat: far,
        taken: _,
        stored: _,
        over: _,
        cell: _,
        answered: _,
        slot: _,
    } = board;
    let shared = &table.shared;
    shared.join_seat::<Sides>(&mut seat, far);
    shared.load::<Tie<RX>>(&mut seat, HEAD);
}
