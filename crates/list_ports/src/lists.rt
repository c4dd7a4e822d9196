//! The lists between a host, a board and a pulse.

ghost use Rattle.std.specs.Prelude.{◌≡◌, ◌≤◌, ◌+◌, ◌↔◌, true, false, [], length, IfOk};
ghost use Rattle.serial_ring.specs.Lists.{IsRoom};
ghost use Rattle.status_report.specs.Answering.{reply_room};
ghost use Rattle.list_ports.specs.Joining.{Joined, one_if_some};

use bitflags::Flags;
use circular_buffer::HeapCircularBuffer;
use code_table::{Exec, Ovr};
use motion_ring::PIECE_ROOM;
use serial_ring::REPLY_ROOM;
use status_report::Reply;
use std::alloc::{AllocError, Global};
use std::marker::Model;
use step_line::Piece;

/// How many pieces may be unfinished.
pub(crate) const MOST_UNFINISHED: usize = 5;

/// What is on its way between a host, a board and a pulse: bytes, replies, flags and pieces, how many ticks are done, and
/// whether a stop waits for its halt. Each of the three has them as its port. `RX` bytes may wait. All room is taken once, by `new`.
#[derive(Drop)]
pub struct Lists<const RX: usize> {
    pub(crate) bytes: HeapCircularBuffer<u8>,
    pub(crate) closed: bool,
    /// How many bytes were stored.
    pub(crate) stored: u32,
    /// The mark that was stored last: its number, and how many bytes were stored before.
    pub(crate) mark: (u32, u32),
    pub(crate) replies: HeapCircularBuffer<Reply>,
    pub(crate) exec: Exec,
    pub(crate) overrides: Ovr,
    pub(crate) pieces: HeapCircularBuffer<Piece>,
    /// How many ticks of the piece that was got last are not done.
    pub(crate) left: u32,
    pub(crate) done: u64,
    /// A stop waits for its halt.
    pub(crate) stop: bool,
}

impl<const RX: usize> Model for Lists<RX> {
    ghost use Rattle.list_ports.specs.Joining.{Listed, AreSized};

    ghost Value = { Listed };

    ghost view = { λ l. record { bytes = l.bytes.items; closed = l.closed; stored = l.stored; mark = l.mark; replies = l.replies.items; exec = l.exec.0; override = l.overrides.0; pieces = l.pieces.items; left = l.left; done = l.done; stop = l.stop } };

    ghost invariant = { λ l. AreSized RX l.bytes.capacity l.replies.capacity l.pieces.capacity l.replies.items };
}

impl<const RX: usize> Lists<RX> {
    /// Lists in which nothing is on its way, and the link is open.
    pub fn new(alloc: Global) -> Result<Lists<RX>, AllocError>
        requires { IsRoom RX }
        ensures { IfOk result (λ lists. Joined lists [] [] []) }
    {
        Ok(Lists {
            bytes: HeapCircularBuffer::with_capacity(alloc, RX)?,
            closed: false,
            stored: 0,
            mark: (0, 0),
            replies: HeapCircularBuffer::with_capacity(alloc, REPLY_ROOM)?,
            exec: Exec::from_bits_retain(0),
            overrides: Ovr::from_bits_retain(0),
            pieces: HeapCircularBuffer::with_capacity(alloc, PIECE_ROOM)?,
            left: 0,
            done: 0,
            stop: false,
        })
    }

    /// At most `RX` bytes and 16 replies wait.
    pub fn have_room(&self)
        ensures bytes { length self.now.bytes ≤ RX }
        ensures replies { length self.now.replies ≤ reply_room }
    {
        let _bytes = self.bytes.len();
        let _replies = self.replies.len();
    }

    /// Whether no piece waits.
    #[inline]
    pub fn has_no_piece(&self) -> bool
        ensures { (result ≡ true) ↔ (self.now.pieces ≡ []) }
    {
        self.pieces.is_empty()
    }

    /// Whether no stop waits for its halt.
    #[inline]
    pub fn has_no_stop(&self) -> bool
        ensures { (result ≡ true) ↔ (self.now.stop ≡ false) }
    {
        !self.stop
    }

    /// How many pieces are unfinished, where the end does not wait: those that wait, and the one that was got last
    /// where ticks of it are left.
    pub(crate) fn unfinished(&self) -> usize
        ensures { result ≡ length self.now.pieces + one_if_some self.now.left }
    {
        if self.left > 0 {
            self.pieces.len() + 1
        } else {
            self.pieces.len()
        }
    }
}
