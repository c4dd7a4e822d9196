//! The first calls on a fresh link, and two threads.

ghost use Rattle.std.specs.Prelude.{◌≡◌, ◌≤◌, false, [], length};
ghost use Rattle.serial_ring.specs.Ends.{closed_by, stored_by, marks_by, log_by, answered_by};

use serial_ring::{BoardEnd, ByteIn, HostEnd, Stored, join_link, link};
use status_report::Reply;
use std::process::Abort;
use std::sync::Wait;
use std::thread::{self, Threads, join};

#[test]
fn last_byte_comes_before_closed(rt: HostRuntime) {
    let (mut host, mut board) = link::<128>(rt.alloc()).expect(&rt, "memory");
    assert_eq!(rt; board.byte(), ByteIn::Empty);
    assert_eq!(rt; board.free(), 128);
    assert_eq!(rt; host.store(b'G'), Stored::Stored);
    assert_eq!(rt; board.free(), 127);
    host.close();
    assert_eq!(rt; board.byte(), ByteIn::Byte(b'G'));
    assert_eq!(rt; board.byte(), ByteIn::Closed);
    join_link(host, board);
}

#[test]
fn fresh_link_is_closed_at_once(rt: HostRuntime) {
    let (mut host, mut board) = link::<128>(rt.alloc()).expect(&rt, "memory");
    host.close();
    assert_eq!(rt; board.byte(), ByteIn::Closed);
    assert_eq!(rt; board.byte(), ByteIn::Closed);
}

#[test]
fn room_for_128_bytes_and_16_replies(rt: HostRuntime) {
    let (host, board) = link::<128>(rt.alloc()).expect(&rt, "memory");
    let (mut host, stored) = fill(&rt, host);
    assert_eq!(rt; stored, 128);
    let (mut board, answered) = fill_replies(&rt, board);
    assert_eq!(rt; answered, 16);
    assert_eq!(rt; board.byte(), ByteIn::Byte(0));
    assert_eq!(rt; board.free(), 1);
    assert_eq!(rt; host.store(b'X'), Stored::Stored);
}

#[test]
fn wide_link_has_room_for_255_bytes(rt: HostRuntime) {
    let (host, mut board) = link::<255>(rt.alloc()).expect(&rt, "memory");
    assert_eq!(rt; board.free(), 255);
    let (mut host, stored) = fill(&rt, host);
    assert_eq!(rt; stored, 255);
    assert_eq!(rt; board.free(), 0);
    assert_eq!(rt; board.byte(), ByteIn::Byte(0));
    assert_eq!(rt; board.free(), 1);
    assert_eq!(rt; host.store(b'X'), Stored::Stored);
}

/// Makes a link where memory suffices.
#[test]
fn refused_memory_is_told(rt: HostRuntime) {
    if let Ok((host, mut board)) = link::<128>(rt.alloc()) {
        assert_eq!(rt; board.byte(), ByteIn::Empty);
        join_link(host, board);
    }
}

#[test]
fn mark_at_the_start(rt: HostRuntime) {
    let (mut host, mut board) = link::<128>(rt.alloc()).expect(&rt, "memory");
    assert_eq!(rt; board.marked(), (0, 0));
    host.mark();
    assert_eq!(rt; board.marked(), (1, 0));
    assert_eq!(rt; board.marked(), (1, 0));
    assert_eq!(rt; board.byte(), ByteIn::Empty);
    join_link(host, board);
}

#[test]
fn mark_behind_five_bytes_of_which_three_are_taken(rt: HostRuntime) {
    let (mut host, mut board) = link::<128>(rt.alloc()).expect(&rt, "memory");
    assert_eq!(rt; host.store(b'G'), Stored::Stored);
    assert_eq!(rt; host.store(b'0'), Stored::Stored);
    assert_eq!(rt; host.store(b'X'), Stored::Stored);
    assert_eq!(rt; host.store(b'1'), Stored::Stored);
    assert_eq!(rt; host.store(b'2'), Stored::Stored);
    assert_eq!(rt; board.byte(), ByteIn::Byte(b'G'));
    assert_eq!(rt; board.byte(), ByteIn::Byte(b'0'));
    assert_eq!(rt; board.byte(), ByteIn::Byte(b'X'));
    host.mark();
    assert_eq!(rt; host.store(b'M'), Stored::Stored);
    assert_eq!(rt; board.marked(), (1, 5));
    assert_eq!(rt; board.byte(), ByteIn::Byte(b'1'));
    assert_eq!(rt; board.byte(), ByteIn::Byte(b'2'));
    assert_eq!(rt; board.byte(), ByteIn::Byte(b'M'));
    assert_eq!(rt; board.byte(), ByteIn::Empty);
    host.mark();
    assert_eq!(rt; board.marked(), (2, 6));
    join_link(host, board);
}

#[test]
fn closed_comes_behind_the_bytes_of_a_mark(rt: HostRuntime) {
    let (mut host, mut board) = link::<128>(rt.alloc()).expect(&rt, "memory");
    assert_eq!(rt; host.store(b'G'), Stored::Stored);
    assert_eq!(rt; host.store(b'0'), Stored::Stored);
    host.mark();
    host.close();
    assert_eq!(rt; board.marked(), (1, 2));
    assert_eq!(rt; board.byte(), ByteIn::Byte(b'G'));
    assert_eq!(rt; board.byte(), ByteIn::Byte(b'0'));
    assert_eq!(rt; board.byte(), ByteIn::Closed);
    join_link(host, board);
}

/// Greets, stores a mark, and greets again if the mark that is loaded is new, and no byte stands before it.
fn greet_twice(host: &mut HostEnd<128>, board: &mut BoardEnd<128>) -> Result<(), Reply>
    requires none { log_by board.old ≡ [] }
    requires fresh { marks_by host.old ≡ [] }
{
    board.answer(Reply::Banner)?;
    host.mark();
    let (number, bytes) = board.marked();
    if number == 0 || bytes > 0 {
        return Err(Reply::Bye);
    }
    board.answer(Reply::Banner)
}

#[test]
fn second_banner_comes_behind_a_mark(rt: HostRuntime) {
    let (mut host, mut board) = link::<128>(rt.alloc()).expect(&rt, "memory");
    assert!(rt; greet_twice(&mut host, &mut board).is_ok());
    assert!(rt; matches!(host.reply(), Some(Reply::Banner)));
    assert!(rt; matches!(host.reply(), Some(Reply::Banner)));
    assert!(rt; host.reply().is_none());
}

/// Stores bytes until one is dropped, and counts those that were not.
fn fill<R: Wait, const RX: usize>(rt: &R, mut host: HostEnd<RX>) -> (HostEnd<RX>, u32)
    requires { (closed_by host ≡ false) × (stored_by host ≡ []) }
    ensures { (closed_by result.0 ≡ false) × (length (stored_by result.0) ≤ 1000) }
{
    let mut stored = 0_u32;
    for _ in rt.forever() {
        if stored >= 1000 {
            break;
        }
        match host.store(0) {
            Stored::Stored => stored += 1,
            Stored::Dropped => break,
        }
    }
    (host, stored)
}

/// Answers by alarms until one is handed back, and counts those that were not.
fn fill_replies<R: Wait>(rt: &R, mut board: BoardEnd<128>) -> (BoardEnd<128>, u32)
    requires { answered_by board ≡ [] }
{
    let mut answered = 0_u32;
    for _ in rt.forever() {
        if answered >= 1000 {
            break;
        }
        match board.answer(Reply::Alarm(1)) {
            Ok(()) => answered += 1,
            Err(_) => break,
        }
    }
    (board, answered)
}

/// Lets other threads run after so many polls that found nothing.
fn poll(polls: u32) -> u32 {
    if polls % 1024 == 0 {
        thread::yield_now();
    }
    polls.wrapping_add(1)
}

/// Stores a million bytes, and closes.
fn store_all<R: Wait, const RX: usize>(rt: &R, mut host: HostEnd<RX>) -> HostEnd<RX>
    requires { (closed_by host ≡ false) × (stored_by host ≡ []) }
{
    let mut stored = 0_u32;
    let mut polls = 0_u32;
    for _ in rt.forever() {
        if stored >= 1_000_000 {
            break;
        }
        match host.store((stored % 251) as u8) {
            Stored::Stored => stored += 1,
            Stored::Dropped => polls = poll(polls),
        }
    }
    host.close();
    host
}

/// Takes bytes until the link is closed, and counts those that came in their order.
fn take_all<R: Wait, const RX: usize>(rt: &R, mut board: BoardEnd<RX>) -> (BoardEnd<RX>, u32) {
    let mut taken = 0_u32;
    let mut polls = 0_u32;
    for _ in rt.forever() {
        match board.byte() {
            ByteIn::Byte(byte) if byte as u32 == taken % 251 => taken = taken.saturating_add(1),
            ByteIn::Byte(_) => {}
            ByteIn::Empty => polls = poll(polls),
            ByteIn::Closed => break,
        }
    }
    (board, taken)
}

/// Sends a million bytes from one thread to another, and counts those that came in their order.
fn send_all<R: Threads + Wait + Sync, const RX: usize>(
    rt: &R,
    host: HostEnd<RX>,
    board: BoardEnd<RX>,
) -> u32
    requires { (closed_by host ≡ false) × (stored_by host ≡ []) }
{
    let (_host, (_board, taken)) = join(
        rt,
        || -> HostEnd<RX>
            requires { (closed_by host ≡ false) × (stored_by host ≡ []) }
        { store_all(rt, host) },
        || take_all(rt, board),
    );
    taken
}

#[test]
fn million_bytes_in_two_threads(rt: HostRuntime) {
    let (host, board) = link::<128>(rt.alloc()).expect(&rt, "memory");
    assert_eq!(rt; send_all(&rt, host, board), 1_000_000);
}

#[test]
fn million_bytes_over_a_wide_link(rt: HostRuntime) {
    let (host, board) = link::<255>(rt.alloc()).expect(&rt, "memory");
    assert_eq!(rt; send_all(&rt, host, board), 1_000_000);
}

/// Answers a million times by an alarm.
fn answer_all<R: Wait>(rt: &R, mut board: BoardEnd<128>) -> BoardEnd<128>
    requires { answered_by board ≡ [] }
{
    let mut answered = 0_u32;
    let mut polls = 0_u32;
    for _ in rt.forever() {
        if answered >= 1_000_000 {
            break;
        }
        match board.answer(Reply::Alarm(1)) {
            Ok(()) => answered += 1,
            Err(_) => polls = poll(polls),
        }
    }
    board
}

/// Gets a million replies, and counts the alarms among them.
fn get_all<R: Wait>(rt: &R, mut host: HostEnd<128>) -> (HostEnd<128>, u32) {
    let mut got = 0_u32;
    let mut polls = 0_u32;
    for _ in rt.forever() {
        if got >= 1_000_000 {
            break;
        }
        match host.reply() {
            Some(Reply::Alarm(_)) => got = got.saturating_add(1),
            Some(_) => break,
            None => polls = poll(polls),
        }
    }
    (host, got)
}

#[test]
fn million_replies_in_two_threads(rt: HostRuntime) {
    let (host, board) = link::<128>(rt.alloc()).expect(&rt, "memory");
    let (_board, (_host, got)) = join(
        &rt,
        || -> BoardEnd<128>
            requires { answered_by board ≡ [] }
        { answer_all(&rt, board) },
        || get_all(&rt, host),
    );
    assert_eq!(rt; got, 1_000_000);
}
