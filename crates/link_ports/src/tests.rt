//! What fresh ports take, and a host and a board in two threads.

ghost use Rattle.std.specs.Prelude.{◌≡◌, ◌+◌, ◌<◌, ◌≤◌, true, false, OnOk, OnErr, IfOk, OnSome, IfNone, ℕ};
ghost use Rattle.motion_ring.specs.Ends.{left_in};
ghost use Rattle.status_report.specs.Answering.{is_answer, is_banner};
ghost use Rattle.status_report.specs.Replies.{IsReply};
ghost use Rattle.link_ports.specs.Standing.{IsOpenBehind, OwesAnswers, HasPublished, AwaitsHalt};

use super::*;
use bitflags::Flags;
use board_journal::BoardPort;
use code_table::Exec;
use host_journal::HostPort;
use motion_ring::{SegIn, motion};
use outside::OutOfMemory;
use realtime_flags::flag_table;
use serial_ring::{ByteIn, Stored, link};
use status_report::Reply;
use std::alloc::Global;
use std::process::Abort;
use std::sync::Wait;
use std::thread::{self, join};
use step_line::{Mark, Piece};

/// Both ports over fresh tables, and the pulse's end of the ring.
fn fresh_ports(alloc: Global) -> Result<(HostLink<128>, BoardLink<128>, SegIn), OutOfMemory>
    ensures host { IfOk result (λ r. IsOpenBehind 0 r.0) }
    ensures board { IfOk result (λ r. OwesAnswers 0 0 r.1) }
    ensures pieces { IfOk result (λ r. HasPublished 0 r.1) }
    ensures idle { IfOk result (λ r. left_in r.2 ≡ 0) }
{
    let (end, other) = link::<128>(alloc)?;
    let (flags, taker) = flag_table(alloc)?;
    let (pieces, into) = motion(alloc)?;
    let host = HostLink { end, flags };
    let board = BoardLink {
        end: other,
        flags: taker,
        pieces,
    };
    Ok((host, board, into))
}

/// Stores a byte behind so many.
fn store(host: &mut HostLink<128>, stored: u32, byte: u8) -> Stored
    requires few { stored < 2000000000 }
    requires open { IsOpenBehind stored host.old }
    ensures stored { result ≡ Stored.Stored → IsOpenBehind (stored + 1) host.new }
    ensures dropped { result ≡ Stored.Dropped → IsOpenBehind stored host.new }
{
    host.store(byte)
}

/// Asks for a hold behind so many bytes.
fn hold(host: &mut HostLink<128>, stored: u32)
    requires { IsOpenBehind stored host.old }
    ensures { IsOpenBehind stored host.new }
{
    host.raise(b'!');
}

/// Stores a mark behind so many bytes.
fn mark(host: &mut HostLink<128>, stored: u32)
    requires { IsOpenBehind stored host.old }
{
    host.mark();
}

/// Closes the link behind so many bytes.
fn close(host: &mut HostLink<128>, stored: u32)
    requires { IsOpenBehind stored host.old }
{
    host.close();
}

/// The next reply, where one is there.
fn reply(host: &mut HostLink<128>) -> Option<Reply>
    ensures { (n : ℕ) → IsOpenBehind n host.old → IsOpenBehind n host.new }
{
    host.reply()
}

/// The next byte, where one is there.
fn byte(board: &mut BoardLink<128>) -> ByteIn
    ensures line { result ≡ ByteIn.Byte 10 → (n : ℕ) → OwesAnswers 0 n board.old → OwesAnswers 1 n board.new }
    ensures other { (n : ℕ) → OwesAnswers 0 n board.old → OwesAnswers 0 n board.new }
{
    board.byte()
}

/// The requests that stood.
fn requests(board: &mut BoardLink<128>) -> Exec
    ensures { (owed n : ℕ) → OwesAnswers owed n board.old → OwesAnswers owed n board.new }
{
    board.take_exec()
}

/// Answers a line behind so many replies.
fn answer_line(board: &mut BoardLink<128>, answered: u32) -> Result<(), Reply>
    requires { OwesAnswers 1 answered board.old }
    ensures ok { OnOk result (OwesAnswers 0 (answered + 1) board.new) }
    ensures full { OnErr result (OwesAnswers 1 answered board.new × OwesAnswers 0 answered board.new) }
{
    board.answer(Reply::Ok)
}

/// Tells something else behind so many replies.
fn tell(board: &mut BoardLink<128>, answered: u32, reply: Reply) -> Result<(), Reply>
    requires owes { OwesAnswers 0 answered board.old }
    requires other { IsReply reply × (is_answer reply ≡ false) × (is_banner reply ≡ false) }
    ensures ok { OnOk result (OwesAnswers 0 (answered + 1) board.new) }
    ensures full { OnErr result (OwesAnswers 0 answered board.new) }
{
    board.answer(reply)
}

/// Publishes a mark behind so many ticks.
fn publish(board: &mut BoardLink<128>, ticks: u32) -> Result<(), Piece>
    requires { HasPublished ticks board.old }
    ensures ok { OnOk result (HasPublished (ticks + 1) board.new) }
    ensures full { OnErr result (HasPublished ticks board.new) }
{
    board.publish(Piece::Mark(Mark::Dwell(1)))
}

/// Stores bytes until one is dropped, and counts those that were not.
fn fill(host: &mut HostLink<128>) -> u32
    requires { IsOpenBehind 0 host.old }
    ensures { IsOpenBehind result host.new × (result ≤ 1000) }
{
    let mut stored = 0_u32;
    for _ in 0..1000_u32 {
        match store(host, stored, b'G') {
            Stored::Stored => stored += 1,
            Stored::Dropped => break,
        }
    }
    stored
}

/// Tells alarms until one is handed back, and counts those that were not.
fn fill_replies(board: &mut BoardLink<128>) -> u32
    requires { OwesAnswers 0 0 board.old }
{
    let mut answered = 0_u32;
    for _ in 0..1000_u32 {
        match tell(board, answered, Reply::Alarm(1)) {
            Ok(()) => answered += 1,
            Err(_) => break,
        }
    }
    answered
}

/// Publishes a mark behind so many ticks, and tells the pulse to stop behind it. Whether there was room.
fn publish_and_stop(board: &mut BoardLink<128>, ticks: u32) -> bool
    requires { HasPublished ticks board.old }
    ensures { result ≡ true → AwaitsHalt (ticks + 1) board.new }
{
    match board.publish(Piece::Mark(Mark::Dwell(1))) {
        Ok(()) => {
            board.stop();
            true
        }
        Err(_) => false,
    }
}

/// Looks for the halt of the stop that waits.
fn look(board: &mut BoardLink<128>, ticks: u32) -> Option<u64>
    requires { AwaitsHalt ticks board.old }
    ensures some { OnSome result (HasPublished ticks board.new) }
    ensures none { IfNone result (AwaitsHalt ticks board.new) }
{
    board.halted()
}

/// Publishes marks behind so many ticks until one is handed back, and counts those that were not.
fn fill_pieces(board: &mut BoardLink<128>, ticks: u32) -> u32
    requires few { ticks < 1000 }
    requires published { HasPublished ticks board.old }
{
    let mut published = 0_u32;
    for _ in 0..1000_u32 {
        match publish(board, ticks + published) {
            Ok(()) => published += 1,
            Err(_) => break,
        }
    }
    published
}

#[test]
fn fresh_link_has_room_for_128_bytes(rt: HostRuntime) {
    let (mut host, mut board, _into) = fresh_ports(rt.alloc()).expect(&rt, "memory");
    assert_eq!(rt; board.byte(), ByteIn::Empty);
    let stored = fill(&mut host);
    assert_eq!(rt; stored, 128);
    assert_eq!(rt; board.free(), 0);
    assert_eq!(rt; board.byte(), ByteIn::Byte(b'G'));
    assert_eq!(rt; board.free(), 1);
    assert_eq!(rt; store(&mut host, stored, b'X'), Stored::Stored);
}

#[test]
fn mark_tells_how_many_bytes_are_before_it(rt: HostRuntime) {
    let (mut host, mut board, _into) = fresh_ports(rt.alloc()).expect(&rt, "memory");
    assert_eq!(rt; board.marked(), (0, 0));
    let stored = fill(&mut host);
    mark(&mut host, stored);
    assert_eq!(rt; board.marked(), (1, 128));
    assert_eq!(rt; board.byte(), ByteIn::Byte(b'G'));
    assert_eq!(rt; board.marked(), (1, 128));
}

#[test]
fn fresh_link_has_room_for_16_replies(rt: HostRuntime) {
    let (mut host, mut board, _into) = fresh_ports(rt.alloc()).expect(&rt, "memory");
    assert_eq!(rt; host.reply(), None);
    assert_eq!(rt; fill_replies(&mut board), 16);
    assert_eq!(rt; host.reply(), Some(Reply::Alarm(1)));
}

#[test]
fn fresh_ring_has_room_for_five_marks(rt: HostRuntime) {
    let (_host, mut board, _into) = fresh_ports(rt.alloc()).expect(&rt, "memory");
    assert_eq!(rt; fill_pieces(&mut board, 0), 5);
    assert_eq!(rt; board.done(), 0);
}

/// Of two marks one is traced before a stop, and the other dropped by its halt; then there is room for five more.
#[test]
fn board_that_was_halted_publishes_again(rt: HostRuntime) {
    let (_host, mut board, mut into) = fresh_ports(rt.alloc()).expect(&rt, "memory");
    let Ok(()) = publish(&mut board, 0) else {
        panic!(rt; "no room for a piece");
    };
    if !publish_and_stop(&mut board, 1) {
        panic!(rt; "no room for a second piece");
    }
    let None = look(&mut board, 2) else {
        panic!(rt; "a halt that was not stored");
    };
    let Some(Piece::Mark(_)) = into.piece() else {
        panic!(rt; "no mark");
    };
    into.tick_done();
    let None = look(&mut board, 2) else {
        panic!(rt; "a halt before all was dropped");
    };
    if !into.stopped() {
        panic!(rt; "no stop");
    }
    into.halt();
    let Some(done) = look(&mut board, 2) else {
        panic!(rt; "no halt");
    };
    assert_eq!(rt; done, 1);
    assert!(rt; !into.stopped());
    assert_eq!(rt; fill_pieces(&mut board, 2), 5);
    assert_eq!(rt; board.done(), 1);
}

/// Makes the ports where memory suffices.
#[test]
fn refused_memory_is_told(rt: HostRuntime) {
    if let Ok((mut host, mut board, _into)) = fresh_ports(rt.alloc()) {
        assert_eq!(rt; host.reply(), None);
        assert_eq!(rt; board.byte(), ByteIn::Empty);
    }
}

/// Lets other threads run after so many polls that found nothing.
fn poll(polls: u32) -> u32 {
    if polls % 1024 == 0 {
        thread::yield_now();
    }
    polls.wrapping_add(1)
}

/// Stores a million bytes, asks for a hold with every tenth, which ends a line, and closes. Counts the answers
/// meanwhile.
fn store_all<R: Wait>(rt: &R, host: &mut HostLink<128>) -> u32
    requires { IsOpenBehind 0 host.old }
{
    let mut stored = 0_u32;
    let mut answers = 0_u32;
    let mut polls = 0_u32;
    for _ in rt.forever() {
        if stored >= 1_000_000 {
            break;
        }
        let last = stored % 10 == 9;
        match store(host, stored, if last { b'\n' } else { b'G' }) {
            Stored::Stored => {
                stored += 1;
                if last {
                    hold(host, stored);
                }
            }
            Stored::Dropped => polls = poll(polls),
        }
        if reply(host) == Some(Reply::Ok) {
            answers = answers.saturating_add(1);
        }
    }
    close(host, stored);
    answers
}

/// Counts answers until Bye.
fn get_all<R: Wait>(rt: &R, host: &mut HostLink<128>) -> u32 {
    let mut answers = 0_u32;
    let mut polls = 0_u32;
    for _ in rt.forever() {
        match host.reply() {
            Some(Reply::Ok) => answers = answers.saturating_add(1),
            Some(_) => break,
            None => polls = poll(polls),
        }
    }
    answers
}

/// A host that runs alone.
fn run_host<R: Wait>(rt: &R, mut host: HostLink<128>) -> (HostLink<128>, u32)
    requires { IsOpenBehind 0 host }
{
    let meanwhile = store_all(rt, &mut host);
    let answers = meanwhile.saturating_add(get_all(rt, &mut host));
    (host, answers)
}

/// What a board counts.
#[derive(Clone, Copy, Debug, PartialEq, Eq)]
struct Counts {
    taken: u32,
    answered: u32,
    holds: u32,
}

/// Takes bytes until the link is closed, and answers each line.
fn answer_all<R: Wait>(rt: &R, board: &mut BoardLink<128>) -> Counts
    requires { OwesAnswers 0 0 board.old }
    ensures { OwesAnswers 0 result.answered board.new × (result.answered ≤ 2000000) }
{
    let mut counts = Counts {
        taken: 0,
        answered: 0,
        holds: 0,
    };
    let mut owes = false;
    let mut polls = 0_u32;
    for _ in rt.forever() {
        if counts.answered >= 2_000_000 {
            break;
        }
        if requests(board).contains(Exec::HOLD) {
            counts.holds = counts.holds.saturating_add(1);
        }
        if owes {
            match answer_line(board, counts.answered) {
                Ok(()) => {
                    counts.answered += 1;
                    owes = false;
                }
                Err(_) => polls = poll(polls),
            }
            continue;
        }
        match byte(board) {
            ByteIn::Byte(b) => {
                counts.taken = counts.taken.saturating_add(1);
                owes = b == b'\n';
            }
            ByteIn::Empty => polls = poll(polls),
            ByteIn::Closed => break,
        }
    }
    counts
}

/// Says Bye as soon as there is room, behind so many replies.
fn say_bye<R: Wait>(rt: &R, board: &mut BoardLink<128>, answered: u32)
    requires { OwesAnswers 0 answered board.old }
{
    let mut polls = 0_u32;
    for _ in rt.forever() {
        match tell(board, answered, Reply::Bye) {
            Ok(()) => break,
            Err(_) => polls = poll(polls),
        }
    }
}

/// A board that runs alone.
fn run_board<R: Wait>(rt: &R, mut board: BoardLink<128>) -> (BoardLink<128>, Counts)
    requires { OwesAnswers 0 0 board }
{
    let counts = answer_all(rt, &mut board);
    say_bye(rt, &mut board, counts.answered);
    (board, counts)
}

#[test]
fn million_bytes_from_host_to_board(rt: HostRuntime) {
    let (host, board, _into) = fresh_ports(rt.alloc()).expect(&rt, "memory");
    let ((_host, answers), (mut board, counts)) = join(
        &rt,
        || -> (HostLink<128>, u32)
            requires { IsOpenBehind 0 host }
        { run_host(&rt, host) },
        || -> (BoardLink<128>, Counts)
            requires { OwesAnswers 0 0 board }
        { run_board(&rt, board) },
    );
    assert_eq!(rt; counts.taken, 1_000_000);
    assert_eq!(rt; counts.answered, 100_000);
    assert_eq!(rt; answers, 100_000);
    assert_eq!(rt; board.byte(), ByteIn::Closed);
    let last = if board.take_exec().contains(Exec::HOLD) {
        1
    } else {
        0
    };
    let holds = counts.holds.saturating_add(last);
    assert!(rt; 1 <= holds && holds <= 100_000);
}
