//! Rows of calls on fresh lists, and records in memory.

ghost use Rattle.std.specs.Prelude.{[]};
ghost use Rattle.step_line.specs.Records.{IsRecord};
ghost use Rattle.run_core.specs.Joining.{Joined};

use bitflags::Flags;
use board_journal::BoardPort;
use pulse_engine::{PulsePort, TickOut};
use realtime_flags::Raised;
use run_core::{Lists, RECEIVE_ROOM, Records};
use serial_ring::{ByteIn, Stored};
use status_report::Reply;
use std::alloc::Global;
use std::process::Abort;
use step_line::{Mark, Piece, Record};
use step_record::RecordIn;
use stream_host::HostPort;

/// Lists in which nothing is on its way.
fn fresh<R: Abort>(rt: &R, alloc: Global) -> Lists<RECEIVE_ROOM>
    ensures { Joined result [] [] [] }
{
    Lists::new(alloc).expect(rt, "memory")
}

#[test]
fn byte_goes_from_host_to_board(rt: HostRuntime) {
    let mut lists = fresh(&rt, rt.alloc());
    assert_eq!(rt; lists.store(b'G'), Stored::Stored);
    assert_eq!(rt; lists.free(), 127);
    assert_eq!(rt; lists.byte(), ByteIn::Byte(b'G'));
    assert_eq!(rt; lists.byte(), ByteIn::Empty);
    assert_eq!(rt; lists.free(), 128);
}

#[test]
fn closed_link_is_found_closed(rt: HostRuntime) {
    let mut lists = fresh(&rt, rt.alloc());
    lists.close();
    assert_eq!(rt; lists.byte(), ByteIn::Closed);
}

#[test]
fn greeting_goes_from_board_to_host(rt: HostRuntime) {
    let mut lists = fresh(&rt, rt.alloc());
    assert_eq!(rt; lists.answer(Reply::Banner), Ok(()));
    assert_eq!(rt; lists.reply(), Some(Reply::Banner));
    assert_eq!(rt; lists.reply(), None);
}

#[test]
fn mark_goes_from_host_to_board(rt: HostRuntime) {
    let mut lists = fresh(&rt, rt.alloc());
    lists.mark();
    assert_eq!(rt; lists.marked(), (1, 0));
}

/// A byte, what it raises, and the flags of both words that are up then.
const RAISED: &[(u8, Raised, u8, u16)] = &[
    (b'?', Raised::Exec, 1, 0),
    (b'!', Raised::Exec, 2, 0),
    (b'~', Raised::Exec, 4, 0),
    (0x18, Raised::Exec, 8, 0),
    (0x85, Raised::Exec, 16, 0),
    (0x90, Raised::Override, 0, 1),
    (0x95, Raised::Override, 0, 32),
    (0x9D, Raised::Override, 0, 4096),
    (0x98, Raised::Ignored, 0, 0),
    (0x84, Raised::Ignored, 0, 0),
    (b'G', Raised::Plain, 0, 0),
];

#[test]
fn bytes_raise_their_flags(rt: HostRuntime) {
    for (byte, raised, exec, overrides) in RAISED {
        let mut lists = fresh(&rt, rt.alloc());
        assert_eq!(rt; lists.raise(*byte), *raised);
        assert_eq!(rt; lists.take_exec().bits(), *exec);
        assert_eq!(rt; lists.take_override().bits(), *overrides);
        assert_eq!(rt; lists.take_exec().bits(), 0);
        assert_eq!(rt; lists.take_override().bits(), 0);
    }
}

#[test]
fn mark_goes_from_board_to_pulse(rt: HostRuntime) {
    let mut lists = fresh(&rt, rt.alloc());
    let mark = Piece::Mark(Mark::Dwell(1));
    let Ok(()) = lists.publish(mark) else {
        panic!(rt; "no room for a piece");
    };
    let Some(piece) = lists.piece() else {
        panic!(rt; "no piece");
    };
    assert_eq!(rt; piece, mark);
    if let Piece::Mark(_) = piece {
        lists.tick_done();
    }
    assert_eq!(rt; lists.done(), 1);
}

/// A record that is told from others by its number.
fn dwell(number: u64) -> Record
    ensures { IsRecord result }
{
    Record::Mark(Mark::Dwell(number))
}

#[test]
fn thousand_records_wait_and_come_in_order(rt: HostRuntime) {
    let mut records = Records::new(rt.alloc()).expect(&rt, "memory");
    assert_eq!(rt; records.take(), None);
    for number in 0..1024 {
        assert_eq!(rt; records.put(dwell(number)), Ok(()));
    }
    assert_eq!(rt; records.put(dwell(1024)), Err(dwell(1024)));
    assert_eq!(rt; records.take(), Some(dwell(0)));
    assert_eq!(rt; records.put(dwell(1024)), Ok(()));
    assert_eq!(rt; records.put(Record::End), Err(Record::End));
    for number in 1..1025 {
        assert_eq!(rt; records.take(), Some(dwell(number)));
    }
    assert_eq!(rt; records.take(), None);
}
