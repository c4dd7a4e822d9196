//! A pulse that hands out subticks, turn by turn.

ghost use Rattle.std.specs.Prelude.{◌≡◌, ◌++◌, pos, reverse};
ghost use Rattle.step_line.specs.declared.Piece.{Piece};
ghost use Rattle.step_line.specs.Ordering.{InTurn};

use crate::{Pins, SmoothPulse};
use outside::{On, Turn};
use pulse_engine::{PulsePort, TickOut};
use std::marker::Model;
use step_line::{Bits, Head, Piece, Record, Segment};
use units::{Move, Steps3};

/// Pieces that are still to be got, in order, and whether a stop waits. A halt drops all of them.
#[derive(Drop)]
struct Tape<'a> {
    rest: &'a [Piece],
    stops: bool,
}

impl PulsePort for Tape<'_> {
    ghost use Rattle.std.specs.Prelude.{◌++◌, reverse};
    ghost use Rattle.step_line.specs.Ordering.{InTurn};
    ghost use Rattle.pulse_engine.specs.Logs.{got_since};

    ghost Rest = { Unit {0} };

    /// All pieces come in turn.
    ghost stands = { λ tape _ h. InTurn (reverse tape.rest.now ++ got_since h) };

    fn stopped(&mut self) -> bool {
        self.stops
    }

    fn halt(&mut self) {
        self.stops = false;
        self.rest = &self.rest[self.rest.len()..];
    }

    #[tactic(auto, using(pulse_engine::proofs::Tried::got_next))]
    fn piece(&mut self) -> Option<Piece> {
        match self.rest.split_first() {
            None => None,
            Some((first, rest)) => {
                self.rest = rest;
                Some(*first)
            }
        }
    }

    fn tick_done(&mut self) {}
}

/// Room for one record.
#[derive(Drop)]
struct Room {
    held: Option<Record>,
}

impl TickOut for Room {
    ghost Rest = { Unit {0} };

    ghost stands = { λ _ _ _. Unit {0} };

    fn put(&mut self, r: Record) -> Result<(), Record> {
        if self.held.is_some() {
            return Err(r);
        }
        self.held = Some(r);
        Ok(())
    }
}

/// How many subticks came, and the last of them.
#[derive(Drop)]
struct Seen {
    count: u8,
    last: Bits,
}

impl Pins for Seen {
    ghost stands = { λ _ _. Unit {0} };

    fn pins(&mut self, b: Bits) {
        self.count = self.count.wrapping_add(1);
        self.last = b;
    }
}

/// A pulse between pieces, room for one record, and pins.
#[derive(Drop)]
struct Line<'a> {
    pulse: SmoothPulse,
    tape: Tape<'a>,
    room: Room,
    pins: Seen,
}

impl<'a> Model for Line<'a> {
    ghost use Rattle.std.specs.Prelude.{◌++◌, reverse};
    ghost use Rattle.step_line.specs.Ordering.{InTurn};
    ghost use Rattle.pulse_engine.specs.Logs.{PieceLog, RecordLog, got_since};
    ghost use Rattle.smooth_step.specs.Pulses.{SmoothFits};

    ghost Value = { Unit {0} };

    ghost view = { λ _. tt };

    ghost invariant = { λ l. (h : PieceLog) × (k : RecordLog) × InTurn (reverse l.tape.rest.now ++ got_since h) × SmoothFits l.pulse h k };
}

impl<'a> Line<'a> {
    fn new(pieces: &'a [Piece]) -> Line<'a>
        requires { InTurn (reverse pieces.now) }
    {
        Line {
            pulse: SmoothPulse::new(),
            tape: Tape {
                rest: pieces,
                stops: false,
            },
            room: Room { held: None },
            pins: Seen {
                count: 0,
                last: Bits { x: 0, y: 0, z: 0 },
            },
        }
    }

    /// Turns once, and takes what waits then, if it is to. How many subticks came up to then is told besides.
    fn step(&mut self, takes: bool) -> (Turn, Option<Record>, u8) {
        let answer = self
            .pulse
            .turn(&mut self.tape, &mut self.room, &mut self.pins);
        if !takes {
            return (answer, None, self.pins.count);
        }
        (answer, self.room.held.take(), self.pins.count)
    }
}

/// A move of two steps on X and one on Y, at a pace at which an event has two subticks.
fn segment() -> Piece
    ensures { result ≡ Piece.Segment (record { line = 7; mv = record { from = record { x = pos 0; y = pos 0; z = pos 0 }; to = record { x = pos 2; y = pos 1; z = pos 0 } }; first = 0; n = 2; w_in = 40000; w_out = 90000; cycles = 2000 }) }
{
    Piece::Segment(Segment {
        line: 7,
        mv: Move {
            from: Steps3 { x: 0, y: 0, z: 0 },
            to: Steps3 { x: 2, y: 1, z: 0 },
        },
        first: 0,
        n: 2,
        w_in: 40_000,
        w_out: 90_000,
        cycles: 2_000,
    })
}

#[test]
fn subticks_come_once_before_their_event(rt: HostRuntime) {
    let pieces = [segment()];
    let mut line = Line::new(&pieces);
    let head = Record::Head(Head {
        line: 7,
        n: 2,
        w: 40_000,
        cycles: 2_000,
    });
    let first = Record::Event(Bits { x: 1, y: 0, z: 0 });
    let second = Record::Event(Bits { x: 1, y: 1, z: 0 });
    for (takes, want) in [
        (true, (Turn::Did, None, 0)),
        (false, (Turn::Did, None, 0)),
        (false, (Turn::Wait(On::RecordRoom), None, 2)),
        (true, (Turn::Wait(On::RecordRoom), Some(head), 2)),
        (true, (Turn::Did, Some(first), 2)),
        (true, (Turn::Did, None, 2)),
        (true, (Turn::Did, Some(second), 4)),
        (true, (Turn::Did, None, 4)),
        (true, (Turn::Wait(On::Piece), None, 4)),
    ] {
        assert_eq!(rt; line.step(takes), want);
    }
    assert_eq!(rt; line.pins.last, Bits { x: 1, y: 0, z: 0 });
}
