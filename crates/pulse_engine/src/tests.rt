ghost use Rattle.std.specs.Prelude.{◌≡◌, ◌++◌, [], ◌∷◌, pos, reverse};
ghost use Rattle.step_line.specs.declared.Piece.{Piece};
ghost use Rattle.step_line.specs.Ordering.{InTurn};

use super::*;
use outside::{On, Turn};
use std::marker::Model;
use step_line::{Bits, Head, Mark, Piece, Record, Segment, SpindleCode};
use units::{Move, Steps3};

/// Pieces that are still to be got, in order, and whether a stop waits. A halt drops all of them.
#[derive(Drop)]
struct Tape<'a> {
    rest: &'a [Piece],
    stops: bool,
}

impl PulsePort for Tape<'_> {
    ghost use Rattle.std.specs.Prelude.{◌++◌, reverse};
    ghost use Rattle.step_line.specs.Ordering.{InTurn};
    ghost use Rattle.pulse_engine.specs.Logs.{got_since};

    ghost Rest = { Unit {0} };

    /// All pieces come in turn.
    ghost stands = { λ tape _ h. InTurn (reverse tape.rest.now ++ got_since h) };

    fn stopped(&mut self) -> bool {
        self.stops
    }

    fn halt(&mut self) {
        self.stops = false;
        self.rest = &self.rest[self.rest.len()..];
    }

    #[tactic(auto, using(crate::proofs::Tried::got_next))]
    fn piece(&mut self) -> Option<Piece> {
        match self.rest.split_first() {
            None => None,
            Some((first, rest)) => {
                self.rest = rest;
                Some(*first)
            }
        }
    }

    fn tick_done(&mut self) {}
}

/// Room for one record.
#[derive(Drop)]
struct Room {
    held: Option<Record>,
}

impl TickOut for Room {
    ghost Rest = { Unit {0} };

    ghost stands = { λ _ _ _. Unit {0} };

    fn put(&mut self, r: Record) -> Result<(), Record> {
        if self.held.is_some() {
            return Err(r);
        }
        self.held = Some(r);
        Ok(())
    }
}

/// A pulse between pieces and room for one record.
#[derive(Drop)]
struct Line<'a> {
    pulse: Pulse,
    tape: Tape<'a>,
    room: Room,
}

impl<'a> Model for Line<'a> {
    ghost use Rattle.std.specs.Prelude.{◌++◌, reverse};
    ghost use Rattle.step_line.specs.Ordering.{InTurn};
    ghost use Rattle.pulse_engine.specs.Logs.{PieceLog, RecordLog, got_since};
    ghost use Rattle.pulse_engine.specs.Turns.{PulseFits};

    ghost Value = { Unit {0} };

    ghost view = { λ _. tt };

    ghost invariant = { λ l. (h : PieceLog) × (k : RecordLog) × InTurn (reverse l.tape.rest.now ++ got_since h) × PulseFits l.pulse h k };
}

impl<'a> Line<'a> {
    fn new(pieces: &'a [Piece]) -> Line<'a>
        requires { InTurn (reverse pieces.now) }
    {
        Line {
            pulse: Pulse::new(),
            tape: Tape {
                rest: pieces,
                stops: false,
            },
            room: Room { held: None },
        }
    }

    /// Asks for a halt.
    fn stop(&mut self) {
        self.tape.stops = true;
    }

    /// Turns once, and takes what waits then, if it is to.
    fn step(&mut self, takes: bool) -> (Turn, Option<Record>) {
        let answer = self.pulse.turn(&mut self.tape, &mut self.room);
        if !takes {
            return (answer, None);
        }
        (answer, self.room.held.take())
    }
}

/// Some events of a move from the origin.
fn segment(x: i64, y: i64, first: u32, n: u32) -> Piece
    ensures { result ≡ Piece.Segment (record { line = 7; mv = record { from = record { x = pos 0; y = pos 0; z = pos 0 }; to = record { x = x; y = y; z = pos 0 } }; first = first; n = n; w_in = 40000; w_out = 90000; cycles = 500 }) }
{
    let from = Steps3 { x: 0, y: 0, z: 0 };
    let to = Steps3 { x, y, z: 0 };
    Piece::Segment(Segment {
        line: 7,
        mv: Move { from, to },
        first,
        n,
        w_in: 40_000,
        w_out: 90_000,
        cycles: 500,
    })
}

fn head(n: u32) -> Record {
    Record::Head(Head {
        line: 7,
        n,
        w: 40_000,
        cycles: 500,
    })
}

fn event(x: i8, y: i8) -> Record {
    Record::Event(Bits { x, y, z: 0 })
}

#[test]
fn pieces_are_recorded_in_order(rt: HostRuntime) {
    let mark = Mark::Spindle(SpindleCode::M3, 1000);
    let pieces = [
        segment(3, 2, 0, 2),
        segment(3, 2, 2, 1),
        Piece::Mark(mark),
        Piece::End,
    ];
    let mut line = Line::new(&pieces);
    let got = (Turn::Did, None);
    let counted = got;
    for want in [
        got,
        (Turn::Did, Some(head(2))),
        (Turn::Did, Some(event(1, 1))),
        counted,
        (Turn::Did, Some(event(1, 0))),
        counted,
        got,
        (Turn::Did, Some(head(1))),
        (Turn::Did, Some(event(1, 1))),
        counted,
        got,
        (Turn::Did, Some(Record::Mark(mark))),
        counted,
        got,
        (Turn::Did, Some(Record::End)),
        (Turn::Done, None),
        (Turn::Done, None),
    ] {
        assert_eq!(rt; line.step(true), want);
    }
}

#[test]
fn a_turn_does_one_thing_and_loses_nothing(rt: HostRuntime) {
    let pieces = [segment(2, 0, 0, 2)];
    let mut line = Line::new(&pieces);
    let ahead = event(1, 0);
    for (answer, takes, want) in [
        (Turn::Did, true, None),
        (Turn::Did, false, None),
        (Turn::Wait(On::RecordRoom), false, None),
        (Turn::Wait(On::RecordRoom), true, Some(head(2))),
        (Turn::Did, true, Some(ahead)),
        (Turn::Did, true, None),
        (Turn::Did, false, None),
        (Turn::Did, true, Some(ahead)),
        (Turn::Wait(On::Piece), true, None),
    ] {
        assert_eq!(rt; line.step(takes), (answer, want));
    }
}

#[test]
fn halt_waits_for_the_count_and_drops_what_is_left(rt: HostRuntime) {
    let pieces = [segment(3, 2, 0, 3)];
    let mut line = Line::new(&pieces);
    for want in [
        (Turn::Did, None),
        (Turn::Did, Some(head(3))),
        (Turn::Did, Some(event(1, 1))),
    ] {
        assert_eq!(rt; line.step(true), want);
    }
    line.stop();
    for want in [
        (Turn::Did, None),
        (Turn::Did, None),
        (Turn::Wait(On::Piece), None),
    ] {
        assert_eq!(rt; line.step(true), want);
    }
}
