//! Worked rows: pieces that are published, ticks that are found done, and where the machine is then.

ghost use Rattle.std.specs.Prelude.{◌≡◌, true};
ghost use Rattle.units.specs.Lengths.{IsPlace};
ghost use Rattle.step_line.specs.Pieces.{IsTraceable};
ghost use Rattle.flight.specs.Flights.{IsFit};

use super::*;
use step_line::{Mark, Piece, Segment, SpindleCode, events};
use units::{Move, Steps3};

fn at(x: i64, y: i64, z: i64) -> Steps3 {
    Steps3 { x, y, z }
}

/// The n events after the first of a move.
fn part(from: Steps3, to: Steps3, first: u32, n: u32) -> Piece {
    Piece::Segment(Segment {
        line: 1,
        mv: Move { from, to },
        first,
        n,
        w_in: 0,
        w_out: 0,
        cycles: 226_000,
    })
}

fn is_place(place: &Steps3) -> bool
    ensures { result ≡ true → IsPlace place.now }
{
    place.x.unsigned_abs() <= 100_000_000
        && place.y.unsigned_abs() <= 100_000_000
        && place.z.unsigned_abs() <= 100_000_000
}

fn is_traceable(segment: Segment) -> bool
    ensures { result ≡ true → IsTraceable segment }
{
    if segment.line == 0 || segment.n == 0 {
        return false;
    }
    if !is_place(&segment.mv.from) || !is_place(&segment.mv.to) {
        return false;
    }
    segment.first as u64 + segment.n as u64 <= events(&segment.mv) as u64
}

fn is_fit(piece: Piece) -> bool
    ensures { result ≡ true → IsFit piece }
{
    match piece {
        Piece::Segment(segment) => is_traceable(segment),
        Piece::Mark(_) | Piece::End => true,
    }
}

/// Publishes a piece, if there is room for it.
fn publish(flight: &mut Flight, piece: Piece) -> bool {
    let fits = is_fit(piece) && !flight.is_full();
    if fits {
        flight.push(piece);
    }
    fits
}

/// 250 steps to the right, in three parts with a dwell before the last; then to the left and up at once.
fn pieces() -> [Piece; 5] {
    let corner = at(250, 0, 0);
    [
        part(at(0, 0, 0), corner, 0, 100),
        part(at(0, 0, 0), corner, 100, 140),
        Piece::Mark(Mark::Dwell(500)),
        part(at(0, 0, 0), corner, 240, 10),
        part(corner, at(246, 2, 0), 0, 4),
    ]
}

#[test]
fn knows_the_place_after_each_tick(rt: HostRuntime) {
    for (done, x, y, all) in [
        (0u64, 0i64, 0i64, false),
        (1, 1, 0, false),
        (99, 99, 0, false),
        (100, 100, 0, false),
        (101, 101, 0, false),
        (240, 240, 0, false),
        (241, 240, 0, false),
        (242, 241, 0, false),
        (251, 250, 0, false),
        (252, 249, 0, false),
        (253, 248, 1, false),
        (254, 247, 1, false),
        (255, 246, 2, true),
        (400, 246, 2, true),
    ] {
        let mut flight = Flight::new();
        for piece in pieces() {
            assert!(rt; publish(&mut flight, piece));
        }
        assert!(rt; !flight.is_done());
        flight.learn(done);
        assert_eq!(rt; flight.place(), at(x, y, 0), "after {done}");
        assert_eq!(rt; flight.is_done(), all, "after {done}");
    }
}

#[test]
fn has_room_again_once_a_piece_is_done(rt: HostRuntime) {
    let mut flight = Flight::new();
    assert_eq!(rt; flight.place(), at(0, 0, 0));
    assert!(rt; flight.is_done());
    for k in 0..6u32 {
        assert!(rt; publish(&mut flight, part(at(0, 0, 0), at(0, 0, -60), 10 * k, 10)));
    }
    assert!(rt; flight.is_full());
    for (done, full, z) in [(9u64, true, -9i64), (10, false, -10), (3, false, -10)] {
        flight.learn(done);
        assert_eq!(rt; flight.is_full(), full, "after {done}");
        assert_eq!(rt; flight.place(), at(0, 0, z), "after {done}");
    }
    assert!(rt; publish(&mut flight, Piece::Mark(Mark::Spindle(SpindleCode::M5, 0))));
    assert!(rt; flight.is_full());
    flight.learn(60);
    assert!(rt; !flight.is_done());
    flight.learn(61);
    assert!(rt; flight.is_done());
    assert!(rt; publish(&mut flight, Piece::End));
    assert!(rt; flight.is_done());
    assert_eq!(rt; flight.place(), at(0, 0, -60));
}
