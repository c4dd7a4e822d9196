//! The moves that are measured.

ghost use Rattle.std.specs.Prelude.{◌≤◌, nat_abs};
ghost use Rattle.units.specs.Lengths.{IsCoordinate, IsPlace, IsMove};

use units::{Move, Steps3};

/// The cosine of each 5 degrees, in thousandths.
const COSINES: [i64; 72] = [
    1000, 996, 985, 966, 940, 906, 866, 819, 766, 707, 643, 574, 500, 423, 342, 259, 174, 87, 0,
    -87, -174, -259, -342, -423, -500, -574, -643, -707, -766, -819, -866, -906, -940, -966, -985,
    -996, -1000, -996, -985, -966, -940, -906, -866, -819, -766, -707, -643, -574, -500, -423,
    -342, -259, -174, -87, 0, 87, 174, 259, 342, 423, 500, 574, 643, 707, 766, 819, 866, 906, 940,
    966, 985, 996,
];

/// The most steps of a move on an axis.
const FAR: i64 = 100_000;

/// Which moves are made.
#[derive(Clone, Copy)]
pub(crate) enum Kind {
    /// Of one to three steps.
    Short,
    /// Of 29 to 60 steps, each in another direction: curves to the left and to the right.
    Chords,
    /// Of 100,000 steps, forth and back.
    Long,
}

/// How far a move goes on an axis, along a direction.
fn share(length: i64, entry: usize) -> i64 {
    let thousandths = length.wrapping_mul(COSINES[entry % 72]);
    thousandths.wrapping_add(500).div_euclid(1000)
}

/// How far the i-th move of a kind goes on the axes X and Y.
fn way(kind: Kind, i: u64) -> (i64, i64) {
    let round = (i % 1_000_000) as i64;
    match kind {
        Kind::Short => {
            let x = 1 + round % 3;
            let y = if round % 5 == 0 { 1 - round % 2 * 2 } else { 0 };
            (if round / 1000 % 2 == 0 { x } else { -x }, y)
        }
        Kind::Chords => {
            let place = round % 120;
            let turned = place.min(120 - place) as usize;
            let entry = turned + turned / 3;
            let length = 29 + 7 * round % 32;
            (share(length, entry), share(length, entry + 54))
        }
        Kind::Long => (if round % 2 == 0 { FAR } else { -FAR }, 3),
    }
}

/// A place on an axis, some steps on.
fn on(place: i64, steps: i64) -> i64
    requires { IsCoordinate place }
    ensures { IsCoordinate result }
{
    (place + steps.clamp(-FAR, FAR)).clamp(-100_000_000, 100_000_000)
}

/// The i-th move of a kind, from a place on.
pub(crate) fn next_move(kind: Kind, i: u64, from: Steps3) -> Move
    requires { IsPlace from }
    ensures { IsMove result }
{
    let (x, y) = way(kind, i);
    Move {
        from,
        to: Steps3 {
            x: on(from.x, x),
            y: on(from.y, y),
            z: from.z,
        },
    }
}
