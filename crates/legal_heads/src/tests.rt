//! What is judged legal, and what is not.

ghost use Rattle.std.specs.Prelude.{◌+◌, ◌<◌, nat_abs};
ghost use Rattle.std.specs.List.{All};
ghost use Rattle.step_line.specs.Asking.{IsPlannedMove};
ghost use Rattle.legal_heads.specs.Speeds.{IsOfPlannedMove};

use super::*;
use units::{Limits, Move, Per3, Rate, Steps3};

/// A rapid of a few steps on X and on Y, at 250 steps per mm, 500 mm per minute and 10 mm per s² on each axis, and a
/// deviation of 10 µm.
#[tactic(auto, unfolding(units::specs::Counting::events_of))]
fn rapid(x: i8, y: i8) -> PlannedMove
    requires { 0 < nat_abs x + nat_abs y }
    ensures { IsPlannedMove result }
{
    let each = |n: u32| Per3 { x: n, y: n, z: n };
    PlannedMove {
        line: 1,
        mv: Move {
            from: Steps3 { x: 0, y: 0, z: 0 },
            to: Steps3 {
                x: x as i64,
                y: y as i64,
                z: 0,
            },
        },
        rate: Rate::Rapid,
        limits: Limits {
            per_mm: each(250_000),
            rate: each(500_000),
            accel: each(10_000),
        },
        deviation: 10,
    }
}

/// A head of some events of a move.
fn head(planned: PlannedMove, first: u32, n: u32, w: u64) -> Told
    requires { IsPlannedMove planned }
    ensures { IsOfPlannedMove result }
{
    let head = Head {
        line: planned.line,
        n,
        w,
        cycles: 200_000,
    };
    Told::Head(ToldHead {
        head,
        planned,
        first,
    })
}

/// Whether three heads of one event each, and the end, are legal.
fn three_are_legal(planned: PlannedMove, speeds: [u64; 3]) -> bool
    requires { IsPlannedMove planned }
{
    are_legal(&[
        head(planned, 0, 1, speeds[0]),
        head(planned, 1, 1, speeds[1]),
        head(planned, 2, 1, speeds[2]),
        Told::End,
    ])
}

/// Whether a move of four steps may be left, at a speed of 240,000, for another at some speed.
fn joint_is_legal(a: PlannedMove, b: PlannedMove, w: u64) -> bool
    requires first { IsPlannedMove a }
    requires second { IsPlannedMove b }
{
    are_legal(&[
        head(a, 0, 1, 0),
        head(a, 1, 1, 80_000),
        head(a, 2, 1, 160_000),
        head(a, 3, 1, 240_000),
        head(b, 0, 1, w),
    ])
}

#[test]
fn begins_and_ends_at_rest(rt: HostRuntime) {
    let slanting = rapid(3, 2);
    for (speeds, legal) in [
        ([0, 115_549, 115_549], true),
        ([0, 0, 0], true),
        ([115_549, 115_549, 0], false),
        ([1, 115_549, 115_549], false),
        ([0, 115_550, 115_549], false),
        ([0, 115_549, 115_550], false),
        ([0, 115_549, 231_098], false),
    ] {
        assert_eq!(rt; three_are_legal(slanting, speeds), legal);
    }
}

#[test]
fn takes_corners_slowly(rt: HostRuntime) {
    let right = rapid(4, 0);
    let up = rapid(0, 4);
    for (w, legal) in [(320_000, true), (320_001, false)] {
        assert_eq!(rt; joint_is_legal(right, right, w), legal, "straight on");
    }
    for (w, legal) in [(241_420, true), (241_421, false), (159_999, false)] {
        assert_eq!(rt; joint_is_legal(right, up, w), legal, "round a corner");
    }
}

#[test]
fn stops_to_turn_back(rt: HostRuntime) {
    let there = rapid(1, 0);
    let back = rapid(-1, 0);
    for (w, legal) in [(0, true), (1, false)] {
        let told = [head(there, 0, 1, 0), head(back, 0, 1, w), Told::End];
        assert_eq!(rt; are_legal(&told), legal);
    }
}

#[test]
fn goes_no_faster_than_the_axes(rt: HostRuntime) {
    let long = rapid(100, 0);
    for (w, legal) in [(69_438_889, true), (69_438_890, false)] {
        let told = [head(long, 0, 1000, 0), head(long, 1000, 1000, w)];
        assert_eq!(rt; are_legal(&told), legal);
    }
}

#[test]
fn stands_at_each_mark(rt: HostRuntime) {
    let right = rapid(4, 0);
    let dwell = Told::Mark(Mark::Dwell(1));
    let rests = [head(right, 0, 4, 0), dwell, head(right, 0, 4, 0), Told::End];
    assert!(rt; are_legal(&rests));
    let runs_on = [head(right, 0, 4, 0), dwell, head(right, 0, 4, 1)];
    assert!(rt; !are_legal(&runs_on));
    let runs_into = [head(right, 0, 4, 0), head(right, 4, 0, 1), dwell];
    assert!(rt; !are_legal(&runs_into));
}

#[test]
fn leaves_out_no_event(rt: HostRuntime) {
    let right = rapid(4, 0);
    for (first, legal) in [(0, false), (1, false), (2, true), (3, false)] {
        let told = [head(right, 0, 2, 0), head(right, first, 2, 80_000)];
        assert_eq!(rt; are_legal(&told), legal, "from event {first}");
    }
    assert!(rt; !are_legal(&[head(right, 1, 1, 0)]));
}

/// Behind some of a move's 100 events no other move may begin, and no stretch may end but by a cut.
#[test]
fn leaves_no_move_before_its_end(rt: HostRuntime) {
    let long = rapid(100, 0);
    let other = head(rapid(4, 0), 0, 4, 0);
    for (n, legal) in [(1, false), (99, false), (100, true)] {
        let ran = head(long, 0, n, 0);
        for next in [other, Told::Mark(Mark::Dwell(1)), Told::End] {
            assert_eq!(rt; are_legal(&[ran, next]), legal, "behind {n} events");
        }
        assert!(rt; are_legal(&[ran, Told::Mark(Mark::Cut(1)), other]));
    }
}
