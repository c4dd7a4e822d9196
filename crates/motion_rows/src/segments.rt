//! Worked segments.

ghost use Rattle.std.specs.Prelude.{◌≡◌};
ghost use Rattle.units.specs.Lengths.{IsCoordinate};
ghost use Rattle.units.specs.Limits.{IsRate};
ghost use Rattle.overrides.specs.Percents.{normal_overrides};

use crate::fixtures::add;
use overrides::Overrides;
use plan_passes::Plan;
use segment_prep::{Mode, next_segment};
use std::process::Abort;
use step_line::Segment;
use units::{Move, Rate, Steps3};

/// The square of 8333 µm/s, the rapid speed of an axis that may go 500 mm per minute.
const RAPID: u64 = 69_438_889;

/// The first event of a segment, how many it has, the squared speeds before and after, and the cycles of its pace.
type Numbers = (u32, u32, u64, u64, u64);

/// A segment of line 1, of a move of so many steps along X, or none.
fn part(x: i64, numbers: Option<Numbers>) -> Option<Segment> {
    let (first, n, w_in, w_out, cycles) = numbers?;
    Some(Segment {
        line: 1,
        mv: Move {
            from: Steps3 { x: 0, y: 0, z: 0 },
            to: Steps3 { x, y: 0, z: 0 },
        },
        first,
        n,
        w_in,
        w_out,
        cycles,
    })
}

/// Takes segments in a mode until none is given, but no more than so many. Each goes on where the one before it ended;
/// how many events there are up to the last one's end is answered.
fn run(rt: &impl Abort, plan: &mut Plan<16>, mode: Mode, first: u32, most: u32) -> u32
    requires { plan.old.overrides ≡ normal_overrides }
    ensures { plan.new.overrides ≡ normal_overrides }
{
    let overrides = Overrides::normal();
    let mut done = first;
    for _ in 0..most {
        let w = plan.speed();
        let Some(s) = next_segment(plan, &overrides, mode) else {
            break;
        };
        assert_eq!(rt; s.first, done);
        assert_eq!(rt; s.w_in, w);
        assert!(rt; s.w_out <= RAPID);
        done = s.first.saturating_add(s.n);
    }
    done
}

/// Takes segments of a move of so many steps along X in these modes, and expects these.
fn expect_segments(rt: &impl Abort, plan: &mut Plan<16>, x: i64, wanted: &[(Mode, Option<Numbers>)])
    requires { plan.old.overrides ≡ normal_overrides }
{
    let overrides = Overrides::normal();
    for (mode, numbers) in wanted {
        let segment = next_segment(plan, &overrides, *mode);
        assert_eq!(rt; segment, part(x, *numbers));
    }
}

const HELD: &[(Mode, Option<Numbers>)] = &[
    (Mode::Go, Some((0, 1, 0, 80_000, 226_951))),
    (Mode::Hold, Some((1, 1, 80_000, 0, 226_951))),
    (Mode::Hold, None),
];

#[test]
fn goes_and_holds(rt: HostRuntime) {
    let mut plan = Plan::<16>::new();
    add(&rt, &mut plan, Rate::Rapid, 250, 0);
    expect_segments(&rt, &mut plan, 250, HELD);
    assert_eq!(rt; plan.len(), 1);
}

const ONE_STEP: &[(Mode, Option<Numbers>)] = &[
    (Mode::Go, Some((0, 1, 0, 0, 320_000))),
    (Mode::Go, None),
];

const THREE_STEPS: &[(Mode, Option<Numbers>)] = &[
    (Mode::Go, Some((0, 1, 0, 80_000, 226_951))),
    (Mode::Go, Some((1, 1, 80_000, 80_000, 184_972))),
    (Mode::Go, Some((2, 1, 80_000, 0, 226_951))),
    (Mode::Hold, None),
];

#[test]
fn takes_short_moves_step_by_step(rt: HostRuntime) {
    for (steps, wanted) in [(1u32, ONE_STEP), (3, THREE_STEPS)] {
        let mut plan = Plan::<16>::new();
        add(&rt, &mut plan, Rate::Jog(500_000_000), steps as i64, 0);
        expect_segments(&rt, &mut plan, steps as i64, wanted);
        assert_eq!(rt; plan.len(), 0);
    }
}

/// A move of so many steps along X goes from rest to rest.
fn expect_whole_move(rt: &impl Abort, rate: Rate, steps: i64)
    requires rate { IsRate rate }
    requires steps { IsCoordinate steps }
{
    let mut plan = Plan::<16>::new();
    add(rt, &mut plan, rate, steps, 0);
    let done = run(rt, &mut plan, Mode::Go, 0, 30_000);
    assert_eq!(rt; done as i64, steps);
    assert_eq!(rt; plan.len(), 0);
    assert_eq!(rt; plan.speed(), 0);
}

#[test]
fn runs_whole_moves_from_rest_to_rest(rt: HostRuntime) {
    for steps in [1i64, 2, 3, 10, 250, 2_500, 25_000] {
        expect_whole_move(&rt, Rate::Rapid, steps);
        expect_whole_move(&rt, Rate::Feed(300_000_000), steps);
        expect_whole_move(&rt, Rate::Jog(0), steps);
        expect_whole_move(&rt, Rate::Feed(9_000_000_000), steps);
    }
}

#[test]
fn stops_on_the_way_and_goes_on(rt: HostRuntime) {
    let mut plan = Plan::<16>::new();
    add(&rt, &mut plan, Rate::Rapid, 25_000, 0);
    let fast = run(&rt, &mut plan, Mode::Go, 0, 400);
    assert_eq!(rt; plan.speed(), RAPID);
    let stopped = run(&rt, &mut plan, Mode::Hold, fast, 1_000);
    assert!(rt; fast < stopped);
    assert_eq!(rt; plan.speed(), 0);
    assert_eq!(rt; plan.len(), 1);
    let done = run(&rt, &mut plan, Mode::Go, stopped, 2_000);
    assert_eq!(rt; done, 25_000);
}

#[test]
fn slows_down_where_overrides_fall(rt: HostRuntime) {
    let mut plan = Plan::<16>::new();
    add(&rt, &mut plan, Rate::Rapid, 25_000, 0);
    let fast = run(&rt, &mut plan, Mode::Go, 0, 400);
    let slower = Overrides {
        feed: 100,
        rapid: 25,
        spindle: 100,
    };
    plan.replan(&slower);
    let slowing = next_segment(&mut plan, &slower, Mode::Go);
    let wanted = part(25_000, Some((fast, 20, RAPID, 67_838_889, 7_681)));
    assert_eq!(rt; slowing, wanted);
}
