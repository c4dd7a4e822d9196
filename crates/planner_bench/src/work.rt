//! The work that is measured.

ghost use Rattle.std.specs.Prelude.{◌≡◌, IfSome};
ghost use Rattle.units.specs.Limits.{IsLimits, IsRate};
ghost use Rattle.line_geom.specs.Geometry.{IsGeomOf};
ghost use Rattle.units.specs.Lengths.{IsMove};
ghost use Rattle.overrides.specs.Percents.{IsOverrides};

use crate::moves::{Kind, next_move};
use line_geom::Cap;
use line_geom::measure::geom;
use overrides::Overrides;
use plan_passes::Plan;
use planner_ring::Block;
use segment_prep::{Mode, next_segment};
use step_line::{Head, Record};
use step_record::put_record;
use units::{Limits, Move, Per3, Rate, Steps3, Text};

/// How much of the work is done.
#[derive(Clone, Copy, PartialEq, Eq)]
pub(crate) enum Stage {
    /// The geometries of the moves.
    Geometry,
    /// They are planned too, and segments are taken.
    Segments,
    /// Their heads are written too.
    Heads,
}

/// What was done.
#[derive(Clone, Copy, Default)]
pub(crate) struct Tally {
    pub(crate) moves: u64,
    pub(crate) segments: u64,
    /// Sums, with no carry, of what the moves, the segments and the texts of the heads have.
    pub(crate) geometry: u64,
    pub(crate) speeds: u64,
    pub(crate) bytes: u64,
}

/// 250 steps per mm, 500 mm per minute and 10 mm per s² on each axis.
fn generic() -> Limits
    ensures { IsLimits result }
{
    let each = |n: u32| Per3 { x: n, y: n, z: n };
    Limits {
        per_mm: each(250_000),
        rate: each(500_000),
        accel: each(10_000),
    }
}

/// The head of a segment, as text.
fn write_head(line: u32, n: u32, w: u64, cycles: u64, text: &mut Text) {
    let head = Head {
        line: line.max(1),
        n: n.max(1),
        w,
        cycles,
    };
    put_record(&Record::Head(head), text);
}

/// Takes segments until at most so many blocks stand.
fn run(
    plan: &mut Plan<16>,
    o: &Overrides,
    most: usize,
    stage: Stage,
    text: &mut Text,
    tally: &mut Tally,
)
    requires { o.now ≡ plan.old.overrides }
    ensures { o.now ≡ plan.new.overrides }
{
    for _ in 0..u64::MAX {
        if plan.len() <= most {
            return;
        }
        let Some(segment) = next_segment(plan, o, Mode::Go) else {
            return;
        };
        tally.segments = tally.segments.wrapping_add(1);
        tally.speeds = tally
            .speeds
            .wrapping_mul(31)
            .wrapping_add(segment.w_out)
            .wrapping_add(segment.cycles);
        if stage == Stage::Heads {
            write_head(segment.line, segment.n, segment.w_in, segment.cycles, text);
            tally.bytes = tally.bytes.wrapping_add(text.len() as u64);
        }
    }
}

/// Plans a block, where there is room.
fn add(plan: &mut Plan<16>, block: Block, o: &Overrides)
    requires overrides { o.now ≡ plan.old.overrides }
    requires normal { IsOverrides o.now }
    requires rate { IsRate block.rate }
    requires geom { IsGeomOf block.mv block.geom }
    requires fresh { block.prepared ≡ 0 }
    ensures { o.now ≡ plan.new.overrides }
{
    match plan.add(block, 10, o) {
        Ok(()) => {}
        Err(_) => {}
    }
}

/// A fresh block of a move, or none where it has no steps.
fn block_of(line: u32, mv: &Move, limits: &Limits) -> Option<Block>
    requires places { IsMove mv.now }
    requires limits { IsLimits limits.now }
    ensures { IfSome result (λ b. IsRate b.rate × IsGeomOf b.mv b.geom × (b.prepared ≡ 0)) }
{
    Some(Block {
        line,
        mv: *mv,
        rate: Rate::Feed(1_000_000_000),
        geom: geom(mv, limits)?,
        prepared: 0,
        entry: Cap::Free,
    })
}

/// Does the work over so many moves of a kind.
pub(crate) fn work(kind: Kind, count: u64, stage: Stage) -> Tally {
    let limits = generic();
    let overrides = Overrides::normal();
    let mut plan = Plan::<16>::new();
    let mut text = Text::new();
    let mut tally = Tally::default();
    let mut at = Steps3::default();
    for i in 0..count {
        let mv = next_move(kind, i, at);
        at = mv.to;
        let Some(block) = block_of((i % 1_000_000) as u32 + 1, &mv, &limits) else {
            continue;
        };
        tally.moves = tally.moves.wrapping_add(1);
        tally.geometry = tally
            .geometry
            .wrapping_mul(31)
            .wrapping_add(block.geom.length)
            .wrapping_add(block.geom.q);
        if stage != Stage::Geometry {
            run(&mut plan, &overrides, 14, stage, &mut text, &mut tally);
            add(&mut plan, block, &overrides);
        }
    }
    run(&mut plan, &overrides, 0, stage, &mut text, &mut tally);
    tally
}
