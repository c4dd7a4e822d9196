//! The blocks that rows are made of, and plans of them.

ghost use Rattle.std.specs.Prelude.{◌≡◌, ◌<◌, length, IfSome};
ghost use Rattle.units.specs.Lengths.{IsCoordinate};
ghost use Rattle.units.specs.Limits.{IsRate, IsLimits};
ghost use Rattle.line_geom.specs.Geometry.{IsGeomOf};
ghost use Rattle.overrides.specs.Percents.{normal_overrides};

use line_geom::Cap;
use line_geom::measure::geom;
use overrides::Overrides;
use plan_passes::Plan;
use planner_ring::Block;
use std::process::Abort;
use units::{Limits, Move, Per3, Rate, Steps3};

/// The feed of most rows.
pub(crate) const FEED: Rate = Rate::Feed(500_000_000);

/// 250 steps per mm, 500 mm per minute and 10 mm per s² on each axis.
fn generic() -> Limits
    ensures { IsLimits result }
{
    let each = |n: u32| Per3 { x: n, y: n, z: n };
    Limits {
        per_mm: each(250_000),
        rate: each(500_000),
        accel: each(10_000),
    }
}

/// A fresh block of so many steps along X and Y, or none where there are none.
pub(crate) fn block(rate: Rate, x: i64, y: i64) -> Option<Block>
    requires rate { IsRate rate }
    requires x { IsCoordinate x }
    requires y { IsCoordinate y }
    ensures { IfSome result (λ b. IsRate b.rate × IsGeomOf b.mv b.geom × (b.prepared ≡ 0)) }
{
    let mv = Move {
        from: Steps3 { x: 0, y: 0, z: 0 },
        to: Steps3 { x, y, z: 0 },
    };
    Some(Block {
        line: 1,
        mv,
        rate,
        geom: geom(&mv, &generic())?,
        prepared: 0,
        entry: Cap::Free,
    })
}

/// Adds such a block to a plan.
pub(crate) fn add(rt: &impl Abort, plan: &mut Plan<16>, rate: Rate, x: i64, y: i64)
    requires rate { IsRate rate }
    requires x { IsCoordinate x }
    requires y { IsCoordinate y }
    requires normal { plan.old.overrides ≡ normal_overrides }
    ensures some { 0 < length plan.new.blocks }
    ensures normal { plan.new.overrides ≡ normal_overrides }
{
    let Some(block) = block(rate, x, y) else {
        panic!(rt; "no steps");
    };
    let added = plan.add(block, 10, &Overrides::normal());
    assert!(rt; added.is_ok());
    assert!(rt; plan.len() > 0);
}
