//! What bounds the squared speed over blocks and at their junctions.

ghost use Rattle.std.specs.Prelude.{◌≡◌, ◌≤◌, ◌<◌, ◌^◌, min};
ghost use Rattle.overrides.specs.Percents.{IsOverrides};
ghost use Rattle.plan_rules.specs.Blocks.{IsBlock, nominal_speed, squared, left_of, gap_of, hard_of};

use line_geom::Cap;
use overrides::Overrides;
use planner_ring::Block;

/// How many events of a block are left.
pub(crate) fn left(b: &Block) -> u32
    requires { IsBlock b.now }
    ensures { result ≡ left_of b.now }
{
    b.geom.n - b.prepared
}

/// How much the squared speed may change over what is left of a block.
pub(crate) fn gap(b: &Block) -> u128
    requires { IsBlock b.now }
    ensures gap { result ≡ gap_of b.now }
    ensures small { result < 2 ^ 71 }
{
    b.geom.q as u128 * left(b) as u128
}

/// The nominal speed of a block, in µm/s.
pub(crate) fn nominal(o: &Overrides, b: &Block) -> u64
    requires overrides { IsOverrides o.now }
    requires block { IsBlock b.now }
    ensures nominal { result ≡ nominal_speed o.now b.now }
    ensures small { result ≤ 33333333 }
{
    o.nominal(&b.rate, b.geom.rapid)
}

/// The hard cap of the junction of two blocks: what the junction and the axes allow.
pub(crate) fn hard(a: &Block, b: &Block) -> u64
    requires first { IsBlock a.now }
    requires second { IsBlock b.now }
    ensures { result ≡ hard_of a.now b.now }
{
    let rapid = (a.geom.rapid * a.geom.rapid).min(b.geom.rapid * b.geom.rapid);
    match b.entry {
        Cap::At(cap) => cap.min(rapid),
        Cap::Free => rapid,
    }
}

/// The soft cap of a junction: what the nominal speeds of its two blocks make of the hard one.
pub(crate) fn soft(hard: u64, first: u64, second: u64) -> u64
    requires first { first ≤ 33333333 }
    requires second { second ≤ 33333333 }
    ensures { result ≡ min hard (min (squared first) (squared second)) }
{
    hard.min(first * first).min(second * second)
}
