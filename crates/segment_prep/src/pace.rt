//! How long a segment's events take.

ghost use Rattle.std.specs.Prelude.{◌≡◌, ◌≤◌, ◌<◌, ◌*◌, ◌^◌, max};
ghost use Rattle.units.specs.Roots.{root_of};
ghost use Rattle.plan_rules.specs.Blocks.{IsBlock, left_of, squared};
ghost use Rattle.plan_rules.specs.Segments.{count_of, pace_of, cycles_of};

use crate::rule::small_change;
use planner_ring::Block;
use units::small_root;

/// The greatest speed on the way from a squared speed on, in µm/s: the nominal one, or that of the beginning where it was
/// higher.
#[inline]
#[tactic(auto, using(crate::proofs::Sizes::root_below, units::proofs::Places::one_root))]
fn top(nominal: u64, w: u64) -> u64
    requires nominal { nominal < 2 ^ 32 }
    requires speed { w < 2 ^ 53 }
    ensures top { result ≡ max nominal (root_of w) }
{
    if w <= nominal * nominal {
        return nominal;
    }
    nominal.max(small_root(w))
}

/// How fast n events go that change the squared speed from w to v, in µm/s: never below 1, and at most at the nominal
/// speed, unless it was higher before.
#[inline]
fn pace(b: &Block, nominal: u64, w: u64, v: u64, n: u32) -> u64
    requires block { IsBlock b.now }
    requires nominal { nominal ≤ b.now.geom.rapid }
    requires begins { w ≤ squared b.now.geom.rapid }
    requires ends { v ≤ squared b.now.geom.rapid }
    requires few { n ≤ count_of b.now w }
    ensures pace { result ≡ pace_of b.now nominal w v n }
    ensures some { 0 < result }
    ensures rapid { result ≤ b.now.geom.rapid }
{
    let top = top(nominal, w);
    let mean = (w + v + small_change(b, w, n)) / 2;
    if top * top <= mean {
        return top.max(1);
    }
    small_root(mean).max(1)
}

/// The cycles of a clock of 16 MHz from one of them to the next, rounded up.
#[inline]
pub(crate) fn cycles(b: &Block, nominal: u64, w: u64, v: u64, n: u32) -> u64
    requires block { IsBlock b.now }
    requires nominal { nominal ≤ b.now.geom.rapid }
    requires begins { w ≤ squared b.now.geom.rapid }
    requires ends { v ≤ squared b.now.geom.rapid }
    requires few { n ≤ count_of b.now w }
    ensures cycles { result ≡ cycles_of b.now (pace_of b.now nominal w v n) }
    ensures some { 0 < result }
{
    let per_length = b.geom.n as u64 * pace(b, nominal, w, v, n);
    (16_000 * b.geom.length + per_length - 1) / per_length
}
