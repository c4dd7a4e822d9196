//! The segment rule: how many events are taken, and the speed behind them.

ghost use Rattle.std.specs.Prelude.{◌≡◌, ◌≤◌, ◌<◌, ◌+◌, ◌-◌, ◌*◌, ◌↔◌, ◌^◌, min, max, IsNone, IfSome};
ghost use Rattle.profile.specs.Slowing.{speed_after};
ghost use Rattle.plan_rules.specs.Blocks.{IsBlock, left_of, nominal_speed, squared};
ghost use Rattle.plan_rules.specs.Plans.{Planned, exit_of};
ghost use Rattle.plan_rules.specs.Segments.{count_of, stop_of};
ghost use Rattle.plan_rules.specs.Taking.{ByMode};

use crate::Mode;
use planner_ring::Block;
use units::small_root;

/// Some events of a block, and the squared speed behind them.
#[derive(Clone, Copy)]
pub(crate) struct Stretch {
    pub(crate) n: u32,
    pub(crate) w_out: u64,
}

/// How much n events of a block may change the squared speed, or the greatest number of 64 bits where that is less.
#[inline]
pub(crate) fn change(b: &Block, n: u32) -> u64
    ensures { result ≡ min (b.now.geom.q * n) 18446744073709551615 }
{
    b.geom.q.saturating_mul(n as u64)
}

/// How much events of a block may change the squared speed that they begin at, where they are no more than take about 10 ms.
#[inline]
pub(crate) fn small_change(b: &Block, w: u64, n: u32) -> u64
    requires block { IsBlock b.now }
    requires speed { w ≤ squared b.now.geom.rapid }
    requires few { n ≤ count_of b.now w }
    ensures change { result ≡ b.now.geom.q * n }
    ensures small { result ≤ 2000000000000000 }
{
    let small = b.geom.q * n as u64;
    small
}

/// How many events of a block are taken at a squared speed: those of about 10 ms, but one at least, and no more than are
/// left.
#[inline]
fn count(b: &Block, w: u64) -> u32
    requires block { IsBlock b.now }
    requires speed { w ≤ squared b.now.geom.rapid }
    ensures count { result ≡ count_of b.now w }
    ensures some { 0 < result }
    ensures within { result ≤ left_of b.now }
{
    let left = b.geom.n - b.prepared;
    if left == 1 {
        return 1;
    }
    let root = small_root(w + b.geom.q);
    let way = root * 10 * b.geom.n as u64;
    if way < 2 * b.geom.length {
        return 1;
    }
    (way / b.geom.length).min(left as u64) as u32
}

/// The squared speed behind events that may change it by so much, where it goes up to `top`, or comes down to it.
#[inline]
fn speed_towards(w: u64, change: u64, top: u64) -> u64
    requires { w + change < 2 ^ 64 }
    ensures { result ≡ max (min (w + change) top) (w - change) }
{
    if w <= top {
        top.min(w + change)
    } else {
        top.max(w.saturating_sub(change))
    }
}

/// The squared speed behind n events of a block in mode Go, where its nominal speed and the plan's speed at its end are
/// these.
#[inline]
fn speed_going(b: &Block, w: u64, n: u32, exit: u64, nominal: u64) -> u64
    requires block { IsBlock b.now }
    requires speed { w ≤ squared b.now.geom.rapid }
    requires few { n ≤ count_of b.now w }
    requires within { n ≤ left_of b.now }
    requires nominal { nominal ≤ b.now.geom.rapid }
    ensures speed { result ≡ speed_after w b.now.geom.q n (left_of b.now - n) exit (squared nominal) }
    ensures rapid { result ≤ squared b.now.geom.rapid }
{
    let rest = b.geom.n - b.prepared - n;
    let for_exit = exit.saturating_add(change(b, rest));
    let towards = speed_towards(w, small_change(b, w, n), nominal * nominal);
    for_exit.min(towards)
}

/// What is taken of a block in mode Go, where the squared speed here, the plan's at its end and its nominal speed are these.
#[inline]
fn going(b: &Block, w: u64, exit: u64, nominal: u64) -> Stretch
    requires block { IsBlock b.now }
    requires speed { w ≤ squared b.now.geom.rapid }
    requires nominal { nominal ≤ b.now.geom.rapid }
    ensures events { result.n ≡ count_of b.now w }
    ensures speed { result.w_out ≡ speed_after w b.now.geom.q result.n (left_of b.now - result.n) exit (squared nominal) }
    ensures some { 0 < result.n }
    ensures within { result.n ≤ left_of b.now }
    ensures rapid { result.w_out ≤ squared b.now.geom.rapid }
{
    let n = count(b, w);
    let w_out = speed_going(b, w, n, exit, nominal);
    Stretch { n, w_out }
}

/// What is taken of a block in mode Hold, from a squared speed on.
#[inline]
fn holding(b: &Block, w: u64) -> Stretch
    requires block { IsBlock b.now }
    requires speed { w ≤ squared b.now.geom.rapid }
    requires moves { 0 < w }
    ensures events { result.n ≡ min (count_of b.now w) (stop_of b.now w) }
    ensures speed { result.w_out ≡ w - b.now.geom.q * result.n }
    ensures some { 0 < result.n }
    ensures within { result.n ≤ left_of b.now }
    ensures few { result.n ≤ count_of b.now w }
    ensures rapid { result.w_out ≤ squared b.now.geom.rapid }
{
    let q = b.geom.q;
    let stop = (w + q - 1) / q;
    let n = (count(b, w) as u64).min(stop) as u32;
    let w_out = w.saturating_sub(change(b, n));
    Stretch { n, w_out }
}

/// What is taken of a block in a mode, or None exactly where it is Hold and the squared speed is 0: by the segment rule of
/// each plan whose tail is the block, and whose speed here and at its end, and nominal speed, are these.
#[inline]
pub(crate) fn next_stretch(
    b: &Block,
    w: u64,
    exit: u64,
    nominal: u64,
    mode: Mode,
) -> Option<Stretch>
    requires block { IsBlock b.now }
    requires speed { w ≤ squared b.now.geom.rapid }
    requires nominal { nominal ≤ b.now.geom.rapid }
    ensures none { IsNone result ↔ ((mode ≡ Mode.Hold) × (w ≡ 0)) }
    ensures rule { (p : Planned) → w ≡ p.speed → exit ≡ exit_of p → nominal ≡ nominal_speed p.overrides b.now
        → IfSome result (λ s. ByMode p b.now mode s.n s.w_out) }
    ensures some { IfSome result (λ s. 0 < s.n) }
    ensures within { IfSome result (λ s. s.n ≤ left_of b.now) }
    ensures few { IfSome result (λ s. s.n ≤ count_of b.now w) }
    ensures rapid { IfSome result (λ s. s.w_out ≤ squared b.now.geom.rapid) }
{
    match mode {
        Mode::Go => Some(going(b, w, exit, nominal)),
        Mode::Hold if w == 0 => None,
        Mode::Hold => Some(holding(b, w)),
    }
}
