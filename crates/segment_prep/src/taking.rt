//! The next segment of a plan.

ghost use Rattle.std.specs.Prelude.{◌≡◌, ◌≤◌, ◌<◌, ◌⊎◌, ◌↔◌, [], length, IsNone, IfNone, IfSome, IsTrue};
ghost use Rattle.step_line.specs.Pieces.{IsTraceable};
ghost use Rattle.plan_rules.specs.Blocks.{IsBlock, left_of, nominal_speed, squared};
ghost use Rattle.plan_rules.specs.Plans.{Planned, IsReached, IsTail, exit_of};
ghost use Rattle.plan_passes.specs.Paces.{IsSteadyOf};
ghost use Rattle.plan_rules.specs.Segments.{IsSegment, advanced, IsLegalStep, count_of, pace_of, cycles_of};
ghost use Rattle.plan_rules.specs.Taking.{IsTaken, IsNext};

use crate::Mode;
use crate::pace::cycles;
use crate::rule::{Stretch, next_stretch};
use overrides::Overrides;
use plan_passes::{Pace, Plan};
use planner_ring::Block;
use step_line::Segment;

/// Events of a block, from a squared speed on, as a segment.
#[inline]
fn segment_of(b: &Block, nominal: u64, w_in: u64, stretch: Stretch) -> Segment
    requires block { IsBlock b.now }
    requires nominal { nominal ≤ b.now.geom.rapid }
    requires begins { w_in ≤ squared b.now.geom.rapid }
    requires ends { stretch.w_out ≤ squared b.now.geom.rapid }
    requires few { stretch.n ≤ count_of b.now w_in }
    ensures segment { result ≡ record {
      line = b.now.line;
      mv = b.now.mv;
      first = b.now.prepared;
      n = stretch.n;
      w_in = w_in;
      w_out = stretch.w_out;
      cycles = cycles_of b.now (pace_of b.now nominal w_in stretch.w_out stretch.n);
    } }
    ensures takes_time { 1 ≤ result.cycles }
{
    Segment {
        line: b.line,
        mv: b.mv,
        first: b.prepared,
        n: stretch.n,
        w_in,
        w_out: stretch.w_out,
        cycles: cycles(b, nominal, w_in, stretch.w_out, stretch.n),
    }
}

/// Whether a block's segment in a mode is one at its nominal speed, and leaves some events of the block.
#[inline]
fn is_at_pace(b: &Block, nominal: u64, mode: Mode, s: &Segment) -> bool
    requires block { IsBlock b.now }
    requires nominal { nominal ≤ b.now.geom.rapid }
    ensures { IsTrue result → (mode ≡ Mode.Go) × (s.now.w_in ≡ squared nominal) × (s.now.w_out ≡ squared nominal) × (s.now.n < left_of b.now) }
{
    match mode {
        Mode::Go => {
            let top = nominal * nominal;
            s.w_in == top && s.w_out == top && s.n < b.geom.n - b.prepared
        }
        Mode::Hold => false,
    }
}

/// A block's segment at a pace.
#[inline]
fn at_pace(b: &Block, pace: Pace) -> Segment
    ensures { result ≡ record {
      line = b.now.line;
      mv = b.now.mv;
      first = b.now.prepared;
      n = pace.n;
      w_in = pace.w;
      w_out = pace.w;
      cycles = pace.cycles;
    } }
{
    let Block {
        line,
        mv,
        prepared,
        ..
    } = *b;
    Segment {
        line,
        mv,
        first: prepared,
        n: pace.n,
        w_in: pace.w,
        w_out: pace.w,
        cycles: pace.cycles,
    }
}

/// The next segment of a plan, at the pace that the plan keeps of its tail.
#[inline]
fn tail_at_pace<const N: usize>(plan: &Plan<N>, tail: &Block, pace: Pace) -> Segment
    requires tail { IsTail plan.now tail.now }
    requires steady { IsSteadyOf plan.now plan.now.blocks pace }
    ensures segment { IsNext plan.now Mode.Go result }
    ensures rule { IsSegment plan.now result.n result.w_out }
    ensures traceable { 1 ≤ result.line → IsTraceable result }
    ensures takes_time { 1 ≤ result.cycles }
{
    at_pace(tail, pace)
}

/// The next segment of a plan where it is one at the pace that the plan keeps: none of its numbers is worked out anew.
#[inline]
fn segment_at_pace<const N: usize>(plan: &Plan<N>, mode: Mode) -> Option<Segment>
    ensures going { IfSome result (λ s. mode ≡ Mode.Go) }
    ensures segment { IfSome result (λ s. IsNext plan.now mode s) }
    ensures rule { IfSome result (λ s. IsSegment plan.now s.n s.w_out) }
    ensures traceable { IfSome result (λ s. 1 ≤ s.line → IsTraceable s) }
    ensures takes_time { IfSome result (λ s. 1 ≤ s.cycles) }
{
    match mode {
        Mode::Hold => None,
        Mode::Go => {
            let Some(pace) = plan.steady() else {
                return None;
            };
            let Some(tail) = plan.tail() else {
                return None;
            };
            Some(tail_at_pace(plan, tail, pace))
        }
    }
}

/// A block's next segment in a mode, worked out, where the squared speed here, the plan's at its end and its nominal speed
/// are these. None comes exactly where the mode is Hold and the squared speed is 0.
#[inline]
fn worked_out(b: &Block, w_in: u64, exit: u64, nominal: u64, mode: Mode) -> Option<Segment>
    requires block { IsBlock b.now }
    requires speed { w_in ≤ squared b.now.geom.rapid }
    requires nominal { nominal ≤ b.now.geom.rapid }
    ensures none { IsNone result ↔ ((mode ≡ Mode.Hold) × (w_in ≡ 0)) }
    ensures taken { (p : Planned) → w_in ≡ p.speed → exit ≡ exit_of p → nominal ≡ nominal_speed p.overrides b.now
        → IfSome result (λ s. IsTaken p b.now mode s) }
    ensures traceable { IfSome result (λ s. 1 ≤ s.line → IsTraceable s) }
    ensures takes_time { IfSome result (λ s. 1 ≤ s.cycles) }
{
    let stretch = next_stretch(b, w_in, exit, nominal, mode)?;
    Some(segment_of(b, nominal, w_in, stretch))
}

/// The next segment of a plan, worked out. Where it is one at the tail's nominal speed the plan keeps its pace.
fn segment_anew<const N: usize>(plan: &mut Plan<N>, mode: Mode) -> Option<Segment>
    ensures same { plan.new ≡ plan.old }
    ensures none { IsNone result ↔ ((plan.old.blocks ≡ []) ⊎ ((mode ≡ Mode.Hold) × (plan.old.speed ≡ 0))) }
    ensures segment { IfSome result (λ s. IsNext plan.old mode s) }
    ensures rule { IfSome result (λ s. IsSegment plan.old s.n s.w_out) }
    ensures traceable { IfSome result (λ s. 1 ≤ s.line → IsTraceable s) }
    ensures takes_time { IfSome result (λ s. 1 ≤ s.cycles) }
{
    let Some(tail) = plan.tail() else {
        return None;
    };
    let w_in = plan.speed();
    let nominal = plan.nominal_of_tail();
    let exit = plan.exit_of_tail();
    let Some(segment) = worked_out(tail, w_in, exit, nominal, mode) else {
        return None;
    };
    if is_at_pace(tail, nominal, mode, &segment) {
        plan.keep_pace(Pace {
            n: segment.n,
            w: segment.w_out,
            cycles: segment.cycles,
        });
    }
    Some(segment)
}

/// The next segment of a plan, whose numbers are those of its pace, or are worked out.
#[inline]
fn segment_next<const N: usize>(plan: &mut Plan<N>, mode: Mode) -> Option<Segment>
    ensures same { plan.new ≡ plan.old }
    ensures none { IsNone result ↔ ((plan.old.blocks ≡ []) ⊎ ((mode ≡ Mode.Hold) × (plan.old.speed ≡ 0))) }
    ensures segment { IfSome result (λ s. IsNext plan.old mode s) }
    ensures rule { IfSome result (λ s. IsSegment plan.old s.n s.w_out) }
    ensures traceable { IfSome result (λ s. 1 ≤ s.line → IsTraceable s) }
    ensures takes_time { IfSome result (λ s. 1 ≤ s.cycles) }
{
    match segment_at_pace(plan, mode) {
        Some(segment) => Some(segment),
        None => segment_anew(plan, mode),
    }
}

/// Takes the next segment of a plan in a mode, and advances the plan by it. If there is a block, `o` are the overrides
/// that the plan is made for.
///
/// In mode Go the segment has the tail's events of about 10 ms, one at least, and ends as fast as the plan allows. In mode
/// Hold it has no more of them than it takes to stop, and each slows the plan down. None comes exactly if there is
/// no block, or if the mode is Hold and the planned speed is 0; then the plan stays as it is.
#[inline]
pub fn next_segment<const N: usize>(
    plan: &mut Plan<N>,
    o: &Overrides,
    mode: Mode,
) -> Option<Segment>
    requires same { 0 < length plan.old.blocks → o.now ≡ plan.old.overrides }
    ensures none { IsNone result ↔ ((plan.old.blocks ≡ []) ⊎ ((mode ≡ Mode.Hold) × (plan.old.speed ≡ 0))) }
    ensures unchanged { IfNone result (plan.new ≡ plan.old) }
    ensures segment { IfSome result (λ s. IsNext plan.old mode s) }
    ensures advanced { IfSome result (λ s. plan.new ≡ advanced plan.old s.n s.w_out) }
    ensures overrides { plan.new.overrides ≡ plan.old.overrides }
    ensures legal { IfSome result (λ s. IsLegalStep plan.old.blocks plan.old.speed s.n s.w_out) }
    ensures traceable { IfSome result (λ s. 1 ≤ s.line → IsTraceable s) }
    ensures takes_time { IfSome result (λ s. 1 ≤ s.cycles) }
{
    let Some(segment) = segment_next(plan, mode) else {
        return None;
    };
    plan.advance(segment.n, segment.w_out);
    Some(segment)
}
