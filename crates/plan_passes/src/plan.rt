//! The plan.

ghost use Rattle.std.specs.Prelude.{◌≡◌, ◌≢◌, ◌↔◌, ◌<◌, ◌≤◌, ◌-◌, ◌+◌, ◌*◌, List, ◌∷◌, length, true};
ghost use Rattle.std.specs.List.{All};
ghost use Rattle.line_geom.specs.declared.Block.{Block};
ghost use Rattle.profile.specs.Profiles.{distance};
ghost use Rattle.plan_rules.specs.Blocks.{IsBlock, left_of};
ghost use Rattle.plan_rules.specs.Plans.{entry_at};
ghost use Rattle.plan_rules.specs.Segments.{moved};

use crate::Pace;
use crate::passes::plan_from;
use crate::row::Row;
use crate::tables::{block_at, fill_softs, put_first, put_gap, put_soft};
use junction_speed::junction;
use line_geom::Cap;
use overrides::Overrides;
use planner_ring::{Block, Ring};
use std::marker::Model;

/// The pace of no events, which says nothing.
const NO_PACE: Pace = Pace {
    n: 0,
    w: 0,
    cycles: 0,
};

/// The blocks that are planned, the present squared speed, and the overrides that they are planned for.
#[derive(Drop)]
pub struct Plan<const N: usize> {
    ring: Ring<N>,
    speed: u64,
    overrides: Overrides,
    /// The planned squared speed at each point, of which the present place is the first.
    planned: Row<u64, N>,
    /// How much the squared speed may change over what is left of each block.
    gaps: Row<u128, N>,
    /// The hard cap of each junction.
    hards: Row<u64, N>,
    /// The soft cap of each junction.
    softs: Row<u64, N>,
    /// The nominal speed of each block.
    nominals: Row<u64, N>,
    /// The last point before the end whose speed the caps up to it alone hold.
    settled: usize,
    /// The pace of the tail, once one is known.
    pace: Pace,
}

impl<const N: usize> Model for Plan<N> {
    ghost use Rattle.plan_rules.specs.Plans.{Planned};
    ghost use Rattle.std.specs.Prelude.{◌≡◌, ◌-◌, length, take};
    ghost use Rattle.plan_rules.specs.Blocks.{hards_of};
    ghost use Rattle.plan_passes.specs.Tables.{KeepsPlan, nominals_of};
    ghost use Rattle.plan_passes.specs.Paces.{IsPaceOfTail};

    ghost Value = { Planned };

    ghost view = { λ p. record { blocks = p.ring; speed = p.speed; overrides = p.overrides } };

    ghost invariant = { λ p. KeepsPlan N (record { blocks = p.ring; speed = p.speed; overrides = p.overrides }) p.planned p.gaps p.softs p.settled × IsPaceOfTail p.overrides p.ring p.pace × (take (length p.ring) p.nominals ≡ nominals_of p.overrides p.ring) × (take (length p.ring - 1) p.hards ≡ hards_of p.ring) };
}

/// The cap of a block's junction with the last block of the plan.
fn entry_cap<const N: usize>(ring: &Ring<N>, b: &Block, deviation: u32) -> Cap
    ensures { result ≡ entry_at ring.now b.now deviation }
{
    let count = ring.len();
    if count == 0 {
        return Cap::At(0);
    }
    junction(&block_at(ring, count - 1).geom, &b.geom, deviation)
}

/// Marks n more events of the tail as prepared, and takes it away where none is left. How much the squared speed may
/// change over what is left of it is answered: 0 exactly where it goes.
fn prepare<const N: usize>(ring: &mut Ring<N>, n: u32) -> u128
    requires some { 0 < length ring.old }
    requires blocks { All IsBlock ring.old }
    requires left { (b : Block) (bs : List Block) → ring.old ≡ b ∷ bs → n ≤ left_of b }
    ensures moved { ring.new ≡ moved n ring.old }
    ensures gap { (b : Block) (bs : List Block) → ring.old ≡ b ∷ bs → result ≡ b.geom.q * (left_of b - n) }
{
    let Some(tail) = ring.tail_mut() else {
        unreachable!()
    };
    tail.prepared += n;
    let left = tail.geom.n - tail.prepared;
    let gap = tail.geom.q as u128 * left as u128;
    if left == 0 {
        ring.drop_tail();
    }
    gap
}

/// The number of a point once a segment is taken that leaves such a gap of the tail: the one before where the tail goes.
fn point_behind(point: usize, gap: u128) -> usize
    ensures left { gap ≢ 0 → result ≡ point }
    ensures gone { gap ≡ 0 → result ≡ point - 1 }
{
    if gap == 0 {
        point.saturating_sub(1)
    } else {
        point
    }
}

/// Gives up the pace of the tail where a segment is taken that leaves no gap of it: then the tail goes.
fn pace_behind(kept: &mut Pace, gap: u128)
    ensures left { gap ≢ 0 → kept.new ≡ kept.old }
    ensures gone { gap ≡ 0 → kept.new.n ≡ 0 }
{
    if gap == 0 {
        kept.n = 0;
    }
}

/// Whether the squared speed may change so far over a gap.
#[inline]
fn within_reach(w: u64, exit: u64, gap: u128) -> bool
    ensures { (result ≡ true) ↔ distance w exit ≤ gap }
{
    w.abs_diff(exit) as u128 <= gap
}

/// Whether a block of which more events are left than a pace has goes on at it, where the planned speed at its end is this.
fn goes_on(b: &Block, pace: Pace, exit: u64) -> bool
    requires { IsBlock b.now }
    ensures { (result ≡ true) ↔ (pace.n < left_of b.now) × (pace.w ≤ exit + b.now.geom.q * (left_of b.now - pace.n)) }
{
    let left = b.geom.n - b.prepared;
    if left <= pace.n {
        return false;
    }
    let gap = b.geom.q as u128 * (left - pace.n) as u128;
    pace.w as u128 <= exit as u128 + gap
}

impl<const N: usize> Plan<N> {
    ghost use Rattle.std.specs.Prelude.{◌≡◌, ◌≤◌, ◌<◌, ◌+◌, ◌-◌, ◌↔◌, [], length, true, get_or};
    ghost use Rattle.std.specs.Prelude.{IsOk, OnOk, OnErr, IfErr, IfSome, IsNone};
    ghost use Rattle.units.specs.Limits.{IsRate};
    ghost use Rattle.line_geom.specs.Geometry.{IsGeomOf};
    ghost use Rattle.overrides.specs.Percents.{IsOverrides, normal_overrides};
    ghost use Rattle.plan_rules.specs.Plans.{IsReached, IsTail, IsGreatest, IsLastPoint, exit_of, profile_of, added};
    ghost use Rattle.plan_rules.specs.Segments.{IsSegment, advanced, IsLegalStep};
    ghost use Rattle.plan_rules.specs.Blocks.{nominal_speed};
    ghost use Rattle.plan_passes.specs.Paces.{IsPaceOfTail, IsSteadyOf};

    /// A plan of at most N - 1 blocks, at rest. N is from 2 to 64.
    pub fn new() -> Plan<N>
        requires { (2 ≤ N) × (N ≤ 64) }
        ensures blocks { result.blocks ≡ [] }
        ensures speed { result.speed ≡ 0 }
        ensures overrides { result.overrides ≡ normal_overrides }
    {
        Plan {
            ring: Ring::new(),
            speed: 0,
            overrides: Overrides::normal(),
            planned: Row::new(0),
            gaps: Row::new(0),
            hards: Row::new(0),
            softs: Row::new(0),
            nominals: Row::new(0),
            settled: 0,
            pace: NO_PACE,
        }
    }

    /// How many blocks there are.
    pub fn len(&self) -> usize
        ensures { result ≡ length self.now.blocks }
    {
        self.ring.len()
    }

    /// Whether no other block has room.
    pub fn is_full(&self) -> bool
        ensures { (result ≡ true) ↔ (N - 1 ≤ length self.now.blocks) }
    {
        self.ring.len() + 1 >= N
    }

    /// For how many blocks more there is room.
    pub fn free(&self) -> usize
        ensures free { result + length self.now.blocks ≡ N - 1 }
        ensures few { result < 64 }
    {
        N - (self.ring.len() + 1)
    }

    /// The block that is run, or None exactly if there is none.
    pub fn tail(&self) -> Option<&Block>
        ensures none { IsNone result ↔ (self.now.blocks ≡ []) }
        ensures some { IfSome result (λ b. IsTail self.now b.now) }
    {
        self.ring.tail()
    }

    /// The present squared speed, in µm²/s². From it the plan can slow down to each hard cap ahead, and stop at its end.
    pub fn speed(&self) -> u64
        ensures speed { result ≡ self.now.speed }
        ensures reached { IsReached self.now }
    {
        self.speed
    }

    /// The planned squared speed at the end of the tail, in µm²/s²: that of the greatest profile within the limits. A
    /// profile has a speed for the present place, for each junction and for the end. It is within the limits where each
    /// speed is at most its point's cap, and changes over a block by no more than what is left of the block allows.
    pub fn exit_of_tail(&self) -> u64
        requires { 0 < length self.now.blocks }
        ensures exit { result ≡ exit_of self.now }
        ensures profile { result ≡ get_or (profile_of self.now) 1 0 }
        ensures greatest { IsGreatest self.now }
        ensures reached { IsReached self.now }
    {
        self.planned.at(1)
    }

    /// How fast the tail is to go under the plan's overrides, in µm/s.
    pub fn nominal_of_tail(&self) -> u64
        requires { 0 < length self.now.blocks }
        ensures nominal { (b : Block) → IsTail self.now b → result ≡ nominal_speed self.now.overrides b }
        ensures reached { IsReached self.now }
    {
        self.nominals.at(0)
    }

    /// The last settled point before the end: one whose planned speed the caps up to it alone hold, so that no block which is
    /// added changes it. It is 0, the present place, if no other one is settled or there is no block. The plan keeps a settled
    /// point, from which it plans when a block is added; the last one is found anew.
    pub fn planned(&self) -> usize
        ensures { IsLastPoint self.now result }
    {
        let count = self.ring.len();
        let mut speeds = Row::new(0);
        plan_from(0, count, self.speed, &self.gaps, &self.softs, &mut speeds)
    }

    /// Puts a block after the others and plans, or hands it back exactly if the plan has N - 1 blocks.
    ///
    /// Its entry cap becomes that of its junction with the last block, for a deviation in µm, or `At(0)` if there is
    /// none. The plan keeps the overrides; if it has blocks, they are the ones that it has already.
    pub fn add(&mut self, b: Block, deviation: u32, o: &Overrides) -> Result<(), Block>
        requires rate { IsRate b.rate }
        requires geom { IsGeomOf b.mv b.geom }
        requires fresh { b.prepared ≡ 0 }
        requires overrides { IsOverrides o.now }
        requires same { 0 < length self.old.blocks → o.now ≡ self.old.overrides }
        ensures room { IsOk result ↔ (length self.old.blocks + 1 < N) }
        ensures ok { OnOk result (self.new ≡ added self.old b deviation o.now) }
        ensures full { OnErr result (self.new ≡ self.old) }
        ensures back { IfErr result (λ block. block ≡ b) }
    {
        let entry = entry_cap(&self.ring, &b, deviation);
        match self.ring.push(Block { entry, ..b }) {
            Err(_) => Err(b),
            Ok(()) => {
                self.overrides = *o;
                put_gap(&self.ring, &mut self.gaps);
                put_soft(
                    &self.ring,
                    o,
                    &mut self.nominals,
                    &mut self.hards,
                    &mut self.softs,
                );
                let count = self.ring.len();
                self.settled = plan_from(
                    self.settled,
                    count,
                    self.speed,
                    &self.gaps,
                    &self.softs,
                    &mut self.planned,
                );
                Ok(())
            }
        }
    }

    /// Plans for other overrides.
    pub fn replan(&mut self, o: &Overrides)
        requires { IsOverrides o.now }
        ensures { self.new ≡ record self.old { overrides = o.now } }
    {
        self.overrides = *o;
        self.pace = NO_PACE;
        fill_softs(
            &self.ring,
            o,
            &self.hards,
            &mut self.nominals,
            &mut self.softs,
        );
        let count = self.ring.len();
        self.settled = plan_from(
            0,
            count,
            self.speed,
            &self.gaps,
            &self.softs,
            &mut self.planned,
        );
    }

    /// Marks n events of the tail as prepared, with the squared speed w behind them, and takes the tail away where no
    /// event of it is left. The events and the speed are those of a segment.
    ///
    /// Where the planned speed at the tail's end stays within reach, as it does in mode Go, no planned speed changes. Else
    /// the plan is made anew.
    pub fn advance(&mut self, n: u32, w: u64)
        requires { IsSegment self.old n w }
        ensures advanced { self.new ≡ advanced self.old n w }
        ensures legal { IsLegalStep self.old.blocks self.old.speed n w }
    {
        let gap = prepare(&mut self.ring, n);
        let exit = self.planned.at(1);
        self.speed = w;
        put_first(
            gap,
            &mut self.planned,
            &mut self.gaps,
            &mut self.hards,
            &mut self.softs,
            &mut self.nominals,
        );
        self.settled = point_behind(self.settled, gap);
        pace_behind(&mut self.pace, gap);
        if within_reach(w, exit, gap) {
            return;
        }
        let count = self.ring.len();
        self.settled = plan_from(0, count, w, &self.gaps, &self.softs, &mut self.planned);
    }

    /// Keeps the pace of the tail, so that its segments at that pace need not be worked out anew. A pace of no events is none.
    pub fn keep_pace(&mut self, pace: Pace)
        requires { IsPaceOfTail self.old.overrides self.old.blocks pace }
        ensures { self.new ≡ self.old }
    {
        self.pace = pace;
    }

    /// What the tail's next segment in mode Go has where it is one at the pace that the plan keeps, and more events are left
    /// behind it. None where no pace is kept, or where the segment is none at it.
    pub fn steady(&self) -> Option<Pace>
        ensures steady { IfSome result (λ s. IsSteadyOf self.now self.now.blocks s) }
        ensures reached { IsReached self.now }
    {
        if self.pace.n == 0 || self.speed != self.pace.w {
            return None;
        }
        let tail = self.ring.tail()?;
        if goes_on(tail, self.pace, self.planned.at(1)) {
            Some(self.pace)
        } else {
            None
        }
    }

    /// Takes all blocks away, and stops.
    pub fn clear(&mut self)
        ensures { self.new ≡ record self.old { blocks = []; speed = 0 } }
    {
        self.ring.clear();
        self.speed = 0;
        self.settled = 0;
        self.pace.n = 0;
    }
}
