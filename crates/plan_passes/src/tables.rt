//! What is kept beside the blocks: how much the squared speed may change over each, its nominal speed, and the hard and the
//! soft cap of each junction. Each number is worked out once, when its block comes; where the overrides change, nominal
//! speeds and soft caps are again.

ghost use Rattle.std.specs.Prelude.{◌≡◌, ◌≢◌, ℕ, ◌≤◌, ◌<◌, ◌-◌, length, get_or, take, set};
ghost use Rattle.std.specs.List.{All};
ghost use Rattle.overrides.specs.Percents.{IsOverrides};
ghost use Rattle.line_geom.specs.declared.Block.{Block};
ghost use Rattle.plan_rules.specs.Blocks.{IsBlock, gaps_of, hards_of, softs_of};
ghost use Rattle.plan_passes.specs.Tables.{IsMovedUp, nominals_of};

use crate::blocks::{gap, hard, nominal, soft};
use crate::row::Row;
use overrides::Overrides;
use planner_ring::{Block, Ring};

/// A block of the plan.
pub(crate) fn block_at<const N: usize>(ring: &Ring<N>, i: usize) -> &Block
    requires { i < length ring.now }
    ensures { (d : Block) → result.now ≡ get_or ring.now i d }
{
    let Some(block) = ring.get(i) else {
        unreachable!()
    };
    block
}

/// Writes down the gap of the last block, behind those of the others.
pub(crate) fn put_gap<const N: usize>(ring: &Ring<N>, gaps: &mut Row<u128, N>)
    requires some { 0 < length ring.now }
    requires blocks { All IsBlock ring.now }
    requires before { take (length ring.now - 1) gaps.old ≡ take (length ring.now - 1) (gaps_of ring.now) }
    ensures { take (length ring.now) gaps.new ≡ gaps_of ring.now }
{
    let count = ring.len();
    gaps.put(count - 1, gap(block_at(ring, count - 1)));
}

/// Writes down the nominal speed of the last block, and the hard and the soft cap of the last junction, behind those of the
/// others.
pub(crate) fn put_soft<const N: usize>(
    ring: &Ring<N>,
    o: &Overrides,
    nominals: &mut Row<u64, N>,
    hards: &mut Row<u64, N>,
    softs: &mut Row<u64, N>,
)
    requires some { 0 < length ring.now }
    requires blocks { All IsBlock ring.now }
    requires overrides { IsOverrides o.now }
    requires nominals { take (length ring.now - 1) nominals.old ≡ take (length ring.now - 1) (nominals_of o.now ring.now) }
    requires hards { take (length ring.now - 2) hards.old ≡ take (length ring.now - 2) (hards_of ring.now) }
    requires softs { take (length ring.now - 2) softs.old ≡ take (length ring.now - 2) (softs_of o.now ring.now) }
    ensures nominals { take (length ring.now) nominals.new ≡ nominals_of o.now ring.now }
    ensures hards { take (length ring.now - 1) hards.new ≡ hards_of ring.now }
    ensures softs { take (length ring.now - 1) softs.new ≡ softs_of o.now ring.now }
{
    let count = ring.len();
    let last = block_at(ring, count - 1);
    let second = nominal(o, last);
    nominals.put(count - 1, second);
    if count < 2 {
        return;
    }
    let before = block_at(ring, count - 2);
    let cap = hard(before, last);
    hards.put(count - 2, cap);
    let first = nominals.at(count - 2);
    softs.put(count - 2, soft(cap, first, second));
}

/// Writes down the nominal speed of each block, and the soft cap of each junction, whose hard cap is there already.
pub(crate) fn fill_softs<const N: usize>(
    ring: &Ring<N>,
    o: &Overrides,
    hards: &Row<u64, N>,
    nominals: &mut Row<u64, N>,
    softs: &mut Row<u64, N>,
)
    requires blocks { All IsBlock ring.now }
    requires overrides { IsOverrides o.now }
    requires hards { take (length ring.now - 1) hards.now ≡ hards_of ring.now }
    ensures nominals { take (length ring.now) nominals.new ≡ nominals_of o.now ring.now }
    ensures softs { take (length ring.now - 1) softs.new ≡ softs_of o.now ring.now }
{
    let count = ring.len();
    if count == 0 {
        return;
    }
    let mut first = nominal(o, block_at(ring, 0));
    nominals.put(0, first);
    for i in 0..count - 1 {
        let behind = block_at(ring, i + 1);
        let second = nominal(o, behind);
        softs.put(i, soft(hards.at(i), first, second));
        nominals.put(i + 1, second);
        first = second;
    }
}

/// Writes down the gap that is left of the tail; where none is left, all behind it moves up.
pub(crate) fn put_first<const N: usize>(
    left: u128,
    planned: &mut Row<u64, N>,
    gaps: &mut Row<u128, N>,
    hards: &mut Row<u64, N>,
    softs: &mut Row<u64, N>,
    nominals: &mut Row<u64, N>,
)
    requires { 0 < N }
    ensures planned_left { left ≢ 0 → planned.new ≡ planned.old }
    ensures gaps_left { left ≢ 0 → gaps.new ≡ set gaps.old 0 left }
    ensures hards_left { left ≢ 0 → hards.new ≡ hards.old }
    ensures softs_left { left ≢ 0 → softs.new ≡ softs.old }
    ensures nominals_left { left ≢ 0 → nominals.new ≡ nominals.old }
    ensures planned_gone { left ≡ 0 → IsMovedUp N planned.old planned.new }
    ensures gaps_gone { left ≡ 0 → IsMovedUp N gaps.old gaps.new }
    ensures hards_gone { left ≡ 0 → IsMovedUp N hards.old hards.new }
    ensures softs_gone { left ≡ 0 → IsMovedUp N softs.old softs.new }
    ensures nominals_gone { left ≡ 0 → IsMovedUp N nominals.old nominals.new }
{
    if left != 0 {
        gaps.put(0, left);
        return;
    }
    planned.move_up();
    gaps.move_up();
    hards.move_up();
    softs.move_up();
    nominals.move_up();
}
