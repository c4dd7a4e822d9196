//! A ring of blocks.

ghost use Rattle.std.specs.Prelude.{◌≡◌, ◌≢◌};

use crate::Block;
use arrayvec::ArrayVec;
use line_geom::{Cap, Geom};
use std::marker::Model;
use units::{Move, Rate, Steps3};

/// What stands in a slot that was never used.
const UNUSED: Block = Block {
    line: 0,
    mv: Move {
        from: Steps3 { x: 0, y: 0, z: 0 },
        to: Steps3 { x: 0, y: 0, z: 0 },
    },
    rate: Rate::Rapid,
    geom: Geom {
        n: 0,
        length: 0,
        ux: 0,
        uy: 0,
        uz: 0,
        accel: 0,
        rapid: 0,
        q: 0,
    },
    prepared: 0,
    entry: Cap::Free,
};

/// At most N - 1 blocks, in order: the first N of 64 slots, with the places of the tail and of the next block. Where the two are
/// one, no block stands, so one slot is always free. The size of a ring is the same whatever N is.
#[derive(Drop)]
pub struct Ring<const N: usize> {
    slots: ArrayVec<Block, 64>,
    tail: usize,
    free: usize,
}

impl<const N: usize> Model for Ring<N> {
    ghost use Rattle.std.specs.Prelude.{List, take};
    ghost use Rattle.line_geom.specs.declared.Block.{Block};
    ghost use Rattle.planner_ring.specs.Windows.{between, HasRing};

    ghost Value = { List Block };

    ghost view = { λ r. between N r.tail r.free (take N r.slots.items) };

    ghost invariant = { λ r. HasRing N r.tail r.free r.slots.items };
}

/// The place of the tail, or `none` where no block stands: where it is the place of the next block too.
#[inline]
fn first_place(tail: usize, free: usize, none: usize) -> usize
    ensures none { tail ≡ free → result ≡ none }
    ensures some { tail ≢ free → result ≡ tail }
{
    if tail == free { none } else { tail }
}

impl<const N: usize> Ring<N> {
    ghost use Rattle.std.specs.Prelude.{◌≡◌, ◌≤◌, ◌<◌, ◌+◌, ◌-◌, ◌%◌, ◌↔◌, [], ◌∷◌, ◌++◌, length, drop, IfSome, IsNone, IsOk, OnOk, OnErr, IfErr, get_or};
    ghost use Rattle.std.specs.Borrow.{sem};
    ghost use Rattle.planner_ring.specs.Lending.{LendsTail};

    /// A ring of N slots, from 2 to 64, in which no block stands.
    pub fn new() -> Ring<N>
        requires { (2 ≤ N) × (N ≤ 64) }
        ensures { result ≡ [] }
    {
        Ring {
            slots: ArrayVec::from([UNUSED; 64]),
            tail: 0,
            free: 0,
        }
    }

    /// How many blocks stand.
    pub fn len(&self) -> usize
        ensures len { result ≡ length self.now }
        ensures few { result < N }
        ensures slots { N ≤ 64 }
    {
        if self.tail <= self.free {
            self.free - self.tail
        } else {
            self.free + N - self.tail
        }
    }

    /// The place behind a place.
    fn after(place: usize) -> usize
        requires slot { place < N }
        requires few { N ≤ 64 }
        ensures { result ≡ (place + 1) % N }
    {
        if place + 1 == N { 0 } else { place + 1 }
    }

    /// The i-th block from the tail, which is block 0; none exactly where i or fewer blocks stand.
    pub fn get(&self, i: usize) -> Option<&Block>
        ensures none { IsNone result ↔ (length self.now ≤ i) }
        ensures some { IfSome result (λ b. b.now ≡ get_or self.now i b.now) }
    {
        if i >= self.len() {
            return None;
        }
        let place = self.tail + i;
        let place = if place < N { place } else { place - N };
        self.slots.as_slice().get(place)
    }

    /// The block that is run first; none exactly where no block stands.
    pub fn tail(&self) -> Option<&Block>
        ensures none { IsNone result ↔ (self.now ≡ []) }
        ensures some { IfSome result (λ b. self.now ≡ b.now ∷ drop 1 self.now) }
    {
        let first = first_place(self.tail, self.free, 64);
        self.slots.as_slice().get(first)
    }

    /// The block that is run first, for writing; none exactly where no block stands. What is left behind the reference
    /// stands in the tail's place afterwards.
    pub fn tail_mut(&mut self) -> Option<&mut Block>
        ensures* writes_back { sem 𝓛 (LendsTail N.row self.entry result) }
        ensures none { IsNone result ↔ (self.old ≡ []) }
        ensures some { IfSome result (λ b. self.old ≡ b.now ∷ drop 1 self.old) }
    {
        let place = first_place(self.tail, self.free, 64);
        self.slots.get_mut(place)
    }

    /// Puts a block behind the others, or hands it back exactly where N - 1 blocks stand.
    pub fn push(&mut self, b: Block) -> Result<(), Block>
        ensures room { IsOk result ↔ (length self.old + 1 < N) }
        ensures ok { OnOk result (self.new ≡ self.old ++ b ∷ []) }
        ensures full { OnErr result (self.new ≡ self.old) }
        ensures back { IfErr result (λ x. x ≡ b) }
    {
        let next = Self::after(self.free);
        if next == self.tail {
            return Err(b);
        }
        self.slots.as_mut_slice()[self.free] = b;
        self.free = next;
        Ok(())
    }

    /// Takes the tail away. A block must stand.
    pub fn drop_tail(&mut self)
        requires { 0 < length self.old }
        ensures { self.new ≡ drop 1 self.old }
    {
        let next = Self::after(self.tail);
        self.tail = next;
    }

    /// Takes all blocks away.
    pub fn clear(&mut self)
        ensures { self.new ≡ [] }
    {
        self.tail = self.free;
    }
}
