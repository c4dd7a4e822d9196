//! Blocks in and out of rings.

ghost use Rattle.std.specs.Prelude.{◌≡◌, ◌∷◌, List};
ghost use Rattle.line_geom.specs.declared.Block.{Block};

use line_geom::{Cap, Geom};
use planner_ring::{Block, Ring};
use units::{Move, Rate, Steps3};

fn of_line(line: u32) -> Block
    ensures { result.line ≡ line }
{
    let here = Steps3 { x: 0, y: 0, z: 0 };
    let there = Steps3 { x: 250, y: 0, z: 0 };
    let geom = Geom {
        n: 250,
        length: 1_000_000,
        ux: 1_000_000,
        uy: 0,
        uz: 0,
        accel: 10_000,
        rapid: 8333,
        q: 80_000,
    };
    Block {
        line,
        mv: Move {
            from: here,
            to: there,
        },
        rate: Rate::Rapid,
        geom,
        prepared: 0,
        entry: Cap::Free,
    }
}

/// Marks step events of the tail as prepared.
fn prepare<const N: usize>(ring: &mut Ring<N>, prepared: u32)
    ensures { (b : Block) (bs : List Block) → ring.old ≡ b ∷ bs → ring.new ≡ record b { prepared = prepared } ∷ bs }
{
    if let Some(tail) = ring.tail_mut() {
        tail.prepared = prepared;
    }
}

#[test]
fn keeps_the_order_round_the_end(rt: HostRuntime) {
    let mut ring = Ring::<3>::new();
    assert_eq!(rt; ring.tail(), None);
    assert_eq!(rt; ring.push(of_line(1)), Ok(()));
    assert_eq!(rt; ring.push(of_line(2)), Ok(()));
    assert_eq!(rt; ring.push(of_line(3)), Err(of_line(3)));
    ring.drop_tail();
    assert_eq!(rt; ring.push(of_line(3)), Ok(()));
    assert_eq!(rt; ring.len(), 2);
    assert_eq!(rt; ring.get(0).map(|b| b.line), Some(2));
    assert_eq!(rt; ring.get(1).map(|b| b.line), Some(3));
    assert_eq!(rt; ring.get(2).map(|b| b.line), None);
    prepare(&mut ring, 5);
    assert_eq!(rt; ring.tail().map(|b| b.prepared), Some(5));
    assert_eq!(rt; ring.get(1).map(|b| b.prepared), Some(0));
    ring.clear();
    assert_eq!(rt; ring.len(), 0);
}

#[test]
fn takes_one_block_less_than_its_slots(rt: HostRuntime) {
    let mut ring = Ring::<16>::new();
    for line in 1..16u32 {
        assert_eq!(rt; ring.push(of_line(line)), Ok(()));
    }
    assert_eq!(rt; ring.push(of_line(16)), Err(of_line(16)));
    assert_eq!(rt; ring.len(), 15);
}
