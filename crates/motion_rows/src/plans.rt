//! Worked plans.

use crate::fixtures::{FEED, add, block};
use overrides::Overrides;
use plan_passes::Plan;
use segment_prep::{Mode, next_segment};
use std::test::Fail;

#[test]
fn exits_as_the_next_block_allows(rt: HostRuntime) {
    let mut plan = Plan::<16>::new();
    add(&rt, &mut plan, FEED, 2500, 0);
    assert_eq!(rt; plan.exit_of_tail(), 0);
    assert_eq!(rt; plan.planned(), 0);
    add(&rt, &mut plan, FEED, 2500, 0);
    assert_eq!(rt; plan.exit_of_tail(), 69_438_889);
    assert_eq!(rt; plan.planned(), 1);
}

#[test]
fn slows_down_for_a_corner(rt: HostRuntime) {
    let mut plan = Plan::<16>::new();
    add(&rt, &mut plan, FEED, 250, 0);
    add(&rt, &mut plan, FEED, 0, 250);
    assert_eq!(rt; plan.exit_of_tail(), 241_420);
}

#[test]
fn takes_fifteen_blocks(rt: HostRuntime) -> Result<(), Fail> {
    let mut plan = Plan::<16>::new();
    for _ in 0..15u32 {
        add(&rt, &mut plan, FEED, 250, 0);
    }
    assert_eq!(rt; plan.len(), 15);
    let right = block(FEED, 250, 0).ok_or("no steps")?;
    assert_eq!(rt; plan.add(right, 10, &Overrides::normal()), Err(right));
    plan.clear();
    assert_eq!(rt; plan.len(), 0);
    Ok(())
}

#[test]
fn runs_from_rest_to_rest(rt: HostRuntime) {
    let overrides = Overrides::normal();
    let mut plan = Plan::<16>::new();
    add(&rt, &mut plan, FEED, 2500, 0);
    add(&rt, &mut plan, FEED, 0, 250);
    assert!(rt; next_segment(&mut plan, &overrides, Mode::Go).is_some());
    assert_eq!(rt; plan.speed(), 80_000);
    for _ in 0..1000u32 {
        if next_segment(&mut plan, &overrides, Mode::Go).is_none() {
            break;
        }
    }
    assert_eq!(rt; plan.len(), 0);
    assert_eq!(rt; plan.speed(), 0);
}
