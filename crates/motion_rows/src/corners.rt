//! Worked corners.

use junction_speed::junction;
use line_geom::{Cap, Geom};

/// A move of 250 steps at 250 steps per mm, in a direction, with an acceleration of 10 mm/s².
fn towards(ux: i32, uy: i32) -> Geom {
    Geom {
        n: 250,
        length: 1_000_000,
        ux,
        uy,
        uz: 0,
        accel: 10_000,
        rapid: 8333,
        q: 80_000,
    }
}

#[test]
fn caps_the_speed_by_the_turn(rt: HostRuntime) {
    let right = towards(1_000_000, 0);
    let left = towards(-1_000_000, 0);
    let up = towards(0, 1_000_000);
    assert_eq!(rt; junction(&right, &right, 10), Cap::Free);
    assert_eq!(rt; junction(&right, &up, 10), Cap::At(241_420));
    assert_eq!(rt; junction(&right, &left, 10), Cap::At(0));
}

#[test]
fn nearly_stops_where_a_slanting_move_turns_back(rt: HostRuntime) {
    let there = towards(707_106, 707_106);
    let back = towards(-707_106, -707_106);
    assert_eq!(rt; junction(&there, &back, 10), Cap::At(122));
}
