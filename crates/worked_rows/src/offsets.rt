//! Offsets, stored points and steps per mm.

use crate::runs::{expect_done, text_of};

#[test]
fn a_system_and_a_shift_add_to_the_point_of_a_line(rt: HostRuntime) {
    let alloc = rt.alloc();
    let steps = text_of(
        &rt,
        alloc,
        &[(b"X+\n", 2500), (b"X-\n", 1250), (b"D 0\nE\n", 1)],
    );
    expect_done(
        &rt,
        alloc,
        &[(
            b"G10L2P1X10\nG0X0\nG92X5\nG0X0\nG4P0",
            b"ok\r\nok\r\nok\r\nok\r\nok\r\n",
            steps.as_slice(),
        )],
    );
}

#[test]
fn a_stored_point_is_reached_over_the_given_one(rt: HostRuntime) {
    let alloc = rt.alloc();
    let steps = text_of(&rt, alloc, &[(b"X+\n", 750), (b"X-\n", 500), (b"E\n", 1)]);
    expect_done(
        &rt,
        alloc,
        &[(
            b"G0X1\nG28.1\nG0X3\nG28X2",
            b"ok\r\nok\r\nok\r\nok\r\n",
            steps.as_slice(),
        )],
    );
}

#[test]
fn offsets_by_themselves_move_nothing(rt: HostRuntime) {
    const ROWS: &[(&[u8], &[u8], &[u8])] = &[
        (b"G92X5", b"ok\r\n", b"E\n"),
        (b"G92X5\nG0X5", b"ok\r\nok\r\n", b"E\n"),
        (b"G10L2P1X10", b"ok\r\n", b"E\n"),
        // A point in machine coordinates knows no offset.
        (b"G92X5\nG53G0X0.004", b"ok\r\nok\r\n", b"X+\nE\n"),
        (b"G92X5\nG92.1\nG0X0.004", b"ok\r\nok\r\nok\r\n", b"X+\nE\n"),
        // The second system, so that the present place is -0.004 there.
        (b"G10L20P2X-0.004\nG55X0", b"ok\r\nok\r\n", b"X+\nE\n"),
        // The second stored point, on all axes.
        (
            b"G0X0.004\nG30.1\nG0X0\nG30",
            b"ok\r\nok\r\nok\r\nok\r\n",
            b"X+\nX-\nX+\nE\n",
        ),
    ];
    expect_done(&rt, rt.alloc(), ROWS);
}

#[test]
fn changed_steps_per_mm_move_with_the_next_line_of_motion(rt: HostRuntime) {
    // The dwell makes sure that the machine stands where it is set.
    const ROWS: &[(&[u8], &[u8], &[u8])] = &[
        (
            b"G0X0.004\nG4P0\n$100=500",
            b"ok\r\nok\r\nok\r\n",
            b"X+\nD 0\nE\n",
        ),
        // 0.004 mm are two steps now, and one is made.
        (
            b"G0X0.004\nG4P0\n$100=500\nX0.004",
            b"ok\r\nok\r\nok\r\nok\r\n",
            b"X+\nD 0\nX+\nE\n",
        ),
        // An axis that the line doesn't name keeps its point, which is at two steps now.
        (
            b"G0X0.004\nG4P0\n$100=500\nY0.004",
            b"ok\r\nok\r\nok\r\nok\r\n",
            b"X+\nD 0\nX+Y+\nE\n",
        ),
    ];
    expect_done(&rt, rt.alloc(), ROWS);
}
