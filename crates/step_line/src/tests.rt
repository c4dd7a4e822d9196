use super::*;
use std::process::Abort;
use units::Steps3;

const START: Steps3 = Steps3 {
    x: 10,
    y: 20,
    z: -30,
};

fn expect_events(rt: &impl Abort, tracer: &mut Tracer, want: &[(i8, i8, i8)]) {
    for (x, y, z) in want {
        let (x, y, z) = (*x, *y, *z);
        assert_eq!(rt; tracer.next(), Some(Bits { x, y, z }));
    }
}

#[test]
fn traces_the_shorter_axes_evenly(rt: HostRuntime) {
    for ((x, y, z), want) in [
        ((2i8, 1i8, 0i8), [(1, 0, 0), (1, 1, 0)].as_slice()),
        ((3, 2, 0), [(1, 1, 0), (1, 0, 0), (1, 1, 0)].as_slice()),
        ((0, -1, -2), [(0, 0, -1), (0, -1, -1)].as_slice()),
        (
            (5, -2, 1),
            [(1, 0, 0), (1, -1, 0), (1, 0, 1), (1, -1, 0), (1, 0, 0)].as_slice(),
        ),
        ((0, 0, 0), [].as_slice()),
    ] {
        let to = Steps3 {
            x: START.x + x as i64,
            y: START.y + y as i64,
            z: START.z + z as i64,
        };
        let mut tracer = Tracer::new(Move { from: START, to });
        expect_events(&rt, &mut tracer, want);
        assert_eq!(rt; tracer.next(), None);
        assert_eq!(rt; tracer.next(), None, "after the end");
    }
}

#[test]
fn knows_the_place_after_some_events(rt: HostRuntime) {
    let far = Move {
        from: Steps3 {
            x: -100_000_000,
            y: 100_000_000,
            z: 0,
        },
        to: Steps3 {
            x: 100_000_000,
            y: -100_000_000,
            z: 1,
        },
    };
    assert_eq!(rt; events(&far), 200_000_000);
    for (k, x, y, z) in [
        (0, -100_000_000, 100_000_000, 0),
        (1, -99_999_999, 99_999_999, 0),
        (100_000_000, 0, 0, 0),
        (100_000_001, 1, -1, 1),
        (200_000_000, 100_000_000, -100_000_000, 1),
    ] {
        assert!(rt; k <= events(&far));
        assert_eq!(rt; position_after(&far, k), Steps3 { x, y, z }, "after {k}");
    }
}
