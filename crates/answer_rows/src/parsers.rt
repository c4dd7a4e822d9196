//! Worked rows of the parser's state.

ghost use Rattle.modal_state.specs.Modes.{IsParser, IsSystem};

use modal_state::{MotionMode, Parser, SpindleMode};
use units::{Nm3, Per3, Steps3};

#[test]
fn a_place_in_steps_is_the_position(rt: HostRuntime) {
    let per_mm = Per3 {
        x: 250_000,
        y: 250_000,
        z: 300_000,
    };
    let mut parser = Parser::opening();
    parser.rebase(
        Steps3 {
            x: 250,
            y: -1,
            z: 2,
        },
        &per_mm,
    );
    assert_eq!(rt;
        parser.pos_nm,
        Nm3 {
            x: 1_000_000,
            y: -4_000,
            z: 6_667
        }
    );
    assert_eq!(rt;
        parser.pos_steps,
        Steps3 {
            x: 250,
            y: -1,
            z: 2
        }
    );
    assert_eq!(rt; parser.modal, Parser::opening().modal);
    assert_eq!(rt; parser.offsets, Parser::opening().offsets);
}

/// A parser whose systems have the offsets 1 to 6 nm on X, and G92 10 nm.
fn in_system(system: u8) -> Parser
    requires { IsSystem system }
    ensures { IsParser result }
{
    let mut parser = Parser::opening();
    parser.offsets.s1 = Nm3 { x: 1, y: 0, z: 0 };
    parser.offsets.s2 = Nm3 { x: 2, y: 0, z: 0 };
    parser.offsets.s3 = Nm3 { x: 3, y: 0, z: 0 };
    parser.offsets.s4 = Nm3 { x: 4, y: 0, z: 0 };
    parser.offsets.s5 = Nm3 { x: 5, y: 0, z: 0 };
    parser.offsets.s6 = Nm3 { x: 6, y: 0, z: 0 };
    parser.offsets.g92 = Nm3 {
        x: 10,
        y: 20,
        z: -30,
    };
    parser.modal.system = system;
    parser
}

#[test]
fn the_work_offset_is_that_of_the_system_and_g92(rt: HostRuntime) {
    for (system, x) in (1..7).zip([11, 12, 13, 14, 15, 16]) {
        assert!(rt; 1 <= system && system <= 6);
        assert_eq!(rt;
            in_system(system).wco(),
            Nm3 { x, y: 20, z: -30 },
            "system {system}"
        );
    }
}

#[test]
fn the_end_of_a_program_keeps_feed_speed_tool_and_units(rt: HostRuntime) {
    let mut parser = Parser::opening();
    parser.modal.plane = 19;
    parser.modal.inch = true;
    parser.modal.relative = true;
    parser.modal.system = 4;
    parser.modal.spindle = SpindleMode::Ccw;
    parser.modal.flood = true;
    parser.feed = 200_000_000;
    parser.rpm = 1000;
    parser.tool = 7;
    let mut ended = parser;
    ended.end_program();
    assert_eq!(rt;
        (ended.modal.motion, ended.modal.plane, ended.modal.system),
        (MotionMode::G1, 17, 1)
    );
    assert_eq!(rt; (ended.modal.relative, ended.modal.inch), (false, true));
    assert_eq!(rt;
        (ended.modal.spindle, ended.modal.flood),
        (SpindleMode::Off, false)
    );
    assert_eq!(rt; (ended.feed, ended.rpm, ended.tool), (200_000_000, 1000, 7));
    assert_eq!(rt; ended.offsets, parser.offsets);
}
