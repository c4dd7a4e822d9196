//! Verdicts of lines of text.

ghost use Rattle.std.specs.Prelude.{◌≤◌, length, IfSome};
ghost use Rattle.modal_state.specs.Modes.{IsParser};
ghost use Rattle.settings.specs.Numbers.{IsSettings};

use gcode_check::{Item, Verdict, check};
use gcode_words::{WordFault, words};
use modal_state::Parser;
use settings::Settings;

/// The number of the error of a first line, 0 for an accepted line.
fn error_of(line: &[u8]) -> u8
    requires { length line.now ≤ 79 }
{
    let words = match words(line) {
        Ok(words) => words,
        Err(WordFault::Letter) => return 1,
        Err(WordFault::Number) => return 2,
    };
    match check(&Parser::opening(), &Settings::generic(), &words) {
        Verdict::Accept(_) => 0,
        Verdict::Refuse(code) => code.0,
        Verdict::Limit => 255,
    }
}

/// A first line, and the number of its error, or 0.
const ERRORS: &[(&str, u8)] = &[
    ("X", 2),
    ("1X", 1),
    ("%", 1),
    ("F-1", 4),
    ("F-0.0000001", 0),
    ("G17G18", 21),
    ("G49G49", 21),
    ("M3M4", 21),
    ("G1.25", 23),
    ("G10.5", 23),
    ("M-1.5", 23),
    ("G1.5H1", 23),
    ("G1.0000001X1F10", 0),
    ("M-1", 20),
    ("G-1", 20),
    ("G61.1", 20),
    ("G28.25", 20),
    ("G2X1Y1I1J0", 20),
    ("A1", 20),
    ("M6", 20),
    ("G0G1X1", 24),
    ("G0G28X1", 24),
    ("X1X2", 25),
    ("T256", 38),
    ("T1T256", 38),
    ("T255.5", 38),
    ("T255", 0),
    ("N10000001", 27),
    ("N10000000.9", 0),
    ("G4", 28),
    ("G10X1", 28),
    ("G10L2P1", 26),
    ("G10L2P7X0", 29),
    ("G10L2P6.9X0", 0),
    ("G10L2.5P1X1", 20),
    ("G10P1X1", 20),
    ("G10L2P1X1R1", 20),
    ("G92", 26),
    ("G53G80X1", 30),
    ("G80X1", 31),
    ("G80G92X1", 31),
    ("G1X1", 22),
    ("G1F100", 0),
    ("G1", 22),
    ("P1", 36),
    ("G0L1", 36),
    ("G0I1", 36),
    ("G0R1", 36),
    ("X10001", 33),
    ("X10000", 0),
    ("G10L2P1X10001", 33),
    ("G92X-10000.000001", 33),
    ("", 0),
    ("G0X0", 0),
    ("G94G17G40G49G61G91.1G21M1", 0),
];

#[test]
fn the_first_error_of_a_line_is_its_answer(rt: HostRuntime) {
    for (line, error) in ERRORS {
        let text = line.as_bytes();
        assert!(rt; text.len() <= 79);
        assert_eq!(rt; error_of(text), *error, "{line}");
    }
}

/// The end in X, in steps, and the number of moves of lines from the opening state, where all are accepted.
fn run(s: &Settings, lines: &[&str]) -> Option<(i64, usize)>
    requires { IsSettings s.now }
{
    let mut parser = Parser::opening();
    let mut moves: usize = 0;
    for line in lines {
        let line = line.as_bytes();
        if line.len() > 79 {
            return None;
        }
        let words = match words(line) {
            Ok(words) => words,
            Err(_) => return None,
        };
        match check(&parser, s, &words) {
            Verdict::Accept(accept) => {
                moves = moves.wrapping_add(
                    accept
                        .items
                        .as_slice()
                        .iter()
                        .filter(|item| matches!(item, Item::Move(..)))
                        .count(),
                );
                parser = accept.next;
            }
            _ => return None,
        }
    }
    Some((parser.pos_steps.x, moves))
}

/// Lines from the opening state, and what they give.
const ENDS: &[(&[&str], Option<(i64, usize)>)] = &[
    (&["G20", "G0X0.0001"], Some((1, 1))),
    (&["G10L2P1X10", "G0X0"], Some((2500, 1))),
    (&["G10L2P1X10", "G0X0", "G92X5", "G0X0"], Some((1250, 2))),
    (&["G10L2P2X4", "G55X0", "G53X1", "G91X1"], Some((500, 3))),
    (&["G0X1", "G28.1", "G0X3", "G28X2"], Some((250, 4))),
    (&["G0X1", "G30.1", "G30Y1", "G30"], Some((250, 4))),
    (&["G28.1X3", "G28"], Some((0, 2))),
    (&["G92X5", "G92.1", "X1", ""], Some((250, 1))),
    (&["G10L20P1X5", "G0X6"], Some((250, 1))),
];

#[test]
fn lines_go_by_the_offsets_and_points_before_them(rt: HostRuntime) {
    let generic = Settings::generic();
    let soft = Settings {
        soft: true,
        ..generic
    };
    for (i, (lines, end)) in ENDS.iter().enumerate() {
        assert_eq!(rt; run(&generic, lines), *end, "row {i}");
    }
    assert_eq!(rt; run(&soft, &["G0X-200"]), Some((-50_000, 1)));
    assert_eq!(rt; run(&soft, &["G0X-200.004"]), None);
    assert_eq!(rt; run(&soft, &["G0X1"]), None);
}
