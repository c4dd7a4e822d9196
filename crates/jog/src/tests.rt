//! Jogs of text.

ghost use Rattle.std.specs.Prelude.{◌≤◌, length};
ghost use Rattle.settings.specs.Numbers.{IsSettings};

use crate::{JogMove, check_jog};
use code_table::Code;
use gcode_words::words;
use modal_state::Parser;
use settings::Settings;
use units::{Move, Nm3, Rate, Steps3};

/// What becomes of the words of a text from the opening state; error 2 where the text spells no words.
fn jog_of(settings: &Settings, text: &[u8]) -> Result<JogMove, Code>
    requires text { length text.now ≤ 79 }
    requires settings { IsSettings settings.now }
{
    match words(text) {
        Ok(words) => check_jog(&Parser::opening(), settings, &words),
        Err(_) => Err(Code::BAD_NUMBER),
    }
}

#[test]
fn the_first_error_of_a_jog_is_its_answer(rt: HostRuntime) {
    let generic = Settings::generic();
    let soft = Settings {
        soft: true,
        ..generic
    };
    for (text, error, soft_error) in [
        ("X1F10", None, Some(15)),
        ("X-200F10", None, None),
        ("X-200.001F10", None, Some(15)),
        ("G91G20X-1F1", None, None),
        ("G53X-1F10N10000000", None, None),
        ("X1", Some(22), Some(22)),
        ("X1F0", Some(22), Some(22)),
        ("F10", Some(26), Some(26)),
        ("G0F10", Some(26), Some(26)),
        ("G1X1F10", Some(16), Some(16)),
        ("G54X1F10", Some(16), Some(16)),
        ("G10L2P1X1F10", Some(36), Some(36)),
        ("G92X1F10", Some(16), Some(16)),
        ("M3X1F10", Some(16), Some(16)),
        ("X1F10S1", Some(36), Some(36)),
        ("X1F10T1", Some(36), Some(36)),
        ("X10001F10", Some(33), Some(33)),
        ("N10000001X1", Some(27), Some(27)),
        ("X1X2F10", Some(25), Some(25)),
        ("G90G91X1F10", Some(21), Some(21)),
        ("G2X1F10", Some(20), Some(20)),
        ("G1.5X1F10", Some(23), Some(23)),
        ("X1F-1", Some(4), Some(4)),
    ] {
        let bytes = text.as_bytes();
        assert!(rt; bytes.len() <= 79);
        let plain = jog_of(&generic, bytes).err().map(|code| code.0);
        assert_eq!(rt; plain, error, "{text}");
        let limited = jog_of(&soft, bytes).err().map(|code| code.0);
        assert_eq!(rt; limited, soft_error, "{text}");
    }
}

#[test]
fn a_jog_goes_by_its_own_units_and_feed(rt: HostRuntime) {
    let at = |x, y| Steps3 { x, y, z: 0 };
    assert!(rt;
        jog_of(&Settings::generic(), b"G20X1Y-0.1F2")
            == Ok(JogMove {
                mv: Move {
                    from: at(0, 0),
                    to: at(6350, -635)
                },
                rate: Rate::Jog(50_800_000),
                target: Nm3 {
                    x: 25_400_000,
                    y: -2_540_000,
                    z: 0
                },
            })
    );
}
