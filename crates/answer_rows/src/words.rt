//! Lines that are stripped, and the words that they spell.

ghost use Rattle.std.specs.Prelude.{◌↔◌, ◌≢◌, IsTrue};
ghost use Rattle.std.specs.List.{All};

use gcode_words::{LineBuf, Strip, Stripped, Stripper, Word, WordFault, strip, words};
use std::alloc::Global;
use std::process::Abort;
use std::test::Fail;
use units::Decimal;

fn is_one_line(raw: &[u8]) -> bool
    ensures { IsTrue result ↔ All (λ b. b ≢ 10) raw.now }
{
    raw.iter().all(|byte| *byte != b'\n')
}

fn assert_strips(rt: &impl Abort, raw: &[u8], answer: Strip, kept: &[u8]) {
    let mut out = LineBuf::new();
    out.push(b'#');
    assert!(rt; is_one_line(raw));
    assert_eq!(rt; strip(raw, &mut out), answer);
    assert_eq!(rt; out.as_slice(), kept);
}

/// `front`, and then a byte so many times.
fn padded(alloc: Global, front: &[u8], byte: u8, count: usize) -> Result<Vec<u8>, Fail> {
    let mut text = Vec::from_slice(alloc, front)?;
    for _ in 0..count {
        text.push(byte)?;
    }
    Ok(text)
}

#[test]
fn lines_are_stripped(rt: HostRuntime) -> Result<(), Fail> {
    const ROWS: &[(&[u8], &[u8])] = &[
        (b"", b""),
        (b"g1 x-1.5\tF100\r", b"G1X-1.5F100"),
        (b"/g0 { ^ }", b"G0{^}"),
        (b"g?0!~\x18x\x801\xff", b"G0X1"),
        (b"g(mm?)0 (two) x1", b"G0X1"),
        (b"g0(one;two)x1;three)y1(four", b"G0X1"),
        (b"g0)x1(", b"G0)X1"),
        (b"((g0)x1)", b"X1)"),
    ];
    for &(raw, kept) in ROWS {
        assert_strips(&rt, raw, Strip::Line, kept);
    }
    let mut comment = padded(rt.alloc(), b"g21(?!", b'x', 297)?;
    comment.push(b')')?;
    assert_strips(&rt, comment.as_slice(), Strip::Line, b"G21");
    Ok(())
}

#[test]
fn a_line_of_79_kept_bytes_fits_and_one_of_80_does_not(rt: HostRuntime) -> Result<(), Fail> {
    let full = padded(rt.alloc(), b"N", b'0', 78)?;
    let spaced = padded(rt.alloc(), full.as_slice(), b' ', 9)?;
    let over = padded(rt.alloc(), full.as_slice(), b'0', 1)?;
    assert_strips(&rt, full.as_slice(), Strip::Line, full.as_slice());
    assert_strips(&rt, spaced.as_slice(), Strip::Line, full.as_slice());
    assert_strips(&rt, over.as_slice(), Strip::Overflow, full.as_slice());
    Ok(())
}

#[test]
fn bytes_are_answered_one_by_one(rt: HostRuntime) {
    let mut stripper = Stripper::new();
    const ROWS: &[(u8, Stripped)] = &[
        (b'g', Stripped::Keep(b'G')),
        (b'?', Stripped::Realtime(b'?')),
        (b'(', Stripped::Nothing),
        (b'?', Stripped::Nothing),
        (b')', Stripped::Nothing),
        (0x85, Stripped::Realtime(0x85)),
        (b'\r', Stripped::Nothing),
        (b';', Stripped::Nothing),
        (b')', Stripped::Nothing),
        (0x18, Stripped::Nothing),
        (b'\n', Stripped::LineEnd),
        (0x18, Stripped::Realtime(0x18)),
        (b'(', Stripped::Nothing),
        (b'\n', Stripped::LineEnd),
        (b')', Stripped::Keep(b')')),
    ];
    for &(byte, answer) in ROWS {
        assert_eq!(rt; stripper.feed(byte), answer, "at {byte}");
    }
}

fn word(letter: u8, micro: i64) -> Word {
    Word {
        letter,
        value: Decimal { micro },
    }
}

#[test]
fn a_line_spells_its_words(rt: HostRuntime) -> Result<(), Fail> {
    let line = b"G1X-1.5Y+.25Z2.F999999999.9999999";
    let spelled = words(line)?;
    let wanted = [
        word(b'G', 1_000_000),
        word(b'X', -1_500_000),
        word(b'Y', 250_000),
        word(b'Z', 2_000_000),
        word(b'F', 999_999_999_999_999),
    ];
    assert_eq!(rt; spelled.as_slice(), wanted.as_slice());
    assert_eq!(rt; words(b"")?.as_slice(), [].as_slice());
    Ok(())
}

#[test]
fn the_first_place_without_a_word_is_the_fault(rt: HostRuntime) {
    const ROWS: &[(&[u8], WordFault)] = &[
        (b"X", WordFault::Number),
        (b"1X", WordFault::Letter),
        (b"x1", WordFault::Letter),
        (b"G1X", WordFault::Number),
        (b"XX1", WordFault::Number),
        (b"G1-X1", WordFault::Letter),
        (b"X1.2.3Y", WordFault::Letter),
        (b"X-.", WordFault::Number),
        (b"X1000000000", WordFault::Number),
        (b"[X1", WordFault::Letter),
    ];
    for &(line, fault) in ROWS {
        assert!(rt; line.len() <= 79);
        match words(line) {
            Ok(_) => assert!(rt; false, "{line:?} spells words"),
            Err(found) => assert_eq!(rt; found, fault, "at {line:?}"),
        }
    }
}

#[test]
fn faults_have_texts(rt: HostRuntime) -> Result<(), Fail> {
    const ROWS: &[(WordFault, &str)] = &[
        (WordFault::Letter, "a word begins with a letter from A to Z"),
        (
            WordFault::Number,
            "a letter is followed by a number below 1,000,000,000",
        ),
    ];
    for &(fault, text) in ROWS {
        assert_eq!(rt; format!(in rt.alloc(); "{fault}")?.as_str(), text);
    }
    Ok(())
}
