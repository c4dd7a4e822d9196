//! Worked rows of `$` lines.

ghost use Rattle.std.specs.Prelude.{◌≡◌, IsTrue, ◌↔◌, Some, slice_get};
ghost use Rattle.settings.specs.Numbers.{IsSettings};

use code_table::Code;
use settings::Settings;
use std::process::Abort;
use system_lines::{Command, Kind, apply_setting, read_command};
use units::Decimal;

fn begins_with_dollar(line: &[u8]) -> bool
    ensures { IsTrue result ↔ (slice_get line.now 0 ≡ Some 36) }
{
    !line.is_empty() && line[0] == b'$'
}

fn assert_reads(rt: &impl Abort, line: &str, wanted: Result<Command, Code>) {
    let kept = line.as_bytes();
    assert!(rt; begins_with_dollar(kept));
    assert!(rt; read_command(kept) == wanted, "{line}");
}

#[test]
fn lines_are_of_a_kind_before_they_are_read(rt: HostRuntime) {
    const ROWS: &[(&str, Kind)] = &[
        ("$$", Kind::ListSettings),
        ("$G", Kind::ListModes),
        ("$X", Kind::Unlock),
        ("$#", Kind::ListOffsets),
        ("$Z", Kind::Setting),
        ("$10:1", Kind::Setting),
        ("$J=X1F100", Kind::Jog),
        ("$J=", Kind::Jog),
        ("$J", Kind::BareJog),
        ("$JX1", Kind::BareJog),
        ("$", Kind::Other),
        ("$$5", Kind::Other),
        ("$H", Kind::Other),
    ];
    for &(line, kind) in ROWS {
        let kept = line.as_bytes();
        assert!(rt; begins_with_dollar(kept));
        assert!(rt; Kind::of(kept) == kind, "{line}");
    }
}

#[test]
fn lines_are_read_whole(rt: HostRuntime) {
    const ROWS: &[(&str, Command)] = &[
        ("$$", Command::ListSettings),
        ("$G", Command::ListModes),
        ("$#", Command::ListOffsets),
        ("$X", Command::Unlock),
    ];
    for &(line, command) in ROWS {
        assert_reads(&rt, line, Ok(command));
    }
    const SETS: &[(&str, u8, i64)] = &[
        ("$11=0.5", 11, 500_000),
        ("$+10=1", 10, 1_000_000),
        ("$255.0=-1", 255, -1_000_000),
        ("$-0=5", 0, 5_000_000),
        ("$020=0.0000009", 20, 0),
        ("$.0=.5", 0, 500_000),
    ];
    for &(line, n, micro) in SETS {
        let value = Decimal { micro };
        assert_reads(&rt, line, Ok(Command::Set { n, value }));
    }
}

#[test]
fn the_first_fault_is_told(rt: HostRuntime) {
    const ROWS: &[(&str, u8)] = &[
        ("$", 3),
        ("$$5", 3),
        ("$GG", 3),
        ("$J", 3),
        ("$J=X1F100", 3),
        ("$H", 3),
        ("$N0=", 3),
        ("$RST=*", 3),
        ("$C", 3),
        ("$I", 3),
        ("$SLP", 3),
        ("$Z", 2),
        ("$=5", 2),
        ("$1000000000=1", 2),
        ("$Z=Z", 2),
        ("$10", 3),
        ("$10:1", 3),
        ("$300", 3),
        ("$10=", 2),
        ("$1.5=Z", 2),
        ("$10==1", 2),
        ("$10=1.2.3", 3),
        ("$10=1=", 3),
        ("$1.5=1", 3),
        ("$-1=5", 3),
        ("$300=-1", 3),
        ("$256=1", 3),
    ];
    for &(line, code) in ROWS {
        assert_reads(&rt, line, Err(Code(code)));
    }
}

/// Checks what comes of a setting line.
fn assert_sets(rt: &impl Abort, line: &str, wanted: Result<(u8, u64), u8>) {
    let kept = line.as_bytes();
    assert!(rt; begins_with_dollar(kept));
    let mut settings = Settings::generic();
    let mut set = None;
    match read_command(kept) {
        Ok(Command::Set { n, value }) => match apply_setting(&mut settings, n, value) {
            Ok(()) => {
                set = settings.get(u16::from(n)).map(|value| Ok((n, value)));
            }
            Err(code) => {
                set = Some(Err(code.0));
            }
        },
        _ => {}
    }
    assert!(rt; set == Some(wanted), "{line}");
    assert!(rt; wanted.is_ok() || settings == Settings::generic(), "{line}");
}

#[test]
fn settings_are_set_or_stay(rt: HostRuntime) {
    const ROWS: &[(&str, Result<(u8, u64), u8>)] = &[
        ("$11=0.5", Ok((11, 500))),
        ("$10=255.9", Ok((10, 255))),
        ("$20=0.9", Ok((20, 0))),
        ("$132=10000", Ok((132, 10_000_000))),
        ("$200=-1", Err(4)),
        ("$5=1", Err(3)),
        ("$11=-1", Err(4)),
        ("$100=0", Err(3)),
        ("$20=1", Ok((20, 1))),
        ("$20=255.9", Ok((20, 1))),
        ("$20=-1", Err(4)),
        ("$20=-0.5", Err(4)),
        ("$20=256", Err(3)),
        ("$110=1000000.001", Err(3)),
    ];
    for &(line, wanted) in ROWS {
        assert_sets(&rt, line, wanted);
    }
}
