//! Worked rows of the settings.

use code_table::Code;
use settings::Settings;
use units::Decimal;

#[test]
fn the_fifteen_defaults_stand_in_order(rt: HostRuntime) {
    let settings = Settings::generic();
    let mut read = [(0, 0); 15];
    let mut count = 0;
    for n in 0..=u16::MAX {
        if let Some(value) = settings.get(n) {
            assert!(rt; count < 15);
            read[count] = (n, value);
            count += 1;
        }
    }
    assert_eq!(rt; count, 15);
    assert_eq!(rt;
        read,
        [
            (10, 1),
            (11, 10),
            (20, 0),
            (100, 250_000),
            (101, 250_000),
            (102, 250_000),
            (110, 500_000),
            (111, 500_000),
            (112, 500_000),
            (120, 10_000),
            (121, 10_000),
            (122, 10_000),
            (130, 200_000),
            (131, 200_000),
            (132, 200_000),
        ]
    );
}

#[test]
fn a_refusal_names_its_cause_and_changes_nothing(rt: HostRuntime) {
    const ROWS: &[(u16, i64, u8)] = &[
        (200, -1_000_000, 4),
        (5, 1_000_000, 3),
        (11, -1_000_000, 4),
        (11, -1, 4),
        (11, 10_001_000, 3),
        (10, 256_000_000, 3),
        (20, 256_000_000, 3),
        (100, 0, 3),
        (100, 999_999, 3),
        (101, 10_000_001_000, 3),
        (112, 1_000_000_001_000, 3),
        (122, 999_999, 3),
        (132, i64::MAX, 3),
        (132, i64::MIN, 4),
    ];
    for &(n, micro, code) in ROWS {
        let mut settings = Settings::generic();
        assert_eq!(rt;
            settings.set(n, Decimal { micro }),
            Err(Code(code)),
            "${n}={micro}"
        );
        assert_eq!(rt; settings, Settings::generic(), "${n}={micro}");
    }
}

#[test]
fn what_was_set_reads_back(rt: HostRuntime) {
    const ROWS: &[(u16, i64, u64)] = &[
        (10, 255_999_999, 255),
        (11, 500_000, 500),
        (11, 10_000_999, 10_000),
        (20, 999_999, 0),
        (20, 255_999_999, 1),
        (100, 1_000_000, 1_000),
        (101, 80_123_999, 80_123),
        (110, 1_000_000_000_000, 1_000_000_000),
        (121, 12_345_678, 12_345),
        (132, 10_000_000_000, 10_000_000),
    ];
    for &(n, micro, value) in ROWS {
        let mut settings = Settings::generic();
        assert_eq!(rt; settings.set(n, Decimal { micro }), Ok(()), "${n}={micro}");
        assert_eq!(rt; settings.get(n), Some(value), "${n}={micro}");
    }
}
