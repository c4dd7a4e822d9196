use super::*;
use std::test::Fail;

#[test]
fn reads_the_longest_number(rt: HostRuntime) {
    for (text, at, micro, end) in [
        ("1.5", 0, 1_500_000, 3),
        ("X12.5Y", 1, 12_500_000, 5),
        ("+.5", 0, 500_000, 3),
        ("-007.", 0, -7_000_000, 5),
        ("1.2.3", 0, 1_200_000, 3),
        ("1-2", 0, 1_000_000, 1),
        ("-0.0000019", 0, -1, 10),
        ("0.1234567890", 0, 123_456, 12),
        ("999999999.9999999", 0, 999_999_999_999_999, 17),
        ("-00999999999", 0, -999_999_999_000_000, 12),
    ] {
        let text = text.as_bytes();
        assert!(rt; at <= text.len());
        assert!(rt;
            read_decimal(text, at) == Ok((Decimal { micro }, end)),
            "{micro}"
        );
    }
}

#[test]
fn refuses_what_has_no_digit_and_what_is_too_large(rt: HostRuntime) {
    for (text, at, fault) in [
        ("", 0, NumFault::NoDigit),
        ("12", 2, NumFault::NoDigit),
        ("+", 0, NumFault::NoDigit),
        ("-.", 0, NumFault::NoDigit),
        ("--1", 0, NumFault::NoDigit),
        ("X1", 0, NumFault::NoDigit),
        ("1000000000", 0, NumFault::TooLarge),
        ("-1000000000.5", 0, NumFault::TooLarge),
        ("100000000000000000000000000000", 0, NumFault::TooLarge),
    ] {
        let text = text.as_bytes();
        assert!(rt; at <= text.len());
        assert!(rt; read_decimal(text, at) == Err(fault), "{fault:?}");
    }
}

#[test]
fn rounds_half_away_from_zero(rt: HostRuntime) {
    for (nm, per_mm, steps) in [
        (2_540_i64, 250_000, 1),
        (1_999, 250_000, 0),
        (2_000, 250_000, 1),
        (-2_000, 250_000, -1),
        (6_000, 250_000, 2),
        (10_000, 250_000, 3),
        (-10_000, 250_000, -3),
        (10_000_000_000, 10_000_000, 100_000_000),
        (-10_000_000_000, 1_000, -10_000),
    ] {
        assert!(rt; nm.unsigned_abs() <= 10_000_000_000 && 1_000 <= per_mm && per_mm <= 10_000_000);
        assert_eq!(rt; to_steps(nm, per_mm), steps, "{nm} {per_mm}");
    }
    for (steps, per_mm, nm, thousandths) in [
        (1_i64, 250_000, 4_000, 4),
        (1, 3_200, 312_500, 313),
        (-1, 3_200, -312_500, -313),
        (1, 1_024, 976_563, 977),
        (-1, 1_024, -976_563, -977),
        (100_000_000, 1_000, 100_000_000_000_000, 100_000_000_000),
    ] {
        assert!(rt; steps.unsigned_abs() <= 100_000_000 && 1_000 <= per_mm && per_mm <= 10_000_000);
        assert_eq!(rt; to_nm(steps, per_mm), nm, "{steps} {per_mm}");
        assert_eq!(rt;
            to_thousandths(steps, per_mm),
            thousandths,
            "{steps} {per_mm}"
        );
    }
    for (nm, thousandths) in [
        (499, 0),
        (500, 1),
        (-500, -1),
        (2_500, 3),
        (i64::MAX, 9_223_372_036_854_776),
        (i64::MIN, -9_223_372_036_854_776),
    ] {
        assert_eq!(rt; nm_to_thousandths(nm), thousandths);
    }
}

#[test]
fn cuts_inches_toward_zero(rt: HostRuntime) {
    for (micro, nm) in [
        (100_i64, 2_540),
        (1, 25),
        (-1, -25),
        (999_999_999_999_999, 25_399_999_999_999_974),
        (-999_999_999_999_999, -25_399_999_999_999_974),
    ] {
        assert!(rt; micro.unsigned_abs() < 1_000_000_000_000_000);
        assert_eq!(rt; inch_to_nm(micro), nm);
    }
}

#[test]
fn finds_roots_at_squares_and_below(rt: HostRuntime) {
    let square = u64::MAX as u128 * u64::MAX as u128;
    for (x, root) in [
        (0, 0),
        (1, 1),
        (3, 1),
        (4, 2),
        (24, 4),
        (25, 5),
        ((1 << 62) - 1, 2_147_483_647),
        (1 << 62, 2_147_483_648),
        (u64::MAX as u128, 4_294_967_295),
        (u64::MAX as u128 + 1, 4_294_967_296),
        (square - 1, u64::MAX - 1),
        (square, u64::MAX),
        (u128::MAX, u64::MAX),
    ] {
        assert_eq!(rt; isqrt(x), root, "{x}");
    }
}

#[test]
fn writes_three_decimals(rt: HostRuntime) -> Result<(), Fail> {
    for (v, text) in [
        (0, "0.000"),
        (-1, "-0.001"),
        (60, "0.060"),
        (200_000, "200.000"),
        (-1_234_567, "-1234.567"),
        (i64::MAX, "9223372036854775.807"),
        (i64::MIN, "-9223372036854775.808"),
    ] {
        let mut out = Text::new();
        put_fixed3(v, &mut out);
        assert!(rt; out.as_slice() == text.as_bytes(), "{v}");
    }
    Ok(())
}

#[test]
fn faults_have_texts(rt: HostRuntime) -> Result<(), Fail> {
    for (fault, text) in [
        (NumFault::NoDigit, "expected a digit"),
        (
            NumFault::TooLarge,
            "number out of range, its magnitude must be below 1,000,000,000",
        ),
    ] {
        assert_eq!(rt; format!(in rt.alloc(); "{fault}")?.as_str(), text);
    }
    Ok(())
}
