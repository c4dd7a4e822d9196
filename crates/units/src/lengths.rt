//! Lengths in nanometres, in steps and in thousandths of a millimetre.

ghost use Rattle.std.specs.Prelude.{◌≡◌, ◌≤◌, ◌<◌, nat_abs};
ghost use Rattle.units.specs.Rounding.{KeepsSign};
ghost use Rattle.units.specs.Lengths.{IsScale, IsInReach, IsCoordinate, steps_of, nm_of, thousandths_of, thousandths_of_nm, nm_of_inch};

use crate::rounding::{rounded_quotient, with_sign_of};

/// A length in millionths of an inch, in nm: `micro * 254 / 10` cut toward zero.
#[tactic(auto, unfolding(crate::specs::Lengths::nm_of_inch))]
pub fn inch_to_nm(micro: i64) -> i64
    requires { nat_abs micro < 1000000000000000 }
    ensures nm { result ≡ nm_of_inch micro }
    ensures small { nat_abs result < 25400000000000000 }
    ensures sign { KeepsSign micro result }
{
    with_sign_of(micro, micro.unsigned_abs() * 254 / 10)
}

/// The steps of a length: `nm * per_mm / 10^9` rounded half away from zero.
pub fn to_steps(nm: i64, per_mm: u32) -> i64
    requires length { IsInReach nm }
    requires scale { IsScale per_mm }
    ensures steps { result ≡ steps_of nm per_mm }
    ensures few { IsCoordinate result }
    ensures sign { KeepsSign nm result }
{
    rounded_quotient(nm * per_mm as i64, 1_000_000_000)
}

/// The length of steps in nm: `steps * 10^9 / per_mm` rounded half away from zero.
pub fn to_nm(steps: i64, per_mm: u32) -> i64
    requires steps { IsCoordinate steps }
    requires scale { IsScale per_mm }
    ensures nm { result ≡ nm_of steps per_mm }
    ensures small { nat_abs result ≤ 100000000000000 }
    ensures sign { KeepsSign steps result }
{
    rounded_quotient(steps * 1_000_000_000, per_mm as u64)
}

/// The length of steps in thousandths of a mm: `steps * 10^6 / per_mm` rounded half away from zero.
pub fn to_thousandths(steps: i64, per_mm: u32) -> i64
    requires steps { IsCoordinate steps }
    requires scale { IsScale per_mm }
    ensures thousandths { result ≡ thousandths_of steps per_mm }
    ensures small { nat_abs result ≤ 100000000000 }
    ensures sign { KeepsSign steps result }
{
    rounded_quotient(steps * 1_000_000, per_mm as u64)
}

/// A length in nm, in thousandths of a mm: `nm / 1000` rounded half away from zero.
pub fn nm_to_thousandths(nm: i64) -> i64
    ensures thousandths { result ≡ thousandths_of_nm nm }
    ensures small { nat_abs result ≤ 9223372036854776 }
    ensures sign { KeepsSign nm result }
{
    rounded_quotient(nm, 1000)
}
