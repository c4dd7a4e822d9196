//! Rounding to the nearest whole number.

ghost use Rattle.std.specs.Prelude.{◌≡◌, ℕ, ◌+◌, ◌*◌, ◌/◌, ◌<◌, ◌^◌, ℤ, nat_abs};
ghost use Rattle.units.specs.Rounding.{with_sign_of, rounded_quotient, IsNearest};

/// A magnitude with the sign of a number.
pub(crate) fn with_sign_of(number: i64, magnitude: u64) -> i64
    requires { magnitude < 2 ^ 63 }
    ensures value { result ≡ with_sign_of number magnitude }
    ensures size { nat_abs result ≡ magnitude }
{
    if number < 0 {
        -(magnitude as i64)
    } else {
        magnitude as i64
    }
}

/// The whole number nearest to `number / divisor`; a half goes up.
#[tactic(auto, using(crate::proofs::Nearest::half_down, crate::proofs::Nearest::half_up))]
fn rounded_magnitude(number: u64, divisor: u64) -> u64
    requires { 1 < divisor }
    ensures { result ≡ (2 * number + divisor) / (2 * divisor) }
{
    let whole = number / divisor;
    let rest = number % divisor;
    if rest < divisor - rest {
        return whole;
    }
    whole + 1
}

/// The whole number nearest to `number / divisor`; a half goes away from zero.
#[tactic(auto, unfolding(crate::specs::Rounding::rounded_quotient))]
pub(crate) fn rounded_quotient(number: i64, divisor: u64) -> i64
    requires { 1 < divisor }
    ensures value { result ≡ rounded_quotient number divisor }
    ensures size { nat_abs result ≡ (2 * nat_abs number + divisor) / (2 * divisor) }
{
    with_sign_of(number, rounded_magnitude(number.unsigned_abs(), divisor))
}

/// Rounding finds the nearest whole number, and no other number is it.
pub fn nearest_quotient()
    ensures nearest { (a : ℤ) (d : ℕ) → 0 < d → IsNearest a d (rounded_quotient a d) }
    ensures only { (a : ℤ) (d : ℕ) (r : ℤ) → 0 < d → IsNearest a d r → r ≡ rounded_quotient a d }
{}
