//! Square roots of whole numbers: a float's root below 2^53, which a test confirms, Newton's steps below 2^62, and bit
//! by bit from there on.

ghost use Rattle.std.specs.Prelude.{◌≡◌, ℕ, ◌≤◌, ◌<◌, ◌+◌, ◌*◌, ◌^◌, IsTrue};
ghost use Rattle.units.specs.Roots.{IsRoot, root_of};

/// Newton's step towards the square root of x.
#[inline]
#[tactic(auto, using(crate::proofs::Newton::not_below, crate::proofs::Newton::falls_above))]
fn step(x: u64, guess: u64) -> u64
    requires number { (0 < x) × (x < 2 ^ 62) }
    requires guess { (0 < guess) × (guess < 2 ^ 62) }
    ensures above { x < (result + 1) * (result + 1) }
    ensures fits { (0 < result) × (result < 2 ^ 62) }
    ensures falls { x < guess * guess → result < guess }
{
    (guess + x / guess) / 2
}

/// The whole part of the square root of x, by Newton's steps from a guess: the nearer the guess, the fewer.
#[inline]
pub fn root_near(x: u64, guess: u64) -> u64
    requires number { x < 2 ^ 62 }
    requires guess { guess < 2 ^ 62 }
    ensures { IsRoot x result }
{
    if x == 0 {
        return 0;
    }
    let mut root = step(x, guess.max(1));
    while root as u128 * root as u128 > x as u128 {
        root = step(x, root);
    }
    root
}

/// Whether a number is the whole part of the square root of x.
#[inline]
#[tactic(auto, using(crate::proofs::Newton::square_small))]
fn is_root(x: u64, root: u64) -> bool
    requires { root < 2 ^ 32 }
    ensures { IsTrue result → IsRoot x root }
{
    let square = root * root;
    square <= x && x - square <= 2 * root
}

/// The whole part of a float's root of x, of which nothing is promised. A float with 2^52 less a half added has its
/// whole part in its lowest bits.
#[inline]
fn float_root(x: u64) -> u64
    requires { x < 2 ^ 53 }
    ensures { result < 2 ^ 32 }
{
    let raised = (x as i64 as f64).sqrt() + 4503599627370495.5;
    if raised >= 4503599627370496.0 {
        f64::to_bits(raised) & 0xffff_ffff
    } else {
        0
    }
}

/// The whole part of the square root of a number below 2^53: a float's, or, if a test denies it, by Newton's steps from
/// there.
#[inline]
pub fn small_root(x: u64) -> u64
    requires { x < 2 ^ 53 }
    ensures { IsRoot x result }
{
    let root = float_root(x);
    if is_root(x, root) {
        root
    } else {
        root_near(x, root)
    }
}

/// A number within six percent of the square root of x, found by shifts: the mean of the power of two nearest to it and
/// of x divided by that.
#[inline]
#[tactic(auto, using(crate::proofs::Newton::power_small))]
fn guess(x: u64) -> u64
    requires { (0 < x) × (x < 2 ^ 62) }
    ensures { result < 2 ^ 62 }
{
    let place = (x.ilog2() + 1) / 2;
    ((1 << place) + (x >> place)) / 2
}

/// The whole part of a square root, bit by bit from the highest, in at most 64 rounds.
fn root_by_bits(x: u128) -> u64
    requires { 0 < x }
    ensures { IsRoot x result }
{
    let places = x.ilog2() / 2 + 1;
    let mut root: u64 = 0;
    for place in (0..places).rev() {
        let next = root + (1 << place);
        if next as u128 * next as u128 <= x {
            root = next;
        }
    }
    root
}

/// The whole part of a square root.
pub fn isqrt(x: u128) -> u64
    ensures { IsRoot x result }
{
    if x < 1 << 53 {
        return small_root(x as u64);
    }
    if x >= 1 << 62 {
        return root_by_bits(x);
    }
    let x = x as u64;
    root_near(x, guess(x))
}

/// Every number has a root, and one alone.
pub fn one_root()
    ensures some { (x : ℕ) → IsRoot x (root_of x) }
    ensures only { (x r : ℕ) → IsRoot x r → r ≡ root_of x }
{}
