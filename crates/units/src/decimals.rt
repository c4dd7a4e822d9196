//! Decimal numbers in texts.

ghost use Rattle.std.specs.Prelude.{
  List,
  ◌≡◌,
  ℕ,
  ◌+◌,
  ◌≤◌,
  ◌<◌,
  nat_abs,
  min,
  length,
  drop,
  take,
  replicate,
  ◌++◌,
  IfOk,
};
ghost use Rattle.units.specs.Decimals.{IsNumberText, NumberText, letters_of, digits_say, sign_in_front, digits_in_front, decimals_in_front, point_in_front, behind, front_number, signed};
ghost use Rattle.units.specs.Reading.{decimal_from};

use crate::{Decimal, NumFault};

/// The first whole part that is too large.
const TOO_LARGE: u64 = 1_000_000_000;

/// A text cut after a sign.
fn split_sign(text: &[u8]) -> (&[u8], &[u8])
    ensures front { result.0.now ≡ sign_in_front text.now }
    ensures rest { result.1.now ≡ behind (sign_in_front text.now) text.now }
    ensures whole { result.0.now ++ result.1.now ≡ text.now }
{
    match text {
        [b'+' | b'-', ..] => text.split_at(1),
        _ => text.split_at(0),
    }
}

/// A text cut after a point.
fn split_point(text: &[u8]) -> (&[u8], &[u8])
    ensures front { result.0.now ≡ point_in_front text.now }
    ensures rest { result.1.now ≡ behind (point_in_front text.now) text.now }
    ensures whole { result.0.now ++ result.1.now ≡ text.now }
{
    match text {
        [b'.', ..] => text.split_at(1),
        _ => text.split_at(0),
    }
}

/// Digits that begin a text, and their value.
#[derive(Clone, Copy)]
struct Digits<'a> {
    digits: &'a [u8],
    rest: &'a [u8],
    value: u64,
}

/// The digits before a point. Their value is `TOO_LARGE` if it is that or more.
fn whole_part(text: &[u8]) -> Digits<'_>
    ensures digits { result.digits.now ≡ digits_in_front text.now }
    ensures rest { result.rest.now ≡ behind (digits_in_front text.now) text.now }
    ensures whole { result.digits.now ++ result.rest.now ≡ text.now }
    ensures value { result.value ≡ min (digits_say (digits_in_front text.now)) 1000000000 }
{
    let mut value = 0;
    let mut count = 0;
    while count < text.len() && text[count].is_ascii_digit() {
        value = TOO_LARGE.min(value * 10 + (text[count] - b'0') as u64);
        count += 1;
    }
    let (digits, rest) = text.split_at(count);
    Digits {
        digits,
        rest,
        value,
    }
}

/// The digits after a point, in millionths. Those past the sixth count nothing.
fn decimal_part(text: &[u8]) -> Digits<'_>
    ensures digits { result.digits.now ≡ digits_in_front text.now }
    ensures rest { result.rest.now ≡ behind (digits_in_front text.now) text.now }
    ensures whole { result.digits.now ++ result.rest.now ≡ text.now }
    ensures value { result.value ≡ digits_say (take 6 (digits_in_front text.now ++ replicate 6 48)) }
    ensures small { result.value < 1000000 }
{
    let mut value = 0;
    let mut weight = 100_000;
    let mut count = 0;
    while count < text.len() && text[count].is_ascii_digit() {
        value += (text[count] - b'0') as u64 * weight;
        weight /= 10;
        count += 1;
    }
    let (digits, rest) = text.split_at(count);
    Digits {
        digits,
        rest,
        value,
    }
}

/// The decimals of a number; without a point there are none.
#[tactic(auto, unfolding(crate::specs::Decimals::digits_say))]
fn decimals_behind<'a>(point: &[u8], text: &'a [u8]) -> Digits<'a>
    ensures digits { result.digits.now ≡ decimals_in_front point.now text.now }
    ensures whole { result.digits.now ++ result.rest.now ≡ text.now }
    ensures value { result.value ≡ digits_say (take 6 (decimals_in_front point.now text.now ++ replicate 6 48)) }
    ensures small { result.value < 1000000 }
{
    if point.is_empty() {
        let (digits, rest) = text.split_at(0);
        return Digits {
            digits,
            rest,
            value: 0,
        };
    }
    decimal_part(text)
}

/// A number text that begins a text, part by part.
#[derive(Clone, Copy)]
struct Front<'a> {
    sign: &'a [u8],
    whole: Digits<'a>,
    point: &'a [u8],
    part: Digits<'a>,
}

/// The longest number text that begins a text.
#[tactic(auto, unfolding(crate::specs::Decimals::front_number))]
fn front_of(text: &[u8]) -> Front<'_>
    ensures front { record { sign = result.sign.now; whole = result.whole.digits.now; point = result.point.now; part = result.part.digits.now } ≡ front_number text.now }
    ensures text { result.sign.now ++ result.whole.digits.now ++ result.point.now ++ result.part.digits.now ++ result.part.rest.now ≡ text.now }
    ensures whole { result.whole.value ≡ min (digits_say result.whole.digits.now) 1000000000 }
    ensures part { result.part.value ≡ digits_say (take 6 (result.part.digits.now ++ replicate 6 48)) }
    ensures small { result.part.value < 1000000 }
{
    let (sign, rest) = split_sign(text);
    let whole = whole_part(rest);
    let (point, rest) = split_point(whole.rest);
    let part = decimals_behind(point, rest);
    Front {
        sign,
        whole,
        point,
        part,
    }
}

/// A magnitude with its sign.
fn with_sign(sign: &[u8], magnitude: u64) -> i64
    requires { magnitude < 1000000000000000 }
    ensures value { result ≡ signed sign.now magnitude }
    ensures size { nat_abs result ≡ magnitude }
{
    let minus = !sign.is_empty() && sign[0] == b'-';
    if minus {
        -(magnitude as i64)
    } else {
        magnitude as i64
    }
}

/// The longest number that begins at `at`, in millionths, and the place after it: an optional sign,
/// digits and at most one point. Decimals past the sixth are dropped.
///
/// Errors: `NoDigit` if what begins there has no digit, else `TooLarge` if the magnitude is
/// 1,000,000,000 or more.
#[tactic(auto, unfolding(crate::specs::Reading::decimal_from))]
pub fn read_decimal(text: &[u8], at: usize) -> Result<(Decimal, usize), NumFault>
    requires { at ≤ length text.now }
    ensures number { result ≡ decimal_from at (drop at text.now) }
    ensures place { IfOk result (λ r. (at < r.1) × (r.1 ≤ length text.now)) }
    ensures small { IfOk result (λ r. nat_abs r.0.micro < 1000000000000000) }
{
    let front = front_of(&text[at..]);
    if front.whole.digits.len() + front.part.digits.len() == 0 {
        return Err(NumFault::NoDigit);
    }
    if front.whole.value >= TOO_LARGE {
        return Err(NumFault::TooLarge);
    }
    let micro = with_sign(front.sign, front.whole.value * 1_000_000 + front.part.value);
    let len = front.sign.len()
        + front.whole.digits.len()
        + front.point.len()
        + front.part.digits.len();
    Ok((Decimal { micro }, at + len))
}

/// The front of a text that is read as its number is a number text, and the longest that begins the text.
pub fn longest_front()
    ensures front { (text : List ℕ) → IsNumberText (front_number text) × ((rest : List ℕ) × (text ≡ letters_of (front_number text) ++ rest)) }
    ensures longest { (text : List ℕ) (t : NumberText) (rest : List ℕ) → IsNumberText t → text ≡ letters_of t ++ rest →
        length (letters_of t) ≤ length (letters_of (front_number text)) }
{}
