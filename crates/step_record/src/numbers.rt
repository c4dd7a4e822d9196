//! Numbers, read from the front of a text.

ghost use Rattle.std.specs.Prelude.{◌≡◌, ℕ, ◌≤◌, drop, length, option_copied};
ghost use Rattle.std.specs.Char.{is_ascii_digit};
ghost use Rattle.std.specs.List.{prefix_len};
ghost use Rattle.std.specs.Str.Parse.{AllDigits};
ghost use Rattle.step_record.specs.Reading.{seen, behind_name, has_no_zero_in_front, digits_in_front, value_of, number_at, short_number_at};

/// What follows a name that begins a text.
pub(crate) fn after<'a>(name: &[u8], text: &'a [u8]) -> Option<&'a [u8]>
    ensures { option_copied result ≡ behind_name name.now text.now }
{
    text.strip_prefix(name)
}

/// Whether digits write a number: there are some, and no zero stands in front of others.
fn has_no_zero_in_front(digits: &[u8]) -> bool
    ensures { result ≡ has_no_zero_in_front digits.now }
{
    match digits {
        [] => false,
        [_] => true,
        [first, ..] => *first != b'0',
    }
}

/// How many digits begin a text.
fn digits_len(text: &[u8]) -> usize
    ensures len { result ≡ prefix_len is_ascii_digit text.now }
    ensures within { result ≤ length text.now }
{
    text.iter().take_while(|c| c.is_ascii_digit()).count()
}

/// A text cut behind the digits that begin it.
fn split_digits(text: &[u8]) -> (&[u8], &[u8])
    ensures digits { result.0.now ≡ digits_in_front text.now }
    ensures only { AllDigits 10 result.0.now }
    ensures rest { result.1.now ≡ drop (length (digits_in_front text.now)) text.now }
{
    text.split_at(digits_len(text))
}

/// The number that digits write, where a `u64` has room for it.
fn value_of(digits: &[u8]) -> Option<u64>
    requires { AllDigits 10 digits.now }
    ensures { result ≡ value_of digits.now }
{
    let mut value: u64 = 0;
    for digit in digits {
        value = value
            .checked_mul(10)?
            .checked_add(u64::from(*digit - b'0'))?;
    }
    Some(value)
}

/// A number in decimal that a byte ends, with no zero in front of other digits, and what follows that byte. `None` where none
/// begins the text, or a `u64` has no room for it.
#[tactic(auto, unfolding(crate::specs::Reading::number_at))]
pub fn number_at(text: &[u8], end: u8) -> Option<(u64, &[u8])>
    ensures { seen result ≡ number_at text.now end }
{
    let (digits, rest) = split_digits(text);
    if !has_no_zero_in_front(digits) {
        return None;
    }
    let value = value_of(digits)?;
    let rest = after(&[end], rest)?;
    Some((value, rest))
}

/// The same for a number of 32 bits.
#[tactic(auto, unfolding(crate::specs::Reading::short_number_at))]
pub(crate) fn short_number_at(text: &[u8], end: u8) -> Option<(u32, &[u8])>
    ensures { seen result ≡ short_number_at text.now end }
{
    let (value, rest) = number_at(text, end)?;
    let value = u32::try_from(value).ok()?;
    Some((value, rest))
}
