//! Which lines ask for a pause.

ghost use Rattle.std.specs.Prelude.{◌≡◌};
ghost use Rattle.host_journal.specs.Holding.{begins_zero, has_pause};

use units::read_decimal;

/// Whether the number 0 begins a text, as the numbers of a line are read.
fn begins_zero(text: &[u8]) -> bool
    ensures { result ≡ begins_zero text.now }
{
    match read_decimal(text, 0) {
        Ok((number, _)) => number.micro.unsigned_abs() == 0,
        Err(_) => false,
    }
}

/// Whether an `M` stands in a text with the number 0 behind it: `M0`, `M00`, `M0.`, `M.0` and `M-0` ask for a pause, `M03`, `M30`
/// and `M0.5` do not.
pub fn has_pause(text: &[u8]) -> bool
    ensures { result ≡ has_pause text.now }
{
    for place in 0..text.len() {
        if text[place] == b'M' && begins_zero(&text[place + 1..]) {
            return true;
        }
    }
    false
}
