//! Numbers as texts with three decimals.

ghost use Rattle.std.specs.Prelude.{◌≡◌, ◌+◌, ◌≤◌, ◌++◌, nat_abs, length};
ghost use Rattle.arrayvec.specs.ArrayVec.{array_vec_len};
ghost use Rattle.units.specs.Fixed.{fixed3, minus_sign, three_digits};

use crate::{Text, append};
use itoa::Buffer;

/// A minus exactly if a number is negative.
fn minus_sign(v: i64) -> &'static [u8]
    ensures sign { result.now ≡ minus_sign v }
    ensures short { length result.now ≤ 1 }
{
    if v < 0 { b"-" } else { b"" }
}

/// The last three digits of a number.
fn three_digits(n: u64) -> [u8; 3]
    ensures { result ≡ three_digits n }
{
    [
        b'0' + (n / 100 % 10) as u8,
        b'0' + (n / 10 % 10) as u8,
        b'0' + (n % 10) as u8,
    ]
}

/// Appends thousandths with three decimals, after a minus sign exactly if they are negative.
/// 24 bytes must be free; a magnitude of at most 10^12 takes 15 of them or fewer.
#[tactic(auto, using(crate::proofs::Short::whole_short, crate::proofs::Short::fixed_short, crate::proofs::Short::fixed_shorter), unfolding(crate::specs::Fixed::fixed3))]
pub fn put_fixed3(v: i64, out: &mut Text)
    requires { array_vec_len out.old + 24 ≤ 192 }
    ensures text { out.new.items ≡ out.old.items ++ fixed3 v }
    ensures short { length (fixed3 v) ≤ 21 }
    ensures shorter { nat_abs v ≤ 1000000000000 → length (fixed3 v) ≤ 15 }
{
    let magnitude = v.unsigned_abs();
    append(minus_sign(v), out);
    let mut buffer = Buffer::new();
    append(buffer.format(magnitude / 1000).as_bytes(), out);
    out.push(b'.');
    append(&three_digits(magnitude), out);
}
