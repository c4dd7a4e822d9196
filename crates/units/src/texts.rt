//! Texts, put together.

ghost use Rattle.std.specs.Prelude.{◌≡◌, ◌+◌, ◌≤◌, ◌++◌, length};
ghost use Rattle.arrayvec.specs.ArrayVec.{array_vec_len};

use arrayvec::ArrayVec;

/// Appends a text for which there is room.
pub fn append<const N: usize>(text: &[u8], out: &mut ArrayVec<u8, N>)
    requires { array_vec_len out.old + length text.now ≤ N }
    ensures text { out.new.items ≡ out.old.items ++ text.now }
    ensures room { array_vec_len out.new ≡ array_vec_len out.old + length text.now }
{
    match out.try_extend_from_slice(text) {
        Ok(()) => {}
        Err(_) => unreachable!(),
    }
}
