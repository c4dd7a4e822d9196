//! What is written at once.

ghost use Rattle.std.specs.Prelude.{◌≡◌, ◌+◌, ◌≤◌, ◌++◌, List, ℕ};
ghost use Rattle.arrayvec.specs.ArrayVec.{array_vec_len};

use arrayvec::ArrayVec;
use units::{Text, append};

/// Bytes that wait to be written.
pub type Waiting = ArrayVec<u8, 4096>;

/// What has a text of at most 192 bytes.
pub trait ShortText {
    /// Which values have one.
    ghost has_text: { Self → Type 0 };

    /// The text of a value.
    ghost text: { Self → List ℕ };

    /// Appends the text. 192 bytes must be free.
    fn append_to(&self, waiting: &mut Waiting)
        requires has { has_text self.now }
        requires room { array_vec_len waiting.old + 192 ≤ 4096 }
        ensures { waiting.new.items ≡ waiting.old.items ++ text self.now };
}

impl ShortText for Text {
    ghost has_text = { λ t. Unit {0} };

    ghost text = { λ t. t.items };

    #[inline]
    fn append_to(&self, waiting: &mut Waiting) {
        append(self.as_slice(), waiting);
    }
}
