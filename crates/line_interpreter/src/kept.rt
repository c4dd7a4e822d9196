//! What is kept of a line.

ghost use Rattle.std.specs.Prelude.{◌≡◌, ℕ, ◌<◌, ◌≤◌, ◌++◌, ◌∷◌, [], List, length, IfSome, None};
ghost use Rattle.line_interpreter.specs.Keeping.{IsKept};

use std::marker::Model;

/// How many bytes are kept of a line.
const MOST: usize = 79;

/// What is kept of a line: its first 79 kept bytes, and whether there were more. What is dropped is not cleared: it stands behind
/// the bytes that count.
#[derive(Drop)]
pub struct KeptLine {
    bytes: [u8; MOST],
    count: usize,
    over: bool,
}

impl Model for KeptLine {
    ghost use Rattle.std.specs.Prelude.{◌≡◌, ◌≤◌, length, take};
    ghost use Rattle.line_interpreter.specs.Keeping.{Keeping};

    ghost Value = { Keeping };

    ghost view = { λ l. record { bytes = take l.count l.bytes; over = l.over } };

    ghost invariant = { λ l. (length l.bytes ≡ 79) × (l.count ≤ 79) };
}

impl KeptLine {
    /// Nothing is kept.
    pub fn new() -> KeptLine
        ensures { IsKept result [] }
    {
        KeptLine {
            bytes: [0; MOST],
            count: 0,
            over: false,
        }
    }

    /// The next line begins.
    #[inline]
    pub fn clear(&mut self)
        ensures { IsKept self.new [] }
    {
        self.count = 0;
        self.over = false;
    }

    /// One kept byte more.
    #[inline]
    pub fn push(&mut self, byte: u8)
        ensures { (kept : List ℕ) → IsKept self.old kept → IsKept self.new (kept ++ byte ∷ []) }
    {
        if self.count < MOST {
            self.bytes[self.count] = byte;
            self.count += 1;
        } else {
            self.over = true;
        }
    }

    /// The kept bytes, where they are no more than 79.
    #[inline]
    pub fn bytes(&self) -> Option<&[u8]>
        ensures short { IfSome result (λ bytes. (kept : List ℕ) → IsKept self.now kept → (bytes.now ≡ kept) × (length kept ≤ 79)) }
        ensures fits { IfSome result (λ bytes. length bytes.now ≤ 79) }
        ensures long { result ≡ None → (kept : List ℕ) → IsKept self.now kept → 79 < length kept }
    {
        if self.over {
            return None;
        }
        Some(&self.bytes[..self.count])
    }
}
