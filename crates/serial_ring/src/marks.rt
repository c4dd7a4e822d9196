//! A mark, in one word: its number above, and below it how many bytes were stored before it.
ghost use Rattle.std.specs.Prelude.{◌≡◌};
ghost use Rattle.serial_ring.specs.Marks.{packed, number_in, bytes_in};

/// Numbers of marks and counts of bytes are below it.
const BELOW: u64 = 1 << 32;

/// The word of a mark.
pub(crate) fn packed(number: u32, bytes: u32) -> u64
    ensures { result ≡ packed number bytes }
{
    number as u64 * BELOW + bytes as u64
}

/// The number of the mark in a word.
pub(crate) fn number_in(word: u64) -> u32
    ensures { result ≡ number_in word }
{
    (word / BELOW) as u32
}

/// How many bytes were stored before the mark in a word.
pub(crate) fn bytes_in(word: u64) -> u32
    ensures { result ≡ bytes_in word }
{
    (word % BELOW) as u32
}

/// The number and the bytes of a mark are read back from its word.
pub fn mark_is_read_back(number: u32, bytes: u32)
    ensures number { number_in (packed number bytes) ≡ number }
    ensures bytes { bytes_in (packed number bytes) ≡ bytes }
{}
