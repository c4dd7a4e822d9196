//! A job that repeats itself, and a sink that only counts.

use outside::{Failed, OutOfMemory, Sink, Source};
use std::alloc::Global;

/// A text, given once in a read, so many times.
#[derive(Drop)]
pub(crate) struct Repeats {
    text: Vec<u8>,
    left: u32,
}

impl Repeats {
    /// Some lines, so many times in the text, which is given so many times.
    pub(crate) fn new(
        alloc: Global,
        lines: &str,
        repeated: u32,
        times: u32,
    ) -> Result<Repeats, OutOfMemory> {
        let mut text = Vec::new(alloc);
        for _ in 0..repeated {
            text.extend_from_slice(lines.as_bytes())?;
        }
        Ok(Repeats { text, left: times })
    }
}

/// What it has left is not told.
impl Source for Repeats {
    ghost use Rattle.std.specs.Prelude.{None};

    ghost state = { λ s. record { left = None; faults = 0 } };

    fn read(&mut self, buf: &mut [u8]) -> Result<usize, Failed> {
        if self.left == 0 {
            return Ok(0);
        }
        self.left -= 1;
        let count = self.text.len().min(buf.len());
        let (front, _) = self.text.as_slice().split_at(count);
        buf[..count].copy_from_slice(front);
        Ok(count)
    }
}

/// A sink that counts the lines that are no heads.
#[derive(Drop)]
pub(crate) struct Count {
    lines: u64,
    begins: bool,
    head: bool,
}

impl Count {
    pub(crate) fn new() -> Count {
        Count {
            lines: 0,
            begins: true,
            head: false,
        }
    }

    /// How many lines were no heads, but for the last, which is the end.
    pub(crate) fn events(&self) -> u64 {
        self.lines.saturating_sub(1)
    }

    /// One byte more.
    fn add(&mut self, byte: u8) {
        if self.begins {
            self.head = byte == b's';
        }
        self.begins = byte == b'\n';
        if self.begins && !self.head {
            self.lines = self.lines.wrapping_add(1);
        }
    }
}

/// What it holds is not told.
impl Sink for Count {
    ghost use Rattle.std.specs.Prelude.{None};

    ghost state = { λ s. record { held = None; faults = 0 } };

    fn write(&mut self, piece: &[u8]) -> Result<usize, Failed> {
        for byte in piece {
            self.add(*byte);
        }
        Ok(piece.len())
    }
}
