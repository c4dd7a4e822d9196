//! The process's limit on the size of files. A write that begins there would end the program by a signal, SIGXFSZ, which
//! nothing in the toolchain ignores or holds back; so such a write fails here, and is not made.

ghost use Rattle.std.specs.Prelude.{◌≡◌, ◌-◌, IfOk, OnOk, OnErr};
ghost use Rattle.std.specs.Io.{WritesAtMost};
ghost use Rattle.std.specs.Io.KnownBytes.{WriteAppends};

use crate::limits::limit_told;
use std::fs::{self, File, Metadata};
use std::io::{self, ErrorKind, Read, Stderr, Stdout, Write};
use std::str;

/// A writer, and how many more bytes it may take.
#[derive(Drop)]
pub struct Limited<W> {
    inner: W,
    room: u64,
}

impl Limited<File> {
    /// The file of a name, made anew.
    pub fn create(rt: &HostRuntime, name: &str) -> io::Result<Limited<File>> {
        let inner = fs::create(rt, name)?;
        let room = room_of(rt, inner.metadata());
        Ok(Limited { inner, room })
    }
}

impl Limited<Stdout> {
    /// Standard output, which goes on where its file ends.
    pub fn stdout(rt: &HostRuntime) -> Limited<Stdout> {
        let room = room_of(rt, fs::metadata(rt, "/dev/stdout"));
        Limited {
            inner: rt.stdout(),
            room,
        }
    }
}

impl Limited<Stderr> {
    /// Standard error, which goes on where its file ends.
    pub fn stderr(rt: &HostRuntime) -> Limited<Stderr> {
        let room = room_of(rt, fs::metadata(rt, "/dev/stderr"));
        Limited {
            inner: rt.stderr(),
            room,
        }
    }
}

impl<W: Write> Write for Limited<W> {
    ghost contents = { λ s. W.contents s.inner };

    fn write(&mut self, piece: &[u8]) -> io::Result<usize>
        ensures bound { WritesAtMost result piece.now }
        ensures bytes { WriteAppends (W.contents self.old.inner) (W.contents self.new.inner) result piece.now }
        ensures full { self.old.room ≡ 0 → OnOk result ⊥ × (self.new ≡ self.old) }
        ensures fewer { IfOk result (λ count. self.new.room ≡ self.old.room - count) }
        ensures as_much { OnErr result (self.new.room ≡ self.old.room) }
    {
        if self.room == 0 {
            return Err(io::Error::from(ErrorKind::FileTooLarge));
        }
        let count = self.inner.write(piece)?;
        self.room = self.room.saturating_sub(count as u64);
        Ok(count)
    }

    fn flush(&mut self) -> io::Result<()> {
        self.inner.flush()
    }
}

/// How many bytes fit behind those that a file has. What is no regular file, as a pipe or a terminal, has no limit.
fn room_of(rt: &HostRuntime, about: io::Result<Metadata>) -> u64 {
    match about {
        Ok(about) if about.is_file() => largest_file(rt).saturating_sub(about.len()),
        _ => u64::MAX,
    }
}

/// How many bytes a file may have, by what Linux tells of the process. Where it tells nothing no limit is known.
fn largest_file(rt: &HostRuntime) -> u64 {
    let mut text = [0u8; 4096];
    let count = match fs::open(rt, "/proc/self/limits") {
        Ok(mut file) => file.read(&mut text).unwrap_or(0),
        Err(_) => 0,
    };
    match str::from_utf8(&text[..count]) {
        Ok(text) => limit_told(text).unwrap_or(u64::MAX),
        Err(_) => u64::MAX,
    }
}

#[cfg(test)]
mod tests {
    use super::*;

    #[test]
    fn writer_takes_no_more_than_its_limit(rt: HostRuntime) {
        let mut room = *b"----------";
        let mut file = Limited {
            inner: room.as_mut_slice(),
            room: 5,
        };
        assert_eq!(rt; file.write(b"abc").ok(), Some(3));
        assert_eq!(rt; file.write(b"de").ok(), Some(2));
        assert_eq!(rt; file.write(b"f").ok(), None);
        assert_eq!(rt; file.write(b"").ok(), None);
        assert_eq!(rt; room, *b"abcde-----");
    }
}
