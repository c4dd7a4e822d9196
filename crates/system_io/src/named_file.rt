//! A file that is read.

use std::fs::{self, File};
use std::io::{self, ErrorKind, Read};

/// The file of a name, opened to be read. Where it could not be opened each read fails.
#[derive(Drop)]
pub struct NamedFile {
    file: Option<File>,
}

impl NamedFile {
    /// Opens the file.
    pub fn open(rt: &HostRuntime, name: &str) -> NamedFile {
        NamedFile {
            file: fs::open(rt, name).ok(),
        }
    }
}

impl Read for NamedFile {
    ghost use Rattle.std.specs.Prelude.{None};

    ghost remaining = { λ _. None };

    fn read(&mut self, buf: &mut [u8]) -> io::Result<usize> {
        match &mut self.file {
            Some(file) => file.read(buf),
            None => Err(io::Error::from(ErrorKind::NotFound)),
        }
    }
}
