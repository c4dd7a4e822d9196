//! The file of the step events.

ghost use Rattle.std.specs.Prelude.{◌≡◌, ◌-◌, true, None, IfSome, IsSome, IfOk, OnOk, OnErr};
ghost use Rattle.std.specs.Io.{WritesAtMost};
ghost use Rattle.std.specs.Io.KnownBytes.{WriteAppends};

use crate::limited::Limited;
use std::fs::File;
use std::io::{self, ErrorKind, Write};

/// The file `steps.out`, made at the first write. It tells no content, and where it could not be made each
/// write fails.
#[derive(Drop)]
pub struct StepsFile<'a> {
    rt: &'a HostRuntime,
    file: Option<Limited<File>>,
    begun: bool,
}

impl StepsFile<'_> {
    /// The file before its first write: it is not made yet.
    pub fn new(rt: &HostRuntime) -> StepsFile<'_> {
        StepsFile {
            rt,
            file: None,
            begun: false,
        }
    }
}

impl Write for StepsFile<'_> {
    ghost use Rattle.std.specs.Prelude.{None};

    ghost contents = { λ _. None };

    /// The first write makes the file, and the others go on in it: it has less room by what they write.
    fn write(&mut self, piece: &[u8]) -> io::Result<usize>
        ensures bound { WritesAtMost result piece.now }
        ensures bytes { WriteAppends None None result piece.now }
        ensures begun { self.new.begun ≡ true }
        ensures unmade { self.old.begun ≡ true → self.old.file ≡ None → (self.new ≡ self.old) × OnOk result ⊥ }
        ensures kept { self.old.begun ≡ true → IsSome self.old.file → IsSome self.new.file }
        ensures fewer { self.old.begun ≡ true → IfSome self.old.file (λ was. IfSome self.new.file (λ is. IfOk result (λ count. is.room ≡ was.room - count))) }
        ensures as_much { self.old.begun ≡ true → IfSome self.old.file (λ was. IfSome self.new.file (λ is. OnErr result (is.room ≡ was.room))) }
    {
        if !self.begun {
            self.begun = true;
            self.file = Limited::create(self.rt, "steps.out").ok();
        }
        match &mut self.file {
            Some(file) => file.write(piece),
            None => Err(io::Error::from(ErrorKind::NotFound)),
        }
    }

    fn flush(&mut self) -> io::Result<()> {
        match &mut self.file {
            Some(file) => file.flush(),
            None => Ok(()),
        }
    }
}
