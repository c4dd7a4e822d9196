//! The job, piece by piece.

ghost use Rattle.std.specs.Prelude.{◌≡◌, ℕ, ◌+◌, ◌≤◌, ◌<◌, ◌∷◌, [], List, length, cond, nat_lt};
ghost use Rattle.std.specs.Io.KnownBytes.{Consumes, IsAtEnd, Keeps};
ghost use Rattle.outside.specs.Causes.{Rose};
ghost use Rattle.run_rules.specs.Readings.{largest_job};
ghost use Rattle.stream_host.specs.Hosts.{unread, IsPiece, GaveBytes, GaveEnd, GaveNone};

use host_journal::Reading;
use outside::Source;

/// So many bytes at most are a job.
pub(crate) const LARGEST_JOB: usize = 16_777_216;

/// The piece that was read last, and how much of it and of the whole job is scanned.
#[derive(Drop)]
pub(crate) struct Reader {
    pub(crate) bytes: [u8; 4096],
    /// Where the next byte stands.
    pub(crate) place: usize,
    pub(crate) end: usize,
    pub(crate) scanned: usize,
    pub(crate) reading: Reading,
}

/// What a read gave.
#[derive(Clone, Copy)]
pub(crate) enum Gave {
    Bytes,
    End,
    Fault,
}

impl Reader {
    /// Nothing is read.
    pub(crate) fn new() -> Reader
        ensures none { unread result ≡ [] }
        ensures piece { IsPiece result }
        ensures reading { result.reading ≡ Reading.Stopped }
        ensures scanned { result.scanned ≡ 0 }
    {
        Reader {
            bytes: [0; 4096],
            place: 0,
            end: 0,
            scanned: 0,
            reading: Reading::Stopped,
        }
    }

    /// The next byte, which is scanned now.
    pub(crate) fn next_byte(&mut self) -> u8
        requires piece { IsPiece self.old }
        requires some { self.old.place < self.old.end }
        requires few { self.old.scanned < largest_job }
        ensures byte { unread self.old ≡ result ∷ unread self.new }
        ensures piece { IsPiece self.new }
        ensures scanned { self.new.scanned ≡ self.old.scanned + 1 }
        ensures reading { self.new.reading ≡ self.old.reading }
    {
        let byte = self.bytes[self.place];
        self.place += 1;
        self.scanned += 1;
        byte
    }

    /// Reads the next piece, once all is scanned.
    pub(crate) fn read<So: Source>(&mut self, job: &mut So) -> Gave
        requires few { self.old.scanned ≤ largest_job }
        ensures bytes { result ≡ Gave.Bytes → GaveBytes self.old self.new (So.state job.old) (So.state job.new) }
        ensures end { result ≡ Gave.End → GaveEnd self.old self.new (So.state job.old) (So.state job.new) }
        ensures fault { result ≡ Gave.Fault → GaveNone self.old self.new (So.state job.old) (So.state job.new) }
    {
        self.place = 0;
        self.end = 0;
        let Ok(count) = job.read(&mut self.bytes) else {
            self.reading = Reading::Failed;
            return Gave::Fault;
        };
        self.end = count;
        if count == 0 {
            self.reading = Reading::Ended;
            return Gave::End;
        }
        if count > LARGEST_JOB - self.scanned {
            self.reading = Reading::Large;
        }
        Gave::Bytes
    }
}
