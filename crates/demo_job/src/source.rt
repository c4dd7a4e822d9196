//! The generated job as a source, and a console that keeps nothing.

use crate::demo_line;
use gcode_words::LineBuf;
use outside::{Failed, Sink, Source};
use std::marker::Model;

/// The generated job of a number of moves, which is given line by line. It never fails, and takes no memory.
#[derive(Drop)]
pub struct DemoJob {
    moves: u32,
    /// How many lines are wholly given.
    passed: u32,
    /// How many bytes of the next are given.
    given: usize,
}

impl Model for DemoJob {
    ghost use Rattle.std.specs.Prelude.{ℕ, ◌≡◌, ◌≤◌, ◌<◌, ◌+◌, ◌⊎◌, List, drop};
    ghost use Rattle.demo_job.specs.Jobs.{job_lines, ended};
    ghost use Rattle.demo_job.specs.Giving.{line_length};

    ghost Value = { List ℕ };

    ghost view = { λ s. drop s.given (ended (drop s.passed (job_lines s.moves))) };

    ghost invariant = { λ s. (1 ≤ s.moves) × (s.moves ≤ 100000) × (s.passed ≤ s.moves + 3) × (s.given < line_length s.moves s.passed) };
}

impl DemoJob {
    ghost use Rattle.std.specs.Prelude.{◌≡◌, ◌≤◌};
    ghost use Rattle.demo_job.specs.Jobs.{job_text};

    /// The job of so many moves; nothing of it is given yet.
    pub fn new(moves: u32) -> DemoJob
        requires { (1 ≤ moves) × (moves ≤ 100000) }
        ensures { result ≡ job_text moves }
    {
        DemoJob {
            moves,
            passed: 0,
            given: 0,
        }
    }
}

impl Source for DemoJob {
    ghost use Rattle.std.specs.Prelude.{Some};

    ghost state = { λ s. record { left = Some s; faults = 0 } };

    /// Gives what is left of a line, as much of it as there is room for.
    #[tactic(auto, using(crate::proofs::Giving::part_given, crate::proofs::Giving::line_given, crate::proofs::Giving::its_length, crate::proofs::Giving::some_length, crate::proofs::Giving::all_given))]
    fn read(&mut self, buf: &mut [u8]) -> Result<usize, Failed> {
        if self.passed == self.moves + 3 {
            return Ok(0);
        }
        let mut line = LineBuf::new();
        demo_line(self.moves, self.passed + 1, &mut line);
        line.push(b'\n');
        let rest = &line.as_slice()[self.given..];
        let count = rest.len().min(buf.len());
        buf[..count].copy_from_slice(&rest[..count]);
        self.given += count;
        if self.given == line.len() {
            self.passed += 1;
            self.given = 0;
        }
        Ok(count)
    }
}

/// A console that keeps nothing of what it is given. It never fails.
#[derive(Clone, Copy, Debug, PartialEq, Eq)]
pub struct NoConsole;

impl Sink for NoConsole {
    ghost use Rattle.std.specs.Prelude.{None};

    ghost state = { λ s. record { held = None; faults = 0 } };

    fn write(&mut self, piece: &[u8]) -> Result<usize, Failed> {
        Ok(piece.len())
    }
}
