//! The summary on its way to the console.

ghost use Rattle.std.specs.Prelude.{◌≡◌, ◌≤◌, ◌+◌, not, is_ok};
ghost use Rattle.outside.specs.Writing.{Took};
ghost use Rattle.demo_job.specs.Jobs.{job_events, pins_text, stop, summary_of};

use crate::{Answers, put_pins, put_summary};
use outside::{Failed, Sink, write_text};
use units::Text;

/// Gives the console the line on a run of the job of `n` moves: all of it, or a front of it if the console fails.
pub fn tell_summary<S: Sink>(n: u32, answers: Answers, console: &mut S) -> Result<(), Failed>
    requires moves { (1 ≤ n) × (n ≤ 100000) }
    ensures { Took (S.state console.old) (S.state console.new) (not (is_ok result)) (summary_of n (n + 3) answers.ok answers.error (job_events n) (stop n)) }
{
    let mut text = Text::new();
    put_summary(n, answers, &mut text);
    write_text(text.as_slice(), console)
}

/// Gives the console the line on a run of the job of `n` moves whose subticks were counted: all of it, or a front of it if the
/// console fails.
pub fn tell_pins<S: Sink>(n: u32, subticks: u64, console: &mut S) -> Result<(), Failed>
    requires moves { (1 ≤ n) × (n ≤ 100000) }
    ensures { Took (S.state console.old) (S.state console.new) (not (is_ok result)) (pins_text n subticks) }
{
    let mut text = Text::new();
    put_pins(n, subticks, &mut text);
    let line = text.as_slice();
    write_text(line, console)
}
