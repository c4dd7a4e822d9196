//! Why a host sends no more, and what it tells at its end.

ghost use Rattle.std.specs.Prelude.{◌≡◌, ◌↔◌, ℕ, true, length};
ghost use Rattle.host_journal.specs.Steps.{Journal, has_limit, job_stop_of, or_alarm, over_of, stop_of, stop_at, raw_of, cut_of, reading_of, has_given_up, answered_of, errors_of};
ghost use Rattle.stream_host.specs.Hosts.{HostFits};

use crate::host::Host;
use host_journal::{Reading, Stop};

impl Host {
    /// What the line in hand says of the sending.
    fn stop_in_line(&self) -> Stop
        ensures { (room : ℕ) (h : Journal) → HostFits room self.now h → result ≡ stop_at Reading.Ended (raw_of h) (length (cut_of h)) }
    {
        if self.line.long {
            Stop::LongLine(self.counts.all.saturating_add(1))
        } else {
            Stop::End
        }
    }

    /// What the job says of it.
    fn stop_in_job(&self) -> Stop
        ensures { (room : ℕ) (h : Journal) → HostFits room self.now h → result ≡ job_stop_of h }
    {
        match self.job.reading {
            Reading::Large => Stop::TooLarge,
            Reading::Ended => self.stop_in_line(),
            Reading::Failed => self.stop_in_line(),
            Reading::Stopped => self.stop_in_line(),
        }
    }

    /// Why the sending ended: End until another cause comes. Where the job gives no cause, an alarm is one, by the number of the
    /// first line of the epoch that has no answer.
    pub fn stop(&self) -> Stop
        ensures { (room : ℕ) (h : Journal) → HostFits room self.now h → result ≡ stop_of h }
    {
        let stop = self.stop_in_job();
        match stop {
            Stop::End => self.stop_at_alarm(),
            _ => stop,
        }
    }

    /// The same where the job gives no cause.
    fn stop_at_alarm(&self) -> Stop
        ensures { (room : ℕ) (h : Journal) → HostFits room self.now h → result ≡ or_alarm (has_limit h) (over_of h) Stop.End }
    {
        if !self.alarm {
            return Stop::End;
        }
        Stop::Alarm(self.counts.over().saturating_add(1))
    }

    /// How many `ok` and `error` replies were got.
    pub fn answered(&self) -> u32
        ensures { (room : ℕ) (h : Journal) → HostFits room self.now h → result ≡ answered_of h }
    {
        self.counts.answered
    }

    /// How many `error` replies were got.
    pub fn errors(&self) -> u32
        ensures { (room : ℕ) (h : Journal) → HostFits room self.now h → result ≡ errors_of h }
    {
        self.counts.errors
    }

    /// Whether a read of the job has failed.
    pub fn source_failed(&self) -> bool
        ensures { (room : ℕ) (h : Journal) → HostFits room self.now h → (result ≡ true) ↔ (reading_of h ≡ Reading.Failed) }
    {
        matches!(self.job.reading, Reading::Failed)
    }

    /// Whether a write to the console has failed.
    pub fn console_failed(&self) -> bool
        ensures { (room : ℕ) (h : Journal) → HostFits room self.now h → result ≡ has_given_up h }
    {
        self.text.failed()
    }
}
