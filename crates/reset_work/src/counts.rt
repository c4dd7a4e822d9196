//! What closed epochs have made, in numbers.

ghost use Rattle.std.specs.Prelude.{◌≡◌, ℕ, ◌+◌, ◌<◌, [], ◌∷◌, length};
ghost use Rattle.run_rules.specs.declared.State.{State};
ghost use Rattle.step_line.specs.Logs.{NewestFirst};
ghost use Rattle.board_journal.specs.Ports.{MayBeDone};
ghost use Rattle.board_journal.specs.Steps.{Journal, port_log, taken_of};
ghost use Rattle.board_epochs.specs.Epochs.{Closed, AreEpochs, closed_log, last_line, log_behind, opening_behind, ticks_made};
ghost use Rattle.board_epochs.specs.Epochs.Epochs.{goes, resets};
ghost use Rattle.board_epochs.specs.Resets.{MayReset};
ghost use Rattle.board_epochs.specs.Work.{Work, IsWorked, halted_in};
ghost use Rattle.reset_work.specs.Counting.{IsCounted};
ghost use Rattle.reset_work.specs.Working.{IsWorking, number_of};

use crate::reset::ResetWork;

/// What a board carries from epoch to epoch beside its state: how many ticks were made and bytes taken, and the number of the
/// host's mark that was worked last.
#[derive(Clone, Copy, Debug, PartialEq, Eq)]
pub struct Counts {
    pub(crate) ticks: u64,
    pub(crate) bytes: u32,
    pub(crate) mark: u32,
}

impl Counts {
    /// Before the first epoch.
    pub fn new() -> Counts
        ensures { IsCounted result [] }
    {
        Counts {
            ticks: 0,
            bytes: 0,
            mark: 0,
        }
    }

    /// Behind a reset that is worked whole.
    pub fn behind(work: &ResetWork) -> Counts
        ensures { (number : ℕ) (es : NewestFirst Closed) (h : Journal) (w : Work) → IsWorking work.now number (log_behind (closed_log es) h) w → IsWorked (log_behind (closed_log es) h) w
            → IsCounted result (record { journal = h; work = w } ∷ es) }
    {
        Counts {
            ticks: work.ticks(),
            bytes: work.taken(),
            mark: work.mark(),
        }
    }

    /// How many ticks were made, with the marks of resets: an epoch counts on from there.
    pub fn ticks(&self) -> u64
        ensures { (es : NewestFirst Closed) → IsCounted self.now es → result ≡ ticks_made es }
    {
        self.ticks
    }

    /// The work of a reset behind an epoch, in which the last line begun has this number, and so many bytes were taken.
    pub fn reset(&self, line: u32, taken: u32) -> ResetWork
        requires { (blocks : ℕ) × (state : State) × (es : NewestFirst Closed) × (h : Journal) × AreEpochs blocks state (goes es h) × IsCounted self.now es × (taken ≡ length (taken_of h)) }
        ensures begins { (blocks : ℕ) (state : State) (es : NewestFirst Closed) (h : Journal) → AreEpochs blocks state (goes es h) → MayReset (opening_behind blocks state es) h → IsCounted self.now es
            → line ≡ last_line (opening_behind blocks state es) h → taken ≡ length (taken_of h)
            → AreEpochs blocks state (resets es h []) × IsWorking result (last_line (opening_behind blocks state es) h) (log_behind (closed_log es) h) [] }
        ensures few { number_of result < 15 }
    {
        ResetWork::begin(line, self.mark, self.bytes + taken)
    }

    /// How many ticks of its epoch were done when the pulse halted.
    pub fn halted(&self, work: &ResetWork) -> u64
        requires { (blocks : ℕ) × (state : State) × (es : NewestFirst Closed) × (h : Journal) × (w : Work) × AreEpochs blocks state (resets es h w) × IsWorked (log_behind (closed_log es) h) w × IsCounted self.now es
            × IsWorking work.now (last_line (opening_behind blocks state es) h) (log_behind (closed_log es) h) w }
        ensures { (blocks : ℕ) (state : State) (es : NewestFirst Closed) (h : Journal) (w : Work) → AreEpochs blocks state (resets es h w) → IsWorked (log_behind (closed_log es) h) w → IsCounted self.now es
            → IsWorking work.now (last_line (opening_behind blocks state es) h) (log_behind (closed_log es) h) w → (halted_in w ≡ ticks_made es + result) × MayBeDone result (port_log h) }
    {
        work.halted() - self.ticks
    }
}
