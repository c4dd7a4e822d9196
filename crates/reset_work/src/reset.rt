//! The work of a reset, stage by stage.

ghost use Rattle.std.specs.Prelude.{◌≡◌, ◌↔◌, ℕ, ◌+◌, ◌<◌, ◌++◌, [], length, true};
ghost use Rattle.run_rules.specs.declared.State.{State};
ghost use Rattle.status_report.specs.Answering.{lfs_in};
ghost use Rattle.step_line.specs.Logs.{NewestFirst};
ghost use Rattle.board_journal.specs.Ports.{BoardLog, taken_in, known_in};
ghost use Rattle.board_journal.specs.Steps.{Journal, port_log};
ghost use Rattle.board_rules.specs.Turns.{this_turn};
ghost use Rattle.board_epochs.specs.Bounds.{loaded_mark};
ghost use Rattle.board_epochs.specs.Epochs.{Closed, closed_log, log_behind};
ghost use Rattle.board_epochs.specs.Work.{Work, IsWorked, worked_in, halted_in};
ghost use Rattle.reset_work.specs.Working.{IsWorking, IsBetween, WorksOn, IsAnsweredByWork, number_of};

use board_journal::BoardPort;
use outside::{On, Turn};

/// How far the work is.
#[derive(Clone, Copy)]
pub(crate) enum Stage {
    /// The word of changes of overrides is to be dropped.
    DropsChanges,
    /// The mark is awaited that the host has stored for the reset.
    AwaitsMark,
    /// The pulse is to be told to stop. So many bytes are left before the mark.
    Stops(u32),
    /// The pulse's halt is awaited.
    AwaitsHalt(u32),
    /// The bytes before the mark are dropped, of which so many are left. Where none is, the mark of the reset is to be published.
    Drops(u32),
    /// That mark is awaited.
    AwaitsDone,
    /// All is done.
    Over,
}

/// Which words of flags are dropped before the work goes on, one a turn: both behind each wait.
#[derive(Clone, Copy)]
pub(crate) enum Words {
    /// The word of changes of overrides, and then that of requests.
    Both,
    /// The word of requests.
    Requests,
    /// None.
    None,
}

/// Works a reset: drops words of flags, waits for the host's mark, halts the pulse, drops the bytes before the mark, and
/// publishes the mark of the reset.
#[derive(Clone, Copy)]
pub struct ResetWork {
    pub(crate) stage: Stage,
    pub(crate) words: Words,
    /// Of the line begun last.
    pub(crate) number: u32,
    /// The number of the host's mark that was worked last, and then that of the new one.
    pub(crate) mark: u32,
    /// How many bytes were taken, in all epochs.
    pub(crate) taken: u32,
    /// How many of those that the work took end a line.
    pub(crate) dropped: u32,
    /// How many ticks were done when the pulse halted.
    pub(crate) halted: u64,
    /// How many ticks are made once all is done.
    pub(crate) ticks: u64,
}

impl ResetWork {
    /// A reset that is to be worked behind an epoch, whose mark has this number, that of the line begun last. `worked` is the number of the
    /// host's mark that was worked last, 0 before the first, and `taken` counts the bytes taken in all epochs.
    pub fn begin(number: u32, worked: u32, taken: u32) -> ResetWork
        ensures begins { (before : BoardLog) → worked ≡ worked_in before → taken ≡ length (taken_in before) → IsWorking result number before [] }
        ensures few { number_of result < 15 }
    {
        ResetWork {
            stage: Stage::DropsChanges,
            words: Words::None,
            number,
            mark: worked,
            taken,
            dropped: 0,
            halted: 0,
            ticks: 0,
        }
    }

    /// Whether the reset is worked whole, so that the next epoch begins.
    pub fn is_worked(&self) -> bool
        ensures { (number : ℕ) (before : BoardLog) (w : Work) → IsWorking self.now number before w → this_turn w ≡ [] → (result ≡ true) ↔ IsWorked before w }
    {
        matches!(self.stage, Stage::Over)
    }

    /// The number of the reset's mark: that of the line begun last.
    pub fn number(&self) -> u32
        ensures { (number : ℕ) (before : BoardLog) (w : Work) → IsWorking self.now number before w → result ≡ number }
    {
        self.number
    }

    /// The number of the host's mark for the reset, once that is worked.
    pub fn mark(&self) -> u32
        ensures { (number : ℕ) (before : BoardLog) (w : Work) → IsWorking self.now number before w → IsWorked before w → result ≡ (loaded_mark (port_log w ++ before)).0 }
    {
        self.mark
    }

    /// How many bytes were taken, in all epochs.
    pub fn taken(&self) -> u32
        ensures { (number : ℕ) (before : BoardLog) (w : Work) → IsWorking self.now number before w → result ≡ length (taken_in (port_log w ++ before)) }
    {
        self.taken
    }

    /// How many lines had their end among the bytes that were dropped.
    pub fn dropped(&self) -> u32
        ensures { (number : ℕ) (before : BoardLog) (w : Work) → IsWorking self.now number before w → result ≡ lfs_in (taken_in (port_log w)) }
    {
        self.dropped
    }

    /// How many ticks were done when the pulse halted, in all epochs.
    pub fn halted(&self) -> u64
        ensures { (number : ℕ) (before : BoardLog) (w : Work) → IsWorking self.now number before w → result ≡ halted_in w }
    {
        self.halted
    }

    /// How many ticks are made once the reset is worked, in all epochs, with the marks of resets.
    pub fn ticks(&self) -> u64
        ensures { (number : ℕ) (before : BoardLog) (w : Work) → IsWorking self.now number before w → IsWorked before w → result ≡ known_in (port_log w ++ before) }
    {
        self.ticks
    }

    /// Once both words of flags were dropped a turn may wait; behind the wait they are to be dropped again.
    pub(crate) fn wait(&mut self, on: On) -> Turn
        ensures turn { result ≡ Turn.Wait on }
        ensures words { self.new ≡ record self.old { words = Words.Both } }
    {
        self.words = Words::Both;
        Turn::Wait(on)
    }

    /// Takes a turn of the work, which is not over: it drops a word of flags, or does what the stage asks for. It waits only for the
    /// host's mark (`Reset`), for the pulse's halt (`Halt`), and for the mark of the reset (`Motion`). A turn that answers Did and
    /// moves nothing lowers the work's number, which is less than 64.
    ///
    /// The rules are those of the work's journal: whatever was done before, it goes on as they allow.
    pub fn turn<P: BoardPort>(&mut self, port: &mut P) -> Turn
        requires stands { (rest : P.Rest) × (blocks : ℕ) × (state : State) × (es : NewestFirst Closed) × (h : Journal) × (w : Work) × IsBetween (P.stands port.old rest) self.old blocks state es h w × (IsWorked (log_behind (closed_log es) h) w → ⊥) }
        ensures goes_on { (rest : P.Rest) (blocks : ℕ) (state : State) (es : NewestFirst Closed) (h : Journal) (w : Work) → IsBetween (P.stands port.old rest) self.old blocks state es h w → (IsWorked (log_behind (closed_log es) h) w → ⊥)
            → WorksOn (P.stands port.new rest) result self.old self.new blocks state es h w }
        ensures answers { IsAnsweredByWork result }
        ensures few { number_of self.old < 64 }
    {
        match self.words {
            Words::Both => return self.drop_changes_again(port),
            Words::Requests => return self.drop_requests(port),
            Words::None => {}
        }
        match self.stage {
            Stage::DropsChanges => self.drop_changes(port),
            Stage::AwaitsMark => self.await_mark(port),
            Stage::Stops(left) => self.stop_pulse(port, left),
            Stage::AwaitsHalt(left) => self.await_halt(port, left),
            Stage::Drops(0) => self.publish_mark(port),
            Stage::Drops(left) => self.drop_byte(port, left),
            Stage::AwaitsDone => self.await_mark_done(port),
            Stage::Over => Turn::Did,
        }
    }
}
