//! When a reset may be worked behind a board's epoch, and how the next one opens behind it.

ghost use Rattle.std.specs.Prelude.{◌≡◌, ◌↔◌, ℕ, ◌+◌, ◌^◌, ◌≤◌, [], length, true, false};
ghost use Rattle.status_report.specs.Answering.{lfs_in};
ghost use Rattle.board_epochs.specs.Epochs.{last_line, next_opening};
ghost use Rattle.board_epochs.specs.Resets.{MayReset};
ghost use Rattle.board_epochs.specs.Work.{Work, halted_in};
ghost use Rattle.board_journal.specs.Openings.{Opening};
ghost use Rattle.board_journal.specs.Ports.{MayBeDone, taken_in};
ghost use Rattle.board_journal.specs.Steps.{Journal, port_log, taken_of};
ghost use Rattle.board_lines.specs.Inputs.{Reads};
ghost use Rattle.board_turns.specs.Boards.{EpochFits, GoingBetween};

use crate::board::{Board, Flags};
use board_lines::Answered;
use flight::Flight;
use line_interpreter::Todo;

impl<const N: usize> Board<N> {
    /// The number of the line that was begun last, in this epoch or before it.
    pub fn last_line(&self) -> u32
        requires { (first : Opening) × (h : Journal) × EpochFits first self.now h }
        ensures { (first : Opening) (h : Journal) → EpochFits first self.now h → result ≡ last_line first h }
    {
        self.lines.number() - 1
    }

    /// How many bytes were taken in this epoch.
    pub fn taken(&self) -> u32
        ensures { (first : Opening) (h : Journal) → EpochFits first self.now h → result ≡ length (taken_of h) }
    {
        self.taken
    }

    /// Whether a reset may be worked now, between two turns: it was asked for, and not dropped; no report is owed, and no reply
    /// is next.
    pub fn may_reset(&self) -> bool
        ensures { (first : Opening) (h : Journal) → EpochFits first self.now h → GoingBetween h → (result ≡ true) ↔ MayReset first h }
    {
        if !self.resetting {
            return false;
        }
        if self.owes {
            return false;
        }
        !matches!(self.lines.todo(), Todo::Tell)
    }

    /// What was owed, asked for or taken in the epoch before counts for nothing, and what it has kept of a line is dropped.
    fn forget(&mut self)
        ensures input { Reads self.new.input [] false }
        ensures same { self.new ≡ record self.old {
          input = self.new.input;
          flags = Flags.None;
          owes = false;
          resetting = false;
          taken = 0;
          greeted = false;
          published = false;
          closing = false;
          jogged = false;
          alarmed = false;
          cut = false;
        } }
    {
        self.input.clear();
        self.flags = Flags::None;
        self.owes = false;
        self.resetting = false;
        self.taken = 0;
        self.greeted = false;
        self.published = false;
        self.closing = false;
        self.jogged = false;
        self.alarmed = false;
        self.cut = false;
    }

    /// Opens the next epoch behind a reset that is worked whole: the pulse has halted behind so many ticks of this epoch, and so
    /// many line feeds were dropped. What is planned, in hand, asked for or not answered is dropped. The machine stands where it
    /// was halted, and is locked where it was moving, or in alarm. The answered lines leave settings and offsets, but for that
    /// of G92; all else of the parser begins anew, and the board greets.
    #[inline(never)]
    pub fn open_behind(&mut self, halted: u64, dropped: u32)
        requires { (base : ℕ) × (first : Opening) × (h : Journal) × (w : Work) × EpochFits first self.old h × MayReset first h × (halted_in w ≡ base + halted) × MayBeDone halted (port_log h)
            × (dropped ≡ lfs_in (taken_in (port_log w))) × ((next_opening base first h w).lines ≤ 2 ^ 31) }
        ensures { (base : ℕ) (first : Opening) (h : Journal) (w : Work) → EpochFits first self.old h → MayReset first h → halted_in w ≡ base + halted → MayBeDone halted (port_log h)
            → dropped ≡ lfs_in (taken_in (port_log w)) → (next_opening base first h w).lines ≤ 2 ^ 31 → EpochFits (next_opening base first h w) self.new [] }
    {
        self.flight.learn(halted);
        let at = self.flight.place();
        let moving = self.machine.reset();
        let lines = dropped + u32::from(self.input.whole);
        self.lines.open_behind(
            self.answered.state(),
            at,
            lines,
            moving,
            self.machine.is_locked(),
        );
        self.answered = Answered::behind(&self.lines);
        self.flight = Flight::starting_at(at);
        self.forget();
    }
}
