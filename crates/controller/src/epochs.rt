//! How an epoch goes on, how a reset is worked behind it, and how the next one begins.

ghost use Rattle.std.specs.Prelude.{◌-◌, ◌≡◌, ◌≢◌, ◌↔◌, ◌∷◌, [], ◌<◌, None};
ghost use Rattle.outside.specs.declared.Turn.TheVariants.{Done};
ghost use Rattle.run_rules.specs.declared.State.{State};
ghost use Rattle.step_line.specs.Logs.{NewestFirst};
ghost use Rattle.board_journal.specs.Steps.{Journal};
ghost use Rattle.board_rules.specs.Turns.{this_turn};
ghost use Rattle.board_epochs.specs.Epochs.{Closed, AreEpochs, closed_log, last_line, log_behind, log_of, opening_behind};
ghost use Rattle.board_epochs.specs.Epochs.Epochs.{goes, resets};
ghost use Rattle.board_epochs.specs.Resets.{MayReset};
ghost use Rattle.board_epochs.specs.Work.{Work, IsWorked};
ghost use Rattle.reset_work.specs.Counting.{IsCounted};
ghost use Rattle.reset_work.specs.Working.{IsWorking};
ghost use Rattle.board_turns.specs.Boards.{BoardIsOver, EpochFits, GoingBetween};
ghost use Rattle.controller.specs.Boards.{GoesFits, ResetsFits, going_number, work_number};
ghost use Rattle.controller.specs.Turning.{GoesOn, WentOn};

use crate::controller::Controller;
use board_journal::BoardPort;
use epoch_ports::EpochSide;
use outside::Turn;
use reset_work::{Counts, ResetWork};

impl<const N: usize> Controller<N> {
    /// Takes a turn of the board in the open epoch, which counts on from the closed ones.
    #[inline(always)]
    fn turn_board<P: BoardPort>(&mut self, port: &mut P) -> Turn
        requires { (rest : P.Rest) × (state : State) × (es : NewestFirst Closed) × (h : Journal) × P.stands port.old rest (log_of (goes es h)) × GoesFits state self.old es h × GoingBetween h }
        ensures goes_on { (rest : P.Rest) (state : State) (es : NewestFirst Closed) (h : Journal) → P.stands port.old rest (log_of (goes es h)) → GoesFits state self.old es h → GoingBetween h
            → WentOn (P.stands port.new rest) result state es self.old.board self.new.board h }
        ensures done { (result ≡ Done) ↔ BoardIsOver self.old.board }
        ensures still { BoardIsOver self.old.board → (self.new ≡ self.old) × (port.new ≡ port.old) }
        ensures same { self.new ≡ record self.old { board = self.new.board } }
    {
        let mut side = EpochSide {
            port,
            base: self.counts.ticks(),
        };
        self.board.turn(&mut side)
    }

    /// Begins the work of a reset, which may be worked now. What is planned, in hand or asked for stays until the next epoch begins.
    #[inline(never)]
    fn begin_reset(&mut self)
        requires { (state : State) × (es : NewestFirst Closed) × (h : Journal) × AreEpochs (N - 1) state (goes es h) × EpochFits (opening_behind (N - 1) state es) self.old.board h × IsCounted self.old.counts es }
        ensures begins { (state : State) (es : NewestFirst Closed) (h : Journal) → AreEpochs (N - 1) state (goes es h) → MayReset (opening_behind (N - 1) state es) h → EpochFits (opening_behind (N - 1) state es) self.old.board h
            → IsCounted self.old.counts es → ResetsFits state self.new es h [] }
        ensures few { work_number self.new.reset < going_number }
        ensures same { self.new ≡ record self.old { reset = self.new.reset } }
    {
        let line = self.board.last_line();
        let taken = self.board.taken();
        self.reset = Some(self.counts.reset(line, taken));
    }

    /// Takes a turn of the open epoch. Behind it a reset is worked as soon as it may be.
    #[inline(always)]
    pub(crate) fn turn_epoch<P: BoardPort>(&mut self, port: &mut P) -> Turn
        requires { (rest : P.Rest) × (state : State) × (es : NewestFirst Closed) × (h : Journal) × P.stands port.old rest (log_of (goes es h)) × GoesFits state self.old es h × GoingBetween h }
        ensures goes_on { (rest : P.Rest) (state : State) (es : NewestFirst Closed) (h : Journal) → P.stands port.old rest (log_of (goes es h)) → GoesFits state self.old es h → GoingBetween h
            → GoesOn (P.stands port.new rest) result state self.old self.new (goes es h) }
        ensures done { (result ≡ Done) ↔ BoardIsOver self.old.board }
        ensures still { BoardIsOver self.old.board → (self.new ≡ self.old) × (port.new ≡ port.old) }
    {
        let turn = self.turn_board(port);
        if self.board.may_reset() {
            self.begin_reset();
        }
        turn
    }

    /// Begins the next epoch, behind a reset that is worked whole.
    #[inline(never)]
    fn begin_epoch(&mut self, work: &ResetWork)
        requires worked { (state : State) × (es : NewestFirst Closed) × (h : Journal) × (w : Work) × AreEpochs (N - 1) state (resets es h w) × IsWorked (log_behind (closed_log es) h) w
            × EpochFits (opening_behind (N - 1) state es) self.old.board h × IsCounted self.old.counts es × IsWorking work.now (last_line (opening_behind (N - 1) state es) h) (log_behind (closed_log es) h) w }
        ensures begins { (state : State) (es : NewestFirst Closed) (h : Journal) (w : Work) → AreEpochs (N - 1) state (resets es h w) → IsWorked (log_behind (closed_log es) h) w
            → EpochFits (opening_behind (N - 1) state es) self.old.board h → IsCounted self.old.counts es → IsWorking work.now (last_line (opening_behind (N - 1) state es) h) (log_behind (closed_log es) h) w
            → GoesFits state self.new (record { journal = h; work = w } ∷ es) [] }
    {
        let halted = self.counts.halted(work);
        self.board.open_behind(halted, work.dropped());
        self.counts = Counts::behind(work);
        self.reset = None;
    }

    /// Takes a turn of the work of the reset that is being worked. Behind it the next epoch begins, once the reset is worked whole.
    #[inline(never)]
    pub(crate) fn work_on<P: BoardPort>(&mut self, port: &mut P) -> Turn
        requires stands { (rest : P.Rest) × (state : State) × (es : NewestFirst Closed) × (h : Journal) × (w : Work) × P.stands port.old rest (log_of (resets es h w))
            × ResetsFits state self.old es h w × (this_turn w ≡ []) }
        requires works { self.old.reset ≢ None }
        ensures goes_on { (rest : P.Rest) (state : State) (es : NewestFirst Closed) (h : Journal) (w : Work) → P.stands port.old rest (log_of (resets es h w))
            → ResetsFits state self.old es h w → this_turn w ≡ [] → GoesOn (P.stands port.new rest) result state self.old self.new (resets es h w) }
        ensures going { result ≢ Done }
        ensures few { work_number self.old.reset < 64 }
    {
        let Some(mut work) = self.reset else {
            unreachable!();
        };
        let turn = work.turn(port);
        if work.is_worked() {
            self.begin_epoch(&work);
        } else {
            self.reset = Some(work);
        }
        turn
    }
}
