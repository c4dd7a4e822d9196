//! How a board takes its words of flags, and waits for a machine that is to be held, or is held.

ghost use Rattle.std.specs.Prelude.{◌≡◌, ◌≢◌, ◌∷◌, true, false};
ghost use Rattle.code_table.specs.declared.flags.Exec.{Exec as AnyExec};
ghost use Rattle.code_table.specs.declared.flags.Ovr.{Ovr as AnyOvr};
ghost use Rattle.feed_hold.specs.declared.Motion.TheVariants.{Held};
ghost use Rattle.outside.specs.declared.Turn.TheVariants.{Done};
ghost use Rattle.board_journal.specs.Steps.{Journal, port_log};
ghost use Rattle.board_journal.specs.Openings.{Opening};
ghost use Rattle.board_epochs.specs.Resets.{drops_resets, has_reset};
ghost use Rattle.board_turns.specs.Boards.{Keeps, AwaitsWords};
ghost use Rattle.board_journal.specs.Ports.PortStep.{took_exec};
ghost use Rattle.board_journal.specs.Steps.Step.{at_port};
ghost use Rattle.board_rules.specs.Turns.{is_greeted, owes_report, has_jog_to_start};
ghost use Rattle.board_turns.specs.Turning.{HasPiece, IsHeldUp, HasSettled, asked, flags_behind, replanned, words_awaited, WorksOn};

use crate::board::{Board, Flags};
use crate::reports::{asks_report, asks_reset, to_obey};
use bitflags::Flags as _;
use code_table::Exec;
use epoch_ports::EpochPort;
use outside::{On, Turn};

impl<const N: usize> Board<N> {
    /// Where the machine has slowed down to a stop, looks how many ticks are done, and does what comes of that where each is.
    pub(crate) fn settle<P: EpochPort>(&mut self, port: &mut P)
        requires stands { (rest : P.Rest) × (first : Opening) × (h : Journal) × P.stands port.old rest first (port_log h) × Keeps first self.old h }
        ensures goes_on { (rest : P.Rest) (first : Opening) (h : Journal) → P.stands port.old rest first (port_log h) → Keeps first self.old h
            → (next : Journal) × P.stands port.new rest first (port_log next) × Keeps first self.new next × HasSettled first h next }
        ensures same { self.new ≡ record self.old { machine = self.new.machine; flight = self.new.flight; lines = self.new.lines; cut = self.new.cut } }
    {
        if !self.machine.has_slowed_down() {
            return;
        }
        let done = port.done();
        self.flight.learn(done);
        if done != self.machine.given {
            return;
        }
        self.come_to_rest();
    }

    /// Whether a reset that is asked for is dropped: a line has raised the alarm of a soft limit, or the run is being closed.
    fn drops_resets(&self) -> bool
        ensures { (first : Opening) (h : Journal) → Keeps first self.now h → result ≡ drops_resets h }
    {
        self.closing || self.alarmed
    }

    /// Whether a reset is asked for, and not dropped, once this word of requests is taken.
    fn resets_behind(&self, word: Exec) -> bool
        ensures { (first : Opening) (h : Journal) → Keeps first self.now h → result ≡ has_reset (at_port (took_exec word) ∷ h) }
    {
        (asks_reset(word) && !self.drops_resets()) || self.resetting
    }

    /// Both words of flags are to be taken behind a wait, once the banner is told: no report comes before it.
    #[inline]
    pub(crate) fn await_words(&mut self)
        ensures { self.new ≡ record self.old { flags = words_awaited self.old.greeted self.old.flags } }
    {
        if self.greeted {
            self.flags = Flags::Both;
        }
    }

    /// Takes the word of requests, and does what it asks of the motion, unless it asks for a reset; where a report is owed
    /// then, that comes first. What comes of a machine that has stopped comes before.
    #[inline(never)]
    pub(crate) fn take_requests<P: EpochPort>(&mut self, port: &mut P)
        requires stands { (rest : P.Rest) × (first : Opening) × (h : Journal) × P.stands port.old rest first (port_log h) × Keeps first self.old h × AwaitsWords h × (has_jog_to_start first h ≡ false) }
        ensures goes_on { (rest : P.Rest) (first : Opening) (h : Journal) → P.stands port.old rest first (port_log h) → Keeps first self.old h → AwaitsWords h → has_jog_to_start first h ≡ false
            → (word : AnyExec) × (mid : Journal) × HasSettled first h mid × P.stands port.new rest first (port_log (asked first word mid)) × Keeps first self.new (asked first word mid)
            × (self.new.flags ≡ flags_behind (owes_report (at_port (took_exec word) ∷ mid)) word) }
        ensures same { self.new ≡ record self.old { machine = self.new.machine; flight = self.new.flight; lines = self.new.lines; cut = self.new.cut; flags = self.new.flags; owes = self.new.owes; resetting = self.new.resetting } }
    {
        self.settle(port);
        let word = port.take_exec();
        if word.is_empty() && !self.owes {
            self.flags = Flags::None;
            return;
        }
        self.resetting = self.resets_behind(word);
        self.owes = asks_report(word) | self.owes;
        let waiting = to_obey(word);
        if self.owes {
            self.flags = Flags::Report(waiting);
            return;
        }
        self.flags = Flags::None;
        self.obey_waiting(waiting);
    }

    /// Takes the word of changes of overrides, and plans anew where it holds one.
    pub(crate) fn take_changes<P: EpochPort>(&mut self, port: &mut P)
        requires stands { (rest : P.Rest) × (first : Opening) × (h : Journal) × P.stands port.old rest first (port_log h) × Keeps first self.old h × (is_greeted h ≡ true) }
        ensures goes_on { (rest : P.Rest) (first : Opening) (h : Journal) → P.stands port.old rest first (port_log h) → Keeps first self.old h → is_greeted h ≡ true
            → (word : AnyOvr) × P.stands port.new rest first (port_log (replanned word h)) × Keeps first self.new (replanned word h) }
        ensures same { self.new ≡ record self.old { machine = self.new.machine } }
    {
        let word = port.take_override();
        if !word.is_empty() {
            self.machine.change(word);
        }
    }

    /// Waits for a machine that slows down, and does what comes of it once it has stopped.
    pub(crate) fn await_stop<P: EpochPort>(&mut self, port: &mut P) -> Turn
        requires stands { (rest : P.Rest) × (first : Opening) × (h : Journal) × P.stands port.old rest first (port_log h) × Keeps first self.old h × IsHeldUp first h × (HasPiece first h → ⊥) }
        requires slows { self.old.machine.hold.motion ≢ Held }
        requires unpublished { self.old.published ≡ false }
        requires flags { self.old.flags ≡ Flags.None }
        ensures goes_on { (rest : P.Rest) (first : Opening) (h : Journal) → P.stands port.old rest first (port_log h) → Keeps first self.old h → IsHeldUp first h → (HasPiece first h → ⊥)
            → WorksOn first (P.stands port.new rest first) result self.old.flags self.new h }
        ensures going { result ≢ Done }
    {
        self.settle(port);
        if self.machine.has_slowed_down() {
            return Turn::Wait(On::Motion);
        }
        Turn::Did
    }

    /// Waits for the resume of a machine that is held, unless a report is asked for.
    pub(crate) fn await_resume<P: EpochPort>(&mut self, port: &mut P) -> Turn
        requires stands { (rest : P.Rest) × (first : Opening) × (h : Journal) × P.stands port.old rest first (port_log h) × Keeps first self.old h × IsHeldUp first h × (HasPiece first h → ⊥) }
        requires held { self.old.machine.hold.motion ≡ Held }
        requires unpublished { self.old.published ≡ false }
        requires flags { self.old.flags ≡ Flags.None }
        ensures goes_on { (rest : P.Rest) (first : Opening) (h : Journal) → P.stands port.old rest first (port_log h) → Keeps first self.old h → IsHeldUp first h → (HasPiece first h → ⊥)
            → WorksOn first (P.stands port.new rest first) result self.old.flags self.new h }
        ensures going { result ≢ Done }
    {
        self.take_requests(port);
        if self.owes {
            return Turn::Did;
        }
        if self.machine.is_held() {
            return Turn::Wait(On::Resume);
        }
        Turn::Did
    }

    /// What is done where what is next is held up: what is in hand or due is published, and then the stop is waited for,
    /// and the resume.
    #[inline(never)]
    pub(crate) fn halt<P: EpochPort>(&mut self, port: &mut P) -> Turn
        requires stands { (rest : P.Rest) × (first : Opening) × (h : Journal) × P.stands port.old rest first (port_log h) × Keeps first self.old h × IsHeldUp first h }
        requires unpublished { self.old.published ≡ false }
        requires flags { self.old.flags ≡ Flags.None }
        ensures goes_on { (rest : P.Rest) (first : Opening) (h : Journal) → P.stands port.old rest first (port_log h) → Keeps first self.old h → IsHeldUp first h
            → WorksOn first (P.stands port.new rest first) result self.old.flags self.new h }
        ensures going { result ≢ Done }
    {
        if self.has_piece() {
            return self.run(port);
        }
        if self.machine.is_held() {
            return self.await_resume(port);
        }
        self.await_stop(port)
    }
}
