//! What comes of a machine that has stopped, for a hold, a cancel or a soft limit; and how a soft limit ends the run.

ghost use Rattle.std.specs.Prelude.{◌+◌, ◌≡◌, ◌≢◌, ◌∷◌, [], length, true, false};
ghost use Rattle.feed_hold.specs.declared.Motion.TheVariants.{Cancelling, Alarm};
ghost use Rattle.run_rules.specs.Locking.{unlocks};
ghost use Rattle.outside.specs.declared.Turn.TheVariants.{Done};
ghost use Rattle.board_rules.specs.Conduct.{IsNextTask};
ghost use Rattle.board_journal.specs.Openings.{Opening};
ghost use Rattle.board_journal.specs.Steps.{Journal, port_log, open_of, left_of, motion_of, outcomes_of, without_asks};
ghost use Rattle.board_journal.specs.Steps.Step.{cut};
ghost use Rattle.board_rules.specs.Turns.{is_limited, tells_next};
ghost use Rattle.run_rules.specs.Work.Task.{halt};
ghost use Rattle.board_turns.specs.Boards.{Keeps};
ghost use Rattle.board_turns.specs.Turning.{BoardWorked, ComesOf, HasHalted, IsAtLimit, IsFoundStopped, IsInAlarm, IsReady, IsUncut, WorksOn};

use crate::board::{Board, Flags};
use epoch_ports::EpochPort;
use line_interpreter::Todo;
use outside::{On, Turn};
use step_line::Mark;

impl<const N: usize> Board<N> {
    /// Whether the machine is locked, and the line that was taken whole unlocks it.
    pub(crate) fn is_unlocked(&self) -> bool
        ensures yes { (first : Opening) (h : Journal) → Keeps first self.now h → result ≡ true → (motion_of first h ≡ Alarm) × (unlocks (open_of h) ≡ true) }
        ensures no { (first : Opening) (h : Journal) → Keeps first self.now h → result ≡ false → motion_of first h ≡ Alarm → unlocks (open_of h) ≡ false }
    {
        self.machine.is_locked() && self.input.unlocks()
    }

    /// A move that is next is not asked for any more.
    fn drop_move(&mut self)
        requires { (first : Opening) × (h : Journal) × Keeps first self.old h × (motion_of first h ≡ Cancelling) }
        ensures left { (first : Opening) (h : Journal) → Keeps first self.old h → motion_of first h ≡ Cancelling → self.new.lines.left ≡ without_asks (left_of first h) }
        ensures same { self.new ≡ record self.old { lines = record self.old.lines { left = self.new.lines.left } } }
    {
        if let Todo::Move = self.lines.todo() {
            self.lines.done();
        }
    }

    /// What is left of jogs that were cancelled is dropped, and the mark of that cut comes into the hand. The place where
    /// the machine has stopped becomes the position from which the next line is judged.
    fn cut_jogs(&mut self)
        requires { (first : Opening) × (h : Journal) × Keeps first self.old h × IsUncut first h × IsFoundStopped first self.old.flight h }
        ensures made { (first : Opening) (h : Journal) → Keeps first self.old h → IsUncut first h → IsFoundStopped first self.old.flight h → Keeps first self.new (cut (first.lines + length (outcomes_of h)) ∷ h) }
        ensures same { self.new ≡ record self.old { machine = self.new.machine; lines = self.new.lines; cut = true } }
    {
        self.drop_move();
        let mark = Mark::Cut(self.lines.number() - 1);
        self.lines.rebase(self.flight.place());
        self.machine.cut(mark);
        self.cut = true;
    }

    /// Does what comes of a machine that has stopped: it is in alarm, or held; or its cancelled jogs are cut; or they were, and it stands.
    pub(crate) fn come_to_rest(&mut self)
        requires { (first : Opening) × (h : Journal) × Keeps first self.old h × IsFoundStopped first self.old.flight h }
        ensures comes { (first : Opening) (h : Journal) → Keeps first self.old h → IsFoundStopped first self.old.flight h → (next : Journal) × Keeps first self.new next × ComesOf first h next }
        ensures same { self.new ≡ record self.old { machine = self.new.machine; lines = self.new.lines; cut = self.new.cut } }
    {
        if self.machine.is_limited() {
            self.machine.lock();
            return;
        }
        if !self.machine.is_cancelled() {
            self.machine.stop();
            return;
        }
        if self.cut {
            self.machine.end_cancel();
            self.cut = false;
            return;
        }
        self.cut_jogs();
    }

    /// A machine that a soft limit has stopped is in alarm.
    fn lock(&mut self)
        requires { (first : Opening) × (h : Journal) × Keeps first self.old h × IsAtLimit first h }
        ensures locked { (first : Opening) (h : Journal) → Keeps first self.old h → IsAtLimit first h → (next : Journal) × Keeps first self.new next × IsInAlarm first h next }
        ensures same { self.new ≡ record self.old { machine = self.new.machine } }
    {
        if !self.machine.is_locked() {
            self.machine.lock();
        }
    }

    /// What is planned is dropped where a soft limit has stopped the machine, which is in alarm from then on.
    fn drop_plan(&mut self)
        requires { (first : Opening) × (h : Journal) × Keeps first self.old h × IsAtLimit first h }
        ensures halted { (first : Opening) (h : Journal) → Keeps first self.old h → IsAtLimit first h → (next : Journal) × Keeps first self.new next × HasHalted first h next }
        ensures same { self.new ≡ record self.old { machine = self.new.machine; lines = self.new.lines } }
    {
        self.lock();
        self.machine.clear();
        self.lines.done();
    }

    /// Publishes what is in hand or due, and waits until each tick is done. Then what is planned is dropped, and the alarm is told.
    fn halt_at_limit<P: EpochPort>(&mut self, port: &mut P) -> Turn
        requires stands { (rest : P.Rest) × (first : Opening) × (h : Journal) × P.stands port.old rest first (port_log h) × Keeps first self.old h × IsReady first h × (is_limited (motion_of first h) ≡ true) × IsNextTask first halt h }
        requires unpublished { self.old.published ≡ false }
        requires flags { self.old.flags ≡ Flags.None }
        ensures goes_on { (rest : P.Rest) (first : Opening) (h : Journal) → P.stands port.old rest first (port_log h) → Keeps first self.old h → IsReady first h → is_limited (motion_of first h) ≡ true → IsNextTask first halt h
            → WorksOn first (P.stands port.new rest first) result self.old.flags self.new h }
        ensures going { result ≢ Done }
    {
        if self.has_piece() {
            return self.run(port);
        }
        if port.done() < self.machine.given {
            return Turn::Wait(On::Motion);
        }
        self.drop_plan();
        self.tell(port)
    }

    /// Closes the run, since the alarm is told, and nothing is left to do.
    fn close_limited(&mut self) -> Turn
        requires stands { (first : Opening) × (h : Journal) × Keeps first self.old h × IsReady first h × (left_of first h ≡ []) }
        requires alarmed { self.old.alarmed ≡ true }
        requires open { self.old.closing ≡ false }
        requires unpublished { self.old.published ≡ false }
        requires flags { self.old.flags ≡ Flags.None }
        ensures goes_on { (first : Opening) (h : Journal) → Keeps first self.old h → IsReady first h → left_of first h ≡ []
            → (next : Journal) × (port_log next ≡ port_log h) × BoardWorked first result self.old.flags self.new h next }
        ensures going { result ≢ Done }
    {
        self.lines.close();
        self.closing = true;
        Turn::Did
    }

    /// Does what is next where a soft limit stops the machine, or has stopped it: halts it, tells the alarm, and ends the run. So it does
    /// where the machine is locked: then nothing more is asked of it until a line unlocks it.
    #[inline(never)]
    pub(crate) fn end_limited<P: EpochPort>(&mut self, port: &mut P) -> Turn
        requires stands { (rest : P.Rest) × (first : Opening) × (h : Journal) × P.stands port.old rest first (port_log h) × Keeps first self.old h × IsReady first h × (is_limited (motion_of first h) ≡ true) }
        requires open { self.old.lines.left ≡ [] → self.old.closing ≡ false }
        requires unpublished { self.old.published ≡ false }
        requires flags { self.old.flags ≡ Flags.None }
        requires unreset { tells_next self.old.lines.left ≡ false → self.old.resetting ≡ false }
        ensures goes_on { (rest : P.Rest) (first : Opening) (h : Journal) → P.stands port.old rest first (port_log h) → Keeps first self.old h → IsReady first h → is_limited (motion_of first h) ≡ true
            → WorksOn first (P.stands port.new rest first) result self.old.flags self.new h }
        ensures going { result ≢ Done }
    {
        if self.alarmed && self.lines.is_done() {
            return self.close_limited();
        }
        match self.lines.todo() {
            Todo::Halt => self.halt_at_limit(port),
            Todo::Tell => self.tell(port),
            Todo::Finish => self.finish(port),
            Todo::Nothing => self.next_line(port),
            _ => unreachable!(),
        }
    }
}
