//! The board.

ghost use Rattle.std.specs.Prelude.{◌-◌, ◌≤◌, ◌+◌, ◌^◌, ◌≡◌, ◌≢◌, ◌↔◌, ◌<◌, [], ◌∷◌, length, ◌||◌, true, false, None, IfSome, IfNone};
ghost use Rattle.std.specs.List.{list_any};
ghost use Rattle.feed_hold.specs.declared.Motion.TheVariants.{Idle};
ghost use Rattle.outside.specs.declared.Turn.TheVariants.{Did, Done};
ghost use Rattle.run_rules.specs.Work.{Outcome};
ghost use Rattle.run_rules.specs.Work.Task.{ask, tell, pause, normal, finish};
ghost use Rattle.step_line.specs.Asking.Asked.{a_rest};
ghost use Rattle.board_journal.specs.Ports.PortStep.{took};
ghost use Rattle.run_rules.specs.declared.State.{State as AnyState};
ghost use Rattle.run_rules.specs.States.{IsOpening};
ghost use Rattle.board_epochs.specs.Resets.{MayReset};
ghost use Rattle.board_journal.specs.Steps.{Journal, port_log, taken_of, left_of, motion_of, has_closed};
ghost use Rattle.board_journal.specs.Openings.{Opening, first_opening};
ghost use Rattle.board_journal.specs.Steps.Step.{at_port};
ghost use Rattle.board_rules.specs.Turns.{this_turn, is_greeted, tells_next, awaits_motion, begins_in, machine_in, needs_motion, found_nothing, has_blocks, is_full, is_locked};
ghost use Rattle.board_rules.specs.Conduct.{IsNextTask, MayTake, MayPoll};
ghost use Rattle.board_turns.specs.Boards.{Keeps, EpochFits, GoingFits, GoingTurned, BoardIsOver, GoingBetween, IsFree, TakesFlags, board_number};
ghost use Rattle.board_turns.specs.Turning.{HasPiece, IsReady, MayAwait, MayJudge, IsLooked, NeedsNoWait, IsWholeLine, HasPolled, HasStopped, PassesNothing, DidAlone, HasLooked, IsReadyBehind, HasBegun, BoardWorked, IsJudged, GoesOn, LetsLines, IsPassed, WorksOn};

use board_lines::{Answered, Input, jogs_behind};
use board_machine::Machine;
use code_table::Exec;
use epoch_ports::EpochPort;
use feed_hold::Motion;
use flight::Flight;
use line_interpreter::{Interpreter, Todo};
use outside::{On, Turn};
use run_rules::Machine as MachineState;
use serial_ring::ByteIn;
use step_line::Mark;

/// Which words of flags are taken before the board goes on, one a turn: both behind a line feed, and behind each wait.
#[derive(Clone, Copy)]
pub(crate) enum Flags {
    /// The word of changes of overrides, and then that of requests.
    Both,
    /// The word of requests.
    Requests,
    /// None: a report is told next, and then this word of requests is obeyed, where one waits for that.
    Report(Option<Exec>),
    /// None.
    None,
}

/// Carries out a job: takes its bytes, begins its lines one at a time, does what they ask for, and answers them.
#[derive(Drop)]
pub struct Board<const N: usize> {
    pub(crate) machine: Machine<N>,
    pub(crate) flight: Flight,
    pub(crate) lines: Interpreter,
    pub(crate) input: Input,
    pub(crate) flags: Flags,
    pub(crate) owes: bool,
    /// A word that asks for a reset was taken, and not dropped.
    pub(crate) resetting: bool,
    /// How many bytes were taken.
    pub(crate) taken: u32,
    /// The state behind the answered lines.
    pub(crate) answered: Answered,
    /// The banner is told.
    pub(crate) greeted: bool,
    /// The last turn published a piece, so that this one tries none first.
    pub(crate) published: bool,
    pub(crate) closing: bool,
    /// The last that was accepted of G-code and jogs is a jog.
    pub(crate) jogged: bool,
    /// A line has raised the alarm of a soft limit.
    pub(crate) alarmed: bool,
    /// Jogs are cancelled, and were cut since.
    pub(crate) cut: bool,
}

/// How a line that is begun finds the machine.
fn machine_in(motion: Motion) -> MachineState
    ensures { result ≡ machine_in motion }
{
    match motion {
        Motion::Run => MachineState::Runs,
        Motion::Jog => MachineState::Jogs,
        Motion::Alarm => MachineState::Locked,
        _ => MachineState::Stands,
    }
}

impl<const N: usize> Board<N> {
    /// A board that has done nothing, with a plan of at most N - 1 blocks, for N from 2 to 64. The banner is to be told.
    pub fn new() -> Board<N>
        requires { (2 ≤ N) × (N ≤ 64) }
        ensures { (state : AnyState) × IsOpening state × EpochFits (first_opening (N - 1) state) result [] }
    {
        let lines = Interpreter::new();
        let answered = Answered::behind(&lines);
        Board {
            machine: Machine::new(),
            flight: Flight::new(),
            lines,
            input: Input::new(),
            flags: Flags::None,
            owes: false,
            resetting: false,
            taken: 0,
            answered,
            greeted: false,
            published: false,
            closing: false,
            jogged: false,
            alarmed: false,
            cut: false,
        }
    }

    /// Takes a turn: takes a word of flags behind a line feed and behind each wait, and does what that asks for; else publishes
    /// a piece; else, or where there was no room for it, does the next thing. At most one thing is published. It answers what it
    /// waits for where the rules allow nothing, and is done once Bye was told. A turn that answers Did and moves nothing lowers
    /// the board's number, which is less than 16.
    ///
    /// No reset may be worked now. One that was asked for, and not dropped, lets no line begin, and the run isn't closed, until
    /// it may be.
    #[inline(always)]
    pub fn turn<P: EpochPort>(&mut self, port: &mut P) -> Turn
        requires stands { (rest : P.Rest) × (first : Opening) × (h : Journal) × P.stands port.old rest first (port_log h) × EpochFits first self.old h × GoingBetween h × (MayReset first h → ⊥) }
        ensures goes_on { (rest : P.Rest) (first : Opening) (h : Journal) → P.stands port.old rest first (port_log h) → EpochFits first self.old h → GoingBetween h → (MayReset first h → ⊥)
            → (next : Journal) × P.stands port.new rest first (port_log next) × EpochFits first self.new next × GoingBetween next × GoingTurned first result self.old self.new h next }
        ensures done { (result ≡ Done) ↔ BoardIsOver self.old }
        ensures still { BoardIsOver self.old → (self.new ≡ self.old) × (port.new ≡ port.old) }
        ensures few { (first : Opening) (h : Journal) → EpochFits first self.old h → board_number first self.old h < 16 }
    {
        let turn = self.work(port);
        if let Turn::Wait(_) = turn {
            self.await_words();
        }
        turn
    }

    /// Goes through the phases of a turn, and does the first that has something to do: obey, publish a piece, finish a task, begin a
    /// line, take a byte. Where there is no room for the piece, the next phases come, too.
    #[inline(always)]
    fn work<P: EpochPort>(&mut self, port: &mut P) -> Turn
        requires stands { (rest : P.Rest) × (first : Opening) × (h : Journal) × P.stands port.old rest first (port_log h) × GoingFits first self.old h × GoingBetween h }
        ensures goes_on { (rest : P.Rest) (first : Opening) (h : Journal) → P.stands port.old rest first (port_log h) → GoingFits first self.old h → GoingBetween h
            → WorksOn first (P.stands port.new rest first) result self.old.flags self.new h }
        ensures done { (result ≡ Done) ↔ BoardIsOver self.old }
        ensures still { BoardIsOver self.old → (self.new ≡ self.old) × (port.new ≡ port.old) }
    {
        if self.is_closed() {
            return Turn::Done;
        }
        let Flags::None = self.flags else {
            return self.obey(port);
        };
        if self.publish_first(port) {
            return Turn::Did;
        }
        self.serve_lines(port)
    }

    /// Whether the run is closed, and nothing is left to do.
    #[inline]
    fn is_closed(&self) -> bool
        ensures { (result ≡ true) ↔ BoardIsOver self.now }
    {
        self.closing && self.lines.is_done()
    }

    /// Obeys: takes the word of flags that is next, or tells the report that is owed, and obeys the word that waits for that.
    #[inline(always)]
    fn obey<P: EpochPort>(&mut self, port: &mut P) -> Turn
        requires stands { (rest : P.Rest) × (first : Opening) × (h : Journal) × P.stands port.old rest first (port_log h) × GoingFits first self.old h × GoingBetween h }
        requires some { self.old.flags ≢ Flags.None }
        ensures goes_on { (rest : P.Rest) (first : Opening) (h : Journal) → P.stands port.old rest first (port_log h) → GoingFits first self.old h → GoingBetween h
            → WorksOn first (P.stands port.new rest first) result self.old.flags self.new h }
        ensures going { result ≢ Done }
    {
        match self.flags {
            Flags::Both => {
                self.take_changes(port);
                self.flags = Flags::Requests;
                Turn::Did
            }
            Flags::Requests => {
                self.take_requests(port);
                Turn::Did
            }
            Flags::Report(word) => {
                self.published = false;
                self.report(port, word)
            }
            Flags::None => unreachable!(),
        }
    }

    /// Whether the turn begins with a piece: one is in hand, or a segment is due, and the last turn published none.
    #[inline]
    fn begins_with_piece(&self) -> bool
        ensures yes { (first : Opening) (h : Journal) → Keeps first self.now h → result ≡ true → (self.now.published ≡ false) × HasPiece first h }
        ensures no { (first : Opening) (h : Journal) → Keeps first self.now h → result ≡ false → self.now.published ≡ false → HasPiece first h → ⊥ }
    {
        !self.published && self.has_piece()
    }

    /// Publishes what is in hand or due, where there is room for it, and the last turn published none. Answers whether it is published.
    #[inline(always)]
    fn publish_first<P: EpochPort>(&mut self, port: &mut P) -> bool
        requires stands { (rest : P.Rest) × (first : Opening) × (h : Journal) × P.stands port.old rest first (port_log h) × GoingFits first self.old h × GoingBetween h }
        requires flags { self.old.flags ≡ Flags.None }
        ensures published { (rest : P.Rest) (first : Opening) (h : Journal) → P.stands port.old rest first (port_log h) → GoingFits first self.old h → GoingBetween h → result ≡ true
            → WorksOn first (P.stands port.new rest first) Did self.old.flags self.new h }
        ensures none { (rest : P.Rest) (first : Opening) (h : Journal) → P.stands port.old rest first (port_log h) → GoingFits first self.old h → GoingBetween h → result ≡ false
            → (next : Journal) × P.stands port.new rest first (port_log next) × Keeps first self.new next × IsReadyBehind first h next }
        ensures unpublished { result ≡ false → self.new.published ≡ false }
        ensures same { result ≡ false → self.new ≡ record self.old { machine = self.new.machine; flight = self.new.flight; published = self.new.published } }
    {
        if !self.begins_with_piece() {
            self.published = false;
            return false;
        }
        if !self.publish_next(port) {
            return false;
        }
        self.fill();
        self.published = true;
        true
    }

    /// Serves the lines: finishes a task, begins a line, or takes a byte. Where what is next is held up it waits, and where a soft
    /// limit stops the machine, or has stopped it, the run is ended.
    #[inline(always)]
    fn serve_lines<P: EpochPort>(&mut self, port: &mut P) -> Turn
        requires stands { (rest : P.Rest) × (first : Opening) × (h : Journal) × P.stands port.old rest first (port_log h) × Keeps first self.old h × IsReady first h }
        requires open { self.old.lines.left ≡ [] → self.old.closing ≡ false }
        requires unpublished { self.old.published ≡ false }
        requires flags { self.old.flags ≡ Flags.None }
        requires unreset { tells_next self.old.lines.left ≡ false → self.old.resetting ≡ false }
        ensures goes_on { (rest : P.Rest) (first : Opening) (h : Journal) → P.stands port.old rest first (port_log h) → Keeps first self.old h → IsReady first h
            → WorksOn first (P.stands port.new rest first) result self.old.flags self.new h }
        ensures going { result ≢ Done }
    {
        if self.machine.is_halting() && self.is_held_up() {
            return self.halt(port);
        }
        if self.machine.is_limited() {
            return self.end_limited(port);
        }
        if self.lines.is_done() {
            return self.next_line(port);
        }
        self.finish_task(port)
    }

    /// Whether a machine that is held, or slows down for that, keeps what is next from going on.
    #[inline]
    fn is_held_up(&self) -> bool
        ensures { result ≡ needs_motion self.now.lines.left self.now.input.whole (is_full (N - 1) self.now.machine.plan) }
    {
        match self.lines.todo() {
            Todo::Nothing => self.input.whole,
            Todo::Move => self.machine.is_full(),
            Todo::Mark(_) | Todo::Tell => false,
            Todo::Rest | Todo::Pause | Todo::Normal | Todo::Finish | Todo::Halt => true,
        }
    }

    /// Whether what is next waits for the motion.
    #[inline]
    pub(crate) fn awaits_motion(&self) -> bool
        ensures { result ≡ awaits_motion self.now.lines.left }
    {
        matches!(
            self.lines.todo(),
            Todo::Rest | Todo::Pause | Todo::Normal | Todo::Finish | Todo::Halt
        )
    }

    /// Finishes a task of the line, once the motion has stopped where that is waited for. It is not held up.
    #[inline(always)]
    fn finish_task<P: EpochPort>(&mut self, port: &mut P) -> Turn
        requires stands { (rest : P.Rest) × (first : Opening) × (h : Journal) × P.stands port.old rest first (port_log h) × Keeps first self.old h × IsReady first h × GoesOn first h }
        requires open { self.old.lines.left ≡ [] → self.old.closing ≡ false }
        requires unpublished { self.old.published ≡ false }
        requires flags { self.old.flags ≡ Flags.None }
        requires unreset { tells_next self.old.lines.left ≡ false → self.old.resetting ≡ false }
        ensures goes_on { (rest : P.Rest) (first : Opening) (h : Journal) → P.stands port.old rest first (port_log h) → Keeps first self.old h → IsReady first h → GoesOn first h
            → WorksOn first (P.stands port.new rest first) result self.old.flags self.new h }
        ensures going { result ≢ Done }
    {
        if !self.awaits_motion() {
            return self.do_task(port);
        }
        if let Some(turn) = self.await_motion(port) {
            return turn;
        }
        self.pass();
        self.do_task(port)
    }

    /// Waits until nothing is left to run, and each tick is done; then the cycle is over. Until then it answers what the turn answers.
    #[inline(never)]
    fn await_motion<P: EpochPort>(&mut self, port: &mut P) -> Option<Turn>
        requires stands { (rest : P.Rest) × (first : Opening) × (h : Journal) × P.stands port.old rest first (port_log h) × Keeps first self.old h × MayAwait first h }
        requires unpublished { self.old.published ≡ false }
        requires flags { self.old.flags ≡ Flags.None }
        ensures waits { IfSome result (λ t. (rest : P.Rest) (first : Opening) (h : Journal) → P.stands port.old rest first (port_log h) → Keeps first self.old h → MayAwait first h
            → WorksOn first (P.stands port.new rest first) t self.old.flags self.new h) }
        ensures over { IfNone result ((rest : P.Rest) (first : Opening) (h : Journal) → P.stands port.old rest first (port_log h) → Keeps first self.old h → MayAwait first h
            → (next : Journal) × P.stands port.new rest first (port_log next) × Keeps first self.new next × HasStopped first next × PassesNothing first h next × (left_of first next ≡ left_of first h)) }
        ensures same { IfNone result (self.new ≡ record self.old { machine = self.new.machine }) }
        ensures going { IfSome result (λ t. t ≢ Done) }
    {
        if self.machine.hand.is_some() || self.machine.has_blocks() {
            return Some(self.run(port));
        }
        if port.done() < self.machine.given {
            return Some(Turn::Wait(On::Motion));
        }
        self.machine.drain();
        None
    }

    /// A rest that is next is over where the machine has stopped, or each override is set to 100 percent there.
    fn pass_next(&mut self)
        requires stands { (first : Opening) × (h : Journal) × Keeps first self.old h × HasStopped first h }
        requires next { IsPassed self.old.lines.left }
        ensures passed { (first : Opening) (h : Journal) → Keeps first self.old h → HasStopped first h → (next : Journal) × Keeps first self.new next × HasStopped first next × DidAlone first h next }
        ensures same { self.new ≡ record self.old { machine = self.new.machine; lines = self.new.lines } }
        ensures fewer { length self.new.lines.left < length self.old.lines.left }
    {
        if self.lines.todo() == Todo::Normal {
            self.machine.even();
        }
        self.lines.done();
    }

    /// What is next of rests, and of overrides to be set at the end of a program, is done where the machine has stopped.
    fn pass(&mut self)
        requires { (first : Opening) × (h : Journal) × Keeps first self.old h × HasStopped first h }
        ensures passed { (first : Opening) (h : Journal) → Keeps first self.old h → HasStopped first h → (next : Journal) × Keeps first self.new next × HasStopped first next × DidAlone first h next
            × (IsNextTask first (ask a_rest) next → ⊥) × (IsNextTask first normal next → ⊥) }
        ensures same { self.new ≡ record self.old { machine = self.new.machine; lines = self.new.lines } }
        ensures closing { (first : Opening) (h : Journal) → Keeps first self.old h → self.old.closing ≡ true → self.new ≡ self.old }
    {
        while let Todo::Rest | Todo::Normal = self.lines.todo() {
            self.pass_next();
        }
    }

    /// Does the task that is next, where that is no rest, nor the end before the machine has stopped.
    #[inline(never)]
    fn do_task<P: EpochPort>(&mut self, port: &mut P) -> Turn
        requires stands { (rest : P.Rest) × (first : Opening) × (h : Journal) × P.stands port.old rest first (port_log h) × Keeps first self.old h × IsReady first h × GoesOn first h × NeedsNoWait first h }
        requires open { self.old.lines.left ≡ [] → self.old.closing ≡ false }
        requires unpublished { self.old.published ≡ false }
        requires flags { self.old.flags ≡ Flags.None }
        requires unreset { tells_next self.old.lines.left ≡ false → self.old.resetting ≡ false }
        ensures goes_on { (rest : P.Rest) (first : Opening) (h : Journal) → P.stands port.old rest first (port_log h) → Keeps first self.old h → IsReady first h → GoesOn first h → NeedsNoWait first h
            → WorksOn first (P.stands port.new rest first) result self.old.flags self.new h }
        ensures going { result ≢ Done }
    {
        match self.lines.todo() {
            Todo::Nothing => self.next_line(port),
            Todo::Tell => self.tell(port),
            Todo::Move => self.go(port),
            Todo::Mark(mark) => self.mark(port, mark),
            Todo::Pause => self.pause(),
            Todo::Finish => self.finish(port),
            Todo::Rest | Todo::Normal | Todo::Halt => unreachable!(),
        }
    }

    /// The machine, which has stopped, is held for the pause that is next.
    fn pause(&mut self) -> Turn
        requires stands { (first : Opening) × (h : Journal) × Keeps first self.old h × IsReady first h × HasStopped first h × IsNextTask first pause h }
        requires unpublished { self.old.published ≡ false }
        requires flags { self.old.flags ≡ Flags.None }
        ensures goes_on { (first : Opening) (h : Journal) → Keeps first self.old h → IsReady first h → HasStopped first h → IsNextTask first pause h
            → (next : Journal) × (port_log next ≡ port_log h) × BoardWorked first result Flags.None self.new h next }
        ensures going { result ≢ Done }
    {
        self.machine.pause();
        self.lines.done();
        self.fill();
        Turn::Did
    }

    /// Begins the next line where it was taken whole, and else takes a byte of it. Nothing is left of the line before.
    #[inline(always)]
    pub(crate) fn next_line<P: EpochPort>(&mut self, port: &mut P) -> Turn
        requires stands { (rest : P.Rest) × (first : Opening) × (h : Journal) × P.stands port.old rest first (port_log h) × Keeps first self.old h × IsReady first h × LetsLines first h }
        requires none { self.old.lines.left ≡ [] }
        requires open { self.old.closing ≡ false }
        requires unpublished { self.old.published ≡ false }
        requires flags { self.old.flags ≡ Flags.None }
        requires unreset { self.old.resetting ≡ false }
        ensures goes_on { (rest : P.Rest) (first : Opening) (h : Journal) → P.stands port.old rest first (port_log h) → Keeps first self.old h → IsReady first h → LetsLines first h
            → WorksOn first (P.stands port.new rest first) result self.old.flags self.new h }
        ensures going { result ≢ Done }
    {
        if self.input.whole {
            return self.begin_line(port);
        }
        self.take_byte(port)
    }

    /// Looks how many ticks are done. Where nothing is left to run, and each is done, the cycle is over.
    fn look<P: EpochPort>(&mut self, port: &mut P)
        requires stands { (rest : P.Rest) × (first : Opening) × (h : Journal) × P.stands port.old rest first (port_log h) × Keeps first self.old h × ((begins_in (motion_of first h) || is_locked first h) ≡ true) }
        ensures goes_on { (rest : P.Rest) (first : Opening) (h : Journal) → P.stands port.old rest first (port_log h) → Keeps first self.old h → (begins_in (motion_of first h) || is_locked first h) ≡ true
            → (next : Journal) × P.stands port.new rest first (port_log next) × Keeps first self.new next × HasLooked first h next }
        ensures same { self.new ≡ record self.old { machine = self.new.machine } }
    {
        let done = port.done();
        if self.machine.is_going()
            && self.machine.hand.is_none()
            && !self.machine.has_blocks()
            && done == self.machine.given
        {
            self.machine.drain();
        }
    }

    /// Where the line that was taken whole begins with `$`, queued blocks start before it.
    fn start_before_line(&mut self)
        ensures started { (first : Opening) (h : Journal) → Keeps first self.old h → IsLooked first h → (next : Journal) × Keeps first self.new next × MayJudge first next × DidAlone first h next }
        ensures same { self.new ≡ record self.old { machine = self.new.machine } }
    {
        if self.input.dollar && self.machine.is_waiting() {
            self.machine.start(self.jogged);
        }
    }

    /// Judges the line that was taken whole.
    fn judge_line(&mut self)
        requires { (first : Opening) × (h : Journal) × Keeps first self.old h × MayJudge first h }
        ensures judged { (first : Opening) (h : Journal) → Keeps first self.old h → MayJudge first h → (o : Outcome) × IsJudged first self.old self.new h o }
        ensures same { self.new ≡ record self.old { lines = self.new.lines; input = self.new.input; jogged = self.new.jogged } }
    {
        let accepted = self
            .lines
            .judge(&self.input.kept, machine_in(self.machine.hold.motion));
        self.jogged = jogs_behind(accepted, self.jogged);
        self.input.clear();
    }

    /// Begins the line that was taken whole. Where a soft limit stops it, so is the motion, at once; where it unlocks the machine,
    /// that is unlocked.
    fn judge(&mut self)
        requires may { (first : Opening) × (h : Journal) × Keeps first self.old h × MayJudge first h }
        requires unreset { self.old.resetting ≡ false }
        ensures begun { (first : Opening) (h : Journal) → Keeps first self.old h → MayJudge first h → (o : Outcome) × (next : Journal) × Keeps first self.new next × HasBegun first o h next }
        ensures same { self.new ≡ record self.old { machine = self.new.machine; lines = self.new.lines; input = self.new.input; jogged = self.new.jogged; alarmed = self.new.alarmed } }
    {
        let unlocks = self.is_unlocked();
        self.judge_line();
        if self.lines.todo() == Todo::Halt {
            self.machine.limit();
            self.alarmed = true;
        } else if unlocks {
            self.machine.unlock();
        }
    }

    /// Begins the line that was taken whole, and tells its first reply where that is next. Queued blocks start before a `$` line.
    #[inline(never)]
    fn begin_line<P: EpochPort>(&mut self, port: &mut P) -> Turn
        requires stands { (rest : P.Rest) × (first : Opening) × (h : Journal) × P.stands port.old rest first (port_log h) × Keeps first self.old h × IsReady first h × IsWholeLine first h }
        requires unpublished { self.old.published ≡ false }
        requires flags { self.old.flags ≡ Flags.None }
        requires unreset { self.old.resetting ≡ false }
        ensures goes_on { (rest : P.Rest) (first : Opening) (h : Journal) → P.stands port.old rest first (port_log h) → Keeps first self.old h → IsReady first h → IsWholeLine first h
            → WorksOn first (P.stands port.new rest first) result self.old.flags self.new h }
        ensures going { result ≢ Done }
    {
        self.look(port);
        self.start_before_line();
        self.judge();
        self.tell_first(port);
        self.fill();
        Turn::Did
    }

    /// The byte that was taken belongs to the line that is not begun, or ends it.
    #[inline(always)]
    fn keep(&mut self, byte: u8)
        requires flags { self.old.flags ≡ Flags.None }
        requires few { self.old.taken < 2 ^ 31 }
        ensures kept { (first : Opening) (h : Journal) → Keeps first self.old h → MayTake first h → first.lines + length (taken_of h) < 2 ^ 31 → Keeps first self.new (at_port (took byte) ∷ h) }
        ensures flags { (first : Opening) (h : Journal) → IsFree h → is_greeted h ≡ true → TakesFlags self.new.flags (at_port (took byte) ∷ h) }
        ensures same { self.new ≡ record self.old { input = self.new.input; flags = self.new.flags; taken = self.new.taken } }
    {
        self.taken += 1;
        if byte == b'\n' {
            self.input.finish();
            self.flags = Flags::Both;
        } else {
            self.input.push(byte);
        }
    }

    /// Starts the queued blocks that wait where a poll found no byte, and tries to publish the first segment of them.
    fn run_waiting<P: EpochPort>(&mut self, port: &mut P) -> Turn
        requires stands { (rest : P.Rest) × (first : Opening) × (h : Journal) × P.stands port.old rest first (port_log h) × Keeps first self.old h × HasPolled first h }
        requires idle { self.old.machine.hold.motion ≡ Idle }
        requires blocks { has_blocks self.old.machine.plan.blocks ≡ true }
        requires unpublished { self.old.published ≡ false }
        requires flags { self.old.flags ≡ Flags.None }
        ensures goes_on { (rest : P.Rest) (first : Opening) (h : Journal) → P.stands port.old rest first (port_log h) → Keeps first self.old h → HasPolled first h
            → WorksOn first (P.stands port.new rest first) result self.old.flags self.new h }
        ensures going { result ≢ Done }
    {
        self.machine.start(self.jogged);
        self.run(port)
    }

    /// What is done where a poll found no byte: queued blocks start.
    #[inline(never)]
    fn without_byte<P: EpochPort>(&mut self, port: &mut P) -> Turn
        requires stands { (rest : P.Rest) × (first : Opening) × (h : Journal) × P.stands port.old rest first (port_log h) × Keeps first self.old h × HasPolled first h }
        requires unpublished { self.old.published ≡ false }
        requires flags { self.old.flags ≡ Flags.None }
        ensures goes_on { (rest : P.Rest) (first : Opening) (h : Journal) → P.stands port.old rest first (port_log h) → Keeps first self.old h → HasPolled first h → list_any found_nothing (this_turn h) ≡ true
            → WorksOn first (P.stands port.new rest first) result self.old.flags self.new h }
        ensures going { result ≢ Done }
    {
        if !self.machine.is_waiting() {
            return Turn::Wait(On::Byte);
        }
        self.run_waiting(port)
    }

    /// What is done where a poll found the link closed: queued blocks start, and where none waits the run is closed.
    #[inline(never)]
    fn close<P: EpochPort>(&mut self, port: &mut P) -> Turn
        requires stands { (rest : P.Rest) × (first : Opening) × (h : Journal) × P.stands port.old rest first (port_log h) × Keeps first self.old h × HasPolled first h × (has_closed h ≡ true) }
        requires unpublished { self.old.published ≡ false }
        requires flags { self.old.flags ≡ Flags.None }
        requires unreset { self.old.resetting ≡ false }
        ensures goes_on { (rest : P.Rest) (first : Opening) (h : Journal) → P.stands port.old rest first (port_log h) → Keeps first self.old h → HasPolled first h → has_closed h ≡ true
            → WorksOn first (P.stands port.new rest first) result self.old.flags self.new h }
        ensures going { result ≢ Done }
    {
        if self.machine.is_waiting() {
            return self.run_waiting(port);
        }
        self.lines.close();
        self.closing = true;
        Turn::Did
    }

    /// Takes the next byte of the line, if one is there: polls for it.
    #[inline(always)]
    fn take_byte<P: EpochPort>(&mut self, port: &mut P) -> Turn
        requires stands { (rest : P.Rest) × (first : Opening) × (h : Journal) × P.stands port.old rest first (port_log h) × Keeps first self.old h × IsReady first h × MayPoll first h }
        requires unpublished { self.old.published ≡ false }
        requires flags { self.old.flags ≡ Flags.None }
        requires unreset { self.old.resetting ≡ false }
        ensures goes_on { (rest : P.Rest) (first : Opening) (h : Journal) → P.stands port.old rest first (port_log h) → Keeps first self.old h → IsReady first h → MayPoll first h
            → WorksOn first (P.stands port.new rest first) result self.old.flags self.new h }
        ensures going { result ≢ Done }
    {
        match port.byte() {
            ByteIn::Byte(byte) => {
                self.keep(byte);
                Turn::Did
            }
            ByteIn::Empty => self.without_byte(port),
            ByteIn::Closed => self.close(port),
        }
    }
}
