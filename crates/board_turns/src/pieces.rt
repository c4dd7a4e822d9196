//! How a board tells replies, adds moves, and publishes what is in hand or due.

ghost use Rattle.std.specs.Prelude.{◌-◌, ◌≡◌, ◌≢◌, ◌↔◌, ◌<◌, ◌||◌, [], ◌∷◌, cond, length, true, false, None, Some};
ghost use Rattle.feed_hold.specs.declared.Motion.TheVariants.{Idle};
ghost use Rattle.outside.specs.declared.Turn.TheVariants.{Done};
ghost use Rattle.run_rules.specs.Work.Task.{ask, tell, finish};
ghost use Rattle.status_report.specs.Answering.{is_answer, is_banner, is_report};
ghost use Rattle.status_report.specs.declared.Reply.{Reply as AnyReply};
ghost use Rattle.step_line.specs.Asking.Asked.{a_mark};
ghost use Rattle.step_line.specs.Records.{IsMark};
ghost use Rattle.line_interpreter.specs.Lefts.{IsNextOf};
ghost use Rattle.board_journal.specs.Ports.PortStep.{answered};
ghost use Rattle.board_journal.specs.Steps.{Journal, port_log, hand_of};
ghost use Rattle.board_journal.specs.Steps.Step.{at_port};
ghost use Rattle.board_journal.specs.Openings.{Opening};
ghost use Rattle.board_rules.specs.Turns.{awaits_motion, has_blocks, is_full, owes_report, unobeyed_of};
ghost use Rattle.board_rules.specs.Conduct.{IsNextTask, AsksForRoom, IsTimely, ReportsFirst};
ghost use Rattle.board_turns.specs.Boards.{Keeps};
ghost use Rattle.board_machine.specs.Machines.{marks_cut};
ghost use Rattle.flight.specs.Flights.{flight_room};
ghost use Rattle.board_turns.specs.Turning.{IsNextMove, HasPiece, IsReady, MayRun, MayHaveLooked, MayHaveTold, MayFinish, NoneFits, HasAdded, HasFilled, Tried, HasTried, GoesOn, WorksOn};

use crate::board::{Board, Flags};
use board_lines::Answered;
use board_machine::is_cut;
use epoch_ports::EpochPort;
use line_interpreter::Todo;
use outside::{On, Turn};
use status_report::Reply;
use step_line::{Mark, Piece};

impl<const N: usize> Board<N> {
    /// Whether a piece is in hand, or a segment is due.
    #[inline]
    pub(crate) fn has_piece(&self) -> bool
        ensures { (first : Opening) (h : Journal) → Keeps first self.now h → (result ≡ true) ↔ HasPiece first h }
    {
        self.machine.hand.is_some() || self.machine.is_due()
    }

    /// Whether a move is next that has room.
    #[inline]
    fn has_move_to_add(&self) -> bool
        ensures { result ≡ false → (first : Opening) (h : Journal) → Keeps first self.now h → NoneFits first h }
    {
        !self.machine.is_full() && matches!(self.lines.todo(), Todo::Move)
    }

    /// Adds the moves that are next, as far as they have room.
    #[inline(never)]
    fn add_next_moves(&mut self)
        requires { (first : Opening) × (h : Journal) × Keeps first self.old h }
        ensures added { (first : Opening) (h : Journal) → Keeps first self.old h → (next : Journal) × Keeps first self.new next × HasAdded first h next }
        ensures same { self.new ≡ record self.old { machine = self.new.machine; lines = self.new.lines } }
    {
        while let Todo::Move = self.lines.todo() {
            if self.machine.is_full() {
                return;
            }
            self.machine.add(&self.lines.planned_move());
            self.lines.done();
        }
    }

    /// Adds the moves that are next, as far as they have room. Mostly there is none to add.
    #[inline]
    pub(crate) fn add_moves(&mut self)
        requires { (first : Opening) × (h : Journal) × Keeps first self.old h }
        ensures added { (first : Opening) (h : Journal) → Keeps first self.old h → (next : Journal) × Keeps first self.new next × HasAdded first h next }
        ensures same { self.new ≡ record self.old { machine = self.new.machine; lines = self.new.lines } }
    {
        if self.has_move_to_add() {
            self.add_next_moves();
        }
    }

    /// Whether queued blocks wait, where no other has room, what is next waits for the motion, or they are of a jog.
    pub(crate) fn needs_start(&self) -> bool
        ensures yes { result ≡ true → (self.now.machine.hold.motion ≡ Idle) × (has_blocks self.now.machine.plan.blocks ≡ true)
            × ((is_full (N - 1) self.now.machine.plan || (awaits_motion self.now.lines.left || self.now.jogged)) ≡ true) }
        ensures no { result ≡ false → self.now.machine.hold.motion ≡ Idle → has_blocks self.now.machine.plan.blocks ≡ true
            → (is_full (N - 1) self.now.machine.plan || (awaits_motion self.now.lines.left || self.now.jogged)) ≡ false }
    {
        self.machine.is_waiting()
            && (self.machine.is_full() || (self.awaits_motion() || self.jogged))
    }

    /// Adds the moves that are next, as far as they have room, and starts queued blocks where that is called for.
    #[inline]
    pub(crate) fn fill(&mut self)
        requires { (first : Opening) × (h : Journal) × Keeps first self.old h }
        ensures filled { (first : Opening) (h : Journal) → Keeps first self.old h → (next : Journal) × Keeps first self.new next × HasFilled first h next }
        ensures same { self.new ≡ record self.old { machine = self.new.machine; lines = self.new.lines } }
    {
        self.add_moves();
        if self.needs_start() {
            self.machine.start(self.jogged);
        }
    }

    /// Whether it is looked how many ticks are done before a piece is published: a cut, or one for which the flight has no room.
    fn needs_look(&self, piece: Piece) -> bool
        ensures { result ≡ false → (length self.now.flight.kept < flight_room) × (marks_cut piece ≡ false) }
    {
        self.flight.is_full() || is_cut(piece)
    }

    /// Looks how many ticks are done where the flight has no room for a piece more, and before a cut is published.
    fn look_before<P: EpochPort>(&mut self, port: &mut P, piece: Piece)
        requires stands { (rest : P.Rest) × (first : Opening) × (h : Journal) × P.stands port.old rest first (port_log h) × Keeps first self.old h × (unobeyed_of h ≡ []) }
        requires hand { self.old.machine.hand ≡ Some piece }
        ensures goes_on { (rest : P.Rest) (first : Opening) (h : Journal) → P.stands port.old rest first (port_log h) → Keeps first self.old h → unobeyed_of h ≡ []
            → (next : Journal) × P.stands port.new rest first (port_log next) × Keeps first self.new next × MayHaveLooked h next × IsTimely piece next }
        ensures room { length self.new.flight.kept < flight_room }
        ensures same { self.new ≡ record self.old { flight = self.new.flight } }
    {
        if self.needs_look(piece) {
            let done = port.done();
            self.flight.learn(done);
        }
    }

    /// Tries to publish the piece in hand, while no word of requests waits to be obeyed, and behind a report that is owed. Answers whether it is published.
    pub(crate) fn publish<P: EpochPort>(&mut self, port: &mut P) -> bool
        requires stands { (rest : P.Rest) × (first : Opening) × (h : Journal) × P.stands port.old rest first (port_log h) × Keeps first self.old h × (unobeyed_of h ≡ []) × ReportsFirst h }
        requires some { self.old.machine.hand ≢ None }
        ensures goes_on { (rest : P.Rest) (first : Opening) (h : Journal) → P.stands port.old rest first (port_log h) → Keeps first self.old h → unobeyed_of h ≡ [] → ReportsFirst h
            → (next : Journal) × P.stands port.new rest first (port_log next) × Keeps first self.new next × Tried result h next }
        ensures same { self.new ≡ record self.old { machine = self.new.machine; flight = self.new.flight } }
    {
        let Some(piece) = self.machine.hand else {
            return false;
        };
        self.look_before(port, piece);
        let Ok(()) = port.publish(piece) else {
            return false;
        };
        self.machine.drop_hand();
        self.flight.push(piece);
        true
    }

    /// Tries to publish the piece in hand, or else the segment that is due, likewise.
    pub(crate) fn publish_next<P: EpochPort>(&mut self, port: &mut P) -> bool
        requires stands { (rest : P.Rest) × (first : Opening) × (h : Journal) × P.stands port.old rest first (port_log h) × Keeps first self.old h × HasPiece first h × (unobeyed_of h ≡ []) × ReportsFirst h }
        ensures goes_on { (rest : P.Rest) (first : Opening) (h : Journal) → P.stands port.old rest first (port_log h) → Keeps first self.old h → HasPiece first h → unobeyed_of h ≡ [] → ReportsFirst h
            → (next : Journal) × P.stands port.new rest first (port_log next) × Keeps first self.new next × HasTried first result h next }
        ensures same { self.new ≡ record self.old { machine = self.new.machine; flight = self.new.flight } }
    {
        if self.machine.hand.is_some() {
            return self.publish(port);
        }
        self.machine.take();
        self.publish(port)
    }

    /// Tries to publish what is in hand or due, and answers the turn: where there is no room for it, that is waited for.
    pub(crate) fn run<P: EpochPort>(&mut self, port: &mut P) -> Turn
        requires stands { (rest : P.Rest) × (first : Opening) × (h : Journal) × P.stands port.old rest first (port_log h) × Keeps first self.old h × MayRun first h × HasPiece first h }
        requires unpublished { self.old.published ≡ false }
        requires flags { self.old.flags ≡ Flags.None }
        ensures goes_on { (rest : P.Rest) (first : Opening) (h : Journal) → P.stands port.old rest first (port_log h) → Keeps first self.old h → MayRun first h → HasPiece first h
            → WorksOn first (P.stands port.new rest first) result self.old.flags self.new h }
        ensures going { result ≢ Done }
    {
        let published = self.publish_next(port);
        self.fill();
        if !published {
            return Turn::Wait(On::SegmentRoom);
        }
        self.published = true;
        Turn::Did
    }

    /// Whether a reply is not told yet: Bye alone waits until the piece in hand is published.
    #[inline]
    pub(crate) fn holds_back(&self, reply: Reply) -> bool
        ensures yes { result ≡ true → self.now.machine.hand ≢ None }
        ensures only_bye { result ≡ true → reply ≡ Reply.Bye }
        ensures no { result ≡ false → reply ≡ Reply.Bye → self.now.machine.hand ≡ None }
    {
        reply == Reply::Bye && self.machine.hand.is_some()
    }

    /// Keeps the state behind the answered lines, where this reply answers one, and that the banner is told, where it is that.
    fn keep_answered(&mut self, reply: Reply)
        ensures { self.new ≡ record self.old { answered = cond (is_answer reply) self.old.lines.state self.old.answered; greeted = is_banner reply || self.old.greeted } }
    {
        if let Reply::Ok | Reply::Error(_) = reply {
            self.answered = Answered::behind(&self.lines);
        }
        if let Reply::Banner = reply {
            self.greeted = true;
        }
    }

    /// The reply that was next is told. Where it answers a line, the state behind that is one of answered lines.
    fn told(&mut self, reply: Reply)
        requires { self.old.lines.left ≢ [] }
        ensures told { (first : Opening) (h : Journal) → Keeps first self.old h → IsNextTask first (tell reply) h → AsksForRoom h → is_report reply ≡ false → owes_report h ≡ false
            → (reply ≡ Reply.Bye → hand_of h ≡ []) → Keeps first self.new (at_port (answered reply) ∷ h) }
        ensures same { self.new ≡ record self.old { lines = self.new.lines; answered = self.new.answered; greeted = self.new.greeted } }
    {
        self.keep_answered(reply);
        self.lines.done();
    }

    /// Tells the reply that is next.
    pub(crate) fn tell<P: EpochPort>(&mut self, port: &mut P) -> Turn
        requires stands { (rest : P.Rest) × (first : Opening) × (h : Journal) × P.stands port.old rest first (port_log h) × Keeps first self.old h × IsReady first h }
        requires next { (reply : AnyReply) × IsNextOf (tell reply) self.old.lines.left }
        requires unpublished { self.old.published ≡ false }
        requires flags { self.old.flags ≡ Flags.None }
        ensures goes_on { (rest : P.Rest) (first : Opening) (h : Journal) → P.stands port.old rest first (port_log h) → Keeps first self.old h → IsReady first h
            → WorksOn first (P.stands port.new rest first) result self.old.flags self.new h }
        ensures going { result ≢ Done }
    {
        let reply = self.lines.reply();
        if self.holds_back(reply) {
            return self.run(port);
        }
        let Ok(()) = port.answer(reply) else {
            return Turn::Wait(On::ReplyRoom);
        };
        self.told(reply);
        self.fill();
        Turn::Did
    }

    /// Tells the first reply of a line that was begun in this turn, where that is next and has room. Else it has a turn of its own.
    pub(crate) fn tell_first<P: EpochPort>(&mut self, port: &mut P)
        requires stands { (rest : P.Rest) × (first : Opening) × (h : Journal) × P.stands port.old rest first (port_log h) × Keeps first self.old h × (owes_report h ≡ false) × AsksForRoom h }
        ensures goes_on { (rest : P.Rest) (first : Opening) (h : Journal) → P.stands port.old rest first (port_log h) → Keeps first self.old h → owes_report h ≡ false → AsksForRoom h
            → (next : Journal) × P.stands port.new rest first (port_log next) × Keeps first self.new next × MayHaveTold h next }
        ensures same { self.new ≡ record self.old { lines = self.new.lines; answered = self.new.answered; greeted = self.new.greeted } }
    {
        if self.lines.todo() != Todo::Tell {
            return;
        }
        let reply = self.lines.reply();
        if self.holds_back(reply) {
            return;
        }
        let Ok(()) = port.answer(reply) else {
            return;
        };
        self.told(reply);
    }

    /// Adds the moves that are next, or runs what is planned where they have no room.
    pub(crate) fn go<P: EpochPort>(&mut self, port: &mut P) -> Turn
        requires stands { (rest : P.Rest) × (first : Opening) × (h : Journal) × P.stands port.old rest first (port_log h) × Keeps first self.old h × IsReady first h × GoesOn first h × IsNextMove first h }
        requires unpublished { self.old.published ≡ false }
        requires flags { self.old.flags ≡ Flags.None }
        ensures goes_on { (rest : P.Rest) (first : Opening) (h : Journal) → P.stands port.old rest first (port_log h) → Keeps first self.old h → IsReady first h → GoesOn first h → IsNextMove first h
            → WorksOn first (P.stands port.new rest first) result self.old.flags self.new h }
        ensures going { result ≢ Done }
    {
        if self.machine.is_full() {
            return self.run(port);
        }
        self.fill();
        Turn::Did
    }

    /// Gives the mark that is next to the machine, which stands, and tries to publish it.
    pub(crate) fn mark<P: EpochPort>(&mut self, port: &mut P, mark: Mark) -> Turn
        requires stands { (rest : P.Rest) × (first : Opening) × (h : Journal) × P.stands port.old rest first (port_log h) × Keeps first self.old h × IsReady first h }
        requires next { IsNextOf (ask (a_mark mark)) self.old.lines.left }
        requires mark { IsMark mark }
        requires unpublished { self.old.published ≡ false }
        requires flags { self.old.flags ≡ Flags.None }
        ensures goes_on { (rest : P.Rest) (first : Opening) (h : Journal) → P.stands port.old rest first (port_log h) → Keeps first self.old h → IsReady first h
            → WorksOn first (P.stands port.new rest first) result self.old.flags self.new h }
        ensures going { result ≢ Done }
    {
        if self.machine.hand.is_some() {
            return self.run(port);
        }
        self.machine.put_mark(mark);
        self.lines.done();
        self.run(port)
    }

    /// Makes the end, and tries to publish it.
    pub(crate) fn finish<P: EpochPort>(&mut self, port: &mut P) -> Turn
        requires stands { (rest : P.Rest) × (first : Opening) × (h : Journal) × P.stands port.old rest first (port_log h) × Keeps first self.old h × MayRun first h × MayFinish first h × IsNextTask first finish h }
        requires unpublished { self.old.published ≡ false }
        requires flags { self.old.flags ≡ Flags.None }
        ensures goes_on { (rest : P.Rest) (first : Opening) (h : Journal) → P.stands port.old rest first (port_log h) → Keeps first self.old h → MayRun first h → MayFinish first h → IsNextTask first finish h
            → WorksOn first (P.stands port.new rest first) result self.old.flags self.new h }
        ensures going { result ≢ Done }
    {
        self.machine.put_end();
        self.lines.done();
        self.run(port)
    }
}
