//! How a board tells status reports.

ghost use Rattle.std.specs.Prelude.{◌≡◌, ◌≢◌, true, false, cond, nat_lt};
ghost use Rattle.std.specs.List.{list_any};
ghost use Rattle.outside.specs.declared.Turn.TheVariants.{Did, Done};
ghost use Rattle.flight.specs.Flights.{Flies};
ghost use Rattle.run_rules.specs.Reports.{has_room, shows_room};
ghost use Rattle.board_journal.specs.Ports.{asks_report, asks_reset};
ghost use Rattle.board_journal.specs.Steps.{Journal, port_log, published_of, known_of};
ghost use Rattle.board_journal.specs.Openings.{Opening};
ghost use Rattle.board_rules.specs.Turns.{this_turn, moving};
ghost use Rattle.board_rules.specs.Conduct.{feed_of, shown_as};
ghost use Rattle.board_turns.specs.declared.board.Flags.{Flags as AnyFlags};
ghost use Rattle.board_turns.specs.Boards.{Keeps};
ghost use Rattle.board_turns.specs.Turning.{BoardWorked, WorksOn, to_obey};
ghost use Rattle.board_turns.specs.Reporting.{HasAskedRoom, HasObserved, IsBehind, IsReported, IsTold, IsToReport, LacksRoom, MayObeyNow, obeying};

use crate::board::{Board, Flags};
use bitflags::Flags as _;
use board_machine::Machine;
use code_table::Exec;
use epoch_ports::EpochPort;
use feed_hold::Motion;
use line_interpreter::Seen;
use outside::{On, Turn};
use status_report::{Reply, Report, State};
use units::isqrt;

/// Whether a word of requests asks for a report.
pub(crate) fn asks_report(word: Exec) -> bool
    ensures { result ≡ asks_report word }
{
    word.contains(Exec::REPORT)
}

/// Whether a word of requests asks for a reset.
pub(crate) fn asks_reset(word: Exec) -> bool
    ensures { result ≡ asks_reset word }
{
    word.contains(Exec::RESET)
}

/// What of a word of requests is to be obeyed: nothing where it asks for a reset.
pub(crate) fn to_obey(word: Exec) -> Option<Exec>
    ensures { result ≡ to_obey word }
{
    if asks_reset(word) {
        return None;
    }
    Some(word)
}

/// The state, as reports tell it.
fn shown(motion: Motion) -> State
    ensures { result ≡ shown_as motion }
{
    match motion {
        Motion::Idle => State::Idle,
        Motion::Run => State::Run,
        Motion::Holding | Motion::Stopping => State::Hold1,
        Motion::Held => State::Hold0,
        Motion::Jog | Motion::Cancelling => State::Jog,
        Motion::Alarm => State::Alarm,
    }
}

/// The feed, in mm per minute, by the speed behind the last segment that was given; 0 where each tick that was given is
/// known to be done.
fn feed<const N: usize>(machine: &Machine<N>, known: u64) -> u64
    ensures { result ≡ cond (nat_lt known machine.now.given) (feed_of machine.now.plan.speed) 0 }
{
    if known < machine.given {
        isqrt(u128::from(machine.plan.speed())) * 60 / 1000
    } else {
        0
    }
}

impl<const N: usize> Board<N> {
    /// Looks how many ticks are done. Where each is, what comes of a machine that has stopped comes, and where nothing is
    /// left to run the cycle is over, or the jogs are.
    fn observe<P: EpochPort>(&mut self, port: &mut P)
        requires stands { (rest : P.Rest) × (first : Opening) × (h : Journal) × P.stands port.old rest first (port_log h) × Keeps first self.old h }
        ensures goes_on { (rest : P.Rest) (first : Opening) (h : Journal) → P.stands port.old rest first (port_log h) → Keeps first self.old h
            → (next : Journal) × P.stands port.new rest first (port_log next) × Keeps first self.new next × HasObserved first h next × Flies first.place self.new.flight (published_of next) (known_of next) }
        ensures same { self.new ≡ record self.old { machine = self.new.machine; flight = self.new.flight; lines = self.new.lines; cut = self.new.cut } }
    {
        let done = port.done();
        self.flight.learn(done);
        if self.machine.has_stopped(done) {
            self.come_to_rest();
            return;
        }
        self.machine.observe(done);
    }

    /// The free blocks of the plan and the free bytes of the link, where the settings ask for them.
    fn room<P: EpochPort>(&self, port: &mut P) -> Option<(u8, u8)>
        requires stands { (rest : P.Rest) × (first : Opening) × (h : Journal) × P.stands port.old rest first (port_log h) × Keeps first self.now h }
        ensures goes_on { (rest : P.Rest) (first : Opening) (h : Journal) → P.stands port.old rest first (port_log h) → Keeps first self.now h
            → (next : Journal) × P.stands port.new rest first (port_log next) × Keeps first self.now next × HasAskedRoom first result h next }
        ensures shown { has_room result ≡ shows_room self.now.lines.state.settings.report }
    {
        if !self.lines.shows_room() {
            return None;
        }
        let bytes = port.free();
        Some((self.machine.free_blocks(), bytes))
    }

    /// The report of what was found in this turn.
    fn report_now(&self, buffer: Option<(u8, u8)>) -> Report
        requires stands { (first : Opening) × (h : Journal) × Keeps first self.now h × Flies first.place self.now.flight (published_of h) (known_of h) }
        requires room { has_room buffer ≡ shows_room self.now.lines.state.settings.report }
        ensures told { (first : Opening) (h : Journal) → Keeps first self.now h → Flies first.place self.now.flight (published_of h) (known_of h) → HasAskedRoom first buffer h h → IsTold first self.now result h }
    {
        self.lines.report(&Seen {
            state: shown(self.machine.hold.motion),
            place: self.flight.place(),
            buffer,
            feed: feed(&self.machine, self.flight.known()),
            overrides: self.machine.overrides,
        })
    }

    /// Does what a word of requests asks of the motion, if one waits for that.
    pub(crate) fn obey_waiting(&mut self, word: Option<Exec>)
        ensures goes_on { (first : Opening) (h : Journal) → Keeps first self.old h → MayObeyNow first word h → Keeps first self.new (obeying first word h) }
        ensures same { self.new ≡ record self.old { machine = self.new.machine } }
    {
        if let Some(word) = word {
            self.machine.obey(word);
        }
    }

    /// Tries to tell the report that is owed, of what is found in this turn. Answers whether it is told.
    fn tell_report<P: EpochPort>(&mut self, port: &mut P, word: Option<Exec>) -> bool
        requires stands { (rest : P.Rest) × (first : Opening) × (h : Journal) × P.stands port.old rest first (port_log h) × Keeps first self.old h × IsToReport first word h }
        ensures goes_on { (rest : P.Rest) (first : Opening) (h : Journal) → P.stands port.old rest first (port_log h) → Keeps first self.old h → IsToReport first word h
            → (next : Journal) × P.stands port.new rest first (port_log next) × Keeps first self.new next × IsReported first result word next × IsBehind h next }
        ensures same { self.new ≡ record self.old { machine = self.new.machine; flight = self.new.flight; lines = self.new.lines; cut = self.new.cut; owes = self.new.owes } }
    {
        self.observe(port);
        let buffer = self.room(port);
        let report = self.report_now(buffer);
        let told = port.answer(Reply::Report(report)).is_ok();
        self.owes = !told;
        told
    }

    /// Goes on where there was no room for a report: what is in hand or due is tried to be published, and else the room
    /// is waited for. The report is still owed.
    fn go_on_owing<P: EpochPort>(&mut self, port: &mut P) -> Turn
        requires stands { (rest : P.Rest) × (first : Opening) × (h : Journal) × P.stands port.old rest first (port_log h) × Keeps first self.old h × LacksRoom first h }
        requires unpublished { self.old.published ≡ false }
        ensures goes_on { (rest : P.Rest) (first : Opening) (h : Journal) (was : AnyFlags) → P.stands port.old rest first (port_log h) → Keeps first self.old h → LacksRoom first h
            → (next : Journal) × P.stands port.new rest first (port_log next) × BoardWorked first result was self.new h next × (result ≡ Did → list_any moving (this_turn next) ≡ true) }
        ensures going { result ≢ Done }
    {
        self.flags = Flags::Both;
        if !self.has_piece() {
            return Turn::Wait(On::ReplyRoom);
        }
        let published = self.publish_next(port);
        self.fill();
        if !published {
            return Turn::Wait(On::ReplyRoom);
        }
        self.flags = Flags::Report(None);
        self.published = true;
        Turn::Did
    }

    /// Tells the report that is owed, and then does what the word that waits for it asks of the motion. Where there is
    /// no room for the report, it is still owed.
    #[inline(never)]
    pub(crate) fn report<P: EpochPort>(&mut self, port: &mut P, word: Option<Exec>) -> Turn
        requires stands { (rest : P.Rest) × (first : Opening) × (h : Journal) × P.stands port.old rest first (port_log h) × Keeps first self.old h × IsToReport first word h }
        requires unpublished { self.old.published ≡ false }
        ensures goes_on { (rest : P.Rest) (first : Opening) (h : Journal) (was : AnyFlags) → P.stands port.old rest first (port_log h) → Keeps first self.old h → IsToReport first word h
            → WorksOn first (P.stands port.new rest first) result was self.new h }
        ensures going { result ≢ Done }
    {
        let told = self.tell_report(port, word);
        self.obey_waiting(word);
        if !told {
            return self.go_on_owing(port);
        }
        self.flags = Flags::None;
        Turn::Did
    }
}
