//! The actors of a run, and the lists between them.

ghost use Rattle.serial_ring.specs.Lists.{IsRoom};
ghost use Rattle.std.specs.Prelude.{◌≡◌, ◌≢◌, ◌↔◌, ◌<◌, ◌≤◌, ◌-◌, true, false, IfOk};
ghost use Rattle.outside.specs.Causes.{SourceState, SinkState};
ghost use Rattle.stream_host.specs.Hosts.{HostRests};
ghost use Rattle.controller.specs.Boards.{BoardRests};
ghost use Rattle.step_record.specs.Recording.{Rests};
ghost use Rattle.step_record.specs.declared.forms.Form.{Form};
ghost use Rattle.pulse_engine.specs.Steps.{AwaitsPiece};
ghost use Rattle.motion_pulse.specs.Pulses.{seen_of};
ghost use Rattle.motion_pulse.specs.declared.pulse.Stepping.TheVariants.{Events, Subticks};
ghost use Rattle.motion_pulse.specs.declared.pulse.Stepping.{Stepping};
ghost use Rattle.actor_turns.specs.Worlds.{Devices, devices, History, no_history, pins_in, Holds, Stands, LinkIsKept, FlagsAreKept, MotionIsKept, TurnsOn, ActsAlone, IsDone, AreDone, OffersNothing, MotionRests, end_after, HasRun, HasRunAlone, HasRunCounted};
ghost use Rattle.actor_turns.specs.Lockstep.{number_of};

use crate::worlds_run;
use controller::Controller;
use list_ports::{Lists, Records};
use motion_pulse::{MotionPulse, Stepping};
use outside::{Actor, OutOfMemory, Sink, Source, Turn};
use run_law::RunEnd;
use std::alloc::Global;
use std::marker::Model;
use step_record::{Form, Recorder};
use stream_host::Host;

/// The four actors of a run, and the lists between them: the link has room for `RX` bytes, the plan for `N` - 1 blocks. There is a
/// history of all that was done.
#[derive(Drop)]
pub struct World<const RX: usize, const N: usize> {
    host: Host,
    board: Controller<N>,
    pulse: MotionPulse,
    recorder: Recorder,
    lists: Lists<RX>,
    waiting: Records,
}

impl<const RX: usize, const N: usize> Model for World<RX, N> {
    ghost use Rattle.actor_turns.specs.Worlds.{Seen, HasHistory};

    ghost Value = { Seen N };

    ghost view = { λ w. record { room = RX; host = w.host; board = w.board; pulse = w.pulse; recorder = w.recorder; lists = w.lists; waiting = w.waiting } };

    ghost invariant = { λ w. HasHistory (record { room = RX; host = w.host; board = w.board; pulse = w.pulse; recorder = w.recorder; lists = w.lists; waiting = w.waiting }) };
}

impl<const RX: usize, const N: usize> World<RX, N> {
    /// A world in which nothing was done, whose recorder has a form, and whose pulse steps the machine event by event. All room is
    /// taken here.
    pub fn new(alloc: Global, form: Form) -> Result<World<RX, N>, OutOfMemory>
        requires room { IsRoom RX }
        requires slots { (2 ≤ N) × (N ≤ 64) }
        ensures fresh { IfOk result (λ world. (now : Devices) → Stands form now now world (no_history false Events)) }
        ensures room { IfOk result (λ world. world.room ≡ RX) }
    {
        World::stepping(alloc, form, Stepping::Events, false)
    }

    /// Such a world whose pulse hands out the subticks of each event, so that slow axes step in between. All room is taken here.
    pub fn smooth(alloc: Global, form: Form) -> Result<World<RX, N>, OutOfMemory>
        requires room { IsRoom RX }
        requires slots { (2 ≤ N) × (N ≤ 64) }
        ensures fresh { IfOk result (λ world. (now : Devices) → Stands form now now world (no_history false Subticks)) }
        ensures room { IfOk result (λ world. world.room ≡ RX) }
    {
        World::stepping(alloc, form, Stepping::Subticks, false)
    }

    /// Such a world with a pulse of either kind, whose sender stands by or not.
    pub(crate) fn stepping(
        alloc: Global,
        form: Form,
        stepping: Stepping,
        attended: bool,
    ) -> Result<World<RX, N>, OutOfMemory>
        requires room { IsRoom RX }
        requires slots { (2 ≤ N) × (N ≤ 64) }
        ensures fresh { IfOk result (λ world. (now : Devices) → Stands form now now world (no_history attended stepping)) }
        ensures room { IfOk result (λ world. world.room ≡ RX) }
    {
        Ok(World {
            host: Host::new(RX as u8, attended),
            board: Controller::new(),
            pulse: MotionPulse::new(stepping),
            recorder: Recorder::new(form),
            lists: Lists::new(alloc)?,
            waiting: Records::new(alloc)?,
        })
    }

    fn turn_host<J: Source, C: Sink>(&mut self, job: &mut J, console: &mut C) -> Turn
        ensures goes_on { (steps : SinkState) → TurnsOn Actor.Host result (devices (J.state job.old) (C.state console.old) steps) (devices (J.state job.new) (C.state console.new) steps) self.old self.new }
        ensures alone { ActsAlone Actor.Host self.old self.new }
        ensures done { (result ≡ Turn.Done) ↔ HostRests self.old.host }
        ensures still { HostRests self.old.host → (self.new ≡ self.old) × (job.new ≡ job.old) × (console.new ≡ console.old) }
    {
        self.host.turn(&mut self.lists, job, console)
    }

    #[inline(always)]
    fn turn_board(&mut self) -> Turn
        ensures goes_on { (now : Devices) → TurnsOn Actor.Board result now now self.old self.new }
        ensures alone { ActsAlone Actor.Board self.old self.new }
        ensures done { (result ≡ Turn.Done) ↔ BoardRests self.old.board }
        ensures still { BoardRests self.old.board → self.new ≡ self.old }
    {
        self.board.turn(&mut self.lists)
    }

    #[inline]
    fn turn_pulse(&mut self) -> Turn
        ensures goes_on { (now : Devices) → TurnsOn Actor.Pulse result now now self.old self.new }
        ensures alone { ActsAlone Actor.Pulse self.old self.new }
        ensures done { (result ≡ Turn.Done) ↔ ((seen_of self.old.pulse).over ≡ true) }
        ensures still { (seen_of self.old.pulse).over ≡ true → self.new ≡ self.old }
    {
        self.pulse.turn(&mut self.lists, &mut self.waiting)
    }

    #[inline]
    fn turn_recorder<S: Sink>(&mut self, steps: &mut S) -> Turn
        ensures goes_on { (job : SourceState) (console : SinkState) → TurnsOn Actor.Record result (devices job console (S.state steps.old)) (devices job console (S.state steps.new)) self.old self.new }
        ensures alone { ActsAlone Actor.Record self.old self.new }
        ensures done { (result ≡ Turn.Done) ↔ Rests self.old.recorder }
        ensures still { Rests self.old.recorder → (self.new ≡ self.old) × (steps.new ≡ steps.old) }
    {
        self.recorder.turn(&mut self.waiting, steps)
    }

    /// A turn of an actor: the host over the job and the console, the recorder over the steps, the board and the pulse
    /// over the lists alone. Whatever was done before, it goes on as the actor's rules allow. An actor answers Done
    /// exactly where it rests, and then nothing changes.
    #[inline]
    pub fn turn<J: Source, C: Sink, S: Sink>(
        &mut self,
        actor: Actor,
        job: &mut J,
        console: &mut C,
        steps: &mut S,
    ) -> Turn
        ensures goes_on { TurnsOn actor result (devices (J.state job.old) (C.state console.old) (S.state steps.old)) (devices (J.state job.new) (C.state console.new) (S.state steps.new)) self.old self.new }
        ensures alone { ActsAlone actor self.old self.new }
        ensures sending { actor ≢ Actor.Host → (job.new ≡ job.old) × (console.new ≡ console.old) }
        ensures recording { actor ≢ Actor.Record → steps.new ≡ steps.old }
        ensures done { (result ≡ Turn.Done) ↔ IsDone actor self.old }
        ensures still { IsDone actor self.old → (self.new ≡ self.old) × (job.new ≡ job.old) × (console.new ≡ console.old) × (steps.new ≡ steps.old) }
    {
        match actor {
            Actor::Host => self.turn_host(job, console),
            Actor::Board => self.turn_board(),
            Actor::Pulse => self.turn_pulse(),
            Actor::Record => self.turn_recorder(steps),
        }
    }

    /// A turn of the host or of the board, where the actor is one of the two.
    #[inline(always)]
    pub(crate) fn turn_sender<J: Source, C: Sink>(
        &mut self,
        actor: Actor,
        job: &mut J,
        console: &mut C,
    ) -> Turn
        requires { number_of actor < 2 }
        ensures goes_on { (steps : SinkState) → TurnsOn actor result (devices (J.state job.old) (C.state console.old) steps) (devices (J.state job.new) (C.state console.new) steps) self.old self.new }
        ensures alone { ActsAlone actor self.old self.new }
        ensures done { (result ≡ Turn.Done) ↔ IsDone actor self.old }
        ensures still { IsDone actor self.old → self.new ≡ self.old }
    {
        match actor {
            Actor::Host => self.turn_host(job, console),
            _ => self.turn_board(),
        }
    }

    /// Whether neither a stop nor a piece waits for the pulse.
    #[inline]
    pub(crate) fn offers_nothing(&self) -> bool
        ensures { (result ≡ true) ↔ OffersNothing self.now }
    {
        self.lists.has_no_stop() && self.lists.has_no_piece()
    }

    /// Whether the pulse is between two pieces: its next turn gets one, or finds none.
    #[inline]
    pub(crate) fn awaits_piece(&self) -> bool
        ensures { (result ≡ true) ↔ AwaitsPiece (seen_of self.now.pulse) }
    {
        self.pulse.awaits_piece()
    }

    /// Whether nothing moves: the pulse has nothing to put, and finds no stop and no piece, and the recorder has nothing to write,
    /// and finds no record. Then a turn of either changes nothing.
    pub(crate) fn rests(&self) -> bool
        ensures { (result ≡ true) ↔ MotionRests self.now }
    {
        self.offers_nothing()
            && self.waiting.is_empty()
            && self.pulse.awaits_piece()
            && self.recorder.takes()
    }

    /// What is on its way between the actors comes in order, and has room; no flag is lost, and none is taken twice.
    pub fn keeps_order(&self)
        ensures link { (hist : History) → Holds self.now hist → LinkIsKept self.now hist }
        ensures flags { (hist : History) → Holds self.now hist → FlagsAreKept self.now hist }
        ensures motion { (hist : History) → Holds self.now hist → MotionIsKept self.now hist }
    {
        self.lists.have_room();
        self.waiting.have_room();
    }

    /// How many subticks were handed out, up to the largest number that 64 bits hold: none where the pulse steps the machine event by
    /// event.
    pub fn pins(&self) -> u64
        ensures { (hist : History) → Holds self.now hist → result ≡ pins_in hist }
    {
        self.pulse.pins()
    }

    /// How the run ends: why no more of the job was sent, what was answered, and which devices have failed. Where all four
    /// actors are done, a run of the job was done since the world was new, and this is its end; each line of it has at most as many
    /// reports as it has `?`, where the host is not attended; and where no reset ends an epoch, the subticks that were handed out are those
    /// of the heads of its records.
    pub fn end(&self) -> RunEnd
        ensures tells { (hist : History) → Holds self.now hist → result ≡ end_after self.now hist }
        ensures whole { (form : Form) (was now : Devices) (hist : History) → Stands form was now self.now hist → AreDone self.now → HasRun self.now.host.attended RX (N - 1) form was now result }
        ensures alone { (form : Form) (was now : Devices) (hist : History) → Stands form was now self.now hist → AreDone self.now → HasRunAlone self.now.host.attended RX (N - 1) form was now result }
        ensures counted { (form : Form) (was now : Devices) (hist : History) → Stands form was now self.now hist → AreDone self.now → HasRunCounted self.now.host.attended RX (N - 1) form was now result hist.stepping (pins_in hist) }
    {
        worlds_run();
        RunEnd {
            stop: self.host.stop(),
            answered: self.host.answered(),
            errors: self.host.errors(),
            source_failed: self.host.source_failed(),
            console_failed: self.host.console_failed(),
            steps_failed: self.recorder.failed(),
        }
    }
}
