//! The two kinds of pulse as one.

ghost use Rattle.std.specs.Prelude.{◌≡◌, ◌↔◌, true, []};
ghost use Rattle.outside.specs.declared.On.{On};
ghost use Rattle.pulse_engine.specs.Logs.{PieceLog, RecordLog};
ghost use Rattle.pulse_engine.specs.Turns.{PulseTurned};
ghost use Rattle.smooth_step.specs.Counts.{subticks_in};
ghost use Rattle.smooth_step.specs.Pulses.{SmoothFits, pulse_of};
ghost use Rattle.motion_pulse.specs.Pulses.{capped};

use crate::Counted;
use outside::{On, Turn};
use pulse_engine::{Pulse, PulsePort, TickOut};
use smooth_step::SmoothPulse;

/// How a pulse steps the machine.
#[derive(Clone, Copy, Debug, PartialEq, Eq)]
pub enum Stepping {
    /// Event by event.
    Events,
    /// Each event by its subticks, so that slow axes step in between.
    Subticks,
}

/// The pulse of a run.
#[derive(Drop)]
pub enum MotionPulse {
    /// It steps event by event.
    Plain(Pulse),
    /// It hands out the subticks of each event besides, and they are counted.
    Smooth(SmoothPulse, Counted),
}

impl MotionPulse {
    ghost use Rattle.std.specs.Prelude.{◌≡◌, ◌↔◌, true, [], ◌∷◌};
    ghost use Rattle.pulse_engine.specs.Logs.{PieceLog, RecordLog};
    ghost use Rattle.pulse_engine.specs.Steps.{AwaitsPiece};
    ghost use Rattle.pulse_engine.specs.Turns.{PulseTurned};
    ghost use Rattle.motion_pulse.specs.Pulses.{MotionFits, pins_of, seen_of, stepping_of};
    ghost use Rattle.outside.specs.declared.On.{On};

    /// A pulse that has done nothing.
    pub fn new(stepping: Stepping) -> MotionPulse
        ensures fresh { MotionFits result [] [] }
        ensures stepping { stepping_of result ≡ stepping }
    {
        match stepping {
            Stepping::Events => MotionPulse::Plain(Pulse::new()),
            Stepping::Subticks => MotionPulse::Smooth(SmoothPulse::new(), Counted { count: 0 }),
        }
    }

    /// Whether the next turn gets a piece, or finds none, or halts: no record is left to be put, no count is owed, and the end was
    /// not put.
    #[inline]
    pub fn awaits_piece(&self) -> bool
        ensures { (result ≡ true) ↔ AwaitsPiece (seen_of self.now) }
    {
        match self {
            MotionPulse::Plain(pulse) => pulse.awaits_piece(),
            MotionPulse::Smooth(pulse, _) => pulse.awaits_piece(),
        }
    }

    /// How many subticks were handed out: those of the events that were tried, at the levels of their heads, up to the largest
    /// number that 64 bits hold; none by a pulse that steps event by event.
    pub fn pins(&self) -> u64
        ensures { (h : PieceLog) (k : RecordLog) → MotionFits self.now h k → result ≡ pins_of (stepping_of self.now) k }
    {
        match self {
            MotionPulse::Plain(_) => 0,
            MotionPulse::Smooth(_, pins) => pins.count,
        }
    }

    /// Does one step of work, as a pulse of its kind does: gets a piece, puts a record or counts a tick, and then answers Did. If
    /// there is no piece, or no room for the record, it waits for that, and callers see it as before. First it asks for a stop: where
    /// one waits, it counts a tick that was put, or halts, and answers Did. From the turn after the one that put the end it answers
    /// Done, and nothing changes. It stays of its kind.
    #[inline]
    pub fn turn<P: PulsePort, T: TickOut>(&mut self, pieces: &mut P, records: &mut T) -> Turn
        requires { (rest : P.Rest) × (back : T.Rest) × (h : PieceLog) × (k : RecordLog) × P.stands pieces.old rest h × T.stands records.old back k × MotionFits self.old h k }
        ensures logs { (rest : P.Rest) (back : T.Rest) (h : PieceLog) (k : RecordLog) → P.stands pieces.old rest h → T.stands records.old back k → MotionFits self.old h k
            → (h' : PieceLog) × (k' : RecordLog) × P.stands pieces.new rest h' × T.stands records.new back k' × MotionFits self.new h' k' × PulseTurned result h k h' k' }
        ensures waits { (on : On) → result ≡ Turn.Wait on → seen_of self.new ≡ seen_of self.old }
        ensures between { result ≡ Turn.Wait On.Piece → (seen_of self.old).waiting ≡ [] }
        ensures stepping { stepping_of self.new ≡ stepping_of self.old }
        ensures done { (result ≡ Turn.Done) ↔ ((seen_of self.old).over ≡ true) }
        ensures still { (seen_of self.old).over ≡ true → (self.new ≡ self.old) × (pieces.new ≡ pieces.old) × (records.new ≡ records.old) }
    {
        match self {
            MotionPulse::Plain(pulse) => pulse.turn(pieces, records),
            MotionPulse::Smooth(pulse, pins) => smooth_turn(pulse, pins, pieces, records),
        }
    }
}

/// A turn of a pulse that hands out subticks. It is a function of its own so that the other kind doesn't pay for its memory.
#[inline(never)]
fn smooth_turn<P: PulsePort, T: TickOut>(
    pulse: &mut SmoothPulse,
    pins: &mut Counted,
    pieces: &mut P,
    records: &mut T,
) -> Turn
    requires { (rest : P.Rest) × (back : T.Rest) × (h : PieceLog) × (k : RecordLog) × P.stands pieces.old rest h × T.stands records.old back k × SmoothFits pulse.old h k }
    ensures logs { (rest : P.Rest) (back : T.Rest) (h : PieceLog) (k : RecordLog) → P.stands pieces.old rest h → T.stands records.old back k → SmoothFits pulse.old h k
        → pins.old.count ≡ capped (subticks_in k)
        → (h' : PieceLog) × (k' : RecordLog) × P.stands pieces.new rest h' × T.stands records.new back k' × SmoothFits pulse.new h' k' × (pins.new.count ≡ capped (subticks_in k'))
        × PulseTurned result h k h' k' }
    ensures waits { (on : On) → result ≡ Turn.Wait on → pulse_of pulse.new ≡ pulse_of pulse.old }
    ensures between { result ≡ Turn.Wait On.Piece → (pulse_of pulse.old).waiting ≡ [] }
    ensures done { (result ≡ Turn.Done) ↔ (pulse.old.over ≡ true) }
    ensures still { pulse.old.over ≡ true → (pulse.new ≡ pulse.old) × (pins.new ≡ pins.old) × (pieces.new ≡ pieces.old) × (records.new ≡ records.old) }
{
    pulse.turn(pieces, records, pins)
}
