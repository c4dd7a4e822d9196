//! The pulse that hands out subticks.

ghost use Rattle.std.specs.Prelude.{◌≡◌, ℕ, ◌+◌, ◌≤◌, ◌<◌, ◌∷◌, false};
ghost use Rattle.step_line.specs.Counting.{events_of};
ghost use Rattle.step_line.specs.Events.{IsEvent};
ghost use Rattle.step_line.specs.Pieces.{records_of};
ghost use Rattle.step_line.specs.declared.Record.TheVariants.{Event};
ghost use Rattle.pulse_engine.specs.Logs.{RecordLog};
ghost use Rattle.pulse_engine.specs.Steps.{IsFirst, KeepsPulse, MayBegin, coming, gone, reached_after};
ghost use Rattle.smooth_step.specs.Counts.{IsHeldAt, is_event};
ghost use Rattle.smooth_step.specs.Pulses.{begun, level_behind};

use crate::pins::hand_out;
use crate::{Pins, Smooth, level};
use outside::{On, Turn};
use pulse_engine::{PulsePort, TickOut};
use std::marker::Model;
use step_line::{Bits, Head, Piece, Record, Segment, Tracer};
use units::{Move, Steps3};

/// Traces pieces into records, and hands out the subticks of each event before its record is put.
///
/// It keeps the move that it traces from one segment to the next.
#[derive(Drop)]
pub struct SmoothPulse {
    /// The record that is put next: the first of a piece, or an event for which there was no room.
    hand: Option<Record>,
    /// How many events of the segment in hand come after it.
    left: u32,
    tracer: Tracer,
    /// The same move, subtick by subtick.
    smooth: Smooth,
    /// The level of the segment in hand.
    level: u8,
    /// The tick that was put last is to be counted.
    owes: bool,
    /// The end was put.
    over: bool,
}

impl Model for SmoothPulse {
    ghost use Rattle.std.specs.Prelude.{◌≡◌, ◌≤◌};
    ghost use Rattle.pulse_engine.specs.Steps.{KeepsPulse};
    ghost use Rattle.smooth_step.specs.Pulses.{SmoothPulsing};

    ghost Value = { SmoothPulsing };

    ghost view = { λ p. record { hand = p.hand; traced = p.tracer; left = p.left; owes = p.owes; over = p.over; level = p.level } };

    ghost invariant = { λ p. KeepsPulse p.hand p.tracer p.left p.owes p.over × (p.smooth ≡ p.tracer) × (p.level ≤ 3) };
}

/// The next of the events that are left.
#[inline]
fn next_event(tracer: &mut Tracer, left: &mut u32) -> Bits
    requires some { 0 < left.old }
    requires within { tracer.old.done + left.old ≤ events_of tracer.old.mv }
    ensures event { IsEvent result }
    ensures waiting { Event result ∷ coming tracer.new left.new ≡ coming tracer.old left.old }
    ensures reached { gone tracer.new left.new ≡ gone tracer.old left.old }
    ensures one_more { tracer.new ≡ record { mv = tracer.old.mv; done = tracer.old.done + 1 } }
    ensures within { tracer.new.done + left.new ≤ events_of tracer.new.mv }
{
    *left -= 1;
    tracer.step()
}

/// Traces from the beginning of a segment, which begins its move or goes on where the tracer is.
fn trace(tracer: &mut Tracer, segment: &Segment)
    requires { MayBegin tracer.old (Piece.Segment segment.now) }
    ensures { tracer.new ≡ record { mv = segment.now.mv; done = segment.now.first } }
{
    if segment.first == 0 {
        *tracer = Tracer::new(segment.mv);
    }
}

/// The first record of a piece, if the tracer is at the end of the piece before it.
fn begin(piece: &Piece, tracer: &mut Tracer, left: &mut u32) -> Record
    requires may { MayBegin tracer.old piece.now }
    requires none { left.old ≡ 0 }
    requires within { tracer.old.done ≤ events_of tracer.old.mv }
    ensures waiting { result ∷ coming tracer.new left.new ≡ records_of piece.now }
    ensures reached { gone tracer.new left.new ≡ reached_after tracer.old piece.now }
    ensures first { IsFirst result left.new }
    ensures kind { is_event result ≡ false }
    ensures begun { tracer.new ≡ begun tracer.old piece.now }
    ensures held { (level : ℕ) (k : RecordLog) → IsHeldAt result (level_behind level piece.now) k }
    ensures within { tracer.new.done + left.new ≤ events_of tracer.new.mv }
{
    match piece {
        Piece::Segment(segment) => {
            trace(tracer, segment);
            *left = segment.n;
            Record::Head(Head {
                line: segment.line,
                n: segment.n,
                w: segment.w_in,
                cycles: segment.cycles,
            })
        }
        Piece::Mark(mark) => Record::Mark(*mark),
        Piece::End => Record::End,
    }
}

/// Takes the subticks, and their level, to the beginning of a piece.
fn follow(piece: &Piece, smooth: &mut Smooth, at: &mut u8)
    requires may { MayBegin smooth.old piece.now }
    requires level { at.old ≤ 3 }
    ensures begun { smooth.new ≡ begun smooth.old piece.now }
    ensures level { at.new ≡ level_behind at.old piece.now }
    ensures few { at.new ≤ 3 }
{
    let Piece::Segment(segment) = piece else {
        return;
    };
    if segment.first == 0 {
        *smooth = Smooth::new(segment.mv);
    }
    *at = level(segment.cycles);
}

impl SmoothPulse {
    ghost use Rattle.std.specs.Prelude.{◌≡◌, ◌↔◌, true, false, List, [], ◌∷◌};
    ghost use Rattle.pulse_engine.specs.Logs.{PieceLog, RecordLog, SawStop};
    ghost use Rattle.pulse_engine.specs.Logs.PieceEvent.{halted};
    ghost use Rattle.pulse_engine.specs.Steps.{AwaitsPiece};
    ghost use Rattle.pulse_engine.specs.Turns.{PulseTurned, PulseWorked};
    ghost use Rattle.step_line.specs.declared.Bits.{Bits};
    ghost use Rattle.step_line.specs.Logs.{NewestFirst};
    ghost use Rattle.smooth_step.specs.Pinned.{pinned};
    ghost use Rattle.smooth_step.specs.Pulses.{SmoothFits, AreCounted, pulse_of, handed};
    ghost use Rattle.step_line.specs.declared.Piece.{Piece};
    ghost use Rattle.outside.specs.declared.On.{On};

    /// A pulse that has done nothing.
    pub fn new() -> SmoothPulse
        ensures { SmoothFits result [] [] }
    {
        let start = Steps3 { x: 0, y: 0, z: 0 };
        let still = Move {
            from: start,
            to: start,
        };
        SmoothPulse {
            hand: None,
            left: 0,
            tracer: Tracer::new(still),
            smooth: Smooth::new(still),
            level: 0,
            owes: false,
            over: false,
        }
    }

    /// Whether the next turn gets a piece, or finds none, or halts: no record is left to be put, no count is owed, and the end was
    /// not put.
    pub fn awaits_piece(&self) -> bool
        ensures { (result ≡ true) ↔ AwaitsPiece (pulse_of self.now) }
    {
        self.hand.is_none() && self.left == 0 && !self.owes && !self.over
    }

    /// A turn between two pieces, when no record is left and no count is owed: it gets a piece, if one is there. It is
    /// a function of its own so that an event doesn't pay for the memory of a piece.
    #[inline(never)]
    fn turn_between<P: PulsePort>(&mut self, pieces: &mut P) -> Turn
        requires stands { (rest : P.Rest) × (h : PieceLog) × (k : RecordLog) × P.stands pieces.old rest h × SmoothFits self.old h k }
        requires between { ((pulse_of self.old).waiting ≡ []) × (self.old.owes ≡ false) × (self.old.over ≡ false) }
        ensures logs { (rest : P.Rest) (h : PieceLog) (k : RecordLog) → P.stands pieces.old rest h → SmoothFits self.old h k
            → (h' : PieceLog) × P.stands pieces.new rest h' × SmoothFits self.new h' k × PulseWorked result h k h' k }
        ensures waits { (on : On) → result ≡ Turn.Wait on → pulse_of self.new ≡ pulse_of self.old }
        ensures going { result ≡ Turn.Done → ⊥ }
        ensures quiet { handed self.old self.new ≡ [] }
    {
        let Some(piece) = pieces.piece() else {
            return Turn::Wait(On::Piece);
        };
        follow(&piece, &mut self.smooth, &mut self.level);
        self.hand = Some(begin(&piece, &mut self.tracer, &mut self.left));
        Turn::Did
    }

    /// Does one step of work: gets a piece, puts a record or counts a tick, and then answers Did. If there is no piece,
    /// or no room for the record, it waits for that and is as before; the next turn tries again. First it asks for a stop:
    /// where one waits, it counts a tick that was put, or halts, and answers Did. From the turn after the one that put the
    /// end it answers Done, and nothing changes. Each turn that answers Did moves: it does one of the four. An event's
    /// subticks are handed out once, when it is made, before its record is put; a record that is handed back is put again
    /// without them.
    #[inline]
    pub fn turn<P: PulsePort, T: TickOut, O: Pins>(
        &mut self,
        pieces: &mut P,
        records: &mut T,
        pins: &mut O,
    ) -> Turn
        requires { (rest : P.Rest) × (back : T.Rest) × (h : PieceLog) × (k : RecordLog) × P.stands pieces.old rest h × T.stands records.old back k × SmoothFits self.old h k }
        ensures logs { (rest : P.Rest) (back : T.Rest) (h : PieceLog) (k : RecordLog) → P.stands pieces.old rest h → T.stands records.old back k → SmoothFits self.old h k
            → (h' : PieceLog) × (k' : RecordLog) × P.stands pieces.new rest h' × T.stands records.new back k' × SmoothFits self.new h' k' × PulseTurned result h k h' k' × AreCounted self.old self.new k k' }
        ensures waits { (on : On) → result ≡ Turn.Wait on → pulse_of self.new ≡ pulse_of self.old }
        ensures between { result ≡ Turn.Wait On.Piece → (pulse_of self.old).waiting ≡ [] }
        ensures pins { (made : NewestFirst Bits) → O.stands pins.old made → O.stands pins.new (pinned (handed self.old self.new) made) }
        ensures done { (result ≡ Turn.Done) ↔ (self.old.over ≡ true) }
        ensures still { self.old.over ≡ true → (self.new ≡ self.old) × (pieces.new ≡ pieces.old) × (records.new ≡ records.old) × (pins.new ≡ pins.old) }
    {
        if self.over {
            return Turn::Done;
        }
        let stopped = pieces.stopped();
        if self.owes {
            pieces.tick_done();
            self.owes = false;
            return Turn::Did;
        }
        if stopped {
            return self.halt(pieces);
        }
        self.work(pieces, records, pins)
    }

    /// Halts, and forgets the records that are left of the piece in hand.
    #[inline(never)]
    fn halt<P: PulsePort>(&mut self, pieces: &mut P) -> Turn
        requires stands { (rest : P.Rest) × (h : PieceLog) × (k : RecordLog) × P.stands pieces.old rest h × SmoothFits self.old h k × SawStop h }
        requires between { (self.old.owes ≡ false) × (self.old.over ≡ false) }
        ensures did { result ≡ Turn.Did }
        ensures quiet { handed self.old self.new ≡ [] }
        ensures logs { (rest : P.Rest) (h : PieceLog) (k : RecordLog) → P.stands pieces.old rest h → SmoothFits self.old h k → SawStop h
            → (dropped : List Piece) × P.stands pieces.new rest (halted dropped ∷ h) × SmoothFits self.new (halted dropped ∷ h) k }
    {
        pieces.halt();
        self.hand = None;
        self.left = 0;
        Turn::Did
    }

    /// A turn that owes no count and was shown no stop: it puts a record or gets a piece. It is a function of its own so that
    /// a count doesn't pay for the memory of a record.
    #[inline(always)]
    fn work<P: PulsePort, T: TickOut, O: Pins>(
        &mut self,
        pieces: &mut P,
        records: &mut T,
        pins: &mut O,
    ) -> Turn
        requires stands { (rest : P.Rest) × (back : T.Rest) × (h : PieceLog) × (k : RecordLog) × P.stands pieces.old rest h × T.stands records.old back k × SmoothFits self.old h k }
        requires counted { (self.old.owes ≡ false) × (self.old.over ≡ false) }
        ensures logs { (rest : P.Rest) (back : T.Rest) (h : PieceLog) (k : RecordLog) → P.stands pieces.old rest h → T.stands records.old back k → SmoothFits self.old h k
            → (h' : PieceLog) × (k' : RecordLog) × P.stands pieces.new rest h' × T.stands records.new back k' × SmoothFits self.new h' k' × PulseWorked result h k h' k' × AreCounted self.old self.new k k' }
        ensures waits { (on : On) → result ≡ Turn.Wait on → pulse_of self.new ≡ pulse_of self.old }
        ensures between { result ≡ Turn.Wait On.Piece → (pulse_of self.old).waiting ≡ [] }
        ensures going { result ≡ Turn.Done → ⊥ }
        ensures pins { (made : NewestFirst Bits) → O.stands pins.old made → O.stands pins.new (pinned (handed self.old self.new) made) }
    {
        if let Some(record) = self.hand {
            let Ok(()) = records.put(record) else {
                return Turn::Wait(On::RecordRoom);
            };
            self.hand = None;
            self.owes = record.is_tick();
            self.over = record.is_end();
            return Turn::Did;
        }
        if self.left == 0 {
            return self.turn_between(pieces);
        }
        hand_out(&mut self.smooth, self.level, pins);
        let event = next_event(&mut self.tracer, &mut self.left);
        match records.put(Record::Event(event)) {
            Err(record) => {
                self.hand = Some(record);
                Turn::Wait(On::RecordRoom)
            }
            Ok(()) => {
                self.owes = true;
                Turn::Did
            }
        }
    }
}
