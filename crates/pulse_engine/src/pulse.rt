//! The pulse.

ghost use Rattle.std.specs.Prelude.{◌≡◌, ◌+◌, ◌≤◌, ◌<◌, ◌++◌, ◌∷◌};
ghost use Rattle.step_line.specs.Counting.{events_of};
ghost use Rattle.step_line.specs.Events.{IsEvent};
ghost use Rattle.step_line.specs.Pieces.{records_of};
ghost use Rattle.step_line.specs.declared.Record.TheVariants.{Event};
ghost use Rattle.pulse_engine.specs.Steps.{IsFirst, KeepsPulse, MayBegin, coming, gone, reached_after};

use crate::{PulsePort, TickOut};
use outside::{On, Turn};
use std::marker::Model;
use step_line::{Bits, Head, Piece, Record, Segment, Tracer};
use units::{Move, Steps3};

/// Traces pieces into records.
///
/// It keeps the move that it traces from one segment to the next.
#[derive(Drop)]
pub struct Pulse {
    /// The record that is put next: the first of a piece, or an event for which there was no room.
    hand: Option<Record>,
    /// How many events of the segment in hand come after it.
    left: u32,
    tracer: Tracer,
    /// The tick that was put last is to be counted.
    owes: bool,
    /// The end was put.
    over: bool,
}

impl Model for Pulse {
    ghost use Rattle.pulse_engine.specs.Steps.{Pulsing, pulsing, KeepsPulse};

    ghost Value = { Pulsing };

    ghost view = { λ p. pulsing p.hand p.tracer p.left p.owes p.over };

    ghost invariant = { λ p. KeepsPulse p.hand p.tracer p.left p.owes p.over };
}

/// The next of the events that are left.
#[inline]
fn next_event(tracer: &mut Tracer, left: &mut u32) -> Bits
    requires some { 0 < left.old }
    requires within { tracer.old.done + left.old ≤ events_of tracer.old.mv }
    ensures event { IsEvent result }
    ensures waiting { Event result ∷ coming tracer.new left.new ≡ coming tracer.old left.old }
    ensures reached { gone tracer.new left.new ≡ gone tracer.old left.old }
    ensures within { tracer.new.done + left.new ≤ events_of tracer.new.mv }
{
    *left -= 1;
    tracer.step()
}

/// Traces from the beginning of a segment, which begins its move or goes on where the tracer is.
fn trace(tracer: &mut Tracer, segment: &Segment)
    requires { MayBegin tracer.old (Piece.Segment segment.now) }
    ensures { tracer.new ≡ record { mv = segment.now.mv; done = segment.now.first } }
{
    if segment.first == 0 {
        *tracer = Tracer::new(segment.mv);
    }
}

/// The first record of a piece, if the tracer is at the end of the piece before it.
fn begin(piece: &Piece, tracer: &mut Tracer, left: &mut u32) -> Record
    requires may { MayBegin tracer.old piece.now }
    requires none { left.old ≡ 0 }
    requires within { tracer.old.done ≤ events_of tracer.old.mv }
    ensures waiting { result ∷ coming tracer.new left.new ≡ records_of piece.now }
    ensures reached { gone tracer.new left.new ≡ reached_after tracer.old piece.now }
    ensures first { IsFirst result left.new }
    ensures within { tracer.new.done + left.new ≤ events_of tracer.new.mv }
{
    match piece {
        Piece::Segment(segment) => {
            trace(tracer, segment);
            *left = segment.n;
            Record::Head(Head {
                line: segment.line,
                n: segment.n,
                w: segment.w_in,
                cycles: segment.cycles,
            })
        }
        Piece::Mark(mark) => Record::Mark(*mark),
        Piece::End => Record::End,
    }
}

impl Pulse {
    ghost use Rattle.std.specs.Prelude.{◌≡◌, ◌↔◌, true, false, List, [], ◌∷◌};
    ghost use Rattle.pulse_engine.specs.Logs.{PieceLog, RecordLog, SawStop};
    ghost use Rattle.pulse_engine.specs.Logs.PieceEvent.{halted};
    ghost use Rattle.pulse_engine.specs.Steps.{AwaitsPiece};
    ghost use Rattle.pulse_engine.specs.Turns.{PulseFits, PulseTurned, PulseWorked};
    ghost use Rattle.step_line.specs.declared.Piece.{Piece};
    ghost use Rattle.outside.specs.declared.On.{On};

    /// A pulse that has done nothing.
    pub fn new() -> Pulse
        ensures { PulseFits result [] [] }
    {
        let start = Steps3 { x: 0, y: 0, z: 0 };
        Pulse {
            hand: None,
            left: 0,
            tracer: Tracer::new(Move {
                from: start,
                to: start,
            }),
            owes: false,
            over: false,
        }
    }

    /// Whether the next turn gets a piece, or finds none, or halts: no record is left to be put, no count is owed, and the end was
    /// not put.
    pub fn awaits_piece(&self) -> bool
        ensures { (result ≡ true) ↔ AwaitsPiece self.now }
    {
        self.hand.is_none() && self.left == 0 && !self.owes && !self.over
    }

    /// A turn between two pieces, when no record is left and no count is owed: it gets a piece, if one is there. It is
    /// a function of its own so that an event doesn't pay for the memory of a piece.
    #[inline(never)]
    fn turn_between<P: PulsePort>(&mut self, pieces: &mut P) -> Turn
        requires stands { (rest : P.Rest) × (h : PieceLog) × (k : RecordLog) × P.stands pieces.old rest h × PulseFits self.old h k }
        requires between { (self.old.waiting ≡ []) × (self.old.owes ≡ false) × (self.old.over ≡ false) }
        ensures logs { (rest : P.Rest) (h : PieceLog) (k : RecordLog) → P.stands pieces.old rest h → PulseFits self.old h k
            → (h' : PieceLog) × P.stands pieces.new rest h' × PulseFits self.new h' k × PulseWorked result h k h' k }
        ensures waits { (on : On) → result ≡ Turn.Wait on → self.new ≡ self.old }
        ensures going { result ≡ Turn.Done → ⊥ }
    {
        let Some(piece) = pieces.piece() else {
            return Turn::Wait(On::Piece);
        };
        self.hand = Some(begin(&piece, &mut self.tracer, &mut self.left));
        Turn::Did
    }

    /// Does one step of work: gets a piece, puts a record or counts a tick, and then answers Did. If there is no piece,
    /// or no room for the record, it waits for that and is as before; the next turn tries again. First it asks for a stop:
    /// where one waits, it counts a tick that was put, or halts, and answers Did. From the turn after the one that put the
    /// end it answers Done, and nothing changes. Each turn that answers Did moves: it does one of the four.
    #[inline]
    pub fn turn<P: PulsePort, T: TickOut>(&mut self, pieces: &mut P, records: &mut T) -> Turn
        requires { (rest : P.Rest) × (back : T.Rest) × (h : PieceLog) × (k : RecordLog) × P.stands pieces.old rest h × T.stands records.old back k × PulseFits self.old h k }
        ensures logs { (rest : P.Rest) (back : T.Rest) (h : PieceLog) (k : RecordLog) → P.stands pieces.old rest h → T.stands records.old back k → PulseFits self.old h k
            → (h' : PieceLog) × (k' : RecordLog) × P.stands pieces.new rest h' × T.stands records.new back k' × PulseFits self.new h' k' × PulseTurned result h k h' k' }
        ensures waits { (on : On) → result ≡ Turn.Wait on → self.new ≡ self.old }
        ensures between { result ≡ Turn.Wait On.Piece → self.old.waiting ≡ [] }
        ensures done { (result ≡ Turn.Done) ↔ (self.old.over ≡ true) }
        ensures still { self.old.over ≡ true → (self.new ≡ self.old) × (pieces.new ≡ pieces.old) × (records.new ≡ records.old) }
    {
        if self.over {
            return Turn::Done;
        }
        let stopped = pieces.stopped();
        if self.owes {
            pieces.tick_done();
            self.owes = false;
            return Turn::Did;
        }
        if stopped {
            return self.halt(pieces);
        }
        self.work(pieces, records)
    }

    /// Halts, and forgets the records that are left of the piece in hand.
    #[inline(never)]
    fn halt<P: PulsePort>(&mut self, pieces: &mut P) -> Turn
        requires stands { (rest : P.Rest) × (h : PieceLog) × (k : RecordLog) × P.stands pieces.old rest h × PulseFits self.old h k × SawStop h }
        requires between { (self.old.owes ≡ false) × (self.old.over ≡ false) }
        ensures did { result ≡ Turn.Did }
        ensures logs { (rest : P.Rest) (h : PieceLog) (k : RecordLog) → P.stands pieces.old rest h → PulseFits self.old h k → SawStop h
            → (dropped : List Piece) × P.stands pieces.new rest (halted dropped ∷ h) × PulseFits self.new (halted dropped ∷ h) k }
    {
        pieces.halt();
        self.hand = None;
        self.left = 0;
        Turn::Did
    }

    /// A turn that owes no count and was shown no stop: it puts a record or gets a piece. It is a function of its own so that
    /// a count doesn't pay for the memory of a record.
    #[inline(always)]
    fn work<P: PulsePort, T: TickOut>(&mut self, pieces: &mut P, records: &mut T) -> Turn
        requires stands { (rest : P.Rest) × (back : T.Rest) × (h : PieceLog) × (k : RecordLog) × P.stands pieces.old rest h × T.stands records.old back k × PulseFits self.old h k }
        requires counted { (self.old.owes ≡ false) × (self.old.over ≡ false) }
        ensures logs { (rest : P.Rest) (back : T.Rest) (h : PieceLog) (k : RecordLog) → P.stands pieces.old rest h → T.stands records.old back k → PulseFits self.old h k
            → (h' : PieceLog) × (k' : RecordLog) × P.stands pieces.new rest h' × T.stands records.new back k' × PulseFits self.new h' k' × PulseWorked result h k h' k' }
        ensures waits { (on : On) → result ≡ Turn.Wait on → self.new ≡ self.old }
        ensures between { result ≡ Turn.Wait On.Piece → self.old.waiting ≡ [] }
        ensures going { result ≡ Turn.Done → ⊥ }
    {
        if let Some(record) = self.hand {
            let Ok(()) = records.put(record) else {
                return Turn::Wait(On::RecordRoom);
            };
            self.hand = None;
            self.owes = record.is_tick();
            self.over = record.is_end();
            return Turn::Did;
        }
        if self.left == 0 {
            return self.turn_between(pieces);
        }
        let event = next_event(&mut self.tracer, &mut self.left);
        match records.put(Record::Event(event)) {
            Err(record) => {
                self.hand = Some(record);
                Turn::Wait(On::RecordRoom)
            }
            Ok(()) => {
                self.owes = true;
                Turn::Did
            }
        }
    }
}
