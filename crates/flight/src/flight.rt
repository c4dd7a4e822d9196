//! The pieces that were published and are not known to be finished.

ghost use Rattle.std.specs.Prelude.{◌≡◌, ◌≤◌, take};
ghost use Rattle.units.specs.Lengths.{IsPlace, IsMove};
ghost use Rattle.units.specs.Counting.{events_of};
ghost use Rattle.step_line.specs.Pieces.{ticks_of};
ghost use Rattle.step_line.specs.Places.{place_after};
ghost use Rattle.step_line.specs.Finishing.{tick_count};
ghost use Rattle.flight.specs.Places.{moved_by};
ghost use Rattle.flight.specs.Flights.{IsFit, BeginsAt};

use std::marker::Model;
use step_line::{Piece, position_after, tick_count};
use units::{Move, Steps3};

/// Where the machine is once so many ticks of a piece are done, from the place where it begins: after so many events of a
/// move.
fn place_within(piece: &Piece, mv: &Move, events: u32, done: u32) -> Steps3
    requires fits { IsFit piece.now }
    requires few { done ≤ tick_count piece.now }
    requires mv { IsMove mv.now }
    requires events { events ≤ events_of mv.now }
    ensures place { BeginsAt (place_after mv.now events) piece.now → result ≡ moved_by (place_after mv.now events) (take done (ticks_of piece.now)) }
    ensures within { IsPlace result }
{
    match piece {
        Piece::Segment(segment) => position_after(&segment.mv, segment.first + done),
        Piece::Mark(_) | Piece::End => position_after(mv, events),
    }
}

/// How many pieces there is room for.
const ROOM: usize = 6;

/// How many slots there are, so that the place behind the last is found without a division.
const SLOTS: usize = 8;

/// The pieces that were published, in order, and how many of their ticks are known to be done. There is room for one
/// piece more than may be unfinished at once; those that are known to be finished are dropped. The pieces that are kept
/// stand in slots from the head on, round the end. Before them the machine is after so many events of a move, the last
/// that was finished, so that its place is worked out only when it is asked for.
#[derive(Drop)]
pub struct Flight {
    slots: [Piece; SLOTS],
    head: usize,
    count: usize,
    mv: Move,
    events: u32,
    before: u64,
    known: u64,
}

impl Model for Flight {
    ghost use Rattle.step_line.specs.Places.{place_after};
    ghost use Rattle.flight.specs.Flights.{Flying, IsFlight, window};

    ghost Value = { Flying };

    ghost view = { λ f. record { kept = window f.head f.count f.slots; from = place_after f.mv f.events; before = f.before; known = f.known } };

    ghost invariant = { λ f. IsFlight f.slots f.head f.count f.mv f.events f.before f.known };
}

impl Flight {
    ghost use Rattle.std.specs.Prelude.{◌≡◌, ◌==◌, ◌≤◌, ◌<◌, ◌+◌, ◌-◌, ◌^◌, ◌↔◌, ◌⊎◌, max, min, ℕ, true, false, List, [], ◌∷◌, ◌++◌, length, drop, IsNone, IfSome};
    ghost use Rattle.units.specs.Lengths.{IsPlace};
    ghost use Rattle.units.specs.declared.Steps3.{Steps3 as AnyPlace};
    ghost use Rattle.step_line.specs.declared.Piece.{Piece as AnyPiece};
    ghost use Rattle.step_line.specs.Finishing.{tick_count, ticks_together, unfinished};
    ghost use Rattle.step_line.specs.Pieces.{ticks_of};
    ghost use Rattle.flight.specs.Places.{moved_by, machine_from, end_from, origin};
    ghost use Rattle.flight.specs.Flights.{IsFit, MayBeKept, BeginsAt, EndsWithin, Flies, first_ticks, flight_room};

    /// No piece was published; the machine is at this place.
    pub fn starting_at(place: Steps3) -> Flight
        requires { IsPlace place }
        ensures { Flies place result [] 0 }
    {
        Flight {
            slots: [Piece::End; SLOTS],
            head: 0,
            count: 0,
            mv: Move {
                from: place,
                to: place,
            },
            events: 0,
            before: 0,
            known: 0,
        }
    }

    /// No piece was published; the machine is at the origin.
    pub fn new() -> Flight
        ensures { Flies origin result [] 0 }
    {
        Flight::starting_at(Steps3 { x: 0, y: 0, z: 0 })
    }

    /// Whether there is no room for a piece: as many are kept as may be unfinished at once, and one more.
    pub fn is_full(&self) -> bool
        ensures full { result ≡ (length self.now.kept == flight_room) }
        ensures few { length self.now.kept ≤ flight_room }
        ensures unfinished { (start : AnyPlace) (published : List AnyPiece) (known : ℕ) → Flies start self.now published known → length self.now.kept ≡ unfinished published known }
    {
        self.count == ROOM
    }

    /// Whether all ticks that were published are known to be done.
    pub fn is_done(&self) -> bool
        ensures { (start : AnyPlace) (published : List AnyPiece) (known : ℕ) → Flies start self.now published known → (result ≡ true) ↔ (known ≡ ticks_together published) }
    {
        self.first().is_none()
    }

    /// A piece is published after the others; called for each one. There must be room, and a segment must begin where
    /// their ticks lead.
    pub fn push(&mut self, piece: Piece)
        requires room { length self.old.kept < flight_room }
        requires fits { IsFit piece }
        ensures { (start : AnyPlace) (published : List AnyPiece) (known : ℕ) → Flies start self.old published known → BeginsAt (end_from start published) piece → Flies start self.new (published ++ piece ∷ []) known }
    {
        if tick_count(&piece) > 0 {
            self.slots[(self.head + self.count) % SLOTS] = piece;
            self.count += 1;
        }
    }

    /// The first of the pieces that are kept.
    fn first(&self) -> Option<&Piece>
        ensures none { IsNone result ↔ (self.now.kept ≡ []) }
        ensures some { IfSome result (λ p. (self.now.kept ≡ p.now ∷ drop 1 self.now.kept) × MayBeKept p.now) }
        ensures within { EndsWithin self.now.kept (self.now.known - self.now.before) }
        ensures low { self.now.before ≤ self.now.known }
    {
        if self.count == 0 {
            return None;
        }
        Some(&self.slots[self.head])
    }

    /// Whether the first piece is finished once so many ticks are done.
    fn is_first_over(&self, done: u64) -> bool
        ensures over { result ≡ true → (0 < length self.now.kept) × (self.now.before + first_ticks self.now.kept ≤ done) }
        ensures left { result ≡ false → (self.now.kept ≡ []) ⊎ EndsWithin self.now.kept (done - self.now.before) }
    {
        match self.first() {
            Some(first) => tick_count(first) as u64 <= done.saturating_sub(self.before),
            None => false,
        }
    }

    /// The machine is moved by all ticks of a piece.
    fn lead(&mut self, piece: &Piece)
        requires fits { IsFit piece.now }
        ensures from { BeginsAt self.old.from piece.now → self.new.from ≡ moved_by self.old.from (ticks_of piece.now) }
        ensures kept { self.new.kept ≡ self.old.kept }
        ensures before { self.new.before ≡ self.old.before }
        ensures known { self.new.known ≡ self.old.known }
    {
        if let Piece::Segment(segment) = piece {
            self.mv = segment.mv;
            self.events = segment.first + segment.n;
        }
    }

    /// The first piece is finished: it is dropped.
    fn drop_first(&mut self)
        requires some { 0 < length self.old.kept }
        requires few { self.old.before + first_ticks self.old.kept < 2 ^ 64 }
        ensures flies { (start : AnyPlace) (published : List AnyPiece) → Flies start self.old published self.old.known → Flies start self.new published self.new.known }
        ensures rest { self.new.kept ≡ drop 1 self.old.kept }
        ensures before { self.new.before ≡ self.old.before + first_ticks self.old.kept }
        ensures known { self.new.known ≡ self.new.before }
        ensures later { self.old.known ≤ self.new.known }
    {
        let Some(&first) = self.first() else {
            return;
        };
        self.lead(&first);
        self.before += tick_count(&first) as u64;
        self.known = self.before;
        self.head = (self.head + 1) % SLOTS;
        self.count -= 1;
    }

    /// So many ticks were found done, the last tick of the first piece not among them.
    fn learn_within(&mut self, done: u64)
        requires left { (self.old.kept ≡ []) ⊎ EndsWithin self.old.kept (done - self.old.before) }
        ensures flies { (start : AnyPlace) (published : List AnyPiece) → Flies start self.old published self.old.known → Flies start self.new published (max self.old.known (min done (ticks_together published))) }
        ensures kept { self.new.kept ≡ self.old.kept }
    {
        if self.count == 0 {
            return;
        }
        self.known = self.known.max(done);
    }

    /// So many ticks were found done, by a load of the done ticks. No fewer than before are known to be done
    /// afterwards, and no more than were published; the pieces that are finished then are dropped.
    pub fn learn(&mut self, done: u64)
        ensures flies { (start : AnyPlace) (published : List AnyPiece) (known : ℕ) → Flies start self.old published known → Flies start self.new published (max known (min done (ticks_together published))) }
        ensures room { (start : AnyPlace) (published : List AnyPiece) (known : ℕ) → Flies start self.old published known → unfinished published done < flight_room → length self.new.kept < flight_room }
    {
        while self.is_first_over(done) {
            self.drop_first();
        }
        self.learn_within(done);
    }

    /// How many ticks are known to be done.
    pub fn known(&self) -> u64
        ensures { result ≡ self.now.known }
    {
        self.known
    }

    /// Where the machine is: after the ticks that are known to be done.
    pub fn place(&self) -> Steps3
        ensures place { (start : AnyPlace) (published : List AnyPiece) (known : ℕ) → Flies start self.now published known → result ≡ machine_from start published known }
        ensures within { IsPlace result }
    {
        match self.first() {
            Some(first) => place_within(
                first,
                &self.mv,
                self.events,
                (self.known - self.before) as u32,
            ),
            None => position_after(&self.mv, self.events),
        }
    }
}
