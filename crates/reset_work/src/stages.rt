//! What a turn of a reset's work does at each stage.

ghost use Rattle.std.specs.Prelude.{◌≡◌, ◌≢◌, ℕ, ◌<◌, ◌∷◌, []};
ghost use Rattle.outside.specs.declared.On.TheVariants as on;
ghost use Rattle.outside.specs.declared.Turn.TheVariants.{Done};
ghost use Rattle.run_rules.specs.declared.State.{State};
ghost use Rattle.status_report.specs.Answering.{lfs_in};
ghost use Rattle.step_line.specs.Logs.{NewestFirst};
ghost use Rattle.board_journal.specs.Steps.{Journal};
ghost use Rattle.board_epochs.specs.Epochs.{Closed};
ghost use Rattle.board_epochs.specs.Work.{Work};
ghost use Rattle.reset_work.specs.Working.{IsBetween, WorksOn, IsAnswered};

use crate::reset::{ResetWork, Stage, Words};
use board_journal::BoardPort;
use outside::{On, Turn};
use serial_ring::ByteIn;
use step_line::{Mark, Piece};

/// How many lines a byte ends.
fn ends(byte: u8) -> u32
    ensures { result ≡ lfs_in (byte ∷ []) }
{
    u32::from(byte == b'\n')
}

impl ResetWork {
    /// Drops the word of changes of overrides, behind a wait.
    pub(crate) fn drop_changes_again<P: BoardPort>(&mut self, port: &mut P) -> Turn
        requires stands { (rest : P.Rest) × (blocks : ℕ) × (state : State) × (es : NewestFirst Closed) × (h : Journal) × (w : Work) × IsBetween (P.stands port.old rest) self.old blocks state es h w }
        requires words { self.old.words ≡ Words.Both }
        ensures goes_on { (rest : P.Rest) (blocks : ℕ) (state : State) (es : NewestFirst Closed) (h : Journal) (w : Work) → IsBetween (P.stands port.old rest) self.old blocks state es h w
            → WorksOn (P.stands port.new rest) result self.old self.new blocks state es h w }
        ensures answers { result ≡ Turn.Did }
    {
        port.take_override();
        self.words = Words::Requests;
        Turn::Did
    }

    /// Drops the word of requests, behind a wait.
    pub(crate) fn drop_requests<P: BoardPort>(&mut self, port: &mut P) -> Turn
        requires stands { (rest : P.Rest) × (blocks : ℕ) × (state : State) × (es : NewestFirst Closed) × (h : Journal) × (w : Work) × IsBetween (P.stands port.old rest) self.old blocks state es h w }
        requires words { self.old.words ≡ Words.Requests }
        ensures goes_on { (rest : P.Rest) (blocks : ℕ) (state : State) (es : NewestFirst Closed) (h : Journal) (w : Work) → IsBetween (P.stands port.old rest) self.old blocks state es h w
            → WorksOn (P.stands port.new rest) result self.old self.new blocks state es h w }
        ensures answers { result ≡ Turn.Did }
    {
        port.take_exec();
        self.words = Words::None;
        Turn::Did
    }

    /// Drops the word of changes of overrides, with which the work begins.
    pub(crate) fn drop_changes<P: BoardPort>(&mut self, port: &mut P) -> Turn
        requires stands { (rest : P.Rest) × (blocks : ℕ) × (state : State) × (es : NewestFirst Closed) × (h : Journal) × (w : Work) × IsBetween (P.stands port.old rest) self.old blocks state es h w }
        requires stage { self.old.stage ≡ Stage.DropsChanges }
        requires words { self.old.words ≡ Words.None }
        ensures goes_on { (rest : P.Rest) (blocks : ℕ) (state : State) (es : NewestFirst Closed) (h : Journal) (w : Work) → IsBetween (P.stands port.old rest) self.old blocks state es h w
            → WorksOn (P.stands port.new rest) result self.old self.new blocks state es h w }
        ensures answers { result ≡ Turn.Did }
    {
        port.take_override();
        self.stage = Stage::AwaitsMark;
        Turn::Did
    }

    /// Waits until the host's mark is new: its number is above that of the mark that was worked last.
    pub(crate) fn await_mark<P: BoardPort>(&mut self, port: &mut P) -> Turn
        requires stands { (rest : P.Rest) × (blocks : ℕ) × (state : State) × (es : NewestFirst Closed) × (h : Journal) × (w : Work) × IsBetween (P.stands port.old rest) self.old blocks state es h w }
        requires stage { self.old.stage ≡ Stage.AwaitsMark }
        requires words { self.old.words ≡ Words.None }
        ensures goes_on { (rest : P.Rest) (blocks : ℕ) (state : State) (es : NewestFirst Closed) (h : Journal) (w : Work) → IsBetween (P.stands port.old rest) self.old blocks state es h w
            → WorksOn (P.stands port.new rest) result self.old self.new blocks state es h w }
        ensures answers { IsAnswered On.Reset result }
    {
        let (mark, bytes) = port.marked();
        if mark <= self.mark {
            return self.wait(On::Reset);
        }
        self.mark = mark;
        self.stage = Stage::Stops(bytes.saturating_sub(self.taken));
        Turn::Did
    }

    /// Tells the pulse to stop.
    pub(crate) fn stop_pulse<P: BoardPort>(&mut self, port: &mut P, left: u32) -> Turn
        requires stands { (rest : P.Rest) × (blocks : ℕ) × (state : State) × (es : NewestFirst Closed) × (h : Journal) × (w : Work) × IsBetween (P.stands port.old rest) self.old blocks state es h w }
        requires stage { self.old.stage ≡ Stage.Stops left }
        requires words { self.old.words ≡ Words.None }
        ensures goes_on { (rest : P.Rest) (blocks : ℕ) (state : State) (es : NewestFirst Closed) (h : Journal) (w : Work) → IsBetween (P.stands port.old rest) self.old blocks state es h w
            → WorksOn (P.stands port.new rest) result self.old self.new blocks state es h w }
        ensures answers { result ≡ Turn.Did }
    {
        port.stop();
        self.stage = Stage::AwaitsHalt(left);
        Turn::Did
    }

    /// Waits until the pulse has halted.
    pub(crate) fn await_halt<P: BoardPort>(&mut self, port: &mut P, left: u32) -> Turn
        requires stands { (rest : P.Rest) × (blocks : ℕ) × (state : State) × (es : NewestFirst Closed) × (h : Journal) × (w : Work) × IsBetween (P.stands port.old rest) self.old blocks state es h w }
        requires stage { self.old.stage ≡ Stage.AwaitsHalt left }
        requires words { self.old.words ≡ Words.None }
        ensures goes_on { (rest : P.Rest) (blocks : ℕ) (state : State) (es : NewestFirst Closed) (h : Journal) (w : Work) → IsBetween (P.stands port.old rest) self.old blocks state es h w
            → WorksOn (P.stands port.new rest) result self.old self.new blocks state es h w }
        ensures answers { IsAnswered On.Halt result }
    {
        match port.halted() {
            None => self.wait(On::Halt),
            Some(done) => {
                self.halted = done;
                self.stage = Stage::Drops(left);
                Turn::Did
            }
        }
    }

    /// Takes and drops a byte before the mark.
    pub(crate) fn drop_byte<P: BoardPort>(&mut self, port: &mut P, left: u32) -> Turn
        requires stands { (rest : P.Rest) × (blocks : ℕ) × (state : State) × (es : NewestFirst Closed) × (h : Journal) × (w : Work) × IsBetween (P.stands port.old rest) self.old blocks state es h w }
        requires stage { self.old.stage ≡ Stage.Drops left }
        requires some { 0 < left }
        requires words { self.old.words ≡ Words.None }
        ensures goes_on { (rest : P.Rest) (blocks : ℕ) (state : State) (es : NewestFirst Closed) (h : Journal) (w : Work) → IsBetween (P.stands port.old rest) self.old blocks state es h w
            → WorksOn (P.stands port.new rest) result self.old self.new blocks state es h w }
        ensures answers { result ≡ Turn.Did }
    {
        match port.byte() {
            ByteIn::Byte(byte) => {
                self.taken += 1;
                self.dropped += ends(byte);
                self.stage = Stage::Drops(left - 1);
                Turn::Did
            }
            _ => Turn::Wait(On::Byte),
        }
    }

    /// Publishes the mark of the reset, for which there is room.
    pub(crate) fn publish_mark<P: BoardPort>(&mut self, port: &mut P) -> Turn
        requires stands { (rest : P.Rest) × (blocks : ℕ) × (state : State) × (es : NewestFirst Closed) × (h : Journal) × (w : Work) × IsBetween (P.stands port.old rest) self.old blocks state es h w }
        requires stage { self.old.stage ≡ Stage.Drops 0 }
        requires words { self.old.words ≡ Words.None }
        ensures goes_on { (rest : P.Rest) (blocks : ℕ) (state : State) (es : NewestFirst Closed) (h : Journal) (w : Work) → IsBetween (P.stands port.old rest) self.old blocks state es h w
            → WorksOn (P.stands port.new rest) result self.old self.new blocks state es h w }
        ensures answers { result ≡ Turn.Did }
    {
        match port.publish(Piece::Mark(Mark::Reset(self.number))) {
            Ok(()) => {
                self.stage = Stage::AwaitsDone;
                Turn::Did
            }
            Err(_) => Turn::Wait(On::SegmentRoom),
        }
    }

    /// Waits until the mark of the reset is done.
    pub(crate) fn await_mark_done<P: BoardPort>(&mut self, port: &mut P) -> Turn
        requires stands { (rest : P.Rest) × (blocks : ℕ) × (state : State) × (es : NewestFirst Closed) × (h : Journal) × (w : Work) × IsBetween (P.stands port.old rest) self.old blocks state es h w }
        requires stage { self.old.stage ≡ Stage.AwaitsDone }
        requires words { self.old.words ≡ Words.None }
        ensures goes_on { (rest : P.Rest) (blocks : ℕ) (state : State) (es : NewestFirst Closed) (h : Journal) (w : Work) → IsBetween (P.stands port.old rest) self.old blocks state es h w
            → WorksOn (P.stands port.new rest) result self.old self.new blocks state es h w }
        ensures answers { IsAnswered On.Motion result }
    {
        let done = port.done();
        if done <= self.halted {
            return self.wait(On::Motion);
        }
        self.ticks = done;
        self.stage = Stage::Over;
        Turn::Did
    }
}
