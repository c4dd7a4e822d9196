//! The two ports of a pulse.

ghost use Rattle.std.specs.Prelude.{◌≡◌, List, ◌∷◌, true, false, IfSome, IfNone, OnOk, OnErr, IfErr};
ghost use Rattle.step_line.specs.declared.Piece.{Piece};
ghost use Rattle.step_line.specs.Records.{IsRecord};
ghost use Rattle.step_line.specs.Ordering.{ComesNext};
ghost use Rattle.pulse_engine.specs.Logs.{PieceLog, RecordLog, IsCounted, HasTick, SawStop, got_since};
ghost use Rattle.pulse_engine.specs.Logs.PieceEvent.{asked, got, none, ticked, halted};
ghost use Rattle.pulse_engine.specs.Logs.RecordEvent.{put, full};

use step_line::{Piece, Record};

/// Where pieces come from, and where their ticks are counted.
pub trait PulsePort {
    /// What this side does not change.
    ghost Rest: { Type 0 };

    /// This side of the port has done what the log says.
    ghost stands: { Self → Rest → PieceLog → Type 0 };

    /// Whether a stop waits for its halt.
    fn stopped(&mut self) -> bool
        ensures waits { result ≡ true → (rest : Rest) (h : PieceLog) → stands self.old rest h → stands self.new rest (asked true ∷ h) }
        ensures none { result ≡ false → (rest : Rest) (h : PieceLog) → stands self.old rest h → stands self.new rest (asked false ∷ h) };

    /// Halts where the stop is that was seen: the piece that was got last is cut, and those behind it are dropped.
    fn halt(&mut self)
        requires { (rest : Rest) × (h : PieceLog) × stands self.old rest h × SawStop h }
        ensures { (rest : Rest) (h : PieceLog) → stands self.old rest h → SawStop h → (dropped : List Piece) × stands self.new rest (halted dropped ∷ h) };

    /// The next piece, if one is there. It may come after those got since the last halt; after the end none comes. Each
    /// tick of the pieces got before has to be counted, but for those that a halt cut.
    fn piece(&mut self) -> Option<Piece>
        requires { (rest : Rest) × (h : PieceLog) × stands self.old rest h × IsCounted h }
        ensures some { IfSome result (λ p. (rest : Rest) (h : PieceLog) → stands self.old rest h → IsCounted h → stands self.new rest (got p ∷ h)) }
        ensures next { IfSome result (λ p. (rest : Rest) (h : PieceLog) → stands self.old rest h → IsCounted h → ComesNext (got_since h) p) }
        ensures none { IfNone result ((rest : Rest) (h : PieceLog) → stands self.old rest h → IsCounted h → stands self.new rest (none ∷ h)) };

    /// Counts a tick of the piece that was got last. One has to be left.
    fn tick_done(&mut self)
        requires { (rest : Rest) × (h : PieceLog) × stands self.old rest h × HasTick h }
        ensures { (rest : Rest) (h : PieceLog) → stands self.old rest h → HasTick h → stands self.new rest (ticked ∷ h) };
}

/// How many records may be untaken, where a pulse and a recorder run side by side.
pub const RECORD_ROOM: usize = 1024;

/// Where records go.
pub trait TickOut {
    /// What this side does not change.
    ghost Rest: { Type 0 };

    /// This side of the port has done what the log says.
    ghost stands: { Self → Rest → RecordLog → Type 0 };

    /// Puts a record that has a line, or hands it back if there is no room, and then nothing is put.
    fn put(&mut self, r: Record) -> Result<(), Record>
        requires { IsRecord r }
        ensures ok { OnOk result ((rest : Rest) (k : RecordLog) → stands self.old rest k → stands self.new rest (put r ∷ k)) }
        ensures full { OnErr result ((rest : Rest) (k : RecordLog) → stands self.old rest k → stands self.new rest (full r ∷ k)) }
        ensures back { IfErr result (λ handed. handed ≡ r) };
}
