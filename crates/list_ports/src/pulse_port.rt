//! The lists as the port of a pulse.

ghost use Rattle.std.specs.Prelude.{◌≡◌, ℕ, [], ◌∷◌, true, false, IfSome, IfNone};
ghost use Rattle.std.specs.List.{slice_get};
ghost use Rattle.step_line.specs.declared.Piece.{Piece as AnyPiece};
ghost use Rattle.step_line.specs.Logs.{NewestFirst};
ghost use Rattle.step_line.specs.Ordering.{ComesNext};
ghost use Rattle.board_journal.specs.Ports.{BoardLog};
ghost use Rattle.host_journal.specs.Steps.{HostLog};
ghost use Rattle.pulse_engine.specs.Logs.{PieceLog, IsCounted, SawStop, got_since};
ghost use Rattle.pulse_engine.specs.Logs.PieceEvent.{asked, got, none, halted};
ghost use Rattle.list_ports.specs.Joining.{Joined};

use crate::Lists;
use pulse_engine::PulsePort;
use step_line::{Piece, tick_count};

impl<const RX: usize> PulsePort for Lists<RX> {
    /// What the host and the board have done.
    ghost Rest = { HostLog × BoardLog };

    ghost stands = { λ lists far h. Joined lists far.0 far.1 h };

    #[inline]
    fn stopped(&mut self) -> bool
        ensures waits { result ≡ true → (far : HostLog × BoardLog) (h : PieceLog) → Joined self.old far.0 far.1 h → Joined self.new far.0 far.1 (asked true ∷ h) }
        ensures none { result ≡ false → (far : HostLog × BoardLog) (h : PieceLog) → Joined self.old far.0 far.1 h → Joined self.new far.0 far.1 (asked false ∷ h) }
        ensures found { result ≡ self.old.stop }
    {
        self.stop
    }

    /// Takes out all pieces that wait, and leaves no tick to count.
    fn halt(&mut self)
        requires { (far : HostLog × BoardLog) × (h : PieceLog) × Joined self.old far.0 far.1 h × SawStop h }
        ensures joined { (far : HostLog × BoardLog) (h : PieceLog) → Joined self.old far.0 far.1 h → SawStop h → (dropped : NewestFirst AnyPiece) × Joined self.new far.0 far.1 (halted dropped ∷ h) }
        ensures empties { self.new ≡ record self.old { pieces = []; left = 0; stop = false } }
    {
        self.pieces.clear();
        self.left = 0;
        self.stop = false;
    }

    /// The piece that has waited longest, where one waits.
    fn piece(&mut self) -> Option<Piece>
        requires { (far : HostLog × BoardLog) × (h : PieceLog) × Joined self.old far.0 far.1 h × IsCounted h }
        ensures some { IfSome result (λ p. (far : HostLog × BoardLog) (h : PieceLog) → Joined self.old far.0 far.1 h → IsCounted h → Joined self.new far.0 far.1 (got p ∷ h)) }
        ensures next { IfSome result (λ p. (far : HostLog × BoardLog) (h : PieceLog) → Joined self.old far.0 far.1 h → IsCounted h → ComesNext (got_since h) p) }
        ensures none { IfNone result ((far : HostLog × BoardLog) (h : PieceLog) → Joined self.old far.0 far.1 h → IsCounted h → Joined self.new far.0 far.1 (none ∷ h)) }
        ensures found { result ≡ slice_get self.old.pieces 0 }
    {
        let piece = self.pieces.pop_front()?;
        self.left = tick_count(&piece);
        Some(piece)
    }

    #[inline]
    fn tick_done(&mut self) {
        self.left -= 1;
        self.done += 1;
    }
}
