//! The lists as the port of a host.

ghost use Rattle.std.specs.Prelude.{◌≡◌, [], ◌∷◌, ◌≤◌, length, IfSome, IfNone};
ghost use Rattle.std.specs.List.{slice_get};
ghost use Rattle.status_report.specs.Replies.{IsReply};
ghost use Rattle.board_journal.specs.Ports.{BoardLog};
ghost use Rattle.host_journal.specs.Ports.{AnswersLines, SeemsFull, TakesByte};
ghost use Rattle.host_journal.specs.Steps.{HostLog};
ghost use Rattle.host_journal.specs.Steps.PortStep.{stored, dropped, got, no_reply};
ghost use Rattle.pulse_engine.specs.Logs.{PieceLog};
ghost use Rattle.list_ports.specs.Joining.{Joined};

use crate::Lists;
use host_journal::HostPort;
use realtime_flags::{Flag, Raised, flag_of_byte};
use serial_ring::Stored;
use status_report::Reply;

impl<const RX: usize> HostPort for Lists<RX> {
    /// What the board and the pulse have done.
    ghost Rest = { BoardLog × PieceLog };

    ghost room = { RX };

    ghost stands = { λ lists far h. Joined lists h far.0 far.1 };

    /// Stores a byte, or drops it where `RX` wait.
    fn store(&mut self, byte: u8) -> Stored
        requires { (far : BoardLog × PieceLog) × (h : HostLog) × Joined self.old h far.0 far.1 × TakesByte h }
        ensures stored { result ≡ Stored.Stored → (far : BoardLog × PieceLog) (h : HostLog) → Joined self.old h far.0 far.1 → TakesByte h → Joined self.new (stored byte ∷ h) far.0 far.1 }
        ensures dropped { result ≡ Stored.Dropped → (far : BoardLog × PieceLog) (h : HostLog) → Joined self.old h far.0 far.1 → TakesByte h → Joined self.new (dropped byte ∷ h) far.0 far.1 × SeemsFull RX h }
        ensures cause { result ≡ Stored.Dropped → RX ≤ length self.old.bytes }
    {
        if self.bytes.try_push_back(byte).is_err() {
            return Stored::Dropped;
        }
        self.stored += 1;
        Stored::Stored
    }

    fn mark(&mut self) {
        self.mark = (self.mark.0 + 1, self.stored);
    }

    fn raise(&mut self, byte: u8) -> Raised {
        let Some(flag) = flag_of_byte(byte) else {
            return if byte < 0x80 {
                Raised::Plain
            } else {
                Raised::Ignored
            };
        };
        self.raise_flag(flag);
        match flag {
            Flag::Exec(_) => Raised::Exec,
            Flag::Override(_) => Raised::Override,
        }
    }

    /// The reply that has waited longest, where one waits.
    fn reply(&mut self) -> Option<Reply>
        ensures valid { IfSome result (λ r. IsReply r) }
        ensures some { IfSome result (λ r. (far : BoardLog × PieceLog) (h : HostLog) → Joined self.old h far.0 far.1 → Joined self.new (got r ∷ h) far.0 far.1) }
        ensures lines { IfSome result (λ r. (far : BoardLog × PieceLog) (h : HostLog) → Joined self.old h far.0 far.1 → AnswersLines (got r ∷ h)) }
        ensures none { IfNone result ((far : BoardLog × PieceLog) (h : HostLog) → Joined self.old h far.0 far.1 → Joined self.new (no_reply ∷ h) far.0 far.1) }
        ensures found { result ≡ slice_get self.old.replies 0 }
    {
        self.replies.pop_front()
    }

    fn close(&mut self) {
        self.closed = true;
    }
}
