//! The lists as the port of a board.

ghost use Rattle.std.specs.Prelude.{◌≡◌, ℕ, ◌+◌, [], ◌∷◌, ◌≤◌, true, length, OnOk, OnErr, IfErr};
ghost use Rattle.std.specs.List.{slice_get};
ghost use Rattle.status_report.specs.Answering.{reply_room};
ghost use Rattle.step_line.specs.Finishing.{most_unfinished};
ghost use Rattle.board_journal.specs.Ports.{BoardLog, said, MayAnswer, MayBeDone, MayPublish, IsMarkedPast, HasTakenFew, HasFewReports, LacksPieceRoom, LacksReplyRoom, asks_report};
ghost use Rattle.board_journal.specs.Ports.PortStep.{took, found_empty, found_closed, found_free, no_reply_room, took_exec, took_ovr, published, no_piece_room, loaded};
ghost use Rattle.host_journal.specs.Steps.{HostLog};
ghost use Rattle.pulse_engine.specs.Logs.{PieceLog};
ghost use Rattle.list_ports.specs.Joining.{Joined, one_if_some};
ghost use Rattle.list_ports.specs.Finding.{byte_found};

use crate::Lists;
use crate::lists::MOST_UNFINISHED;
use bitflags::Flags;
use board_journal::BoardPort;
use code_table::{Exec, Ovr};
use serial_ring::ByteIn;
use status_report::Reply;
use step_line::Piece;

impl<const RX: usize> BoardPort for Lists<RX> {
    /// What the host and the pulse have done.
    ghost Rest = { HostLog × PieceLog };

    ghost room = { RX };

    ghost stands = { λ lists far l. Joined lists far.0 l far.1 };

    /// The byte that has waited longest, where one waits; else Closed where the link is closed, and Empty where it is
    /// open.
    #[inline(always)]
    fn byte(&mut self) -> ByteIn
        ensures byte { (b : ℕ) → result ≡ ByteIn.Byte b → (far : HostLog × PieceLog) (l : BoardLog) → Joined self.old far.0 l far.1 → Joined self.new far.0 (took b ∷ l) far.1 }
        ensures few { (b : ℕ) → result ≡ ByteIn.Byte b → (far : HostLog × PieceLog) (l : BoardLog) → Joined self.old far.0 l far.1 → HasTakenFew l }
        ensures marked { (far : HostLog × PieceLog) (l : BoardLog) → Joined self.old far.0 l far.1 → IsMarkedPast l → (b : ℕ) × (result ≡ ByteIn.Byte b) }
        ensures empty { result ≡ ByteIn.Empty → (far : HostLog × PieceLog) (l : BoardLog) → Joined self.old far.0 l far.1 → Joined self.new far.0 (found_empty ∷ l) far.1 }
        ensures closed { result ≡ ByteIn.Closed → (far : HostLog × PieceLog) (l : BoardLog) → Joined self.old far.0 l far.1 → Joined self.new far.0 (found_closed ∷ l) far.1 }
        ensures found { result ≡ byte_found (slice_get self.old.bytes 0) self.old.closed }
    {
        match self.bytes.pop_front() {
            Some(byte) => ByteIn::Byte(byte),
            None if self.closed => ByteIn::Closed,
            None => ByteIn::Empty,
        }
    }

    fn marked(&mut self) -> (u32, u32) {
        self.mark
    }

    /// All the room there is: what waits and it are `RX` bytes.
    fn free(&mut self) -> u8
        ensures room { result ≤ RX }
        ensures free { (far : HostLog × PieceLog) (l : BoardLog) → Joined self.old far.0 l far.1 → Joined self.new far.0 (found_free result ∷ l) far.1 }
        ensures whole { result + length self.old.bytes ≡ RX }
    {
        (RX - self.bytes.len()) as u8
    }

    /// Answers, or hands the reply back where 16 wait.
    fn answer(&mut self, r: Reply) -> Result<(), Reply>
        requires { (far : HostLog × PieceLog) × (l : BoardLog) × Joined self.old far.0 l far.1 × MayAnswer l r }
        ensures ok { OnOk result ((far : HostLog × PieceLog) (l : BoardLog) → Joined self.old far.0 l far.1 → MayAnswer l r → Joined self.new far.0 (said r ∷ l) far.1) }
        ensures full { OnErr result ((far : HostLog × PieceLog) (l : BoardLog) → Joined self.old far.0 l far.1 → Joined self.new far.0 (no_reply_room ∷ l) far.1 × LacksReplyRoom l) }
        ensures back { IfErr result (λ handed. handed ≡ r) }
        ensures cause { OnErr result (reply_room ≤ length self.old.replies) }
    {
        self.replies.try_push_back(r)
    }

    /// Takes the whole word of requests.
    fn take_exec(&mut self) -> Exec
        ensures taken { (far : HostLog × PieceLog) (l : BoardLog) → Joined self.old far.0 l far.1 → Joined self.new far.0 (took_exec result ∷ l) far.1 }
        ensures few { asks_report result ≡ true → (far : HostLog × PieceLog) (l : BoardLog) → Joined self.old far.0 l far.1 → HasFewReports l }
        ensures word { result.0 ≡ self.old.exec }
    {
        let word = self.exec;
        self.exec = Exec::from_bits_retain(0);
        word
    }

    /// Takes the whole word of changes of overrides.
    fn take_override(&mut self) -> Ovr
        ensures taken { (far : HostLog × PieceLog) (l : BoardLog) → Joined self.old far.0 l far.1 → Joined self.new far.0 (took_ovr result ∷ l) far.1 }
        ensures word { result.0 ≡ self.old.override }
    {
        let word = self.overrides;
        self.overrides = Ovr::from_bits_retain(0);
        word
    }

    /// Publishes a piece, or hands it back where five are unfinished: those that wait, and the one that was got last
    /// where ticks of it are left.
    fn publish(&mut self, p: Piece) -> Result<(), Piece>
        requires { (far : HostLog × PieceLog) × (l : BoardLog) × Joined self.old far.0 l far.1 × MayPublish l p }
        ensures ok { OnOk result ((far : HostLog × PieceLog) (l : BoardLog) → Joined self.old far.0 l far.1 → MayPublish l p → Joined self.new far.0 (published p ∷ l) far.1) }
        ensures full { OnErr result ((far : HostLog × PieceLog) (l : BoardLog) → Joined self.old far.0 l far.1 → (done : ℕ) × Joined self.new far.0 (no_piece_room done ∷ l) far.1 × LacksPieceRoom done l) }
        ensures back { IfErr result (λ handed. handed ≡ p) }
        ensures cause { OnErr result (most_unfinished ≤ length self.old.pieces + one_if_some self.old.left) }
    {
        if self.unfinished() >= MOST_UNFINISHED {
            return Err(p);
        }
        self.pieces.try_push_back(p)
    }

    /// All the ticks that are done.
    fn done(&mut self) -> u64
        ensures done { (far : HostLog × PieceLog) (l : BoardLog) → Joined self.old far.0 l far.1 → Joined self.new far.0 (loaded result ∷ l) far.1 }
        ensures known { (far : HostLog × PieceLog) (l : BoardLog) → Joined self.old far.0 l far.1 → MayBeDone result l }
        ensures found { result ≡ self.old.done }
    {
        self.done
    }

    /// The stop waits until the pulse has halted.
    fn stop(&mut self) {
        self.stop = true;
    }

    /// The ticks that are done, once the stop waits no longer.
    fn halted(&mut self) -> Option<u64> {
        if self.stop {
            return None;
        }
        Some(self.done)
    }
}
