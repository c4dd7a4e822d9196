//! The port of a board within one epoch.

ghost use Rattle.std.specs.Prelude.{◌≡◌, ℕ, ◌+◌, ◌^◌, ◌∷◌, ◌≤◌, ◌<◌, length, true, OnOk, OnErr, IfErr};
ghost use Rattle.board_rules.specs.Conduct.{Conducted};
ghost use Rattle.board_journal.specs.Openings.{Opening};
ghost use Rattle.board_journal.specs.Ports.{BoardLog, MayBeDone, HasFewReports, LacksPieceRoom, asks_report, said, taken_in};
ghost use Rattle.board_journal.specs.Ports.PortStep.{took, found_empty, found_closed, found_free, no_reply_room, took_exec, took_ovr, published, no_piece_room, loaded};
ghost use Rattle.board_journal.specs.Steps.{Journal, port_log};
ghost use Rattle.epoch_ports.specs.Serving.{MayTellNow, MayPublishNow};

use code_table::{Exec, Ovr};
use serial_ring::ByteIn;
use status_report::Reply;
use step_line::Piece;

/// The port as a board has it within one epoch: its log is that of the epoch alone, and it counts ticks from where the epoch
/// began.
pub trait EpochPort {
    /// What this side does not change.
    ghost Rest: { Type 0 };

    /// So many bytes may be on the link at once.
    ghost room: { ℕ };

    /// This side of the port serves an epoch with this opening, in which it has done what the log says, the latest first.
    ghost stands: { Self → Rest → Opening → BoardLog → Type 0 };

    /// The next byte, if one is there. Fewer than 2^31 bytes were taken before any byte, with one for each line before the epoch.
    fn byte(&mut self) -> ByteIn
        ensures byte { (b : ℕ) → result ≡ ByteIn.Byte b → (rest : Rest) (first : Opening) (l : BoardLog) → stands self.old rest first l → stands self.new rest first (took b ∷ l) }
        ensures few { (b : ℕ) → result ≡ ByteIn.Byte b → (rest : Rest) (first : Opening) (l : BoardLog) → stands self.old rest first l → first.lines + length (taken_in l) < 2 ^ 31 }
        ensures empty { result ≡ ByteIn.Empty → (rest : Rest) (first : Opening) (l : BoardLog) → stands self.old rest first l → stands self.new rest first (found_empty ∷ l) }
        ensures closed { result ≡ ByteIn.Closed → (rest : Rest) (first : Opening) (l : BoardLog) → stands self.old rest first l → stands self.new rest first (found_closed ∷ l) };

    /// How many more bytes there is room for on the link.
    fn free(&mut self) -> u8
        ensures room { result ≤ room }
        ensures free { (rest : Rest) (first : Opening) (l : BoardLog) → stands self.old rest first l → stands self.new rest first (found_free result ∷ l) };

    /// Answers, or hands the reply back if 16 may wait. The epoch must have kept to its rules, and the reply be next, or a
    /// report.
    fn answer(&mut self, r: Reply) -> Result<(), Reply>
        requires { (rest : Rest) × (first : Opening) × (h : Journal) × stands self.old rest first (port_log h) × MayTellNow first r h }
        ensures ok { OnOk result ((rest : Rest) (first : Opening) (h : Journal) → stands self.old rest first (port_log h) → MayTellNow first r h → stands self.new rest first (said r ∷ port_log h)) }
        ensures full { OnErr result ((rest : Rest) (first : Opening) (l : BoardLog) → stands self.old rest first l → stands self.new rest first (no_reply_room ∷ l)) }
        ensures back { IfErr result (λ handed. handed ≡ r) };

    /// Takes the word of requests, and clears it. Fewer than 2^31 words that ask for a report were taken before one
    /// that does.
    fn take_exec(&mut self) -> Exec
        ensures taken { (rest : Rest) (first : Opening) (l : BoardLog) → stands self.old rest first l → stands self.new rest first (took_exec result ∷ l) }
        ensures few { asks_report result ≡ true → (rest : Rest) (first : Opening) (l : BoardLog) → stands self.old rest first l → HasFewReports l };

    /// Takes the word of changes of overrides, and clears it.
    fn take_override(&mut self) -> Ovr
        ensures { (rest : Rest) (first : Opening) (l : BoardLog) → stands self.old rest first l → stands self.new rest first (took_ovr result ∷ l) };

    /// Publishes the piece in hand, or hands it back if five pieces are unfinished. The epoch must have kept to its rules.
    fn publish(&mut self, p: Piece) -> Result<(), Piece>
        requires { (rest : Rest) × (first : Opening) × (h : Journal) × stands self.old rest first (port_log h) × MayPublishNow first p h }
        ensures ok { OnOk result ((rest : Rest) (first : Opening) (h : Journal) → stands self.old rest first (port_log h) → MayPublishNow first p h → stands self.new rest first (published p ∷ port_log h)) }
        ensures full { OnErr result ((rest : Rest) (first : Opening) (h : Journal) → stands self.old rest first (port_log h) → Conducted first h
            → (done : ℕ) × stands self.new rest first (no_piece_room done ∷ port_log h) × LacksPieceRoom done (port_log h)) }
        ensures back { IfErr result (λ handed. handed ≡ p) };

    /// How many ticks of the epoch are done: no fewer than were known, and no more than were published. At most five published
    /// pieces are unfinished then. The epoch must have kept to its rules.
    fn done(&mut self) -> u64
        requires { (rest : Rest) × (first : Opening) × (h : Journal) × stands self.old rest first (port_log h) × Conducted first h }
        ensures done { (rest : Rest) (first : Opening) (h : Journal) → stands self.old rest first (port_log h) → Conducted first h → stands self.new rest first (loaded result ∷ port_log h) }
        ensures known { (rest : Rest) (first : Opening) (h : Journal) → stands self.old rest first (port_log h) → Conducted first h → MayBeDone result (port_log h) };
}
