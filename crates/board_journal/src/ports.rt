//! The port of a board.

ghost use Rattle.std.specs.Prelude.{◌≡◌, ℕ, ◌∷◌, ◌≤◌, true, OnOk, OnErr, IfErr, IfSome, IfNone};
ghost use Rattle.board_journal.specs.Ports.{BoardLog, MayAnswer, MayPublish, MayStop, MayAskHalt, MayBeDone, said, IsMarkedPast, HasTakenFew, HasFewReports, LacksReplyRoom, LacksPieceRoom, asks_report};
ghost use Rattle.board_journal.specs.Ports.PortStep.{took, found_empty, found_closed, found_free, found_mark, no_reply_room, took_exec, took_ovr, published, no_piece_room, loaded, stored_stop, found_no_halt, found_halt};

use code_table::{Exec, Ovr};
use serial_ring::ByteIn;
use status_report::Reply;
use step_line::Piece;

/// The board's side of its links to the host and to the pulse: bytes come and replies go, in order; realtime bytes pass
/// the bytes that wait; and pieces go to the pulse, which counts the ticks that are done.
pub trait BoardPort {
    /// What this side does not change.
    ghost Rest: { Type 0 };

    /// So many bytes may be on the link at once.
    ghost room: { ℕ };

    /// This side of the port has done what the log says, the latest first.
    ghost stands: { Self → Rest → BoardLog → Type 0 };

    /// The next byte, if one is there. Fewer than 2^31 bytes were taken before any byte. While fewer are taken than were stored
    /// before a mark that was loaded, there is one.
    fn byte(&mut self) -> ByteIn
        ensures byte { (b : ℕ) → result ≡ ByteIn.Byte b → (rest : Rest) (l : BoardLog) → stands self.old rest l → stands self.new rest (took b ∷ l) }
        ensures few { (b : ℕ) → result ≡ ByteIn.Byte b → (rest : Rest) (l : BoardLog) → stands self.old rest l → HasTakenFew l }
        ensures marked { (rest : Rest) (l : BoardLog) → stands self.old rest l → IsMarkedPast l → (b : ℕ) × (result ≡ ByteIn.Byte b) }
        ensures empty { result ≡ ByteIn.Empty → (rest : Rest) (l : BoardLog) → stands self.old rest l → stands self.new rest (found_empty ∷ l) }
        ensures closed { result ≡ ByteIn.Closed → (rest : Rest) (l : BoardLog) → stands self.old rest l → stands self.new rest (found_closed ∷ l) };

    /// How many more bytes there is room for on the link.
    fn free(&mut self) -> u8
        ensures room { result ≤ room }
        ensures free { (rest : Rest) (l : BoardLog) → stands self.old rest l → stands self.new rest (found_free result ∷ l) };

    /// The number of the mark that the host has stored, and how many bytes it had stored before; 0 and 0 before the first.
    fn marked(&mut self) -> (u32, u32)
        ensures { (rest : Rest) (l : BoardLog) → stands self.old rest l → stands self.new rest (found_mark result.0 result.1 ∷ l) };

    /// Answers, or hands the reply back if 16 may wait. An `ok` or an `error` answers a line: since the last Banner fewer lines
    /// must have been answered than were taken to their LF. A Banner behind another needs a new mark, loaded last, and as many
    /// bytes taken as were stored before that. Fewer than 2^62 replies must have been answered.
    fn answer(&mut self, r: Reply) -> Result<(), Reply>
        requires { (rest : Rest) × (l : BoardLog) × stands self.old rest l × MayAnswer l r }
        ensures ok { OnOk result ((rest : Rest) (l : BoardLog) → stands self.old rest l → MayAnswer l r → stands self.new rest (said r ∷ l)) }
        ensures full { OnErr result ((rest : Rest) (l : BoardLog) → stands self.old rest l → stands self.new rest (no_reply_room ∷ l) × LacksReplyRoom l) }
        ensures back { IfErr result (λ handed. handed ≡ r) };

    /// Takes the word of requests, and clears it. Fewer than 2^31 words that ask for a report were taken before one
    /// that does.
    fn take_exec(&mut self) -> Exec
        ensures taken { (rest : Rest) (l : BoardLog) → stands self.old rest l → stands self.new rest (took_exec result ∷ l) }
        ensures few { asks_report result ≡ true → (rest : Rest) (l : BoardLog) → stands self.old rest l → HasFewReports l };

    /// Takes the word of changes of overrides, and clears it.
    fn take_override(&mut self) -> Ovr
        ensures { (rest : Rest) (l : BoardLog) → stands self.old rest l → stands self.new rest (took_ovr result ∷ l) };

    /// Publishes a piece, or hands it back if five pieces are unfinished. It must come next after those published since the last
    /// halt, with fewer than 2^62 ticks published in all, and fewer than 2^62 pieces before it; no stop waits for its halt, and
    /// no end was published.
    fn publish(&mut self, p: Piece) -> Result<(), Piece>
        requires { (rest : Rest) × (l : BoardLog) × stands self.old rest l × MayPublish l p }
        ensures ok { OnOk result ((rest : Rest) (l : BoardLog) → stands self.old rest l → MayPublish l p → stands self.new rest (published p ∷ l)) }
        ensures full { OnErr result ((rest : Rest) (l : BoardLog) → stands self.old rest l → (done : ℕ) × stands self.new rest (no_piece_room done ∷ l) × LacksPieceRoom done l) }
        ensures back { IfErr result (λ handed. handed ≡ p) };

    /// How many ticks are done: no fewer than were known, and no more than were published. At most five published
    /// pieces are unfinished then.
    fn done(&mut self) -> u64
        ensures done { (rest : Rest) (l : BoardLog) → stands self.old rest l → stands self.new rest (loaded result ∷ l) }
        ensures known { (rest : Rest) (l : BoardLog) → stands self.old rest l → MayBeDone result l };

    /// Tells the pulse to stop behind all that was published. No stop waits for its halt, and where there was one before, a piece
    /// was published since.
    fn stop(&mut self)
        requires { (rest : Rest) × (l : BoardLog) × stands self.old rest l × MayStop l }
        ensures { (rest : Rest) (l : BoardLog) → stands self.old rest l → MayStop l → stands self.new rest (stored_stop ∷ l) };

    /// How many ticks are done, once the pulse has halted at the stop that waits: no fewer than were known, and no more than were
    /// published. All pieces are finished from then on, and the ticks published are those that are done.
    fn halted(&mut self) -> Option<u64>
        requires { (rest : Rest) × (l : BoardLog) × stands self.old rest l × MayAskHalt l }
        ensures some { IfSome result (λ done. (rest : Rest) (l : BoardLog) → stands self.old rest l → MayAskHalt l → stands self.new rest (found_halt done ∷ l) × MayBeDone done l) }
        ensures none { IfNone result ((rest : Rest) (l : BoardLog) → stands self.old rest l → MayAskHalt l → stands self.new rest (found_no_halt ∷ l)) };
}
