//! The port of a host.

ghost use Rattle.std.specs.Prelude.{◌≡◌, ◌∷◌, ℕ, Bool, IfSome, IfNone};
ghost use Rattle.status_report.specs.Replies.{IsReply};
ghost use Rattle.realtime_flags.specs.Bytes.{raised_by};
ghost use Rattle.host_journal.specs.Ports.{IsOpen, TakesByte, TakesMark, TakesRaise, SeemsFull, AnswersLines};
ghost use Rattle.host_journal.specs.Steps.{HostLog};
ghost use Rattle.host_journal.specs.Steps.PortStep.{stored, dropped, marked, raised, got, no_reply, shut};

use realtime_flags::Raised;
use serial_ring::Stored;
use status_report::Reply;

/// The host's side of the board: bytes go to it and replies come from it, in order, and realtime bytes go past the
/// bytes that wait.
pub trait HostPort {
    /// What this side does not change.
    ghost Rest: { Type 0 };

    /// So many bytes may be on the link at once.
    ghost room: { ℕ };

    /// This side of the port has done what the log tells, the latest first.
    ghost stands: { Self → Rest → HostLog → Type 0 };

    /// Stores a byte, or drops it where the link may have no room. The link must be open, and fewer than 2^31 bytes
    /// stored. What may not be taken yet is at most what stands behind the last mark whose Banner was got, after the lines that
    /// are answered since.
    fn store(&mut self, byte: u8) -> Stored
        requires { (rest : Rest) × (h : HostLog) × stands self.old rest h × TakesByte h }
        ensures stored { result ≡ Stored.Stored → (rest : Rest) (h : HostLog) → stands self.old rest h → TakesByte h → stands self.new rest (stored byte ∷ h) }
        ensures dropped { result ≡ Stored.Dropped → (rest : Rest) (h : HostLog) → stands self.old rest h → TakesByte h → stands self.new rest (dropped byte ∷ h) × SeemsFull room h };

    /// Stores a mark behind the bytes so far: its number, counted from 1, and how many these are. Fewer than 2^32 - 1 marks must
    /// have been stored.
    fn mark(&mut self)
        requires { (rest : Rest) × (h : HostLog) × stands self.old rest h × TakesMark h }
        ensures { (rest : Rest) (h : HostLog) → stands self.old rest h → TakesMark h → stands self.new rest (marked ∷ h) };

    /// Raises a realtime byte, and answers what that is. Fewer than 2^31 `?` must have been raised before one more is.
    fn raise(&mut self, byte: u8) -> Raised
        requires { (rest : Rest) × (h : HostLog) × stands self.old rest h × TakesRaise byte h }
        ensures answer { result ≡ raised_by byte }
        ensures raised { (rest : Rest) (h : HostLog) → stands self.old rest h → TakesRaise byte h → (down : Bool) × stands self.new rest (raised byte down ∷ h) };

    /// The next reply, where one is there. Since the last Banner of a mark each `ok` and `error` is the answer to a line that was
    /// stored behind that mark.
    fn reply(&mut self) -> Option<Reply>
        ensures valid { IfSome result (λ r. IsReply r) }
        ensures some { IfSome result (λ r. (rest : Rest) (h : HostLog) → stands self.old rest h → stands self.new rest (got r ∷ h)) }
        ensures lines { IfSome result (λ r. (rest : Rest) (h : HostLog) → stands self.old rest h → AnswersLines (got r ∷ h)) }
        ensures none { IfNone result ((rest : Rest) (h : HostLog) → stands self.old rest h → stands self.new rest (no_reply ∷ h)) };

    /// Closes the link, which must be open.
    fn close(&mut self)
        requires { (rest : Rest) × (h : HostLog) × stands self.old rest h × IsOpen h }
        ensures { (rest : Rest) (h : HostLog) → stands self.old rest h → IsOpen h → stands self.new rest (shut ∷ h) };
}
