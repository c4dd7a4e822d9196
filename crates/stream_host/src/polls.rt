//! The polls of a host that find no reply, and what so many of them let it do.

ghost use Rattle.std.specs.Prelude.{◌≡◌, ◌↔◌, ◌∷◌, ◌+◌, ℕ, Bool, true, false, not, ◌&&◌, cond, nat_lt};
ghost use Rattle.host_journal.specs.Steps.{Journal, port_log, long_polls};
ghost use Rattle.host_journal.specs.Steps.PortStep.{raised, no_reply};
ghost use Rattle.host_journal.specs.Steps.Step.{at_port};
ghost use Rattle.host_journal.specs.Jobs.{resume};
ghost use Rattle.stream_host.specs.Conduct.{may_be_held, may_be_still, SeemsHeld, SeemsStill, IsGreeted, IsSettled};
ghost use Rattle.stream_host.specs.Hosts.{HostFits};

use crate::host::Host;
use gcode_words::realtime_bytes::RESUME;
use host_journal::{HostPort, resumed_after};

/// So many polls in a row that find no reply are enough to resume the machine.
const EMPTY_POLLS: u16 = 4096;

/// Half as many are enough to read on where the machine may be held, or the board has said nothing yet.
const HELD_POLLS: u16 = 2048;

/// So many are enough to read on where the sender stands by and a `~` may have come too early.
const LONG_POLLS: u16 = 32_768;

impl Host {
    /// Whether the sender stands by, so that nothing is resumed for it: once the link is closed it does no more.
    fn stands_by(&self) -> bool
        ensures { result ≡ (self.now.attended && not self.now.shut) }
    {
        self.attended && !self.shut
    }

    /// A poll found no reply. Where so many have, the machine is resumed, unless the sender stands by. Answers whether it is.
    pub(crate) fn count_poll<P: HostPort>(&mut self, port: &mut P) -> bool
        requires going { self.old.bye ≡ false }
        requires stands { (rest : P.Rest) × (h : Journal) × P.stands port.old rest (no_reply ∷ port_log h) × HostFits P.room self.old h }
        ensures resumed { result ≡ true → (rest : P.Rest) (h : Journal) → P.stands port.old rest (no_reply ∷ port_log h) → HostFits P.room self.old h
            → (down : Bool) × P.stands port.new rest (raised resume down ∷ no_reply ∷ port_log h) × HostFits P.room self.new (at_port (raised resume down) ∷ at_port no_reply ∷ h) }
        ensures counted { result ≡ false → (port.new ≡ port.old) × ((room : ℕ) (h : Journal) → HostFits room self.old h → HostFits room self.new (at_port no_reply ∷ h)) }
        ensures text { self.new.text ≡ self.old.text }
    {
        let polls = polls_with_one_more(self.polls);
        self.polls = polls;
        if self.stands_by() {
            return false;
        }
        if polls != EMPTY_POLLS {
            return false;
        }
        self.polls = 0;
        port.raise(RESUME);
        self.resumed_at = resumed_after(
            RESUME,
            self.held,
            self.counts.lines,
            self.counts.pause_at,
            self.resumed_at,
        );
        self.held = false;
        self.counts.pause_at = 0;
        true
    }

    /// Whether the first banner is awaited: nothing was got, and the board may still tell it.
    fn awaits_greeting(&self) -> bool
        ensures { (room : ℕ) (h : Journal) → HostFits room self.now h → (result ≡ false) ↔ IsGreeted h }
    {
        !self.greeted && self.polls < HELD_POLLS
    }

    /// Whether the machine may be held: a `!` was raised and no `~` since, or a line that has no answer asks for a pause, and
    /// no `~` was raised since it was scanned.
    fn may_be_held(&self) -> bool
        ensures { (room : ℕ) (h : Journal) → HostFits room self.now h → result ≡ may_be_held h }
    {
        self.held || self.counts.answered < self.counts.pause_at
    }

    /// Whether the machine may be held, and so many polls in a row have found no reply.
    fn seems_held(&self) -> bool
        ensures { (room : ℕ) (h : Journal) → HostFits room self.now h → (result ≡ true) ↔ SeemsHeld h }
    {
        self.may_be_held() && self.polls >= HELD_POLLS
    }

    /// Whether a `~` may have come too early: no answer has shown yet that the hold which it was to end is over.
    fn may_be_still(&self) -> bool
        ensures { (room : ℕ) (h : Journal) → HostFits room self.now h → result ≡ may_be_still h }
    {
        self.counts.answered < self.resumed_at
    }

    /// Whether the sender stands by, a `~` was raised that may have come too early, and so many polls in a row have found no reply.
    fn seems_still(&self) -> bool
        ensures { (room : ℕ) (h : Journal) → HostFits room self.now h → (result ≡ true) ↔ SeemsStill h }
    {
        self.attended && self.may_be_still() && self.polls >= LONG_POLLS
    }

    /// Whether nothing is awaited, or only the answers of a machine that seems held.
    pub(crate) fn is_settled(&self) -> bool
        ensures { (room : ℕ) (h : Journal) → HostFits room self.now h → (result ≡ true) ↔ IsSettled h }
    {
        if self.awaits_greeting() {
            return false;
        }
        if self.asking.is_open() {
            return false;
        }
        if self.counts.answered == self.counts.lines {
            return true;
        }
        self.seems_held() || self.seems_still()
    }
}

/// The polls that are counted with one more, as long as their number tells more.
fn polls_with_one_more(polls: u16) -> u16
    ensures { result ≡ cond (nat_lt polls long_polls) (polls + 1) polls }
{
    if polls < LONG_POLLS { polls + 1 } else { polls }
}

/// The polls that are counted behind the closing of the link: of a sender that stood by, they are counted anew.
pub(crate) fn polls_behind_end(attended: bool, polls: u16) -> u16
    ensures { result ≡ cond attended 0 polls }
{
    if attended { 0 } else { polls }
}
