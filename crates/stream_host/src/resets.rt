//! The resets of a job, and the Banners that they wait for.

ghost use Rattle.std.specs.Prelude.{◌≡◌, ◌+◌, ◌^◌, ◌<◌, false, ◌&&◌, not, cond};
ghost use Rattle.stream_host.specs.Hosts.{awaits_by, begins_by, with_banner};
ghost use Rattle.host_journal.specs.Jobs.{is_reset};

use gcode_words::realtime_bytes::RESET;
use status_report::Reply;

/// How many resets were raised, and how many Banners were got; and whether the mark of the next reset is stored.
#[derive(Drop)]
pub(crate) struct Resets {
    pub(crate) raised: u32,
    pub(crate) banners: u32,
    pub(crate) marked: bool,
}

impl Resets {
    /// None was raised.
    pub(crate) fn new() -> Resets
        ensures raised { result.raised ≡ 0 }
        ensures banners { result.banners ≡ 0 }
        ensures marked { result.marked ≡ false }
    {
        Resets {
            raised: 0,
            banners: 0,
            marked: false,
        }
    }

    /// Whether a Banner is awaited: the n-th reset waits for the (n + 1)-th.
    pub(crate) fn awaits(&self) -> bool
        ensures { result ≡ awaits_by self.now }
    {
        self.raised > 0 && self.banners <= self.raised
    }

    /// Whether a byte is a reset whose mark is not stored yet.
    pub(crate) fn wants_mark(&self, byte: u8) -> bool
        ensures { result ≡ (is_reset byte && not self.now.marked) }
    {
        byte == RESET && !self.marked
    }

    /// A realtime byte of the job is raised.
    pub(crate) fn raise(&mut self, byte: u8)
        requires few { self.old.raised + 1 < 2 ^ 32 }
        ensures { self.new ≡ record self.old { raised = cond (is_reset byte) (self.old.raised + 1) self.old.raised; marked = cond (is_reset byte) false self.old.marked } }
    {
        if byte == RESET {
            self.raised += 1;
            self.marked = false;
        }
    }

    /// A reply is got. Answers whether it begins an epoch: each Banner but the first does.
    pub(crate) fn told(&mut self, reply: &Reply) -> bool
        requires few { self.old.banners + 1 < 2 ^ 32 }
        ensures begins { result ≡ begins_by self.old reply.now }
        ensures counted { self.new ≡ with_banner self.old reply.now }
    {
        if let Reply::Banner = reply {
            self.banners += 1;
            return self.banners > 1;
        }
        false
    }
}
