//! The port of a host.

ghost use Rattle.std.specs.Prelude.{◌≡◌};
ghost use Rattle.realtime_flags.specs.Bytes.{raised_by};

use host_journal::HostPort;
use realtime_flags::{Raised, Raiser};
use serial_ring::{HostEnd, Stored};
use status_report::Reply;

/// The host's ends of a link and of the flags.
#[derive(Drop)]
pub struct HostLink<const RX: usize> {
    pub end: HostEnd<RX>,
    pub flags: Raiser,
}

/// The port stands for what its ends stored, got and raised, and its far side for the two tables.
impl<const RX: usize> HostPort for HostLink<RX> {
    ghost use Rattle.std.specs.Prelude.{◌≡◌};
    ghost use Rattle.atomic_table.specs.Seated.{TableId};
    ghost use Rattle.serial_ring.specs.Ends.{link_of_host, stored_by, closed_by, marks_by, got_by, greeted_by, moments_by};
    ghost use Rattle.realtime_flags.specs.Ends.{raised_in, raises_by};
    ghost use Rattle.link_ports.specs.Hosts.{HostDid, HostLooked};

    ghost Rest = { TableId × TableId };

    ghost room = { RX };

    ghost stands = { λ port tables log. (link_of_host port.end ≡ tables.0) × (raised_in port.flags ≡ tables.1) × HostDid (stored_by port.end) (marks_by port.end) (closed_by port.end) (got_by port.end) (greeted_by port.end) (raises_by port.flags) (moments_by port.end) log
        × HostLooked port.end log };

    #[inline]
    fn store(&mut self, byte: u8) -> Stored {
        self.end.store(byte)
    }

    fn mark(&mut self) {
        self.end.mark();
    }

    #[inline]
    fn raise(&mut self, byte: u8) -> Raised {
        self.flags.raise(byte)
    }

    #[inline]
    fn reply(&mut self) -> Option<Reply> {
        self.end.reply()
    }

    #[inline]
    fn close(&mut self) {
        self.end.close();
    }
}
