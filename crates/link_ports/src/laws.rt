//! What the two ports of a link know of each other.

ghost use Rattle.std.specs.Prelude.{ℕ};
ghost use Rattle.serial_ring.specs.Ends.{stored_by, closed_by, marks_by, got_by, greeted_by, moments_by, log_by, found_closed};
ghost use Rattle.serial_ring.specs.Rule.{AreTied};
ghost use Rattle.host_journal.specs.Ports.{PortsAgree};
ghost use Rattle.host_journal.specs.Steps.{HostLog};
ghost use Rattle.board_journal.specs.Ports.{BoardLog, link_steps, has_closed_in};
ghost use Rattle.link_ports.specs.Standing.{HostLogs, BoardLogs};
ghost use Rattle.link_ports.specs.declared.host.HostLink.{HostLink};
ghost use Rattle.link_ports.specs.declared.board.BoardLink.{BoardLink};

/// Where the ends of a host's port and of a board's are those of one link, as their join tells, the logs that the ports stand for
/// agree: bytes, marks and replies, and for which marks the Banners were answered that the host got.
pub fn ports_of_a_link_agree()
    ensures { (room : ℕ) (host : HostLink room) (board : BoardLink room) (h : HostLog) (l : BoardLog) → HostLogs host h → BoardLogs board l →
        AreTied room (stored_by host.end) (marks_by host.end) (closed_by host.end) (log_by board.end) (found_closed board.end) (got_by host.end) (greeted_by host.end) (moments_by host.end) →
        PortsAgree h (link_steps l) (has_closed_in l) }
{}
