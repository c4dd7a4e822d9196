//! What the ports over the lists know of each other.

ghost use Rattle.host_journal.specs.Ports.{PortsAgree};
ghost use Rattle.host_journal.specs.Steps.{HostLog};
ghost use Rattle.board_journal.specs.Ports.{BoardLog, link_steps, has_closed_in};
ghost use Rattle.pulse_engine.specs.Logs.{PieceLog};
ghost use Rattle.list_ports.specs.Joining.{Listed, Joined};

/// What a host and a board have done over the same lists agrees: bytes, marks and replies, and for which marks the Banners were
/// answered that the host got.
pub fn logs_of_lists_agree()
    ensures { (lists : Listed) (host : HostLog) (board : BoardLog) (pulse : PieceLog) → Joined lists host board pulse → PortsAgree host (link_steps board) (has_closed_in board) }
{}
