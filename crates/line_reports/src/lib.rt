//! The law that on one thread no line has more reports than it has `?`.
#![tactic(auto)]

ghost use Rattle.std.specs.Prelude.{◌≡◌, ℕ, false};
ghost use Rattle.run_rules.specs.declared.State.{State};
ghost use Rattle.run_rules.specs.Lines.{lines_of};
ghost use Rattle.host_journal.specs.Steps.{Journal, port_log, is_attended, got_of, scanned_of};
ghost use Rattle.stream_host.specs.Conduct.{Conducted};
ghost use Rattle.board_epochs.specs.Epochs.{Epochs, AreEpochs, log_of};
ghost use Rattle.pulse_engine.specs.Logs.{PieceLog};
ghost use Rattle.list_ports.specs.Joining.{Listed, Joined};
ghost use Rattle.line_reports.specs.PerLine.{ReportsPerLine};

/// Of a host and a board that keep to their rules over the same lists, each line has in each epoch at most as many reports as it has
/// `?` there, if the host's run is not attended.
pub fn lists_count_reports()
    ensures { (room : ℕ) (lists : Listed) (host : Journal) (blocks : ℕ) (first : State) (board : Epochs) (pulse : PieceLog) → Joined lists (port_log host) (log_of board) pulse → Conducted room host → is_attended host ≡ false → AreEpochs blocks first board
        → ReportsPerLine (lines_of (scanned_of host)) (got_of host) }
{}
