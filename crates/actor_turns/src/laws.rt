//! What holds of every world.

ghost use Rattle.std.specs.Prelude.{◌≡◌, ℕ, ◌-◌, false};
ghost use Rattle.run_rules.specs.Lines.{lines_of};
ghost use Rattle.host_journal.specs.Steps.{scanned_of, got_of};
ghost use Rattle.line_reports.specs.PerLine.{ReportsPerLine};
ghost use Rattle.step_record.specs.declared.forms.Form.{Form};
ghost use Rattle.actor_turns.specs.Worlds.{Devices, History, Seen, Holds, Stands, AreDone, end_after, RunsSoFar, HasRun, HasRunAlone, HasRunCounted, CountsReports, pins_in};

use controller::controllers_keep_to_epochs;
use epoch_law::{
    actors_make_a_run_so_far, actors_that_end_make_a_run, boards_have_run, boards_run,
    hosts_are_sending, hosts_have_sent, pulses_have_run, pulses_run, rings_pass_pieces_so_far,
};
use motion_pulse::pins_are_those_of_heads;
use run_law::recorders_have_run;
use stream_host::{hosts_have_run, hosts_send_their_lines};

/// What a world has done since it was new is a run of the job so far. Where all four actors are done, it is a whole run, each of
/// whose lines has at most as many reports as it has `?`, where the host is not attended; and where no reset ends an epoch, the subticks
/// that were handed out are those of the heads of its records.
pub fn worlds_run()
    ensures so_far { (N : ℕ) (form : Form) (was now : Devices) (w : Seen N) (hist : History) → Stands form was now w hist → RunsSoFar w.host.attended w.room (N - 1) form was now }
    ensures whole { (N : ℕ) (form : Form) (was now : Devices) (w : Seen N) (hist : History) → Stands form was now w hist → AreDone w → HasRun w.host.attended w.room (N - 1) form was now (end_after w hist) }
    ensures alone { (N : ℕ) (form : Form) (was now : Devices) (w : Seen N) (hist : History) → Stands form was now w hist → AreDone w → HasRunAlone w.host.attended w.room (N - 1) form was now (end_after w hist) }
    ensures counted { (N : ℕ) (form : Form) (was now : Devices) (w : Seen N) (hist : History) → Stands form was now w hist → AreDone w → HasRunCounted w.host.attended w.room (N - 1) form was now (end_after w hist) hist.stepping (pins_in hist) }
{
    hosts_have_run();
    hosts_have_sent();
    hosts_are_sending();
    controllers_keep_to_epochs();
    boards_have_run();
    boards_run();
    pulses_have_run();
    pulses_run();
    pins_are_those_of_heads();
    recorders_have_run();
    rings_pass_pieces_so_far();
    actors_make_a_run_so_far();
    actors_that_end_make_a_run();
}

/// On one thread, if the host is not attended, in each epoch each line of a job has at most as many reports as it has `?` there outside
/// comments, so that a line without has none, and none is kept over a Banner: by the bytes that the host has scanned so far and the
/// replies that it has got, which are those of the job and of the console.
pub fn worlds_count_reports()
    ensures each { (N : ℕ) (w : Seen N) (hist : History) → Holds w hist → w.host.attended ≡ false → ReportsPerLine (lines_of (scanned_of hist.host)) (got_of hist.host) }
    ensures told { (N : ℕ) (form : Form) (was now : Devices) (w : Seen N) (hist : History) → Stands form was now w hist → CountsReports w.host.attended was now }
{
    hosts_send_their_lines();
}
