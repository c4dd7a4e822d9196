//! How a run ends, what its devices tell, and laws of what a board takes of flags and of what a recorder has done.
#![tactic(auto)]

ghost use Rattle.std.specs.Prelude.{ℕ, List};
ghost use Rattle.outside.specs.Causes.{SinkState};
ghost use Rattle.step_record.specs.Taking.{Log, records};
ghost use Rattle.step_record.specs.declared.forms.Form.{Form};
ghost use Rattle.step_record.specs.Recording.{Recording, RecorderFits, Rests};
ghost use Rattle.board_journal.specs.Ports.{BoardLog};
ghost use Rattle.realtime_flags.specs.Bits.{IsBalanced};
ghost use Rattle.host_journal.specs.Steps.{HostLog, bytes_raised_in};
ghost use Rattle.run_law.specs.Changes.{AreAskedIn, words_in};
ghost use Rattle.run_law.specs.Flags.{AreTaken, words_taken};
ghost use Rattle.run_law.specs.Taking.{raises_in, takes_in};
ghost use Rattle.run_law.specs.Ran.{RecorderRan};
ghost use Rattle.run_law.specs.SoFar.{RecorderRuns};

use stream_host::Stop;

/// How a run ends: why no more of the job was sent; how many lines were answered, and how many of these with an error;
/// whether a read of the job has failed, a write of the console, and a write of the steps.
#[derive(Clone, Copy, Debug, PartialEq, Eq)]
pub struct RunEnd {
    pub stop: Stop,
    pub answered: u32,
    pub errors: u32,
    pub source_failed: bool,
    pub console_failed: bool,
    pub steps_failed: bool,
}

/// What a board has taken of flags was raised, if each flag was found down by as many raises as there are takes that
/// had it, and by one more if it is up.
pub fn flags_that_are_taken_were_raised()
    ensures taken { (words : List ℕ) (host : HostLog) (board : BoardLog) → IsBalanced words (raises_in host) (takes_in board) →
        AreTaken (bytes_raised_in host) (words_taken board) }
    ensures changes { (words : List ℕ) (host : HostLog) (board : BoardLog) → IsBalanced words (raises_in host) (takes_in board) →
        AreAskedIn (bytes_raised_in host) (words_in board) }
{}

/// A recorder that is done has run, and every recorder runs.
pub fn recorders_have_run()
    ensures whole { (form : Form) (recorder : Recording) (log : Log) (was is : SinkState) → RecorderFits form recorder log was is → Rests recorder →
        RecorderRan form was is (records log) recorder.writer.failed }
    ensures so_far { (form : Form) (recorder : Recording) (log : Log) (was is : SinkState) → RecorderFits form recorder log was is → RecorderRuns form was is (records log) }
{}
