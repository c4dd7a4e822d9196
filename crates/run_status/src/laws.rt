//! Laws of runs and their statuses.

ghost use Rattle.std.specs.Prelude.{◌≡◌, ℕ, false, List, Some};
ghost use Rattle.outside.specs.Causes.{SourceState};
ghost use Rattle.run_law.specs.Runs.{Sinks};
ghost use Rattle.run_law.specs.declared.RunEnd.{RunEnd as AnyEnd};
ghost use Rattle.run_texts.specs.Courses.{lines_in};
ghost use Rattle.run_status.specs.Setups.{Setup};
ghost use Rattle.epoch_law.specs.Runs.{IsRun};
ghost use Rattle.run_status.specs.Complete.{IsAcceptedJob, IsComplete};
ghost use Rattle.run_status.specs.Ends.{EndsWith, HasCauses};
ghost use Rattle.run_status.specs.Statuses.{AreOne, CanFail, HasItsCause, TellsFaults};
ghost use Rattle.run_status.specs.declared.Status.{Status as AnyStatus};

/// A run has the cause of its status.
pub fn statuses_have_their_causes()
    ensures causes { (setup : Setup) (job_was job_is : SourceState) (was is : Sinks) (status : AnyStatus) → EndsWith setup job_was job_is was is status → HasCauses setup job_was job_is was is status }
    ensures its_cause { (setup : Setup) (job_was job_is : SourceState) (was is : Sinks) (status : AnyStatus) → EndsWith setup job_was job_is was is status → HasItsCause setup job_was job_is was is status }
{}

/// Of a source that tells its bytes it has that of no other status, but for those between which the run decides.
pub fn statuses_have_no_other_causes()
    ensures { (setup : Setup) (job_was job_is : SourceState) (was is : Sinks) (bytes : List ℕ) (status other : AnyStatus) → job_was.left ≡ Some bytes → CanFail job_was was →
        HasItsCause setup job_was job_is was is status → HasItsCause setup job_was job_is was is other → AreOne status other }
{}

/// The first device of which a call failed is told: the steps before the console, that before the source.
pub fn faults_are_told()
    ensures { (setup : Setup) (job_was job_is : SourceState) (was is : Sinks) (status : AnyStatus) → CanFail job_was was → HasItsCause setup job_was job_is was is status → TellsFaults job_was job_is was is status }
{}

/// A run of a job whose lines are all accepted ends with no error, unless a read failed: all of the job is read and sent, and its
/// lines become what they do if the machine is never found running.
pub fn accepted_jobs_are_complete()
    ensures { (setup : Setup) (job_was job_is : SourceState) (was is : Sinks) (end : AnyEnd) (run : IsRun setup.attended setup.room setup.blocks setup.form job_was job_is was is end) (job : IsAcceptedJob job_was) →
        end.source_failed ≡ false → IsComplete job.bytes run.read run.lines job.outcomes (lines_in run.fits.course) end }
{}
