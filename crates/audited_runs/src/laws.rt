//! Laws of runs in which no device failed.

ghost use Rattle.std.specs.Prelude.{◌≡◌, ◌+◌, ℕ, Bool, false, List};
ghost use Rattle.std.specs.List.{sum_by};
ghost use Rattle.outside.specs.Causes.{SourceState};
ghost use Rattle.run_law.specs.Runs.{Sinks, slows_in};
ghost use Rattle.run_law.specs.declared.RunEnd.{RunEnd as AnyEnd};
ghost use Rattle.run_texts.specs.Fronts.{BeginsWith};
ghost use Rattle.run_texts.specs.Sent.{sent_of};
ghost use Rattle.step_record.specs.declared.forms.Form.{Form};
ghost use Rattle.epoch_law.specs.Runs.{IsRun};
ghost use Rattle.audit_rules.specs.Findings.{Finds};
ghost use Rattle.audit_rules.specs.Scanned.{cuts_by, scanned, sent_in};
ghost use Rattle.audit_rules.specs.declared.Audit.{Audit as AnyAudit};
ghost use Rattle.audited_runs.specs.Left.{IsWholeRun, LeavesSteps, LeavesConsole, LeavesTextsThatFit, MayFind};

/// A run in which no device failed leaves steps that are a step text: its lines have the records of the run.
pub fn runs_leave_step_texts()
    ensures { (attended : Bool) (room blocks : ℕ) (form : Form) (job : List ℕ) (job_was job_is : SourceState) (was is : Sinks) (end : AnyEnd) →
        (run : IsRun attended room blocks form job_was job_is was is end) → IsWholeRun job job_was was end → LeavesSteps is.steps run.records }
{}

/// And it leaves a console that begins with the banner, and is the text of the replies that were got, but Bye. Each of these can stand on a
/// console: also reports, whose places are near enough and whose numbers are as wide as their types.
pub fn runs_leave_consoles()
    ensures { (attended : Bool) (room blocks : ℕ) (form : Form) (job : List ℕ) (job_was job_is : SourceState) (was is : Sinks) (end : AnyEnd) →
        (run : IsRun attended room blocks form job_was job_is was is end) → IsWholeRun job job_was was end → LeavesConsole is.console run.replies }
{}

/// Where no line has raised an alarm, it has sent the lines that an audit scans of its job, and has scanned the rest that an audit scans
/// behind them.
pub fn runs_send_all_lines()
    ensures lines { (attended : Bool) (room blocks : ℕ) (form : Form) (job : List ℕ) (job_was job_is : SourceState) (was is : Sinks) (end : AnyEnd) →
        (run : IsRun attended room blocks form job_was job_is was is end) → IsWholeRun job job_was was end → run.fits.last.before.alarmed ≡ false → run.lines ≡ (scanned job).lines }
    ensures rest { (attended : Bool) (room blocks : ℕ) (form : Form) (job : List ℕ) (job_was job_is : SourceState) (was is : Sinks) (end : AnyEnd) →
        (run : IsRun attended room blocks form job_was job_is was is end) → IsWholeRun job job_was was end → run.fits.last.before.alarmed ≡ false → run.rest ≡ (scanned job).rest }
{}

/// With an alarm or without, what came to the board is a front of what comes of the job, as an audit means it: its lines and its resets.
pub fn runs_send_a_front()
    ensures { (attended : Bool) (room blocks : ℕ) (form : Form) (job : List ℕ) (job_was job_is : SourceState) (was is : Sinks) (end : AnyEnd) →
        (run : IsRun attended room blocks form job_was job_is was is end) → IsWholeRun job job_was was end → BeginsWith (sent_in job) (sent_of run.lines run.rest) }
{}

/// The bytes that a run has scanned and that may cut jogs are those of the lines that it has sent, and of the rest behind them, as an audit
/// counts them.
pub fn runs_scan_the_cuts_of_their_lines()
    ensures { (attended : Bool) (room blocks : ℕ) (form : Form) (job_was job_is : SourceState) (was is : Sinks) (end : AnyEnd) →
        (run : IsRun attended room blocks form job_was job_is was is end) → slows_in run.scanned ≡ sum_by cuts_by run.lines + cuts_by run.rest }
{}

/// So it leaves texts that fit, as an audit means it: the job, the console and the steps, whichever the order of its threads was. That is said
/// of runs that are not attended, and of any in which no line has raised an alarm. In an attended run a 0x85 waits for nothing: one behind
/// the line of an alarm may have cut jogs before it, and an audit does not count that.
pub fn runs_leave_texts_that_fit()
    ensures unattended { (room blocks : ℕ) (form : Form) (job : List ℕ) (job_was job_is : SourceState) (was is : Sinks) (end : AnyEnd) →
        IsRun false room blocks form job_was job_is was is end → IsWholeRun job job_was was end → LeavesTextsThatFit job is }
    ensures calm { (attended : Bool) (room blocks : ℕ) (form : Form) (job : List ℕ) (job_was job_is : SourceState) (was is : Sinks) (end : AnyEnd) →
        (run : IsRun attended room blocks form job_was job_is was is end) → IsWholeRun job job_was was end → run.fits.last.before.alarmed ≡ false → LeavesTextsThatFit job is }
{}

/// And whatever an audit finds of them, it is no bad reply and no record that breaks a rule: it finds that they fit, or that one is too long,
/// or a line that is not audited.
pub fn audits_find_no_fault_of_runs()
    ensures { (job : List ℕ) (is : Sinks) (left : LeavesTextsThatFit job is) (a : AnyAudit) → Finds job left.console left.steps a → MayFind left.events a }
{}
