//! The call, and the line that says what was found.

ghost use Rattle.std.specs.Prelude.{◌≡◌, ◌≢◌, ℕ, List, Some, MatchResult, IfOk, not, is_ok, length, true};
ghost use Rattle.outside.specs.Causes.{Rose};
ghost use Rattle.outside.specs.Writing.{Took};
ghost use Rattle.audit_rules.specs.Findings.{Finds, audit_text};
ghost use Rattle.run_audit.specs.Going.{AllSame, IsCaused};
ghost use Rattle.run_audit.specs.Auditing.{IsAnswered, IsOfTexts, RightOf, TellsRightly, is_found};
ghost use Rattle.run_audit.specs.Finding.{audit_of};
ghost use Rattle.run_audit.specs.UnderWay.{IsSaid};

use crate::auditor::{Auditor, Finding, Unread};
use audit_readers::put_audit;
use audit_rules::Audit;
use audit_texts::Recorded;
use outside::{Failed, Sink, Source, write_text};
use units::Text;

/// Writes the line of an answer.
fn tell<O: Sink>(audit: &Audit, out: &mut O) -> Result<(), Failed>
    ensures { Took (O.state out.old) (O.state out.new) (not (is_ok result)) (audit_text audit.now) }
{
    let mut text = Text::new();
    put_audit(audit, &mut text);
    write_text(text.as_slice(), out)
}

/// The answer where something was found.
#[tactic(auto, using(crate::proofs::Telling::told_rightly))]
fn answer_of(found: Finding) -> Audit
    ensures found { is_found result ≡ true }
    ensures is { result ≡ audit_of found }
    ensures right { (job console steps : List ℕ) → IsSaid job console steps found → Finds job console steps (audit_of found) → TellsRightly job console steps result }
{
    match found {
        Finding::Fits(events) => Audit::Fits { events },
        Finding::Misfit(at) => Audit::Misfit { at },
        Finding::BadReplies(line) => Audit::BadReplies { line },
        Finding::Foreign(line) => Audit::Foreign { line },
        Finding::TooLong => Audit::TooLong,
    }
}

/// Goes through three texts.
fn audit<J: Source, C: Source, S: Source>(
    job: &mut J,
    console: &mut C,
    steps: &mut S,
) -> Result<Finding, Unread>
    ensures right { IfOk result (λ found. (job_text console_text steps_text : List ℕ) → (J.state job.old).left ≡ Some job_text → (C.state console.old).left ≡ Some console_text → (S.state steps.old).left ≡ Some steps_text →
        IsSaid job_text console_text steps_text found) }
    ensures finds { IfOk result (λ found. (job_text console_text steps_text : List ℕ) → (J.state job.old).left ≡ Some job_text → (C.state console.old).left ≡ Some console_text → (S.state steps.old).left ≡ Some steps_text →
        Finds job_text console_text steps_text (audit_of found)) }
    ensures known { MatchResult result (λ found. AllSame (J.state job.old) (C.state console.old) (S.state steps.old) (J.state job.new) (C.state console.new) (S.state steps.new))
        (λ e. IsCaused e (J.state job.old) (C.state console.old) (S.state steps.old) (J.state job.new) (C.state console.new) (S.state steps.new)) }
{
    match Recorded::open(steps) {
        Err(_) => Err(Unread::Steps),
        Ok(recorded) => Auditor::new(recorded).run(job, console, steps),
    }
}

/// The answer to three texts.
fn answer<J: Source, C: Source, S: Source>(job: &mut J, console: &mut C, steps: &mut S) -> Audit
    ensures right { RightOf (J.state job.old).left (C.state console.old).left (S.state steps.old).left result }
    ensures faults { IsOfTexts (J.state job.old) (J.state job.new) (C.state console.old) (C.state console.new) (S.state steps.old) (S.state steps.new) result }
{
    match audit(job, console, steps) {
        Ok(found) => answer_of(found),
        Err(Unread::Job) => Audit::JobFault,
        Err(Unread::Console) => Audit::ConsoleFault,
        Err(Unread::Steps) => Audit::StepsFault,
    }
}

/// Audits a job, a console and steps, and writes the line that says what was found. The words are the names of the three
/// texts.
pub fn run_audit<J: Source, C: Source, S: Source, O: Sink>(
    words: &[&str],
    job: &mut J,
    console: &mut C,
    steps: &mut S,
    out: &mut O,
) -> Audit
    ensures right { RightOf (J.state job.old).left (C.state console.old).left (S.state steps.old).left result }
    ensures answered { IsAnswered (length words.now) (J.state job.old) (J.state job.new) (C.state console.old) (C.state console.new) (S.state steps.old) (S.state steps.new) (O.state out.old) (O.state out.new) result }
{
    if words.len() != 3 {
        let _ = tell(&Audit::Usage, out);
        return Audit::Usage;
    }
    let found = answer(job, console, steps);
    match tell(&found, out) {
        Ok(()) => found,
        Err(_) => Audit::OutFault,
    }
}
