//! What follows from the answers.

ghost use Rattle.std.specs.Prelude.{◌≡◌, ◌↔◌, ◌<◌, ◌-◌, ◌^◌, ℕ, List, Some};
ghost use Rattle.outside.specs.Causes.{SourceState, SinkState};
ghost use Rattle.audit_rules.specs.Findings.{FitsWith, exit_of};
ghost use Rattle.audit_rules.specs.declared.Audit.{Audit as AnyAudit};
ghost use Rattle.run_audit.specs.Auditing.{FitAuditably, IsAnswered, RightOf};

/// Of three texts that are read whole, with no fault of any object, the audit answers with the status 0 exactly if they fit, neither
/// console nor steps are too long, and each line that is sent is audited.
pub fn audits_tell_what_fits()
    ensures { (job_text console_text steps_text : List ℕ) (job job_behind console console_behind steps steps_behind : SourceState) (out out_behind : SinkState) (a : AnyAudit) →
        RightOf job.left console.left steps.left a → IsAnswered 3 job job_behind console console_behind steps steps_behind out out_behind a →
        job.left ≡ Some job_text → console.left ≡ Some console_text → steps.left ≡ Some steps_text →
        job_behind.faults ≡ job.faults → console_behind.faults ≡ console.faults → steps_behind.faults ≡ steps.faults → out_behind.faults ≡ out.faults →
        job.faults < 2 ^ 64 - 1 → console.faults < 2 ^ 64 - 1 → steps.faults < 2 ^ 64 - 1 → out.faults < 2 ^ 64 - 1 →
        (exit_of a ≡ 0) ↔ FitAuditably job_text console_text steps_text }
{}

/// Where the audit of three texts that are read whole answers that they fit, as it does with the status 0 alone, they do.
pub fn texts_fit_where_that_is_told()
    ensures { (job console steps : List ℕ) (a : AnyAudit) → RightOf (Some job) (Some console) (Some steps) a → exit_of a ≡ 0 → (events : ℕ) × FitsWith job console steps events }
{}
