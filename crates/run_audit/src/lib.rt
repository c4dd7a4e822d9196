//! The audit of a job, a console and steps.
#![tactic(auto)]

mod auditor;
mod ending;
mod laws;
mod resetting;
mod writing;

pub use audit_rules::Audit;
pub use laws::{audits_tell_what_fits, texts_fit_where_that_is_told};
pub use writing::run_audit;
