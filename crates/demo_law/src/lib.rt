//! The law that the lines of the generated job are accepted.
#![tactic(auto)]

ghost use Rattle.std.specs.Prelude.{◌≡◌, ℕ, ◌≤◌, ◌+◌, length};
ghost use Rattle.run_rules.specs.declared.State.{State};
ghost use Rattle.run_rules.specs.States.{IsOpening};
ghost use Rattle.demo_job.specs.Jobs.{job_lines, job_text};
ghost use Rattle.demo_law.specs.Accepted.{IsAccepted};
ghost use Rattle.demo_law.specs.Asked.{demo_asks};

/// The generated job of `n` moves is its n + 3 lines, and all of them are accepted from the opening state on. They ask
/// for its moves, in their order and no others.
pub fn demo_jobs_are_accepted()
    ensures accepted { (n : ℕ) (first : State) → 1 ≤ n → n ≤ 100000 → IsOpening first → IsAccepted (job_text n) (job_lines n) (demo_asks first.settings n) first }
    ensures lines { (n : ℕ) → length (job_lines n) ≡ n + 3 }
{}
