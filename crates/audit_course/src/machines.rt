//! How the machine is found, by the error that is told of a line.

ghost use Rattle.std.specs.Prelude.{◌≡◌, true, false, List, ℕ};
ghost use Rattle.run_rules.specs.Locking.{unlocks};
ghost use Rattle.run_rules.specs.Outcomes.{has_cause, begins_with_dollar};
ghost use Rattle.run_texts.specs.Points.{Point};
ghost use Rattle.system_lines.specs.Commands.{kind_of, refused_in_run};
ghost use Rattle.line_interpreter.specs.Keeping.{IsKept};
ghost use Rattle.audit_course.specs.SoFar.{Knows, FindsRight, FindsAlone, FindsStill};

use crate::{CourseJudge, MotionError};
use line_interpreter::KeptLine;
use run_rules::Machine;
use system_lines::Kind;

/// Whether a line is `$X`.
#[tactic(auto, unfolding(system_lines::specs::Commands::kind_of))]
fn is_unlock(kept: &[u8]) -> bool
    ensures { result ≡ unlocks kept.now }
{
    matches!(kept, b"$X")
}

/// Whether a line unlocks the machine, where it is locked.
pub(crate) fn unlocks(line: &KeptLine) -> bool
    ensures { (kept : List ℕ) → IsKept line.now kept → result ≡ unlocks kept }
{
    match line.bytes() {
        Some(kept) => is_unlock(kept),
        None => false,
    }
}

/// Whether a line begins with `$`.
fn is_dollar(kept: &[u8]) -> bool
    ensures { result ≡ begins_with_dollar kept.now }
{
    matches!(kept, [b'$', ..])
}

impl CourseJudge {
    /// Whether lines of this kind may be refused with 8.
    fn has_cause(&self, kind: Kind) -> bool
        ensures { (p : Point) → Knows self.now p → result ≡ has_cause p.before kind }
    {
        match kind {
            Kind::ListOffsets | Kind::Setting => self.moved || self.jog_moved,
            Kind::ListModes | Kind::Unlock | Kind::Other => false,
            Kind::ListSettings | Kind::Jog | Kind::BareJog => self.moved && !self.jogged,
        }
    }

    /// Whether a line may be refused with 8.
    #[tactic(auto, using(crate::proofs::Choosing::none_caused))]
    fn is_busy(&self, kept: &[u8]) -> bool
        ensures dollar { result ≡ true → begins_with_dollar kept.now ≡ true }
        ensures kind { result ≡ true → refused_in_run (kind_of kept.now) ≡ true }
        ensures cause { result ≡ true → (p : Point) → Knows self.now p → has_cause p.before (kind_of kept.now) ≡ true }
        ensures no { result ≡ false → begins_with_dollar kept.now ≡ true → (p : Point) → Knows self.now p → has_cause p.before (kind_of kept.now) ≡ false }
    {
        if !is_dollar(kept) {
            return false;
        }
        let kind = Kind::of(kept);
        kind.is_refused_in_run() && self.has_cause(kind)
    }

    /// How the machine is found where this error is told of a line.
    pub(crate) fn machine_for(&self, line: &KeptLine, error: MotionError) -> Machine
        ensures right { (kept : List ℕ) → IsKept line.now kept → FindsRight self.now result kept }
        ensures alone { (kept : List ℕ) → IsKept line.now kept → FindsAlone self.now error result kept }
    {
        if self.locked {
            return Machine::Locked;
        }
        let Some(kept) = line.bytes() else {
            return Machine::Stands;
        };
        match error {
            MotionError::Busy if self.is_busy(kept) => Machine::Runs,
            MotionError::Locked if self.jogged && !is_dollar(kept) => Machine::Jogs,
            _ => Machine::Stands,
        }
    }

    /// How it is found where a line is not answered.
    pub(crate) fn still_machine(&self) -> Machine
        ensures { (kept : List ℕ) → FindsStill self.now result kept }
    {
        if self.locked {
            Machine::Locked
        } else {
            Machine::Stands
        }
    }
}
