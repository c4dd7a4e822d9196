//! Whether the last line that was accepted is a jog.

ghost use Rattle.std.specs.Prelude.{◌≡◌};
ghost use Rattle.run_rules.specs.Outcomes.{jogged_behind};
ghost use Rattle.line_interpreter.specs.Desks.{kind_told};

use line_interpreter::Accepted;

/// Whether the last that was accepted of G-code and jogs is a jog, behind a line of which this is accepted.
pub fn jogs_behind(accepted: Accepted, was: bool) -> bool
    ensures { result ≡ jogged_behind (kind_told accepted) was }
{
    match accepted {
        Accepted::Code => false,
        Accepted::Jog => true,
        Accepted::Neither => was,
    }
}
