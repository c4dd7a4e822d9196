//! How the machine is found when a line is begun.

ghost use Rattle.std.specs.Prelude.{◌≡◌};
ghost use Rattle.run_rules.specs.Finding.{refuses, locks, is_unlocked_by};

use system_lines::Kind;

/// What the machine does when a line is begun.
#[derive(Clone, Copy, Debug, PartialEq, Eq)]
pub enum Machine {
    /// It stands.
    Stands,
    /// It runs lines of G-code.
    Runs,
    /// It jogs.
    Jogs,
    /// It is locked.
    Locked,
}

impl Machine {
    /// Whether a line of this kind that begins with `$` is refused with 8.
    pub fn refuses(self, kind: Kind) -> bool
        ensures { result ≡ refuses self kind }
    {
        match self {
            Machine::Stands => false,
            Machine::Runs => kind.is_refused_in_run(),
            Machine::Jogs => kind.is_refused_in_jog(),
            Machine::Locked => matches!(kind, Kind::Jog | Kind::BareJog),
        }
    }

    /// Whether a line of this kind that begins with `$` unlocks it.
    pub fn is_unlocked_by(self, kind: Kind) -> bool
        ensures { result ≡ is_unlocked_by self kind }
    {
        self == Machine::Locked && kind == Kind::Unlock
    }

    /// Whether a line of G-code is refused with 9.
    pub fn locks(self) -> bool
        ensures { result ≡ locks self }
    {
        matches!(self, Machine::Jogs | Machine::Locked)
    }
}
