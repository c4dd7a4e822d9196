//! The line that is not begun.

ghost use Rattle.std.specs.Prelude.{◌≡◌, ℕ, Bool, true, false, List, [], ◌∷◌, ◌++◌};
ghost use Rattle.run_rules.specs.Locking.{unlocks};
ghost use Rattle.board_lines.specs.Inputs.{Reads};

use line_interpreter::KeptLine;

/// What is kept of the line that is not begun, whether a byte of it came, whether its first one is `$`, and whether it was
/// taken whole.
#[derive(Drop)]
pub struct Input {
    pub kept: KeptLine,
    begun: bool,
    pub dollar: bool,
    pub whole: bool,
}

/// Whether a line is `$X`.
#[tactic(auto, unfolding(system_lines::specs::Commands::kind_of))]
fn is_unlock(line: &[u8]) -> bool
    ensures { result ≡ unlocks line.now }
{
    matches!(line, b"$X")
}

impl Input {
    /// No byte has come.
    pub fn new() -> Input
        ensures { Reads result [] false }
    {
        Input {
            kept: KeptLine::new(),
            begun: false,
            dollar: false,
            whole: false,
        }
    }

    /// One byte more, which is no line feed.
    #[inline]
    pub fn push(&mut self, byte: u8)
        ensures { (bytes : List ℕ) (whole : Bool) → Reads self.old bytes whole → Reads self.new (bytes ++ byte ∷ []) whole }
    {
        if !self.begun {
            self.begun = true;
            self.dollar = byte == b'$';
        }
        self.kept.push(byte);
    }

    /// The line feed has come.
    #[inline]
    pub fn finish(&mut self)
        ensures { (bytes : List ℕ) (whole : Bool) → Reads self.old bytes whole → Reads self.new bytes true }
    {
        self.whole = true;
    }

    /// Whether the line is `$X`, which unlocks a machine that is locked.
    pub fn unlocks(&self) -> bool
        ensures { (bytes : List ℕ) (whole : Bool) → Reads self.now bytes whole → result ≡ unlocks bytes }
    {
        match self.kept.bytes() {
            Some(bytes) => is_unlock(bytes),
            None => false,
        }
    }

    /// The next line begins.
    #[inline]
    pub fn clear(&mut self)
        ensures { Reads self.new [] false }
    {
        self.kept.clear();
        self.begun = false;
        self.dollar = false;
        self.whole = false;
    }
}
