//! Lines that are begun.

ghost use Rattle.std.specs.Prelude.{◌≡◌, ◌<◌, ◌≤◌, ◌+◌, ◌^◌, ◌∷◌, ◌&&◌, ◌||◌, not, [], true, false, List, length, ℕ, IsTrue};
ghost use Rattle.run_rules.specs.Outcomes.{jogged_behind};
ghost use Rattle.run_rules.specs.Work.{accepted_code, accepted_jog};
ghost use Rattle.run_texts.specs.Sent.Sent.{a_text};
ghost use Rattle.line_interpreter.specs.Desks.{kind_told};
ghost use Rattle.line_interpreter.specs.Keeping.{IsKept};
ghost use Rattle.audit_course.specs.Progressing.{moved_now, fresh};
ghost use Rattle.audit_course.specs.Here.{StandsAsBefore};
ghost use Rattle.audit_course.specs.SoFar.{has_moved, StaysSoFar, AreNow, AddsSent, RefusesLine, MayBegin, IsIdle, FindsRight, FindsStill, TellsAlone, HasWorkOf};
ghost use Rattle.audit_course.specs.Heard.{KeepsPoint, StaysHeard, HearsSent, TellsFound, HearsAlone, HearsLine, HearsNoLine};

use crate::machines::unlocks;
use crate::valid::ValidState;
use crate::{CourseJudge, MotionError, Progress, Ticks};
use line_interpreter::{Accepted, KeptLine};
use run_rules::Machine;

/// Whether the last that was accepted of G-code and jogs is a jog.
fn jogged_behind(accepted: Accepted, was: bool) -> bool
    ensures { result ≡ jogged_behind (kind_told accepted) was }
{
    match accepted {
        Accepted::Code => false,
        Accepted::Jog => true,
        Accepted::Neither => was,
    }
}

/// Whether the machine is locked behind a line.
fn still_locked(was: bool, unlocked: bool) -> bool
    ensures { result ≡ (was && not unlocked) }
{
    was && !unlocked
}

impl Progress {
    /// Whether it is a line of G-code.
    fn is_code(&self) -> bool
        ensures { result ≡ accepted_code (kind_told self.now.accepted) }
    {
        matches!(self.accepted, Accepted::Code)
    }

    /// Whether it is a jog.
    fn is_jog(&self) -> bool
        ensures { result ≡ accepted_jog (kind_told self.now.accepted) }
    {
        matches!(self.accepted, Accepted::Jog)
    }

    /// Whether it asks for ticks and is no jog.
    fn asks_for_code(&self) -> bool
        ensures { result ≡ (not (accepted_jog (kind_told self.now.accepted)) && self.now.asks) }
    {
        !self.is_jog() && self.asks
    }

    /// Whether lines of G-code have moved, or jogs have, up to it, since an answered line settled.
    fn moved_now(&self, of_kind: bool, before: bool) -> bool
        ensures { result ≡ moved_now of_kind self.now before }
    {
        !self.settles && (of_kind && self.moves || before)
    }

    /// No line is at hand, whether or not the machine was halted.
    pub(crate) fn fresh(halts: bool) -> Progress
        ensures { result ≡ fresh halts }
    {
        Progress {
            accepted: Accepted::Neither,
            moves: false,
            asks: false,
            settles: false,
            halts,
        }
    }
}

impl CourseJudge {
    /// Whether nothing is owed of the part, where all of the line at hand is done.
    pub(crate) fn is_idle(&self) -> bool
        requires { self.now.work.left ≡ [] }
        ensures idle { result ≡ true → IsIdle self.now }
        ensures owes { result ≡ false → IsIdle self.now → ⊥ }
    {
        !self.lost && !self.unanswered && self.part.is_idle()
    }

    /// How the ticks of all lines stand, where all of the line at hand is done.
    fn ticks_now(&self) -> Ticks
        ensures { AreNow result self.now }
    {
        if self.lost {
            return Ticks::Lost;
        }
        if self.owes() {
            return Ticks::Owed;
        }
        Ticks::Whole
    }

    /// Whether a line is at hand that is answered.
    fn has_answered(&self) -> bool
        ensures { result ≡ (self.now.in_hand && not self.now.unanswered) }
    {
        self.in_hand && !self.unanswered
    }

    /// The line at hand is over.
    pub(crate) fn close(&mut self)
        requires { self.old.work.left ≡ [] }
        ensures stays { StaysSoFar self.old self.new }
        ensures stands { StandsAsBefore self.old self.new }
        ensures point { KeepsPoint self.old self.new }
        ensures heard { StaysHeard self.old self.new }
        ensures closed { self.new.in_hand ≡ false }
        ensures work { self.new.work ≡ self.old.work }
        ensures unanswered { self.new.unanswered ≡ self.old.unanswered }
        ensures place { self.new.place ≡ self.old.place }
        ensures cuts { self.new.cuts ≡ self.old.cuts }
        ensures locked { self.new.locked ≡ self.old.locked }
        ensures lost { self.new.lost ≡ self.old.lost }
        ensures halts { self.new.line.halts ≡ self.old.line.halts }
    {
        let line = self.line;
        let here = self.has_answered();
        let now = self.ticks_now();
        self.answered = self.answered.behind_line(here, true, now);
        self.code = self.code.behind_line(here, line.asks_for_code(), now);
        self.settled = self.settled.behind_line(here, line.settles, now);
        self.moved = line.moved_now(line.is_code(), self.moved);
        self.jog_moved = line.moved_now(line.is_jog(), self.jog_moved);
        self.in_hand = false;
        self.line = Progress::fresh(line.halts);
    }

    /// Whether a line may be begun: all of the last one is done, and it is answered and has raised no alarm.
    pub fn may_begin(&self) -> bool
        ensures done { IsTrue result → self.now.work.left ≡ [] }
        ensures answered { IsTrue result → self.now.unanswered ≡ false }
        ensures calm { IsTrue result → self.now.line.halts ≡ false }
        ensures few { IsTrue result → self.now.work.number + 1 < 2 ^ 32 }
        ensures no { result ≡ false → self.now.work.left ≡ [] → self.now.work.number + 1 < 2 ^ 32 → self.now.unanswered ≡ false → self.now.line.halts ≡ true }
    {
        self.work.is_done() && !self.unanswered && !self.line.halts && self.work.number() < u32::MAX
    }

    /// A line is begun where the machine is found so.
    fn answer_line(&mut self, line: &KeptLine, machine: Machine)
        requires may { MayBegin self.old }
        requires few { self.old.work.number + 1 < 2 ^ 32 }
        requires found { (kept : List ℕ) → IsKept line.now kept → FindsRight self.old machine kept }
        ensures adds { (kept : List ℕ) → IsKept line.now kept → AddsSent self.old self.new (a_text kept ∷ []) }
        ensures heard { (kept : List ℕ) → IsKept line.now kept → HearsSent self.old self.new (a_text kept ∷ []) }
        ensures tells { (kept : List ℕ) → IsKept line.now kept → TellsFound self.old self.new machine kept }
        ensures work { (kept : List ℕ) → IsKept line.now kept → HasWorkOf self.old self.new true kept }
        ensures short { (kept : List ℕ) → IsKept line.now kept → length self.new.work.left ≤ 64 }
        ensures number { self.new.work.number ≡ self.old.work.number + 1 }
        ensures unanswered { self.new.unanswered ≡ self.old.unanswered }
        ensures in_hand { self.new.in_hand ≡ true }
        ensures lost { self.new.lost ≡ self.old.lost }
    {
        let unlocked = unlocks(line);
        let judged = self.work.judge_settling(line, machine);
        self.state = ValidState::of(self.work.state());
        self.locked = still_locked(self.locked, unlocked);
        self.jogged = jogged_behind(judged.accepted, self.jogged);
        self.has_line = true;
        self.in_hand = true;
        self.line = Progress::begin(judged.accepted, judged.settles);
    }

    /// A line is begun, of which the console tells this error, if any: whether it may be. Then it is the line at hand, and texts
    /// that tell first of it a reply that fits the error tell all that is left to tell of it. If it may not, though the last line
    /// is done and one more can be counted, no line may be begun here.
    #[tactic(auto, using(crate::proofs::Refused::none_begins, crate::proofs::Heard::none_heard))]
    pub fn begin(&mut self, line: &KeptLine, error: MotionError) -> bool
        ensures no { result ≡ false → self.old.work.left ≡ [] → self.old.work.number + 1 < 2 ^ 32 → RefusesLine self.old }
        ensures unheard { result ≡ false → self.old.work.left ≡ [] → self.old.work.number + 1 < 2 ^ 32 → HearsNoLine self.old }
        ensures halted { result ≡ false → self.old.work.left ≡ [] → self.old.work.number + 1 < 2 ^ 32 → self.old.unanswered ≡ false → self.old.line.halts ≡ true }
        ensures yes { IsTrue result → (kept : List ℕ) → IsKept line.now kept → AddsSent self.old self.new (a_text kept ∷ []) }
        ensures heard { IsTrue result → (kept : List ℕ) → IsKept line.now kept → HearsSent self.old self.new (a_text kept ∷ []) }
        ensures alone { IsTrue result → (kept : List ℕ) → IsKept line.now kept → TellsAlone self.old self.new error kept }
        ensures heard_alone { IsTrue result → (kept : List ℕ) → IsKept line.now kept → HearsAlone self.old self.new error kept }
        ensures hears_line { IsTrue result → (kept : List ℕ) → IsKept line.now kept → HearsLine self.old self.new error kept }
        ensures work { IsTrue result → (kept : List ℕ) → IsKept line.now kept → HasWorkOf self.old self.new true kept }
        ensures short { IsTrue result → (kept : List ℕ) → IsKept line.now kept → length self.new.work.left ≤ 64 }
        ensures number { IsTrue result → self.new.work.number ≡ self.old.work.number + 1 }
        ensures unanswered { IsTrue result → self.new.unanswered ≡ false }
        ensures in_hand { IsTrue result → self.new.in_hand ≡ true }
        ensures lost { IsTrue result → self.new.lost ≡ self.old.lost }
    {
        if !self.may_begin() {
            return false;
        }
        self.close();
        let machine = self.machine_for(line, error);
        self.answer_line(line, machine);
        true
    }

    /// A line that is not answered is begun where the machine is found so.
    fn break_line(&mut self, line: &KeptLine, machine: Machine)
        requires may { MayBegin self.old }
        requires few { self.old.work.number + 1 < 2 ^ 32 }
        requires found { (kept : List ℕ) → IsKept line.now kept → FindsStill self.old machine kept }
        ensures adds { (kept : List ℕ) → IsKept line.now kept → AddsSent self.old self.new (a_text kept ∷ []) }
        ensures heard { (kept : List ℕ) → IsKept line.now kept → HearsSent self.old self.new (a_text kept ∷ []) }
        ensures work { (kept : List ℕ) → IsKept line.now kept → HasWorkOf self.old self.new false kept }
        ensures short { (kept : List ℕ) → IsKept line.now kept → length self.new.work.left ≤ 64 }
        ensures number { self.new.work.number ≡ self.old.work.number + 1 }
        ensures unanswered { self.new.unanswered ≡ true }
        ensures lost { self.new.lost ≡ self.old.lost }
    {
        let _ = self.work.judge(line, machine);
        self.has_line = true;
        self.unanswered = true;
        self.touched = false;
        self.in_hand = true;
        self.line = Progress::begin(Accepted::Code, false);
    }

    /// A line is begun that a reset keeps from its answer: whether it may be. Then it is the line at hand, and the next
    /// that may come is a reset, or a cut that drops it whole. If it may not, though the last line is done and one more can be
    /// counted, no line may be begun here.
    #[tactic(auto, using(crate::proofs::Refused::none_begins, crate::proofs::Heard::none_heard))]
    pub fn begin_unanswered(&mut self, line: &KeptLine) -> bool
        ensures no { result ≡ false → self.old.work.left ≡ [] → self.old.work.number + 1 < 2 ^ 32 → RefusesLine self.old }
        ensures unheard { result ≡ false → self.old.work.left ≡ [] → self.old.work.number + 1 < 2 ^ 32 → HearsNoLine self.old }
        ensures halted { result ≡ false → self.old.work.left ≡ [] → self.old.work.number + 1 < 2 ^ 32 → self.old.unanswered ≡ false → self.old.line.halts ≡ true }
        ensures same { result ≡ false → self.new ≡ self.old }
        ensures yes { IsTrue result → (kept : List ℕ) → IsKept line.now kept → AddsSent self.old self.new (a_text kept ∷ []) }
        ensures heard { IsTrue result → (kept : List ℕ) → IsKept line.now kept → HearsSent self.old self.new (a_text kept ∷ []) }
        ensures work { IsTrue result → (kept : List ℕ) → IsKept line.now kept → HasWorkOf self.old self.new false kept }
        ensures short { IsTrue result → (kept : List ℕ) → IsKept line.now kept → length self.new.work.left ≤ 64 }
        ensures number { IsTrue result → self.new.work.number ≡ self.old.work.number + 1 }
        ensures unanswered { IsTrue result → self.new.unanswered ≡ true }
        ensures lost { IsTrue result → self.new.lost ≡ self.old.lost }
    {
        if !self.may_begin() {
            return false;
        }
        self.close();
        let machine = self.still_machine();
        self.break_line(line, machine);
        true
    }

    /// Whether lines have moved up to the last one, since an answered line settled: then the alarm of a reset has a cause.
    pub fn has_moved(&self) -> bool
        ensures { result ≡ has_moved self.now }
    {
        let line = self.line;
        let code = line.moved_now(line.is_code(), self.moved);
        let jogs = line.moved_now(line.is_jog(), self.jog_moved);
        code || jogs
    }

    /// Whether the last line is not answered.
    pub fn is_unanswered(&self) -> bool
        ensures { result ≡ self.now.unanswered }
    {
        self.unanswered
    }

    /// The number of the next line.
    pub fn number(&self) -> u32
        ensures { result ≡ self.now.work.number }
    {
        self.work.number()
    }
}
