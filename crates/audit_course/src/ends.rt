//! Cuts, resets and the end.

ghost use Rattle.std.specs.Prelude.{◌≡◌, ◌<◌, ◌≤◌, ◌+◌, ◌^◌, ◌↔◌, ◌&&◌, ◌||◌, [], length, not, true, false, IsTrue};
ghost use Rattle.step_line.specs.declared.Mark.TheVariants.{Cut as CutMark};
ghost use Rattle.step_line.specs.declared.Record.TheVariants as kinds;
ghost use Rattle.units.specs.Lengths.{IsPlace, IsCoordinate};
ghost use Rattle.legal_heads.specs.Speeds.{MayStop};
ghost use Rattle.part_making.specs.Judging.{coming_of, head_of};
ghost use Rattle.line_interpreter.specs.Lefts.{greeting};
ghost use Rattle.audit_course.specs.Progressing.{is_whole, has_halt};
ghost use Rattle.audit_course.specs.Here.{CutsNot, ResetsNot};
ghost use Rattle.audit_course.specs.Heard.{CutsPoint, StaysHeard, HearsReset, HearsNoReset, MayTellReset};
ghost use Rattle.audit_course.specs.SoFar.{left_to_tell, opened_at, BeginsPart, AddsRecord, AddsReset, EndsSoFar, RefusesEnd, RefusesRecord, RefusesReset, IsClosed, IsIdle, MayCut, MayReset, MayEnd};

use crate::{CourseJudge, Progress, Ticks};
use part_making::PartJudge;
use units::Steps3;

/// Whether a number of steps is one that an axis may have.
fn is_coordinate(steps: i64) -> bool
    ensures { IsTrue result ↔ IsCoordinate steps }
{
    steps.unsigned_abs() <= 100_000_000
}

/// Whether a place is one that an axis may have on each axis.
fn is_place(place: &Steps3) -> bool
    ensures is { IsTrue result → IsPlace place.now }
    ensures all { IsPlace place.now → IsTrue result }
{
    is_coordinate(place.x) && is_coordinate(place.y) && is_coordinate(place.z)
}

/// Whether the machine is locked behind a reset, with or without its alarm.
fn locks(alarm: bool, was: bool) -> bool
    ensures { result ≡ (alarm || was) }
{
    alarm || was
}

impl CourseJudge {
    /// Whether no record was told of the last line, where that is not answered. A cut drops such a line whole.
    fn is_untouched(&self) -> bool
        ensures is { result ≡ true → self.now.unanswered ≡ true → self.now.touched ≡ false }
        ensures no { result ≡ false → (self.now.unanswered ≡ true → self.now.touched ≡ false) → ⊥ }
    {
        !self.unanswered || !self.touched
    }

    /// Whether the machine is in its range, and one more cut can be counted.
    fn is_in_reach(&self) -> bool
        ensures place { IsTrue result → IsPlace self.now.place }
        ensures few { IsTrue result → self.now.cuts + 1 < 2 ^ 32 }
        ensures no { result ≡ false → IsPlace self.now.place → self.now.cuts + 1 < 2 ^ 32 → ⊥ }
    {
        self.cuts < u32::MAX && is_place(&self.place)
    }

    /// Whether the part has a line, this is its last, and no tick is lost but of jogs.
    fn ends_jogs(&self, k: u32) -> bool
        ensures number { IsTrue result → self.now.work.number ≡ k + 1 }
        ensures has_line { IsTrue result → self.now.has_line ≡ true }
        ensures code { IsTrue result → is_whole self.now.code ≡ true }
        ensures no { result ≡ false → self.now.work.number ≡ k + 1 → self.now.has_line ≡ true → is_whole self.now.code ≡ true → ⊥ }
    {
        u64::from(self.work.number()) == u64::from(k) + 1 && self.has_line && self.code.is_whole()
    }

    /// Whether the machine can stop behind the last line, which has raised no alarm; if it is not answered, no record is of it.
    fn may_rest(&self) -> bool
        ensures out { IsTrue result → coming_of self.now.part.latest ≡ [] }
        ensures may { IsTrue result → MayStop (head_of self.now.part.latest) }
        ensures untouched { IsTrue result → self.now.unanswered ≡ true → self.now.touched ≡ false }
        ensures calm { IsTrue result → (not self.now.unanswered && self.now.line.halts) ≡ false }
        ensures no { result ≡ false → (self.now.unanswered ≡ true → self.now.touched ≡ false) → (not self.now.unanswered && self.now.line.halts) ≡ false → coming_of self.now.part.latest ≡ [] → MayStop (head_of self.now.part.latest) → ⊥ }
    {
        self.part.may_stop() && self.is_untouched() && !self.has_alarm()
    }

    /// Whether a part may be cut behind this line.
    fn may_cut(&self, k: u32) -> bool
        requires { IsClosed self.now }
        ensures yes { IsTrue result → MayCut self.now k }
        ensures place { IsTrue result → IsPlace self.now.place }
        ensures few { IsTrue result → self.now.cuts + 1 < 2 ^ 32 }
        ensures no { result ≡ false → IsPlace self.now.place → self.now.cuts + 1 < 2 ^ 32 → MayCut self.now k → ⊥ }
    {
        self.is_in_reach() && self.ends_jogs(k) && self.may_rest()
    }

    /// The part is cut, where the machine is.
    fn make_cut(&mut self, k: u32)
        requires may { MayCut self.old k }
        requires place { IsPlace self.old.place }
        requires few { self.old.cuts + 1 < 2 ^ 32 }
        ensures adds { AddsRecord self.old self.new (kinds.Mark (CutMark k)) }
        ensures point { CutsPoint self.old self.new }
        ensures work { self.new.work.left ≡ self.old.work.left }
        ensures number { self.new.work.number ≡ self.old.work.number }
        ensures unanswered { self.new.unanswered ≡ self.old.unanswered }
        ensures halts { self.new.line.halts ≡ self.old.line.halts }
        ensures begins { BeginsPart self.new }
        ensures no_line { self.new.has_line ≡ false }
    {
        self.work.rebase(self.place);
        self.state = self.state.rebased(self.place);
        self.part = PartJudge::new();
        self.cuts += 1;
        self.has_line = false;
        self.lost = false;
        self.answered = Ticks::Whole;
        self.code = Ticks::Whole;
        self.settled = Ticks::Whole;
    }

    /// The mark of a cut comes, behind this line: whether it may. The line may stay without its answer. If it may not, though the
    /// last line is done, the part may not be cut there behind this line; and if that is no later one, no texts fit that have this
    /// mark next. The machine is in its range, and one more cut can be counted.
    pub fn cut(&mut self, k: u32) -> bool
        ensures here { result ≡ false → self.old.work.left ≡ [] → IsPlace self.old.place → self.old.cuts + 1 < 2 ^ 32 → CutsNot self.old k }
        ensures no { result ≡ false → self.old.work.left ≡ [] → k + 1 ≤ self.old.work.number → IsPlace self.old.place → self.old.cuts + 1 < 2 ^ 32 → RefusesRecord self.old (kinds.Mark (CutMark k)) }
        ensures yes { IsTrue result → AddsRecord self.old self.new (kinds.Mark (CutMark k)) }
        ensures point { IsTrue result → CutsPoint self.old self.new }
        ensures heard { result ≡ false → StaysHeard self.old self.new }
        ensures work { self.new.work.left ≡ self.old.work.left }
        ensures number { self.new.work.number ≡ self.old.work.number }
        ensures done { IsTrue result → self.new.work.left ≡ [] }
        ensures unanswered { IsTrue result → self.new.unanswered ≡ self.old.unanswered }
        ensures halts { self.new.line.halts ≡ self.old.line.halts }
        ensures begins { IsTrue result → BeginsPart self.new }
        ensures no_line { IsTrue result → self.new.has_line ≡ false }
    {
        if !self.work.is_done() {
            return false;
        }
        self.close();
        if !self.may_cut(k) {
            return false;
        }
        self.make_cut(k);
        true
    }

    /// Whether so many lines can be counted besides.
    fn can_count(&self, dropped: u32) -> bool
        ensures few { IsTrue result → self.now.work.number + dropped < 2 ^ 32 }
        ensures no { result ≡ false → self.now.work.number + dropped < 2 ^ 32 → ⊥ }
    {
        u64::from(self.work.number()) + u64::from(dropped) <= u64::from(u32::MAX)
    }

    /// Whether the machine is in its range, and so many lines can be counted besides.
    fn can_drop(&self, dropped: u32) -> bool
        ensures place { IsTrue result → IsPlace self.now.place }
        ensures few { IsTrue result → self.now.work.number + dropped < 2 ^ 32 }
        ensures no { result ≡ false → IsPlace self.now.place → self.now.work.number + dropped < 2 ^ 32 → ⊥ }
    {
        self.can_count(dropped) && is_place(&self.place)
    }

    /// Whether a reset may have its alarm, if it has one: something has moved.
    fn has_moved_for(&self, alarm: bool) -> bool
        ensures yes { IsTrue result → alarm ≡ true → (self.now.moved || self.now.jog_moved) ≡ true }
        ensures no { result ≡ false → (alarm ≡ true → (self.now.moved || self.now.jog_moved) ≡ true) → ⊥ }
    {
        !alarm || self.moved || self.jog_moved
    }

    /// Whether a reset may end the part behind this line, with or without its alarm, and drop so many lines.
    fn may_reset(&self, k: u32, dropped: u32, alarm: bool) -> bool
        requires { IsClosed self.now }
        ensures yes { IsTrue result → MayReset self.now k alarm }
        ensures place { IsTrue result → IsPlace self.now.place }
        ensures few { IsTrue result → self.now.work.number + dropped < 2 ^ 32 }
        ensures no { result ≡ false → IsPlace self.now.place → self.now.work.number + dropped < 2 ^ 32 → MayReset self.now k alarm → ⊥ }
    {
        self.can_drop(dropped)
            && !self.has_alarm()
            && u64::from(self.work.number()) == u64::from(k) + 1
            && self.settled.is_whole()
            && self.has_moved_for(alarm)
    }

    /// A reset opens an epoch at a place, and drops so many lines.
    fn open_epoch(&mut self, at: Steps3, dropped: u32, alarm: bool)
        requires place { IsPlace at }
        requires few { self.old.work.number + dropped < 2 ^ 32 }
        ensures opens { self.new ≡ opened_at at dropped alarm self.old }
        ensures greets { left_to_tell self.new ≡ greeting alarm (alarm || self.old.locked) }
        ensures short { length self.new.work.left ≤ 3 }
        ensures answered { self.new.unanswered ≡ false }
        ensures calm { self.new.line.halts ≡ false }
        ensures number { self.new.work.number ≡ self.old.work.number + dropped }
        ensures begins { self.old.in_hand ≡ false → BeginsPart self.new }
        ensures no_line { self.new.has_line ≡ false }
        ensures quiet { has_halt self.new.work.left ≡ false }
    {
        let locked = locks(alarm, self.locked);
        let state = self.state.anew(at);
        self.work
            .open_behind(self.state.state(), at, dropped, alarm, locked);
        self.state = state;
        self.part = PartJudge::new();
        self.locked = locked;
        self.has_line = false;
        self.unanswered = false;
        self.lost = false;
        self.answered = Ticks::Whole;
        self.code = Ticks::Whole;
        self.settled = Ticks::Whole;
        self.moved = false;
        self.jog_moved = false;
        self.jogged = false;
        self.line = Progress::fresh(false);
    }

    /// A reset comes of the job, which drops so many lines that are not begun, and its mark, behind this line: whether it
    /// may. Then what is told at it is to be told, with or without the alarm. If it may not, though the last line is done, no such
    /// reset may end the part there; and if this is the last line, no texts fit that have this reset next. The machine is in its
    /// range, and the lines can be counted.
    pub fn reset(&mut self, k: u32, dropped: u32, alarm: bool) -> bool
        ensures yes { IsTrue result → AddsReset self.old self.new k dropped }
        ensures heard { result ≡ false → StaysHeard self.old self.new }
        ensures greets { IsTrue result → left_to_tell self.new ≡ greeting alarm (alarm || self.old.locked) }
        ensures short { IsTrue result → length self.new.work.left ≤ 3 }
        ensures answered { IsTrue result → self.new.unanswered ≡ false }
        ensures calm { IsTrue result → self.new.line.halts ≡ false }
        ensures number { IsTrue result → self.new.work.number ≡ self.old.work.number + dropped }
        ensures work { result ≡ false → self.new.work ≡ self.old.work }
        ensures unanswered { result ≡ false → self.new.unanswered ≡ self.old.unanswered }
        ensures halts { result ≡ false → self.new.line.halts ≡ self.old.line.halts }
        ensures begins { IsTrue result → BeginsPart self.new }
        ensures no_line { IsTrue result → self.new.has_line ≡ false }
        ensures quiet { IsTrue result → has_halt self.new.work.left ≡ false }
        ensures here { result ≡ false → self.old.work.left ≡ [] → IsPlace self.old.place → self.old.work.number + dropped < 2 ^ 32 → ResetsNot self.old k dropped alarm }
        ensures no { result ≡ false → self.old.work.left ≡ [] → self.old.work.number ≡ k + 1 → IsPlace self.old.place → self.old.work.number + dropped < 2 ^ 32 → RefusesReset self.old k dropped alarm }
    {
        if !self.work.is_done() {
            return false;
        }
        self.close();
        if !self.may_reset(k, dropped, alarm) {
            return false;
        }
        let place = self.place;
        self.open_epoch(place, dropped, alarm);
        true
    }

    /// Whether a reset that is not recorded may come, with or without its alarm, and drop so many lines.
    fn may_tell_reset(&self, dropped: u32, alarm: bool) -> bool
        requires { IsClosed self.now }
        ensures yes { IsTrue result → MayTellReset self.now alarm }
        ensures few { IsTrue result → self.now.work.number + dropped < 2 ^ 32 }
        ensures no { result ≡ false → self.now.work.number + dropped < 2 ^ 32 → MayTellReset self.now alarm → ⊥ }
    {
        self.can_count(dropped) && !self.has_alarm() && self.has_moved_for(alarm)
    }

    /// A reset comes of the job that is not recorded, and drops so many lines that are not begun: whether it may. Then what is
    /// told at it is to be told, with or without the alarm, and the machine stays where the lines have led. If it may not, though
    /// the last line is done and the dropped lines can be counted, no reset may be told here. Call it behind a record that breaks
    /// a rule: no record counts behind it any more.
    pub fn reset_unrecorded(&mut self, dropped: u32, alarm: bool) -> bool
        ensures heard { IsTrue result → HearsReset self.old self.new dropped }
        ensures greets { IsTrue result → left_to_tell self.new ≡ greeting alarm (alarm || self.old.locked) }
        ensures short { IsTrue result → length self.new.work.left ≤ 3 }
        ensures answered { IsTrue result → self.new.unanswered ≡ false }
        ensures calm { IsTrue result → self.new.line.halts ≡ false }
        ensures number { IsTrue result → self.new.work.number ≡ self.old.work.number + dropped }
        ensures work { result ≡ false → self.new.work ≡ self.old.work }
        ensures unanswered { result ≡ false → self.new.unanswered ≡ self.old.unanswered }
        ensures halts { result ≡ false → self.new.line.halts ≡ self.old.line.halts }
        ensures quiet { IsTrue result → has_halt self.new.work.left ≡ false }
        ensures no { result ≡ false → self.old.work.left ≡ [] → self.old.work.number + dropped < 2 ^ 32 → HearsNoReset self.old alarm }
    {
        if !self.work.is_done() {
            return false;
        }
        self.close();
        if !self.may_tell_reset(dropped, alarm) {
            return false;
        }
        let at = self.state.state().parser.pos_steps;
        self.open_epoch(at, dropped, alarm);
        true
    }

    /// Whether the machine is locked.
    pub fn is_locked(&self) -> bool
        ensures { result ≡ self.now.locked }
    {
        self.locked
    }

    /// Whether the end may come.
    fn may_end(&self) -> bool
        requires { IsClosed self.now }
        ensures yes { IsTrue result → MayEnd self.now }
        ensures no { result ≡ false → MayEnd self.now → ⊥ }
    {
        !self.unanswered
            && self.part.may_stop()
            && self.settled.is_whole()
            && (self.line.halts || self.is_idle())
    }

    /// The end comes: whether it may. If not, and the last line is done and answered, no texts fit that end here.
    pub fn end(&mut self) -> bool
        ensures yes { IsTrue result → EndsSoFar self.old self.new }
        ensures heard { StaysHeard self.old self.new }
        ensures number { self.new.work.number ≡ self.old.work.number }
        ensures left { self.new.work.left ≡ self.old.work.left }
        ensures cuts { self.new.cuts ≡ self.old.cuts }
        ensures unanswered { self.new.unanswered ≡ self.old.unanswered }
        ensures halts { self.new.line.halts ≡ self.old.line.halts }
        ensures no { result ≡ false → self.old.work.left ≡ [] → self.old.unanswered ≡ false → RefusesEnd self.old }
    {
        if !self.work.is_done() {
            return false;
        }
        self.close();
        self.may_end()
    }

    /// How many events were taken.
    pub fn events(&self) -> u64
        ensures { result ≡ self.now.events }
    {
        self.events
    }

    /// How many cuts were taken.
    pub fn cuts(&self) -> u32
        ensures { result ≡ self.now.cuts }
    {
        self.cuts
    }

    /// Whether a line has raised the alarm of a soft limit. One that is not answered has not.
    pub fn has_alarm(&self) -> bool
        ensures { result ≡ (not self.now.unanswered && self.now.line.halts) }
    {
        !self.unanswered && self.line.halts
    }

    /// Whether a line has halted the machine, or would have if it had been answered.
    pub fn is_halted(&self) -> bool
        ensures { result ≡ self.now.line.halts }
    {
        self.line.halts
    }
}
