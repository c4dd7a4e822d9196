//! The tasks of the line at hand that tell nothing, and the records that come for them.

ghost use Rattle.std.specs.Prelude.{◌≡◌, ◌≢◌, ◌↔◌, ◌+◌, ◌+ℤ◌, ◌≤◌, ◌<◌, ◌^◌, ◌||◌, ◌∷◌, [], true, false, None, IsTrue, IfSome, length, drop};
ghost use Rattle.status_report.specs.declared.Reply.{Reply as AnyReply};
ghost use Rattle.run_rules.specs.Work.{Task};
ghost use Rattle.run_rules.specs.Work.Task.{tell};
ghost use Rattle.flight.specs.Places.{moved_by};
ghost use Rattle.legal_heads.specs.Whole.{events_among};
ghost use Rattle.line_interpreter.specs.Lefts.{IsNextOf, IsTodo};
ghost use Rattle.part_making.specs.Judging.{IsItem, owed_of};
ghost use Rattle.units.specs.Lengths.{IsCoordinate, IsPlace};
ghost use Rattle.step_line.specs.declared.Record.TheVariants as kinds;
ghost use Rattle.step_line.specs.Places.{stepped};
ghost use Rattle.run_texts.specs.Parts.{is_ending};
ghost use Rattle.audit_course.specs.Progressing.{IsUnseen, IsItemOf, has_halt};
ghost use Rattle.audit_course.specs.Here.{MakesNot};
ghost use Rattle.audit_course.specs.SoFar.{StaysSoFar, SameLine, AddsRecord, RefusesRecord, left_to_tell};
ghost use Rattle.audit_course.specs.Heard.{StaysHeard};

use crate::CourseJudge;
use crate::judge::counted;
use line_interpreter::Todo;
use part_making::Item;
use step_line::{Bits, Mark, Record};
use units::Steps3;

/// Whether a mark ends a part.
fn is_ending(mark: &Mark) -> bool
    ensures { result ≡ is_ending (kinds.Mark mark.now) }
{
    matches!(mark, Mark::Cut(_) | Mark::Reset(_))
}

/// A coordinate, one event further, if it is in range.
fn moved_on(steps: i64, step: i8) -> Option<i64>
    ensures is { IfSome result (λ n. n ≡ steps +ℤ step) }
    ensures some { IsCoordinate steps → result ≢ None }
{
    steps.checked_add(i64::from(step))
}

/// A place, one event further, if it is in range.
fn stepped(place: &Steps3, bits: &Bits) -> Option<Steps3>
    ensures is { IfSome result (λ p. p ≡ stepped place.now bits.now) }
    ensures some { IsPlace place.now → result ≢ None }
{
    let x = moved_on(place.x, bits.x)?;
    let y = moved_on(place.y, bits.y)?;
    let z = moved_on(place.z, bits.z)?;
    Some(Steps3 { x, y, z })
}

/// Where a record leaves the machine.
fn place_behind(place: &Steps3, given: &Record) -> Option<Steps3>
    ensures is { IfSome result (λ p. p ≡ moved_by place.now (given.now ∷ [])) }
    ensures some { IsPlace place.now → result ≢ None }
{
    match given {
        Record::Event(bits) => stepped(place, bits),
        _ => Some(*place),
    }
}

/// How many events a record is.
fn event_count(given: &Record) -> u64
    ensures is { result ≡ length (events_among (given.now ∷ [])) }
    ensures few { result ≤ 1 }
{
    match given {
        Record::Event(_) => 1,
        _ => 0,
    }
}

/// Whether a record was told of a line without its answer: one is, where the answered lines have all of theirs.
fn touches(was: bool, whole: bool) -> bool
    ensures { result ≡ (was || whole) }
{
    was || whole
}

impl CourseJudge {
    /// One task less, which tells nothing and asks for no ticks.
    fn pass(&mut self, todo: Todo)
        requires todo { IsTodo todo self.old.work.left }
        requires some { self.old.work.left ≢ [] }
        requires quiet { (t : Task) → IsNextOf t self.old.work.left → IsUnseen self.old.unanswered t }
        ensures stays { StaysSoFar self.old self.new }
        ensures heard { StaysHeard self.old self.new }
        ensures lost { self.new.lost ≡ self.old.lost }
        ensures work { self.new.work.left ≡ drop 1 self.old.work.left }
        ensures number { self.new.work.number ≡ self.old.work.number }
        ensures unanswered { self.new.unanswered ≡ self.old.unanswered }
        ensures in_hand { self.new.in_hand ≡ self.old.in_hand }
        ensures halts { has_halt self.old.work.left ≡ false → self.new.line.halts ≡ self.old.line.halts }
        ensures halting { (self.new.line.halts || has_halt self.new.work.left) ≡ (self.old.line.halts || has_halt self.old.work.left) }
        ensures has_line { self.new.has_line ≡ self.old.has_line }
    {
        self.line = counted(self.line, todo);
        self.work.done();
    }

    /// One task less, which asks for an item. Where something is owed of what was asked for, this one is lost: it is not recorded
    /// before the part ends.
    fn ask(&mut self, todo: Todo, item: Item)
        requires todo { IsTodo todo self.old.work.left }
        requires some { self.old.work.left ≢ [] }
        requires item { IsItem item }
        requires of { (t : Task) → IsNextOf t self.old.work.left → IsItemOf t item }
        ensures stays { StaysSoFar self.old self.new }
        ensures heard { StaysHeard self.old self.new }
        ensures lost { self.new.lost ≡ true → self.old.lost ≡ false → owed_of self.old.part ≢ [] }
        ensures work { self.new.work.left ≡ drop 1 self.old.work.left }
        ensures number { self.new.work.number ≡ self.old.work.number }
        ensures unanswered { self.new.unanswered ≡ self.old.unanswered }
        ensures in_hand { self.new.in_hand ≡ self.old.in_hand }
        ensures halts { has_halt self.old.work.left ≡ false → self.new.line.halts ≡ self.old.line.halts }
        ensures halting { (self.new.line.halts || has_halt self.new.work.left) ≡ (self.old.line.halts || has_halt self.old.work.left) }
        ensures has_line { self.new.has_line ≡ self.old.has_line }
    {
        self.line = counted(self.line, todo);
        self.work.done();
        if self.lost || self.owes() {
            self.lost = true;
            return;
        }
        self.part.ask(item);
    }

    /// The next move is asked for.
    #[tactic(auto, using(crate::proofs::Passing::move_item))]
    fn ask_move(&mut self)
        requires { IsTodo Todo.Move self.old.work.left }
        ensures stays { StaysSoFar self.old self.new }
        ensures heard { StaysHeard self.old self.new }
        ensures lost { self.new.lost ≡ true → self.old.lost ≡ false → owed_of self.old.part ≢ [] }
        ensures work { self.new.work.left ≡ drop 1 self.old.work.left }
        ensures number { self.new.work.number ≡ self.old.work.number }
        ensures unanswered { self.new.unanswered ≡ self.old.unanswered }
        ensures in_hand { self.new.in_hand ≡ self.old.in_hand }
        ensures halts { has_halt self.old.work.left ≡ false → self.new.line.halts ≡ self.old.line.halts }
        ensures halting { (self.new.line.halts || has_halt self.new.work.left) ≡ (self.old.line.halts || has_halt self.old.work.left) }
        ensures has_line { self.new.has_line ≡ self.old.has_line }
    {
        let planned = self.work.planned_move();
        self.ask(Todo::Move, Item::Move(planned));
    }

    /// The next mark is asked for. No line asks for one that ends a part.
    #[tactic(auto, using(crate::proofs::Passing::mark_item, crate::proofs::Passing::ends_no_part))]
    fn ask_mark(&mut self, mark: Mark)
        requires { IsTodo (Todo.Mark mark) self.old.work.left }
        ensures stays { StaysSoFar self.old self.new }
        ensures heard { StaysHeard self.old self.new }
        ensures lost { self.new.lost ≡ true → self.old.lost ≡ false → owed_of self.old.part ≢ [] }
        ensures work { self.new.work.left ≡ drop 1 self.old.work.left }
        ensures number { self.new.work.number ≡ self.old.work.number }
        ensures unanswered { self.new.unanswered ≡ self.old.unanswered }
        ensures in_hand { self.new.in_hand ≡ self.old.in_hand }
        ensures halts { has_halt self.old.work.left ≡ false → self.new.line.halts ≡ self.old.line.halts }
        ensures halting { (self.new.line.halts || has_halt self.new.work.left) ≡ (self.old.line.halts || has_halt self.old.work.left) }
        ensures has_line { self.new.has_line ≡ self.old.has_line }
    {
        if is_ending(&mark) {
            self.work.done();
            return;
        }
        self.ask(Todo::Mark(mark), Item::Mark(mark));
    }

    /// Does what is next of the line at hand, which tells nothing. Call it where `next` says `Work`. What a line asks for is lost
    /// only where something is owed.
    #[tactic(auto, using(crate::proofs::Passing::quiet_by))]
    pub fn work_on(&mut self)
        requires some { self.old.work.left ≢ [] }
        requires untold { (r : AnyReply) → IsNextOf (tell r) self.old.work.left → self.old.unanswered ≡ true }
        ensures stays { StaysSoFar self.old self.new }
        ensures heard { StaysHeard self.old self.new }
        ensures left { left_to_tell self.new ≡ left_to_tell self.old }
        ensures lost { self.new.lost ≡ true → self.old.lost ≡ false → owed_of self.old.part ≢ [] }
        ensures work { self.new.work.left ≡ drop 1 self.old.work.left }
        ensures number { self.new.work.number ≡ self.old.work.number }
        ensures unanswered { self.new.unanswered ≡ self.old.unanswered }
        ensures in_hand { self.new.in_hand ≡ self.old.in_hand }
        ensures halts { has_halt self.old.work.left ≡ false → self.new.line.halts ≡ self.old.line.halts }
        ensures halting { (self.new.line.halts || has_halt self.new.work.left) ≡ (self.old.line.halts || has_halt self.old.work.left) }
        ensures has_line { self.new.has_line ≡ self.old.has_line }
    {
        let todo = self.work.todo();
        match todo {
            Todo::Move => self.ask_move(),
            Todo::Mark(mark) => self.ask_mark(mark),
            _ => self.pass(todo),
        }
    }

    /// Whether something is owed of what the lines ask for.
    pub fn owes(&self) -> bool
        ensures owes { IsTrue result ↔ (owed_of self.now.part ≢ []) }
        ensures idle { result ≡ false → owed_of self.now.part ≡ [] }
        ensures none { result ≡ false → self.now.part.next ≡ None }
    {
        !self.part.is_idle()
    }

    /// A record comes: whether it is the next one of the part. If not, no record is told any more. Where something is owed, the
    /// machine is in its range and the events can be counted, the part makes no record next that is refused and ends none, whatever
    /// lines come, and no texts fit that have it next.
    pub fn take(&mut self, given: &Record) -> bool
        ensures yes { IsTrue result → AddsRecord self.old self.new given.now }
        ensures heard { StaysHeard self.old self.new }
        ensures no { result ≡ false → owed_of self.old.part ≢ [] → is_ending given.now ≡ false → IsPlace self.old.place → self.old.events + 1 < 2 ^ 64 → RefusesRecord self.old given.now }
        ensures here { result ≡ false → owed_of self.old.part ≢ [] → is_ending given.now ≡ false → IsPlace self.old.place → self.old.events + 1 < 2 ^ 64 → MakesNot self.old given.now }
        ensures work { self.new.work ≡ self.old.work }
        ensures line { SameLine self.old self.new }
        ensures has_line { self.new.has_line ≡ self.old.has_line }
    {
        let Some(place) = place_behind(&self.place, given) else {
            return false;
        };
        let count = event_count(given);
        if self.events > u64::MAX - count || self.part.is_idle() {
            return false;
        }
        if !self.part.take(given) {
            return false;
        }
        self.place = place;
        self.events += count;
        self.touched = touches(self.touched, self.answered.is_whole());
        let idle = !self.owes();
        self.answered = self.answered.behind_record(idle);
        self.code = self.code.behind_record(idle);
        self.settled = self.settled.behind_record(idle);
        true
    }
}
