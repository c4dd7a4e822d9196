//! The judge of a course, and the tasks of the line at hand.

ghost use Rattle.std.specs.Prelude.{◌≡◌, ◌≢◌, ◌∷◌, ◌||◌, [], true, false, not, List, drop};
ghost use Rattle.status_report.specs.declared.Reply.{Reply as AnyReply};
ghost use Rattle.status_report.specs.Answering.{is_report};
ghost use Rattle.status_report.specs.Replies.{IsReply};
ghost use Rattle.step_line.specs.declared.Mark.{Mark as AnyMark};
ghost use Rattle.step_line.specs.declared.planned_move.PlannedMove.{PlannedMove as AnyMove};
ghost use Rattle.step_line.specs.Asking.Asked.{a_move, a_mark};
ghost use Rattle.run_rules.specs.declared.State.{State as AnyState};
ghost use Rattle.run_rules.specs.States.{IsOpening};
ghost use Rattle.run_rules.specs.Work.{Task};
ghost use Rattle.run_rules.specs.Work.Task.{ask, tell, halt};
ghost use Rattle.line_interpreter.specs.Lefts.{IsNextOf, IsTodo};
ghost use Rattle.audit_course.specs.Progressing.{Counts, IsNew, has_halt};
ghost use Rattle.audit_course.specs.SoFar.{HasJudged, AddsReply, MayBegin, SameLine, left_to_tell};
ghost use Rattle.audit_course.specs.Heard.{HearsReply};

use crate::valid::ValidState;
use crate::{Progress, Ticks};
use line_interpreter::{Accepted, Interpreter, Todo};
use part_making::{Item, PartJudge};
use status_report::Reply;
use step_line::Mark;
use units::Steps3;

/// What a judge of a course is to do next of the line at hand.
#[derive(Clone, Copy, PartialEq, Eq)]
pub enum Next {
    /// A reply is told, that of `reply`.
    Tell,
    /// Something that tells nothing.
    Work,
    /// Nothing is left of it.
    Nothing,
}

/// Judges a course item by item: lines, resets and cuts, replies and records.
#[derive(Drop)]
pub struct CourseJudge {
    /// The line at hand, and the state behind it.
    pub(crate) work: Interpreter,
    /// The state behind the lines that are answered.
    pub(crate) state: ValidState,
    /// What was asked for in this part.
    pub(crate) part: PartJudge,
    /// Where the machine is.
    pub(crate) place: Steps3,
    pub(crate) events: u64,
    pub(crate) cuts: u32,
    pub(crate) locked: bool,
    /// The part has a line.
    pub(crate) has_line: bool,
    /// The last line is not answered.
    pub(crate) unanswered: bool,
    /// A record of that line was told.
    pub(crate) touched: bool,
    /// Something that a line asks for is not recorded before the part ends.
    pub(crate) lost: bool,
    /// A line is at hand.
    pub(crate) in_hand: bool,
    /// How the ticks of the answered lines before it stand: of all of them.
    pub(crate) answered: Ticks,
    /// Up to the last that is no jog and asks for some.
    pub(crate) code: Ticks,
    /// Up to the last that settles.
    pub(crate) settled: Ticks,
    pub(crate) moved: bool,
    pub(crate) jog_moved: bool,
    pub(crate) jogged: bool,
    pub(crate) line: Progress,
}

impl Progress {
    /// No task is done of a line that settles or doesn't.
    pub(crate) fn begin(accepted: Accepted, settles: bool) -> Progress
        ensures is_new { IsNew result }
        ensures accepted { result.accepted ≡ accepted }
        ensures settles { result.settles ≡ settles }
    {
        Progress {
            accepted,
            moves: false,
            asks: false,
            settles,
            halts: false,
        }
    }

    /// A move is asked for.
    fn with_move(self) -> Progress
        ensures { (m : AnyMove) → Counts self result (ask (a_move m)) }
    {
        Progress {
            moves: true,
            asks: true,
            ..self
        }
    }

    /// A mark is asked for.
    fn with_mark(self) -> Progress
        ensures { (m : AnyMark) → Counts self result (ask (a_mark m)) }
    {
        Progress { asks: true, ..self }
    }

    /// The machine is halted.
    fn with_halt(self) -> Progress
        ensures { Counts self result halt }
    {
        Progress {
            halts: true,
            ..self
        }
    }
}

/// What a task says of the line.
#[tactic(auto, using(crate::proofs::Saying::counts_nothing))]
pub(crate) fn counted(line: Progress, todo: Todo) -> Progress
    ensures { (left : List Task) → IsTodo todo left → (t : Task) → IsNextOf t left → Counts line result t }
{
    match todo {
        Todo::Move => line.with_move(),
        Todo::Mark(_) => line.with_mark(),
        Todo::Halt => line.with_halt(),
        _ => line,
    }
}

impl CourseJudge {
    /// The banner was told, and nothing else.
    pub fn new() -> CourseJudge
        ensures opens { (first : AnyState) × IsOpening first × HasJudged result first [] [] [] }
        ensures begins { MayBegin result }
        ensures kept { result.lost ≡ false }
    {
        let mut work = Interpreter::new();
        work.done();
        CourseJudge {
            work,
            state: ValidState::opening(),
            part: PartJudge::new(),
            place: Steps3 { x: 0, y: 0, z: 0 },
            events: 0,
            cuts: 0,
            locked: false,
            has_line: false,
            unanswered: false,
            touched: false,
            lost: false,
            in_hand: false,
            answered: Ticks::Whole,
            code: Ticks::Whole,
            settled: Ticks::Whole,
            moved: false,
            jog_moved: false,
            jogged: false,
            line: Progress::begin(Accepted::Neither, false),
        }
    }

    /// What is to be done next of the line at hand. Of one that is not answered nothing is told.
    pub fn next(&self) -> Next
        ensures tell { result ≡ Next.Tell → (self.now.unanswered ≡ false) × ((r : AnyReply) × IsNextOf (tell r) self.now.work.left) }
        ensures nothing { result ≡ Next.Nothing → self.now.work.left ≡ [] }
        ensures work { result ≡ Next.Work → self.now.work.left ≢ [] × ((r : AnyReply) → IsNextOf (tell r) self.now.work.left → self.now.unanswered ≡ true) }
    {
        match self.work.todo() {
            Todo::Nothing => Next::Nothing,
            Todo::Tell if !self.unanswered => Next::Tell,
            _ => Next::Work,
        }
    }

    /// The reply that is told next. Call it where `next` says `Tell`.
    pub fn reply(&self) -> Reply
        requires some { (r : AnyReply) × IsNextOf (tell r) self.now.work.left }
        ensures next { IsNextOf (tell result) self.now.work.left }
        ensures valid { IsReply result }
        ensures plain { is_report result ≡ false }
    {
        self.work.reply()
    }

    /// That reply was told.
    pub fn told(&mut self)
        requires some { (r : AnyReply) × IsNextOf (tell r) self.old.work.left }
        requires answered { self.old.unanswered ≡ false }
        ensures adds { (r : AnyReply) → IsNextOf (tell r) self.old.work.left → AddsReply self.old self.new r }
        ensures heard { (r : AnyReply) → IsNextOf (tell r) self.old.work.left → HearsReply self.old self.new r }
        ensures left { (r : AnyReply) → IsNextOf (tell r) self.old.work.left → left_to_tell self.old ≡ r ∷ left_to_tell self.new }
        ensures work { self.new.work.left ≡ drop 1 self.old.work.left }
        ensures number { self.new.work.number ≡ self.old.work.number }
        ensures line { SameLine self.old self.new }
        ensures halting { (self.new.line.halts || has_halt self.new.work.left) ≡ (self.old.line.halts || has_halt self.old.work.left) }
        ensures has_line { self.new.has_line ≡ self.old.has_line }
    {
        self.work.done();
    }
}
