//! The interpreter.

ghost use Rattle.std.specs.Prelude.{◌≡◌, ◌≢◌, ◌↔◌, ◌+◌, ◌<◌, ◌≤◌, ◌^◌, ℕ, Bool, List, [], ◌∷◌, drop, not, ◌||◌, true, false};
ghost use Rattle.status_report.specs.declared.Reply.TheVariants as replies;
ghost use Rattle.run_rules.specs.States.{IsState, IsOpening};
ghost use Rattle.run_rules.specs.Work.{Outcome, telling, closing_work};
ghost use Rattle.run_rules.specs.Outcomes.{Before, Becomes};
ghost use Rattle.line_interpreter.specs.Keeping.{IsKept};
ghost use Rattle.run_rules.specs.Finding.{Found};
ghost use Rattle.line_interpreter.specs.Since.{Since};
ghost use Rattle.line_interpreter.specs.Lefts.{greeting, IsTodo, IsNextOf};
ghost use Rattle.run_rules.specs.Work.Task.{ask, tell};
ghost use Rattle.status_report.specs.Replies.{IsReply};
ghost use Rattle.status_report.specs.Answering.{is_report};
ghost use Rattle.status_report.specs.Reports.{HasWidths};
ghost use Rattle.run_rules.specs.Reports.{Shows, has_room, shows_room};
ghost use Rattle.units.specs.Lengths.{IsPlace};
ghost use Rattle.modal_state.specs.Modes.{rebased};
ghost use Rattle.status_report.specs.declared.Reply.{Reply as AnyReply};
ghost use Rattle.step_line.specs.Asking.{IsPlannedMove};
ghost use Rattle.step_line.specs.Asking.Asked.{a_move};
ghost use Rattle.step_line.specs.declared.planned_move.PlannedMove.{PlannedMove as AnyMove};
ghost use Rattle.line_interpreter.specs.Interpreting.{stands_before};
ghost use Rattle.line_interpreter.specs.Desks.{kind_told};
ghost use Rattle.run_rules.specs.Resets.{reset_state};

use crate::desk::{Accepted, Desk, Judged, reset_state};
use crate::kept::KeptLine;
use crate::reporting::{Seen, report, shows_room};
use crate::tasks::{Body, Todo};
use run_rules::{Machine, State};
use status_report::{Reply, Report};
use std::marker::Model;
use step_line::PlannedMove;
use units::Steps3;

/// Judges lines one at a time, and says task by task what there is to do of the line that was begun last. At first the
/// banner is to be told.
///
/// Contracts see the state behind the lines that were begun, the number of the next line, and what is left to do.
#[derive(Drop)]
pub struct Interpreter {
    desk: Desk,
}

impl Model for Interpreter {
    ghost use Rattle.line_interpreter.specs.Interpreting.{Interpreting, interpreting};
    ghost use Rattle.line_interpreter.specs.Desks.{IsReady};
    ghost use Rattle.run_rules.specs.Finding.{Found};
    ghost use Rattle.line_interpreter.specs.Lefts.{IsSettled, KnowsNext};

    ghost Value = { Interpreting };

    ghost view = { λ i. interpreting i.desk };

    ghost invariant = { λ i. IsReady i.desk × IsSettled i.desk.line i.desk.state × KnowsNext i.desk.line };
}

impl Interpreter {
    /// The opening state. The banner is to be told, and no line has come.
    pub fn new() -> Interpreter
        ensures opening { IsOpening result.state }
        ensures number { result.number ≡ 1 }
        ensures left { result.left ≡ telling (replies.Banner ∷ []) }
    {
        Interpreter { desk: Desk::new() }
    }

    /// Begins the next line, of which this is kept, where the machine is found so. While it runs, or jogs, lines that
    /// begin with `$` and are not served then are refused with 8, whether or not they can be read; and in a jog lines of
    /// G-code are refused with 9. Answers what is accepted. What was left of the line before is not done, so
    /// call it where nothing is.
    pub fn judge(&mut self, line: &KeptLine, machine: Machine) -> Accepted
        requires few { self.old.number + 1 < 2 ^ 32 }
        ensures becomes { (since : Since) (kept : List ℕ) → IsKept line.now kept → (o : Outcome) × Found machine (stands_before self.old since) kept o
            × (self.new ≡ record { state = o.next; number = self.old.number + 1; left = o.work }) × (kind_told result ≡ o.kind) }
        ensures valid { IsState self.new.state }
        ensures number { self.new.number ≡ self.old.number + 1 }
    {
        self.desk.judge(line, machine)
    }

    /// Begins the next line as `judge` does, and answers whether the machine stands behind it, too.
    pub fn judge_settling(&mut self, line: &KeptLine, machine: Machine) -> Judged
        requires few { self.old.number + 1 < 2 ^ 32 }
        ensures becomes { (since : Since) (kept : List ℕ) → IsKept line.now kept → (o : Outcome) × Found machine (stands_before self.old since) kept o
            × (self.new ≡ record { state = o.next; number = self.old.number + 1; left = o.work }) × (kind_told result.accepted ≡ o.kind) × (result.settles ≡ o.settles) }
        ensures valid { IsState self.new.state }
        ensures number { self.new.number ≡ self.old.number + 1 }
    {
        let accepted = self.desk.judge(line, machine);
        let settles = self.desk.line.settles();
        Judged { accepted, settles }
    }

    /// Behind the last line the machine gets the end, which waits for it to rest, and Bye is told.
    pub fn close(&mut self)
        ensures { self.new ≡ record self.old { left = closing_work } }
    {
        self.desk.begin(Body::Closing);
        self.desk.line.settle();
    }

    /// A reset is worked behind the answered lines, which leave this state, with the machine at this place, in steps from its
    /// zero. Of the state its settings stay, and its offsets but that of G92; all else of the parser begins anew there. So
    /// many more lines were dropped. The reset's alarm is told, where there is one, the banner, and that the machine is
    /// locked, where it is. What was left to do is dropped.
    pub fn open_behind(
        &mut self,
        answered: State,
        at: Steps3,
        dropped: u32,
        alarm: bool,
        locked: bool,
    )
        requires state { IsState answered }
        requires place { IsPlace at }
        requires few { self.old.number + dropped < 2 ^ 32 }
        ensures { self.new ≡ record { state = reset_state at answered; number = self.old.number + dropped; left = telling (greeting alarm locked) } }
    {
        self.desk.begin(Body::Greets(alarm, locked));
        self.desk.line.settle();
        self.desk.state = reset_state(answered, at);
        self.desk.number += dropped;
    }

    /// What there is to do next; nothing exactly where nothing is left.
    #[inline(always)]
    pub fn todo(&self) -> Todo
        ensures { IsTodo result self.now.left }
    {
        self.desk.line.next
    }

    /// Whether nothing is left to do.
    #[inline(always)]
    pub fn is_done(&self) -> bool
        ensures { (result ≡ true) ↔ (self.now.left ≡ []) }
    {
        self.desk.line.is_done()
    }

    /// The reply that is told next. Call it where `todo` says `Tell`.
    pub fn reply(&self) -> Reply
        requires some { (reply : AnyReply) × IsNextOf (tell reply) self.now.left }
        ensures next { IsNextOf (tell result) self.now.left }
        ensures valid { IsReply result }
        ensures plain { is_report result ≡ false }
    {
        self.desk.line.part_reply(&self.desk.state)
    }

    /// The move that is given to the machine next. Call it where `todo` says `Move`.
    pub fn planned_move(&self) -> PlannedMove
        requires some { (m : AnyMove) × IsNextOf (ask (a_move m)) self.now.left }
        ensures next { IsNextOf (ask (a_move result)) self.now.left }
        ensures planned { IsPlannedMove result }
    {
        self.desk.line.part_move(&self.desk.state)
    }

    /// Whether reports tell the free room.
    pub fn shows_room(&self) -> bool
        ensures { result ≡ shows_room self.now.state.settings.report }
    {
        shows_room(&self.desk.state)
    }

    /// The report of a machine, behind the lines that were begun: its position in thousandths of a mm, as the settings
    /// have the steps, and what the lines left of offsets and spindle. It tells the free room where the settings ask
    /// for it.
    pub fn report(&self, seen: &Seen) -> Report
        requires place { IsPlace seen.now.place }
        requires room { has_room seen.now.buffer ≡ shows_room self.now.state.settings.report }
        ensures shows { Shows seen.now.place self.now.state result }
        ensures state { result.state ≡ seen.now.state }
        ensures buffer { result.buffer ≡ seen.now.buffer }
        ensures feed { result.f ≡ seen.now.feed }
        ensures overrides { result.ov ≡ seen.now.overrides }
        ensures valid { IsReply (replies.Report result) }
        ensures wide { HasWidths result }
    {
        report(&self.desk.state, seen)
    }

    /// The state behind the lines that were begun.
    #[inline]
    pub fn state(&self) -> State
        ensures is { result ≡ self.now.state }
        ensures valid { IsState result }
    {
        self.desk.state
    }

    /// The number of the next line.
    #[inline]
    pub fn number(&self) -> u32
        ensures { result ≡ self.now.number }
    {
        self.desk.number
    }

    /// The machine was found at this place, in steps from its zero: that becomes the position from which the next line is
    /// judged. All else stays.
    pub fn rebase(&mut self, at: Steps3)
        requires place { IsPlace at }
        ensures { self.new ≡ record self.old { state = record self.old.state { parser = rebased self.old.state.parser at self.old.state.settings.limits.per_mm } } }
    {
        let per_mm = self.desk.state.settings.limits.per_mm;
        self.desk.state.parser.rebase(at, &per_mm);
    }

    /// What there was to do next is done.
    #[inline]
    pub fn done(&mut self)
        requires { self.old.left ≢ [] }
        ensures { self.new ≡ record self.old { left = drop 1 self.old.left } }
    {
        self.desk.line.stage += 1;
        self.desk.line.settle();
    }
}
