//! How a line is judged.

ghost use Rattle.std.specs.Prelude.{◌≡◌, ◌≢◌, ◌∷◌, ◌+◌, ◌≤◌, ◌<◌, ◌^◌, ℕ, Bool, List, [], All, length, Ok, Some, slice_get, true, false, not, drop, ◌&&◌};
ghost use Rattle.gcode_words.specs.Words.{IsSmallWord, words_of};
ghost use Rattle.gcode_check.specs.Verdicts.{verdict};
ghost use Rattle.modal_state.specs.Modes.{rebased};
ghost use Rattle.units.specs.Lengths.{IsPlace};
ghost use Rattle.jog.specs.Jogs.{IsJog, jog_of, jogged};
ghost use Rattle.system_lines.specs.Commands.{command_of, jog_words};
ghost use Rattle.settings.specs.Numbers.{set_refusal};
ghost use Rattle.run_rules.specs.States.{IsState, IsOpening};
ghost use Rattle.run_rules.specs.Work.{Outcome, telling, closing_work};
ghost use Rattle.run_rules.specs.Outcomes.{refused, limited, fault_number, BySetting, ByCommand, ByVerdict, ByWords, ByJog, ByJogMove, jogging};
ghost use Rattle.run_rules.specs.Finding.{ByDollarFound, ByCodeFound, ByKeptFound, Found};
ghost use Rattle.line_interpreter.specs.Since.{Since};
ghost use Rattle.line_interpreter.specs.Keeping.{IsKept};
ghost use Rattle.line_interpreter.specs.Lefts.{greeting, IsSound, IsSettled, KnowsNext, IsTodo, IsNextOf, work_left};
ghost use Rattle.run_rules.specs.Work.Task.{ask, tell};
ghost use Rattle.status_report.specs.Replies.{IsReply};
ghost use Rattle.status_report.specs.Answering.{is_report};
ghost use Rattle.status_report.specs.declared.Reply.{Reply as AnyReply};
ghost use Rattle.step_line.specs.Asking.{IsPlannedMove};
ghost use Rattle.step_line.specs.Asking.Asked.{a_move};
ghost use Rattle.step_line.specs.declared.planned_move.PlannedMove.{PlannedMove as AnyMove};
ghost use Rattle.line_interpreter.specs.Desks.{IsReady, standing, Begun};
ghost use Rattle.run_rules.specs.Resets.{reset_state};

use crate::kept::KeptLine;
use crate::tasks::{Body, Line, Todo};
use code_table::Code;
use gcode_check::{Item, Refusal, take_line};
use gcode_words::{WordFault, Words, read_words};
use jog::{JogMove, check_jog};
use modal_state::Parser;
use run_rules::{Machine, State};
use status_report::Reply;
use step_line::PlannedMove;
use system_lines::{Command, Kind, apply_setting, jog_words, read_command};
use units::{Decimal, Nm3, Steps3};

/// The state that the lines begun so far leave, the number of the next line, the line in execution, and a list into
/// which the words of each line are read.
#[derive(Drop)]
pub(crate) struct Desk {
    pub(crate) state: State,
    pub(crate) number: u32,
    pub(crate) line: Line,
    pub(crate) words: Words,
}

/// What is accepted where a line is begun.
#[derive(Clone, Copy)]
pub enum Accepted {
    /// A line of G-code.
    Code,
    /// A jog.
    Jog,
    /// Neither: the line is refused, a soft limit stops it, it is empty, or it begins with `$` and is no jog.
    Neither,
}

/// What a line is judged to be.
#[derive(Clone, Copy)]
pub struct Judged {
    /// What is accepted.
    pub accepted: Accepted,
    /// The machine stands behind the line: it has items, and the last is no move.
    pub settles: bool,
}

/// The error of words that can't be read.
fn fault_code(fault: WordFault) -> Code
    ensures { result.0 ≡ fault_number fault }
{
    match fault {
        WordFault::Letter => Code::EXPECTED_LETTER,
        WordFault::Number => Code::BAD_NUMBER,
    }
}

/// What a reset leaves of a state, with the machine at this place: the settings, and the offsets but that of G92. All else of
/// the parser begins anew there.
pub(crate) fn reset_state(state: State, at: Steps3) -> State
    requires state { IsState state }
    requires place { IsPlace at }
    ensures is { result ≡ reset_state at state }
    ensures valid { IsState result }
{
    let mut parser = Parser::opening();
    parser.offsets = state.parser.offsets;
    parser.offsets.g92 = Nm3 { x: 0, y: 0, z: 0 };
    parser.rebase(at, &state.settings.limits.per_mm);
    State {
        parser,
        settings: state.settings,
    }
}

impl Desk {
    /// The banner is to be told, and no line has come.
    pub(crate) fn new() -> Desk
        ensures opening { IsOpening result.state }
        ensures number { result.number ≡ 1 }
        ensures left { work_left result.line result.state ≡ telling (Reply.Banner ∷ []) }
        ensures ready { IsReady result }
        ensures settled { IsSettled result.line result.state }
        ensures next { KnowsNext result.line }
    {
        Desk {
            state: State::opening(),
            number: 1,
            line: Line::opening(),
            words: Words::new(),
        }
    }

    /// The line asks for this, of which nothing is done.
    #[inline]
    pub(crate) fn begin(&mut self, body: Body)
        requires body { body ≢ Body.Items }
        ensures same { self.new ≡ record self.old { line = record self.old.line { body = body; stage = 0 } } }
    {
        self.line.body = body;
        self.line.stage = 0;
    }

    /// The line is refused.
    fn refuse(&mut self, code: Code) -> Accepted
        requires ready { IsReady self.old }
        ensures begun { (since : Since) → Begun self.new (refused (standing self.old since) code.0) result }
        ensures number { self.new.number ≡ self.old.number }
        ensures ready { IsReady self.new }
    {
        self.begin(Body::Refused(code.0));
        Accepted::Neither
    }

    /// A soft limit stops the line.
    fn limit(&mut self) -> Accepted
        requires ready { IsReady self.old }
        ensures begun { (since : Since) → Begun self.new (limited (standing self.old since)) result }
        ensures number { self.new.number ≡ self.old.number }
        ensures ready { IsReady self.new }
    {
        self.begin(Body::Limited);
        Accepted::Neither
    }

    /// Sets a setting.
    fn set(&mut self, n: u8, value: Decimal) -> Accepted
        requires ready { IsReady self.old }
        ensures begun { (since : Since) → (o : Outcome) × BySetting (standing self.old since) n value (set_refusal n value) o × Begun self.new o result }
        ensures number { self.new.number ≡ self.old.number }
        ensures ready { IsReady self.new }
    {
        match apply_setting(&mut self.state.settings, n, value) {
            Ok(()) => {
                self.begin(Body::Accepted);
                Accepted::Neither
            }
            Err(code) => self.refuse(code),
        }
    }

    /// Does what a `$` line asks for.
    fn obey(&mut self, command: Command) -> Accepted
        requires ready { IsReady self.old }
        ensures begun { (since : Since) → (o : Outcome) × ByCommand (standing self.old since) (Ok command) o × Begun self.new o result }
        ensures number { self.new.number ≡ self.old.number }
        ensures ready { IsReady self.new }
    {
        match command {
            Command::Set { n, value } => return self.set(n, value),
            Command::Unlock => self.begin(Body::Accepted),
            Command::ListSettings => self.begin(Body::Settings),
            Command::ListModes => self.begin(Body::Modes),
            Command::ListOffsets => self.begin(Body::Offsets),
        }
        Accepted::Neither
    }

    /// Judges a line that begins with `$`.
    fn judge_command(&mut self, kept: &[u8]) -> Accepted
        requires dollar { slice_get kept.now 0 ≡ Some 36 }
        requires ready { IsReady self.old }
        ensures begun { (since : Since) → (o : Outcome) × ByCommand (standing self.old since) (command_of kept.now) o × Begun self.new o result }
        ensures number { self.new.number ≡ self.old.number }
        ensures ready { IsReady self.new }
    {
        match read_command(kept) {
            Ok(command) => self.obey(command),
            Err(code) => self.refuse(code),
        }
    }

    /// Judges the words of a line of G-code.
    fn judge_words(&mut self) -> Accepted
        requires words { All IsSmallWord self.old.words.items }
        requires ready { IsReady self.old }
        ensures begun { (since : Since) → (o : Outcome) × ByVerdict (standing self.old since) (verdict self.old.state.parser self.old.state.settings self.old.words.items) o × Begun self.new o result }
        ensures number { self.new.number ≡ self.old.number }
        ensures ready { IsReady self.new }
    {
        let modal = self.state.parser.modal;
        match take_line(
            &mut self.state.parser,
            &self.state.settings,
            &self.words,
            &mut self.line.items,
        ) {
            Ok(()) => {
                self.line.begin_items(self.number, &modal);
                Accepted::Code
            }
            Err(Refusal::Error(code)) => self.refuse(code),
            Err(Refusal::SoftLimit) => self.limit(),
        }
    }

    /// Judges a line of G-code.
    fn judge_code(&mut self, kept: &[u8]) -> Accepted
        requires short { length kept.now ≤ 79 }
        requires ready { IsReady self.old }
        ensures begun { (since : Since) → (o : Outcome) × ByWords (standing self.old since) (words_of kept.now) o × Begun self.new o result }
        ensures number { self.new.number ≡ self.old.number }
        ensures ready { IsReady self.new }
    {
        match read_words(kept, &mut self.words) {
            Ok(()) => self.judge_words(),
            Err(fault) => self.refuse(fault_code(fault)),
        }
    }

    /// Judges a line of G-code where the machine is found so: in a jog, and while it is locked, it is refused.
    fn judge_code_found(&mut self, kept: &[u8], machine: Machine) -> Accepted
        requires short { length kept.now ≤ 79 }
        requires ready { IsReady self.old }
        ensures begun { (since : Since) → (o : Outcome) × ByCodeFound machine (standing self.old since) kept.now o × Begun self.new o result }
        ensures number { self.new.number ≡ self.old.number }
        ensures ready { IsReady self.new }
    {
        if machine.locks() {
            return self.refuse(Code::LOCKED_OUT);
        }
        self.judge_code(kept)
    }

    /// The line asks for the move of a jog, whose target becomes the position.
    fn begin_jog(&mut self, jog: &JogMove)
        requires jog { IsJog jog.now }
        requires ready { IsReady self.old }
        ensures begun { (since : Since) → Begun self.new (jogging (standing self.old since) jog.now) Accepted.Jog }
        ensures number { self.new.number ≡ self.old.number }
        ensures ready { IsReady self.new }
    {
        let modal = self.state.parser.modal;
        jog.finish(&mut self.state.parser);
        self.line.items.clear();
        self.line.items.push(Item::Move(jog.mv, jog.rate));
        self.line.begin_items(self.number, &modal);
    }

    /// Judges the words of a jog.
    fn judge_jog_words(&mut self) -> Accepted
        requires words { All IsSmallWord self.old.words.items }
        requires ready { IsReady self.old }
        ensures begun { (since : Since) → (o : Outcome) × ByJogMove (standing self.old since) (jog_of self.old.state.parser self.old.state.settings self.old.words.items) o × Begun self.new o result }
        ensures number { self.new.number ≡ self.old.number }
        ensures ready { IsReady self.new }
    {
        match check_jog(&self.state.parser, &self.state.settings, &self.words) {
            Ok(jog) => {
                self.begin_jog(&jog);
                Accepted::Jog
            }
            Err(code) => self.refuse(code),
        }
    }

    /// Judges a jog, a line that begins with `$J=`.
    fn judge_jog(&mut self, kept: &[u8]) -> Accepted
        requires short { length kept.now ≤ 79 }
        requires ready { IsReady self.old }
        ensures begun { (since : Since) → (o : Outcome) × ByJog (standing self.old since) (words_of (jog_words kept.now)) o × Begun self.new o result }
        ensures number { self.new.number ≡ self.old.number }
        ensures ready { IsReady self.new }
    {
        match read_words(jog_words(kept), &mut self.words) {
            Ok(()) => self.judge_jog_words(),
            Err(fault) => self.refuse(fault_code(fault)),
        }
    }

    /// Judges a line that begins with `$`, where the machine is found so.
    fn judge_dollar(&mut self, kept: &[u8], machine: Machine) -> Accepted
        requires dollar { slice_get kept.now 0 ≡ Some 36 }
        requires short { length kept.now ≤ 79 }
        requires ready { IsReady self.old }
        ensures begun { (since : Since) → (o : Outcome) × ByDollarFound machine (standing self.old since) kept.now o × Begun self.new o result }
        ensures number { self.new.number ≡ self.old.number }
        ensures ready { IsReady self.new }
    {
        let kind = Kind::of(kept);
        if machine.refuses(kind) {
            return self.refuse(Code::NOT_IDLE);
        }
        if machine.is_unlocked_by(kind) {
            self.begin(Body::Unlocks);
            return Accepted::Neither;
        }
        if kind.is_jog() {
            return self.judge_jog(kept);
        }
        self.judge_command(kept)
    }

    /// Judges a line of which these bytes are kept, where the machine is found so.
    fn judge_kept(&mut self, kept: &[u8], machine: Machine) -> Accepted
        requires short { length kept.now ≤ 79 }
        requires ready { IsReady self.old }
        ensures begun { (since : Since) → (o : Outcome) × ByKeptFound machine (standing self.old since) kept.now o × Begun self.new o result }
        ensures number { self.new.number ≡ self.old.number }
        ensures ready { IsReady self.new }
    {
        match kept.first() {
            None => {
                self.begin(Body::Accepted);
                Accepted::Neither
            }
            Some(b'$') => self.judge_dollar(kept, machine),
            Some(_) => self.judge_code_found(kept, machine),
        }
    }

    /// Judges a line, where the machine is found so.
    fn judge_line(&mut self, line: &KeptLine, machine: Machine) -> Accepted
        requires ready { IsReady self.old }
        ensures begun { (since : Since) (kept : List ℕ) → IsKept line.now kept → (o : Outcome) × Found machine (standing self.old since) kept o × Begun self.new o result }
        ensures number { self.new.number ≡ self.old.number }
        ensures ready { IsReady self.new }
    {
        match line.bytes() {
            Some(kept) => self.judge_kept(kept, machine),
            None => self.refuse(Code::LINE_TOO_LONG),
        }
    }

    /// Judges the next line, and goes on to its first task. Answers what is accepted.
    pub(crate) fn judge(&mut self, line: &KeptLine, machine: Machine) -> Accepted
        requires ready { IsReady self.old }
        requires few { self.old.number + 1 < 2 ^ 32 }
        ensures begun { (since : Since) (kept : List ℕ) → IsKept line.now kept →
            (o : Outcome) × Found machine (standing self.old since) kept o × Begun self.new o result }
        ensures number { self.new.number ≡ self.old.number + 1 }
        ensures ready { IsReady self.new }
        ensures settled { IsSettled self.new.line self.new.state }
        ensures next { KnowsNext self.new.line }
    {
        let accepted = self.judge_line(line, machine);
        self.line.settle();
        self.number += 1;
        accepted
    }
}
