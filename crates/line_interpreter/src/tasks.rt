//! The line in execution, task by task.

ghost use Rattle.std.specs.Prelude.{◌≡◌, ℕ, ◌≢◌, List, ◌+◌, ◌<◌, ◌≤◌, [], ◌∷◌, ◌++◌, drop, length, true, false};
ghost use Rattle.step_line.specs.Records.{IsMark};
ghost use Rattle.step_line.specs.Asking.{IsPlannedMove};
ghost use Rattle.step_line.specs.Asking.Asked.{a_move, a_mark, a_rest};
ghost use Rattle.gcode_check.specs.Items.{IsItem, is_move, settling};
ghost use Rattle.run_rules.specs.Asks.{planned, move_asked, spindle_off, coolant_off, spindle_after, flood_after, at_rest, item_work};
ghost use Rattle.run_rules.specs.Work.{telling, asking, closing_work, halting_work};
ghost use Rattle.run_rules.specs.Work.Task.{ask, tell, pause, normal, finish, halt};
ghost use Rattle.status_report.specs.Replies.{IsReply};
ghost use Rattle.status_report.specs.Answering.{is_report};
ghost use Rattle.status_report.specs.Lists.{setting_replies, modes_replies, offset_replies};
ghost use Rattle.units.specs.Lengths.{IsMove};
ghost use Rattle.units.specs.Limits.{IsRate, IsLimits};
ghost use Rattle.modal_state.specs.Modes.{IsParser};
ghost use Rattle.settings.specs.Numbers.{IsSettings};
ghost use Rattle.run_rules.specs.States.{IsState};
ghost use Rattle.step_line.specs.Counting.{events_of};
ghost use Rattle.run_rules.specs.declared.State.{State as AnyState};
ghost use Rattle.settings.specs.declared.Settings.{Settings as AnySettings};
ghost use Rattle.status_report.specs.declared.Reply.{Reply as AnyReply};
ghost use Rattle.step_line.specs.declared.planned_move.PlannedMove.{PlannedMove as AnyMove};
ghost use Rattle.units.specs.declared.Move.{Move as AnyWay};
ghost use Rattle.units.specs.declared.Rate.{Rate as AnyRate};
ghost use Rattle.line_interpreter.specs.Desks.{settles_of};
ghost use Rattle.line_interpreter.specs.Lefts.{IsTodo, IsNextOf, IsSound, part_left, work_left, IsSettled, KnowsNext};

use crate::greetings::{greeting_count, greeting_told};
use gcode_check::{Item, Items};
use modal_state::{Modal, Offsets, Parser, SpindleMode};
use run_rules::{SOFT_LIMIT, State, spindle_mark};
use settings::Settings;
use status_report::{
    Message, Modes, OFFSET_REPLIES, Reply, SETTING_REPLIES, offset_reply, setting_reply,
};
use step_line::{Mark, PlannedMove};
use units::{Move, Rate};

/// What there is to do next.
#[derive(Clone, Copy, PartialEq, Eq)]
pub enum Todo {
    /// Nothing is left.
    Nothing,
    /// The machine comes to rest: all that is planned is run, and each tick is done.
    Rest,
    /// A mark is given to the machine, which stands.
    Mark(Mark),
    /// A move is given to the machine, that of `planned_move`.
    Move,
    /// A reply is told, that of `reply`.
    Tell,
    /// The machine, which stands, is held until it is resumed.
    Pause,
    /// Each override is set to 100 percent.
    Normal,
    /// The machine comes to rest, and the end is given to it.
    Finish,
    /// The machine slows down to rest, and all that it has not begun by then is dropped.
    Halt,
}

/// What a line asks for, as a whole.
#[derive(Clone, Copy)]
pub(crate) enum Body {
    /// The banner, before the first line.
    Opening,
    /// Behind a reset: its alarm, where there is one, the banner, and that the machine is locked, where it is.
    Greets(bool, bool),
    /// The end, behind the last line.
    Closing,
    /// `ok` alone.
    Accepted,
    /// That the machine is unlocked, and `ok`.
    Unlocks,
    /// An error.
    Refused(u8),
    /// The settings, and `ok`.
    Settings,
    /// The modes, and `ok`.
    Modes,
    /// The offsets, and `ok`.
    Offsets,
    /// A halt, the alarm of a soft limit, and its message.
    Limited,
    /// The items of the line, from a place on, and `ok`.
    Items,
}

/// What runs between the items of a line: the spindle, and the coolant.
#[derive(Clone, Copy)]
pub(crate) struct Running {
    pub(crate) spindle: SpindleMode,
    pub(crate) flood: bool,
}

/// The line in execution: what it asks for, and how much of that is done. Of the present item, or of the whole where
/// there are no items, `stage` tasks are done. What is next of it is found once, where that changes, and kept in `next`.
#[derive(Drop)]
pub(crate) struct Line {
    pub(crate) body: Body,
    pub(crate) number: u32,
    pub(crate) running: Running,
    pub(crate) items: Items,
    pub(crate) place: usize,
    pub(crate) stage: u8,
    pub(crate) next: Todo,
}

/// What is next of so many replies, which are told one by one.
#[inline]
#[tactic(auto, using(crate::proofs::Parts::told_next, crate::proofs::Parts::told_none))]
fn told_todo(count: usize, stage: u8) -> Todo
    ensures next { (replies : List AnyReply) → length replies ≡ count → IsTodo result (drop stage (telling replies)) }
{
    if (stage as usize) < count {
        Todo::Tell
    } else {
        Todo::Nothing
    }
}

/// What is next of a mark, which comes at rest.
#[inline]
fn mark_todo(mark: Mark, stage: u8) -> Todo
    requires mark { IsMark mark }
    ensures next { IsTodo result (drop stage (at_rest (a_mark mark ∷ []))) }
{
    match stage {
        0 => Todo::Rest,
        1 => Todo::Mark(mark),
        2 => Todo::Rest,
        _ => Todo::Nothing,
    }
}

/// Whether a move goes anywhere. One of no steps is no move.
#[inline]
fn goes(mv: &Move) -> bool
    ensures yes { result ≡ true → events_of mv.now ≢ 0 }
    ensures no { result ≡ false → events_of mv.now ≡ 0 }
{
    mv.from != mv.to
}

/// What is next of a move.
#[inline]
fn move_todo(mv: &Move, stage: u8) -> Todo
    ensures next { (m : AnyMove) → m.mv ≡ mv.now → IsTodo result (drop stage (asking (move_asked m))) }
{
    if stage == 0 && goes(mv) {
        Todo::Move
    } else {
        Todo::Nothing
    }
}

/// What is next of a pause, which comes to rest, and is over at rest.
#[inline]
fn pause_todo(stage: u8) -> Todo
    ensures next { IsTodo result (drop stage (ask a_rest ∷ pause ∷ ask a_rest ∷ [])) }
{
    match stage {
        0 => Todo::Rest,
        1 => Todo::Pause,
        2 => Todo::Rest,
        _ => Todo::Nothing,
    }
}

/// What is next of the end of a program: all that is planned is run, what is on is turned off, the overrides are set to
/// 100 percent, and it is told.
fn end_todo(running: Running, stage: u8) -> Todo
    ensures next { IsTodo result (drop stage (at_rest (spindle_off running.spindle ++ coolant_off running.flood) ++ normal ∷ tell (Reply.Message Message.ProgramEnd) ∷ [])) }
{
    let turns = running.spindle != SpindleMode::Off;
    let both = turns && running.flood;
    let one = turns || running.flood;
    match stage {
        0 => Todo::Rest,
        1 if turns => Todo::Mark(spindle_mark(SpindleMode::Off, 0)),
        1 if one => Todo::Mark(Mark::Coolant(false)),
        1 => Todo::Rest,
        2 if both => Todo::Mark(Mark::Coolant(false)),
        2 if one => Todo::Rest,
        2 => Todo::Normal,
        3 if both => Todo::Rest,
        3 if one => Todo::Normal,
        3 => Todo::Tell,
        4 if both => Todo::Normal,
        4 if one => Todo::Tell,
        5 if both => Todo::Tell,
        _ => Todo::Nothing,
    }
}

/// A move of a line, under the settings that stand then.
fn planned(line: u32, settings: &Settings, mv: Move, rate: Rate) -> PlannedMove
    requires line { 1 ≤ line }
    requires places { IsMove mv }
    requires rate { IsRate rate }
    requires settings { IsSettings settings.now }
    requires moves { 0 < events_of mv }
    ensures is { result ≡ planned line settings.now mv rate }
    ensures planned { IsPlannedMove result }
{
    PlannedMove {
        line,
        mv,
        rate,
        limits: settings.limits,
        deviation: settings.deviation,
    }
}

impl Running {
    /// What runs behind an item.
    fn after(self, item: &Item) -> Running
        ensures spindle { result.spindle ≡ spindle_after self.spindle item.now }
        ensures flood { result.flood ≡ flood_after self.flood item.now }
    {
        match item {
            Item::Spindle(mode, _) => Running {
                spindle: *mode,
                ..self
            },
            Item::Coolant(on) => Running { flood: *on, ..self },
            Item::ProgramEnd => Running {
                spindle: SpindleMode::Off,
                flood: false,
            },
            _ => self,
        }
    }
}

/// What is next of an item.
#[inline]
fn item_todo(item: &Item, running: Running, stage: u8) -> Todo
    requires item { IsItem item.now }
    ensures next { (line : ℕ) (settings : AnySettings) → IsTodo result (drop stage (item_work line settings running.spindle running.flood item.now)) }
{
    match item {
        Item::Spindle(mode, speed) => mark_todo(spindle_mark(*mode, *speed), stage),
        Item::Coolant(on) => mark_todo(Mark::Coolant(*on), stage),
        Item::Dwell(ms) => mark_todo(Mark::Dwell(*ms), stage),
        Item::Move(mv, _) => move_todo(mv, stage),
        Item::Pause => pause_todo(stage),
        Item::ProgramEnd => end_todo(running, stage),
    }
}

/// The move of an item that is one, of a line.
fn item_move(item: &Item, line: u32, settings: &Settings) -> PlannedMove
    requires line { 1 ≤ line }
    requires item { IsItem item.now }
    requires settings { IsSettings settings.now }
    requires some { (m : AnyMove) × (item.now ≡ Item.Move m.mv m.rate) × (0 < events_of m.mv) }
    ensures is { (mv : AnyWay) (rate : AnyRate) → item.now ≡ Item.Move mv rate → result ≡ planned line settings.now mv rate }
    ensures planned { IsPlannedMove result }
{
    match item {
        Item::Move(mv, rate) => planned(line, settings, *mv, *rate),
        _ => unreachable!(),
    }
}

/// How many tasks an item has.
#[inline]
fn task_count(item: &Item, running: Running) -> u8
    requires item { IsItem item.now }
    ensures count { (line : ℕ) (settings : AnySettings) → length (item_work line settings running.spindle running.flood item.now) ≡ result }
{
    match item {
        Item::Spindle(_, _) | Item::Coolant(_) | Item::Dwell(_) | Item::Pause => 3,
        Item::Move(mv, _) => u8::from(goes(mv)),
        Item::ProgramEnd => {
            4 + u8::from(running.spindle != SpindleMode::Off) + u8::from(running.flood)
        }
    }
}

/// What is next of the end, behind the last line.
#[inline]
fn closing_todo(stage: u8) -> Todo
    ensures next { IsTodo result (drop stage closing_work) }
{
    match stage {
        0 => Todo::Finish,
        1 => Todo::Tell,
        _ => Todo::Nothing,
    }
}

/// What is next of a line that a soft limit stops.
#[inline]
fn halting_todo(stage: u8) -> Todo
    ensures next { IsTodo result (drop stage halting_work) }
{
    match stage {
        0 => Todo::Halt,
        1 => Todo::Tell,
        2 => Todo::Tell,
        _ => Todo::Nothing,
    }
}

/// The reply that is next of a line that a soft limit stops: the alarm, and then its message.
fn halting_told(stage: u8) -> Reply
    ensures next { (reply : AnyReply) → IsNextOf (tell reply) (drop stage halting_work) → result ≡ reply }
    ensures valid { IsReply result }
    ensures plain { is_report result ≡ false }
{
    if stage == 1 {
        Reply::Alarm(SOFT_LIMIT)
    } else {
        Reply::Message(Message::ResetToContinue)
    }
}

/// The reply that is next of the settings.
fn setting_told(settings: &Settings, stage: u8) -> Reply
    ensures next { (reply : AnyReply) → IsNextOf (tell reply) (drop stage (telling (setting_replies settings.now ++ Reply.Ok ∷ []))) → result ≡ reply }
    ensures valid { IsReply result }
    ensures plain { is_report result ≡ false }
{
    let place = stage as usize;
    if place < SETTING_REPLIES {
        setting_reply(settings, place)
    } else {
        Reply::Ok
    }
}

/// The reply that is next of the offsets.
fn offset_told(offsets: &Offsets, stage: u8) -> Reply
    ensures next { (reply : AnyReply) → IsNextOf (tell reply) (drop stage (telling (offset_replies offsets.now ++ Reply.Ok ∷ []))) → result ≡ reply }
    ensures valid { IsReply result }
    ensures plain { is_report result ≡ false }
{
    let place = stage as usize;
    if place < OFFSET_REPLIES {
        offset_reply(offsets, place)
    } else {
        Reply::Ok
    }
}

/// The reply that is next of the modes.
fn modes_told(parser: &Parser, stage: u8) -> Reply
    requires { IsParser parser.now }
    ensures next { (reply : AnyReply) → IsNextOf (tell reply) (drop stage (telling (modes_replies parser.now ++ Reply.Ok ∷ []))) → result ≡ reply }
    ensures valid { IsReply result }
    ensures plain { is_report result ≡ false }
{
    if stage == 0 {
        Reply::Modes(Modes::of(parser))
    } else {
        Reply::Ok
    }
}

/// The reply that is next of a line that unlocks the machine.
fn unlock_told(stage: u8) -> Reply
    ensures next { (reply : AnyReply) → IsNextOf (tell reply) (drop stage (telling (Reply.Message Message.Unlocked ∷ Reply.Ok ∷ []))) → result ≡ reply }
    ensures valid { IsReply result }
    ensures plain { is_report result ≡ false }
{
    if stage == 0 {
        Reply::Message(Message::Unlocked)
    } else {
        Reply::Ok
    }
}

/// Whether an item is a move.
fn is_move(item: &Item) -> bool
    ensures { result ≡ is_move item.now }
{
    matches!(item, Item::Move(_, _))
}

/// Whether items settle: there are some, and the last is no move.
fn settles(items: &[Item]) -> bool
    ensures { result ≡ settling items.now }
{
    match items.last() {
        Some(item) => !is_move(item),
        None => false,
    }
}

impl Line {
    /// Nothing is left of it.
    pub(crate) fn opening() -> Line
        ensures left { (s : AnyState) → work_left result s ≡ tell Reply.Banner ∷ [] }
        ensures settled { (s : AnyState) → IsSettled result s }
        ensures sound { IsSound result }
        ensures next { KnowsNext result }
    {
        Line {
            body: Body::Opening,
            number: 1,
            running: Running {
                spindle: SpindleMode::Off,
                flood: false,
            },
            items: Items::new(),
            place: 0,
            stage: 0,
            next: Todo::Tell,
        }
    }

    /// The line has the items that stand in it, of which nothing is done, from these modes on.
    #[inline]
    pub(crate) fn begin_items(&mut self, number: u32, modal: &Modal)
        ensures same { self.new ≡ record { body = Body.Items; number = number; running = record { spindle = modal.now.spindle; flood = modal.now.flood }; items = self.old.items; place = 0; stage = 0; next = self.old.next } }
    {
        self.body = Body::Items;
        self.number = number;
        self.running = Running {
            spindle: modal.spindle,
            flood: modal.flood,
        };
        self.place = 0;
        self.stage = 0;
    }

    /// Whether the machine stands behind the line: it has items, and the last is no move.
    pub(crate) fn settles(&self) -> bool
        ensures { result ≡ settles_of self.now }
    {
        matches!(self.body, Body::Items) && settles(self.items.as_slice())
    }

    /// What is next of the present item, or `ok` behind the last one.
    #[inline]
    fn items_todo(&self) -> Todo
        requires sound { IsSound self.now }
        requires body { self.now.body ≡ Body.Items }
        ensures next { (s : AnyState) → IsTodo result (part_left self.now s) }
    {
        match self.items.as_slice().get(self.place) {
            Some(item) => item_todo(item, self.running, self.stage),
            None => told_todo(1, self.stage),
        }
    }

    /// What is next of the present item, or of the whole where there are no items.
    fn part_todo(&self) -> Todo
        requires sound { IsSound self.now }
        ensures next { (s : AnyState) → IsTodo result (part_left self.now s) }
    {
        match self.body {
            Body::Opening => told_todo(1, self.stage),
            Body::Greets(alarm, locked) => told_todo(greeting_count(alarm, locked), self.stage),
            Body::Accepted => told_todo(1, self.stage),
            Body::Refused(_) => told_todo(1, self.stage),
            Body::Closing => closing_todo(self.stage),
            Body::Settings => told_todo(SETTING_REPLIES + 1, self.stage),
            Body::Modes => told_todo(2, self.stage),
            Body::Unlocks => told_todo(2, self.stage),
            Body::Offsets => told_todo(OFFSET_REPLIES + 1, self.stage),
            Body::Limited => halting_todo(self.stage),
            Body::Items => self.items_todo(),
        }
    }

    /// Whether nothing is left of it, nor of what comes behind the present part.
    #[inline(always)]
    pub(crate) fn is_done(&self) -> bool
        requires next { KnowsNext self.now }
        ensures done { result ≡ true → (s : AnyState) → IsSettled self.now s → work_left self.now s ≡ [] }
        ensures going { result ≡ false → (s : AnyState) → work_left self.now s ≡ [] → ⊥ }
    {
        matches!(self.next, Todo::Nothing)
    }

    /// The reply that is next of the items: that of a program's end, or `ok` behind the last one.
    fn items_reply(&self) -> Reply
        requires body { self.now.body ≡ Body.Items }
        ensures next { (s : AnyState) (reply : AnyReply) → IsNextOf (tell reply) (part_left self.now s) → result ≡ reply }
        ensures valid { IsReply result }
        ensures plain { is_report result ≡ false }
    {
        if self.place < self.items.len() {
            Reply::Message(Message::ProgramEnd)
        } else {
            Reply::Ok
        }
    }

    /// The reply that is next, where one is.
    pub(crate) fn part_reply(&self, state: &State) -> Reply
        requires state { IsState state.now }
        ensures next { (reply : AnyReply) → IsNextOf (tell reply) (part_left self.now state.now) → result ≡ reply }
        ensures valid { IsReply result }
        ensures plain { is_report result ≡ false }
    {
        match self.body {
            Body::Opening => Reply::Banner,
            Body::Greets(alarm, _) => greeting_told(alarm, self.stage),
            Body::Closing => Reply::Bye,
            Body::Refused(number) => Reply::Error(number),
            Body::Settings => setting_told(&state.settings, self.stage),
            Body::Modes => modes_told(&state.parser, self.stage),
            Body::Unlocks => unlock_told(self.stage),
            Body::Offsets => offset_told(&state.parser.offsets, self.stage),
            Body::Limited => halting_told(self.stage),
            Body::Accepted => Reply::Ok,
            Body::Items => self.items_reply(),
        }
    }

    /// The move that is next.
    pub(crate) fn part_move(&self, state: &State) -> PlannedMove
        requires sound { IsSound self.now }
        requires state { IsState state.now }
        requires some { (m : AnyMove) × IsNextOf (ask (a_move m)) (part_left self.now state.now) }
        ensures next { IsNextOf (ask (a_move result)) (part_left self.now state.now) }
        ensures planned { IsPlannedMove result }
    {
        match self.items.as_slice().get(self.place) {
            Some(item) => item_move(item, self.number, &state.settings),
            None => unreachable!(),
        }
    }

    /// Whether all of the present item is done, and another item, or `ok`, comes behind it.
    #[inline]
    fn is_passed(&self) -> bool
        requires sound { IsSound self.now }
        ensures part { result ≡ true → (s : AnyState) → part_left self.now s ≡ [] }
        ensures body { result ≡ true → self.now.body ≡ Body.Items }
        ensures place { result ≡ true → self.now.place < length self.now.items.items }
        ensures settled { result ≡ false → (s : AnyState) → IsSettled self.now s }
    {
        if !matches!(self.body, Body::Items) {
            return false;
        }
        match self.items.as_slice().get(self.place) {
            Some(item) => self.stage >= task_count(item, self.running),
            None => false,
        }
    }

    /// Goes on to the next item.
    fn pass(&mut self)
        requires body { self.old.body ≡ Body.Items }
        requires place { self.old.place < length self.old.items.items }
        ensures left { (s : AnyState) → part_left self.old s ≡ [] → work_left self.new s ≡ work_left self.old s }
        ensures same { (self.new.items ≡ self.old.items) × (self.new.number ≡ self.old.number) × (self.new.body ≡ self.old.body) }
        ensures on { self.new.place ≡ self.old.place + 1 }
    {
        let Some(item) = self.items.as_slice().get(self.place) else {
            return;
        };
        self.running = self.running.after(item);
        self.place += 1;
        self.stage = 0;
    }

    /// Goes on to the next item of which something is left to do, and finds what is next of it.
    pub(crate) fn settle(&mut self)
        requires sound { IsSound self.old }
        ensures sound { IsSound self.new }
        ensures left { (s : AnyState) → work_left self.new s ≡ work_left self.old s }
        ensures settled { (s : AnyState) → IsSettled self.new s }
        ensures next { KnowsNext self.new }
        ensures settles { settles_of self.new ≡ settles_of self.old }
    {
        while self.is_passed() {
            self.pass();
        }
        self.next = self.part_todo();
    }
}
