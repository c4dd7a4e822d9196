//! The judge of the records of a part.

ghost use Rattle.std.specs.Prelude.{◌≡◌, ◌≢◌, ◌↔◌, IsTrue, IfSome, Some, None};
ghost use Rattle.step_line.specs.Asking.{IsPlannedMove};
ghost use Rattle.step_line.specs.declared.planned_move.PlannedMove.{PlannedMove as AnyMove};
ghost use Rattle.part_making.specs.Judging.{MayBeNext};
ghost use Rattle.part_making.specs.declared.Item.TheVariants as items;

use crate::Item;
use crate::traced::{Traced, may_come};
use legal_heads::{Told, ToldHead, comes_next};
use std::marker::Model;
use step_line::{Bits, Head, Mark, PlannedMove, Record};

/// Judges the records of a part one by one, by what was asked for.
///
/// Contracts see the last head, if its stretch is open, with how many of its events are out, and the next item that no
/// record has begun.
#[derive(Drop)]
pub struct PartJudge {
    latest: Option<Traced>,
    next: Option<Item>,
}

impl Model for PartJudge {
    ghost use Rattle.part_making.specs.Judging.{Known, MayBeNext};

    ghost Value = { Known };

    ghost view = { λ j. record { latest = j.latest; next = j.next } };

    ghost invariant = { λ j. MayBeNext j.next };
}

impl PartJudge {
    ghost use Rattle.std.specs.Prelude.{◌≡◌, ◌≢◌, ◌↔◌, ◌+◌, [], IsTrue, IfSome, Some, None, true, false};
    ghost use Rattle.legal_heads.specs.Speeds.{MayStop, MayMark};
    ghost use Rattle.step_line.specs.Asking.{IsPlannedMove};
    ghost use Rattle.step_line.specs.declared.Record.TheVariants as kinds;
    ghost use Rattle.part_making.specs.Judging.{IsItem, Traced as AnyTraced, IsTraced, nothing_known, owed_of, coming_of, rest_of, all_ticks, head_of, Goes, Refuses};

    /// A part begins.
    pub fn new() -> PartJudge
        ensures { result ≡ nothing_known }
    {
        PartJudge {
            latest: None,
            next: None,
        }
    }

    /// An item is asked for. No other one may wait.
    pub fn ask(&mut self, item: Item)
        requires item { IsItem item }
        requires none { self.old.next ≡ None }
        ensures { self.new ≡ record self.old { next = Some item } }
    {
        self.next = Some(item);
    }

    /// Whether an item waits that no record has begun.
    pub fn is_waiting(&self) -> bool
        ensures { IsTrue result ↔ (self.now.next ≢ None) }
    {
        self.next.is_some()
    }

    /// Whether events of the last head's move are not out.
    fn has_rest(&self) -> bool
        ensures { IsTrue result ↔ (rest_of self.now.latest ≢ []) }
    {
        match &self.latest {
            Some(traced) => !traced.is_done(),
            None => false,
        }
    }

    /// Whether nothing is owed of what was asked for.
    pub fn is_idle(&self) -> bool
        ensures owes { IsTrue result ↔ (owed_of self.now ≡ []) }
        ensures none { IsTrue result → self.now.next ≡ None }
    {
        if self.has_rest() {
            return false;
        }
        self.next.is_none()
    }

    /// The last head, if its stretch is open.
    fn latest(&self) -> Option<ToldHead>
        ensures head { result ≡ head_of self.now.latest }
        ensures planned { IfSome result (λ a. IsPlannedMove a.planned) }
        ensures traced { (t : AnyTraced) → self.now.latest ≡ Some t → IsTraced t }
    {
        match &self.latest {
            Some(traced) => Some(traced.told()),
            None => None,
        }
    }

    /// Whether the last head's events are out, and the machine can stop over them.
    pub fn may_stop(&self) -> bool
        ensures { IsTrue result ↔ ((coming_of self.now.latest ≡ []) × MayStop (head_of self.now.latest)) }
    {
        self.is_out() && comes_next(&self.latest(), &Told::Mark(Mark::Cut(0)))
    }

    /// Whether the last head's events are out.
    fn is_out(&self) -> bool
        ensures { IsTrue result ↔ (coming_of self.now.latest ≡ []) }
    {
        match &self.latest {
            Some(traced) => traced.is_out(),
            None => true,
        }
    }

    /// An event comes.
    fn take_event(&mut self, bits: &Bits) -> bool
        ensures yes { IsTrue result → Goes self.old (kinds.Event bits.now) self.new }
        ensures no { result ≡ false → Refuses self.old (kinds.Event bits.now) }
    {
        let Some(traced) = &mut self.latest else {
            return false;
        };
        traced.take(bits)
    }

    /// A mark comes, where something is owed.
    fn take_mark(&mut self, mark: &Mark) -> bool
        requires owes { owed_of self.old ≢ [] }
        ensures yes { IsTrue result → Goes self.old (kinds.Mark mark.now) self.new }
        ensures no { result ≡ false → Refuses self.old (kinds.Mark mark.now) }
    {
        if self.has_rest() {
            return false;
        }
        if !is_mark(&self.next, mark) {
            return false;
        }
        if !comes_next(&self.latest(), &Told::Mark(*mark)) {
            return false;
        }
        self.latest = None;
        self.next = None;
        true
    }

    /// A head comes that begins the next move.
    fn begin_move(&mut self, head: &Head) -> bool
        requires owes { owed_of self.old ≢ [] }
        requires done { rest_of self.old.latest ≡ [] }
        ensures yes { IsTrue result → Goes self.old (kinds.Head head.now) self.new }
        ensures no { result ≡ false → Refuses self.old (kinds.Head head.now) }
    {
        let Some(planned) = next_move(&self.next) else {
            return false;
        };
        let told = ToldHead {
            head: *head,
            planned,
            first: 0,
        };
        if !may_come(&self.latest(), &told) {
            return false;
        }
        self.latest = Some(Traced::begin(told));
        self.next = None;
        true
    }

    /// A head comes while events of the last head's move are not out.
    fn continue_move(&mut self, head: &Head) -> bool
        requires { rest_of self.old.latest ≢ [] }
        ensures yes { IsTrue result → Goes self.old (kinds.Head head.now) self.new }
        ensures no { result ≡ false → Refuses self.old (kinds.Head head.now) }
    {
        let Some(traced) = &mut self.latest else {
            return false;
        };
        traced.take_head(head)
    }

    /// A head comes, where something is owed.
    fn take_head(&mut self, head: &Head) -> bool
        requires owes { owed_of self.old ≢ [] }
        ensures yes { IsTrue result → Goes self.old (kinds.Head head.now) self.new }
        ensures no { result ≡ false → Refuses self.old (kinds.Head head.now) }
    {
        if self.has_rest() {
            return self.continue_move(head);
        }
        self.begin_move(head)
    }

    /// The next record comes, where something is owed: whether it is the one that does. If so it is taken; else no
    /// record is judged any more.
    pub fn take(&mut self, given: &Record) -> bool
        requires owes { owed_of self.old ≢ [] }
        ensures yes { IsTrue result → Goes self.old given.now self.new }
        ensures no { result ≡ false → Refuses self.old given.now }
    {
        match given {
            Record::Head(head) => self.take_head(head),
            Record::Event(bits) => self.take_event(bits),
            Record::Mark(mark) => self.take_mark(mark),
            Record::End => false,
        }
    }
}

/// Whether an item is this mark.
fn is_mark(next: &Option<Item>, mark: &Mark) -> bool
    ensures { IsTrue result ↔ (next.now ≡ Some (items.Mark mark.now)) }
{
    match next {
        Some(Item::Mark(own)) => own == mark,
        _ => false,
    }
}

/// The move that an item is, if it is one.
fn next_move(next: &Option<Item>) -> Option<PlannedMove>
    ensures found { (m : AnyMove) → result ≡ Some m → next.now ≡ Some (items.Move m) }
    ensures none { result ≡ None → (m : AnyMove) → next.now ≢ Some (items.Move m) }
    ensures valid { MayBeNext next.now → IfSome result IsPlannedMove }
{
    match next {
        Some(Item::Move(planned)) => Some(*planned),
        _ => None,
    }
}
