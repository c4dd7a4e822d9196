//! A head whose events come.

ghost use Rattle.std.specs.Prelude.{◌≡◌, ◌↔◌, IsTrue, IfSome};
ghost use Rattle.step_line.specs.Asking.{IsPlannedMove};
ghost use Rattle.legal_heads.specs.Speeds.{ComesNext, IsOfItsMove};
ghost use Rattle.legal_heads.specs.declared.Told.TheVariants as told_as;

use legal_heads::{Told, ToldHead, comes_next};
use std::marker::Model;
use step_line::{Bits, Head, Tracer, events};

/// A head of a move that may be planned, and how many of its events are out.
#[derive(Drop)]
pub(crate) struct Traced {
    told: ToldHead,
    out: u32,
    tracer: Tracer,
}

impl Model for Traced {
    ghost use Rattle.std.specs.Prelude.{◌≡◌, ◌+◌};
    ghost use Rattle.part_making.specs.Judging.{Traced, IsTraced};

    ghost Value = { Traced };

    ghost view = { λ t. record { told = t.told; out = t.out } };

    ghost invariant = { λ t. IsTraced (record { told = t.told; out = t.out }) × (t.tracer.mv ≡ t.told.planned.mv) × (t.tracer.done ≡ t.told.first + t.out) };
}

impl Traced {
    ghost use Rattle.std.specs.Prelude.{◌≡◌, ◌+◌, ◌<◌, ◌≤◌, ◌≢◌, ◌↔◌, [], IsTrue, Some, false};
    ghost use Rattle.step_line.specs.Counting.{events_of};
    ghost use Rattle.step_line.specs.Asking.{IsPlannedMove};
    ghost use Rattle.step_line.specs.Events.{event_of};
    ghost use Rattle.legal_heads.specs.Speeds.{IsOfItsMove, EndsMove};
    ghost use Rattle.std.specs.declared.option.Option.{Option};
    ghost use Rattle.step_line.specs.declared.Record.TheVariants as kinds;
    ghost use Rattle.part_making.specs.Judging.{IsTraced, coming_of, rest_of, head_on, Goes, Refuses};
    ghost use Rattle.part_making.specs.declared.Item.{Item as AnyItem};

    /// A head that begins its move: none of its events is out.
    pub(crate) fn begin(told: ToldHead) -> Traced
        requires planned { IsPlannedMove told.planned }
        requires of_move { IsOfItsMove told }
        requires first { told.first ≡ 0 }
        ensures { result ≡ record { told = told; out = 0 } }
    {
        Traced {
            told,
            out: 0,
            tracer: Tracer::new(told.planned.mv),
        }
    }

    /// The head.
    pub(crate) fn told(&self) -> ToldHead
        ensures told { result ≡ self.now.told }
        ensures valid { IsTraced self.now }
    {
        self.told
    }

    /// Whether all of its events are out.
    #[tactic(auto, using(crate::proofs::Going::out_tells))]
    pub(crate) fn is_out(&self) -> bool
        ensures out { IsTrue result ↔ (self.now.out ≡ self.now.told.head.n) }
        ensures coming { IsTrue result ↔ (coming_of (Some self.now) ≡ []) }
        ensures valid { IsTraced self.now }
    {
        self.out == self.told.head.n
    }

    /// How many events its move has.
    fn events(&self) -> u32
        ensures { result ≡ events_of self.now.told.planned.mv }
    {
        events(&self.told.planned.mv)
    }

    /// Whether all events of its move are out.
    #[tactic(auto, using(crate::proofs::Going::done_tells))]
    pub(crate) fn is_done(&self) -> bool
        ensures rest { IsTrue result ↔ (rest_of (Some self.now) ≡ []) }
        ensures valid { IsTraced self.now }
    {
        u64::from(self.events()) <= u64::from(self.told.first) + u64::from(self.out)
    }

    /// A head that goes on with its move where it ends.
    fn next_head(&self, head: &Head) -> ToldHead
        ensures { result ≡ head_on self.now head.now }
    {
        let _most = self.events();
        ToldHead {
            head: *head,
            planned: self.told.planned,
            first: self.told.first + self.told.head.n,
        }
    }

    /// A head goes on with its move.
    fn begin_next(&mut self, told: ToldHead)
        requires out { self.old.out ≡ self.old.told.head.n }
        requires planned { told.planned ≡ self.old.told.planned }
        requires first { told.first ≡ self.old.told.first + self.old.told.head.n }
        requires of_move { IsOfItsMove told }
        ensures { self.new ≡ record { told = told; out = 0 } }
    {
        self.told = told;
        self.out = 0;
    }

    /// A head comes while events of the move are not out: whether it goes on with the move. If so it is taken.
    pub(crate) fn take_head(&mut self, head: &Head) -> bool
        requires { rest_of (Some self.old) ≢ [] }
        ensures yes { IsTrue result → (next : Option AnyItem) → Goes (record { latest = Some self.old; next = next }) (kinds.Head head.now) (record { latest = Some self.new; next = next }) }
        ensures no { result ≡ false → (next : Option AnyItem) → Refuses (record { latest = Some self.old; next = next }) (kinds.Head head.now) }
    {
        if !self.is_out() {
            return false;
        }
        let told = self.next_head(head);
        if !may_come(&Some(self.told), &told) {
            return false;
        }
        self.begin_next(told);
        true
    }

    /// Its next event is out.
    fn step(&mut self) -> Bits
        requires { self.old.out < self.old.told.head.n }
        ensures event { result ≡ event_of self.old.told.planned.mv (self.old.told.first + self.old.out + 1) }
        ensures out { self.new ≡ record { told = self.old.told; out = self.old.out + 1 } }
    {
        self.out += 1;
        self.tracer.step()
    }

    /// An event comes: whether it is the next one of the head. If so it is taken.
    pub(crate) fn take(&mut self, bits: &Bits) -> bool
        ensures yes { IsTrue result → (next : Option AnyItem) → Goes (record { latest = Some self.old; next = next }) (kinds.Event bits.now) (record { latest = Some self.new; next = next }) }
        ensures no { result ≡ false → (next : Option AnyItem) → Refuses (record { latest = Some self.old; next = next }) (kinds.Event bits.now) }
    {
        if self.is_out() {
            return false;
        }
        is_same_event(&self.step(), bits)
    }
}

/// Whether two events are the same.
fn is_same_event(a: &Bits, b: &Bits) -> bool
    ensures { IsTrue result ↔ (a.now ≡ b.now) }
{
    *a == *b
}

/// Whether a head may come next, with some events of its move and the move's line.
pub(crate) fn may_come(latest: &Option<ToldHead>, told: &ToldHead) -> bool
    requires latest { IfSome latest.now (λ a. IsPlannedMove a.planned) }
    requires told { IsPlannedMove told.now.planned }
    ensures { IsTrue result ↔ (IsOfItsMove told.now × ComesNext latest.now (told_as.Head told.now)) }
{
    told.head.line == told.planned.line
        && told.head.n >= 1
        && u64::from(told.first) + u64::from(told.head.n) <= u64::from(events(&told.planned.mv))
        && comes_next(latest, &Told::Head(*told))
}
