//! Whether what is told is legal.

ghost use Rattle.std.specs.Prelude.{◌≡◌, ◌+◌, ◌≤◌, ◌<◌, ◌^◌, ◌↔◌, IsTrue, IfSome};
ghost use Rattle.std.specs.List.{All};
ghost use Rattle.profile.specs.Profiles.{distance};
ghost use Rattle.legal_heads.specs.Moves.{geometry_of, fastest, fastest_joint};
ghost use Rattle.step_line.specs.Asking.{IsPlannedMove};
ghost use Rattle.legal_heads.specs.Speeds.{
  change_of,
  EndsMove,
  StaysInMove,
  BeginsLater,
  IsLegalChange,
  MayCome,
  MayStop,
  IsDone,
  MayMark,
  ComesNext,
  latest_behind,
  AreLegal,
  IsOfPlannedMove,
};

use crate::{Told, ToldHead};
use junction_speed::junction;
use line_geom::measure::geom;
use line_geom::{Cap, Geom};
use std::marker::Model;
use step_line::{Mark, PlannedMove};
use units::{Limits, Move, Rate, Steps3};

/// A head with the geometry of its move, worked out once.
#[derive(Drop)]
struct Measured {
    told: ToldHead,
    geometry: Geom,
}

impl Model for Measured {
    ghost use Rattle.legal_heads.specs.declared.ToldHead.{ToldHead as AnyHead};
    ghost use Rattle.legal_heads.specs.Measuring.{IsMeasured};

    ghost Value = { AnyHead };

    ghost view = { λ m. m.told };

    ghost invariant = { λ m. IsMeasured m.told m.geometry };
}

impl Measured {
    /// A head whose move may be planned.
    fn of(h: &ToldHead) -> Measured
        requires { IsPlannedMove h.now.planned }
        ensures { result ≡ h.now }
    {
        let Some(geometry) = geom(&h.planned.mv, &h.planned.limits) else {
            unreachable!()
        };
        Measured { told: *h, geometry }
    }

    /// How much the squared speed may change over its events.
    fn change(&self) -> u128
        ensures { result ≡ change_of self.now }
    {
        self.geometry.q as u128 * self.told.head.n as u128
    }

    /// The greatest squared speed that the axes allow along its move.
    fn fastest(&self) -> u64
        ensures { result ≡ fastest self.now.planned }
    {
        let rapid = self.geometry.rapid;
        rapid * rapid
    }

    /// The greatest squared speed at which its move may end where that of another begins.
    #[tactic(auto, unfolding(crate::specs::Moves::fastest_joint))]
    fn fastest_to(&self, next: &Measured) -> u64
        ensures { result ≡ fastest_joint self.now.planned next.now.planned }
    {
        let rapid = self.fastest().min(next.fastest());
        match junction(&self.geometry, &next.geometry, next.told.planned.deviation) {
            Cap::At(cap) => cap.min(rapid),
            Cap::Free => rapid,
        }
    }

    /// Whether the last of its events is the last of its move.
    fn ends_move(&self) -> bool
        ensures { IsTrue result ↔ EndsMove self.now }
    {
        self.told.first as u64 + self.told.head.n as u64 == self.geometry.n as u64
    }

    /// Whether the machine can stop over its events.
    fn may_stop(&self) -> bool
        ensures { IsTrue result ↔ (self.now.head.w ≤ change_of self.now) }
    {
        self.told.head.w as u128 <= self.change()
    }
}

/// Whether two places are one.
fn is_same_place(a: &Steps3, b: &Steps3) -> bool
    ensures { IsTrue result ↔ (a.now ≡ b.now) }
{
    a.x == b.x && a.y == b.y && a.z == b.z
}

/// Whether two moves go from the same place to the same place.
fn is_same_way(a: &Move, b: &Move) -> bool
    ensures { IsTrue result ↔ (a.now ≡ b.now) }
{
    is_same_place(&a.from, &b.from) && is_same_place(&a.to, &b.to)
}

/// Whether two moves have the same limits.
fn has_same_limits(a: &Limits, b: &Limits) -> bool
    ensures { IsTrue result ↔ (a.now ≡ b.now) }
{
    *a == *b
}

/// Whether two moves have the same rate.
fn has_same_rate(a: &Rate, b: &Rate) -> bool
    ensures { IsTrue result ↔ (a.now ≡ b.now) }
{
    *a == *b
}

/// Whether two moves are the same to a plan.
fn is_same(a: &PlannedMove, b: &PlannedMove) -> bool
    ensures { IsTrue result ↔ (a.now ≡ b.now) }
{
    a.line == b.line
        && a.deviation == b.deviation
        && is_same_way(&a.mv, &b.mv)
        && has_same_rate(&a.rate, &b.rate)
        && has_same_limits(&a.limits, &b.limits)
}

/// Whether a head goes on with the move of the one before it, where that ends.
fn stays_in_move(a: &ToldHead, b: &ToldHead) -> bool
    ensures { IsTrue result ↔ StaysInMove a.now b.now }
{
    is_same(&b.planned, &a.planned) && b.first as u64 == a.first as u64 + a.head.n as u64
}

/// Whether a head begins a later move once that of the one before it is done, no faster than the two may be joined.
fn begins_later(a: &Measured, b: &Measured) -> bool
    ensures { IsTrue result ↔ BeginsLater a.now b.now }
{
    a.ends_move() && b.told.first == 0 && b.told.head.w <= a.fastest_to(b)
}

/// Whether a head may come after another of its stretch.
fn is_legal_change(a: &Measured, b: &Measured) -> bool
    ensures { IsTrue result ↔ IsLegalChange a.now b.now }
{
    if a.told.head.w.abs_diff(b.told.head.w) as u128 > a.change() {
        return false;
    }
    stays_in_move(&a.told, &b.told) || begins_later(a, b)
}

/// Whether a head may come in a stretch: first at rest, or after the one before it.
fn may_come(before: &Option<ToldHead>, h: &Measured) -> bool
    requires { IfSome before.now (λ a. IsPlannedMove a.planned) }
    ensures { IsTrue result ↔ MayCome before.now h.now }
{
    match before {
        None => h.told.first == 0 && h.told.head.w == 0,
        Some(a) => is_legal_change(&Measured::of(a), h),
    }
}

/// Whether a stretch may end after its latest head by a cut, which may break its move off.
fn may_break_off(before: &Option<ToldHead>) -> bool
    requires { IfSome before.now (λ a. IsPlannedMove a.planned) }
    ensures { IsTrue result ↔ MayStop before.now }
{
    match before {
        None => true,
        Some(a) => Measured::of(a).may_stop(),
    }
}

/// Whether a stretch may end after its latest head, with the last event of its move.
fn may_end(before: &Option<ToldHead>) -> bool
    requires { IfSome before.now (λ a. IsPlannedMove a.planned) }
    ensures { IsTrue result ↔ (MayStop before.now × IsDone before.now) }
{
    match before {
        None => true,
        Some(a) => {
            let latest = Measured::of(a);
            latest.may_stop() && latest.ends_move()
        }
    }
}

/// Whether a mark may come after the latest head of a stretch.
fn may_mark(before: &Option<ToldHead>, mark: &Mark) -> bool
    requires { IfSome before.now (λ a. IsPlannedMove a.planned) }
    ensures { IsTrue result ↔ MayMark before.now mark.now }
{
    match mark {
        Mark::Cut(_) => may_break_off(before),
        Mark::Reset(_) => true,
        Mark::Dwell(_) | Mark::Spindle(_, _) | Mark::Coolant(_) => may_end(before),
    }
}

/// Whether what is told comes next after the latest head of a stretch, or at a stretch's beginning.
pub fn comes_next(before: &Option<ToldHead>, told: &Told) -> bool
    requires before { IfSome before.now (λ a. IsPlannedMove a.planned) }
    requires told { IsOfPlannedMove told.now }
    ensures { IsTrue result ↔ ComesNext before.now told.now }
{
    match told {
        Told::Head(h) => {
            let next = Measured::of(h);
            h.head.w <= next.fastest() && may_come(before, &next)
        }
        Told::Mark(mark) => may_mark(before, mark),
        Told::End => may_end(before),
    }
}

/// The latest head of the stretch after what is told.
pub fn latest(told: &Told) -> Option<ToldHead>
    ensures { result ≡ latest_behind told.now }
{
    match told {
        Told::Head(h) => Some(*h),
        Told::Mark(_) => None,
        Told::End => None,
    }
}

/// Whether all that is told is legal. If no end is told, the last stretch is still open.
pub fn are_legal(told: &[Told]) -> bool
    requires { All IsOfPlannedMove told.now }
    ensures { IsTrue result ↔ AreLegal told.now }
{
    let mut before = None;
    for next in told {
        if !comes_next(&before, next) {
            return false;
        }
        before = latest(next);
    }
    true
}
