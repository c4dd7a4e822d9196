//! What a board moves: the plan, the piece in hand, and the state of the motion.

ghost use Rattle.std.specs.Prelude.{◌≡◌, ◌↔◌, ◌⊎◌, ◌<◌, ◌^◌, List, [], ◌∷◌, ◌++◌, ◌+◌, ◌-◌, ◌≤◌, ◌==◌, ◌||◌, length, true, false, None};
ghost use Rattle.feed_hold.specs.declared.Motion.{Motion as AnyMotion};
ghost use Rattle.feed_hold.specs.declared.Motion.TheVariants as motions;
ghost use Rattle.step_line.specs.Asking.{IsPlannedMove};
ghost use Rattle.step_line.specs.declared.Piece.{Piece as AnyPiece};
ghost use Rattle.step_line.specs.declared.Segment.{Segment};
ghost use Rattle.overrides.specs.Percents.{IsOverrides, taken};
ghost use Rattle.feed_hold.specs.Motions.{after_word, behind_reset, is_moving, is_going, is_halting, is_limited, is_stopping};
ghost use Rattle.plan_rules.specs.Plans.{Planned};
ghost use Rattle.plan_rules.specs.Segments.{advanced};
ghost use Rattle.plan_rules.specs.Taking.{IsNext};
ghost use Rattle.planner_runs.specs.Moving.{has_blocks, has_segment, is_full, is_slowing};
ghost use Rattle.planner_runs.specs.Runs.{cleared, fresh_plan, normal_overrides, with_move};
ghost use Rattle.step_line.specs.Finishing.{ticks_together};
ghost use Rattle.board_machine.specs.Machines.{Runs, limit_motion, marks_cut, mode_in, observed, start_motion};

use code_table::{Exec, Ovr};
use feed_hold::{Hold, Motion};
use line_geom::Cap;
use line_geom::measure::geom;
use overrides::Overrides;
use plan_passes::Plan;
use planner_ring::Block;
use segment_prep::{Mode, next_segment};
use step_line::{Mark, Piece, PlannedMove};

/// The plan, of at most N - 1 blocks, the piece that was given and is not published yet, how many ticks were given, and the
/// state of the motion.
#[derive(Drop)]
pub struct Machine<const N: usize> {
    pub plan: Plan<N>,
    pub overrides: Overrides,
    pub hold: Hold,
    pub hand: Option<Piece>,
    pub given: u64,
}

/// Whether a piece marks a cut.
pub fn is_cut(piece: Piece) -> bool
    ensures { result ≡ marks_cut piece }
{
    matches!(piece, Piece::Mark(Mark::Cut(_)))
}

impl<const N: usize> Machine<N> {
    /// An empty plan at rest, of which nothing was given. N is from 2 to 64.
    pub fn new() -> Machine<N>
        requires { (2 ≤ N) × (N ≤ 64) }
        ensures { Runs result fresh_plan motions.Idle [] [] }
    {
        Machine {
            plan: Plan::new(),
            overrides: Overrides::normal(),
            hold: Hold::new(),
            hand: None,
            given: 0,
        }
    }

    /// Whether a block is queued.
    #[inline]
    pub fn has_blocks(&self) -> bool
        ensures { result ≡ has_blocks self.now.plan.blocks }
    {
        self.plan.len() > 0
    }

    /// Whether no other block has room.
    #[inline]
    #[tactic(auto, using(crate::proofs::Machining::full_is))]
    pub fn is_full(&self) -> bool
        ensures { result ≡ is_full (N - 1) self.now.plan }
    {
        self.plan.is_full()
    }

    /// Whether moves or jogs are carried out.
    #[inline]
    pub fn is_going(&self) -> bool
        ensures { result ≡ is_going self.now.hold.motion }
    {
        matches!(self.hold.motion, Motion::Run | Motion::Jog)
    }

    /// Whether it slows down to a stop, or has done so.
    #[inline]
    fn is_stopping(&self) -> bool
        ensures { result ≡ is_stopping self.now.hold.motion }
    {
        matches!(
            self.hold.motion,
            Motion::Holding | Motion::Cancelling | Motion::Stopping
        )
    }

    /// Whether the machine moves, or slows down to a stop.
    #[inline]
    fn is_moving(&self) -> bool
        ensures { result ≡ (is_going self.now.hold.motion || is_slowing self.now.hold.motion self.now.plan.speed) }
    {
        match self.hold.motion {
            Motion::Run | Motion::Jog => true,
            Motion::Holding | Motion::Cancelling | Motion::Stopping => self.plan.speed() != 0,
            Motion::Idle | Motion::Held | Motion::Alarm => false,
        }
    }

    /// Whether a segment is due: an event is left, and the machine moves, or slows down to a stop.
    #[inline]
    pub fn is_due(&self) -> bool
        ensures { result ≡ has_segment self.now.hold.motion self.now.plan }
    {
        self.has_blocks() && self.is_moving()
    }

    /// Whether the machine is held, or slows down for that, or its jogs were cancelled.
    #[inline]
    pub fn is_halting(&self) -> bool
        ensures { result ≡ is_halting self.now.hold.motion }
    {
        matches!(
            self.hold.motion,
            Motion::Holding | Motion::Held | Motion::Cancelling
        )
    }

    /// Whether its jogs were cancelled.
    #[inline]
    pub fn is_cancelled(&self) -> bool
        ensures { (result ≡ true) ↔ (self.now.hold.motion ≡ motions.Cancelling) }
    {
        self.hold.motion == Motion::Cancelling
    }

    /// Whether a soft limit stops it, or has stopped it.
    #[inline]
    pub fn is_limited(&self) -> bool
        ensures { result ≡ is_limited self.now.hold.motion }
    {
        matches!(self.hold.motion, Motion::Stopping | Motion::Alarm)
    }

    /// Whether it stands in alarm.
    #[inline]
    pub fn is_locked(&self) -> bool
        ensures { (result ≡ true) ↔ (self.now.hold.motion ≡ motions.Alarm) }
    {
        self.hold.motion == Motion::Alarm
    }

    /// Whether the machine is held.
    #[inline]
    pub fn is_held(&self) -> bool
        ensures { (result ≡ true) ↔ (self.now.hold.motion ≡ motions.Held) }
    {
        self.hold.motion == Motion::Held
    }

    /// Whether queued blocks wait for a start.
    #[inline]
    pub fn is_waiting(&self) -> bool
        ensures yes { result ≡ true → (self.now.hold.motion ≡ motions.Idle) × (has_blocks self.now.plan.blocks ≡ true) }
        ensures no { result ≡ false → self.now.hold.motion ≡ motions.Idle → has_blocks self.now.plan.blocks ≡ true → ⊥ }
    {
        self.hold.motion == Motion::Idle && self.has_blocks()
    }

    /// Whether it has slowed down to a stop, with nothing in hand.
    #[inline]
    pub fn has_slowed_down(&self) -> bool
        ensures { (result ≡ true) ↔ ((is_stopping self.now.hold.motion ≡ true) × (self.now.plan.speed ≡ 0) × (self.now.hand ≡ None)) }
    {
        self.is_stopping() && self.plan.speed() == 0 && self.hand.is_none()
    }

    /// Whether it has stopped, where so many ticks were found done: it has slowed down to a stop, with nothing in hand, and
    /// each tick that was given is done.
    #[inline]
    pub fn has_stopped(&self, done: u64) -> bool
        ensures { (result ≡ true) ↔ ((is_stopping self.now.hold.motion ≡ true) × (self.now.plan.speed ≡ 0) × (self.now.hand ≡ None) × (done ≡ self.now.given)) }
    {
        self.has_slowed_down() && done == self.given
    }

    /// Puts a move behind the others.
    pub fn add(&mut self, m: &PlannedMove)
        requires planned { IsPlannedMove m.now }
        requires room { is_full (N - 1) self.old.plan ≡ false }
        requires range { IsOverrides self.old.overrides }
        requires same { self.old.plan.overrides ≡ self.old.overrides }
        ensures { (p : Planned) (now : AnyMotion) (hand given : List AnyPiece) → Runs self.old p now hand given → Runs self.new (with_move p m.now) now hand given }
    {
        let Some(geom) = geom(&m.mv, &m.limits) else {
            unreachable!()
        };
        let block = Block {
            line: m.line,
            mv: m.mv,
            rate: m.rate,
            geom,
            prepared: 0,
            entry: Cap::Free,
        };
        let Ok(()) = self.plan.add(block, m.deviation, &self.overrides) else {
            unreachable!()
        };
    }

    /// How segments are taken: to slow down where the machine is to stop.
    #[inline]
    fn mode(&self) -> Mode
        ensures { result ≡ mode_in self.now.hold.motion }
    {
        match self.hold.motion {
            Motion::Holding | Motion::Cancelling | Motion::Stopping => Mode::Hold,
            _ => Mode::Go,
        }
    }

    /// Takes the next segment into the hand.
    pub fn take(&mut self)
        requires due { has_segment self.old.hold.motion self.old.plan ≡ true }
        requires few { self.old.given < 2 ^ 62 }
        requires same { self.old.plan.overrides ≡ self.old.overrides }
        ensures { (p : Planned) (now : AnyMotion) (given : List AnyPiece) → Runs self.old p now [] given
            → (s : Segment) × IsNext p (mode_in now) s × Runs self.new (advanced p s.n s.w_out) now (AnyPiece.Segment s ∷ []) (given ++ AnyPiece.Segment s ∷ []) }
    {
        let mode = self.mode();
        let Some(segment) = next_segment(&mut self.plan, &self.overrides, mode) else {
            unreachable!()
        };
        self.given += segment.n as u64;
        self.hand = Some(Piece::Segment(segment));
    }

    /// Takes a mark into the hand.
    pub fn put_mark(&mut self, mark: Mark)
        requires few { self.old.given < 2 ^ 62 }
        ensures { (p : Planned) (now : AnyMotion) (given : List AnyPiece) → Runs self.old p now [] given
            → Runs self.new p now (AnyPiece.Mark mark ∷ []) (given ++ AnyPiece.Mark mark ∷ []) }
    {
        self.given += 1;
        self.hand = Some(Piece::Mark(mark));
    }

    /// What is planned is dropped.
    pub fn clear(&mut self)
        ensures { (p : Planned) (now : AnyMotion) (hand given : List AnyPiece) → Runs self.old p now hand given → Runs self.new (cleared p) now hand given }
    {
        self.plan.clear();
    }

    /// What is planned is dropped, and the mark of that cut comes into the hand.
    pub fn cut(&mut self, mark: Mark)
        requires few { self.old.given < 2 ^ 62 }
        ensures { (p : Planned) (now : AnyMotion) (given : List AnyPiece) → Runs self.old p now [] given
            → Runs self.new (cleared p) now (AnyPiece.Mark mark ∷ []) (given ++ AnyPiece.Mark mark ∷ []) }
    {
        self.plan.clear();
        self.put_mark(mark);
    }

    /// Takes the end into the hand.
    pub fn put_end(&mut self)
        ensures { (p : Planned) (now : AnyMotion) (given : List AnyPiece) → Runs self.old p now [] given
            → Runs self.new p now (AnyPiece.End ∷ []) (given ++ AnyPiece.End ∷ []) }
    {
        self.hand = Some(Piece::End);
    }

    /// The piece in hand is published.
    #[inline]
    pub fn drop_hand(&mut self)
        ensures { (p : Planned) (now : AnyMotion) (piece : AnyPiece) (given : List AnyPiece) → Runs self.old p now (piece ∷ []) given → Runs self.new p now [] given }
    {
        self.hand = None;
    }

    /// Queued blocks start the cycle, or a jog.
    pub fn start(&mut self, jog: bool)
        requires { self.old.hold.motion ≡ motions.Idle }
        ensures runs { (p : Planned) (now : AnyMotion) (hand given : List AnyPiece) → Runs self.old p now hand given → Runs self.new p (start_motion jog) hand given }
        ensures starts { self.new.hold.motion ≡ start_motion jog }
    {
        self.hold.on_start(jog);
    }

    /// The cycle is over, or the jogs are.
    pub fn drain(&mut self)
        requires { (self.old.hold.motion ≡ motions.Idle) ⊎ (is_going self.old.hold.motion ≡ true) }
        ensures runs { (p : Planned) (now : AnyMotion) (hand given : List AnyPiece) → Runs self.old p now hand given → Runs self.new p motions.Idle hand given }
        ensures idle { self.new.hold.motion ≡ motions.Idle }
    {
        self.hold.on_drained();
    }

    /// A word of requests was taken: holds, and starts or resumes, as it asks.
    pub fn obey(&mut self, word: Exec)
        ensures { (p : Planned) (now : AnyMotion) (hand given : List AnyPiece) → Runs self.old p now hand given
            → Runs self.new p (after_word word (has_blocks p.blocks) now) hand given }
    {
        let queued = self.has_blocks();
        self.hold.on_exec(word, queued);
    }

    /// A word that changes overrides was taken: it is planned for what they come to.
    pub fn change(&mut self, word: Ovr)
        requires range { IsOverrides self.old.overrides }
        ensures runs { (p : Planned) (now : AnyMotion) (hand given : List AnyPiece) → Runs self.old p now hand given
            → Runs self.new (record p { overrides = taken p.overrides word }) now hand given }
        ensures range { IsOverrides self.new.overrides }
    {
        self.overrides.take(word);
        self.plan.replan(&self.overrides);
    }

    /// Each override is at 100 percent again.
    pub fn even(&mut self)
        ensures runs { (p : Planned) (now : AnyMotion) (hand given : List AnyPiece) → Runs self.old p now hand given
            → Runs self.new (record p { overrides = normal_overrides }) now hand given }
        ensures motion { self.new.hold ≡ self.old.hold }
    {
        self.overrides = Overrides::normal();
        self.plan.replan(&self.overrides);
    }

    /// The machine has slowed down to a stop, and is held.
    pub fn stop(&mut self)
        requires { self.old.hold.motion ≡ motions.Holding }
        ensures { (p : Planned) (now : AnyMotion) (hand given : List AnyPiece) → Runs self.old p now hand given → Runs self.new p motions.Held hand given }
    {
        self.hold.on_stopped();
    }

    /// A soft limit stops the machine: where it runs it slows down from here on, and where it stands it is in alarm at once.
    pub fn limit(&mut self)
        requires { (self.old.hold.motion ≡ motions.Idle) ⊎ (self.old.hold.motion ≡ motions.Run) }
        ensures { (p : Planned) (now : AnyMotion) (hand given : List AnyPiece) → Runs self.old p now hand given → Runs self.new p (limit_motion now) hand given }
    {
        self.hold.on_limit();
    }

    /// The machine has slowed down to a stop at a soft limit, and is in alarm.
    pub fn lock(&mut self)
        requires { self.old.hold.motion ≡ motions.Stopping }
        ensures { (p : Planned) (now : AnyMotion) (hand given : List AnyPiece) → Runs self.old p now hand given → Runs self.new p motions.Alarm hand given }
    {
        self.hold.on_stopped();
    }

    /// A line unlocks the machine, which stands in alarm.
    pub fn unlock(&mut self)
        requires { self.old.hold.motion ≡ motions.Alarm }
        ensures { (p : Planned) (now : AnyMotion) (hand given : List AnyPiece) → Runs self.old p now hand given → Runs self.new p motions.Idle hand given }
    {
        self.hold.on_unlock();
    }

    /// A reset has halted the machine: an empty plan at rest, of which nothing was given. One that was moving is locked, and one in
    /// alarm stays so. Answers whether it was moving.
    pub fn reset(&mut self) -> bool
        ensures moving { result ≡ is_moving self.old.hold.motion }
        ensures runs { Runs self.new fresh_plan (behind_reset self.old.hold.motion) [] [] }
    {
        let moving = self.hold.on_reset();
        let normal = Overrides::normal();
        self.plan.clear();
        self.plan.replan(&normal);
        self.overrides = normal;
        self.hand = None;
        self.given = 0;
        moving
    }

    /// Jogs that were cancelled are cut, and the machine stands.
    pub fn end_cancel(&mut self)
        requires { self.old.hold.motion ≡ motions.Cancelling }
        ensures { (p : Planned) (now : AnyMotion) (hand given : List AnyPiece) → Runs self.old p now hand given → Runs self.new p motions.Idle hand given }
    {
        self.hold.on_stopped();
    }

    /// So many ticks were found done. Where each that was given is, the cycle is over, or the jogs are, where nothing is
    /// left to run.
    pub fn observe(&mut self, done: u64)
        ensures { (p : Planned) (now : AnyMotion) (hand given : List AnyPiece) → Runs self.old p now hand given
            → Runs self.new p (observed now p hand (done == ticks_together given)) hand given }
    {
        if self.hand.is_some() || done != self.given {
            return;
        }
        if self.is_going() && !self.has_blocks() {
            self.drain();
        }
    }

    /// For how many blocks more there is room.
    pub fn free_blocks(&self) -> u8
        ensures { result + length self.now.plan.blocks ≡ N - 1 }
    {
        self.plan.free() as u8
    }

    /// The machine, which stands, is held for a pause.
    pub fn pause(&mut self)
        requires { self.old.hold.motion ≡ motions.Idle }
        ensures { (p : Planned) (now : AnyMotion) (hand given : List AnyPiece) → Runs self.old p now hand given → Runs self.new p motions.Held hand given }
    {
        self.hold.on_pause();
    }
}
