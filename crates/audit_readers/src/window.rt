//! A window on a source: what was read of it and is not taken yet.

ghost use Rattle.std.specs.Prelude.{◌≡◌, ◌≤◌, length, drop, []};
ghost use Rattle.audit_readers.specs.Windows.{Fills, FillsNot, FillsUp, FillsSome, FailsToFill, TakesRest, FailsToTake, too_long, KnowsEnd};

use arrayvec::ArrayVec;
use outside::{Failed, Source};
use std::marker::Model;
use units::append;

/// Bytes of a source, in order, of which the first wait to be taken.
#[derive(Drop)]
pub struct Window {
    held: ArrayVec<u8, 4096>,
    place: usize,
    ended: bool,
}

impl Model for Window {
    ghost use Rattle.std.specs.Prelude.{◌≤◌, length, drop};
    ghost use Rattle.audit_readers.specs.Windows.{Window};

    ghost Value = { Window };

    ghost view = { λ w. record { waiting = drop w.place w.held.items; ended = w.ended } };

    ghost invariant = { λ w. (w.place ≤ length w.held.items) × (length w.held.items ≤ 4096) };
}

impl Window {
    ghost use Rattle.std.specs.Prelude.{◌≡◌, ◌<◌, ◌≤◌, length, drop, [], OnOk, OnErr, MatchResult, false};
    ghost use Rattle.audit_readers.specs.Windows.{Fills, FillsNot, FillsUp, FillsSome, FailsToFill, TakesRest, FailsToTake, too_long, KnowsEnd};

    /// Nothing is read.
    pub fn new() -> Window
        ensures waiting { result.waiting ≡ [] }
        ensures going { result.ended ≡ false }
    {
        Window {
            held: ArrayVec::new(),
            place: 0,
            ended: false,
        }
    }

    /// What waits.
    pub fn waiting(&self) -> &[u8]
        ensures { result.now ≡ self.now.waiting }
    {
        &self.held.as_slice()[self.place..]
    }

    /// Whether the source's end was read.
    pub fn ended(&self) -> bool
        ensures { result ≡ self.now.ended }
    {
        self.ended
    }

    /// The first bytes that wait are taken.
    pub fn take(&mut self, count: usize)
        requires { count ≤ length self.old.waiting }
        ensures waiting { self.new.waiting ≡ drop count self.old.waiting }
        ensures ended { self.new.ended ≡ self.old.ended }
    {
        self.place += count;
    }

    /// Reads more, while few bytes wait.
    pub fn fill<S: Source>(&mut self, source: &mut S) -> Result<(), Failed>
        requires room { length self.old.waiting ≤ 2048 }
        ensures filled { OnOk result (Fills self.old self.new (S.state source.old) (S.state source.new)) }
        ensures failed { OnErr result (FillsNot self.old self.new (S.state source.old) (S.state source.new)) }
    {
        let mut piece = [0; 2048];
        let count = source.read(&mut piece)?;
        let mut held = ArrayVec::new();
        append(&self.held.as_slice()[self.place..], &mut held);
        append(&piece[..count], &mut held);
        self.held = held;
        self.place = 0;
        self.ended = count == 0;
        Ok(())
    }

    /// Reads until 192 bytes wait, or the source's end was read. After a failed read it may be called again.
    pub fn fill_up<S: Source>(&mut self, source: &mut S) -> Result<(), Failed>
        requires known { KnowsEnd self.old (S.state source.old) }
        ensures filled { OnOk result (FillsUp self.old self.new (S.state source.old) (S.state source.new)) }
        ensures failed { OnErr result (FailsToFill self.old self.new (S.state source.old) (S.state source.new)) }
    {
        while self.waiting().len() < 192 && !self.ended {
            self.fill(source)?;
        }
        Ok(())
    }

    /// Reads where nothing waits, so that something does then, or the source's end was read. After a failed read it may be
    /// called again.
    pub fn fill_if_none<S: Source>(&mut self, source: &mut S) -> Result<(), Failed>
        requires known { KnowsEnd self.old (S.state source.old) }
        ensures filled { OnOk result (FillsSome self.old self.new (S.state source.old) (S.state source.new)) }
        ensures failed { OnErr result (FailsToFill self.old self.new (S.state source.old) (S.state source.new)) }
    {
        if !self.waiting().is_empty() {
            return Ok(());
        }
        self.fill_up(source)
    }

    /// Takes all bytes that follow, or as many as are too many, and answers how many were taken in all, so many before.
    pub fn take_rest<S: Source>(&mut self, source: &mut S, before: u64) -> Result<u64, Failed>
        requires known { KnowsEnd self.old (S.state source.old) }
        requires short { before < too_long }
        ensures { MatchResult result (λ now. TakesRest self.old self.new (S.state source.old) (S.state source.new) before now) (λ e. FailsToTake self.old self.new (S.state source.old) (S.state source.new)) }
    {
        let mut place = before;
        while place < 9_223_372_036_854_775_808 {
            self.fill_up(source)?;
            let count = self.waiting().len();
            if count == 0 {
                return Ok(place);
            }
            self.take(count);
            place += count as u64;
        }
        Ok(place)
    }
}
