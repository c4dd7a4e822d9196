//! A row of places whose first goes, time and again.

ghost use Rattle.std.specs.Prelude.{◌≡◌, ◌≤◌, ◌<◌, ◌+◌, List, length, replicate, get_or, set, take, drop};
ghost use Rattle.plan_passes.specs.Tables.{IsMovedUp};

use std::marker::Model;

/// N places, at most 64, that stand one behind another among 64. Where the first goes, those that stand begin one place
/// further on; only if the last of the 64 is in use are they copied to the front.
#[derive(Drop)]
pub(crate) struct Row<T: Copy, const N: usize> {
    pub(crate) places: [T; 64],
    /// The first place in use.
    pub(crate) start: usize,
}

impl<T: Copy, const N: usize> Model for Row<T, N> {
    ghost use Rattle.std.specs.Prelude.{List, ◌≤◌, ◌+◌, take, drop};

    ghost Value = { List T };

    ghost view = { λ r. take N (drop r.start r.places) };

    ghost invariant = { λ r. r.start + N ≤ 64 };
}

impl<T: Copy, const N: usize> Row<T, N> {
    ghost use Rattle.std.specs.Prelude.{◌≡◌, ◌≤◌, ◌<◌, ◌+◌, List, length, replicate, get_or, set, take, drop};
    ghost use Rattle.plan_passes.specs.Tables.{IsMovedUp};

    /// A row with the same in each place.
    pub(crate) fn new(x: T) -> Row<T, N>
        requires { N ≤ 64 }
        ensures { result ≡ replicate N x }
    {
        Row {
            places: [x; 64],
            start: 0,
        }
    }

    /// What a place holds.
    pub(crate) fn at(&self, i: usize) -> T
        requires { i < N }
        ensures { (d : T) → result ≡ get_or self.now i d }
    {
        self.places[self.start + i]
    }

    /// What the first places hold.
    pub(crate) fn first(&self, count: usize) -> &[T]
        requires { count ≤ N }
        ensures part { result.now ≡ take count self.now }
        ensures long { length result.now ≡ count }
    {
        let places = &self.places[..];
        &places[self.start..self.start + count]
    }

    /// Writes something into a place.
    pub(crate) fn put(&mut self, i: usize, x: T)
        requires { i < N }
        ensures put { self.new ≡ set self.old i x }
        ensures places { length self.old ≡ N }
    {
        self.places[self.start + i] = x;
    }

    /// Moves what the row holds one place up: the first is gone, and the last place may hold anything.
    pub(crate) fn move_up(&mut self)
        requires { 0 < N }
        ensures { IsMovedUp N self.old self.new }
    {
        if self.start + N < 64 {
            self.start += 1;
            return;
        }
        self.places.copy_within(self.start + 1.., 0);
        self.start = 0;
    }
}
