//! What the rules of rings that two threads share have in common: rights, slots, places; and how a thread waits.
//!
//! A rule of a table of `atomic_table` often says that one seat alone may do something, and that its view has what was
//! done so far. The lemmas of `proofs/` carry this through steps, splits and joins.
#![tactic(auto)]

ghost use Rattle.std.specs.Prelude.{◌≡◌, ℕ, ◌+◌, ◌%◌, ◌<◌, Bool, true, List, slice_set};
ghost use Rattle.shared_rings.specs.Rights.{Sole};

mod waits;

pub use waits::is_last;

/// The place after another, of so many in a circle.
#[inline]
pub fn place_behind(place: usize, places: usize) -> usize
    requires { place < places }
    ensures { result ≡ (place + 1) % places }
{
    if place + 1 == places { 0 } else { place + 1 }
}

/// If the one seat that has a right steps, it keeps the right, and no other seat has it.
pub fn rights_stay()
    ensures { (views : List ℕ) (may knew knows : ℕ → Bool) (owner id view : ℕ) →
        Sole views may owner (λ v. knew v ≡ true) → id ≡ owner → knows view ≡ true → Sole (slice_set views id view) may owner (λ v. knows v ≡ true) }
{}
