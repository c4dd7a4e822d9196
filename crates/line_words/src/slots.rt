//! Slots that words fill.

ghost use Rattle.std.specs.Prelude.{◌≡◌, ◌≢◌, ℕ, List, ◌<◌, ◌==◌, true, false, None, option_map, slice_get};
ghost use Rattle.std.specs.Int.{bit_at};
ghost use Rattle.gcode_words.specs.declared.Word.{Word};

use gcode_words::Word;

/// How many slots there are.
const SLOTS: usize = 49;

/// Whether a number is in a set of numbers below 64.
fn is_in(set: u64, number: usize) -> bool
    requires { number < 64 }
    ensures { result ≡ (bit_at set number == 1) }
{
    set >> number & 1 == 1
}

/// A set of numbers below 64, with one more.
fn with(set: u64, number: usize) -> u64
    requires { number < 64 }
    ensures same { bit_at result number ≡ 1 }
    ensures others { (other : ℕ) → other ≢ number → bit_at result other ≡ bit_at set other }
{
    set | 1 << number
}

/// The words of a line that fill slots: a set of the slots that are filled, and the place of the word that fills each.
#[derive(Clone, Copy)]
pub struct Slots {
    filled: u64,
    places: [u8; SLOTS],
}

impl Slots {
    ghost use Rattle.line_words.specs.Slots.{is_filled, value_in};

    /// Slots of which none is filled.
    #[tactic(auto, unfolding(crate::specs::Slots::is_filled, crate::specs::Slots::value_in))]
    pub fn new() -> Slots
        ensures empty { (slot : ℕ) → is_filled result slot ≡ false }
        ensures values { (words : List Word) (slot : ℕ) → value_in result words slot ≡ None }
    {
        Slots {
            filled: 0,
            places: [0; SLOTS],
        }
    }

    /// Whether a slot is filled.
    #[tactic(auto, unfolding(crate::specs::Slots::is_filled))]
    pub fn is_filled(&self, slot: usize) -> bool
        requires { slot < 49 }
        ensures { result ≡ is_filled self.now slot }
    {
        is_in(self.filled, slot)
    }

    /// The value of the word that fills a slot, in millionths.
    #[tactic(auto, unfolding(crate::specs::Slots::value_in))]
    pub fn get(&self, words: &[Word], slot: usize) -> Option<i64>
        requires { slot < 49 }
        ensures { result ≡ value_in self.now words.now slot }
    {
        if !self.is_filled(slot) {
            return None;
        }
        match words.get(self.places[slot] as usize) {
            Some(word) => Some(word.value.micro),
            None => None,
        }
    }

    /// Fills a slot with the word at a place.
    #[tactic(auto, unfolding(crate::specs::Slots::is_filled, crate::specs::Slots::value_in))]
    pub fn fill(&mut self, slot: usize, place: usize)
        requires slot { slot < 49 }
        requires place { place < 256 }
        ensures filled { is_filled self.new slot ≡ true }
        ensures others_filled { (other : ℕ) → other ≢ slot → is_filled self.new other ≡ is_filled self.old other }
        ensures value { (words : List Word) → value_in self.new words slot ≡ option_map (λ w. w.value.micro) (slice_get words place) }
        ensures other_values { (words : List Word) (other : ℕ) → other ≢ slot → value_in self.new words other ≡ value_in self.old words other }
    {
        self.filled = with(self.filled, slot);
        self.places[slot] = place as u8;
    }
}
