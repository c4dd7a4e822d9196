//! What overrides keep, as laws.

ghost use Rattle.std.specs.Prelude.{◌≡◌, ℕ, ℤ, Bool, true, false, List, fold};
ghost use Rattle.units.specs.declared.Rate.TheVariants.{Rapid, Jog};
ghost use Rattle.code_table.specs.declared.flags.Ovr.{Ovr};
ghost use Rattle.overrides.specs.declared.Overrides.{Overrides};
ghost use Rattle.overrides.specs.Percents.{IsOverrides, percent_after, taken, nominal_of};

/// The percentages stay in their ranges through any list of words.
pub fn stay_in_range()
    ensures { (o : Overrides) (words : List Ovr) → IsOverrides o → IsOverrides (fold taken o words) }
{}

/// Two opposite flags of one word cancel.
pub fn opposites_cancel()
    ensures tens { (present : ℕ) (whole up down : Bool) → percent_after present whole true true up down ≡ percent_after present whole false false up down }
    ensures ones { (present : ℕ) (whole up down : Bool) → percent_after present whole up down true true ≡ percent_after present whole up down false false }
{}

/// The percentage of feeds acts on feeds alone: no override acts on jogs, and only their own on rapids.
pub fn feeds_alone()
    ensures jogs { (o p : Overrides) (feed : ℤ) (rapid : ℕ) → nominal_of o (Jog feed) rapid ≡ nominal_of p (Jog feed) rapid }
    ensures rapids { (o p : Overrides) (rapid : ℕ) → o.rapid ≡ p.rapid → nominal_of o Rapid rapid ≡ nominal_of p Rapid rapid }
{}
