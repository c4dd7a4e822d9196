//! What the greatest speeds and the caps of a plan mean, as laws.

ghost use Rattle.std.specs.Prelude.{◌≡◌, ℕ, ◌+◌, ◌-◌, ◌*◌, ◌≤◌, ◌<◌, max, List, [], ◌∷◌, ◌++◌, length, get_or};
ghost use Rattle.profile.specs.Profiles.{IsWithinLimits, least, greatest, profile, distance};
ghost use Rattle.profile.specs.Caps.{IsSofter, caps, planned};
ghost use Rattle.profile.specs.Slowing.{IsSlowable, speed_after};
ghost use Rattle.profile.specs.Settled.{IsSettled};

/// The least of some numbers is one of them, and none is less.
pub fn least_is_least()
    ensures among { (f : ℕ → ℕ) (n : ℕ) → (k : ℕ) × (k ≤ n) × (f k ≡ least f n) }
    ensures below { (f : ℕ → ℕ) (n k : ℕ) → k ≤ n → least f n ≤ f k }
{}

/// The profile is within the limits, and no speeds within them are greater at any point.
pub fn profile_is_the_greatest()
    ensures points { (gaps caps : List ℕ) (j : ℕ) → j ≤ length gaps → get_or (profile gaps caps) j 0 ≡ greatest gaps caps j }
    ensures within { (gaps caps : List ℕ) → IsWithinLimits gaps caps (profile gaps caps) }
    ensures greatest { (gaps caps speeds : List ℕ) → IsWithinLimits gaps caps speeds →
        (j : ℕ) → j ≤ length gaps → get_or speeds j 0 ≤ greatest gaps caps j }
{}

/// A plan that can slow down in time from the present speed begins with that speed.
pub fn plan_begins_with_the_present_speed()
    ensures { (w : ℕ) (gaps hards softs : List ℕ) → length gaps ≡ length hards + 1 →
        IsSofter softs hards → IsSlowable w gaps hards → planned w gaps softs 0 ≡ w }
{}

/// A speed that can be slowed down stays so, whatever happens to the plan: it is cleared, gets its first block or one
/// more, goes on by n events in mode Go or Hold, or loses a tail that has no events left. If overrides change, only the
/// soft caps change, which it does not depend on.
pub fn stays_slowable()
    ensures cleared { IsSlowable 0 [] [] }
    ensures first { (gap : ℕ) → IsSlowable 0 (gap ∷ []) [] }
    ensures added { (w gap hard : ℕ) (gaps hards : List ℕ) → length gaps ≡ length hards + 1 →
        IsSlowable w gaps hards → IsSlowable w (gaps ++ gap ∷ []) (hards ++ hard ∷ []) }
    ensures after_go { (w q n left top : ℕ) (gaps hards softs : List ℕ) → length gaps ≡ length hards →
        IsSofter softs hards → IsSlowable w (q * (left + n) ∷ gaps) hards →
        IsSlowable (speed_after w q n left (planned w (q * (left + n) ∷ gaps) softs 1) top) (q * left ∷ gaps) hards }
    ensures after_hold { (w q n left : ℕ) (gaps hards : List ℕ) →
        IsSlowable w (q * (left + n) ∷ gaps) hards → IsSlowable (w - q * n) (q * left ∷ gaps) hards }
    ensures dropped { (w hard : ℕ) (gaps hards : List ℕ) →
        IsSlowable w (0 ∷ gaps) (hard ∷ hards) → (w ≤ hard) × IsSlowable w gaps hards }
    ensures ended { (w : ℕ) → IsSlowable w (0 ∷ []) [] → w ≡ 0 }
{}

/// Events in mode Go change the speed by no more than they may, and leave it below the top speed, unless it was above
/// and could not fall so far.
pub fn changes_little()
    ensures near { (w q n left top : ℕ) (gaps hards softs : List ℕ) → length gaps ≡ length hards →
        IsSofter softs hards → IsSlowable w (q * (left + n) ∷ gaps) hards →
        distance w (speed_after w q n left (planned w (q * (left + n) ∷ gaps) softs 1) top) ≤ q * n }
    ensures below { (w q n left exit top : ℕ) → speed_after w q n left exit top ≤ max w top }
{}

/// What need not be planned anew: if the speed changes by no more than n events may change it, and the planned speed at
/// the tail's end is still within reach, no planned speed from there on changes; nor when a tail goes that has no
/// events left. In mode Go that speed is always within reach.
pub fn stays_planned()
    ensures within_reach { (w v q n left : ℕ) (gaps softs : List ℕ) (i : ℕ) → length gaps ≡ length softs →
        distance w v ≤ q * n → distance v (planned w (q * (left + n) ∷ gaps) softs 1) ≤ q * left → i ≤ length gaps →
        planned v (q * left ∷ gaps) softs (i + 1) ≡ planned w (q * (left + n) ∷ gaps) softs (i + 1) }
    ensures after_go { (w q n left top : ℕ) (gaps softs : List ℕ) → length gaps ≡ length softs →
        (0 < length softs → get_or softs 0 0 ≤ top) →
        let exit = planned w (q * (left + n) ∷ gaps) softs 1 in
        distance (speed_after w q n left exit top) exit ≤ q * left }
    ensures dropped { (v soft : ℕ) (gaps softs : List ℕ) (j : ℕ) → length gaps ≡ length softs + 1 →
        j ≤ length gaps → planned v (0 ∷ gaps) (soft ∷ softs) (j + 1) ≡ planned v gaps softs j }
{}

/// The present place is settled. An added block changes no speed at or before a settled point that was not the end, and
/// that point stays settled. So does one while the speed at the tail's end stays within reach, and when a tail goes
/// that has no events left.
pub fn settled_points()
    ensures first { (w : ℕ) (gaps hards softs : List ℕ) → length gaps ≡ length hards + 1 →
        IsSofter softs hards → IsSlowable w gaps hards → IsSettled gaps (caps w gaps softs) 0 }
    ensures keeps { (w gap soft : ℕ) (gaps softs : List ℕ) → length gaps ≡ length softs + 1 →
        (j : ℕ) → j < length gaps → IsSettled gaps (caps w gaps softs) j →
        (i : ℕ) → i ≤ j → planned w (gaps ++ gap ∷ []) (softs ++ soft ∷ []) i ≡ planned w gaps softs i }
    ensures added { (w gap soft : ℕ) (gaps softs : List ℕ) → length gaps ≡ length softs + 1 →
        (j : ℕ) → j < length gaps → IsSettled gaps (caps w gaps softs) j →
        IsSettled (gaps ++ gap ∷ []) (caps w (gaps ++ gap ∷ []) (softs ++ soft ∷ [])) j }
    ensures within_reach { (w v q n left : ℕ) (gaps softs : List ℕ) (i : ℕ) → length gaps ≡ length softs →
        distance w v ≤ q * n → distance v (planned w (q * (left + n) ∷ gaps) softs 1) ≤ q * left → i ≤ length gaps →
        IsSettled (q * (left + n) ∷ gaps) (caps w (q * (left + n) ∷ gaps) softs) (i + 1) →
        IsSettled (q * left ∷ gaps) (caps v (q * left ∷ gaps) softs) (i + 1) }
    ensures dropped { (v soft : ℕ) (gaps softs : List ℕ) (j : ℕ) → length gaps ≡ length softs + 1 → j ≤ length gaps →
        IsSettled (0 ∷ gaps) (caps v (0 ∷ gaps) (soft ∷ softs)) (j + 1) → IsSettled gaps (caps v gaps softs) j }
{}
