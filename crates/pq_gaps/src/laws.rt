ghost use Rattle.std.specs.Prelude.{◌≡◌, ◌↔◌, ◌⊎◌, ◌+◌, ◌*◌, ◌<◌, ◌≤◌, ℕ, List, AllPairs, Any, Contains};
ghost use Rattle.std.specs.List.Sorted.{IsStrictlyIncreasing};
ghost use Rattle.pq_gaps.specs.Gaps.{first_fingers, segment_from, segment_to, selected, kept_gaps, GapCut, IsSelection, DropsGap, MakesGap};

/// The first fingers are, in order, the gaps that are multiples of Omega and less than the number of
/// live gates.
pub fn first_fingers_are_multiples()
    ensures rising { (live window : ℕ) → 0 < window → IsStrictlyIncreasing (first_fingers live window) }
    ensures exactly { (live window gap : ℕ) → 0 < window →
        Contains (first_fingers live window) gap ↔ ((gap < live) × ((k : ℕ) × (gap ≡ k * window))) }
{}

/// The selected gaps are the one list that is the first gap, and then again and again the first later
/// one that is at least 2 * Omega more than the last one taken.
pub fn selected_is_one_list()
    ensures some { (window : ℕ) (gaps : List ℕ) → IsSelection window gaps (selected window gaps) }
    ensures only { (window : ℕ) (gaps taken : List ℕ) → IsSelection window gaps taken → taken ≡ selected window gaps }
{}

/// The segments of selected fingers don't overlap. The selected ones are among the fingers, and stand at
/// least 2 * Omega apart.
pub fn selected_segments_are_apart()
    ensures fingers { (window gap : ℕ) (gaps : List ℕ) → Contains (selected window gaps) gap → Contains gaps gap }
    ensures far { (window : ℕ) (gaps : List ℕ) → AllPairs (λ gap later. gap + 2 * window ≤ later) (selected window gaps) }
    ensures segments { (window live : ℕ) (gaps : List ℕ) →
        AllPairs (λ gap later. segment_to window live gap ≤ segment_from window later) (selected window gaps) }
{}

/// The kept gaps are, in order, the gaps of the old fingers that no cut drops, and the new boundaries.
pub fn kept_gaps_are_kept()
    ensures rising { (live : ℕ) (cuts : List GapCut) (fingers : List ℕ) → IsStrictlyIncreasing (kept_gaps live cuts fingers) }
    ensures exactly { (live : ℕ) (cuts : List GapCut) (fingers : List ℕ) (gap : ℕ) →
        Contains (kept_gaps live cuts fingers) gap ↔
        ((Contains fingers gap × (Any (DropsGap gap) cuts → ⊥)) ⊎ Any (MakesGap live gap) cuts) }
{}
