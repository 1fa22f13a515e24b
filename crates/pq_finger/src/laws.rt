ghost use Rattle.std.specs.Prelude.{◌≡◌, ◌↔◌, ◌⊎◌, ◌<◌, ℕ, Bool, IsTrue, List, map, All, Any, Contains};
ghost use Rattle.std.specs.List.{AllZip};
ghost use Rattle.std.specs.List.Sorted.{IsStrictlyIncreasing};
ghost use Rattle.pq_finger.specs.declared.cut.Cut.{Cut};
ghost use Rattle.pq_gaps.specs.Gaps.{ascending, kept_gaps, new_fingers, GapCut};
ghost use Rattle.pq_finger.specs.Settled.{settled, AreInOrder, DropsPlace, MakesPlace};
ghost use Rattle.pq_finger.specs.Ranks.{IsRank, IsAtPlaces, AreCutsOf, LosesGates};

/// The settled fingers are, in order, the places of the old fingers that no cut drops, and the new
/// boundaries.
pub fn settled_places_are_kept()
    ensures rising { (places : List ℕ) (cuts : List Cut) → IsStrictlyIncreasing (settled places cuts) }
    ensures exactly { (places : List ℕ) (cuts : List Cut) (place : ℕ) →
        Contains (settled places cuts) place ↔
        ((Contains places place × (Any (DropsPlace places place) cuts → ⊥)) ⊎ Any (MakesPlace place) cuts) }
{}

/// The cuts of a round, told at places, are in order, as `Fingers::settle` wants them.
pub fn cuts_of_a_round_are_in_order()
    ensures { (rank : ℕ → ℕ) (stands : ℕ → Bool) (window live : ℕ) (places : List ℕ) (gaps : List GapCut) (cuts : List Cut) →
        0 < window → IsRank rank stands → IsStrictlyIncreasing places →
        AreCutsOf rank stands window live places gaps cuts → AreInOrder places cuts }
{}

/// What `Fingers::settle` does at places is what a round does at gaps: the ranks of the settled places
/// are the kept gaps.
pub fn settled_places_have_the_kept_gaps()
    ensures { (rank : ℕ → ℕ) (stands : ℕ → Bool) (live : ℕ) (places : List ℕ) (gaps : List GapCut) (cuts : List Cut) →
        IsRank rank stands → All (λ place. IsTrue (stands place)) places →
        AllZip (IsAtPlaces rank stands live places) gaps cuts →
        map rank (settled places cuts) ≡ kept_gaps live gaps (map rank places) }
{}

/// What `Fingers::moved` does at places is what a round does at gaps: where the new places have the ranks
/// that the settled places have after the round, those without repeats have the gaps of the new fingers.
pub fn moved_places_have_the_new_gaps()
    ensures { (old new : ℕ → ℕ) (stood stands : ℕ → Bool) (live : ℕ) (places to : List ℕ) (gaps : List GapCut) (cuts : List Cut) →
        IsRank old stood → All (λ place. IsTrue (stood place)) places →
        AllZip (IsAtPlaces old stood live places) gaps cuts → AreInOrder places cuts → LosesGates old new gaps cuts →
        IsRank new stands → All (λ place. IsTrue (stands place)) to → map new to ≡ map new (settled places cuts) →
        map new (ascending to) ≡ new_fingers live gaps (map old places) }
{}
