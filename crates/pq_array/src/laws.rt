ghost use Rattle.std.specs.Prelude.{◌≡◌, ℕ, ◌+◌, ◌*◌, ◌<◌, ◌≤◌, Option, None, List, length, slice_index, slice_index_or, slice_get, Contains};
ghost use Rattle.pq_gate.specs.declared.gate.Gate.{Gate};
ghost use Rattle.pq_array.specs.Cells.{live, rank, IsLive, IsLiveRun, Replaces};
ghost use Rattle.pq_array.specs.Counts.{Counts};

/// The rank doesn't fall, rises behind each live place, ends at the number of live gates, and is the
/// number of a live place's gate among them.
pub fn rank_laws()
    ensures keeps { (cells : List (Option Gate)) (p q : ℕ) → p ≤ q → rank cells p ≤ rank cells q }
    ensures rises { (cells : List (Option Gate)) (p q : ℕ) → IsLive cells p → p < q →
        rank cells p < rank cells q }
    ensures end { (cells : List (Option Gate)) (p : ℕ) → length cells ≤ p →
        rank cells p ≡ length (live cells) }
    ensures gate { (cells : List (Option Gate)) (p : ℕ) → IsLive cells p →
        slice_get (live cells) (rank cells p) ≡ slice_index_or cells p None }
{}

/// Live places whose ranks follow one another are those of a run of live gates.
pub fn run_law()
    ensures { (cells : List (Option Gate)) (first : ℕ) (places : List ℕ) →
        ((i : ℕ) → i < length places → IsLive cells (slice_index places i)) →
        ((i : ℕ) → i < length places → rank cells (slice_index places i) ≡ first + i) →
        IsLiveRun cells places }
{}

/// Only one list of cells comes of a replacement.
pub fn replacement_law()
    ensures { (old new other : List (Option Gate)) (places : List ℕ) (output : List Gate) →
        Replaces old new places output → Replaces old other places output → new ≡ other }
{}

/// The words of a tree over live places: one list of a length, but for word 0. A leaf's word is 1
/// where its place is live, and else 0; the word of a node above the leaves is the sum of its
/// children's.
pub fn tree_laws()
    ensures only { (words other places : List ℕ) → Counts words places → Counts other places →
        length words ≡ length other →
        (node : ℕ) → 1 ≤ node → slice_index words node ≡ slice_index other node }
    ensures live_leaf { (words places : List ℕ) → Counts words places →
        (width place : ℕ) → length words ≡ 2 * width → place < width →
        Contains places place → slice_index words (width + place) ≡ 1 }
    ensures other_leaf { (words places : List ℕ) → Counts words places →
        (width place : ℕ) → length words ≡ 2 * width → place < width →
        (Contains places place → ⊥) → slice_index words (width + place) ≡ 0 }
    ensures sum { (words places : List ℕ) → Counts words places →
        (node : ℕ) → 1 ≤ node → 2 * node + 1 < length words →
        slice_index words node ≡ slice_index words (2 * node) + slice_index words (2 * node + 1) }
{}
