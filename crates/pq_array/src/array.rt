ghost use Rattle.std.specs.Prelude.{◌≡◌, ℕ, ◌↔◌, ◌+◌, ◌<◌, ◌≤◌, Some, None, length, map, slice_index, slice_index_or, slice_get, is_some, IsNone, IfOk, IfSome, All};
ghost use Rattle.pq_array.specs.Cells.{live, rank, spliced, IsLive, IsLiveRun, Replaces};
ghost use Rattle.pq_array.specs.Tree.{IsTreeOf};

use crate::WordList;
use crate::cells::Cells;
use crate::tree::{count_again, lower, tree_over};
use pq_gate::{Gate, GateList};
use pq_limits::MAX_GATES;
use pq_list::{OutOfMemory, crosses_threads};
use std::alloc::Global;
use std::marker::Model;

/// How many cells are looked at one after another, for the next live one or for a rank, before the tree is asked.
const NEAR: u64 = 256;

/// Cells that each hold a gate, or are a tombstone where a gate was taken out. Contracts see the list
/// of cells, and its live gates: those that are left, in order of place. A place is the number of a
/// cell, counted from 0; the number of cells stands for the end. Only `open` and `of` take memory.
#[derive(Drop)]
pub struct GateArray {
    cells: Cells,
    words: Vec<u64>,
}

impl Model for GateArray {
    ghost use Rattle.std.specs.Prelude.{◌≡◌, List, Option, slice_index};
    ghost use Rattle.pq_gate.specs.declared.gate.Gate.{Gate};
    ghost use Rattle.pq_array.specs.Tree.{IsTreeOf};

    ghost Value = { List (Option Gate) };

    ghost view = { λ a. a.cells };

    ghost invariant = { λ a. IsTreeOf a.cells a.words.items × (slice_index a.words.items 0 ≡ 0) };
}

impl GateArray {
    /// The array with one live cell for each of at most 1,048,576 gates, which are copied.
    pub fn open(alloc: Global, gates: &[Gate]) -> Result<GateArray, OutOfMemory>
        requires { length gates.now ≤ MAX_GATES }
        ensures cells { IfOk result (λ array. array ≡ map (λ gate. Some gate) gates.now) }
        ensures live { IfOk result (λ array. live array ≡ gates.now) }
    {
        let copy = Vec::from_slice(alloc, gates)?;
        GateArray::of(alloc, GateList::of(copy))
    }

    /// The array with one live cell for each of at most 1,048,576 gates. The memory of the list is that of the cells then:
    /// no gate is copied.
    pub fn of(alloc: Global, gates: GateList) -> Result<GateArray, OutOfMemory>
        requires { length gates.items ≤ MAX_GATES }
        ensures cells { IfOk result (λ array. array ≡ map (λ gate. Some gate) gates.items) }
        ensures live { IfOk result (λ array. live array ≡ gates.items) }
    {
        let cells = Cells::all_live(alloc, gates.into_vec())?;
        let words = tree_over(alloc, &cells)?;
        Ok(GateArray { cells, words })
    }

    /// The number of cells.
    pub fn cells(&self) -> u64
        ensures { result ≡ length self.now }
    {
        self.cells.count()
    }

    /// The number of live cells.
    pub fn live(&self) -> u64
        ensures { result ≡ length (live self.now) }
    {
        self.words[1]
    }

    /// The gate at this place: None where the place is a tombstone, or isn't below `cells`.
    pub fn gate_at(&self, place: u64) -> Option<Gate>
        ensures { result ≡ slice_index_or self.now place None }
    {
        self.cells.gate_at(place)
    }

    /// Whether there is a gate at this place.
    pub fn is_live(&self, place: u64) -> bool
        ensures { result ≡ is_some (slice_index_or self.now place None) }
    {
        self.cells.is_live(place)
    }

    /// The number of live cells before this place.
    pub fn rank(&self, place: u64) -> u64
        requires { place ≤ length self.now }
        ensures { result ≡ rank self.now place }
    {
        let width = self.words.len() / 2;
        let mut offset = place as usize;
        if offset >= width {
            return self.live();
        }
        let mut before = 0;
        let mut node = 1;
        let mut half = width / 2;
        while half > 0 {
            let left = 2 * node;
            if offset < half {
                node = left;
            } else {
                before += self.words[left];
                node = left + 1;
                offset -= half;
            }
            half /= 2;
        }
        before
    }

    /// The number of live cells before this place, counted on from an earlier place, before which there are so many.
    pub fn rank_from(&self, earlier: u64, before: u64, place: u64) -> u64
        requires order { earlier ≤ place }
        requires inside { place ≤ length self.now }
        requires before { before ≡ rank self.now earlier }
        ensures { result ≡ rank self.now place }
    {
        if place - earlier > NEAR {
            return self.rank(place);
        }
        let flags = &self.cells.flags()[earlier as usize..place as usize];
        let mut rank = before;
        for flag in flags {
            rank += u64::from(*flag);
        }
        rank
    }

    /// The place of the live gate with this number, counted from 0.
    pub fn select(&self, number: u64) -> Option<u64>
        ensures none { IsNone result ↔ (length (live self.now) ≤ number) }
        ensures live { IfSome result (IsLive self.now) }
        ensures number { IfSome result (λ place. rank self.now place ≡ number) }
        ensures gate { IfSome result (λ place.
            slice_index_or self.now place None ≡ slice_get (live self.now) number) }
    {
        if number >= self.live() {
            return None;
        }
        let width = self.words.len() / 2;
        let mut node = 1;
        let mut rest = number;
        while node < width {
            let left = 2 * node;
            let count = self.words[left];
            if rest < count {
                node = left;
            } else {
                rest -= count;
                node = left + 1;
            }
        }
        Some((node - width) as u64)
    }

    /// The least live place that isn't before this place.
    pub fn next_live(&self, place: u64) -> Option<u64>
        ensures none { IsNone result ↔ ((later : ℕ) → place ≤ later → IsLive self.now later → ⊥) }
        ensures live { IfSome result (IsLive self.now) }
        ensures after { IfSome result (λ next. place ≤ next) }
        ensures least { IfSome result (λ next. (later : ℕ) →
            place ≤ later → IsLive self.now later → next ≤ later) }
    {
        let near = self.cells().min(place.saturating_add(NEAR));
        for next in place..near {
            if self.is_live(next) {
                return Some(next);
            }
        }
        self.next_by_rank(place)
    }

    /// The same, by the ways from and to the root.
    fn next_by_rank(&self, place: u64) -> Option<u64>
        ensures none { IsNone result ↔ ((later : ℕ) → place ≤ later → IsLive self.now later → ⊥) }
        ensures live { IfSome result (IsLive self.now) }
        ensures after { IfSome result (λ next. place ≤ next) }
        ensures least { IfSome result (λ next. (later : ℕ) →
            place ≤ later → IsLive self.now later → next ≤ later) }
    {
        if place < self.cells() {
            self.select(self.rank(place))
        } else {
            None
        }
    }

    /// The place before this one with so many live gates fewer before it: that of a live gate, or this place where none is
    /// to be passed. It looks at one cell after another.
    #[tactic(auto, using(crate::proofs::Backwards::back_none, crate::proofs::Backwards::back_some, crate::proofs::Backwards::back_more))]
    pub fn back(&self, place: u64, count: u64) -> u64
        requires inside { place ≤ length self.now }
        requires enough { count ≤ rank self.now place }
        ensures rank { rank self.now result + count ≡ rank self.now place }
        ensures before { result ≤ place }
        ensures live { 1 ≤ count → IsLive self.now result }
    {
        let mut at = place;
        let mut left = count;
        'cells: while left > 0 {
            at -= 1;
            left -= u64::from(self.is_live(at));
        }
        at
    }

    /// Puts the output at the first of these places, in order, and tombstones at the others. The places
    /// are those of live gates that are neighbours.
    pub fn replace(&mut self, places: &[u64], output: &[Gate])
        requires run { IsLiveRun self.old places.now }
        requires no_longer { length output.now ≤ length places.now }
        ensures cells { Replaces self.old self.new places.now output.now }
        ensures live { let first = rank self.old (slice_index places.now 0) in
            live self.new ≡ spliced (live self.old) first (first + length places.now) output.now }
    {
        for place in &places[output.len()..] {
            lower(&mut self.words, *place as usize);
        }
        self.cells.replace(places, output);
    }

    /// Moves the live gates to the first places, in order, and lets the other cells go: no tombstone is left.
    pub fn compact(&mut self)
        ensures cells { self.new ≡ map (λ gate. Some gate) (live self.old) }
        ensures live { live self.new ≡ live self.old }
    {
        self.cells.compact();
        count_again(&mut self.words, &self.cells);
    }

    /// The live gates, in order, in the memory of the cells, of which there are at most 1,048,576. No memory is taken, and
    /// the list has no room for more.
    pub fn into_gates(self) -> GateList
        requires few { length self ≤ MAX_GATES }
        ensures items { result.items ≡ live self }
        ensures full { result.room ≡ length result.items }
    {
        let GateArray { cells, words: _ } = self;
        GateList::of(cells.into_live())
    }

    /// The cells alone, and the words of the tree over them. Word 0 is 0. It copies none.
    pub fn split_words(self) -> (Cells, WordList)
        ensures cells { result.0 ≡ self }
        ensures words { IsTreeOf self result.1.items }
        ensures unused { slice_index result.1.items 0 ≡ 0 }
    {
        let GateArray { cells, words } = self;
        (cells, WordList::of(words))
    }

    /// The array of these cells with the words of the tree over them, whatever word 0 is: it becomes 0.
    /// It copies none.
    pub fn rejoin(cells: Cells, words: WordList) -> GateArray
        requires { IsTreeOf cells words.items }
        ensures { result ≡ cells }
    {
        let mut words = words.into_vec();
        words[0] = 0;
        GateArray { cells, words }
    }
}

/// An array crosses threads.
fn array_crosses_threads() {
    crosses_threads::<GateArray>();
}
