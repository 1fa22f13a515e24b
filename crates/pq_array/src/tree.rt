ghost use Rattle.std.specs.Prelude.{◌≡◌, ℕ, ◌+◌, ◌*◌, ◌/◌, ◌<◌, ◌≤◌, length, IfOk, slice_index};
ghost use Rattle.pq_array.specs.Cells.{IsLive};
ghost use Rattle.pq_array.specs.Counts.{HalvesTo, IsLowered};
ghost use Rattle.pq_array.specs.Tree.{IsTreeOf};
ghost use Rattle.std.specs.Int.{IsNextPowerOfTwo, IsPowerOfTwo};

use crate::cells::Cells;
use pq_limits::MAX_GATES;
use pq_list::OutOfMemory;
use std::alloc::Global;

/// The words of the tree over these cells.
pub fn tree_over(alloc: Global, cells: &Cells) -> Result<Vec<u64>, OutOfMemory>
    requires { length cells.now ≤ MAX_GATES }
    ensures tree { IfOk result (λ words. IsTreeOf cells.now words.items) }
    ensures unused { IfOk result (λ words. slice_index words.items 0 ≡ 0) }
{
    let width = cells.count().next_power_of_two() as usize;
    let mut words = vec![in alloc; 0; 2 * width]?;
    count_up(&mut words, cells);
    Ok(words)
}

/// Makes the words those of the tree over these cells, where they were those of a tree over no fewer. It takes no memory.
pub fn count_again(words: &mut Vec<u64>, cells: &Cells)
    requires fewer { length cells.now ≤ length words.old.items / 2 }
    requires power { IsPowerOfTwo (length words.old.items / 2) }
    requires pairs { length words.old.items ≡ 2 * (length words.old.items / 2) }
    requires unused { slice_index words.old.items 0 ≡ 0 }
    ensures tree { IsTreeOf cells.now words.new.items }
    ensures unused { slice_index words.new.items 0 ≡ 0 }
{
    let width = cells.count().next_power_of_two() as usize;
    words.truncate(2 * width);
    count_up(words, cells);
}

/// Counts the live cells below each node, from the last leaf to the root.
fn count_up(words: &mut [u64], cells: &Cells)
    requires leaves { IsNextPowerOfTwo (length cells.now) (length words.old / 2) }
    requires pairs { length words.old ≡ 2 * (length words.old / 2) }
    requires unused { slice_index words.old 0 ≡ 0 }
    ensures tree { IsTreeOf cells.now words.new }
    ensures unused { slice_index words.new 0 ≡ 0 }
{
    let width = words.len() / 2;
    for node in (1..words.len()).rev() {
        words[node] = if node < width {
            words[2 * node] + words[2 * node + 1]
        } else {
            leaf_word(cells, node - width)
        };
    }
}

/// The word of the leaf of this place, which may be behind the cells.
fn leaf_word(cells: &Cells, place: usize) -> u64
    ensures live { IsLive cells.now place → result ≡ 1 }
    ensures not_live { (IsLive cells.now place → ⊥) → result ≡ 0 }
{
    u64::from(cells.is_live(place as u64))
}

/// Takes one from each word on the way from the leaf of this place to the root.
pub fn lower(words: &mut [u64], place: usize)
    requires leaf { place < length words.old / 2 }
    requires counted { (node : ℕ) → 1 ≤ node → HalvesTo (length words.old / 2 + place) node →
        1 ≤ slice_index words.old node }
    ensures { IsLowered (length words.old / 2) place words.old words.new }
{
    let mut node = words.len() / 2 + place;
    while node > 0 {
        words[node] -= 1;
        node /= 2;
    }
}
