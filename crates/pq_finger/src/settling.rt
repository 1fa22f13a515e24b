ghost use Rattle.std.specs.Prelude.{◌≡◌, ◌+◌, ◌*◌, ◌<◌, ◌≤◌, if◌then◌else◌, [], ◌++◌, All, AllPairs, IsTrue, length, slice_index_or, vec_len, vec_capacity};
ghost use Rattle.std.specs.List.{flat_map};
ghost use Rattle.std.specs.List.Sorted.{IsStrictlyIncreasing};
ghost use Rattle.pq_gaps.specs.Gaps.{ascending, with_number};
ghost use Rattle.pq_finger.specs.Settled.{new_places, AreInOrder};
ghost use Rattle.pq_finger.specs.Settling.{first_edge, settled_front, SettledUpTo, IsAtFinger};
ghost use Rattle.pq_finger.specs.declared.cut.Cut.{Cut};

use crate::cut::Cut;

/// Puts the fingers that stay, and between them the boundaries of the cuts that they leave behind.
/// Answers how many cuts are left behind.
pub fn settle_fingers(list: &mut Vec<u64>, places: &[u64], cuts: &[Cut]) -> usize
    requires empty { list.old.items ≡ [] }
    requires room { length places.now + 2 * length cuts.now ≤ vec_capacity list.old }
    requires rising { IsStrictlyIncreasing places.now }
    requires in_order { AreInOrder places.now cuts.now }
    ensures settled { SettledUpTo places.now cuts.now list.new.items (length places.now) result }
    ensures capacity { vec_capacity list.new ≡ vec_capacity list.old }
{
    let mut behind = 0;
    for index in 0..places.len() {
        behind = leave_behind(list, places, cuts, index, behind);
        settle_finger(list, places, cuts, index, behind);
    }
    behind
}

/// Puts the boundaries of the next cut, where it is before the finger of this index. Answers how many
/// cuts are left behind then.
fn leave_behind(
    list: &mut Vec<u64>,
    places: &[u64],
    cuts: &[Cut],
    index: usize,
    behind: usize,
) -> usize
    requires in_range { index < length places.now }
    requires room { length places.now + 2 * length cuts.now ≤ vec_capacity list.old }
    requires rising { IsStrictlyIncreasing places.now }
    requires in_order { AreInOrder places.now cuts.now }
    requires settled { SettledUpTo places.now cuts.now list.old.items index behind }
    ensures settled { IsAtFinger places.now cuts.now list.new.items index result }
    ensures capacity { vec_capacity list.new ≡ vec_capacity list.old }
{
    if behind < cuts.len() && cuts[behind].is_before(index as u64, places[index]) {
        put_boundaries(list, &cuts[behind]);
        return behind + 1;
    }
    behind
}

/// Puts the finger of this index, unless the next cut drops it.
fn settle_finger(list: &mut Vec<u64>, places: &[u64], cuts: &[Cut], index: usize, behind: usize)
    requires in_range { index < length places.now }
    requires room { length places.now + 2 * length cuts.now ≤ vec_capacity list.old }
    requires rising { IsStrictlyIncreasing places.now }
    requires in_order { AreInOrder places.now cuts.now }
    requires settled { IsAtFinger places.now cuts.now list.old.items index behind }
    ensures settled { SettledUpTo places.now cuts.now list.new.items (index + 1) behind }
    ensures capacity { vec_capacity list.new ≡ vec_capacity list.old }
{
    let place = places[index];
    if behind < cuts.len() && cuts[behind].drops(index as u64, place) {
        return;
    }
    put(list, place);
}

/// Puts the boundaries of cuts that are in order.
pub fn settle_boundaries(list: &mut Vec<u64>, cuts: &[Cut])
    requires room { vec_len list.old + 2 * length cuts.now ≤ vec_capacity list.old }
    requires rising { IsStrictlyIncreasing list.old.items }
    requires ahead { (d : Cut) → 0 < length cuts.now → All (λ place. place ≤ first_edge (slice_index_or cuts.now 0 d)) list.old.items }
    requires not_turned { All (λ cut. cut.from ≤ cut.to) cuts.now }
    requires apart { AllPairs (λ cut later. cut.to ≤ later.from) cuts.now }
    ensures { list.new.items ≡ ascending (list.old.items ++ flat_map new_places cuts.now) }
{
    for cut in cuts {
        put_boundaries(list, cut);
    }
}

/// Puts the boundaries of a cut that become fingers.
fn put_boundaries(list: &mut Vec<u64>, cut: &Cut)
    requires room { vec_len list.old + 2 ≤ vec_capacity list.old }
    requires rising { IsStrictlyIncreasing list.old.items }
    requires ahead { All (λ place. place ≤ first_edge cut.now) list.old.items }
    requires not_turned { cut.now.from ≤ cut.now.to }
    ensures put { list.new.items ≡ ascending (list.old.items ++ new_places cut.now) }
    ensures len { vec_len list.new ≤ vec_len list.old + 2 }
    ensures capacity { vec_capacity list.new ≡ vec_capacity list.old }
{
    put_if(list, cut.from, cut.keeps_from());
    put_if(list, cut.to, cut.keeps_to());
}

/// Puts a place where it is wanted.
fn put_if(list: &mut Vec<u64>, place: u64, wanted: bool)
    requires room { vec_len list.old < vec_capacity list.old }
    requires rising { IsStrictlyIncreasing list.old.items }
    requires up_to { IsTrue wanted → All (λ other. other ≤ place) list.old.items }
    ensures put { list.new.items ≡ (if wanted then with_number place list.old.items else list.old.items) }
    ensures len { vec_len list.new ≤ vec_len list.old + 1 }
    ensures capacity { vec_capacity list.new ≡ vec_capacity list.old }
{
    if wanted {
        put(list, place);
    }
}

/// Puts a place behind a list that reaches up to it, unless the list ends in it.
fn put(list: &mut Vec<u64>, place: u64)
    requires room { vec_len list.old < vec_capacity list.old }
    requires rising { IsStrictlyIncreasing list.old.items }
    requires up_to { All (λ other. other ≤ place) list.old.items }
    ensures put { list.new.items ≡ with_number place list.old.items }
    ensures len { vec_len list.new ≤ vec_len list.old + 1 }
    ensures capacity { vec_capacity list.new ≡ vec_capacity list.old }
{
    match list.last() {
        Some(last) if *last == place => {}
        _ => list.push_reserved(place),
    }
}
