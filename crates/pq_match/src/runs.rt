//! Where a replacement may stand in slots.

ghost use Rattle.std.specs.Prelude.{◌≡◌, ℕ, ◌+◌, ◌<◌, ◌≤◌, ◌⊎◌, true, length, slice_index, All, AllPairs, IfSome};
ghost use Rattle.pq_links.specs.Slots.{is_free as is_free_slot};
ghost use Rattle.pq_match.specs.Redex.{gate_at, is_chosen, last_place};
ghost use Rattle.pq_match.specs.Work.{IsRun, IsSpare, AreSpare};

use pq_gate::Gate;
use pq_links::{FAR, NO_WIRE};

/// Whether the slot that holds this is free.
pub fn is_free(gate: Gate) -> bool
    ensures { result ≡ is_free_slot gate }
{
    gate.first_wire() == NO_WIRE
}

/// Slots around the last chosen one where a replacement may stand.
#[derive(Clone, Copy)]
pub struct Run {
    pub start: u32,
    pub end: u32,
}

/// So many slots around the last chosen one that are free or chosen. None where they are fewer.
#[tactic(auto, using(crate::proofs::RankedRedexes::last_is_at, crate::proofs::RewritingPlaces::first_upto_last, crate::proofs::OneFirst::last_inside, crate::proofs::RunsAround::run_is))]
pub fn run_around(slots: &[Gate], places: &[u32], count: usize) -> Option<Run>
    requires some { 0 < length places.now }
    requires rising { AllPairs (λ i j. i < j) places.now }
    requires inside { All (λ i. i < length slots.now) places.now }
    requires few { length slots.now ≤ FAR }
    ensures { IfSome result (IsRun slots.now places.now count) }
{
    let first = places[0] as usize;
    let last = places[places.len() - 1] as usize;
    let end = run_end(slots, last + 1, count);
    let start = run_start(slots, places, first, last, end, count);
    if count <= end - start {
        Some(Run {
            start: start as u32,
            end: end as u32,
        })
    } else {
        None
    }
}

// the end of the free slots from a place on, at most `count` of them
fn run_end(slots: &[Gate], from: usize, count: usize) -> usize
    requires { from ≤ length slots.now }
    ensures behind { from ≤ result }
    ensures inside { result ≤ length slots.now }
    ensures free { (p : ℕ) → from ≤ p → p < result → is_free_slot (gate_at slots.now p) ≡ true }
{
    for place in from..slots.len() {
        if place - from >= count || !is_free(slots[place]) {
            return place;
        }
    }
    slots.len()
}

// the start of the slots before the last chosen one that are free or chosen, at most so many that there are `count` to the end
#[tactic(auto, using(crate::proofs::RunsAround::spare_none, crate::proofs::RunsAround::spare_more))]
fn run_start(
    slots: &[Gate],
    places: &[u32],
    first: usize,
    last: usize,
    end: usize,
    count: usize,
) -> usize
    requires order { first ≤ last }
    requires inside { last < length slots.now }
    requires end { last < end }
    requires few { length slots.now ≤ FAR }
    ensures from { first ≤ result }
    ensures upto { result ≤ last }
    ensures spare { AreSpare slots.now places.now result last }
{
    let mut start = last;
    'down: while start > first && end - start < count && is_spare(slots, places, start - 1) {
        start -= 1;
    }
    start
}

// whether the slot is free or chosen
fn is_spare(slots: &[Gate], places: &[u32], place: usize) -> bool
    requires inside { place < length slots.now }
    requires few { length slots.now ≤ FAR }
    ensures { result ≡ true → IsSpare slots.now places.now place }
{
    is_free(slots[place]) || places.contains(&(place as u32))
}
