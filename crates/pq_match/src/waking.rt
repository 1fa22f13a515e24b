//! The starts that a rewriting of slots may concern.

ghost use Rattle.std.specs.Prelude.{◌≡◌, ◌≢◌, ℕ, ◌+◌, ◌<◌, ◌≤◌, ◌⊎◌, true, false, Bool, length, slice_index, All, AllPairs};
ghost use Rattle.pq_gate.specs.Commuting.{Touches};
ghost use Rattle.pq_gate.specs.Ports.{last_wire};
ghost use Rattle.pq_links.specs.Links.{IsLastOn, IsNextOn};
ghost use Rattle.pq_links.specs.Wires.{wire_of};
ghost use Rattle.pq_match.specs.Redex.{gate_at, last_place};
ghost use Rattle.pq_match.specs.Waiting.{IsWaiting, WaitMore};
ghost use Rattle.pq_match.specs.Work.{AreWhole, MarksPlaces, AreTakenAt};
ghost use Rattle.pq_match.specs.Settled.{AwaitRewriting, AwaitAround, AwaitOn, AwaitBefore, AwaitBetween, AreSameBut, IsUsedAt, IsAwaitedAt};

use crate::looked::Looked;
use crate::waiting::Starts;
use pq_gate::Gate;
use pq_links::{Chains, FAR, NO_WIRE, next_on};

/// The bits of the wires of the gates at the places.
#[tactic(auto, using(crate::proofs::MarkedPlaces::marks_none, crate::proofs::MarkedPlaces::marks_more, crate::proofs::MarkedPlaces::marks_all))]
pub fn wires_at(slots: &[Gate], places: &[u32]) -> u64
    requires { All (λ place. place < length slots.now) places.now }
    ensures { MarksPlaces slots.now places.now result }
{
    let mut looked = Looked::nowhere();
    for index in 0..places.len() {
        looked.mark_gate(slots[places[index] as usize]);
    }
    looked.mask
}

impl Starts {
    /// Before a rewriting that frees the slots at the places, whose gates' wires the mask has, and fills so many from
    /// `from` on: all those starts wait where a redex may begin afterwards that began nowhere before.
    #[tactic(auto, using(crate::proofs::Awaiting::await_all, crate::proofs::OneFirst::last_inside, crate::proofs::RankedRedexes::last_is_at))]
    pub fn await_rewriting(
        &mut self,
        slots: &[Gate],
        chains: &Chains,
        places: &[u32],
        from: u32,
        count: usize,
        mask: u64,
    )
        requires whole { AreWhole slots.now chains.now }
        requires some { 0 < length places.now }
        requires rising { AllPairs (λ i j. i < j) places.now }
        requires inside { All (λ i. i < length slots.now) places.now }
        requires taken { AreTakenAt slots.now places.now }
        requires filled { from + count ≤ length slots.now }
        requires room { length slots.now ≤ self.old.room }
        ensures waits { AwaitRewriting slots.now places.now from count mask self.old self.new }
        ensures room { self.new.room ≡ self.old.room }
    {
        let last = places[places.len() - 1];
        self.wake_failed(places[0], last + 1, mask);
        self.wake_around(slots, chains, places, last);
        self.settle_at(places);
        self.wake_run(from, count);
    }

    // none of the starts at the places waits
    #[tactic(auto, using(crate::proofs::Awaiting::same_none, crate::proofs::Awaiting::same_more))]
    fn settle_at(&mut self, places: &[u32])
        requires { All (λ i. i < self.old.room) places.now }
        ensures others { AreSameBut places.now self.old self.new }
        ensures room { self.new.room ≡ self.old.room }
    {
        for index in 0..places.len() {
            self.settle(places[index]);
        }
    }

    // all of so many starts wait
    #[tactic(auto, using(crate::proofs::Awaiting::run_none, crate::proofs::Awaiting::run_more, crate::proofs::Awaiting::more_same, crate::proofs::Awaiting::more_than_more))]
    fn wake_run(&mut self, from: u32, count: usize)
        requires run { from + count ≤ self.old.room }
        requires few { from + count ≤ FAR }
        ensures waits { (start : ℕ) → from ≤ start → start < from + count → IsWaiting self.new start }
        ensures more { WaitMore self.old self.new }
    {
        for start in from as usize..from as usize + count {
            self.wake(start as u32);
        }
    }

    // wakes the starts on the wires of the gates at the places whose next two gates there may change
    #[tactic(auto, using(crate::proofs::Awaiting::around_none, crate::proofs::Awaiting::around_more, crate::proofs::Awaiting::more_than_more))]
    fn wake_around(&mut self, slots: &[Gate], chains: &Chains, places: &[u32], last: u32)
        requires whole { AreWhole slots.now chains.now }
        requires rising { AllPairs (λ i j. i < j) places.now }
        requires inside { All (λ i. i < length slots.now) places.now }
        requires taken { AreTakenAt slots.now places.now }
        requires last { last ≡ last_place places.now }
        requires end { last < length slots.now }
        requires room { length slots.now ≤ self.old.room }
        ensures around { AwaitAround slots.now places.now self.new (length places.now) }
        ensures more { WaitMore self.old self.new }
    {
        for index in 0..places.len() {
            let gate = slots[places[index] as usize];
            self.wake_on(slots, chains, places, index, gate.first_wire(), last);
            self.wake_on_last(slots, chains, places, index, last);
        }
    }

    // the same on the last wire of the gate at one of the places, where those on its first wire wait already
    #[tactic(auto, using(crate::proofs::Awaiting::await_same, crate::proofs::Awaiting::more_same))]
    fn wake_on_last(
        &mut self,
        slots: &[Gate],
        chains: &Chains,
        places: &[u32],
        index: usize,
        last: u32,
    )
        requires whole { AreWhole slots.now chains.now }
        requires rising { AllPairs (λ i j. i < j) places.now }
        requires inside { All (λ i. i < length slots.now) places.now }
        requires taken { AreTakenAt slots.now places.now }
        requires index { index < length places.now }
        requires first { IsAwaitedAt slots.now places.now self.old index false }
        requires last { last ≡ last_place places.now }
        requires end { last < length slots.now }
        requires room { length slots.now ≤ self.old.room }
        ensures on { IsAwaitedAt slots.now places.now self.new index true }
        ensures more { WaitMore self.old self.new }
    {
        let gate = slots[places[index] as usize];
        if gate.first_wire() == gate.last_wire() {
            return;
        }
        self.wake_on(slots, chains, places, index, gate.last_wire(), last);
    }

    // the same on one wire of the gate at one of the places, unless an earlier one uses it too
    #[tactic(auto, using(crate::proofs::Awaiting::await_on, crate::proofs::Awaiting::more_than_more, crate::proofs::Awaiting::more_same))]
    fn wake_on(
        &mut self,
        slots: &[Gate],
        chains: &Chains,
        places: &[u32],
        index: usize,
        wire: u32,
        last: u32,
    )
        requires whole { AreWhole slots.now chains.now }
        requires rising { AllPairs (λ i j. i < j) places.now }
        requires inside { All (λ i. i < length slots.now) places.now }
        requires index { index < length places.now }
        requires wire { wire ≢ NO_WIRE }
        requires uses { Touches (gate_at slots.now (slice_index places.now index)) wire }
        requires last { last ≡ last_place places.now }
        requires end { last < length slots.now }
        requires room { length slots.now ≤ self.old.room }
        ensures on { IsUsedAt slots.now places.now index wire ⊎ AwaitOn slots.now places.now self.new wire }
        ensures more { WaitMore self.old self.new }
    {
        if !is_used_before(slots, places, index, wire) {
            self.wake_before(slots, chains, places[index], wire);
            self.wake_from(slots, chains, places[index], wire, last);
        }
    }

    // the last two starts on the wire before the place
    #[tactic(auto, using(crate::proofs::Awaiting::await_before, crate::proofs::Awaiting::more_than_more))]
    fn wake_before(&mut self, slots: &[Gate], chains: &Chains, place: u32, wire: u32)
        requires whole { AreWhole slots.now chains.now }
        requires place { place < length slots.now }
        requires wire { wire ≢ NO_WIRE }
        requires uses { Touches (gate_at slots.now place) wire }
        requires room { length slots.now ≤ self.old.room }
        ensures before { AwaitBefore slots.now self.new wire place }
        ensures more { WaitMore self.old self.new }
    {
        let near = chains.previous_on(slots, place, wire);
        let far = place_before(slots, chains, near, wire);
        self.wake_with(slots, near, wire);
        self.wake_with(slots, far, wire);
    }

    // those from the place on, up to the last
    #[tactic(auto, using(crate::proofs::Awaiting::between_none, crate::proofs::Awaiting::between_more, crate::proofs::Awaiting::between_all, crate::proofs::Awaiting::more_than_more, crate::proofs::Awaiting::more_same))]
    fn wake_from(&mut self, slots: &[Gate], chains: &Chains, place: u32, wire: u32, last: u32)
        requires whole { AreWhole slots.now chains.now }
        requires last { last < length slots.now }
        requires wire { wire ≢ NO_WIRE }
        requires uses { Touches (gate_at slots.now place) wire }
        requires room { length slots.now ≤ self.old.room }
        ensures from { AwaitBetween slots.now self.new wire place (last + 1) }
        ensures more { WaitMore self.old self.new }
    {
        let mut at = place;
        'on: while at <= last {
            self.wake_with(slots, at, wire);
            at = next_on(slots, chains.nexts(), at, wire);
        }
    }

    // the start waits where the wire is its gate's last
    #[tactic(auto, using(crate::proofs::Awaiting::more_same))]
    fn wake_with(&mut self, slots: &[Gate], start: u32, wire: u32)
        requires room { length slots.now ≤ self.old.room }
        ensures waits { start < length slots.now → last_wire (gate_at slots.now start) ≡ wire → IsWaiting self.new start }
        ensures more { WaitMore self.old self.new }
    {
        if (start as usize) < slots.len() && slots[start as usize].last_wire() == wire {
            self.wake(start);
        }
    }
}

// the last place on the wire before this one, or FAR where this one is past the end
fn place_before(slots: &[Gate], chains: &Chains, place: u32, wire: u32) -> u32
    requires whole { AreWhole slots.now chains.now }
    requires wire { wire ≢ NO_WIRE }
    requires uses { place < length slots.now → Touches (gate_at slots.now place) wire }
    ensures last { place < length slots.now → IsLastOn slots.now wire place result }
    ensures past { length slots.now ≤ place → result ≡ FAR }
{
    if (place as usize) < slots.len() {
        chains.previous_on(slots, place, wire)
    } else {
        FAR
    }
}

// whether the gate at an earlier one of the places uses the wire
#[tactic(auto, using(crate::proofs::Awaiting::used_at))]
fn is_used_before(slots: &[Gate], places: &[u32], index: usize, wire: u32) -> bool
    requires inside { All (λ i. i < length slots.now) places.now }
    requires index { index < length places.now }
    ensures used { result ≡ true → IsUsedAt slots.now places.now index wire }
    ensures unused { result ≡ false → (k : ℕ) → k < index → Touches (gate_at slots.now (slice_index places.now k)) wire → ⊥ }
{
    for earlier in 0..index {
        if slots[places[earlier] as usize].touches(wire) {
            return true;
        }
    }
    false
}
