//! The neighbours on wires of gates that stand in slots. A gate comes or goes without moving any other.
ghost use Rattle.std.specs.Prelude.{◌≡◌, ◌≢◌, ℕ, ◌+◌, ◌*◌, ◌<◌, ◌≤◌, true, false, min, [], length, slice_set, vec_len, vec_capacity, IfOk};
ghost use Rattle.pq_gate.specs.Commuting.{Touches};
ghost use Rattle.pq_links.specs.Wires.{wire_of};
ghost use Rattle.pq_links.specs.Places.{gate_at};
ghost use Rattle.pq_links.specs.Links.{AreLinked, IsLastOn};
ghost use Rattle.pq_links.specs.Slots.{free_slot, spread, AreSlots, ArePrevious, AreChained, IsGap};
ghost use Rattle.pq_links.specs.Leading.{AreInside, AreSpread};

use crate::links::{FAR, Links, NO_PLACES, NO_WIRE, Sides, lead_both, next_on, side_on};
use pq_gate::Gate;
use pq_list::{OutOfMemory, resize_reserved};
use std::alloc::Global;
use std::marker::Model;

/// The places on a wire on both sides of a place: the last one before it, and the first one from it on. Each is `FAR`
/// where there is none.
#[derive(Clone, Copy, Debug, PartialEq, Eq)]
pub struct Gap {
    pub before: u16,
    pub after: u16,
}

/// The chains of gates in slots: for each gate and each of its wires the next and the previous place on that wire. The
/// slots stand outside of it. A slot that holds a CX on `NO_WIRE` twice is free. Memory is taken once.
#[derive(Drop)]
pub struct Chains {
    next: Vec<Sides>,
    previous: Vec<Sides>,
    asked: u32,
}

impl Model for Chains {
    ghost use Rattle.std.specs.Prelude.{◌≤◌, ◌<◌, vec_len, vec_capacity};
    ghost use Rattle.pq_links.specs.Links.{far};
    ghost use Rattle.pq_links.specs.Slots.{ChainsView};

    ghost Value = { ChainsView };

    ghost view = { λ a. record { next = a.next.items; previous = a.previous.items; room = a.asked } };

    ghost invariant = { λ a. (a.asked ≤ vec_capacity a.next) × (a.asked ≤ vec_capacity a.previous) × (vec_len a.next ≤ a.asked) × (vec_len a.previous ≤ a.asked) × (a.asked < far) };
}

impl Chains {
    /// The chains of no slot, with room for those of `room` slots. The room is taken here, once.
    pub fn with_room(alloc: Global, room: u32) -> Result<Chains, OutOfMemory>
        requires { room < FAR }
        ensures chained { IfOk result (λ made. AreChained [] made.next made.previous) }
        ensures room { IfOk result (λ made. made.room ≡ room) }
    {
        let next = Vec::with_capacity(alloc, room as usize)?;
        let previous = Vec::with_capacity(alloc, room as usize)?;
        Ok(Chains {
            next,
            previous,
            asked: room,
        })
    }

    /// Becomes the chains of these slots, which hold linked gates, each with a free slot behind it.
    pub fn spread(&mut self, gates: &[Gate], links: &Links, slots: &[Gate])
        requires linked { AreLinked gates.now links.now }
        requires slots { slots.now ≡ spread gates.now }
        requires room { 2 * length gates.now ≤ self.old.room }
        ensures chained { AreChained slots.now self.new.next self.new.previous }
        ensures room { self.new.room ≡ self.old.room }
    {
        spread_sides(links.nexts(), &mut self.next);
        spread_sides(links.previouses(), &mut self.previous);
    }

    /// For each gate and each of its wires the next place on the wire, as `AreChained` says it.
    pub fn nexts(&self) -> &[Sides]
        ensures { result.now ≡ self.now.next }
    {
        self.next.as_slice()
    }

    /// For each gate and each of its wires the last place before it on the wire, as `AreChained` says it.
    pub fn previouses(&self) -> &[Sides]
        ensures { result.now ≡ self.now.previous }
    {
        self.previous.as_slice()
    }

    /// The last place before this one whose gate uses the wire, or `FAR` where there is none. The gate at the place has
    /// to use the wire, which isn't `NO_WIRE`.
    pub fn previous_on(&self, slots: &[Gate], place: u32, wire: u32) -> u32
        requires chained { AreChained slots.now self.now.next self.now.previous }
        requires place { place < length slots.now }
        ensures fits { result ≤ FAR }
        ensures previous { wire ≢ NO_WIRE → Touches (gate_at slots.now place) wire → IsLastOn slots.now wire place result }
    {
        side_on(slots, self.previous.as_slice(), place, wire)
    }

    /// Frees the slot at the place. The answers are the gaps that its gate leaves on its first and its last wire.
    pub fn remove(&mut self, slots: &mut [Gate], place: u32) -> (Gap, Gap)
        requires chained { AreChained slots.old self.old.next self.old.previous }
        requires place { place < length slots.old }
        ensures slots { slots.new ≡ slice_set slots.old place free_slot }
        ensures chained { AreChained slots.new self.new.next self.new.previous }
        ensures kept { AreSlots slots.old → AreSlots slots.new }
        ensures first { wire_of false (gate_at slots.old place) ≢ NO_WIRE →
            IsGap slots.new (wire_of false (gate_at slots.old place)) place result.0.before result.0.after }
        ensures last { wire_of true (gate_at slots.old place) ≢ NO_WIRE →
            IsGap slots.new (wire_of true (gate_at slots.old place)) place result.1.before result.1.after }
        ensures room { self.new.room ≡ self.old.room }
    {
        unlink(
            slots,
            self.next.as_mut_slice(),
            self.previous.as_mut_slice(),
            place,
        )
    }

    /// Puts a gate into the free slot at the place, between the gaps on its first and its last wire.
    pub fn insert(&mut self, slots: &mut [Gate], place: u32, gate: Gate, first: Gap, last: Gap)
        requires chained { AreChained slots.old self.old.next self.old.previous }
        requires place { place < length slots.old }
        requires free { gate_at slots.old place ≡ free_slot }
        requires wires { ¬ Touches gate NO_WIRE }
        requires first { IsGap slots.old (wire_of false gate) place first.before first.after }
        requires last { IsGap slots.old (wire_of true gate) place last.before last.after }
        ensures slots { slots.new ≡ slice_set slots.old place gate }
        ensures chained { AreChained slots.new self.new.next self.new.previous }
        ensures kept { AreSlots slots.old → AreSlots slots.new }
        ensures room { self.new.room ≡ self.old.room }
    {
        let next = self.next.as_mut_slice();
        link(
            slots,
            next,
            self.previous.as_mut_slice(),
            place,
            gate,
            first,
            last,
        );
    }

    /// The gap on the wire at the place `to`, where that at an earlier place `from` is known.
    pub fn gap_at(&self, slots: &[Gate], wire: u32, gap: Gap, from: u32, to: u32) -> Gap
        requires chained { AreChained slots.now self.now.next self.now.previous }
        requires wire { wire ≢ NO_WIRE }
        requires gap { IsGap slots.now wire from gap.before gap.after }
        requires order { from ≤ to }
        requires place { to ≤ length slots.now }
        ensures { IsGap slots.now wire to result.before result.after }
    {
        prove!(from <= to);
        let next = self.next.as_slice();
        let mut before = gap.before;
        let mut after = gap.after;
        'on: while (after as u32) < to {
            before = after;
            after = next_on(slots, next, before as u32, wire) as u16;
        }
        Gap { before, after }
    }
}

// the neighbours of gates that have a free slot behind each
fn spread_sides(sides: &[Sides], spread: &mut Vec<Sides>)
    requires few { 2 * length sides.now < FAR }
    requires inside { AreInside sides.now }
    requires room { 2 * length sides.now ≤ vec_capacity spread.old }
    ensures spread { AreSpread (length sides.now) (length sides.now) sides.now spread.new.items }
    ensures len { vec_len spread.new ≡ 2 * length sides.now }
    ensures capacity { vec_capacity spread.new ≡ vec_capacity spread.old }
{
    resize_reserved(spread, 2 * sides.len(), NO_PLACES);
    write_sides(sides, spread.as_mut_slice());
}

// the same in a list that is long enough, so that nothing branches
fn write_sides(sides: &[Sides], spread: &mut [Sides])
    requires few { 2 * length sides.now < FAR }
    requires inside { AreInside sides.now }
    requires long { length spread.old ≡ 2 * length sides.now }
    ensures { AreSpread (length sides.now) (length sides.now) sides.now spread.new }
{
    for place in 0..sides.len() {
        let to = sides[place];
        spread[2 * place] = Sides {
            first: double(to.first),
            second: double(to.second),
        };
        spread[2 * place + 1] = NO_PLACES;
    }
}

// the slot of a place, or FAR where it is none
fn double(place: u16) -> u16
    ensures { result ≡ min (2 * place) FAR }
{
    place.saturating_add(place)
}

// frees the slot, and links what stands before and behind it on the wires of its gate
#[tactic(auto, using(crate::proofs::Linking::unlinked))]
fn unlink(slots: &mut [Gate], next: &mut [Sides], previous: &mut [Sides], place: u32) -> (Gap, Gap)
    requires few { length slots.old < FAR }
    requires chained { AreChained slots.old next.old previous.old }
    requires place { place < length slots.old }
    ensures slots { slots.new ≡ slice_set slots.old place free_slot }
    ensures chained { AreChained slots.new next.new previous.new }
    ensures first { wire_of false (gate_at slots.old place) ≢ NO_WIRE →
        IsGap slots.new (wire_of false (gate_at slots.old place)) place result.0.before result.0.after }
    ensures last { wire_of true (gate_at slots.old place) ≢ NO_WIRE →
        IsGap slots.new (wire_of true (gate_at slots.old place)) place result.1.before result.1.after }
{
    let gate = slots[place as usize];
    let before = previous[place as usize];
    let after = next[place as usize];
    lead_both(slots, next, gate, before, after);
    lead_both(slots, previous, gate, after, before);
    slots[place as usize] = Gate::cx(NO_WIRE, NO_WIRE);
    let first = Gap {
        before: before.first,
        after: after.first,
    };
    let last = Gap {
        before: before.second,
        after: after.second,
    };
    (first, last)
}

// puts a gate into the slot, and links it with what stands before and behind it on its wires
fn link(
    slots: &mut [Gate],
    next: &mut [Sides],
    previous: &mut [Sides],
    place: u32,
    gate: Gate,
    first: Gap,
    last: Gap,
)
    requires few { length slots.old < FAR }
    requires chained { AreChained slots.old next.old previous.old }
    requires place { place < length slots.old }
    requires free { gate_at slots.old place ≡ free_slot }
    requires wires { ¬ Touches gate NO_WIRE }
    requires first { IsGap slots.old (wire_of false gate) place first.before first.after }
    requires last { IsGap slots.old (wire_of true gate) place last.before last.after }
    ensures slots { slots.new ≡ slice_set slots.old place gate }
    ensures chained { AreChained slots.new next.new previous.new }
{
    let before = Sides {
        first: first.before,
        second: last.before,
    };
    let after = Sides {
        first: first.after,
        second: last.after,
    };
    let here = Sides {
        first: place as u16,
        second: place as u16,
    };
    lead_both(slots, next, gate, before, here);
    lead_both(slots, previous, gate, after, here);
    next[place as usize] = after;
    previous[place as usize] = before;
    slots[place as usize] = gate;
}

/// The last place before this one whose gate uses the wire, or `FAR` where there is none. The gate at the place has to
/// use the wire, which isn't `NO_WIRE`.
pub fn previous_on(slots: &[Gate], previous: &[Sides], place: u32, wire: u32) -> u32
    requires long { length previous.now ≡ length slots.now }
    requires linked { ArePrevious slots.now previous.now }
    requires place { place < length slots.now }
    ensures fits { result ≤ FAR }
    ensures previous { wire ≢ NO_WIRE → Touches (gate_at slots.now place) wire → IsLastOn slots.now wire place result }
{
    side_on(slots, previous, place, wire)
}
