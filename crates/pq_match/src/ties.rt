//! Which wire the next gate of a pattern has to stand on.

ghost use Rattle.std.specs.Prelude.{◌≡◌, ◌≢◌, ℕ, ◌+◌, ◌-◌, ◌<◌, ◌≤◌, ◌↔◌, ◌⊎◌, Bool, true, false, not, length, slice_index, IfSome, IfNone, IsTrue, IsNone};
ghost use Rattle.pq_gate.specs.Circuit.{IsCircuit};
ghost use Rattle.pq_gate.specs.Commuting.{Touches};
ghost use Rattle.pq_links.specs.Wires.{wire_of};
ghost use Rattle.pq_links.specs.Links.{IsNextOn};
ghost use Rattle.pq_match.specs.Redex.{gate_at};
ghost use Rattle.pq_match.specs.Search.{IsGrown};
ghost use Rattle.pq_match.specs.Seek.{AreLinkedSlots, AreLinkedBack, LooksAtMore, MarksAll, AreLookedAt, HasNoFullAlike, AreCursors, AreAhead, AreMarked};
ghost use Rattle.pq_match.specs.Ties.{IsShared, AreUnshared, IsBinding, MayBind, IsStop, IsTiedBy};

use crate::cursors::Cursors;
use crate::looked::Looked;
use crate::search::{are_of_one_kind, is_passable};
use pq_gate::Gate;
use pq_limits::MAX_ROW_GATES;
use pq_links::{NO_WIRE, Sides, next_on, previous_on};

/// A later gate of a pattern that binds a gate which shares no wire with those before it: it stands on a wire of both.
/// That of the gates before it is its last, or else its first.
#[derive(Clone, Copy)]
pub struct Binding {
    pub gate: usize,
    pub last: bool,
}

/// Ties the next gate of the pattern to a wire, on which a cursor stands then. Answers false where it is tied, true
/// where it is free to stand anywhere, and None where no places are left for the pattern's gates.
pub fn tie(
    gates: &[Gate],
    next: &[Sides],
    pattern: &[Gate],
    places: &[u32; 8],
    count: usize,
    cursors: &mut Cursors,
    looked: &mut Looked,
    previous: &[Sides],
) -> Option<bool>
    requires linked { AreLinkedSlots gates.now next.now }
    requires short { length pattern.now ≤ MAX_ROW_GATES }
    requires on_wires { IsCircuit 3 pattern.now }
    requires next { count < length pattern.now }
    requires some { 0 < count }
    requires grown { IsGrown gates.now pattern.now (length gates.now) places.now count }
    requires cursors { AreCursors gates.now pattern.now places.now count (slice_index places.now (count - 1) + 1) cursors.old }
    requires ahead { AreAhead (slice_index places.now (count - 1) + 1) cursors.old }
    requires marked { AreMarked gates.now looked.old cursors.old }
    requires looked { AreLookedAt gates.now looked.old places.now count }
    requires back { AreLinkedBack gates.now previous.now }
    ensures more { LooksAtMore looked.old looked.new }
    ensures none { IfNone result (HasNoFullAlike gates.now pattern.now looked.new places.now count) }
    ensures free { IfSome result (λ free. free ≡ true → MarksAll looked.new.mask) }
    ensures tied { IfSome result (λ free. free ≡ false → IsTiedBy gates.now pattern.now looked.new places.now count (slice_index places.now (count - 1) + 1) cursors.new) }
    ensures cursors { AreCursors gates.now pattern.now places.now count (slice_index places.now (count - 1) + 1) cursors.new }
    ensures ahead { AreAhead (slice_index places.now (count - 1) + 1) cursors.new }
    ensures marked { AreMarked gates.now looked.new cursors.new }
{
    if let Some(_shared) = shared_wire(pattern, count) {
        return Some(false);
    }
    let Some(binding) = binding_of(pattern, count) else {
        looked.mark_all();
        return Some(true);
    };
    let from = places[count - 1] + 1;
    let of_gate = pattern[binding.gate];
    let used = side_wire(of_gate, binding.last) as usize;
    let wire = cursors.wires[used];
    let stop = first_stop(
        gates,
        next,
        pattern,
        places,
        count,
        binding,
        wire,
        from,
        cursors.next[used],
        looked,
    );
    if (stop as usize) >= gates.len() {
        return None;
    }
    if is_passable(gates, places, count, stop) {
        looked.mark_all();
        return Some(true);
    }
    let gate = gates[stop as usize];
    if !may_bind(gate, of_gate, binding.last, wire) {
        return None;
    }
    let to = side_wire(gate, !binding.last);
    let new = side_wire(of_gate, !binding.last) as usize;
    looked.mark(to);
    cursors.wires[new] = to;
    cursors.next[new] = first_on(gates, previous, to, from, stop);
    Some(false)
}

// a wire of the pattern's gate that one before it uses too
#[tactic(auto, using(crate::proofs::TyingLaws::unshared_none, crate::proofs::TyingLaws::unshared_more, crate::proofs::TyingLaws::shared_at))]
fn shared_wire(pattern: &[Gate], number: usize) -> Option<u32>
    requires { number < length pattern.now }
    ensures some { IfSome result (IsShared pattern.now number) }
    ensures none { IfNone result (AreUnshared pattern.now number number) }
{
    let first = pattern[number].first_wire();
    let last = pattern[number].last_wire();
    for before in 0..number {
        if pattern[before].touches(first) {
            return Some(first);
        }
        if pattern[before].touches(last) {
            return Some(last);
        }
    }
    None
}

// the first gate that binds this one
fn binding_of(pattern: &[Gate], number: usize) -> Option<Binding>
    requires { number < length pattern.now }
    ensures { IfSome result (IsBinding pattern.now number) }
{
    for gate in number + 1..pattern.len() {
        if binds(pattern, number, gate, false) {
            return Some(Binding { gate, last: false });
        }
        if binds(pattern, number, gate, true) {
            return Some(Binding { gate, last: true });
        }
    }
    None
}

// whether the gate binds the one with the number, and none between them stands on the other wire
fn binds(pattern: &[Gate], number: usize, gate: usize, last: bool) -> bool
    requires behind { number < gate }
    requires inside { gate < length pattern.now }
    ensures { result ≡ true → IsBinding pattern.now number (record { gate = gate; last = last }) }
{
    let wire = side_wire(pattern[gate], last);
    if !pattern[number].touches(side_wire(pattern[gate], !last)) {
        return false;
    }
    if !is_used(pattern, 0, number, wire) {
        return false;
    }
    !is_used(pattern, number, gate, wire)
}

// whether one of the gates from one number up to another uses the wire
fn is_used(pattern: &[Gate], from: usize, upto: usize, wire: u32) -> bool
    requires { upto ≤ length pattern.now }
    ensures used { result ≡ true → (s : ℕ) × (from ≤ s) × (s < upto) × Touches (gate_at pattern.now s) wire }
    ensures unused { result ≡ false → (s : ℕ) → from ≤ s → s < upto → ¬ Touches (gate_at pattern.now s) wire }
{
    for number in from..upto {
        if pattern[number].touches(wire) {
            return true;
        }
    }
    false
}

// the last wire of the gate, or else the first
fn side_wire(gate: Gate, last: bool) -> u32
    ensures { result ≡ wire_of last gate }
{
    if last {
        gate.last_wire()
    } else {
        gate.first_wire()
    }
}

// whether the gate may be the binding one of the pattern, which has this wire on that side
fn may_bind(gate: Gate, of_gate: Gate, last: bool, wire: u32) -> bool
    ensures { IsTrue result ↔ MayBind of_gate last wire gate }
{
    are_of_one_kind(gate, of_gate) && side_wire(gate, last) == wire
}

// The first place on the wire whose gate may be the binding one or can't be passed over, from a place there on.
#[tactic(auto, using(crate::proofs::TyingLaws::stop_starts, crate::proofs::TyingLaws::stop_goes_on, crate::proofs::Marking::looks_on))]
fn first_stop(
    gates: &[Gate],
    next: &[Sides],
    pattern: &[Gate],
    places: &[u32; 8],
    count: usize,
    binding: Binding,
    wire: u32,
    from: u32,
    start: u32,
    looked: &mut Looked,
) -> u32
    requires linked { AreLinkedSlots gates.now next.now }
    requires few { count ≤ MAX_ROW_GATES }
    requires inside { (s : ℕ) → s < count → slice_index places.now s < length gates.now }
    requires binding { binding.gate < length pattern.now }
    requires wire { wire ≢ NO_WIRE }
    requires start { IsNextOn gates.now wire from start }
    ensures more { LooksAtMore looked.old looked.new }
    ensures near { (result < looked.new.reach) ⊎ (length gates.now < looked.new.reach) }
    ensures stop { IsStop gates.now (gate_at pattern.now binding.gate) binding.last wire from result }
{
    let mut place = start;
    'walk: while (place as usize) < gates.len() {
        looked.look_at(place);
        let gate = gates[place as usize];
        if may_bind(gate, pattern[binding.gate], binding.last, wire) {
            return place;
        }
        if !is_passable(gates, places, count, place) {
            return place;
        }
        place = next_on(gates, next, place, wire);
    }
    looked.look_at(gates.len() as u32);
    place
}

// the first place on the wire, which the gate at the end uses, found backwards from there
fn first_on(gates: &[Gate], previous: &[Sides], wire: u32, from: u32, end: u32) -> u32
    requires back { AreLinkedBack gates.now previous.now }
    requires from { from ≤ end }
    requires end { end < length gates.now }
    requires wire { wire ≢ NO_WIRE }
    requires uses { Touches (gate_at gates.now end) wire }
    ensures { IsNextOn gates.now wire from result }
{
    let mut place = end;
    let mut before = previous_on(gates, previous, place, wire);
    'back: while from <= before && before < place {
        place = before;
        before = previous_on(gates, previous, place, wire);
    }
    place
}
