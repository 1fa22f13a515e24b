ghost use Rattle.std.specs.Prelude.{◌≡◌, ℕ, ◌+◌, ◌<◌, ◌≤◌, false, true, length, slice_index};
ghost use Rattle.pq_gate.specs.Circuit.{IsOnWires};
ghost use Rattle.pq_gate.specs.Kind.{kind_of};
ghost use Rattle.pq_links.specs.Wires.{wire_of};
ghost use Rattle.pq_links.specs.Links.{IsNextOn};
ghost use Rattle.pq_match.specs.Redex.{gate_at};
ghost use Rattle.pq_match.specs.Seek.{AreLinkedSlots, IsTaken, IsAtCursor, AreAhead, HaveMovedOn, AreLedTo};

use crate::search::are_of_one_kind;
use pq_gate::Gate;
use pq_links::{FAR, Sides, next_on};

/// Where a search stands on the wires of a pattern: for each the wire that it is led to, and the next place there
/// that wasn't looked at. A wire that isn't led anywhere yet has `FAR`.
#[derive(Clone, Copy)]
pub struct Cursors {
    pub wires: [u32; 3],
    pub next: [u32; 3],
}

impl Cursors {
    /// None of the wires is led anywhere.
    pub fn new() -> Cursors
        ensures { AreAhead FAR result }
    {
        Cursors {
            wires: [0; 3],
            next: [FAR; 3],
        }
    }
}

/// The next place where the walk has to look: the least of the cursors, or before it the first gate of the kind of
/// the next gate, where that is free to use other wires. It is the number of gates where there is none.
pub fn next_place(gates: &[Gate], cursors: &Cursors, free: bool, next: Gate, from: u32) -> u32
    requires few { length gates.now < FAR }
    requires from { from ≤ length gates.now }
    requires ahead { AreAhead from cursors.now }
    ensures behind { from ≤ result }
    ensures within { result ≤ length gates.now }
    ensures ahead { AreAhead result cursors.now }
    ensures stands { free ≡ false → result < length gates.now → IsAtCursor result cursors.now }
    ensures kinds { (place : ℕ) → from ≤ place → place < result → free ≡ true → kind_of (gate_at gates.now place) ≡ kind_of next → ⊥ }
{
    let least = cursors.next[0].min(cursors.next[1]).min(cursors.next[2]);
    let end = least.min(gates.len() as u32);
    if free {
        first_of_kind(gates, next, from, end)
    } else {
        end
    }
}

// the first place whose gate is of the kind, or the end
fn first_of_kind(gates: &[Gate], of_kind: Gate, from: u32, end: u32) -> u32
    requires few { length gates.now < FAR }
    requires from { from ≤ end }
    requires end { end ≤ length gates.now }
    ensures behind { from ≤ result }
    ensures within { result ≤ end }
    ensures kinds { (place : ℕ) → from ≤ place → place < result → kind_of (gate_at gates.now place) ≡ kind_of of_kind → ⊥ }
{
    for place in from..end {
        if are_of_one_kind(gates[place as usize], of_kind) {
            return place;
        }
    }
    end
}

/// Moves the cursors that stand at a place on to the next one on their wires.
pub fn move_on(gates: &[Gate], next: &[Sides], cursors: &mut Cursors, place: u32)
    requires linked { AreLinkedSlots gates.now next.now }
    requires place { place < length gates.now }
    ensures { HaveMovedOn gates.now place cursors.old cursors.new }
{
    for wire in 0..3 {
        if cursors.next[wire] == place {
            cursors.next[wire] = next_on(gates, next, place, cursors.wires[wire]);
        }
    }
}

/// Leads the wires of a pattern's gate to those of the gate at a place, and their cursors behind it.
pub fn lead_to(gates: &[Gate], next: &[Sides], cursors: &mut Cursors, of_gate: Gate, place: u32)
    requires linked { AreLinkedSlots gates.now next.now }
    requires place { place < length gates.now }
    requires taken { IsTaken (gate_at gates.now place) }
    requires on_wires { IsOnWires 3 of_gate }
    ensures led { AreLedTo gates.now of_gate place cursors.old cursors.new }
    ensures ahead { AreAhead (place + 1) cursors.old → AreAhead (place + 1) cursors.new }
{
    let gate = gates[place as usize];
    let sides = sides_at(gates, next, place);
    let first = of_gate.first_wire() as usize;
    let last = of_gate.last_wire() as usize;
    cursors.wires[first] = gate.first_wire();
    cursors.next[first] = sides.first as u32;
    cursors.wires[last] = gate.last_wire();
    cursors.next[last] = sides.second as u32;
}

// the next places on the wires of the gate at a place
fn sides_at(gates: &[Gate], next: &[Sides], place: u32) -> Sides
    requires linked { AreLinkedSlots gates.now next.now }
    requires place { place < length gates.now }
    requires taken { IsTaken (gate_at gates.now place) }
    ensures first { IsNextOn gates.now (wire_of false (gate_at gates.now place)) (place + 1) result.first }
    ensures second { IsNextOn gates.now (wire_of true (gate_at gates.now place)) (place + 1) result.second }
{
    next[place as usize]
}
