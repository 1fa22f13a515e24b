//! One column of a circuit's matrix on at most three wires, as eight entries by the numbers of the
//! basis states. On fewer wires the entries repeat.

ghost use Rattle.std.specs.Prelude.{◌≡◌, ℕ, ◌+◌, ◌^◌, ◌<◌, ◌≤◌, Bool, List, true, cond, length, slice_set};
ghost use Rattle.pq_gate.specs.Bits.{bit, same_bits, toggled};
ghost use Rattle.pq_gate.specs.Circuit.{IsOnWires, IsCircuit};
ghost use Rattle.pq_gate.specs.Matrix.{through, Entry};
ghost use Rattle.pq_gate.specs.Ring.{nought, one, plus, root, rooted, turned, turned_if};
ghost use Rattle.pq_gate.specs.declared.ring.Ring.{Ring};
ghost use Rattle.pq_rules.specs.Bounds.{IsWithin, IsColumnWithin};
ghost use Rattle.pq_rules.specs.Columns.{HasWeights, IsMatrix};
ghost use Rattle.pq_rules.specs.States.{state};

use pq_gate::{Gate, Ring};
use pq_limits::{MAX_ROW_GATES, MAX_ROW_WIRES};

const ZERO: Ring = Ring {
    a: 0,
    b: 0,
    c: 0,
    d: 0,
};

const ONE: Ring = Ring {
    a: 1,
    b: 0,
    c: 0,
    d: 0,
};

/// How many basis states there are.
pub fn states(wires: u8) -> u8
    requires { wires ≤ MAX_ROW_WIRES }
    ensures value { result ≡ 2 ^ wires }
    ensures few { result ≤ 8 }
{
    match wires {
        0 => 1,
        1 => 2,
        2 => 4,
        _ => 8,
    }
}

// the number of the state whose only 1 is this wire's
fn mask(wire: u32) -> u8
    requires { wire < MAX_ROW_WIRES }
    ensures value { result ≡ 2 ^ wire }
    ensures few { result ≤ 4 }
{
    match wire {
        0 => 1,
        1 => 2,
        _ => 4,
    }
}

// the value of a wire
fn has_bit(number: u8, wire: u32) -> bool
    requires number { number < 8 }
    requires wire { wire < MAX_ROW_WIRES }
    ensures { (n : ℕ) → n ≤ MAX_ROW_WIRES → wire < n → result ≡ bit (state n number) wire }
{
    number / mask(wire) % 2 == 1
}

// the number of the state with the wire's value changed
fn with_bit(number: u8, wire: u32, value: bool) -> u8
    requires number { number < 8 }
    requires wire { wire < MAX_ROW_WIRES }
    ensures number { result < 8 }
    ensures state { (n : ℕ) → n ≤ MAX_ROW_WIRES → wire < n → state n result ≡ slice_set (state n number) wire value }
{
    if value {
        number | mask(wire)
    } else {
        number & (7 - mask(wire))
    }
}

// the sum
#[tactic(auto, unfolding(pq_gate::specs::Ring::plus))]
fn added(first: Ring, second: Ring) -> Ring
    requires first { IsWithin 32768 first }
    requires second { IsWithin 32768 second }
    ensures { result ≡ plus first second }
{
    Ring {
        a: first.a + second.a,
        b: first.b + second.b,
        c: first.c + second.c,
        d: first.d + second.d,
    }
}

// ω times the element
#[tactic(auto, unfolding(pq_gate::specs::Ring::turn))]
fn turned_once(ring: Ring) -> Ring
    requires { IsWithin 32768 ring }
    ensures { result ≡ turned 1 ring }
{
    Ring {
        a: -ring.d,
        b: ring.a,
        c: ring.b,
        d: ring.c,
    }
}

// √2 times the element
#[tactic(auto, unfolding(pq_gate::specs::Ring::root))]
fn root_times(ring: Ring) -> Ring
    requires { IsWithin 32768 ring }
    ensures { result ≡ root ring }
{
    Ring {
        a: ring.b - ring.d,
        b: ring.a + ring.c,
        c: ring.b + ring.d,
        d: ring.c - ring.a,
    }
}

// the number of the state with the wire's value changed where `by` is true
fn toggled_bit(number: u8, wire: u32, by: bool) -> u8
    requires number { number < 8 }
    requires wire { wire < MAX_ROW_WIRES }
    ensures number { result < 8 }
    ensures state { (n : ℕ) → n ≤ MAX_ROW_WIRES → wire < n → state n result ≡ toggled (state n number) wire by }
{
    let value = has_bit(number, wire);
    with_bit(number, wire, if by { !value } else { value })
}

// ω^k times the element
pub fn turned_by(ring: Ring, k: u8) -> Ring
    requires { IsWithin 32768 ring }
    ensures { result ≡ turned k ring }
{
    let mut turned = ring;
    for turn in 0..k {
        turned = turned_once(turned);
    }
    turned
}

// ω^k times the element where the bit is 1
fn turned_where(bit: bool, k: u8, ring: Ring) -> Ring
    requires { IsWithin 16384 ring }
    ensures { result ≡ turned_if bit k ring }
{
    if bit { turned_by(ring, k) } else { ring }
}

// √2^k
fn root_power(k: u8) -> Ring
    requires { k ≤ MAX_ROW_GATES }
    ensures { result ≡ rooted k one }
{
    let mut power = ONE;
    for root in 0..k {
        power = root_times(power);
    }
    power
}

// what the gate gives from a state on, where `rest` is what the later gates give
fn entry_through(gate: Gate, rest: &[Ring; 8], from: u8) -> Ring
    requires gate { IsOnWires MAX_ROW_WIRES gate }
    requires from { from < 8 }
    requires rest { IsColumnWithin 16384 rest.now }
    ensures { (n : ℕ) (f : List Bool → Ring) → n ≤ MAX_ROW_WIRES → IsOnWires n gate → HasWeights n rest.now f →
        result ≡ through gate f (state n from) }
{
    match gate {
        Gate::H { wire } => {
            let low = rest[with_bit(from, wire, false) as usize];
            let high = rest[with_bit(from, wire, true) as usize];
            added(low, turned_where(has_bit(from, wire), 4, high))
        }
        Gate::X { wire } => rest[toggled_bit(from, wire, true) as usize],
        Gate::Phase { eighths, wire } => {
            turned_where(has_bit(from, wire), eighths.count(), rest[from as usize])
        }
        Gate::Cx { control, target } => {
            rest[toggled_bit(from, target, has_bit(from, control)) as usize]
        }
    }
}

// what the gate gives from each state on
fn column_through(gate: Gate, rest: &[Ring; 8]) -> [Ring; 8]
    requires gate { IsOnWires MAX_ROW_WIRES gate }
    requires rest { IsColumnWithin 16384 rest.now }
    ensures { (n : ℕ) (f : List Bool → Ring) → n ≤ MAX_ROW_WIRES → IsOnWires n gate → HasWeights n rest.now f →
        HasWeights n result (λ x. through gate f x) }
{
    let mut column = *rest;
    for from in 0..8u8 {
        column[from as usize] = entry_through(gate, rest, from);
    }
    column
}

// `unit` at the state with the number `to`, and 0 at each other one
fn column_at(wires: u8, unit: Ring, to: u8) -> [Ring; 8]
    requires wires { wires ≤ MAX_ROW_WIRES }
    requires to { to < 2 ^ wires }
    ensures { HasWeights wires result (λ x. cond (same_bits x (state wires to)) unit nought) }
{
    let size = states(wires);
    let mut column = [ZERO; 8];
    for from in 0..8u8 {
        column[from as usize] = if from % size == to { unit } else { ZERO };
    }
    column
}

/// The column of the circuit's matrix with what leads to the state with the number `to`, times
/// √2^`roots` more.
pub fn column_of(gates: &[Gate], wires: u8, roots: u8, to: u8) -> [Ring; 8]
    requires wires { wires ≤ MAX_ROW_WIRES }
    requires gates { IsCircuit wires gates.now }
    requires to { to < 2 ^ wires }
    requires roots { roots ≤ MAX_ROW_GATES }
    requires few { roots + length gates.now ≤ 15 }
    ensures { HasWeights wires result (λ x. rooted roots (Entry gates.now x (state wires to))) }
{
    let mut column = column_at(wires, root_power(roots), to);
    let mut left = gates.len();
    while left > 0 {
        left -= 1;
        column = column_through(gates[left], &column);
    }
    column
}

/// The columns of the circuit's matrix, times √2^`roots` more.
pub fn matrix_of(gates: &[Gate], wires: u8, roots: u8) -> [[Ring; 8]; 8]
    requires wires { wires ≤ MAX_ROW_WIRES }
    requires gates { IsCircuit wires gates.now }
    requires roots { roots ≤ MAX_ROW_GATES }
    requires few { roots + length gates.now ≤ 15 }
    ensures { IsMatrix wires roots gates.now result }
{
    let mut columns = [[ZERO; 8]; 8];
    for to in 0..states(wires) {
        columns[to as usize] = column_of(gates, wires, roots, to);
    }
    columns
}
