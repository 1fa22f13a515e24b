ghost use Rattle.std.specs.Prelude.{◌≡◌, ◌↔◌, ℕ, ◌+◌, ◌*◌, ◌/◌, ◌%◌, ◌<◌, ◌≤◌, length, IsTrue, MatchOption, MatchResult};
ghost use Rattle.pq_gate.specs.Circuit.{IsCircuit};
ghost use Rattle.pq_gate.specs.Matrix.{Same, h_count};
ghost use Rattle.pq_rules.specs.Pairs.{IsMatrixWithin, MatchesAt, MatchesBelow, entry_in};
ghost use Rattle.pq_gate.specs.Ring.{turned};
ghost use Rattle.pq_rules.specs.Row.{Uses, HasItsWires};
ghost use Rattle.pq_rules.specs.Agreement.{IsFirstDiffering};

use crate::column::{matrix_of, states, turned_by};
use pq_gate::{Gate, Ring};
use pq_limits::{MAX_ROW_GATES, MAX_ROW_WIRES, MIN_ROW_WIRES};

// whether the gates are a circuit on so many wires
fn are_on_wires(gates: &[Gate], wires: u8) -> bool
    ensures { IsTrue result ↔ IsCircuit wires gates.now }
{
    for gate in gates {
        if !gate.is_on_wires(u32::from(wires)) {
            return false;
        }
    }
    true
}

// whether some gate uses the wire
fn uses(gates: &[Gate], wire: u32) -> bool
    ensures { IsTrue result ↔ Uses gates.now wire }
{
    gates.iter().any(|gate| gate.touches(wire))
}

// whether the gates use all wires
fn use_all(gates: &[Gate], wires: u8) -> bool
    ensures { IsTrue result ↔ ((w : ℕ) → w < wires → Uses gates.now w) }
{
    let end = u32::from(wires);
    for wire in 0..end {
        if !uses(gates, wire) {
            return false;
        }
    }
    true
}

/// Whether there are 1 to 3 wires, both sides are circuits on them, and the pattern uses all of them.
pub fn has_its_wires(wires: u8, pattern: &[Gate], replacement: &[Gate]) -> bool
    ensures { IsTrue result ↔ HasItsWires wires pattern.now replacement.now }
{
    MIN_ROW_WIRES <= wires
        && wires <= MAX_ROW_WIRES
        && are_on_wires(pattern, wires)
        && are_on_wires(replacement, wires)
        && use_all(pattern, wires)
}

/// The number of H gates.
pub fn h_gates(gates: &[Gate]) -> u8
    requires { length gates.now ≤ MAX_ROW_GATES }
    ensures is { result ≡ h_count gates.now }
    ensures few { result ≤ length gates.now }
{
    let mut count = 0;
    for gate in gates {
        count += gate.roots();
    }
    count
}

// whether the entries from one state to another agree up to ω^phase
fn agrees(left: &[[Ring; 8]; 8], right: &[[Ring; 8]; 8], phase: u8, from: u8, to: u8) -> bool
    requires from { from < 8 }
    requires to { to < 8 }
    requires within { IsMatrixWithin 32768 (to + 1) right.now }
    ensures { IsTrue result ↔ (entry_in left.now from to ≡ turned phase (entry_in right.now from to)) }
{
    left[to as usize][from as usize] == turned_by(right[to as usize][from as usize], phase)
}

// the number of the first pair whose entries don't agree up to ω^phase
fn first_mismatch(left: &[[Ring; 8]; 8], right: &[[Ring; 8]; 8], size: u8, phase: u8) -> Option<u8>
    requires some { 1 ≤ size }
    requires few { size ≤ 8 }
    requires within { IsMatrixWithin 32768 size right.now }
    ensures { MatchOption result (MatchesBelow left.now right.now size phase (size * size))
        (λ p. (p < size * size) × MatchesBelow left.now right.now size phase p × (MatchesAt left.now right.now size phase p → ⊥)) }
{
    for pair in 0..size * size {
        if !agrees(left, right, phase, pair / size, pair % size) {
            return Some(pair);
        }
    }
    None
}

/// The least phase up to which all entries agree; or else the number of the first pair such that none
/// makes the entries of all pairs up to it agree.
pub fn matching_phase(left: &[[Ring; 8]; 8], right: &[[Ring; 8]; 8], size: u8) -> Result<u8, u8>
    requires some { 1 ≤ size }
    requires few { size ≤ 8 }
    requires within { IsMatrixWithin 32768 size right.now }
    ensures { MatchResult result (λ k. (k < 8) × MatchesBelow left.now right.now size k (size * size))
        (λ p. (p < size * size) × ((k : ℕ) → k < 8 → MatchesBelow left.now right.now size k (p + 1) → ⊥) ×
        ((k : ℕ) × (k < 8) × MatchesBelow left.now right.now size k p)) }
{
    let mut last = 0u8;
    for phase in 0..8u8 {
        match first_mismatch(left, right, size, phase) {
            None => return Ok(phase),
            Some(pair) => last = last.max(pair),
        }
    }
    Err(last)
}

/// The least phase up to which both sides have one matrix; or else the first pair of basis states such
/// that no single phase makes the entries of all pairs up to and with it agree.
pub fn phase_of(wires: u8, pattern: &[Gate], replacement: &[Gate]) -> Result<u8, (u8, u8)>
    requires wires { HasItsWires wires pattern.now replacement.now }
    requires short { length pattern.now ≤ MAX_ROW_GATES }
    requires shorter { length replacement.now < length pattern.now }
    ensures { MatchResult result (λ k. (k ≤ 7) × Same wires pattern.now replacement.now k) (λ pair. IsFirstDiffering
        (record { wires = wires; pattern = pattern.now; replacement = replacement.now; phase = 0 }) pair.0 pair.1) }
{
    let left = matrix_of(pattern, wires, h_gates(replacement));
    let right = matrix_of(replacement, wires, h_gates(pattern));
    let size = states(wires);
    match matching_phase(&left, &right, size) {
        Ok(phase) => Ok(phase),
        Err(pair) => Err((pair / size, pair % size)),
    }
}
