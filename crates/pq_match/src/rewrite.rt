//! Rewriting a redex in place.

ghost use Rattle.std.specs.Prelude.{◌≡◌, ℕ, ◌+◌, ◌<◌, ◌≤◌, ◌++◌, List, length, map, take, drop, slice_index, All, AllPairs};
ghost use Rattle.pq_gate.specs.Circuit.{IsOnWires, IsCircuit};
ghost use Rattle.pq_gate.specs.Commuting.{Touches};
ghost use Rattle.pq_gate.specs.Matrix.{Same};
ghost use Rattle.pq_rules.specs.Row.{Uses};
ghost use Rattle.pq_rules.specs.Renaming.{renamed};
ghost use Rattle.pq_match.specs.Redex.{IsMatch, gate_at, last_place};
ghost use Rattle.pq_match.specs.Rewrite.{unchosen, rewritten};
ghost use Rattle.pq_match.specs.Found.{IsRedexOf, Rewrites};

use crate::laws::rewriting_keeps_the_matrix;
use crate::redex::Redex;
use crate::segment::Seg;
use crate::starts::are_taken;
use pq_gate::Gate;
use pq_limits::MAX_ROW_WIRES;
use pq_rules::{Row, Rules};

// the most wires of a row, as a length
const ROW_WIRES: usize = MAX_ROW_WIRES as usize;

impl Seg {
    /// Rewrites a redex, in place: the chosen gates leave, and the replacement stands where the last of
    /// them stood. Answers the phase of the row, in eighths of a whole turn from 0 to 7, by which the
    /// old gates turn more than the new ones.
    pub fn apply(&mut self, rules: &Rules, redex: &Redex) -> u8
        requires { IsRedexOf rules.now self.old.items redex.now }
        ensures rewrites { Rewrites rules.now self.old.items redex.now self.new.items result }
        ensures same { (n : ℕ) → IsCircuit n self.old.items → Same n self.old.items self.new.items result }
        ensures turn { result < 8 }
        ensures shorter { length self.new.items < length self.old.items }
        ensures room { self.new.room ≡ self.old.room }
    {
        let row = rules.row(redex.row).unwrap();
        let places = &redex.places[..redex.count as usize];
        let left = rewrite(self.gates.as_mut_slice(), places, row);
        self.gates.truncate(left);
        self.links.build(self.gates.as_slice());
        self.taken = are_taken(self.gates.as_slice());
        self.loaded = false;
        rewriting_keeps_the_matrix();
        row.phase()
    }
}

/// Rewrites the gates at places that match the row. Answers how many gates are left; what stands
/// behind them is of no use.
fn rewrite(gates: &mut [Gate], places: &[u32], row: &Row) -> usize
    requires { (wires : List ℕ) × IsMatch gates.old row.now.pattern wires places.now }
    ensures rewritten { (wires : List ℕ) → IsMatch gates.old row.now.pattern wires places.now →
        take result gates.new ≡ rewritten gates.old row.now.replacement (record { row = 0; wires = wires; places = places.now }) }
    ensures shorter { result < length gates.old }
{
    let wires = read_wires(gates, places, row.pattern());
    let end = places[places.len() - 1] as usize + 1;
    let kept = close_up(gates, places, end);
    let replacement = row.replacement();
    put(gates, kept, replacement, &wires);
    let filled = kept + replacement.len();
    let left = filled + (gates.len() - end);
    gates.copy_within(end.., filled);
    left
}

/// Where the wires of the pattern are led to by the gates at the places.
pub(crate) fn read_wires(gates: &[Gate], places: &[u32], pattern: &[Gate]) -> [u32; ROW_WIRES]
    requires count { length places.now ≡ length pattern.now }
    requires inside { All (λ place. place < length gates.now) places.now }
    requires on_wires { IsCircuit MAX_ROW_WIRES pattern.now }
    ensures { (wires : List ℕ) → map (gate_at gates.now) places.now ≡ map (renamed wires) pattern.now →
        (w : ℕ) → Uses pattern.now w → slice_index result w ≡ slice_index wires w }
{
    let mut wires = [0; ROW_WIRES];
    for (index, gate) in pattern.iter().enumerate() {
        lead(&mut wires, *gate, gates[places[index] as usize]);
    }
    wires
}

/// Leads the wires of a gate to those of another gate.
fn lead(wires: &mut [u32; ROW_WIRES], gate: Gate, to: Gate)
    requires { IsOnWires MAX_ROW_WIRES gate }
    ensures touched { (e : List ℕ) → to ≡ renamed e gate → (w : ℕ) → Touches gate w →
        slice_index wires.new w ≡ slice_index e w }
    ensures others { (e : List ℕ) → to ≡ renamed e gate → (w : ℕ) → slice_index wires.old w ≡ slice_index e w →
        slice_index wires.new w ≡ slice_index e w }
{
    wires[gate.first_wire() as usize] = to.first_wire();
    wires[gate.last_wire() as usize] = to.last_wire();
}

/// Closes up the gates before `end` that aren't chosen, where the last chosen gate stands before `end`.
/// Answers how many they are.
fn close_up(gates: &mut [Gate], places: &[u32], end: usize) -> usize
    requires some { 0 < length places.now }
    requires rising { AllPairs (λ i j. i < j) places.now }
    requires last { end ≡ last_place places.now + 1 }
    requires inside { end ≤ length gates.old }
    ensures closed { take result gates.new ≡ unchosen places.now 0 (take end gates.old) }
    ensures rest { drop end gates.new ≡ drop end gates.old }
    ensures count { result + length places.now ≡ end }
{
    let start = places[0] as usize;
    let mut kept = start;
    let mut passed = 0;
    for place in start..end {
        if passed < places.len() && places[passed] as usize == place {
            passed += 1;
        } else {
            gates[kept] = gates[place];
            kept += 1;
        }
    }
    kept
}

/// Puts gates, their wires renamed, from a place on.
fn put(gates: &mut [Gate], start: usize, replacement: &[Gate], wires: &[u32; ROW_WIRES])
    requires room { start + length replacement.now ≤ length gates.old }
    requires on_wires { IsCircuit MAX_ROW_WIRES replacement.now }
    ensures front { take (start + length replacement.now) gates.new ≡ take start gates.old ++ map (renamed wires.now) replacement.now }
    ensures rest { drop (start + length replacement.now) gates.new ≡ drop (start + length replacement.now) gates.old }
{
    for (index, gate) in replacement.iter().enumerate() {
        gates[start + index] = rename(*gate, wires);
    }
}

/// The gate with its wires renamed.
pub(crate) fn rename(gate: Gate, wires: &[u32; ROW_WIRES]) -> Gate
    requires { IsOnWires MAX_ROW_WIRES gate }
    ensures { result ≡ renamed wires.now gate }
{
    let first = wires[gate.first_wire() as usize];
    let last = wires[gate.last_wire() as usize];
    gate.on(first, last)
}
