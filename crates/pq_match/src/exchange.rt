//! Rewriting in slots: the chosen ones are freed, and the replacement is put into free ones around the last of them.

ghost use Rattle.std.specs.Prelude.{◌≡◌, ◌≢◌, ℕ, ◌+◌, ◌<◌, ◌≤◌, Bool, List, length, map, slice_index, slice_set, All, AllPairs};
ghost use Rattle.pq_gate.specs.Circuit.{IsOnWires, IsCircuit};
ghost use Rattle.pq_rules.specs.Renaming.{renamed};
ghost use Rattle.pq_links.specs.Wires.{wire_of};
ghost use Rattle.pq_links.specs.Slots.{free_slot};
ghost use Rattle.pq_match.specs.Redex.{gate_at};
ghost use Rattle.pq_match.specs.Work.{AreWhole, AreFreed, AreFilled, IsFreeRun, AreOwn, AreGaps, AreGapsOn, AreLeft, KeepGaps, IsPlaced, IsRun, IsExchanged};

use crate::rewrite::{read_wires, rename};
use crate::runs::Run;
use pq_gate::Gate;
use pq_links::{Chains, Gap, NO_WIRE};
use pq_rules::Row;

/// For each of a row's wires the gap on the wire that it is led to: the last place before a run's end, and the next one
/// from there on.
#[derive(Clone, Copy)]
pub struct Gaps {
    pub before: [u16; 3],
    pub after: [u16; 3],
}

/// Exchanges the gates of a row's pattern, which stand at the places, for its replacement in the run.
#[tactic(auto, using(crate::proofs::Placed::own_pattern, crate::proofs::Placed::own_replacement, crate::proofs::Placed::chosen_read, crate::proofs::Placed::gaps_replacement, crate::proofs::Placed::run_freed))]
pub fn exchange(slots: &mut [Gate], chains: &mut Chains, row: &Row, places: &[u32], run: Run)
    requires whole { AreWhole slots.old chains.old }
    requires placed { (wires : List ℕ) × IsPlaced slots.old row.now wires places.now }
    requires run { IsRun slots.old places.now (length row.now.replacement) run }
    ensures whole { AreWhole slots.new chains.new }
    ensures exchanged { (wires : List ℕ) → IsPlaced slots.old row.now wires places.now
        → IsExchanged slots.old slots.new row.now.replacement wires places.now run }
    ensures room { chains.new.room ≡ chains.old.room }
{
    let pattern = row.pattern();
    let wires = read_wires(slots, places, pattern);
    let mut gaps = take_out(slots, chains, places, pattern, &wires, run.end);
    let replacement = row.replacement();
    put_in(
        slots,
        chains,
        run.start,
        replacement,
        &wires,
        run.end,
        &mut gaps,
    );
}

/// Frees the slots at the places, which hold the pattern's gates. Answers the gaps at the end on the pattern's wires.
#[tactic(auto, using(crate::proofs::Exchanging::gaps_none, crate::proofs::Exchanging::gaps_more, crate::proofs::Exchanging::gaps_all, crate::proofs::Exchanging::freed_none, crate::proofs::Exchanging::freed_more, crate::proofs::Exchanging::freed_all, crate::proofs::Exchanging::still_there, crate::proofs::Exchanging::own_wires, crate::proofs::SearchGates::gate_on_wires))]
pub fn take_out(
    slots: &mut [Gate],
    chains: &mut Chains,
    places: &[u32],
    pattern: &[Gate],
    wires: &[u32; 3],
    end: u32,
) -> Gaps
    requires whole { AreWhole slots.old chains.old }
    requires count { length places.now ≡ length pattern.now }
    requires rising { AllPairs (λ i j. i < j) places.now }
    requires inside { All (λ i. i < end) places.now }
    requires end { end ≤ length slots.old }
    requires on_wires { IsCircuit 3 pattern.now }
    requires own { AreOwn wires.now pattern.now }
    requires chosen { map (gate_at slots.old) places.now ≡ map (renamed wires.now) pattern.now }
    ensures freed { AreFreed slots.old slots.new places.now }
    ensures whole { AreWhole slots.new chains.new }
    ensures gaps { AreGaps slots.new wires.now end result pattern.now }
    ensures room { chains.new.room ≡ chains.old.room }
{
    let mut gaps = Gaps {
        before: [0; 3],
        after: [0; 3],
    };
    for index in 0..places.len() {
        take_gate(
            slots,
            chains,
            places[index],
            pattern[index],
            wires,
            end,
            &mut gaps,
        );
    }
    gaps
}

// one gate
#[tactic(auto, using(crate::proofs::Exchanging::gaps_on))]
fn take_gate(
    slots: &mut [Gate],
    chains: &mut Chains,
    place: u32,
    of_gate: Gate,
    wires: &[u32; 3],
    end: u32,
    gaps: &mut Gaps,
)
    requires whole { AreWhole slots.old chains.old }
    requires place { place < end }
    requires end { end ≤ length slots.old }
    requires on_wires { IsOnWires 3 of_gate }
    requires gate { gate_at slots.old place ≡ renamed wires.now of_gate }
    requires own { (one : Bool) → wire_of one (gate_at slots.old place) ≢ NO_WIRE }
    ensures slots { slots.new ≡ slice_set slots.old place free_slot }
    ensures whole { AreWhole slots.new chains.new }
    ensures gaps { AreGapsOn slots.new wires.now end gaps.new of_gate }
    ensures others { KeepGaps of_gate gaps.old gaps.new }
    ensures room { chains.new.room ≡ chains.old.room }
{
    let gate = slots[place as usize];
    let (first, last) = chains.remove(slots, place);
    let first_end = chains.gap_at(slots, gate.first_wire(), first, place, end);
    let last_end = chains.gap_at(slots, gate.last_wire(), last, place, end);
    leave(gaps, of_gate, first_end, last_end);
}

// notes the gaps on the wires of a gate
#[tactic(auto, using(crate::proofs::Exchanging::kept_gaps))]
fn leave(gaps: &mut Gaps, gate: Gate, first: Gap, last: Gap)
    requires { IsOnWires 3 gate }
    ensures left { AreLeft gate first last gaps.new }
    ensures others { KeepGaps gate gaps.old gaps.new }
{
    let one = gate.first_wire() as usize;
    let other = gate.last_wire() as usize;
    gaps.before[one] = first.before;
    gaps.after[one] = first.after;
    gaps.before[other] = last.before;
    gaps.after[other] = last.after;
}

/// Puts gates, their wires renamed, into free slots from a place on.
#[tactic(auto, using(crate::proofs::Exchanging::filled_none, crate::proofs::Exchanging::filled_more, crate::proofs::Exchanging::filled_all, crate::proofs::Exchanging::run_more, crate::proofs::Exchanging::gaps_put, crate::proofs::Exchanging::own_leads, crate::proofs::SearchGates::gate_on_wires))]
pub fn put_in(
    slots: &mut [Gate],
    chains: &mut Chains,
    start: u32,
    replacement: &[Gate],
    wires: &[u32; 3],
    end: u32,
    gaps: &mut Gaps,
)
    requires whole { AreWhole slots.old chains.old }
    requires run { IsFreeRun slots.old start end }
    requires room { start + length replacement.now ≤ end }
    requires on_wires { IsCircuit 3 replacement.now }
    requires own { AreOwn wires.now replacement.now }
    requires gaps { AreGaps slots.old wires.now end gaps.old replacement.now }
    ensures filled { AreFilled slots.old slots.new start (map (renamed wires.now) replacement.now) }
    ensures whole { AreWhole slots.new chains.new }
    ensures room { chains.new.room ≡ chains.old.room }
{
    for index in 0..replacement.len() {
        let place = start + index as u32;
        put_gate(slots, chains, place, replacement[index], wires, end, gaps);
    }
}

// one gate
#[tactic(auto, using(crate::proofs::Exchanging::gaps_behind))]
fn put_gate(
    slots: &mut [Gate],
    chains: &mut Chains,
    place: u32,
    gate: Gate,
    wires: &[u32; 3],
    end: u32,
    gaps: &mut Gaps,
)
    requires whole { AreWhole slots.old chains.old }
    requires run { IsFreeRun slots.old place end }
    requires place { place < end }
    requires on_wires { IsOnWires 3 gate }
    requires own { (one : Bool) → slice_index wires.now (wire_of one gate) ≢ NO_WIRE }
    requires gaps { AreGapsOn slots.old wires.now end gaps.old gate }
    ensures slots { slots.new ≡ slice_set slots.old place (renamed wires.now gate) }
    ensures whole { AreWhole slots.new chains.new }
    ensures gaps { AreGapsOn slots.new wires.now end gaps.new gate }
    ensures others { KeepGaps gate gaps.old gaps.new }
    ensures room { chains.new.room ≡ chains.old.room }
{
    let one = gate.first_wire() as usize;
    let other = gate.last_wire() as usize;
    let first = Gap {
        before: gaps.before[one],
        after: gaps.after[one],
    };
    let last = Gap {
        before: gaps.before[other],
        after: gaps.after[other],
    };
    chains.insert(slots, place, rename(gate, wires), first, last);
    let behind_first = Gap {
        before: place as u16,
        after: first.after,
    };
    let behind_last = Gap {
        before: place as u16,
        after: last.after,
    };
    leave(gaps, gate, behind_first, behind_last);
}
