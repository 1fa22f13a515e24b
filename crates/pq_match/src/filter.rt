//! Which starts may have a redex, by what is seen next and next but one on the last wire of each gate.

ghost use Rattle.std.specs.Prelude.{◌≡◌, ℕ, ◌+◌, ◌*◌, ◌<◌, ◌≤◌, false, length, slice_index};
ghost use Rattle.pq_gate.specs.Commuting.{Touches};
ghost use Rattle.pq_gate.specs.Ports.{first_wire, last_wire};
ghost use Rattle.pq_match.specs.Redex.{gate_at};
ghost use Rattle.pq_match.specs.Seek.{AreLinkedSlots, AreSightsNoted, IsSeenAt, IsSightAt};
ghost use Rattle.pq_match.specs.Settled.{IsQuiet, AreSifted, AreSiftedIn};
ghost use Rattle.pq_match.specs.Work.{AreTaken};

use crate::seek::see;
use crate::words::with_if;
use pq_gate::Gate;
use pq_links::{Sides, next_on};
use pq_rules::{Rules, Sight};

/// Leaves the numbers of starts that may have a redex. A start has twice the number of its gate's place. What is seen of the gates is
/// noted first, so that it is found out once for each of them.
#[tactic(auto, using(crate::proofs::Passing::filled))]
pub fn fill_passing(
    words: &mut [u64],
    notes: &mut [u16],
    gates: &[Gate],
    next: &[Sides],
    rules: &Rules,
)
    requires few { length words.old ≤ 1024 }
    requires room { 2 * length gates.now ≤ 64 * length words.old }
    requires notes { length notes.old ≡ 64 * length words.old }
    requires linked { AreLinkedSlots gates.now next.now }
    requires taken { AreTaken gates.now }
    ensures passed { AreSifted rules.now gates.now words.new }
    ensures notes { length notes.new ≡ length notes.old }
{
    note_sights(notes, gates);
    for index in 0..words.len() {
        words[index] = passing_from(notes, gates, next, rules, index * 32);
    }
}

// notes what is seen of each gate on its first and on its last wire
#[tactic(auto, using(crate::proofs::Noting::noted_none, crate::proofs::Noting::noted_more))]
fn note_sights(notes: &mut [u16], gates: &[Gate])
    requires few { length gates.now ≤ 32768 }
    requires room { 2 * length gates.now ≤ length notes.old }
    ensures noted { AreSightsNoted gates.now (length gates.now) notes.new }
    ensures long { length notes.new ≡ length notes.old }
{
    for place in 0..gates.len() {
        note_at(notes, gates, place);
    }
}

// the same of one gate
fn note_at(notes: &mut [u16], gates: &[Gate], place: usize)
    requires few { length gates.now ≤ 32768 }
    requires place { place < length gates.now }
    requires room { 2 * length gates.now ≤ length notes.old }
    ensures first { IsSightAt gates.now (first_wire (gate_at gates.now place)) place (slice_index notes.new (2 * place)) }
    ensures last { IsSightAt gates.now (last_wire (gate_at gates.now place)) place (slice_index notes.new (2 * place + 1)) }
    ensures others { (k : ℕ) → k < 2 * place → slice_index notes.new k ≡ slice_index notes.old k }
    ensures long { length notes.new ≡ length notes.old }
{
    let gate = gates[place];
    let first = see(gates, place as u32, gate.first_wire());
    let last = see(gates, place as u32, gate.last_wire());
    notes[2 * place] = first.number() as u16;
    notes[2 * place + 1] = last.number() as u16;
}

// what is seen at a place on a wire, by what is noted
#[tactic(auto, using(crate::proofs::Noting::noted_first, crate::proofs::Noting::noted_last))]
fn see_noted(notes: &[u16], gates: &[Gate], place: u32, wire: u32) -> Sight
    requires room { 2 * length gates.now ≤ length notes.now }
    requires noted { AreSightsNoted gates.now (length gates.now) notes.now }
    requires uses { place < length gates.now → Touches (gate_at gates.now place) wire }
    ensures { IsSeenAt gates.now wire place result }
{
    let place = place as usize;
    if place >= gates.len() {
        return Sight::nothing();
    }
    let note = if gates[place].first_wire() == wire {
        2 * place
    } else {
        2 * place + 1
    };
    Sight::numbered(notes[note] as u8)
}

// the word of 32 gates from the first one on
#[tactic(auto, using(crate::proofs::Passing::passed_none, crate::proofs::Passing::passed_more, crate::proofs::Passing::passed_all))]
fn passing_from(notes: &[u16], gates: &[Gate], next: &[Sides], rules: &Rules, first: usize) -> u64
    requires few { first ≤ 32768 }
    requires room { 2 * length gates.now ≤ length notes.now }
    requires noted { AreSightsNoted gates.now (length gates.now) notes.now }
    requires linked { AreLinkedSlots gates.now next.now }
    requires taken { AreTaken gates.now }
    ensures { AreSiftedIn rules.now gates.now first (first + 32) result }
{
    let end = gates.len().min(first + 32);
    let mut word = 0;
    for place in first..end {
        let passes = may_start(notes, gates, next, rules, place);
        word = with_if(passes, word, 2 * (place - first) as u32);
    }
    word
}

// whether a row may have a redex that begins at the place
fn may_start(notes: &[u16], gates: &[Gate], next: &[Sides], rules: &Rules, place: usize) -> bool
    requires room { 2 * length gates.now ≤ length notes.now }
    requires noted { AreSightsNoted gates.now (length gates.now) notes.now }
    requires linked { AreLinkedSlots gates.now next.now }
    requires taken { AreTaken gates.now }
    requires place { place < length gates.now }
    ensures { result ≡ false → IsQuiet rules.now gates.now place }
{
    let gate = gates[place];
    let wire = gate.last_wire();
    let near = next[place].second as u32;
    if near as usize >= gates.len() {
        return rules.has_admitting(gate, Sight::nothing(), Sight::nothing());
    }
    let far = next_on(gates, next, near, wire);
    let one = see_noted(notes, gates, near, wire);
    let other = see_noted(notes, gates, far, wire);
    rules.has_admitting(gate, one, other)
}
