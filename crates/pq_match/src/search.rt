ghost use Rattle.std.specs.Prelude.{◌≡◌, ℕ, ◌+◌, ◌%◌, ◌<◌, ◌≤◌, ◌↔◌, IsTrue, IfSome, IfNone, true, false, length, slice_index, slice_index_or, slice_set};
ghost use Rattle.pq_gate.specs.Commuting.{Touches, Commutes};
ghost use Rattle.pq_gate.specs.Kind.{kind_of, number_of};
ghost use Rattle.pq_match.specs.Redex.{HasNoRedex, gate_at};
ghost use Rattle.pq_match.specs.Found.{FindsAmong, FindsWithin, IsFirstFound};
ghost use Rattle.pq_match.specs.Search.{AreApart, IsAlike, AreAlike, IsFitting, IsNext, IsPassable, IsGrown, FindsFull, AreEight, IsFrom, IsOfRow};
ghost use Rattle.pq_match.specs.Within.{IsNextWithin, IsSeenWithin, HasKindsNear};
ghost use Rattle.pq_gate.specs.Ports.{first_wire};

use crate::redex::Redex;
use crate::seek::see;
use pq_gate::{Gate, KINDS, commutes};
use pq_limits::{MAX_GATES, MAX_ROW_GATES};
use pq_rules::{Rules, Sight, kind_number};

// how many numbers of kinds there are, as a length
const KIND_NUMBERS: usize = KINDS as usize;

/// The first redex of at most 1,048,576 gates whose last place minus its first place is less than
/// `span`. None exactly where there is none. It takes no memory.
#[tactic(auto, using(crate::proofs::SearchWithin::none_before_first, crate::proofs::SearchWithin::none_before_more, crate::proofs::SearchWithin::none_at_all, crate::proofs::SearchWithin::first_from_here))]
pub fn find_within(gates: &[Gate], rules: &Rules, span: u32) -> Option<Redex>
    requires { length gates.now ≤ MAX_GATES }
    ensures { FindsWithin rules.now gates.now span result }
{
    if span == 0 {
        return None;
    }
    let len = gates.len() as u32;
    for start in 0..len {
        let end = len.min(start.saturating_add(span));
        if let Some(first) = find_from(gates, rules, start, end) {
            return Some(first);
        }
    }
    None
}

// The first redex whose first place is the start and whose places all lie before the end. The next two gates
// before the end on the last wire of the gate at the start rule out most rows.
#[tactic(auto, using(crate::proofs::SearchFrom::tried_more, crate::proofs::SearchFrom::tried_first, crate::proofs::SearchFrom::tried_all))]
fn find_from(gates: &[Gate], rules: &Rules, start: u32, end: u32) -> Option<Redex>
    requires few { length gates.now ≤ MAX_GATES }
    requires start { start < end }
    requires end { end ≤ length gates.now }
    ensures { FindsAmong (IsFrom start end) rules.now gates.now result }
{
    let gate = gates[start as usize];
    let wire = gate.last_wire();
    let next = next_behind(gates, wire, start, end);
    let later = next_behind(gates, wire, next, end);
    let near = see_within(gates, wire, next, end);
    let far = see_within(gates, wire, later, end);
    let numbers = rules.rows_admitting(gate, near, far);
    if numbers.is_empty() {
        return None;
    }
    let kinds = kinds_near(gates, start, end);
    for number in numbers {
        if let Some(redex) = find_row(gates, rules, *number, start, end, &kinds) {
            return Some(redex);
        }
    }
    None
}

// the first place behind this one and before the end whose gate uses the wire, or the end
fn next_behind(gates: &[Gate], wire: u32, place: u32, end: u32) -> u32
    requires few { length gates.now ≤ MAX_GATES }
    requires place { place ≤ end }
    requires end { end ≤ length gates.now }
    ensures next { place < end → IsNextWithin gates.now wire end (place + 1) result }
    ensures within { result ≤ end }
{
    for later in place + 1..end {
        if gates[later as usize].touches(wire) {
            return later;
        }
    }
    end
}

// what is seen at a place on a wire, where nothing is seen from the end on
fn see_within(gates: &[Gate], wire: u32, place: u32, end: u32) -> Sight
    requires end { end ≤ length gates.now }
    ensures { IsSeenWithin gates.now wire end place result }
{
    if place < end {
        see(gates, place, wire)
    } else {
        Sight::nothing()
    }
}

// The kinds of the gates behind the start on the first wire of the gate there, up to the first of them that doesn't
// commute with it. In a match that begins at the start, the next gate on that wire is of one of these kinds.
#[tactic(auto, using(crate::proofs::SearchNear::near_begins, crate::proofs::SearchNear::near_passes, crate::proofs::SearchNear::near_stops_at, crate::proofs::SearchNear::near_ends))]
fn kinds_near(gates: &[Gate], start: u32, end: u32) -> [bool; KIND_NUMBERS]
    requires few { length gates.now ≤ MAX_GATES }
    requires start { start < end }
    requires end { end ≤ length gates.now }
    ensures { HasKindsNear gates.now start end result }
{
    let gate = gates[start as usize];
    let wire = gate.first_wire();
    let mut near = [false; KIND_NUMBERS];
    for place in start + 1..end {
        let other = gates[place as usize];
        if !other.touches(wire) {
            continue;
        }
        near[kind(other)] = true;
        if !commutes(gate, other) {
            return near;
        }
    }
    near
}

// the first of these redexes that are of this row
fn find_row(
    gates: &[Gate],
    rules: &Rules,
    number: u32,
    start: u32,
    end: u32,
    near: &[bool; KIND_NUMBERS],
) -> Option<Redex>
    requires few { length gates.now ≤ MAX_GATES }
    requires start { start < end }
    requires end { end ≤ length gates.now }
    requires near { HasKindsNear gates.now start end near.now }
    ensures { FindsAmong (IsOfRow number start end) rules.now gates.now result }
{
    let Some(row) = rules.row(number) else {
        return None;
    };
    let pattern = row.pattern();
    let second = nearest_of(pattern);
    if second < pattern.len() && !near[kind(pattern[second])] {
        return None;
    }
    let Some(places) = extend_by_kind(gates, pattern, end, &[0; MAX_ROW_GATES], 0, start) else {
        return None;
    };
    Some(Redex {
        row: number,
        count: pattern.len() as u8,
        places,
    })
}

// the number of the next gate on the first wire of the pattern's first gate, or the length where there is none
fn nearest_of(pattern: &[Gate]) -> usize
    requires { 0 < length pattern.now }
    ensures some { 0 < result }
    ensures others { (number : ℕ) → 0 < number → number < result → ¬ Touches (gate_at pattern.now number) (first_wire (gate_at pattern.now 0)) }
    ensures uses { result < length pattern.now → Touches (gate_at pattern.now result) (first_wire (gate_at pattern.now 0)) }
{
    let wire = pattern[0].first_wire();
    for number in 1..pattern.len() {
        if pattern[number].touches(wire) {
            return number;
        }
    }
    pattern.len()
}

// Chooses this place for the next gate of the pattern, and the least places for the others.
#[cycle(growing)]
#[tactic(auto, using(crate::proofs::Growing::nothing_fits))]
fn extend_at(
    gates: &[Gate],
    pattern: &[Gate],
    end: u32,
    places: &[u32; MAX_ROW_GATES],
    count: usize,
    place: u32,
) -> Option<[u32; MAX_ROW_GATES]>
    requires few { length gates.now ≤ MAX_GATES }
    requires short { length pattern.now ≤ MAX_ROW_GATES }
    requires end { end ≤ length gates.now }
    requires next { count < length pattern.now }
    requires place { place < end }
    requires kind { kind_of (gate_at gates.now place) ≡ kind_of (gate_at pattern.now count) }
    requires grown { IsGrown gates.now pattern.now end places.now count }
    requires behind { IsNext gates.now places.now count place }
    requires eight { AreEight places.now count }
    ensures { FindsFull gates.now pattern.now end (slice_set places.now count place) (count + 1) result }
{
    let mut grown = *places;
    grown[count] = place;
    if !fits(gates, pattern, &grown, count) {
        return None;
    }
    if count + 1 == pattern.len() {
        return Some(grown);
    }
    extend(gates, pattern, end, &grown, count + 1)
}

// The same, where the kind of the gate is looked at first.
#[cycle(growing)]
#[tactic(auto, using(crate::proofs::Growing::nothing_of_kind))]
fn extend_by_kind(
    gates: &[Gate],
    pattern: &[Gate],
    end: u32,
    places: &[u32; MAX_ROW_GATES],
    count: usize,
    place: u32,
) -> Option<[u32; MAX_ROW_GATES]>
    requires few { length gates.now ≤ MAX_GATES }
    requires short { length pattern.now ≤ MAX_ROW_GATES }
    requires end { end ≤ length gates.now }
    requires next { count < length pattern.now }
    requires place { place < end }
    requires grown { IsGrown gates.now pattern.now end places.now count }
    requires behind { IsNext gates.now places.now count place }
    requires eight { AreEight places.now count }
    ensures { FindsFull gates.now pattern.now end (slice_set places.now count place) (count + 1) result }
{
    if !are_of_one_kind(gates[place as usize], pattern[count]) {
        return None;
    }
    extend_at(gates, pattern, end, places, count, place)
}

// Chooses the least places for the gates of the pattern that have none yet.
#[cycle(growing)]
#[tactic(auto, using(crate::proofs::GrowingWalk::walk_is_stuck, crate::proofs::GrowingWalk::walk_ends))]
fn extend(
    gates: &[Gate],
    pattern: &[Gate],
    end: u32,
    places: &[u32; MAX_ROW_GATES],
    count: usize,
) -> Option<[u32; MAX_ROW_GATES]>
    requires few { length gates.now ≤ MAX_GATES }
    requires short { length pattern.now ≤ MAX_ROW_GATES }
    requires end { end ≤ length gates.now }
    requires next { count < length pattern.now }
    requires some { 0 < count }
    requires grown { IsGrown gates.now pattern.now end places.now count }
    requires eight { AreEight places.now count }
    ensures { FindsFull gates.now pattern.now end places.now count result }
{
    let used = wires_used(gates, places, count);
    let free = stands_apart(pattern, count);
    let mut place = next_place(
        gates,
        &used,
        free,
        pattern[count],
        places[count - 1] + 1,
        end,
    );
    'walk: while place < end {
        if let Some(found) = extend_by_kind(gates, pattern, end, places, count, place) {
            return Some(found);
        }
        if !is_passable(gates, places, count, place) {
            return None;
        }
        place = next_place(gates, &used, free, pattern[count], place + 1, end);
    }
    None
}

// The wires of the chosen gates, each by its remainder by 64, which other wires may have too.
fn wires_used(gates: &[Gate], places: &[u32; MAX_ROW_GATES], count: usize) -> [bool; 64]
    requires few { count ≤ MAX_ROW_GATES }
    requires inside { (s : ℕ) → s < count → slice_index places.now s < length gates.now }
    ensures { (s w : ℕ) → s < count → Touches (gate_at gates.now (slice_index places.now s)) w → slice_index_or result (w % 64) false ≡ true }
{
    let mut used = [false; 64];
    for chosen in 0..count {
        use_wires(&mut used, gates[places[chosen] as usize]);
    }
    used
}

// adds the wires of the gate
fn use_wires(used: &mut [bool; 64], gate: Gate)
    ensures own { (w : ℕ) → Touches gate w → slice_index_or used.new (w % 64) false ≡ true }
    ensures others { (k : ℕ) → slice_index_or used.old k false ≡ true → slice_index_or used.new k false ≡ true }
{
    let wire = gate.first_wire();
    let other = gate.last_wire();
    used[wire as usize % 64] = true;
    used[other as usize % 64] = true;
}

// whether the gate shares no wire with those before it
fn stands_apart(pattern: &[Gate], number: usize) -> bool
    requires { number < length pattern.now }
    ensures { IsTrue result ↔ ((before : ℕ) → before < number → AreApart (gate_at pattern.now before) (gate_at pattern.now number)) }
{
    for before in 0..number {
        if !are_apart(pattern[before], pattern[number]) {
            return false;
        }
    }
    true
}

// The next place where the walk has to look: the gate there may use a wire of the chosen gates, or is of the
// kind of the next gate, where that is free to use other wires. All places before it are passed over.
fn next_place(gates: &[Gate], used: &[bool; 64], free: bool, next: Gate, from: u32, end: u32) -> u32
    requires few { length gates.now ≤ MAX_GATES }
    requires from { from ≤ end }
    requires end { end ≤ length gates.now }
    ensures behind { from ≤ result }
    ensures within { result ≤ end }
    ensures unused { (place w : ℕ) → from ≤ place → place < result → Touches (gate_at gates.now place) w → slice_index_or used.now (w % 64) false ≡ false }
    ensures kinds { (place : ℕ) → from ≤ place → place < result → free ≡ true → kind_of (gate_at gates.now place) ≡ kind_of next → ⊥ }
{
    for place in from..end {
        let gate = gates[place as usize];
        if may_use(gate, used) || free && are_of_one_kind(gate, next) {
            return place;
        }
    }
    end
}

// whether a wire of the gate has the remainder of one of these wires
fn may_use(gate: Gate, used: &[bool; 64]) -> bool
    ensures { result ≡ false → (w : ℕ) → Touches gate w → slice_index_or used.now (w % 64) false ≡ false }
{
    used[gate.first_wire() as usize % 64] || used[gate.last_wire() as usize % 64]
}

// whether the gate at the last of the places, which is of the pattern's kind there, fits to the gates before it
pub(crate) fn fits(
    gates: &[Gate],
    pattern: &[Gate],
    places: &[u32; MAX_ROW_GATES],
    last: usize,
) -> bool
    requires next { last < length pattern.now }
    requires short { length pattern.now ≤ MAX_ROW_GATES }
    requires inside { (s : ℕ) → s ≤ last → slice_index places.now s < length gates.now }
    requires kind { kind_of (gate_at gates.now (slice_index places.now last)) ≡ kind_of (gate_at pattern.now last) }
    ensures { IsTrue result ↔ IsFitting gates.now pattern.now places.now last }
{
    let gate = gates[places[last] as usize];
    let of_gate = pattern[last];
    if !is_alike_alone(of_gate, gate) {
        return false;
    }
    for s in 0..last {
        if !are_alike(pattern[s], of_gate, gates[places[s] as usize], gate) {
            return false;
        }
    }
    true
}

// whether the two wires of the gate are equal exactly where those of the pattern's gate are
fn is_alike_alone(of_gate: Gate, gate: Gate) -> bool
    ensures { IsTrue result ↔ AreAlike of_gate of_gate gate gate }
{
    are_one_where(
        gate.first_wire(),
        gate.last_wire(),
        of_gate.first_wire(),
        of_gate.last_wire(),
    )
}

// whether the gate at the place commutes with all the chosen gates
pub(crate) fn is_passable(
    gates: &[Gate],
    places: &[u32; MAX_ROW_GATES],
    count: usize,
    place: u32,
) -> bool
    requires few { count ≤ MAX_ROW_GATES }
    requires place { place < length gates.now }
    requires inside { (s : ℕ) → s < count → slice_index places.now s < length gates.now }
    ensures { IsTrue result ↔ IsPassable gates.now places.now count place }
{
    let gate = gates[place as usize];
    for s in 0..count {
        if !are_commuting(gates[places[s] as usize], gate) {
            return false;
        }
    }
    true
}

// whether the gates commute; most share no wire, and that is seen first
fn are_commuting(first: Gate, second: Gate) -> bool
    ensures { IsTrue result ↔ Commutes first second }
{
    are_apart(first, second) || commutes(first, second)
}

// whether the gates share no wire
#[tactic(auto, using(crate::proofs::SearchTouches::apart_by_both))]
fn are_apart(first: Gate, second: Gate) -> bool
    ensures { IsTrue result ↔ AreApart first second }
{
    let wire = first.first_wire();
    let other = first.last_wire();
    !second.touches(wire) && (other == wire || !second.touches(other))
}

// whether the wires of two gates are equal exactly where those of the pattern's gates are
fn are_alike(of_first: Gate, of_second: Gate, first: Gate, second: Gate) -> bool
    ensures { IsTrue result ↔ AreAlike of_first of_second first second }
{
    let of_wire = of_first.first_wire();
    let of_other = of_first.last_wire();
    let wire = first.first_wire();
    let other = first.last_wire();
    is_alike(of_wire, of_second, wire, second) && is_alike(of_other, of_second, other, second)
}

// whether a wire is one of the gate's wires exactly where the pattern's wire is that of the pattern's gate
fn is_alike(of_wire: u32, of_gate: Gate, wire: u32, gate: Gate) -> bool
    ensures { IsTrue result ↔ IsAlike of_wire of_gate wire gate }
{
    are_one_where(wire, gate.first_wire(), of_wire, of_gate.first_wire())
        && are_one_where(wire, gate.last_wire(), of_wire, of_gate.last_wire())
}

// whether two wires are one exactly where two wires of the pattern are
fn are_one_where(wire: u32, own: u32, of_wire: u32, of_own: u32) -> bool
    ensures { IsTrue result ↔ ((wire ≡ own) ↔ (of_wire ≡ of_own)) }
{
    (wire == own) == (of_wire == of_own)
}

// the number of the kind of a gate
fn kind(gate: Gate) -> usize
    ensures kind { result ≡ number_of (kind_of gate) }
    ensures few { result < KINDS }
{
    gate.kind().number() as usize
}

// whether the gates are of one kind: phases, by the same eighths
#[tactic(auto, using(pq_gate::proofs::KindLaws::same_kind))]
pub(crate) fn are_of_one_kind(first: Gate, second: Gate) -> bool
    ensures { IsTrue result ↔ (kind_of first ≡ kind_of second) }
{
    kind_number(first) == kind_number(second)
}
