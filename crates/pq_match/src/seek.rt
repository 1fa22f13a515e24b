//! The search of one start along the wires, over slots with the next and the previous places on the wires. It says how
//! far it looked and at which wires.

ghost use Rattle.std.specs.Prelude.{◌≡◌, ◌≢◌, ℕ, ◌+◌, ◌-◌, ◌<◌, ◌≤◌, length, slice_index, slice_set, true, false, All, ◌⊎◌};
ghost use Rattle.pq_gate.specs.Circuit.{IsCircuit};
ghost use Rattle.pq_gate.specs.Commuting.{Touches};
ghost use Rattle.pq_gate.specs.Kind.{kind_of};
ghost use Rattle.pq_links.specs.Links.{IsNextOn};
ghost use Rattle.pq_links.specs.Wires.{wire_of};
ghost use Rattle.pq_rules.specs.Row.{IsSound};
ghost use Rattle.pq_match.specs.Ahead.{IsLaneAlike};
ghost use Rattle.pq_match.specs.Redex.{gate_at};
ghost use Rattle.pq_match.specs.Search.{IsNext, IsGrown, AreEight};
ghost use Rattle.pq_match.specs.Seek.{AreLinkedSlots, AreLinkedBack, LooksAtMore, AreLookedAt, IsKnownAt, AreMarked, AreCursors, AreAhead, SeeksFrom, SeeksFull, Seeks, IsRowAt, IsClear, IsSeenAt};
ghost use Rattle.pq_match.specs.Settled.{AreCandidates, IsStill};

use crate::ahead::{lane_on_first, lane_on_last};
use crate::cursors::{Cursors, lead_to, move_on, next_place};
use crate::looked::Looked;
use crate::redex::Redex;
use crate::search::{are_of_one_kind, fits, is_passable};
use crate::ties::tie;
use pq_gate::{Gate, Ports};
use pq_limits::MAX_ROW_GATES;
use pq_links::{FAR, NO_WIRE, Sides, next_on};
use pq_rules::{Lane, Rules, Sight};

/// The first redex of the slots whose first place is the start, and what the search looked at, beside what is noted already.
#[tactic(auto, using(crate::proofs::Marking::looks_on, crate::proofs::Marking::near_more))]
pub fn seek_from(
    gates: &[Gate],
    next: &[Sides],
    rules: &Rules,
    start: u32,
    looked: &mut Looked,
    previous: &[Sides],
) -> Option<Redex>
    requires linked { AreLinkedSlots gates.now next.now }
    requires start { start < length gates.now }
    requires reach { start < looked.old.reach }
    requires back { AreLinkedBack gates.now previous.now }
    ensures more { LooksAtMore looked.old looked.new }
    ensures finds { SeeksFrom rules.now gates.now start looked.new result }
{
    let numbers = rows_ahead(gates, next, rules, start, looked);
    seek_rows(gates, next, rules, numbers, start, looked, previous)
}

/// The numbers, ascending, of the rows that may have a redex at the start by what is seen next and next but one on the
/// last wire of its gate, and what was looked at, beside what is noted already.
pub fn rows_ahead<'a>(
    gates: &[Gate],
    next: &[Sides],
    rules: &'a Rules,
    start: u32,
    looked: &mut Looked,
) -> &'a [u32]
    requires linked { AreLinkedSlots gates.now next.now }
    requires start { start < length gates.now }
    ensures more { LooksAtMore looked.old looked.new }
    ensures candidates { AreCandidates rules.now gates.now start looked.new result.now }
    ensures still { length result.now ≡ 0 → IsStill rules.now gates.now start }
{
    let gate = gates[start as usize];
    let wire = gate.last_wire();
    if wire == NO_WIRE {
        let _sound = rules.count();
        return &[];
    }
    let near = next_on(gates, next, start, wire);
    let far = place_behind(gates, next, near, wire);
    let one = see(gates, near, wire);
    let other = see(gates, far, wire);
    let count = gates.len() as u32;
    looked.look_at(near.min(count));
    looked.look_at(far.min(count));
    looked.mark(wire);
    rules.rows_admitting(gate, one, other)
}

/// The first redex whose first place is the start, where these are the numbers of the rows that may have one there.
#[tactic(auto, using(crate::proofs::LaneRows::none_tried_more, crate::proofs::LaneAlike::lane_more, crate::proofs::Marking::looks_on, crate::proofs::Marking::near_more))]
pub fn seek_rows(
    gates: &[Gate],
    next: &[Sides],
    rules: &Rules,
    numbers: &[u32],
    start: u32,
    looked: &mut Looked,
    previous: &[Sides],
) -> Option<Redex>
    requires linked { AreLinkedSlots gates.now next.now }
    requires start { start < length gates.now }
    requires reach { start < looked.old.reach }
    requires candidates { AreCandidates rules.now gates.now start looked.old numbers.now }
    requires back { AreLinkedBack gates.now previous.now }
    ensures more { LooksAtMore looked.old looked.new }
    ensures finds { SeeksFrom rules.now gates.now start looked.new result }
{
    let _sound = rules.count();
    let mut last = Lane::new();
    let mut first = Lane::new();
    lane_on_last(gates, next, start, &mut last, looked);
    lane_on_first(gates, next, start, &mut first, looked);
    for number in numbers {
        if let Some(redex) = try_row(
            gates, next, rules, *number, start, &last, &first, looked, previous,
        ) {
            return Some(redex);
        }
    }
    None
}

// the first of these redexes that are of this row, where what stands on the wires behind the start admits one
#[tactic(auto, using(crate::proofs::LaneRows::ruled_out))]
fn try_row(
    gates: &[Gate],
    next: &[Sides],
    rules: &Rules,
    number: u32,
    start: u32,
    last: &Lane,
    first: &Lane,
    looked: &mut Looked,
    previous: &[Sides],
) -> Option<Redex>
    requires linked { AreLinkedSlots gates.now next.now }
    requires start { start < length gates.now }
    requires reach { start < looked.old.reach }
    requires sound { All IsSound rules.now }
    requires back { AreLinkedBack gates.now previous.now }
    requires last { IsLaneAlike gates.now (wire_of true (gate_at gates.now start)) start looked.old last.now }
    requires first { IsLaneAlike gates.now (wire_of false (gate_at gates.now start)) start looked.old first.now }
    ensures more { LooksAtMore looked.old looked.new }
    ensures finds { Seeks (IsRowAt number start) rules.now gates.now start looked.new result }
{
    if !rules.may_begin(number, last, first) {
        return None;
    }
    seek_row(gates, next, rules, number, start, looked, previous)
}

/// The next place on the wire behind this one, or FAR where this one is past the end.
pub(crate) fn place_behind(gates: &[Gate], next: &[Sides], place: u32, wire: u32) -> u32
    requires linked { AreLinkedSlots gates.now next.now }
    requires wire { wire ≢ NO_WIRE }
    requires uses { place < length gates.now → Touches (gate_at gates.now place) wire }
    ensures next { (IsNextOn gates.now wire (place + 1) result) ⊎ (length gates.now ≤ place) }
    ensures past { length gates.now ≤ place → result ≡ FAR }
{
    if (place as usize) < gates.len() {
        next_on(gates, next, place, wire)
    } else {
        FAR
    }
}

// what is seen at a place on a wire
pub(crate) fn see(gates: &[Gate], place: u32, wire: u32) -> Sight
    ensures { IsSeenAt gates.now wire place result }
{
    if (place as usize) >= gates.len() {
        return Sight::nothing();
    }
    let gate = gates[place as usize];
    let plays = Sight::of(gate, wire);
    if is_clear(gate) {
        plays
    } else {
        Sight::unclear()
    }
}

// Whether the gate has one role on each of its wires. Which kind it is of can't be foretold, so it is one test.
fn is_clear(gate: Gate) -> bool
    ensures { result ≡ true → IsClear gate }
{
    has_one_wire(gate) | (gate.first_wire() != gate.last_wire())
}

// whether the gate has one wire only; its role there is its first and its last
fn has_one_wire(gate: Gate) -> bool
    ensures { result ≡ true → IsClear gate }
{
    match gate.ports() {
        Ports::One(_) => true,
        Ports::Two(_, _) => false,
    }
}

// the first of these redexes that are of this row
fn seek_row(
    gates: &[Gate],
    next: &[Sides],
    rules: &Rules,
    number: u32,
    start: u32,
    looked: &mut Looked,
    previous: &[Sides],
) -> Option<Redex>
    requires linked { AreLinkedSlots gates.now next.now }
    requires start { start < length gates.now }
    requires reach { start < looked.old.reach }
    requires back { AreLinkedBack gates.now previous.now }
    ensures more { LooksAtMore looked.old looked.new }
    ensures finds { Seeks (IsRowAt number start) rules.now gates.now start looked.new result }
{
    let Some(row) = rules.row(number) else {
        return None;
    };
    let pattern = row.pattern();
    let cursors = Cursors::new();
    let Some(places) = choose_by_kind(
        gates, next, pattern, &[0; 8], 0, &cursors, start, looked, previous,
    ) else {
        return None;
    };
    Some(Redex {
        row: number,
        count: pattern.len() as u8,
        places,
    })
}

// Chooses this place for the next gate of the pattern, and the least places for the others.
#[cycle(seeking)]
fn choose(
    gates: &[Gate],
    next: &[Sides],
    pattern: &[Gate],
    places: &[u32; 8],
    count: usize,
    cursors: &Cursors,
    place: u32,
    looked: &mut Looked,
    previous: &[Sides],
) -> Option<[u32; 8]>
    requires linked { AreLinkedSlots gates.now next.now }
    requires short { length pattern.now ≤ MAX_ROW_GATES }
    requires on_wires { IsCircuit 3 pattern.now }
    requires next { count < length pattern.now }
    requires place { place < length gates.now }
    requires kind { kind_of (gate_at gates.now place) ≡ kind_of (gate_at pattern.now count) }
    requires grown { IsGrown gates.now pattern.now (length gates.now) places.now count }
    requires behind { IsNext gates.now places.now count place }
    requires eight { AreEight places.now count }
    requires cursors { AreCursors gates.now pattern.now places.now count place cursors.now }
    requires ahead { AreAhead place cursors.now }
    requires looked { AreLookedAt gates.now looked.old places.now count }
    requires marked { AreMarked gates.now looked.old cursors.now }
    requires near { place < looked.old.reach }
    requires known { IsKnownAt gates.now (slice_index (slice_set places.now count place) 0) looked.old place }
    requires back { AreLinkedBack gates.now previous.now }
    ensures more { LooksAtMore looked.old looked.new }
    ensures finds { SeeksFull gates.now pattern.now looked.new (slice_set places.now count place) (count + 1) result }
{
    let mut grown = *places;
    grown[count] = place;
    if !fits(gates, pattern, &grown, count) {
        return None;
    }
    if count + 1 == pattern.len() {
        return Some(grown);
    }
    looked.mark_gate(gates[place as usize]);
    let mut moved = *cursors;
    move_on(gates, next, &mut moved, place);
    lead_to(gates, next, &mut moved, pattern[count], place);
    seek(
        gates,
        next,
        pattern,
        &grown,
        count + 1,
        &mut moved,
        looked,
        previous,
    )
}

// The same, where the kind of the gate is looked at first.
#[inline(always)]
#[cycle(seeking)]
fn choose_by_kind(
    gates: &[Gate],
    next: &[Sides],
    pattern: &[Gate],
    places: &[u32; 8],
    count: usize,
    cursors: &Cursors,
    place: u32,
    looked: &mut Looked,
    previous: &[Sides],
) -> Option<[u32; 8]>
    requires linked { AreLinkedSlots gates.now next.now }
    requires short { length pattern.now ≤ MAX_ROW_GATES }
    requires on_wires { IsCircuit 3 pattern.now }
    requires next { count < length pattern.now }
    requires place { place < length gates.now }
    requires grown { IsGrown gates.now pattern.now (length gates.now) places.now count }
    requires behind { IsNext gates.now places.now count place }
    requires eight { AreEight places.now count }
    requires cursors { AreCursors gates.now pattern.now places.now count place cursors.now }
    requires ahead { AreAhead place cursors.now }
    requires looked { AreLookedAt gates.now looked.old places.now count }
    requires marked { AreMarked gates.now looked.old cursors.now }
    requires near { place < looked.old.reach }
    requires known { IsKnownAt gates.now (slice_index (slice_set places.now count place) 0) looked.old place }
    requires back { AreLinkedBack gates.now previous.now }
    ensures more { LooksAtMore looked.old looked.new }
    ensures finds { SeeksFull gates.now pattern.now looked.new (slice_set places.now count place) (count + 1) result }
{
    if !are_of_one_kind(gates[place as usize], pattern[count]) {
        return None;
    }
    choose(
        gates, next, pattern, places, count, cursors, place, looked, previous,
    )
}

// Chooses the least places for the gates of the pattern that have none yet.
#[cycle(seeking)]
fn seek(
    gates: &[Gate],
    next: &[Sides],
    pattern: &[Gate],
    places: &[u32; 8],
    count: usize,
    cursors: &mut Cursors,
    looked: &mut Looked,
    previous: &[Sides],
) -> Option<[u32; 8]>
    requires linked { AreLinkedSlots gates.now next.now }
    requires short { length pattern.now ≤ MAX_ROW_GATES }
    requires on_wires { IsCircuit 3 pattern.now }
    requires next { count < length pattern.now }
    requires some { 0 < count }
    requires grown { IsGrown gates.now pattern.now (length gates.now) places.now count }
    requires eight { AreEight places.now count }
    requires cursors { AreCursors gates.now pattern.now places.now count (slice_index places.now (count - 1) + 1) cursors.old }
    requires ahead { AreAhead (slice_index places.now (count - 1) + 1) cursors.old }
    requires looked { AreLookedAt gates.now looked.old places.now count }
    requires marked { AreMarked gates.now looked.old cursors.old }
    requires back { AreLinkedBack gates.now previous.now }
    ensures more { LooksAtMore looked.old looked.new }
    ensures finds { SeeksFull gates.now pattern.now looked.new places.now count result }
{
    let Some(free) = tie(
        gates, next, pattern, places, count, cursors, looked, previous,
    ) else {
        return None;
    };
    let mut place = next_place(gates, cursors, free, pattern[count], places[count - 1] + 1);
    looked.look_at(place);
    'walk: while (place as usize) < gates.len() {
        if let Some(found) = choose_by_kind(
            gates, next, pattern, places, count, cursors, place, looked, previous,
        ) {
            return Some(found);
        }
        if !is_passable(gates, places, count, place) {
            return None;
        }
        move_on(gates, next, cursors, place);
        place = next_place(gates, cursors, free, pattern[count], place + 1);
        looked.look_at(place);
    }
    None
}
