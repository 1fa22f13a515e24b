ghost use Rattle.std.specs.Prelude.{◌≡◌, ◌≢◌, ℕ, ◌+◌, ◌*◌, ◌<◌, ◌≤◌, [], ◌∷◌, ◌++◌, ◌⊎◌, Bool, true, false, length, map, slice_index, IfOk};
ghost use Rattle.pq_gate.specs.Commuting.{Touches};
ghost use Rattle.pq_gate.specs.Ports.{last_wire};
ghost use Rattle.pq_links.specs.Wires.{wire_of};
ghost use Rattle.pq_links.specs.Places.{gate_at};
ghost use Rattle.pq_links.specs.Links.{bucket_of, side_at, head_at, is_on, IsNextOn, IsLastIn, IsEndOn, AreLinked, AreBefore};
ghost use Rattle.pq_links.specs.Slots.{AreNext};
ghost use Rattle.pq_links.specs.Leading.{IsHeadOf, AreLed, IsSpot};

use pq_gate::Gate;
use pq_list::OutOfMemory;
use std::alloc::Global;
use std::marker::Model;

/// No place: it lies past the end of every list.
pub const FAR: u32 = 65_535;

/// A number that stands for no wire. A CX that has it twice marks a free slot.
pub const NO_WIRE: u32 = 4_294_967_295;

/// A place for each of a gate's two wires. For a gate with a single wire both are the same.
#[derive(Clone, Copy, Debug, PartialEq, Eq)]
pub struct Sides {
    pub first: u16,
    pub second: u16,
}

/// The last place in a bucket: one of its gate's wires there, and whether that is the gate's first and its last.
#[derive(Clone, Copy)]
pub(crate) struct Head {
    wire: u32,
    place: u16,
    first: bool,
    last: bool,
}

// a wire, its bucket, and the bucket's head
#[derive(Clone, Copy)]
struct Spot {
    wire: u32,
    bucket: usize,
    head: Head,
}

/// No place for either wire.
pub(crate) const NO_PLACES: Sides = Sides {
    first: 65_535,
    second: 65_535,
};

const NO_HEAD: Head = Head {
    wire: NO_WIRE,
    place: 65_535,
    first: false,
    last: false,
};

/// The links of a list of gates: for each gate and each of its wires the next and the previous place on that wire. Gates are
/// appended in constant expected time: wires go into buckets by their bits, each bucket knows the last place in it, and
/// each gate the last place before it in the bucket of each of its wires. Memory is taken once.
#[derive(Drop)]
pub struct Links {
    next: Vec<Sides>,
    previous: Vec<Sides>,

    // the last place before it in the bucket of each wire
    before: Vec<Sides>,

    // as many as a power of two
    heads: Vec<Head>,
    asked: u32,
}

impl Model for Links {
    ghost use Rattle.std.specs.Prelude.{◌*◌, ◌≤◌, ◌<◌, vec_len, vec_capacity};
    ghost use Rattle.pq_links.specs.Links.{LinksView, far};

    ghost Value = { LinksView };

    ghost view = { λ a. record { next = a.next.items; previous = a.previous.items; before = a.before.items; heads = a.heads.items; room = a.asked } };

    ghost invariant = { λ a. (a.asked ≤ vec_capacity a.next) × (a.asked ≤ vec_capacity a.previous) × (a.asked ≤ vec_capacity a.before) × (a.asked < far) × (0 < vec_len a.heads) × (vec_len a.heads ≤ 2 * far) };
}

impl Links {
    /// The links of no gate, with room for those of `room` gates. The room is taken here, once.
    pub fn with_room(alloc: Global, room: u32) -> Result<Links, OutOfMemory>
        requires { room < FAR }
        ensures linked { IfOk result (λ made. AreLinked [] made) }
        ensures room { IfOk result (λ made. made.room ≡ room) }
    {
        let next = Vec::with_capacity(alloc, room as usize)?;
        let previous = Vec::with_capacity(alloc, room as usize)?;
        let before = Vec::with_capacity(alloc, room as usize)?;
        let buckets = (room / 2 + 1).next_power_of_two() as usize;
        let heads = Vec::from_elem(alloc, NO_HEAD, buckets)?;
        Ok(Links {
            next,
            previous,
            before,
            heads,
            asked: room,
        })
    }

    /// Leaves the links of no gate.
    pub fn clear(&mut self)
        ensures linked { AreLinked [] self.new }
        ensures room { self.new.room ≡ self.old.room }
    {
        self.next.clear();
        self.previous.clear();
        self.before.clear();
        self.heads.as_mut_slice().fill(NO_HEAD);
    }

    /// Appends a gate.
    #[inline(always)]
    pub fn push(&mut self, gates: &[Gate], gate: Gate)
        requires linked { AreLinked gates.now self.old }
        requires room { length gates.now < self.old.room }
        ensures linked { AreLinked (gates.now ++ gate ∷ []) self.new }
        ensures room { self.new.room ≡ self.old.room }
    {
        let wire = gate.first_wire();
        let other = gate.last_wire();
        if wire == other {
            self.push_on_one(gates, wire);
        } else {
            self.push_on_two(gates, wire, other);
        }
    }

    // appends a gate whose only wire is this one
    fn push_on_one(&mut self, gates: &[Gate], wire: u32)
        requires linked { AreLinked gates.now self.old }
        requires room { length gates.now < self.old.room }
        ensures linked { (gate : Gate) → wire ≡ wire_of false gate → wire ≡ wire_of true gate → AreLinked (gates.now ++ gate ∷ []) self.new }
        ensures room { self.new.room ≡ self.old.room }
    {
        let spot = spot_in(self.heads.as_slice(), wire);
        if is_end(spot.head, spot.wire) {
            self.append_on_one(gates, spot, spot.head);
        } else {
            self.search_on_one(gates, wire);
        }
    }

    // The same, where the last place on the wire is further back in its bucket. It is seldom called, so it stands
    // out of line, and looks the wire up again.
    #[inline(never)]
    fn search_on_one(&mut self, gates: &[Gate], wire: u32)
        requires linked { AreLinked gates.now self.old }
        requires room { length gates.now < self.old.room }
        ensures linked { (gate : Gate) → wire ≡ wire_of false gate → wire ≡ wire_of true gate → AreLinked (gates.now ++ gate ∷ []) self.new }
        ensures room { self.new.room ≡ self.old.room }
    {
        let spot = spot_in(self.heads.as_slice(), wire);
        let end = self.last_on(gates, spot);
        self.append_on_one(gates, spot, end);
    }

    // The same, where the last place on the wire is known. It doesn't branch.
    #[inline(always)]
    fn append_on_one(&mut self, gates: &[Gate], spot: Spot, end: Head)
        requires linked { AreLinked gates.now self.old }
        requires room { length gates.now < self.old.room }
        requires spot { IsSpot self.old.heads spot }
        requires end { IsEndOn gates.now spot.wire end }
        ensures linked { (gate : Gate) → spot.wire ≡ wire_of false gate → spot.wire ≡ wire_of true gate → AreLinked (gates.now ++ gate ∷ []) self.new }
        ensures room { self.new.room ≡ self.old.room }
    {
        self.next.push_reserved(NO_PLACES);
        let place = gates.len() as u16;
        lead_on(self.next.as_mut_slice(), end, place);
        self.previous.push_reserved(pair(end.place, end.place));
        self.before
            .push_reserved(pair(spot.head.place, spot.head.place));
        self.heads[spot.bucket] = head_of_sides(spot.wire, place, true, true);
    }

    // appends a gate whose first and last wire are these two
    #[inline(never)]
    fn push_on_two(&mut self, gates: &[Gate], wire: u32, other: u32)
        requires linked { AreLinked gates.now self.old }
        requires room { length gates.now < self.old.room }
        requires apart { wire ≢ other }
        ensures linked { (gate : Gate) → wire ≡ wire_of false gate → other ≡ wire_of true gate → AreLinked (gates.now ++ gate ∷ []) self.new }
        ensures room { self.new.room ≡ self.old.room }
    {
        let heads = self.heads.as_slice();
        let first = spot_in(heads, wire);
        let last = spot_in(heads, other);
        if is_end(first.head, first.wire) & is_end(last.head, last.wire) {
            self.append_on_two(gates, first, last, first.head, last.head);
        } else {
            self.search_on_two(gates, wire, other);
        }
    }

    // The same, where the last place on either wire is further back in its bucket. It is seldom called, so it stands
    // out of line, and looks the wires up again.
    #[inline(never)]
    fn search_on_two(&mut self, gates: &[Gate], wire: u32, other: u32)
        requires linked { AreLinked gates.now self.old }
        requires room { length gates.now < self.old.room }
        requires apart { wire ≢ other }
        ensures linked { (gate : Gate) → wire ≡ wire_of false gate → other ≡ wire_of true gate → AreLinked (gates.now ++ gate ∷ []) self.new }
        ensures room { self.new.room ≡ self.old.room }
    {
        let heads = self.heads.as_slice();
        let first = spot_in(heads, wire);
        let last = spot_in(heads, other);
        let end = self.last_on(gates, first);
        let other_end = self.last_on(gates, last);
        self.append_on_two(gates, first, last, end, other_end);
    }

    // The same, where the last places on both wires are known. It doesn't branch.
    #[inline(always)]
    fn append_on_two(&mut self, gates: &[Gate], first: Spot, last: Spot, end: Head, other_end: Head)
        requires linked { AreLinked gates.now self.old }
        requires room { length gates.now < self.old.room }
        requires apart { first.wire ≢ last.wire }
        requires first { IsSpot self.old.heads first }
        requires last { IsSpot self.old.heads last }
        requires end { IsEndOn gates.now first.wire end }
        requires other_end { IsEndOn gates.now last.wire other_end }
        ensures linked { (gate : Gate) → first.wire ≡ wire_of false gate → last.wire ≡ wire_of true gate → AreLinked (gates.now ++ gate ∷ []) self.new }
        ensures room { self.new.room ≡ self.old.room }
    {
        self.next.push_reserved(NO_PLACES);
        let place = gates.len() as u16;
        let next = self.next.as_mut_slice();
        lead_on(next, end, place);
        lead_on(next, other_end, place);
        self.previous
            .push_reserved(pair(end.place, other_end.place));
        self.before
            .push_reserved(pair(first.head.place, last.head.place));
        self.heads[first.bucket] = head_of_sides(first.wire, place, true, false);
        self.heads[last.bucket] = head_of_sides(last.wire, place, false, true);
    }

    // the last place on the wire, or FAR where there is none, by the head of the wire's bucket
    fn last_on(&self, gates: &[Gate], spot: Spot) -> Head
        requires linked { AreLinked gates.now self.now }
        requires room { length gates.now < self.now.room }
        requires spot { IsSpot self.now.heads spot }
        ensures { IsEndOn gates.now spot.wire result }
    {
        let before = self.before.as_slice();
        let buckets = self.heads.len();
        if is_end(spot.head, spot.wire) {
            return spot.head;
        }
        last_before(gates, before, buckets, spot.head.place, spot.wire)
    }

    /// Becomes the links of these gates.
    pub fn build(&mut self, gates: &[Gate])
        requires { length gates.now ≤ self.old.room }
        ensures linked { AreLinked gates.now self.new }
        ensures room { self.new.room ≡ self.old.room }
    {
        self.clear();
        for place in 0..gates.len() {
            self.push(&gates[..place], gates[place]);
        }
    }

    /// The least place behind this one whose gate uses the wire, or `FAR` where there is none. The gate at the
    /// place has to use the wire.
    pub fn next_on(&self, gates: &[Gate], place: u32, wire: u32) -> u32
        requires linked { AreLinked gates.now self.now }
        requires place { place < length gates.now }
        ensures ahead { place + 1 ≤ result }
        ensures next { Touches (gate_at gates.now place) wire → IsNextOn gates.now wire (place + 1) result }
    {
        side_on(gates, self.next.as_slice(), place, wire)
    }

    /// For each gate and each of its wires the next place on the wire, as `AreLinked` says it.
    pub fn nexts(&self) -> &[Sides]
        ensures { result.now ≡ self.now.next }
    {
        self.next.as_slice()
    }

    /// For each gate and each of its wires the previous place on the wire, as `AreLinked` says it.
    pub fn previouses(&self) -> &[Sides]
        ensures { result.now ≡ self.now.previous }
    {
        self.previous.as_slice()
    }

    /// For each wire of the gate at the place the least later place whose gate uses it, or `FAR` where there is
    /// none.
    pub fn next(&self, gates: &[Gate], place: u32) -> Sides
        requires linked { AreLinked gates.now self.now }
        requires place { place < length gates.now }
        ensures first { IsNextOn gates.now (wire_of false (gate_at gates.now place)) (place + 1) result.first }
        ensures second { IsNextOn gates.now (wire_of true (gate_at gates.now place)) (place + 1) result.second }
    {
        self.next[place as usize]
    }
}

/// The least place behind this one whose gate uses the wire, or `FAR` where there is none. The gate at the place has
/// to use the wire, which isn't `NO_WIRE`.
pub fn next_on(gates: &[Gate], next: &[Sides], place: u32, wire: u32) -> u32
    requires long { length next.now ≡ length gates.now }
    requires linked { AreNext gates.now next.now }
    requires place { place < length gates.now }
    ensures fits { result ≤ FAR }
    ensures next { wire ≢ NO_WIRE → Touches (gate_at gates.now place) wire → IsNextOn gates.now wire (place + 1) result }
{
    side_on(gates, next, place, wire)
}

// what is noted at the place for this wire of its gate
pub(crate) fn side_on(gates: &[Gate], sides: &[Sides], place: u32, wire: u32) -> u32
    requires long { length sides.now ≡ length gates.now }
    requires place { place < length gates.now }
    ensures fits { result ≤ FAR }
    ensures noted { (one : Bool) × (Touches (gate_at gates.now place) wire → wire ≡ wire_of one (gate_at gates.now place)) × (result ≡ side_at one sides.now place) }
{
    let noted = sides[place as usize];
    if gates[place as usize].first_wire() == wire {
        noted.first as u32
    } else {
        noted.second as u32
    }
}

// a place for each of two wires, made in one piece as a head is
fn pair(first: u16, second: u16) -> Sides
    ensures { result ≡ record { first = first; second = second } }
{
    Sides { first, second }
}

// a wire's bucket and the bucket's head
fn spot_in(heads: &[Head], wire: u32) -> Spot
    requires some { 0 < length heads.now }
    requires few { length heads.now ≤ 2 * FAR }
    ensures is { IsSpot heads.now result }
    ensures wire { result.wire ≡ wire }
{
    let bucket = bucket_in(wire, heads.len());
    Spot {
        wire,
        bucket,
        head: heads[bucket],
    }
}

// A head made in one piece: it is written and read whole, and a processor waits where one wide read follows narrow writes.
fn head_of_sides(wire: u32, place: u16, first: bool, last: bool) -> Head
    ensures { result ≡ record { wire = wire; place = place; first = first; last = last } }
{
    Head {
        wire,
        place,
        first,
        last,
    }
}

// Whether the head is that of an empty bucket, or is on the wire itself: then it is the last place on the wire. Which
// of the two can't be foretold, so it is one test.
fn is_end(head: Head, wire: u32) -> bool
    ensures { result ≡ true → (head.wire ≡ wire) ⊎ (head.place ≡ FAR) }
{
    (head.wire == wire) | (head.place as u32 == FAR)
}

// the last place on the wire, or FAR where there is none, from the last place in the wire's bucket on back
fn last_before(gates: &[Gate], before: &[Sides], buckets: usize, from: u16, wire: u32) -> Head
    requires few { length gates.now < FAR }
    requires some { 0 < buckets }
    requires buckets { buckets ≤ 2 * FAR }
    requires befores { length before.now ≡ length gates.now }
    requires before { AreBefore buckets gates.now before.now }
    requires from { IsLastIn buckets (bucket_of buckets wire) gates.now (length gates.now) from }
    ensures { IsEndOn gates.now wire result }
{
    let bucket = bucket_in(wire, buckets);
    let mut place = from;
    'back: while (place as usize) < gates.len() {
        let gate = gates[place as usize];
        let first = gate.first_wire();
        if is_either(first, gate.last_wire(), wire) {
            return head_of(gate, place, wire);
        }
        let earlier = before[place as usize];
        place = if bucket_in(first, buckets) == bucket {
            earlier.first
        } else {
            earlier.second
        };
    }
    NO_HEAD
}

// the head at the place, by which of the gate's wires this one is
fn head_of(gate: Gate, place: u16, wire: u32) -> Head
    ensures { IsHeadOf gate place wire result }
{
    Head {
        wire,
        place,
        first: gate.first_wire() == wire,
        last: gate.last_wire() == wire,
    }
}

// the bucket of a wire
#[tactic(auto, using(crate::proofs::Buckets::bucket_below))]
fn bucket_in(wire: u32, buckets: usize) -> usize
    requires some { 0 < buckets }
    requires few { buckets ≤ 2 * FAR }
    ensures is { result ≡ bucket_of buckets wire }
    ensures below { result < buckets }
{
    let folded = wire ^ (wire >> 6) ^ (wire >> 12);
    (folded & (buckets as u32 - 1)) as usize
}

// Whether one of two wires is this one. Which one it is can't be foretold, so it is one test.
#[tactic(auto, using(crate::proofs::Buckets::either_same, crate::proofs::Buckets::first_apart, crate::proofs::Buckets::second_apart))]
fn is_either(first: u32, second: u32, wire: u32) -> bool
    ensures is { result ≡ true → (first ≡ wire) ⊎ (second ≡ wire) }
    ensures not_first { result ≡ false → first ≢ wire }
    ensures not_second { result ≡ false → second ≢ wire }
{
    (first ^ wire).min(second ^ wire) == 0
}

// the last wire of the gate at the place, or anything where there is none
fn end_at(gates: &[Gate], place: u16) -> u32
    ensures { place < length gates.now → result ≡ last_wire (gate_at gates.now place) }
{
    if (place as usize) < gates.len() {
        gates[place as usize].last_wire()
    } else {
        NO_WIRE
    }
}

// leads on for both wires of a gate
pub(crate) fn lead_both(slots: &[Gate], sides: &mut [Sides], gate: Gate, at: Sides, to: Sides)
    requires { length sides.old ≡ length slots.now }
    ensures { AreLed slots.now gate at to sides.old sides.new }
{
    let wire = gate.first_wire();
    let other = gate.last_wire();
    lead(
        slots,
        sides,
        at.first as u32,
        end_at(slots, at.first),
        wire,
        to.first as u32,
    );
    if wire == other && at.first == at.second && to.first == to.second {
        return;
    }
    lead(
        slots,
        sides,
        at.second as u32,
        end_at(slots, at.second),
        other,
        to.second as u32,
    );
}

// Leads on from the last gate on a wire to this place, the last in the list. Where there is no such gate, the side at
// this very place is written as it was, so it doesn't branch.
fn lead_on(next: &mut [Sides], end: Head, place: u16)
    requires place { place < length next.old }
    requires none { place ≤ end.place → (one : Bool) → is_on one end ≡ false }
    ensures led { (one : Bool) → end.place < place → is_on one end ≡ true → side_at one next.new end.place ≡ place }
    ensures others { (p : ℕ) (one : Bool) → (p ≡ end.place → p < place → is_on one end ≡ true → ⊥) → side_at one next.new p ≡ side_at one next.old p }
{
    let at = end.place.min(place) as usize;
    let sides = next[at];
    next[at] = pair(
        if end.first { place } else { sides.first },
        if end.last { place } else { sides.second },
    );
}

// leads on from the last gate on the wire, whose last wire is `end`, to this place
fn lead(gates: &[Gate], next: &mut [Sides], last: u32, end: u32, wire: u32, place: u32)
    requires fits { place ≤ FAR }
    requires end { last < length gates.now → end ≡ last_wire (gate_at gates.now last) }
    requires long { length next.old ≡ length gates.now }
    ensures led { (one : Bool) → last < length gates.now → wire_of one (gate_at gates.now last) ≡ wire → side_at one next.new last ≡ place }
    ensures others { (p : ℕ) (one : Bool) → (p ≡ last → wire_of one (gate_at gates.now p) ≡ wire → ⊥) → side_at one next.new p ≡ side_at one next.old p }
{
    if (last as usize) < gates.len() {
        let first = gates[last as usize].first_wire();
        let sides = next[last as usize];
        let to = place as u16;
        next[last as usize] = Sides {
            first: if first == wire { to } else { sides.first },
            second: if end == wire { to } else { sides.second },
        };
    }
}
