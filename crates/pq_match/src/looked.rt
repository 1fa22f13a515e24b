//! What a search looked at.

ghost use Rattle.std.specs.Prelude.{◌≡◌, ◌+◌, ◌<◌, Bool, min, max, bit_or};
ghost use Rattle.pq_links.specs.Links.{far};
ghost use Rattle.pq_links.specs.Wires.{wire_of};
ghost use Rattle.pq_match.specs.Seek.{HasBit, MarksAll, LooksAtMore};

use pq_gate::Gate;

/// How far a search looked, and at which wires. What it found out stays so while the gates on these wires stay up to
/// there.
#[derive(Clone, Copy)]
pub struct Looked {
    /// More than each place that was looked at, and more than the number of slots where the search came to their end.
    pub reach: u32,

    /// A bit for each remainder of a wire modulo 64.
    pub mask: u64,
}

impl Looked {
    /// Nothing.
    pub fn nowhere() -> Looked
        ensures { result.reach ≡ 0 }
    {
        Looked { reach: 0, mask: 0 }
    }

    /// The start alone.
    pub fn at(start: u32) -> Looked
        requires { start < far }
        ensures { result.reach ≡ start + 1 }
    {
        Looked {
            reach: start + 1,
            mask: 0,
        }
    }

    /// What either looked at.
    pub fn and(self, other: Looked) -> Looked
        ensures reach { result.reach ≡ max self.reach other.reach }
        ensures mask { result.mask ≡ bit_or self.mask other.mask }
    {
        Looked {
            reach: self.reach.max(other.reach),
            mask: self.mask | other.mask,
        }
    }

    /// The same, where places from this one on don't count.
    pub fn within(self, end: u32) -> Looked
        ensures reach { result.reach ≡ min self.reach end }
        ensures mask { result.mask ≡ self.mask }
    {
        Looked {
            reach: self.reach.min(end),
            mask: self.mask,
        }
    }

    /// Looks at a place.
    pub fn look_at(&mut self, place: u32)
        requires { place < 4294967295 }
        ensures more { LooksAtMore self.old self.new }
        ensures near { place < self.new.reach }
    {
        self.reach = self.reach.max(place + 1);
    }

    /// Marks a wire.
    #[tactic(auto, using(crate::proofs::Marking::marks_it))]
    pub fn mark(&mut self, wire: u32)
        ensures more { LooksAtMore self.old self.new }
        ensures marked { HasBit self.new.mask wire }
        ensures reach { self.new.reach ≡ self.old.reach }
    {
        self.mask |= 1 << (wire % 64);
    }

    /// Marks the wires of a gate.
    #[tactic(auto, using(crate::proofs::Marking::looks_on))]
    pub fn mark_gate(&mut self, gate: Gate)
        ensures more { LooksAtMore self.old self.new }
        ensures marked { (one : Bool) → HasBit self.new.mask (wire_of one gate) }
        ensures reach { self.new.reach ≡ self.old.reach }
    {
        self.mark(gate.first_wire());
        self.mark(gate.last_wire());
    }

    /// Marks all wires.
    #[tactic(auto, using(crate::proofs::Marking::ones_mark_all, crate::proofs::Marking::looks_at_all))]
    pub fn mark_all(&mut self)
        ensures more { LooksAtMore self.old self.new }
        ensures all { MarksAll self.new.mask }
    {
        self.mask = u64::MAX;
    }
}
