//! Rewriting the first redex of a segment again and again, in slots.

ghost use Rattle.std.specs.Prelude.{◌≡◌, ◌≤◌, [], false, IfSome, IfNone};
ghost use Rattle.pq_match.specs.Redex.{HasNoRedex};
ghost use Rattle.pq_match.specs.Segment.{held, IsKnown};
ghost use Rattle.pq_match.specs.Work.{IsFirstRewritten};

use crate::segment::Seg;
use crate::starts::{are_taken, find_first};
use pq_gate::GateList;
use pq_rules::Rules;
use std::mem;

impl Seg {
    /// Spreads the gates over slots, where gates leave and come without moving others. Those starts wait at which a row may
    /// have a redex by what is seen next; where there is none, nothing is spread. It takes no memory.
    #[tactic(auto, using(crate::proofs::Spreading::spread_gates))]
    pub fn load(&mut self, rules: &Rules)
        ensures held { held self.new ≡ self.old.items }
        ensures known { IsKnown rules.now self.new }
        ensures items { self.new.items ≡ self.old.items }
        ensures room { self.new.room ≡ self.old.room }
    {
        self.rewritten = false;
        self.loaded = false;
        self.still = false;
        if self.taken {
            self.loaded = self.work.load(self.gates.as_slice(), &self.links, rules);
            self.still = !self.loaded;
        }
    }

    /// Closes up the gates in the slots: they become the segment's. It takes no memory.
    pub fn gather(&mut self)
        ensures items { self.new.items ≡ held self.old }
        ensures held { held self.new ≡ held self.old }
        ensures closed { self.new.loaded ≡ false }
        ensures work { self.new.work ≡ self.old.work }
        ensures room { self.new.room ≡ self.old.room }
    {
        if self.loaded && self.rewritten {
            self.work.write(&mut self.gates);
            self.links.build(self.gates.as_slice());
            self.taken = are_taken(self.gates.as_slice());
        }
        self.loaded = false;
    }

    /// Hands over the gates that are held and leaves none: an empty list, which has at least the segment's room, comes in
    /// place of theirs. It takes no memory.
    pub fn take_held(&mut self, empty: GateList) -> GateList
        requires empty { empty.items ≡ [] }
        requires enough { self.old.room ≤ empty.room }
        ensures gates { result.items ≡ held self.old }
        ensures items { self.new.items ≡ [] }
        ensures closed { self.new.loaded ≡ false }
        ensures room { self.new.room ≡ self.old.room }
    {
        if self.loaded && self.rewritten {
            self.work.write(&mut self.gates);
        }
        self.loaded = false;
        let gates = mem::replace(&mut self.gates, empty.into_vec());
        self.links.clear();
        self.taken = true;
        GateList::of(gates)
    }

    /// The gates that are held, without what else the segment has. It takes no memory.
    pub fn into_held(self) -> GateList
        ensures { result.items ≡ held self }
    {
        let mut gates = self.gates;
        if self.loaded && self.rewritten {
            self.work.write(&mut gates);
        }
        GateList::of(gates)
    }

    /// Rewrites the first redex of the gates that are held. Answers the phase of its row, and None exactly where there is
    /// no redex. It takes no memory.
    pub fn rewrite_first(&mut self, rules: &Rules) -> Option<u8>
        requires known { IsKnown rules.now self.old }
        ensures none { IfNone result (HasNoRedex rules.now (held self.old)) }
        ensures same { IfNone result (held self.new ≡ held self.old) }
        ensures first { IfSome result (λ phase. IsFirstRewritten rules.now (held self.old) (held self.new) phase) }
        ensures known { IsKnown rules.now self.new }
        ensures room { self.new.room ≡ self.old.room }
    {
        if self.still {
            return None;
        }
        if !self.loaded {
            return self.rewrite_closed(rules);
        }
        let Some(redex) = self.work.find(rules) else {
            return None;
        };
        if let Some(phase) = self.work.rewrite(rules, &redex) {
            self.rewritten = true;
            return Some(phase);
        }
        self.gather();
        self.rewrite_closed(rules)
    }

    // the same, where the gates are closed up
    fn rewrite_closed(&mut self, rules: &Rules) -> Option<u8>
        requires closed { self.old.loaded ≡ false }
        ensures none { IfNone result (HasNoRedex rules.now (held self.old)) }
        ensures same { IfNone result (held self.new ≡ held self.old) }
        ensures first { IfSome result (λ phase. IsFirstRewritten rules.now (held self.old) (held self.new) phase) }
        ensures known { IsKnown rules.now self.new }
        ensures room { self.new.room ≡ self.old.room }
    {
        let Some(redex) = find_first(self, rules) else {
            return None;
        };
        let phase = self.apply(rules, &redex);
        self.load(rules);
        Some(phase)
    }
}
