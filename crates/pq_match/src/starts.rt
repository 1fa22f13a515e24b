//! The first redex of a segment, start by start.

ghost use Rattle.std.specs.Prelude.{◌≡◌, true, length, IfSome, IfNone};
ghost use Rattle.pq_match.specs.Redex.{HasNoRedex};
ghost use Rattle.pq_match.specs.Found.{IsFirstFound, FindsWithin};
ghost use Rattle.pq_match.specs.Work.{AreTaken};

use crate::looked::Looked;
use crate::redex::Redex;
use crate::search::find_within;
use crate::seek::seek_from;
use crate::segment::Seg;
use pq_gate::Gate;
use pq_links::NO_WIRE;
use pq_rules::Rules;

/// The first redex of a segment: the least first place, then the least row, then the least places in
/// the order of a dictionary. None exactly where there is none. It takes no memory.
#[tactic(auto, using(crate::proofs::OneFirst::first_of_all))]
pub fn find_first(seg: &Seg, rules: &Rules) -> Option<Redex>
    ensures none { IfNone result (HasNoRedex rules.now seg.now.items) }
    ensures first { IfSome result (λ redex. IsFirstFound rules.now seg.now.items (length seg.now.items) redex) }
{
    first_redex(seg, rules)
}

// the same
#[tactic(auto, using(crate::proofs::Spreading::taken_slots, crate::proofs::Starting::below_none, crate::proofs::Starting::below_more, crate::proofs::Starting::below_first, crate::proofs::Starting::below_all))]
fn first_redex(seg: &Seg, rules: &Rules) -> Option<Redex>
    ensures { FindsWithin rules.now seg.now.items (length seg.now.items) result }
{
    let gates = seg.gates.as_slice();
    let count = gates.len() as u32;
    if !seg.taken {
        return find_within(gates, rules, count);
    }
    let next = seg.links.nexts();
    let previous = seg.links.previouses();
    for start in 0..count {
        let mut looked = Looked::at(start);
        if let Some(first) = seek_from(gates, next, rules, start, &mut looked, previous) {
            return Some(first);
        }
    }
    None
}

/// Whether no gate uses the number that stands for no wire.
pub fn are_taken(gates: &[Gate]) -> bool
    ensures { result ≡ true → AreTaken gates.now }
{
    for gate in gates {
        if gate.touches(NO_WIRE) {
            return false;
        }
    }
    true
}
