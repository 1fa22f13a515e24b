ghost use Rattle.std.specs.Prelude.{◌≡◌, ℕ, ◌<◌, ◌≤◌, ◌↔◌, false, length};
ghost use Rattle.pq_gate.specs.Circuit.{IsCircuit};
ghost use Rattle.pq_gate.specs.Matrix.{Same};
ghost use Rattle.pq_match.specs.Redex.{HasNoRedex};
ghost use Rattle.pq_match.specs.Segment.{held};
ghost use Rattle.pq_oracle.specs.Ora.{Ora};
ghost use Rattle.pq_oracle.specs.Outcomes.{answer_of};

use pq_match::Seg;
use pq_rules::Rules;

/// What came of a segment.
#[derive(Clone, Copy, Debug, PartialEq, Eq)]
pub struct Outcome {
    /// Whether the segment had a redex.
    pub improved: bool,

    /// By how many eighths of a whole turn the old gates turn more than the new ones, from 0 to 7.
    pub phase: u8,
}

/// Rewrites the first redex of a segment, again and again, until there is none: the segment becomes the
/// oracle's answer to it. It takes no memory.
#[tactic(auto, using(crate::proofs::Answering::same, crate::proofs::Answering::unchanged, crate::proofs::Answering::shorter))]
pub fn improve(rules: &Rules, seg: &mut Seg) -> Outcome
    ensures oracle { Ora rules.now seg.old.items (answer_of seg.new.items result) }
    ensures clean { HasNoRedex rules.now seg.new.items }
    ensures same { (n : ℕ) → IsCircuit n seg.old.items → Same n seg.old.items seg.new.items result.phase }
    ensures unchanged { result.improved ≡ false → (seg.new.items ≡ seg.old.items) × (result.phase ≡ 0) }
    ensures improved { result.improved ≡ false ↔ HasNoRedex rules.now seg.old.items }
    ensures shorter { length seg.new.items ≤ length seg.old.items }
    ensures room { seg.new.room ≡ seg.old.room }
{
    let _sound = rules.count();
    let outcome = rewrite_all(rules, seg);
    seg.gather();
    outcome
}

/// The same, but the segment only holds the oracle's answer.
#[tactic(auto, using(crate::proofs::Improving::led_yet, crate::proofs::Improving::first_shorter))]
pub(crate) fn rewrite_all(rules: &Rules, seg: &mut Seg) -> Outcome
    ensures oracle { Ora rules.now seg.old.items (answer_of (held seg.new) result) }
    ensures room { seg.new.room ≡ seg.old.room }
{
    let mut outcome = Outcome {
        improved: false,
        phase: 0,
    };
    let _sound = rules.count();
    seg.load(rules);
    'rewrites: while let Some(phase) = seg.rewrite_first(rules) {
        outcome = Outcome {
            improved: true,
            phase: (outcome.phase + phase) % 8,
        };
    }
    outcome
}
