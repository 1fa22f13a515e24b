ghost use Rattle.std.specs.Prelude.{◌≡◌, ℕ, ◌<◌, ◌≤◌, ◌↔◌, false, List, length, All};
ghost use Rattle.pq_gate.specs.declared.gate.Gate.{Gate};
ghost use Rattle.pq_gate.specs.Circuit.{IsCircuit};
ghost use Rattle.pq_gate.specs.Matrix.{Same};
ghost use Rattle.pq_match.specs.Row.{RowView, IsSound};
ghost use Rattle.pq_match.specs.Redex.{HasNoRedex};
ghost use Rattle.pq_oracle.specs.Ora.{Answer, Ora};

/// Under sound rules the oracle has one answer to each list of gates.
pub fn oracle_has_one_answer()
    ensures some { (rules : List RowView) (gates : List Gate) → All IsSound rules
        → (answer : Answer) × Ora rules gates answer }
    ensures only { (rules : List RowView) (gates : List Gate) (answer other : Answer) → All IsSound rules
        → Ora rules gates answer → Ora rules gates other → answer ≡ other }
{}

/// What the oracle answers: a list without a redex, and the old one's matrix turned by the phase.
pub fn oracle_keeps_the_matrix()
    ensures clean { (rules : List RowView) (gates : List Gate) (answer : Answer) → Ora rules gates answer
        → HasNoRedex rules answer.gates }
    ensures improved { (rules : List RowView) (gates : List Gate) (answer : Answer) → Ora rules gates answer
        → answer.improved ≡ false ↔ HasNoRedex rules gates }
    ensures unchanged { (rules : List RowView) (gates : List Gate) (answer : Answer) → Ora rules gates answer
        → answer.improved ≡ false → (answer.gates ≡ gates) × (answer.phase ≡ 0) }
    ensures phase { (rules : List RowView) (gates : List Gate) (answer : Answer) → Ora rules gates answer
        → answer.phase < 8 }
    ensures shorter { (rules : List RowView) (gates : List Gate) (answer : Answer) → All IsSound rules → Ora rules gates answer
        → length answer.gates ≤ length gates }
    ensures same { (rules : List RowView) (gates : List Gate) (answer : Answer) (n : ℕ) → All IsSound rules → Ora rules gates answer
        → IsCircuit n gates → Same n gates answer.gates answer.phase }
{}
