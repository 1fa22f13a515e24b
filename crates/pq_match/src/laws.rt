ghost use Rattle.std.specs.Prelude.{◌≡◌, ℕ, List, Option, All};
ghost use Rattle.pq_gate.specs.declared.gate.Gate.{Gate};
ghost use Rattle.pq_gate.specs.Circuit.{IsCircuit};
ghost use Rattle.pq_gate.specs.Matrix.{Same};
ghost use Rattle.pq_rules.specs.Row.{RowView, IsSound};
ghost use Rattle.pq_match.specs.Redex.{RedexView, IsRedex};
ghost use Rattle.pq_match.specs.First.{FirstWithin};
ghost use Rattle.pq_match.specs.Rewrite.{rewritten};

/// Under sound rules there is one first redex within a span, or none.
pub fn one_first_redex()
    ensures some { (rules : List RowView) (gates : List Gate) (span : ℕ) → All IsSound rules
        → (found : Option RedexView) × FirstWithin rules gates span found }
    ensures only { (rules : List RowView) (gates : List Gate) (span : ℕ) (found other : Option RedexView) → All IsSound rules
        → FirstWithin rules gates span found → FirstWithin rules gates span other → found ≡ other }
{}

/// Rewriting a redex of a sound row turns the matrix back by the phase of the row.
pub fn rewriting_keeps_the_matrix()
    ensures { (rules : List RowView) (gates : List Gate) (redex : RedexView) (is : IsRedex rules gates redex) (n : ℕ)
        → IsSound is.row → IsCircuit n gates → Same n gates (rewritten gates is.row.replacement redex) is.row.phase }
{}
