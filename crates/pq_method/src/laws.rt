ghost use Rattle.std.specs.Prelude.{◌≡◌, ℕ, ◌+◌, ◌*◌, ◌<◌, ◌≤◌, List, length, All};
ghost use Rattle.pq_gate.specs.declared.gate.Gate.{Gate};
ghost use Rattle.pq_gate.specs.Circuit.{IsCircuit};
ghost use Rattle.pq_gate.specs.Matrix.{Same};
ghost use Rattle.pq_gaps.specs.Gaps.{first_fingers};
ghost use Rattle.pq_match.specs.Row.{RowView, IsSound};
ghost use Rattle.pq_method.specs.declared.step.Step.{Step};
ghost use Rattle.pq_method.specs.Round.{State, Round, IsState};
ghost use Rattle.pq_method.specs.Opt.{Total, first_state, calls_of, phase_of, Opt, Local, Cover};

/// Under sound rules a round leads each state to exactly one state, with one set of numbers.
pub fn rounds_have_one_result()
    ensures some { (rules : List RowView) (window : ℕ) (before : State) → All IsSound rules
        → (after : State) × (step : Step) × Round rules window before after step }
    ensures only { (rules : List RowView) (window : ℕ) (before after other : State) (step another : Step) → All IsSound rules
        → Round rules window before after step → Round rules window before other another → (after ≡ other) × (step ≡ another) }
{}

/// A round leads a state to a state. Where each run of at most Omega gates that has a redex lay in a finger's
/// segment, it does after. The matrix turns by the round's phase, there are no more gates than before, and the
/// fingers and twice the gates fall by the selected fingers at least.
pub fn rounds_keep_cover()
    ensures state { (rules : List RowView) (window : ℕ) (before after : State) (step : Step) → 0 < window → All IsSound rules → IsState before
        → Round rules window before after step → IsState after }
    ensures cover { (rules : List RowView) (window : ℕ) (before after : State) (step : Step) → 0 < window → All IsSound rules → IsState before
        → Round rules window before after step → Cover rules window before → Cover rules window after }
    ensures same { (rules : List RowView) (window : ℕ) (before after : State) (step : Step) (n : ℕ) → 0 < window → All IsSound rules → IsState before
        → Round rules window before after step → IsCircuit n before.gates → Same n before.gates after.gates step.phase }
    ensures bound { (rules : List RowView) (window : ℕ) (before after : State) (step : Step) → 0 < window → All IsSound rules → IsState before
        → Round rules window before after step
        → length after.fingers + 2 * length after.gates + step.selected ≤ length before.fingers + 2 * length before.gates }
    ensures shorter { (rules : List RowView) (window : ℕ) (before after : State) (step : Step) → All IsSound rules → IsState before
        → Round rules window before after step → length after.gates ≤ length before.gates }
    ensures selects { (rules : List RowView) (window : ℕ) (before after : State) (step : Step) → Round rules window before after step
        → 0 < length before.fingers → 0 < step.selected }
{}

/// The first fingers of a list of gates are gaps of it, in order, and each run of at most Omega gates that has a redex
/// lies in the segment of one of them.
pub fn first_fingers_cover()
    ensures state { (window : ℕ) (gates : List Gate) → 0 < window → IsState (first_state window gates) }
    ensures cover { (rules : List RowView) (window : ℕ) (gates : List Gate) → 0 < window → Cover rules window (first_state window gates) }
{}

/// Under sound rules rounds from the first fingers end in exactly one way.
pub fn opt_has_one_result()
    ensures some { (rules : List RowView) (window : ℕ) (gates : List Gate) → 0 < window → All IsSound rules
        → (total : Total) × Opt rules window gates total }
    ensures only { (rules : List RowView) (window : ℕ) (gates : List Gate) (total other : Total) → All IsSound rules
        → Opt rules window gates total → Opt rules window gates other → total ≡ other }
{}

/// What the rounds end with: no run of at most Omega gates has a redex, the matrix is kept up to the phase, there
/// are no more gates than before, and there were at most as many calls as first fingers and twice the removed gates,
/// and at most as many rounds as calls.
pub fn opt_is_local()
    ensures local { (rules : List RowView) (window : ℕ) (gates : List Gate) (total : Total) → 0 < window → All IsSound rules
        → Opt rules window gates total → Local rules window total.gates }
    ensures same { (rules : List RowView) (window : ℕ) (gates : List Gate) (total : Total) (n : ℕ) → 0 < window → All IsSound rules
        → Opt rules window gates total → IsCircuit n gates → Same n gates total.gates (phase_of total.rounds) }
    ensures shorter { (rules : List RowView) (window : ℕ) (gates : List Gate) (total : Total) → 0 < window → All IsSound rules
        → Opt rules window gates total → length total.gates ≤ length gates }
    ensures bound { (rules : List RowView) (window : ℕ) (gates : List Gate) (total : Total) → 0 < window → All IsSound rules
        → Opt rules window gates total
        → calls_of total.rounds + 2 * length total.gates ≤ length (first_fingers (length gates) window) + 2 * length gates }
    ensures rounds { (rules : List RowView) (window : ℕ) (gates : List Gate) (total : Total) → Opt rules window gates total
        → length total.rounds ≤ calls_of total.rounds }
{}
