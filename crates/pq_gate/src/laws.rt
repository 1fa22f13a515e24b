//! Facts about circuits and their matrices. Each is the contract of a function that does nothing:
//! a caller's proof has the fact after the call.
#![tactic(auto, unfolding(crate::specs::Ring::nought, crate::specs::Ring::one, crate::specs::Ring::plus, crate::specs::Ring::turn))]

ghost use Rattle.std.specs.Prelude.{◌≡◌, ◌≢◌, ◌↔◌, ◌⊎◌, ℕ, ◌+◌, ◌-◌, ◌%◌, ◌<◌, Bool, true, false, pos, negsuc, List, [], ◌∷◌, ◌++◌, IsTrue};
ghost use Rattle.pq_gate.specs.declared.gate.Gate.{Gate};
ghost use Rattle.pq_gate.specs.declared.ring.Ring.{Ring};
ghost use Rattle.pq_gate.specs.Bits.{same_bits};
ghost use Rattle.std.specs.List.{AllByRecursion};
ghost use Rattle.pq_gate.specs.declared.gate.Sum.{Sum};
ghost use Rattle.pq_gate.specs.Circuit.{IsOnWires, IsCircuit};
ghost use Rattle.pq_gate.specs.Commuting.{Touches, Along, Commutes};
ghost use Rattle.pq_gate.specs.Kind.{kind_of, gate_on, number_of};
ghost use Rattle.pq_gate.specs.Ports.{wires_of, first_wire, last_wire, IsAmong, Plays};
ghost use Rattle.pq_gate.specs.Role.{role_number, axis_of, HaveOneAxis};
ghost use Rattle.pq_gate.specs.declared.kind.Kind.{Kind};
ghost use Rattle.pq_gate.specs.declared.role.Axis.{Axis};
ghost use Rattle.pq_gate.specs.declared.role.Role.{Role};
ghost use Rattle.pq_gate.specs.Inverse.{inverse_of};
ghost use Rattle.pq_gate.specs.Phases.{TurnsBy};
ghost use Rattle.pq_gate.specs.Matrix.{Entry, Same};
ghost use Rattle.pq_gate.specs.Ring.{nought, one, plus, root, turned, rooted};

use crate::gate::{Eighths, Gate};
use crate::kind::KINDS;
use crate::role::ROLES;

/// To have the same matrix up to a phase is an equivalence of circuits, where the phase is turned
/// back or added. Phases count modulo 8.
pub fn same_is_an_equivalence()
    ensures reflexive { (n : ℕ) (c : List Gate) → IsCircuit n c → Same n c c 0 }
    ensures symmetric { (n k : ℕ) (c d : List Gate) → Same n c d k → Same n d c ((8 - k % 8) % 8) }
    ensures transitive { (n j k : ℕ) (c d e : List Gate) → Same n c d j → Same n d e k → Same n c e ((j + k) % 8) }
    ensures modulo { (n k : ℕ) (c d : List Gate) → Same n c d k → Same n c d (k % 8) }
{}

/// A part of a circuit may be replaced by one of the same matrix up to a phase: the whole circuit
/// then has the same matrix up to that phase.
pub fn same_in_longer_circuits()
    ensures { (n k : ℕ) (a b c d : List Gate) → IsCircuit n a → IsCircuit n b → Same n c d k →
        Same n (a ++ (c ++ b)) (a ++ (d ++ b)) k }
{}

/// H, X and CX are their own inverses.
pub fn pairs_do_nothing()
    ensures h { (n wire : ℕ) → wire < n → Same n (Gate.H wire ∷ Gate.H wire ∷ []) [] 0 }
    ensures x { (n wire : ℕ) → wire < n → Same n (Gate.X wire ∷ Gate.X wire ∷ []) [] 0 }
    ensures cx { (n control target : ℕ) → control < n → target < n → control ≢ target →
        Same n (Gate.Cx control target ∷ Gate.Cx control target ∷ []) [] 0 }
{}

/// A gate and its inverse do nothing, in either order, and the inverse of the inverse is the gate.
pub fn gates_have_inverses()
    ensures behind { (n : ℕ) (g : Gate) → IsCircuit n (g ∷ []) → Same n (g ∷ inverse_of g ∷ []) [] 0 }
    ensures before { (n : ℕ) (g : Gate) → IsCircuit n (g ∷ []) → Same n (inverse_of g ∷ g ∷ []) [] 0 }
    ensures twice { (g : Gate) → inverse_of (inverse_of g) ≡ g }
{}

/// A gate is the one of its kind on its wires, and uses these alone: its first and its last.
pub fn a_gate_is_its_kind_on_its_wires()
    ensures gate { (g : Gate) → gate_on (kind_of g) (first_wire g) (last_wire g) ≡ g }
    ensures kind { (k : Kind) (first last : ℕ) → kind_of (gate_on k first last) ≡ k }
    ensures wires { (g : Gate) (w : ℕ) → Touches g w ↔ IsAmong w (wires_of g) }
    ensures ends { (g : Gate) (w : ℕ) → Touches g w ↔ ((w ≡ first_wire g) ⊎ (w ≡ last_wire g)) }
{}

/// Kinds and roles are told by their numbers.
pub fn numbers_tell_kinds_and_roles()
    ensures kinds { (k l : Kind) → number_of k ≡ number_of l → k ≡ l }
    ensures kinds_below { (k : Kind) → number_of k < KINDS }
    ensures roles { (r s : Role) → role_number r ≡ role_number s → r ≡ s }
    ensures roles_below { (r : Role) → role_number r < ROLES }
{}

/// Two gates of a circuit commute exactly where on each wire that they share their roles act along
/// one axis. Each gate acts along an axis on a wire exactly where it plays a role there that does.
pub fn commuting_goes_by_roles()
    ensures commuting { (n : ℕ) (g h : Gate) → IsOnWires n g → IsOnWires n h →
        (Commutes g h ↔ ((w : ℕ) (r s : Role) → Plays g w r → Plays h w s → HaveOneAxis r s)) }
    ensures along { (axis : Axis) (g : Gate) (w : ℕ) →
        Along axis g w ↔ ((r : Role) × Plays g w r × (axis_of r ≡ Some axis)) }
    ensures touching { (g : Gate) (w : ℕ) → Touches g w ↔ ((r : Role) × Plays g w r) }
    ensures one { (n : ℕ) (g : Gate) → IsOnWires n g → (w : ℕ) (r s : Role) → Plays g w r → Plays g w s → r ≡ s }
{}

/// Whether two gates commute doesn't depend on their order.
pub fn commuting_is_symmetric()
    ensures { (g h : Gate) → Commutes g h → Commutes h g }
{}

/// Two commuting gates at the start of a circuit may be exchanged: no entry changes.
pub fn commuting_gates_exchange()
    ensures { (n : ℕ) (g h : Gate) (c : List Gate) → IsCircuit n (g ∷ h ∷ c) → Commutes g h →
        (x y : List Bool) → Entry (g ∷ h ∷ c) x y ≡ Entry (h ∷ g ∷ c) x y }
{}

/// A gate moves past gates that it commutes with: at the start of a circuit no entry changes, and
/// the matrix stays the same anywhere in a circuit.
pub fn a_gate_moves_past_commuting_gates()
    ensures entries { (n : ℕ) (g : Gate) (c b : List Gate) → IsCircuit n (g ∷ c) → AllByRecursion (Commutes g) c →
        (x y : List Bool) → Entry (g ∷ (c ++ b)) x y ≡ Entry (c ++ (g ∷ b)) x y }
    ensures same { (n : ℕ) (g : Gate) (c : List Gate) → IsCircuit n (g ∷ c) → AllByRecursion (Commutes g) c →
        Same n (g ∷ c) (c ++ (g ∷ [])) 0 }
    ensures inside { (n : ℕ) (a : List Gate) (g : Gate) (c b : List Gate) →
        IsCircuit n a → IsCircuit n (g ∷ c) → IsCircuit n b → AllByRecursion (Commutes g) c →
        Same n (a ++ (g ∷ (c ++ b))) (a ++ (c ++ (g ∷ b))) 0 }
{}

/// Each number of eighths has one sum of phases.
pub fn sums_of_phases_are_determined()
    ensures { (k : ℕ) (s t : Sum) → TurnsBy s k → TurnsBy t k → s ≡ t }
{}

/// The test of two basis states says whether they are one.
pub fn same_bits_is_equality()
    ensures { (x y : List Bool) → IsTrue (same_bits x y) ↔ (x ≡ y) }
{}

/// ω⁴ is -1, √2 is ω + 1/ω, its square is 2, and it can be cancelled.
pub fn ring_has_eighth_roots()
    ensures omega { turned 1 one ≡ record { a = pos 0; b = pos 1; c = pos 0; d = pos 0 } }
    ensures minus_one { turned 4 one ≡ record { a = negsuc 0; b = pos 0; c = pos 0; d = pos 0 } }
    ensures opposite { (r : Ring) → plus r (turned 4 r) ≡ nought }
    ensures root_two { (r : Ring) → root r ≡ plus (turned 1 r) (turned 7 r) }
    ensures square { (r : Ring) → root (root r) ≡ plus r r }
    ensures cancel { (k : ℕ) (r s : Ring) → rooted k r ≡ rooted k s → r ≡ s }
{}

/// Before it is scaled, H has the entries 1, 1, 1, -1.
pub fn h_has_four_entries()
    ensures from_0_to_0 { Entry (Gate.H 0 ∷ []) (false ∷ []) (false ∷ []) ≡ one }
    ensures from_0_to_1 { Entry (Gate.H 0 ∷ []) (false ∷ []) (true ∷ []) ≡ one }
    ensures from_1_to_0 { Entry (Gate.H 0 ∷ []) (true ∷ []) (false ∷ []) ≡ one }
    ensures from_1_to_1 { Entry (Gate.H 0 ∷ []) (true ∷ []) (true ∷ []) ≡ turned 4 one }
{}

/// T turns 1 by ω, keeps 0, and leads neither to the other.
pub fn t_turns_one()
    ensures from_0_to_0 { Entry (Gate.Phase Eighths.T 0 ∷ []) (false ∷ []) (false ∷ []) ≡ one }
    ensures from_0_to_1 { Entry (Gate.Phase Eighths.T 0 ∷ []) (false ∷ []) (true ∷ []) ≡ nought }
    ensures from_1_to_0 { Entry (Gate.Phase Eighths.T 0 ∷ []) (true ∷ []) (false ∷ []) ≡ nought }
    ensures from_1_to_1 { Entry (Gate.Phase Eighths.T 0 ∷ []) (true ∷ []) (true ∷ []) ≡ turned 1 one }
{}

/// Before it is scaled, H twice is 2 times the identity.
pub fn h_h_is_twice_the_identity()
    ensures stays { (p : Bool) → Entry (Gate.H 0 ∷ Gate.H 0 ∷ []) (p ∷ []) (p ∷ []) ≡ plus one one }
    ensures from_0_to_1 { Entry (Gate.H 0 ∷ Gate.H 0 ∷ []) (false ∷ []) (true ∷ []) ≡ nought }
    ensures from_1_to_0 { Entry (Gate.H 0 ∷ Gate.H 0 ∷ []) (true ∷ []) (false ∷ []) ≡ nought }
{}

/// CX leads |10⟩ to |11⟩ and keeps |01⟩, where the control is the first bit.
pub fn cx_moves_one_zero()
    ensures moves { Entry (Gate.Cx 0 1 ∷ []) (true ∷ false ∷ []) (true ∷ true ∷ []) ≡ one }
    ensures moves_away { Entry (Gate.Cx 0 1 ∷ []) (true ∷ false ∷ []) (true ∷ false ∷ []) ≡ nought }
    ensures keeps { Entry (Gate.Cx 0 1 ∷ []) (false ∷ true ∷ []) (false ∷ true ∷ []) ≡ one }
{}

/// S twice is Z.
pub fn s_s_is_z()
    ensures entries { (p q : Bool) →
        Entry (Gate.Phase Eighths.S 0 ∷ Gate.Phase Eighths.S 0 ∷ []) (p ∷ []) (q ∷ []) ≡
        Entry (Gate.Phase Eighths.Z 0 ∷ []) (p ∷ []) (q ∷ []) }
    ensures same { Same 1 (Gate.Phase Eighths.S 0 ∷ Gate.Phase Eighths.S 0 ∷ []) (Gate.Phase Eighths.Z 0 ∷ []) 0 }
{}

/// Before it is scaled, H T H has the entries 1 + ω, 1 - ω, 1 - ω, 1 + ω.
pub fn h_t_h_has_four_entries()
    ensures stays { (p : Bool) →
        Entry (Gate.H 0 ∷ Gate.Phase Eighths.T 0 ∷ Gate.H 0 ∷ []) (p ∷ []) (p ∷ []) ≡
        record { a = pos 1; b = pos 1; c = pos 0; d = pos 0 } }
    ensures from_0_to_1 { Entry (Gate.H 0 ∷ Gate.Phase Eighths.T 0 ∷ Gate.H 0 ∷ []) (false ∷ []) (true ∷ []) ≡
        record { a = pos 1; b = negsuc 0; c = pos 0; d = pos 0 } }
    ensures from_1_to_0 { Entry (Gate.H 0 ∷ Gate.Phase Eighths.T 0 ∷ Gate.H 0 ∷ []) (true ∷ []) (false ∷ []) ≡
        record { a = pos 1; b = negsuc 0; c = pos 0; d = pos 0 } }
{}

/// The matrix of X T X is ω times that of the inverse of T.
pub fn x_t_x_is_omega_times_tdg()
    ensures entries { (p q : Bool) →
        Entry (Gate.X 0 ∷ Gate.Phase Eighths.T 0 ∷ Gate.X 0 ∷ []) (p ∷ []) (q ∷ []) ≡
        turned 1 (Entry (Gate.Phase Eighths.Tdg 0 ∷ []) (p ∷ []) (q ∷ [])) }
    ensures same { Same 1 (Gate.X 0 ∷ Gate.Phase Eighths.T 0 ∷ Gate.X 0 ∷ []) (Gate.Phase Eighths.Tdg 0 ∷ []) 1 }
{}
