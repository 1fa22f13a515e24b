//! What is seen on a wire, by its number, which is found without a branch for each kind of gate.

ghost use Rattle.std.specs.Prelude.{◌≡◌, ◌<◌, ◌≤◌, ◌==◌, nat_le};
ghost use Rattle.pq_gate.specs.Kind.{kind_of, number_of, rank_of};
ghost use Rattle.pq_gate.specs.Role.{role_number};
ghost use Rattle.pq_gate.specs.declared.role.Axis.TheVariants as axis;
ghost use Rattle.pq_rules.specs.Lanes.{seen_along, passes_over};
ghost use Rattle.pq_rules.specs.Seen.{role_on, seen_number};
ghost use Rattle.pq_rules.specs.Sights.{seen_at};
ghost use Rattle.pq_rules.specs.declared.seen.Seen.TheVariants as seen;

use crate::seen::SEEN;
use pq_gate::{Eighths, Gate, KINDS, ROLES};
use std::marker::Model;

/// What stands next on a wire. Contracts see it as a `Seen`.
#[derive(Drop)]
pub struct Sight {
    number: u8,
}

impl Model for Sight {
    ghost use Rattle.pq_rules.specs.declared.seen.Seen.{Seen};

    ghost Value = { Seen };

    ghost use Rattle.std.specs.Prelude.{◌<◌};
    ghost use Rattle.pq_rules.specs.declared.seen.TheConstants.{SEEN};
    ghost use Rattle.pq_rules.specs.Sights.{seen_at};

    ghost view = { λ a. seen_at a.number };

    ghost invariant = { λ a. a.number < SEEN };
}

impl Sight {
    /// No gate any more.
    pub fn nothing() -> Sight
        ensures { result ≡ seen.Nothing }
    {
        Sight { number: ROLES }
    }

    /// A gate of which no role is told.
    pub fn unclear() -> Sight
        ensures { result ≡ seen.Unclear }
    {
        Sight { number: ROLES + 1 }
    }

    /// The role that a gate plays on a wire that it uses.
    #[tactic(auto, using(crate::proofs::SightLaws::role_seen, crate::proofs::SightLaws::role_fits))]
    pub fn of(gate: Gate, wire: u32) -> Sight
        ensures { result ≡ seen.Plays (role_on wire gate) }
    {
        Sight {
            number: role_number_on(gate, wire),
        }
    }

    /// What has this number, which has to be below `SEEN`.
    pub fn numbered(number: u8) -> Sight
        requires { number < SEEN }
        ensures { result ≡ seen_at number }
    {
        Sight { number }
    }

    /// Whether a gate of which this is seen passes one of which the other is seen: both act along one axis of the wire.
    pub fn passes(&self, other: &Sight) -> bool
        ensures { result ≡ passes_over self.now other.now }
    {
        (is_along_z(self.number) & is_along_z(other.number))
            | (is_along_x(self.number) & is_along_x(other.number))
    }

    /// Its number, below `SEEN`, of each another one. `numbered` gives it back.
    #[tactic(auto, using(crate::proofs::SightLaws::number_seen, crate::proofs::SightLaws::seen_of_number))]
    pub fn number(self) -> u8
        ensures is { result ≡ seen_number self }
        ensures back { seen_at result ≡ self }
        ensures below { result < SEEN }
    {
        self.number
    }
}

// the number of the role that the gate plays on the wire
fn role_number_on(gate: Gate, wire: u32) -> u8
    ensures is { result ≡ role_number (role_on wire gate) }
    ensures below { result < ROLES }
{
    let behind = is_cx(gate) & (gate.first_wire() != wire);
    kind_number(gate) + (is_phase(gate) | behind) as u8
}

// whether what has this number acts along Z
fn is_along_z(number: u8) -> bool
    ensures { number < SEEN → result ≡ seen_along axis.Z (seen_at number) }
{
    (number == 2) | ((number > 3) & (number < ROLES))
}

// whether what has this number acts along X
fn is_along_x(number: u8) -> bool
    ensures { number < SEEN → result ≡ seen_along axis.X (seen_at number) }
{
    (number == 1) | (number == 3)
}

/// The number of the kind of a gate.
pub fn kind_number(gate: Gate) -> u8
    ensures is { result ≡ number_of (kind_of gate) }
    ensures below { result < KINDS }
{
    is_x(gate) as u8 + 2 * is_cx(gate) as u8 + phase_number(gate)
}

// whether it is an X
fn is_x(gate: Gate) -> bool
    ensures { result ≡ (number_of (kind_of gate) == 1) }
{
    match gate {
        Gate::X { .. } => true,
        _ => false,
    }
}

// whether it is a CX
fn is_cx(gate: Gate) -> bool
    ensures { result ≡ (number_of (kind_of gate) == 2) }
{
    match gate {
        Gate::Cx { .. } => true,
        _ => false,
    }
}

// whether it is a phase
fn is_phase(gate: Gate) -> bool
    ensures { result ≡ nat_le 3 (number_of (kind_of gate)) }
{
    match gate {
        Gate::Phase { .. } => true,
        _ => false,
    }
}

// the number of the kind of a phase, and else 0
fn phase_number(gate: Gate) -> u8
    ensures other { number_of (kind_of gate) < 3 → result ≡ 0 }
    ensures own { 3 ≤ number_of (kind_of gate) → result ≡ number_of (kind_of gate) }
    ensures below { result < KINDS }
{
    match gate {
        Gate::Phase { eighths, .. } => 3 + rank(eighths),
        _ => 0,
    }
}

// the phases are numbered from 0
fn rank(eighths: Eighths) -> u8
    ensures is { result ≡ rank_of eighths }
    ensures below { result < 5 }
{
    match eighths {
        Eighths::T => 0,
        Eighths::S => 1,
        Eighths::Z => 2,
        Eighths::Sdg => 3,
        Eighths::Tdg => 4,
    }
}
