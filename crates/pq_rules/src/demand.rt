//! What a pattern asks of what stands on the wires of a gate where it may begin.

ghost use Rattle.std.specs.Prelude.{◌≡◌, ◌&&◌, false, None};
ghost use Rattle.pq_rules.specs.Lanes.{agrees_next, demand, demands_of, may_be_later, meets};
ghost use Rattle.pq_rules.specs.Seen.{role_on, roles_on};

use crate::lane::Lane;
use crate::seen::{act_alike, first_two, role_of};
use pq_gate::{Gate, Role};

/// What a pattern asks of a wire of its first gate: the roles of its next two gates there.
#[derive(Clone, Copy)]
pub struct Demand {
    /// Whether the first gate may pass the next one.
    pub passes: bool,
    pub next: Option<Role>,
    pub later: Option<Role>,
}

/// The same of the last and of the first wire.
#[derive(Clone, Copy)]
pub struct Demands {
    pub last: Demand,
    pub first: Demand,
}

impl Demand {
    /// Whether the lane has what is asked.
    pub fn is_met(&self, lane: &Lane) -> bool
        ensures { result ≡ meets self.now lane.now }
    {
        let Some(next) = self.next else {
            return true;
        };
        if self.passes {
            lane.has_passed(next)
        } else {
            lane.may_be_near(next) && is_met_behind(self.later, lane)
        }
    }
}

// whether the gate behind the first that can't be passed may be one with the role
fn is_met_behind(later: Option<Role>, lane: &Lane) -> bool
    ensures { result ≡ may_be_later lane.now.far later }
{
    match later {
        Some(later) => lane.may_be_far(later),
        None => true,
    }
}

// whether the first role passes the next one
fn passes_next(first: Role, next: Option<Role>) -> bool
    ensures { result ≡ agrees_next first next }
{
    match next {
        Some(next) => act_alike(first, next),
        None => false,
    }
}

// what a pattern with this first gate and these behind it asks of a wire of the first
fn demand_on(gate: Gate, rest: &[Gate], wire: u32) -> Demand
    ensures { result ≡ demand (role_on wire gate) (roles_on wire rest.now) }
{
    let (next, later) = first_two(rest, wire);
    Demand {
        passes: passes_next(role_of(gate, wire), next),
        next,
        later,
    }
}

// what is asked where there is nothing to ask
fn no_demand() -> Demand
    ensures { result ≡ record { passes = false; next = None; later = None } }
{
    Demand {
        passes: false,
        next: None,
        later: None,
    }
}

/// What the pattern asks of the wires of its first gate.
pub fn demands_on(pattern: &[Gate]) -> Demands
    ensures { result ≡ demands_of pattern.now }
{
    match pattern {
        [gate, rest @ ..] => Demands {
            last: demand_on(*gate, rest, gate.last_wire()),
            first: demand_on(*gate, rest, gate.first_wire()),
        },
        [] => Demands {
            last: no_demand(),
            first: no_demand(),
        },
    }
}

/// Whether the lanes on the last and on the first wire have what is asked.
pub fn are_met(demands: &Demands, last: &Lane, first: &Lane) -> bool
    ensures { result ≡ (meets demands.now.last last.now && meets demands.now.first first.now) }
{
    demands.last.is_met(last) && demands.first.is_met(first)
}
