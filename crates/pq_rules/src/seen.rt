//! Which rows may have a redex at a gate, by the next two gates on its last wire.

ghost use Rattle.std.specs.Prelude.{◌≡◌, ◌∷◌, [], ◌+◌, ◌<◌, drop, length, slice_get, None, Some};
ghost use Rattle.pq_rules.specs.Seen.{role_on, roles_on, last_role, agree, may_be, may_pass, goes_on, admits_roles, admits, seen_number, LeadsRoles, AreFirstTwo, goes_on_to, admits_two};

use pq_gate::{Axis, Gate, Ports, ROLES, Role};

/// What stands next on a wire.
#[derive(Clone, Copy, Debug, PartialEq, Eq)]
pub enum Seen {
    /// No gate any more.
    Nothing,

    /// A gate that plays this role there.
    Plays(Role),

    /// A gate of which no role is told.
    Unclear,
}

/// How many numbers there are for what is seen.
pub const SEEN: u8 = ROLES + 2;

/// What is seen, by its number.
pub fn seen_numbered(number: u8) -> Seen
    requires { number < SEEN }
    ensures { seen_number result ≡ number }
{
    if number < ROLES {
        Seen::Plays(Role::numbered(number))
    } else if number == ROLES {
        Seen::Nothing
    } else {
        Seen::Unclear
    }
}

/// The role that a gate plays on a wire that it uses.
pub(crate) fn role_of(gate: Gate, wire: u32) -> Role
    ensures { result ≡ role_on wire gate }
{
    match gate.ports() {
        Ports::One(only) => only.role,
        Ports::Two(first, last) => {
            if first.wire == wire {
                first.role
            } else {
                last.role
            }
        }
    }
}

// the role that a gate plays on its last wire
fn role_behind(gate: Gate) -> Role
    ensures { result ≡ last_role gate }
{
    match gate.ports() {
        Ports::One(only) => only.role,
        Ports::Two(_, last) => last.role,
    }
}

/// Whether both roles act along one axis.
pub(crate) fn act_alike(one: Role, other: Role) -> bool
    ensures { result ≡ agree one other }
{
    (one.acts_along(Axis::Z) && other.acts_along(Axis::Z))
        || (one.acts_along(Axis::X) && other.acts_along(Axis::X))
}

// whether what was seen may be a gate with this role
fn may_stand(seen: Seen, wanted: Role) -> bool
    ensures { result ≡ may_be seen wanted }
{
    match seen {
        Seen::Nothing => false,
        Seen::Unclear => true,
        Seen::Plays(own) => own.number() == wanted.number(),
    }
}

// whether what was seen may be passed over by a gate with this role
fn may_move(seen: Seen, chosen: Role) -> bool
    ensures { result ≡ may_pass seen chosen }
{
    match seen {
        Seen::Nothing => false,
        Seen::Unclear => true,
        Seen::Plays(own) => act_alike(chosen, own),
    }
}

// the first gate on the wire: how many gates stand before it, and the role that it plays there
fn first_on(gates: &[Gate], wire: u32) -> Option<(usize, Role)>
    ensures { LeadsRoles wire gates.now result }
{
    for number in 0..gates.len() {
        if gates[number].touches(wire) {
            return Some((number, role_of(gates[number], wire)));
        }
    }
    None
}

/// The first two roles on the wire.
pub(crate) fn first_two(gates: &[Gate], wire: u32) -> (Option<Role>, Option<Role>)
    ensures { AreFirstTwo wire gates.now result.0 result.1 }
{
    let Some((number, next)) = first_on(gates, wire) else {
        return (None, None);
    };
    match first_on(&gates[number + 1..], wire) {
        Some((_, later)) => (Some(next), Some(later)),
        None => (Some(next), None),
    }
}

// whether what is seen behind the next gate of the pattern may be the one after it, or be passed over
fn may_go_on(first: Role, next: Role, later: Option<Role>, far: Seen) -> bool
    ensures { result ≡ goes_on_to first next later far }
{
    match later {
        None => true,
        Some(later) => may_stand(far, later) || may_move(far, first) && may_move(far, next),
    }
}

// whether what is seen behind a gate may be the next gates of a pattern, or be passed over
fn may_follow(first: Role, next: Option<Role>, later: Option<Role>, near: Seen, far: Seen) -> bool
    ensures { result ≡ admits_two first next later near far }
{
    match next {
        None => true,
        Some(next) => {
            may_stand(near, next) && may_go_on(first, next, later, far)
                || may_move(near, first) && (may_stand(far, next) || may_move(far, first))
        }
    }
}

/// Whether a pattern may stand where these two are seen next on the last wire of its first gate.
pub fn is_admitted(pattern: &[Gate], near: Seen, far: Seen) -> bool
    ensures { result ≡ admits pattern.now near far }
{
    if pattern.is_empty() {
        return false;
    }
    let gate = pattern[0];
    let (next, later) = first_two(&pattern[1..], gate.last_wire());
    may_follow(role_behind(gate), next, later, near, far)
}
