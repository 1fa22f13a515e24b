//! What stands behind a gate on one of its wires, up to the first gate there that it can't pass.

ghost use Rattle.std.specs.Prelude.{◌≡◌, ◌==◌, ◌||◌};
ghost use Rattle.pq_gate.specs.declared.role.Role.{Role};
ghost use Rattle.pq_gate.specs.Role.{role_number};
ghost use Rattle.pq_rules.specs.Lanes.{has_passed, no_lane, any_lane, ended};
ghost use Rattle.pq_rules.specs.Seen.{may_be, seen_number};

use crate::seen::SEEN;
use crate::sight::Sight;
use pq_gate::{ROLES, Role};
use std::marker::Model;

// how many numbers there are for what is seen
const NUMBERS: usize = SEEN as usize;

/// What stands behind a gate on one of its wires: the gates that it may pass there, the first one that it can't pass, and the one
/// behind that.
#[derive(Drop)]
pub struct Lane {
    // by the number of a role, whether a gate with it may be passed
    passed: [bool; NUMBERS],

    // the numbers of what is seen first that can't be passed, and of what is seen behind it
    near: u8,
    far: u8,
}

impl Model for Lane {
    ghost use Rattle.pq_rules.specs.Lanes.{LaneView};

    ghost Value = { LaneView };

    ghost use Rattle.std.specs.Prelude.{◌≡◌, ◌<◌, length};
    ghost use Rattle.pq_rules.specs.declared.seen.TheConstants.{SEEN};
    ghost use Rattle.pq_rules.specs.Sights.{seen_at};

    ghost view = { λ a. record { passed = a.passed; near = seen_at a.near; far = seen_at a.far } };

    ghost invariant = { λ a. (length a.passed ≡ SEEN) × (a.near < SEEN) × (a.far < SEEN) };
}

impl Lane {
    /// Nothing stands there.
    pub fn new() -> Lane
        ensures { result ≡ no_lane }
    {
        Lane {
            passed: [false; NUMBERS],
            near: ROLES,
            far: ROLES,
        }
    }

    /// Anything may stand there.
    pub fn any() -> Lane
        ensures { result ≡ any_lane }
    {
        Lane {
            passed: [true; NUMBERS],
            near: ROLES + 1,
            far: ROLES + 1,
        }
    }

    /// Notes the next gate that may be passed.
    pub fn pass(&mut self, sight: Sight)
        ensures passed { (role : Role) → has_passed self.new role ≡ ((role_number role == seen_number sight) || has_passed self.old role) }
        ensures near { self.new.near ≡ self.old.near }
        ensures far { self.new.far ≡ self.old.far }
    {
        self.passed[sight.number() as usize] = true;
    }

    /// Notes what stands there behind those that may be passed: the first gate that can't, and what is behind that. Where the
    /// role of the first isn't told, anything may stand there.
    #[tactic(auto, using(crate::proofs::LaneLaws::end_clear))]
    pub fn end(&mut self, near: Sight, far: Sight)
        ensures { self.new ≡ ended self.old near far }
    {
        self.near = near.number();
        self.far = far.number();
        if self.near > ROLES {
            *self = Lane::any();
        }
    }

    /// Whether a gate with the role may be passed.
    pub(crate) fn has_passed(&self, role: Role) -> bool
        ensures { result ≡ has_passed self.now role }
    {
        self.passed[role.number() as usize]
    }

    /// Whether the first gate that can't be passed may be one with the role.
    pub(crate) fn may_be_near(&self, role: Role) -> bool
        ensures { result ≡ may_be self.now.near role }
    {
        self.near == role.number() || self.near > ROLES
    }

    /// Whether the gate behind that may be one with the role.
    pub(crate) fn may_be_far(&self, role: Role) -> bool
        ensures { result ≡ may_be self.now.far role }
    {
        self.far == role.number() || self.far > ROLES
    }
}
