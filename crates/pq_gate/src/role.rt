//! What a gate is on one of its wires.

ghost use Rattle.std.specs.Prelude.{◌≡◌, ◌↔◌, ◌<◌, IsTrue};
ghost use Rattle.pq_gate.specs.Role.{role_number, axis_of, acts_along, HaveOneAxis};

use crate::gate::Eighths;

/// How many roles there are.
pub const ROLES: u8 = 9;

/// The role that a gate plays on one of its wires.
#[derive(Clone, Copy, Debug, PartialEq, Eq)]
pub enum Role {
    H,
    X,

    /// The control of a CX.
    Control,

    /// The target of a CX.
    Target,
    Phase(Eighths),
}

/// The axis along which a role acts on its wire.
#[derive(Clone, Copy, Debug, PartialEq, Eq)]
pub enum Axis {
    Z,
    X,
}

impl Role {
    /// A number below `ROLES`, of each role another one.
    pub fn number(self) -> u8
        ensures is { result ≡ role_number self }
        ensures below { result < ROLES }
    {
        match self {
            Role::H => 0,
            Role::X => 1,
            Role::Control => 2,
            Role::Target => 3,
            Role::Phase(eighths) => match eighths {
                Eighths::T => 4,
                Eighths::S => 5,
                Eighths::Z => 6,
                Eighths::Sdg => 7,
                Eighths::Tdg => 8,
            },
        }
    }

    /// The role with this number.
    pub fn numbered(number: u8) -> Role
        requires { number < ROLES }
        ensures { role_number result ≡ number }
    {
        match number {
            0 => Role::H,
            1 => Role::X,
            2 => Role::Control,
            3 => Role::Target,
            4 => Role::Phase(Eighths::T),
            5 => Role::Phase(Eighths::S),
            6 => Role::Phase(Eighths::Z),
            7 => Role::Phase(Eighths::Sdg),
            _ => Role::Phase(Eighths::Tdg),
        }
    }

    /// The axis: Z of a phase and of a control, X of X and of a target, and none of H.
    pub fn axis(self) -> Option<Axis>
        ensures { result ≡ axis_of self }
    {
        match self {
            Role::H => None,
            Role::X | Role::Target => Some(Axis::X),
            Role::Control | Role::Phase(_) => Some(Axis::Z),
        }
    }

    /// Whether it acts along this axis.
    pub fn acts_along(self, axis: Axis) -> bool
        ensures { result ≡ acts_along axis self }
    {
        match (self.axis(), axis) {
            (Some(Axis::Z), Axis::Z) | (Some(Axis::X), Axis::X) => true,
            _ => false,
        }
    }

    /// Whether both roles act along one axis. Two gates of a circuit commute exactly where this is so
    /// on each wire that they share (`laws::commuting_goes_by_roles`).
    pub fn agrees(self, other: Role) -> bool
        ensures { IsTrue result ↔ HaveOneAxis self other }
    {
        match self.axis() {
            Some(axis) => other.acts_along(axis),
            None => false,
        }
    }
}
