//! Where a gate stands: its wires, and the role that it plays on each.

ghost use Rattle.std.specs.Prelude.{◌≡◌, ◌↔◌, ◌≤◌, IsTrue, MatchOption, [], ◌∷◌};
ghost use Rattle.pq_gate.specs.Circuit.{IsOnWires};
ghost use Rattle.pq_gate.specs.Commuting.{Touches, Along, wires_along};
ghost use Rattle.pq_gate.specs.Kind.{kind_of, gate_on};
ghost use Rattle.pq_gate.specs.Ports.{port, ports_of, wires_of, listed_ports, listed_wires, first_wire, last_wire, IsAmong, Plays};
ghost use Rattle.pq_gate.specs.Matrix.{roots_of};

use crate::gate::Gate;
use crate::kind::Kind;
use crate::role::{Axis, Role};

/// A wire of a gate, and the role that the gate plays there.
#[derive(Clone, Copy, Debug, PartialEq, Eq)]
pub struct Port {
    pub wire: u32,
    pub role: Role,
}

/// The ports of a gate, one for each of its wires: of a CX first the control's.
#[derive(Clone, Copy, Debug, PartialEq, Eq)]
pub enum Ports {
    One(Port),
    Two(Port, Port),
}

/// The wires of a gate: of a CX first the control.
#[derive(Clone, Copy, Debug, PartialEq, Eq)]
pub enum Wires {
    One(u32),
    Two(u32, u32),
}

impl Port {
    /// The port on this wire with this role.
    pub fn new(wire: u32, role: Role) -> Port
        ensures { result ≡ port wire role }
    {
        Port { wire, role }
    }

    // whether it is on the wire, and its role acts along the axis
    fn acts_along(self, axis: Axis, wire: u32) -> bool
        ensures { IsTrue result ↔ IsAmong wire (wires_along axis (self ∷ [])) }
    {
        self.wire == wire && self.role.acts_along(axis)
    }

    // its role, if it is on the wire
    fn role_on(self, wire: u32) -> Option<Role>
        ensures { MatchOption result (self.wire ≡ wire → ⊥) (λ role. port wire role ≡ self) }
    {
        if self.wire == wire {
            Some(self.role)
        } else {
            None
        }
    }
}

impl Gate {
    /// What the gate is, but for its wires.
    pub fn kind(self) -> Kind
        ensures { result ≡ kind_of self }
    {
        match self {
            Gate::H { .. } => Kind::H,
            Gate::X { .. } => Kind::X,
            Gate::Phase { eighths, .. } => Kind::Phase(eighths),
            Gate::Cx { .. } => Kind::Cx,
        }
    }

    /// The gate's wires, each with the role that the gate plays there.
    pub fn ports(self) -> Ports
        ensures { listed_ports result ≡ ports_of self }
    {
        match self {
            Gate::H { wire } => Ports::One(Port::new(wire, Role::H)),
            Gate::X { wire } => Ports::One(Port::new(wire, Role::X)),
            Gate::Phase { eighths, wire } => Ports::One(Port::new(wire, Role::Phase(eighths))),
            Gate::Cx { control, target } => {
                Ports::Two(
                    Port::new(control, Role::Control),
                    Port::new(target, Role::Target),
                )
            }
        }
    }

    /// The gate's wires.
    pub fn wires(self) -> Wires
        ensures { listed_wires result ≡ wires_of self }
    {
        match self.ports() {
            Ports::One(port) => Wires::One(port.wire),
            Ports::Two(first, last) => Wires::Two(first.wire, last.wire),
        }
    }

    /// The gate's first wire: of a CX the control.
    pub fn first_wire(self) -> u32
        ensures { result ≡ first_wire self }
    {
        match self.wires() {
            Wires::One(only) => only,
            Wires::Two(first, _) => first,
        }
    }

    /// The gate's last wire: of a CX the target, and else its only one.
    pub fn last_wire(self) -> u32
        ensures { result ≡ last_wire self }
    {
        match self.wires() {
            Wires::One(only) => only,
            Wires::Two(_, last) => last,
        }
    }

    /// The gate of the same kind whose wires are these. A gate on one wire is put on the first.
    pub fn on(self, first: u32, last: u32) -> Gate
        ensures { result ≡ gate_on (kind_of self) first last }
    {
        self.kind().on(first, last)
    }

    /// Whether the gate uses the wire.
    pub fn touches(self, wire: u32) -> bool
        ensures { IsTrue result ↔ Touches self wire }
    {
        match self.wires() {
            Wires::One(own) => own == wire,
            Wires::Two(first, last) => first == wire || last == wire,
        }
    }

    /// Whether the gate acts along this axis on the wire.
    pub fn acts_along(self, axis: Axis, wire: u32) -> bool
        ensures { IsTrue result ↔ Along axis self wire }
    {
        match self.ports() {
            Ports::One(port) => port.acts_along(axis, wire),
            Ports::Two(first, last) => {
                first.acts_along(axis, wire) || last.acts_along(axis, wire)
            }
        }
    }

    /// Whether the gate is one of a circuit on `count` wires: its wires are below `count`, and two of
    /// them are different.
    pub fn is_on_wires(self, count: u32) -> bool
        ensures { IsTrue result ↔ IsOnWires count self }
    {
        match self.wires() {
            Wires::One(wire) => wire < count,
            Wires::Two(first, last) => first < count && last < count && first != last,
        }
    }

    /// The role that the gate plays on the wire. None exactly where it doesn't use it.
    pub fn role_on(self, wire: u32) -> Option<Role>
        ensures { MatchOption result (Touches self wire → ⊥) (λ role. Plays self wire role) }
    {
        match self.ports() {
            Ports::One(port) => port.role_on(wire),
            Ports::Two(first, last) => match first.role_on(wire) {
                Some(role) => Some(role),
                None => last.role_on(wire),
            },
        }
    }

    /// How many of the factors √2 by which entries of matrices are scaled are the gate's: 1 of H, else 0.
    pub fn roots(self) -> u8
        ensures is { result ≡ roots_of self }
        ensures few { result ≤ 1 }
    {
        match self {
            Gate::H { .. } => 1,
            _ => 0,
        }
    }
}
