//! What a gate is, but for its wires.

ghost use Rattle.std.specs.Prelude.{◌≡◌, ◌<◌};
ghost use Rattle.pq_gate.specs.Kind.{number_of, gate_on};

use crate::gate::{Eighths, Gate};

/// How many kinds of gates there are: H, X, CX, and the five phases.
pub const KINDS: u8 = 8;

/// The kind of a gate: all of it but its wires.
#[derive(Clone, Copy, Debug, PartialEq, Eq)]
pub enum Kind {
    H,
    X,
    Cx,
    Phase(Eighths),
}

impl Kind {
    /// A number below `KINDS`, of each kind another one.
    pub fn number(self) -> u8
        ensures is { result ≡ number_of self }
        ensures below { result < KINDS }
    {
        match self {
            Kind::H => 0,
            Kind::X => 1,
            Kind::Cx => 2,
            Kind::Phase(eighths) => match eighths {
                Eighths::T => 3,
                Eighths::S => 4,
                Eighths::Z => 5,
                Eighths::Sdg => 6,
                Eighths::Tdg => 7,
            },
        }
    }

    /// The gate of this kind on these wires, of a CX the control and the target. A gate on one wire is
    /// on the first.
    pub fn on(self, first: u32, last: u32) -> Gate
        ensures { result ≡ gate_on self first last }
    {
        match self {
            Kind::H => Gate::H { wire: first },
            Kind::X => Gate::X { wire: first },
            Kind::Cx => Gate::Cx {
                control: first,
                target: last,
            },
            Kind::Phase(eighths) => Gate::Phase {
                eighths,
                wire: first,
            },
        }
    }
}
