ghost use Rattle.std.specs.Prelude.{◌≡◌, ◌<◌};
ghost use Rattle.pq_gate.specs.Eighths.{eighths_of};

/// A turn about the Z axis by a number of eighths, from 1 to 7, that has a single gate: 1 for T,
/// 2 for S, 4 for Z, 6 for the inverse of S and 7 for the inverse of T. It multiplies the value 1
/// of its wire by the eighth root of unity to this power.
#[derive(Clone, Copy, Debug, PartialEq, Eq)]
pub enum Eighths {
    T,
    S,
    Z,
    Sdg,
    Tdg,
}

/// A gate of a Clifford+T circuit. Wires are numbered from 0.
#[derive(Clone, Copy, Debug, PartialEq, Eq)]
pub enum Gate {
    /// The Hadamard gate.
    H { wire: u32 },

    /// Negates the wire.
    X { wire: u32 },

    /// Turns the value 1 of the wire.
    Phase { eighths: Eighths, wire: u32 },

    /// Negates the target where the control is 1. The two wires of a circuit's gate are different.
    Cx { control: u32, target: u32 },
}

/// What two phases on one wire come to, up to whole turns.
#[derive(Clone, Copy, Debug, PartialEq, Eq)]
pub enum Sum {
    /// No turn.
    Nothing,

    /// The turn of a single gate.
    One(Eighths),

    /// A turn of 3 or of 5 eighths, which has no gate of its own.
    Two,
}

impl Eighths {
    /// How many eighths of a whole turn they are, from 1 to 7.
    pub fn count(self) -> u8
        ensures is { result ≡ eighths_of self }
        ensures below { result < 8 }
    {
        match self {
            Eighths::T => 1,
            Eighths::S => 2,
            Eighths::Z => 4,
            Eighths::Sdg => 6,
            Eighths::Tdg => 7,
        }
    }
}

impl Gate {
    /// H on the wire.
    pub fn h(wire: u32) -> Gate
        ensures { result ≡ Gate.H wire }
    {
        Gate::H { wire }
    }

    /// X on the wire.
    pub fn x(wire: u32) -> Gate
        ensures { result ≡ Gate.X wire }
    {
        Gate::X { wire }
    }

    /// T on the wire.
    pub fn t(wire: u32) -> Gate
        ensures { result ≡ Gate.Phase Eighths.T wire }
    {
        Gate::Phase {
            eighths: Eighths::T,
            wire,
        }
    }

    /// S on the wire.
    pub fn s(wire: u32) -> Gate
        ensures { result ≡ Gate.Phase Eighths.S wire }
    {
        Gate::Phase {
            eighths: Eighths::S,
            wire,
        }
    }

    /// Z on the wire.
    pub fn z(wire: u32) -> Gate
        ensures { result ≡ Gate.Phase Eighths.Z wire }
    {
        Gate::Phase {
            eighths: Eighths::Z,
            wire,
        }
    }

    /// The inverse of S on the wire.
    pub fn sdg(wire: u32) -> Gate
        ensures { result ≡ Gate.Phase Eighths.Sdg wire }
    {
        Gate::Phase {
            eighths: Eighths::Sdg,
            wire,
        }
    }

    /// The inverse of T on the wire.
    pub fn tdg(wire: u32) -> Gate
        ensures { result ≡ Gate.Phase Eighths.Tdg wire }
    {
        Gate::Phase {
            eighths: Eighths::Tdg,
            wire,
        }
    }

    /// CX with this control and this target.
    pub fn cx(control: u32, target: u32) -> Gate
        ensures { result ≡ Gate.Cx control target }
    {
        Gate::Cx { control, target }
    }
}
