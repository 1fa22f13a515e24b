ghost use Rattle.std.specs.Prelude.{◌≡◌, ◌↔◌, IsTrue};
ghost use Rattle.pq_gate.specs.Commuting.{Agree, Commutes};
ghost use Rattle.pq_gate.specs.Inverse.{rest_of, inverse_of};

use crate::gate::{Eighths, Gate};
use crate::role::Axis;

/// The gate that undoes the gate: S and the inverse of S, T and the inverse of T are exchanged, and
/// all others are their own inverses.
pub fn inverse(gate: Gate) -> Gate
    ensures { result ≡ inverse_of gate }
{
    match gate {
        Gate::Phase { eighths, wire } => Gate::Phase {
            eighths: rest(eighths),
            wire,
        },
        _ => gate,
    }
}

// the eighths that complete a whole turn
fn rest(eighths: Eighths) -> Eighths
    ensures { result ≡ rest_of eighths }
{
    match eighths {
        Eighths::T => Eighths::Tdg,
        Eighths::S => Eighths::Sdg,
        Eighths::Z => Eighths::Z,
        Eighths::Sdg => Eighths::S,
        Eighths::Tdg => Eighths::T,
    }
}

/// Whether on each wire that the two gates share both act along Z, or both along X. A phase and the
/// control of a CX act along Z, X and the target of a CX along X, and H along neither. Where it is
/// true, the gates of a circuit may be exchanged (`laws::commuting_gates_exchange`).
pub fn commutes(first: Gate, second: Gate) -> bool
    ensures { IsTrue result ↔ Commutes first second }
{
    agree(first, second, first.first_wire()) && agree(first, second, first.last_wire())
}

// whether the gates act along one axis on the wire, if both use it
fn agree(first: Gate, second: Gate, wire: u32) -> bool
    ensures { IsTrue result ↔ Agree first second wire }
{
    !first.touches(wire)
        || !second.touches(wire)
        || (first.acts_along(Axis::Z, wire) && second.acts_along(Axis::Z, wire))
        || (first.acts_along(Axis::X, wire) && second.acts_along(Axis::X, wire))
}

#[cfg(test)]
mod tests {
    use super::*;
    use std::process::Abort;

    const H0: Gate = Gate::H { wire: 0 };

    const H1: Gate = Gate::H { wire: 1 };

    const X0: Gate = Gate::X { wire: 0 };

    const X1: Gate = Gate::X { wire: 1 };

    const T0: Gate = Gate::Phase {
        eighths: Eighths::T,
        wire: 0,
    };

    const Z0: Gate = Gate::Phase {
        eighths: Eighths::Z,
        wire: 0,
    };

    const S1: Gate = Gate::Phase {
        eighths: Eighths::S,
        wire: 1,
    };

    const CX01: Gate = Gate::Cx {
        control: 0,
        target: 1,
    };

    const CX10: Gate = Gate::Cx {
        control: 1,
        target: 0,
    };

    const CX02: Gate = Gate::Cx {
        control: 0,
        target: 2,
    };

    const CX20: Gate = Gate::Cx {
        control: 2,
        target: 0,
    };

    const CX12: Gate = Gate::Cx {
        control: 1,
        target: 2,
    };

    const CX21: Gate = Gate::Cx {
        control: 2,
        target: 1,
    };

    const CX23: Gate = Gate::Cx {
        control: 2,
        target: 3,
    };

    // By the axes: a phase and a control are along Z, X and a target along X, H along neither.
    const PAIRS: [(Gate, Gate, bool); 37] = [
        (H0, H0, false),
        (H0, X0, false),
        (H0, T0, false),
        (H0, CX01, false),
        (H0, CX10, false),
        (X0, X0, true),
        (X0, T0, false),
        (X0, CX01, false),
        (X0, CX10, true),
        (T0, T0, true),
        (T0, Z0, true),
        (T0, CX01, true),
        (T0, CX10, false),
        (CX01, CX01, true),
        (CX01, CX10, false),
        (CX01, CX02, true),
        (CX01, CX21, true),
        (CX01, CX12, false),
        (CX01, CX20, false),
        (H1, CX01, false),
        (X1, CX01, true),
        (S1, CX01, false),
        (H0, H1, true),
        (H0, X1, true),
        (H0, S1, true),
        (H0, CX12, true),
        (X0, X1, true),
        (X0, S1, true),
        (X0, H1, true),
        (X0, CX12, true),
        (T0, S1, true),
        (T0, X1, true),
        (T0, CX12, true),
        (T0, CX21, true),
        (CX01, CX23, true),
        (X0, CX21, true),
        (H0, CX23, true),
    ];

    fn commute_is(rt: &impl Abort, first: Gate, second: Gate, expected: bool) {
        assert_eq!(rt; commutes(first, second), expected);
        assert_eq!(rt; commutes(second, first), expected);
    }

    #[test]
    fn gates_commute_by_their_axes(rt: HostRuntime) {
        for (first, second, expected) in PAIRS {
            commute_is(&rt, first, second, expected);
        }
    }

    fn inverse_is(rt: &impl Abort, gate: Gate, expected: Gate) {
        assert_eq!(rt; inverse(gate), expected);
        assert_eq!(rt; inverse(expected), gate);
    }

    fn phase_inverse_is(rt: &impl Abort, eighths: Eighths, expected: Eighths) {
        let gate = Gate::Phase { eighths, wire: 3 };
        let inverse = Gate::Phase {
            eighths: expected,
            wire: 3,
        };
        inverse_is(rt, gate, inverse);
    }

    #[test]
    fn inverses_of_phases_are_exchanged(rt: HostRuntime) {
        inverse_is(&rt, H0, H0);
        inverse_is(&rt, X0, X0);
        inverse_is(&rt, CX01, CX01);
        phase_inverse_is(&rt, Eighths::T, Eighths::Tdg);
        phase_inverse_is(&rt, Eighths::S, Eighths::Sdg);
        phase_inverse_is(&rt, Eighths::Z, Eighths::Z);
    }
}
