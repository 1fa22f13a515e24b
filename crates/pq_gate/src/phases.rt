ghost use Rattle.std.specs.Prelude.{◌≡◌, ◌+◌, ◌%◌};
ghost use Rattle.pq_gate.specs.Eighths.{eighths_of};
ghost use Rattle.pq_gate.specs.Phases.{TurnsBy};

use crate::gate::{Eighths, Sum};

/// The gates that turn by both, where whole turns are left out: none for 0 eighths, two for 3 and
/// for 5, and else the one gate of the sum.
pub fn sum(first: Eighths, second: Eighths) -> Sum
    ensures { TurnsBy result ((eighths_of first + eighths_of second) % 8) }
{
    match (first.count() + second.count()) % 8 {
        0 => Sum::Nothing,
        1 => Sum::One(Eighths::T),
        2 => Sum::One(Eighths::S),
        4 => Sum::One(Eighths::Z),
        6 => Sum::One(Eighths::Sdg),
        7 => Sum::One(Eighths::Tdg),
        _ => Sum::Two,
    }
}

#[cfg(test)]
mod tests {
    use super::*;
    use std::process::Abort;

    const SUMS: [(Eighths, Eighths, Sum); 15] = [
        (Eighths::T, Eighths::T, Sum::One(Eighths::S)),
        (Eighths::T, Eighths::S, Sum::Two),
        (Eighths::T, Eighths::Z, Sum::Two),
        (Eighths::T, Eighths::Sdg, Sum::One(Eighths::Tdg)),
        (Eighths::T, Eighths::Tdg, Sum::Nothing),
        (Eighths::S, Eighths::S, Sum::One(Eighths::Z)),
        (Eighths::S, Eighths::Z, Sum::One(Eighths::Sdg)),
        (Eighths::S, Eighths::Sdg, Sum::Nothing),
        (Eighths::S, Eighths::Tdg, Sum::One(Eighths::T)),
        (Eighths::Z, Eighths::Z, Sum::Nothing),
        (Eighths::Z, Eighths::Sdg, Sum::One(Eighths::S)),
        (Eighths::Z, Eighths::Tdg, Sum::Two),
        (Eighths::Sdg, Eighths::Sdg, Sum::One(Eighths::Z)),
        (Eighths::Sdg, Eighths::Tdg, Sum::Two),
        (Eighths::Tdg, Eighths::Tdg, Sum::One(Eighths::Sdg)),
    ];

    fn sum_is(rt: &impl Abort, first: Eighths, second: Eighths, expected: Sum) {
        assert_eq!(rt; sum(first, second), expected);
        assert_eq!(rt; sum(second, first), expected);
    }

    #[test]
    fn sums_leave_out_whole_turns(rt: HostRuntime) {
        for (first, second, expected) in SUMS {
            sum_is(&rt, first, second, expected);
        }
    }
}
