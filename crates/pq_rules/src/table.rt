//! The built-in rules, one a line.

ghost use Rattle.std.specs.Prelude.{◌≡◌, map};
ghost use Rattle.pq_rules.specs.Shapes.{rule_row};
ghost use Rattle.pq_rules.specs.Table.{row, builtin_rows};

use crate::rules::BUILTIN_ROWS;
use pq_gate::{Eighths, Gate};

const CX_AB: Gate = Gate::Cx {
    control: 0,
    target: 1,
};

const CX_AC: Gate = Gate::Cx {
    control: 0,
    target: 2,
};

const CX_BA: Gate = Gate::Cx {
    control: 1,
    target: 0,
};

const CX_BC: Gate = Gate::Cx {
    control: 1,
    target: 2,
};

const H_A: Gate = Gate::H { wire: 0 };

const H_B: Gate = Gate::H { wire: 1 };

const SDG_A: Gate = Gate::Phase {
    eighths: Eighths::Sdg,
    wire: 0,
};

const S_A: Gate = Gate::Phase {
    eighths: Eighths::S,
    wire: 0,
};

const TDG_A: Gate = Gate::Phase {
    eighths: Eighths::Tdg,
    wire: 0,
};

const T_A: Gate = Gate::Phase {
    eighths: Eighths::T,
    wire: 0,
};

const X_A: Gate = Gate::X { wire: 0 };

const X_B: Gate = Gate::X { wire: 1 };

const Z_A: Gate = Gate::Phase {
    eighths: Eighths::Z,
    wire: 0,
};

const Z_B: Gate = Gate::Phase {
    eighths: Eighths::Z,
    wire: 1,
};

/// A rule as it stands in the table: a row of so many wires, whose pattern may be replaced by the
/// replacement, with the phase of the row.
#[derive(Drop)]
pub struct BuiltinRule<'a> {
    pub wires: u8,
    pub pattern: &'a [Gate],
    pub replacement: &'a [Gate],
    pub phase: u8,
}

fn rule<'a>(wires: u8, pattern: &'a [Gate], replacement: &'a [Gate], phase: u8) -> BuiltinRule<'a>
    ensures { rule_row result ≡ row wires pattern.now replacement.now phase }
{
    BuiltinRule {
        wires,
        pattern,
        replacement,
        phase,
    }
}

/// The rules, in their order.
#[tactic(auto, unfolding(crate::specs::Table::builtin_rows))]
pub fn builtin_rules() -> [BuiltinRule<'static>; BUILTIN_ROWS]
    ensures { map rule_row result ≡ builtin_rows }
{
    [
        rule(1, &[H_A, H_A], &[], 0),
        rule(1, &[X_A, X_A], &[], 0),
        rule(2, &[CX_AB, CX_AB], &[], 0),
        rule(1, &[T_A, T_A], &[S_A], 0),
        rule(1, &[T_A, SDG_A], &[TDG_A], 0),
        rule(1, &[T_A, TDG_A], &[], 0),
        rule(1, &[S_A, S_A], &[Z_A], 0),
        rule(1, &[S_A, Z_A], &[SDG_A], 0),
        rule(1, &[S_A, SDG_A], &[], 0),
        rule(1, &[S_A, TDG_A], &[T_A], 0),
        rule(1, &[Z_A, S_A], &[SDG_A], 0),
        rule(1, &[Z_A, Z_A], &[], 0),
        rule(1, &[Z_A, SDG_A], &[S_A], 0),
        rule(1, &[SDG_A, T_A], &[TDG_A], 0),
        rule(1, &[SDG_A, S_A], &[], 0),
        rule(1, &[SDG_A, Z_A], &[S_A], 0),
        rule(1, &[SDG_A, SDG_A], &[Z_A], 0),
        rule(1, &[TDG_A, T_A], &[], 0),
        rule(1, &[TDG_A, S_A], &[T_A], 0),
        rule(1, &[TDG_A, TDG_A], &[SDG_A], 0),
        rule(1, &[H_A, X_A, H_A], &[Z_A], 0),
        rule(1, &[H_A, Z_A, H_A], &[X_A], 0),
        rule(1, &[X_A, T_A, X_A], &[TDG_A], 1),
        rule(1, &[X_A, S_A, X_A], &[SDG_A], 2),
        rule(1, &[X_A, Z_A, X_A], &[Z_A], 4),
        rule(1, &[X_A, SDG_A, X_A], &[S_A], 6),
        rule(1, &[X_A, TDG_A, X_A], &[T_A], 7),
        rule(1, &[H_A, S_A, H_A, T_A], &[SDG_A, H_A, TDG_A], 1),
        rule(1, &[H_A, S_A, H_A, S_A], &[SDG_A, H_A], 1),
        rule(1, &[H_A, S_A, H_A, Z_A], &[SDG_A, H_A, S_A], 1),
        rule(1, &[H_A, S_A, H_A, SDG_A], &[SDG_A, H_A, Z_A], 1),
        rule(1, &[T_A, H_A, S_A, H_A], &[TDG_A, H_A, SDG_A], 1),
        rule(1, &[S_A, H_A, S_A, H_A], &[H_A, SDG_A], 1),
        rule(1, &[Z_A, H_A, S_A, H_A], &[S_A, H_A, SDG_A], 1),
        rule(1, &[SDG_A, H_A, S_A, H_A], &[Z_A, H_A, SDG_A], 1),
        rule(1, &[H_A, SDG_A, H_A, S_A], &[S_A, H_A, Z_A], 7),
        rule(1, &[H_A, SDG_A, H_A, Z_A], &[S_A, H_A, SDG_A], 7),
        rule(1, &[H_A, SDG_A, H_A, SDG_A], &[S_A, H_A], 7),
        rule(1, &[H_A, SDG_A, H_A, TDG_A], &[S_A, H_A, T_A], 7),
        rule(1, &[S_A, H_A, SDG_A, H_A], &[Z_A, H_A, S_A], 7),
        rule(1, &[Z_A, H_A, SDG_A, H_A], &[SDG_A, H_A, S_A], 7),
        rule(1, &[SDG_A, H_A, SDG_A, H_A], &[H_A, S_A], 7),
        rule(1, &[TDG_A, H_A, SDG_A, H_A], &[T_A, H_A, S_A], 7),
        rule(2, &[X_A, CX_AB, X_A], &[CX_AB, X_B], 0),
        rule(2, &[Z_B, CX_AB, Z_B], &[CX_AB, Z_A], 0),
        rule(2, &[H_A, H_B, CX_AB, H_A, H_B], &[CX_BA], 0),
        rule(2, &[H_A, H_B, CX_AB, H_B, H_A], &[CX_BA], 0),
        rule(2, &[H_B, H_A, CX_AB, H_A, H_B], &[CX_BA], 0),
        rule(2, &[H_B, H_A, CX_AB, H_B, H_A], &[CX_BA], 0),
        rule(3, &[CX_AB, CX_BC, CX_AB], &[CX_BC, CX_AC], 0),
        rule(3, &[CX_BC, CX_AB, CX_BC], &[CX_AB, CX_AC], 0),
        rule(2, &[CX_AB, CX_BA, CX_AB, CX_BA], &[CX_BA, CX_AB], 0),
    ]
}
