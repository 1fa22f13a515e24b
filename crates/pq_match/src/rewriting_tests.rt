//! Rewriting lists that were worked out by hand.

ghost use Rattle.std.specs.Prelude.{◌≡◌, ◌≤◌, length, IfOk};
ghost use Rattle.pq_rules.specs.Table.{builtin_rows};
ghost use Rattle.pq_match.specs.Found.{IsRedexOf};

use crate::redex::Redex;
use crate::segment::Seg;
use pq_gate::{Eighths, Gate};
use pq_limits::{MAX_ROW_GATES, MAX_SEGMENT};
use pq_list::OutOfMemory;
use pq_rules::Rules;
use std::alloc::Global;
use std::process::Abort;
use std::test::Fail;

const H_0: Gate = Gate::H { wire: 0 };

const H_1: Gate = Gate::H { wire: 1 };

const X_0: Gate = Gate::X { wire: 0 };

const X_1: Gate = Gate::X { wire: 1 };

const T_0: Gate = Gate::Phase {
    eighths: Eighths::T,
    wire: 0,
};

const T_3: Gate = Gate::Phase {
    eighths: Eighths::T,
    wire: 3,
};

const S_0: Gate = Gate::Phase {
    eighths: Eighths::S,
    wire: 0,
};

const S_3: Gate = Gate::Phase {
    eighths: Eighths::S,
    wire: 3,
};

const TDG_0: Gate = Gate::Phase {
    eighths: Eighths::Tdg,
    wire: 0,
};

const CX_0_1: Gate = Gate::Cx {
    control: 0,
    target: 1,
};

const CX_0_2: Gate = Gate::Cx {
    control: 0,
    target: 2,
};

const CX_1_0: Gate = Gate::Cx {
    control: 1,
    target: 0,
};

const CX_1_2: Gate = Gate::Cx {
    control: 1,
    target: 2,
};

// a segment of these gates
pub fn segment_of(alloc: Global, gates: &[Gate]) -> Result<Seg, OutOfMemory>
    requires { length gates.now ≤ MAX_SEGMENT }
    ensures { IfOk result (λ seg. seg.items ≡ gates.now) }
{
    let mut seg = Seg::reserve(alloc, gates.len() as u32)?;
    for gate in gates {
        seg.push(*gate);
    }
    Ok(seg)
}

// rewriting the redex gives these gates and this phase
fn rewrites_to(
    rt: &(impl Abort + AllocGlobal),
    gates: &[Gate],
    row: u32,
    count: u8,
    places: [u32; MAX_ROW_GATES],
    new: &[Gate],
    turn: u8,
) -> Result<(), OutOfMemory>
    requires few { length gates.now ≤ MAX_SEGMENT }
    requires redex { IsRedexOf builtin_rows gates.now (record { row = row; count = count; places = places }) }
{
    let redex = Redex { row, count, places };
    let rules = Rules::builtin(rt.alloc())?;
    let mut seg = segment_of(rt.alloc(), gates)?;
    let found = seg.apply(&rules, &redex);
    assert!(rt; seg.gates() == new, "{gates:?}");
    assert_eq!(rt; found, turn, "{gates:?}");
    Ok(())
}

#[test]
fn a_reserved_segment_is_empty(rt: HostRuntime) -> Result<(), Fail> {
    let seg = Seg::reserve(rt.alloc(), 2)?;
    assert_eq!(rt; seg.gates().len(), 0);
    assert_eq!(rt; seg.room(), 2);
    Ok(())
}

#[test]
fn redexes_are_rewritten(rt: HostRuntime) -> Result<(), Fail> {
    let pair = [0, 1, 0, 0, 0, 0, 0, 0];
    let three = [0, 1, 2, 0, 0, 0, 0, 0];
    let five = [0, 1, 2, 3, 4, 0, 0, 0];
    let apart = [0, 2, 0, 0, 0, 0, 0, 0];
    let inside = [1, 2, 0, 0, 0, 0, 0, 0];
    rewrites_to(&rt, &[T_3, T_3], 4, 2, pair, &[S_3], 0)?;
    rewrites_to(&rt, &[T_0, CX_0_1, T_0], 4, 2, apart, &[CX_0_1, S_0], 0)?;
    rewrites_to(
        &rt,
        &[X_1, H_0, H_0, CX_0_1],
        1,
        2,
        inside,
        &[X_1, CX_0_1],
        0,
    )?;
    rewrites_to(
        &rt,
        &[H_0, H_1, CX_0_1, H_1, H_0],
        47,
        5,
        five,
        &[CX_1_0],
        0,
    )?;
    rewrites_to(
        &rt,
        &[CX_0_1, CX_1_2, CX_0_1],
        50,
        3,
        three,
        &[CX_1_2, CX_0_2],
        0,
    )?;
    rewrites_to(&rt, &[X_0, T_0, X_0], 23, 3, three, &[TDG_0], 1)?;
    Ok(())
}
