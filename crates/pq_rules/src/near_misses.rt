//! Built-in rows with one gate changed. The pairs of states that differ first were found by multiplying
//! the complex matrices of the field, apart from this project's ring and definitions.

use crate::check::check_row;
use crate::row::{RawRow, RowFault};
use pq_gate::{Gate, GateList};
use pq_list::OutOfMemory;
use std::alloc::Global;
use std::process::Abort;
use std::test::Fail;

// The gate of a short word: `h0` is H on wire 0, `c01` the CX with control 0 and target 1, `S0` the
// inverse of S and `T0` that of T.
fn gate_of(word: &[u8]) -> Option<Gate> {
    match word {
        [kind, wire] => gate_on(*kind, wire_of(*wire)),
        [_, control, target] => Some(Gate::cx(wire_of(*control), wire_of(*target))),
        _ => None,
    }
}

fn wire_of(digit: u8) -> u32 {
    u32::from(digit.saturating_sub(b'0'))
}

fn gate_on(kind: u8, wire: u32) -> Option<Gate> {
    match kind {
        b'h' => Some(Gate::h(wire)),
        b'x' => Some(Gate::x(wire)),
        b't' => Some(Gate::t(wire)),
        b's' => Some(Gate::s(wire)),
        b'z' => Some(Gate::z(wire)),
        b'S' => Some(Gate::sdg(wire)),
        b'T' => Some(Gate::tdg(wire)),
        _ => None,
    }
}

fn gates_of(rt: &(impl Abort + AllocGlobal), text: &str) -> Result<GateList, OutOfMemory> {
    let mut gates = Vec::new(rt.alloc());
    for word in text.split(' ') {
        if let Some(gate) = gate_of(word.as_bytes()) {
            gates.push(gate)?;
        }
    }
    assert!(rt; gates.len() < 100);
    Ok(GateList::of(gates))
}

// the row with these sides differs first at this pair
fn differs(
    rt: &(impl Abort + AllocGlobal),
    wires: u8,
    pattern: &str,
    replacement: &str,
    pair: (u8, u8),
) -> Result<(), OutOfMemory> {
    let raw = RawRow {
        wires,
        pattern: gates_of(rt, pattern)?,
        replacement: gates_of(rt, replacement)?,
    };
    let (from, to) = pair;
    match check_row(raw) {
        Ok(_row) => panic!(rt; "{pattern} passes"),
        Err(fault) => assert!(rt;
            fault == RowFault::Differs { from, to },
            "{pattern}: {fault:?}"
        ),
    }
    Ok(())
}

#[test]
fn near_misses_differ_where_the_matrices_do(rt: HostRuntime) -> Result<(), Fail> {
    for (wires, pattern, replacement, pair) in [
        (2, "c01 c10", "", (1, 1)),
        (1, "t0 t0", "t0", (1, 1)),
        (1, "s0 z0", "T0", (1, 1)),
        (1, "z0 s0", "", (1, 1)),
        (1, "x0 x0 h0", "z0", (0, 0)),
        (1, "h0 s0 x0", "S0", (0, 0)),
        (1, "x0 s0 h0 t0", "S0 h0 T0", (0, 1)),
        (1, "h0 s0 h0 z0", "S0 h0 t0", (0, 1)),
        (1, "t0 h0 s0 h0", "S0 h0 S0", (1, 0)),
        (1, "x0 S0 h0 s0", "s0 h0 z0", (0, 1)),
        (1, "s0 h0 S0 x0", "z0 h0 s0", (1, 0)),
        (1, "S0 h0 T0 h0", "h0 s0", (0, 0)),
        (2, "x0 c01 h0", "c01 x1", (0, 2)),
        (2, "z1 c01 z1", "c01 s0", (1, 3)),
        (2, "s1 c01 z1", "c01 z0", (2, 2)),
        (2, "h0 h1 c01 h1 h0", "c01", (1, 1)),
        (3, "c01 c12 c01", "c21 c02", (2, 2)),
        (3, "c01 c12 c10", "c12 c02", (1, 5)),
        (3, "c12 c01 c21", "c01 c02", (1, 3)),
        (2, "c10 c10 c01 c10", "c10 c01", (1, 2)),
    ] {
        differs(&rt, wires, pattern, replacement, pair)?;
    }
    Ok(())
}
