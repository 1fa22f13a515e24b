ghost use Rattle.std.specs.Prelude.{◌≤◌};

use crate::rewriting_tests::segment_of;
use crate::{Redex, Seg, find_first, find_within};
use pq_gate::{Eighths, Gate};
use pq_limits::MAX_SEGMENT;
use pq_list::OutOfMemory;
use pq_rules::Rules;
use std::alloc::Global;
use std::process::Abort;
use std::test::Fail;

// The gate of a short word: `h0` is H on wire 0, `c01` the CX with control 0 and target 1, `S0` the
// inverse of S and `T0` that of T.
fn gate_of(word: &[u8]) -> Option<Gate> {
    match word {
        [kind, wire] => gate_on(*kind, u32::from(*wire)),
        [_, control, target] => Some(Gate::Cx {
            control: u32::from(*control),
            target: u32::from(*target),
        }),
        _ => None,
    }
}

fn gate_on(kind: u8, wire: u32) -> Option<Gate> {
    let eighths = match kind {
        b'h' => return Some(Gate::H { wire }),
        b'x' => return Some(Gate::X { wire }),
        b't' => Eighths::T,
        b's' => Eighths::S,
        b'z' => Eighths::Z,
        b'S' => Eighths::Sdg,
        b'T' => Eighths::Tdg,
        _ => return None,
    };
    Some(Gate::Phase { eighths, wire })
}

fn gates_of(alloc: Global, text: &str) -> Result<Vec<Gate>, OutOfMemory> {
    let mut gates = Vec::new(alloc);
    for word in text.split(' ') {
        if let Some(gate) = gate_of(word.as_bytes()) {
            gates.push(gate)?;
        }
    }
    Ok(gates)
}

// The number of the row and the places, as in `4 at 0 2`.
fn told(alloc: Global, found: Option<Redex>) -> Result<String, OutOfMemory> {
    let Some(redex) = found else {
        return String::from_str(alloc, "none");
    };
    let mut text = format!(in alloc; "{} at", redex.row)?;
    for place in redex.places.iter().take(usize::from(redex.count)) {
        let more = format!(in alloc; " {place}")?;
        text.push_str(&more)?;
    }
    Ok(text)
}

fn first_is(
    rt: &(impl Abort + AllocGlobal),
    rules: &Rules,
    list: &str,
    span: u32,
    expected: &str,
) -> Result<(), OutOfMemory> {
    let gates = gates_of(rt.alloc(), list)?;
    assert!(rt; gates.len() < 100);
    let found = told(rt.alloc(), find_within(&gates, rules, span))?;
    assert!(rt; found.as_str() == expected, "{list} within {span}: {found}");
    Ok(())
}

#[test]
fn first_redexes_of_small_lists(rt: HostRuntime) -> Result<(), Fail> {
    let rules = Rules::builtin(rt.alloc())?;
    for (list, span, expected) in [
        ("", 9, "none"),
        ("h0", 9, "none"),
        ("h0 h0", 9, "1 at 0 1"),
        ("h0 h1", 9, "none"),
        ("x3 x3", 9, "2 at 0 1"),
        ("c01 c01", 9, "3 at 0 1"),
        ("c01 c10", 9, "none"),
        ("t0 t0 t0", 9, "4 at 0 1"),
        ("t0 T0 t0", 9, "4 at 0 2"),
        ("t0 S0 T0", 9, "5 at 0 1"),
        ("t1 h0 t0 h0 T1", 9, "6 at 0 4"),
        ("s0 z1 z1 s0", 9, "7 at 0 3"),
        ("h0 t0 h0", 9, "none"),
        ("h0 h1 h0 h1", 9, "1 at 0 2"),
        ("t0 c01 t0", 9, "4 at 0 2"),
        ("t1 c01 t1", 9, "none"),
        ("x1 c01 x1", 9, "2 at 0 2"),
        ("x0 c01 x0", 9, "44 at 0 1 2"),
        ("x0 c01 x0 x0", 9, "44 at 0 1 2"),
        ("z1 c01 z1", 9, "45 at 0 1 2"),
        ("z0 c01 z0", 9, "12 at 0 2"),
        ("h0 h1 c01 h0 h1", 9, "46 at 0 1 2 3 4"),
        ("h0 h1 c01 h1 h0", 9, "47 at 0 1 2 3 4"),
        ("h1 h0 c01 h0 h1", 9, "48 at 0 1 2 3 4"),
        ("h1 h0 c01 h1 h0", 9, "49 at 0 1 2 3 4"),
        ("h0 h1 c10 h0 h1", 9, "49 at 0 1 2 3 4"),
        ("c01 c12 c01", 9, "50 at 0 1 2"),
        ("c12 c01 c12", 9, "51 at 0 1 2"),
        ("c01 c10 c01 c10", 9, "52 at 0 1 2 3"),
        ("c01 c12 c03 c01", 9, "50 at 0 1 3"),
        ("x0 c01 c02 x0", 9, "none"),
        ("h0 x0 h0", 9, "21 at 0 1 2"),
        ("h0 x1 x0 h1 h0 h1", 9, "21 at 0 2 4"),
        ("x0 T0 x0", 9, "27 at 0 1 2"),
        ("t0 h0 s0 h0 t0", 9, "32 at 0 1 2 3"),
        ("h0 s0 h0 z0 t0", 9, "30 at 0 1 2 3"),
        ("h0 s0 h0 s0", 4, "29 at 0 1 2 3"),
        ("h0 s0 h0 s0", 3, "none"),
        ("t0 h1 t0", 3, "4 at 0 2"),
        ("t0 h1 t0", 2, "none"),
        ("h0 h0", 1, "none"),
        ("h0 h0", 0, "none"),
        ("t0 h1 h1 t0", 3, "1 at 1 2"),
        ("z0 s0 s0", 9, "11 at 0 1"),
        ("S0 S0 S0", 9, "17 at 0 1"),
        ("c01 t0 c21 c01 t0", 9, "3 at 0 3"),
        ("x0 t1 x0 t1 t0", 9, "2 at 0 2"),
    ] {
        first_is(&rt, &rules, list, span, expected)?;
    }
    Ok(())
}

#[test]
fn a_segment_is_searched_to_its_end(rt: HostRuntime) -> Result<(), Fail> {
    let rules = Rules::builtin(rt.alloc())?;
    let mut seg = Seg::reserve(rt.alloc(), 3)?;
    seg.push(Gate::H { wire: 7 });
    seg.push(Gate::X { wire: 2 });
    seg.push(Gate::H { wire: 7 });
    let found = told(rt.alloc(), find_first(&seg, &rules))?;
    assert!(rt; found.as_str() == "1 at 0 2");
    Ok(())
}

#[test]
fn a_gate_knows_the_next_one_on_each_of_its_wires(rt: HostRuntime) -> Result<(), Fail> {
    let mut seg = Seg::reserve(rt.alloc(), 6)?;
    seg.push(Gate::H { wire: 0 });
    seg.push(Gate::Cx {
        control: 0,
        target: 1,
    });
    seg.push(Gate::Phase {
        eighths: Eighths::T,
        wire: 1,
    });

    // wires 0 and 4 share a bucket
    seg.push(Gate::Cx {
        control: 4,
        target: 4,
    });
    seg.push(Gate::H { wire: 0 });
    seg.push(Gate::H { wire: 4 });
    assert_eq!(&rt; seg.next_on_wire(0, 0), Some(1));
    assert_eq!(&rt; seg.next_on_wire(1, 1), Some(2));
    assert_eq!(&rt; seg.next_on_wire(1, 0), Some(4));
    assert_eq!(&rt; seg.next_on_wire(3, 4), Some(5));
    assert_eq!(&rt; seg.next_on_wire(4, 0), None);
    Ok(())
}

// T and S in turn on a wire, between two H on another one, so many gates in all.
fn turns_between(alloc: Global, count: u32) -> Result<Seg, OutOfMemory>
    requires { count ≤ MAX_SEGMENT }
{
    let mut seg = Seg::reserve(alloc, count)?;
    for number in 0..count {
        let turn = if number % 2 == 0 {
            Eighths::T
        } else {
            Eighths::S
        };
        let at_end = number == 0 || number == count - 1;
        seg.push(if at_end {
            Gate::H { wire: 0 }
        } else {
            Gate::Phase {
                eighths: turn,
                wire: 1,
            }
        });
    }
    Ok(seg)
}

#[test]
fn a_redex_reaches_from_the_first_gate_to_the_last(rt: HostRuntime) -> Result<(), Fail> {
    let rules = Rules::builtin(rt.alloc())?;
    let seg = turns_between(rt.alloc(), MAX_SEGMENT)?;
    let found = told(rt.alloc(), find_first(&seg, &rules))?;
    assert!(rt; found.as_str() == "1 at 0 2047");
    Ok(())
}

fn first_of_all_is(
    rt: &(impl Abort + AllocGlobal),
    rules: &Rules,
    gates: &[Gate],
    expected: &str,
) -> Result<(), OutOfMemory> {
    assert!(rt; gates.len() < 100);
    let seg = segment_of(rt.alloc(), gates)?;
    let found = told(rt.alloc(), find_first(&seg, rules))?;
    assert!(rt; found.as_str() == expected, "{gates:?}: {found}");
    Ok(())
}

// The gates of a row, each with an H on another wire behind it, are a redex of that row.
fn row_is_found_apart(
    rt: &(impl Abort + AllocGlobal),
    rules: &Rules,
    number: u32,
) -> Result<(), OutOfMemory> {
    let Some(row) = rules.row(number) else {
        panic!(rt; "no row {number}");
    };
    let mut gates = Vec::new(rt.alloc());
    let mut expected = format!(in rt.alloc(); "{number} at")?;
    for gate in row.pattern() {
        let more = format!(in rt.alloc(); " {}", gates.len())?;
        expected.push_str(&more)?;
        gates.push(*gate)?;
        gates.push(Gate::H { wire: 9 })?;
    }
    first_of_all_is(rt, rules, &gates, expected.as_str())
}

#[test]
fn each_row_is_found_with_gates_between(rt: HostRuntime) -> Result<(), Fail> {
    let rules = Rules::builtin(rt.alloc())?;
    for number in 1..53 {
        row_is_found_apart(&rt, &rules, number)?;
    }
    Ok(())
}

#[test]
fn wires_may_be_greater_than_the_segment(rt: HostRuntime) -> Result<(), Fail> {
    let rules = Rules::builtin(rt.alloc())?;
    let one = Gate::H { wire: 4_096 };
    let other = Gate::H { wire: 8_192 };
    let across = Gate::Cx {
        control: 4_096,
        target: 4_294_967_295,
    };
    first_of_all_is(&rt, &rules, &[one, other, one], "1 at 0 2")?;
    first_of_all_is(&rt, &rules, &[one, other, across, one], "none")?;
    first_of_all_is(&rt, &rules, &[across, other, across, one], "3 at 0 2")?;
    Ok(())
}
