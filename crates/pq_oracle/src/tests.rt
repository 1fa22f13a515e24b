ghost use Rattle.std.specs.Prelude.{◌≡◌, ◌≤◌, length, IfOk};

use crate::{Outcome, Worked, WorkedList, improve};
use pq_gate::{Eighths, Gate, GateList};
use pq_list::OutOfMemory;
use pq_match::Seg;
use pq_rules::{RawRow, Row, Rules, check_row};
use std::alloc::Global;
use std::process::Abort;
use std::test::Fail;
use std::thread::join;

const H: Gate = Gate::H { wire: 0 };

const X: Gate = Gate::X { wire: 0 };

const T: Gate = Gate::Phase {
    eighths: Eighths::T,
    wire: 0,
};

const S: Gate = Gate::Phase {
    eighths: Eighths::S,
    wire: 0,
};

const Z: Gate = Gate::Phase {
    eighths: Eighths::Z,
    wire: 0,
};

const SDG: Gate = Gate::Phase {
    eighths: Eighths::Sdg,
    wire: 0,
};

const TDG: Gate = Gate::Phase {
    eighths: Eighths::Tdg,
    wire: 0,
};

// The segment of these gates, with room for no more.
fn segment(alloc: Global, gates: &[Gate]) -> Result<Seg, OutOfMemory>
    requires { length gates.now ≤ 16 }
    ensures { IfOk result (λ seg. seg.items ≡ gates.now) }
{
    let mut seg = Seg::reserve(alloc, gates.len() as u32)?;
    for gate in gates {
        seg.push(*gate);
    }
    Ok(seg)
}

fn leaves(
    rt: &(impl Abort + AllocGlobal),
    gates: &[Gate],
    left: &[Gate],
    improved: bool,
    phase: u8,
) -> Result<(), OutOfMemory>
    requires { length gates.now ≤ 16 }
{
    let rules = Rules::builtin(rt.alloc())?;
    let mut seg = segment(rt.alloc(), gates)?;
    let outcome = improve(&rules, &mut seg);
    assert!(rt; seg.gates() == left, "{gates:?}");
    assert_eq!(rt; outcome, Outcome { improved, phase }, "{gates:?}");
    Ok(())
}

#[test]
fn rewriting_goes_on_until_there_is_no_redex(rt: HostRuntime) -> Result<(), Fail> {
    leaves(&rt, &[], &[], false, 0)?;
    leaves(&rt, &[H, H], &[], true, 0)?;
    leaves(&rt, &[T, S], &[T, S], false, 0)?;
    leaves(&rt, &[X, T, X], &[TDG], true, 1)?;
    leaves(&rt, &[H, S, H, S], &[SDG, H], true, 1)?;
    leaves(&rt, &[X, T, X, X, T, X], &[SDG], true, 2)?;
    leaves(&rt, &[H, X, X, H, T, T, T, T], &[Z], true, 0)?;
    Ok(())
}

// A rewriting opens a redex that begins before it, on a wire that it didn't touch.
#[test]
fn a_rewriting_opens_a_redex_before_it(rt: HostRuntime) -> Result<(), Fail> {
    let h1 = Gate::H { wire: 1 };
    let x1 = Gate::X { wire: 1 };
    let cx01 = Gate::Cx {
        control: 0,
        target: 1,
    };
    let cx10 = Gate::Cx {
        control: 1,
        target: 0,
    };
    leaves(&rt, &[H, h1, x1, x1, cx01, H, h1], &[cx10], true, 0)?;
    Ok(())
}

// So many T gates on wires of their own, in front of them an H on wire 0 and behind them two X and an H there.
fn apart(alloc: Global, count: u32) -> Result<Seg, OutOfMemory>
    requires { count ≤ 2000 }
{
    let mut seg = Seg::reserve(alloc, count + 4)?;
    seg.push(H);
    for number in 0..count {
        seg.push(Gate::Phase {
            eighths: Eighths::T,
            wire: number + 1,
        });
    }
    seg.push(X);
    seg.push(X);
    seg.push(H);
    Ok(seg)
}

#[test]
fn a_rewriting_opens_a_redex_far_before_it(rt: HostRuntime) -> Result<(), Fail> {
    let rules = Rules::builtin(rt.alloc())?;
    let mut seg = apart(rt.alloc(), 2_000)?;
    let outcome = improve(&rules, &mut seg);
    assert!(rt; outcome.improved);
    assert_eq!(rt; outcome.phase, 0);
    assert_eq!(rt; seg.gates().len(), 2_000);
    assert!(rt; !seg.gates().iter().any(|gate| gate.touches(0)));
    Ok(())
}

fn row_of(
    rt: &(impl Abort + AllocGlobal),
    pattern: &[Gate],
    replacement: &[Gate],
) -> Result<Row, OutOfMemory>
    requires pattern { length pattern.now ≤ 16 }
    requires replacement { length replacement.now ≤ 16 }
{
    let raw = RawRow {
        wires: 3,
        pattern: GateList::of(Vec::from_slice(rt.alloc(), pattern)?),
        replacement: GateList::of(Vec::from_slice(rt.alloc(), replacement)?),
    };
    match check_row(raw) {
        Ok(row) => Ok(row),
        Err(fault) => panic!(rt; "{fault:?}"),
    }
}

fn h_on(wire: u32) -> Gate {
    Gate::H { wire }
}

fn z_on(wire: u32) -> Gate {
    Gate::Phase {
        eighths: Eighths::Z,
        wire,
    }
}

fn cx_on(control: u32, target: u32) -> Gate {
    Gate::Cx { control, target }
}

// Two rows whose patterns have gates on wires apart from those before them. The first redex is one of the second row, and
// what it opens is one of the first row.
#[test]
fn rows_with_gates_on_wires_apart_are_rewritten(rt: HostRuntime) -> Result<(), Fail> {
    let one = row_of(
        &rt,
        &[
            cx_on(0, 1),
            h_on(2),
            h_on(1),
            cx_on(2, 0),
            z_on(0),
            cx_on(2, 0),
        ],
        &[cx_on(0, 1), h_on(2), h_on(1), z_on(0), z_on(2)],
    )?;
    let other = row_of(
        &rt,
        &[z_on(0), h_on(1), h_on(1), z_on(2)],
        &[cx_on(2, 0), z_on(0), cx_on(2, 0)],
    )?;
    let mut extra = Vec::new(rt.alloc());
    extra.push(one)?;
    extra.push(other)?;
    let rules = Rules::builtin(rt.alloc())?.with(rt.alloc(), extra)?;
    let given = [
        cx_on(0, 1),
        h_on(2),
        h_on(1),
        cx_on(0, 3),
        cx_on(0, 4),
        z_on(0),
        h_on(5),
        h_on(5),
        z_on(2),
    ];
    let mut seg = segment(rt.alloc(), &given)?;
    let outcome = improve(&rules, &mut seg);
    assert!(rt; outcome.improved);
    assert!(rt;
        seg.gates()
            == [
                cx_on(0, 3),
                cx_on(0, 4),
                cx_on(0, 1),
                h_on(2),
                h_on(1),
                z_on(0),
                z_on(2)
            ]
            .as_slice()
    );
    Ok(())
}

fn leaves_under(
    rt: &(impl Abort + AllocGlobal),
    rules: &Rules,
    gates: &[Gate],
    left: &[Gate],
) -> Result<(), OutOfMemory>
    requires { length gates.now ≤ 16 }
{
    let mut seg = segment(rt.alloc(), gates)?;
    let outcome = improve(rules, &mut seg);
    assert!(rt; outcome.improved);
    assert!(rt; seg.gates() == left, "{gates:?}");
    Ok(())
}

// The replacement has more gates than there are free places around the last gate of the redex, with one on another wire
// before it.
#[test]
fn a_long_replacement_finds_its_place(rt: HostRuntime) -> Result<(), Fail> {
    let row = row_of(
        &rt,
        &[
            cx_on(0, 1),
            h_on(2),
            h_on(1),
            cx_on(2, 0),
            z_on(0),
            cx_on(2, 0),
        ],
        &[cx_on(0, 1), h_on(2), h_on(1), z_on(0), z_on(2)],
    )?;
    let mut extra = Vec::new(rt.alloc());
    extra.push(row)?;
    let rules = Rules::builtin(rt.alloc())?.with(rt.alloc(), extra)?;
    let given = [
        cx_on(0, 1),
        h_on(2),
        h_on(1),
        cx_on(2, 0),
        z_on(0),
        h_on(5),
        cx_on(2, 0),
    ];
    let left = [h_on(5), cx_on(0, 1), h_on(2), h_on(1), z_on(0), z_on(2)];
    leaves_under(&rt, &rules, &given, &left)?;
    Ok(())
}

// Wires may be greater than the segment; the greatest number stands for no wire elsewhere.
#[test]
fn wires_may_be_any_numbers(rt: HostRuntime) -> Result<(), Fail> {
    let rules = Rules::builtin(rt.alloc())?;
    for wire in [4_096, 4_294_967_294, u32::MAX] {
        let gates = [h_on(wire), h_on(5), z_on(7), h_on(wire), h_on(5)];
        leaves_under(&rt, &rules, &gates, &[z_on(7)])?;
    }
    Ok(())
}

// Two H gates, worked under this ticket.
fn worked<'r>(alloc: Global, rules: &'r Rules, ticket: u64) -> Result<Worked<'r>, OutOfMemory> {
    let input = GateList::of(Vec::from_slice(alloc, &[H, H])?);
    let seg = segment(alloc, &[H, H])?;
    Ok(Worked::of(rules, ticket, input, seg))
}

fn is_worked(rt: &impl Abort, worked: &Worked<'_>, ticket: u64) {
    assert_eq!(rt; worked.ticket(), ticket);
    assert!(rt; worked.input() == [H, H].as_slice());
    assert!(rt; worked.output().is_empty());
    assert!(rt; worked.improved());
    assert_eq!(rt; worked.phase(), 0);
}

#[test]
fn worked_segments_are_kept_with_their_input_and_their_answer(rt: HostRuntime) -> Result<(), Fail> {
    let rules = Rules::builtin(rt.alloc())?;
    let mut list = WorkedList::with_room(rt.alloc(), 2)?;
    assert_eq!(&rt; list.room(), 2);
    let input = GateList::of(Vec::from_slice(rt.alloc(), &[H, H])?);
    let seg = segment(rt.alloc(), &[H, H])?;
    list.push_kept(Worked::of(&rules, 7, input, seg));
    for kept in list.as_slice() {
        is_worked(&rt, kept, 7);
    }
    assert_eq!(&rt; list.as_slice().len(), 1);
    Ok(())
}

#[test]
fn two_threads_share_the_rules_and_hand_back_what_they_worked(rt: HostRuntime) -> Result<(), Fail> {
    let alloc = rt.alloc();
    let rules = Rules::builtin(alloc)?;
    let (first, second) = join(
        &rt,
        || worked(alloc, &rules, 1),
        || worked(alloc, &rules, 2),
    );
    is_worked(&rt, &first?, 1);
    is_worked(&rt, &second?, 2);
    Ok(())
}
