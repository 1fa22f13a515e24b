ghost use Rattle.std.specs.Prelude.{◌≤◌, length};
ghost use Rattle.pq_limits.specs.Limits.{IsOmega};

use crate::{Finished, Loop, Receipt, Step};
use pq_gate::{Eighths, Gate};
use pq_list::OutOfMemory;
use pq_round::OpenGate;
use pq_rules::Rules;
use std::process::Abort;
use std::test::Fail;
use std::thread::Threads;

fn h(wire: u32) -> Gate {
    Gate::H { wire }
}

fn x(wire: u32) -> Gate {
    Gate::X { wire }
}

fn phase(eighths: Eighths, wire: u32) -> Gate {
    Gate::Phase { eighths, wire }
}

// The numbers of a round.
fn numbers(selected: u64, improved: u64, removed: u64, phase: u8) -> Step {
    Step {
        selected,
        improved,
        removed,
        phase,
    }
}

fn has_fingers_at(
    rt: &(impl Abort + AllocGlobal),
    state: &Loop,
    want: &[u64],
) -> Result<(), OutOfMemory> {
    let gaps = state.gaps(rt.alloc())?;
    assert!(rt; gaps.as_slice() == want, "{gaps:?}, but wanted {want:?}");
    assert_eq!(rt; state.fingers_left(), want.len() as u64);
    Ok(())
}

// The loop over these gates under the built-in rules. Its first fingers are wanted at these gaps.
fn opened(
    rt: &(impl Abort + AllocGlobal),
    gates: &[Gate],
    omega: u32,
    want: &[u64],
) -> Result<Loop, OutOfMemory>
    requires few { length gates.now ≤ 16 }
    requires omega { IsOmega omega }
{
    let rules = Rules::builtin(rt.alloc())?;
    let made = Loop::open(rt.alloc(), gates, omega, rules)?;
    assert_eq!(rt; made.cells(), gates.len() as u64);
    has_fingers_at(rt, &made, want)?;
    Ok(made)
}

// Makes a round with four workers. These numbers are wanted, these of the receipt (jobs, claimed, opened, closed), and
// so many cells and these gaps of the fingers after it.
fn next(
    rt: &(impl Abort + AllocGlobal + Threads + Sync),
    before: Loop,
    want: Step,
    receipt: [u64; 4],
    cells: u64,
    gaps: &[u64],
) -> Result<Loop, OutOfMemory> {
    assert!(rt; !before.is_done());
    let (after, step, made) = before.round(rt, rt.alloc(), 4, &OpenGate)?;
    assert_eq!(rt; step, want);
    receipt_is(rt, &made, receipt);
    assert_eq!(rt; after.cells(), cells);
    has_fingers_at(rt, &after, gaps)?;
    Ok(after)
}

fn receipt_is(rt: &impl Abort, receipt: &Receipt, want: [u64; 4]) {
    assert_eq!(rt; receipt.jobs(), want[0]);
    assert_eq!(rt; receipt.claimed(), want[1]);
    assert_eq!(rt; receipt.opened(), want[2]);
    assert_eq!(rt; receipt.closed(), want[3]);
}

// Ends the loop, where these gates are wanted to be left.
fn end(
    rt: &(impl Abort + AllocGlobal),
    last: Loop,
    gates: &[Gate],
) -> Result<Finished, OutOfMemory> {
    assert!(rt; last.is_done());
    let left = last.finish(rt.alloc())?;
    assert!(rt; left.gates.as_slice() == gates, "{gates:?}");
    Ok(left)
}

fn counts(rt: &impl Abort, left: &Finished, rounds: u64, calls: u64, phase: u8, fingers: u64) {
    assert_eq!(rt; left.rounds, rounds);
    assert_eq!(rt; left.calls, calls);
    assert_eq!(rt; left.phase, phase);
    assert_eq!(rt; left.first_fingers, fingers);
}

#[test]
fn eight_gates_are_done_after_three_rounds(rt: HostRuntime) -> Result<(), Fail> {
    let (t1, s1) = (phase(Eighths::T, 1), phase(Eighths::S, 1));
    let (t2, s2) = (phase(Eighths::T, 2), phase(Eighths::S, 2));
    let gates = [h(0), h(0), t1, s1, t2, s2, h(3), h(3)];
    let state = opened(&rt, &gates, 2, &[0, 2, 4, 6])?;
    let state = next(&rt, state, numbers(2, 1, 2, 0), [2, 2, 8, 6], 8, &[0, 4])?;
    let state = next(&rt, state, numbers(2, 1, 2, 0), [2, 2, 6, 4], 8, &[2])?;
    let state = next(&rt, state, numbers(1, 0, 0, 0), [1, 1, 4, 4], 8, &[])?;
    let left = end(&rt, state, &[t1, s1, t2, s2])?;
    counts(&rt, &left, 3, 5, 0, 4);
    Ok(())
}

#[test]
fn a_finger_at_the_end_is_not_inside_an_improved_segment(rt: HostRuntime) -> Result<(), Fail> {
    let s = phase(Eighths::S, 0);
    let z = phase(Eighths::Z, 0);
    let gates = [s, h(0), z, z, s, h(0), x(0), z, x(0), z];
    let state = opened(&rt, &gates, 2, &[0, 2, 4, 6, 8])?;
    let state = next(&rt, state, numbers(3, 2, 6, 4), [3, 3, 10, 4], 4, &[2, 4])?;
    let state = next(&rt, state, numbers(1, 1, 2, 1), [1, 1, 4, 2], 4, &[2])?;
    let state = next(&rt, state, numbers(1, 0, 0, 0), [1, 1, 2, 2], 4, &[])?;
    let left = end(&rt, state, &[h(0), phase(Eighths::Sdg, 0)])?;
    counts(&rt, &left, 3, 5, 5, 5);
    Ok(())
}

#[test]
fn no_gate_needs_no_round(rt: HostRuntime) -> Result<(), Fail> {
    let state = opened(&rt, &[], 2, &[])?;
    let left = end(&rt, state, &[])?;
    counts(&rt, &left, 0, 0, 0, 0);
    Ok(())
}

#[test]
fn rounds_tell_their_phase(rt: HostRuntime) -> Result<(), Fail> {
    let gates = [x(0), phase(Eighths::T, 0), x(0)];
    let state = opened(&rt, &gates, 4, &[0])?;
    let state = next(&rt, state, numbers(1, 1, 2, 1), [1, 1, 3, 1], 1, &[])?;
    let left = end(&rt, state, &[phase(Eighths::Tdg, 0)])?;
    counts(&rt, &left, 1, 1, 1, 1);
    Ok(())
}

#[test]
fn a_finger_stays_where_no_cell_is_left(rt: HostRuntime) -> Result<(), Fail> {
    let state = opened(&rt, &[h(0), h(0), h(0), h(0), h(0), h(0)], 2, &[0, 2, 4])?;
    let state = next(&rt, state, numbers(2, 2, 6, 0), [2, 2, 6, 0], 0, &[0])?;
    let state = next(&rt, state, numbers(1, 0, 0, 0), [1, 1, 0, 0], 0, &[])?;
    let left = end(&rt, state, &[])?;
    counts(&rt, &left, 2, 3, 0, 3);
    Ok(())
}

// The state after one more round, where there is a finger.
fn gone_on(rt: &(impl AllocGlobal + Threads + Sync), before: Loop) -> Result<Loop, OutOfMemory> {
    if before.is_done() {
        return Ok(before);
    }
    let (after, _step, _receipt) = before.round(rt, rt.alloc(), 4, &OpenGate)?;
    Ok(after)
}

#[test]
fn gates_that_undo_one_another_leave_no_cell(rt: HostRuntime) -> Result<(), Fail> {
    let gates: Vec<Gate> = vec![in rt.alloc(); h(0); 4000]?;
    let rules = Rules::builtin(rt.alloc())?;
    let mut state = Loop::open(rt.alloc(), &gates, 1024, rules)?;
    for _ in 0..10 {
        state = gone_on(&rt, state)?;
    }
    assert_eq!(rt; state.cells(), 0);
    end(&rt, state, &[])?;
    Ok(())
}
