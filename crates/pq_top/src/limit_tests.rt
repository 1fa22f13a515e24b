use crate::tests::{NO_H, TWO_H, WHOLE, expect, run};
use std::alloc::{AllocError, Global};
use std::process::Abort;
use std::test::Fail;
use std::thread::Threads;

const FRONT: &str = "OPENQASM 2.0;\ninclude \"qelib1.inc\";\nqreg q[4096];\n";

// The text that stands for one line over all wires: the numbers of the 4,096 wires, and what stands before, between and behind them.
fn over_all_wires(
    alloc: Global,
    before: &str,
    between: &str,
    behind: &str,
) -> Result<String, AllocError> {
    let mut text = String::from_str(alloc, before)?;
    for wire in 0u32..4095 {
        text.push_str(format!(in alloc; "{wire}{between}")?.as_str())?;
    }
    text.push_str("4095")?;
    text.push_str(behind)?;
    Ok(text)
}

// The first lines, another line so many times, and what follows.
fn repeated(alloc: Global, line: &str, count: u32, end: &str) -> Result<String, AllocError> {
    let mut text = String::from_str(alloc, FRONT)?;
    for _ in 0..count {
        text.push_str(line)?;
    }
    text.push_str(end)?;
    Ok(text)
}

// A line 256 times is optimised to the same statements one by one, and once more is too much.
fn is_a_limit(
    rt: &(impl Abort + AllocGlobal + Threads + Sync),
    line: &str,
    written: &str,
    report: &str,
    note: &str,
) -> Result<(), AllocError> {
    let text = repeated(rt.alloc(), line, 256, "")?;
    let want = repeated(rt.alloc(), written, 256, report)?;
    let outcome = run(rt, &["opt"], text.as_str(), WHOLE, WHOLE)?;
    expect(rt, &outcome, 0, want.as_str(), "");
    let text = repeated(rt.alloc(), line, 257, "")?;
    let outcome = run(rt, &["opt"], text.as_str(), WHOLE, WHOLE)?;
    expect(rt, &outcome, 3, "", note);
    Ok(())
}

#[test]
fn the_greatest_texts_are_worked(rt: HostRuntime) -> Result<(), Fail> {
    let gates = over_all_wires(rt.alloc(), "t q[", "];\nt q[", "];\n")?;
    is_a_limit(
        &rt,
        "t q;\n",
        gates.as_str(),
        "// gates 1048576 1048576\n// rounds 2\n// calls 16384\n// first fingers 16384\n// phase 0\n",
        "popqc: refused 15 TooManyGates at 260:4\n",
    )?;
    let barrier = over_all_wires(rt.alloc(), "barrier q[", "],q[", "];\n")?;
    is_a_limit(
        &rt,
        "barrier q;\n",
        barrier.as_str(),
        "// gates 0 0\n// rounds 0\n// calls 0\n// first fingers 0\n// phase 0\n",
        "popqc: refused 17 TailTooLong at 260:10\n",
    )?;
    Ok(())
}

#[test]
fn two_gates_are_worked_with_the_greatest_omega_and_the_most_workers(
    rt: HostRuntime,
) -> Result<(), Fail> {
    let words = ["opt", "--omega", "1024", "--workers", "64"];
    let outcome = run(&rt, &words, TWO_H, WHOLE, WHOLE)?;
    expect(&rt, &outcome, 0, NO_H, "");
    Ok(())
}
