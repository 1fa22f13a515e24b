use crate::tests::{EIGHT_GATES, Outcome, WHOLE, run, run_logging};
use pq_round::HeldGate;
use std::alloc::AllocError;
use std::process::Abort;
use std::test::Fail;
use std::thread::Threads;

const FOUR_PHASES: &[u8] = b"OPENQASM 2.0;\ninclude \"qelib1.inc\";\nqreg q[4];\n\
    t q[1];\ns q[1];\nt q[2];\ns q[2];\n// gates 8 4\n";

const TWELVE_GATES: &str = "OPENQASM 2.0;\ninclude \"qelib1.inc\";\nqreg q[6];\n\
    h q[0];\nh q[0];\nt q[1];\ns q[1];\nt q[2];\ns q[2];\nh q[3];\nh q[3];\n\
    t q[4];\ns q[4];\nt q[5];\ns q[5];\n";

const EIGHT_PHASES: &[u8] = b"OPENQASM 2.0;\ninclude \"qelib1.inc\";\nqreg q[6];\n\
    t q[1];\ns q[1];\nt q[2];\ns q[2];\nt q[4];\ns q[4];\nt q[5];\ns q[5];\n// gates 12 8\n";

// Optimises with two workers, of which one holds a ticket until another one is worked. It isn't held in vain, and the output is
// that of one worker.
fn is_worked_beside(
    rt: &(impl Abort + AllocGlobal + Threads + Sync),
    text: &str,
    tickets: (u64, u64),
    want: &Outcome,
) -> Result<(), AllocError> {
    let (held, first) = tickets;
    let gate = HeldGate::new(held, first);
    let mut log = Vec::new(rt.alloc());
    let words = ["opt", "--omega", "2", "--workers", "2"];
    let outcome = run_logging(rt, &words, text, WHOLE, WHOLE, WHOLE, &mut log, &gate)?;
    assert_eq!(rt; gate.misses(), 0, "{held} waits for {first}");
    assert_eq!(rt; outcome.status, 0);
    assert!(rt;
        outcome.sink.held() == want.sink.held(),
        "{held} waits for {first}"
    );
    Ok(())
}

// The same for each of these pairs of tickets.
fn are_worked_side_by_side(
    rt: &(impl Abort + AllocGlobal + Threads + Sync),
    text: &str,
    pairs: &[(u64, u64)],
    front: &[u8],
) -> Result<(), AllocError> {
    let words = ["opt", "--omega", "2", "--workers", "1"];
    let one = run(rt, &words, text, WHOLE, WHOLE)?;
    assert_eq!(rt; one.status, 0);
    assert!(rt; one.sink.held().starts_with(front));
    for tickets in pairs {
        is_worked_beside(rt, text, *tickets, &one)?;
    }
    Ok(())
}

#[test]
fn a_held_ticket_sees_any_other_one_worked(rt: HostRuntime) -> Result<(), Fail> {
    let pairs = [(0, 1), (1, 0)];
    are_worked_side_by_side(&rt, EIGHT_GATES, &pairs, FOUR_PHASES)?;
    let pairs = [(0, 1), (0, 2), (1, 0), (1, 2), (2, 0), (2, 1)];
    are_worked_side_by_side(&rt, TWELVE_GATES, &pairs, EIGHT_PHASES)?;
    Ok(())
}
