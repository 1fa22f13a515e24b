ghost use Rattle.std.specs.Prelude.{◌≡◌, ◌<◌, ◌≤◌, [], ◌∷◌, length, All, IfOk};
ghost use Rattle.pq_limits.specs.declared.TheConstants.{MAX_GATES};
ghost use Rattle.pq_limits.specs.Limits.{AreWorkers};
ghost use Rattle.pq_array.specs.Cells.{IsLive};
ghost use Rattle.pq_board.specs.Steps.{BelongsTo, unused};

use crate::{HeldGate, OpenGate, Round, WorkGate, run_round};
use pq_array::{Cells, GateArray};
use pq_board::{Board, Closed, Jobs, Pass, Receipt};
use pq_gate::{Eighths, Gate};
use pq_list::OutOfMemory;
use pq_oracle::{Worked, WorkedList};
use pq_rules::Rules;
use std::alloc::{AllocError, Global};
use std::process::Abort;
use std::sync::atomic::{AtomicU64, Ordering};
use std::test::Fail;
use std::thread;
use std::thread::Threads;

const H: Gate = Gate::H { wire: 0 };

const X: Gate = Gate::X { wire: 1 };

fn phase(eighths: Eighths, wire: u32) -> Gate {
    Gate::Phase { eighths, wire }
}

// How often a round called a gate, and the sums of the tickets that it gave.
#[derive(Drop)]
struct Calls {
    before: AtomicU64,
    before_tickets: AtomicU64,
    after: AtomicU64,
    after_tickets: AtomicU64,
}

impl WorkGate for Calls {
    fn before(&self, ticket: u64) {
        self.before.fetch_add(1, Ordering::SeqCst);
        self.before_tickets.fetch_add(ticket, Ordering::SeqCst);
    }

    fn after(&self, ticket: u64) {
        self.after.fetch_add(1, Ordering::SeqCst);
        self.after_tickets.fetch_add(ticket, Ordering::SeqCst);
    }
}

fn no_calls() -> Calls {
    Calls {
        before: AtomicU64::new(0),
        before_tickets: AtomicU64::new(0),
        after: AtomicU64::new(0),
        after_tickets: AtomicU64::new(0),
    }
}

// The cells of these gates, and a board over the words of their tree, for so many workers.
fn opened(
    alloc: Global,
    gates: &[Gate],
    jobs: Jobs,
    workers: u32,
) -> Result<(Cells, Board, Pass), OutOfMemory>
    requires few { length gates.now ≤ MAX_GATES }
    requires inside { All (All (λ place. place < length gates.now)) jobs }
    requires workers { AreWorkers workers }
    ensures live { IfOk result (λ made. All (λ places. All (IsLive made.0) places) jobs) }
    ensures jobs { IfOk result (λ made. made.1.plan.jobs ≡ jobs) }
    ensures passes { IfOk result (λ made. made.1.plan.passes ≡ workers) }
    ensures belongs { IfOk result (λ made. BelongsTo made.1 made.2) }
    ensures pass { IfOk result (λ made. made.2.view ≡ unused made.1.plan workers) }
{
    let (cells, words) = GateArray::open(alloc, gates)?.split_words();
    match Board::open(alloc, words, jobs, workers) {
        Ok((board, pass)) => Ok((cells, board, pass)),
        Err(_) => Err(AllocError),
    }
}

// What so many workers made of these jobs, and what is left of their board. A segment has at most 4 gates.
fn worked<'r, R: Threads + Sync, G: WorkGate>(
    rt: &R,
    alloc: Global,
    gates: &[Gate],
    jobs: Jobs,
    rules: &'r Rules,
    workers: u32,
    gate: &G,
) -> Result<(WorkedList<'r>, Closed), OutOfMemory>
    requires few { length gates.now ≤ MAX_GATES }
    requires inside { All (All (λ place. place < length gates.now)) jobs }
    requires short { All (λ places. length places ≤ 4) jobs }
    requires workers { AreWorkers workers }
{
    let (cells, board, pass) = opened(alloc, gates, jobs, workers)?;
    let Round {
        results,
        board,
        pass,
    } = run_round(rt, alloc, &cells, board, pass, rules, 2, workers, gate)?;
    Ok((results, board.close(pass)))
}

fn is_worked(rt: &impl Abort, worked: &Worked, ticket: u64, input: &[Gate], output: &[Gate]) {
    assert_eq!(rt; worked.ticket(), ticket);
    assert!(rt; worked.input() == input, "of job {ticket}");
    assert!(rt; worked.output() == output, "of job {ticket}");
    assert_eq!(rt;
        worked.improved(),
        input.len() > output.len(),
        "of job {ticket}"
    );
}

// Compares the numbers of a receipt: the jobs, the claimed ones, the opening and the closing root.
fn receipt_is(rt: &impl Abort, receipt: &Receipt, want: [u64; 4]) {
    assert_eq!(rt; receipt.jobs(), want[0]);
    assert_eq!(rt; receipt.claimed(), want[1]);
    assert_eq!(rt; receipt.opened(), want[2]);
    assert_eq!(rt; receipt.closed(), want[3]);
}

// Five jobs over eight gates, one of them without places.
fn five_jobs(alloc: Global) -> Result<Jobs, OutOfMemory>
    ensures inside { IfOk result (λ jobs. All (All (λ place. place < 8)) jobs) }
    ensures short { IfOk result (λ jobs. All (λ places. length places ≤ 4) jobs) }
{
    let mut jobs = Jobs::new(alloc);
    jobs.add(&[0, 1])?;
    jobs.add(&[2, 3])?;
    jobs.add(&[])?;
    jobs.add(&[4, 5])?;
    jobs.add(&[6, 7])?;
    Ok(jobs)
}

// A round of the five jobs, by so many workers.
fn five_jobs_are_worked<R: Abort + AllocGlobal + Threads + Sync>(
    rt: &R,
    workers: u32,
) -> Result<(), Fail>
    requires { AreWorkers workers }
{
    let gates = [H, H, X, X, H, H, X, X];
    let jobs = five_jobs(rt.alloc())?;
    let rules = Rules::builtin(rt.alloc())?;
    let calls = no_calls();
    let (list, closed) = worked(rt, rt.alloc(), &gates, jobs, &rules, workers, &calls)?;
    assert_eq!(rt; list.as_slice().len(), 5);
    is_worked(rt, &list.as_slice()[0], 0, &[H, H], &[]);
    is_worked(rt, &list.as_slice()[1], 1, &[X, X], &[]);
    is_worked(rt, &list.as_slice()[2], 2, &[], &[]);
    is_worked(rt, &list.as_slice()[3], 3, &[H, H], &[]);
    is_worked(rt, &list.as_slice()[4], 4, &[X, X], &[]);
    receipt_is(rt, &closed.receipt, [5, 5, 8, 0]);
    assert_eq!(rt; calls.before.load(Ordering::SeqCst), 5);
    assert_eq!(rt; calls.before_tickets.load(Ordering::SeqCst), 10);
    assert_eq!(rt; calls.after.load(Ordering::SeqCst), 5);
    assert_eq!(rt; calls.after_tickets.load(Ordering::SeqCst), 10);
    Ok(())
}

#[test]
fn each_job_is_worked_under_its_number(rt: HostRuntime) -> Result<(), Fail> {
    for workers in [1, 2, 3, 4, 5, 64] {
        five_jobs_are_worked(&rt, workers)?;
    }
    Ok(())
}

#[test]
fn a_round_without_jobs_has_no_results(rt: HostRuntime) -> Result<(), Fail> {
    let jobs = Jobs::new(rt.alloc());
    let rules = Rules::builtin(rt.alloc())?;
    let (list, closed) = worked(&rt, rt.alloc(), &[], jobs, &rules, 64, &OpenGate)?;
    assert!(rt; list.as_slice().is_empty());
    receipt_is(&rt, &closed.receipt, [0, 0, 0, 0]);
    Ok(())
}

// Two jobs, of which the first one's gates go and the second one's stay.
#[test]
fn workers_lower_the_places_that_are_given_up(rt: HostRuntime) -> Result<(), Fail> {
    let mut jobs = Jobs::new(rt.alloc());
    jobs.add(&[0, 1])?;
    jobs.add(&[2, 3, 4, 5])?;
    let (t1, s1) = (phase(Eighths::T, 1), phase(Eighths::S, 1));
    let (t2, s2) = (phase(Eighths::T, 2), phase(Eighths::S, 2));
    let gates = [H, H, t1, s1, t2, s2, X, X];
    let rules = Rules::builtin(rt.alloc())?;
    let (list, closed) = worked(&rt, rt.alloc(), &gates, jobs, &rules, 4, &OpenGate)?;
    assert_eq!(rt; list.as_slice().len(), 2);
    is_worked(&rt, &list.as_slice()[0], 0, &[H, H], &[]);
    let stay = [t1, s1, t2, s2];
    is_worked(&rt, &list.as_slice()[1], 1, &stay, &stay);
    receipt_is(&rt, &closed.receipt, [2, 2, 8, 6]);
    let words = closed.words.as_slice();
    assert!(rt; words == [4u64, 6, 2, 4, 0, 2, 2, 2, 0, 0, 1, 1, 1, 1, 1, 1].as_slice());
    Ok(())
}

// How many workers came before their first ticket, and how many of them met another one there. Each waits for the other
// for a while.
#[derive(Drop)]
struct Meeting {
    came: AtomicU64,
    met: AtomicU64,
}

impl WorkGate for Meeting {
    fn before(&self, _ticket: u64) {
        self.came.fetch_add(1, Ordering::SeqCst);
        for _ in 0..20_000_000 {
            if self.came.load(Ordering::SeqCst) >= 2 {
                self.met.fetch_add(1, Ordering::SeqCst);
                return;
            }
            thread::yield_now();
        }
    }

    fn after(&self, _ticket: u64) {}
}

#[test]
fn two_jobs_are_worked_side_by_side(rt: HostRuntime) -> Result<(), Fail> {
    let mut jobs = Jobs::new(rt.alloc());
    jobs.add(&[0])?;
    jobs.add(&[1])?;
    let rules = Rules::builtin(rt.alloc())?;
    let meeting = Meeting {
        came: AtomicU64::new(0),
        met: AtomicU64::new(0),
    };
    let (list, _closed) = worked(&rt, rt.alloc(), &[H, X], jobs, &rules, 2, &meeting)?;
    assert_eq!(rt; list.as_slice().len(), 2);
    assert_eq!(rt; meeting.met.load(Ordering::SeqCst), 2);
    Ok(())
}

#[test]
fn a_ticket_that_is_held_in_vain_is_a_miss(rt: HostRuntime) {
    let gate = HeldGate::new(0, 1);
    gate.before(1);
    gate.after(0);
    assert_eq!(rt; gate.misses(), 0);
    gate.before(0);
    assert_eq!(rt; gate.misses(), 1);
    gate.after(1);
    gate.before(0);
    assert_eq!(rt; gate.misses(), 1);
}
