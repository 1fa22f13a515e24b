ghost use Rattle.std.specs.Prelude.{◌≡◌, ◌+◌, ◌-◌, ◌*◌, ◌≤◌, ℕ, List, length, IfOk, OnOk};
ghost use Rattle.pq_limits.specs.Limits.{AreQubits, AreWorkers, IsOmega};
ghost use Rattle.pq_loop.specs.Gaps.{first_fingers};
ghost use Rattle.pq_loop.specs.Opt.{Local};
ghost use Rattle.pq_loop.specs.Counted.{IsEndOf};
ghost use Rattle.pq_read.specs.declared.program.Options.{Options};
ghost use Rattle.pq_read.specs.Environment.{view};
ghost use Rattle.pq_read.specs.Reads.{Reads};
ghost use Rattle.pq_text.specs.WellFormed.{WellFormed};
ghost use Rattle.pq_rules.specs.Table.{builtin_rows};
ghost use Rattle.pq_top.specs.Outputs.{KeepsMatrix, IsOptText, IsBenchText};
ghost use Rattle.pq_top.specs.Log.{Follows, LogsRounds, LogsText};
ghost use Rattle.pq_generate.specs.Generated.{generated};
ghost use Rattle.pq_text.specs.Print.{print};

use pq_gate::GateList;
use pq_generate::generate;
use pq_io::{ByteList, OutOfMemory};
use pq_limits::MAX_GATES;
use pq_loop::{Finished, Loop, Receipt};
use pq_read::Program;
use pq_round::WorkGate;
use pq_rules::Rules;
use pq_write::{ReportNumbers, write_program, write_report, write_with_report};
use std::alloc::Global;
use std::thread::Threads;

/// The canonical text of a program with the gates that rounds leave of its own, and then the report. Omega is 2 to
/// 1,024, and 1 to 64 workers make the rounds. The log takes the receipt of each round.
#[tactic(auto, using(crate::proofs::Optimising::formed_with))]
pub fn optimised<R: Threads + Sync, G: WorkGate>(
    rt: &R,
    alloc: Global,
    program: Program,
    omega: u32,
    workers: u32,
    log: &mut Vec<Receipt>,
    gate: &G,
) -> Result<ByteList, OutOfMemory>
    requires formed { WellFormed (view program) }
    requires omega { IsOmega omega }
    requires workers { AreWorkers workers }
    ensures text { IfOk result (λ written. (options : Options) (text : List ℕ) → Reads text options (view program) → IsOptText omega options text written.items) }
    ensures log { OnOk result ((options : Options) (text : List ℕ) → Reads text options (view program) → LogsText omega options text log.old.items log.new.items) }
    ensures log_keeps { Follows log.old.items log.new.items }
{
    let gates_in = program.gates.as_slice().len() as u64;
    let finished = run_rounds(rt, alloc, program.gates, omega, workers, log, gate)?;
    let report = report_on(gates_in, &finished);
    let program = Program {
        gates: finished.gates,
        ..program
    };
    let text = write_with_report(alloc, &program, &report)?;
    Ok(text)
}

/// The report on what rounds left of so many gates.
fn report_on(gates_in: u64, finished: &Finished) -> ReportNumbers
    ensures { result ≡ record {
      gates_in = gates_in;
      gates_out = length finished.now.gates.items;
      rounds = finished.now.rounds;
      calls = finished.now.calls;
      first_fingers = finished.now.first_fingers;
      phase = finished.now.phase;
    } }
{
    ReportNumbers {
        gates_in,
        gates_out: finished.gates.as_slice().len() as u64,
        rounds: finished.rounds,
        calls: finished.calls,
        first_fingers: finished.first_fingers,
        phase: finished.phase,
    }
}

/// The canonical text of the generated program.
pub fn generated_text(
    alloc: Global,
    seed: u64,
    qubits: u32,
    gates: u32,
) -> Result<ByteList, OutOfMemory>
    requires qubits { AreQubits qubits }
    requires gates { gates ≤ MAX_GATES }
    ensures { IfOk result (λ text. text.items ≡ print (generated seed qubits gates)) }
{
    let program = generate(alloc, seed, qubits, gates)?;
    write_program(alloc, &program)
}

/// The report on optimising the generated program, in rounds of so many workers. The log takes the receipt of each.
pub fn benched<R: Threads + Sync, G: WorkGate>(
    rt: &R,
    alloc: Global,
    omega: u32,
    workers: u32,
    seed: u64,
    qubits: u32,
    gates: u32,
    log: &mut Vec<Receipt>,
    gate: &G,
) -> Result<ByteList, OutOfMemory>
    requires omega { IsOmega omega }
    requires workers { AreWorkers workers }
    requires qubits { AreQubits qubits }
    requires gates { gates ≤ MAX_GATES }
    ensures text { IfOk result (λ text. IsBenchText omega seed qubits gates text.items) }
    ensures log { OnOk result (LogsRounds omega (generated seed qubits gates).gates log.old.items log.new.items) }
    ensures log_keeps { Follows log.old.items log.new.items }
{
    let program = generate(alloc, seed, qubits, gates)?;
    let gates_in = program.gates.as_slice().len() as u64;
    let finished = run_rounds(rt, alloc, program.gates, omega, workers, log, gate)?;
    let report = report_on(gates_in, &finished);
    write_report(alloc, &report)
}

// Makes rounds under the built-in rules, from the first fingers until there is no finger, and logs their receipts. The
// gates are moved into the loop, and out of it: none is copied.
fn run_rounds<R: Threads + Sync, G: WorkGate>(
    rt: &R,
    alloc: Global,
    gates: GateList,
    omega: u32,
    workers: u32,
    log: &mut Vec<Receipt>,
    gate: &G,
) -> Result<Finished, OutOfMemory>
    requires omega { IsOmega omega }
    requires workers { AreWorkers workers }
    requires few { length gates.items ≤ MAX_GATES }
    ensures opt { IfOk result (λ finished. IsEndOf builtin_rows omega gates.items finished) }
    ensures same { IfOk result (λ finished. KeepsMatrix gates.items finished.gates.items finished.phase) }
    ensures local { IfOk result (λ finished. Local builtin_rows omega finished.gates.items) }
    ensures shorter { IfOk result (λ finished. length finished.gates.items ≤ length gates.items) }
    ensures bound { IfOk result (λ finished. finished.calls
        ≤ length (first_fingers (length gates.items) omega) + 2 * (length gates.items - length finished.gates.items)) }
    ensures first_fingers { IfOk result (λ finished. finished.first_fingers ≡ length (first_fingers (length gates.items) omega)) }
    ensures log { OnOk result (LogsRounds omega gates.items log.old.items log.new.items) }
    ensures log_keeps { Follows log.old.items log.new.items }
{
    let rules = Rules::builtin(alloc)?;

    // its contract says that the rows are sound
    let _count = rules.count();
    let mut looping = Loop::of(alloc, gates, omega, rules)?;
    'rounds: while !looping.is_done() {
        let (next, _step, receipt) = looping.round(rt, alloc, workers, gate)?;
        log.push(receipt)?;
        looping = next;
    }
    looping.finish(alloc)
}
