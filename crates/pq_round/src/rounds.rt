ghost use Rattle.std.specs.Prelude.{◌≡◌, ◌*◌, ◌≤◌, length, IfOk, All, IsPermutation};
ghost use Rattle.std.specs.List.Sorted.{IsNonDecreasingBy};
ghost use Rattle.pq_limits.specs.Limits.{IsOmega, AreWorkers};
ghost use Rattle.pq_array.specs.Cells.{IsLive};
ghost use Rattle.pq_board.specs.Law.{stake, late};
ghost use Rattle.pq_board.specs.Steps.{BelongsTo, HoldAll, unused, lowered_places};
ghost use Rattle.pq_round.specs.Results.{AreResults, AreSameNumbers, all_given_up, removed_gates};

use crate::gate::WorkGate;
use crate::workers::{RoundContext, work_by};
use pq_array::Cells;
use pq_board::{Board, Pass};
use pq_list::OutOfMemory;
use pq_oracle::{Worked, WorkedList};
use pq_rules::Rules;
use std::alloc::Global;
use std::thread::Threads;

/// What a round made: the results in the order of their tickets, the board, and its one pass that is left.
pub struct Round<'r> {
    pub results: WorkedList<'r>,
    pub board: Board,
    pub pass: Pass,
}

/// Works the jobs of a board by so many workers, 1 to 64, for which it was opened. Each claims tickets until none is
/// left. It takes the room of its one segment before its first claim, and before each claim that of the copy of the input,
/// of the result, and of a spare list of gates unless it has one still, which only an improved segment uses up; it calls
/// the gate after the claim and when the result is made. Each place of a job holds a gate, and a job has at most 2 * Omega
/// places. Omega is 2 to 1,024. No more threads are started than there are jobs.
///
/// There is one result for each job. An improved segment keeps its output in the first of its places; the workers lower
/// the others, one for each gate that was removed. The pass that comes back is the only one: it has all tickets, and the board may be closed with it. Where
/// memory is refused, nothing comes back.
pub fn run_round<'r, R: Threads + Sync, G: WorkGate>(
    rt: &R,
    alloc: Global,
    cells: &Cells,
    board: Board,
    pass: Pass,
    rules: &'r Rules,
    omega: u32,
    workers: u32,
    gate: &G,
) -> Result<Round<'r>, OutOfMemory>
    requires omega { IsOmega omega }
    requires workers { AreWorkers workers }
    requires passes { board.plan.passes ≡ workers }
    requires belongs { BelongsTo board pass }
    requires idle { pass.view ≡ unused board.plan workers }
    requires live { All (λ places. All (IsLive cells.now) places) board.plan.jobs }
    requires short { All (λ places. length places ≤ 2 * omega) board.plan.jobs }
    ensures results { IfOk result (λ round. AreResults cells.now board.plan.jobs rules.entry.now round.results.items) }
    ensures board { IfOk result (λ round. round.board ≡ board) }
    ensures belongs { IfOk result (λ round. BelongsTo board round.pass) }
    ensures alone { IfOk result (λ round. stake board.plan round.pass.view ≡ board.plan.passes) }
    ensures late { IfOk result (λ round. 1 ≤ late board.plan round.pass.view.tickets) }
    ensures all { IfOk result (λ round. HoldAll board.plan round.pass.view.tickets) }
    ensures lowered { IfOk result (λ round. AreSameNumbers (lowered_places round.pass.view.lowered) (all_given_up board.plan.jobs round.results.items)) }
    ensures removed { IfOk result (λ round. length (lowered_places round.pass.view.lowered) ≡ removed_gates round.results.items) }
{
    // the rows are sound
    let _rows = rules.count();
    let mut pass = pass;
    let threads = threads_for(board.job_count(), workers);
    let context = RoundContext {
        cells,
        board: &board,
        rules,
        omega,
        share: board.job_count() / u64::from(threads) + 1,
        gate,
    };
    match work_by(rt, alloc, &context, &mut pass, threads) {
        Ok(results) => {
            board.survey(&mut pass);
            let results = in_order(results);
            Ok(Round {
                results,
                board,
                pass,
            })
        }
        Err(refused) => {
            let _closed = board.close(pass);
            Err(refused)
        }
    }
}

/// How many threads are at work: as many as workers, but no more than jobs, and at least one.
fn threads_for(jobs: u64, workers: u32) -> u32
    requires { AreWorkers workers }
    ensures some { 1 ≤ result }
    ensures enough { result ≤ workers }
{
    u64::from(workers).min(jobs).max(1) as u32
}

/// The results in the order of their tickets.
fn in_order(results: Vec<Worked>) -> WorkedList
    ensures permutation { IsPermutation results.entry.items result.items }
    ensures sorted { IsNonDecreasingBy (λ worked. worked.ticket) result.items }
{
    let mut list = results;
    list.sort_unstable_by_key(|worked| worked.ticket());
    WorkedList::of(list)
}
