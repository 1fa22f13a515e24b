ghost use Rattle.std.specs.Prelude.{◌≡◌, ◌*◌, ◌≤◌, All, Contains, IfOk, length, slice_index};
ghost use Rattle.pq_limits.specs.Limits.{AreWorkers, IsOmega};
ghost use Rattle.pq_array.specs.Cells.{live, live_places, IsLive};
ghost use Rattle.pq_array.specs.Counts.{Counts};
ghost use Rattle.pq_array.specs.Tree.{IsTreeOf};
ghost use Rattle.std.specs.List.{concat};
ghost use Rattle.pq_board.specs.Ways.{live_leaves};
ghost use Rattle.pq_board.specs.Steps.{BelongsTo, unused, without};
ghost use Rattle.pq_round.specs.Results.{AreResults, all_given_up};

use pq_array::{Cells, WordList};
use pq_board::{Board, Closed, Jobs, Pass};
use pq_list::OutOfMemory;
use pq_oracle::WorkedList;
use pq_round::{Round, WorkGate, run_round};
use pq_rules::Rules;
use std::alloc::{AllocError, Global};
use std::thread::Threads;

/// Opens a board over the words of the tree of these cells, has its jobs worked, and closes it. Answers the results, and
/// what is left of the board: its words count the live cells without the places that the improved segments give up.
pub fn work_over_board<'r, R: Threads + Sync, G: WorkGate>(
    rt: &R,
    alloc: Global,
    cells: &Cells,
    words: WordList,
    jobs: Jobs,
    rules: &'r Rules,
    omega: u32,
    workers: u32,
    gate: &G,
) -> Result<(WorkedList<'r>, Closed), OutOfMemory>
    requires omega { IsOmega omega }
    requires workers { AreWorkers workers }
    requires tree { IsTreeOf cells.now words.items }
    requires unused { slice_index words.items 0 ≡ 0 }
    requires live { All (λ places. All (IsLive cells.now) places) jobs }
    requires short { All (λ places. length places ≤ 2 * omega) jobs }
    ensures results { IfOk result (λ made. AreResults cells.now jobs rules.entry.now made.0.items) }
    ensures jobs { IfOk result (λ made. made.1.jobs ≡ jobs) }
    ensures size { IfOk result (λ made. length made.1.words.items ≡ length words.items) }
    ensures counts { IfOk result (λ made. Counts made.1.words.items (without (all_given_up jobs made.0.items) (live_places cells.now))) }
    ensures receipt { IfOk result (λ made. made.1.receipt ≡ record {
      jobs = length jobs;
      claimed = length jobs;
      opened = slice_index words.items 1;
      closed = slice_index made.1.words.items 1;
    }) }
{
    let (board, pass) = opened(alloc, words, jobs, workers)?;
    let Round {
        results,
        board,
        pass,
    } = run_round(rt, alloc, cells, board, pass, rules, omega, workers, gate)?;
    Ok((results, board.close(pass)))
}

/// A board, or that there is no memory for it.
fn opened(
    alloc: Global,
    words: WordList,
    jobs: Jobs,
    workers: u32,
) -> Result<(Board, Pass), OutOfMemory>
    requires workers { AreWorkers workers }
    requires tree { Counts words.items (live_leaves words.items) }
    requires unused { slice_index words.items 0 ≡ 0 }
    requires live { All (Contains (live_leaves words.items)) (concat jobs) }
    ensures jobs { IfOk result (λ made. made.0.plan.jobs ≡ jobs) }
    ensures words { IfOk result (λ made. made.0.plan.words.items ≡ words.items) }
    ensures passes { IfOk result (λ made. made.0.plan.passes ≡ workers) }
    ensures board { IfOk result (λ made. BelongsTo made.0 made.1) }
    ensures pass { IfOk result (λ made. made.1.view ≡ unused made.0.plan workers) }
{
    match Board::open(alloc, words, jobs, workers) {
        Ok(made) => Ok(made),
        Err(_) => Err(AllocError),
    }
}
