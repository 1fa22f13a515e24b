ghost use Rattle.std.specs.Prelude.{◌≡◌, ◌≤◌, All, IfOk, IsTrue, length};
ghost use Rattle.pq_array.specs.Cells.{live};
ghost use Rattle.pq_limits.specs.Limits.{AreWorkers, IsOmega};
ghost use Rattle.pq_method.specs.Round.{Round};
ghost use Rattle.pq_method.specs.Opt.{numbers_of};
ghost use Rattle.pq_loop.specs.Loops.{cells_left};
ghost use Rattle.pq_loop.specs.Receipts.{receipt_of};
ghost use Rattle.pq_loop.specs.Segments.{stands, state_of, AreNumbersOf, AreMoved};

use crate::over_board::work_over_board;
use crate::segments::{Segments, cuts_of, gaps_of, live_or_end, segments_of};
use pq_array::GateArray;
use pq_board::Receipt;
use pq_finger::Fingers;
use pq_limits::MAX_GATES;
use pq_list::OutOfMemory;
use pq_method::Step;
use pq_oracle::Worked;
use pq_round::WorkGate;
use pq_rules::Rules;
use std::alloc::Global;
use std::thread::Threads;

/// One round by so many workers, as `work_round` makes it, after which the array is compacted where twice its live gates
/// are fewer than its cells.
pub fn make_round<R: Threads + Sync, G: WorkGate>(
    rt: &R,
    alloc: Global,
    array: GateArray,
    fingers: &Fingers,
    rules: &Rules,
    omega: u32,
    workers: u32,
    gate: &G,
) -> Result<(GateArray, Fingers, Step, Receipt), OutOfMemory>
    requires omega { IsOmega omega }
    requires workers { AreWorkers workers }
    requires few { length array ≤ MAX_GATES }
    requires stand { All (λ place. IsTrue (stands array place)) fingers.now }
    ensures round { IfOk result (λ made. Round rules.now omega (state_of array fingers.now) (state_of made.0 made.1) made.2) }
    ensures stand { IfOk result (λ made. All (λ place. IsTrue (stands made.0 place)) made.1) }
    ensures cells { IfOk result (λ made. length made.0 ≡ cells_left (length array) (length (live made.0))) }
    ensures receipt { IfOk result (λ made. made.3
        ≡ receipt_of (numbers_of (state_of array fingers.now) (state_of made.0 made.1) made.2)) }
{
    let (array, fingers, step, receipt) = work_round(
        rt, alloc, array, fingers, rules, omega, workers, gate,
    )?;
    let (array, fingers) = compacted(alloc, array, fingers)?;
    Ok((array, fingers, step, receipt))
}

/// The array and the fingers, where the array is compacted if twice its live gates are fewer than its cells. The fingers
/// keep their gaps.
#[tactic(auto, using(crate::proofs::Compacting::compacted_state, crate::proofs::Compacting::compacted_stand, crate::proofs::Compacting::rising_not_falling))]
fn compacted(
    alloc: Global,
    array: GateArray,
    fingers: Fingers,
) -> Result<(GateArray, Fingers), OutOfMemory>
    requires few { length array ≤ MAX_GATES }
    requires stand { All (λ place. IsTrue (stands array place)) fingers }
    ensures state { IfOk result (λ made. state_of made.0 made.1 ≡ state_of array fingers) }
    ensures stand { IfOk result (λ made. All (λ place. IsTrue (stands made.0 place)) made.1) }
    ensures cells { IfOk result (λ made. length made.0 ≡ cells_left (length array) (length (live made.0))) }
{
    if 2 * array.live() < array.cells() {
        let gaps = gaps_of(alloc, &array, &fingers)?;
        let mut array = array;
        array.compact();
        Ok((array, fingers.moved(gaps.as_slice())))
    } else {
        Ok((array, fingers))
    }
}

/// One round by so many workers, with the gate before and after each ticket: the gates of the array become those
/// after the round. Answers the fingers after it, its numbers, and the receipt of its board. Each finger is at the place
/// of a live gate, or at the end.
fn work_round<R: Threads + Sync, G: WorkGate>(
    rt: &R,
    alloc: Global,
    array: GateArray,
    fingers: &Fingers,
    rules: &Rules,
    omega: u32,
    workers: u32,
    gate: &G,
) -> Result<(GateArray, Fingers, Step, Receipt), OutOfMemory>
    requires omega { IsOmega omega }
    requires workers { AreWorkers workers }
    requires few { length array ≤ MAX_GATES }
    requires stand { All (λ place. IsTrue (stands array place)) fingers.now }
    ensures round { IfOk result (λ made. Round rules.now omega (state_of array fingers.now) (state_of made.0 made.1) made.2) }
    ensures stand { IfOk result (λ made. All (λ place. IsTrue (stands made.0 place)) made.1) }
    ensures size { IfOk result (λ made. length made.0 ≡ length array) }
    ensures receipt { IfOk result (λ made. made.3
        ≡ receipt_of (numbers_of (state_of array fingers.now) (state_of made.0 made.1) made.2)) }
{
    // the fingers are in order, and the rows are sound
    let _places = fingers.places();
    let _rows = rules.count();
    let segments = segments_of(alloc, &array, fingers, omega)?;
    let ends = segments.ends(alloc, &array)?;
    let before = array.live();
    let Segments {
        omega: reach,
        fingers: indexes,
        gaps,
        jobs,
    } = segments;
    let (mut cells, words) = array.split_words();
    let (worked, closed) = work_over_board(
        rt, alloc, &cells, words, jobs, rules, omega, workers, gate,
    )?;
    let results = worked.as_slice();
    let cuts = cuts_of(ends, results);
    let settled = fingers.settle(alloc, cuts.as_slice())?;
    let segments = Segments {
        omega: reach,
        fingers: indexes,
        gaps,
        jobs: closed.jobs,
    };
    segments.put(&mut cells, results);
    let array = GateArray::rejoin(cells, closed.words);
    let step = step_of(results, before - array.live());
    let fingers = moved_on(alloc, &array, settled)?;
    Ok((array, fingers, step, closed.receipt))
}

/// The numbers of a round with these results, which removed so many gates.
fn step_of(results: &[Worked], removed: u64) -> Step
    requires { length results.now ≤ MAX_GATES }
    ensures numbers { AreNumbersOf results.now result }
    ensures removed { result.removed ≡ removed }
{
    let mut improved = 0;
    let mut phases = 0;
    for worked in results {
        improved += u64::from(worked.improved());
        phases += u64::from(worked.phase());
    }
    Step {
        selected: results.len() as u64,
        improved,
        removed,
        phase: (phases % 8) as u8,
    }
}

/// The fingers, each moved to the next live place, or to the end.
fn moved_on(alloc: Global, array: &GateArray, fingers: Fingers) -> Result<Fingers, OutOfMemory>
    requires { All (λ place. place ≤ length array.now) fingers }
    ensures { IfOk result (λ moved. AreMoved array.now fingers moved) }
{
    let mut to = Vec::with_capacity(alloc, fingers.places().len())?;
    for place in fingers.places() {
        to.push_reserved(live_or_end(array, *place));
    }
    Ok(fingers.moved(to.as_slice()))
}
