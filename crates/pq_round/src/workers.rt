ghost use Rattle.std.specs.Prelude.{◌≡◌, ◌*◌, ◌++◌, ◌<◌, ◌≤◌, true, false, [], length, cond, Some, None, IfOk, IfSome, All, Contains};
ghost use Rattle.std.specs.List.Sorted.{IsStrictlyIncreasing};
ghost use Rattle.std.specs.Thread.{IsSync};
ghost use Rattle.pq_limits.specs.Limits.{IsOmega};
ghost use Rattle.pq_match.specs.Row.{IsSound};
ghost use Rattle.pq_board.specs.Law.{job, stake, late};
ghost use Rattle.pq_board.specs.Steps.{BelongsTo, unused, lowered_places};
ghost use Rattle.pq_round.specs.Desks.{HasRoomFor, IsSpare};
ghost use Rattle.pq_round.specs.Results.{given_up};
ghost use Rattle.pq_round.specs.Workers.{IsOfItsJob, HasDone, HasLowered, HasDrawnOne};

use crate::desk::Desk;
use crate::gate::WorkGate;
use pq_array::Cells;
use pq_board::{Board, Pass};
use pq_gate::GateList;
use pq_list::OutOfMemory;
use pq_match::Seg;
use pq_oracle::Worked;
use pq_rules::Rules;
use std::alloc::Global;
use std::thread::{Threads, join_mut};

/// What the workers of a round read in common.
#[derive(Drop)]
pub struct RoundContext<'s, 'r, G> {
    pub cells: &'s Cells,
    pub board: &'s Board,
    pub rules: &'r Rules,
    pub omega: u32,

    // for how many results a worker takes room at first
    pub share: u64,
    pub gate: &'s G,
}

/// Works until no job is left, in so many threads, each with a right of the pass. Where memory is refused, the pass
/// has its whole stake still.
#[cycle(workers)]
pub fn work_by<'r, R: Threads + Sync, G: WorkGate>(
    rt: &R,
    alloc: Global,
    context: &RoundContext<'_, 'r, G>,
    pass: &mut Pass,
    threads: u32,
) -> Result<Vec<Worked<'r>>, OutOfMemory>
    requires omega { IsOmega context.now.omega }
    requires sound { All IsSound context.now.rules.now }
    requires short { All (λ places. length places ≤ 2 * context.now.omega) context.now.board.now.plan.jobs }
    requires belongs { BelongsTo context.now.board.now pass.old }
    requires idle { pass.old.view ≡ unused context.now.board.now.plan pass.old.view.rights }
    requires some { 1 ≤ threads }
    requires enough { threads ≤ pass.old.view.rights }
    ensures belongs { BelongsTo context.now.board.now pass.new }
    ensures staked { stake context.now.board.now.plan pass.new.view ≡ stake context.now.board.now.plan pass.old.view }
    ensures done { IfOk result (λ list. HasDone context.now.cells.now context.now.rules.now pass.new.view list.items) }
    ensures late { IfOk result (λ list. 1 ≤ late context.now.board.now.plan pass.new.view.tickets) }
{
    if threads < 2 {
        return work_alone(alloc, context, pass);
    }
    let far_threads = threads / 2;
    let mut far_pass = context.board.split(pass, far_threads);
    let (near, far) = work_both(
        rt,
        alloc,
        context,
        pass,
        threads - far_threads,
        &mut far_pass,
        far_threads,
    );
    context.board.join(pass, far_pass);
    joined(near?, far?)
}

/// Works with two passes side by side.
#[cycle(workers)]
fn work_both<'r, R: Threads + Sync, G: WorkGate>(
    rt: &R,
    alloc: Global,
    context: &RoundContext<'_, 'r, G>,
    near: &mut Pass,
    near_threads: u32,
    far: &mut Pass,
    far_threads: u32,
) -> (
    Result<Vec<Worked<'r>>, OutOfMemory>,
    Result<Vec<Worked<'r>>, OutOfMemory>,
)
    requires omega { IsOmega context.now.omega }
    requires sound { All IsSound context.now.rules.now }
    requires short { All (λ places. length places ≤ 2 * context.now.omega) context.now.board.now.plan.jobs }
    requires near_belongs { BelongsTo context.now.board.now near.old }
    requires near_idle { near.old.view ≡ unused context.now.board.now.plan near.old.view.rights }
    requires near_some { 1 ≤ near_threads }
    requires near_enough { near_threads ≤ near.old.view.rights }
    requires far_belongs { BelongsTo context.now.board.now far.old }
    requires far_idle { far.old.view ≡ unused context.now.board.now.plan far.old.view.rights }
    requires far_some { 1 ≤ far_threads }
    requires far_enough { far_threads ≤ far.old.view.rights }
    ensures near_belongs { BelongsTo context.now.board.now near.new }
    ensures near_staked { stake context.now.board.now.plan near.new.view ≡ stake context.now.board.now.plan near.old.view }
    ensures near_done { IfOk result.0 (λ list. HasDone context.now.cells.now context.now.rules.now near.new.view list.items) }
    ensures near_late { IfOk result.0 (λ list. 1 ≤ late context.now.board.now.plan near.new.view.tickets) }
    ensures far_belongs { BelongsTo context.now.board.now far.new }
    ensures far_staked { stake context.now.board.now.plan far.new.view ≡ stake context.now.board.now.plan far.old.view }
    ensures far_done { IfOk result.1 (λ list. HasDone context.now.cells.now context.now.rules.now far.new.view list.items) }
    ensures far_late { IfOk result.1 (λ list. 1 ≤ late context.now.board.now.plan far.new.view.tickets) }
{
    let mut work_near = ||
        requires shared { IsSync R.row × IsSync G.row }
        requires omega { IsOmega context.now.omega }
        requires sound { All IsSound context.now.rules.now }
        requires short { All (λ places. length places ≤ 2 * context.now.omega) context.now.board.now.plan.jobs }
        requires belongs { BelongsTo context.now.board.now near.now }
        requires idle { near.now.view ≡ unused context.now.board.now.plan near.now.view.rights }
        requires some { 1 ≤ near_threads }
        requires enough { near_threads ≤ near.now.view.rights }
        ensures belongs { BelongsTo context.entry.now.board.now near.exit.now }
        ensures staked { stake context.entry.now.board.now.plan near.exit.now.view ≡ stake context.entry.now.board.now.plan near.entry.now.view }
        ensures done { IfOk result (λ list. HasDone context.entry.now.cells.now context.entry.now.rules.now near.exit.now.view list.items) }
        ensures late { IfOk result (λ list. 1 ≤ late context.entry.now.board.now.plan near.exit.now.view.tickets) }
    { work_by(rt, alloc, context, near, near_threads) };
    let mut work_far = ||
        requires shared { IsSync R.row × IsSync G.row }
        requires omega { IsOmega context.now.omega }
        requires sound { All IsSound context.now.rules.now }
        requires short { All (λ places. length places ≤ 2 * context.now.omega) context.now.board.now.plan.jobs }
        requires belongs { BelongsTo context.now.board.now far.now }
        requires idle { far.now.view ≡ unused context.now.board.now.plan far.now.view.rights }
        requires some { 1 ≤ far_threads }
        requires enough { far_threads ≤ far.now.view.rights }
        ensures belongs { BelongsTo context.entry.now.board.now far.exit.now }
        ensures staked { stake context.entry.now.board.now.plan far.exit.now.view ≡ stake context.entry.now.board.now.plan far.entry.now.view }
        ensures done { IfOk result (λ list. HasDone context.entry.now.cells.now context.entry.now.rules.now far.exit.now.view list.items) }
        ensures late { IfOk result (λ list. 1 ≤ late context.entry.now.board.now.plan far.exit.now.view.tickets) }
    { work_by(rt, alloc, context, far, far_threads) };
    join_mut(rt, &mut work_near, &mut work_far)
}

/// Claims and works until no job is left, in this thread.
fn work_alone<'r, G: WorkGate>(
    alloc: Global,
    context: &RoundContext<'_, 'r, G>,
    pass: &mut Pass,
) -> Result<Vec<Worked<'r>>, OutOfMemory>
    requires omega { IsOmega context.now.omega }
    requires sound { All IsSound context.now.rules.now }
    requires short { All (λ places. length places ≤ 2 * context.now.omega) context.now.board.now.plan.jobs }
    requires belongs { BelongsTo context.now.board.now pass.old }
    requires idle { pass.old.view ≡ unused context.now.board.now.plan pass.old.view.rights }
    requires right { 1 ≤ pass.old.view.rights }
    ensures belongs { BelongsTo context.now.board.now pass.new }
    ensures staked { stake context.now.board.now.plan pass.new.view ≡ stake context.now.board.now.plan pass.old.view }
    ensures done { IfOk result (λ list. HasDone context.now.cells.now context.now.rules.now pass.new.view list.items) }
    ensures late { IfOk result (λ list. 1 ≤ late context.now.board.now.plan pass.new.view.tickets) }
{
    let mut seg = Seg::reserve(alloc, 2 * context.omega)?;
    let mut spare = None;
    let mut results = Vec::with_capacity(alloc, context.share as usize)?;
    'jobs: while work_next(alloc, context, pass, &mut seg, &mut spare, &mut results)? {}
    Ok(results)
}

/// Claims the next job and works it in the worker's segment, and says whether there was one. The room is taken before the
/// claim: that of the copy of the input, of a spare list unless the worker has one still, and of the result.
fn work_next<'r, G: WorkGate>(
    alloc: Global,
    context: &RoundContext<'_, 'r, G>,
    pass: &mut Pass,
    seg: &mut Seg,
    spare: &mut Option<GateList>,
    results: &mut Vec<Worked<'r>>,
) -> Result<bool, OutOfMemory>
    requires omega { IsOmega context.now.omega }
    requires empty { seg.old.items ≡ [] }
    requires room { seg.old.room ≡ 2 * context.now.omega }
    requires spare { IfSome spare.old (IsSpare (2 * context.now.omega)) }
    requires sound { All IsSound context.now.rules.now }
    requires short { All (λ places. length places ≤ 2 * context.now.omega) context.now.board.now.plan.jobs }
    requires belongs { BelongsTo context.now.board.now pass.old }
    requires right { 1 ≤ pass.old.view.rights }
    requires done { HasDone context.now.cells.now context.now.rules.now pass.old.view results.old.items }
    ensures belongs { BelongsTo context.now.board.now pass.new }
    ensures staked { stake context.now.board.now.plan pass.new.view ≡ stake context.now.board.now.plan pass.old.view }
    ensures done { IfOk result (λ more. HasDone context.now.cells.now context.now.rules.now pass.new.view results.new.items) }
    ensures late { IfOk result (λ more. more ≡ false → 1 ≤ late context.now.board.now.plan pass.new.view.tickets) }
    ensures one { IfOk result (λ more. more ≡ true → HasDrawnOne pass.old.view pass.new.view) }
    ensures emptied { seg.new.items ≡ [] }
    ensures kept { seg.new.room ≡ seg.old.room }
    ensures spare { IfSome spare.new (IsSpare (2 * context.now.omega)) }
{
    let desk = Desk::reserve(alloc, 2 * context.omega, spare.take())?;
    results.reserve(1)?;
    match context.board.claim(pass) {
        Some(ticket) => {
            let places = context.board.places(ticket);
            let (worked, left) = work(context, pass, seg, ticket, places, desk);
            *spare = left;
            results.push_reserved(worked);
            Ok(true)
        }
        None => Ok(false),
    }
}

/// Works the job of a ticket, with the gate before and after it, and lowers the places that its segment gives up. It
/// takes no memory. The desk's spare list is left where nothing was improved.
fn work<'r, G: WorkGate>(
    context: &RoundContext<'_, 'r, G>,
    pass: &mut Pass,
    seg: &mut Seg,
    ticket: u64,
    places: &[u64],
    desk: Desk,
) -> (Worked<'r>, Option<GateList>)
    requires sound { All IsSound context.now.rules.now }
    requires belongs { BelongsTo context.now.board.now pass.old }
    requires early { ticket < length context.now.board.now.plan.jobs }
    requires held { Contains pass.old.view.tickets ticket }
    requires fresh { All (λ place. Contains (lowered_places pass.old.view.lowered) place → ⊥) (job context.now.board.now.plan ticket) }
    requires places { places.now ≡ job context.now.board.now.plan ticket }
    requires empty { seg.old.items ≡ [] }
    requires fits { length places.now ≤ seg.old.room }
    requires room { HasRoomFor seg.old.room desk }
    ensures board { pass.new.board ≡ pass.old.board }
    ensures lowered { HasLowered pass.old.view pass.new.view (given_up context.now.board.now.plan.jobs result.0) }
    ensures ticket { result.0.ticket ≡ ticket }
    ensures result { IsOfItsJob context.now.cells.now context.now.board.now.plan.jobs context.now.rules.now result.0 }
    ensures left { result.1 ≡ cond result.0.answer.improved None (Some desk.spare) }
    ensures emptied { seg.new.items ≡ [] }
    ensures kept { seg.new.room ≡ seg.old.room }
{
    context.gate.before(ticket);
    let (worked, left) = desk.work(seg, context.cells, places, context.rules, ticket);
    give_up(context.board, pass, &worked);
    context.gate.after(ticket);
    (worked, left)
}

/// Lowers the places that a worked segment gives up: where it was improved, those behind its output.
fn give_up(board: &Board, pass: &mut Pass, worked: &Worked)
    requires belongs { BelongsTo board.now pass.old }
    requires early { worked.now.ticket < length board.now.plan.jobs }
    requires held { Contains pass.old.view.tickets worked.now.ticket }
    requires fresh { All (λ place. Contains (lowered_places pass.old.view.lowered) place → ⊥) (job board.now.plan worked.now.ticket) }
    requires shorter { length worked.now.answer.gates ≤ length (job board.now.plan worked.now.ticket) }
    ensures board { pass.new.board ≡ pass.old.board }
    ensures lowered { HasLowered pass.old.view pass.new.view (given_up board.now.plan.jobs worked.now) }
{
    if worked.improved() {
        let ticket = worked.ticket();
        let places = board.places(ticket);
        lower_each(board, pass, ticket, &places[worked.output().len()..]);
    }
}

/// Lowers these places of a job.
fn lower_each(board: &Board, pass: &mut Pass, ticket: u64, places: &[u64])
    requires belongs { BelongsTo board.now pass.old }
    requires early { ticket < length board.now.plan.jobs }
    requires held { Contains pass.old.view.tickets ticket }
    requires job { All (Contains (job board.now.plan ticket)) places.now }
    requires rising { IsStrictlyIncreasing places.now }
    requires fresh { All (λ place. Contains (lowered_places pass.old.view.lowered) place → ⊥) places.now }
    ensures board { pass.new.board ≡ pass.old.board }
    ensures lowered { HasLowered pass.old.view pass.new.view places.now }
{
    for place in places {
        board.lower(pass, ticket, *place);
    }
}

/// The results of two parts of the workers as one list.
fn joined<'r>(near: Vec<Worked<'r>>, far: Vec<Worked<'r>>) -> Result<Vec<Worked<'r>>, OutOfMemory>
    ensures { IfOk result (λ list. list.items ≡ near.entry.items ++ far.entry.items) }
{
    let mut list = near;
    let mut more = far;
    list.append(&mut more)?;
    Ok(list)
}
