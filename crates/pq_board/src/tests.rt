ghost use Rattle.std.specs.Prelude.{◌≡◌, ℕ, ◌+◌, ◌*◌, ◌<◌, ◌≤◌, [], ◌∷◌, length, vec_len, slice_index, slice_index_or, All, Contains, IfOk, IfSome};
ghost use Rattle.std.specs.List.{concat};
ghost use Rattle.pq_limits.specs.declared.TheConstants.{MAX_GATES};
ghost use Rattle.pq_limits.specs.Limits.{AreWorkers};
ghost use Rattle.pq_array.specs.Counts.{Counts};
ghost use Rattle.pq_board.specs.Ways.{live_leaves};
ghost use Rattle.pq_board.specs.Law.{job, stake};
ghost use Rattle.pq_board.specs.Steps.{BelongsTo, unused, lowered_places};
ghost use Rattle.pq_board.specs.declared.plan.Plan.{Plan};

use super::*;
use pq_array::{GateArray, WordList};
use pq_gate::Gate;
use pq_list::OutOfMemory;
use std::alloc::{AllocError, Global};
use std::process::Abort;
use std::test::Fail;
use std::thread::{Threads, join_mut};

fn job_is(rt: &impl Abort, jobs: &Jobs, job: u64, want: &[u64])
    requires { job < length jobs.now }
{
    assert!(rt; jobs.places(job) == want, "of job {job}");
}

#[test]
fn jobs_keep_their_places_in_order(rt: HostRuntime) -> Result<(), Fail> {
    let mut jobs = Jobs::new(rt.alloc());
    assert_eq!(rt; jobs.count(), 0);
    jobs.add(&[3, 5])?;
    jobs.add(&[])?;
    jobs.add(&[9])?;
    assert_eq!(rt; jobs.count(), 3);
    job_is(&rt, &jobs, 0, &[3, 5]);
    job_is(&rt, &jobs, 1, &[]);
    job_is(&rt, &jobs, 2, &[9]);
    Ok(())
}

/// So many gates.
fn gates(alloc: Global, count: u32) -> Result<Vec<Gate>, OutOfMemory>
    ensures { IfOk result (λ made. vec_len made ≡ count) }
{
    (0..count).map(|wire| Gate::H { wire }).collect(alloc)
}

/// The words of a tree whose first leaves are live, so many of them.
fn words_of(alloc: Global, count: u32) -> Result<WordList, OutOfMemory>
    requires { count ≤ MAX_GATES }
    ensures tree { IfOk result (λ words. Counts words.items (live_leaves words.items)) }
    ensures live { IfOk result (λ words. (place : ℕ) → place < count → Contains (live_leaves words.items) place) }
{
    let (_cells, words) = GateArray::open(alloc, &gates(alloc, count)?)?.split_words();
    Ok(words)
}

/// So many jobs: that of a ticket has the places twice the ticket, and one more.
fn pairs(alloc: Global, count: u64) -> Result<Jobs, OutOfMemory>
    requires { count ≤ 1000 }
    ensures count { IfOk result (λ jobs. length jobs ≡ count) }
    ensures each { IfOk result (λ jobs. (ticket : ℕ) → ticket < count → slice_index_or jobs ticket [] ≡ (2 * ticket) ∷ (2 * ticket + 1) ∷ []) }
    ensures below { IfOk result (λ jobs. All (λ place. place < 2 * count) (concat jobs)) }
{
    let mut jobs = Jobs::with_room(alloc, count, count)?;
    for ticket in 0..count {
        jobs.add(&[2 * ticket, 2 * ticket + 1])?;
    }
    Ok(jobs)
}

/// A board over a tree with so many live leaves, with so many pairs for jobs.
fn board_of(alloc: Global, live: u32, count: u64, passes: u32) -> Result<(Board, Pass), OutOfMemory>
    requires live { live ≤ MAX_GATES }
    requires few { count ≤ 1000 }
    requires inside { 2 * count ≤ live }
    requires passes { AreWorkers passes }
    ensures count { IfOk result (λ made. length made.0.plan.jobs ≡ count) }
    ensures each { IfOk result (λ made. (ticket : ℕ) → ticket < count → job made.0.plan ticket ≡ (2 * ticket) ∷ (2 * ticket + 1) ∷ []) }
    ensures passes { IfOk result (λ made. made.0.plan.passes ≡ passes) }
    ensures belongs { IfOk result (λ made. BelongsTo made.0 made.1) }
    ensures pass { IfOk result (λ made. made.1.view ≡ unused made.0.plan passes) }
{
    let words = words_of(alloc, live)?;
    let jobs = pairs(alloc, count)?;
    match Board::open(alloc, words, jobs, passes) {
        Ok(made) => Ok(made),
        Err(_) => Err(AllocError),
    }
}

/// Claims, and compares the answer.
fn claims(rt: &impl Abort, board: &Board, pass: &mut Pass, want: Option<u64>)
    requires belongs { BelongsTo board.now pass.old }
    requires right { 1 ≤ pass.old.view.rights }
    ensures belongs { BelongsTo board.now pass.new }
    ensures staked { stake board.now.plan pass.new.view ≡ stake board.now.plan pass.old.view }
    ensures lowered { pass.new.view.lowered ≡ pass.old.view.lowered }
    ensures rights { IfSome want (λ ticket. pass.new.view.rights ≡ pass.old.view.rights) }
    ensures held { IfSome want (λ ticket. Contains pass.new.view.tickets ticket) }
{
    let answer = board.claim(pass);
    assert_eq!(rt; answer, want);
}

#[test]
fn two_passes_take_turns(rt: HostRuntime) -> Result<(), Fail> {
    let (board, mut one) = board_of(rt.alloc(), 4, 2, 2)?;
    assert_eq!(rt; one.rights(), 2);
    let mut two = board.split(&mut one, 1);
    claims(&rt, &board, &mut one, Some(0));
    claims(&rt, &board, &mut two, Some(1));
    assert!(rt; board.places(0) == [0u64, 1].as_slice());
    board.lower(&mut one, 0, 1);
    claims(&rt, &board, &mut two, None);
    claims(&rt, &board, &mut one, None);
    board.join(&mut one, two);
    assert_eq!(rt; one.rights(), 0);
    let closed = board.close(one);
    assert!(rt; closed.words.as_slice() == [4u64, 3, 1, 2, 1, 0, 1, 1].as_slice());
    assert_eq!(rt; closed.jobs.count(), 2);
    receipt_is(&rt, &closed.receipt, [2, 2, 4, 3]);
    Ok(())
}

/// Compares the numbers of a receipt: the jobs, the claimed ones, the opening and the closing root.
fn receipt_is(rt: &impl Abort, receipt: &Receipt, want: [u64; 4]) {
    assert_eq!(rt; receipt.jobs(), want[0]);
    assert_eq!(rt; receipt.claimed(), want[1]);
    assert_eq!(rt; receipt.opened(), want[2]);
    assert_eq!(rt; receipt.closed(), want[3]);
}

/// Claims until there is no job, and lowers the second place of each job. Gives the tickets.
fn work(alloc: Global, board: &Board, pass: &mut Pass) -> Result<Vec<u64>, OutOfMemory>
    requires belongs { BelongsTo board.now pass.old }
    requires right { 1 ≤ pass.old.view.rights }
    requires idle { pass.old.view ≡ unused pass.old.view.plan pass.old.view.rights }
    requires few { length board.now.plan.jobs ≤ 1000 }
    requires pairs { (ticket : ℕ) → ticket < length board.now.plan.jobs → job board.now.plan ticket ≡ (2 * ticket) ∷ (2 * ticket + 1) ∷ [] }
    ensures belongs { BelongsTo board.now pass.new }
    ensures staked { stake board.now.plan pass.new.view ≡ stake board.now.plan pass.old.view }
{
    let mut drawn = Vec::new(alloc);
    let mut next = 0;
    while let Some(ticket) = board.claim(pass) {
        board.lower(pass, ticket, 2 * ticket + 1);
        next = ticket + 1;
        drawn.push(ticket)?;
    }
    Ok(drawn)
}

/// Two passes work, each on a thread of its own.
fn work_by_two<R: Threads + Sync>(
    rt: &R,
    alloc: Global,
    board: &Board,
    one: &mut Pass,
    two: &mut Pass,
) -> (Result<Vec<u64>, OutOfMemory>, Result<Vec<u64>, OutOfMemory>)
    requires few { length board.now.plan.jobs ≤ 1000 }
    requires pairs { (ticket : ℕ) → ticket < length board.now.plan.jobs → job board.now.plan ticket ≡ (2 * ticket) ∷ (2 * ticket + 1) ∷ [] }
    requires one_belongs { BelongsTo board.now one.old }
    requires one_right { 1 ≤ one.old.view.rights }
    requires one_idle { one.old.view ≡ unused one.old.view.plan one.old.view.rights }
    requires two_belongs { BelongsTo board.now two.old }
    requires two_right { 1 ≤ two.old.view.rights }
    requires two_idle { two.old.view ≡ unused two.old.view.plan two.old.view.rights }
    ensures one_belongs { BelongsTo board.now one.new }
    ensures one_staked { stake board.now.plan one.new.view ≡ stake board.now.plan one.old.view }
    ensures two_belongs { BelongsTo board.now two.new }
    ensures two_staked { stake board.now.plan two.new.view ≡ stake board.now.plan two.old.view }
{
    join_mut(
        rt,
        &mut || -> Result<Vec<u64>, OutOfMemory>
            requires few { length board.now.plan.jobs ≤ 1000 }
            requires pairs { (ticket : ℕ) → ticket < length board.now.plan.jobs → job board.now.plan ticket ≡ (2 * ticket) ∷ (2 * ticket + 1) ∷ [] }
            requires belongs { BelongsTo board.now one.now }
            requires right { 1 ≤ one.now.view.rights }
            requires idle { one.now.view ≡ unused one.now.view.plan one.now.view.rights }
            ensures belongs { BelongsTo board.entry.now one.exit.now }
            ensures staked { stake board.entry.now.plan one.exit.now.view ≡ stake board.entry.now.plan one.entry.now.view }
        { work(alloc, board, one) },
        &mut || -> Result<Vec<u64>, OutOfMemory>
            requires few { length board.now.plan.jobs ≤ 1000 }
            requires pairs { (ticket : ℕ) → ticket < length board.now.plan.jobs → job board.now.plan ticket ≡ (2 * ticket) ∷ (2 * ticket + 1) ∷ [] }
            requires belongs { BelongsTo board.now two.now }
            requires right { 1 ≤ two.now.view.rights }
            requires idle { two.now.view ≡ unused two.now.view.plan two.now.view.rights }
            ensures belongs { BelongsTo board.entry.now two.exit.now }
            ensures staked { stake board.entry.now.plan two.exit.now.view ≡ stake board.entry.now.plan two.entry.now.view }
        { work(alloc, board, two) },
    )
}

/// The two lists together hold each number below 1,000 once.
fn are_all(rt: &impl Abort, alloc: Global, left: &[u64], right: &[u64]) -> Result<(), OutOfMemory> {
    let mut all = Vec::new(alloc);
    all.extend_from_slice(left)?;
    all.extend_from_slice(right)?;
    all.sort_unstable();
    assert_eq!(rt; all.len(), 1000);
    for (number, ticket) in all.iter().enumerate() {
        assert_eq!(rt; *ticket, number as u64);
    }
    Ok(())
}

#[test]
fn two_threads_share_a_thousand_jobs(rt: HostRuntime) -> Result<(), Fail> {
    let (board, mut one) = board_of(rt.alloc(), 2000, 1000, 2)?;
    let mut two = board.split(&mut one, 1);
    let (left, right) = work_by_two(&rt, rt.alloc(), &board, &mut one, &mut two);
    board.join(&mut one, two);
    let closed = board.close(one);
    let words = closed.words.as_slice();
    assert_eq!(rt; words.len(), 4096);
    assert_eq!(rt; words[0], 1002);
    assert_eq!(rt; words[1], 1000);
    receipt_is(&rt, &closed.receipt, [1000, 1000, 2000, 1000]);
    are_all(&rt, rt.alloc(), &left?, &right?)?;
    Ok(())
}
