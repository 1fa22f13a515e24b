ghost use Rattle.std.specs.Prelude.{◌≡◌, ℕ, ◌+◌, ◌-◌, ◌*◌, ◌/◌, ◌<◌, ◌≤◌, [], ◌∷◌, ◌++◌, length, slice_index, slice_index_or, slice_set, All, Contains, IfOk, IfErr};
ghost use Rattle.std.specs.List.{concat};
ghost use Rattle.std.specs.List.Sorted.{IsStrictlyIncreasing};
ghost use Rattle.pq_limits.specs.Limits.{AreWorkers};
ghost use Rattle.pq_array.specs.Counts.{Counts};
ghost use Rattle.pq_board.specs.Sums.{weigh, times};
ghost use Rattle.pq_board.specs.Ways.{way, live_leaves};
ghost use Rattle.pq_board.specs.Changed.{FollowUnder, AreTakenUnder};
ghost use Rattle.pq_board.specs.Law.{IsPlan, leaves, job, nodes_at, stake, late};
ghost use Rattle.std.specs.Mem.Slots.{slots_items, slots_len, IsFull};
ghost use Rattle.pq_board.specs.Steps.{BelongsTo, unused, without_rights, with_ticket, with_lowered, with_both, whole_way, lowered_places, Claimed, HoldAll, AreOnce, AreFirst, early, places_under, without};

use crate::jobs::Jobs;
use crate::pass::Pass;
use crate::plan::{Plan, View};
use crate::rule::{Aim, Claims, Gives, Law, Looks, Lowers, Part, Takes};
use atomic_table::{Seat, Table};
use pq_array::WordList;
use pq_list::crosses_threads;
use std::alloc::Global;
use std::marker::{Brand, Model};

/// The words of a board, which change in single steps.
type Words = Table<(), View, Plan, Law, Global>;

/// The words of a board that was taken apart.
type Last = atomic_table::Closed<(), Global>;

/// What threads share in a round: the jobs, one counter from which tickets are drawn, and the words of the
/// tree of counts. Contracts see which board it is, and what it was opened with. Each call but `open`
/// takes no memory, and none waits.
pub struct Board {
    plan: Plan,
    table: Words,
}

impl Model for Board {
    ghost use Rattle.std.specs.Prelude.{◌≡◌, length};
    ghost use Rattle.pq_board.specs.Law.{IsPlan};
    ghost use Rattle.pq_board.specs.Steps.{Opened};

    ghost Value = { Opened };

    ghost view = { λ b. record { id = b.table.shared.table_id; plan = b.plan } };

    ghost invariant = { λ b. (b.table.shared.key ≡ b.plan) × (b.table.shared.table_id.words ≡ length b.plan.words.items) × (b.table.shared.table_id.slots ≡ 0) × IsPlan b.plan };
}

impl Board {
    /// A board for these jobs over the words of a tree, of which each place of a job is a live leaf. Word 0
    /// becomes 0, and the pass has all the rights. Where memory is refused, both come back unchanged.
    pub fn open(
        alloc: Global,
        mut words: WordList,
        jobs: Jobs,
        passes: u32,
    ) -> Result<(Board, Pass), Unopened>
        requires passes { AreWorkers passes }
        requires tree { Counts words.items (live_leaves words.items) }
        requires live { All (Contains (live_leaves words.items)) (concat jobs) }
        ensures jobs { IfOk result (λ made. made.0.plan.jobs ≡ jobs) }
        ensures words { IfOk result (λ made. made.0.plan.words.items ≡ slice_set words.items 0 0) }
        ensures room { IfOk result (λ made. made.0.plan.words.room ≡ words.room) }
        ensures passes { IfOk result (λ made. made.0.plan.passes ≡ passes) }
        ensures board { IfOk result (λ made. made.1.board ≡ made.0.id) }
        ensures pass { IfOk result (λ made. made.1.view ≡ unused made.0.plan passes) }
        ensures unopened_words { IfErr result (λ back. back.words ≡ words) }
        ensures unopened_jobs { IfErr result (λ back. back.jobs ≡ jobs) }
    {
        let first = words.as_slice()[0];
        words.put(0, 0);
        let _rising = jobs.count();
        let plan = Plan {
            jobs,
            words,
            passes,
        };
        match Table::of_words(alloc, plan.words.as_slice(), &plan) {
            Ok((table, seat)) => Ok((
                Board { plan, table },
                Pass {
                    seat,
                    rights: passes,
                },
            )),
            Err(_) => {
                let Plan {
                    jobs,
                    mut words,
                    passes: _,
                } = plan;
                words.put(0, first);
                Err(Unopened { words, jobs })
            }
        }
    }

    /// How many jobs there are.
    pub fn job_count(&self) -> u64
        ensures { result ≡ length self.now.plan.jobs }
    {
        self.plan.jobs.count()
    }

    /// The places of the job of a ticket. They rise, as those of all jobs do when they are read in order.
    pub fn places(&self, ticket: u64) -> &[u64]
        requires { ticket < length self.now.plan.jobs }
        ensures places { result.now ≡ job self.now.plan ticket }
        ensures rising { IsStrictlyIncreasing result.now }
        ensures all_rising { IsStrictlyIncreasing (concat self.now.plan.jobs) }
    {
        self.plan.jobs.places(ticket)
    }

    /// Draws a ticket, which the pass keeps. None says that the ticket has no job.
    #[tactic(auto, using(crate::proofs::Allowed::plan_words, crate::proofs::Keeping::claimed_stake))]
    pub fn claim(&self, pass: &mut Pass) -> Option<u64>
        requires belongs { BelongsTo self.now pass.old }
        requires right { 1 ≤ pass.old.view.rights }
        ensures board { pass.new.board ≡ pass.old.board }
        ensures claimed { Claimed pass.old.view result pass.new.view }
        ensures staked { stake self.now.plan pass.new.view ≡ stake self.now.plan pass.old.view }
    {
        let ticket = draw(&self.table, &mut pass.seat);
        if ticket < self.job_count() {
            Some(ticket)
        } else {
            pass.rights -= 1;
            None
        }
    }

    /// Gives rights of a pass to a new one, which has drawn and lowered nothing.
    pub fn split(&self, pass: &mut Pass, rights: u32) -> Pass
        requires belongs { BelongsTo self.now pass.old }
        requires one { 1 ≤ rights }
        requires fewer { rights < pass.old.view.rights }
        ensures board { pass.new.board ≡ pass.old.board }
        ensures given { pass.new.view ≡ without_rights rights pass.old.view }
        ensures new_board { result.board ≡ pass.old.board }
        ensures taken { result.view ≡ unused pass.old.view.plan rights }
    {
        let seat = cut::<Brand>(&self.table, &mut pass.seat, rights);
        pass.rights -= rights;
        Pass { seat, rights }
    }

    /// The first pass takes over the rights, tickets and lowerings of the second. No ticket stands among
    /// them twice.
    pub fn join(&self, into: &mut Pass, from: Pass)
        requires belongs { BelongsTo self.now into.old }
        requires too { BelongsTo self.now from }
        ensures board { into.new.board ≡ into.old.board }
        ensures both { into.new.view ≡ with_both into.old.view from.view }
        ensures once { AreOnce into.new.view.tickets }
        ensures staked { stake self.now.plan into.new.view ≡ stake self.now.plan into.old.view + stake self.now.plan from.view }
    {
        let Pass { seat, rights } = from;
        self.table.shared.join_seat::<Takes>(&mut into.seat, seat);
        look(&self.table, &mut into.seat);
        into.rights += rights;
    }

    /// Looks at the counter once: the tickets of the one pass that is left hold each number below the jobs
    /// once, where one of them is late.
    #[tactic(auto, using(crate::proofs::Allowed::plan_words, crate::proofs::Whole::hold_all))]
    pub fn survey(&self, pass: &mut Pass)
        requires belongs { BelongsTo self.now pass.old }
        requires alone { stake self.now.plan pass.old.view ≡ self.now.plan.passes }
        requires late { 1 ≤ late self.now.plan pass.old.view.tickets }
        ensures same { pass.new ≡ pass.old }
        ensures all { HoldAll self.now.plan pass.old.view.tickets }
        ensures first { AreFirst pass.old.view.tickets }
    {
        look(&self.table, &mut pass.seat);
    }

    /// Lowers a place of the job of a ticket that the pass holds: one from each word on the way from the
    /// place's leaf to the root.
    pub fn lower(&self, pass: &mut Pass, ticket: u64, place: u64)
        requires belongs { BelongsTo self.now pass.old }
        requires held { Contains pass.old.view.tickets ticket }
        requires early { ticket < length self.now.plan.jobs }
        requires job { Contains (job self.now.plan ticket) place }
        requires fresh { Contains (lowered_places pass.old.view.lowered) place → ⊥ }
        ensures board { pass.new.board ≡ pass.old.board }
        ensures lowered { pass.new.view ≡ with_lowered (whole_way (leaves self.now.plan) ticket place) pass.old.view }
        ensures places { lowered_places pass.new.view.lowered ≡ lowered_places pass.old.view.lowered ++ place ∷ [] }
    {
        let leaf = self.plan.words.as_slice().len() as u64 / 2 + place;
        climb::<Brand>(&self.table, &mut pass.seat, ticket, place, leaf);
    }

    /// Takes the board apart once one pass is left: the words as they are then, the jobs of the opening,
    /// and a receipt. Word 0 is the number of tickets that were drawn, and each word of the tree is the
    /// opening one less the lowered places below it.
    pub fn close(self, pass: Pass) -> Closed
        requires belongs { BelongsTo self pass }
        requires alone { stake self.plan pass.view ≡ self.plan.passes }
        ensures jobs { result.jobs ≡ self.plan.jobs }
        ensures size { length result.words.items ≡ length self.plan.words.items }
        ensures drawn { slice_index result.words.items 0 ≡ length pass.view.tickets }
        ensures counts { (node : ℕ) → 1 ≤ node →
            slice_index result.words.items node + places_under self.plan node (lowered_places pass.view.lowered) ≡ slice_index self.plan.words.items node }
        ensures tree { Counts result.words.items (without (lowered_places pass.view.lowered) (live_leaves self.plan.words.items)) }
        ensures first { AreFirst pass.view.tickets }
        ensures all { 1 ≤ late self.plan pass.view.tickets → HoldAll self.plan pass.view.tickets }
        ensures receipt { result.receipt ≡ record {
          jobs = length self.plan.jobs;
          claimed = early self.plan pass.view.tickets;
          opened = slice_index self.plan.words.items 1;
          closed = slice_index result.words.items 1;
        } }
    {
        let Board { plan, table } = self;
        let Pass { seat, rights } = pass;
        let Plan {
            jobs,
            mut words,
            passes,
        } = plan;
        let opened = words.as_slice()[1];
        let last = table.close_with(seat);
        put_words(&mut words, &last);
        last.free();
        let receipt = receipt_of(&jobs, &words, opened, u64::from(passes - rights));
        Closed {
            words,
            jobs,
            receipt,
        }
    }
}

/// What comes back where there was no memory for a board: what was handed in, unchanged.
#[derive(Drop)]
pub struct Unopened {
    pub words: WordList,
    pub jobs: Jobs,
}

/// What is left of a board that was closed.
#[derive(Drop)]
pub struct Closed {
    pub words: WordList,
    pub jobs: Jobs,
    pub receipt: Receipt,
}

/// What the closing of a board says of it. Only `close` makes one, and it is neither copied nor cloned.
/// Contracts see its four numbers.
#[derive(Drop)]
pub struct Receipt {
    jobs: u64,
    claimed: u64,
    opened: u64,
    closed: u64,
}

impl Model for Receipt {
    ghost use Rattle.pq_board.specs.Steps.{Numbers};

    ghost Value = { Numbers };

    ghost view = { λ r. record { jobs = r.jobs; claimed = r.claimed; opened = r.opened; closed = r.closed } };
}

impl Receipt {
    /// How many jobs there were.
    pub fn jobs(&self) -> u64
        ensures { result ≡ self.now.jobs }
    {
        self.jobs
    }

    /// How many tickets below the number of jobs were drawn.
    pub fn claimed(&self) -> u64
        ensures { result ≡ self.now.claimed }
    {
        self.claimed
    }

    /// The word of the root at the opening: how many leaves were live.
    pub fn opened(&self) -> u64
        ensures { result ≡ self.now.opened }
    {
        self.opened
    }

    /// The word of the root at the closing.
    pub fn closed(&self) -> u64
        ensures { result ≡ self.now.closed }
    {
        self.closed
    }
}

/// The receipt for these jobs and closing words, where the root was at this word and so many tickets are late.
fn receipt_of(jobs: &Jobs, words: &WordList, opened: u64, late: u64) -> Receipt
    requires long { 2 ≤ length words.now.items }
    requires few { late ≤ slice_index words.now.items 0 }
    ensures { result ≡ record {
      jobs = length jobs.now;
      claimed = slice_index words.now.items 0 - late;
      opened = opened;
      closed = slice_index words.now.items 1;
    } }
{
    Receipt {
        jobs: jobs.count(),
        claimed: words.as_slice()[0] - late,
        opened,
        closed: words.as_slice()[1],
    }
}

/// Lowers the words from a leaf up to the root.
fn climb<A: Aim>(table: &Words, seat: &mut Seat<(), View>, ticket: u64, place: u64, leaf: u64)
    requires ticket { ticket ≡ A.ticket }
    requires place { place ≡ A.place }
    requires here { seat.old.table_id ≡ table.now.shared.table_id }
    requires plan { table.now.shared.key ≡ seat.old.me.0.plan }
    requires opened { IsPlan seat.old.me.0.plan }
    requires words { table.now.shared.table_id.words ≡ length seat.old.me.0.plan.words.items }
    requires held { Contains seat.old.me.0.tickets ticket }
    requires early { ticket < length seat.old.me.0.plan.jobs }
    requires job { Contains (job seat.old.me.0.plan ticket) place }
    requires fresh { nodes_at place seat.old.me.0.lowered ≡ [] }
    requires leaf { leaf ≡ leaves seat.old.me.0.plan + place }
    ensures here { seat.new.table_id ≡ seat.old.table_id }
    ensures none { seat.new.me.1 ≡ seat.old.me.1 }
    ensures lowered { seat.new.me.0 ≡ with_lowered (whole_way (leaves seat.old.me.0.plan) ticket place) seat.old.me.0 }
{
    let mut node = leaf;
    while node > 0 {
        table.shared.fetch_sub::<Lowers<A>>(seat, node as usize, 1);
        node /= 2;
    }
}

/// Makes the words with which a table was opened those that it has when it is closed. Only words that changed are
/// looked at, and those beside them.
fn put_words(words: &mut WordList, last: &Last)
    requires full { IsFull last.now.words }
    requires size { length words.old.items ≡ slots_len last.now.words }
    requires some { 1 < length words.old.items }
    requires pairs { length words.old.items ≡ 2 * (length words.old.items / 2) }
    requires follow { FollowUnder 1 words.old.items (slots_items last.now.words) }
    ensures items { words.new.items ≡ slots_items last.now.words }
{
    take_changed(words, last, 1);
    words.put(0, last.word(0));
}

/// Takes the words of a node of the tree and of those below it from a table that is closed. Where the word of a node is
/// the same, so are all below it.
fn take_changed(words: &mut WordList, last: &Last, node: usize)
    requires full { IsFull last.now.words }
    requires size { length words.old.items ≡ slots_len last.now.words }
    requires pairs { length words.old.items ≡ 2 * (length words.old.items / 2) }
    requires some { 1 ≤ node }
    requires inside { node < length words.old.items }
    requires follow { FollowUnder node words.old.items (slots_items last.now.words) }
    ensures { AreTakenUnder node words.old.items words.new.items (slots_items last.now.words) }
{
    let word = last.word(node);
    if words.as_slice()[node] == word {
        return;
    }
    words.put(node as u64, word);
    if node < words.as_slice().len() / 2 {
        take_changed(words, last, 2 * node);
        take_changed(words, last, 2 * node + 1);
    }
}

/// Draws the number in word 0, which becomes one more.
fn draw(table: &Words, seat: &mut Seat<(), View>) -> u64
    requires here { seat.old.table_id ≡ table.now.shared.table_id }
    requires words { 0 < table.now.shared.table_id.words }
    requires plan { table.now.shared.key ≡ seat.old.me.0.plan }
    requires right { 1 ≤ seat.old.me.0.rights }
    ensures here { seat.new.table_id ≡ seat.old.table_id }
    ensures none { seat.new.me.1 ≡ seat.old.me.1 }
    ensures drawn { seat.new.me.0 ≡ with_ticket result seat.old.me.0 }
    ensures greatest { All (λ before. before < result) seat.old.me.0.tickets }
{
    table.shared.fetch_add::<Claims>(seat, 0, 1)
}

/// Looks at word 0, which tells what a pass knows then.
fn look(table: &Words, seat: &mut Seat<(), View>)
    requires here { seat.old.table_id ≡ table.now.shared.table_id }
    requires words { 0 < table.now.shared.table_id.words }
    requires plan { table.now.shared.key ≡ seat.old.me.0.plan }
    ensures here { seat.new.table_id ≡ seat.old.table_id }
    ensures none { seat.new.me.1 ≡ seat.old.me.1 }
    ensures same { seat.new.me.0 ≡ seat.old.me.0 }
    ensures few { seat.old.me.0.rights ≤ seat.old.me.0.plan.passes }
    ensures once { AreOnce seat.old.me.0.tickets }
    ensures first { stake seat.old.me.0.plan seat.old.me.0 ≡ seat.old.me.0.plan.passes → AreFirst seat.old.me.0.tickets }
{
    table.shared.load::<Looks>(seat, 0);
}

/// Cuts a seat in two, of which the new one has these rights.
fn cut<P: Part>(table: &Words, seat: &mut Seat<(), View>, rights: u32) -> Seat<(), View>
    requires picked { rights ≡ P.rights }
    requires here { seat.old.table_id ≡ table.now.shared.table_id }
    requires words { 0 < table.now.shared.table_id.words }
    requires plan { table.now.shared.key ≡ seat.old.me.0.plan }
    requires one { 1 ≤ rights }
    requires fewer { rights < seat.old.me.0.rights }
    ensures here { seat.new.table_id ≡ seat.old.table_id }
    ensures left { seat.new.me ≡ (without_rights rights seat.old.me.0, seat.old.me.1) }
    ensures there { result.table_id ≡ seat.old.table_id }
    ensures right { result.me ≡ (unused seat.old.me.0.plan rights, []) }
{
    table.shared.split_seat::<Gives<P>>(seat)
}

/// A board crosses threads.
fn board_crosses_threads() {
    crosses_threads::<Board>();
}
