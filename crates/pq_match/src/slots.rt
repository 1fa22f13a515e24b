//! Slots: gates stand in them with free ones between, so that a rewriting moves no gate and changes only what it touches.

ghost use Rattle.std.specs.Prelude.{◌≡◌, ◌≢◌, ℕ, ◌<◌, ◌≤◌, [], None, true, false, length, IfOk, IfNone, IfSome, vec_capacity};
ghost use Rattle.pq_links.specs.Links.{AreLinked};
ghost use Rattle.pq_links.specs.Slots.{gates_in, spread};
ghost use Rattle.pq_match.specs.Redex.{HasNoRedex};
ghost use Rattle.pq_match.specs.Found.{IsFirstFound};
ghost use Rattle.pq_match.specs.Seek.{TriesStart};
ghost use Rattle.pq_match.specs.Waiting.{IsWaiting, IsSameOf};
ghost use Rattle.pq_match.specs.Settled.{AreSettled};
ghost use Rattle.pq_match.specs.Work.{AreTaken, AreWhole, IsFirstRewritten};

use crate::exchange::exchange;
use crate::looked::Looked;
use crate::redex::Redex;
use crate::runs::run_around;
use crate::seek::{rows_ahead, seek_rows};
use crate::spread::{close_up, spread_over};
use crate::waiting::Starts;
use crate::waking::wires_at;
use pq_gate::Gate;
use pq_limits::MAX_SEGMENT;
use pq_links::{Chains, FAR, Links};
use pq_list::OutOfMemory;
use pq_rules::Rules;
use std::alloc::Global;
use std::marker::Model;

/// Slots with the neighbours of the gates in them, and what is known of starts. The room is taken once, for two slots to
/// each gate.
#[derive(Drop)]
pub struct Slots {
    gates: Vec<Gate>,
    chains: Chains,

    // which starts wait to be searched
    starts: Starts,
    asked: u32,
}

impl Model for Slots {
    ghost use Rattle.std.specs.Prelude.{◌≡◌, ◌*◌, ◌≤◌, length, vec_len, vec_capacity};
    ghost use Rattle.pq_limits.specs.declared.TheConstants.{MAX_SEGMENT};
    ghost use Rattle.pq_links.specs.Slots.{gates_in};
    ghost use Rattle.pq_match.specs.Work.{SlotsView, HasRoom, AreWhole};

    ghost Value = { SlotsView };

    ghost view = { λ a. record { gates = a.gates.items; starts = a.starts; room = a.asked } };

    ghost invariant = { λ a. HasRoom (vec_len a.gates) (vec_capacity a.gates) (2 * a.asked) × (a.starts.room ≡ 2 * a.asked) ×
        (a.asked ≤ MAX_SEGMENT) × AreWhole a.gates.items a.chains × (a.chains.room ≡ 2 * a.asked) × (length (gates_in a.gates.items) ≤ a.asked) };
}

impl Slots {
    /// No slot, with room for those of `room` gates.
    pub fn with_room(alloc: Global, room: u32) -> Result<Slots, OutOfMemory>
        requires { room ≤ MAX_SEGMENT }
        ensures gates { IfOk result (λ made. made.gates ≡ []) }
        ensures room { IfOk result (λ made. made.room ≡ room) }
    {
        let gates = Vec::with_capacity(alloc, 2 * room as usize)?;
        let chains = Chains::with_room(alloc, 2 * room)?;
        let starts = Starts::with_room(alloc, 2 * room)?;
        Ok(Slots {
            gates,
            chains,
            starts,
            asked: room,
        })
    }

    /// Becomes the slots of these gates: each has a slot of its own with a free one behind it. Those wait at which a row may
    /// have a redex by what is seen next. Answers false, and becomes nothing, where none waits: the gates have no redex.
    #[tactic(auto, using(crate::proofs::Spreading::spread_slots, crate::proofs::Spreading::spread_few, crate::proofs::Spreading::spread_long, crate::proofs::Spreading::taken_slots, crate::proofs::Passing::passed_settled))]
    pub fn load(&mut self, gates: &[Gate], links: &Links, rules: &Rules) -> bool
        requires linked { AreLinked gates.now links.now }
        requires taken { AreTaken gates.now }
        requires room { length gates.now ≤ self.old.room }
        ensures gates { result ≡ true → self.new.gates ≡ spread gates.now }
        ensures settled { result ≡ true → AreSettled rules.now self.new.gates self.new.starts }
        ensures none { result ≡ false → HasNoRedex rules.now gates.now }
        ensures room { self.new.room ≡ self.old.room }
    {
        let _sound = rules.count();
        self.starts.wait_passing(gates, links.nexts(), rules);
        let Some(_first) = self.starts.least_waiting(2 * gates.len() as u32) else {
            return false;
        };
        spread_over(&mut self.gates, gates);
        self.chains.spread(gates, links, self.gates.as_slice());
        true
    }

    /// Writes the gates in the slots, in order, into a list that has room for them.
    pub fn write(&self, gates: &mut Vec<Gate>)
        requires { self.now.room ≤ vec_capacity gates.old }
        ensures gates { gates.new.items ≡ gates_in self.now.gates }
        ensures few { length gates.new.items ≤ self.now.room }
        ensures capacity { vec_capacity gates.new ≡ vec_capacity gates.old }
    {
        close_up(self.gates.as_slice(), gates);
    }

    /// The first redex of the slots. Only starts that wait are searched, and each that has no redex doesn't wait any
    /// more. It takes no memory.
    pub fn find(&mut self, rules: &Rules) -> Option<Redex>
        requires settled { AreSettled rules.now self.old.gates self.old.starts }
        ensures none { IfNone result (HasNoRedex rules.now (gates_in self.old.gates)) }
        ensures first { IfSome result (λ redex. IsFirstFound rules.now self.old.gates (length self.old.gates) redex) }
        ensures gates { self.new.gates ≡ self.old.gates }
        ensures room { self.new.room ≡ self.old.room }
        ensures settled { AreSettled rules.now self.new.gates self.new.starts }
    {
        find_in(self.gates.as_slice(), &self.chains, &mut self.starts, rules)
    }

    /// Rewrites the first redex. Answers the phase of the row, or None where there are too few free slots around the last
    /// chosen one: then nothing has changed. It takes no memory.
    pub fn rewrite(&mut self, rules: &Rules, redex: &Redex) -> Option<u8>
        requires { IsFirstFound rules.now self.old.gates (length self.old.gates) redex.now }
        ensures none { IfNone result (self.new.gates ≡ self.old.gates) }
        ensures some { IfSome result (λ phase. IsFirstRewritten rules.now (gates_in self.old.gates) (gates_in self.new.gates) phase) }
        ensures settled { AreSettled rules.now self.old.gates self.old.starts → AreSettled rules.now self.new.gates self.new.starts }
        ensures room { self.new.room ≡ self.old.room }
    {
        let slots = self.gates.as_mut_slice();
        rewrite_in(slots, &mut self.chains, &mut self.starts, rules, redex)
    }
}

// The first redex of the slots, start by start of those that wait.
#[tactic(auto, using(crate::proofs::Settling::below_waiting, crate::proofs::Starting::below_first, crate::proofs::Starting::below_all_none, crate::proofs::Working::none_held))]
fn find_in(slots: &[Gate], chains: &Chains, starts: &mut Starts, rules: &Rules) -> Option<Redex>
    requires whole { AreWhole slots.now chains.now }
    requires room { length slots.now ≤ starts.old.room }
    requires settled { AreSettled rules.now slots.now starts.old }
    ensures none { IfNone result (HasNoRedex rules.now (gates_in slots.now)) }
    ensures first { IfSome result (λ redex. IsFirstFound rules.now slots.now (length slots.now) redex) }
    ensures room { starts.new.room ≡ starts.old.room }
    ensures settled { AreSettled rules.now slots.now starts.new }
{
    let _sound = rules.count();
    let count = slots.len() as u32;
    let mut passed = 0;
    'starts: while let Some(start) = starts.least_waiting(count) {
        if let Some(first) = try_start(slots, chains, starts, rules, start) {
            return Some(first);
        }
        passed = start + 1;
    }
    None
}

// the first redex that begins at the start
#[tactic(auto, using(crate::proofs::Settling::settle_still, crate::proofs::Settling::none_still))]
fn try_start(
    slots: &[Gate],
    chains: &Chains,
    starts: &mut Starts,
    rules: &Rules,
    start: u32,
) -> Option<Redex>
    requires whole { AreWhole slots.now chains.now }
    requires inside { start < length slots.now }
    requires room { length slots.now ≤ starts.old.room }
    requires settled { AreSettled rules.now slots.now starts.old }
    ensures finds { TriesStart rules.now slots.now start result }
    ensures asleep { result ≡ None → IsWaiting starts.new start → ⊥ }
    ensures others { (other : ℕ) → other ≢ start → IsSameOf other starts.old starts.new }
    ensures room { starts.new.room ≡ starts.old.room }
    ensures settled { AreSettled rules.now slots.now starts.new }
{
    let _sound = rules.count();
    let mut looked = Looked::at(start);
    let next = chains.nexts();
    let previous = chains.previouses();
    let numbers = rows_ahead(slots, next, rules, start, &mut looked);
    if numbers.is_empty() {
        starts.settle(start);
        return None;
    }
    let Some(first) = seek_rows(slots, next, rules, numbers, start, &mut looked, previous) else {
        starts.settle_failed(start, looked.within(FAR));
        return None;
    };
    Some(first)
}

// Rewrites the first redex, where there are enough free slots around the last chosen one.
fn rewrite_in(
    slots: &mut [Gate],
    chains: &mut Chains,
    starts: &mut Starts,
    rules: &Rules,
    redex: &Redex,
) -> Option<u8>
    requires whole { AreWhole slots.old chains.old }
    requires first { IsFirstFound rules.now slots.old (length slots.old) redex.now }
    requires room { length slots.old ≤ starts.old.room }
    ensures whole { AreWhole slots.new chains.new }
    ensures room { chains.new.room ≡ chains.old.room }
    ensures starts { starts.new.room ≡ starts.old.room }
    ensures none { IfNone result (slots.new ≡ slots.old) }
    ensures some { IfSome result (λ phase. IsFirstRewritten rules.now (gates_in slots.old) (gates_in slots.new) phase) }
    ensures fewer { length (gates_in slots.new) ≤ length (gates_in slots.old) }
    ensures settled { AreSettled rules.now slots.old starts.old → AreSettled rules.now slots.new starts.new }
{
    let _sound = rules.count();
    let row = rules.row(redex.row).unwrap();
    let places = &redex.places[..redex.count as usize];
    let count = row.replacement().len();
    let Some(run) = run_around(slots, places, count) else {
        return None;
    };
    let mask = wires_at(slots, places);
    starts.await_rewriting(slots, chains, places, run.start, count, mask);
    exchange(slots, chains, row, places, run);
    Some(row.phase())
}
