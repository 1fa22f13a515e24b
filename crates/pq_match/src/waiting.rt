//! Which starts of a search wait, and what is noted of those that failed.

ghost use Rattle.std.specs.Prelude.{◌≡◌, ◌≢◌, ℕ, ◌+◌, ◌*◌, ◌/◌, ◌<◌, ◌≤◌, ◌⊎◌, ◌↔◌, true, false, bit_and, length, slice_index, IfOk, IfSome, IfNone};
ghost use Rattle.pq_match.specs.Seek.{AreLinkedSlots};
ghost use Rattle.pq_match.specs.Settled.{AreSifted};
ghost use Rattle.pq_match.specs.Work.{AreTaken};
ghost use Rattle.pq_match.specs.Waiting.{HasNumber, IsWaiting, IsNotedFailed, noted, IsSameOf, WaitMore, AreWoken, AreWokenIn, AreWithin, NoneBefore, AreMet};

use crate::filter::fill_passing;
use crate::looked::Looked;
use crate::words::{insert, least_from, lowest_bit, remove, with_if, without};
use pq_gate::Gate;
use pq_links::{FAR, Sides};
use pq_list::OutOfMemory;
use pq_rules::Rules;
use std::alloc::Global;
use std::marker::Model;

/// Starts, of which each waits to be searched or doesn't. Of those that failed it is noted what their search looked at.
/// Memory is taken once.
#[derive(Drop)]
pub struct Starts {
    waiting: Vec<u64>,
    failed: Vec<u64>,
    reach: Vec<u16>,
    masks: Vec<u64>,

    // of each word: none of its starts that failed looked farther, or at other wires
    looked: Vec<Looked>,

    // none waits in the words before this one
    lowest: u32,
    asked: u32,
}

impl Model for Starts {
    ghost use Rattle.pq_match.specs.Waiting.{StartsView, HaveStartsRoom};

    ghost Value = { StartsView };

    ghost view = { λ a. record { waiting = a.waiting.items; failed = a.failed.items; reach = a.reach.items; masks = a.masks.items; room = a.asked } };

    ghost invariant = { λ a. HaveStartsRoom (record { waiting = a.waiting.items; failed = a.failed.items; reach = a.reach.items; masks = a.masks.items; room = a.asked }) a.looked.items a.lowest };
}

impl Starts {
    /// Room for so many starts, of which none waits. It is taken here, once.
    pub fn with_room(alloc: Global, room: u32) -> Result<Starts, OutOfMemory>
        requires { room < FAR }
        ensures { IfOk result (λ made. made.room ≡ room) }
    {
        let words = (room as usize + 63) / 64;
        let waiting = Vec::from_elem(alloc, 0, words)?;
        let failed = Vec::from_elem(alloc, 0, words)?;
        let reach = Vec::from_elem(alloc, 0, 64 * words)?;
        let masks = Vec::from_elem(alloc, 0, 64 * words)?;
        let looked = Vec::from_elem(alloc, Looked::nowhere(), words)?;
        Ok(Starts {
            waiting,
            failed,
            reach,
            masks,
            looked,
            lowest: 0,
            asked: room,
        })
    }

    /// Of the starts in slots where each gate has a free one behind it, at least those wait at which a row may have a redex
    /// by what is seen next. Nothing is noted of any start then, so that the room of the reaches is free for what is seen of the gates.
    #[tactic(auto, using(crate::proofs::WakingWords::within_none))]
    pub fn wait_passing(&mut self, gates: &[Gate], next: &[Sides], rules: &Rules)
        requires linked { AreLinkedSlots gates.now next.now }
        requires taken { AreTaken gates.now }
        requires room { 2 * length gates.now ≤ self.old.room }
        ensures waits { AreSifted rules.now gates.now self.new.waiting }
        ensures room { self.new.room ≡ self.old.room }
    {
        self.forget_all();
        self.lowest = 0;
        fill_passing(
            self.waiting.as_mut_slice(),
            self.reach.as_mut_slice(),
            gates,
            next,
            rules,
        );
    }

    // it isn't known of any start that it failed
    fn forget_all(&mut self)
        ensures none { (start : ℕ) → IsNotedFailed self.new start → ⊥ }
        ensures room { self.new.room ≡ self.old.room }
    {
        self.failed.as_mut_slice().fill(0);
        self.looked.as_mut_slice().fill(Looked::nowhere());
    }

    /// The least start that waits, None where none below the end does.
    pub fn least_waiting(&mut self, end: u32) -> Option<u32>
        requires { end ≤ self.old.room }
        ensures some { IfSome result (λ start. IsWaiting self.new start) }
        ensures inside { IfSome result (λ start. start < end) }
        ensures least { IfSome result (λ start. (before : ℕ) → before < start → IsWaiting self.new before → ⊥) }
        ensures none { IfNone result ((start : ℕ) → start < end → IsWaiting self.new start → ⊥) }
        ensures same { self.new ≡ self.old }
    {
        let start = least_from(self.waiting.as_slice(), self.lowest as usize);
        self.lowest = (start / 64) as u32;
        if start < end as usize {
            Some(start as u32)
        } else {
            None
        }
    }

    /// The start waits.
    pub fn wake(&mut self, start: u32)
        requires { start < self.old.room }
        ensures waits { IsWaiting self.new start }
        ensures more { WaitMore self.old self.new }
    {
        self.lowest = self.lowest.min(start / 64);
        insert(self.waiting.as_mut_slice(), start as usize);
    }

    /// The start doesn't wait.
    pub fn settle(&mut self, start: u32)
        requires { start < self.old.room }
        ensures settled { IsWaiting self.new start → ⊥ }
        ensures others { (other : ℕ) → other ≢ start → IsSameOf other self.old self.new }
        ensures room { self.new.room ≡ self.old.room }
    {
        remove(self.waiting.as_mut_slice(), start as usize);
        self.forget_failed(start);
    }

    // it isn't known that the start failed
    #[tactic(auto, using(crate::proofs::WakingWords::within_fewer))]
    fn forget_failed(&mut self, start: u32)
        requires { start < self.old.room }
        ensures others { (other : ℕ) → other ≢ start → IsNotedFailed self.new other ↔ IsNotedFailed self.old other }
        ensures waiting { self.new.waiting ≡ self.old.waiting }
        ensures reach { self.new.reach ≡ self.old.reach }
        ensures masks { self.new.masks ≡ self.old.masks }
        ensures room { self.new.room ≡ self.old.room }
    {
        remove(self.failed.as_mut_slice(), start as usize);
    }

    /// The start doesn't wait, and its search failed, which looked at this.
    pub fn settle_failed(&mut self, start: u32, looked: Looked)
        requires start { start < self.old.room }
        requires fits { looked.reach ≤ FAR }
        ensures settled { IsWaiting self.new start → ⊥ }
        ensures failed { IsNotedFailed self.new start }
        ensures noted { noted self.new start ≡ looked }
        ensures others { (other : ℕ) → other ≢ start → IsSameOf other self.old self.new }
        ensures room { self.new.room ≡ self.old.room }
    {
        self.settle(start);
        self.note_failed(start, looked);
    }

    // the start failed, and its search looked at this
    fn note_failed(&mut self, start: u32, looked: Looked)
        requires start { start < self.old.room }
        requires fits { looked.reach ≤ FAR }
        ensures failed { IsNotedFailed self.new start }
        ensures noted { noted self.new start ≡ looked }
        ensures others { (other : ℕ) → other ≢ start → IsNotedFailed self.new other ↔ IsNotedFailed self.old other }
        ensures reach { (other : ℕ) → other ≢ start → slice_index self.new.reach other ≡ slice_index self.old.reach other }
        ensures masks { (other : ℕ) → other ≢ start → slice_index self.new.masks other ≡ slice_index self.old.masks other }
        ensures waiting { self.new.waiting ≡ self.old.waiting }
        ensures room { self.new.room ≡ self.old.room }
    {
        note(
            self.failed.as_mut_slice(),
            self.reach.as_mut_slice(),
            self.masks.as_mut_slice(),
            self.looked.as_mut_slice(),
            start as usize,
            looked,
        );
    }

    /// Each start before the end that failed waits if its search looked behind the first one of some places, and at one
    /// of some wires.
    pub fn wake_failed(&mut self, first: u32, end: u32, wires: u64)
        requires { end ≤ self.old.room }
        ensures wait { AreWoken self.new.waiting self.new.failed self.new.reach self.new.masks first end wires }
        ensures more { WaitMore self.old self.new }
    {
        self.lowest = wake_words(
            self.waiting.as_mut_slice(),
            self.failed.as_slice(),
            self.reach.as_slice(),
            self.masks.as_slice(),
            self.looked.as_slice(),
            first,
            end,
            wires,
            self.lowest,
        );
    }
}

// The start failed, and its search looked at this.
#[tactic(auto, using(crate::proofs::WakingWords::within_noted))]
fn note(
    failed: &mut [u64],
    reach: &mut [u16],
    masks: &mut [u64],
    words: &mut [Looked],
    start: usize,
    looked: Looked,
)
    requires fits { looked.reach ≤ FAR }
    requires failed { start / 64 < length failed.old }
    requires reach { start < length reach.old }
    requires masks { start < length masks.old }
    requires words { start / 64 < length words.old }
    requires within { AreWithin failed.old reach.old masks.old words.old }
    ensures failed { HasNumber failed.new start }
    ensures reach { slice_index reach.new start ≡ looked.reach }
    ensures masks { slice_index masks.new start ≡ looked.mask }
    ensures other_failed { (other : ℕ) → other ≢ start → HasNumber failed.new other ↔ HasNumber failed.old other }
    ensures other_reach { (other : ℕ) → other ≢ start → slice_index reach.new other ≡ slice_index reach.old other }
    ensures other_masks { (other : ℕ) → other ≢ start → slice_index masks.new other ≡ slice_index masks.old other }
    ensures within { AreWithin failed.new reach.new masks.new words.new }
{
    insert(failed, start);
    reach[start] = looked.reach as u16;
    masks[start] = looked.mask;
    words[start / 64] = words[start / 64].and(looked);
}

// Word by word. Answers a word before which none waits.
#[tactic(auto, using(crate::proofs::WakingWords::woken_none, crate::proofs::WakingWords::woken_next, crate::proofs::WakingWords::woken_all))]
fn wake_words(
    waiting: &mut [u64],
    failed: &[u64],
    reach: &[u16],
    masks: &[u64],
    words: &[Looked],
    first: u32,
    end: u32,
    wires: u64,
    before: u32,
) -> u32
    requires few { length waiting.old ≤ 1024 }
    requires failed { length failed.now ≡ length waiting.old }
    requires reach { length reach.now ≡ 64 * length waiting.old }
    requires masks { length masks.now ≡ 64 * length waiting.old }
    requires words { length words.now ≡ length waiting.old }
    requires within { AreWithin failed.now reach.now masks.now words.now }
    requires end { end ≤ 64 * length waiting.old }
    requires none { NoneBefore waiting.old before }
    ensures wait { AreWoken waiting.new failed.now reach.now masks.now first end wires }
    ensures kept { (start : ℕ) → HasNumber waiting.old start → HasNumber waiting.new start }
    ensures none { NoneBefore waiting.new result }
{
    let count = waiting.len().min(end as usize / 64 + 1);
    let mut lowest = before;
    for index in 0..count {
        lowest = wake_word(
            waiting, failed, reach, masks, words, index, first, wires, lowest,
        );
    }
    lowest
}

// one word, which is passed over where none of its starts looked behind the first place, or none at the wires
#[tactic(auto, using(crate::proofs::WakingWords::word_unseen, crate::proofs::WakingWords::word_still, crate::proofs::WakingWords::word_woken, crate::proofs::WakingWords::set_keeps, crate::proofs::WakingWords::none_before_set))]
fn wake_word(
    waiting: &mut [u64],
    failed: &[u64],
    reach: &[u16],
    masks: &[u64],
    words: &[Looked],
    index: usize,
    first: u32,
    wires: u64,
    before: u32,
) -> u32
    requires few { length waiting.old ≤ 1024 }
    requires index { index < length waiting.old }
    requires failed { length failed.now ≡ length waiting.old }
    requires reach { length reach.now ≡ 64 * length waiting.old }
    requires masks { length masks.now ≡ 64 * length waiting.old }
    requires words { length words.now ≡ length waiting.old }
    requires within { AreWithin failed.now reach.now masks.now words.now }
    requires none { NoneBefore waiting.old before }
    ensures wait { AreWokenIn waiting.new failed.now reach.now masks.now index first wires }
    ensures kept { (start : ℕ) → HasNumber waiting.old start → HasNumber waiting.new start }
    ensures none { NoneBefore waiting.new result }
{
    if is_unseen(words[index], first, wires) {
        return before;
    }
    let woken = waiting[index];
    let found = meeting(
        failed[index] & !woken,
        index * 64,
        reach,
        masks,
        first,
        wires,
    );
    if found == 0 {
        return before;
    }
    waiting[index] = woken | found;
    before.min(index as u32)
}

// those of a word's numbers that looked behind the first place and at one of the wires; the word's first number is this one
#[tactic(auto, using(crate::proofs::WakingWords::none_met, crate::proofs::WakingWords::met_more, crate::proofs::WakingWords::all_met))]
fn meeting(left: u64, base: usize, reach: &[u16], masks: &[u64], first: u32, wires: u64) -> u64
    requires few { base ≤ 65536 }
    requires reach { base + 64 ≤ length reach.now }
    requires masks { base + 64 ≤ length masks.now }
    ensures { AreMet left base reach.now masks.now first wires result }
{
    let mut rest = left;
    let mut found = 0;
    'bits: while rest != 0 {
        let bit = lowest_bit(rest);
        let start = base + bit as usize;
        let met = is_met(reach[start] as u32, masks[start], first, wires);
        rest = without(rest, bit);
        found = with_if(met, found, bit);
    }
    found
}

// whether what looked at no more than this didn't look behind the first place, or at none of the wires
fn is_unseen(looked: Looked, first: u32, wires: u64) -> bool
    ensures { result ≡ true → (looked.reach ≤ first) ⊎ (bit_and looked.mask wires ≡ 0) }
{
    (looked.reach <= first) | (looked.mask & wires == 0)
}

// whether a search looked behind the first place and at one of the wires
fn is_met(reach: u32, mask: u64, first: u32, wires: u64) -> bool
    ensures { result ≡ false → (reach ≤ first) ⊎ (bit_and mask wires ≡ 0) }
{
    (reach > first) & (mask & wires != 0)
}
