ghost use Rattle.std.specs.Prelude.{◌≡◌, ℕ, ◌+◌, ◌<◌, ◌≤◌, ◌↔◌, [], ◌∷◌, ◌++◌, length, take, IfOk, IfSome, IsNone, vec_len, vec_capacity};
ghost use Rattle.pq_gate.specs.Commuting.{Touches};
ghost use Rattle.pq_links.specs.Links.{AreLinked};
ghost use Rattle.pq_match.specs.Redex.{gate_at};
ghost use Rattle.pq_match.specs.Segment.{IsNextUse};

use crate::slots::Slots;
use crate::starts::are_taken;
use pq_gate::Gate;
use pq_limits::MAX_SEGMENT;
use pq_links::{Links, NO_WIRE};
use pq_list::{OutOfMemory, crosses_threads};
use std::alloc::Global;
use std::marker::Model;

/// A segment of a circuit that is being rewritten: a list of gates, and the room that was asked for.
/// Contracts see both, as `items` and `room`. The room is taken once, and nothing that is done with the
/// segment takes memory.
#[derive(Drop)]
pub struct Seg {
    pub(crate) gates: Vec<Gate>,
    pub(crate) links: Links,

    // only set where no gate uses the number that stands for no wire
    pub(crate) taken: bool,

    // the slots, and whether the gates that it holds stand in them
    pub(crate) work: Slots,
    pub(crate) loaded: bool,

    // only clear where the gates in the slots are the segment's
    pub(crate) rewritten: bool,

    // whether none of the gates that were loaded last may begin a redex
    pub(crate) still: bool,
    pub(crate) asked: u32,
}

impl Model for Seg {
    ghost use Rattle.std.specs.Prelude.{◌≡◌, ◌≤◌, true, false, vec_len, vec_capacity};
    ghost use Rattle.pq_links.specs.Slots.{gates_in};
    ghost use Rattle.pq_limits.specs.declared.TheConstants.{MAX_SEGMENT};
    ghost use Rattle.pq_links.specs.Links.{AreLinked};
    ghost use Rattle.pq_match.specs.Segment.{SegView};
    ghost use Rattle.pq_match.specs.Work.{AreTaken, HasRoom};

    ghost Value = { SegView };

    ghost view = { λ a. record { items = a.gates.items; room = a.asked; work = a.work; loaded = a.loaded; still = a.still } };

    ghost invariant = { λ a. HasRoom (vec_len a.gates) (vec_capacity a.gates) a.asked × (a.asked ≤ MAX_SEGMENT) × AreLinked a.gates.items a.links ×
        (a.links.room ≡ a.asked) × (a.work.room ≡ a.asked) × (a.taken ≡ true → AreTaken a.gates.items) ×
        (a.loaded ≡ true → a.rewritten ≡ false → gates_in a.work.gates ≡ a.gates.items) };
}

impl Seg {
    /// An empty segment with room for `room` gates, at most 2,048. The room is taken here, once.
    pub fn reserve(alloc: Global, room: u32) -> Result<Seg, OutOfMemory>
        requires { room ≤ MAX_SEGMENT }
        ensures items { IfOk result (λ made. made.items ≡ []) }
        ensures room { IfOk result (λ made. made.room ≡ room) }
    {
        let gates = Vec::with_capacity(alloc, room as usize)?;
        let links = Links::with_room(alloc, room)?;
        let work = Slots::with_room(alloc, room)?;
        Ok(Seg {
            gates,
            links,
            taken: true,
            work,
            loaded: false,
            rewritten: false,
            still: false,
            asked: room,
        })
    }

    /// The room that was asked for.
    pub fn room(&self) -> u32
        ensures { result ≡ self.now.room }
    {
        self.asked
    }

    /// Leaves no gate.
    pub fn clear(&mut self)
        ensures items { self.new.items ≡ [] }
        ensures room { self.new.room ≡ self.old.room }
    {
        self.gates.clear();
        self.links.clear();
        self.taken = true;
        self.loaded = false;
    }

    /// Appends a gate.
    #[tactic(auto, using(crate::proofs::Spreading::taken_more))]
    pub fn push(&mut self, gate: Gate)
        requires { length self.old.items < self.old.room }
        ensures items { self.new.items ≡ self.old.items ++ gate ∷ [] }
        ensures room { self.new.room ≡ self.old.room }
    {
        self.links.push(self.gates.as_slice(), gate);
        self.gates.push_reserved(gate);
        self.taken = self.taken && !gate.touches(NO_WIRE);
        self.loaded = false;
    }

    /// Appends gates, in order. It takes no memory.
    #[inline(never)]
    #[tactic(auto, using(crate::proofs::Spreading::taken_all))]
    pub fn extend(&mut self, gates: &[Gate])
        requires { length self.old.items + length gates.now ≤ self.old.room }
        ensures items { self.new.items ≡ self.old.items ++ gates.now }
        ensures room { self.new.room ≡ self.old.room }
    {
        let before = self.gates.len();
        put_behind(&mut self.gates, gates);
        link_behind(&mut self.links, self.gates.as_slice(), before);
        self.taken = self.taken && are_taken(gates);
        self.loaded = false;
    }

    /// The least place behind this one whose gate uses the wire, None exactly where there is none. The gate at the
    /// place has to use the wire. It takes no memory.
    pub fn next_on_wire(&self, place: u32, wire: u32) -> Option<u32>
        requires place { place < length self.now.items }
        requires uses { Touches (gate_at self.now.items place) wire }
        ensures next { IfSome result (IsNextUse self.now.items wire place) }
        ensures none { IsNone result ↔ ((later : ℕ) → place < later → later < length self.now.items → ¬ Touches (gate_at self.now.items later) wire) }
    {
        let gates = self.gates.as_slice();
        let next = self.links.next_on(gates, place, wire);
        if (next as usize) < gates.len() {
            Some(next)
        } else {
            None
        }
    }

    /// The gates, in circuit order.
    pub fn gates(&self) -> &[Gate]
        ensures gates { result.now ≡ self.now.items }
        ensures few { length result.now ≤ MAX_SEGMENT }
    {
        self.gates.as_slice()
    }
}

// appends gates to a list that has room for them
fn put_behind(list: &mut Vec<Gate>, gates: &[Gate])
    requires { vec_len list.old + length gates.now ≤ vec_capacity list.old }
    ensures items { list.new.items ≡ list.old.items ++ gates.now }
    ensures capacity { vec_capacity list.new ≡ vec_capacity list.old }
{
    for gate in gates {
        list.push_reserved(*gate);
    }
}

// The links of all these gates, where so many of them are linked.
fn link_behind(links: &mut Links, gates: &[Gate], linked: usize)
    requires within { linked ≤ length gates.now }
    requires linked { AreLinked (take linked gates.now) links.old }
    requires room { length gates.now ≤ links.old.room }
    ensures linked { AreLinked gates.now links.new }
    ensures room { links.new.room ≡ links.old.room }
{
    for place in linked..gates.len() {
        links.push(&gates[..place], gates[place]);
    }
}

// A segment crosses threads.
fn segments_cross_threads() {
    crosses_threads::<Seg>();
}
