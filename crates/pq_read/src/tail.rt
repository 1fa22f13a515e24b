ghost use Rattle.std.specs.Prelude.{◌≡◌, ◌≤◌, ◌+◌, [], ◌∷◌, ◌++◌, length, OnOk, vec_len, map};
ghost use Rattle.pq_lex.specs.Token.{seen};
ghost use Rattle.pq_text.specs.Program.{entries_of};
ghost use Rattle.pq_text.specs.Program as view;
ghost use Rattle.pq_read.specs.After.{allowed};
ghost use Rattle.pq_read.specs.Gives.{Gives};

use crate::program::{Options, TailItem};
use crate::refusal::{Kind, ReadError};
use crate::token::refused;
use pq_io::PlaceList;
use pq_lex::Token;
use pq_limits::MAX_ENTRIES;
use pq_list::OutOfMemory;
use std::alloc::Global;
use std::marker::Model;

/// The barriers and the measurements after the gates. Contracts see the list of them.
#[derive(Drop)]
pub struct Tail {
    items: Vec<TailItem>,
    entries: u32,
    measured: bool,
}

impl Model for Tail {
    ghost use Rattle.std.specs.Prelude.{◌≡◌, ◌≤◌, List, map};
    ghost use Rattle.pq_text.specs.Program.{TailView};

    ghost Value = { List TailView };

    ghost use Rattle.pq_read.specs.Environment.{item_view};
    ghost use Rattle.pq_read.specs.Tails.{IsTail};

    ghost view = { λ a. map item_view a.items.items };

    ghost invariant = { λ a. IsTail a.entries a.measured (map item_view a.items.items) };
}

impl Tail {
    ghost use Rattle.pq_read.specs.Environment.{item_view};

    /// An empty tail.
    pub fn new(alloc: Global) -> Tail
        ensures { result ≡ [] }
    {
        Tail {
            items: Vec::new(alloc),
            entries: 0,
            measured: false,
        }
    }

    /// How many entries it has.
    pub fn entries(&self) -> u32
        ensures count { result ≡ entries_of self.now }
        ensures within { result ≤ MAX_ENTRIES }
    {
        self.entries
    }

    /// Whether a gate may come now, at its word.
    pub fn check_gate(&self, options: Options, word: &Token) -> Result<(), ReadError>
        ensures { Gives (λ _. tt) result (allowed options self.now (seen word.now)) }
    {
        if self.measured {
            return Err(refused(Kind::GateAfterMeasure, word));
        }
        if !options.drop_barriers && !self.items.is_empty() {
            return Err(refused(Kind::BarrierInside, word));
        }
        Ok(())
    }

    /// Takes all out.
    pub fn clear(&mut self)
        ensures { self.new ≡ [] }
    {
        self.items.clear();
        self.entries = 0;
        self.measured = false;
    }

    /// Appends a barrier over these wires.
    pub fn push_barrier(&mut self, wires: Vec<u64>) -> Result<(), OutOfMemory>
        requires { entries_of self.old + vec_len wires ≤ MAX_ENTRIES }
        ensures { OnOk result (self.new ≡ self.old ++ view.Barrier wires.items ∷ []) }
    {
        let count = wires.len() as u32;
        let _ = &self.entries;
        let item = TailItem::Barrier {
            wires: PlaceList::of(wires),
        };
        self.items.push(item)?;
        self.entries += count;
        Ok(())
    }

    /// Appends a measurement of this wire into this bit.
    pub fn push_measurement(&mut self, wire: u32, bit: u32) -> Result<(), OutOfMemory>
        requires { entries_of self.old + 1 ≤ MAX_ENTRIES }
        ensures { OnOk result (self.new ≡ self.old ++ view.Measure wire bit ∷ []) }
    {
        self.items.push(TailItem::Measure { wire, bit })?;
        self.entries += 1;
        self.measured = true;
        Ok(())
    }

    /// The barriers and the measurements themselves.
    pub fn into_items(self) -> Vec<TailItem>
        ensures { map item_view result.items ≡ self }
    {
        self.items
    }
}
