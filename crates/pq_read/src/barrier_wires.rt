ghost use Rattle.std.specs.Prelude.{◌≡◌, ◌+◌, ◌<◌, ◌≤◌, [], OnOk, IfOk};
ghost use Rattle.pq_read.specs.After.{adjoined, adjoined_below};
ghost use Rattle.pq_read.specs.Registers.{IsArgument};

use crate::argument::Argument;
use pq_limits::MAX_PLACES;
use pq_list::OutOfMemory;
use std::alloc::Global;
use std::marker::Model;

/// The wires of a barrier in order of appearance, each once. Contracts see the list.
///
/// Beside it stands for each wire how many wires from it on are known to be listed, so that a register
/// that was listed whole is passed over at once, and a wire that is listed is known by one look.
#[derive(Drop)]
pub struct BarrierWires {
    wires: Vec<u64>,
    known: Vec<u16>,
}

impl Model for BarrierWires {
    ghost use Rattle.std.specs.Prelude.{List, ℕ};

    ghost Value = { List ℕ };

    ghost use Rattle.pq_read.specs.Marks.{AreMarked};

    ghost view = { λ a. a.wires.items };

    ghost invariant = { λ a. AreMarked a.wires.items a.known.items };
}

impl BarrierWires {
    /// No wires.
    pub fn new(alloc: Global) -> Result<BarrierWires, OutOfMemory>
        ensures { IfOk result (λ wires. wires ≡ []) }
    {
        Ok(BarrierWires {
            wires: Vec::new(alloc),
            known: vec![in alloc; 0; MAX_PLACES as usize]?,
        })
    }

    // Appends a wire that isn't there yet.
    fn adjoin(&mut self, wire: u32) -> Result<(), OutOfMemory>
        requires { wire < MAX_PLACES }
        ensures { OnOk result (self.new ≡ adjoined self.old wire) }
    {
        let place = wire as usize;
        if self.known[place] == 0 {
            self.wires.push(u64::from(wire))?;
            self.known[place] = 1;
        }
        Ok(())
    }

    /// Appends the wires of an argument that aren't there yet.
    pub fn adjoin_argument(&mut self, a: &Argument) -> Result<(), OutOfMemory>
        requires { IsArgument a.now }
        ensures { OnOk result (self.new ≡ adjoined_below self.old a.now.first a.now.count) }
    {
        let place = a.first as usize;
        let known = u32::from(self.known[place]);
        if a.count <= known {
            return Ok(());
        }
        for k in known..a.count {
            self.adjoin(a.first + k)?;
        }
        self.known[place] = a.count as u16;
        Ok(())
    }

    /// The list of the wires.
    pub fn into_wires(self) -> Vec<u64>
        ensures { result.items ≡ self }
    {
        self.wires
    }
}
