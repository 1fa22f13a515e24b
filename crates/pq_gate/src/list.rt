ghost use Rattle.std.specs.Prelude.{◌≡◌, ◌^◌, ◌<◌, ◌≤◌, [], ◌∷◌, ◌++◌, length, IfOk, vec_len, vec_capacity};

use crate::gate::Gate;
use pq_list::{OutOfMemory, RoomList, crosses_threads};
use std::alloc::Global;
use std::marker::Model;

/// A list of gates with the room that was asked for, less than 2^32. Contracts see both, as
/// `items` and `room`.
#[derive(Drop)]
pub struct GateList {
    gates: RoomList<Gate>,
}

impl Model for GateList {
    ghost use Rattle.std.specs.Prelude.{◌^◌, ◌<◌};
    ghost use Rattle.pq_list.specs.Roomed.{Roomed};
    ghost use Rattle.pq_gate.specs.declared.gate.Gate.{Gate};

    ghost Value = { Roomed Gate };

    ghost view = { λ a. a.gates };

    ghost invariant = { λ a. a.gates.room < 2 ^ 32 };
}

impl GateList {
    /// An empty list with room for `room` gates. The room is taken here, once.
    pub fn with_room(alloc: Global, room: u32) -> Result<GateList, OutOfMemory>
        ensures items { IfOk result (λ made. made.items ≡ []) }
        ensures room { IfOk result (λ made. made.room ≡ room) }
    {
        let gates = RoomList::with_room(alloc, u64::from(room))?;
        Ok(GateList { gates })
    }

    /// The list of these gates, with room for no more. It takes no memory.
    pub fn of(gates: Vec<Gate>) -> GateList
        requires { vec_len gates < 2 ^ 32 }
        ensures items { result.items ≡ gates.items }
        ensures room { result.room ≡ vec_len gates }
    {
        GateList {
            gates: RoomList::of(gates),
        }
    }

    /// The room that was asked for.
    pub fn room(&self) -> u32
        ensures { result ≡ self.now.room }
    {
        self.gates.room() as u32
    }

    /// Appends a gate. It takes no memory.
    pub fn push_kept(&mut self, gate: Gate)
        requires { length self.old.items < self.old.room }
        ensures items { self.new.items ≡ self.old.items ++ gate ∷ [] }
        ensures room { self.new.room ≡ self.old.room }
    {
        self.gates.push_kept(gate);
    }

    /// The gates, in the order in which they were appended.
    pub fn as_slice(&self) -> &[Gate]
        ensures { result.now ≡ self.now.items }
    {
        self.gates.as_slice()
    }

    /// The gates, in the vector in which they stand: none is copied, and no memory is taken. `of` makes it a list again.
    pub fn into_vec(self) -> Vec<Gate>
        ensures items { result.items ≡ self.items }
        ensures room { self.room ≤ vec_capacity result }
        ensures few { vec_len result < 2 ^ 32 }
    {
        self.gates.into_vec()
    }
}

// A list of gates crosses threads.
fn gates_cross_threads() {
    crosses_threads::<GateList>();
}

#[cfg(test)]
mod tests {
    use super::*;

    #[test]
    fn a_list_of_room_two_is_empty_and_takes_gates(rt: HostRuntime) -> Result<(), OutOfMemory> {
        let mut list = GateList::with_room(rt.alloc(), 2)?;
        assert_eq!(rt; list.room(), 2);
        assert!(rt; list.as_slice().is_empty());
        list.push_kept(Gate::H { wire: 1 });
        list.push_kept(Gate::X { wire: 0 });
        assert!(rt; list.as_slice() == [Gate::H { wire: 1 }, Gate::X { wire: 0 }].as_slice());
        Ok(())
    }
}
