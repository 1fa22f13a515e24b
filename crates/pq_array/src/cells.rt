ghost use Rattle.std.specs.Prelude.{◌≡◌, ℕ, ◌+◌, ◌<◌, ◌≤◌, true, None, Some, length, map, take, slice_index, slice_index_or, is_some, All, IfOk};
ghost use Rattle.pq_array.specs.Cells.{live, rank, spliced, IsLiveRun, Replaces};
ghost use Rattle.pq_array.specs.Flags.{cells_of, unmarked, written};

use pq_gate::Gate;
use pq_list::{OutOfMemory, crosses_threads};
use std::alloc::Global;
use std::marker::Model;

/// The cells of an array alone, without the tree of counts. Contracts see the list of cells. For each
/// cell there are a gate and a flag, apart from one another: where the flag is clear, the cell is a
/// tombstone, and its gate of no use. Only `all_live` takes memory.
#[derive(Drop)]
pub struct Cells {
    gates: Vec<Gate>,
    flags: Vec<bool>,
}

impl Model for Cells {
    ghost use Rattle.std.specs.Prelude.{◌≡◌, List, Option, length};
    ghost use Rattle.pq_gate.specs.declared.gate.Gate.{Gate};
    ghost use Rattle.pq_array.specs.Flags.{cells_of};

    ghost Value = { List (Option Gate) };

    ghost view = { λ a. cells_of a.gates.items a.flags.items };

    ghost invariant = { λ a. length a.gates.items ≡ length a.flags.items };
}

impl Cells {
    /// One live cell for each gate. The gates stay in their vector.
    pub(crate) fn all_live(alloc: Global, gates: Vec<Gate>) -> Result<Cells, OutOfMemory>
        ensures { IfOk result (λ cells. cells ≡ map (λ gate. Some gate) gates.items) }
    {
        let flags = vec![in alloc; true; gates.len()]?;
        Ok(Cells { gates, flags })
    }

    /// Which cells are live.
    pub(crate) fn flags(&self) -> &[bool]
        ensures { result.now ≡ map is_some self.now }
    {
        self.flags.as_slice()
    }

    /// The number of cells.
    pub(crate) fn count(&self) -> u64
        ensures { result ≡ length self.now }
    {
        self.flags.len() as u64
    }

    /// The gate at this place: None where the place is a tombstone, or isn't that of a cell.
    #[tactic(auto, using(crate::proofs::Flags::gate_inside, crate::proofs::Flags::gate_here))]
    pub fn gate_at(&self, place: u64) -> Option<Gate>
        ensures { result ≡ slice_index_or self.now place None }
    {
        if self.is_live(place) {
            Some(self.gates[place as usize])
        } else {
            None
        }
    }

    /// Whether there is a gate at this place.
    pub(crate) fn is_live(&self, place: u64) -> bool
        ensures { result ≡ is_some (slice_index_or self.now place None) }
    {
        place < self.count() && self.flags[place as usize]
    }

    /// Puts the output at the first of these places, in order, and tombstones at the others. The places
    /// are those of live gates that are neighbours.
    pub fn replace(&mut self, places: &[u64], output: &[Gate])
        requires run { IsLiveRun self.old places.now }
        requires no_longer { length output.now ≤ length places.now }
        ensures cells { Replaces self.old self.new places.now output.now }
        ensures live { let first = rank self.old (slice_index places.now 0) in
            live self.new ≡ spliced (live self.old) first (first + length places.now) output.now }
    {
        put(&mut self.gates, places, output);
        clear(&mut self.flags, &places[output.len()..]);
    }

    /// Moves the live gates to the first places, in order, and lets the other cells go.
    pub(crate) fn compact(&mut self)
        ensures { self.new ≡ map (λ gate. Some gate) (live self.old) }
    {
        let count = pack(&mut self.gates, &self.flags);
        self.gates.truncate(count);
        self.flags.truncate(count);
        self.flags.fill(true);
    }

    /// The live gates, in order, in the vector in which they stand.
    pub(crate) fn into_live(self) -> Vec<Gate>
        ensures { result.items ≡ live self }
    {
        let Cells { gates, flags } = self;
        let mut gates = gates;
        let left = pack(&mut gates, &flags);
        gates.truncate(left);
        gates
    }
}

/// Writes the output over the gates at the first of these places, in order.
#[tactic(auto, using(crate::proofs::Flags::written_all))]
fn put(gates: &mut [Gate], places: &[u64], output: &[Gate])
    requires inside { All (λ place. place < length gates.old) places.now }
    requires no_longer { length output.now ≤ length places.now }
    ensures { gates.new ≡ written gates.old places.now output.now }
{
    for (number, gate) in output.iter().enumerate() {
        gates[places[number] as usize] = *gate;
    }
}

/// Clears the flags at these places.
fn clear(flags: &mut [bool], places: &[u64])
    requires { All (λ place. place < length flags.old) places.now }
    ensures { flags.new ≡ unmarked flags.old places.now }
{
    for place in places {
        flags[*place as usize] = false;
    }
}

/// Moves the gates with a set flag to the first places, in order, and tells their number.
fn pack(gates: &mut [Gate], flags: &[bool]) -> usize
    requires { length gates.old ≡ length flags.now }
    ensures kept { take result gates.new ≡ live (cells_of gates.old flags.now) }
    ensures no_more { result ≤ length flags.now }
    ensures size { length gates.new ≡ length gates.old }
{
    let mut next = 0;
    for (place, flag) in flags.iter().enumerate() {
        gates[next] = gates[place];
        next += usize::from(*flag);
    }
    next
}

/// Cells cross threads.
fn cells_cross_threads() {
    crosses_threads::<Cells>();
}
