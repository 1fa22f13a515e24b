use crate::name::Name;
use pq_gate::GateList;
use pq_io::PlaceList;
use pq_list::RoomList;

/// How a text is read.
#[derive(Clone, Copy, Debug, PartialEq, Eq)]
pub struct Options {
    /// Whether a gate statement takes the barriers before it out of the program. Where it doesn't, a
    /// gate after a barrier is refused.
    pub drop_barriers: bool,
}

/// A register: its name, and how many wires or bits it has.
#[derive(Drop)]
pub struct Register {
    pub name: Name,
    pub size: u32,
}

/// What may stand after the gates. Wires are numbered from 0 over the quantum registers in order of
/// declaration, and bits over the classical ones.
#[derive(Drop)]
pub enum TailItem {
    Barrier { wires: PlaceList },
    Measure { wire: u32, bit: u32 },
}

/// A list of registers.
pub type RegList = RoomList<Register>;

/// A list of what stands after the gates.
pub type TailList = RoomList<TailItem>;

/// A circuit program: its quantum and its classical registers in order of declaration, its gates in
/// circuit order, and its barriers and measurements after the last gate in order.
#[derive(Drop)]
pub struct Program {
    pub qregs: RegList,
    pub cregs: RegList,
    pub gates: GateList,
    pub tail: TailList,
}
