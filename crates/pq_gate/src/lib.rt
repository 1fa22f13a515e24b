//! Gates of Clifford+T circuits, lists of them, what a circuit is, and what its matrix is.
#![tactic(auto)]

mod commuting;
mod gate;
mod kind;
pub mod laws;
mod list;
pub mod phases;
mod ports;
mod ring;
mod role;

pub use commuting::{commutes, inverse};
pub use gate::{Eighths, Gate, Sum};
pub use kind::{KINDS, Kind};
pub use list::GateList;
pub use phases::sum;
pub use ports::{Port, Ports, Wires};
pub use ring::Ring;
pub use role::{Axis, ROLES, Role};
