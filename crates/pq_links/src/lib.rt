//! Neighbours on wires: for each gate of a list and each of its wires the next place on that wire.
#![tactic(auto)]

mod chains;
mod links;

pub use chains::{Chains, Gap, previous_on};
pub use links::{FAR, Links, NO_WIRE, Sides, next_on};
