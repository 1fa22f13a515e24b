//! Gates in cells, with tombstones where a gate was taken out, and a tree of counts by which the
//! gates that are left are found by their number.
#![tactic(auto)]

mod array;
mod cells;
mod laws;
#[cfg(test)]
mod tests;
mod tree;

pub use array::GateArray;
pub use cells::Cells;
pub use laws::{rank_laws, replacement_law, run_law, tree_laws};
use pq_list::RoomList;

/// A list of words, with the room that was asked for.
pub type WordList = RoomList<u64>;
