//! The loop that makes rounds over a circuit until there is no finger. What a round is, that nothing is
//! overlooked, and the bound on the oracle's calls stand in `pq_method`.
#![tactic(auto)]

mod looping;
mod one_round;
mod over_board;
mod putting;
mod segments;
#[cfg(test)]
mod tests;

pub use looping::{Finished, Loop};
pub use pq_board::Receipt;
pub use pq_method::Step;
