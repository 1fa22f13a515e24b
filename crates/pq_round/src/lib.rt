//! The work of one round: each job's gates are given to the oracle by one of several workers.
#![tactic(auto)]

mod desk;
mod gate;
mod rounds;
#[cfg(test)]
mod tests;
mod workers;

pub use gate::{HeldGate, OpenGate, WorkGate};
pub use rounds::{Round, run_round};
