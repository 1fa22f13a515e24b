//! The oracle: what a segment of a circuit is rewritten to, and what keeps that an answer is the oracle's.
#![tactic(auto)]

mod laws;
mod oracle;
#[cfg(test)]
mod tests;
mod worked;

pub use laws::{oracle_has_one_answer, oracle_keeps_the_matrix};
pub use oracle::{Outcome, improve};
pub use worked::{Worked, WorkedList};
