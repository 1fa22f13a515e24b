//! What the workers of a round share: the jobs, which are lists of places.
#![tactic(auto)]

mod board;
mod jobs;
mod laws;
mod pass;
mod plan;
mod rule;
#[cfg(test)]
mod tests;

pub use board::{Board, Closed, Receipt, Unopened};
pub use jobs::Jobs;
pub use laws::{board_law, cells_law, leaves_law};
pub use pass::Pass;
pub use plan::{Lowering, Plan, View};
pub use pq_limits::MAX_JOBS;
