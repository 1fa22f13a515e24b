//! Rewriting rules for Clifford+T circuits, their check, and the built-in rules.
#![tactic(auto)]

mod check;
mod column;
mod compare;
mod demand;
mod lane;
pub mod laws;
#[cfg(test)]
mod near_misses;
mod row;
mod rules;
mod seen;
mod sight;
mod table;

pub use check::check_row;
pub use lane::Lane;
pub use row::{RawRow, Row, RowFault};
pub use rules::{BUILTIN_ROWS, MAX_ROWS, Rules};
pub use seen::{SEEN, Seen};
pub use sight::{Sight, kind_number};
