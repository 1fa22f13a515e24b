//! The first redex of a list of gates, and rewriting it.
#![tactic(auto)]

mod ahead;
mod cursors;
mod exchange;
mod filter;
pub mod laws;
mod looked;
mod redex;
mod rewrite;
#[cfg(test)]
mod rewriting_tests;
mod runs;
mod search;
mod seek;
mod segment;
mod slots;
mod spread;
mod starts;
#[cfg(test)]
mod tests;
mod ties;
mod waiting;
mod waking;
mod words;
mod work;

pub use redex::Redex;
pub use search::find_within;
pub use segment::Seg;
pub use starts::find_first;
