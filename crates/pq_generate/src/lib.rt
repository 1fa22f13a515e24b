//! Generated programs: a large circuit from a number, the same at each run.
//!
//! The numbers come from SplitMix64, whose state is one number of 64 bits; it is started with the seed. Each gate
//! takes one word. The word modulo 8 is the kind: h, x, z, s, sdg, t, tdg and cx, in this order. The rest of the
//! word, modulo the number of qubits, is the wire, or the control of a cx; and what is then left picks the target
//! of a cx among the other qubits, counted on from the control in a circle. On one qubit an h stands for a cx.
#![tactic(auto)]

mod generating;

pub use generating::generate;

#[cfg(test)]
mod tests;
