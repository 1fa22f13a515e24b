//! Circuit programs and their canonical text: which programs there are, what their text is, and the names
//! that registers may have. Texts are bytes.
#![tactic(auto)]

mod name;

pub use name::{is_among, is_lawful_name};

#[cfg(test)]
mod tests;
