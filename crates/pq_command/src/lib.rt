//! The command line: what the words after the program's name ask for, or what is wrong with them.
#![tactic(auto)]

mod fault;
mod line;
mod options;
mod reading;
mod settings;

pub use fault::{Switch, UsageFault, WordsError};
pub use reading::read_words;
pub use settings::{Command, Settings};

#[cfg(test)]
mod tests;
