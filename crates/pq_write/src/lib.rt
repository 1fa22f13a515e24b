//! The writer of circuit programs: the canonical text, the law that it is read as the program that was written,
//! and the report on a run, as lines of comments that may stand after the text.
#![tactic(auto)]

mod gate;
mod laws;
mod length;
mod number;
mod places;
mod program;
mod register;
mod report;
mod tail;
mod text;

pub use laws::texts_are_read_back;
pub use number::push_number;
pub use program::{write_program, write_with_report};
pub use report::{ReportNumbers, write_report};

#[cfg(test)]
mod tests;
