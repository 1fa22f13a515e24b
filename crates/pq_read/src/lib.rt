//! The reader of circuit programs: the accepted subset of OpenQASM 2.0, and each refusal with its
//! place.
#![tactic(auto)]

mod argument;
mod barrier_wires;
mod begun;
mod declaration;
mod draft;
mod gate;
mod header;
mod known;
mod laws;
mod name;
mod program;
mod reader;
mod refusal;
mod registers;
mod statements;
mod tail;
mod tail_statement;
mod token;
mod word;

pub use laws::{
    expansions_have_their_matrices, programs_are_well_formed, texts_are_cut_well,
    texts_have_one_answer,
};
pub use name::Name;
pub use program::{Options, Program, RegList, Register, TailItem, TailList};
pub use reader::{Reader, read_text};
pub use refusal::{Kind, ReadError, Refusal};

#[cfg(test)]
mod tests;
