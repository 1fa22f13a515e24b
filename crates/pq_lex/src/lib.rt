//! The tokens of a circuit program's text, with their places. The tokens are those of OpenQASM 2.0
//! that the accepted subset has; spaces, tabs, carriage returns, newlines and comments stand between
//! them and are skipped.
#![tactic(auto)]

mod ends;
mod front;
mod laws;
mod lexer;
mod token;

pub use ends::{Ended, Mode, last_end};
pub use front::GREAT;
pub use laws::{
    added_bytes_change_what_follows, forms_have_numbers, texts_end_for_good, texts_have_tokens,
    tokens_are_longest,
};
pub use lexer::Lexer;
pub use token::{Form, Token};
