//! The method as mathematics: what a round makes of a list of gates and its fingers, what rounds make of them from
//! the first fingers until there is no finger, and the laws on both, as contracts of functions with an empty body. The
//! definitions stand in `specs/`. Only the numbers of a round are a type of the code.
#![tactic(auto)]

mod laws;
mod step;

pub use laws::{
    first_fingers_cover, opt_has_one_result, opt_is_local, rounds_have_one_result,
    rounds_keep_cover,
};
pub use step::Step;
