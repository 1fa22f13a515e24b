//! Gaps: the numbers by which rounds speak of a list of gates. Where the segment of a gap goes, which gaps rounds
//! begin with, which of them a round selects, which it keeps, and where those are then. There is no code here: the
//! definitions stand in `specs/`, and the laws on them are contracts of functions with an empty body.
#![tactic(auto)]

mod laws;

pub use laws::{
    first_fingers_are_multiples, kept_gaps_are_kept, selected_is_one_list,
    selected_segments_are_apart,
};
