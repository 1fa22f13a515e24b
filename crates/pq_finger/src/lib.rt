//! Fingers: the places where a circuit is still to be looked at. Which of them a round selects, which
//! stay after it, and where they are then.
#![tactic(auto)]

mod cut;
mod fingers;
mod laws;
mod selecting;
mod settling;

pub use cut::Cut;
pub use fingers::Fingers;
pub use laws::{
    cuts_of_a_round_are_in_order, moved_places_have_the_new_gaps, settled_places_are_kept,
    settled_places_have_the_kept_gaps,
};
pub use pq_list::PlaceList;

#[cfg(test)]
mod tests;
