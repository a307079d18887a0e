//! Laws of what a search and a check go through, on which no code stands.
#![tactic(auto)]

mod law;

pub use law::{law_children_are_few, law_first_wrong_is_found};
