//! A unit text again, with the places of a plan.
#![tactic(auto)]

mod compare;
mod lines;
mod placing;

pub use placing::{PlacingFault, place_text};
