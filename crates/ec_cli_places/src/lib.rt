//! Unit texts with places: made of a plan, and compared with the one that stands where they are to be.
#![tactic(auto)]

mod costs;
mod lines;
mod placed;
mod standing;

pub use costs::{has_place, lacks_place, legal_cost, placed_cost};
pub use lines::others_in;
pub use placed::{PlacedFault, placed_text, unfit_text};
pub use standing::{Placing, loses_lines, others_at, reason_to_keep_text, standing_text};
