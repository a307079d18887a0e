//! Faults of a unit text, and of its places, explained in sentences: where they stand, what would be right, what was likely meant.
#![tactic(auto)]

mod areas;
mod keys;
mod missing;
mod nearest;
mod places;
mod ranges;
mod rooms;
mod telling;
mod units;

pub use areas::unset_areas;
pub use places::{tell_illegal, tell_no_place};
pub use telling::tell_units;
