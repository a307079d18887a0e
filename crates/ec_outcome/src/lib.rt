//! What comes of a search, of a play and of the frames of a plan: outcomes and faults, below all that makes them or tells them.
#![tactic(auto)]

mod ending;
mod play;
mod search;
mod text;

pub use ending::Ending;
pub use play::{PlayFault, PlayTextFault};
pub use search::{Cut, Outcome, SolveFault};
pub use text::TextFault;
