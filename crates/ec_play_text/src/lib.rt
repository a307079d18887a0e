//! What is told of a play: its start frames, a line for each tick, and that it went to its end; and the plays of which this is
//! told.
#![tactic(auto)]

mod counters;
mod lines;
mod played;

pub use ec_outcome::PlayTextFault;
pub use lines::{play_text, push_tick};
pub use played::{new_slaves, played_text, played_together};
