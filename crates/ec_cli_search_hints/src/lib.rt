//! What there is to tell after a search or a merge: whether its plan fits, what would help, and how one goes on.
#![tactic(auto)]

mod advising;
mod again;
mod cycle;
mod help;
mod meeting;

pub use advising::{Asked, Filed, Found, Written, counsel, room_beside};
pub use again::Again;
pub use cycle::Cycle;
