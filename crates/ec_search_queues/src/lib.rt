//! What workers of one search tell one another beside the book: numbers of pieces that are handed from thread to
//! thread, and the least value that any of them has found (own profile).
#![tactic(auto)]

mod bound;
mod deques;
mod tickets;

pub use bound::{Bound, Reader};
pub use tickets::Tickets;
