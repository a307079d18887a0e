//! The book of a search under a lock: the seats from which several workers call it, and how it ends.
#![tactic(auto)]

mod close;
mod compare;
mod fault;
mod journal;
mod locked;
mod receipts;
mod search;
mod seat;
mod shared;

pub use fault::CloseFault;
pub use search::Search;
pub use seat::Seat;
pub use shared::Shared;
