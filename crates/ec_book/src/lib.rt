//! The book of a search: the pieces of its tree, what became of them, and the tree that they make.
#![tactic(auto)]

mod book;
mod counted;
mod fault;
mod finish;
mod judge;
mod law;
mod open;
mod ours;
mod piece;
mod prefixes;
mod report;
mod step;
mod taken;
mod tree;

pub use book::{Book, Finished};
pub use counted::Counted;
pub use fault::BookFault;
pub use law::{
    law_done_is_spent, law_empty_logs_spend_nothing, law_histories_replay, law_trees_fall,
};
pub use ours::is_of_part;
pub use piece::Piece;
pub use prefixes::Prefixes;
pub use step::{Step, Steps};
pub use taken::{Taken, Took};
