//! The words of the command line.
#![tactic(auto)]

mod asked;
mod merges;
mod part;
mod tips;
mod words;

pub use asked::{Asked, read_words};
pub use merges::Merging;
pub use words::{LineFault, Trial, Words};
