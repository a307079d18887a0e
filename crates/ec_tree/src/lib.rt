//! What a search tree means: a tree for the empty prefix bounds every legal plan.
#![tactic(auto)]

mod law;

pub use law::{law_levels_bound, law_trees_bound};
