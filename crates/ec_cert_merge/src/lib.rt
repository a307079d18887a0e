//! Certificates for the same units put together: one proof of what several searches found.
#![tactic(auto)]

mod fault;
mod fitting;
mod law;
mod merging;
mod proving;
mod tree;
mod version;

pub use fault::Misfit;
pub use fitting::misfit;
pub use law::{
    law_merged_trees_hold, law_merges_are_one, law_open_in_all, law_parts_close, law_parts_merge,
};
pub use merging::merge;
pub use proving::outcome_of;
