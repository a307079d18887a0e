//! Sync units read from a TOML text, and the faults that such a text can have.
#![tactic(auto)]

mod build;
mod fault;
mod judge;
mod law;
mod read;
mod rule;
mod table;
mod walk;

pub use fault::{Key, Spot, UnitFault};
pub use law::law_faults_in_order;
pub use read::{MOST_BYTES, read_units};
