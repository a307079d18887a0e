//! Certificates: a plan with its value and the search tree that shows it least.
#![tactic(auto)]

mod cert;
mod closed;
mod copying;
mod kinds;
mod lists;
mod nodes;
mod order;
mod pairs;
mod part;
mod ranges;
mod splitting;
mod tree;
mod weights;

pub use cert::{Best, Cert, Subtree};
pub use closed::{closed_count, is_closed};
pub use copying::copy_of;
pub use kinds::{Kinds, kinds_of};
pub use lists::{UnitLine, UnitLines};
pub use nodes::node_count;
pub use order::Order;
pub use pairs::Pairs;
pub use part::Part;
pub use ranges::{LEVELS, MOST_BUSIEST, are_below, well_formed};
pub use splitting::split_of;
pub use tree::Tree;
pub use weights::Weights;
