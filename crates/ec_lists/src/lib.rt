//! Lists that contracts see as lists: a type that is a list of items by a name of its own is an alias of one of these.
#![tactic(auto)]

mod behind;
mod items;

pub use behind::Behind;
pub use items::Items;
