//! The order of the units in a search.

use ec_lists::Items;

/// Units by their numbers in file order, from 0. A contract sees them as their list.
pub type Order = Items<u8>;
