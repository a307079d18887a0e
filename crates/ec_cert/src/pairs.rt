//! The pairs of a leaf.

use ec_lists::Behind;
use ec_loads::Pair;

/// How many new groups each period of units without a place needs, by ascending period (own profile). A contract sees them
/// as their list. They lie behind a `Box`, so that a leaf takes no more room in a tree for them.
pub type Pairs = Behind<Pair>;
