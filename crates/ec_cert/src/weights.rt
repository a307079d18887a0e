//! The weights of a leaf.

use ec_lists::Behind;

/// A weight for each tick of the hyperperiod, from tick 0 on (own profile). A contract sees them as their list. They lie
/// behind a `Box`, so that a leaf takes no more room in a tree for them.
pub type Weights = Behind<u16>;
