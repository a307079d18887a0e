//! Certificates, and parts of search trees with what they show.

use crate::lists::UnitLines;
use crate::order::Order;
use crate::tree::Tree;
use ec_loads::Plan;

/// A plan with the greatest cost of a tick under it, in wire bytes.
#[derive(Debug, Drop)]
pub struct Best {
    pub busiest: u64,
    pub plan: Plan,
}

/// A certificate (own profile): for which units, slots and order of the units which tree shows that no legal plan
/// is better than the best one, or without a best one, that no plan is legal. One with a level is partial: its tree may
/// have open leaves, and shows no more than that each legal plan has a tick that costs at least the level, in wire bytes.
/// Those of version 3 have a level, those of version 4 may have one; the trees of version 4 are by the strong rules.
#[derive(Debug, Drop)]
pub struct Cert {
    pub version: u8,
    pub slots: u8,
    pub units: UnitLines,
    pub order: Order,
    pub best: Option<Best>,
    pub level: Option<u64>,
    pub tree: Tree,
}

/// A tree whose leaves hold at the threshold, in wire bytes; none is above every number.
#[derive(Debug, Drop)]
pub struct Subtree {
    pub threshold: Option<u64>,
    pub tree: Tree,
}
