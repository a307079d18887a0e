//! How a search ended without a proof.

use crate::search::Cut;

/// How a search ended without a proof. Costs are in wire bytes.
#[derive(Clone, Copy, Debug, PartialEq, Eq)]
pub struct Ending {
    /// What the busiest tick of the best plan costs that was found; none where no plan was found.
    pub best: Option<u64>,
    /// Why the search ended.
    pub cut: Cut,
    /// What the busiest tick of every legal plan costs at least.
    pub level: u64,
    /// Whether it went by the strong rules.
    pub strong: bool,
}
