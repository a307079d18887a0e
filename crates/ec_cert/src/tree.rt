//! Search trees.

use crate::pairs::Pairs;
use crate::weights::Weights;

/// A search tree (own profile). Ticks and slots are numbered from 0. A node takes 16 bytes: what needs more lies behind
/// a `Box`.
#[derive(Debug, Drop)]
pub enum Tree {
    /// A tree for each child, in the order of the children.
    Split(Box<Vec<Tree>>),
    /// Closed: this tick costs at least the value.
    TickLeaf(u32),
    /// Closed: the payload of this slot in this tick is too large.
    FullLeaf(u32, u8),
    /// Closed: some tick costs at least the value, by the average of all.
    Average,
    /// Closed: some tick costs at least the value, by the average of all with a weight for each tick of the
    /// hyperperiod; no text of version 1 has it.
    Weights(Weights),
    /// Left open; no text before version 3 has it, and one of version 4 only with a level.
    OpenLeaf,
    /// Closed: two slots of a plan below the value can be one. No text before version 4 has this one or the next two.
    Merge,
    /// Closed: so many units of this period, in ticks, and with at least so many bytes find no room.
    Count { period: u16, bytes: u16 },
    /// Closed: some tick costs at least the value, by the average of all with the new groups that each period needs.
    Groups(Pairs),
}
