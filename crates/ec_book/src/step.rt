//! What happened.

use ec_lists::Items;

/// One entry of a book's log. Workers and pieces go by their numbers, from 0.
#[derive(Clone, Copy, PartialEq, Eq, Debug)]
pub enum Step {
    /// A worker took a free piece, with a grant in nodes.
    Took {
        worker: usize,
        piece: u64,
        grant: u32,
    },
    /// A worker reported the subtree of its piece, of `spent` nodes; its open leaves are the `count` pieces from
    /// `first` on.
    Reported {
        worker: usize,
        piece: u64,
        spent: u64,
        first: u64,
        count: u64,
    },
    /// A worker found a plan whose busiest tick costs less than the value, in wire bytes.
    Better {
        worker: usize,
        value: u64,
    },
    /// A worker gave its piece back.
    Back {
        worker: usize,
        piece: u64,
    },
}

/// Steps in the order in which they were made. A contract sees them as their list.
pub type Steps = Items<Step>;
