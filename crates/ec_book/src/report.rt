//! Subtrees that were reported.

use ec_cert::Tree;

/// The subtree of a piece; its open leaves are the pieces from `first` on.
#[derive(Debug, Drop)]
pub struct Report {
    pub piece: usize,
    pub first: usize,
    pub tree: Tree,
}
