//! The nodes of a search tree.

ghost use Rattle.std.specs.Prelude.{◌≡◌, min};
ghost use Rattle.ec_loads.specs.Search.{node_count as node_count_of};
ghost use Rattle.ec_cert.specs.Shapes.{shape_of};

use crate::tree::Tree;

/// The number of splits and closed leaves, or 2^64 - 1 where there are more. No recursion is deeper than the tree.
pub fn node_count(tree: &Tree) -> u64
    ensures { result ≡ min (node_count_of (shape_of tree.now)) 18446744073709551615 }
{
    match tree {
        Tree::Split(trees) => {
            let trees = trees.as_ref();
            let mut count = 1u64;
            for i in 0..trees.len() {
                count = count.saturating_add(node_count(&trees[i]));
            }
            count
        }
        Tree::OpenLeaf => 0,
        _ => 1,
    }
}
