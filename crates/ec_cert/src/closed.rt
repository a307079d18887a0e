//! Whether a search tree is closed.

ghost use Rattle.std.specs.Prelude.{◌≡◌, ◌<◌, ◌↔◌, min, IsTrue, MatchOption};
ghost use Rattle.ec_loads.specs.Search.{node_count as node_count_of, open_count};
ghost use Rattle.ec_cert.specs.Shapes.{shape_of};

use crate::tree::Tree;

/// The number of splits and closed leaves of a tree, or 2^64 - 1 where there are more; none where a leaf is open. It looks at
/// the last child first, where a search that was cut short has left its open leaves, and then at the others in order, as they
/// lie in memory: each node is visited once at most, and no recursion is deeper than the tree.
pub fn closed_count(tree: &Tree) -> Option<u64>
    ensures { MatchOption result (0 < open_count (shape_of tree.now)) (λ n. (open_count (shape_of tree.now) ≡ 0) × (n ≡ min (node_count_of (shape_of tree.now)) 18446744073709551615)) }
{
    match tree {
        Tree::Split(trees) => {
            let trees = trees.as_ref();
            let children = trees.len();
            if children == 0 {
                return Some(1);
            }
            let last = closed_count(&trees[children - 1])?;
            let mut count = last.saturating_add(1);
            for i in 0..children - 1 {
                let more = closed_count(&trees[i])?;
                count = count.saturating_add(more);
            }
            Some(count)
        }
        Tree::OpenLeaf => None,
        _ => Some(1),
    }
}

/// Whether no leaf of a tree is open.
pub fn is_closed(tree: &Tree) -> bool
    ensures { IsTrue result ↔ (open_count (shape_of tree.now) ≡ 0) }
{
    closed_count(tree).is_some()
}
