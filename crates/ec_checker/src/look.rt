//! A short look for open leaves.

ghost use Rattle.std.specs.Prelude.{◌≡◌, IsTrue};
ghost use Rattle.ec_loads.specs.Search.{open_count};
ghost use Rattle.ec_cert.specs.Shapes.{shape_of};

use ec_cert::Tree;

/// How many splits of a tree are looked at.
const MOST_LOOKS: u32 = 256;

/// Whether no leaf of a tree is open, where that is seen by so many looks, one for each split; those that it took are gone.
fn is_seen_closed(tree: &Tree, looks: &mut u32) -> bool
    ensures { IsTrue result → open_count (shape_of tree.now) ≡ 0 }
{
    match tree {
        Tree::Split(trees) => {
            if *looks == 0 {
                return false;
            }
            *looks -= 1;
            let trees = trees.as_ref();
            for i in 0..trees.len() {
                if !is_seen_closed(&trees[i], looks) {
                    return false;
                }
            }
            true
        }
        Tree::OpenLeaf => false,
        _ => true,
    }
}

/// Whether a short look at a tree shows that none of its leaves is open. Of a tree of many nodes that isn't seen: several workers
/// leave open leaves all over it, and what lies between them would be walked through for nothing.
pub(crate) fn looks_closed(tree: &Tree) -> bool
    ensures { IsTrue result → open_count (shape_of tree.now) ≡ 0 }
{
    let mut looks = MOST_LOOKS;
    is_seen_closed(tree, &mut looks)
}
