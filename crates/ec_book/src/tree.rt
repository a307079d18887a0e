//! Trees whose open leaves are filled.

ghost use Rattle.std.specs.Prelude.{◌≡◌, ◌+◌, ◌-◌, ◌<◌, ◌≤◌, ◌^◌, ◌++◌, ◌↔◌, IsTrue, length, take};
ghost use Rattle.ec_cert.specs.Shapes.{shape_of};
ghost use Rattle.ec_loads.specs.Search.{open_count};
ghost use Rattle.ec_loads.specs.Shape.{Leaf, leaf};
ghost use Rattle.ec_book.specs.Numbered.{numbered, draw};
ghost use Rattle.ec_book.specs.Grown.{shape_at};

use ec_cert::Tree;
use std::mem;

/// Whether a tree is a leaf that is closed.
fn is_closed_leaf(tree: &Tree) -> bool
    ensures { IsTrue result ↔ ((l : Leaf) × (shape_of tree.now ≡ leaf l)) }
{
    match tree {
        Tree::TickLeaf(_) => true,
        Tree::FullLeaf(_, _) => true,
        Tree::Average => true,
        Tree::Weights(_) => true,
        Tree::Merge => true,
        Tree::Count { .. } => true,
        Tree::Groups(_) => true,
        Tree::OpenLeaf | Tree::Split(_) => false,
    }
}

/// The last trees, which lie from `floor` on, take the places of the open leaves. What is closed stays where it lies, and
/// where no tree is left from `floor` on, none is looked for.
pub(crate) fn filled(tree: Tree, floor: usize, built: &mut Vec<Tree>) -> Tree
    requires { floor + open_count (shape_of tree) ≤ length built.old.items }
    ensures left { built.new.items ≡ take (length built.old.items - open_count (shape_of tree)) built.old.items }
    ensures tree { shape_of result ≡ draw (shape_at built.old.items) (numbered (length built.old.items - open_count (shape_of tree)) (shape_of tree)) }
{
    if built.len() <= floor {
        return tree;
    }
    match tree {
        Tree::Split(mut room) => {
            let empty = Vec::new(*room.allocator());
            let mut trees = Box::replace(&mut room, empty);
            let mut i = trees.len();
            while i > 0 && built.len() > floor {
                i -= 1;
                if !is_closed_leaf(&trees[i]) {
                    let child = mem::replace(&mut trees[i], Tree::OpenLeaf);
                    trees[i] = filled(child, floor, built);
                }
            }
            Box::replace(&mut room, trees);
            Tree::Split(room)
        }
        Tree::OpenLeaf => match built.pop() {
            Some(tree) => tree,
            None => unreachable!(),
        },
        Tree::Weights(weights) => Tree::Weights(weights),
        Tree::Groups(pairs) => Tree::Groups(pairs),
        closed => closed,
    }
}
