//! Two trees made one.

ghost use Rattle.ec_cert.specs.Shapes.{shape_of};
ghost use Rattle.ec_cert_merge.specs.Merged.{AreAlike, IsMerged};

use ec_cert::Tree;
use std::mem;

/// The merge of two trees that are as wide wherever both split. Takes no memory: what only one of them has is moved
/// whole, so no more nodes are visited than both have in common, and no recursion is deeper than these.
pub(crate) fn merged(first: Tree, second: Tree) -> Tree
    requires { AreAlike (shape_of first) (shape_of second) }
    ensures { IsMerged (shape_of first) (shape_of second) (shape_of result) }
{
    match first {
        Tree::Split(mut room) => match second {
            Tree::Split(mut others) => {
                let empty = Vec::new(*others.allocator());
                let mut rest = Box::replace(&mut others, empty);
                let empty = Vec::new(*room.allocator());
                let mut trees = Box::replace(&mut room, empty);
                let mut i = trees.len();
                while i > 0 {
                    i -= 1;
                    if let Some(other) = rest.pop() {
                        let child = mem::replace(&mut trees[i], Tree::OpenLeaf);
                        trees[i] = merged(child, other);
                    }
                }
                Box::replace(&mut room, trees);
                Tree::Split(room)
            }
            Tree::OpenLeaf => Tree::Split(room),
            Tree::Weights(weights) => Tree::Weights(weights),
            Tree::Groups(pairs) => Tree::Groups(pairs),
            leaf => leaf,
        },
        Tree::OpenLeaf => second,
        Tree::Weights(weights) => Tree::Weights(weights),
        Tree::Groups(pairs) => Tree::Groups(pairs),
        closed => closed,
    }
}
