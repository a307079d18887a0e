//! Copies of search trees.

ghost use Rattle.std.specs.Prelude.{◌≡◌, IfOk};
ghost use Rattle.ec_cert.specs.Shapes.{shape_of};

use crate::pairs::Pairs;
use crate::splitting::split_of;
use crate::tree::Tree;
use crate::weights::Weights;
use std::alloc::{AllocError, Global};

/// The same tree once more, in time and memory in proportion to it. `AllocError` where memory ran out.
pub fn copy_of(alloc: Global, tree: &Tree) -> Result<Tree, AllocError>
    ensures { IfOk result (λ copy. shape_of copy ≡ shape_of tree.now) }
{
    match tree {
        Tree::Split(trees) => {
            let mut copies = Vec::with_capacity(alloc, trees.len())?;
            for i in 0..trees.len() {
                copies.push(copy_of(alloc, &trees[i])?)?;
            }
            split_of(alloc, copies)
        }
        Tree::TickLeaf(tick) => Ok(Tree::TickLeaf(*tick)),
        Tree::FullLeaf(tick, slot) => Ok(Tree::FullLeaf(*tick, *slot)),
        Tree::Average => Ok(Tree::Average),
        Tree::Weights(weights) => {
            let copy = Vec::from_slice(alloc, weights.as_slice())?;
            Ok(Tree::Weights(Weights::new(alloc, copy)?))
        }
        Tree::OpenLeaf => Ok(Tree::OpenLeaf),
        Tree::Merge => Ok(Tree::Merge),
        Tree::Count { period, bytes } => Ok(Tree::Count {
            period: *period,
            bytes: *bytes,
        }),
        Tree::Groups(pairs) => {
            let copy = Vec::from_slice(alloc, pairs.as_slice())?;
            Ok(Tree::Groups(Pairs::new(alloc, copy)?))
        }
    }
}
