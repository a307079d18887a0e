//! Splits of search trees.

ghost use Rattle.std.specs.Prelude.{◌≡◌, IfOk};
ghost use Rattle.ec_loads.specs.Shape.{split};
ghost use Rattle.ec_cert.specs.Shapes.{shape_of, shapes_of};

use crate::tree::Tree;
use std::alloc::{AllocError, Global};

/// The split whose children have these trees, in their order. `AllocError` where memory ran out.
pub fn split_of(alloc: Global, trees: Vec<Tree>) -> Result<Tree, AllocError>
    ensures { IfOk result (λ tree. shape_of tree ≡ split (shapes_of trees.items)) }
{
    Ok(Tree::Split(Box::new(alloc, trees)?))
}
