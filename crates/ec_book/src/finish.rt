//! The tree that the reports make.

ghost use Rattle.std.specs.Prelude.{◌≡◌, ◌≤◌, [], length, replicate, vec_capacity};
ghost use Rattle.ec_loads.specs.Search.{open_count};
ghost use Rattle.ec_cert.specs.Shapes.{shape_of};
ghost use Rattle.ec_cert.specs.declared.tree.Tree.{OpenLeaf};
ghost use Rattle.ec_book.specs.Numbered.{numbered, draw};
ghost use Rattle.ec_book.specs.Grown.{Chain, grown, shape_at};

use crate::report::Report;
use crate::tree::filled;
use ec_cert::Tree;

/// As many open leaves, for which there is room.
pub(crate) fn open_leaves(room: Vec<Tree>, count: usize) -> Vec<Tree>
    requires none { room.items ≡ [] }
    requires room { count ≤ vec_capacity room }
    ensures { result.items ≡ replicate count OpenLeaf }
{
    let mut built = room;
    for i in 0..count {
        let _ = i;
        built.push_reserved(Tree::OpenLeaf);
    }
    built
}

/// The tree that the reports make of the given one, from the last report to the first.
pub(crate) fn assembled(given: Tree, reports: Vec<Report>, built: Vec<Tree>) -> Tree
    requires { Chain (open_count (shape_of given)) reports.items (length built.items) }
    ensures { shape_of result ≡ draw (shape_at built.items) (grown (numbered 0 (shape_of given)) reports.items) }
{
    let mut reports = reports;
    let mut built = built;
    while let Some(report) = reports.pop() {
        let Report { piece, first, tree } = report;
        let sub = filled(tree, first, &mut built);
        built[piece] = sub;
    }
    filled(given, 0, &mut built)
}
