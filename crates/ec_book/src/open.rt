//! The nodes of a tree, and the prefixes of its open leaves.

ghost use Rattle.std.specs.Prelude.{◌≡◌, ℕ, ◌≤◌, ◌++◌, length, min, OnOk, IfOk};
ghost use Rattle.ec_loads.specs.Line.{line_of};
ghost use Rattle.ec_loads.specs.Search.{node_count as node_count_of};
ghost use Rattle.ec_cert.specs.Shapes.{shape_of};
ghost use Rattle.ec_symmetry.specs.Orders.{IsOrder};
ghost use Rattle.ec_symmetry.specs.Ruled.{line_rules};
ghost use Rattle.ec_book.specs.Open.{open_places};

use crate::prefixes::{Prefixes, Walk};
use ec_cert::{Tree, closed_count, node_count};
use ec_loads::Loads;
use ec_symmetry::{Rules, next_children};
use ec_units::Place;
use std::alloc::{AllocError, Global};

/// Marks, in preorder, the prefix of each open leaf of a tree by these rules, where the walk is at the tree, and gives the number of its
/// splits and closed leaves, or 2^64 - 1 where there are more. Afterwards the walk is back where it was. It goes to a child only where a
/// leaf below that is open. No recursion is deeper than the order is long. `AllocError` where memory ran out.
pub(crate) fn mark_open(
    loads: &Loads,
    order: &[u8],
    rules: Rules,
    tree: &Tree,
    walk: &mut Walk,
) -> Result<u64, AllocError>
    requires order { IsOrder (length loads.now.loads) order.now }
    requires long { length walk.old.path ≤ length order.now }
    ensures nodes { IfOk result (λ n. n ≡ min (node_count_of (shape_of tree.now)) 18446744073709551615) }
    ensures path { OnOk result (walk.new.path ≡ walk.old.path) }
    ensures marked { OnOk result (walk.new.marked ≡ walk.old.marked ++ open_places (line_of (line_rules rules) loads.now) order.now (shape_of tree.now) walk.old.path) }
{
    match tree {
        Tree::Split(trees) => {
            let trees = trees.as_ref();
            let path = walk.path();
            if path.len() >= order.len() {
                return Ok(node_count(tree));
            }
            let unit = usize::from(order[path.len()]);
            let mut places = next_children(loads, order, path, rules);
            let mut count = 1u64;
            for i in 0..trees.len() {
                let Some(place) = places.next() else {
                    return Ok(node_count(tree));
                };
                let more = match closed_count(&trees[i]) {
                    Some(closed) => closed,
                    None => {
                        walk.go_on(place)?;
                        let below = mark_open(loads, order, rules, &trees[i], walk)?;
                        walk.go_back();
                        below
                    }
                };
                count = count.saturating_add(more);
            }
            Ok(count)
        }
        Tree::OpenLeaf => {
            walk.mark()?;
            Ok(0)
        }
        _ => Ok(1),
    }
}

/// A tree that was walked: the number of its splits and closed leaves, or 2^64 - 1 where there are more, and the prefixes of its open
/// leaves, in preorder.
#[derive(Drop)]
pub(crate) struct Opened {
    pub nodes: u64,
    pub prefixes: Prefixes,
}

/// The nodes of a tree, and the prefixes of its open leaves by these rules, where `prefix` leads to the tree.
pub(crate) fn opened_by(
    alloc: Global,
    loads: &Loads,
    order: &[u8],
    rules: Rules,
    prefix: &[Place],
    tree: &Tree,
) -> Result<Opened, AllocError>
    requires order { IsOrder (length loads.now.loads) order.now }
    requires long { length prefix.now ≤ length order.now }
    ensures nodes { IfOk result (λ o. o.nodes ≡ min (node_count_of (shape_of tree.now)) 18446744073709551615) }
    ensures prefixes { IfOk result (λ o. o.prefixes ≡ open_places (line_of (line_rules rules) loads.now) order.now (shape_of tree.now) prefix.now) }
{
    let mut walk = Walk::new(alloc, prefix)?;
    let nodes = mark_open(loads, order, rules, tree, &mut walk)?;
    Ok(Opened {
        nodes,
        prefixes: walk.into_marked(),
    })
}
