//! The walk over a tree.

ghost use Rattle.std.specs.Prelude.{◌≡◌, ℕ, ◌<◌, ◌≤◌};
ghost use Rattle.ec_loads.specs.Line.{line_of};
ghost use Rattle.ec_bounds.specs.Left.{IsRestOf};
ghost use Rattle.ec_cert.specs.Shapes.{shape_of};
ghost use Rattle.ec_symmetry.specs.Ruled.{line_rules};
ghost use Rattle.ec_checker.specs.Judged.{IsReady, tree_judged};

use crate::fault::CheckFault;
use crate::leaf::{
    average_holds, count_holds, full_holds, groups_hold, judged, level_holds, merge_holds,
    tick_holds, weights_hold,
};
use ec_bounds::Rest;
use ec_cert::Tree;
use ec_loads::Loads;
use ec_symmetry::{Rules, children_by};

/// Whether a tree holds at the places so far, its children by these rules, its open leaves at the level, which none do where there is no
/// level: the number of the node after it, or its first fault. The places are as before afterwards. Each node is visited once, and no
/// recursion is deeper than the order is long.
pub(crate) fn walk(
    loads: &mut Loads,
    rest: &mut Rest,
    rules: Rules,
    value: Option<u64>,
    level: Option<u64>,
    order: &[u8],
    tree: &Tree,
    number: usize,
) -> Result<usize, CheckFault>
    requires ready { IsReady loads.old.places order.now }
    requires left { IsRestOf rest.old loads.old }
    ensures same { loads.new ≡ loads.old }
    ensures left { IsRestOf rest.new loads.new }
    ensures judged { result ≡ tree_judged (line_of (line_rules rules) loads.old) value level (shape_of tree.now) loads.old.places order.now number }
{
    match tree {
        Tree::Split(trees) => match order.split_first() {
            None => Err(CheckFault::Depth(number)),
            Some((unit, later)) => {
                let trees = trees.as_ref();
                let unit = usize::from(*unit);
                let mut places = children_by(loads, unit, rules);
                if trees.len() != places.len() {
                    return Err(CheckFault::Children(number, places.len(), trees.len()));
                }
                let mut at = number.saturating_add(1);
                for i in 0..trees.len() {
                    let Some(place) = places.next() else {
                        return Ok(at);
                    };
                    loads.place(unit, place);
                    rest.placed(unit);
                    let child = walk(loads, rest, rules, value, level, later, &trees[i], at);
                    loads.remove(unit);
                    rest.unplaced(unit);
                    at = child?;
                }
                Ok(at)
            }
        },
        Tree::TickLeaf(tick) => judged(tick_holds(loads, value, *tick), number),
        Tree::FullLeaf(tick, slot) => judged(full_holds(loads, *tick, *slot), number),
        Tree::Average => judged(average_holds(loads, rest, value), number),
        Tree::Weights(weights) => judged(
            weights_hold(loads, rest, value, weights.as_slice()),
            number,
        ),
        Tree::OpenLeaf => judged(level_holds(loads, rest, level), number),
        Tree::Merge => judged(merge_holds(loads, rules, value), number),
        Tree::Count { period, bytes } => judged(
            count_holds(loads, rest, rules, *period, *bytes, value),
            number,
        ),
        Tree::Groups(pairs) => judged(
            groups_hold(loads, rest, rules, pairs.as_slice(), value),
            number,
        ),
    }
}
