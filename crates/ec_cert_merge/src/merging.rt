//! Two certificates made one.

ghost use Rattle.std.specs.Prelude.{◌≡◌, ◌⊎◌, None};
ghost use Rattle.ec_loads.specs.Search.{open_count};
ghost use Rattle.ec_cert.specs.Shapes.{cert_view, shape_of};
ghost use Rattle.ec_cert.specs.Versions.{rules_of};
ghost use Rattle.ec_cert_merge.specs.Certs.{FitTogether, IsLesserBest, IsLevelOfBoth, IsProven, version_by};
ghost use Rattle.ec_cert_merge.specs.Merged.{IsMerged};

use crate::tree::merged;
use crate::version::version_for;
use ec_cert::{Best, Cert, Tree, is_closed};
use ec_tree::law_levels_bound;
use ec_units::Units;

/// Of two best plans the lesser one, and of two that cost the same the first; none is above every other.
fn lesser(first: Option<Best>, second: Option<Best>) -> Option<Best>
    ensures { IsLesserBest first second result }
{
    match first {
        None => second,
        Some(best) => match second {
            None => Some(best),
            Some(other) => {
                if other.busiest < best.busiest {
                    Some(other)
                } else {
                    Some(best)
                }
            }
        },
    }
}

/// The level of a merged tree: where a leaf is open the greater of two, else none.
fn level_of(first: Option<u64>, second: Option<u64>, tree: &Tree) -> Option<u64>
    requires first { first ≡ None → open_count (shape_of tree.now) ≡ 0 }
    requires second { second ≡ None → open_count (shape_of tree.now) ≡ 0 }
    ensures { IsLevelOfBoth first second (shape_of tree.now) result }
{
    if is_closed(tree) {
        return None;
    }
    match first {
        None => None,
        Some(first) => match second {
            None => None,
            Some(second) => Some(first.max(second)),
        },
    }
}

/// One certificate of two for the same units: the lesser value with its plan, the first's where both are the same, and a
/// tree that has at each node what is more than an open leaf in either of them: where both have splits, the merges of
/// their children; where one has a closed leaf, that one, and the first's where both have.
///
/// Where a leaf is still open it has the greater of their levels; else it has none, and shows its value. Its order is
/// theirs, and so are the rules of its version. The trees are moved; it takes no memory, and no recursion is deeper than
/// the trees.
pub fn merge(units: &Units, first: Cert, second: Cert) -> Cert
    requires first { IsProven units.now.units units.now.slots (cert_view first) }
    requires second { IsProven units.now.units units.now.slots (cert_view second) }
    requires fit { FitTogether (cert_view first) (cert_view second) }
    ensures proven { IsProven units.now.units units.now.slots (cert_view result) }
    ensures order { result.order ≡ first.order }
    ensures rules { rules_of result.version ≡ rules_of first.version }
    ensures version { result.version ≡ version_by (rules_of first.version) result.level }
    ensures best { IsLesserBest first.best second.best result.best }
    ensures tree { IsMerged (shape_of first.tree) (shape_of second.tree) (shape_of result.tree) }
    ensures level { IsLevelOfBoth first.level second.level (shape_of result.tree) result.level }
{
    law_levels_bound();
    let tree = merged(first.tree, second.tree);
    let best = lesser(first.best, second.best);
    let level = level_of(first.level, second.level, &tree);
    Cert {
        version: version_for(first.version, level),
        slots: units.slots,
        units: first.units,
        order: first.order,
        best,
        level,
        tree,
    }
}
