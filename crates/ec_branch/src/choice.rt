//! The leaf that closes a prefix, by the rules of the search.

ghost use Rattle.std.specs.Prelude.{◌≡◌, ℕ, ◌<◌, IfOk, IfSome, MatchOption, slice_get, slice_set, get_or, Some, None};
ghost use Rattle.ec_loads.specs.Held.{items_of};
ghost use Rattle.ec_loads.specs.Legal.{Fits};
ghost use Rattle.ec_loads.specs.Line.{line_of};
ghost use Rattle.ec_loads.specs.Search.{TickHolds, nobody};
ghost use Rattle.ec_symmetry.specs.Ruled.{line_rules};
ghost use Rattle.ec_bounds.specs.Left.{IsRestOf};
ghost use Rattle.ec_cert.specs.Shapes.{shape_of};
ghost use Rattle.ec_branch.specs.Walks.{IsClosing};

use crate::leaf::{leaf_of, raised_leaf};
use crate::strong_leaf::{is_merged, strong_leaf};
use crate::tops::Tops;
use ec_bounds::Rest;
use ec_cert::Tree;
use ec_loads::Loads;
use ec_symmetry::Rules;
use ec_units::Place;
use std::alloc::{AllocError, Global};

/// The leaf that closes the places so far at a value, by these rules; none where the places are to be split or are a
/// better plan. The order names the units without a place; the tops are theirs. A unit is above slot 0 only where `above` says so.
pub(crate) fn leaf_by(
    alloc: Global,
    loads: &Loads,
    rest: &Rest,
    order: &[u8],
    value: Option<u64>,
    rules: Rules,
    above: bool,
    tops: &mut Tops,
) -> Result<Option<Tree>, AllocError>
    requires { IsRestOf rest.now loads.now }
    ensures { IfOk result (λ leaf. MatchOption leaf
        (Fits (items_of loads.now) loads.now.slots × ((t : ℕ) → ¬ (TickHolds loads.now.loads loads.now.slots value loads.now.places t)))
        (λ tree. IsClosing (line_of (line_rules rules) loads.now) value loads.now.places (shape_of tree))) }
{
    match rules {
        Rules::Plain => leaf_of(alloc, loads, rest, value),
        Rules::Turned => leaf_of(alloc, loads, rest, value),
        Rules::Strong => strong_leaf(alloc, loads, rest, order, value, above, tops),
    }
}

/// The leaf that closes the places so far and one place more for a unit that has none, by these rules, where that can be
/// told without giving it its place: by the strong rules two slots that can be one; then a payload that is too large or
/// a tick that costs at least the value, none also where that is so without it. The loads stay as they are.
pub(crate) fn raised_by(
    loads: &Loads,
    unit: usize,
    place: Place,
    value: Option<u64>,
    rules: Rules,
    above: bool,
) -> Option<Tree>
    requires free { slice_get loads.now.places unit ≡ Some None }
    requires phase { place.phase < (get_or loads.now.loads unit nobody).period }
    requires slot { place.slot < loads.now.slots }
    ensures { IfSome result (λ tree. IsClosing (line_of (line_rules rules) loads.now) value (slice_set loads.now.places unit (Some place)) (shape_of tree)) }
{
    match rules {
        Rules::Plain => raised_leaf(loads, unit, place, value),
        Rules::Turned => raised_leaf(loads, unit, place, value),
        Rules::Strong => {
            if is_merged(loads, place, value, above) {
                return Some(Tree::Merge);
            }
            raised_leaf(loads, unit, place, value)
        }
    }
}
