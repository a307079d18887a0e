//! The leaf that closes a prefix.

ghost use Rattle.std.specs.Prelude.{◌≡◌, ℕ, ◌<◌, ◌≤◌, IfOk, IfSome, MatchOption, slice_get, slice_set, get_or, Some, None};
ghost use Rattle.ec_loads.specs.Cost.{IsFirstBusiest};
ghost use Rattle.ec_loads.specs.Held.{items_of};
ghost use Rattle.ec_loads.specs.Legal.{Fits};
ghost use Rattle.ec_loads.specs.Line.{Rules, line_of};
ghost use Rattle.ec_loads.specs.Search.{TickHolds, FullHolds, nobody};
ghost use Rattle.ec_bounds.specs.Left.{IsRestOf};
ghost use Rattle.ec_cert.specs.Shapes.{shape_of};
ghost use Rattle.ec_branch.specs.Walks.{IsClosing};

use crate::weighted::weighted_leaf;
use ec_bounds::{Rest, average_bound, full_bound, tick_bound};
use ec_cert::Tree;
use ec_loads::{Excess, Loads};
use ec_units::Place;
use std::alloc::{AllocError, Global};

/// The least tick, and in it the least slot, whose payload is too large.
fn full_leaf(loads: &Loads) -> Option<(u32, u8)>
    ensures { MatchOption result (Fits (items_of loads.now) loads.now.slots)
        (λ f. FullHolds loads.now.loads loads.now.slots loads.now.places f.0 f.1 × (f.0 ≤ 1023)) }
{
    let _ticks = loads.ticks();
    full_bound(loads)
}

/// The least tick that costs at least the value.
fn tick_leaf(loads: &Loads, value: Option<u64>) -> Option<u32>
    ensures { MatchOption result ((t : ℕ) → ¬ (TickHolds loads.now.loads loads.now.slots value loads.now.places t))
        (λ t. TickHolds loads.now.loads loads.now.slots value loads.now.places t × (t ≤ 1023)) }
{
    let _ticks = loads.ticks();
    tick_bound(loads, value)
}

/// The greatest cost of a tick in bytes, and the least tick that has it.
pub(crate) fn top_of(loads: &Loads) -> (u64, u32)
    ensures busiest { IsFirstBusiest (items_of loads.now) loads.now.slots result.0 result.1 }
    ensures short { result.1 ≤ 1023 }
{
    let _ticks = loads.ticks();
    loads.top()
}

/// The leaf that closes the places so far at a value by a payload that is too large, else by a tick that costs at least
/// the value.
pub(crate) fn costly_leaf(loads: &Loads, value: Option<u64>) -> Option<Tree>
    ensures { MatchOption result
        (Fits (items_of loads.now) loads.now.slots × ((t : ℕ) → ¬ (TickHolds loads.now.loads loads.now.slots value loads.now.places t)))
        (λ tree. (rules : Rules) → IsClosing (line_of rules loads.now) value loads.now.places (shape_of tree)) }
{
    if let Some((tick, slot)) = full_leaf(loads) {
        return Some(Tree::FullLeaf(tick, slot));
    }
    if let Some(tick) = tick_leaf(loads, value) {
        return Some(Tree::TickLeaf(tick));
    }
    None
}

/// The leaf without weights that closes the places so far at a value: a payload that is too large, else a tick that
/// costs at least the value, else the average.
fn plain_leaf(loads: &Loads, rest: &Rest, value: Option<u64>) -> Option<Tree>
    requires { IsRestOf rest.now loads.now }
    ensures { MatchOption result
        (Fits (items_of loads.now) loads.now.slots × ((t : ℕ) → ¬ (TickHolds loads.now.loads loads.now.slots value loads.now.places t)))
        (λ tree. (rules : Rules) → IsClosing (line_of rules loads.now) value loads.now.places (shape_of tree)) }
{
    if let Some(leaf) = costly_leaf(loads, value) {
        return Some(leaf);
    }
    if average_bound(loads, rest, value) {
        return Some(Tree::Average);
    }
    None
}

/// The leaf that closes the places so far and one place more for a unit that has none, where its payload is then too
/// large or a tick costs at least the value; none also where that is so without it. The loads stay as they are.
pub(crate) fn raised_leaf(
    loads: &Loads,
    unit: usize,
    place: Place,
    value: Option<u64>,
) -> Option<Tree>
    requires free { slice_get loads.now.places unit ≡ Some None }
    requires phase { place.phase < (get_or loads.now.loads unit nobody).period }
    requires slot { place.slot < loads.now.slots }
    ensures { IfSome result (λ tree. (rules : Rules) → IsClosing (line_of rules loads.now) value (slice_set loads.now.places unit (Some place)) (shape_of tree)) }
{
    let Some(least) = value else {
        return None;
    };
    if full_bound(loads).is_some() || loads.first_at_least(least).is_some() {
        return None;
    }
    let _ticks = loads.ticks();
    match loads.excess(unit, place, least) {
        Some(Excess::Payload(tick)) => Some(Tree::FullLeaf(tick, place.slot)),
        Some(Excess::Cost(tick)) => Some(Tree::TickLeaf(tick)),
        None => None,
    }
}

/// The leaf that closes the places so far at a value: a payload that is too large, else a tick that costs at least
/// the value, else the average, else the average weighted by what the ticks cost; none where the places are to be
/// split or are a better plan.
pub(crate) fn leaf_of(
    alloc: Global,
    loads: &Loads,
    rest: &Rest,
    value: Option<u64>,
) -> Result<Option<Tree>, AllocError>
    requires { IsRestOf rest.now loads.now }
    ensures { IfOk result (λ leaf. MatchOption leaf
        (Fits (items_of loads.now) loads.now.slots × ((t : ℕ) → ¬ (TickHolds loads.now.loads loads.now.slots value loads.now.places t)))
        (λ tree. (rules : Rules) → IsClosing (line_of rules loads.now) value loads.now.places (shape_of tree))) }
{
    match plain_leaf(loads, rest, value) {
        None => weighted_leaf(alloc, loads, rest, value),
        leaf => Ok(leaf),
    }
}
