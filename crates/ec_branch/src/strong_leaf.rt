//! The leaf that closes a prefix by the strong rules.

ghost use Rattle.std.specs.Prelude.{◌≡◌, ℕ, ◌<◌, ◌≤◌, IfOk, IfSome, MatchOption, IsTrue, length, slice_get, slice_set, Some, None};
ghost use Rattle.ec_loads.specs.Held.{items_of};
ghost use Rattle.ec_loads.specs.Legal.{Fits};
ghost use Rattle.ec_loads.specs.Line.{strong, line_of};
ghost use Rattle.ec_loads.specs.Rooms.{MergeHolds};
ghost use Rattle.ec_loads.specs.Search.{TickHolds, Prefix};
ghost use Rattle.ec_bounds.specs.Left.{IsRestOf};
ghost use Rattle.ec_cert.specs.Shapes.{shape_of};
ghost use Rattle.ec_branch.specs.Walks.{IsClosing};

use crate::classes::{MOST_LIMIT, Rooms, fill_rooms, is_crowded};
use crate::leaf::costly_leaf;
use crate::needs::{Need, Size, period_in};
use crate::pairs::{most_group_bytes, pairs_of};
use crate::tops::Tops;
use crate::waiting::MOST_PERIOD;
use ec_bounds::{MOST_MERGED, Rest, count_bound_at, groups_bound_at, merge_bound};
use ec_cert::{Pairs, Tree};
use ec_loads::Loads;
use ec_units::Place;
use std::alloc::{AllocError, Global};

/// Whether two slots can be one at a value where one more unit gets this place. They are known not to be before, where no
/// unit is `above` slot 0.
pub(crate) fn is_merged(loads: &Loads, place: Place, value: Option<u64>, above: bool) -> bool
    ensures { IsTrue result → (unit : ℕ) → slice_get loads.now.places unit ≡ Some None → MergeHolds value (slice_set loads.now.places unit (Some place)) }
{
    let Some(least) = value else {
        return false;
    };
    if least > MOST_MERGED {
        return false;
    }
    if place.slot > 0 {
        return true;
    }
    above && merge_bound(loads, value)
}

/// The bytes of a size.
fn bytes_in(size: Size) -> u16
    ensures least { 1 ≤ result }
    ensures most { result ≤ 1486 }
{
    size.bytes.clamp(1, 1486)
}

/// The leaf by counting units of a period, by these rooms of its classes, where it holds at the value: by the greatest
/// bytes by which it does.
fn sized_leaf(
    loads: &Loads,
    rest: &Rest,
    tops: &Tops,
    left: usize,
    need: Need,
    rooms: &[u32],
    all: Rooms,
    value: Option<u64>,
) -> Option<Tree>
    requires few { length rooms.now ≤ 60 }
    requires open { all.open ≤ 6000000 }
    requires closed { all.closed ≤ 6000000 }
    requires left { IsRestOf rest.now loads.now }
    ensures { IfSome result (λ tree. IsClosing (line_of strong loads.now) value loads.now.places (shape_of tree)) }
{
    let period = period_in(need);
    for size in tops.needs().sizes(need) {
        let bytes = bytes_in(*size);
        if is_crowded(rooms, all, *size)
            && count_bound_at(loads, rest, &tops.ticks(left), period, bytes, value)
        {
            return Some(Tree::Count { period, bytes });
        }
    }
    None
}

/// The leaf by counting units of a period, whose classes are made where so many units are left, where it holds at the
/// value. The bytes of a hyperperiod that their new groups may cost are added to `most`.
fn period_leaf(
    loads: &Loads,
    rest: &Rest,
    tops: &Tops,
    left: usize,
    need: Need,
    limit: u32,
    value: Option<u64>,
    most: &mut u64,
) -> Option<Tree>
    requires limit { limit ≤ 100000 }
    requires left { IsRestOf rest.now loads.now }
    ensures { IfSome result (λ tree. IsClosing (line_of strong loads.now) value loads.now.places (shape_of tree)) }
{
    let mut rooms = [0u32; MOST_PERIOD];
    let row = tops.row(need, left);
    let all = fill_rooms(row, limit, &mut rooms);
    *most = most.saturating_add(most_group_bytes(need, all));
    sized_leaf(
        loads,
        rest,
        tops,
        left,
        need,
        &rooms[..row.len()],
        all,
        value,
    )
}

/// The leaf by counting units where it holds at the value: by the least period by which it does. The classes of the
/// periods up to there, or of all, are made where so many units are left.
fn counted_leaf(
    loads: &Loads,
    rest: &Rest,
    tops: &mut Tops,
    left: usize,
    limit: u32,
    value: Option<u64>,
    most: &mut u64,
) -> Option<Tree>
    requires limit { limit ≤ 100000 }
    requires left { IsRestOf rest.now loads.now }
    ensures { IfSome result (λ tree. IsClosing (line_of strong loads.now) value loads.now.places (shape_of tree)) }
{
    let last = tops.last(loads, left);
    let (first, end) = tops.needs().range(left);
    for number in first..end {
        if let Some(need) = tops.needs().need(number) {
            tops.make(loads, need, left, last);
            if let Some(leaf) = period_leaf(loads, rest, tops, left, need, limit, value, most) {
                return Some(leaf);
            }
        }
    }
    None
}

/// The leaf by new groups where it holds at the value.
fn grouped_leaf(
    alloc: Global,
    loads: &Loads,
    rest: &Rest,
    tops: &Tops,
    left: usize,
    limit: u32,
    value: Option<u64>,
) -> Result<Option<Tree>, AllocError>
    requires limit { limit ≤ 100000 }
    requires left { IsRestOf rest.now loads.now }
    ensures { IfOk result (λ leaf. IfSome leaf (λ tree. IsClosing (line_of strong loads.now) value loads.now.places (shape_of tree))) }
{
    let pairs = pairs_of(alloc, tops, left, limit)?;
    if pairs.is_empty() {
        return Ok(None);
    }
    if groups_bound_at(loads, rest, &tops.ticks(left), pairs.as_slice(), value) {
        let held = Pairs::new(alloc, pairs)?;
        return Ok(Some(Tree::Groups(held)));
    }
    Ok(None)
}

/// One byte less than a value, at most the limit at which every unit has room.
fn limit_of(value: Option<u64>) -> u32
    ensures { result ≤ 100000 }
{
    match value {
        Some(value) => value.saturating_sub(1).min(u64::from(MOST_LIMIT)) as u32,
        None => MOST_LIMIT,
    }
}

/// The leaf by the room that is left, where one holds at the value: by counting units, else by new groups. The order
/// names the units without a place, and the tops are of these, once they are made, and of units that got their place.
fn roomless_leaf(
    alloc: Global,
    loads: &Loads,
    rest: &Rest,
    order: &[u8],
    value: Option<u64>,
    tops: &mut Tops,
) -> Result<Option<Tree>, AllocError>
    requires { IsRestOf rest.now loads.now }
    ensures { IfOk result (λ leaf. IfSome leaf (λ tree. IsClosing (line_of strong loads.now) value loads.now.places (shape_of tree))) }
{
    if tops.is_none() {
        *tops = Tops::of(alloc, loads, order)?;
    }
    let left = order.len();
    let limit = limit_of(value);
    let mut most = loads.raw_total() + rest.demand();
    if let Some(leaf) = counted_leaf(loads, rest, tops, left, limit, value, &mut most) {
        return Ok(Some(leaf));
    }
    if most <= u64::from(limit) * u64::from(loads.ticks()) {
        return Ok(None);
    }
    grouped_leaf(alloc, loads, rest, tops, left, limit, value)
}

/// The leaf that closes the places so far at a value by the strong rules: two slots that can be one, else a payload that
/// is too large, else a tick that costs at least the value, else units that don't find room, else new groups that cost
/// too much; none where the places are to be split or are a better plan. The order names the units without a place. No two
/// slots can be one where no unit is `above` slot 0.
pub(crate) fn strong_leaf(
    alloc: Global,
    loads: &Loads,
    rest: &Rest,
    order: &[u8],
    value: Option<u64>,
    above: bool,
    tops: &mut Tops,
) -> Result<Option<Tree>, AllocError>
    requires { IsRestOf rest.now loads.now }
    ensures { IfOk result (λ leaf. MatchOption leaf
        (Fits (items_of loads.now) loads.now.slots × ((t : ℕ) → ¬ (TickHolds loads.now.loads loads.now.slots value loads.now.places t)))
        (λ tree. IsClosing (line_of strong loads.now) value loads.now.places (shape_of tree))) }
{
    if above && merge_bound(loads, value) {
        return Ok(Some(Tree::Merge));
    }
    match costly_leaf(loads, value) {
        None => roomless_leaf(alloc, loads, rest, order, value, tops),
        Some(leaf) => Ok(Some(leaf)),
    }
}
