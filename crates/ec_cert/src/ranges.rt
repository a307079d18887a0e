//! Which certificates have a text.

ghost use Rattle.std.specs.Prelude.{◌≡◌, ℕ, ◌<◌, ◌≤◌, ◌↔◌, length, IsTrue};
ghost use Rattle.std.specs.List.{All};
ghost use Rattle.ec_loads.specs.Search.{IsShortPair};
ghost use Rattle.ec_cert.specs.Shapes.{shape_of, shapes_of, cert_view};
ghost use Rattle.ec_cert.specs.WellFormed.{HasLevels, HaveLevels, IsUnitLine, IsPlaceLine, AreWeights, IsCountLine, ArePairs, IsBest, IsBestOrNone, IsLevelLine, IsWellFormed};

use crate::cert::{Best, Cert};
use crate::kinds::{Kinds, kinds_of};
use crate::lists::UnitLine;
use crate::tree::Tree;
use ec_loads::Pair;
use ec_units::{Place, is_name};

/// The most that the busiest tick of a legal plan costs, in wire bytes: eight frames of the greatest length.
pub const MOST_BUSIEST: u64 = 12304;

/// The most levels of a tree: no node has more than 48 splits above it.
pub const LEVELS: u8 = 49;

fn is_unit_line(unit: &UnitLine) -> bool
    ensures { IsTrue result ↔ IsUnitLine unit.now }
{
    is_name(unit.name.as_str().as_bytes())
        && 1 <= unit.bytes
        && unit.bytes <= 1486
        && 1 <= unit.period
        && unit.period <= 60
}

fn are_unit_lines(units: &[UnitLine]) -> bool
    ensures { IsTrue result ↔ All IsUnitLine units.now }
{
    units.iter().all(is_unit_line)
}

/// Whether each number is below that of the units. Takes no memory.
pub fn are_below(order: &[u8], units: usize) -> bool
    ensures { IsTrue result ↔ All (λ i. i < units) order.now }
{
    order.iter().all(|unit| usize::from(*unit) < units)
}

fn are_places(places: &[Place]) -> bool
    ensures { IsTrue result ↔ All IsPlaceLine places.now }
{
    places
        .iter()
        .all(|place| place.phase <= 59 && place.slot <= 7)
}

fn is_best(best: &Best, units: usize) -> bool
    ensures { IsTrue result ↔ IsBest units best.now }
{
    let places = best.plan.places.as_slice();
    84 <= best.busiest
        && best.busiest <= MOST_BUSIEST
        && places.len() == units
        && are_places(places)
}

/// Whether certificates of this version have such a level.
fn is_level(version: u8, level: Option<u64>) -> bool
    ensures { IsTrue result ↔ IsLevelLine version level }
{
    match level {
        None => version <= 2 || 4 <= version,
        Some(level) => 3 <= version && level <= MOST_BUSIEST,
    }
}

fn is_child_count(count: usize) -> bool
    ensures { IsTrue result ↔ ((1 ≤ count) × (count ≤ 480)) }
{
    1 <= count && count <= 480
}

/// Whether there are 1 to 1024 weights.
fn are_weights(weights: &[u16]) -> bool
    ensures { IsTrue result ↔ AreWeights weights.now }
{
    1 <= weights.len() && weights.len() <= 1024
}

/// Whether units that are counted have a period of 1 to 60 ticks and 1 to 1486 bytes.
fn is_count(period: u16, bytes: u16) -> bool
    ensures { IsTrue result ↔ IsCountLine period bytes }
{
    1 <= period && period <= 60 && 1 <= bytes && bytes <= 1486
}

/// Whether the room of a pair is at most 12304 bytes.
fn is_pair(pair: &Pair) -> bool
    ensures { IsTrue result ↔ IsShortPair pair.now }
{
    let pair = *pair;
    pair.room <= 12304
}

fn are_short(pairs: &[Pair]) -> bool
    ensures { IsTrue result ↔ All IsShortPair pairs.now }
{
    pairs.iter().all(is_pair)
}

/// Whether there are 1 to 48 pairs, in range.
fn are_pairs(pairs: &[Pair]) -> bool
    ensures { IsTrue result ↔ ArePairs pairs.now }
{
    1 <= pairs.len() && pairs.len() <= 48 && are_short(pairs)
}

/// Whether the numbers of a tree are in range, there may be leaves of their kinds, and it has at most so many levels.
#[cycle(levels)]
fn has_levels(kinds: Kinds, tree: &Tree, levels: u8) -> bool
    ensures { IsTrue result ↔ HasLevels kinds levels (shape_of tree.now) }
{
    if levels == 0 {
        return false;
    }
    match tree {
        Tree::Split(trees) => {
            let trees = trees.as_ref();
            is_child_count(trees.len()) && have_levels(kinds, trees, levels - 1)
        }
        Tree::TickLeaf(tick) => *tick <= 1023,
        Tree::FullLeaf(tick, slot) => *tick <= 1023 && *slot <= 7,
        Tree::Average => true,
        Tree::Weights(weights) => kinds.weights && are_weights(weights.as_slice()),
        Tree::OpenLeaf => kinds.left_open,
        Tree::Merge => kinds.rooms,
        Tree::Count { period, bytes } => kinds.rooms && is_count(*period, *bytes),
        Tree::Groups(pairs) => kinds.rooms && are_pairs(pairs.as_slice()),
    }
}

#[cycle(levels)]
fn have_levels(kinds: Kinds, trees: &Vec<Tree>, levels: u8) -> bool
    ensures { IsTrue result ↔ HaveLevels kinds levels (shapes_of trees.now.items) }
{
    'children: for tree in trees {
        if !has_levels(kinds, tree, levels) {
            return false;
        }
    }
    true
}

/// Whether a certificate has a text: its parts are in the ranges of the text and of its version, its counts
/// agree, and no node has more than 48 splits above it. Takes no memory.
pub fn well_formed(cert: &Cert) -> bool
    ensures { IsTrue result ↔ IsWellFormed (cert_view cert.now) }
{
    let units = cert.units.as_slice();
    let order = cert.order.as_slice();
    let is_best_right = match &cert.best {
        None => true,
        Some(best) => is_best(best, units.len()),
    };
    let kinds = kinds_of(cert.version, cert.level);
    1 <= cert.version
        && cert.version <= 4
        && 1 <= cert.slots
        && cert.slots <= 8
        && 1 <= units.len()
        && units.len() <= 48
        && are_unit_lines(units)
        && order.len() == units.len()
        && are_below(order, units.len())
        && is_best_right
        && is_level(cert.version, cert.level)
        && has_levels(kinds, &cert.tree, LEVELS)
}
