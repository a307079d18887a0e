//! The greatest level that a tree with open leaves shows.

ghost use Rattle.std.specs.Prelude.{◌≡◌, ◌⊎◌, ℕ, ◌<◌, ◌≤◌, ◌↔◌, IsTrue, All, Some, None, IfOk, length, slice_get};
ghost use Rattle.ec_units.specs.Load.{loads_of};
ghost use Rattle.ec_loads.specs.Held.{no_places};
ghost use Rattle.ec_loads.specs.Line.{Rules as LineRules, line_of, line_by};
ghost use Rattle.ec_loads.specs.Search.{LevelHolds, IsPartialTree, IsAtMost, open_count};
ghost use Rattle.ec_bounds.specs.Left.{IsRestOf};
ghost use Rattle.ec_cert.specs.IsBestPlan.{value_of, IsBestPlan};
ghost use Rattle.ec_loads.specs.Shape.{open_leaf};
ghost use Rattle.ec_cert.specs.Shapes.{shape_of, shapes_of};
ghost use Rattle.ec_symmetry.specs.Orders.{IsOrder};
ghost use Rattle.ec_symmetry.specs.Ruled.{line_rules};
ghost use Rattle.ec_checker.specs.Judged.{IsReady};
ghost use Rattle.ec_checker.specs.Levels.{IsGreatestLevel, IsLowered, AreAtMost, AreIn};

use crate::look::looks_closed;
use ec_bounds::{Rest, average_level};
use ec_cert::{Best, MOST_BUSIEST, Tree};
use ec_loads::Loads;
use ec_symmetry::{Rules, children_by};
use ec_units::Units;
use std::alloc::{AllocError, Global};

/// The greatest level that is neither above 12,304 nor above what the best plan costs, if there is one.
fn most_level(best: &Option<Best>) -> u64
    ensures { (m : ℕ) → ((m ≤ result) ↔ ((m ≤ 12304) × IsAtMost (Some m) (value_of best.now))) }
{
    match best {
        None => MOST_BUSIEST,
        Some(best) => MOST_BUSIEST.min(best.busiest),
    }
}

/// The greatest level that holds at the places so far: the greatest cost of a tick, or what the average of all is at
/// least.
fn open_level(loads: &Loads, rest: &Rest) -> u64
    requires { IsRestOf rest.now loads.now }
    ensures { (rules : LineRules) (m : ℕ) → ((m ≤ result) ↔ LevelHolds (line_of rules loads.now) (Some m) loads.now.places) }
{
    let (most, _) = loads.top();
    most.max(average_level(loads, rest))
}

/// Whether it is seen without a look inside that no leaf of a tree lowers a level, where this level holds at the places that lead
/// to the tree, or at those that they extend.
fn is_passed(level: u64, here: u64, tree: &Tree) -> bool
    ensures { IsTrue result → (level ≤ here) ⊎ (open_count (shape_of tree.now) ≡ 0) }
{
    match tree {
        Tree::Split(_) | Tree::OpenLeaf => level <= here,
        _ => true,
    }
}

/// Whether it is soon seen that no leaf of a tree lowers a level, where this level holds at the places that lead to the tree: the
/// level isn't above it, or no leaf is open.
fn is_kept(level: u64, here: u64, tree: &Tree) -> bool
    ensures { IsTrue result → (level ≤ here) ⊎ (open_count (shape_of tree.now) ≡ 0) }
{
    level <= here || looks_closed(tree)
}

/// Whether a tree is an open leaf.
fn is_open(tree: &Tree) -> bool
    ensures { IsTrue result → shape_of tree.now ≡ open_leaf }
{
    match tree {
        Tree::OpenLeaf => true,
        _ => false,
    }
}

/// What the trees for the children of a unit lower a level to that are open leaves themselves. The places are as before
/// afterwards.
fn lowered_at_once(
    loads: &mut Loads,
    rest: &mut Rest,
    rules: Rules,
    level: u64,
    unit: usize,
    trees: &[Tree],
) -> u64
    requires free { slice_get loads.old.places unit ≡ Some None }
    requires left { IsRestOf rest.old loads.old }
    ensures same { loads.new ≡ loads.old }
    ensures left { IsRestOf rest.new loads.new }
    ensures low { result ≤ level }
    ensures most { AreAtMost (line_of (line_rules rules) loads.old) (shapes_of trees.now) loads.old.places unit level result }
{
    let mut places = children_by(loads, unit, rules);
    let mut least = level;
    for i in 0..trees.len() {
        let Some(place) = places.next() else {
            return least;
        };
        if is_open(&trees[i]) {
            loads.place(unit, place);
            rest.placed(unit);
            least = least.min(open_level(loads, rest));
            loads.remove(unit);
            rest.unplaced(unit);
        }
    }
    least
}

/// The greatest level of at most this one that holds at each open leaf of a tree for the places so far, its children
/// by these rules. The places are as before afterwards. Where the level holds at the places themselves it holds below them, so
/// nothing is looked at there; to lower it soon, the open leaves of a split are looked at before its other trees. No recursion is
/// deeper than the order is long.
fn lowered(
    loads: &mut Loads,
    rest: &mut Rest,
    rules: Rules,
    level: u64,
    order: &[u8],
    tree: &Tree,
) -> u64
    requires ready { IsReady loads.old.places order.now }
    requires left { IsRestOf rest.old loads.old }
    requires slots { AreIn loads.old.slots loads.old.loads loads.old.places }
    requires units { All (λ u. u < length loads.old.loads) order.now }
    ensures same { loads.new ≡ loads.old }
    ensures left { IsRestOf rest.new loads.new }
    ensures lowered { IsLowered (line_of (line_rules rules) loads.old) (shape_of tree.now) loads.old.places order.now level result }
{
    match tree {
        Tree::Split(trees) => match order.split_first() {
            None => level,
            Some((unit, later)) => {
                let _ticks = loads.ticks();
                let here = open_level(loads, rest);
                if level <= here {
                    return level;
                }
                let trees = trees.as_ref();
                let unit = usize::from(*unit);
                let first = lowered_at_once(loads, rest, rules, level, unit, trees.as_slice());
                if is_kept(first, here, tree) {
                    return first;
                }
                let mut places = children_by(loads, unit, rules);
                let mut least = first;
                for i in 0..trees.len() {
                    let Some(place) = places.next() else {
                        return least;
                    };
                    if !is_passed(least, here, &trees[i]) {
                        loads.place(unit, place);
                        rest.placed(unit);
                        least = lowered(loads, rest, rules, least, later, &trees[i]);
                        loads.remove(unit);
                        rest.unplaced(unit);
                    }
                }
                least
            }
        },
        Tree::OpenLeaf => level.min(open_level(loads, rest)),
        Tree::TickLeaf(_) | Tree::FullLeaf(_, _) | Tree::Average | Tree::Weights(_) => level,
        Tree::Merge | Tree::Count { .. } | Tree::Groups(_) => level,
    }
}

/// The greatest level that a tree by these rules with open leaves shows, in wire bytes: the least, over its open leaves, of the greatest
/// one that holds there, by a tick of its places or by the average, and above neither what the best plan costs nor
/// 12,304.
///
/// The loads are those of the units, with no place, and are so again afterwards. Takes no memory.
pub fn level_in(
    loads: &mut Loads,
    units: &Units,
    rules: Rules,
    order: &[u8],
    tree: &Tree,
    best: &Option<Best>,
) -> u64
    requires loads { loads.old ≡ record { loads = loads_of units.now.units; slots = units.now.slots; places = no_places (loads_of units.now.units) } }
    requires order { IsOrder (length units.now.units) order.now }
    requires partial { IsPartialTree (line_by (line_rules rules) (loads_of units.now.units) units.now.slots) (value_of best.now) (shape_of tree.now) (no_places (loads_of units.now.units)) order.now }
    requires best { IsBestPlan (loads_of units.now.units) units.now.slots best.now }
    ensures same { loads.new ≡ loads.old }
    ensures level { IsGreatestLevel (line_by (line_rules rules) (loads_of units.now.units) units.now.slots) (value_of best.now) (shape_of tree.now) order.now result }
{
    let mut rest = Rest::all(units);
    lowered(loads, &mut rest, rules, most_level(best), order, tree)
}

/// What `level_in` gives, over loads that are made for it. It takes memory once, for the places of the units; `AllocError` where that ran
/// out.
pub fn level(
    alloc: Global,
    units: &Units,
    rules: Rules,
    order: &[u8],
    tree: &Tree,
    best: &Option<Best>,
) -> Result<u64, AllocError>
    requires order { IsOrder (length units.now.units) order.now }
    requires partial { IsPartialTree (line_by (line_rules rules) (loads_of units.now.units) units.now.slots) (value_of best.now) (shape_of tree.now) (no_places (loads_of units.now.units)) order.now }
    requires best { IsBestPlan (loads_of units.now.units) units.now.slots best.now }
    ensures { IfOk result (IsGreatestLevel (line_by (line_rules rules) (loads_of units.now.units) units.now.slots) (value_of best.now) (shape_of tree.now) order.now) }
{
    let mut loads = Loads::new(alloc, units)?;
    Ok(level_in(&mut loads, units, rules, order, tree, best))
}
