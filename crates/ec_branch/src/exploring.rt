//! Exploring below a prefix.

ghost use Rattle.std.specs.Prelude.{◌≡◌, ℕ, ◌<◌, ◌≤◌, IfOk, All, length, drop, get_or, slice_get, false, None, Some};
ghost use Rattle.ec_units.specs.Load.{loads_of};
ghost use Rattle.ec_units.specs.declared.slave.Place.{Place as PlaceSpec};
ghost use Rattle.ec_loads.specs.Line.{line_by, line_of};
ghost use Rattle.ec_loads.specs.Search.{IsAtMost, IsPartialTree, node_count, open_count};
ghost use Rattle.ec_symmetry.specs.Orders.{IsOrder, IsReachedPrefix, with_places, prefix_of};
ghost use Rattle.ec_symmetry.specs.Ruled.{line_rules};
ghost use Rattle.ec_bounds.specs.Left.{IsRestOf};
ghost use Rattle.ec_cert.specs.Shapes.{shape_of};
ghost use Rattle.ec_branch.specs.Frames.{Frame, IsFair};

use crate::back::take_back;
use crate::ground::Ground;
use crate::guide::Guide;
use crate::tops::Tops;
use crate::value::Search;
use crate::walk::walk;
use ec_bounds::Rest;
use ec_cert::Subtree;
use ec_loads::Loads;
use ec_symmetry::Rules;
use ec_units::{Place, Units};
use std::alloc::{AllocError, Global};

/// How many of the first units of the order, in turn, have the places of a prefix.
fn standing(loads: &Loads, order: &[u8], prefix: &[Place]) -> usize
    requires order { IsOrder (length loads.now.loads) order.now }
    requires long { length prefix.now ≤ length order.now }
    ensures each { length loads.now.places ≡ length loads.now.loads }
    ensures few { result ≤ length prefix.now }
    ensures stand { (j : ℕ) (e : PlaceSpec) → j < result → slice_get loads.now.places (get_or order.now j 0) ≡ Some (Some (get_or prefix.now j e)) }
{
    let places = loads.places();
    for i in 0..prefix.len() {
        if places[usize::from(order[i])] != Some(prefix[i]) {
            return i;
        }
    }
    prefix.len()
}

/// Takes the places of all but the first `kept` units of the order away, the last first.
fn remove_after(loads: &mut Loads, rest: &mut Rest, order: &[u8], kept: usize)
    requires order { IsOrder (length loads.old.loads) order.now }
    requires each { length loads.old.places ≡ length loads.old.loads }
    requires some { kept ≤ length order.now }
    requires left { IsRestOf rest.old loads.old }
    ensures loads { loads.new.loads ≡ loads.old.loads }
    ensures slots { loads.new.slots ≡ loads.old.slots }
    ensures count { length loads.new.places ≡ length loads.old.places }
    ensures left { IsRestOf rest.new loads.new }
    ensures free { (j : ℕ) → kept ≤ j → j < length order.now → slice_get loads.new.places (get_or order.now j 0) ≡ Some None }
    ensures stand { (j : ℕ) → j < kept → slice_get loads.new.places (get_or order.now j 0) ≡ slice_get loads.old.places (get_or order.now j 0) }
{
    let mut i = order.len();
    while i > kept {
        i -= 1;
        let unit = usize::from(order[i]);
        take_back(loads, rest, unit);
    }
}

/// Gives the first units of the order these places, but the first `kept`, which stand there.
fn place_after(loads: &mut Loads, rest: &mut Rest, order: &[u8], prefix: &[Place], kept: usize)
    requires long { length prefix.now ≤ length order.now }
    requires below { All (λ u. u < length loads.old.places) order.now }
    requires left { IsRestOf rest.old loads.old }
    ensures placed { loads.new ≡ record loads.old { places = with_places loads.old.places (drop kept order.now) (drop kept prefix.now) } }
    ensures left { IsRestOf rest.new loads.new }
{
    for i in kept..prefix.len() {
        let unit = usize::from(order[i]);
        loads.place(unit, prefix[i]);
        rest.placed(unit);
    }
}

/// Gives the first units of the order these places, and the others none, whatever places they had. Those that stand there already
/// are left alone, so it costs little where one prefix is much like the last.
fn place_all(loads: &mut Loads, rest: &mut Rest, order: &[u8], prefix: &[Place])
    requires order { IsOrder (length loads.old.loads) order.now }
    requires long { length prefix.now ≤ length order.now }
    requires left { IsRestOf rest.old loads.old }
    ensures placed { loads.new ≡ record loads.old { places = prefix_of loads.old.loads order.now prefix.now } }
    ensures left { IsRestOf rest.new loads.new }
{
    let kept = standing(loads, order, prefix);
    remove_after(loads, rest, order, kept);
    place_after(loads, rest, order, prefix, kept);
}

/// Explores below a prefix by these rules, as `explore` does, in loads that the caller owns, whatever places the units have there.
/// Afterwards they have those of the prefix, also where memory is refused: the next prefix, which is mostly much like this one, begins
/// from there.
pub fn explore_in<G: Guide>(
    alloc: Global,
    ground: &mut Ground,
    order: &[u8],
    rules: Rules,
    prefix: &[Place],
    guide: &mut G,
    grant: u32,
) -> Result<Subtree, AllocError>
    requires order { IsOrder (length ground.old.loads.loads) order.now }
    requires reached { IsReachedPrefix (line_of (line_rules rules) ground.old.loads) order.now prefix.now }
    requires loads { (G.frame guide.old).loads ≡ ground.old.loads.loads }
    requires slots { (G.frame guide.old).slots ≡ ground.old.loads.slots }
    requires running { G.halted guide.old ≡ false }
    requires some { 1 ≤ grant }
    ensures placed { ground.new.loads ≡ record ground.old.loads { places = prefix_of ground.old.loads.loads order.now prefix.now } }
    ensures frame { G.frame guide.new ≡ G.frame guide.old }
    ensures partial { IfOk result (λ sub. IsPartialTree (line_of (line_rules rules) ground.old.loads) sub.threshold (shape_of sub.tree) (prefix_of ground.old.loads.loads order.now prefix.now) (drop (length prefix.now) order.now)) }
    ensures least { IfOk result (λ sub. IsFair (G.frame guide.old).floor ground.old.loads.loads ground.old.loads.slots sub.threshold) }
    ensures known { IfOk result (λ sub. sub.threshold ≡ G.known guide.new) }
    ensures upper { IfOk result (λ sub. IsAtMost sub.threshold (G.known guide.old)) }
    ensures most { IfOk result (λ sub. node_count (shape_of sub.tree) ≤ grant) }
    ensures exact { IfOk result (λ sub. 0 < open_count (shape_of sub.tree) → G.halted guide.new ≡ false → node_count (shape_of sub.tree) ≡ grant) }
{
    let Ground { loads, rest, .. } = ground;
    place_all(loads, rest, order, prefix);
    let mut search = Search {
        value: None,
        left: grant,
    };
    let later = &order[prefix.len()..];
    let mut tops = Tops::none(alloc);
    let tree = walk(
        alloc,
        loads,
        rest,
        later,
        rules,
        guide,
        &mut search,
        &mut tops,
    )?;
    Ok(Subtree {
        threshold: search.value,
        tree,
    })
}

/// Explores below a prefix: the places of the first units of the order, which the children by these rules reach. Splits and closes at most
/// `grant` nodes, each before its children and the first child first; where these are used up, or the guide stops, the rest stays open. By
/// the strong rules a node is closed also where two slots can be one, where units don't find room, or where new groups cost too much, and
/// not by the average.
///
/// The closed leaves hold at the threshold, the least of all values (costs of a busiest tick, in wire bytes) that the guide answered: what
/// it knows in the end, which is at most what it knew. Of each whole plan below it that is cheaper than the value in use the guide is told.
/// `AllocError` where memory was refused; the guide may then have been asked and told.
pub fn explore<G: Guide>(
    alloc: Global,
    units: &Units,
    order: &[u8],
    rules: Rules,
    prefix: &[Place],
    guide: &mut G,
    grant: u32,
) -> Result<Subtree, AllocError>
    requires order { IsOrder (length units.now.units) order.now }
    requires reached { IsReachedPrefix (line_by (line_rules rules) (loads_of units.now.units) units.now.slots) order.now prefix.now }
    requires loads { (G.frame guide.old).loads ≡ loads_of units.now.units }
    requires slots { (G.frame guide.old).slots ≡ units.now.slots }
    requires running { G.halted guide.old ≡ false }
    requires some { 1 ≤ grant }
    ensures frame { G.frame guide.new ≡ G.frame guide.old }
    ensures partial { IfOk result (λ sub. IsPartialTree (line_by (line_rules rules) (loads_of units.now.units) units.now.slots) sub.threshold (shape_of sub.tree) (prefix_of (loads_of units.now.units) order.now prefix.now) (drop (length prefix.now) order.now)) }
    ensures least { IfOk result (λ sub. IsFair (G.frame guide.old).floor (loads_of units.now.units) units.now.slots sub.threshold) }
    ensures known { IfOk result (λ sub. sub.threshold ≡ G.known guide.new) }
    ensures upper { IfOk result (λ sub. IsAtMost sub.threshold (G.known guide.old)) }
    ensures most { IfOk result (λ sub. node_count (shape_of sub.tree) ≤ grant) }
    ensures exact { IfOk result (λ sub. 0 < open_count (shape_of sub.tree) → G.halted guide.new ≡ false → node_count (shape_of sub.tree) ≡ grant) }
{
    let mut ground = Ground::new(alloc, units)?;
    explore_in(alloc, &mut ground, order, rules, prefix, guide, grant)
}
