//! A node: closed, told to the guide, or split.

ghost use Rattle.std.specs.Prelude.{◌≡◌, IfOk, true};
ghost use Rattle.ec_loads.specs.Line.{line_of};
ghost use Rattle.ec_symmetry.specs.Latest.{IsLastChild};
ghost use Rattle.ec_symmetry.specs.Ruled.{line_rules};
ghost use Rattle.ec_bounds.specs.Left.{IsRestOf};
ghost use Rattle.ec_branch.specs.Frames.{Frame};
ghost use Rattle.ec_branch.specs.Stacks.{State, IsAsked, IsEntered, state_of};
ghost use Rattle.ec_branch.specs.Walks.{IsReadyFor};

use crate::choice::leaf_by;
use crate::guide::Guide;
use crate::leaf::top_of;
use crate::level::Level;
use crate::plan::whole;
use crate::tops::Tops;
use crate::value::Search;
use ec_bounds::Rest;
use ec_cert::Tree;
use ec_loads::Loads;
use ec_symmetry::{Rules, children_after_last};
use std::alloc::{AllocError, Global};

/// What became of a node.
#[derive(Drop)]
pub(crate) enum Entered {
    /// It is this leaf.
    Leaf(Tree),
    /// It is split; no child has a tree yet.
    Split(Level),
}

/// Closes the node at the places so far, for which the guide was asked, or tells the guide of the plan that they make,
/// or splits the node by the next unit, all by these rules. The node stays open where the guide then stops. The unit that got
/// its place last is named, if one got it on the way here.
pub(crate) fn enter<G: Guide>(
    alloc: Global,
    loads: &Loads,
    rest: &Rest,
    order: &[u8],
    rules: Rules,
    guide: &mut G,
    search: &mut Search,
    above: bool,
    last: Option<usize>,
    tops: &mut Tops,
) -> Result<Entered, AllocError>
    requires ready { IsReadyFor loads.now.loads loads.now.slots loads.now.places order.now }
    requires left { IsRestOf rest.now loads.now }
    requires units { (G.frame guide.old).loads ≡ loads.now.loads }
    requires slots { (G.frame guide.old).slots ≡ loads.now.slots }
    requires last { IsLastChild (line_of (line_rules rules) loads.now) loads.now.places last }
    requires asked { (from : State) × IsAsked (G.frame guide.old).floor from (state_of search.old (G.halted guide.old) (G.known guide.old)) }
    ensures frame { G.frame guide.new ≡ G.frame guide.old }
    ensures stays { G.halted guide.old ≡ true → G.halted guide.new ≡ true }
    ensures entered { IfOk result (λ node. (from : State) → IsAsked (G.frame guide.old).floor from (state_of search.old (G.halted guide.old) (G.known guide.old)) →
        IsEntered (line_of (line_rules rules) loads.now) (G.frame guide.old).floor loads.now.places order.now from (state_of search.new (G.halted guide.new) (G.known guide.new)) node) }
{
    if let Some(leaf) = leaf_by(alloc, loads, rest, order, search.value, rules, above, tops)? {
        search.left -= 1;
        return Ok(Entered::Leaf(leaf));
    }
    match order.split_first() {
        None => {
            let plan = whole(alloc, loads)?;
            let (cost, tick) = top_of(loads);
            match guide.found(&plan, cost) {
                None => Ok(Entered::Leaf(Tree::OpenLeaf)),
                Some(value) => {
                    search.value = Some(value);
                    search.left -= 1;
                    Ok(Entered::Leaf(Tree::TickLeaf(tick)))
                }
            }
        }
        Some((unit, _)) => {
            let unit = usize::from(*unit);
            search.left -= 1;
            let places = children_after_last(loads, last, unit, rules);
            let trees = Vec::with_capacity(alloc, places.len())?;
            let room = Box::new(alloc, Vec::new(alloc))?;
            Ok(Entered::Split(Level {
                unit,
                places,
                trees,
                room,
                above,
            }))
        }
    }
}
