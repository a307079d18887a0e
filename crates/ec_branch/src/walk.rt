//! The walk over the prefixes.

ghost use Rattle.std.specs.Prelude.{◌≡◌, ℕ, ◌<◌, ◌++◌, IfOk, IfErr, true, List, [], ◌∷◌, length, reverse, Some, None};
ghost use Rattle.ec_loads.specs.Line.{Rules as LineRules, line_of};
ghost use Rattle.ec_symmetry.specs.Ruled.{line_rules};
ghost use Rattle.ec_bounds.specs.Left.{IsRestOf};
ghost use Rattle.ec_cert.specs.Shapes.{shape_of};
ghost use Rattle.ec_branch.specs.declared.level.Level.{Level as LevelSpec};
ghost use Rattle.ec_branch.specs.Frames.{Frame};
ghost use Rattle.ec_branch.specs.Stacks.{Task, IsFor, IsOn, IsWithin, IsBack, IsStepped, effort, state_of, is_less};
ghost use Rattle.ec_branch.specs.Walks.{IsReadyFor, IsWalked, FollowsGuide};

use crate::ask::ask;
use crate::back::take_back;
use crate::guide::Guide;
use crate::level::{Level, Turn, next_child};
use crate::node::{Entered, enter};
use crate::tops::Tops;
use crate::value::Search;
use ec_bounds::{Rest, is_above_slot_0};
use ec_cert::Tree;
use ec_loads::Loads;
use ec_symmetry::Rules;
use std::alloc::{AllocError, Global};

/// What a step of the walk leads to.
#[derive(Drop)]
pub(crate) enum Stepped {
    /// The walk goes on.
    On(Turn),
    /// The whole tree.
    Done(Tree),
}

/// Takes the places of the splits that are under way back, the innermost first.
fn undo(loads: &mut Loads, rest: &mut Rest, levels: &mut Vec<Level>)
    requires { (rules : LineRules) × (task : Task) × IsWithin rules task (reverse levels.old.items) loads.old rest.old }
    ensures { (rules : LineRules) (task : Task) → IsWithin rules task (reverse levels.old.items) loads.old rest.old → IsBack rules task loads.new rest.new }
{
    while let Some(level) = levels.pop() {
        take_back(loads, rest, level.unit);
    }
}

/// Whether a unit has a place above slot 0 below the last split, by the strong rules: where it had so in the split, or
/// the unit of the split has one.
fn is_any_above(loads: &Loads, rules: Rules, levels: &[Level]) -> bool {
    if rules != Rules::Strong {
        return false;
    }
    let places = loads.places();
    let Some(level) = levels.last() else {
        return places.iter().any(|place| is_above_slot_0(place));
    };
    match places.get(level.unit) {
        Some(place) => level.above || is_above_slot_0(place),
        None => level.above,
    }
}

/// The unit of the innermost split that is under way, the one that got its place last.
fn last_unit(levels: &[Level]) -> Option<usize>
    ensures none { length levels.now ≡ 0 → result ≡ None }
    ensures some { (before : List LevelSpec) (l : LevelSpec) → levels.now ≡ before ++ l ∷ [] → result ≡ Some l.unit }
{
    let level = levels.last()?;
    Some(level.unit)
}

/// One step of the walk: a node is closed or split, or its tree is added to the split above, which goes on with its
/// next child or is closed itself. Where memory is refused, all stays as it was.
fn step<G: Guide>(
    alloc: Global,
    loads: &mut Loads,
    rest: &mut Rest,
    order: &[u8],
    rules: Rules,
    guide: &mut G,
    search: &mut Search,
    levels: &mut Vec<Level>,
    tops: &mut Tops,
    turn: Turn,
) -> Result<Stepped, AllocError>
    requires on { (task : Task) × IsFor task order.now (G.frame guide.old) × IsOn (line_rules rules) task levels.old loads.old rest.old (state_of search.old (G.halted guide.old) (G.known guide.old)) turn }
    ensures frame { G.frame guide.new ≡ G.frame guide.old }
    ensures stays { G.halted guide.old ≡ true → G.halted guide.new ≡ true }
    ensures on { IfOk result (λ s. (task : Task) → IsFor task order.now (G.frame guide.old) →
        IsOn (line_rules rules) task levels.old loads.old rest.old (state_of search.old (G.halted guide.old) (G.known guide.old)) turn →
        IsStepped (line_rules rules) task levels.new loads.new rest.new (state_of search.new (G.halted guide.new) (G.known guide.new)) s) }
    ensures less { IfOk result (λ s. is_less search.new.left levels.new.items s (effort search.old.left levels.old.items turn)) }
    ensures levels { IfErr result (λ _. levels.new.items ≡ levels.old.items) }
    ensures loads { IfErr result (λ _. loads.new ≡ loads.old) }
    ensures rest { IfErr result (λ _. rest.new ≡ rest.old) }
{
    match turn {
        Turn::Enter => match enter(
            alloc,
            loads,
            rest,
            &order[levels.len()..],
            rules,
            guide,
            search,
            is_any_above(loads, rules, levels.as_slice()),
            last_unit(levels.as_slice()),
            tops,
        )? {
            Entered::Leaf(tree) => Ok(Stepped::On(Turn::Up(tree))),
            Entered::Split(level) => {
                Ok(Stepped::On(next_child(loads, rest, rules, guide, search, levels, level)))
            }
        },
        Turn::Up(tree) => {
            let Some(mut level) = levels.pop() else {
                return Ok(Stepped::Done(tree));
            };
            take_back(loads, rest, level.unit);
            level.trees.push_reserved(tree);
            Ok(Stepped::On(next_child(loads, rest, rules, guide, search, levels, level)))
        }
    }
}

/// Explores below the places so far by these rules, unit by unit in this order, with a stack that is as deep as the order is long
/// and made once. The places are as before afterwards, also where memory is refused.
pub(crate) fn walk<G: Guide>(
    alloc: Global,
    loads: &mut Loads,
    rest: &mut Rest,
    order: &[u8],
    rules: Rules,
    guide: &mut G,
    search: &mut Search,
    tops: &mut Tops,
) -> Result<Tree, AllocError>
    requires ready { IsReadyFor loads.old.loads loads.old.slots loads.old.places order.now }
    requires left { IsRestOf rest.old loads.old }
    requires units { (G.frame guide.old).loads ≡ loads.old.loads }
    requires slots { (G.frame guide.old).slots ≡ loads.old.slots }
    ensures same { loads.new ≡ loads.old }
    ensures left { IsRestOf rest.new loads.new }
    ensures frame { G.frame guide.new ≡ G.frame guide.old }
    ensures stays { G.halted guide.old ≡ true → G.halted guide.new ≡ true }
    ensures known { IfOk result (λ _. FollowsGuide search.old.left (G.halted guide.old) search.old.value (G.known guide.old) search.new.value (G.known guide.new)) }
    ensures walked { IfOk result (λ tree. IsWalked (line_of (line_rules rules) loads.old) (G.frame guide.old).floor loads.old.places order.now search.old.value search.old.left search.new.value search.new.left (G.halted guide.new) (shape_of tree)) }
{
    let mut levels = Vec::with_capacity(alloc, order.len())?;
    if !ask(guide, search) {
        return Ok(Tree::OpenLeaf);
    }
    let mut turn = Turn::Enter;
    loop {
        match step(
            alloc,
            loads,
            rest,
            order,
            rules,
            guide,
            search,
            &mut levels,
            tops,
            turn,
        ) {
            Ok(Stepped::On(next)) => turn = next,
            Ok(Stepped::Done(tree)) => return Ok(tree),
            Err(error) => {
                undo(loads, rest, &mut levels);
                return Err(error);
            }
        }
    }
}
