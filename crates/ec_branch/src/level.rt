//! Splits that are under way.

ghost use Rattle.std.specs.Prelude.{◌≡◌, ℕ, ◌+◌, ◌*◌, ◌<◌, ◌≤◌, ◌++◌, List, MatchOption, length, replicate, vec_capacity};
ghost use Rattle.ec_units.specs.declared.slave.Place.{Place};
ghost use Rattle.ec_loads.specs.Line.{line_of};
ghost use Rattle.ec_symmetry.specs.Ruled.{line_rules};
ghost use Rattle.ec_cert.specs.declared.tree.Tree.{OpenLeaf};
ghost use Rattle.ec_branch.specs.Frames.{Frame};
ghost use Rattle.ec_branch.specs.Stacks.{Task, State, state_of, IsAmong, IsPassed, IsOn, IsPaused, ahead, effort};

use crate::ask::ask;
use crate::choice::raised_by;
use crate::guide::Guide;
use crate::value::Search;
use ec_bounds::Rest;
use ec_cert::Tree;
use ec_loads::Loads;
use ec_symmetry::{Children, Rules};
use ec_units::Place;

/// A split that is under way: its unit, the places of its children that aren't explored yet, the trees of those that
/// are, with room for all, and where these lie in the end, so that no memory is asked for then; and, by the strong rules,
/// whether a unit has a place above slot 0 in it.
#[derive(Drop)]
pub(crate) struct Level {
    pub unit: usize,
    pub places: Children,
    pub trees: Vec<Tree>,
    pub room: Box<Vec<Tree>>,
    pub above: bool,
}

/// What comes next: the node at the places so far, or, with the tree below them, the split above.
#[derive(Drop)]
pub(crate) enum Turn {
    /// The node, for which the guide was asked, is closed or split.
    Enter,
    /// This is its tree.
    Up(Tree),
}

/// The trees of a split whose other children stay open.
fn left_open(level: Level) -> Box<Vec<Tree>>
    requires { length level.trees.items + length level.places ≤ vec_capacity level.trees }
    ensures { result.value.items ≡ level.trees.items ++ replicate (length level.places) OpenLeaf }
{
    let Level {
        mut places,
        mut trees,
        mut room,
        ..
    } = level;
    while let Some(_) = places.next() {
        trees.push_reserved(Tree::OpenLeaf);
    }
    Box::replace(&mut room, trees);
    room
}

/// Closes the next children of a split, as long as each would have too large a payload or a tick that costs at least the value, or by the
/// strong rules two slots that can be one, without giving them their places. Gives the place of the next child, for which the guide was
/// asked; none where no child is left, or no node, or where the guide stops.
fn close_next<G: Guide>(
    loads: &Loads,
    rules: Rules,
    guide: &mut G,
    search: &mut Search,
    level: &mut Level,
) -> Option<Place>
    requires among { (later : List ℕ) × (done : List Place) × (from : State) × IsAmong (line_of (line_rules rules) loads.now) (G.frame guide.old).floor loads.now.places later done from (state_of search.old (G.halted guide.old) (G.known guide.old)) level.old }
    ensures frame { G.frame guide.new ≡ G.frame guide.old }
    ensures stays { G.halted guide.new ≡ G.halted guide.old }
    ensures unit { level.new.unit ≡ level.old.unit }
    ensures left { search.new.left ≤ search.old.left }
    ensures fewer { MatchOption result (length level.new.places ≤ length level.old.places) (λ _. length level.new.places < length level.old.places) }
    ensures passed { (later : List ℕ) (done : List Place) (from : State) →
        IsAmong (line_of (line_rules rules) loads.now) (G.frame guide.old).floor loads.now.places later done from (state_of search.old (G.halted guide.old) (G.known guide.old)) level.old →
        IsPassed (line_of (line_rules rules) loads.now) (G.frame guide.old).floor loads.now.places later from (state_of search.new (G.halted guide.new) (G.known guide.new)) level.new result }
{
    while let Some(place) = level.places.next() {
        if !ask(guide, search) {
            level.trees.push_reserved(Tree::OpenLeaf);
            return None;
        }
        let Some(leaf) = raised_by(loads, level.unit, place, search.value, rules, level.above)
        else {
            return Some(place);
        };
        search.left -= 1;
        level.trees.push_reserved(leaf);
    }
    None
}

/// Goes on with a split, the innermost one, from which no child has a place now: closes what it can without giving it
/// a place, and gives the next child its place, or goes up where there is none. Where no node is left or the guide
/// stops, the other children stay open and get no place.
pub(crate) fn next_child<G: Guide>(
    loads: &mut Loads,
    rest: &mut Rest,
    rules: Rules,
    guide: &mut G,
    search: &mut Search,
    levels: &mut Vec<Level>,
    mut level: Level,
) -> Turn
    requires paused { (task : Task) × ((G.frame guide.old).floor ≡ task.floor) × IsPaused (line_rules rules) task levels.old loads.old rest.old (state_of search.old (G.halted guide.old) (G.known guide.old)) level }
    ensures frame { G.frame guide.new ≡ G.frame guide.old }
    ensures stays { G.halted guide.new ≡ G.halted guide.old }
    ensures on { (task : Task) → (G.frame guide.old).floor ≡ task.floor → IsPaused (line_rules rules) task levels.old loads.old rest.old (state_of search.old (G.halted guide.old) (G.known guide.old)) level →
        IsOn (line_rules rules) task levels.new loads.new rest.new (state_of search.new (G.halted guide.new) (G.known guide.new)) result }
    ensures less { effort search.new.left levels.new.items result ≤ ahead search.old.left levels.old.items + 2 * length level.places }
{
    match close_next(loads, rules, guide, search, &mut level) {
        None => Turn::Up(Tree::Split(left_open(level))),
        Some(place) => {
            let unit = level.unit;
            levels.push_reserved(level);
            loads.place(unit, place);
            rest.placed(unit);
            Turn::Enter
        }
    }
}
