//! The greedy plan.

ghost use Rattle.std.specs.Prelude.{◌≡◌, ℕ, ◌<◌, ◌≤◌, IfOk, All, MatchOption, slice_get, true, false, Some, None, []};
ghost use Rattle.std.specs.Option.{ForSome};
ghost use Rattle.ec_units.specs.Load.{loads_of};
ghost use Rattle.ec_loads.specs.Cost.{IsBusiest};
ghost use Rattle.ec_loads.specs.Held.{items_of};
ghost use Rattle.ec_loads.specs.Legal.{Fits, IsLegal};
ghost use Rattle.ec_loads.specs.Line.{slots_alone, line_of};
ghost use Rattle.ec_loads.specs.Search.{children};
ghost use Rattle.ec_branch.specs.declared.greedy_plan.Choice.{Choice};
ghost use Rattle.ec_branch.specs.Greedy.{IsTooFull, IsBestAmong, IsBestChild, IsGreedyTo, IsStuck, IsGreedyPlan, HasNoGreedyPlan};
ghost use Rattle.ec_branch.specs.Walks.{IsReadyFor};

use crate::order::search_order;
use crate::plan::whole;
use ec_loads::{Loads, Plan};
use ec_symmetry::{Children, children_of};
use ec_units::{Place, Units};
use std::alloc::{AllocError, Global};

/// A place, and what the busiest tick costs with it.
#[derive(Clone, Copy, Debug)]
struct Choice {
    pub place: Place,
    pub cost: u64,
}

/// What the busiest tick costs where every payload is small enough.
pub(crate) fn fitting_cost(loads: &Loads) -> Option<u64>
    ensures { MatchOption result (¬ (Fits (items_of loads.now) loads.now.slots))
        (λ b. Fits (items_of loads.now) loads.now.slots × IsBusiest (items_of loads.now) loads.now.slots b) }
{
    match loads.full() {
        Some(_) => None,
        None => Some(loads.top().0),
    }
}

/// The better of the best choice so far and a place of this cost; that of so far where the place doesn't fit and so has no cost.
fn better(best: Option<Choice>, place: Place, cost: Option<u64>) -> Option<Choice>
    ensures full { cost ≡ None → result ≡ best }
    ensures first { (c : ℕ) → cost ≡ Some c → best ≡ None → result ≡ Some (record { place = place; cost = c }) }
    ensures less { (c : ℕ) (b : Choice) → cost ≡ Some c → best ≡ Some b → c < b.cost → result ≡ Some (record { place = place; cost = c }) }
    ensures kept { (c : ℕ) (b : Choice) → cost ≡ Some c → best ≡ Some b → b.cost ≤ c → result ≡ best }
{
    match (best, cost) {
        (None, Some(cost)) => Some(Choice { place, cost }),
        (Some(choice), Some(cost)) => {
            if cost < choice.cost {
                Some(Choice { place, cost })
            } else {
                best
            }
        }
        (_, None) => best,
    }
}

/// The first of these places of least busiest tick, of those that keep every payload small enough.
pub(crate) fn best_among(loads: &mut Loads, unit: usize, places: Children) -> Option<Place>
    requires { slice_get loads.old.places unit ≡ Some None }
    ensures same { loads.new ≡ loads.old }
    ensures best { MatchOption result (All (IsTooFull loads.old.loads loads.old.slots loads.old.places unit) places)
        (λ p. IsBestAmong loads.old.loads loads.old.slots loads.old.places unit places p) }
{
    let mut best = None;
    let mut left = places;
    while let Some(place) = left.next() {
        loads.place(unit, place);
        best = better(best, place, fitting_cost(loads));
        loads.remove(unit);
    }
    match best {
        Some(choice) => Some(choice.place),
        None => None,
    }
}

/// The first child of least busiest tick, of those that keep every payload small enough.
fn best_child(loads: &mut Loads, unit: usize) -> Option<Place>
    requires { slice_get loads.old.places unit ≡ Some None }
    ensures same { loads.new ≡ loads.old }
    ensures best { MatchOption result (All (IsTooFull loads.old.loads loads.old.slots loads.old.places unit) (children (line_of slots_alone loads.old) loads.old.places unit))
        (λ p. IsBestChild loads.old.loads loads.old.slots loads.old.places unit p) }
{
    let places = children_of(loads, unit, false);
    best_among(loads, unit, places)
}

/// Gives each unit of the order its best child; false where every child of one is too full.
fn place_best(loads: &mut Loads, order: &[u8]) -> bool
    requires ready { IsReadyFor loads.old.loads loads.old.slots loads.old.places order.now }
    requires fits { Fits (items_of loads.old) loads.old.slots }
    ensures loads { loads.new.loads ≡ loads.old.loads }
    ensures slots { loads.new.slots ≡ loads.old.slots }
    ensures whole { result ≡ true → IsReadyFor loads.new.loads loads.new.slots loads.new.places [] × Fits (items_of loads.new) loads.new.slots }
    ensures placed { result ≡ true → IsGreedyTo loads.old.loads loads.old.slots loads.old.places order.now loads.new.places }
    ensures stuck { result ≡ false → IsStuck loads.old.loads loads.old.slots loads.old.places order.now }
{
    for unit in order {
        let unit = usize::from(*unit);
        match best_child(loads, unit) {
            Some(place) => loads.place(unit, place),
            None => return false,
        }
    }
    true
}

/// The greedy plan: the units in the order of the search, each at the child that keeps every payload at 1498 bytes
/// or less and gives the least busiest tick, the first such child in a tie. None where at some unit no child does.
pub fn greedy(alloc: Global, units: &Units) -> Result<Option<Plan>, AllocError>
    ensures best { IfOk result (λ r. MatchOption r (HasNoGreedyPlan (loads_of units.now.units) units.now.slots) (λ plan. IsGreedyPlan (loads_of units.now.units) units.now.slots plan.places)) }
    ensures legal { IfOk result (λ r. ForSome r (λ plan. IsLegal (loads_of units.now.units) units.now.slots plan.places)) }
{
    let order = search_order(alloc, units)?;
    let mut loads = Loads::new(alloc, units)?;
    if !place_best(&mut loads, order.as_slice()) {
        return Ok(None);
    }
    let plan = whole(alloc, &loads)?;
    Ok(Some(plan))
}
