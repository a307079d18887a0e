//! The first plan of a strong search: the greedy plan, bettered by a local search.

ghost use Rattle.std.specs.Prelude.{◌≡◌, ℕ, ◌<◌, ◌≤◌, IfOk, IfSome, IsSome, IsSomeAnd, MatchOption, List, length, map, replicate, None, Some};
ghost use Rattle.std.specs.Option.{ForSome};
ghost use Rattle.ec_units.specs.declared.slave.Place.{Place};
ghost use Rattle.ec_units.specs.Load.{loads_of};
ghost use Rattle.ec_loads.specs.Held.{no_places};
ghost use Rattle.ec_loads.specs.Legal.{IsLegal};
ghost use Rattle.ec_branch.specs.FirstPlans.{first_place, AreWithinRanges, AreAllPlaced, IsBestSoFar, IsNoDearer};
ghost use Rattle.ec_branch.specs.Greedy.{IsGreedyPlan};

use crate::greedy_plan::{fitting_cost, greedy};
use crate::moves::{Aim, Draws, step};
use ec_bounds::MOST_MERGED;
use ec_cert::MOST_BUSIEST;
use ec_loads::{Loads, Places, Plan, busiest};
use ec_units::{Place, Units};
use std::alloc::{AllocError, Global};

/// The best plan so far, and what its busiest tick costs in bytes. While there is no plan, the places are any within
/// the ranges of their units.
#[derive(Drop)]
struct Best {
    pub places: Vec<Place>,
    pub cost: Option<u64>,
}

/// The greatest cost of a busiest tick that is better.
fn limit_of(cost: Option<u64>) -> u64
    ensures { IfSome cost (λ c. result ≤ c) }
{
    match cost {
        Some(cost) => cost.saturating_sub(1),
        None => MOST_BUSIEST,
    }
}

/// How many slots the search uses.
fn width_of(cost: Option<u64>, slots: u8) -> u8
    requires { 1 ≤ slots }
    ensures { (1 ≤ result) × (result ≤ slots) }
{
    match cost {
        Some(cost) if cost <= MOST_MERGED => 1,
        _ => slots,
    }
}

/// How many steps the search makes.
fn steps_of(units: u32, ticks: u32, width: u8) -> u32
    requires units { units ≤ 48 }
    requires ticks { 1 ≤ ticks }
    requires width { 1 ≤ width }
{
    let few = 256 * units * units;
    few.min(2097152 / ticks / u32::from(width))
}

/// Phase 0 and slot 0 for each of so many units.
fn all_first(alloc: Global, count: usize) -> Result<Vec<Place>, AllocError>
    ensures { IfOk result (λ places. places.items ≡ replicate count first_place) }
{
    Vec::from_elem(alloc, Place { phase: 0, slot: 0 }, count)
}

/// The greedy plan as the best one so far, where there is one.
fn greedy_best(alloc: Global, units: &Units) -> Result<Best, AllocError>
    ensures best { IfOk result (λ best. IsBestSoFar (loads_of units.now.units) units.now.slots best.cost best.places.items) }
    ensures ranges { IfOk result (λ best. AreWithinRanges (loads_of units.now.units) units.now.slots best.places.items) }
{
    match greedy(alloc, units)? {
        Some(plan) => {
            let (cost, _tick) = busiest(units, &plan);
            Ok(Best {
                places: plan.places.into_vec(),
                cost: Some(cost),
            })
        }
        None => Ok(Best {
            places: all_first(alloc, units.units.as_slice().len())?,
            cost: None,
        }),
    }
}

/// The place, where one slot is used in slot 0.
fn narrow(place: Place, width: u8) -> Place
    ensures phase { result.phase ≡ place.phase }
    ensures slot { result.slot ≤ place.slot }
{
    if width == 1 {
        Place {
            phase: place.phase,
            slot: 0,
        }
    } else {
        place
    }
}

/// Gives each unit its place.
fn place_all(loads: &mut Loads, places: &[Place], width: u8)
    requires ranges { AreWithinRanges loads.old.loads loads.old.slots places.now }
    requires each { length loads.old.places ≡ length loads.old.loads }
    ensures loads { loads.new.loads ≡ loads.old.loads }
    ensures slots { loads.new.slots ≡ loads.old.slots }
    ensures placed { AreAllPlaced loads.new.loads loads.new.slots loads.new.places }
{
    for i in 0..places.len() {
        loads.place(i, narrow(places[i], width));
    }
}

/// Copies places that each unit has.
fn copy_places(from: &[Option<Place>], to: &mut Vec<Place>)
    requires whole { (plan : List Place) × (from.now ≡ map Some plan) }
    requires each { length to.old.items ≡ length from.now }
    ensures { map Some to.new.items ≡ from.now }
{
    for i in 0..from.len() {
        match from[i] {
            Some(place) => to[i] = place,
            None => unreachable!(),
        }
    }
}

/// The plan at hand becomes the best one where it is legal and better.
fn offer(best: &mut Best, loads: &Loads)
    requires placed { AreAllPlaced loads.now.loads loads.now.slots loads.now.places }
    requires each { length best.old.places.items ≡ length loads.now.loads }
    requires best { IsBestSoFar loads.now.loads loads.now.slots best.old.cost best.old.places.items }
    ensures each { length best.new.places.items ≡ length loads.now.loads }
    ensures best { IsBestSoFar loads.now.loads loads.now.slots best.new.cost best.new.places.items }
{
    let Some(cost) = fitting_cost(loads) else {
        return;
    };
    if cost > limit_of(best.cost) {
        return;
    }
    copy_places(loads.places(), &mut best.places);
    best.cost = Some(cost);
}

/// Goes so many steps, and keeps the best plan that it comes to.
fn go(loads: &mut Loads, best: &mut Best, width: u8, steps: u32)
    requires placed { AreAllPlaced loads.old.loads loads.old.slots loads.old.places }
    requires width { (1 ≤ width) × (width ≤ loads.old.slots) }
    requires some { 0 < length loads.old.loads }
    requires each { length best.old.places.items ≡ length loads.old.loads }
    requires best { IsBestSoFar loads.old.loads loads.old.slots best.old.cost best.old.places.items }
    ensures best { IsBestSoFar loads.old.loads loads.old.slots best.new.cost best.new.places.items }
{
    offer(best, loads);
    let mut draws = Draws { last: 1 };
    for _ in 0..steps {
        let aim = Aim {
            width,
            limit: limit_of(best.cost),
        };
        step(loads, &mut draws, aim);
        offer(best, loads);
    }
}

/// Betters the best plan so far by a local search that begins at it.
fn better_on(loads: &mut Loads, best: &mut Best)
    requires empty { loads.old.places ≡ no_places loads.old.loads }
    requires slots { 1 ≤ loads.old.slots }
    requires some { 0 < length loads.old.loads }
    requires ranges { AreWithinRanges loads.old.loads loads.old.slots best.old.places.items }
    requires best { IsBestSoFar loads.old.loads loads.old.slots best.old.cost best.old.places.items }
    ensures best { IsBestSoFar loads.old.loads loads.old.slots best.new.cost best.new.places.items }
{
    let width = width_of(best.cost, loads.slots());
    let steps = steps_of(loads.loads().len() as u32, loads.ticks(), width);
    place_all(loads, best.places.as_slice(), width);
    go(loads, best, width, steps);
}

/// The best plan, if there is one.
fn plan_of(best: Best) -> Option<Plan>
    ensures { MatchOption result (best.cost ≡ None) (λ plan. (plan.places ≡ best.places.items) × IsSome best.cost) }
{
    match best.cost {
        Some(_) => Some(Plan {
            places: Places::new(best.places),
        }),
        None => None,
    }
}

/// The first plan of a strong search: the greedy plan, bettered by a local search of a fixed number of steps, which
/// also looks for a plan where there is no greedy one. None where none was found.
pub fn first_plan(alloc: Global, units: &Units) -> Result<Option<Plan>, AllocError>
    ensures legal { IfOk result (λ r. ForSome r (λ plan. IsLegal (loads_of units.now.units) units.now.slots plan.places)) }
    ensures no_worse { IfOk result (λ r. (plan : List Place) → IsGreedyPlan (loads_of units.now.units) units.now.slots plan → IsSomeAnd r (λ first. IsNoDearer (loads_of units.now.units) units.now.slots first.places plan)) }
{
    let mut best = greedy_best(alloc, units)?;
    let mut loads = Loads::new(alloc, units)?;
    better_on(&mut loads, &mut best);
    Ok(plan_of(best))
}
