//! A search that begins at the places of the units.

ghost use Rattle.std.specs.Prelude.{◌≡◌, ◌⊎◌, ℕ, ◌≤◌, List, map, None, Some, IfOk, IfErr};
ghost use Rattle.std.specs.Option.{ForSome};
ghost use Rattle.ec_units.specs.declared.slave.Place.{Place};
ghost use Rattle.ec_units.specs.Load.{loads_of};
ghost use Rattle.ec_loads.specs.Cost.{plan_items, IsBusiest};
ghost use Rattle.ec_loads.specs.Legal.{IsLegal};
ghost use Rattle.ec_loads.specs.Search.{IsAtMost};
ghost use Rattle.ec_loads.specs.Shape.{open_leaf};
ghost use Rattle.ec_cert.specs.IsBestPlan.{value_of, IsBestPlan};
ghost use Rattle.ec_cert.specs.Shapes.{cert_view, shape_of};
ghost use Rattle.ec_loads.specs.Held.{own_places};
ghost use Rattle.ec_workers.specs.Answers.{asked_for, GoesBeyond, HasRules, HasSearchOrder, IsNoDearer, IsOrderBy, IsOutcome, IsSolveFault, is_strong as strong_spec};
ghost use Rattle.ec_workers.specs.Outcomes.{IsPartialCert};

use crate::begin::{order_by, rules_by};
use crate::certify::lines_of;
use crate::resuming::solve_from;
use crate::unfinished::partial;
use ec_branch::kept_plan;
use ec_cert::{Best, Cert, Order, Part, Tree};
use ec_checker::level_in;
use ec_loads::{Loads, Plan, busiest};
use ec_outcome::{Outcome, SolveFault};
use ec_search_threads::{Gate, opening_plan};
use ec_units::Units;
use std::alloc::{AllocError, Global};
use std::sync::Wait;
use std::thread::Threads;

/// A legal plan, if there is one, with what its busiest tick costs.
fn best_of(units: &Units, plan: Option<Plan>) -> Option<Best>
    requires legal { ForSome plan (λ p. IsLegal (loads_of units.now.units) units.now.slots p.places) }
    ensures best { IsBestPlan (loads_of units.now.units) units.now.slots result }
    ensures value { (p : Plan) (b : ℕ) → plan ≡ Some p → IsBusiest (plan_items (loads_of units.now.units) p.places) units.now.slots b → value_of result ≡ Some b }
{
    let plan = plan?;
    let (cost, _tick) = busiest(units, &plan);
    Some(Best {
        plan,
        busiest: cost,
    })
}

/// The plan that costs less, the first one where both cost as much.
fn cheaper(one: Option<Best>, other: Option<Best>) -> Option<Best>
    ensures either { (result ≡ one) ⊎ (result ≡ other) }
    ensures value { IsAtMost (value_of result) (value_of one) }
{
    match (&one, &other) {
        (Some(this), Some(that)) if that.busiest < this.busiest => other,
        (None, _) => other,
        _ => one,
    }
}

/// The plan at which a search begins that keeps the places of the units: the plan that has them, or the one that a search opens with where
/// that costs less.
fn first_best(alloc: Global, units: &Units, strong: bool) -> Result<Option<Best>, AllocError>
    ensures best { IfOk result (IsBestPlan (loads_of units.now.units) units.now.slots) }
    ensures value { (ps : List Place) (b : ℕ) → own_places units.now.units ≡ map Some ps → IsLegal (loads_of units.now.units) units.now.slots ps → IsBusiest (plan_items (loads_of units.now.units) ps) units.now.slots b →
        IfOk result (λ best. IsAtMost (value_of best) (Some b)) }
{
    let kept = best_of(units, kept_plan(alloc, units)?);
    let opening = best_of(units, opening_plan(alloc, units, rules_by(strong))?);
    Ok(cheaper(kept, opening))
}

/// The certificate of a search that has visited no node, at this plan.
fn start(alloc: Global, units: &Units, best: Option<Best>, strong: bool) -> Result<Cert, AllocError>
    requires { IsBestPlan (loads_of units.now.units) units.now.slots best }
    ensures partial { IfOk result (λ c. IsPartialCert units.now.units units.now.slots (cert_view c)) }
    ensures tree { IfOk result (λ c. shape_of c.tree ≡ open_leaf) }
    ensures best { IfOk result (λ c. c.best ≡ best) }
    ensures rules { IfOk result (λ c. strong_spec (cert_view c) ≡ strong) }
    ensures order { IfOk result (λ c. IsOrderBy strong (loads_of units.now.units) c.order) }
{
    let mut loads = Loads::new(alloc, units)?;
    let lines = lines_of(alloc, units)?;
    let order = order_by(alloc, units, strong)?;
    let tree = Tree::OpenLeaf;
    let level = level_in(
        &mut loads,
        units,
        rules_by(strong),
        order.as_slice(),
        &tree,
        &best,
    );
    let order = Order::new(order);
    Ok(partial(units, lines, order, best, tree, strong, level))
}

/// Searches as `solve` does, from the places of the units on (own profile): where these are a legal plan, the search begins at that, and
/// another one is found only where it costs less. Units without a place are put beside the others. The plan that `solve` opens with is
/// begun at where it costs less.
///
/// The faults are those of `solve`.
pub fn solve_kept<R: Threads + Wait + Sync, G: Gate + Sync>(
    rt: &R,
    alloc: Global,
    units: &Units,
    workers: usize,
    nodes: u32,
    strong: bool,
    gate: &G,
) -> Result<Outcome, SolveFault>
    requires workers { (1 ≤ workers) × (workers ≤ 16) }
    requires nodes { (1 ≤ nodes) × (nodes ≤ 10000000) }
    ensures outcome { IfOk result (IsOutcome units.now.units units.now.slots (asked_for strong workers nodes)) }
    ensures beyond { IfOk result (GoesBeyond open_leaf None nodes) }
    ensures kept { IfOk result (IsNoDearer units.now.units units.now.slots) }
    ensures order { IfOk result (HasSearchOrder strong (loads_of units.now.units)) }
    ensures rules { IfOk result (HasRules strong) }
    ensures fault { IfErr result (IsSolveFault workers) }
{
    let best = first_best(alloc, units, strong)?;
    let cert = start(alloc, units, best, strong)?;
    solve_from(rt, alloc, units, cert, Part::whole(), workers, nodes, gate)
}
