//! The leaf that is weighted by what the ticks cost.

ghost use Rattle.std.specs.Prelude.{ℕ, ◌≤◌, IfOk, IfSome, length, All};
ghost use Rattle.ec_loads.specs.Line.{Rules, line_of};
ghost use Rattle.ec_bounds.specs.Left.{IsRestOf};
ghost use Rattle.ec_cert.specs.Shapes.{shape_of};
ghost use Rattle.ec_branch.specs.Walks.{IsClosing};

use crate::waiting::{MOST_PERIOD, period_of};
use ec_bounds::{Rest, weight_bound};
use ec_cert::{Tree, Weights};
use ec_loads::Loads;
use std::alloc::{AllocError, Global};

/// What the ticks of the hyperperiod cost, and what they cost without padding, each times its cost.
fn weighted_costs(loads: &Loads) -> (u64, u64) {
    let mut total = 0u64;
    let mut raw = 0u64;
    for tick in 0..loads.ticks() {
        let cost = loads.cost(tick);
        total = total.saturating_add(cost);
        raw = raw.saturating_add(cost * loads.raw(tick));
    }
    (total, raw)
}

/// What the ticks cost in which a unit of this period and phase, both in ticks, travels.
fn cost_in(loads: &Loads, period: u32, phase: u32) -> u64
    requires { (1 ≤ period) × (period ≤ 60) }
{
    let ticks = loads.ticks();
    let mut total = 0u64;
    let mut tick = phase;
    while tick < ticks {
        total = total.saturating_add(loads.cost(tick));
        tick += period;
    }
    total
}

/// How far the least that the ticks of a phase of this period cost is below the mean of all its phases, for each of the
/// period's ticks; all ticks cost so much together.
fn below_mean(loads: &Loads, period: u32, total: u64) -> u64
    requires { (1 ≤ period) × (period ≤ 60) }
{
    let mut least = u64::MAX;
    for phase in 0..period {
        least = least.min(cost_in(loads, period, phase));
    }
    total.saturating_sub(least.saturating_mul(u64::from(period)))
}

/// Whether something is left of so many bytes, weighted and times the hyperperiod, once each unit without a place has the least
/// weights that it can travel in, in place of their mean. The weights of each period are looked at once.
fn is_left(loads: &Loads, total: u64, over: u128) -> bool {
    let ticks = loads.ticks();
    let mut known = [None; MOST_PERIOD + 1];
    let mut over = over;
    let all = loads.loads();
    let places = loads.places();
    for i in 0..all.len() {
        if places[i].is_some() {
            continue;
        }
        let period = period_of(all[i]);
        let below = match known[usize::from(period)] {
            Some(below) => below,
            None => below_mean(loads, u32::from(period), total),
        };
        known[usize::from(period)] = Some(below);
        let times = u128::from(all[i].bytes) * u128::from(ticks / u32::from(period));
        match over.checked_sub(times.saturating_mul(u128::from(below))) {
            Some(rest) if rest > 0 => over = rest,
            _ => return false,
        }
    }
    true
}

/// Whether the weighted leaf holds, as long as no tick costs more than 65,535 bytes. A unit that is left sends at least by
/// the least weights that it can travel in, and these are at most the mean over its phases; so with the bytes that are left
/// spread evenly the bytes by weight must pass what the value asks, and some tick must cost at least the rest of it.
fn may_hold(loads: &Loads, rest: &Rest, value: u64) -> bool {
    let left = rest.demand();
    let ticks = u64::from(loads.ticks());
    if left == 0
        || loads
            .first_at_least(value.saturating_sub(left.div_ceil(ticks)))
            .is_none()
    {
        return false;
    }
    let (total, raw) = weighted_costs(loads);
    let all = u128::from(ticks);
    let asked = u128::from(value.saturating_sub(1))
        .saturating_mul(all)
        .saturating_mul(u128::from(total));
    let sent = u128::from(raw) * all + u128::from(left) * u128::from(total);
    sent > asked && is_left(loads, total, sent - asked)
}

/// What each tick of the hyperperiod costs, as its weight; at most 65,535.
fn costs_of(alloc: Global, loads: &Loads) -> Result<Vec<u16>, AllocError>
    ensures count { IfOk result (λ w. length w.items ≤ 1024) }
    ensures each { IfOk result (λ w. All (λ x. x ≤ 65535) w.items) }
{
    let ticks = loads.ticks();
    let mut weights = Vec::with_capacity(alloc, ticks as usize)?;
    for tick in 0..ticks {
        weights.push_reserved(loads.cost(tick).min(65_535) as u16);
    }
    Ok(weights)
}

/// The leaf by the average of all ticks, each weighted by what it costs, where it holds at the value. Where it
/// doesn't, no memory is taken.
pub(crate) fn weighted_leaf(
    alloc: Global,
    loads: &Loads,
    rest: &Rest,
    value: Option<u64>,
) -> Result<Option<Tree>, AllocError>
    requires { IsRestOf rest.now loads.now }
    ensures { IfOk result (λ leaf. IfSome leaf (λ tree. (rules : Rules) → IsClosing (line_of rules loads.now) value loads.now.places (shape_of tree))) }
{
    match value {
        Some(least) if may_hold(loads, rest, least) => {
            let weights = costs_of(alloc, loads)?;
            if weight_bound(loads, rest, weights.as_slice(), value) {
                let held = Weights::new(alloc, weights)?;
                return Ok(Some(Tree::Weights(held)));
            }
            Ok(None)
        }
        _ => Ok(None),
    }
}
