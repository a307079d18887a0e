//! The bound by weights: each tick counts by a weight of its own.

ghost use Rattle.std.specs.Prelude.{◌≡◌, ℕ, ◌+◌, ◌*◌, ◌<◌, ◌≤◌, ◌↔◌, IsTrue, length};
ghost use Rattle.ec_hyper.specs.Lcm.{lcm_of};
ghost use Rattle.ec_units.specs.Load.{periods_of};
ghost use Rattle.ec_loads.specs.Held.{AreLoads};
ghost use Rattle.ec_loads.specs.Weights.{total_weight as total_of, weight_at as weight_of_phase, least_weight as least_of_period, weighted_raw as raw_of, WeightsHold};
ghost use Rattle.ec_bounds.specs.Left.{weighted_left as left_of, AreLeast, IsRestOf};

use crate::rest::Rest;
use ec_loads::Loads;
use ec_units::Load;

/// The sum of the weights.
fn total_weight(weights: &[u16]) -> u64
    requires { length weights.now ≤ 1024 }
    ensures value { result ≡ total_of weights.now (length weights.now) }
    ensures bound { result ≤ 67107840 }
{
    let mut total = 0u64;
    for i in 0..weights.len() {
        total += u64::from(weights[i]);
    }
    total
}

/// The weights of the ticks in which a unit of this period and phase, both in ticks, travels.
fn weight_at(weights: &[u16], period: usize, phase: usize) -> u64
    requires few { length weights.now ≤ 1024 }
    requires phase { phase < period }
    requires period { period ≤ 60 }
    ensures value { result ≡ weight_of_phase weights.now (length weights.now) period phase }
    ensures bound { result ≤ 67107840 }
{
    let mut total = 0u64;
    let mut tick = phase;
    while tick < weights.len() {
        total += u64::from(weights[tick]);
        tick += period;
    }
    total
}

/// The least, over the phases of a period, of the weights in the ticks in which it travels.
fn least_weight(weights: &[u16], period: usize) -> u64
    requires few { length weights.now ≤ 1024 }
    requires period { (1 ≤ period) × (period ≤ 60) }
    ensures value { result ≡ least_of_period weights.now (length weights.now) period }
    ensures bound { result ≤ 67107840 }
{
    let mut least = weight_at(weights, period, 0);
    for phase in 1..period {
        least = least.min(weight_at(weights, period, phase));
    }
    least
}

/// The least weight of a period in ticks, out of what is known of the periods from 0 on, where it is put at first.
fn known_weight(known: &mut [Option<u64>; 61], weights: &[u16], period: usize) -> u64
    requires few { length weights.now ≤ 1024 }
    requires period { (1 ≤ period) × (period ≤ 60) }
    requires known { AreLeast weights.now known.old }
    ensures known { AreLeast weights.now known.new }
    ensures value { result ≡ least_of_period weights.now (length weights.now) period }
    ensures bound { result ≤ 67107840 }
{
    if let Some(least) = known[period] {
        return least;
    }
    let least = least_weight(weights, period);
    known[period] = Some(least);
    least
}

/// What the units without a place send, each unit's bytes by the least weights that it can travel in. For each period that
/// one of them has, the weights are looked at once.
fn weighted_left(loads: &[Load], unplaced: &[bool], weights: &[u16]) -> u64
    requires units { AreLoads loads.now }
    requires each { length unplaced.now ≡ length loads.now }
    requires few { length loads.now ≤ 48 }
    requires ticks { length weights.now ≤ 1024 }
    ensures value { result ≡ left_of loads.now unplaced.now weights.now (length weights.now) }
    ensures bound { result ≤ 4786668011520 }
{
    let mut known = [None; 61];
    let mut total = 0u64;
    for i in 0..loads.len() {
        if unplaced[i] {
            total += u64::from(loads[i].bytes)
                * known_weight(&mut known, weights, usize::from(loads[i].period));
        }
    }
    total
}

/// What the units with a place send without padding, each tick by its weight.
fn weighted_raw(loads: &Loads, weights: &[u16]) -> u64
    requires { length weights.now ≤ 1024 }
    ensures value { result ≡ raw_of loads.now.loads loads.now.slots loads.now.places weights.now (length weights.now) }
    ensures bound { result ≤ 38624051527680 }
{
    let mut total = 0u64;
    for i in 0..weights.len() {
        total += u64::from(weights[i]) * loads.raw(i as u32);
    }
    total
}

/// Whether there is a weight for each tick of the hyperperiod, not all of them 0, and the bytes of the hyperperiod,
/// without padding and each tick's by its weight, with those of the units that have no place at the least weights that
/// each can travel in, are more than one byte less than the value in each tick would give; false where there is no
/// value. For each period of a unit without a place each tick is looked at once. Takes no memory.
pub fn weight_bound(loads: &Loads, rest: &Rest, weights: &[u16], value: Option<u64>) -> bool
    ensures { IsRestOf rest.now loads.now → (IsTrue result ↔ WeightsHold loads.now.loads loads.now.slots value loads.now.places weights.now) }
{
    let Some(value) = value else {
        return false;
    };
    if weights.len() != loads.ticks() as usize {
        return false;
    }
    let total = total_weight(weights);
    if total == 0 {
        return false;
    }
    let bytes = weighted_raw(loads, weights) + weighted_left(rest.loads(), rest.flags(), weights);
    u128::from(value) * u128::from(total) < u128::from(bytes) + u128::from(total)
}
