//! Whether a leaf holds.

ghost use Rattle.std.specs.Prelude.{◌≡◌, ℕ, ◌<◌, ◌≤◌};
ghost use Rattle.ec_loads.specs.Line.{Rules as LineRules, line_of};
ghost use Rattle.ec_loads.specs.Shape.{merging, counted, grouped};
ghost use Rattle.ec_bounds.specs.Left.{IsRestOf};
ghost use Rattle.ec_checker.specs.Judged.{tick_holds as tick_holds_of, full_holds as full_holds_of, average_holds as average_holds_of, weights_hold as weights_hold_of, tick_reaches as tick_reaches_of, level_holds as level_holds_of, is_strong as is_strong_of, merge_holds as merge_holds_of, count_holds as count_holds_of, groups_hold as groups_hold_of, leaf_holds, leaf_judged};
ghost use Rattle.ec_symmetry.specs.Ruled.{line_rules};

use crate::fault::CheckFault;
use ec_bounds::{
    Rest, average_bound, count_bound, groups_bound, merge_bound, tick_bound, weight_bound,
};
use ec_loads::{Loads, MOST_PAYLOAD, Pair};
use ec_symmetry::Rules;

/// Whether the tick costs at least the value.
pub(crate) fn tick_holds(loads: &Loads, value: Option<u64>, tick: u32) -> bool
    ensures { result ≡ tick_holds_of loads.now.loads loads.now.slots value loads.now.places tick }
{
    match value {
        Some(value) => value <= loads.cost(tick),
        None => false,
    }
}

/// Whether the slot is one of the line's and its payload in this tick is too large.
pub(crate) fn full_holds(loads: &Loads, tick: u32, slot: u8) -> bool
    ensures { result ≡ full_holds_of loads.now.loads loads.now.slots loads.now.places tick slot }
{
    slot < loads.slots() && MOST_PAYLOAD < loads.payload(tick, slot)
}

/// Whether some tick costs at least the value by the average of all.
pub(crate) fn average_holds(loads: &Loads, rest: &Rest, value: Option<u64>) -> bool
    requires { IsRestOf rest.now loads.now }
    ensures { result ≡ average_holds_of loads.now.loads loads.now.slots value loads.now.places }
{
    average_bound(loads, rest, value)
}

/// Whether some tick costs at least the value by the average of all with these weights.
pub(crate) fn weights_hold(loads: &Loads, rest: &Rest, value: Option<u64>, weights: &[u16]) -> bool
    requires { IsRestOf rest.now loads.now }
    ensures { result ≡ weights_hold_of loads.now.loads loads.now.slots value loads.now.places weights.now }
{
    weight_bound(loads, rest, weights, value)
}

/// Whether these are the strong rules, by which there are three more kinds of leaf.
fn is_strong(rules: Rules) -> bool
    ensures { result ≡ is_strong_of (line_rules rules) }
{
    match rules {
        Rules::Strong => true,
        Rules::Plain | Rules::Turned => false,
    }
}

/// Whether two slots can be one at the value.
fn slots_merge(loads: &Loads, value: Option<u64>) -> bool
    ensures { result ≡ merge_holds_of value loads.now.places }
{
    merge_bound(loads, value)
}

/// Whether more units of this period, in ticks, and with at least so many bytes are left than have room.
fn units_left(loads: &Loads, rest: &Rest, period: u16, bytes: u16, value: Option<u64>) -> bool
    requires { IsRestOf rest.now loads.now }
    ensures { result ≡ count_holds_of loads.now.loads loads.now.slots value loads.now.places period bytes }
{
    count_bound(loads, rest, period, bytes, value)
}

/// Whether each period needs so many new groups that the average of all ticks is too great.
fn groups_left(loads: &Loads, rest: &Rest, pairs: &[Pair], value: Option<u64>) -> bool
    requires { IsRestOf rest.now loads.now }
    ensures { result ≡ groups_hold_of loads.now.loads loads.now.slots value loads.now.places pairs.now }
{
    groups_bound(loads, rest, pairs, value)
}

/// Whether a merge holds, which it does by the strong rules alone.
pub(crate) fn merge_holds(loads: &Loads, rules: Rules, value: Option<u64>) -> bool
    ensures { result ≡ leaf_holds (line_of (line_rules rules) loads.now) value loads.now.places merging }
{
    is_strong(rules) && slots_merge(loads, value)
}

/// Whether a count of units of this period, in ticks, and with at least so many bytes holds, by the strong rules alone.
pub(crate) fn count_holds(
    loads: &Loads,
    rest: &Rest,
    rules: Rules,
    period: u16,
    bytes: u16,
    value: Option<u64>,
) -> bool
    requires { IsRestOf rest.now loads.now }
    ensures { result ≡ leaf_holds (line_of (line_rules rules) loads.now) value loads.now.places (counted period bytes) }
{
    is_strong(rules) && units_left(loads, rest, period, bytes, value)
}

/// Whether new groups hold, by the strong rules alone.
pub(crate) fn groups_hold(
    loads: &Loads,
    rest: &Rest,
    rules: Rules,
    pairs: &[Pair],
    value: Option<u64>,
) -> bool
    requires { IsRestOf rest.now loads.now }
    ensures { result ≡ leaf_holds (line_of (line_rules rules) loads.now) value loads.now.places (grouped pairs.now) }
{
    is_strong(rules) && groups_left(loads, rest, pairs, value)
}

/// Whether some tick costs at least the level.
fn tick_reaches(loads: &Loads, level: u64) -> bool
    ensures { result ≡ tick_reaches_of loads.now.loads loads.now.slots level loads.now.places }
{
    let _ticks = loads.ticks();
    tick_bound(loads, Some(level)).is_some()
}

/// Whether some tick costs at least the level, or else the average of all does; false where there is no level.
pub(crate) fn level_holds(loads: &Loads, rest: &Rest, level: Option<u64>) -> bool
    requires { IsRestOf rest.now loads.now }
    ensures { (rules : LineRules) → result ≡ level_holds_of (line_of rules loads.now) level loads.now.places }
{
    match level {
        Some(least) => tick_reaches(loads, least) || average_holds(loads, rest, level),
        None => false,
    }
}

/// The number after that of a leaf that holds, else its fault.
pub(crate) fn judged(holds: bool, number: usize) -> Result<usize, CheckFault>
    ensures { result ≡ leaf_judged holds number }
{
    if holds {
        Ok(number.saturating_add(1))
    } else {
        Err(CheckFault::Leaf(number))
    }
}
