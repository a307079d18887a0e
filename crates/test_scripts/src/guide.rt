//! A guide for the scripts, and what a search finds with it.

ghost use Rattle.std.specs.Prelude.{◌≡◌, ℕ, ◌≤◌, IsTrue, IfOk, length, drop, [], ◌∷◌};
ghost use Rattle.std.specs.Option.{ForSome};
ghost use Rattle.ec_units.specs.Load.{loads_of};
ghost use Rattle.ec_loads.specs.Line.{line_by};
ghost use Rattle.ec_loads.specs.Search.{IsPartialTree};
ghost use Rattle.ec_symmetry.specs.Orders.{IsOrder, IsReachedPrefix, prefix_of};
ghost use Rattle.ec_symmetry.specs.Ruled.{line_rules};
ghost use Rattle.ec_cert.specs.Shapes.{shape_of};
ghost use Rattle.test_scripts.specs.IsFirstPhase.{IsFirstPhase};

use ec_branch::{Guide, explore};
use ec_cert::Subtree;
use ec_loads::Plan;
use ec_symmetry::Rules;
use ec_units::{Place, Units};
use std::alloc::{AllocError, Global};

/// What a guide was asked and told.
#[derive(Clone, Copy)]
pub(crate) struct Heard {
    /// How many times it was asked for the value.
    pub asked: u32,
    /// How many plans it was told.
    pub told: u32,
    /// How many of them didn't cost less than the value that was known then.
    pub dearer: u32,
}

/// A guide that knows a value at first, counts what it is asked and told, and may stop at a plan.
#[derive(Drop)]
struct Own<'a> {
    units: &'a Units,
    value: Option<u64>,
    floor: u64,
    stops: bool,
    heard: Heard,
    halted: bool,
    pub ghost high: { ForSome value (λ v. floor ≤ v) },
}

/// A value, raised to the floor.
fn raised(value: Option<u64>, floor: u64) -> Option<u64>
    ensures { ForSome result (λ v. floor ≤ v) }
{
    match value {
        Some(value) => Some(value.max(floor)),
        None => None,
    }
}

impl<'a> Guide for Own<'a> {
    ghost frame = { λ s. record { loads = loads_of s.units.now.units; slots = s.units.now.slots; floor = s.floor } };

    ghost halted = { λ s. s.halted };

    ghost known = { λ s. s.value };

    fn bound(&mut self) -> Option<u64> {
        self.heard.asked = self.heard.asked.saturating_add(1);
        self.value
    }

    fn found(&mut self, _plan: &Plan, cost: u64) -> Option<u64> {
        self.heard.told = self.heard.told.saturating_add(1);
        if let Some(value) = self.value {
            if cost >= value {
                self.heard.dearer = self.heard.dearer.saturating_add(1);
            }
        }
        if self.stops || cost < self.floor {
            self.halted = true;
            return None;
        }
        self.halted = false;
        self.value = Some(cost);
        Some(cost)
    }

    fn stopped(&self) -> bool {
        self.halted
    }
}

/// Whether a unit that is the first of the order can have this phase: each below its period, in ticks, and where time is
/// turned 0 alone. By the strong rules this isn't said.
fn is_first_phase(rules: Rules, period: u16, phase: u16) -> bool
    ensures { IsTrue result → IsFirstPhase rules period phase }
{
    match rules {
        Rules::Plain => phase < period,
        Rules::Turned => phase < period.min(1),
        Rules::Strong => false,
    }
}

/// Whether the first unit of the order can take this place, in the first slot.
fn is_first_child(units: &Units, order: &[u8], rules: Rules, place: Place) -> bool
    requires { IsOrder (length units.now.units) order.now }
    ensures { IsTrue result → IsReachedPrefix (line_by (line_rules rules) (loads_of units.now.units) units.now.slots) order.now (place ∷ []) }
{
    match order.split_first() {
        None => false,
        Some((unit, _)) => {
            let unit = usize::from(*unit);
            let period = units.units.as_slice()[unit].period;
            place.slot == 0 && is_first_phase(rules, period, place.phase)
        }
    }
}

/// Whether this is no place or one that the first unit can take.
pub(crate) fn is_reached(units: &Units, order: &[u8], rules: Rules, prefix: &[Place]) -> bool
    requires { IsOrder (length units.now.units) order.now }
    ensures { IsTrue result → IsReachedPrefix (line_by (line_rules rules) (loads_of units.now.units) units.now.slots) order.now prefix.now }
{
    match prefix {
        [] => true,
        [place] => is_first_child(units, order, rules, *place),
        _ => false,
    }
}

/// How a search is asked: the value that its guide knows at first and its floor, whether it stops at a plan, and the
/// nodes that it may split and close.
#[derive(Clone, Copy)]
pub(crate) struct Wish {
    pub value: Option<u64>,
    pub floor: u64,
    pub stops: bool,
    pub grant: u32,
}

/// What a search below a prefix finds, and what its guide heard.
pub(crate) fn found_below(
    alloc: Global,
    units: &Units,
    order: &[u8],
    rules: Rules,
    prefix: &[Place],
    wish: Wish,
) -> Result<(Subtree, Heard), AllocError>
    requires order { IsOrder (length units.now.units) order.now }
    requires reached { IsReachedPrefix (line_by (line_rules rules) (loads_of units.now.units) units.now.slots) order.now prefix.now }
    requires some { 1 ≤ wish.grant }
    ensures { IfOk result (λ r. IsPartialTree (line_by (line_rules rules) (loads_of units.now.units) units.now.slots) r.0.threshold (shape_of r.0.tree) (prefix_of (loads_of units.now.units) order.now prefix.now) (drop (length prefix.now) order.now)) }
{
    let mut guide = Own {
        units,
        value: raised(wish.value, wish.floor),
        floor: wish.floor,
        stops: wish.stops,
        heard: Heard {
            asked: 0,
            told: 0,
            dearer: 0,
        },
        halted: false,
    };
    let sub = explore(alloc, units, order, rules, prefix, &mut guide, wish.grant)?;
    Ok((sub, guide.heard))
}
