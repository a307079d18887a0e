//! The bounds themselves, and the greatest value at which the average holds; none takes memory.

ghost use Rattle.std.specs.Prelude.{◌≡◌, ℕ, ◌<◌, ◌≤◌, ◌↔◌, IsTrue, MatchOption, None, Some};
ghost use Rattle.ec_loads.specs.Search.{TickHolds, FullHolds, AverageHolds};
ghost use Rattle.ec_bounds.specs.Left.{IsRestOf};
ghost use Rattle.ec_bounds.specs.Laws.{IsFirstFullLeaf};

use crate::rest::Rest;
use ec_loads::Loads;

/// The least tick that costs at least the value, in wire bytes; none where no tick does, or there is no value.
pub fn tick_bound(loads: &Loads, value: Option<u64>) -> Option<u32>
    ensures { MatchOption result ((t : ℕ) → ¬ (TickHolds loads.now.loads loads.now.slots value loads.now.places t))
        (λ t. TickHolds loads.now.loads loads.now.slots value loads.now.places t
        × ((i : ℕ) → i < t → ¬ (TickHolds loads.now.loads loads.now.slots value loads.now.places i))) }
{
    loads.first_at_least(value?)
}

/// The least tick, and in it the least slot, whose payload is above 1498 bytes; none where there is no such slot.
pub fn full_bound(loads: &Loads) -> Option<(u32, u8)>
    ensures { MatchOption result ((t s : ℕ) → ¬ (FullHolds loads.now.loads loads.now.slots loads.now.places t s))
        (λ f. IsFirstFullLeaf loads.now f.0 f.1) }
{
    loads.full()
}

/// Whether the bytes of a hyperperiod, without padding and with those of the units that have no place, are more
/// than one byte less than the value in each tick would hold; false where there is no value.
pub fn average_bound(loads: &Loads, rest: &Rest, value: Option<u64>) -> bool
    ensures { IsRestOf rest.now loads.now → (IsTrue result ↔ AverageHolds loads.now.loads loads.now.slots value loads.now.places) }
{
    let Some(value) = value else {
        return false;
    };
    let ticks = u128::from(loads.ticks());
    let bytes = u128::from(loads.raw_total()) + u128::from(rest.demand());
    u128::from(value) * ticks < bytes + ticks
}

/// The greatest value at which the average holds, in bytes: the least whole number that isn't below the bytes of a
/// hyperperiod, without padding and with those of the units that have no place, for each of its ticks.
pub fn average_level(loads: &Loads, rest: &Rest) -> u64
    ensures { IsRestOf rest.now loads.now → (b : ℕ) → ((b ≤ result) ↔ AverageHolds loads.now.loads loads.now.slots (Some b) loads.now.places) }
{
    let bytes = loads.raw_total() + rest.demand();
    bytes.div_ceil(u64::from(loads.ticks()))
}
