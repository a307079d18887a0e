//! What the loads carry, with no table: each sum computed anew from the places. This is the plain reference with
//! which the tests compare the table, and the payload of a slot that the line doesn't have.

ghost use Rattle.std.specs.Prelude.{◌≡◌, ℕ, ◌≤◌, MatchOption};
ghost use Rattle.ec_loads.specs.Cost.{payload as payload_of, tick_cost, raw_cost, IsFirstBusiest};
ghost use Rattle.ec_loads.specs.Held.{items_of};
ghost use Rattle.ec_loads.specs.Legal.{Fits, IsFirstFull};

use crate::legal::first_full;
use crate::loads::Loads;
use crate::peak::busiest_below;
use crate::sums::{cost, payload, raw};
use crate::table::{EMPTY, fill};

/// The payload of a slot in a tick, in bytes, as `Loads::payload` gives it.
pub fn plain_payload(loads: &Loads, tick: u32, slot: u8) -> u32
    ensures value { result ≡ payload_of (items_of loads.now) tick slot }
    ensures bound { result ≤ 71904 }
{
    let mut table = EMPTY;
    let count = fill(loads.loads(), loads.places(), &mut table);
    payload(&table[..count], tick, slot)
}

/// What a tick costs on the wire, in bytes, as `Loads::cost` gives it.
pub fn plain_cost(loads: &Loads, tick: u32) -> u64
    ensures value { result ≡ tick_cost (items_of loads.now) loads.now.slots tick }
    ensures bound { result ≤ 575552 }
{
    let mut table = EMPTY;
    let count = fill(loads.loads(), loads.places(), &mut table);
    cost(&table[..count], loads.slots(), tick)
}

/// What a tick costs on the wire without padding, in bytes, as `Loads::raw` gives it.
pub fn plain_raw(loads: &Loads, tick: u32) -> u64
    ensures value { result ≡ raw_cost (items_of loads.now) loads.now.slots tick }
    ensures bound { result ≤ 575552 }
{
    let mut table = EMPTY;
    let count = fill(loads.loads(), loads.places(), &mut table);
    raw(&table[..count], loads.slots(), tick)
}

/// The greatest cost of a tick in bytes, and the least tick that has it, as `Loads::top` gives them.
pub fn plain_top(loads: &Loads) -> (u64, u32)
    ensures busiest { IsFirstBusiest (items_of loads.now) loads.now.slots result.0 result.1 }
    ensures bound { result.0 ≤ 575552 }
{
    let mut table = EMPTY;
    let count = fill(loads.loads(), loads.places(), &mut table);
    busiest_below(&table[..count], loads.slots(), loads.ticks())
}

/// The least tick, and in it the least slot, with a payload above 1498 bytes, as `Loads::full` gives them; none where there is
/// no such slot.
pub fn plain_full(loads: &Loads) -> Option<(u32, u8)>
    ensures { MatchOption result (Fits (items_of loads.now) loads.now.slots) (λ f. (b : ℕ) × IsFirstFull (items_of loads.now) loads.now.slots f.0 f.1 b) }
{
    let mut table = EMPTY;
    let count = fill(loads.loads(), loads.places(), &mut table);
    match first_full(&table[..count], loads.slots(), loads.ticks()) {
        Some((tick, slot, _)) => Some((tick, slot)),
        None => None,
    }
}
