//! What would be too much if a unit got a place.

ghost use Rattle.std.specs.Prelude.{◌≡◌, ℕ, ◌+◌, ◌*◌, ◌<◌, ◌≤◌, length, slice_index, IfSome, None, Some};
ghost use Rattle.ec_loads.specs.Table.{cell_cost};
ghost use Rattle.ec_loads.specs.Excess.{IsTableExcess};

use crate::cells::{Change, WIDTH, cost_of};
use crate::legal::MOST_PAYLOAD;

/// What would be too much in a tick, numbered from 0, if a unit that travels in it got a place.
#[derive(Clone, Copy, Debug, PartialEq, Eq)]
pub enum Excess {
    /// The payload of its slot would be above 1498 bytes; the least of its ticks in which it would.
    Payload(u32),
    /// The tick would cost at least the value that was asked for; the least of its ticks that would. No payload of its
    /// slot would be too large.
    Cost(u32),
}

/// The tick that was found before, or else this one where its cost reaches the value.
fn first_of(found: Option<u32>, tick: u32, cost: u32, value: u64) -> Option<u32>
    ensures kept { IfSome found (λ t. result ≡ Some t) }
    ensures reached { found ≡ None → value ≤ cost → result ≡ Some tick }
    ensures below { found ≡ None → cost < value → result ≡ None }
{
    match found {
        Some(found) => Some(found),
        None if u64::from(cost) >= value => Some(tick),
        None => None,
    }
}

/// What would be too much with so many bytes more in a slot of each tick in which a unit travels.
pub(crate) fn first_excess(
    cells: &[u32],
    costs: &[u32],
    change: Change,
    value: u64,
) -> Option<Excess>
    requires few { length costs.now ≤ 1024 }
    requires cells { length cells.now ≡ length costs.now * 8 }
    requires phase { change.phase < change.period }
    requires period { change.period ≤ 60 }
    requires slot { change.slot < 8 }
    requires bytes { change.bytes ≤ 1498 }
    requires low { (t : ℕ) → t < length costs.now → slice_index cells.now (t * 8 + change.slot) ≤ 70406 }
    requires within { (t : ℕ) → t < length costs.now → cell_cost (slice_index cells.now (t * 8 + change.slot)) ≤ slice_index costs.now t }
    requires cheap { (t : ℕ) → t < length costs.now → slice_index costs.now t ≤ 563920 }
    ensures { IsTableExcess cells.now costs.now (length costs.now) change.period change.phase change.slot change.bytes value result }
{
    let Change {
        phase,
        period,
        slot,
        bytes,
    } = change;
    let mut found = None;
    let mut tick = phase;
    while tick < costs.len() {
        let old = cells[tick * WIDTH + slot];
        let new = old + bytes;
        if new > MOST_PAYLOAD {
            return Some(Excess::Payload(tick as u32));
        }
        let cost = costs[tick] - cost_of(old) + cost_of(new);
        found = first_of(found, tick as u32, cost, value);
        tick += period;
    }
    match found {
        Some(tick) => Some(Excess::Cost(tick)),
        None => None,
    }
}
