//! The bound by new groups: each costs 12 bytes in its ticks.

ghost use Rattle.std.specs.Prelude.{◌≡◌, ℕ, ◌||◌, false, get_or, ◌+◌, ◌-◌, ◌*◌, ◌/◌, ◌<◌, ◌≤◌, ◌↔◌, IsTrue, All, length, take};
ghost use Rattle.std.specs.List.{AllZip, list_any};
ghost use Rattle.ec_loads.specs.Held.{items_of};
ghost use Rattle.ec_loads.specs.Rooms.{has_period as of_period, periods_in, bytes_at as bytes_in, group_bytes as group_bytes_of, GroupsHold, room_below_by, IsNeededBy, GroupsHoldBy};
ghost use Rattle.ec_bounds.specs.Left.{IsRestOf};
ghost use Rattle.ec_bounds.specs.Shown.{GroupsShow};

use crate::counted::{NO_UNITS, fill_left};
use crate::rest::Rest;
use crate::rooms::{MOST_PERIOD, open_classes, room_beside};
use crate::tops::{Shown, Ticks, Tops, Walked};
use ec_loads::{GROUP_BYTES, Loads, Pair};
use ec_units::Load;

/// Notes the period of a unit.
fn note_period(seen: &mut [bool; MOST_PERIOD + 1], load: Load)
    ensures { (p : ℕ) → p < 61 → get_or seen.new p false ≡ (get_or seen.old p false || of_period p load) }
{
    let period = usize::from(load.period);
    if period <= MOST_PERIOD {
        seen[period] = true;
    }
}

/// Which periods, in ticks, the units have.
fn periods_seen(left: &[Load]) -> [bool; MOST_PERIOD + 1]
    ensures { (p : ℕ) → p < 61 → get_or result p false ≡ list_any (of_period p) left.now }
{
    let mut seen = [false; MOST_PERIOD + 1];
    for i in 0..left.len() {
        note_period(&mut seen, left[i]);
    }
    seen
}

/// Whether one of the units has this period, in ticks, of which a table tells it.
fn has_period(_left: &[Load], seen: &[bool; MOST_PERIOD + 1], period: u16) -> bool
    requires below { period < 61 }
    requires seen { (p : ℕ) → p < 61 → get_or seen.now p false ≡ list_any (of_period p) _left.now }
    ensures { result ≡ list_any (of_period period) _left.now }
{
    seen[usize::from(period)]
}

/// Writes the different periods of units into a table, in ascending order, and says how many.
fn fill_periods(left: &[Load], table: &mut [u16; MOST_PERIOD]) -> usize
    ensures periods { take result table.new ≡ periods_in left.now }
    ensures few { result ≤ 60 }
    ensures positive { All (λ p. 1 ≤ p) (take result table.new) }
{
    let seen = periods_seen(left);
    let mut count = 0usize;
    for period in 1..61u16 {
        if has_period(left, &seen, period) {
            table[count] = period;
            count += 1;
        }
    }
    count
}

/// The bytes of the units of a period.
fn bytes_at(left: &[Load], period: u16) -> u64
    requires { length left.now ≤ 48 }
    ensures { result ≡ bytes_in period left.now }
{
    let mut bytes = 0u64;
    for load in left {
        if load.period == period {
            bytes += u64::from(load.bytes);
        }
    }
    bytes
}

/// How many of so many bytes find no room where fewer closed classes of their period are used than the pair says.
fn left_over<T: Tops>(
    loads: &Loads,
    tops: &T,
    period: u16,
    pair: Pair,
    value: u64,
    bytes: u64,
) -> u64
    requires { 1 ≤ pair.count }
    ensures { result ≡ bytes - room_below_by (items_of loads.now) (T.tops tops.now) value period pair }
{
    let opens = open_classes(loads, period);
    let mut left = bytes.saturating_sub(u64::from(pair.count - 1) * u64::from(pair.room));
    for phase in 0..period {
        left = left.saturating_sub(room_beside(
            loads, tops, &opens, period, phase, pair.room, value,
        ));
    }
    left
}

/// Whether the units of a period need as many of its closed classes as the pair says.
fn is_needed<T: Tops>(
    loads: &Loads,
    tops: &T,
    left: &[Load],
    period: u16,
    pair: Pair,
    value: u64,
) -> bool
    requires { length left.now ≤ 48 }
    ensures { IsTrue result ↔ IsNeededBy (items_of loads.now) (T.tops tops.now) value left.now period pair }
{
    if pair.count == 0 {
        return true;
    }
    left_over(loads, tops, period, pair, value, bytes_at(left, period)) > 0
}

/// Whether there is a pair for each period, and the units of the period need as many closed classes as it says.
fn all_needed<T: Tops>(
    loads: &Loads,
    tops: &T,
    left: &[Load],
    periods: &[u16],
    pairs: &[Pair],
    value: u64,
) -> bool
    requires { length left.now ≤ 48 }
    ensures { IsTrue result ↔ AllZip (IsNeededBy (items_of loads.now) (T.tops tops.now) value left.now) periods.now pairs.now }
{
    if periods.len() != pairs.len() {
        return false;
    }
    for i in 0..periods.len() {
        if !is_needed(loads, tops, left, periods[i], pairs[i], value) {
            return false;
        }
    }
    true
}

/// The bytes of as many new groups of a period in a hyperperiod of so many ticks.
fn header_bytes(ticks: u32, period: u16, count: u16) -> u64
    requires ticks { ticks ≤ 1024 }
    requires period { 1 ≤ period }
    ensures value { result ≡ 12 * (ticks / period) * count }
    ensures bound { result ≤ 805294080 }
{
    u64::from(GROUP_BYTES * (ticks / u32::from(period))) * u64::from(count)
}

/// The bytes of all new groups in a hyperperiod of so many ticks.
fn group_bytes(ticks: u32, periods: &[u16], pairs: &[Pair]) -> u64
    requires ticks { ticks ≤ 1024 }
    requires few { length periods.now ≤ 60 }
    requires each { length pairs.now ≡ length periods.now }
    requires positive { All (λ p. 1 ≤ p) periods.now }
    ensures value { result ≡ group_bytes_of ticks periods.now pairs.now }
    ensures bound { result ≤ 48317644800 }
{
    let mut total = 0u64;
    for i in 0..pairs.len() {
        total += header_bytes(ticks, periods[i], pairs[i].count);
    }
    total
}

/// Whether new groups cost too much by a table of tops.
fn groups_bound_by<T: Tops>(
    loads: &Loads,
    rest: &Rest,
    tops: &T,
    pairs: &[Pair],
    value: Option<u64>,
) -> bool
    ensures { IsRestOf rest.now loads.now → (IsTrue result ↔ GroupsHoldBy loads.now.loads loads.now.slots (T.tops tops.now) value loads.now.places pairs.now) }
{
    let Some(value) = value else {
        return false;
    };
    let mut units = NO_UNITS;
    let count = fill_left(rest, &mut units);
    if count == 0 {
        return false;
    }
    let left = &units[..count];
    let mut table = [0u16; MOST_PERIOD];
    let few = fill_periods(left, &mut table);
    let periods = &table[..few];
    if !all_needed(loads, tops, left, periods, pairs, value) {
        return false;
    }
    let ticks = loads.ticks();
    let bytes = loads.raw_total() + rest.demand() + group_bytes(ticks, periods, pairs);
    u128::from(value.saturating_sub(1)) * u128::from(ticks) < u128::from(bytes)
}

/// Whether some unit has no place; there is a pair for each period of such units, in ascending order, and the units of
/// the period need as many new groups as it says; and the bytes of a hyperperiod, without padding and with those of the
/// units that have no place and of the new groups, are more than one byte less than the value in each tick would hold.
/// False where there is no value. For each phase of each of these periods the ticks of its class are looked at once.
/// Takes no memory.
pub fn groups_bound(loads: &Loads, rest: &Rest, pairs: &[Pair], value: Option<u64>) -> bool
    ensures { IsRestOf rest.now loads.now → (IsTrue result ↔ GroupsHold loads.now.loads loads.now.slots value loads.now.places pairs.now) }
{
    groups_bound_by(loads, rest, &Walked { loads }, pairs, value)
}

/// Whether a table of ticks shows that new groups cost too much, as `groups_bound` says: one tick stands for each class,
/// and counts as 40 bytes where it isn't one of it. False where there is no value. Takes no memory.
pub fn groups_bound_at<T: Ticks>(
    loads: &Loads,
    rest: &Rest,
    table: &T,
    pairs: &[Pair],
    value: Option<u64>,
) -> bool
    ensures said { IsRestOf rest.now loads.now → (IsTrue result ↔ GroupsShow loads.now.loads loads.now.slots value loads.now.places pairs.now (T.ticks table.now)) }
    ensures holds { IsRestOf rest.now loads.now → IsTrue result → GroupsHold loads.now.loads loads.now.slots value loads.now.places pairs.now }
{
    groups_bound_by(loads, rest, &Shown { loads, table }, pairs, value)
}
