//! The bound by counting: units that are left beside the room that is left.

ghost use Rattle.std.specs.Prelude.{◌≡◌, ◌-◌, ◌<◌, ◌≤◌, ◌↔◌, IsTrue, length, take, count_by};
ghost use Rattle.ec_loads.specs.Held.{items_of};
ghost use Rattle.ec_loads.specs.Rooms.{is_large as large, CountHolds, room_count_by, CountHoldsBy};
ghost use Rattle.ec_bounds.specs.Left.{left_loads, IsRestOf};
ghost use Rattle.ec_bounds.specs.Shown.{CountShows};

use crate::rest::{MOST_UNITS, Rest};
use crate::rooms::{open_classes, room};
use crate::tops::{Shown, Ticks, Tops, Walked};
use ec_loads::Loads;
use ec_units::Load;

/// A table with no unit in it.
pub(crate) const NO_UNITS: [Load; MOST_UNITS] = [Load {
    bytes: 0,
    period: 1,
}; MOST_UNITS];

/// Writes the units without a place into a table, in file order, and says how many.
pub(crate) fn fill_left(rest: &Rest, table: &mut [Load; MOST_UNITS]) -> usize
    ensures left { take result table.new ≡ left_loads rest.now.loads rest.now.unplaced }
    ensures few { result ≤ 48 }
{
    let all = rest.loads();
    let flags = rest.flags();
    let mut count = 0usize;
    for i in 0..all.len() {
        if flags[i] {
            table[count] = all[i];
            count += 1;
        }
    }
    count
}

/// Whether a unit has this period, in ticks, and at least so many bytes.
fn is_large(load: &Load, period: u16, bytes: u16) -> bool
    ensures { result ≡ large period bytes load.now }
{
    load.period == period && bytes <= load.bytes
}

/// How many units have this period, in ticks, and at least so many bytes.
fn count_large(left: &[Load], period: u16, bytes: u16) -> u64
    requires { length left.now ≤ 48 }
    ensures { result ≡ count_by (large period bytes) left.now }
{
    let mut count = 0u64;
    for load in left {
        if is_large(load, period, bytes) {
            count += 1;
        }
    }
    count
}

/// How many of these units are left over where each class of a period takes as many as it has room for, so many bytes
/// each.
fn left_over<T: Tops>(
    loads: &Loads,
    tops: &T,
    period: u16,
    bytes: u16,
    value: u64,
    count: u64,
) -> u64
    requires { 0 < bytes }
    ensures { result ≡ count - room_count_by (items_of loads.now) (T.tops tops.now) value period bytes }
{
    let opens = open_classes(loads, period);
    let mut left = count;
    for phase in 0..period {
        left = left.saturating_sub(
            room(loads, tops, &opens, period, phase, value) / u64::from(bytes),
        );
    }
    left
}

/// Whether the units without a place of this period, in ticks, and with at least so many bytes are more than have room
/// by a table of tops.
fn count_bound_by<T: Tops>(
    loads: &Loads,
    rest: &Rest,
    tops: &T,
    period: u16,
    bytes: u16,
    value: Option<u64>,
) -> bool
    ensures { IsRestOf rest.now loads.now → (IsTrue result ↔ CountHoldsBy loads.now.loads (T.tops tops.now) value loads.now.places period bytes) }
{
    let Some(value) = value else {
        return false;
    };
    if bytes == 0 {
        return false;
    }
    let mut table = NO_UNITS;
    let units = fill_left(rest, &mut table);
    let count = count_large(&table[..units], period, bytes);
    if count == 0 {
        return false;
    }
    left_over(loads, tops, period, bytes, value, count) > 0
}

/// Whether the units without a place of this period, in ticks, and with at least so many bytes are more than have room:
/// so many bytes each, in the classes of their period. False where there is no value, and for 0 bytes. For each phase
/// the ticks of its class are looked at once. Takes no memory.
pub fn count_bound(loads: &Loads, rest: &Rest, period: u16, bytes: u16, value: Option<u64>) -> bool
    ensures { IsRestOf rest.now loads.now → (IsTrue result ↔ CountHolds loads.now.loads loads.now.slots value loads.now.places period bytes) }
{
    count_bound_by(loads, rest, &Walked { loads }, period, bytes, value)
}

/// Whether a table of ticks shows that the units without a place of this period, in ticks, and with at least so many
/// bytes are more than have room: so many bytes each, in the classes of their period. One tick stands for each class,
/// and counts as 40 bytes where it isn't one of it. False where there is no value, and for 0 bytes. Takes no memory.
pub fn count_bound_at<T: Ticks>(
    loads: &Loads,
    rest: &Rest,
    table: &T,
    period: u16,
    bytes: u16,
    value: Option<u64>,
) -> bool
    ensures said { IsRestOf rest.now loads.now → (IsTrue result ↔ CountShows loads.now.loads loads.now.slots value loads.now.places period bytes (T.ticks table.now)) }
    ensures holds { IsRestOf rest.now loads.now → IsTrue result → CountHolds loads.now.loads loads.now.slots value loads.now.places period bytes }
{
    count_bound_by(loads, rest, &Shown { loads, table }, period, bytes, value)
}
