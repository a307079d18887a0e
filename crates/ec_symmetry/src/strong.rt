//! The places that a unit can take by the strong rules: fewer than by slots alone, since a shift of time and equal units
//! leave the others to these.

ghost use Rattle.std.specs.Prelude.{◌≡◌, ℕ, ◌<◌, ◌≤◌, IsTrue, IfSome, All, length, take, get_or};
ghost use Rattle.ec_hyper.specs.Lcm.{lcm_of};
ghost use Rattle.ec_loads.specs.Held.{AreLoads};
ghost use Rattle.ec_loads.specs.Line.{strong, line_of};
ghost use Rattle.ec_loads.specs.Search.{children, nobody, used as used_in};
ghost use Rattle.ec_loads.specs.Strong.{gcd, placed_periods, strong_phases, same_load, is_below, strong_children};
ghost use Rattle.ec_symmetry.specs.Latest.{IsLatest, IsLater, IsLastChild};
ghost use Rattle.ec_symmetry.specs.Orders.{IsOrder, with_places, prefix_of};

use crate::child::{Children, choices_from};
use crate::slots::used_among;
use ec_hyper::Hyper;
use ec_loads::Loads;
use ec_units::{Load, Place};

/// The most units.
const MOST_UNITS: usize = 48;

/// Whether two units are equal: the same bytes and the same period.
fn is_equal(first: Load, second: Load) -> bool
    ensures { result ≡ same_load first second }
{
    first.bytes == second.bytes && first.period == second.period
}

/// Whether a place is below another one, by phase and then slot.
fn is_lower(first: Place, second: Place) -> bool
    ensures { result ≡ is_below first second }
{
    first.phase < second.phase || (first.phase == second.phase && first.slot < second.slot)
}

/// The later of a place and of the place of another unit, where that has one and is equal to the load.
fn later_of(latest: Place, load: Load, other: Load, place: Option<Place>) -> Place
    ensures { IsLater load other place latest result }
{
    let Some(place) = place else {
        return latest;
    };
    if !is_equal(other, load) {
        return latest;
    }
    if !is_lower(latest, place) {
        return latest;
    }
    place
}

/// The greatest place, by phase and then slot, of the units that are equal to the load; phase 0 and slot 0 where none of
/// them has a place.
fn latest_equal(loads: &[Load], places: &[Option<Place>], load: Load) -> Place
    requires each { length places.now ≡ length loads.now }
    ensures { IsLatest load loads.now places.now result }
{
    let mut latest = Place { phase: 0, slot: 0 };
    for i in 0..loads.len() {
        latest = later_of(latest, load, loads[i], places[i]);
    }
    latest
}

/// The place of the unit that got its place last, if it is named and equal to the load. It is the greatest of the equal units'
/// places, since children below one of these are left out.
fn last_equal(loads: &Loads, last: Option<usize>, load: Load) -> Option<Place>
    requires { IsLastChild (line_of strong loads.now) loads.now.places last }
    ensures { IfSome result (IsLatest load loads.now.loads loads.now.places) }
{
    let all = loads.loads();
    let unit = last?;
    let place = loads.places()[unit]?;
    if is_equal(all[unit], load) {
        Some(place)
    } else {
        None
    }
}

/// What `latest_equal` gives for the places so far, where the unit that got its place last, if it is named, got a child.
fn latest_after(loads: &Loads, last: Option<usize>, load: Load) -> Place
    requires { IsLastChild (line_of strong loads.now) loads.now.places last }
    ensures { IsLatest load loads.now.loads loads.now.places result }
{
    match last_equal(loads, last, load) {
        Some(place) => place,
        None => latest_equal(loads.loads(), loads.places(), load),
    }
}

/// Writes the periods of the units that have a place, in ticks, into a table, and says how many.
fn gather_periods(
    loads: &[Load],
    places: &[Option<Place>],
    periods: &mut [u16; MOST_UNITS],
) -> usize
    requires few { length loads.now ≤ 48 }
    requires each { length places.now ≡ length loads.now }
    ensures periods { take result periods.new ≡ placed_periods loads.now places.now }
    ensures count { result ≤ 48 }
{
    let mut count = 0usize;
    for i in 0..loads.len() {
        if places[i].is_some() {
            periods[count] = loads[i].period;
            count += 1;
        }
    }
    count
}

/// The least common multiple of the periods of the units that have a place among these, in ticks; 1 where none has.
fn ticks_so_far(loads: &Loads, places: &[Option<Place>]) -> u32
    requires { length places.now ≡ length loads.now.loads }
    ensures { result ≡ lcm_of (placed_periods loads.now.loads places.now) }
{
    let _ticks = loads.ticks();
    let mut periods = [1u16; MOST_UNITS];
    let count = gather_periods(loads.loads(), places, &mut periods);
    match Hyper::of(&periods[..count]) {
        Ok(hyper) => hyper.ticks(),
        Err(_) => unreachable!(),
    }
}

/// The greatest common divisor of a number and a positive one.
fn common_divisor(first: u32, second: u32) -> u32
    requires { 1 ≤ second }
    ensures value { result ≡ gcd first second }
    ensures bound { result ≤ second }
{
    let mut greater = first;
    let mut less = second;
    while less != 0 {
        let rest = greater % less;
        greater = less;
        less = rest;
    }
    greater
}

/// Whether a unit of this period, in ticks, has a place among these; then each phase below the period is tried.
fn is_period_placed(loads: &[Load], places: &[Option<Place>], period: u16) -> bool
    requires each { length places.now ≡ length loads.now }
    requires units { AreLoads loads.now }
    requires period { 1 ≤ period }
    ensures { IsTrue result → strong_phases loads.now places.now period ≡ period }
{
    for i in 0..loads.len() {
        if loads[i].period == period {
            if places[i].is_some() {
                return true;
            }
        }
    }
    false
}

/// How many phases a unit of this period, in ticks, tries after these places: a shift of time leads from the others to
/// these.
fn phases_of(loads: &Loads, places: &[Option<Place>], period: u16) -> u16
    requires each { length places.now ≡ length loads.now.loads }
    requires period { 1 ≤ period }
    ensures { result ≡ strong_phases loads.now.loads places.now period }
{
    if is_period_placed(loads.loads(), places, period) {
        return period;
    }
    common_divisor(ticks_so_far(loads, places), u32::from(period)) as u16
}

/// The places that a unit can take after these places of the units, in file order, by the strong rules, in child order,
/// where this is the greatest place of the units that are equal to it, and so many different slots are in use.
fn strong_among(
    loads: &Loads,
    places: &[Option<Place>],
    unit: usize,
    latest: Place,
    used: u8,
) -> Children
    requires each { length places.now ≡ length loads.now.loads }
    requires unit { unit < length loads.now.loads }
    requires latest { IsLatest (get_or loads.now.loads unit nobody) loads.now.loads places.now latest }
    requires used { used ≡ used_in places.now }
    ensures { result ≡ strong_children loads.now.loads loads.now.slots places.now unit }
{
    let all = loads.loads();
    let phases = phases_of(loads, places, all[unit].period);
    choices_from(latest, phases, loads.slots(), used)
}

/// What `strong_choices` gives, where the unit that got its place last, if it is named, got a child.
pub(crate) fn strong_after_last(loads: &Loads, last: Option<usize>, unit: usize) -> Children
    requires unit { unit < length loads.now.places }
    requires last { IsLastChild (line_of strong loads.now) loads.now.places last }
    ensures { result ≡ children (line_of strong loads.now) loads.now.places unit }
{
    let used = loads.used();
    let latest = latest_after(loads, last, loads.loads()[unit]);
    strong_among(loads, loads.places(), unit, latest, used)
}

/// The places that a unit can take after the places so far by the strong rules, in child order: a phase below the greatest
/// common divisor of its period and of the least common multiple of the periods of the units that have a place; a slot in
/// use or the first free one, below the slot count; and no place below that of an equal unit, one with the same bytes and
/// period, by phase and then slot. Takes no memory.
pub fn strong_choices(loads: &Loads, unit: usize) -> Children
    requires { unit < length loads.now.places }
    ensures { result ≡ children (line_of strong loads.now) loads.now.places unit }
{
    strong_after_last(loads, None, unit)
}

/// The places that the first units of an order make, each unit's in file order.
fn fill_prefix(
    order: &[u8],
    before: &[Place],
    table: &mut [Option<Place>; MOST_UNITS],
    units: usize,
)
    requires few { units ≤ 48 }
    requires below { All (λ u. u < units) order.now }
    requires short { length before.now ≤ length order.now }
    ensures { take units table.new ≡ with_places (take units table.old) order.now before.now }
{
    for i in 0..before.len() {
        table[usize::from(order[i])] = Some(before[i]);
    }
}

/// The places that the next unit of an order can take after these places of the units before it, by the strong rules, in
/// child order. What the loads hold doesn't count. Takes no memory.
pub(crate) fn strong_after(loads: &Loads, order: &[u8], before: &[Place]) -> Children
    requires order { IsOrder (length loads.now.loads) order.now }
    requires few { length before.now < length order.now }
    ensures { result ≡ children (line_of strong loads.now) (prefix_of loads.now.loads order.now before.now) (get_or order.now (length before.now) 0) }
{
    let units = loads.loads().len();
    let mut table = [None; MOST_UNITS];
    fill_prefix(order, before, &mut table, units);
    let unit = usize::from(order[before.len()]);
    let places = &table[..units];
    let all = loads.loads();
    let latest = latest_equal(all, places, all[unit]);
    strong_among(loads, places, unit, latest, used_among(places))
}
