//! What a rule finds in one table of a unit text.

ghost use Rattle.std.specs.Prelude.{◌≡◌, ◌≤◌, ◌^◌, ◌+ℤ◌, nat_lt, int_lt};
ghost use Rattle.std.specs.List.{flat_map};
ghost use Rattle.toml.specs.Data.{as_table};
ghost use Rattle.toml.specs.View.{view, items_view, table_view};
ghost use Rattle.ec_unit_text.specs.AtKey.{is_between};
ghost use Rattle.ec_unit_text.specs.UnitText.{first, fault_if, missing_at, wrong_at, key_faults, top_faults, is_named, has_name, bytes_at, bytes_in, is_outside, is_place_outside, faults_of_unit, is_stationed, has_station, is_stationed_in, has_station_in, are_byte_counts, is_area, overlap, area_at, are_areas_of, faults_of_slave};

use crate::fault::{Key, Spot, UnitFault};
use crate::rule::Rule;
use crate::table::{
    count_at, has_other_key, has_wrong, integer_at, integer_given, integer_or, is_missing, text_at,
    values_at,
};
use ec_units::is_name;
use toml::{Table, Value};

/// The most units of a line.
pub const MOST_UNITS: usize = 48;

/// The most slaves of a unit.
const MOST_SLAVES: usize = 8;

/// The most process bytes of a unit.
const MOST_BYTES: u128 = 1486;

const TOP_KEYS: [Key; 3] = [Key::TickNs, Key::Slots, Key::Unit];

const UNIT_KEYS: [Key; 5] = [Key::Name, Key::Period, Key::Slave, Key::Phase, Key::Slot];

const SLAVE_KEYS: [Key; 5] = [
    Key::Station,
    Key::OutBytes,
    Key::InBytes,
    Key::Area(false),
    Key::Area(true),
];

fn fault_if(test: bool, fault: UnitFault) -> Option<UnitFault>
    ensures { result ≡ first (fault_if test fault) }
{
    if test { Some(fault) } else { None }
}

fn is_between(low: i64, high: i64, value: i64) -> bool
    ensures { result ≡ is_between low high value }
{
    low <= value && value <= high
}

fn missing_key(keys: &[Key], spot: Spot, table: &Table) -> Option<UnitFault>
    ensures { result ≡ first (flat_map (missing_at spot (table_view table.now)) keys.now) }
{
    for key in keys {
        if key.is_needed() && is_missing(table, *key) {
            return Some(UnitFault::Missing(spot, *key));
        }
    }
    None
}

fn wrong_key(keys: &[Key], spot: Spot, table: &Table) -> Option<UnitFault>
    ensures { result ≡ first (flat_map (wrong_at spot (table_view table.now)) keys.now) }
{
    for key in keys {
        if has_wrong(table, *key) {
            return Some(UnitFault::WrongType(spot, *key));
        }
    }
    None
}

/// What is wrong with the keys of a table and with their types.
fn key_fault(rule: Rule, keys: &[Key], spot: Spot, table: &Table) -> Option<UnitFault>
    ensures { result ≡ first (key_faults rule keys.now spot (table_view table.now)) }
{
    match rule {
        Rule::Missing => missing_key(keys, spot, table),
        Rule::WrongType => wrong_key(keys, spot, table),
        Rule::UnknownKey => fault_if(has_other_key(table, keys), UnitFault::UnknownKey(spot)),
        _ => None,
    }
}

/// What a rule finds in the top table alone.
pub fn top_fault(rule: Rule, top: &Table) -> Option<UnitFault>
    ensures { result ≡ first (top_faults rule (table_view top.now)) }
{
    match rule {
        Rule::NoUnits => fault_if(count_at(top, Key::Unit) == 0, UnitFault::NoUnits),
        Rule::TooManyUnits => {
            let units = count_at(top, Key::Unit);
            fault_if(units > MOST_UNITS, UnitFault::TooManyUnits)
        }
        Rule::SlotsRange => {
            let slots = integer_at(top, Key::Slots);
            fault_if(!is_between(1, 8, slots), UnitFault::SlotsRange)
        }
        Rule::TickRange => {
            let tick_ns = integer_at(top, Key::TickNs);
            fault_if(
                !is_between(80, 1_000_000_000, tick_ns),
                UnitFault::TickRange,
            )
        }
        _ => key_fault(
            rule,
            &TOP_KEYS,
            Spot {
                unit: None,
                slave: None,
            },
            top,
        ),
    }
}

fn is_named(name: &str, value: &Value) -> bool
    ensures { result ≡ is_named name.now (as_table (view value.now)) }
{
    match value.as_table() {
        Some(unit) => name == text_at(unit, Key::Name),
        None => false,
    }
}

fn has_name(name: &str, units: &[Value]) -> bool
    ensures { result ≡ has_name name.now (items_view units.now) }
{
    for unit in units {
        if is_named(name, unit) {
            return true;
        }
    }
    false
}

/// The process bytes of a slave, both directions.
fn bytes_at(value: &Value) -> u128
    ensures value { result ≡ bytes_at (as_table (view value.now)) }
    ensures small { result ≤ 2 ^ 64 }
{
    match value.as_table() {
        Some(slave) => {
            let out_bytes = integer_at(slave, Key::OutBytes).unsigned_abs();
            let in_bytes = integer_at(slave, Key::InBytes).unsigned_abs();
            u128::from(out_bytes) + u128::from(in_bytes)
        }
        None => 0,
    }
}

/// Whether slaves have more bytes together than a unit may have.
fn are_too_many_bytes(slaves: &[Value]) -> bool
    ensures { result ≡ nat_lt 1486 (bytes_in (items_view slaves.now)) }
{
    let mut bytes = 0u128;
    for slave in slaves {
        bytes += bytes_at(slave);
        if bytes > MOST_BYTES {
            return true;
        }
    }
    false
}

fn is_outside(limit: i64, given: Option<i64>) -> bool
    ensures { result ≡ is_outside limit given }
{
    match given {
        Some(number) => number < 0 || limit <= number,
        None => false,
    }
}

fn is_place_outside(top: &Table, unit: &Table) -> bool
    ensures { result ≡ is_place_outside (table_view top.now) (table_view unit.now) }
{
    is_outside(
        integer_at(unit, Key::Period),
        integer_given(unit, Key::Phase),
    ) || is_outside(integer_at(top, Key::Slots), integer_given(unit, Key::Slot))
}

/// What a rule finds in a unit of a document alone, after the units before it.
pub fn unit_fault(
    rule: Rule,
    top: &Table,
    earlier: &[Value],
    index: usize,
    unit: &Table,
) -> Option<UnitFault>
    ensures { result ≡ first (faults_of_unit rule (table_view top.now) (items_view earlier.now) index (table_view unit.now)) }
{
    let spot = Spot {
        unit: Some(index),
        slave: None,
    };
    match rule {
        Rule::BadName => {
            let name = text_at(unit, Key::Name).as_bytes();
            fault_if(!is_name(name), UnitFault::BadName(spot))
        }
        Rule::DuplicateName => {
            let name = text_at(unit, Key::Name);
            fault_if(has_name(name, earlier), UnitFault::DuplicateName(spot))
        }
        Rule::PeriodRange => {
            let period = integer_at(unit, Key::Period);
            fault_if(!is_between(1, 60, period), UnitFault::PeriodRange(spot))
        }
        Rule::SlaveCount => {
            let slaves = count_at(unit, Key::Slave);
            fault_if(
                slaves == 0 || slaves > MOST_SLAVES,
                UnitFault::SlaveCount(spot),
            )
        }
        Rule::UnitTooBig => {
            let slaves = values_at(unit, Key::Slave);
            fault_if(are_too_many_bytes(slaves), UnitFault::UnitTooBig(spot))
        }
        Rule::PlaceRange => fault_if(is_place_outside(top, unit), UnitFault::PlaceRange(spot)),
        Rule::PlaceHalf => {
            let without_phase = is_missing(unit, Key::Phase);
            let without_slot = is_missing(unit, Key::Slot);
            fault_if(without_phase != without_slot, UnitFault::PlaceHalf(spot))
        }
        _ => key_fault(rule, &UNIT_KEYS, spot, unit),
    }
}

fn is_stationed(station: i64, value: &Value) -> bool
    ensures { result ≡ is_stationed station (as_table (view value.now)) }
{
    match value.as_table() {
        Some(slave) => station == integer_at(slave, Key::Station),
        None => false,
    }
}

fn has_station(station: i64, slaves: &[Value]) -> bool
    ensures { result ≡ has_station station (items_view slaves.now) }
{
    for slave in slaves {
        if is_stationed(station, slave) {
            return true;
        }
    }
    false
}

fn is_stationed_in(station: i64, value: &Value) -> bool
    ensures { result ≡ is_stationed_in station (as_table (view value.now)) }
{
    match value.as_table() {
        Some(unit) => has_station(station, values_at(unit, Key::Slave)),
        None => false,
    }
}

fn has_station_in(station: i64, units: &[Value]) -> bool
    ensures { result ≡ has_station_in station (items_view units.now) }
{
    for unit in units {
        if is_stationed_in(station, unit) {
            return true;
        }
    }
    false
}

fn are_byte_counts(out_bytes: i64, in_bytes: i64) -> bool
    ensures { result ≡ are_byte_counts out_bytes in_bytes }
{
    !((out_bytes < 0 || in_bytes < 0) || (out_bytes == 0 && in_bytes == 0))
}

fn end_of(at: i64, bytes: i64) -> i128
    ensures { result ≡ at +ℤ bytes }
{
    i128::from(at) + i128::from(bytes)
}

fn is_area(at: i64, bytes: i64) -> bool
    ensures { result ≡ is_area at bytes }
{
    is_between(4096, 65535, at) && end_of(at, bytes) <= 65536
}

/// Whether an area ends past an address.
fn ends_past(at: i64, bytes: i64, address: i64) -> bool
    ensures { result ≡ int_lt address (at +ℤ bytes) }
{
    i128::from(address) < end_of(at, bytes)
}

fn do_overlap(out_at: i64, out_bytes: i64, in_at: i64, in_bytes: i64) -> bool
    ensures { result ≡ overlap out_at out_bytes in_at in_bytes }
{
    (0 < out_bytes && 0 < in_bytes)
        && (ends_past(in_at, in_bytes, out_at) && ends_past(out_at, out_bytes, in_at))
}

/// Where an area of a slave begins, that of the inputs for true.
pub fn area_at(slave: &Table, inputs: bool) -> i64
    ensures { result ≡ area_at inputs (table_view slave.now) }
{
    if inputs {
        integer_or(slave, Key::Area(true), 8192)
    } else {
        integer_or(slave, Key::Area(false), 4096)
    }
}

/// Whether the two areas of a slave are in range and apart.
fn are_areas_of(slave: &Table) -> bool
    ensures { result ≡ are_areas_of (table_view slave.now) }
{
    let out_at = area_at(slave, false);
    let out_bytes = integer_at(slave, Key::OutBytes);
    let in_at = area_at(slave, true);
    let in_bytes = integer_at(slave, Key::InBytes);
    (is_area(out_at, out_bytes) && is_area(in_at, in_bytes))
        && !do_overlap(out_at, out_bytes, in_at, in_bytes)
}

/// What a rule finds in a slave of a unit, after the units before that one and the slaves before it there.
pub fn slave_fault(
    rule: Rule,
    units: &[Value],
    slaves: &[Value],
    unit: usize,
    index: usize,
    slave: &Table,
) -> Option<UnitFault>
    ensures { result ≡ first (faults_of_slave rule (items_view units.now) (items_view slaves.now) unit index (table_view slave.now)) }
{
    let spot = Spot {
        unit: Some(unit),
        slave: Some(index),
    };
    match rule {
        Rule::SlaveBytes => {
            let out_bytes = integer_at(slave, Key::OutBytes);
            let in_bytes = integer_at(slave, Key::InBytes);
            fault_if(
                !are_byte_counts(out_bytes, in_bytes),
                UnitFault::SlaveBytes(spot),
            )
        }
        Rule::StationRange => {
            let station = integer_at(slave, Key::Station);
            fault_if(
                !is_between(1, 65535, station),
                UnitFault::StationRange(spot),
            )
        }
        Rule::DuplicateStation => {
            let station = integer_at(slave, Key::Station);
            let given = has_station_in(station, units) || has_station(station, slaves);
            fault_if(given, UnitFault::DuplicateStation(spot))
        }
        Rule::AreaRange => fault_if(!are_areas_of(slave), UnitFault::AreaRange(spot)),
        _ => key_fault(rule, &SLAVE_KEYS, spot, slave),
    }
}
