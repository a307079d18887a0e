//! Units from the tables of a document without a fault.

ghost use Rattle.std.specs.Prelude.{◌≡◌, ◌<◌, [], ◌∷◌, length, true, false, map, None, IfOk, pos, unsigned_abs};
ghost use Rattle.std.specs.Option.{ForSome};
ghost use Rattle.toml.specs.Data.{as_table};
ghost use Rattle.toml.specs.View.{view, items_view, table_view};
ghost use Rattle.ec_unit_text.specs.AtKey.{integer_at, table_list, tables_in, item_count, is_between};
ghost use Rattle.ec_units.specs.Bytes.{bytes_of_slaves};
ghost use Rattle.ec_unit_text.specs.Fits.{IsWithin, SlaveFits, SlaveItemFits, SlavesFit, UnitFits, UnitItemFits, UnitsFit};
ghost use Rattle.ec_unit_text.specs.UnitText.{first, unit_faults, bytes_in, area_at, is_place_outside};
ghost use Rattle.ec_units.specs.Views.{slave_view, unit_view, units_view};
ghost use Rattle.ec_unit_text.specs.Said.{slave_of, place_of, unit_of, units_of, number_at};

use crate::fault::Key;
use crate::judge::area_at;
use crate::table::{integer_at, integer_given, text_at, values_at};
use ec_units::{Name, Place, Slave, Slaves, Unit, UnitList, Units};
use std::alloc::{AllocError, Global};
use toml::{Table, Value};

/// The number at a key.
fn number_at(table: &Table, key: Key) -> u16
    requires { IsWithin 0 65535 (integer_at key (table_view table.now)) }
    ensures { result ≡ number_at key (table_view table.now) }
{
    integer_at(table, key) as u16
}

/// Where an area of a slave begins, that of the inputs for true.
fn area_number(slave: &Table, inputs: bool) -> u16
    requires { IsWithin 4096 65535 (area_at inputs (table_view slave.now)) }
    ensures { result ≡ unsigned_abs (area_at inputs (table_view slave.now)) }
{
    area_at(slave, inputs) as u16
}

/// The slave that a table says.
fn slave_of(slave: &Table) -> Slave
    requires { SlaveFits (table_view slave.now) }
    ensures { slave_view result ≡ slave_of (table_view slave.now) }
{
    Slave {
        station: number_at(slave, Key::Station),
        out_bytes: number_at(slave, Key::OutBytes),
        in_bytes: number_at(slave, Key::InBytes),
        out_at: area_number(slave, false),
        in_at: area_number(slave, true),
    }
}

fn slave_of_item(value: &Value) -> Slave
    requires { SlaveItemFits (as_table (view value.now)) }
    ensures { slave_view result ∷ [] ≡ map slave_of (table_list (as_table (view value.now))) }
{
    match value.as_table() {
        Some(slave) => slave_of(slave),
        None => unreachable!(),
    }
}

/// The slaves that an array says.
fn slaves_of(alloc: Global, values: &[Value]) -> Result<Vec<Slave>, AllocError>
    requires { SlavesFit (items_view values.now) }
    ensures slaves { IfOk result (λ v. map slave_view v.items ≡ map slave_of (tables_in (items_view values.now))) }
    ensures count { IfOk result (λ v. length v.items ≡ item_count (items_view values.now)) }
    ensures bytes { IfOk result (λ v. bytes_of_slaves v.items ≡ bytes_in (items_view values.now)) }
{
    let mut slaves = Vec::new(alloc);
    for value in values {
        slaves.push(slave_of_item(value))?;
    }
    Ok(slaves)
}

/// The place that a unit's table says, where it says both parts.
fn place_of(top: &Table, unit: &Table) -> Option<Place>
    requires inside { is_place_outside (table_view top.now) (table_view unit.now) ≡ false }
    requires period { is_between (pos 1) (pos 60) (integer_at Key.Period (table_view unit.now)) ≡ true }
    requires slots { is_between (pos 1) (pos 8) (integer_at Key.Slots (table_view top.now)) ≡ true }
    ensures value { result ≡ place_of (table_view unit.now) }
    ensures phase { ForSome result (λ p. p.phase < number_at Key.Period (table_view unit.now)) }
    ensures slot { ForSome result (λ p. p.slot < number_at Key.Slots (table_view top.now)) }
{
    match (
        integer_given(unit, Key::Phase),
        integer_given(unit, Key::Slot),
    ) {
        (Some(phase), Some(slot)) => Some(Place {
            phase: phase as u16,
            slot: slot as u8,
        }),
        _ => None,
    }
}

/// The unit that a table says.
fn unit_of(alloc: Global, top: &Table, unit: &Table) -> Result<Unit, AllocError>
    requires { UnitFits (table_view top.now) (table_view unit.now) }
    ensures { IfOk result (λ u. unit_view u ≡ unit_of (table_view unit.now)) }
{
    let slaves = slaves_of(alloc, values_at(unit, Key::Slave))?;
    let name = String::from_str(alloc, text_at(unit, Key::Name))?;
    Ok(Unit {
        name: Name::new(name),
        period: integer_at(unit, Key::Period) as u16,
        slaves: Slaves::new(slaves),
        place: place_of(top, unit),
    })
}

fn unit_of_item(alloc: Global, top: &Table, value: &Value) -> Result<Unit, AllocError>
    requires { UnitItemFits (table_view top.now) (as_table (view value.now)) }
    ensures { IfOk result (λ u. unit_view u ∷ [] ≡ map unit_of (table_list (as_table (view value.now)))) }
{
    match value.as_table() {
        Some(unit) => unit_of(alloc, top, unit),
        None => unreachable!(),
    }
}

/// The units that an array says.
fn units_of(alloc: Global, top: &Table, values: &[Value]) -> Result<Vec<Unit>, AllocError>
    requires { UnitsFit (table_view top.now) (items_view values.now) }
    ensures { IfOk result (λ v. map unit_view v.items ≡ map unit_of (tables_in (items_view values.now))) }
{
    let mut units = Vec::new(alloc);
    for value in values {
        units.push(unit_of_item(alloc, top, value)?)?;
    }
    Ok(units)
}

fn tick_of(top: &Table) -> u32
    requires { IsWithin 80 1000000000 (integer_at Key.TickNs (table_view top.now)) }
    ensures { result ≡ number_at Key.TickNs (table_view top.now) }
{
    integer_at(top, Key::TickNs) as u32
}

fn slots_of(top: &Table) -> u8
    requires { IsWithin 1 8 (integer_at Key.Slots (table_view top.now)) }
    ensures { result ≡ number_at Key.Slots (table_view top.now) }
{
    integer_at(top, Key::Slots) as u8
}

/// The units that a document without a fault says.
pub fn units_of_document(alloc: Global, top: &Table) -> Result<Units, AllocError>
    requires { first (unit_faults (table_view top.now)) ≡ None }
    ensures { IfOk result (λ u. units_view u ≡ units_of (table_view top.now)) }
{
    let units = units_of(alloc, top, values_at(top, Key::Unit))?;
    Ok(Units {
        tick_ns: tick_of(top),
        slots: slots_of(top),
        units: UnitList::new(units),
    })
}
