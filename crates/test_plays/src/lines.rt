//! Lines of units, as text.

ghost use Rattle.std.specs.Prelude.{◌≡◌, ◌≤◌, ◌++◌, length, map, IfOk, OnOk};
ghost use Rattle.std.specs.Option.{ForSome};
ghost use Rattle.ec_units.specs.Together.{stations_of as stations_in};
ghost use Rattle.ec_frame_builder.specs.Frames.{HasLayout};

use ec_fmmu::{Mapping, layout};
use ec_loads::{Places, Plan, is_legal};
use ec_unit_text::read_units;
use ec_units::{Place, Slave, Unit, Units};
use std::alloc::{AllocError, Global};

/// One unit in each tick, whose slave has 2 bytes of outputs and 4 of inputs.
pub(crate) const ONE: &str =
    "tick_ns = 1000000\nslots = 1\n[[unit]]\nname = \"a\"\nperiod = 1\n[[unit.slave]]\nstation = 1001\nout_bytes = 2\nin_bytes = 4\n";

/// Two units of 100 bytes every second tick.
pub(crate) const TWO: &str =
    "tick_ns = 1000000\nslots = 1\n[[unit]]\nname = \"a\"\nperiod = 2\n[[unit.slave]]\nstation = 1001\nout_bytes = 100\nin_bytes = 0\n[[unit]]\nname = \"b\"\nperiod = 2\n[[unit.slave]]\nstation = 1002\nout_bytes = 100\nin_bytes = 0\n";

/// The layout of units at places in slot 0 with these phases, if that plan is legal.
pub(crate) fn mapping_of(
    alloc: Global,
    units: &Units,
    phases: &[u16],
) -> Result<Option<Mapping>, AllocError>
    ensures { IfOk result (λ found. ForSome found (HasLayout units.now)) }
{
    let mut places = Vec::new(alloc);
    for phase in phases {
        places.push(Place {
            phase: *phase,
            slot: 0,
        })?;
    }
    let plan = Plan {
        places: Places::new(places),
    };
    match is_legal(units, &plan) {
        Ok(()) => Ok(Some(layout(alloc, units, &plan)?)),
        Err(_) => Ok(None),
    }
}

/// Adds the stations of a unit's slaves.
fn push_stations(stations: &mut Vec<u16>, slaves: &[Slave]) -> Result<(), AllocError>
    ensures { OnOk result (stations.new.items ≡ stations.old.items ++ map (λ s. s.station) slaves.now) }
{
    for slave in slaves {
        stations.push(slave.station)?;
    }
    Ok(())
}

/// The stations of all slaves, in file order.
pub(crate) fn stations_of(alloc: Global, units: &[Unit]) -> Result<Vec<u16>, AllocError>
    ensures { IfOk result (λ v. v.items ≡ stations_in units.now) }
{
    let mut stations = Vec::new(alloc);
    for unit in units {
        push_stations(&mut stations, unit.slaves.as_slice())?;
    }
    Ok(stations)
}

/// The units of a text and their layout at places in slot 0 with these phases, where that plan is legal, and an image of so many
/// bytes, so many ticks and so many slaves are those of a play of it.
pub(crate) fn line_of(
    alloc: Global,
    text: &str,
    phases: &[u16],
    image: usize,
    ticks: u32,
    slaves: usize,
) -> Result<Option<(Units, Mapping)>, AllocError>
    ensures layout { IfOk result (λ found. ForSome found (λ l. HasLayout l.0 l.1)) }
    ensures fits { IfOk result (λ found. ForSome found (λ l. (image ≡ l.1.total) × (ticks ≤ 65536) × (slaves ≡ length (stations_in l.0.units)))) }
{
    let Ok(units) = read_units(alloc, text.as_bytes()) else {
        return Ok(None);
    };
    let Some(mapping) = mapping_of(alloc, &units, phases)? else {
        return Ok(None);
    };
    let stations = stations_of(alloc, units.units.as_slice())?.len();
    if image != mapping.total as usize || ticks > 65536 || slaves != stations {
        return Ok(None);
    }
    Ok(Some((units, mapping)))
}
