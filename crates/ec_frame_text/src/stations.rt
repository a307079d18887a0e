//! The lines of the FMMU records.

ghost use Rattle.std.specs.Prelude.{◌≡◌, ◌++◌, length, map, string_bytes, IfOk, OnOk};
ghost use Rattle.std.specs.List.{flat_map};
ghost use Rattle.ec_units.specs.Views.{slave_view, unit_view};
ghost use Rattle.ec_frame_text.specs.Lines.{stations_in, fmmu_line, station_lines, fmmu_lines};

use crate::hex::push_hex;
use ec_fmmu::{Fmmu, fmmu_bytes};
use ec_units::{Slave, Unit};
use std::alloc::{AllocError, Global};
use std::fmt::Write;

/// Adds the stations of slaves.
fn push_stations(stations: &mut Vec<u16>, slaves: &[Slave]) -> Result<(), AllocError>
    ensures { OnOk result (stations.new.items ≡ stations.old.items ++ map (λ s. s.station) (map slave_view slaves.now)) }
{
    for slave in slaves {
        stations.push(slave.station)?;
    }
    Ok(())
}

/// The stations of all slaves, in file order.
///
/// # Errors
///
/// `AllocError` where memory ran out.
pub fn stations_of(alloc: Global, units: &[Unit]) -> Result<Vec<u16>, AllocError>
    ensures { IfOk result (λ v. v.items ≡ stations_in (map unit_view units.now)) }
{
    let mut stations = Vec::new(alloc);
    for unit in units {
        push_stations(&mut stations, unit.slaves.as_slice())?;
    }
    Ok(stations)
}

/// Adds the line of a record.
fn push_fmmu(text: &mut String, station: u16, k: usize, fmmu: &Fmmu) -> Result<(), AllocError>
    ensures { OnOk result (string_bytes text.new ≡ string_bytes text.old ++ fmmu_line station k fmmu.now) }
{
    let bytes = fmmu_bytes(fmmu);
    write!(text, "fmmu {station} {k} ")?;
    push_hex(text, &bytes)?;
    text.push_str("\n")
}

/// Adds the lines of the records of a station.
fn push_pair(text: &mut String, station: u16, pair: &[Fmmu]) -> Result<(), AllocError>
    ensures { OnOk result (string_bytes text.new ≡ string_bytes text.old ++ station_lines station 0 pair.now) }
{
    for k in 0..pair.len() {
        push_fmmu(text, station, k, &pair[k])?;
    }
    Ok(())
}

/// Adds the lines of the records of each station.
pub(crate) fn push_fmmus(
    text: &mut String,
    stations: &[u16],
    fmmus: &[[Fmmu; 2]],
) -> Result<(), AllocError>
    requires { length fmmus.now ≡ length stations.now }
    ensures { OnOk result (string_bytes text.new ≡ string_bytes text.old ++ fmmu_lines stations.now fmmus.now) }
{
    for i in 0..stations.len() {
        push_pair(text, stations[i], &fmmus[i])?;
    }
    Ok(())
}
