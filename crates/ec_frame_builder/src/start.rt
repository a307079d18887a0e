//! The frames that are sent before the first tick.

ghost use Rattle.std.specs.Prelude.{◌≡◌, ℕ, ◌+◌, ◌*◌, ◌<◌, ◌≤◌, ◌++◌, [], ◌∷◌, length, map, IfOk, OnOk};
ghost use Rattle.std.specs.List.{flat_map};
ghost use Rattle.byteorder.specs.Endian.{little_bytes};
ghost use Rattle.ec_units.specs.Together.{stations_of as stations_in};
ghost use Rattle.ec_frames.specs.Written.{written};
ghost use Rattle.ec_fmmu.specs.Records.{record_bytes};
ghost use Rattle.ec_frame_builder.specs.Frames.{HasLayout};
ghost use Rattle.ec_frame_builder.specs.Start.{address_at as address_in, position_of as position_in, roll_call as roll_call_of, naming, mapping_frame, namings, mapping_frames, start_bytes, starts_of};

use ec_fmmu::{Fmmu, Mapping, fmmu_bytes};
use ec_frames::{Command, Datagram, Frame, build};
use ec_units::{Slave, Unit, Units};
use std::alloc::{AllocError, Global};

/// Where the number of a slave's station stands in its memory (ETG.1000.4, clause 6.1).
const STATION_AT: u16 = 0x0010;

/// Where its FMMU records stand (ETG.1000.4, clause 6.6).
const FMMUS_AT: u16 = 0x0600;

/// The address of an offset in the memory of the slave with a position or a station (ETG.1000.4, clause 5.4).
fn address_at(low: u16, offset: u16) -> u32
    ensures { result ≡ address_in low offset }
{
    u32::from(low) + 65536 * u32::from(offset)
}

/// The position by which slave `slave` of the line is addressed, counted from 0.
fn position_of(slave: usize) -> u16
    requires { slave ≤ 65536 }
    ensures { result ≡ position_in slave }
{
    ((65536 - slave) % 65536) as u16
}

/// The frame of one datagram.
fn single(datagram: Datagram, bytes: &[u8]) -> Frame
    requires len { datagram.len ≡ length bytes.now }
    requires short { datagram.len ≤ 1486 }
    ensures { result.items ≡ written (datagram ∷ []) bytes.now }
{
    match build(&[datagram], bytes) {
        Ok(frame) => frame,
        Err(_) => unreachable!(),
    }
}

/// The frame that each slave counts.
fn roll_call() -> Frame
    ensures { result.items ≡ start_bytes (roll_call_of 0) }
{
    let datagram = Datagram {
        command: Command::Brd,
        address: address_at(0, 0),
        len: 1,
    };
    single(datagram, &[0])
}

/// The frames before those of single slaves: the one that each slave counts.
fn opening(alloc: Global) -> Result<Vec<Frame>, AllocError>
    ensures { IfOk result (λ v. map (λ frame. frame.items) v.items ≡ start_bytes (roll_call_of 0) ∷ []) }
{
    let mut frames = Vec::new(alloc);
    frames.push(roll_call())?;
    Ok(frames)
}

/// The frame that gives slave `slave` of the line its station.
fn naming_of(slave: usize, station: u16) -> Frame
    requires { slave ≤ 65536 }
    ensures { result.items ≡ start_bytes (naming slave station) }
{
    let datagram = Datagram {
        command: Command::Apwr,
        address: address_at(position_of(slave), STATION_AT),
        len: 2,
    };
    single(datagram, &station.to_le_bytes())
}

/// The bytes of the two records of a slave.
fn pair_bytes(alloc: Global, pair: &[Fmmu; 2]) -> Result<Vec<u8>, AllocError>
    ensures bytes { IfOk result (λ v. v.items ≡ flat_map record_bytes pair.now) }
    ensures len { IfOk result (λ v. length v.items ≡ 32) }
{
    let mut bytes = Vec::new(alloc);
    bytes.extend_from_slice(&fmmu_bytes(&pair[0]))?;
    bytes.extend_from_slice(&fmmu_bytes(&pair[1]))?;
    Ok(bytes)
}

/// The frame that writes the records of the slave with a station.
fn mapping_of(alloc: Global, station: u16, pair: &[Fmmu; 2]) -> Result<Frame, AllocError>
    ensures { IfOk result (λ frame. frame.items ≡ start_bytes (mapping_frame station pair.now)) }
{
    let bytes = pair_bytes(alloc, pair)?;
    let datagram = Datagram {
        command: Command::Fpwr,
        address: address_at(station, FMMUS_AT),
        len: 32,
    };
    Ok(single(datagram, bytes.as_slice()))
}

/// Adds the stations of a unit's slaves.
fn push_stations(stations: &mut Vec<u16>, slaves: &[Slave]) -> Result<(), AllocError>
    ensures { OnOk result (stations.new.items ≡ stations.old.items ++ map (λ s. s.station) slaves.now) }
{
    for slave in slaves {
        stations.push(slave.station)?;
    }
    Ok(())
}

/// The stations of all slaves, in file order.
fn stations_of(alloc: Global, units: &[Unit]) -> Result<Vec<u16>, AllocError>
    ensures { IfOk result (λ v. v.items ≡ stations_in units.now) }
{
    let mut stations = Vec::new(alloc);
    for unit in units {
        push_stations(&mut stations, unit.slaves.as_slice())?;
    }
    Ok(stations)
}

/// Adds the frames that give the slaves their stations.
fn push_namings(frames: &mut Vec<Frame>, stations: &[u16]) -> Result<(), AllocError>
    requires { length stations.now ≤ 65536 }
    ensures { OnOk result (map (λ frame. frame.items) frames.new.items ≡ map (λ frame. frame.items) frames.old.items ++ map start_bytes (namings 0 stations.now)) }
{
    for (slave, station) in stations.iter().enumerate() {
        frames.push(naming_of(slave, *station))?;
    }
    Ok(())
}

/// Adds the frames that write their records.
fn push_mappings(
    alloc: Global,
    frames: &mut Vec<Frame>,
    stations: &[u16],
    fmmus: &[[Fmmu; 2]],
) -> Result<(), AllocError>
    requires { length fmmus.now ≡ length stations.now }
    ensures { OnOk result (map (λ frame. frame.items) frames.new.items ≡ map (λ frame. frame.items) frames.old.items ++ map start_bytes (mapping_frames stations.now fmmus.now)) }
{
    for i in 0..stations.len() {
        frames.push(mapping_of(alloc, stations[i], &fmmus[i])?)?;
    }
    Ok(())
}

/// The frames that are sent before the first tick (own profile, after ETG.1000.4, clauses 5.4, 6.1 and 6.6), one datagram
/// each: a broadcast read of 1 byte, which each slave counts; for each slave, in file order, its station, written to 0x0010
/// of the slave at its position; then for each slave its two FMMU records, 32 bytes, written to 0x0600 of its station.
/// For N slaves these are 1 + 2N frames, at most 769.
///
/// # Errors
///
/// `AllocError` where memory ran out.
pub fn start_frames(
    alloc: Global,
    units: &Units,
    mapping: &Mapping,
) -> Result<Vec<Frame>, AllocError>
    requires { HasLayout units.now mapping.now }
    ensures frames { IfOk result (λ v. map (λ frame. frame.items) v.items ≡ map start_bytes (starts_of units.now mapping.now)) }
    ensures count { IfOk result (λ v. length v.items ≡ 1 + 2 * length (stations_in units.now.units)) }
    ensures few { IfOk result (λ v. length v.items ≤ 769) }
{
    let stations = stations_of(alloc, units.units.as_slice())?;
    let list = stations.as_slice();
    let mut frames = opening(alloc)?;
    push_namings(&mut frames, list)?;
    push_mappings(alloc, &mut frames, list, mapping.fmmus.as_slice())?;
    Ok(frames)
}
