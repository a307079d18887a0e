//! The slaves of a plan in file order, each with its group and its FMMU records.

use ec_fmmu::{FIRST_ADDRESS, Fmmu, Group, Mapping};
use ec_units::{Place, Slave, Unit, Units};
use std::alloc::{AllocError, Global};

/// The bytes of one direction of a slave.
#[derive(Clone, Copy)]
pub(crate) struct Side {
    /// The record that maps them.
    pub fmmu: Fmmu,
    /// How many bytes they are.
    pub bytes: u16,
    /// Where they begin in the slave's memory.
    pub at: u16,
}

impl Side {
    /// Where they begin in the image, in bytes; 0 where there are none.
    pub(crate) fn offset(&self) -> u32 {
        self.fmmu.logical.saturating_sub(FIRST_ADDRESS)
    }
}

/// A unit with its place, and the group that it travels in: its number, from 0, and its expected working counter.
#[derive(Clone, Copy)]
pub(crate) struct Home<'a> {
    pub unit: &'a Unit,
    pub place: Place,
    pub group: usize,
    pub counter: u16,
}

/// A slave with the unit that it is of.
#[derive(Clone, Copy)]
pub(crate) struct Seat<'a> {
    pub home: Home<'a>,
    pub station: u16,
    pub outputs: Side,
    pub inputs: Side,
}

/// The number of the group of a period and a place, from 0.
pub(crate) fn group_at(groups: &[Group], period: u16, place: Place) -> usize {
    for (number, group) in groups.iter().enumerate() {
        if group.slot == place.slot && group.period == period && group.phase == place.phase {
            return number;
        }
    }
    groups.len()
}

/// A unit at a place.
fn home_of<'a>(groups: &[Group], unit: &'a Unit, place: Place) -> Home<'a> {
    let group = group_at(groups, unit.period, place);
    Home {
        unit,
        place,
        group,
        counter: groups.get(group).map_or(0, |group| group.counter),
    }
}

/// A slave with its two records.
fn seat_of<'a>(home: Home<'a>, slave: &Slave, pair: &[Fmmu; 2]) -> Seat<'a> {
    Seat {
        home,
        station: slave.station,
        outputs: Side {
            fmmu: pair[0],
            bytes: slave.out_bytes,
            at: slave.out_at,
        },
        inputs: Side {
            fmmu: pair[1],
            bytes: slave.in_bytes,
            at: slave.in_at,
        },
    }
}

/// Adds the slaves of a unit.
fn push_seats<'a>(
    seats: &mut Vec<Seat<'a>>,
    fmmus: &[[Fmmu; 2]],
    home: Home<'a>,
) -> Result<(), AllocError> {
    for slave in home.unit.slaves.as_slice() {
        if let Some(pair) = fmmus.get(seats.len()) {
            seats.push(seat_of(home, slave, pair))?;
        }
    }
    Ok(())
}

/// The slaves of units at these places, with the records of their layout.
pub(crate) fn seats_of<'a>(
    alloc: Global,
    units: &'a Units,
    places: &[Place],
    mapping: &Mapping,
) -> Result<Vec<Seat<'a>>, AllocError> {
    let mut seats = Vec::new(alloc);
    let fmmus = mapping.fmmus.as_slice();
    for (unit, place) in units.units.as_slice().iter().zip(places) {
        let home = home_of(mapping.groups.as_slice(), unit, *place);
        push_seats(&mut seats, fmmus, home)?;
    }
    Ok(seats)
}
