//! The units at their places, and which of them a frame carries.

use ec_hyper::Hyper;
use ec_text_builder::Draft;
use ec_units::{Place, Unit, bytes_of};

/// Units and their places, both in file order.
#[derive(Clone, Copy)]
pub(crate) struct Placed<'a> {
    pub units: &'a [Unit],
    pub places: &'a [Place],
}

/// A frame of the plan: its tick and its slot.
#[derive(Clone, Copy)]
pub(crate) struct At {
    pub tick: u32,
    pub slot: u8,
}

/// Whether a unit travels in a frame.
fn travels(unit: &Unit, place: Place, at: At) -> bool {
    place.slot == at.slot && Hyper::active(unit.period, place.phase, at.tick)
}

/// The process bytes that a frame carries.
pub(crate) fn process_bytes(placed: Placed<'_>, at: At) -> u64 {
    let mut bytes = 0u64;
    for (unit, place) in placed.units.iter().zip(placed.places) {
        if travels(unit, *place, at) {
            bytes = bytes.saturating_add(u64::from(bytes_of(unit)));
        }
    }
    bytes
}

/// Adds the names of the units of a period at a place, with their process bytes.
fn add_names(page: &mut Draft, placed: Placed<'_>, period: u16, place: Place) {
    let mut is_first = true;
    for (unit, own) in placed.units.iter().zip(placed.places) {
        if unit.period == period && *own == place {
            let (name, bytes) = (unit.name.as_str(), bytes_of(unit));
            if !is_first {
                page.add(", ");
            }
            page.add(format_args!("{name} ({bytes})"));
            is_first = false;
        }
    }
}

/// Whether one of the first `count` units has this period and this place.
fn is_told(placed: Placed<'_>, count: usize, period: u16, place: Place) -> bool {
    for (unit, own) in placed.units.iter().zip(placed.places).take(count) {
        if unit.period == period && *own == place {
            return true;
        }
    }
    false
}

/// Adds a line for each group that a frame carries, in the order of their first units.
pub(crate) fn add_groups(page: &mut Draft, placed: Placed<'_>, at: At) {
    for (count, (unit, place)) in placed.units.iter().zip(placed.places).enumerate() {
        let (period, phase) = (unit.period, place.phase);
        if travels(unit, *place, at) && !is_told(placed, count, period, *place) {
            page.add(format_args!("\nperiod {period}, phase {phase}: "));
            add_names(page, placed, period, *place);
        }
    }
}
