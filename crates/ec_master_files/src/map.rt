//! The table of process bytes, as CSV.

ghost use Rattle.ec_units.specs.Load.{loads_of};
ghost use Rattle.ec_loads.specs.Legal.{IsLegal};

use crate::seats::{Home, Seat, Side, seats_of};
use ec_fmmu::layout;
use ec_loads::Plan;
use ec_text_builder::Draft;
use ec_units::Units;
use std::alloc::{AllocError, Global};

/// The header row.
const HEAD: &str =
    "unit,station,direction,slot,period_ticks,phase_ticks,logical_address,image_offset_bytes,bytes,\
physical_address,group,group_counter\r\n";

/// Adds the logical address and the offset in the image of the bytes of a direction; nothing where there are none.
fn add_addresses(table: &mut Draft, side: &Side) {
    if side.bytes == 0 {
        table.add(",,");
        return;
    }
    let logical = side.fmmu.logical;
    let offset = side.offset();
    table.add(format_args!("0x{logical:08x},{offset},"));
}

/// Adds the row of a direction of a slave.
fn add_side(table: &mut Draft, seat: &Seat<'_>, direction: &str, side: &Side) {
    let Home {
        unit,
        place,
        group,
        counter,
    } = seat.home;
    let (name, station) = (unit.name.as_str(), seat.station);
    let (slot, period, phase) = (place.slot, unit.period, place.phase);
    table.add(format_args!("\"{name}\",{station},{direction},{slot},{period},{phase},"));
    add_addresses(table, side);
    let (bytes, at) = (side.bytes, side.at);
    table.add(format_args!("{bytes},0x{at:04x},{group},{counter}\r\n"));
}

/// The table of the slaves of a plan.
pub(crate) fn map_in(alloc: Global, seats: &[Seat<'_>]) -> Result<String, AllocError> {
    let mut table = Draft::new(alloc);
    table.add(HEAD);
    for seat in seats {
        add_side(&mut table, seat, "outputs", &seat.outputs);
        add_side(&mut table, seat, "inputs", &seat.inputs);
    }
    table.finish()
}

/// Where the process bytes of a legal plan lie, as a table: CSV (RFC 4180) with a header row, and two rows for each slave in
/// file order, of its outputs and of its inputs. Offsets, lengths and the expected working counter are decimal numbers,
/// addresses hexadecimal ones; of a direction without bytes the logical address and the offset are left out. Only want of
/// memory is an error (own profile).
pub fn map_of(alloc: Global, units: &Units, plan: &Plan) -> Result<String, AllocError>
    requires { IsLegal (loads_of units.now.units) units.now.slots plan.now.places }
{
    let mapping = layout(alloc, units, plan)?;
    let seats = seats_of(alloc, units, plan.places.as_slice(), &mapping)?;
    map_in(alloc, seats.as_slice())
}
