//! The whole header.

ghost use Rattle.ec_units.specs.Load.{loads_of};
ghost use Rattle.ec_loads.specs.Legal.{IsLegal};

use crate::cells::time_of;
use crate::laid::{Laid, laid_of};
use crate::tables::{
    add_frames, add_groups, add_names, add_numbers, add_slaves, add_start_bytes, add_starts,
    add_ticks, start_bytes,
};
use crate::types::{END, FRAME, GROUP, HEAD, NAMES, SENT, SLAVE, START, START_BYTES, TICK, TYPES};
use ec_fmmu::{FIRST_ADDRESS, layout};
use ec_loads::Plan;
use ec_player::{Trip, start_trips};
use ec_text_builder::Draft;
use ec_units::Units;
use std::alloc::{AllocError, Global};

/// Adds the guard against a second header: the same one is passed over, one of another plan, tick or count of slots is an error.
fn add_guard(text: &mut Draft, identity: u64, units: &Units) {
    let (tick_ns, slots) = (units.tick_ns, units.slots);
    let own = format_args!("ECPLAN_IS_{identity:016x}_{tick_ns}_{slots}");
    text.add(format_args!(
        "#if defined(ECPLAN_PLAN_H) && !defined({own})
#error \"the header of another plan is included already: include each plan in a C file of its own\"
#endif
#ifndef ECPLAN_PLAN_H
#define ECPLAN_PLAN_H
#define {own}
"
    ));
}

/// Adds the identity of the plan and the numbers of the line.
fn add_line_numbers(text: &mut Draft, units: &Units, laid: &Laid<'_>) {
    let (identity, ticks, bytes) = (laid.identity, laid.loads.ticks(), laid.mapping.total);
    let (tick_ns, slots) = (units.tick_ns, units.slots);
    let (most, _tick) = laid.loads.top();
    let busiest = time_of(most);
    text.add(format_args!(
        "#define ECPLAN_ID \"{identity:016x}\" /* of the plan: 16 hex digits, the first of the SHA-256 of its map */
#define ECPLAN_TICKS {ticks} /* ticks, after which all repeats */
#define ECPLAN_TICK_NS {tick_ns} /* ns of a tick */
#define ECPLAN_BUSIEST_NS {busiest} /* ns that the frames of the busiest tick take */
#define ECPLAN_SLOTS {slots} /* frames in a tick at most */
#define ECPLAN_IMAGE_BYTES {bytes} /* bytes of the process image */
#define ECPLAN_FIRST_ADDRESS 0x{FIRST_ADDRESS:08x} /* logical address of the image */
"
    ));
}

/// Adds the lengths of the tables.
fn add_lengths(text: &mut Draft, laid: &Laid<'_>, trips: &[Trip]) {
    let (slaves, groups) = (laid.seats.len(), laid.mapping.groups.as_slice().len());
    let (sent, frames) = (laid.sends.groups.len(), laid.sends.frames.len());
    let (starts, bytes) = (trips.len(), start_bytes(trips));
    text.add(format_args!(
        "#define ECPLAN_SLAVES {slaves} /* slaves, in file order */
#define ECPLAN_GROUPS {groups} /* groups, each a datagram of a tick */
#define ECPLAN_SENT {sent} /* groups of all frames */
#define ECPLAN_FRAMES {frames} /* frames of all ticks */
#define ECPLAN_STARTS {starts} /* frames before the first tick */
#define ECPLAN_START_BYTES {bytes} /* bytes of these frames */
"
    ));
}

/// Adds the tables of slaves, groups and ticks.
fn add_cyclic(text: &mut Draft, laid: &Laid<'_>) {
    text.add(NAMES);
    add_names(text, laid.seats.as_slice());
    text.add(SLAVE);
    add_slaves(text, laid.seats.as_slice());
    text.add(GROUP);
    add_groups(text, laid.mapping.groups.as_slice());
    text.add(SENT);
    add_numbers(text, laid.sends.groups.as_slice());
    text.add(FRAME);
    add_frames(text, laid.sends.frames.as_slice());
    text.add(TICK);
    add_ticks(text, laid.sends.ticks.as_slice());
}

/// A legal plan as a C header for a master: C99, without code, with tables and numbers alone, whose names begin `ecplan_` and
/// `ECPLAN_`. It has the identity of the plan, the ticks, their length and the time that the busiest one takes in ns, the slots and
/// the bytes of the process image; of each slave its unit, station, the bytes of outputs and inputs in the image and in its memory,
/// and its FMMU records; of each group its slot, period and phase in ticks, address, bytes and expected working counter; the frames
/// of each tick with their groups; and the frames before the first tick with their working counters. Only want of memory is an
/// error (own profile).
pub fn header_of(alloc: Global, units: &Units, plan: &Plan) -> Result<String, AllocError>
    requires { IsLegal (loads_of units.now.units) units.now.slots plan.now.places }
{
    let mapping = layout(alloc, units, plan)?;
    let trips = start_trips(alloc, units, &mapping)?;
    let laid = laid_of(alloc, units, plan, mapping)?;
    let mut text = Draft::new(alloc);
    text.add(HEAD);
    add_guard(&mut text, laid.identity, units);
    text.add(TYPES);
    add_line_numbers(&mut text, units, &laid);
    add_lengths(&mut text, &laid, trips.as_slice());
    add_cyclic(&mut text, &laid);
    text.add(START);
    add_starts(&mut text, trips.as_slice());
    text.add(START_BYTES);
    add_start_bytes(&mut text, trips.as_slice());
    text.add(END);
    text.finish()
}
