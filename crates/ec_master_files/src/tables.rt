//! The tables of the header.

use crate::seats::Seat;
use crate::sends::{Sent, Ticking};
use ec_fmmu::{FIRST_ADDRESS, Group, fmmu_bytes};
use ec_player::Trip;
use ec_text_builder::Draft;

/// How many numbers stand in a line of a table of numbers.
const NUMBERS_IN_A_LINE: usize = 16;

/// How many bytes stand in a line of a table of bytes.
const BYTES_IN_A_LINE: usize = 20;

/// Adds bytes as elements of a table, each with a comma.
fn add_bytes(text: &mut Draft, bytes: &[u8]) {
    for byte in bytes {
        text.add(format_args!("0x{byte:02x},"));
    }
}

/// Adds the row of a slave.
fn add_slave(text: &mut Draft, seat: &Seat<'_>) {
    let (name, station, group) = (seat.home.unit.name.as_str(), seat.station, seat.home.group);
    let (outputs, inputs) = (seat.outputs.offset(), seat.inputs.offset());
    let (out_bytes, in_bytes) = (seat.outputs.bytes, seat.inputs.bytes);
    let (out_at, in_at) = (seat.outputs.at, seat.inputs.at);
    text.add(format_args!(
        "    {{ \"{name}\", {station}, {group}, {outputs}, {inputs}, {out_bytes}, {in_bytes}, 0x{out_at:04x}, 0x{in_at:04x},
      {{ "
    ));
    add_bytes(text, &fmmu_bytes(&seat.outputs.fmmu));
    text.add("\n        ");
    add_bytes(text, &fmmu_bytes(&seat.inputs.fmmu));
    text.add(" } },\n");
}

/// Adds the rows of the slaves.
pub(crate) fn add_slaves(text: &mut Draft, seats: &[Seat<'_>]) {
    for seat in seats {
        add_slave(text, seat);
    }
}

/// Adds names for the place of each slave, its bytes, its group and its period, by its station.
pub(crate) fn add_names(text: &mut Draft, seats: &[Seat<'_>]) {
    for (place, seat) in seats.iter().enumerate() {
        let (station, outputs, inputs) = (seat.station, seat.outputs.bytes, seat.inputs.bytes);
        let (group, period) = (seat.home.group, seat.home.unit.period);
        text.add(format_args!(
            "#define ECPLAN_SLAVE_{station} {place}
#define ECPLAN_OUT_BYTES_{station} {outputs}
#define ECPLAN_IN_BYTES_{station} {inputs}
#define ECPLAN_GROUP_{station} {group}
#define ECPLAN_PERIOD_{station} {period}
"
        ));
    }
}

/// Adds the row of a group.
fn add_group(text: &mut Draft, group: &Group) {
    let (slot, period, phase) = (group.slot, group.period, group.phase);
    let (start, bytes, counter) = (group.start, group.len, group.counter);
    let offset = start.saturating_sub(FIRST_ADDRESS);
    text.add(format_args!(
        "    {{ {slot}, {period}, {phase}, 0x{start:08x}, {offset}, {bytes}, {counter} }},\n"
    ));
}

/// Adds the rows of the groups.
pub(crate) fn add_groups(text: &mut Draft, groups: &[Group]) {
    for group in groups {
        add_group(text, group);
    }
}

/// Adds numbers as a line of a table.
fn add_line(text: &mut Draft, numbers: &[usize]) {
    text.add("   ");
    for number in numbers {
        text.add(format_args!(" {number},"));
    }
    text.add("\n");
}

/// Adds numbers, some in a line.
pub(crate) fn add_numbers(text: &mut Draft, numbers: &[usize]) {
    for line in numbers.chunks(NUMBERS_IN_A_LINE) {
        add_line(text, line);
    }
}

/// Adds the rows of the frames.
pub(crate) fn add_frames(text: &mut Draft, frames: &[Sent]) {
    for frame in frames {
        let (first, groups, slot) = (frame.first, frame.groups, frame.slot);
        let (bytes, wire) = (frame.bytes(), frame.wire);
        text.add(format_args!("    {{ {first}, {groups}, {bytes}, {wire}, {slot} }},\n"));
    }
}

/// Adds the rows of the ticks.
pub(crate) fn add_ticks(text: &mut Draft, ticks: &[Ticking]) {
    for tick in ticks {
        let (first, frames, wire) = (tick.first, tick.frames, tick.wire);
        text.add(format_args!("    {{ {first}, {frames}, {wire} }},\n"));
    }
}

/// The number of bytes of the start frames.
pub(crate) fn start_bytes(trips: &[Trip]) -> usize {
    let mut bytes = 0usize;
    for trip in trips {
        bytes = bytes.saturating_add(trip.frame.len());
    }
    bytes
}

/// Adds the rows of the start frames.
pub(crate) fn add_starts(text: &mut Draft, trips: &[Trip]) {
    let mut first = 0usize;
    for trip in trips {
        let bytes = trip.frame.len();
        let counter = trip.wants.as_slice().first().copied().unwrap_or(0);
        text.add(format_args!("    {{ {first}, {bytes}, {counter} }},\n"));
        first = first.saturating_add(bytes);
    }
}

/// Adds bytes in lines of their own, some in a line.
fn add_byte_lines(text: &mut Draft, bytes: &[u8]) {
    for line in bytes.chunks(BYTES_IN_A_LINE) {
        text.add("\n    ");
        add_bytes(text, line);
    }
}

/// Adds the bytes of the start frames.
pub(crate) fn add_start_bytes(text: &mut Draft, trips: &[Trip]) {
    for trip in trips {
        add_byte_lines(text, trip.frame.as_slice());
    }
}
