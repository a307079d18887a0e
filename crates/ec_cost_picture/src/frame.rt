//! What the bytes of a frame on the wire are.

use crate::label::add_bytes;
use crate::placed::{At, Placed, add_groups, process_bytes};
use ec_loads::Loads;
use ec_text_builder::Draft;
use ec_wire::{frame_raw, frame_wire};

/// The bytes of a frame on the wire: headers, check sequence, preamble and gap; process data; padding.
#[derive(Clone, Copy)]
pub(crate) struct Parts {
    pub overhead: u64,
    pub process: u64,
    pub padding: u64,
}

impl Parts {
    /// All of them.
    pub(crate) fn sum(&self) -> u64 {
        self.overhead
            .saturating_add(self.process)
            .saturating_add(self.padding)
    }
}

/// The parts of a frame; none where nothing travels.
pub(crate) fn parts_of(loads: &Loads, placed: Placed<'_>, at: At) -> Option<Parts> {
    let payload = loads.payload(at.tick, at.slot);
    if payload == 0 {
        return None;
    }
    let raw = u64::from(frame_raw(2 + payload));
    let process = process_bytes(placed, at);
    Some(Parts {
        overhead: raw.saturating_sub(process),
        process,
        padding: u64::from(frame_wire(2 + payload)).saturating_sub(raw),
    })
}

/// Adds what is told of a frame that the pointer rests on.
pub(crate) fn add_title(page: &mut Draft, placed: Placed<'_>, at: At, parts: Parts) {
    let (tick, slot) = (at.tick, at.slot);
    page.add(format_args!("<title>tick {tick}, slot {slot}: "));
    add_bytes(page, parts.sum());
    let (overhead, process, padding) = (parts.overhead, parts.process, parts.padding);
    page.add(format_args!("\nprocess data {process}, overhead {overhead}, padding {padding}"));
    add_groups(page, placed, at);
    page.add("</title>");
}
