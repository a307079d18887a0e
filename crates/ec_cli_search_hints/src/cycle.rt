//! What is known of each plan of a line by its units alone.

use crate::meeting::{Meeting, crowd, heaviest};
use ec_bounds::{MeanTick, mean_tick};
use ec_text_builder::{Amount, Draft};
use ec_units::{Slave, Unit, Units, bytes_of};
use ec_wire::{BYTE_NS, fits, frame_wire};

/// The most slots of a line.
const MOST_SLOTS: u64 = 8;

/// The wire bytes of the least frame.
const LEAST_FRAME: u64 = 84;

/// The most bytes of two units.
const MOST_OF_TWO: u32 = 2972;

/// The most bytes of two units in one frame.
const MOST_OF_FRAME: u32 = 1474;

/// The wire bytes of a frame with one or two datagrams of so many bytes together.
fn wire_of(datagrams: u8, bytes: u32) -> u64 {
    u64::from(frame_wire(2 + 12 * u32::from(datagrams) + bytes.min(MOST_OF_TWO)))
}

/// The wire bytes of a frame with one unit alone.
fn wire_of_unit(unit: &Unit) -> u64 {
    wire_of(1, u32::from(bytes_of(unit)))
}

/// The least that two units which meet take on the wire in one tick, in bytes.
fn wire_of_both(meeting: Meeting<'_>) -> u64 {
    wire_of(2, meeting.bytes())
}

/// Whether a slave alone goes into a tick.
fn fits_alone(slave: &Slave, tick_ns: u32) -> bool {
    let bytes = u32::from(slave.out_bytes) + u32::from(slave.in_bytes);
    fits(wire_of(1, bytes), tick_ns)
}

/// Whether a unit goes into a tick alone, or could be two that travel in different ticks: it has ticks for that, and each of its slaves
/// goes into one.
fn is_divisible(unit: &Unit, tick_ns: u32) -> bool {
    let mut slaves = unit.slaves.as_slice().iter();
    fits(wire_of_unit(unit), tick_ns)
        || (unit.period > 1 && slaves.all(|slave| fits_alone(slave, tick_ns)))
}

/// What may help where two units meet.
const PARTED: &str = "Periods with a common divisor, as 2 and 4, may help.\n";

/// What is told of a legal plan.
pub(crate) const USE: &str = "The plan is legal and can be used as it stands.\n";

/// The length of a tick in ns, the frames that one may have, and what some tick of each plan has at least.
#[derive(Clone, Copy)]
pub struct Cycle<'a> {
    pub tick_ns: u32,
    pub slots: u64,
    /// The wire bytes of a frame with its largest unit alone.
    pub largest: u64,
    /// Whether each unit that is too long for a tick alone could be two.
    pub is_divisible: bool,
    /// The two units with the most bytes that meet in some tick wherever they are placed, if any do.
    pub meeting: Option<Meeting<'a>>,
    /// How many units of which no two go into one frame meet in some tick wherever they are placed.
    pub crowd: u64,
    pub mean: MeanTick,
    /// What the busiest tick of the units' own places costs in wire bytes, where that is known and they are a legal plan.
    pub own: Option<u64>,
}

impl<'a> Cycle<'a> {
    /// That of these units.
    pub fn of(units: &'a Units) -> Cycle<'a> {
        let (all, tick_ns) = (units.units.as_slice(), units.tick_ns);
        Cycle {
            tick_ns,
            slots: u64::from(units.slots),
            largest: all.iter().map(wire_of_unit).max().unwrap_or(0),
            is_divisible: all.iter().all(|unit| is_divisible(unit, tick_ns)),
            meeting: heaviest(all),
            crowd: crowd(all),
            mean: mean_tick(units),
            own: None,
        }
    }

    /// What some tick of each plan costs at least, by the bytes of all units or by two of them that meet.
    pub fn least(self) -> u64 {
        let meeting = self.meeting.map_or(0, wire_of_both);
        self.mean.cost.max(meeting)
    }

    /// Whether so many bytes take longer on the wire than a tick.
    pub(crate) fn is_beyond(self, bytes: u64) -> bool {
        !fits(bytes, self.tick_ns)
    }

    /// Adds what a plan is good for whose busiest tick costs so many bytes.
    pub(crate) fn add_use(self, out: &mut Draft, busiest: u64) {
        if !self.is_beyond(busiest) {
            return out.add(USE);
        }
        let (ns, tick) = (busiest.saturating_mul(BYTE_NS), self.tick_ns);
        out.add(format_args!(
            "The plan is legal, but does not fit: its busiest tick takes {ns} ns on the wire, and tick_ns = {tick}.\n"
        ));
    }

    /// Adds that whether a plan fits isn't known, where neither that which was found does nor the units' own places, and some tick of each
    /// costs so many bytes.
    pub(crate) fn add_unknown(self, out: &mut Draft, least: u64) {
        if self.own.is_some_and(|own| !self.is_beyond(own)) {
            return;
        }
        let ns = least.saturating_mul(BYTE_NS);
        out.add(format_args!(
            "Whether another one fits is not known: some tick of each takes at least {ns} ns. A longer tick or fewer bytes would help in any case.\n"
        ));
    }

    /// Adds that no plan fits, where some tick of each costs so many bytes, and what would help.
    pub(crate) fn add_beyond(self, out: &mut Draft, least: u64) {
        let (ns, tick) = (least.saturating_mul(BYTE_NS), self.tick_ns);
        out.add(format_args!(
            "Some tick of each plan takes at least {ns} ns on the wire, and tick_ns = {tick}: no plan of this line fits.\n"
        ));
        let (shortest, largest) = (LEAST_FRAME * BYTE_NS, self.largest.saturating_mul(BYTE_NS));
        if self.is_beyond(LEAST_FRAME) {
            out.add(format_args!(
                "Each frame takes {shortest} ns or more: only a longer tick would help. tick_ns is in ns, so 1 ms is 1000000.\n"
            ));
        } else if self.is_beyond(self.largest) {
            out.add(format_args!(
                "A frame with its largest unit alone takes {largest} ns already: a longer tick or fewer bytes would help, and longer periods alone would not.\n"
            ));
            if self.is_divisible {
                out.add(
                    "Two units in place of such a one, each with some of its slaves, may help, too.\n",
                );
            }
        } else if let Some(meeting) = self.meeting
            && self.is_beyond(wire_of_both(meeting))
        {
            let ns = wire_of_both(meeting).saturating_mul(BYTE_NS);
            out.add(format_args!(
                "{meeting}, and take at least {ns} ns there.\n{PARTED}A longer tick or fewer bytes would.\n"
            ));
        } else {
            out.add("A longer tick, longer periods or fewer bytes would help.\n");
        }
    }

    /// Adds why some tick of each plan costs the least that it does: two units meet there, or it carries so many bytes.
    pub(crate) fn add_least(self, out: &mut Draft) {
        if let Some(meeting) = self.meeting
            && self.mean.cost < wire_of_both(meeting)
        {
            let cost = wire_of_both(meeting);
            return out.add(format_args!(
                "{meeting}, and take at least {cost} bytes on the wire there.\n"
            ));
        }
        let MeanTick {
            bytes,
            frames,
            cost,
        } = self.mean;
        let frames = Amount(u64::from(frames), "frame");
        out.add(format_args!(
            "Some tick of each plan carries at least {bytes} bytes of units: at least {frames}, and {cost} bytes on the wire.\n"
        ));
    }

    /// Whether more than two units, each in a frame of its own, are what some tick has most frames for. Two are told as a meeting.
    fn is_crowded(self) -> bool {
        self.crowd > self.mean.frames.max(2)
    }

    /// The frames that some tick of each plan has at least, and which other periods may give it fewer.
    fn frames(self) -> (u64, &'static str) {
        if self.is_crowded() {
            (self.crowd, "periods with a common divisor, as 2 and 4")
        } else {
            (self.mean.frames, "longer periods")
        }
    }

    /// Whether some tick of each plan has more frames than there are slots.
    pub fn is_overfull(self) -> bool {
        self.frames().0 > self.slots
    }

    /// Adds why there is no plan.
    fn add_why_none(self, out: &mut Draft) {
        let (bytes, frames, slots) = (self.mean.bytes, self.frames().0, self.slots);
        if !self.is_overfull() {
            out.add("Each plan has a frame that is too full.\n");
        } else if self.is_crowded() {
            out.add(format_args!(
                "{frames} units meet in some tick wherever they are placed, and no two of them go into one frame, but slots = {slots}. So there is no plan.\n"
            ));
        } else {
            out.add(format_args!(
                "Some tick of each plan carries at least {bytes} bytes of units: at least {frames} frames, and slots = {slots}. So there is no plan.\n"
            ));
        }
    }

    /// Adds why there is no plan, and what would help.
    pub fn add_none(self, out: &mut Draft) {
        let (frames, periods) = self.frames();
        let slots = self.slots;
        let overfull = self
            .meeting
            .filter(|meeting| slots == 1 && meeting.bytes() > MOST_OF_FRAME);
        self.add_why_none(out);
        if let Some(meeting) = overfull {
            out.add(format_args!("{meeting}, and are too much for one frame.\n{PARTED}"));
        }
        if frames > MOST_SLOTS {
            out.add(format_args!(
                "No number of slots is enough: fewer bytes would help, or {periods}.\n"
            ));
        } else if self.is_overfull() {
            out.add(format_args!(
                "Raise slots = {slots}, to {frames} at least, or have fewer bytes or {periods}.\n"
            ));
        } else if slots < MOST_SLOTS {
            let periods = if overfull.is_some() {
                ""
            } else {
                " or longer periods"
            };
            out.add(format_args!(
                "Raise slots = {slots}, to {MOST_SLOTS} at most, or have fewer bytes{periods}.\n"
            ));
        } else {
            out.add("Fewer bytes or longer periods would help.\n");
        }
    }
}
