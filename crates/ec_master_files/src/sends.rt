//! The frames of each tick, and the groups in each.

use ec_fmmu::Group;
use ec_hyper::Hyper;
use ec_loads::Loads;
use ec_wire::frame_wire;
use std::alloc::{AllocError, Global};

/// The bytes of a frame on the wire that aren't written: preamble, frame check sequence and gap (IEEE 802.3).
const UNWRITTEN: u32 = 24;

/// A frame: its slot, its groups as a range of `Sends::groups`, and what it takes on the wire in bytes.
#[derive(Clone, Copy)]
pub(crate) struct Sent {
    pub slot: u8,
    pub first: usize,
    pub groups: usize,
    pub wire: u32,
}

impl Sent {
    /// Its length in bytes, as it is written.
    pub(crate) fn bytes(&self) -> u32 {
        self.wire.saturating_sub(UNWRITTEN)
    }
}

/// A tick: its frames as a range of `Sends::frames`, and what it costs on the wire in bytes.
#[derive(Clone, Copy)]
pub(crate) struct Ticking {
    pub first: usize,
    pub frames: usize,
    pub wire: u64,
}

/// What is sent in a hyperperiod: the ticks, their frames, and the numbers of the groups in these, one frame after the
/// other.
#[derive(Drop)]
pub(crate) struct Sends {
    pub ticks: Vec<Ticking>,
    pub frames: Vec<Sent>,
    pub groups: Vec<usize>,
}

/// Whether a group travels in a tick in a slot.
fn is_going(group: &Group, tick: u32, slot: u8) -> bool {
    group.slot == slot && group.period > 0 && Hyper::active(group.period, group.phase, tick)
}

/// Adds the groups that travel in a tick in a slot.
fn push_groups(
    sent: &mut Vec<usize>,
    groups: &[Group],
    tick: u32,
    slot: u8,
) -> Result<(), AllocError> {
    for (number, group) in groups.iter().enumerate() {
        if is_going(group, tick, slot) {
            sent.push(number)?;
        }
    }
    Ok(())
}

/// Adds the frame of a slot in a tick, if it carries something.
fn push_frame(
    sends: &mut Sends,
    groups: &[Group],
    loads: &Loads,
    tick: u32,
    slot: u8,
) -> Result<(), AllocError> {
    let first = sends.groups.len();
    push_groups(&mut sends.groups, groups, tick, slot)?;
    let count = sends.groups.len().saturating_sub(first);
    if count > 0 {
        sends.frames.push(Sent {
            slot,
            first,
            groups: count,
            wire: frame_wire(2 + loads.payload(tick, slot)),
        })?;
    }
    Ok(())
}

/// Adds a tick with its frames, by slot.
fn push_tick(
    sends: &mut Sends,
    groups: &[Group],
    loads: &Loads,
    tick: u32,
) -> Result<(), AllocError> {
    let first = sends.frames.len();
    for slot in 0..loads.slots() {
        push_frame(sends, groups, loads, tick, slot)?;
    }
    sends.ticks.push(Ticking {
        first,
        frames: sends.frames.len().saturating_sub(first),
        wire: loads.cost(tick),
    })?;
    Ok(())
}

/// What is sent in each tick below the hyperperiod.
pub(crate) fn sends_of(
    alloc: Global,
    groups: &[Group],
    loads: &Loads,
) -> Result<Sends, AllocError> {
    let mut sends = Sends {
        ticks: Vec::new(alloc),
        frames: Vec::new(alloc),
        groups: Vec::new(alloc),
    };
    for tick in 0..loads.ticks() {
        push_tick(&mut sends, groups, loads, tick)?;
    }
    Ok(sends)
}

/// The frames of a tick.
pub(crate) fn frames_in<'a>(sends: &'a Sends, tick: &Ticking) -> &'a [Sent] {
    let end = tick.first.saturating_add(tick.frames);
    sends.frames.as_slice().get(tick.first..end).unwrap_or(&[])
}

/// The numbers of the groups of a frame.
pub(crate) fn groups_in<'a>(sends: &'a Sends, frame: &Sent) -> &'a [usize] {
    let end = frame.first.saturating_add(frame.groups);
    sends.groups.as_slice().get(frame.first..end).unwrap_or(&[])
}
