//! The frames of a tick.

ghost use Rattle.std.specs.Prelude.{◌≡◌, ℕ, ◌+◌, ◌<◌, ◌≤◌, ◌++◌, List, [], ◌∷◌, true, false, length, map, filter, sum_by, All, IfOk, OnOk, MatchOption, OnErr};
ghost use Rattle.std.specs.List.{flat_map, range_with_len, list_any};
ghost use Rattle.ec_units.specs.declared.slave.Place.{Place};
ghost use Rattle.ec_units.specs.Load.{loads_of};
ghost use Rattle.ec_loads.specs.Cost.{plan_items, is_busy, tick_cost};
ghost use Rattle.ec_frames.specs.Written.{total_of};
ghost use Rattle.ec_frame_builder.specs.Frames.{HasLayout, IsLayoutFor, goes, going, datagram_of, data_of, frame_of as frame_in, sent, slot_frame, carries, frames_of};
ghost use Rattle.ec_frame_builder.specs.Within.{GroupsWithin};

use crate::image::sent_of;
use arrayvec::ArrayVec;
use ec_fmmu::{FIRST_ADDRESS, Group, Mapping};
use ec_frames::{Command, Datagram, Frame, rebuild};
use ec_hyper::Hyper;
use ec_units::Units;
use std::alloc::{AllocError, Global};

/// The data of a frame's datagrams, which take 1,498 bytes at most with 12 more each (ETG.1000.4, clause 5.4).
type Data = ArrayVec<u8, 1498>;

/// Whether a group travels in this tick in this slot.
fn is_going(group: &Group, tick: u32, slot: u8) -> bool
    requires { 1 ≤ group.now.period }
    ensures { result ≡ goes tick slot group.now }
{
    group.slot == slot && Hyper::active(group.period, group.phase, tick)
}

/// The groups that travel in this tick in this slot, by period and phase.
fn going_of(alloc: Global, groups: &[Group], tick: u32, slot: u8) -> Result<Vec<Group>, AllocError>
    requires { All (λ g. 1 ≤ g.period) groups.now }
    ensures { IfOk result (λ v. v.items ≡ going groups.now tick slot) }
{
    let mut there = Vec::new(alloc);
    for group in groups {
        if is_going(group, tick, slot) {
            there.push(*group)?;
        }
    }
    Ok(there)
}

/// The datagram of each group, a logical read-write (ETG.1000.4, clause 5.4).
fn datagrams_of(alloc: Global, groups: &[Group]) -> Result<Vec<Datagram>, AllocError>
    ensures { IfOk result (λ v. v.items ≡ map datagram_of groups.now) }
{
    let mut list = Vec::new(alloc);
    for group in groups {
        list.push(Datagram {
            command: Command::Lrw,
            address: group.start,
            len: group.len,
        })?;
    }
    Ok(list)
}

/// The bytes of the groups in what is sent, one group after the other.
fn data_bytes(groups: &[Group], bytes: &[u8]) -> Data
    requires within { GroupsWithin (length bytes.now) groups.now }
    requires room { total_of (map datagram_of groups.now) ≤ 1498 }
    ensures { result.items ≡ flat_map (data_of bytes.now) groups.now }
{
    let mut data = Data::new();
    for group in groups {
        let at = (group.start - FIRST_ADDRESS) as usize;
        let done = data.try_extend_from_slice(&bytes[at..at + usize::from(group.len)]);
        prove!(done.is_ok());
    }
    data
}

/// Writes the frame of these groups, of which there is one, in place of what is there.
fn write_groups(
    alloc: Global,
    frame: &mut Frame,
    groups: &[Group],
    bytes: &[u8],
) -> Result<(), AllocError>
    requires some { 0 < length groups.now }
    requires within { GroupsWithin (length bytes.now) groups.now }
    requires room { total_of (map datagram_of groups.now) ≤ 1498 }
    ensures frame { OnOk result (frame.new.items ≡ frame_in groups.now bytes.now) }
    ensures same { OnErr result (frame.new ≡ frame.old) }
{
    let list = datagrams_of(alloc, groups)?;
    let data = data_bytes(groups, bytes);
    match rebuild(frame, &list, &data) {
        Ok(()) => Ok(()),
        Err(_) => unreachable!(),
    }
}

/// Writes the frame of a slot in a tick in place of what is there: that of [`tick_frames`]. The slot carries something then. `sent` is
/// what [`sent_of`] gives of the image.
///
/// # Errors
///
/// `AllocError` where memory ran out. The frame is left as it is.
pub fn rewrite_frame(
    alloc: Global,
    frame: &mut Frame,
    units: &Units,
    mapping: &Mapping,
    sent: &[u8],
    tick: u32,
    slot: u8,
) -> Result<(), AllocError>
    requires layout { HasLayout units.now mapping.now }
    requires sent { length sent.now ≡ mapping.now.total }
    requires slot { slot < units.now.slots }
    requires carried { carries mapping.now.groups tick slot ≡ true }
    ensures frame { OnOk result (frame.new.items ≡ frame_in (going mapping.now.groups tick slot) sent.now) }
    ensures same { OnErr result (frame.new ≡ frame.old) }
{
    let there = going_of(alloc, mapping.groups.as_slice(), tick, slot)?;
    write_groups(alloc, frame, there.as_slice(), sent)
}

/// The frame of a slot in this tick, if it carries something.
fn slot_frame(
    alloc: Global,
    groups: &[Group],
    bytes: &[u8],
    slot: u8,
    tick: u32,
) -> Result<Option<Frame>, AllocError>
    requires within { GroupsWithin (length bytes.now) groups.now }
    requires room { total_of (map datagram_of (going groups.now tick slot)) ≤ 1498 }
    ensures { IfOk result (λ found. MatchOption found (carries groups.now tick slot ≡ false)
        (λ frame. (carries groups.now tick slot ≡ true) × (frame.items ≡ frame_in (going groups.now tick slot) bytes.now))) }
{
    let there = going_of(alloc, groups, tick, slot)?;
    let list = there.as_slice();
    if list.is_empty() {
        return Ok(None);
    }
    let mut frame = Frame::new();
    write_groups(alloc, &mut frame, list, bytes)?;
    Ok(Some(frame))
}

/// Adds a frame, if there is one.
fn push_frame(frames: &mut Vec<Frame>, found: Option<Frame>) -> Result<(), AllocError>
    ensures { OnOk result (MatchOption found (frames.new.items ≡ frames.old.items) (λ frame. frames.new.items ≡ frames.old.items ++ frame ∷ [])) }
{
    if let Some(frame) = found {
        frames.push(frame)?;
    }
    Ok(())
}

/// The frames of the slots below `slots` that carry something in this tick, by slot.
fn slot_frames(
    alloc: Global,
    groups: &[Group],
    bytes: &[u8],
    slots: u8,
    tick: u32,
) -> Result<Vec<Frame>, AllocError>
    requires within { GroupsWithin (length bytes.now) groups.now }
    requires room { (s : ℕ) → s < slots → total_of (map datagram_of (going groups.now tick s)) ≤ 1498 }
    ensures { IfOk result (λ v. map (λ frame. frame.items) v.items
        ≡ map (λ s. frame_in (going groups.now tick s) bytes.now) (filter (carries groups.now tick) (range_with_len 0 slots))) }
{
    let mut frames = Vec::new(alloc);
    for slot in 0..slots {
        let found = slot_frame(alloc, groups, bytes, slot, tick)?;
        push_frame(&mut frames, found)?;
    }
    Ok(frames)
}

/// Whether a slot carries something in this tick.
fn is_carrying(groups: &[Group], tick: u32, slot: u8) -> bool
    requires { All (λ g. 1 ≤ g.period) groups.now }
    ensures { result ≡ carries groups.now tick slot }
{
    for group in groups {
        if is_going(group, tick, slot) {
            return true;
        }
    }
    false
}

/// The slots that carry something in a tick, in order: those of the frames of the tick.
///
/// # Errors
///
/// `AllocError` where memory ran out.
pub fn busy_slots(
    alloc: Global,
    units: &Units,
    mapping: &Mapping,
    tick: u32,
) -> Result<Vec<u8>, AllocError>
    requires { HasLayout units.now mapping.now }
    ensures { IfOk result (λ v. v.items ≡ filter (carries mapping.now.groups tick) (range_with_len 0 units.now.slots)) }
{
    let groups = mapping.groups.as_slice();
    let mut slots = Vec::new(alloc);
    for slot in 0..units.slots {
        if is_carrying(groups, tick, slot) {
            slots.push(slot)?;
        }
    }
    Ok(slots)
}

/// The frames of a tick (ETG.1000.4, clauses 5.3 and 5.4), by slot: one for each slot that carries something, with a
/// logical read-write datagram for each group that travels, by period and phase. Outputs are those of the image, whose
/// first byte is at the logical address 0x00010000; inputs are sent as 0. On the wire the frames take 24 bytes more each
/// (IEEE 802.3), and together what the tick costs. The mapping is the layout of a legal plan of these units, and the image has its
/// `total` bytes; a tick may be beyond the hyperperiod.
///
/// # Errors
///
/// `AllocError` where memory ran out.
pub fn tick_frames(
    alloc: Global,
    units: &Units,
    mapping: &Mapping,
    image: &[u8],
    tick: u32,
) -> Result<Vec<Frame>, AllocError>
    requires layout { HasLayout units.now mapping.now }
    requires image { length image.now ≡ mapping.now.total }
    ensures frames { IfOk result (λ v. map (λ frame. frame.items) v.items ≡ frames_of mapping.now image.now units.now.slots tick) }
    ensures carries { (places : List Place) → IsLayoutFor units.now places mapping.now → (s : ℕ) →
        carries mapping.now.groups tick s ≡ is_busy (plan_items (loads_of units.now.units) places) tick s }
    ensures cost { IfOk result (λ v. (places : List Place) → IsLayoutFor units.now places mapping.now →
        sum_by (λ frame. length frame.items + 24) v.items ≡ tick_cost (plan_items (loads_of units.now.units) places) units.now.slots tick) }
{
    let records = mapping.fmmus.as_slice();
    let bytes = sent_of(alloc, records, image)?;
    let groups = mapping.groups.as_slice();
    let frames = slot_frames(alloc, groups, bytes.as_slice(), units.slots, tick)?;
    Ok(frames)
}
