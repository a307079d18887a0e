//! What is sent: the start frames, and the frames of a tick.

ghost use Rattle.std.specs.Prelude.{◌≡◌, ℕ, ◌<◌, ◌≤◌, ◌==◌, true, [], ◌∷◌, length, map, All, IfOk, if◌then◌else◌};
ghost use Rattle.ec_frame_builder.specs.Frames.{HasLayout, going, carries};
ghost use Rattle.ec_player.specs.Sent.{start_sents, tick_sents};
ghost use Rattle.ec_player.specs.declared.faults.Stage.TheVariants as stage;
ghost use Rattle.ec_player.specs.Trips.{sent_in, starts_from, slot_from};

use crate::boxes::{BoxedFrame, any_box, boxed};
use crate::faults::Stage;
use crate::rows::Counters;
use ec_fmmu::{Group, Mapping};
use ec_frame_builder::{busy_slots, rewrite_frame, sent_of, start_frames};
use ec_frames::Frame;
use ec_hyper::Hyper;
use ec_units::Units;
use std::alloc::{AllocError, Global};

/// A frame, when it is sent, and the working counters with which its datagrams are to come back.
#[derive(Drop)]
pub struct Trip {
    pub stage: Stage,
    pub frame: BoxedFrame,
    pub wants: Counters,
}

/// The working counters that the groups of a slot in a tick are to come back with.
fn wants_of(alloc: Global, groups: &[Group], tick: u32, slot: u8) -> Result<Counters, AllocError>
    requires { All (λ g. 1 ≤ g.period) groups.now }
    ensures { IfOk result (λ wants. wants ≡ map (λ g. g.counter) (going groups.now tick slot)) }
{
    let mut wants = Vec::new(alloc);
    for group in groups {
        if group.slot == slot && Hyper::active(group.period, group.phase, tick) {
            wants.push(group.counter)?;
        }
    }
    Ok(Counters::new(wants))
}

/// One counter.
fn one_counter(alloc: Global, want: u16) -> Result<Counters, AllocError>
    ensures { IfOk result (λ wants. wants ≡ want ∷ []) }
{
    let mut wants = Vec::new(alloc);
    wants.push(want)?;
    Ok(Counters::new(wants))
}

/// The counter that start frame `i` of a line of so many slaves is to come back with.
fn start_want(i: usize, slaves: u16) -> u16
    ensures { result ≡ (if i == 0 then slaves else 1) }
{
    if i == 0 { slaves } else { 1 }
}

/// The start frame with this number.
fn start_trip(alloc: Global, frame: &Frame, i: usize, slaves: u16) -> Result<Trip, AllocError>
    ensures { IfOk result (λ trip. sent_in trip ≡ record { stage = stage.Start; bytes = frame.now.items; wants = (if i == 0 then slaves else 1) ∷ [] }) }
{
    let wants = one_counter(alloc, start_want(i, slaves))?;
    let frame = boxed(alloc, &mut Vec::new(alloc), frame)?;
    Ok(Trip {
        stage: Stage::Start,
        frame,
        wants,
    })
}

/// The start frames, with their working counters.
///
/// # Errors
///
/// `AllocError` where memory ran out.
pub fn start_trips(alloc: Global, units: &Units, mapping: &Mapping) -> Result<Vec<Trip>, AllocError>
    requires { HasLayout units.now mapping.now }
    ensures sents { IfOk result (λ v. map sent_in v.items ≡ start_sents units.now mapping.now) }
    ensures few { IfOk result (λ v. length v.items ≤ 769) }
{
    let frames = start_frames(alloc, units, mapping)?;
    let slaves = (mapping.fmmus.as_slice().len() % 65536) as u16;
    let trips = trips_of_start(alloc, frames.as_slice(), slaves)?;
    Ok(trips)
}

/// The start frames, each with its counter.
fn trips_of_start(alloc: Global, frames: &[Frame], slaves: u16) -> Result<Vec<Trip>, AllocError>
    ensures { IfOk result (λ v. map sent_in v.items ≡ starts_from 0 slaves (map (λ frame. frame.items) frames.now)) }
{
    let mut trips = Vec::new(alloc);
    for (i, frame) in frames.iter().enumerate() {
        let trip = start_trip(alloc, frame, i, slaves)?;
        trips.push(trip)?;
    }
    Ok(trips)
}

/// The frame of a slot in a tick, which carries something in it, in a box of those to spare if there is one.
fn slot_trip(
    alloc: Global,
    spare: &mut Vec<BoxedFrame>,
    units: &Units,
    mapping: &Mapping,
    sent: &[u8],
    tick: u32,
    slot: u8,
) -> Result<Trip, AllocError>
    requires layout { HasLayout units.now mapping.now }
    requires sent { length sent.now ≡ mapping.now.total }
    requires slot { slot < units.now.slots }
    requires carried { carries mapping.now.groups tick slot ≡ true }
    ensures { IfOk result (λ trip. sent_in trip ≡ slot_from mapping.now.groups sent.now tick slot) }
{
    let wants = wants_of(alloc, mapping.groups.as_slice(), tick, slot)?;
    let mut frame = any_box(alloc, spare)?;
    rewrite_frame(alloc, &mut frame, units, mapping, sent, tick, slot)?;
    Ok(Trip {
        stage: Stage::Tick { tick, slot },
        frame,
        wants,
    })
}

/// The frames of slots in a tick, each of which carries something, with their counters.
fn trips_of_slots(
    alloc: Global,
    spare: &mut Vec<BoxedFrame>,
    units: &Units,
    mapping: &Mapping,
    sent: &[u8],
    tick: u32,
    slots: &[u8],
) -> Result<Vec<Trip>, AllocError>
    requires layout { HasLayout units.now mapping.now }
    requires sent { length sent.now ≡ mapping.now.total }
    requires below { All (λ s. s < units.now.slots) slots.now }
    requires carried { All (λ s. carries mapping.now.groups tick s ≡ true) slots.now }
    ensures { IfOk result (λ v. map sent_in v.items ≡ map (slot_from mapping.now.groups sent.now tick) slots.now) }
{
    let mut trips = Vec::with_capacity(alloc, slots.len())?;
    for slot in slots {
        let trip = slot_trip(alloc, spare, units, mapping, sent, tick, *slot)?;
        trips.push(trip)?;
    }
    Ok(trips)
}

/// The frames of a tick, by slot, with their working counters, in boxes of those to spare as far as there are some.
///
/// # Errors
///
/// `AllocError` where memory ran out.
pub fn tick_trips(
    alloc: Global,
    spare: &mut Vec<BoxedFrame>,
    units: &Units,
    mapping: &Mapping,
    image: &[u8],
    tick: u32,
) -> Result<Vec<Trip>, AllocError>
    requires layout { HasLayout units.now mapping.now }
    requires image { length image.now ≡ mapping.now.total }
    ensures sents { IfOk result (λ v. map sent_in v.items ≡ tick_sents units.now mapping.now image.now tick) }
    ensures few { IfOk result (λ v. length v.items ≤ 8) }
{
    let slots = busy_slots(alloc, units, mapping, tick)?;
    let sent = sent_of(alloc, mapping.fmmus.as_slice(), image)?;
    let trips = trips_of_slots(
        alloc,
        spare,
        units,
        mapping,
        sent.as_slice(),
        tick,
        slots.as_slice(),
    )?;
    Ok(trips)
}
