//! The lines of the frames of a tick.

ghost use Rattle.std.specs.Prelude.{◌≡◌, ℕ, ◌+◌, ◌<◌, ◌≤◌, ◌++◌, length, map, filter, string_bytes, All, IfOk, OnOk};
ghost use Rattle.ec_frame_builder.specs.Frames.{HasLayout, frames_of};
ghost use Rattle.ec_frame_text.specs.Lines.{frame_line, frame_lines, zeros, slots_of, tick_lines};

use crate::hex::push_hex;
use ec_fmmu::Mapping;
use ec_frame_builder::{busy_slots, tick_frames};
use ec_frames::Frame;
use ec_outcome::TextFault;
use ec_units::Units;
use ec_wire::frame_wire;
use std::alloc::{AllocError, Global};
use std::fmt::Write;

/// Adds the line of a frame.
fn push_frame(text: &mut String, tick: u32, slot: u8, frame: &[u8]) -> Result<(), AllocError>
    requires { (60 ≤ length frame.now) × (length frame.now ≤ 1514) }
    ensures { OnOk result (string_bytes text.new ≡ string_bytes text.old ++ frame_line tick slot frame.now) }
{
    let wire = frame_wire(frame.len() as u32 - 14);
    write!(text, "frame {tick} {slot} {wire} ")?;
    push_hex(text, frame)?;
    text.push_str("\n")
}

/// Adds the line of each frame, with its slot.
fn push_frames(
    text: &mut String,
    tick: u32,
    slots: &[u8],
    frames: &[Frame],
) -> Result<(), AllocError>
    requires each { length frames.now ≡ length slots.now }
    requires long { All (λ frame. 60 ≤ length frame.items) frames.now }
    ensures { OnOk result (string_bytes text.new ≡ string_bytes text.old ++ frame_lines tick slots.now (map (λ frame. frame.items) frames.now)) }
{
    for i in 0..slots.len() {
        push_frame(text, tick, slots[i], frames[i].as_slice())?;
    }
    Ok(())
}

/// Adds the lines of the frames of a tick.
pub(crate) fn push_tick(
    alloc: Global,
    text: &mut String,
    units: &Units,
    mapping: &Mapping,
    image: &[u8],
    tick: u32,
) -> Result<(), TextFault>
    requires layout { HasLayout units.now mapping.now }
    requires image { image.now ≡ zeros mapping.now }
    ensures { OnOk result (string_bytes text.new ≡ string_bytes text.old ++ tick_lines mapping.now units.now.slots tick) }
{
    let Ok(slots) = busy_slots(alloc, units, mapping, tick) else {
        return Err(TextFault::Frames);
    };
    let Ok(frames) = tick_frames(alloc, units, mapping, image, tick) else {
        return Err(TextFault::Frames);
    };
    push_frames(text, tick, slots.as_slice(), frames.as_slice())?;
    Ok(())
}
