//! The frames of a plan as a capture file.

ghost use Rattle.std.specs.Prelude.{◌≡◌, ℕ, ◌+◌, ◌*◌, ◌<◌, ◌≤◌, ◌++◌, length, map, All, IfOk, OnOk};
ghost use Rattle.std.specs.List.{flat_map, range_with_len};
ghost use Rattle.ec_units.specs.Views.{units_view};
ghost use Rattle.ec_frame_builder.specs.Frames.{HasLayout};
ghost use Rattle.ec_frame_text.specs.Lines.{zeros};
ghost use Rattle.ec_frame_text.specs.Captures.{four_bytes, file_header, frame_record, frame_records, tick_records, capture};

use crate::lines::blank;
use ec_fmmu::Mapping;
use ec_frame_builder::tick_frames;
use ec_frames::Frame;
use ec_outcome::TextFault;
use ec_units::Units;
use ec_wire::{frame_wire, ns_of};
use std::alloc::{AllocError, Global};

/// The head of the file: the magic number of stamps in ns, version 2.4, frames of at most 65535 bytes, Ethernet.
const FILE_HEADER: [u8; 24] = [
    0x4d, 0x3c, 0xb2, 0xa1, 2, 0, 4, 0, 0, 0, 0, 0, 0, 0, 0, 0, 0xff, 0xff, 0, 0, 1, 0, 0, 0,
];

/// Nanoseconds of a second.
const SECOND_NS: u64 = 1_000_000_000;

/// Adds a number, its lowest byte first.
fn push_four(file: &mut Vec<u8>, number: u32) -> Result<(), AllocError>
    ensures { OnOk result (file.new.items ≡ file.old.items ++ four_bytes number) }
{
    let bytes = number.to_le_bytes();
    file.extend_from_slice(&[bytes[0], bytes[1], bytes[2], bytes[3]])?;
    Ok(())
}

/// Adds the record of a frame that passes so many ns after the start, less than 2,000,000,000,000: stamp, lengths and bytes.
/// An error is want of memory.
pub fn push_record(file: &mut Vec<u8>, ns: u64, frame: &[u8]) -> Result<(), AllocError>
    requires soon { ns < 2000000000000 }
    requires short { length frame.now ≤ 1514 }
    ensures { OnOk result (file.new.items ≡ file.old.items ++ frame_record ns frame.now) }
{
    push_four(file, (ns / SECOND_NS) as u32)?;
    push_four(file, (ns % SECOND_NS) as u32)?;
    let held = frame.len() as u32;
    push_four(file, held)?;
    push_four(file, held)?;
    file.extend_from_slice(frame)?;
    Ok(())
}

/// A capture file without frames: its head. An error is want of memory.
pub fn capture_head(alloc: Global) -> Result<Vec<u8>, AllocError>
    ensures { IfOk result (λ file. file.items ≡ file_header) }
{
    let mut file = Vec::new(alloc);
    file.extend_from_slice(&FILE_HEADER)?;
    Ok(file)
}

/// Adds the frames of a tick that begins so many ns after the start, each once those before it have passed.
fn push_records(file: &mut Vec<u8>, start: u64, frames: &[Frame]) -> Result<(), AllocError>
    requires few { length frames.now ≤ 8 }
    requires long { All (λ frame. 60 ≤ length frame.items) frames.now }
    requires soon { start ≤ 1024000000000 }
    ensures { OnOk result (file.new.items ≡ file.old.items ++ frame_records start (map (λ frame. frame.items) frames.now)) }
{
    let mut before = 0u64;
    for i in 0..frames.len() {
        let frame = frames[i].as_slice();
        push_record(file, start + ns_of(before), frame)?;
        before += u64::from(frame_wire(frame.len() as u32 - 14));
    }
    Ok(())
}

/// Adds the frames of a tick.
fn push_tick(
    alloc: Global,
    file: &mut Vec<u8>,
    units: &Units,
    mapping: &Mapping,
    image: &[u8],
    tick: u32,
) -> Result<(), TextFault>
    requires layout { HasLayout units.now mapping.now }
    requires image { image.now ≡ zeros mapping.now }
    requires tick { tick < 1024 }
    ensures { OnOk result (file.new.items ≡ file.old.items ++ tick_records (units_view units.now) mapping.now tick) }
{
    let Ok(frames) = tick_frames(alloc, units, mapping, image, tick) else {
        return Err(TextFault::Frames);
    };
    let start = u64::from(tick) * u64::from(units.tick_ns);
    push_records(file, start, frames.as_slice())?;
    Ok(())
}

/// Adds the frames of each tick.
fn push_ticks(
    alloc: Global,
    file: &mut Vec<u8>,
    units: &Units,
    mapping: &Mapping,
    image: &[u8],
    ticks: u32,
) -> Result<(), TextFault>
    requires layout { HasLayout units.now mapping.now }
    requires image { image.now ≡ zeros mapping.now }
    requires ticks { ticks ≤ 1024 }
    ensures { OnOk result (file.new.items ≡ file.old.items ++ flat_map (tick_records (units_view units.now) mapping.now) (range_with_len 0 ticks)) }
{
    for tick in 0..ticks {
        push_tick(alloc, file, units, mapping, image, tick)?;
    }
    Ok(())
}

/// The frames of each tick below the hyperperiod, with data zero, as a capture file (classic pcap, stamps in ns, numbers
/// with their lowest byte first): a record for each frame, without its frame check sequence, stamped with the begin of its
/// tick and the time that the frames before it in that tick take on the wire (80 ns a byte). Of a plan that doesn't fit its
/// tick, the stamps of one tick run into those of the next, so that the records aren't in order of time.
///
/// # Errors
///
/// `TextFault` where memory ran out.
pub fn capture_of(alloc: Global, units: &Units, mapping: &Mapping) -> Result<Vec<u8>, TextFault>
    requires { HasLayout units.now mapping.now }
    ensures { IfOk result (λ file. file.items ≡ capture (units_view units.now) mapping.now) }
{
    let Ok(image) = blank(alloc, mapping) else {
        return Err(TextFault::Frames);
    };
    let mut file = capture_head(alloc)?;
    let ticks = units.hyper().ticks();
    push_ticks(alloc, &mut file, units, mapping, image.as_slice(), ticks)?;
    Ok(file)
}
