//! The image after frames came back.

ghost use Rattle.std.specs.Prelude.{◌≡◌, ℕ, ◌+◌, ◌<◌, ◌≤◌, ◌&&◌, ◌==◌, nat_le, nat_lt, if◌then◌else◌, List, length, map, get_or, unwrap_or, All, IfOk, replicate};
ghost use Rattle.std.specs.List.{list_any, flat_map, range_with_len};
ghost use Rattle.ec_frames.specs.EntryViews.{entry};
ghost use Rattle.ec_frames.specs.Reading.{Entry};
ghost use Rattle.ec_frame_builder.specs.Frames.{covers};
ghost use Rattle.ec_frame_builder.specs.Within.{IsWithin, AreWithin};
ghost use Rattle.ec_player.specs.Boxes.{bytes_in};
ghost use Rattle.ec_player.specs.Faults.{entries_of};
ghost use Rattle.ec_player.specs.Images.{byte_in, last_byte, all_entries, byte_after};

use crate::boxes::BoxedFrame;
use crate::judging::read;
use ec_fmmu::{FIRST_ADDRESS, Fmmu};
use ec_frames::{Frame, Parsed, View, datagrams};
use std::alloc::{AllocError, Global};

/// The logical address of the image's first byte.
const FIRST: usize = FIRST_ADDRESS as usize;

/// Puts the bytes of a datagram at their logical addresses.
fn bring_datagram(came: &mut [u8], view: &View<'_>)
    ensures len { length came.new ≡ length came.old }
    ensures bytes { (k : ℕ) → k < length came.old → get_or came.new k 0 ≡ unwrap_or (byte_in (65536 + k) (entry view.now)) (get_or came.old k 0) }
{
    let address = view.address as usize;
    let from = address.max(FIRST);
    let to = (address + view.bytes.len()).min(FIRST + came.len());
    if from < to {
        came[from - FIRST..to - FIRST].copy_from_slice(&view.bytes[from - address..to - address]);
    }
}

/// Puts the bytes of datagrams at their logical addresses.
fn bring_datagrams(came: &mut [u8], parsed: &Parsed<'_>)
    ensures len { length came.new ≡ length came.old }
    ensures bytes { (k : ℕ) → k < length came.old → get_or came.new k 0 ≡ unwrap_or (last_byte (65536 + k) parsed.now) (get_or came.old k 0) }
{
    let mut views = datagrams(parsed);
    'datagrams: while let Some(view) = views.next() {
        bring_datagram(came, &view);
    }
}

/// Puts what came with a frame at its logical addresses.
fn bring_frame(came: &mut [u8], frame: &Frame)
    ensures len { length came.new ≡ length came.old }
    ensures bytes { (k : ℕ) → k < length came.old → get_or came.new k 0 ≡ unwrap_or (last_byte (65536 + k) (entries_of frame.now.items)) (get_or came.old k 0) }
{
    if let Ok(parsed) = read(frame.as_slice()) {
        bring_datagrams(came, &parsed);
    }
}

/// Puts what came with frames at its logical addresses, of which the first, 0x00010000, is that of byte 0 of `came`. What lies
/// outside of it is left out.
pub fn bring(came: &mut [u8], frames: &[BoxedFrame])
    ensures len { length came.new ≡ length came.old }
    ensures bytes { (k : ℕ) → k < length came.old → get_or came.new k 0
        ≡ unwrap_or (last_byte (65536 + k) (all_entries (bytes_in frames.now))) (get_or came.old k 0) }
{
    for frame in frames {
        bring_frame(came, frame);
    }
}

/// Copies the bytes from one place up to another, where there are some.
fn copy_range(image: &mut [u8], came: &[u8], from: usize, to: usize)
    requires { length came.now ≡ length image.old }
    ensures { (k : ℕ) → get_or image.new k 0 ≡ (if nat_le from k && nat_lt k to then get_or came.now k 0 else get_or image.old k 0) }
{
    let end = to.min(image.len());
    if from < end {
        image[from..end].copy_from_slice(&came[from..end]);
    }
}

/// Copies the bytes of a record if it is one of inputs.
fn copy_inputs(image: &mut [u8], came: &[u8], fmmu: &Fmmu)
    requires within { IsWithin (length image.old) fmmu.now }
    requires same { length came.now ≡ length image.old }
    ensures { (k : ℕ) → get_or image.new k 0 ≡ (if covers (65536 + k) fmmu.now then get_or came.now k 0 else get_or image.old k 0) }
{
    if fmmu.kind == 1 {
        let from = (fmmu.logical - FIRST_ADDRESS) as usize;
        copy_range(image, came, from, from + usize::from(fmmu.len));
    }
}

/// Copies the bytes of the inputs of a slave.
fn copy_pair(image: &mut [u8], came: &[u8], pair: &[Fmmu])
    requires within { All (IsWithin (length image.old)) pair.now }
    requires same { length came.now ≡ length image.old }
    ensures { (k : ℕ) → get_or image.new k 0 ≡ (if list_any (covers (65536 + k)) pair.now then get_or came.now k 0 else get_or image.old k 0) }
{
    for fmmu in pair {
        copy_inputs(image, came, fmmu);
    }
}

/// The image, in which each byte of an input is the one that `came` has at its place; `came` is as long as the image.
///
/// # Errors
///
/// `AllocError` where memory ran out.
pub fn image_of(
    alloc: Global,
    fmmus: &[[Fmmu; 2]],
    image: &[u8],
    came: &[u8],
) -> Result<Vec<u8>, AllocError>
    requires within { AreWithin (length image.now) fmmus.now }
    requires same { length came.now ≡ length image.now }
    ensures { IfOk result (λ v. (ds : List Entry) → ((k : ℕ) → k < length image.now → get_or came.now k 0 ≡ unwrap_or (last_byte (65536 + k) ds) 0) →
        v.items ≡ map (byte_after fmmus.now image.now ds) (range_with_len 0 (length image.now))) }
{
    let mut bytes = Vec::new(alloc);
    bytes.extend_from_slice(image)?;
    for pair in fmmus {
        copy_pair(bytes.as_mut_slice(), came, pair);
    }
    Ok(bytes)
}
