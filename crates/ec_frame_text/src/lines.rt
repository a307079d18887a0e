//! The whole text of the frames of a plan.

ghost use Rattle.std.specs.Prelude.{◌≡◌, ◌++◌, string_bytes, IfOk, OnOk};
ghost use Rattle.std.specs.List.{flat_map, range_with_len};
ghost use Rattle.ec_units.specs.Views.{units_view};
ghost use Rattle.ec_frame_builder.specs.Frames.{HasLayout};
ghost use Rattle.ec_frame_text.specs.Lines.{zeros, tick_lines, frames_text as text_of};

use crate::stations::{push_fmmus, stations_of};
use crate::ticks::push_tick;
use ec_fmmu::Mapping;
use ec_outcome::TextFault;
use ec_units::Units;
use std::alloc::{AllocError, Global};

/// An image of zeros: a byte for each process byte of the layout.
///
/// # Errors
///
/// `AllocError` where memory ran out.
pub fn blank(alloc: Global, mapping: &Mapping) -> Result<Vec<u8>, AllocError>
    ensures { IfOk result (λ v. v.items ≡ zeros mapping.now) }
{
    vec![in alloc; 0u8; mapping.total as usize]
}

/// Adds the lines of the frames of each tick.
fn push_ticks(
    alloc: Global,
    text: &mut String,
    units: &Units,
    mapping: &Mapping,
    image: &[u8],
    ticks: u32,
) -> Result<(), TextFault>
    requires layout { HasLayout units.now mapping.now }
    requires image { image.now ≡ zeros mapping.now }
    ensures { OnOk result (string_bytes text.new ≡ string_bytes text.old ++ flat_map (tick_lines mapping.now units.now.slots) (range_with_len 0 ticks)) }
{
    for tick in 0..ticks {
        push_tick(alloc, text, units, mapping, image, tick)?;
    }
    Ok(())
}

/// The text of a plan with this layout: two lines for each slave with its FMMU records, `fmmu STATION K HEX`, and a line
/// for each frame of each tick below the hyperperiod, `frame T SLOT WIRE HEX`, by slot, with data zero. `WIRE` is what the
/// frame takes on the wire in bytes (IEEE 802.3). Two hex digits in lower case for each byte.
///
/// # Errors
///
/// `TextFault` where memory ran out.
pub fn frames_text(alloc: Global, units: &Units, mapping: &Mapping) -> Result<String, TextFault>
    requires { HasLayout units.now mapping.now }
    ensures { IfOk result (λ text. string_bytes text ≡ text_of (units_view units.now) mapping.now) }
{
    let Ok(image) = blank(alloc, mapping) else {
        return Err(TextFault::Frames);
    };
    let stations = stations_of(alloc, units.units.as_slice())?;
    let mut text = String::new(alloc);
    push_fmmus(&mut text, stations.as_slice(), mapping.fmmus.as_slice())?;
    let ticks = units.hyper().ticks();
    push_ticks(alloc, &mut text, units, mapping, image.as_slice(), ticks)?;
    Ok(text)
}
