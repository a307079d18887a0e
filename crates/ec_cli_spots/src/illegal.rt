//! Plans that are not legal.

use crate::inputs::Doc;
use crate::label::Named;
use ec_loads::Illegal;
use ec_text_builder::Draft;

/// Adds why a plan isn't legal.
pub fn add_illegal(out: &mut Draft, doc: Doc<'_>, illegal: Illegal) {
    match illegal {
        Illegal::WrongCount => out.add("It has not one place for each unit.\n"),
        Illegal::PhaseRange(unit) => out.add(format_args!(
            "The phase that it gives is not below the period: {}.\n",
            Named(doc, unit, None)
        )),
        Illegal::SlotRange(unit) => out.add(format_args!(
            "The slot that it gives is not one of the slots of the file: {}.\n",
            Named(doc, unit, None)
        )),
        Illegal::Full { tick, slot, bytes } => out.add(format_args!(
            "Too much travels in one frame: in tick {tick} slot {slot} has {bytes} bytes, 12 for each datagram counted, and a frame carries at most 1498.\n"
        )),
    }
}
