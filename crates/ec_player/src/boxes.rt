//! Frames in boxes, which are filled again.

ghost use Rattle.std.specs.Prelude.{◌≡◌, ◌++◌, map, IfOk, OnOk};

use crate::trips::Trip;
use ec_frames::Frame;
use ec_slave::refill;
use std::alloc::{AllocError, Global};
use std::boxed::Box;

/// A frame in a box. A move of it moves a pointer alone.
pub type BoxedFrame = Box<Frame>;

/// A box to be filled, one of those to spare if there is one.
pub(crate) fn any_box(
    alloc: Global,
    spare: &mut Vec<BoxedFrame>,
) -> Result<BoxedFrame, AllocError> {
    if let Some(old) = spare.pop() {
        return Ok(old);
    }
    match Box::new(alloc, Frame::new()) {
        Ok(new) => Ok(new),
        Err(_) => Err(AllocError),
    }
}

/// A frame with the same bytes in a box, one of those to spare if there is one.
///
/// # Errors
///
/// `AllocError` where memory ran out.
pub fn boxed(
    alloc: Global,
    spare: &mut Vec<BoxedFrame>,
    frame: &Frame,
) -> Result<BoxedFrame, AllocError>
    ensures { IfOk result (λ b. b.value.items ≡ frame.now.items) }
{
    let mut held = any_box(alloc, spare)?;
    refill(&mut held, frame.as_slice());
    Ok(held)
}

/// Keeps the boxes of what was sent to spare.
///
/// # Errors
///
/// `AllocError` where memory ran out. Then those that are left are given back to it.
pub fn keep_trips(spare: &mut Vec<BoxedFrame>, trips: Vec<Trip>) -> Result<(), AllocError>
    ensures { OnOk result (spare.new.items ≡ spare.old.items ++ map (λ trip. trip.frame) trips.items) }
{
    for trip in trips {
        spare.push(trip.frame)?;
    }
    Ok(())
}

/// Keeps the boxes of what came back to spare.
///
/// # Errors
///
/// `AllocError` where memory ran out. Then those that are left are given back to it.
pub fn keep_backs(spare: &mut Vec<BoxedFrame>, backs: Vec<BoxedFrame>) -> Result<(), AllocError>
    ensures { OnOk result (spare.new.items ≡ spare.old.items ++ backs.items) }
{
    for back in backs {
        spare.push(back)?;
    }
    Ok(())
}
