//! Frames that went through a line of slaves.

ghost use Rattle.std.specs.Prelude.{◌≡◌, length};

use ec_player::{BoxedFrame, Trip};

/// Frames as they are sent, each with the working counters that are wanted of its datagrams, and as they come back.
#[derive(Drop)]
pub struct Round {
    pub trips: Vec<Trip>,
    pub backs: Vec<BoxedFrame>,
    pub ghost each: { length backs.items ≡ length trips.items },
}
