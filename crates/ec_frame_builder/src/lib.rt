//! The frames that carry a plan over the wire: those that are sent before the first tick, and in each tick one for each slot that
//! carries something.
#![tactic(auto)]

mod frames;
mod image;
mod start;

pub use frames::{busy_slots, rewrite_frame, tick_frames};
pub use image::sent_of;
pub use start::start_frames;
