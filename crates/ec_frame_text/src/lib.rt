//! What is told of the frames of a plan: the lines of the FMMU records and of each tick's frames, and the same frames as
//! a capture file.
#![tactic(auto)]

mod capture;
mod hex;
mod lines;
mod stations;
mod ticks;

pub use capture::{capture_head, capture_of, push_record};
pub use ec_outcome::TextFault;
pub use lines::{blank, frames_text};
pub use stations::stations_of;
