//! A plan is played: start frames and the frames of each tick go through a line of slaves, and each frame that comes back is judged
//! (own profile, after ETG.1000.4, clause 5.4).
#![tactic(auto)]

mod boxes;
mod faults;
mod images;
mod journeys;
mod judging;
mod playing;
mod rows;
mod trips;

pub use boxes::{BoxedFrame, boxed, keep_backs, keep_trips};
pub use ec_frame_builder::{start_frames, tick_frames};
pub use ec_outcome::PlayFault;
pub use ec_slave::{Pass, SlaveBox};
pub use faults::{Stage, Wrong};
pub use images::{bring, image_of};
pub use journeys::{judge_trip, pass_all};
pub use playing::{Played, play_plain, row_of};
pub use rows::{Counters, Rows, TickRow};
pub use trips::{Trip, start_trips, tick_trips};
