//! What the program writes: the lines of a cost, of a plan, of a certificate, of frames and of a play.
#![tactic(auto)]

mod answer;
mod cost;
mod frames;
mod outcome;
mod placing;
mod play;
mod verdict;

pub use answer::Answer;
pub use cost::plan_cost;
pub use frames::{Captured, plan_capture, plan_frames};
pub use outcome::outcome_answer;
pub use placing::placed_plan;
pub use play::{Alone, Player, Together};
pub use verdict::verdict_answer;
