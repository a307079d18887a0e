//! A plan is played by a line of slaves of which each has a thread of its own (own profile, after ETG.1000.4, clause 5.4). Frames go
//! through rings from the calling thread to the first slave, from each slave to the next, and from the last one back.
#![tactic(auto)]

mod ahead;
mod carrying;
mod laws;
mod line;
mod playing;
mod rounds;
mod seats;
mod ticks;

pub use laws::law_same_answer;
pub use playing::play_threads;
