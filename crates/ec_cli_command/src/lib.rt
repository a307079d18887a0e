//! Jobs, and the command lines that ask for them.
#![tactic(auto)]

mod job;
mod line;

pub use job::Job;
pub use line::{Effort, Line, MOST_MINUTES, MOST_NODES, MOST_WORKERS, USUAL_NODES};
