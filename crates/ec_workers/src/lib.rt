//! The planner: a plan whose busiest tick is least, with a certificate.
#![tactic(auto)]

mod begin;
mod certify;
mod crewed;
mod keeping;
mod planning;
mod resuming;
mod room;
mod solving;
mod unfinished;

pub use begin::rules_by;
pub use certify::lines_of;
pub use ec_outcome::{Cut, Outcome, SolveFault};
pub use ec_search_threads::{Gate, Quiet};
pub use keeping::solve_kept;
pub use resuming::solve_from;
pub use solving::solve;
pub use unfinished::partial;
