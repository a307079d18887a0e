//! Why a job has no answer, and the line that says so.
#![tactic(auto)]

mod reason;
mod refusal;

pub use reason::refusal_line;
pub use refusal::Refusal;
