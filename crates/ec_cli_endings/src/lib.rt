//! What is told on standard error once a job is done, and the files that are written after its text.
//!
//! Nothing is known of what stands at a path, so no clause says what is told. Where memory is wanting, or standard error takes nothing,
//! nothing is.
#![tactic(auto)]

mod after;
mod ending;
mod others;
mod own;
mod record;
mod refusal;
mod untold;

pub use after::write_after;
pub use ending::{Done, FAILED, tell_given, tell_line, tell_merged};
pub use record::Record;
pub use refusal::tell_refusal;
pub use untold::tell_untold;
