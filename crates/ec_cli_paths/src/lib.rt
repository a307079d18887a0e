//! The paths that a run reads and writes: looked at before it begins, and what is told of them on standard error.
//!
//! Nothing is known of what stands at a path, so no clause says what is told. Where memory is wanting, or standard error takes nothing,
//! nothing is.
#![tactic(auto)]

mod heads;
mod inputs;
mod onward;
mod targets;
mod telling;

pub use heads::{is_proof_at, tell_other_text, tell_other_units};
pub use inputs::takes_text;
pub use onward::{replaced_at, tell_onward};
pub use targets::{
    Target, Targets, beside_units, goes_to_output, may_write, target_at, targets_of, try_targets,
};
pub use telling::{Host, reason_at, tell, tell_fault, tell_path, tell_unread, tell_whole};
