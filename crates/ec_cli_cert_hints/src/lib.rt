//! Faults of a certificate explained in sentences: of its text, of other units, of its plan, of a node of its tree.
#![tactic(auto)]

mod certs;
mod checks;
mod due;
mod leaves;
mod others;

pub use certs::tell_cert;
pub use checks::{tell_check, tell_no_plan};
