//! Readers and writers for tests, which fail at a call.
#![tactic(auto)]

mod streams;

pub use streams::{FailsAt, Slow};
