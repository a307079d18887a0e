//! Lines that are made on the stack.
#![tactic(auto)]

mod line;

pub use line::{LineText, push_bytes, push_number};
