//! Reading the inputs of a job: units and certificates, each whole and up to a limit.
#![tactic(auto)]

mod input;

pub use input::{Given, Inputs, cert_text, read_all, read_alone, read_both};
