//! Bytes and time on the wire, and readers and writers whose faults are remembered.
#![tactic(auto)]

mod io;
mod wire;

pub use io::{Io, IoFault, WriteFault};
pub use wire::{BYTE_NS, LEAST_PAYLOAD, OVERHEAD, fits, frame_raw, frame_wire, ns_of};
