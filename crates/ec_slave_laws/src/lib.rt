//! What modelled slaves make of a frame, datagram by datagram: a frame of some datagrams stays one of as many.
#![tactic(auto)]

mod law;

pub use law::law_datagrams_pass;
