//! A modelled slave (own profile, after ETG.1000.4, clauses 5.3 and 5.4): what a frame that passes it leaves in its memory and in
//! the frame. Only `SlaveBox::new` takes memory.
#![tactic(auto)]

mod access;
mod bytes;
mod datagram;
mod fmmu;
mod idle;
mod laws;
mod logical;
mod request;
mod slave;
mod stretch;

pub use fmmu::{Direction, Fmmu, Fmmus};
pub use laws::{law_mapped_bytes, law_same_journey, law_what_passes};
pub use request::Request;
pub use slave::{Pass, SlaveBox, refill};
