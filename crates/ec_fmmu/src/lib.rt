//! Where the process bytes of a plan lie in logical memory, and the FMMU records that map them into the memory of the
//! slaves (ETG.1000.4, clause 6.6).
#![tactic(auto)]

mod fmmu;
mod group;
mod law;
mod mapping;
mod next;
mod seat;

pub use fmmu::{Fmmu, Fmmus, fmmu_bytes};
pub use group::{Group, Groups};
pub use law::law_addresses_in_order;
pub use mapping::{Mapping, layout};
pub use seat::{FIRST_ADDRESS, Key, Seat, expected};
