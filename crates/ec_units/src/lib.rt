//! Sync units: the types that keep every limit.
#![tactic(auto)]

mod name;
mod slave;
mod unit;
mod units;

pub use name::{Name, is_name, is_name_byte};
pub use slave::{Place, Slave, Slaves};
pub use unit::{Load, Unit, UnitList};
pub use units::{Units, bytes_of};
