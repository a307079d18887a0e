//! EtherCAT frames and their datagrams (ETG.1000.4, clauses 5.3 and 5.4): the command table, `build`,
//! `parse` and a walk over the datagrams of a frame. What is written is read as the same datagrams, and
//! each fault comes exactly where its condition holds. Nothing here takes memory.
#![tactic(auto)]

mod command;
mod laws;
mod reading;
mod writing;

pub use command::{
    AddressKind, Command, address_kind, code_of, command_of, name_of, reads, writes,
};
pub use laws::{law_one_reading, law_written_is_read};
pub use reading::{FrameFault, Parsed, View, Views, datagrams, parse};
pub use writing::{BuildFault, Datagram, Frame, build, rebuild};
