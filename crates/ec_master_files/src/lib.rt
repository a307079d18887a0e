//! What is handed over with a plan: a C header for a master, a table of the process bytes, and a page for who brings the
//! line into service.
#![tactic(auto)]

mod cells;
mod claim;
mod facts;
mod frame_rows;
mod header;
mod laid;
mod map;
mod report;
mod seats;
mod sends;
mod slave_rows;
mod style;
mod tables;
mod types;
mod unit_rows;

pub use claim::Claim;
pub use header::header_of;
pub use map::map_of;
pub use report::report_of;
