//! What each job answers of the units and the certificate that were read: values, and no reader or writer.
#![tactic(auto)]

mod answering;
mod merges;
mod outcome;
mod plain;
mod plans;
mod resume;
mod right;
mod told;

pub use answering::answer;
pub use merges::{joined, tell_merged};
pub use plain::answer_plain;
pub use right::{Right, right_cert};
pub use told::{File, Told};
