//! Certificates as texts, written and read: a text has exactly one meaning.
#![tactic(auto)]

mod buffer;
mod digits;
mod fault;
mod groups;
mod head;
mod indexes;
mod law;
mod lines;
mod nodes;
mod place;
mod reading;
mod spelled;
mod weights;
mod words;
mod writing;

pub use fault::CertFault;
pub use law::{law_faults_stay, law_fronts_are_early, law_one_text_each};
pub use reading::{MOST_BYTES, read_cert};
pub use writing::write_cert;
