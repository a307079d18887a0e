//! Files that are written whole or not at all: each is made beside its path, and takes its place there once it is whole.
//!
//! Nothing that stood there before is lost: it is kept where it holds something else than what is written, and it stands
//! until a whole file takes its place.
#![tactic(auto)]

mod aside;
mod fault;
mod folders;
mod guard;
mod head;
mod late;
mod names;
mod place;
mod reading;
mod settling;
mod whole;

pub use aside::Fate;
pub use fault::FileFault;
pub use folders::Folders;
pub use guard::{Content, KeepReason, reason_to_keep};
pub use head::{MOST_HEAD, has_level, is_proof};
pub use late::{Late, make_whole, write_whole};
pub use names::{Others, names_in, others_by, unit_names};
pub use place::{are_one, are_same_file, is_no_file};
pub use reading::read_file;
pub use whole::{Seen, Whole};
