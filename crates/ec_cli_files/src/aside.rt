//! What becomes of a file whose place a new one is to take, and the name that it gets where it makes room.

use crate::guard::KeepReason;
use crate::place::{MOST_NAMES, write_name};
use std::alloc::Global;
use std::io::ErrorKind;
use std::rt::Files;
use std::{fs, io};

/// What becomes of the file that stands at a path once a new one is whole.
#[derive(Clone, Copy, Debug, PartialEq, Eq)]
pub enum Fate {
    /// The new one takes its place.
    Replaced,
    /// The new one takes its place, and it lies beside it: under the first free name of `PATH.old`, `PATH.old2` and so on.
    Old,
    /// It stays, for this reason.
    Kept(KeepReason),
}

/// Gives the file at a path such a name, too, so that it stands at its path until another file takes its place there. The name.
pub(crate) fn set_aside<F: Files>(files: &F, alloc: Global, path: &str) -> io::Result<String> {
    let mut name = String::new(alloc);
    for count in 1..=MOST_NAMES {
        write_name(&mut name, path, ".old", count)?;
        match fs::hard_link(files, path, name.as_str()) {
            Err(error) if error.kind() == ErrorKind::AlreadyExists => {}
            Err(error) => return Err(error),
            Ok(()) => return Ok(name),
        }
    }
    Err(io::Error::from(ErrorKind::AlreadyExists))
}
