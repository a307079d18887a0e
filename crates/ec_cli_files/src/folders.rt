//! Folders that are held, so that no two runs put a file into one of them at the same time.

use std::fs::TryLockError;
use std::rt::Files;
use std::{fs, thread};

/// How often a folder is tried that another run holds, which it does for one call of the system.
const MOST_TRIES: usize = 10_000;

/// Files whose folders a run can hold.
pub trait Folders: Files {
    /// What holds a folder as long as it is there.
    type Held: Drop;

    /// Holds a folder against other runs that hold it, too, but not against other programs. None where that can't be, as on some
    /// network file systems, or where another one doesn't let go of it (own profile).
    fn hold(&self, folder: &str) -> Option<Self::Held>;
}

impl Folders for HostRuntime {
    type Held = fs::File;

    fn hold(&self, folder: &str) -> Option<fs::File> {
        let file = fs::open(self, folder).ok()?;
        for _ in 0..MOST_TRIES {
            match file.try_lock() {
                Ok(()) => return Some(file),
                Err(TryLockError::WouldBlock) => thread::yield_now(),
                Err(TryLockError::Error(_)) => return None,
            }
        }
        None
    }
}
