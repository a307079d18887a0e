//! Why a file isn't at its path.

use crate::guard::KeepReason;
use std::alloc::AllocError;
use std::io;

/// Why a file that was to be written isn't at its path. What stood there before stands, but for `Unsynced`.
#[derive(Debug, Drop)]
pub enum FileFault {
    /// It couldn't be made or written whole; nothing of it is left.
    Unwritten { why: io::Error },
    /// It lies at another path, and whether it is whole isn't known: it couldn't be synced.
    Unsure { at: String, why: io::Error },
    /// It is whole and lies at another path, since it couldn't take its place.
    Aside { at: String, why: io::Error },
    /// It is whole and lies at another path, since what stands at its own is kept, for this reason.
    Kept { at: String, why: KeepReason },
    /// It is whole and lies at another path, since it has so many bytes that no command reads it, and a file stands at its
    /// own.
    TooLarge { at: String, bytes: u64 },
    /// It is whole and at its path, but whether it lasts isn't known: the folder couldn't be synced.
    Unsynced { why: io::Error },
}

impl From<AllocError> for FileFault {
    fn from(error: AllocError) -> FileFault {
        FileFault::Unwritten {
            why: io::Error::from(error),
        }
    }
}
