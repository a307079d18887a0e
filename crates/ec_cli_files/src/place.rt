//! Where the bytes for a path go.

use std::alloc::{AllocError, Global};
use std::fmt::Write as _;
use std::io::ErrorKind;
use std::os::unix::fs::MetadataExt;
use std::path::Path;
use std::rt::Files;
use std::{fs, io};

/// The system's number for a path at which nothing stands.
pub(crate) const NO_ENTRY: i32 = 2;

/// Where the bytes for a path go.
#[derive(Drop)]
pub(crate) enum Place {
    /// Into a new file beside this path, which takes its place once it is whole.
    Beside { path: String },
    /// Straight to what stands at this path and is no file, as a pipe.
    Straight { path: String },
    /// Nowhere: nothing can be written there.
    Nowhere { why: io::Error },
}

/// The path of the file that a path or a link leads to, where one stands there or may be made there, and what else stands
/// there.
fn find_place<F: Files>(files: &F, alloc: Global, path: &str) -> io::Result<Place> {
    if path.is_empty() {
        return Err(io::Error::from_raw_os_error(NO_ENTRY));
    }
    let named = String::from_str(alloc, path)?;
    let itself = match fs::symlink_metadata(files, path) {
        Ok(found) => found,
        Err(error) if error.kind() == ErrorKind::NotFound => {
            return Ok(Place::Beside { path: named });
        }
        Err(error) => return Err(error),
    };
    let found = fs::metadata(files, path)?;
    if found.is_dir() {
        return Err(io::Error::from(ErrorKind::IsADirectory));
    }
    if !found.is_file() {
        return Ok(Place::Straight { path: named });
    }
    fs::OpenOptions::new().write(true).open(files, path)?;
    if itself.is_symlink() {
        let path = files.canonicalize(alloc, path)?.into_string();
        return Ok(Place::Beside { path });
    }
    Ok(Place::Beside { path: named })
}

impl Place {
    /// Where the bytes for a path go, unless memory runs out. A link to a file stands for the file that it leads to; one that
    /// leads nowhere, a folder, and a file that may not be written can't be written.
    pub(crate) fn of<F: Files>(files: &F, alloc: Global, path: &str) -> Result<Place, AllocError> {
        match find_place(files, alloc, path) {
            Ok(place) => Ok(place),
            Err(why) if why.kind() == ErrorKind::OutOfMemory => Err(AllocError),
            Err(why) => Ok(Place::Nowhere { why }),
        }
    }

    /// The path beside which a file is made, if one is.
    pub(crate) fn beside(&self) -> Option<&str> {
        match self {
            Place::Beside { path } => Some(path.as_str()),
            Place::Straight { .. } | Place::Nowhere { .. } => None,
        }
    }
}

/// The most names that are tried for a file beside a path.
pub(crate) const MOST_NAMES: u32 = 999;

/// Writes the name of this number for a file beside a path: `PATH.part`, `PATH.part2` and so on, where `.part` is the ending.
pub(crate) fn write_name(
    name: &mut String,
    path: &str,
    ending: &str,
    count: u32,
) -> Result<(), AllocError> {
    name.clear();
    if count == 1 {
        write!(name, "{path}{ending}")
    } else {
        write!(name, "{path}{ending}{count}")
    }
}

/// The folder of a path.
pub(crate) fn folder_of(path: &str) -> &str {
    match Path::new(path).parent() {
        Some(folder) if !folder.as_str().is_empty() => folder.as_str(),
        _ => ".",
    }
}

/// Whether what stands at a path is there and is no file, as a pipe or a device: what it had can't be read there once more (own
/// profile).
pub fn is_no_file<F: Files>(files: &F, path: &str) -> bool {
    fs::metadata(files, path).is_ok_and(|found| !found.is_file())
}

/// Which file something is, whatever its names are.
#[derive(Clone, Copy, Debug, PartialEq, Eq)]
pub(crate) struct Identity {
    dev: u64,
    ino: u64,
}

impl Identity {
    /// That of what these metadata are of.
    pub(crate) fn of(found: &fs::Metadata) -> Identity {
        Identity {
            dev: found.dev(),
            ino: found.ino(),
        }
    }
}

/// Takes the file of a name away, if it is this one, or can't be looked at: what another program put there in its place stays.
pub(crate) fn take_away<F: Files>(files: &F, name: &str, made: Identity) -> io::Result<()> {
    match fs::symlink_metadata(files, name) {
        Ok(found) if Identity::of(&found) != made => Ok(()),
        _ => fs::remove_file(files, name),
    }
}

/// Whether two paths lead to one file or folder that is there (own profile).
pub fn are_same_file<F: Files>(files: &F, one: &str, other: &str) -> bool {
    match (fs::metadata(files, one), fs::metadata(files, other)) {
        (Ok(one), Ok(other)) => Identity::of(&one) == Identity::of(&other),
        _ => false,
    }
}

/// Whether two paths have one name in one folder, whatever stands there.
fn are_same_name<F: Files>(files: &F, one: &str, other: &str) -> bool {
    Path::new(one).file_name() == Path::new(other).file_name()
        && are_same_file(files, folder_of(one), folder_of(other))
}

/// Whether two paths to write are one file, however they are spelled and whatever links lead there; two names of one file are one.
/// What is no file may be written with both (own profile).
pub fn are_one<F: Files>(files: &F, one: &str, other: &str) -> bool {
    !is_no_file(files, one)
        && (one == other || are_same_file(files, one, other) || are_same_name(files, one, other))
}
