//! Files that are read.

use std::alloc::Global;
use std::io::Read;
use std::rt::Files;
use std::{fs, io};

/// The bytes of what stands at a path, at most so many.
///
/// # Errors
///
/// Why it can't be opened or read; want of memory is one reason.
pub(crate) fn read_front<F: Files>(
    files: &F,
    alloc: Global,
    path: &str,
    most: u64,
) -> io::Result<Vec<u8>> {
    let mut bytes = Vec::new(alloc);
    fs::open(files, path)?.take(most).read_to_end(&mut bytes)?;
    Ok(bytes)
}

/// The bytes of the file at a path, at most so many; none of what is no file, as a pipe (own profile).
///
/// # Errors
///
/// Why it can't be opened or read; want of memory is one reason.
pub fn read_file<F: Files>(
    files: &F,
    alloc: Global,
    path: &str,
    most: u64,
) -> io::Result<Option<Vec<u8>>> {
    if !fs::metadata(files, path)?.is_file() {
        return Ok(None);
    }
    Ok(Some(read_front(files, alloc, path, most)?))
}
