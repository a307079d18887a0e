//! How a file gets what the one has that it replaces, and how it lasts.

use crate::place::{Identity, NO_ENTRY, folder_of};
use std::fs::OpenFile;
use std::io::ErrorKind;
use std::os::unix::fs::{MetadataExt, lchown};
use std::rt::Files;
use std::{fs, io};

/// Gives a new file the owner and the mode of the file at a path, where one stands there. Nothing else gets that owner that came to
/// stand at the new file's name.
pub(crate) fn dress<F: Files>(files: &F, file: &F::File, name: &str, path: &str) -> io::Result<()> {
    let old = match fs::metadata(files, path) {
        Ok(old) => old,
        Err(error) if error.kind() == ErrorKind::NotFound => return Ok(()),
        Err(error) => return Err(error),
    };
    let new = file.metadata()?;
    if new.uid() != old.uid() || new.gid() != old.gid() {
        if Identity::of(&fs::symlink_metadata(files, name)?) != Identity::of(&new) {
            return Err(io::Error::from_raw_os_error(NO_ENTRY));
        }
        lchown(files, name, Some(old.uid()), Some(old.gid()))?;
    }
    if new.mode() != old.mode() {
        file.set_permissions(old.permissions())?;
    }
    Ok(())
}

/// Makes sure that what was renamed in the folder of a path is on the disk. There is nothing to do where the folder may not be
/// read, or its file system knows no sync of folders.
pub(crate) fn sync_folder<F: Files>(files: &F, path: &str) -> io::Result<()> {
    let Ok(folder) = fs::open(files, folder_of(path)) else {
        return Ok(());
    };
    match folder.sync_all() {
        Err(error) if error.kind() == ErrorKind::InvalidInput => Ok(()),
        synced => synced,
    }
}
