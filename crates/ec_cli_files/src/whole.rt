//! A file that is whole, and what stands where it is to be.

use crate::aside::{Fate, set_aside};
use crate::fault::FileFault;
use crate::folders::Folders;
use crate::guard::{Content, KeepReason, reason_to_keep};
use crate::head::{MOST_HEAD, is_proof, units_said};
use crate::place::{Identity, NO_ENTRY, folder_of, take_away};
use crate::reading::read_front;
use crate::settling::sync_folder;
use ec_cert_text::MOST_BYTES;
use std::alloc::Global;
use std::io::ErrorKind;
use std::os::unix::fs::MetadataExt;
use std::rt::Files;
use std::{fs, io};

/// How often what stands at a path is judged, where other runs write to it.
const MOST_LOOKS: usize = 8;

/// Which file stands at a path, how long it is in bytes, and when it was written last: one that is equal is the same file with the
/// same bytes.
#[derive(Clone, Copy, Debug, PartialEq, Eq)]
pub struct Seen {
    file: Identity,
    bytes: u64,
    seconds: i64,
    nanoseconds: i64,
}

impl Seen {
    /// What stands at a path; none where nothing does (own profile).
    pub fn at<F: Files>(files: &F, path: &str) -> Option<Seen> {
        let found = fs::metadata(files, path).ok()?;
        Some(Seen {
            file: Identity::of(&found),
            bytes: found.len(),
            seconds: found.mtime(),
            nanoseconds: found.mtime_nsec(),
        })
    }
}

/// A file that is whole and on the disk, under a name beside the path where it is to be. What may take long is done: so what stands
/// at the path can be judged just before the file takes its place.
#[derive(Drop)]
pub struct Whole<'a, F: Files> {
    pub(crate) files: &'a F,
    pub(crate) alloc: Global,
    pub(crate) content: Content,
    pub(crate) path: String,
    pub(crate) name: String,
    /// The file of that name.
    pub(crate) made: Identity,
    pub(crate) bytes: u64,
}

/// Whether a file that isn't empty stands at a path.
fn is_filled<F: Files>(files: &F, path: &str) -> bool {
    fs::metadata(files, path).is_ok_and(|found| found.len() > 0)
}

impl<'a, F: Files> Whole<'a, F> {
    /// What stands at the path now; none where nothing does.
    pub fn seen(&self) -> Option<Seen> {
        Seen::at(self.files, self.path.as_str())
    }

    /// The bytes of the file that stands at the path, up to so many; none where no file stands there.
    ///
    /// # Errors
    ///
    /// Why they can't be read.
    pub fn standing(&self, most: u64) -> io::Result<Option<Vec<u8>>> {
        match read_front(self.files, self.alloc, self.path.as_str(), most) {
            Ok(bytes) => Ok(Some(bytes)),
            Err(error) if error.kind() == ErrorKind::NotFound => Ok(None),
            Err(error) => Err(error),
        }
    }

    /// Why what stands at the path is kept, whatever the new file says: also a link or what is no file, which came there since the path
    /// was looked at.
    fn own_reason(&self) -> Option<KeepReason> {
        let path = self.path.as_str();
        let found = fs::symlink_metadata(self.files, path).ok()?;
        if !found.is_file() {
            return Some(KeepReason::IsNoFile);
        }
        reason_to_keep(self.files, self.alloc, path, self.content)
    }

    /// Whether the new file is gone from its name, or another one stands there.
    fn is_lost(&self) -> bool {
        match fs::symlink_metadata(self.files, self.name.as_str()) {
            Ok(found) => Identity::of(&found) != self.made,
            Err(error) => matches!(error.kind(), ErrorKind::NotFound | ErrorKind::NotADirectory),
        }
    }

    /// Whether the certificate that stands at the path, if one does, is a proof for other units than the new one. Also where one of them
    /// can't be read.
    pub fn holds_other_proof(&self) -> bool {
        let older = match self.standing(MOST_HEAD) {
            Ok(Some(older)) => older,
            Ok(None) => return false,
            Err(_) => return true,
        };
        if !is_proof(&older) {
            return false;
        }
        match read_front(self.files, self.alloc, self.name.as_str(), MOST_HEAD) {
            Ok(newer) => units_said(&older) != units_said(&newer),
            Err(_) => true,
        }
    }

    /// Leaves the file beside its path, where what stands there is kept for this reason. What was made of a text that stands there no
    /// more is taken away, and what says no more of the same units.
    fn leave(self, why: KeepReason) -> FileFault {
        if why.leaves_nothing() {
            let _ = take_away(self.files, self.name.as_str(), self.made);
        }
        FileFault::Kept { at: self.name, why }
    }
}

impl<'a, F: Folders> Whole<'a, F> {
    /// Lets the file take its place, unless what stands there is kept: for a reason of its own, or by what `judge` says becomes of it.
    /// Where another file came there while it was judged, that one is judged, too: between the last look and the new name no other run
    /// of this program puts one there, where the folder can be held. The folder is synced after that. The name under which that lies which
    /// made room, if it lies somewhere.
    ///
    /// # Errors
    ///
    /// Why it isn't there, and where it lies.
    pub fn settle<J: Fn(&Whole<'a, F>) -> Fate>(self, judge: J) -> Result<Option<String>, FileFault>
        requires judge { (f : _) (x : _) → J.pre f x }
    {
        for _ in 0..MOST_LOOKS {
            let seen = self.seen();
            let fate = match self.own_reason() {
                Some(why) => Fate::Kept(why),
                None => judge(&self),
            };
            if let Fate::Kept(why) = fate {
                return Err(self.leave(why));
            }
            let held = self.files.hold(folder_of(self.path.as_str()));
            if self.is_lost() {
                let why = io::Error::from_raw_os_error(NO_ENTRY);
                return Err(FileFault::Unwritten { why });
            }
            if self.seen() == seen {
                return self.take_place(held, fate == Fate::Old);
            }
        }
        Err(self.leave(KeepReason::Changing))
    }

    /// Lets the file take its place, and then syncs the folder, which is held no longer. What stands there lies beside it then, if it
    /// `is_old`. One that no command reads doesn't take the place of another.
    fn take_place(self, held: Option<F::Held>, is_old: bool) -> Result<Option<String>, FileFault> {
        let Whole {
            files,
            alloc,
            content,
            path,
            name,
            bytes,
            ..
        } = self;
        let path = path.as_str();
        if content == Content::Certificate && bytes > MOST_BYTES as u64 && is_filled(files, path) {
            return Err(FileFault::TooLarge { at: name, bytes });
        }
        let old = if is_old {
            match set_aside(files, alloc, path) {
                Ok(old) => Some(old),
                Err(why) => return Err(FileFault::Aside { at: name, why }),
            }
        } else {
            None
        };
        let renamed = fs::rename(files, name.as_str(), path);
        drop(held);
        if let Err(why) = renamed {
            if let Some(old) = old {
                let _ = fs::remove_file(files, old.as_str());
            }
            return Err(FileFault::Aside { at: name, why });
        }
        match sync_folder(files, path) {
            Ok(()) => Ok(old),
            Err(why) => Err(FileFault::Unsynced { why }),
        }
    }
}
