//! What is told on standard error of paths.

use crate::targets::Target;
use ec_cert_text::MOST_BYTES;
use ec_cli_explain::shown_text;
use ec_cli_files::{Content, FileFault, Folders, KeepReason};
use ec_cli_spots::PathPiece;
use std::alloc::{AllocError, Global};
use std::fmt::Display;
use std::io::ErrorKind;
use std::{fs, io};

/// A runtime that reads and writes files, gives memory, and writes to standard error.
pub trait Host: Folders + AllocGlobal + Eprint {}

impl<R: Folders + AllocGlobal + Eprint> Host for R {}

/// The system's number of an error: to give a file to another user or group isn't permitted.
const NOT_PERMITTED: i32 = 1;

/// A folder or a file gives no access.
const NO_ACCESS: i32 = 13;

/// Why no file can be made beside a path: each name that is tried is taken.
const NO_NAME: &str =
    "A file for each name that is tried lies beside it, from .part to .part999: take away those that nobody needs";

/// Why nothing can be read from the word that stands for standard input elsewhere.
const NO_STREAM: &str = "No such file, since - stands for standard input for the units alone";

/// A name is too long.
const LONG_NAME: i32 = 36;

/// Tells some sentences, with nothing in them but what a terminal shows as it stands.
pub fn tell(rt: &impl Host, sentences: Result<String, AllocError>) {
    let Ok(sentences) = sentences else {
        return;
    };
    if let Ok(text) = shown_text(rt.alloc(), sentences.as_str()) {
        let _ = rt.eprint(text.as_str());
    }
}

/// Why the system refuses to read or to write a path; of a link that leads nowhere that it is one, of a word that is no path that it is
/// none, and where no name is free for a new file that this is so.
pub fn reason_at(rt: &impl Host, path: &str, why: io::Error) -> Result<String, AllocError> {
    let leads_nowhere = fs::symlink_metadata(rt, path).is_ok() && fs::metadata(rt, path).is_err();
    if why.kind() == ErrorKind::NotFound && leads_nowhere {
        return String::from_str(rt.alloc(), "It is a link to a file that isn't there");
    }
    if why.kind() == ErrorKind::NotFound && path == "-" {
        return String::from_str(rt.alloc(), NO_STREAM);
    }
    if why.kind() == ErrorKind::AlreadyExists && why.raw_os_error().is_none() {
        return String::from_str(rt.alloc(), NO_NAME);
    }
    why.to_string(rt.alloc())
}

/// Tells that the units at a path can't be read, and why.
pub fn tell_unread(rt: &impl Host, path: &str, why: io::Error) {
    if let Ok(reason) = reason_at(rt, path, why) {
        tell_path(rt, "The units cannot be read from", path, reason);
    }
}

/// What is told beside why the system refuses to write a path, where its words alone don't say what to do.
pub(crate) fn more_on(why: io::Error) -> &'static str {
    match why.raw_os_error() {
        Some(NOT_PERMITTED) =>
            "The file that stands there has an owner or a group that this user cannot give to a new one, or it may not be replaced at all.\n",
        Some(NO_ACCESS) =>
            "Its folder has to be writable, since it is made there first, and so has the file, if one is there.\n",
        Some(LONG_NAME) => "While it is made .part stands behind its name: give a shorter one.\n",
        _ => "",
    }
}

/// Tells a sentence that ends with a path, and in a line of its own why.
pub fn tell_path<W: Display + Drop>(rt: &impl Host, words: &str, path: &str, why: W) {
    let path = PathPiece(path);
    tell(rt, format!(in rt.alloc(); "{words} {path}.\n{why}.\n"));
}

/// That a whole file lies at a path.
fn whole_text(alloc: Global, content: Content, path: &str) -> Result<String, AllocError> {
    let (name, path) = (content.as_str(), PathPiece(path));
    format!(in alloc; "The {name} is whole and lies at {path}.\n")
}

/// Tells that a whole file lies at its path. What is no file, as a pipe, isn't told.
pub fn tell_whole(rt: &impl Host, target: Target<'_>) {
    let Target { path, content, .. } = target;
    if fs::metadata(rt, path).is_ok_and(|found| found.is_file()) {
        tell(rt, whole_text(rt.alloc(), content, path));
    }
}

/// Why a new file, which is whole, doesn't take the place of what stands at its path.
fn kept_since(why: KeepReason) -> &'static str {
    match why {
        KeepReason::HoldsElse =>
            "That holds something else: move the new one over it, if nothing of it is needed",
        KeepReason::Unreadable => {
            "What that holds cannot be read: move the new one over it, if nothing of it is needed"
        }
        _ => why.as_str(),
    }
}

/// Why a file isn't at its path, and where it lies.
fn fault_text(rt: &impl Host, target: Target<'_>, fault: &FileFault) -> Result<String, AllocError> {
    let (alloc, content) = (rt.alloc(), target.content);
    let (name, path) = (content.as_str(), PathPiece(target.path));
    match fault {
        FileFault::Unwritten { why } => {
            let (reason, more) = (reason_at(rt, target.path, *why)?, more_on(*why));
            format!(in alloc; "The {name} cannot be written to {path}.\n{reason}.\n{more}")
        }
        FileFault::Unsure { at, why } => {
            let at = PathPiece(at.as_str());
            format!(in alloc;
                "The {name} lies at {at}, and may not be whole: it cannot be synced, {why}.\nIt does not take the place of {path}.\n"
            )
        }
        FileFault::Aside { at, why } => {
            let (lies, more) = (whole_text(alloc, content, at.as_str())?, more_on(*why));
            format!(in alloc; "{lies}It cannot take the place of {path}: {why}.\n{more}")
        }
        FileFault::Kept { at, why } => {
            let (lies, why) = (whole_text(alloc, content, at.as_str())?, kept_since(*why));
            format!(in alloc; "{lies}It does not take the place of {path}.\n{why}.\n")
        }
        FileFault::TooLarge { at, bytes } => {
            let lies = whole_text(alloc, content, at.as_str())?;
            format!(in alloc;
                "{lies}It has {bytes} bytes, and at most {MOST_BYTES} are read.\nIt does not take the place of {path}.\n"
            )
        }
        FileFault::Unsynced { why } => {
            format!(in alloc;
                "The {name} is whole and lies at {path}.\nIt may be lost if the power fails now, since its folder cannot be synced: {why}.\n"
            )
        }
    }
}

/// Tells why a file isn't at its path, and where it lies.
pub fn tell_fault(rt: &impl Host, target: Target<'_>, fault: &FileFault) {
    tell(rt, fault_text(rt, target, fault));
}
