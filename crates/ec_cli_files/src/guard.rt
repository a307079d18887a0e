//! Files that are left as they are: those that standard output and standard error go to, and one that holds something else than what
//! would be written there.

use crate::place::are_same_file;
use crate::reading::read_front;
use ec_unit_text::{MOST_BYTES, UnitFault, read_units};
use std::alloc::Global;
use std::io::{ErrorKind, Read};
use std::rt::Files;
use std::{fs, io};

/// How a capture file begins: stamps in ns, version 2.4, frames of at most 65,535 bytes, Ethernet.
const CAPTURE: &[u8] = b"\x4D\x3C\xB2\xA1\x02\0\x04\0\0\0\0\0\0\0\0\0\xFF\xFF\0\0\x01\0\0\0";

/// The greater half of the seconds at which its first frame is sent, in the head of that record.
const SOON: &[u8] = &[0, 0];

/// How its first frame begins, behind the head of its record: to all, from the master, EtherCAT.
const FRAME: &[u8] = b"\xFF\xFF\xFF\xFF\xFF\xFF\x02\0\0\0\0\x01\x88\xA4";

/// How a map begins: its header row, to which a person who goes on with it may add a column.
const MAP: &[u8] =
    b"unit,station,direction,slot,period_ticks,phase_ticks,logical_address,image_offset_bytes,bytes,\
physical_address,group,group_counter\r\n";

/// The most bytes of how a content begins.
const MOST_FRONT: usize = 256;

/// What a path is written with.
#[derive(Clone, Copy, Debug, PartialEq, Eq)]
pub enum Content {
    Certificate,
    Capture,
    Picture,
    Units,
    Header,
    Map,
    Report,
}

impl Content {
    /// What it is called.
    pub fn as_str(self) -> &'static str {
        match self {
            Content::Certificate => "certificate",
            Content::Capture => "capture",
            Content::Picture => "picture",
            Content::Units => "text with places",
            Content::Header => "header",
            Content::Map => "map",
            Content::Report => "report",
        }
    }

    /// How it begins; a unit text may begin in any way.
    fn front(self) -> &'static [u8] {
        match self {
            Content::Certificate => b"ecplan ",
            Content::Capture => CAPTURE,
            Content::Picture => b"<svg xmlns=\"http://www.w3.org/2000/svg\" role=\"img\" ",
            Content::Units => b"",
            Content::Header => b"/* A plan of ecplan: tables for an EtherCAT master, in C99.\n",
            Content::Map => MAP,
            Content::Report => b"<!DOCTYPE html>\n<!-- A report of ecplan -->",
        }
    }
}

/// Why what stands at a path is left as it is.
#[derive(Clone, Copy, Debug, PartialEq, Eq)]
pub enum KeepReason {
    /// Standard output goes to it.
    IsOutput,
    /// Standard error goes to it.
    IsTold,
    /// It holds something else than what would be written there.
    HoldsElse,
    /// It holds a unit text without places, of which other lines would be lost.
    HasLines,
    /// It is a link, a folder or what else is no file, and came there since the path was looked at.
    IsNoFile,
    /// What it holds can't be read.
    Unreadable,
    /// Memory ran out over what it holds.
    TooLittleMemory,
    /// It holds units of another line, or a certificate for them.
    OtherLine,
    /// It holds a certificate of the same units that says more, and no proof.
    SaysMore,
    /// It holds a certificate of the same units with a higher level, whose plan costs more.
    ShowsMore,
    /// It holds a certificate of the same search that has closed what the new one leaves open.
    HasOther,
    /// It holds a proof for the same units.
    IsProof,
    /// It holds another unit text than the one that the run began with. The new file is taken away.
    Changed,
    /// It holds units of the same names, periods and bytes with places whose busiest tick costs less.
    Cheaper,
    /// It holds the units, line by line, with places whose busiest tick costs less. So it holds more than was to be written there.
    Better,
    /// It holds such units with places whose busiest tick costs as much, which may be those of a certificate that was left.
    AsCheap,
    /// It holds the units, line by line, with places whose busiest tick costs as much.
    AsGood,
    /// Other runs write to it at the same time.
    Changing,
}

impl KeepReason {
    /// Whether the new file is of no use where what stands is kept: it was made of a text that stands there no more, or says no more of the
    /// same units.
    pub fn leaves_nothing(self) -> bool {
        matches!(
            self,
            KeepReason::Changed | KeepReason::Better | KeepReason::AsGood
        )
    }

    /// What is told of it, with what to do.
    pub fn as_str(self) -> &'static str {
        match self {
            KeepReason::IsOutput => "Standard output goes to it: give another path",
            KeepReason::IsTold => "Standard error goes to it: give another path",
            KeepReason::HoldsElse => {
                "It holds something else: give another path, or take the file away first"
            }
            KeepReason::HasLines => {
                "It holds units without places, and other lines of it would be lost: give another path"
            }
            KeepReason::IsNoFile => {
                "A link, a folder or a pipe came there during the run: take it away, and move the new one there"
            }
            KeepReason::Unreadable => {
                "What it holds cannot be read: give another path, or take the file away first"
            }
            KeepReason::TooLittleMemory => {
                "Memory ran out over what it holds: give another path, or run it with more memory"
            }
            KeepReason::OtherLine => {
                "It is of another line, by the names of its units: give another path, or take the file away first"
            }
            KeepReason::SaysMore => {
                "It holds a certificate of the same units that says more: where check says that it is right, go on from it, else give another path"
            }
            KeepReason::ShowsMore => {
                "It holds a certificate of the same units with a higher level, though its plan costs more than this one: give another path, so that you have both"
            }
            KeepReason::HasOther => {
                "It holds a certificate of the same search that has closed what this one leaves open: merge both, or give another path"
            }
            KeepReason::IsProof => {
                "It holds a proof for the same units: where check says that it is right nothing better can be found, else give another path"
            }
            KeepReason::Changed => {
                "What the search began with doesn't stand there any more, so nothing is written there. The plan was told"
            }
            KeepReason::Cheaper => {
                "Its places make a busiest tick that costs less than that of this plan, as cost tells: give another path"
            }
            KeepReason::Better => {
                "Its places stay: their busiest tick costs less than that of this plan, as cost tells"
            }
            KeepReason::AsGood => {
                "Its places stay: their busiest tick costs as much as that of this plan"
            }
            KeepReason::AsCheap => {
                "Its places cost as much in their busiest tick, and may be those of the certificate that was left as it is: give another path"
            }
            KeepReason::Changing =>
                "Other runs write to it at this time: give each a path of its own",
        }
    }
}

/// Whether the front of a file has a version alone in its first line, behind `ecplan `.
fn has_version(front: &[u8]) -> bool {
    let Some(rest) = front.strip_prefix(Content::Certificate.front()) else {
        return false;
    };
    let line = rest.split(|byte| *byte == b'\n').next().unwrap_or(rest);
    let version = line.trim_ascii_end();
    !version.is_empty() && version.iter().all(u8::is_ascii_digit)
}

/// Whether the front of a file is that of a capture file, whose first frame, if it has one, a master sends within its first
/// seconds: one that was recorded has the time of a calendar.
fn is_capture(front: &[u8]) -> bool {
    let seconds = front.get(26..28).unwrap_or(SOON);
    let frame = front.get(40..54).unwrap_or(FRAME);
    front.starts_with(CAPTURE) && seconds == SOON && frame == FRAME
}

/// Whether a text begins as another one, whose lines end with a line feed, with a carriage return before it or not.
fn begins_as(text: &[u8], front: &[u8]) -> bool {
    let mut found = text.iter().filter(|byte| **byte != b'\r');
    for byte in front {
        if *byte != b'\r' && found.next() != Some(byte) {
            return false;
        }
    }
    true
}

/// Whether the file at a path begins as the content does.
fn begins<F: Files>(files: &F, path: &str, content: Content) -> io::Result<bool> {
    let mut front = [0u8; MOST_FRONT];
    let count = fs::open(files, path)?.read(&mut front)?;
    let front = &front[..count];
    Ok(match content {
        Content::Certificate => has_version(front),
        Content::Capture => is_capture(front),
        _ => begins_as(front, content.front()),
    })
}

/// Whether the file at a path is a unit text, which no longer one is than those that are read.
fn are_units<F: Files>(files: &F, alloc: Global, path: &str) -> io::Result<bool> {
    let bytes = read_front(files, alloc, path, MOST_BYTES as u64 + 1)?;
    if bytes.len() > MOST_BYTES {
        return Ok(false);
    }
    match read_units(alloc, &bytes) {
        Err(UnitFault::OutOfMemory) => Err(io::Error::from(ErrorKind::OutOfMemory)),
        read => Ok(read.is_ok()),
    }
}

/// Whether the file at a path holds such content.
fn holds<F: Files>(files: &F, alloc: Global, path: &str, content: Content) -> io::Result<bool> {
    match content {
        Content::Units => are_units(files, alloc, path),
        _ => begins(files, path, content),
    }
}

/// Why what stands at a path is left as it is and not written over. None where nothing is lost: where nothing stands
/// there, an empty file, one that holds such content, or what is no file, as a pipe (own profile).
pub fn reason_to_keep<F: Files>(
    files: &F,
    alloc: Global,
    path: &str,
    content: Content,
) -> Option<KeepReason> {
    let found = fs::metadata(files, path).ok()?;
    if !found.is_file() {
        return None;
    }
    if are_same_file(files, path, "/dev/stdout") {
        return Some(KeepReason::IsOutput);
    }
    if are_same_file(files, path, "/dev/stderr") {
        return Some(KeepReason::IsTold);
    }
    if found.len() == 0 {
        return None;
    }
    match holds(files, alloc, path, content) {
        Ok(true) => None,
        Ok(false) => Some(KeepReason::HoldsElse),
        Err(error) if error.kind() == ErrorKind::OutOfMemory => Some(KeepReason::TooLittleMemory),
        Err(_) => Some(KeepReason::Unreadable),
    }
}
