//! The units that a job reads: opened once its paths were looked at, and kept for what is told afterwards.

use crate::output::refuse_line;
use ec_cli_endings::{FAILED, Record};
use ec_cli_paths::{Host, Target, goes_to_output, may_write, tell_unread};
use ec_cli_refusals::Refusal;
use ec_unit_text::MOST_BYTES;
use std::alloc::Global;
use std::io::Read;
use std::{fs, io};

/// The most bytes of a unit text that are read, and one, by which a longer one shows.
const MOST_TEXT: usize = MOST_BYTES + 1;

/// What is told where the units come on standard input and that is closed.
const CLOSED: &str = "The units cannot be read: standard input is closed.\n";

/// The front of some bytes, up to a limit. Where memory runs out it keeps nothing any more.
#[derive(Drop)]
struct Front {
    bytes: Vec<u8>,
    /// How many more bytes are kept.
    room: usize,
}

impl Front {
    /// Keeps as much of these bytes as there is room for.
    fn keep(&mut self, bytes: &[u8]) {
        let count = bytes.len().min(self.room);
        match self.bytes.extend_from_slice(&bytes[..count]) {
            Ok(()) => self.room -= count,
            Err(_) => {
                self.bytes.clear();
                self.room = 0;
            }
        }
    }
}

/// A reader of units at a path, if they have one, the front of what passed through it, and why it failed at last. It reads and
/// tells what the one inside does.
#[derive(Drop)]
pub(crate) struct Recorder<'a, R> {
    path: Option<&'a str>,
    inner: R,
    front: Front,
    came: bool,
    fault: Option<io::Error>,
}

impl<'a, R> Recorder<'a, R> {
    /// This reader, of which nothing was read yet.
    pub(crate) fn new(alloc: Global, path: &'a Option<String>, inner: R) -> Recorder<'a, R> {
        Recorder {
            path: path.as_deref(),
            inner,
            front: Front {
                bytes: Vec::new(alloc),
                room: MOST_TEXT,
            },
            came: false,
            fault: None,
        }
    }

    /// What was recorded so far.
    pub(crate) fn record(&self) -> Record<'_> {
        Record {
            path: self.path,
            text: self.front.bytes.as_slice(),
            came: self.came,
            fault: self.fault,
        }
    }
}

impl<'a, R: Read> Read for Recorder<'a, R> {
    ghost remaining = { λ recorder. R.remaining recorder.inner };

    fn read(&mut self, buf: &mut [u8]) -> io::Result<usize> {
        match self.inner.read(buf) {
            Ok(count) => {
                self.came = self.came || count > 0;
                self.front.keep(&buf[..count]);
                Ok(count)
            }
            Err(error) => {
                self.fault = Some(error);
                Err(error)
            }
        }
    }
}

/// The file of the units, where they have a path; none where they come on standard input. Where they can't be opened, or
/// standard input is closed, that is refused and told: the status.
fn open_units<H: Host + Print>(
    rt: &H,
    path: &Option<String>,
    is_closed: bool,
) -> Result<Option<H::File>, u8> {
    let Some(path) = path else {
        if is_closed {
            let code = refuse_line(rt, Refusal::Read);
            let _ = rt.eprint(CLOSED);
            return Err(code);
        }
        return Ok(None);
    };
    match fs::open(rt, path.as_str()) {
        Ok(file) => Ok(Some(file)),
        Err(error) => {
            let code = refuse_line(rt, Refusal::Read);
            tell_unread(rt, path.as_str(), error);
            Err(code)
        }
    }
}

/// Opens the units as `open_units` does, once the paths to write were looked at. The status also where standard output goes to one of
/// them, or what stands at one is to be left as it is.
pub(crate) fn begin<H: Host + Print>(
    rt: &H,
    units: &Option<String>,
    targets: &[Option<Target<'_>>],
    is_closed: bool,
) -> Result<Option<H::File>, u8> {
    if goes_to_output(rt, targets) {
        return Err(FAILED);
    }
    if !may_write(rt, targets) {
        return Err(refuse_line(rt, Refusal::Write));
    }
    open_units(rt, units, is_closed)
}
