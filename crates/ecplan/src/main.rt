//! ecplan: plans the cyclic frames of an EtherCAT line. The words of the command line say what to do and where the units
//! are, and the text goes to standard output. What a refusal means is told on standard error.
#![tactic(auto)]

ghost use Rattle.std.specs.Prelude.{IfOk};
ghost use Rattle.ec_cli_words.specs.Merges.{AskedFits};

mod before;
mod job;
mod merging;
mod output;
mod progress;
mod trial;
mod units;

use crate::job::{Streams, do_words};
use crate::merging::do_merging;
use crate::output::{refuse_memory, refuse_text};
use ec_cli_words::{Asked, LineFault, read_words};
use std::io::{ErrorKind, IsTerminal};
use std::os::fd::AsRawFd;
use std::process::ExitCode;
use std::{env, fs, io};

/// What is told while the units are waited for.
const WAITING: &str =
    "ecplan waits for the units on standard input, up to an end of file (Ctrl-D); or name their file as a word.\n";

/// What is told where a word isn't UTF-8, as a path may be.
const NOT_UTF_8: &str =
    "error: a word is not UTF-8\n\n  tip: rename the file, or send the units on standard input\n";

/// The words after the program's name.
fn words_of(rt: &HostRuntime) -> io::Result<Vec<String>> {
    let mut words = Vec::new(rt.alloc());
    for word in env::args(rt)?.skip(1) {
        words.push(word)?;
    }
    Ok(words)
}

/// Takes one of the numbers 0 to 2 that is free where a standard stream is closed, so that no file that is opened later
/// is taken for that stream: a read of a directory fails, and so does a write to what is opened for reading.
fn hold_number(rt: &HostRuntime) -> Option<fs::File> {
    fs::open(rt, "/").ok()
}

/// Tells a person that the units are waited for, where they come from a terminal.
fn tell_waiting(rt: &HostRuntime, units: &Option<String>) {
    if units.is_none() && rt.stdin().is_terminal() {
        let _ = rt.eprint(WAITING);
    }
}

/// What the words ask for.
fn asked_by(rt: &HostRuntime) -> Result<Asked, LineFault>
    ensures { IfOk result AskedFits }
{
    match words_of(rt) {
        Ok(words) => read_words(rt.alloc(), &words),
        Err(error) if error.kind() == ErrorKind::InvalidData => Err(LineFault::Refused {
            text: String::from_str(rt.alloc(), NOT_UTF_8)?,
        }),
        Err(_) => Err(LineFault::Memory),
    }
}

/// Reads the words, does what they say, and ends with its status.
fn main(rt: HostRuntime) -> ExitCode {
    let held = (hold_number(&rt), hold_number(&rt), hold_number(&rt));
    let streams = Streams {
        is_closed: held.0.as_ref().is_some_and(|file| file.as_raw_fd() == 0),
        shows: rt.stderr().is_terminal(),
    };
    let code = match asked_by(&rt) {
        Ok(Asked::Line(words)) => {
            tell_waiting(&rt, &words.units);
            let mut words = words;
            do_words(&rt, &mut words, streams)
        }
        Ok(Asked::Merge(merging)) => {
            tell_waiting(&rt, &merging.units);
            do_merging(&rt, &merging, streams)
        }
        Err(LineFault::Refused { text }) => refuse_text(&rt, text.as_str()),
        Err(LineFault::Memory) => refuse_memory(&rt),
    };
    ExitCode::from(code)
}
