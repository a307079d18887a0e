//! What the table can't hold: bytes that are no text, texts of a megabyte, readers that never end, files and words.

ghost use Rattle.std.specs.Prelude.{Some};
ghost use Rattle.ec_cli_command.specs.Words.{IsPlain};

use ec_cli_command::Job;
use ec_cli_run::{run, run_plain};
use ec_text_builder::Draft;
use ec_wire::Io;
use ec_workers::Quiet;
use std::alloc::{AllocError, Global};
use std::io;
use std::io::Read;
use std::sync::Wait;
use std::thread::Threads;
use test_streams::Slow;

mod doing;
mod late;
mod threes;
mod words;

/// A reader that never ends, and counts what it gave.
#[derive(Drop)]
struct Endless {
    given: u64,
}

impl Read for Endless {
    fn read(&mut self, buf: &mut [u8]) -> io::Result<usize> {
        for byte in buf.iter_mut() {
            *byte = b'#';
        }
        self.given = self.given.saturating_add(buf.len() as u64);
        Ok(buf.len())
    }
}

/// Adds bytes as text.
fn add_bytes(out: &mut Draft, bytes: &[u8]) {
    match std::str::from_utf8(bytes) {
        Ok(text) => out.add(text),
        Err(_) => out.add("no text\n"),
    }
}

/// Adds what a cost or a check of these units writes, where the certificate never ends, and its status.
fn add_plain(out: &mut Draft, alloc: Global, job: &Job, bytes: &[u8])
    requires { IsPlain job.now }
{
    let mut units = Io::new(bytes);
    let mut cert = Io::new(Endless { given: 0 });
    let mut held = Slow {
        held: Vec::new(alloc),
        calls: 99_999,
    };
    let mut text = Io::new(&mut held);
    let nowhere: Option<&mut Io<io::Sink>> = None;
    let from = Some(&mut cert);
    let status = run_plain(alloc, job, &mut units, from, &mut text, nowhere);
    drop(text);
    add_bytes(out, held.held.as_slice());
    out.add(format_args!("status {}\n", status.code));
}

/// Adds what a plan writes whose units never end, with its status and the bytes that were read.
fn add_endless(out: &mut Draft, rt: &(impl Threads + Wait + Sync), alloc: Global) {
    let mut endless = Endless { given: 0 };
    let mut units = Io::new(&mut endless);
    let mut held = Slow {
        held: Vec::new(alloc),
        calls: 99,
    };
    let mut text = Io::new(&mut held);
    let none: Option<&mut Io<io::Empty>> = None;
    let nowhere: Option<&mut Io<io::Sink>> = None;
    let job = Job::Plan {
        workers: 1,
        nodes: 9,
        strong: false,
        keep: false,
    };
    let status = run(
        rt, alloc, &job, &mut units, none, &mut text, nowhere, &Quiet,
    );
    drop(units);
    drop(text);
    add_bytes(out, held.held.as_slice());
    out.add(format_args!("status {}, {} bytes read\n", status.code, endless.given));
}

/// A unit with its place.
const ONE: &str =
    "tick_ns = 1000000\nslots = 1\n[[unit]]\nname = \"a\"\nperiod = 1\nphase = 0\nslot = 0\n[[unit.slave]]\nstation = 1001\nout_bytes = 4\nin_bytes = 0\n";

/// Its text, with line feeds up to this length.
fn long_text(bytes: &mut Vec<u8>, length: usize) -> Result<(), AllocError> {
    bytes.extend_from_slice(ONE.as_bytes())?;
    bytes.resize(length, b'\n')
}

/// Adds what a cost of its text of this length writes.
fn add_long(out: &mut Draft, alloc: Global, length: usize) {
    let mut bytes = Vec::new(alloc);
    match long_text(&mut bytes, length) {
        Ok(()) => add_plain(out, alloc, &Job::Cost, bytes.as_slice()),
        Err(AllocError) => out.give_up(),
    }
}

/// What is told of bytes that are no text, of the greatest text and of a longer one, of a certificate without end and of
/// units without end.
fn told(rt: &(impl Threads + Wait + Sync), alloc: Global) -> Result<String, AllocError> {
    let mut out = Draft::new(alloc);
    add_plain(&mut out, alloc, &Job::Cost, b"tick_ns = \xFF");
    add_long(&mut out, alloc, 1_048_576);
    add_long(&mut out, alloc, 1_048_577);
    add_plain(&mut out, alloc, &Job::Check, ONE.as_bytes());
    add_endless(&mut out, rt, alloc);
    out.finish()
}

const SHOWN: &str = "refused U2 NotToml\nstatus 3\n\
    hyperperiod 1\ntick 0 bytes 84 ns 6720\nbusiest 84 at 0\nfits yes\nstatus 0\n\
    refused E1 TooLarge\nstatus 3\n\
    refused C9 TooLarge\nstatus 3\n\
    refused E1 TooLarge\nstatus 3, 1048577 bytes read\n";

#[test]
fn texts_that_no_row_holds(rt: HostRuntime) -> Result<(), AllocError> {
    let told = told(&rt, rt.alloc())?;
    assert_eq!(rt; told.as_str(), SHOWN);
    Ok(())
}
