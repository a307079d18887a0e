//! Certificates as texts, in scripts on one line with a bar for each line feed.

ghost use Rattle.std.specs.Prelude.{IsTrue, None};
ghost use Rattle.std.specs.Option.{ForSome};
ghost use Rattle.ec_cert.specs.Shapes.{cert_view};
ghost use Rattle.ec_cert.specs.WellFormed.{IsWellFormed};
ghost use Rattle.ec_workers.specs.Outcomes.{IsPartialCert};

use crate::call::Call;
use crate::texts::{add_lines, add_unbarred};
use ec_cert::{Cert, Tree, split_of, well_formed};
use ec_cert_text::{read_cert, write_cert};
use ec_checker::check;
use ec_text_builder::Draft;
use ec_units::Units;
use ec_wire::Io;
use std::alloc::{AllocError, Global};
use std::io::{ErrorKind, Write};
use std::{io, mem};

/// Two units of 200 bytes, one every second and one every third tick: 19 lines, 128 bytes.
const EXAMPLE: &str =
    "ecplan 1\nslots 1\nunit a 200 2\nunit b 200 3\norder 0 1\nvalue 464\nplace 0 0\nplace 0 0\ntree\nS 2\nS 3\nT 0\nT 4\nT 2\nS 3\nT 3\nT 1\nT 5\nend\n";

/// A writer into a text, with bars for line feeds, that takes at most three bytes at a time, and fails where it has no
/// room.
#[derive(Drop)]
struct Slow<'a> {
    text: &'a mut Draft,
    room: usize,
}

impl<'a> Write for Slow<'a> {
    ghost contents = { λ _. None };

    fn write(&mut self, buf: &[u8]) -> io::Result<usize> {
        if self.room == 0 {
            return Err(io::Error::from(ErrorKind::BrokenPipe));
        }
        let count = buf.len().min(3).min(self.room);
        self.room -= count;
        for byte in &buf[..count] {
            self.text.add(if *byte == b'\n' {
                '|'
            } else {
                char::from(*byte)
            });
        }
        Ok(count)
    }

    fn flush(&mut self) -> io::Result<()> {
        Ok(())
    }
}

/// Adds what a writer with room for so many bytes gets of a certificate.
pub(crate) fn add_written(out: &mut Draft, cert: &Cert, room: usize) {
    if !well_formed(cert) {
        return out.add("not well formed");
    }
    let mut slow = Io::new(Slow {
        text: &mut *out,
        room,
    });
    let is_whole = write_cert(cert, &mut slow).is_ok();
    drop(slow);
    if !is_whole {
        out.add(" failed");
    }
}

/// Adds what the checker answers of a certificate.
pub(crate) fn add_verdict(out: &mut Draft, alloc: Global, units: &Units, cert: &Cert) {
    let verdict = check(alloc, units, cert);
    out.add(format_args!("{verdict:?}"));
}

/// Whether a certificate shows no more than a level, so that a search can go on with it; else adds what the checker
/// answers of it.
fn goes_on(out: &mut Draft, alloc: Global, units: &Units, cert: &Cert) -> bool
    requires { IsWellFormed (cert_view cert.now) }
    ensures { IsTrue result → IsPartialCert units.now.units units.now.slots (cert_view cert.now) }
{
    match check(alloc, units, cert) {
        Ok(verdict) => match cert.level {
            Some(_) => true,
            None => {
                out.add(format_args!("Ok({verdict:?})"));
                false
            }
        },
        Err(fault) => {
            out.add(format_args!("Err({fault:?})"));
            false
        }
    }
}

/// The certificate of a text, with bars, with which a search can go on; else adds what reading or the checker answers.
pub(crate) fn resumable(out: &mut Draft, alloc: Global, units: &Units, barred: &str) -> Option<Cert>
    ensures { ForSome result (λ cert. IsPartialCert units.now.units units.now.slots (cert_view cert)) }
{
    let mut text = Draft::new(alloc);
    add_unbarred(&mut text, barred);
    let Ok(text) = text.finish() else {
        out.give_up();
        return None;
    };
    let cert = read_cert(alloc, text.as_bytes());
    drop(text);
    match cert {
        Ok(cert) => if goes_on(out, alloc, units, &cert) {
            Some(cert)
        } else {
            drop(cert);
            None
        },
        Err(fault) => {
            out.add(format_args!("{fault:?}"));
            None
        }
    }
}

/// Adds the example, with the lines from `first` to `last` replaced by `new`.
fn add_edited(text: &mut Draft, first: usize, last: usize, new: &str) {
    let first = first.saturating_sub(1);
    for (i, line) in EXAMPLE.lines().enumerate() {
        if i == first {
            add_unbarred(text, new);
        }
        if i < first || last <= i {
            text.add(line);
            text.add('\n');
        }
    }
}

/// Puts so many splits of one child each above a tree, which may be more than a text can have.
fn raise(alloc: Global, tree: &mut Tree, splits: usize) -> Result<(), AllocError> {
    for _ in 0..splits.min(60) {
        let mut children = Vec::new(alloc);
        children.push(mem::replace(tree, Tree::OpenLeaf))?;
        *tree = split_of(alloc, children)?;
    }
    Ok(())
}

/// Adds a text that a call makes: the first bytes of the example, the example with a tab for a byte, or twice; a
/// certificate of so many splits below one another, of so many units, or so many spaces.
fn add_made(text: &mut Draft, alloc: Global, call: Call<'_>) {
    let count = call.index(1).min(70_000_000);
    match call.name() {
        "front" => text.add(EXAMPLE.get(..count).unwrap_or(EXAMPLE)),
        "tab" => {
            text.add(EXAMPLE.get(..count).unwrap_or(EXAMPLE));
            text.add('\t');
            text.add(EXAMPLE.get(count + 1..).unwrap_or(""));
        }
        "twice" => {
            text.add(EXAMPLE);
            text.add(EXAMPLE);
        }
        "splits" => {
            text.add("ecplan 1\nslots 1\nunit a 4 1\norder 0\nvalue none\ntree\n");
            add_lines(text, alloc, "S 1\n", count);
            text.add("F 0 0\nend\n");
        }
        "units" => {
            text.add("ecplan 1\nslots 8\n");
            add_lines(text, alloc, "unit a 1486 60\n", count);
        }
        _ => add_lines(text, alloc, " ", count),
    }
}

/// Adds a certificate of 219,661 nodes: three units of 1 byte every 60 ticks, all placed in each branch, and each leaf
/// closed by the tick of the first unit; those of the last phase by this tick.
fn add_wide(text: &mut Draft, last: u32) {
    text.add("ecplan 1\nslots 1\nunit a 1 60\nunit b 1 60\nunit c 1 60\norder 0 1 2\nvalue 84\n");
    text.add("place 0 0\nplace 0 0\nplace 0 0\ntree\nS 60\n");
    for leaf in 0..216_000u32 {
        if leaf % 3600 == 0 {
            text.add("S 60\n");
        }
        if leaf % 60 == 0 {
            text.add("S 60\n");
        }
        let phase = leaf / 3600;
        let tick = if phase < 59 { phase } else { last };
        text.add(format_args!("T {tick}\n"));
    }
    text.add("end\n");
}

/// Adds the text that a call is about.
fn add_text(text: &mut Draft, alloc: Global, call: Call<'_>) {
    match call.name() {
        "read" | "check" => add_unbarred(text, call.after(1)),
        "write" | "tower" => add_unbarred(text, call.after(2)),
        "example" => text.add(EXAMPLE),
        "wide" => add_wide(text, call.count(1)),
        "lines" | "judge" => add_edited(text, call.index(1), call.index(2), call.after(3)),
        _ => add_made(text, alloc, call),
    }
}

/// Adds what a call about this certificate answers.
fn judge(out: &mut Draft, alloc: Global, units: &Units, call: Call<'_>, cert: &mut Cert) {
    match call.name() {
        "write" | "example" => add_written(out, cert, call.index(1)),
        "check" | "wide" | "judge" => add_verdict(out, alloc, units, cert),
        "tower" => match raise(alloc, &mut cert.tree, call.index(1)) {
            Ok(()) => add_verdict(out, alloc, units, cert),
            Err(_) => out.give_up(),
        },
        _ => out.add("right"),
    }
}

/// Adds what a call about this text answers.
fn read(out: &mut Draft, alloc: Global, units: &Units, call: Call<'_>, text: &[u8]) {
    match read_cert(alloc, text) {
        Ok(mut cert) => {
            judge(out, alloc, units, call, &mut cert);
            drop(cert);
        }
        Err(fault) => out.add(format_args!("{fault:?}")),
    }
}

/// Adds what a call about certificates answers: `read TEXT`, `write ROOM TEXT`, `check TEXT`; `lines FIRST LAST TEXT`
/// and `judge FIRST LAST TEXT` read and check the example with these lines replaced, `example ROOM` writes it; `wide
/// LAST` checks one of many nodes, `tower SPLITS TEXT` one with so many splits more; any other name reads a text that
/// it makes.
pub(crate) fn answer(alloc: Global, units: &Units, call: Call<'_>, out: &mut Draft) {
    let mut text = Draft::new(alloc);
    add_text(&mut text, alloc, call);
    match text.finish() {
        Ok(text) => read(out, alloc, units, call, text.as_bytes()),
        Err(_) => out.give_up(),
    }
}
