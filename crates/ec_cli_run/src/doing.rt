//! Does what a command line says, with the paths that it names.

ghost use Rattle.std.specs.Prelude.{◌≡◌, true, false, IfOk, IfSome, None};
ghost use Rattle.ec_wire.specs.Stream.{has_failed, stream};
ghost use Rattle.ec_cli_command.specs.Words.{JobFits, cert_of, job_of, out_of, reads_cert};
ghost use Rattle.ec_cli_inputs.specs.Input.{ReadsUpTo, most_of_units};
ghost use Rattle.ec_cli_inputs.specs.Use.{used};
ghost use Rattle.ec_cli_text.specs.Output.{refused};
ghost use Rattle.ec_cli_answers.specs.Told.{HasText, IsWritable};
ghost use Rattle.ec_cli_run.specs.Runs.{AnswersLine, Tells, reported};
ghost use Rattle.ec_cli_run.specs.Sound.{LineIsTrue};

use crate::answering::tell;
use crate::delivering::write_file;
use crate::older::reason_to_keep_cert;
use crate::reporting::{Report, deliver_report};
use ec_cli_answers::{File, Told};
use ec_cli_command::{Job, Line};
use ec_cli_files::{Content, Fate, FileFault, Folders, Late, Seen, Whole};
use ec_cli_inputs::{read_alone, read_both};
use ec_cli_refusals::Refusal;
use ec_tree::{law_levels_bound, law_trees_bound};
use ec_unit_text::UnitFault;
use ec_wire::Io;
use ec_workers::Gate;
use std::alloc::{AllocError, Global};
use std::fs;
use std::io::{Read, Write};
use std::rt::Files;
use std::sync::Wait;
use std::thread::Threads;

/// What a job tells of the units and of the certificate at a path, which is opened before the units are read.
fn tell_from<R: Read, F: Files, T: Threads + Wait + Sync, G: Gate + Sync>(
    rt: &T,
    files: &F,
    alloc: Global,
    job: &Job,
    from: &String,
    units: &mut Io<R>,
    gate: &G,
) -> Result<Told, Refusal>
    requires fits { JobFits job.now }
    requires given { reads_cert job.now ≡ true }
    requires units { has_failed units.old ≡ false }
    ensures told { has_failed units.new ≡ false → IfSome (R.remaining (stream units.old)) (λ bytes. AnswersLine job.now (Some from.now) bytes result) }
    ensures read { ReadsUpTo (used R.remaining units.old units.new) most_of_units (result ≡ Err Refusal.Read) }
    ensures text { IsWritable result }
{
    let Ok(file) = fs::open(files, from.as_str()) else {
        return Err(Refusal::Read);
    };
    let mut cert = Io::new(file);
    let read = read_both(alloc, units, &mut cert);
    tell(rt, alloc, job, read, gate)
}

/// What the job of a line tells.
fn tell_line<R: Read, F: Files, T: Threads + Wait + Sync, G: Gate + Sync>(
    rt: &T,
    files: &F,
    alloc: Global,
    line: &Line,
    units: &mut Io<R>,
    gate: &G,
) -> Result<Told, Refusal>
    requires fits { JobFits (job_of line.now) }
    requires units { has_failed units.old ≡ false }
    ensures told { has_failed units.new ≡ false → IfSome (R.remaining (stream units.old)) (λ bytes. AnswersLine (job_of line.now) (cert_of line.now) bytes result) }
    ensures read { ReadsUpTo (used R.remaining units.old units.new) most_of_units (result ≡ Err Refusal.Read) }
    ensures text { IsWritable result }
{
    let job = line.job();
    match line.cert() {
        Some(from) => tell_from(rt, files, alloc, &job, from, units, gate),
        None => {
            let read = read_alone(alloc, units);
            tell(rt, alloc, &job, read, gate)
        }
    }
}

/// What the job of a line writes before its text.
fn content_of(line: &Line) -> Content {
    match line {
        Line::Frames { .. } => Content::Capture,
        Line::Cost { .. }
        | Line::Plan { .. }
        | Line::Resume { .. }
        | Line::Check { .. }
        | Line::Play { .. } => Content::Certificate,
    }
}

/// Where a certificate comes from that is to be written.
#[derive(Clone, Copy)]
pub(crate) struct Origin {
    /// What stood at the path of the one that it goes on with, if it does with one.
    pub(crate) from: Option<Seen>,
    /// Whether it has a part alone of what others have that come from the same one.
    pub(crate) is_part: bool,
}

/// What becomes of what stands at the path of a file: a certificate that says more makes no room for it, and a proof for other units lies
/// beside one that is none. The one that the search went on with, where that stands there as it was, isn't read again: nothing that goes on with
/// it says less.
fn fate_at<F: Files>(alloc: Global, origin: Origin, file: &File, whole: &Whole<'_, F>) -> Fate {
    let Origin { from, is_part } = origin;
    let File::Cert(cert) = file else {
        return Fate::Replaced;
    };
    if from.is_some() && whole.seen() == from {
        return Fate::Replaced;
    }
    match reason_to_keep_cert(alloc, whole, cert, is_part) {
        Some(why) => Fate::Kept(why),
        None if cert.level.is_some() && whole.holds_other_proof() => Fate::Old,
        None => Fate::Replaced,
    }
}

/// Writes a file, if there is one, that comes from there, and lets it take its place.
///
/// # Errors
///
/// Why it isn't there, and where it lies.
fn settle_file<F: Folders>(
    alloc: Global,
    origin: Origin,
    file: &File,
    mut late: Late<'_, F>,
) -> Result<(), FileFault>
    requires { HasText file.now }
{
    let mut out = Io::new(&mut late);
    let written = write_file(file, &mut out);
    drop(out);
    let Ok(()) = written else {
        return Err(late.give_up());
    };
    match late.finish()? {
        Some(whole) => {
            whole.settle(|whole| fate_at(alloc, origin, file, whole))?;
            Ok(())
        }
        None => Ok(()),
    }
}

/// The file at a path, if there is one, of which nothing was written yet.
pub(crate) fn late_at<'a, F: Folders>(
    files: &'a F,
    alloc: Global,
    path: Option<&String>,
    content: Content,
) -> Result<Option<Late<'a, F>>, AllocError>
    ensures { path.entry ≡ None → IfOk result (λ late. late ≡ None) }
{
    match path {
        Some(path) => Ok(Some(Late::new(files, alloc, path.as_str(), content)?)),
        None => Ok(None),
    }
}

/// Writes the file of what is told, if there is one and it has a path, that comes from there, and lets it take its place. Why it isn't
/// there.
pub(crate) fn write_late<E, F: Folders>(
    alloc: Global,
    origin: Origin,
    told: &Result<Told, E>,
    late: Option<Late<'_, F>>,
) -> Option<FileFault>
    requires { IfOk told.now (λ t. HasText t.file) }
    ensures { late.entry ≡ None → result ≡ None }
{
    match (told, late) {
        (Ok(told), Some(late)) => settle_file(alloc, origin, &told.file, late).err(),
        _ => None,
    }
}

/// Where the certificate of a line comes from.
fn origin_of<F: Files>(files: &F, line: &Line) -> Origin {
    let (from, is_part) = match line {
        Line::Resume { cert, part, .. } => (Seen::at(files, cert.as_str()), part.count > 1),
        _ => (None, false),
    };
    Origin { from, is_part }
}

/// Does what a command line says, on these units and to this text. The certificate or the capture file is at its path,
/// whole, before a byte of the text is written; where it can't be, the text is the refusal of a failed write. `gate` is told
/// before each node of a search, but for those of seeding, and asked before each piece whether the time is over.
pub fn do_line<R: Read, W: Write, F: Folders, T: Threads + Wait + Sync, G: Gate + Sync>(
    files: &F,
    wait: &T,
    alloc: Global,
    line: &Line,
    units: &mut Io<R>,
    text: &mut Io<W>,
    gate: &G,
) -> Report<Refusal>
    requires fits { JobFits (job_of line.now) }
    requires units { has_failed units.old ≡ false }
    requires text { has_failed text.old ≡ false }
    ensures truth { Tells (λ w. (w ≡ reported refused result.told result.fault) × LineIsTrue (job_of line.now) (used R.remaining units.old units.new) w) (used W.contents text.old text.new) result.status.code }
    ensures told { has_failed units.new ≡ false → IfSome (R.remaining (stream units.old)) (λ bytes. AnswersLine (job_of line.now) (cert_of line.now) bytes result.told) }
    ensures read { ReadsUpTo (used R.remaining units.old units.new) most_of_units (result.told ≡ Err Refusal.Read) }
    ensures fault { out_of line.now ≡ None → result.fault ≡ None }
{
    law_trees_bound();
    law_levels_bound();
    let origin = origin_of(files, line);
    let Ok(late) = late_at(files, alloc, line.out(), content_of(line)) else {
        let refusal = Refusal::Unit(UnitFault::OutOfMemory);
        return deliver_report(Err(refusal), None, text);
    };
    let told = tell_line(wait, files, alloc, line, units, gate);
    let fault = write_late(alloc, origin, &told, late);
    deliver_report(told, fault, text)
}
