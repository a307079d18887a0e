//! Merges certificates, with the paths that are named.

ghost use Rattle.std.specs.Prelude.{◌≡◌, ◌≤◌, ℕ, List, false, length, IfOk, IfErr, IfSome, None, Ok as OkOf};
ghost use Rattle.ec_wire.specs.Stream.{has_failed, stream};
ghost use Rattle.ec_units.specs.Load.{loads_of};
ghost use Rattle.ec_loads.specs.Held.{no_places};
ghost use Rattle.ec_cert.specs.Shapes.{cert_view};
ghost use Rattle.ec_cli_inputs.specs.Input.{AnswersUnits, ReadsUpTo, most_of_units};
ghost use Rattle.ec_cli_inputs.specs.Use.{used};
ghost use Rattle.ec_cli_text.specs.Output.{shown};
ghost use Rattle.ec_cli_answers.specs.Merged.{IsMergeWritten};
ghost use Rattle.ec_cert_merge.specs.Certs.{IsProven};
ghost use Rattle.ec_cli_answers.specs.Told.{HasText, file_bytes};
ghost use Rattle.ec_cli_run.specs.Merging.{HandsMerge, IsMergeFault, IsNoCert, IsTrueMerge, IsUnmerged, MergeTellsTruth, unmerged};
ghost use Rattle.ec_cli_run.specs.Runs.{Tells, reported};

use crate::doing::{Origin, late_at, write_late};
use crate::job::{Status, refuse};
use crate::misfits::refuse_misfit;
use crate::reporting::{Reason, Report, deliver_report};
use ec_cert::Cert;
use ec_cert_merge::Misfit;
use ec_checker::CheckFault;
use ec_cli_answers::{Told, joined, right_cert, tell_merged};
use ec_cli_files::{Content, Folders, Seen, are_same_file};
use ec_cli_inputs::{cert_text, read_alone};
use ec_cli_refusals::Refusal;
use ec_loads::Loads;
use ec_tree::law_levels_bound;
use ec_unit_text::UnitFault;
use ec_units::Units;
use ec_wire::Io;
use std::alloc::Global;
use std::fs;
use std::io::{Read, Write};
use std::rt::Files;

/// Why certificates aren't merged. Their numbers are from 1.
#[derive(Clone, Copy, Debug, PartialEq, Eq)]
pub enum MergeFault {
    /// The units are refused, or memory ran out.
    Refused(Refusal),
    /// A certificate is refused, as a check refuses it.
    Cert { number: usize, why: Refusal },
    /// A certificate doesn't fit with the first.
    Misfit { number: usize, why: Misfit },
}

impl From<Refusal> for MergeFault {
    ghost use Rattle.std.specs.Prelude.{◌≡◌};
    ghost use Rattle.ec_cli_run.specs.declared.merging.MergeFault.TheVariants.{Refused};

    ghost from_gives = { λ r why. why ≡ Refused r };

    fn from(why: Refusal) -> MergeFault {
        MergeFault::Refused(why)
    }
}

impl Reason for MergeFault {
    ghost line = { unmerged };

    fn refuse<W: Write>(self, text: &mut Io<W>) -> Status {
        match self {
            MergeFault::Refused(why) => refuse(why, text),
            MergeFault::Cert { why, .. } => refuse(why, text),
            MergeFault::Misfit { number, why } => refuse_misfit(why, number, text),
        }
    }
}

/// The certificate at a path, to which the checker says yes.
fn cert_at<F: Files>(
    files: &F,
    alloc: Global,
    loads: &mut Loads,
    units: &Units,
    path: &str,
) -> Result<Cert, Refusal>
    requires empty { loads.old ≡ record { loads = loads_of units.now.units; slots = units.now.slots; places = no_places (loads_of units.now.units) } }
    ensures same { loads.new ≡ loads.old }
    ensures right { IfOk result (λ cert. IsProven units.now.units units.now.slots (cert_view cert)) }
    ensures err { IfErr result (IsNoCert units.now) }
{
    let Ok(file) = fs::open(files, path) else {
        return Err(Refusal::Read);
    };
    let text = cert_text(alloc, &mut Io::new(file))?;
    Ok(right_cert(alloc, loads, units, text)?.cert)
}

/// What some certificates and the one at a path, which is of this number, show together.
fn merge_at<F: Files>(
    files: &F,
    alloc: Global,
    loads: &mut Loads,
    units: &Units,
    merged: Cert,
    path: &str,
    number: usize,
) -> Result<Cert, MergeFault>
    requires empty { loads.old ≡ record { loads = loads_of units.now.units; slots = units.now.slots; places = no_places (loads_of units.now.units) } }
    requires merged { IsProven units.now.units units.now.slots (cert_view merged) }
    requires number { 2 ≤ number }
    ensures same { loads.new ≡ loads.old }
    ensures right { IfOk result (λ cert. IsProven units.now.units units.now.slots (cert_view cert)) }
    ensures err { (count : ℕ) → number ≤ count → IfErr result (IsUnmerged units.now count) }
{
    let next = match cert_at(files, alloc, loads, units, path) {
        Ok(next) => next,
        Err(why) => return Err(MergeFault::Cert { number, why }),
    };
    match joined(units, merged, next) {
        Ok(both) => Ok(both),
        Err(why) => Err(MergeFault::Misfit { number, why }),
    }
}

/// What the certificates at some paths show together.
fn merge_all<F: Files>(
    files: &F,
    alloc: Global,
    loads: &mut Loads,
    units: &Units,
    paths: &[String],
) -> Result<Cert, MergeFault>
    requires some { 1 ≤ length paths.now }
    requires empty { loads.old ≡ record { loads = loads_of units.now.units; slots = units.now.slots; places = no_places (loads_of units.now.units) } }
    ensures same { loads.new ≡ loads.old }
    ensures right { IfOk result (λ cert. IsProven units.now.units units.now.slots (cert_view cert)) }
    ensures err { IfErr result (IsUnmerged units.now (length paths.now)) }
{
    let mut merged = match cert_at(files, alloc, loads, units, paths[0].as_str()) {
        Ok(first) => first,
        Err(why) => return Err(MergeFault::Cert { number: 1, why }),
    };
    for at in 1..paths.len() {
        merged = merge_at(
            files,
            alloc,
            loads,
            units,
            merged,
            paths[at].as_str(),
            at + 1,
        )?;
    }
    Ok(merged)
}

/// What is told of the certificates at some paths, merged.
fn merge_for<F: Files>(
    files: &F,
    alloc: Global,
    units: &Units,
    paths: &[String],
) -> Result<Told, MergeFault>
    requires some { 1 ≤ length paths.now }
    ensures told { (bytes : List ℕ) → AnswersUnits (OkOf units.now) bytes → IfOk result (λ t. IsMergeWritten bytes (shown t.answer) (file_bytes t.file)) }
    ensures hands { (bytes : List ℕ) → AnswersUnits (OkOf units.now) bytes → IfOk result (HandsMerge bytes) }
    ensures text { IfOk result (λ t. HasText t.file) }
    ensures err { IfErr result (IsUnmerged units.now (length paths.now)) }
{
    let Ok(mut loads) = Loads::new(alloc, units) else {
        return Err(MergeFault::Refused(Refusal::Check(CheckFault::OutOfMemory)));
    };
    let cert = merge_all(files, alloc, &mut loads, units, paths)?;
    Ok(tell_merged(alloc, units, &mut loads, cert)?)
}

/// What is told of the certificates at some paths, merged for the units that the reader has.
fn tell_merge<R: Read, F: Files>(
    files: &F,
    alloc: Global,
    paths: &[String],
    units: &mut Io<R>,
) -> Result<Told, MergeFault>
    requires some { 1 ≤ length paths.now }
    requires units { has_failed units.old ≡ false }
    ensures truth { has_failed units.new ≡ false → IfSome (R.remaining (stream units.old)) (λ bytes. IsTrueMerge bytes result) }
    ensures err { has_failed units.new ≡ false → IfSome (R.remaining (stream units.old)) (λ bytes. IfErr result (IsMergeFault bytes (length paths.now))) }
    ensures read { ReadsUpTo (used R.remaining units.old units.new) most_of_units (result ≡ Err (MergeFault.Refused Refusal.Read)) }
    ensures text { IfOk result (λ t. HasText t.file) }
{
    law_levels_bound();
    let inputs = read_alone(alloc, units)?;
    merge_for(files, alloc, &inputs.units, paths)
}

/// What stands at the path of the merged certificate before the others are read, if it is one of those: what is merged says no less.
fn seen_among<F: Files>(files: &F, paths: &[String], out: Option<&String>) -> Option<Seen> {
    let out = out?.as_str();
    for path in paths {
        if are_same_file(files, path.as_str(), out) {
            return Seen::at(files, out);
        }
    }
    None
}

/// Merges the certificates at some paths, of which there is at least one, for the units that the reader has, and tells what they show
/// together, as a search tells it. The units are read first, then each certificate in turn, and only the units and what was merged so far
/// are held. The merged certificate is at the path `out`, if there is one, whole, before a byte of the text is written, so it may take the
/// place of one of the others; where it can't be there, the text is the refusal of a failed write.
///
/// # Errors
///
/// In the report: that the units are refused, or that a read of them failed; a certificate that can't be read or that a check refuses,
/// with its number, from 1; one that doesn't fit with what those before it show; or that memory ran out.
pub fn do_merge<R: Read, W: Write, F: Folders>(
    files: &F,
    alloc: Global,
    paths: &[String],
    out: Option<&String>,
    units: &mut Io<R>,
    text: &mut Io<W>,
) -> Report<MergeFault>
    requires some { 1 ≤ length paths.now }
    requires units { has_failed units.old ≡ false }
    requires text { has_failed text.old ≡ false }
    ensures truth { Tells (λ w. (w ≡ reported unmerged result.told result.fault) × MergeTellsTruth (used R.remaining units.old units.new) w) (used W.contents text.old text.new) result.status.code }
    ensures told { has_failed units.new ≡ false → IfSome (R.remaining (stream units.old)) (λ bytes. IsTrueMerge bytes result.told) }
    ensures err { has_failed units.new ≡ false → IfSome (R.remaining (stream units.old)) (λ bytes. IfErr result.told (IsMergeFault bytes (length paths.now))) }
    ensures read { ReadsUpTo (used R.remaining units.old units.new) most_of_units (result.told ≡ Err (MergeFault.Refused Refusal.Read)) }
    ensures fault { out.entry ≡ None → result.fault ≡ None }
{
    let origin = Origin {
        from: seen_among(files, paths, out),
        is_part: true,
    };
    let Ok(late) = late_at(files, alloc, out, Content::Certificate) else {
        let refusal = Refusal::Unit(UnitFault::OutOfMemory);
        return deliver_report(Err(MergeFault::Refused(refusal)), None, text);
    };
    let told = tell_merge(files, alloc, paths, units);
    let fault = write_late(alloc, origin, &told, late);
    deliver_report(told, fault, text)
}
