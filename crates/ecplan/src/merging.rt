//! Certificates that are merged.

ghost use Rattle.std.specs.Prelude.{◌≡◌};
ghost use Rattle.ec_cli_words.specs.Merges.{MergingFits};

use crate::before::tell_of_units;
use crate::job::Streams;
use crate::output::Output;
use crate::units::{Recorder, begin};
use ec_cert_merge::Misfit;
use ec_cli_answers::Told;
use ec_cli_endings::{Done, FAILED, tell_merged, tell_refusal, tell_untold};
use ec_cli_files::Content;
use ec_cli_paths::{Host, Target, beside_units, is_proof_at, takes_text, target_at, tell};
use ec_cli_run::{MergeFault, do_merge};
use ec_cli_spots::PathPiece;
use ec_cli_words::Merging;
use ec_wire::Io;
use std::alloc::AllocError;
use std::io::Read;

/// What to do with certificates that don't fit together.
const ONE_LINE_OF_DESCENT: &str =
    "Merge only certificates that come from one certificate: go on from one, with resume --cert PATH --part I/N.\n";

/// The path of the certificate of this number, from 1.
fn path_of(merging: &Merging, number: usize) -> Option<&String> {
    merging.certs.as_slice().get(number.saturating_sub(1))
}

/// That path, as it is told.
fn piece_of(merging: &Merging, number: usize) -> PathPiece<'_> {
    PathPiece(path_of(merging, number).map_or("", |path| path.as_str()))
}

/// Why two certificates don't fit together.
fn words_of(misfit: Misfit) -> &'static str {
    match misfit {
        Misfit::Order =>
            "They place the units in another order, as plan does with and without --strong.\n",
        Misfit::Rules =>
            "Their trees are made by other rules: certificates of version 1, of versions 2 and 3, and of version 4 (plan --strong) have rules of their own.\n",
    }
}

/// What to do where two certificates don't fit together: one of them may be a proof by itself.
fn instead_of(rt: &impl Host, merging: &Merging, number: usize) -> Result<String, AllocError> {
    for at in [1, number] {
        if path_of(merging, at).is_some_and(|path| is_proof_at(rt, path.as_str())) {
            let path = piece_of(merging, at);
            return format!(in rt.alloc(); "{path} is a proof by itself: take it alone.\n");
        }
    }
    String::from_str(rt.alloc(), ONE_LINE_OF_DESCENT)
}

/// What is told of the certificate of this number, which doesn't fit with the first. Both were judged right.
fn misfit_text(
    rt: &impl Host,
    merging: &Merging,
    number: usize,
    why: Misfit,
) -> Result<String, AllocError> {
    let (first, other) = (piece_of(merging, 1), piece_of(merging, number));
    let (words, instead) = (words_of(why), instead_of(rt, merging, number)?);
    format!(in rt.alloc();
        "The certificate {other} cannot be merged\nwith the first one, {first}.\n{words}{instead}"
    )
}

/// Tells what came of a merge, as it is told of a line.
fn tell_merge(rt: &impl Host, merging: &Merging, told: &Result<Told, MergeFault>, done: Done<'_>) {
    tell_untold(rt, done.untold);
    match told {
        Ok(told) => tell_merged(rt, told, done),
        Err(MergeFault::Refused(why)) => tell_refusal(rt, why, None, done.record),
        Err(MergeFault::Cert { number, why }) => {
            tell_refusal(rt, why, path_of(merging, *number), done.record);
        }
        Err(MergeFault::Misfit { number, why }) => {
            tell(rt, misfit_text(rt, merging, *number, *why));
        }
    }
}

/// Merges certificates for the units that a reader has, and tells what comes of it. The status.
fn merge_units<H: Host + Print, R: Read + Drop>(
    rt: &H,
    merging: &Merging,
    target: Option<Target<'_>>,
    reader: R,
) -> u8
    requires { MergingFits merging.now }
{
    let mut recorder = Recorder::new(rt.alloc(), &merging.units, reader);
    tell_of_units(rt, &merging.units, merging.out.as_deref(), None);
    let mut output = Output::new(rt, false);
    let report = do_merge(
        rt,
        rt.alloc(),
        merging.certs.as_slice(),
        merging.out.as_ref(),
        &mut Io::new(&mut recorder),
        &mut Io::new(&mut output),
    );
    let record = recorder.record();
    let units = record.units(rt.alloc());
    let done = Done {
        record,
        asked: None,
        units: units.as_ref(),
        target,
        fault: report.fault.as_ref(),
        untold: output.fault(),
        code: report.status.code,
    };
    tell_merge(rt, merging, &report.told, done);
    done.code
}

/// Whether standard output goes to a file that is merged, or to that of the units; tells that.
fn writes_to_input(rt: &impl Host, merging: &Merging) -> bool {
    takes_text(rt, merging.units.as_deref())
        || merging
            .certs
            .iter()
            .any(|path| takes_text(rt, Some(path.as_str())))
}

/// Merges the certificates that the words name, unless the file that they name as one to write is to be left as it is. The
/// status.
pub(crate) fn do_merging<H: Host + Print + Input>(rt: &H, merging: &Merging, streams: Streams) -> u8
    requires { MergingFits merging.now }
{
    let target = target_at(&merging.out, Content::Certificate).map(|target| beside_units(
        rt,
        target,
        merging.units.as_deref(),
    ));
    if writes_to_input(rt, merging) {
        return FAILED;
    }
    match begin(rt, &merging.units, &[target], streams.is_closed) {
        Ok(Some(file)) => merge_units(rt, merging, target, file),
        Ok(None) => merge_units(rt, merging, target, rt.reader()),
        Err(code) => code,
    }
}
