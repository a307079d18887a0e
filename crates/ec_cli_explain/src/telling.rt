//! What is told of each refusal.

use ec_cli_cert_hints::{tell_cert, tell_check, tell_no_plan};
use ec_cli_refusals::Refusal;
use ec_cli_spots::{Bytes, CertName, Doc, Inputs};
use ec_cli_toml_hints::{add_marked, tell_large, tell_not_toml};
use ec_cli_unit_hints::{tell_illegal, tell_no_place, tell_units};
use ec_outcome::{PlayFault, SolveFault};
use ec_text_builder::Draft;
use ec_unit_text::UnitFault;
use std::alloc::{AllocError, Global};

/// Adds why the system refused, if that is known.
fn add_reason(out: &mut Draft, inputs: &Inputs<'_>) {
    if let Some(reason) = inputs.reason {
        out.add(format_args!(": {}", Bytes(reason.as_bytes(), 80)));
    }
    out.add(".\n");
}

/// Tells what couldn't be read, and why.
fn tell_read(out: &mut Draft, inputs: &Inputs<'_>) {
    match inputs.cert_path {
        Some(_) => out.add(format_args!("{} cannot be read", CertName(inputs.cert_path))),
        None => out.add("The units cannot be read from standard input"),
    }
    add_reason(out, inputs);
}

/// Tells that a file couldn't be written, and why.
fn tell_write(out: &mut Draft, inputs: &Inputs<'_>) {
    out.add("The file cannot be written");
    add_reason(out, inputs);
    out.add("Give a path in a folder that is there and can be written.\n");
}

/// Tells what is refused, of units that are this document.
fn tell(out: &mut Draft, inputs: &Inputs<'_>, doc: Doc<'_>, refusal: Refusal) {
    match refusal {
        Refusal::Unit(UnitFault::NotToml) => tell_not_toml(out, inputs.units, doc.top.err()),
        Refusal::Unit(fault) => tell_units(out, doc, fault),
        Refusal::Illegal(illegal) => tell_illegal(out, doc, illegal),
        Refusal::TooLarge => tell_large(out, doc.text),
        Refusal::NoPlace(unit) => tell_no_place(out, doc, unit),
        Refusal::Read => tell_read(out, inputs),
        Refusal::Cert(fault) => tell_cert(out, inputs, fault),
        Refusal::Check(fault) => tell_check(out, inputs, doc, fault),
        Refusal::Solve(SolveFault::OutOfMemory) => out.add(
            "Memory ran out before the search began. Run it with more memory, or with fewer workers.\n",
        ),
        Refusal::Solve(SolveFault::Spawn) => out.add(
            "No thread could be started for a worker. Run it with --workers 1, which needs none.\n",
        ),
        Refusal::Write => tell_write(out, inputs),
        Refusal::CertHasNoPlan => tell_no_plan(out, doc.alloc, inputs),
        Refusal::Play(PlayFault::OutOfMemory) => out.add(
            "Memory ran out over the frames or the slaves. Run it with more memory.\n",
        ),
        Refusal::Play(PlayFault::Ring) => out.add(
            "No ring of frames could be made between two threads, or one was lost. Run it again, with more memory.\n",
        ),
        Refusal::Play(PlayFault::Spawn) => out.add(
            "No thread could be started for a slave: a play takes one for each of at most 16 slaves. Run it where that many may be started.\n",
        ),
        // Modelled slaves leave no faulty frame.
        Refusal::Play(
            PlayFault::Counter { .. }
            | PlayFault::Frame(_)
            | PlayFault::StartCounter { .. }
            | PlayFault::Reply { .. },
        ) => {}
    }
}

/// Whether a refusal hangs on what the units say.
fn is_of_units(refusal: &Refusal) -> bool {
    matches!(
        refusal,
        Refusal::Unit(_)
            | Refusal::Illegal(_)
            | Refusal::NoPlace(_)
            | Refusal::Check(_)
            | Refusal::CertHasNoPlan
    )
}

/// What there is to tell of a refusal, in a few sentences, each a line. Names, keys, values and the letters of a line are quoted as they
/// stand; of a control character and of another sign the bytes are told, as `\x1b`. Where the inputs aren't those of the refusal, or are
/// missing, less is told. Only want of memory is an error (own profile).
pub(crate) fn remarks(
    alloc: Global,
    refusal: &Refusal,
    inputs: &Inputs<'_>,
) -> Result<String, AllocError> {
    let text = String::from_utf8_lossy(alloc, inputs.units)?;
    let parsed = toml::table_from_slice(alloc, inputs.units);
    let doc = Doc::of(alloc, text.as_str(), &parsed);
    let mut out = Draft::new(alloc);
    if is_of_units(refusal) {
        add_marked(&mut out, doc.text);
    }
    tell(&mut out, inputs, doc, *refusal);
    out.finish()
}
