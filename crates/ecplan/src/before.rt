//! What is told before a run that takes long, since it shows then already.

use ec_cli_command::Line;
use ec_cli_files::{are_one, read_file};
use ec_cli_paths::{Host, tell_other_text, tell_other_units, tell_path};
use ec_cli_places::{others_at, unfit_text};
use ec_unit_text::{MOST_BYTES, read_units};
use ec_units::Units;
use std::rt::Files;

/// What is told before the path of a text that can't have places, while a search goes on.
const UNPLACEABLE: &str =
    "A search tells its plan all the same, but the places cannot be written to";

/// The path of the certificate that a search writes, unless it takes the place of the one that it goes on with: that is one of these units,
/// or none is written.
pub(crate) fn other_cert<'a, F: Files>(files: &F, line: &'a Line) -> Option<&'a str> {
    line.effort()?;
    let out = line.out()?.as_str();
    match line.cert() {
        Some(cert) if are_one(files, cert.as_str(), out) => None,
        _ => Some(out),
    }
}

/// Tells, before a run, that a text can't have places, or that one of other units stands where it is to be written with them.
fn tell_of_places(rt: &impl Host, text: &[u8], units: &Units, to: &str) {
    if let Some(why) = unfit_text(rt.alloc(), text, units) {
        return tell_path(rt, UNPLACEABLE, to, why);
    }
    if let Some(others) = others_at(rt, rt.alloc(), to, units) {
        tell_other_text(rt, to, others);
    }
}

/// Tells, before a run that writes a certificate and a text with places to these paths, that the units at a path can't have places, and
/// that a text or a certificate of other units stands there. Nothing of units that are refused, or can't be read twice.
pub(crate) fn tell_of_units(
    rt: &impl Host,
    units: &Option<String>,
    cert: Option<&str>,
    places: Option<&String>,
) {
    let Some(path) = units.as_deref() else {
        return;
    };
    let Ok(Some(text)) = read_file(rt, rt.alloc(), path, MOST_BYTES as u64 + 1) else {
        return;
    };
    if text.len() > MOST_BYTES {
        return;
    }
    let Ok(units) = read_units(rt.alloc(), text.as_slice()) else {
        return;
    };
    if let Some(to) = places {
        tell_of_places(rt, text.as_slice(), &units, to.as_str());
    }
    if let Some(cert) = cert {
        tell_other_units(rt, cert, &units);
    }
}
