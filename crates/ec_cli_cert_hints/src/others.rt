//! A certificate of other units: which unit differs, and how.

use crate::due::CertText;
use ec_cli_spots::{Bytes, Doc, Fields, Named, Quoted, bytes_of};
use ec_text_builder::{Amount, Draft};
use ec_unit_text::Key;

/// A unit by its name, its bytes and its period.
type Listed<'a> = (&'a str, i128, i64);

/// The unit of the file with this number, from 0.
fn our_unit(doc: Doc<'_>, unit: usize) -> Option<Listed<'_>> {
    let table = doc.unit(Some(unit));
    let bytes = bytes_of(doc.slaves(Some(unit)));
    Some((table.text(Key::Name)?, bytes, table.number(Key::Period)?))
}

/// The unit of a certificate with this number, from 0.
fn cert_unit(cert: CertText<'_>, unit: usize) -> Option<Listed<'_>> {
    let line = cert.line(unit.saturating_add(2))?;
    let mut words = line.strip_prefix("unit ")?.split(' ');
    let name = words.next()?;
    let bytes = words.next()?.parse::<i64>().ok()?;
    let period = words.next()?.parse::<i64>().ok()?;
    Some((name, i128::from(bytes), period))
}

/// The unit of a certificate with this name.
fn cert_named<'a>(cert: CertText<'a>, name: &str) -> Option<Listed<'a>> {
    let mut units = (0..cert.units).filter_map(|unit| cert_unit(cert, unit));
    units.find(|unit| unit.0 == name)
}

/// Whether file and certificate have the same units, in whatever order.
fn have_same_units(doc: Doc<'_>, cert: CertText<'_>) -> bool {
    let count = doc.units().len();
    let mut units = (0..count).map(|unit| our_unit(doc, unit));
    count == cert.units
        && units.all(|ours| ours.is_some_and(|ours| cert_named(cert, ours.0) == Some(ours)))
}

/// The line of the certificate that says the slots, where the file says other ones.
fn other_slots<'a>(doc: Doc<'_>, cert: CertText<'a>) -> Option<&'a str> {
    let line = cert.line(1)?;
    let slots = line
        .strip_prefix("slots ")
        .unwrap_or("")
        .parse::<i64>()
        .ok();
    Some(line).filter(|_| slots != doc.top().number(Key::Slots))
}

/// Adds that the certificate has a unit which the file has not.
fn add_missing(out: &mut Draft, name: &str) {
    let name = Quoted(name);
    out.add(format_args!("The certificate has another unit {name}, which the file has not.\n"));
}

/// Adds that a unit of the file has another name than that of the certificate: one is new or gone, or each is elsewhere or has another name.
fn add_other(
    out: &mut Draft,
    doc: Doc<'_>,
    unit: usize,
    cert: CertText<'_>,
    both: (Listed<'_>, Listed<'_>),
) {
    let ((name, bytes, period), theirs) = both;
    let is_new = cert_named(cert, name).is_none();
    let mut names = doc
        .units()
        .iter()
        .map(|unit| Fields::of(unit).text(Key::Name));
    let ours = Named(doc, unit, None);
    match (is_new, names.any(|name| name == Some(theirs.0))) {
        (true, true) => out.add(format_args!("{ours} is not in the certificate.\n")),
        (false, false) => add_missing(out, theirs.0),
        _ => {
            let name = Quoted(theirs.0);
            out.add(format_args!("{ours} stands where the certificate has unit {name}.\n"));
            if is_new
                && (bytes, period) == (theirs.1, theirs.2)
                && doc.units().len() == cert.units
                && other_slots(doc, cert).is_none()
            {
                out.add(format_args!(
                    "If it is the same unit, write its new name into line {} of the certificate: its bytes and its period are the same.\n",
                    unit.saturating_add(3)
                ));
            } else if have_same_units(doc, cert) {
                out.add(
                    "The file has the units of the certificate, in another order: give them that order, if the cable has it.\n",
                );
            }
        }
    }
}

/// Whether a unit of the file has bytes and period of the certificate's unit with its number, from 0.
fn is_like(doc: Doc<'_>, unit: usize, cert: CertText<'_>) -> bool {
    match (our_unit(doc, unit), cert_unit(cert, unit)) {
        (Some((_, bytes, period)), Some((_, other, cycle))) => (bytes, period) == (other, cycle),
        _ => false,
    }
}

/// Whether file and certificate have several units each, and no name in common, and the units didn't get other names alone.
fn are_strangers(doc: Doc<'_>, cert: CertText<'_>) -> bool {
    let mut names = doc
        .units()
        .iter()
        .filter_map(|unit| Fields::of(unit).text(Key::Name));
    let count = doc.units().len();
    1 < count.min(cert.units)
        && !names.any(|name| cert_named(cert, name).is_some())
        && !(count == cert.units && (0..count).all(|unit| is_like(doc, unit, cert)))
}

/// Adds how file and certificate differ in the unit with this number, from 0, if one of them has it, and says whether they do.
fn add_difference(out: &mut Draft, doc: Doc<'_>, unit: usize, cert: CertText<'_>) -> bool {
    let name = Named(doc, unit, None);
    match (our_unit(doc, unit), cert_unit(cert, unit)) {
        (Some(ours), Some(theirs)) if ours.0 != theirs.0 => {
            add_other(out, doc, unit, cert, (ours, theirs));
        }
        (Some((_, bytes, _)), Some((_, other, _))) if bytes != other => {
            out.add(format_args!("{name} has {bytes} bytes, in the certificate {other}.\n"));
        }
        (Some((_, _, period)), Some((_, _, other))) if period != other => {
            out.add(format_args!("{name} has period {period}, in the certificate {other}.\n"));
        }
        (Some(_), None) => out.add(format_args!("{name} is not in the certificate.\n")),
        (None, Some(theirs)) => add_missing(out, theirs.0),
        _ => return false,
    }
    true
}

/// Adds what differs between the file's units and those of a certificate, of single units the first.
pub(crate) fn add_differences(out: &mut Draft, doc: Doc<'_>, cert: CertText<'_>) {
    let (ours, theirs) = (doc.units().len(), cert.units);
    if let Some(line) = other_slots(doc, cert) {
        let slots = doc.top().number(Key::Slots).unwrap_or(0);
        out.add(format_args!(
            "The file says slots = {slots}, the certificate {}.\n",
            Bytes(line.as_bytes(), 40)
        ));
    }
    if ours != theirs {
        let units = Amount(ours as u64, "unit");
        out.add(format_args!("The file has {units}, the certificate {theirs}.\n"));
    }
    if are_strangers(doc, cert) {
        return out.add("No unit has a name that the certificate has: it may be of another line.\n");
    }
    for unit in 0..ours.saturating_add(1) {
        if add_difference(out, doc, unit, cert) {
            return;
        }
    }
}
