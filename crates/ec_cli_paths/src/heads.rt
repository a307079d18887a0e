//! What the lines of a certificate say before its tree.

use crate::telling::{Host, tell};
use ec_cli_files::{
    MOST_HEAD, Others, has_level, is_proof, names_in, others_by, read_file, unit_names,
};
use ec_cli_spots::PathPiece;
use ec_units::{Units, bytes_of};
use std::alloc::{AllocError, Global};
use std::fmt::Write as _;

/// How the certificate of a search by the strong rules begins.
const STRONG: &[u8] = b"ecplan 4\n";

/// What becomes of a certificate of other units where this run puts its own in its place.
const CERT_THEN: &str = "Give another --out to keep it";

/// The same of a proof.
const PROOF_THEN: &str =
    "Give another --out to keep it. If this run ends without a proof, it stays beside that, with .old behind its name";

/// The same of a text.
const TEXT_THEN: &str =
    "If lines of it would be lost, it stays beside that, with .old behind its name";

/// The lines of a certificate before its tree, and perhaps some of that.
#[derive(Drop)]
pub(crate) struct Head(Vec<u8>);

impl Head {
    /// Those of the certificate at a path, if they can be read.
    pub(crate) fn at(rt: &impl Host, path: &str) -> Option<Head> {
        Some(Head(read_file(rt, rt.alloc(), path, MOST_HEAD).ok()??))
    }

    /// Whether it is one of a search by the strong rules.
    pub(crate) fn is_strong(&self) -> bool {
        self.0.starts_with(STRONG)
    }

    /// Whether it has a level, and so is no proof.
    pub(crate) fn has_level(&self) -> bool {
        has_level(&self.0)
    }

    /// What stands behind its version; none where it doesn't begin as a certificate does.
    fn rest(&self) -> Option<&[u8]> {
        let rest = self.0.strip_prefix(b"ecplan ")?;
        let at = rest.iter().position(|byte| !byte.is_ascii_digit())?;
        rest.get(at..).filter(|rest| rest.starts_with(b"\nslots "))
    }
}

/// Whether the certificate at a path, which was found right, is a proof: it has no level.
pub fn is_proof_at(rt: &impl Host, path: &str) -> bool {
    Head::at(rt, path).is_some_and(|head| is_proof(&head.0))
}

/// The lines of a certificate that say its slots and its units, and how the next one begins, behind the end of the first line.
fn unit_lines(alloc: Global, units: &Units) -> Result<String, AllocError> {
    let mut lines = format!(in alloc; "\nslots {}\n", units.slots)?;
    for unit in units.units.as_slice() {
        let (name, bytes, period) = (unit.name.as_str(), bytes_of(unit), unit.period);
        write!(lines, "unit {name} {bytes} {period}\n")?;
    }
    lines.push_str("order ")?;
    Ok(lines)
}

/// Tells that what is of other units makes room at the path of an option, and what becomes of it then, or stays, being of another line.
fn tell_others(
    rt: &impl Host,
    path: &str,
    (what, then): (&str, &str),
    option: &str,
    others: Others,
) {
    let path = PathPiece(path);
    let text = match others {
        Others::Units => format!(in rt.alloc();
            "{path} holds {what} of other units, and this run may put its own there.\n{then}.\n"
        ),
        Others::Line => format!(in rt.alloc();
            "{path} holds {what} of another line, by the names of its units, and keeps it: give another {option}.\n"
        ),
    };
    tell(rt, text);
}

/// Tells, before a run that writes a unit text to a path, that one of other units stands there.
pub fn tell_other_text(rt: &impl Host, path: &str, others: Others) {
    tell_others(rt, path, ("a text", TEXT_THEN), "--places", others);
}

/// How the units of the certificate that begins so differ from these; none where it is for them.
fn others_in(alloc: Global, head: &Head, units: &Units) -> Result<Option<Others>, AllocError> {
    let lines = unit_lines(alloc, units)?;
    let (these, those) = (names_in(alloc, &head.0)?, unit_names(alloc, units)?);
    let others = others_by(these.as_slice(), those.as_slice());
    // Of one that isn't written as a program writes it, as with CR LF, only the names are known.
    let is_own = match head.rest() {
        Some(rest) => rest.starts_with(lines.as_bytes()),
        None => others == Others::Units,
    };
    Ok(Some(others).filter(|_| !is_own))
}

/// Tells, before a run that writes a certificate to a path, that one of other units stands there, if one does.
pub fn tell_other_units(rt: &impl Host, path: &str, units: &Units) {
    let Some(head) = Head::at(rt, path) else {
        return;
    };
    let what = if is_proof(&head.0) {
        ("a proof", PROOF_THEN)
    } else {
        ("a certificate", CERT_THEN)
    };
    if let Ok(Some(others)) = others_in(rt.alloc(), &head, units) {
        tell_others(rt, path, what, "--out", others);
    }
}
