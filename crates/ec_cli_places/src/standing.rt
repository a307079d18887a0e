//! What is lost of a unit text that stands where the units with the places of a plan are to be written.

use crate::costs::{Standing, are_alike, lacks_place, legal_cost, standing_at};
use crate::lines::{are_among, differ_in_places};
use ec_cli_files::{KeepReason, Others, others_by, unit_names};
use ec_cli_refusals::Refusal;
use ec_cli_text::placed_plan;
use ec_loads::Plan;
use ec_units::Units;
use std::alloc::{AllocError, Global};
use std::rt::Files;

/// The places that are to be written, with the text of their units, and what became of the certificate of the same plan.
#[derive(Clone, Copy)]
pub struct Placing<'a> {
    pub text: &'a [u8],
    /// The units that the text says; none where memory was wanting over them.
    pub units: Option<&'a Units>,
    pub plan: &'a Plan,
    /// Whether a certificate was to be written, too.
    pub has_cert: bool,
    /// Whether an older one was left in its place.
    pub is_cert_kept: bool,
}

/// How units that stand differ from other ones.
fn others_of(alloc: Global, held: &Units, units: &Units) -> Result<Others, AllocError> {
    let (these, those) = (unit_names(alloc, held)?, unit_names(alloc, units)?);
    Ok(others_by(these.as_slice(), those.as_slice()))
}

/// Why units that aren't the same as some others stay: they are of another line.
fn reason_by_names(alloc: Global, held: &Units, units: &Units) -> Option<KeepReason> {
    match others_of(alloc, held, units) {
        Ok(Others::Units) => None,
        Ok(Others::Line) => Some(KeepReason::OtherLine),
        Err(_) => Some(KeepReason::TooLittleMemory),
    }
}

/// Why the places of a plan aren't written over a unit text that stands. It lacks places, so that no plan made it, and differs from
/// the units' text in more than places. Or it is of another line. Or its units have the same names, periods and bytes, and places that
/// cost less, or as much where the certificate was left as it is, since they may be its plan's. Where it differs in places alone, cheaper
/// ones are better, and ones that cost as much are as good, unless a certificate is to have the same plan.
fn reason_by_costs(
    alloc: Global,
    standing: &Standing,
    units: &Units,
    placing: Placing<'_>,
) -> Option<KeepReason> {
    let Standing { text, units: held } = standing;
    let Placing { plan, .. } = placing;
    let is_same = differ_in_places(text.as_slice(), placing.text);
    if lacks_place(held) {
        return Some(KeepReason::HasLines).filter(|_| !is_same);
    }
    if !are_alike(held, units) {
        return reason_by_names(alloc, held, units);
    }
    let own = match placed_plan(alloc, held) {
        Ok(own) => own,
        Err(Refusal::Illegal(_)) => return None,
        Err(_) => return Some(KeepReason::TooLittleMemory),
    };
    let (standing, cost) = (legal_cost(held, &own)?, legal_cost(units, plan)?);
    if standing < cost && is_same {
        Some(KeepReason::Better)
    } else if standing < cost {
        Some(KeepReason::Cheaper)
    } else if standing > cost || own.places.as_slice() == plan.places.as_slice() {
        None
    } else if placing.is_cert_kept {
        Some(KeepReason::AsCheap)
    } else {
        Some(KeepReason::AsGood).filter(|_| is_same && !placing.has_cert)
    }
}

/// Why places aren't written over the unit text that stands at a path; none where nothing of it is lost (own profile).
pub fn reason_to_keep_text<F: Files>(
    files: &F,
    alloc: Global,
    path: &str,
    placing: Placing<'_>,
) -> Option<KeepReason> {
    let Ok(standing) = standing_at(files, alloc, path) else {
        return Some(KeepReason::TooLittleMemory);
    };
    let standing = standing?;
    match placing.units {
        Some(units) => reason_by_costs(alloc, &standing, units, placing),
        None => Some(KeepReason::TooLittleMemory),
    }
}

/// How the unit text that stands at a path differs from these units, if one stands there in which each unit has a place (own profile).
pub fn others_at<F: Files>(files: &F, alloc: Global, path: &str, units: &Units) -> Option<Others> {
    let Standing { units: held, .. } = standing_at(files, alloc, path).ok()??;
    if lacks_place(&held) || are_alike(&held, units) {
        return None;
    }
    others_of(alloc, &held, units).ok()
}

/// Whether the unit text that stands at a path has lines that this one hasn't in their order, but for what other places change. Also where
/// memory runs out over it (own profile).
pub fn loses_lines<F: Files>(files: &F, alloc: Global, path: &str, text: &[u8]) -> bool {
    match standing_at(files, alloc, path) {
        Ok(Some(standing)) => !are_among(standing.text.as_slice(), text),
        Ok(None) => false,
        Err(AllocError) => true,
    }
}

/// The unit text that stands at a path, if one does that can be read (own profile).
pub fn standing_text<F: Files>(files: &F, alloc: Global, path: &str) -> Option<Vec<u8>> {
    let Standing { text, .. } = standing_at(files, alloc, path).ok()??;
    Some(text)
}
