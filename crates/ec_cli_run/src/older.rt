//! An older certificate where a newer one is to be written.

ghost use Rattle.std.specs.Prelude.{◌≡◌, ◌↔◌, map, IfOk, IsTrue};
ghost use Rattle.ec_loads.specs.Search.{IsAtMost};
ghost use Rattle.ec_cert.specs.IsBestPlan.{value_of};
ghost use Rattle.ec_cert.specs.Shapes.{cert_view};
ghost use Rattle.ec_cli_run.specs.Older.{AreForOneLine, HasMoreNodes, ShowsMore, SaysMore};

use ec_cert::{Best, Cert, Tree, UnitLine, is_closed, node_count};
use ec_cert_merge::misfit;
use ec_cert_text::{CertFault, MOST_BYTES, read_cert};
use ec_cli_files::{KeepReason, MOST_HEAD, Others, Whole, names_in, others_by};
use std::alloc::{AllocError, Global};
use std::io;
use std::io::ErrorKind;
use std::rt::Files;

/// Whether two lines say the same of a unit.
fn is_same(one: &UnitLine, other: &UnitLine) -> bool
    ensures { IsTrue result ↔ (one.now ≡ other.now) }
{
    one.name.as_str() == other.name.as_str()
        && one.bytes == other.bytes
        && one.period == other.period
}

/// Whether two lists say the same of the units.
fn are_same(these: &[UnitLine], those: &[UnitLine]) -> bool
    ensures { IsTrue result ↔ (these.now ≡ those.now) }
{
    if these.len() != those.len() {
        return false;
    }
    for i in 0..these.len() {
        if !is_same(&these[i], &those[i]) {
            return false;
        }
    }
    true
}

/// Whether two certificates are for the same slots and units.
fn are_for_one_line(older: &Cert, newer: &Cert) -> bool
    ensures { IsTrue result ↔ AreForOneLine (cert_view older.now) (cert_view newer.now) }
{
    older.slots == newer.slots && are_same(older.units.as_slice(), newer.units.as_slice())
}

/// Whether a plan costs less than another one, or is there alone.
fn costs_less(older: &Option<Best>, newer: &Option<Best>) -> bool
    ensures { IsTrue result ↔ (¬ (IsAtMost (value_of newer.now) (value_of older.now))) }
{
    match (older, newer) {
        (None, _) => false,
        (Some(_), None) => true,
        (Some(older), Some(newer)) => older.busiest < newer.busiest,
    }
}

/// Whether two plans cost the same, or neither is there.
fn cost_the_same(older: &Option<Best>, newer: &Option<Best>) -> bool
    ensures { IsTrue result ↔ (value_of older.now ≡ value_of newer.now) }
{
    match (older, newer) {
        (None, None) => true,
        (Some(older), Some(newer)) => older.busiest == newer.busiest,
        _ => false,
    }
}

/// Whether an older certificate has the same value and level, and more nodes.
fn has_more_nodes(older: &Cert, newer: &Cert) -> bool
    ensures { IsTrue result ↔ HasMoreNodes (cert_view older.now) (cert_view newer.now) }
{
    cost_the_same(&older.best, &newer.best)
        && older.level == newer.level
        && node_count(&newer.tree) < node_count(&older.tree)
}

/// Whether the level of an older certificate, none of a proof, is above that of a newer one.
fn shows_more(older: Option<u64>, newer: u64) -> bool
    ensures { IsTrue result ↔ ShowsMore older newer }
{
    match older {
        None => true,
        Some(level) => newer < level,
    }
}

/// Whether an older certificate says more for the same units than a newer one, which is no proof: it shows a higher level,
/// has a plan that costs less, or says the same and has more nodes.
fn says_more(older: &Cert, newer: &Cert) -> bool
    ensures { IsTrue result ↔ SaysMore (cert_view older.now) (cert_view newer.now) }
{
    let Some(level) = newer.level else {
        return false;
    };
    are_for_one_line(older, newer)
        && (shows_more(older.level, level)
            || costs_less(&older.best, &newer.best)
            || has_more_nodes(older, newer))
}

/// The certificate that stands at the path of a file; none where no file is there, or an empty one. An error also where
/// what stands there can't be read as a certificate.
fn standing_cert<F: Files>(alloc: Global, whole: &Whole<'_, F>) -> io::Result<Option<Cert>> {
    let Some(text) = whole.standing(MOST_BYTES as u64)? else {
        return Ok(None);
    };
    match read_cert(alloc, &text) {
        Ok(cert) => Ok(Some(cert)),
        Err(CertFault::OutOfMemory) => Err(io::Error::from(ErrorKind::OutOfMemory)),
        Err(_) if text.is_empty() => Ok(None),
        Err(_) => Err(io::Error::from(ErrorKind::InvalidData)),
    }
}

/// Whether a tree has more than an open leaf somewhere, where another one of the same search has an open leaf.
fn has_closed_more(older: &Tree, newer: &Tree) -> bool {
    match older {
        Tree::OpenLeaf => false,
        Tree::Split(trees) => match newer {
            Tree::OpenLeaf => true,
            Tree::Split(others) => {
                let (trees, others) = (trees.as_ref(), others.as_ref());
                for i in 0..trees.len() {
                    if i < others.len() && has_closed_more(&trees[i], &others[i]) {
                        return true;
                    }
                }
                false
            }
            _ => false,
        },
        _ => !is_closed(newer),
    }
}

/// Why an older certificate stays for the same units: it is a proof, it has closed what a newer one of the same search leaves open,
/// where that `is_part` of what both come from, or it says more.
fn reason_by_claims(older: &Cert, newer: &Cert, is_part: bool) -> Option<KeepReason> {
    let says_more = says_more(older, newer);
    if says_more && older.level.is_none() {
        return Some(KeepReason::IsProof);
    }
    let is_of_one = is_part && are_for_one_line(older, newer) && misfit(older, newer).is_none();
    if is_of_one && has_closed_more(&older.tree, &newer.tree) {
        return Some(KeepReason::HasOther);
    }
    let why = if costs_less(&newer.best, &older.best) {
        KeepReason::ShowsMore
    } else {
        KeepReason::SaysMore
    };
    Some(why).filter(|_| says_more)
}

/// The names of the units of a certificate.
fn names_of(alloc: Global, cert: &Cert) -> Result<Vec<&[u8]>, AllocError>
    ensures { IfOk result (λ names. map (λ n. n.now) names.items ≡ map (λ u. u.name) cert.now.units) }
{
    let mut names = Vec::new(alloc);
    for line in cert.units.as_slice() {
        names.push(line.name.as_str().as_bytes())?;
    }
    Ok(names)
}

/// Whether a certificate for another line stands at the path of a newer one. An error where what stands there can't be read.
fn is_of_other_line<F: Files>(
    alloc: Global,
    whole: &Whole<'_, F>,
    newer: &Cert,
) -> io::Result<bool> {
    let Some(front) = whole.standing(MOST_HEAD)? else {
        return Ok(false);
    };
    let (these, those) = (names_in(alloc, &front)?, names_of(alloc, newer)?);
    Ok(others_by(these.as_slice(), those.as_slice()) == Others::Line)
}

/// Why the certificate that stands at the path of a newer one stays. An error where it can't be read.
fn reason_over<F: Files>(
    alloc: Global,
    whole: &Whole<'_, F>,
    newer: &Cert,
    is_part: bool,
) -> io::Result<Option<KeepReason>> {
    if is_of_other_line(alloc, whole, newer)? {
        return Ok(Some(KeepReason::OtherLine));
    }
    if newer.level.is_none() {
        return Ok(None);
    }
    match standing_cert(alloc, whole)? {
        Some(older) => Ok(reason_by_claims(&older, newer, is_part)),
        None => Ok(None),
    }
}

/// Why a certificate that stands at the path of a newer one makes no room for it: it is for another line; it says more for the same units,
/// or has closed what the newer one leaves open, where that `is_part` of what both come from; or it can't be read, or not in this memory.
/// None where nothing of it is lost (own profile).
pub(crate) fn reason_to_keep_cert<F: Files>(
    alloc: Global,
    whole: &Whole<'_, F>,
    newer: &Cert,
    is_part: bool,
) -> Option<KeepReason> {
    match reason_over(alloc, whole, newer, is_part) {
        Ok(reason) => reason,
        Err(error) if error.kind() == ErrorKind::OutOfMemory => Some(KeepReason::TooLittleMemory),
        Err(_) if newer.level.is_none() => None,
        Err(_) => Some(KeepReason::Unreadable),
    }
}
