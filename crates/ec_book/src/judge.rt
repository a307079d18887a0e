//! Whether a reported subtree or an offered plan is welcome.

ghost use Rattle.std.specs.Prelude.{◌≡◌, ◌≢◌, ℕ, ◌+◌, ◌<◌, ◌≤◌, ◌^◌, length, slice_get, Some, IfOk, IfErr, OnOk, MatchOption, IsTrue, ◌↔◌};
ghost use Rattle.ec_loads.specs.Search.{IsAtMost, node_count as node_count_of};
ghost use Rattle.ec_cert.specs.Shapes.{shape_of};
ghost use Rattle.ec_book.specs.Faults.{IsTakenBy, IsHoldFault, IsWelcome, IsReportFault};
ghost use Rattle.ec_book.specs.Steps.{IsBelow};

use crate::counted::Counted;
use crate::fault::BookFault;
use crate::piece::Piece;
use crate::prefixes::Prefixes;
use ec_units::Place;

/// Whether one value is at most another; none is above every number.
fn is_at_most(value: Option<u64>, other: Option<u64>) -> bool
    ensures { IsTrue result ↔ IsAtMost value other }
{
    match (value, other) {
        (_, None) => true,
        (Some(value), Some(other)) => value <= other,
        (None, Some(_)) => false,
    }
}

/// What the worker may spend on the piece.
pub(crate) fn grant_of(pieces: &[Piece], worker: usize, piece: u64) -> Result<u32, BookFault>
    ensures ok { IfOk result (IsTakenBy pieces.now worker piece) }
    ensures err { IfErr result (IsHoldFault pieces.now worker piece) }
{
    let at = piece as usize;
    if at >= pieces.len() {
        return Err(BookFault::NotTaken);
    }
    let Piece::Taken {
        worker: owner,
        grant,
    } = pieces[at]
    else {
        return Err(BookFault::NotTaken);
    };
    if owner != worker {
        return Err(BookFault::NotYours);
    }
    Ok(grant)
}

/// The grant of the piece, where the subtree is welcome.
pub(crate) fn judged(
    pieces: &[Piece],
    prefixes: &Prefixes,
    value: Option<u64>,
    worker: usize,
    piece: u64,
    prefix: &[Place],
    counted: &Counted,
) -> Result<u32, BookFault>
    requires each { length prefixes.now ≡ length pieces.now }
    ensures ok { IfOk result (IsWelcome pieces.now prefixes.now value worker piece prefix.now counted.now.sub.threshold (node_count_of (shape_of counted.now.sub.tree))) }
    ensures nodes { OnOk result (counted.now.nodes ≡ node_count_of (shape_of counted.now.sub.tree)) }
    ensures err { IfErr result (IsReportFault pieces.now prefixes.now value worker piece prefix.now counted.now.sub.threshold (node_count_of (shape_of counted.now.sub.tree))) }
{
    let grant = match grant_of(pieces, worker, piece) {
        Ok(grant) => grant,
        Err(fault) => return Err(fault),
    };
    if !prefixes.has_places(piece as usize, prefix) {
        return Err(BookFault::Stranger);
    }
    if !is_at_most(value, counted.sub.threshold) {
        return Err(BookFault::AheadOfBook(value));
    }
    let nodes = counted.nodes;
    if nodes > u64::from(grant) {
        return Err(BookFault::OverGrant);
    }
    Ok(grant)
}

/// The best value, where there is one and the given value is not below it.
pub(crate) fn not_below(value: u64, best: Option<u64>) -> Option<u64>
    ensures { MatchOption result (IsBelow value best) (λ w. (best ≡ Some w) × (w ≤ value)) }
{
    match best {
        None => None,
        Some(best) => { if value < best { None } else { Some(best) } }
    }
}
