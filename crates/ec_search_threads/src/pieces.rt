//! Which pieces a worker's steps made.

ghost use Rattle.ec_cert.specs.Parts.{IsPart};

use ec_book::Step;
use ec_cert::Part;

/// The pieces that the last step made, from the first one up to, not including, the second, where it is a report; else
/// none.
pub(crate) fn opened(steps: &[Step]) -> (u64, u64) {
    match steps.last() {
        Some(Step::Reported { first, count, .. }) => (*first, first.saturating_add(*count)),
        _ => (0, 0),
    }
}

/// The nodes that the last step spent, where it is a report; else none.
pub(crate) fn spent(steps: &[Step]) -> u64 {
    match steps.last() {
        Some(Step::Reported { spent, .. }) => *spent,
        _ => 0,
    }
}

/// The value of the last step, in wire bytes, where that is a better plan; else none.
pub(crate) fn published(steps: &[Step]) -> Option<u64> {
    match steps.last() {
        Some(Step::Better { value, .. }) => Some(*value),
        _ => None,
    }
}

/// How many of so many pieces, the open leaves of the given tree, the part has.
pub(crate) fn shared_out(part: Part, pieces: u64) -> u64
    requires { IsPart part }
{
    let count = u64::from(part.count);
    let from = pieces.saturating_sub(u64::from(part.index));
    from.saturating_add(count - 1) / count
}

/// The piece of the part below which so many others of it are, on a book that had so many pieces at first.
fn own_piece(part: Part, pieces: u64, below: u64) -> u64
    requires { IsPart part }
{
    let own = shared_out(part, pieces);
    if below < own {
        let step = below.saturating_mul(u64::from(part.count));
        step.saturating_add(u64::from(part.index))
    } else {
        pieces.saturating_add(below - own)
    }
}

/// The pieces that are free when worker 0 has seeded, on a book that had so many at first: those of the part after the
/// ones that it reported, since it took the lowest free one of the part each time. They are given as `opened` gives its
/// pieces; of those that the book had at first only the part's are meant.
pub(crate) fn left_free(steps: &[Step], part: Part, pieces: u64) -> (u64, u64)
    requires { IsPart part }
{
    let mut below = 0u64;
    let mut end = pieces;
    for step in steps {
        if let Step::Reported { first, count, .. } = step {
            below = below.saturating_add(1);
            end = first.saturating_add(*count);
        }
    }
    (own_piece(part, pieces, below), end)
}
