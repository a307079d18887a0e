//! The pairs of a leaf.

ghost use Rattle.std.specs.Prelude.{◌≡◌, IfOk};
ghost use Rattle.std.specs.List.{list_all};
ghost use Rattle.ec_cert_text.specs.Reading.{Gives, pairs_of as pairs_of_spec, is_room as is_room_spec, is_pair_count as is_pair_count_spec, pairs_from, groups_in};

use crate::fault::CertFault;
use crate::indexes::are_numbers;
use crate::weights::{spaces, weights_of};
use ec_loads::Pair;
use std::alloc::{AllocError, Global};

/// The greatest room of a pair, in bytes.
const MOST_ROOM: u16 = 12_304;

/// Whether the room of a pair is in range.
fn is_room(pair: &Pair) -> bool
    ensures { result ≡ is_room_spec pair.now }
{
    pair.room <= MOST_ROOM
}

/// Whether the room of each pair is in range.
fn are_rooms(pairs: &[Pair]) -> bool
    ensures { result ≡ list_all is_room_spec pairs.now }
{
    let mut all = true;
    for pair in pairs {
        all &= is_room(pair);
    }
    all
}

/// Numbers two by two.
fn pairs_of(alloc: Global, numbers: &[u16]) -> Result<Vec<Pair>, AllocError>
    ensures { IfOk result (λ pairs. pairs.items ≡ pairs_of_spec numbers.now) }
{
    let mut pairs = Vec::new(alloc);
    let mut rest = numbers;
    while let [count, room, after @ ..] = rest {
        pairs.push(Pair {
            count: *count,
            room: *room,
        })?;
        rest = after;
    }
    Ok(pairs)
}

/// Whether so many spaces stand between as many words as 1 to 48 pairs have.
fn is_pair_count(spaces: usize) -> bool
    ensures { result ≡ is_pair_count_spec spaces }
{
    spaces <= 95 && spaces % 2 == 1
}

/// The pairs that numbers are, each room in range.
fn pairs_in(alloc: Global, line: u32, numbers: &[u16]) -> Result<Vec<Pair>, CertFault>
    ensures { Gives (λ x. x.items) result (pairs_from line numbers.now) }
{
    let pairs = pairs_of(alloc, numbers)?;
    if are_rooms(pairs.as_slice()) {
        return Ok(pairs);
    }
    Err(CertFault::Number(line))
}

/// The 1 to 48 pairs that words are.
#[tactic(auto, unfolding(crate::specs::Reading::groups_in))]
pub(crate) fn pairs_on(alloc: Global, line: u32, text: &[u8]) -> Result<Vec<Pair>, CertFault>
    ensures { Gives (λ x. x.items) result (groups_in line text.now) }
{
    let more = spaces(text);
    if is_pair_count(more) && are_numbers(more as u32, text) {
        let numbers = weights_of(alloc, line, more as u32, text)?;
        return pairs_in(alloc, line, numbers.as_slice());
    }
    Err(CertFault::BadLine(line))
}
