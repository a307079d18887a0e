//! The weights of a leaf.

ghost use Rattle.std.specs.Prelude.{◌≡◌, ℕ, ◌≤◌, IfOk};
ghost use Rattle.ec_cert_text.specs.Reading.{Gives, index_in, indexes_in, many_from, space_count, weights_in};

use crate::fault::CertFault;
use crate::indexes::{are_numbers, index_of};
use crate::lines::fault_on;
use crate::words::number;
use std::alloc::Global;

/// The greatest weight.
const MOST_WEIGHT: u32 = 65535;

/// How many spaces bytes have.
pub(crate) fn spaces(text: &[u8]) -> usize
    ensures { result ≡ space_count text.now }
{
    let mut count = 0;
    for byte in text {
        if *byte == b' ' {
            count += 1;
        }
    }
    count
}

/// The weights that so many words are, and the words after them.
fn first_weights(
    alloc: Global,
    line: u32,
    more: u32,
    text: &[u8],
) -> Result<(Vec<u16>, &[u8]), CertFault>
    ensures { Gives (λ x. (x.0.items, x.1.now)) result (many_from (index_in line 65535) more text.now) }
{
    let mut weights = Vec::new(alloc);
    let mut rest = text;
    'words: for _ in 0..more {
        let (weight, after) = index_of(line, MOST_WEIGHT, rest)?;
        weights.push(weight as u16)?;
        rest = after;
    }
    Ok((weights, rest))
}

/// The weights that so many words and one more are.
#[tactic(auto, unfolding(crate::specs::Reading::indexes_in))]
pub(crate) fn weights_of(
    alloc: Global,
    line: u32,
    more: u32,
    text: &[u8],
) -> Result<Vec<u16>, CertFault>
    ensures { Gives (λ x. x.items) result (indexes_in line more 65535 text.now) }
{
    let (mut weights, last) = first_weights(alloc, line, more, text)?;
    match number(0, MOST_WEIGHT, last) {
        Ok(weight) => {
            weights.push(weight as u16)?;
            Ok(weights)
        }
        Err(wrong) => Err(fault_on(line, wrong)),
    }
}

/// The 1 to 1024 weights that words are.
#[tactic(auto, unfolding(crate::specs::Reading::weights_in))]
pub(crate) fn weights_on(alloc: Global, line: u32, text: &[u8]) -> Result<Vec<u16>, CertFault>
    ensures { Gives (λ x. x.items) result (weights_in line text.now) }
{
    let more = spaces(text);
    if more <= 1023 && are_numbers(more as u32, text) {
        return weights_of(alloc, line, more as u32, text);
    }
    Err(CertFault::BadLine(line))
}
