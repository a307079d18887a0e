//! Words that are numbers, and the line of an order.

ghost use Rattle.std.specs.Prelude.{◌≡◌, ℕ, ◌+◌, ◌-◌, ◌<◌, ◌≤◌, IfOk};
ghost use Rattle.ec_cert_text.specs.Reading.{Gives, are_numbers as are_numbers_spec, index_in, indexes_in, many_from, order_in, order_at};
ghost use Rattle.ec_cert_text.specs.Views.{at_view};

use crate::fault::CertFault;
use crate::lines::{fault_on, line_of};
use crate::place::TextPlace;
use crate::words::{cut_at, is_number, number};
use ec_cert::Order;
use std::alloc::Global;

/// Whether a text is so many words and one more, each one digit or more.
pub(crate) fn are_numbers(more: u32, text: &[u8]) -> bool
    ensures { result ≡ are_numbers_spec more text.now }
{
    let mut rest = text;
    'words: for _ in 0..more {
        match cut_at(b' ', rest) {
            Some((word, after)) if is_number(word) => rest = after,
            _ => return false,
        }
    }
    is_number(rest)
}

/// The next of several numbers, and the words after it.
#[tactic(auto, unfolding(crate::specs::Reading::index_in))]
pub(crate) fn index_of(line: u32, high: u32, text: &[u8]) -> Result<(u32, &[u8]), CertFault>
    requires { high < 1000000 }
    ensures value { Gives (λ x. (x.0, x.1.now)) result (index_in line high text.now) }
    ensures range { IfOk result (λ x. x.0 ≤ high) }
{
    match cut_at(b' ', text) {
        Some((word, after)) => match number(0, high, word) {
            Ok(index) => Ok((index, after)),
            Err(wrong) => Err(fault_on(line, wrong)),
        },
        None => Err(CertFault::BadLine(line)),
    }
}

/// The numbers of so many words, and the words after them.
fn first_indexes(
    alloc: Global,
    line: u32,
    high: u32,
    text: &[u8],
) -> Result<(Vec<u8>, &[u8]), CertFault>
    requires { high ≤ 255 }
    ensures { Gives (λ x. (x.0.items, x.1.now)) result (many_from (index_in line high) high text.now) }
{
    let mut indexes = Vec::new(alloc);
    let mut rest = text;
    'words: for _ in 0..high {
        let (index, after) = index_of(line, high, rest)?;
        indexes.push(index as u8)?;
        rest = after;
    }
    Ok((indexes, rest))
}

/// The numbers from 0 to `high` that so many words and one more are.
#[tactic(auto, unfolding(crate::specs::Reading::indexes_in))]
fn indexes_of(alloc: Global, line: u32, high: u32, text: &[u8]) -> Result<Vec<u8>, CertFault>
    requires { high ≤ 255 }
    ensures { Gives (λ x. x.items) result (indexes_in line high high text.now) }
{
    let (mut indexes, last) = first_indexes(alloc, line, high, text)?;
    match number(0, high, last) {
        Ok(index) => {
            indexes.push(index as u8)?;
            Ok(indexes)
        }
        Err(wrong) => Err(fault_on(line, wrong)),
    }
}

/// The numbers that the line of an order has for so many units.
#[tactic(auto, unfolding(crate::specs::Reading::order_in))]
fn order_on(alloc: Global, number: u32, units: u8, line: &[u8]) -> Result<Vec<u8>, CertFault>
    requires { 1 ≤ units }
    ensures { Gives (λ x. x.items) result (order_in number units line.now) }
{
    if line.starts_with(b"order ") && are_numbers(u32::from(units - 1), &line[6..]) {
        return indexes_of(alloc, number, u32::from(units - 1), &line[6..]);
    }
    Err(CertFault::BadLine(number))
}

/// The order of so many units, which has a word for each.
#[tactic(auto, unfolding(crate::specs::Reading::order_at))]
pub(crate) fn order_of(
    alloc: Global,
    units: u8,
    place: TextPlace<'_>,
) -> Result<(Order, TextPlace<'_>), CertFault>
    requires { 1 ≤ units }
    ensures { Gives (λ x. (x.0, at_view x.1)) result (order_at units (at_view place.entry)) }
{
    let (line, rest) = line_of(place)?;
    let order = order_on(alloc, place.line, units, line)?;
    Ok((Order::new(order), rest))
}
