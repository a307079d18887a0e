//! Certificates read from their texts.

ghost use Rattle.std.specs.Prelude.{◌≡◌, ℕ, ◌+◌, ◌^◌, ◌<◌, ◌≤◌, length, drop, Ok, IfOk};
ghost use Rattle.std.specs.List.{list_all};
ghost use Rattle.ec_cert_text.specs.Reading.{Gives, is_text_byte, version_at, end_at, parts_at, reading};
ghost use Rattle.ec_cert.specs.Shapes.{CertView, cert_view};
ghost use Rattle.ec_cert.specs.WellFormed.{IsWellFormed};
ghost use Rattle.ec_cert_text.specs.Text.{certificate_text};
ghost use Rattle.ec_cert_text.specs.Views.{at_view};

use crate::fault::CertFault;
use crate::head::{best_of, level_of, slots_of, start_of, units_of};
use crate::indexes::order_of;
use crate::lines::line_of;
use crate::nodes::tree_of;
use crate::place::TextPlace;
use ec_cert::{Cert, LEVELS, kinds_of};
use std::alloc::Global;

/// The most bytes of a certificate that is read.
pub const MOST_BYTES: usize = 67_108_864;

fn is_text(text: &[u8]) -> bool
    ensures { result ≡ list_all is_text_byte text.now }
{
    let mut all = true;
    for byte in text {
        all &= *byte == b'\n' || (32 <= *byte && *byte <= 126);
    }
    all
}

/// The place after a first line of 9 bytes.
fn second_line(text: &[u8]) -> TextPlace<'_>
    requires first { 9 ≤ length text.now }
    requires short { length text.now ≤ 67108864 }
    ensures line { result.line ≡ 2 }
    ensures rest { result.rest.now ≡ drop 9 text.now }
{
    TextPlace {
        line: 2,
        rest: &text[9..],
    }
}

/// The version that the first line says, and the place after it.
#[tactic(auto, unfolding(crate::specs::Reading::version_at))]
fn version_of(text: &[u8]) -> Result<(u8, TextPlace<'_>), CertFault>
    requires { length text.now ≤ 67108864 }
    ensures { Gives (λ x. (x.0, at_view x.1)) result (version_at text.now) }
{
    if text.starts_with(b"ecplan 1\n") {
        return Ok((1, second_line(text)));
    }
    if text.starts_with(b"ecplan 2\n") {
        return Ok((2, second_line(text)));
    }
    if text.starts_with(b"ecplan 3\n") {
        return Ok((3, second_line(text)));
    }
    if text.starts_with(b"ecplan 4\n") {
        return Ok((4, second_line(text)));
    }
    Err(CertFault::Version)
}

/// The last line, with nothing after it.
#[tactic(auto, unfolding(crate::specs::Reading::end_at))]
fn end_of(place: TextPlace<'_>) -> Result<(), CertFault>
    ensures { Gives (λ x. x) result (end_at (at_view place.entry)) }
{
    let (line, after) = line_of(place)?;
    if line != b"end".as_slice() {
        return Err(CertFault::Late(place.line));
    }
    if after.rest.is_empty() {
        return Ok(());
    }
    line_of(after)?;
    Err(CertFault::Late(after.line))
}

/// The lines after the first.
#[tactic(auto, unfolding(crate::specs::Reading::parts_at))]
fn parts_of(alloc: Global, version: u8, place: TextPlace<'_>) -> Result<Cert, CertFault>
    ensures { Gives cert_view result (parts_at version (at_view place.entry)) }
{
    let (slots, rest) = slots_of(place)?;
    let (units, rest) = units_of(alloc, rest)?;
    let count = units.as_slice().len() as u8;
    let (order, rest) = order_of(alloc, count, rest)?;
    let (best, rest) = best_of(alloc, count, rest)?;
    let (level, rest) = level_of(version, rest)?;
    let rest = start_of(rest)?;
    let kinds = kinds_of(version, level);
    let (tree, rest) = tree_of(alloc, kinds, LEVELS, rest)?;
    end_of(rest)?;
    Ok(Cert {
        version,
        slots,
        units,
        order,
        best,
        level,
        tree,
    })
}

#[tactic(auto, unfolding(crate::specs::Reading::reading))]
fn cert_of(alloc: Global, text: &[u8]) -> Result<Cert, CertFault>
    ensures { Gives cert_view result (reading text.now) }
{
    if MOST_BYTES < text.len() {
        return Err(CertFault::TooLarge);
    }
    if !is_text(text) {
        return Err(CertFault::NotText);
    }
    let (version, rest) = version_of(text)?;
    parts_of(alloc, version, rest)
}

/// Reads the certificate, of version 1 to 4, that a text is the text of. Of several faults the first in this order is
/// answered: the length, the bytes, the first line, and then the first line at fault. Want of memory may come before
/// another fault.
pub fn read_cert(alloc: Global, text: &[u8]) -> Result<Cert, CertFault>
    // What is read has this text, and is well formed.
    ensures found { IfOk result (λ c. IsWellFormed (cert_view c) × (length text.now ≤ 67108864) × (text.now ≡ certificate_text (cert_view c))) }

    // The text of a well formed certificate is read as it, unless memory runs out or it is too long.
    ensures only { (c : CertView) → IsWellFormed c → length text.now ≤ 67108864 → text.now ≡ certificate_text c → Gives cert_view result (Ok c) }

    // Which certificate or which fault it is, unless memory runs out.
    ensures exact { Gives cert_view result (reading text.now) }
{
    cert_of(alloc, text)
}
