//! What two unit texts have in common, line by line.

use std::alloc::{AllocError, Global};

/// Whether two unit texts differ in places alone, in blanks at the ends of their lines, in empty lines, or not at all.
pub(crate) fn differ_in_places(one: &[u8], other: &[u8]) -> bool {
    let mut others = other.split(|byte| *byte == b'\n').map(kept_part);
    for line in one.split(|byte| *byte == b'\n').map(kept_part) {
        if !line.is_empty() && others.find(|other| !other.is_empty()) != Some(line) {
            return false;
        }
    }
    others.all(|other| other.is_empty())
}

/// Whether another unit text has all lines of one in their order, but for what other places change, and perhaps more between them.
pub(crate) fn are_among(one: &[u8], other: &[u8]) -> bool {
    let mut others = other.split(|byte| *byte == b'\n').map(kept_part);
    for line in one.split(|byte| *byte == b'\n').map(kept_part) {
        if !line.is_empty() && others.find(|other| *other == line).is_none() {
            return false;
        }
    }
    true
}

/// Whether a line says the phase or the slot of a unit, whatever stands beside it.
fn says_place(line: &[u8]) -> bool {
    let key = line.split(|byte| *byte == b'=').next().unwrap_or(line);
    matches!(
        key.trim_ascii(),
        b"phase" | b"slot" | b"\"phase\"" | b"\"slot\"" | b"'phase'" | b"'slot'"
    )
}

/// What of a line other places leave as it is: of one that says a place its comment, else all but the blanks at its end.
fn kept_part(line: &[u8]) -> &[u8] {
    if !says_place(line) {
        return line.trim_ascii_end();
    }
    match line.iter().position(|byte| *byte == b'#') {
        Some(at) => line[at..].trim_ascii_end(),
        None => b"",
    }
}

/// What other places leave of the lines of a unit text, in order, each with the number of its line, from 1.
fn sorted_lines(alloc: Global, text: &[u8]) -> Result<Vec<(&[u8], usize)>, AllocError> {
    let mut lines = Vec::new(alloc);
    for (at, line) in text.split(|byte| *byte == b'\n').enumerate() {
        lines.push((kept_part(line), at.saturating_add(1)))?;
    }
    lines.sort_unstable();
    Ok(lines)
}

/// The lines of a unit text that another one hasn't, or hasn't as often, but for what other places change: each with its number, from 1,
/// in order.
pub fn others_in<'a>(
    alloc: Global,
    one: &'a [u8],
    other: &[u8],
) -> Result<Vec<(usize, &'a [u8])>, AllocError> {
    let (lines, known) = (sorted_lines(alloc, one)?, sorted_lines(alloc, other)?);
    let mut left = known.as_slice();
    let mut found = Vec::new(alloc);
    for (line, number) in lines.as_slice() {
        let before = left.partition_point(|(known, _)| *known < *line);
        left = left.get(before..).unwrap_or(&[]);
        match left {
            [(known, _), rest @ ..] if *known == *line => left = rest,
            _ if line.is_empty() => {}
            _ => found.push((*number, *line))?,
        }
    }
    found.sort_unstable();
    Ok(found)
}
