//! A unit text that begins `unit`, or the `slave` of one unit, in two ways.

use crate::slips::Stop;
use ec_cli_spots::{AtLine, header_of, name_of};
use ec_text_builder::Draft;

/// Whether a name is this one, or that of something in it.
fn is_within(name: &str, outer: &str) -> bool {
    name.strip_prefix(outer)
        .is_some_and(|rest| rest.is_empty() || rest.starts_with('.'))
}

/// The first line, from 1, of those before a line, from 0, that begins the array of this header, which is begun there once more.
fn line_begun(text: &str, end: usize, header: &str) -> Option<usize> {
    let (table, key) = header.split_once('.').unwrap_or(("", header));
    let mut found = None;
    let mut has_keys = table.is_empty();
    for (index, line) in text.lines().take(end).enumerate() {
        let begun = name_of(line);
        let is_header = line.trim().starts_with('[');
        if is_header {
            has_keys = begun == table;
            found = found.filter(|_| !has_keys);
        }
        let outer = if is_header { header } else { key };
        if found.is_none() && (is_header || has_keys) && is_within(begun, outer) {
            found = Some(index.saturating_add(1));
        }
    }
    found
}

/// Adds that `unit` or `slave` was begun otherwise before the line, from 0, at which the reader stopped, and says whether it was.
pub(crate) fn add_mixed(out: &mut Draft, text: &str, at: usize, stop: Stop<'_>) -> bool {
    let header = match header_of(stop.line) {
        Some(_) if stop.message.starts_with("cannot extend") => "unit",
        Some(header) if stop.message.contains("duplicate") => header,
        _ => return false,
    };
    let (key, noun) = if header == "unit" {
        ("unit", "unit")
    } else {
        ("slave", "slave of a unit")
    };
    let line = AtLine(line_begun(text, at, header));
    out.add(format_args!(
        "Before this line {key} was begun otherwise{line}: each {noun} begins with [[{header}]], also the first.\n"
    ));
    let is_other = |line: &str| line.trim().starts_with("[[") && header_of(line).is_none();
    if let Some(other) = text.lines().take(at).position(is_other) {
        out.add(format_args!(
            "Line {} begins something else: was [[unit]] or [[unit.slave]] meant there?\n",
            other.saturating_add(1)
        ));
    }
    true
}
